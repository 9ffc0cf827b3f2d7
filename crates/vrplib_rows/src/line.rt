//! What a line of an instance text is.
ghost use Rattle.std.specs.Prelude.{◌≡◌, true, false, MatchOption, if◌then◌else◌, bytes_eq, codes};
ghost use Rattle.std.specs.List.{after_first, list_any, position_or_len};
ghost use Rattle.vrplib_model.specs.LineKinds.{end_of_file, is_colon, key_of, line_of, word_line, word_line_of};
ghost use Rattle.vrplib_model.specs.Sections.{is_section_key};
ghost use Rattle.vrplib_rows.specs.Told.{told};

use crate::tokens::trimmed;

/// A line, its parts being pieces of the text (TSPLIB 95: keywords, sections and rows).
#[derive(Clone, Copy)]
pub enum Line<'a> {
    /// An empty line.
    Empty,
    /// The line `EOF`.
    EndOfFile,
    /// A line that opens a section, by its key.
    Section(&'a [u8]),
    /// A keyword's line, by its key and its value.
    Keyword(&'a [u8], &'a [u8]),
    /// Any other line that begins with a letter.
    Word,
    /// A row of numbers, without blanks at its ends.
    Row(&'a [u8]),
}

/// How many bytes stand before the first colon.
fn key_length(line: &[u8]) -> usize
    ensures { result ≡ position_or_len is_colon line.now }
{
    line.iter().take_while(|byte| **byte != b':').count()
}

/// What stands before the first colon, or the whole line, without blanks at its ends.
#[tactic(auto, unfolding(vrplib_model::specs::LineKinds::key_of))]
fn key_of(line: &[u8]) -> &[u8]
    ensures { result.now ≡ key_of line.now }
{
    trimmed(&line[..key_length(line)])
}

/// What follows the first colon.
fn value_of(line: &[u8]) -> Option<&[u8]>
    ensures { MatchOption result (list_any is_colon line.now ≡ false)
        (λ value. (list_any is_colon line.now ≡ true) × (value.now ≡ after_first is_colon line.now)) }
{
    let length = key_length(line);
    if length < line.len() {
        Some(&line[length + 1..])
    } else {
        None
    }
}

/// Whether the key is a section's, known or not.
#[tactic(auto, unfolding(vrplib_model::specs::Sections::is_section_key))]
fn is_section_key(key: &[u8]) -> bool
    ensures { result ≡ is_section_key key.now }
{
    key.ends_with(b"_SECTION")
}

/// What a word line without a colon is.
fn plain_word(line: &[u8]) -> Line<'_>
    ensures { told result ≡ (if bytes_eq line.now (codes "EOF") then end_of_file else word_line) }
{
    if line == b"EOF".as_slice() {
        Line::EndOfFile
    } else {
        Line::Word
    }
}

/// What a line that begins with a letter is.
#[tactic(auto, unfolding(vrplib_model::specs::LineKinds::word_line_of, vrplib_model::specs::LineKinds::value_of))]
fn word_line_of(line: &[u8]) -> Line<'_>
    ensures { told result ≡ word_line_of line.now }
{
    let key = key_of(line);
    if is_section_key(key) {
        return Line::Section(key);
    }
    match value_of(line) {
        Some(value) => Line::Keyword(key, value),
        None => plain_word(line),
    }
}

/// What a line of the text is.
#[tactic(auto, unfolding(vrplib_model::specs::LineKinds::trimmed_line_of))]
pub fn line_of(text: &[u8]) -> Line<'_>
    ensures { told result ≡ line_of text.now }
{
    let line = trimmed(text);
    match line.first() {
        None => Line::Empty,
        Some(first) => {
            if first.is_ascii_alphabetic() {
                word_line_of(line)
            } else {
                Line::Row(line)
            }
        }
    }
}

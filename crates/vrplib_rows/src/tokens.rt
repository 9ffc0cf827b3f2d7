//! The tokens of a line: what stands between its blanks.
ghost use Rattle.std.specs.Prelude.{◌≡◌, ◌∷◌, [], MatchOption, length, reverse};
ghost use Rattle.std.specs.List.{position_or_len};
ghost use Rattle.vrplib_model.specs.Lines.{is_blank, tokens, trimmed, without_indent};

/// Whether a byte is a blank: a space or a tab.
fn is_blank(byte: u8) -> bool
    ensures { result ≡ is_blank byte }
{
    byte == b' ' || byte == b'\t'
}

/// The text without the blanks before it.
fn without_indent(text: &[u8]) -> &[u8]
    ensures { result.now ≡ without_indent text.now }
{
    let mut rest = text;
    while let [first, behind @ ..] = rest {
        if !is_blank(*first) {
            return rest;
        }
        rest = behind;
    }
    rest
}

/// The text without the blanks behind it.
fn without_end_blanks(text: &[u8]) -> &[u8]
    ensures { result.now ≡ reverse (without_indent (reverse text.now)) }
{
    let mut rest = text;
    while let [before @ .., last] = rest {
        if !is_blank(*last) {
            return rest;
        }
        rest = before;
    }
    rest
}

/// The text without the blanks at both ends.
pub(crate) fn trimmed(text: &[u8]) -> &[u8]
    ensures { result.now ≡ trimmed text.now }
{
    without_end_blanks(without_indent(text))
}

/// How many tokens a text has.
pub(crate) fn token_count(text: &[u8]) -> usize
    ensures { result ≡ length (tokens text.now) }
{
    text.split(|byte| is_blank(*byte))
        .filter(|part| !part.is_empty())
        .count()
}

/// How many bytes stand before the first blank.
fn ink_length(text: &[u8]) -> usize
    ensures { result ≡ position_or_len is_blank text.now }
{
    text.iter().take_while(|byte| !is_blank(**byte)).count()
}

/// The first token of a text, and what follows it.
pub fn next_token(text: &[u8]) -> Option<(&[u8], &[u8])>
    ensures { MatchOption result (tokens text.now ≡ []) (λ found. tokens text.now ≡ found.0.now ∷ tokens found.1.now) }
{
    let rest = without_indent(text);
    if rest.is_empty() {
        return None;
    }
    Some(rest.split_at(ink_length(rest)))
}

//! The lines of a text: it is cut at each line feed, one at the very end begins no line, and a carriage return directly before a
//! cut is dropped.
ghost use Rattle.std.specs.Prelude.{◌≡◌, ◌==◌, ◌<◌, ◌∷◌, length};
ghost use Rattle.std.specs.List.{position_or_len};
ghost use Rattle.std.specs.Str.Lines.{lines, strip_carriage_return};

/// How many bytes stand before the first line feed.
fn line_length(text: &[u8]) -> usize
    ensures { result ≡ position_or_len (λ b. b == 10) text.now }
{
    text.iter().take_while(|byte| **byte != b'\n').count()
}

/// A line without the one carriage return at its end, if it has one.
fn without_carriage_return(line: &[u8]) -> &[u8]
    ensures { result.now ≡ strip_carriage_return line.now }
{
    match line.last() {
        Some(b'\r') => &line[..line.len() - 1],
        _ => line,
    }
}

/// The first line of a text that isn't empty, and what follows it.
pub fn next_line(text: &[u8]) -> (&[u8], &[u8])
    requires { 0 < length text.now }
    ensures lines { lines text.now ≡ result.0.now ∷ lines result.1.now }
    ensures shorter { length result.1.now < length text.now }
{
    let length = line_length(text);
    if length < text.len() {
        (
            without_carriage_return(&text[..length]),
            &text[length + 1..],
        )
    } else {
        (text, &[])
    }
}

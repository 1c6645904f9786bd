//! Cutting an input into lines.

ghost use Rattle.std.specs.Prelude.{◌≡◌, ◌==◌, ◌<◌, ◌∷◌, IfSome, length, position};
ghost use Rattle.std.specs.Option.{option_copied};
ghost use Rattle.line_io.specs.Cut.{lines_after, lines_of, says_nothing};

/// Returns the first line of a text, and the text after its line feed if it has one.
pub fn cut_line(text: &[u8]) -> (&[u8], Option<&[u8]>)
    ensures lines { lines_of text.entry.now ≡ result.0.now ∷ lines_after (option_copied result.1) }
    ensures shorter { IfSome result.1 (λ after. length after.now < length text.entry.now) }
{
    match first_line_feed(text) {
        Some(end) => (&text[..end], Some(&text[end + 1..])),
        None => (text, None),
    }
}

/// Returns the index of the first line feed.
fn first_line_feed(text: &[u8]) -> Option<usize>
    ensures { result ≡ position (λ b. b == 10) text.now }
{
    text.iter().position(|byte| *byte == b'\n')
}

/// Returns whether a line is to be skipped: an empty line, or a comment, which begins with `#`.
pub fn is_skipped(line: &[u8]) -> bool
    ensures { result ≡ says_nothing line.now }
{
    line.is_empty() || line[0] == b'#'
}

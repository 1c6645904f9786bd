//! Splitting a text at a character: a line into words, or a word into parts.

ghost use Rattle.std.specs.Prelude.{◌≡◌, ◌==◌, ◌<◌, Err, IfOk, List, length, map, ℕ};
ghost use Rattle.std.specs.List.{list_any, slice_split};
ghost use Rattle.line_io.specs.LineWords.{AreWords};

use crate::refusal::LineError;
use std::alloc::{AllocError, Global};

/// Splits a text at each occurrence of an ASCII character. There is always one part more than there
/// are occurrences, and a part may be empty. Fails only if an allocation fails.
pub fn chunks<'a>(alloc: Global, text: &'a str, separator: char) -> Result<Vec<&'a str>, AllocError>
    requires { separator < 128 }
    ensures { IfOk result (λ v. map (λ x. x.now) v.items ≡ slice_split
        (λ b. b == separator) text.now) }
{
    text.split(separator).collect(alloc)
}

/// Splits a line, without its line feed, at single spaces into words.
///
/// # Errors
///
/// - `Bad`: the line is not UTF-8, or a word is empty (two spaces in a row make an empty word).
/// - `NoMemory`: an allocation failed.
pub fn read_words<'a>(alloc: Global, line: &'a [u8]) -> Result<Vec<&'a str>, LineError>
    ensures ok { IfOk result (λ v. AreWords line.entry.now (map (λ x. x.now) v.items)) }
    ensures bad { result ≡ Err LineError.Bad → (words : List (List ℕ))
        → ¬ AreWords line.entry.now words }
{
    let Ok(text) = std::str::from_utf8(line) else {
        return Err(LineError::Bad);
    };
    let words = chunks(alloc, text, ' ')?;
    if has_empty_word(words.as_slice()) {
        return Err(LineError::Bad);
    }
    Ok(words)
}

/// Returns whether one of the words is empty.
fn has_empty_word(words: &[&str]) -> bool
    ensures { result ≡ list_any (λ word. length word.now == 0) words.now }
{
    words.iter().any(|word| word.is_empty())
}

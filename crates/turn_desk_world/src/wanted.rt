//! Which results the lines of a trace can name. The bytes of the others are not stored.

ghost use Rattle.std.specs.Prelude.{◌≡◌, All, IfOk, OnOk, Some, map};
ghost use Rattle.line_io.specs.Cut.{lines_of};
ghost use Rattle.turn_desk_world.specs.Wanted.{IsCovered, IsPartCovered, IsWanted, IsWordCovered, StaysWanted, named_index, index_in};

use line_io::cut::cut_line;
use line_io::word::chunks;
use std::alloc::{AllocError, Global};
use turn_desk_trace::number::read_u64;

/// Returns for each event line of a trace, in order, whether a line can name its result by `@k`,
/// where k is the number of the event line. The list has one flag per line of the trace, so no
/// event line lacks one.
///
/// # Errors
///
/// - `AllocError`: an allocation failed.
pub(crate) fn wanted_answers(alloc: Global, trace: &[u8]) -> Result<Vec<bool>, AllocError>
    ensures { IfOk result (λ flags. All (IsCovered flags.items) (lines_of trace.now)) }
{
    let mut flags = vec![in alloc; false; count_lines(trace)]?;
    want_lines(alloc, flags.as_mut_slice(), trace)?;
    Ok(flags)
}

/// Returns the number of lines of a text.
fn count_lines(trace: &[u8]) -> usize {
    1 + trace.iter().filter(|byte| **byte == b'\n').count()
}

/// Sets the flags of the results that the lines of a text can name.
fn want_lines(alloc: Global, flags: &mut [bool], text: &[u8]) -> Result<(), AllocError>
    ensures { OnOk result (All (IsCovered flags.new) (lines_of text.now)) }
{
    let mut rest = text;
    'lines: loop {
        let (line, after) = cut_line(rest);
        want_line(alloc, flags, line)?;
        let Some(after) = after else {
            return Ok(());
        };
        rest = after;
    }
}

/// Sets the flags of the results that a line can name. A line that is not UTF-8 names none.
fn want_line(alloc: Global, flags: &mut [bool], line: &[u8]) -> Result<(), AllocError>
    ensures { OnOk result (StaysWanted flags.old flags.new × IsCovered flags.new line.now) }
{
    let Ok(text) = std::str::from_utf8(line) else {
        return Ok(());
    };
    let words = chunks(alloc, text, ' ')?;
    want_words(alloc, flags, words.as_slice())
}

/// Sets the flags of the results that these words can name.
fn want_words(alloc: Global, flags: &mut [bool], words: &[&str]) -> Result<(), AllocError>
    ensures { OnOk result (StaysWanted flags.old flags.new
        × All (λ word. IsWordCovered flags.new word.now) words.now) }
{
    for word in words {
        want_word(alloc, flags, word)?;
    }
    Ok(())
}

/// Sets the flags of the results that a word can name.
fn want_word(alloc: Global, flags: &mut [bool], word: &str) -> Result<(), AllocError>
    ensures { OnOk result (StaysWanted flags.old flags.new × IsWordCovered flags.new word.now) }
{
    let parts = chunks(alloc, word, '+')?;
    want_parts(alloc, flags, parts.as_slice())
}

/// Sets the flags of the results that the parts of a word name.
fn want_parts(alloc: Global, flags: &mut [bool], parts: &[&str]) -> Result<(), AllocError>
    ensures { OnOk result (StaysWanted flags.old flags.new
        × All (λ part. IsPartCovered flags.new part.now) parts.now) }
{
    for part in parts {
        if let Some(index) = index_named(alloc, part)? {
            want(flags, index);
        }
    }
    Ok(())
}

/// Returns the index of the result that a part of a word names, if it begins with `@`.
fn index_named(alloc: Global, part: &str) -> Result<Option<u64>, AllocError>
    ensures { IfOk result (λ index. index ≡ named_index part.now) }
{
    let Some(reference) = part.strip_prefix('@') else {
        return Ok(None);
    };
    let words = chunks(alloc, reference, ':')?;
    Ok(index_in(words.as_slice()))
}

/// Returns the index that `k` or `k:a:b` names, from the words between the colons.
fn index_in(words: &[&str]) -> Option<u64>
    ensures { result ≡ index_in (map (λ x. x.now) words.now) }
{
    match words {
        [event, ..] => read_u64(event)?.checked_sub(1),
        _ => None,
    }
}

/// Sets the flag at an index, if there is one.
#[tactic(auto, using(crate::proofs::WantedLemmas::flags))]
fn want(flags: &mut [bool], index: u64)
    ensures stays { StaysWanted flags.old flags.new }
    ensures set { IsWanted flags.new (Some index) }
{
    let index = index as usize;
    if index < flags.len() {
        flags[index] = true;
    }
}

//! BYTES: parts joined by `+`, each either lower-case hex or bytes from the result of an earlier
//! event line.

ghost use Rattle.std.specs.Prelude.{◌≡◌, Some, None, Err, IfOk, OnOk, map};
ghost use Rattle.std.specs.Option.{option_copied};
ghost use Rattle.line_io.specs.LowerHex.{hex_bytes};
ghost use Rattle.turn_desk_trace.specs.TraceNumbers.{number};
ghost use Rattle.turn_desk_trace.specs.Bytes.{answer_of, answered_part, joined, named_bytes, part_bytes, prepend, range_of, reference_bytes, some_bytes};

use crate::named::Named;
use crate::number::read_u64;
use line_io::lower_hex::{decode_lower, is_no_bytes};
use line_io::refusal::LineError;
use line_io::word::chunks;
use std::alloc::Global;
use stun_types_base::memory::NoMemory;

/// Reads a BYTES word. `-` stands for no bytes. Any other word consists of parts joined by `+`, and
/// gives the bytes of its parts in order.
///
/// `answers` are the results of the event lines so far, the first line's first. The number of bytes
/// is not limited: a word that names a long result several times allocates memory for each time.
///
/// # Errors
///
/// - `Bad`: a part names no bytes.
/// - `NoMemory`: an allocation failed.
pub fn read_bytes(alloc: Global, word: &str, answers: &[Named]) -> Result<Vec<u8>, LineError>
    ensures ok { IfOk result (λ bytes. named_bytes answers.now word.now ≡ Some bytes.items) }
    ensures bad { result ≡ Err LineError.Bad → named_bytes answers.now word.now ≡ None }
{
    if is_no_bytes(word) {
        return Ok(Vec::new(alloc));
    }
    let parts = chunks(alloc, word, '+')?;
    join_parts(alloc, parts.as_slice(), answers)
}

/// Returns the bytes that the parts of a word name, in the order of the parts.
fn join_parts(alloc: Global, parts: &[&str], answers: &[Named]) -> Result<Vec<u8>, LineError>
    ensures ok { IfOk result (λ bytes. joined (map (λ x. part_bytes answers.now x.now) parts.now)
        ≡ Some bytes.items) }
    ensures bad { result ≡ Err LineError.Bad → joined
        (map (λ x. part_bytes answers.now x.now) parts.now) ≡ None }
{
    let mut bytes = Vec::new(alloc);
    for part in parts {
        if let Err(error) = push_part(alloc, &mut bytes, part, answers) {
            return Err(error);
        }
    }
    Ok(bytes)
}

/// Appends the bytes that a part names.
fn push_part(
    alloc: Global,
    bytes: &mut Vec<u8>,
    part: &str,
    answers: &[Named],
) -> Result<(), LineError>
    ensures ok { OnOk result (prepend bytes.old.items (part_bytes answers.now part.now)
        ≡ Some bytes.new.items) }
    ensures bad { result ≡ Err LineError.Bad → part_bytes answers.now part.now ≡ None }
{
    match part.strip_prefix('@') {
        Some(reference) => push_answered(alloc, bytes, reference, answers),
        None => push_hex(alloc, bytes, part),
    }
}

/// Appends the bytes of a part that names a result; `reference` is the part after its `@`.
fn push_answered(
    alloc: Global,
    bytes: &mut Vec<u8>,
    reference: &str,
    answers: &[Named],
) -> Result<(), LineError>
    ensures ok { OnOk result (prepend bytes.old.items (answered_part answers.now reference.now)
        ≡ Some bytes.new.items) }
    ensures bad { result ≡ Err LineError.Bad → answered_part answers.now reference.now ≡ None }
{
    let words = chunks(alloc, reference, ':')?;
    match answered_bytes(words.as_slice(), answers) {
        Some(named) => push_some(bytes, named),
        None => Err(LineError::Bad),
    }
}

/// Appends the bytes of a part in lower-case hex.
fn push_hex(alloc: Global, bytes: &mut Vec<u8>, part: &str) -> Result<(), LineError>
    ensures ok { OnOk result (prepend bytes.old.items (some_bytes (hex_bytes part.now))
        ≡ Some bytes.new.items) }
    ensures bad { result ≡ Err LineError.Bad → some_bytes (hex_bytes part.now) ≡ None }
{
    let decoded = decode_lower(alloc, part)?;
    push_some(bytes, decoded.as_slice())
}

/// Appends the bytes that a part named. Fails with `Bad` if there are none.
fn push_some(bytes: &mut Vec<u8>, named: &[u8]) -> Result<(), LineError>
    ensures ok { OnOk result (prepend bytes.old.items (some_bytes (Some named.now))
        ≡ Some bytes.new.items) }
    ensures bad { result ≡ Err LineError.Bad → some_bytes (Some named.now) ≡ None }
{
    if named.is_empty() {
        return Err(LineError::Bad);
    }
    bytes.extend_from_slice(named)?;
    Ok(())
}

/// Returns the bytes that `k` or `k:a:b` names; `words` are the words between the colons.
#[tactic(auto, unfolding(crate::specs::Bytes::reference_bytes))]
fn answered_bytes<'a>(words: &[&str], answers: &'a [Named]) -> Option<&'a [u8]>
    ensures { option_copied result ≡ reference_bytes answers.entry.now
        (map (λ x. x.now) words.now) }
{
    match words {
        [event] => whole_answer(event, answers),
        [event, from, to] => answer_range(event, from, to, answers),
        _ => None,
    }
}

/// Returns the result bytes of an event line. Event lines are counted from 1.
fn whole_answer<'a>(event: &str, answers: &'a [Named]) -> Option<&'a [u8]>
    ensures { option_copied result ≡ answer_of answers.entry.now (number event.now) }
{
    let Some(event) = read_u64(event) else {
        return None;
    };
    if event == 0 {
        return None;
    }
    match answers.get((event - 1) as usize) {
        Some(answer) => Some(answer.as_slice()),
        None => None,
    }
}

/// Returns a range of the result bytes of an event line: from index `from` up to, not including,
/// index `to`.
fn answer_range<'a>(event: &str, from: &str, to: &str, answers: &'a [Named]) -> Option<&'a [u8]>
    ensures { option_copied result ≡ range_of (answer_of answers.entry.now (number event.now))
        (number from.now) (number to.now) }
{
    let Some(bytes) = whole_answer(event, answers) else {
        return None;
    };
    let (Some(from), Some(to)) = (read_u64(from), read_u64(to)) else {
        return None;
    };
    bytes.get(from as usize..to as usize)
}

//! Reading the whole input of a program.

ghost use Rattle.std.specs.Prelude.{◌≡◌, ◌<◌, ◌≤◌, ◌+◌, length, Ok, true, IfOk, OnOk};
ghost use Rattle.std.specs.Io.KnownBytes.{Consumes, IsAtEnd};
ghost use Rattle.line_io.specs.Input.{ReadsOn, TakesAtMost};

use std::alloc::Global;
use std::io::{ErrorKind, Read};

/// The maximum length of an input in bytes.
pub const MAX_INPUT: usize = 16_777_216;

/// The number of bytes that one read requests at most.
const CHUNK: usize = 4096;

/// Why an input can't be read.
#[derive(Clone, Copy, Debug, PartialEq, Eq)]
pub enum InputError {
    /// An allocation failed, or the reader reports that it is out of memory.
    NoMemory,
    /// The reader failed, or gives more than [`MAX_INPUT`] bytes.
    Fault,
}

/// Reads all bytes of an input. A read that is interrupted is repeated. At most one byte more than
/// [`MAX_INPUT`] is taken from the reader, also if the call fails.
///
/// # Errors
///
/// - `NoMemory`: an allocation failed, or the reader reports that it is out of memory.
/// - `Fault`: the reader failed, or gives more than [`MAX_INPUT`] bytes.
pub fn read_input<I: Read>(alloc: Global, input: &mut I) -> Result<Vec<u8>, InputError>
    ensures bound { IfOk result (λ bytes. length bytes.items ≤ MAX_INPUT) }
    // On success, the bytes are those that were taken from the reader, and none is left there.
    ensures whole { IfOk result (λ bytes. Consumes (I.remaining input.old)
        (I.remaining input.new) bytes.items) }
    ensures end { OnOk result (IsAtEnd (I.remaining input.new)) }
    // On success and on failure, no more bytes than this are taken.
    ensures taken { TakesAtMost (MAX_INPUT + 1) (I.remaining input.old) (I.remaining input.new) }
{
    let mut bytes = Vec::new(alloc);
    let mut chunk = [0u8; CHUNK];
    for _ in 0..u64::MAX {
        let room = room_left(bytes.len());
        match read_on(input, &mut chunk[..room], &mut bytes) {
            Ok(true) => return Ok(bytes),
            Ok(false) => {}
            Err(error) => return Err(error),
        }
        if bytes.len() > MAX_INPUT {
            return Err(InputError::Fault);
        }
    }
    Err(InputError::Fault)
}

/// Returns how many bytes the next read requests, after `taken` bytes were taken.
fn room_left(taken: usize) -> usize
    requires { taken ≤ MAX_INPUT }
    ensures some { 0 < result }
    ensures chunk { result ≤ CHUNK }
    ensures bound { taken + result ≤ MAX_INPUT + 1 }
{
    (MAX_INPUT + 1 - taken).min(CHUNK)
}

/// Reads once into `room`, and appends the bytes that were read to `bytes`. Returns whether the
/// input has ended.
fn read_on<I: Read>(input: &mut I, room: &mut [u8], bytes: &mut Vec<u8>) -> Result<bool, InputError>
    requires { 0 < length room.old }
    ensures step { ReadsOn (length room.old) (I.remaining input.old)
        (I.remaining input.new) bytes.old.items bytes.new.items result }
    ensures end { result ≡ Ok true → IsAtEnd (I.remaining input.new) }
    ensures same { result ≡ Ok true → bytes.new.items ≡ bytes.old.items }
{
    match input.read(room) {
        Ok(0) => Ok(true),
        Ok(count) => match bytes.extend_from_slice(&room[..count]) {
            Ok(()) => Ok(false),
            Err(_) => Err(InputError::NoMemory),
        },
        Err(error) => match error.kind() {
            ErrorKind::Interrupted => Ok(false),
            ErrorKind::OutOfMemory => Err(InputError::NoMemory),
            _ => Err(InputError::Fault),
        },
    }
}

//! Reading the input, and printing its picture.

ghost use Rattle.std.specs.Prelude.{◌≡◌, ◌≢◌, ◌+◌, Err, OnErr, OnOk};
ghost use Rattle.std.specs.Io.KnownBytes.{Keeps};
ghost use Rattle.line_io.specs.Input.{TakesAtMost};
ghost use Rattle.trace_picture.specs.Visible.{Draws, Prints};

use crate::picture::picture;
use line_io::input::{InputError, MAX_INPUT, read_input};
use line_io::status::Status;
use line_io::stop::{Stop, flush, print_stop};
use std::alloc::Global;
use std::io::{Read, Write};

/// Reads a whole input, and prints its picture. If there is no picture, it prints one line instead:
///
/// - `bad trace: line N` at the first bad line; lines are counted from 1. A bad line is one that
///   can't be read; an event line without a result; the line `%`, if there are more results than
///   event lines; or the last line, if no line is `%`.
/// - `no memory` if an allocation failed.
/// - `read fault` if the input can't be read or is too long.
pub(crate) fn draw<I: Read, O: Write>(alloc: Global, input: &mut I, output: &mut O) -> Status
    // At most one byte more than the maximum length of an input is read.
    ensures taken { TakesAtMost (MAX_INPUT + 1) (I.remaining input.old) (I.remaining input.new) }
    // The output is the picture of everything that the reader had, or the reason why there is none.
    ensures printed { Prints result (I.remaining input.old) (I.remaining input.new)
        (O.contents output.old) (O.contents output.new) }
{
    match draw_input(alloc, input, output) {
        Ok(()) => flush(output, Status::Done),
        Err(stop) => print_stop(output, stop),
    }
}

/// Reads a whole input, and prints its picture.
fn draw_input<I: Read, O: Write>(alloc: Global, input: &mut I, output: &mut O) -> Result<(), Stop>
    ensures taken { TakesAtMost (MAX_INPUT + 1) (I.remaining input.old) (I.remaining input.new) }
    ensures done { OnOk result (Draws (I.remaining input.old) (I.remaining input.new)
        (O.contents output.old) (O.contents output.new)) }
    ensures stored { result ≢ Err Stop.Unwritten → OnErr result
        (Keeps (O.contents output.old) (O.contents output.new)) }
{
    let text = match read_input(alloc, input) {
        Ok(text) => text,
        Err(InputError::NoMemory) => return Err(Stop::NoMemory),
        Err(InputError::Fault) => return Err(Stop::Unread),
    };
    match picture(alloc, text.as_slice()) {
        Ok(svg) => match output.write_all(svg.as_bytes()) {
            Ok(()) => Ok(()),
            Err(_) => Err(Stop::Unwritten),
        },
        Err(stop) => Err(stop),
    }
}

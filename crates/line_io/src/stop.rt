//! Why a program stops early, and what it prints then.

ghost use Rattle.std.specs.Prelude.{◌≡◌, ◌≢◌};
ghost use Rattle.std.specs.Io.KnownBytes.{Appends, Keeps};
ghost use Rattle.line_io.specs.Stop.{status_of, stop_of, stop_text};

use crate::refusal::LineError;
use crate::status::Status;
use std::io::Write;

/// Why a program stops early.
#[derive(Clone, Copy, Debug, PartialEq, Eq)]
pub enum Stop {
    /// The line with this number is bad. Lines are counted from 1.
    BadLine(usize),
    /// An allocation failed.
    NoMemory,
    /// The input couldn't be read, or is too long.
    Unread,
    /// Output couldn't be written.
    Unwritten,
}

/// Returns why a program stops when the line with this number fails.
pub fn stop_at(number: usize, error: LineError) -> Stop
    ensures stop { result ≡ stop_of number error }
    ensures written { result ≢ Stop.Unwritten }
{
    match error {
        LineError::Bad => Stop::BadLine(number),
        LineError::NoMemory => Stop::NoMemory,
    }
}

/// Prints why a program stopped, and returns its status, or `Fault` if printing fails. Prints
/// nothing if the reason is that output couldn't be written.
pub fn print_stop<O: Write>(output: &mut O, stop: Stop) -> Status
    ensures status { result ≢ Status.Fault → result ≡ status_of stop }
    ensures printed { result ≢ Status.Fault → Appends (O.contents output.old)
        (O.contents output.new) (stop_text stop) }
{
    let written = match stop {
        Stop::BadLine(number) => writeln!(output, "bad trace: line {number}"),
        Stop::NoMemory => output.write_all(b"no memory\n"),
        Stop::Unread => output.write_all(b"read fault\n"),
        Stop::Unwritten => return Status::Fault,
    };
    match written {
        Ok(()) => flush(output, stop_status(stop)),
        Err(_) => Status::Fault,
    }
}

/// Returns the status of a program that stopped.
fn stop_status(stop: Stop) -> Status
    ensures { result ≡ status_of stop }
{
    match stop {
        Stop::BadLine(_) => Status::BadTrace,
        Stop::NoMemory => Status::NoMemory,
        Stop::Unread | Stop::Unwritten => Status::Fault,
    }
}

/// Flushes the output. Returns `status`, or `Fault` if flushing fails.
pub fn flush<O: Write>(output: &mut O, status: Status) -> Status
    ensures same { result ≢ Status.Fault → result ≡ status }
    ensures stored { Keeps (O.contents output.old) (O.contents output.new) }
{
    match output.flush() {
        Ok(()) => status,
        Err(_) => Status::Fault,
    }
}

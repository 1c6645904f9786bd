//! Why the program stops early, as JSON.

ghost use Rattle.std.specs.Prelude.{◌≡◌, ◌≢◌};
ghost use Rattle.std.specs.Io.KnownBytes.{Appends};
ghost use Rattle.line_io.specs.Stop.{status_of};
ghost use Rattle.stun_inspect.specs.Printed.{stop_object};

use line_io::status::Status;
use line_io::stop::{Stop, flush};
use std::io::Write;

/// Prints why the program stopped, as an object, and returns its status, or `Fault` if printing
/// fails. Prints nothing if the reason is that output couldn't be written. Allocates nothing.
pub(crate) fn print_stop_object<O: Write>(output: &mut O, stop: Stop) -> Status
    ensures status { result ≢ Status.Fault → result ≡ status_of stop }
    ensures printed { result ≢ Status.Fault → Appends (O.contents output.old)
        (O.contents output.new) (stop_object stop) }
{
    let (written, status) = match stop {
        Stop::BadLine(number) => (
            writeln!(
                output,
                "{{\"refused\":{{\"line\":{number},\"name\":\"BadLine\"}}}}"
            ),
            Status::BadTrace,
        ),
        Stop::NoMemory => (
            output.write_all(b"{\"refused\":{\"name\":\"NoMemory\"}}\n"),
            Status::NoMemory,
        ),
        Stop::Unread => (
            output.write_all(b"{\"refused\":{\"name\":\"ReadFault\"}}\n"),
            Status::Fault,
        ),
        Stop::Unwritten => return Status::Fault,
    };
    match written {
        Ok(()) => flush(output, status),
        Err(_) => Status::Fault,
    }
}

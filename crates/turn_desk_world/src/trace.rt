//! The replay of a trace.

ghost use Rattle.std.specs.Prelude.{◌≡◌, ◌≢◌, ◌+◌, ◌≤◌, All, List, ℕ, IfErr, OnOk, length};
ghost use Rattle.std.specs.Io.KnownBytes.{Appends, Consumes};
ghost use Rattle.line_io.specs.Cut.{lines_of};
ghost use Rattle.line_io.specs.Input.{TakesAll, TakesAtMost};
ghost use Rattle.line_io.specs.Stop.{status_of};
ghost use Rattle.turn_desk_world.specs.Progress.{progress_of};
ghost use Rattle.turn_desk_world.specs.Keeping.{IsLineDoneStored};
ghost use Rattle.turn_desk_world.specs.Replay.{IsReplayed, IsStopped, Prints, start};
ghost use Rattle.turn_desk_world.specs.Wanted.{IsCovered};

use crate::progress::Progress;
use crate::wanted::wanted_answers;
use line_io::cut::cut_line;
use line_io::input::{InputError, MAX_INPUT, read_input};
use line_io::status::Status;
use line_io::stop::{Stop, flush, print_stop, stop_at};
use std::alloc::Global;
use std::io::{Read, Write};

/// Reads a whole trace, executes its lines, and prints the result of each event, one line per event
/// line.
///
/// If the replay stops early, it prints one more line:
///
/// - `bad trace: line N` at the first bad line; lines are counted from 1.
/// - `no memory` if an allocation failed.
/// - `read fault` if the trace can't be read or is too long.
///
/// After a failed write nothing more is printed.
///
/// The replay stores the trace, the simulation, at most 40 bytes per line of the trace, and the
/// bytes of those results that a line of the trace can name.
pub fn replay<I: Read, O: Write>(alloc: Global, input: &mut I, output: &mut O) -> Status
    // At most one byte more than the maximum length of a trace is read.
    ensures taken { TakesAtMost (MAX_INPUT + 1) (I.remaining input.old) (I.remaining input.new) }
    // If the replay ends well or at a bad line, the trace is everything that the reader had.
    ensures whole { result ≢ Status.Fault → result ≢ Status.NoMemory
        → TakesAll MAX_INPUT (I.remaining input.old) (I.remaining input.new) }
    // The output is the results of the events of the trace that was read, one line each, and then
    // the line of the status.
    ensures printed { (trace : List ℕ)
        × Consumes (I.remaining input.old) (I.remaining input.new) trace
        × Prints trace result (O.contents output.old) (O.contents output.new) }
{
    match replay_input(alloc, input, output) {
        Ok(()) => flush(output, Status::Done),
        Err(stop) => print_stop(output, stop),
    }
}

/// Reads a whole trace, executes its lines, and prints the results of its events.
fn replay_input<I: Read, O: Write>(alloc: Global, input: &mut I, output: &mut O) -> Result<(), Stop>
    ensures taken { TakesAtMost (MAX_INPUT + 1) (I.remaining input.old) (I.remaining input.new) }
    ensures whole { result ≢ Err Stop.Unread → result ≢ Err Stop.NoMemory
        → TakesAll MAX_INPUT (I.remaining input.old) (I.remaining input.new) }
    ensures printed { (trace : List ℕ)
        × Consumes (I.remaining input.old) (I.remaining input.new) trace
        × IsReplayed trace result (O.contents output.old) (O.contents output.new) }
{
    match read_input(alloc, input) {
        Ok(trace) => replay_lines(alloc, trace.as_slice(), output),
        Err(InputError::NoMemory) => Err(Stop::NoMemory),
        Err(InputError::Fault) => Err(Stop::Unread),
    }
}

/// Executes the lines of a trace, and prints the results of its events.
fn replay_lines<O: Write>(alloc: Global, trace: &[u8], output: &mut O) -> Result<(), Stop>
    requires { length trace.now ≤ MAX_INPUT }
    ensures { IsReplayed trace.now result (O.contents output.old) (O.contents output.new) }
{
    match wanted_answers(alloc, trace) {
        Ok(wanted) => replay_wanted(alloc, trace, wanted.as_slice(), output),
        Err(_) => Err(Stop::NoMemory),
    }
}

/// Executes the lines of a trace, and prints the results of its events. A flag for each result says
/// whether a line can name it.
fn replay_wanted<O: Write>(
    alloc: Global,
    trace: &[u8],
    wanted: &[bool],
    output: &mut O,
) -> Result<(), Stop>
    requires short { length trace.now ≤ MAX_INPUT }
    requires covered { All (IsCovered wanted.now) (lines_of trace.now) }
    ensures { IsReplayed trace.now result (O.contents output.old) (O.contents output.new) }
{
    match Progress::new(alloc, wanted.len()) {
        Ok(mut progress) => {
            let done = go_on(&mut progress, trace, wanted, output);
            drop(progress);
            done
        }
        Err(_) => Err(Stop::NoMemory),
    }
}

/// Executes the lines of a trace from the first one on, and prints the results of its events.
fn go_on<O: Write>(
    progress: &mut Progress,
    trace: &[u8],
    wanted: &[bool],
    output: &mut O,
) -> Result<(), Stop>
    requires short { length trace.now ≤ MAX_INPUT }
    requires covered { All (IsCovered wanted.now) (lines_of trace.now) }
    requires started { progress_of progress.old ≡ start }
    ensures { IsReplayed trace.now result (O.contents output.old) (O.contents output.new) }
{
    let mut rest = trace;
    let mut number = 1usize;
    'lines: loop {
        let (line, after) = cut_line(rest);
        if let Err(stop) = replay_line(progress, number, line, wanted, output) {
            return Err(stop);
        }
        let Some(after) = after else {
            return Ok(());
        };
        rest = after;
        number += 1;
    }
}

/// Executes one line, and prints its result if it is an event line.
fn replay_line<O: Write>(
    progress: &mut Progress,
    number: usize,
    line: &[u8],
    wanted: &[bool],
    output: &mut O,
) -> Result<(), Stop>
    ensures done { OnOk result ((printed : List ℕ)
        × Appends (O.contents output.old) (O.contents output.new) printed
        × IsLineDoneStored wanted.now (progress_of progress.old) line.now printed
        (progress_of progress.new)) }
    ensures stopped { IfErr result (λ stop. status_of stop ≢ Status.Fault
        → (O.contents output.new ≡ O.contents output.old)
        × IsStopped (progress_of progress.old) number line.now stop) }
{
    match progress.take_line(line, wanted) {
        Ok(None) => Ok(()),
        Ok(Some(text)) => print_line(text.as_str(), output),
        Err(error) => Err(stop_at(number, error)),
    }
}

/// Prints a line.
fn print_line<O: Write>(text: &str, output: &mut O) -> Result<(), Stop>
    ensures printed { OnOk result (Appends (O.contents output.old)
        (O.contents output.new) text.now) }
    ensures stopped { IfErr result (λ stop. stop ≡ Stop.Unwritten) }
{
    match output.write_all(text.as_bytes()) {
        Ok(()) => Ok(()),
        Err(_) => Err(Stop::Unwritten),
    }
}

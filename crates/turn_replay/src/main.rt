//! `turn-replay`: reads a trace from standard input, and prints the result of each of its event
//! lines. The exit status is:
//!
//! - 0: every line was executed, or an argument asks for the help or the version.
//! - 1: there is a bad line.
//! - 2: an allocation failed.
//! - 3: the trace could not be read, or the results could not be written.
//! - 64: an argument is refused.
//!
//! Input that begins with the byte `%` holds several traces, each preceded by that byte. (A single
//! trace never begins with it.) After the results of each trace the program prints `status N`,
//! where N is the exit status for that trace alone. The program's exit status is then 0 if the
//! whole input was read and buffered, and the results were written; otherwise it is 1.
#![tactic(auto)]

mod arguments;

use crate::arguments::read_arguments;
use std::io;
use std::io::{BufRead, Read};
use std::process::ExitCode;
use turn_desk_world::trace::replay;

/// The byte that begins each of several traces.
const MARK: u8 = b'%';

fn main(rt: HostRuntime) -> ExitCode {
    if let Err(status) = read_arguments(&rt) {
        return status;
    }
    let mut input = rt.reader();
    if begins_with_mark(&mut input) {
        return match replay_several(&rt, &mut input) {
            Ok(()) => ExitCode::SUCCESS,
            Err(_) => ExitCode::FAILURE,
        };
    }
    let status = replay(rt.alloc(), &mut input, &mut io::writer(&rt));
    ExitCode::from(status.number())
}

/// Returns whether the input begins with the mark. Consumes nothing.
fn begins_with_mark<I: BufRead>(input: &mut I) -> bool {
    match input.fill_buf() {
        Ok(bytes) => bytes.first() == Some(&MARK),
        Err(_) => false,
    }
}

/// Replays each of several traces, and prints its status after its results.
fn replay_several<I: Read>(rt: &HostRuntime, input: &mut I) -> io::Result<()> {
    let mut traces = Vec::new(rt.alloc());
    input.read_to_end(&mut traces)?;
    for trace in traces.as_slice().split(|byte| *byte == MARK).skip(1) {
        let status = replay(rt.alloc(), &mut &*trace, &mut io::writer(rt));
        println!(rt; "status {}", status.number())?;
    }
    Ok(())
}

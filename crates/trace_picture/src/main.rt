//! `trace-picture`: reads a trace and the results of its event lines from standard input, separated
//! by a line `%`, and prints a picture of both, a sequence diagram in SVG. `docs/TRACE.md` says
//! what is drawn.
//!
//! The exit status is:
//!
//! - 0: the picture was drawn, or an argument asks for the help or the version.
//! - 1: there is a bad line.
//! - 2: an allocation failed.
//! - 3: the input could not be read, or the picture could not be written.
//! - 64: an argument is refused.
#![tactic(auto)]

mod arguments;
mod escape;
mod event;
mod head;
mod kind;
mod label;
mod pen;
mod picture;
mod report;
mod row;
mod sent;

use crate::arguments::read_arguments;
use crate::report::draw;
use std::io;
use std::process::ExitCode;

fn main(rt: HostRuntime) -> ExitCode {
    match read_arguments(&rt) {
        Ok(()) => {
            let status = draw(rt.alloc(), &mut rt.reader(), &mut io::writer(&rt));
            ExitCode::from(status.number())
        }
        Err(status) => status,
    }
}

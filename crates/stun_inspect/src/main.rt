//! `stun-inspect`: reads lines from standard input that contain messages, attributes, channel
//! frames and streams in hex, or a capture of packets, and describes each of them, one fact a line,
//! or as JSON. `docs/INSPECT.md` describes the language.
//!
//! The exit status is:
//!
//! - 0: every line was executed or every packet read, or the arguments ask for help or the version.
//! - 1: there is a bad line, or the capture is bad.
//! - 2: an allocation failed.
//! - 3: the input could not be read, or the output could not be written.
//! - 64: an argument is refused.
#![tactic(auto)]

mod arguments;
mod body;
mod capture;
mod dump;
mod flows;
mod line;
mod message;
mod packet;
mod report;
mod stop_object;
mod stream;

use crate::arguments::{Input, read_arguments};
use crate::dump::inspect_capture;
use crate::report::inspect;
use std::io;
use std::process::ExitCode;

fn main(rt: HostRuntime) -> ExitCode {
    match read_arguments(&rt) {
        Ok(wanted) => {
            let (alloc, form) = (rt.alloc(), wanted.form);
            let status = match wanted.input {
                Input::Lines => inspect(alloc, form, &mut rt.reader(), &mut io::writer(&rt)),
                Input::Pcap => inspect_capture(alloc, form, &mut rt.reader(), &mut io::writer(&rt)),
            };
            ExitCode::from(status.number())
        }
        Err(status) => status,
    }
}

//! Runs the operations that the lines of standard input name and prints the results. They use an
//! agent of STUN requests, the authenticators, and the digests, keys and nonces from which these
//! are built.
//!
//! - A byte `%` ends each section of the input but the last.
//! - The first line of a section names what its other lines use: `agent`, `client`, `short`,
//!   `server` or `values`.
//! - A line consists of words separated by single spaces. The first is the operation; each other
//!   word is a name, `=` and a value.
//! - Empty lines and lines that begin with `#` are skipped.
//! - The result of a line that cannot be parsed is `bad line`.
//!
//! The program runs no function of [`calls`] and [`apart`]. Each function of the first makes one call
//! of a server's authenticator, and its contract says that the call is a step of the runs in the
//! theorem `addresses_are_isolated` of `stun_proto`, unless a memory allocation fails. The second
//! makes a run of several calls for two addresses, and concludes by the theorem what one of them
//! gets.
#![tactic(auto)]

mod agent;
mod apart;
mod calls;
mod client;
mod digests;
mod keys;
mod line;
mod party;
mod server;
mod signing;
mod text;
mod values;
mod waits;

use crate::agent::new_agent;
use crate::line::Line;
use crate::party::{Party, take_lines};
use crate::server::new_server;
use crate::values::Values;
use line_io::cut::cut_line;
use line_io::refusal::LineError;
use line_io::word::read_words;
use std::io;
use std::io::Read;
use stun_proto_client::long_term::LongTermClientAuth;
use stun_proto_client::short_term::ShortTermAuth;

fn main(rt: HostRuntime) -> io::Result<()> {
    let mut input = Vec::new(rt.alloc());
    let done = match rt.reader().read_to_end(&mut input) {
        Ok(_) => take_sections(&rt, input.as_slice()),
        Err(error) => Err(error),
    };
    drop(input);
    done
}

/// Runs each section.
fn take_sections(rt: &HostRuntime, input: &[u8]) -> io::Result<()> {
    for section in input.split(|byte| *byte == b'%') {
        let (head, lines) = cut_line(section);
        let taken = match read_words(rt.alloc(), head) {
            Ok(words) => take_section(rt, words.as_slice(), lines.unwrap_or_default()),
            Err(error) => println!(rt; "{error}"),
        };
        taken?;
    }
    Ok(())
}

/// Runs the lines of a section, whose first line has these words.
fn take_section(rt: &HostRuntime, words: &[&str], lines: &[u8]) -> io::Result<()> {
    match Line::read(words) {
        Ok(head) => match head.what {
            "agent" => take_lines(rt, new_agent(rt.alloc(), &head), lines),
            "client" => take_lines(rt, LongTermClientAuth::new(rt.alloc()), lines),
            "short" => take_lines(rt, ShortTermAuth::new(), lines),
            "server" => match new_server(rt.alloc(), head.realm) {
                Ok(server) => take_lines(rt, server, lines),
                Err(error) => println!(rt; "{error}"),
            },
            "values" => take_lines(rt, Values, lines),
            _ => println!(rt; "{}", LineError::Bad),
        },
        Err(error) => println!(rt; "{error}"),
    }
}

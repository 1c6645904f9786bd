//! Makes the calls that each line of standard input names, and prints the results. The lines are
//! about a TURN client's settings, its errors, the payloads that it returns, what it sends, the
//! requests that it writes, and permissions of several addresses.
//!
//! - A line consists of words separated by single spaces. The first word names the call.
//! - An empty line and a line that begins with `#` are skipped.
//! - Bytes are in lower-case hex; `-` stands for no bytes, and for the empty text.
//!
//! `tests/oracle/rows_client.py` generates the lines and the expected output.
#![tactic(auto)]

mod agents;
mod errors;
mod line;
mod payloads;
mod permits;
mod requests;
mod sends;
mod settings;

use crate::line::Line;
use line_io::cut::is_skipped;
use line_io::word::read_words;
use std::io;
use std::io::Read;
use turn_client_proto_api::config::TurnConfig;

fn main(rt: HostRuntime) -> io::Result<()> {
    let mut input = Vec::new(rt.alloc());
    let done = match rt.reader().read_to_end(&mut input) {
        Ok(_) => take_all(&rt, input.as_slice()),
        Err(error) => Err(error),
    };
    drop(input);
    done
}

/// Runs each line, and stores all settings that the lines make.
fn take_all(rt: &HostRuntime, input: &[u8]) -> io::Result<()> {
    let mut stored = Vec::new(rt.alloc());
    let done = take_each(rt, input, &mut stored);
    drop(stored);
    done
}

/// Runs each line that is not skipped.
fn take_each(rt: &HostRuntime, input: &[u8], stored: &mut Vec<TurnConfig>) -> io::Result<()> {
    for line in input.split(|byte| *byte == b'\n') {
        if !is_skipped(line) {
            take(rt, line, stored)?;
        }
    }
    Ok(())
}

/// Prints the first word of a line and the output for the line.
fn take(rt: &HostRuntime, line: &[u8], stored: &mut Vec<TurnConfig>) -> io::Result<()> {
    match read_words(rt.alloc(), line) {
        Ok(words) => {
            let mut line = Line::new(rt.alloc(), words.as_slice());
            let kind = line.word();
            ask(&mut line, kind, stored);
            if line.is_bad {
                println!(rt; "{kind} bad line")
            } else {
                println!(rt; "{kind}{}", line.answer)
            }
        }
        Err(_) => println!(rt; "bad line"),
    }
}

/// Makes the call of a line.
fn ask(line: &mut Line<'_>, kind: &str, stored: &mut Vec<TurnConfig>) {
    match kind {
        "settings" => settings::settings(line, stored),
        "debug" => settings::debug(line),
        "agent" => agents::agent(line, stored.as_slice()),
        "error" => errors::error(line),
        "payload" => payloads::payload(line),
        "owned" => payloads::owned(line),
        "send" => sends::send(line),
        "request" => requests::request(line),
        "permits" => permits::permits(line),
        _ => line.is_bad = true,
    }
}

//! Makes the call that each line of standard input names, and prints the results.
//!
//! - A line consists of words separated by single spaces. The first word names the call.
//! - An empty line and a line that begins with `#` are skipped.
//! - Bytes are in lower-case hex, or `-` for none. In bytes and in texts `NN*3` stands for `NN`
//!   three times.
//!
//! `tests/oracle/rows_wire.py` generates the lines and the expected output.
#![tactic(auto)]

mod changed;
mod frames;
mod line;
mod made;
mod messages;
mod moved;
mod names;
mod objected;
mod read;
mod small;
mod streams;
mod written;

use crate::line::Line;
use line_io::cut::is_skipped;
use line_io::word::read_words;
use std::io;
use std::io::Read;

fn main(rt: HostRuntime) -> io::Result<()> {
    let mut input = Vec::new(rt.alloc());
    rt.reader().read_to_end(&mut input)?;
    for line in input.as_slice().split(|byte| *byte == b'\n') {
        if !is_skipped(line) {
            take(&rt, line)?;
        }
    }
    Ok(())
}

/// Prints the first word of a line and the output for the line.
fn take(rt: &HostRuntime, line: &[u8]) -> io::Result<()> {
    match read_words(rt.alloc(), line) {
        Ok(words) => {
            let mut line = Line::new(rt.alloc(), words.as_slice());
            let kind = line.word();
            ask(&mut line, kind);
            if line.is_bad {
                println!(rt; "{kind} bad line")
            } else {
                println!(rt; "{kind}{}", line.answer)
            }
        }
        Err(_) => println!(rt; "bad line"),
    }
}

/// Makes the call of a line.
fn ask(line: &mut Line<'_>, kind: &str) {
    match kind {
        "stream" => streams::stream(line),
        "channel" => frames::channel(line),
        "frame" => frames::frame(line),
        "send" | "told" => frames::indication(line, kind == "send"),
        "raw" => read::raw(line),
        "check" => read::check(line),
        "plain" => read::plain(line),
        "look" => read::look(line),
        "message" => messages::message(line),
        "lent" => messages::lent(line),
        "judge" => messages::judge(line),
        "object" => objected::object(line),
        "outlive" => changed::outlive(line),
        "change" => changed::change(line),
        "change-lent" => changed::change_lent(line),
        "names" => names::names(line),
        "moved" => moved::moved(line),
        _ => small::ask(line, kind),
    }
}

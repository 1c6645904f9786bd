//! The object that the lines of a section use.

use crate::line::Line;
use line_io::cut::is_skipped;
use line_io::lower_hex::read_hex;
use line_io::refusal::LineError;
use line_io::word::read_words;
use std::alloc::Global;
use std::io;

/// The object that the lines of a section use.
pub(crate) trait Party: Drop {
    /// Runs a line, whose bytes argument is decoded to these bytes, and appends the result.
    fn answer(
        &mut self,
        alloc: Global,
        line: &Line<'_>,
        bytes: &[u8],
        text: &mut String,
    ) -> Result<(), LineError>;
}

/// Runs each line and drops the object that the lines use.
pub(crate) fn take_lines<P: Party>(rt: &HostRuntime, party: P, lines: &[u8]) -> io::Result<()> {
    let mut party = party;
    let done = take_each(rt, &mut party, lines);
    drop(party);
    done
}

/// Runs each line and prints its result.
fn take_each<P: Party>(rt: &HostRuntime, party: &mut P, lines: &[u8]) -> io::Result<()> {
    for line in lines.split(|byte| *byte == b'\n') {
        if !is_skipped(line) {
            let mut text = String::new(rt.alloc());
            let printed = match take(rt.alloc(), party, line, &mut text) {
                Ok(()) => println!(rt; "{text}"),
                Err(error) => println!(rt; "{error}"),
            };
            drop(text);
            printed?;
        }
    }
    Ok(())
}

/// Runs a line and appends its result.
fn take<P: Party>(
    alloc: Global,
    party: &mut P,
    line: &[u8],
    text: &mut String,
) -> Result<(), LineError> {
    let words = read_words(alloc, line)?;
    match Line::read(words.as_slice()) {
        Ok(line) => match read_hex(alloc, line.bytes) {
            Ok(bytes) => party.answer(alloc, &line, bytes.as_slice(), text),
            Err(error) => Err(error),
        },
        Err(error) => Err(error),
    }
}

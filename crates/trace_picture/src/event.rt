//! The parts of an event line, and the text beside its arrow.

use crate::kind::Kind;
use line_io::lower_hex::read_hex;
use line_io::refusal::LineError;
use std::alloc::{AllocError, Global};

/// The first words of lines that have no time.
const WITHOUT_TIME: [&str; 10] = [
    "event",
    "have",
    "permissions",
    "channels",
    "connections",
    "error",
    "relayed",
    "cause",
    "mapped",
    "alternate",
];

/// An event line and its result.
#[derive(Clone, Copy)]
pub(crate) struct Event<'w, 'l, 't, 'a> {
    /// The kind of the line.
    pub kind: Kind,
    /// The words of the line.
    pub words: &'w [&'l str],
    /// The result.
    pub answer: &'a str,
    /// The words of the result.
    pub reported: &'t [&'a str],
}

impl<'w, 'l, 't, 'a> Event<'w, 'l, 't, 'a> {
    /// Returns the time of the line, in nanoseconds, or `None` if it has none.
    pub(crate) fn time(&self) -> Option<u64> {
        match self.words {
            [first, now, ..] if reports_time(first) => now.parse::<u64>().ok(),
            _ => None,
        }
    }

    /// Returns whether the line is counted: a look at the client is not.
    pub(crate) fn is_counted(&self) -> bool {
        self.kind != Kind::Looking
    }

    /// Returns the word for the bytes that the line delivers to the client or to the server core.
    pub(crate) fn delivered(&self) -> Option<&'l str> {
        delivered_word(self.words)
    }

    /// Returns the bytes of the result, which are empty if it has none.
    pub(crate) fn answered(&self, alloc: Global) -> Result<Vec<u8>, LineError> {
        read_hex(alloc, answered_word(self.reported))
    }

    /// Returns the result, without its first word if this is also the first word of the line.
    pub(crate) fn visible(&self) -> &'a str {
        match (self.words, self.answer.split_once(' ')) {
            ([first, ..], Some((head, rest))) if head == *first => rest,
            _ => self.answer,
        }
    }

    /// Appends the line without its time.
    pub(crate) fn push_call(&self, text: &mut String) -> Result<(), AllocError> {
        let mut left_out = self.time().is_some();
        for (at, word) in self.words.iter().enumerate() {
            if at == 1 && left_out {
                left_out = false;
                continue;
            }
            if at > 0 {
                text.push_str(" ")?;
            }
            text.push_str(word)?;
        }
        Ok(())
    }
}

/// Returns the word for the bytes that a line with these words delivers to the client or to the
/// server core.
pub(crate) fn delivered_word<'l>(words: &[&'l str]) -> Option<&'l str> {
    match words {
        ["todesk", _, _, bytes, ..] | ["toclient", _, _, _, bytes] => Some(bytes),
        _ => None,
    }
}

/// Returns the word for the bytes of a result with these words, or `-` if it has none.
fn answered_word<'a>(reported: &[&'a str]) -> &'a str {
    match reported {
        ["transmit" | "peer", _, _, hex] | ["reply", hex] => hex,
        _ => "-",
    }
}

/// Returns whether the second word of a line is a time, from the line's first word.
fn reports_time(first: &str) -> bool {
    !WITHOUT_TIME.contains(&first)
}

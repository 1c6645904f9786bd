//! Which event lines' bytes are delivered to the client or to the server core.

use line_io::word::chunks;
use std::alloc::{AllocError, Global};

/// The event lines whose bytes a later line delivers to the client or to the server core, by their
/// numbers.
#[derive(Drop)]
pub(crate) struct Delivered {
    /// One flag for each line so far: whether the event line with this number is one whose bytes
    /// are delivered.
    indexes: Vec<bool>,
}

impl Delivered {
    /// Returns an empty list.
    pub(crate) fn new(alloc: Global) -> Delivered {
        Delivered {
            indexes: Vec::new(alloc),
        }
    }

    /// Makes room for one more line. No line names a later one.
    pub(crate) fn begin_line(&mut self) -> Result<(), AllocError> {
        self.indexes.push(false)?;
        Ok(())
    }

    /// Returns whether the bytes of an event line are delivered.
    pub(crate) fn has(&self, number: usize) -> bool {
        match self.indexes.get(number) {
            Some(is_delivered) => *is_delivered,
            None => false,
        }
    }

    /// Notes the lines whose bytes a BYTES word names.
    pub(crate) fn note(&mut self, alloc: Global, word: &str) -> Result<(), AllocError> {
        let parts = chunks(alloc, word, '+')?;
        for part in parts.as_slice() {
            if let Some(number) = answered_by(part) {
                if let Some(index) = self.indexes.get_mut(number) {
                    *index = true;
                }
            }
        }
        Ok(())
    }
}

/// Returns the number of the event line whose result a part of a BYTES word names, `@k` or
/// `@k:a:b`.
pub(crate) fn answered_by(part: &str) -> Option<usize> {
    let reference = part.strip_prefix('@')?;
    match reference.split_once(':') {
        Some((number, _)) => number.parse::<usize>().ok(),
        None => reference.parse::<usize>().ok(),
    }
}

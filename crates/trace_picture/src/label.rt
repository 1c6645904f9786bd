//! Labels, one below another.

use crate::row::{Label, Position};
use line_io::word::chunks;
use std::alloc::{AllocError, Global};

/// The maximum number of characters of a label.
const WIDEST: usize = 42;

/// The distance between two labels, one below the other, in pixels.
pub(crate) const STEP: usize = 14;

/// The space in a row below its last baseline, in pixels.
const BELOW: usize = 4;

/// The distance of an arrow from the top of its row, in pixels. The arrow is below the baseline of
/// its name.
pub(crate) const ARROW: usize = 19;

/// A list of labels.
#[derive(Drop)]
pub(crate) struct Labels {
    alloc: Global,
    labels: Vec<Label>,
}

impl Labels {
    /// Returns an empty list.
    pub(crate) fn new(alloc: Global) -> Labels {
        Labels {
            alloc,
            labels: Vec::new(alloc),
        }
    }

    /// Adds a label, shortened if the text is too long.
    pub(crate) fn put(&mut self, index: Position, at: usize, text: &str) -> Result<(), AllocError> {
        let mut short = String::new(self.alloc);
        push_shortened(&mut short, text)?;
        self.labels.push(Label {
            index,
            at,
            text: short,
        })?;
        Ok(())
    }

    /// Adds the lines of a text as labels of an arrow in a row with this top. The first line is the
    /// arrow's name; the others are below the arrow. Returns the height of the row's bottom.
    pub(crate) fn stack(
        &mut self,
        indexes: (Position, Position),
        top: usize,
        text: &str,
    ) -> Result<usize, AllocError> {
        let lines = chunks(self.alloc, text, '\n')?;
        self.stack_lines(indexes, top, lines.as_slice())
    }

    /// Adds these lines as labels of an arrow, as `stack` does.
    fn stack_lines(
        &mut self,
        (name, more): (Position, Position),
        top: usize,
        lines: &[&str],
    ) -> Result<usize, AllocError> {
        let arrow = top.saturating_add(ARROW);
        let (mut at, mut foot) = (top.saturating_add(STEP), arrow);
        let mut index = name;
        for line in lines {
            self.put(index, at, line)?;
            foot = foot.max(at);
            at = foot.max(arrow).saturating_add(STEP);
            index = more;
        }
        Ok(foot.saturating_add(BELOW))
    }

    /// Returns the labels.
    pub(crate) fn into_vec(self) -> Vec<Label> {
        self.labels
    }
}

/// Appends a text of at most [`WIDEST`] characters. A longer one is cut, and ends with `…`.
fn push_shortened(short: &mut String, text: &str) -> Result<(), AllocError> {
    let mut left = WIDEST;
    for c in text.chars() {
        if left == 0 {
            short.pop();
            return short.push('…');
        }
        left -= 1;
        short.push(c)?;
    }
    Ok(())
}

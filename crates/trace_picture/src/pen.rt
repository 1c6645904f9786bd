//! The state while rows are drawn, from the first to the last.

ghost use Rattle.std.specs.Prelude.{IfOk};
ghost use Rattle.trace_picture.specs.Lines.{IsMarked};

use crate::event::Event;
use crate::kind::{Kind, carries, marks_of};
use crate::label::{ARROW, Labels, STEP};
use crate::row::{Label, Position, Row};
use crate::sent::{Delivered, answered_by};
use line_io::lower_hex::read_hex;
use line_io::refusal::LineError;
use std::alloc::{AllocError, Global};
use stun_describe::lines::push_lines;
use stun_describe::names::names;
use stun_types_base::memory::NoMemory;
use stun_types_wire::names::Names;

/// The height of the lifeline heads' baseline, in pixels from the top.
const HEAD: usize = 22;

/// The height of the first row's top, in pixels from the top.
const TOP: usize = 40;

/// The distance between two rows with the same time, in pixels.
const CLOSE: usize = 8;

/// The maximum distance between two rows, in pixels.
const APART: usize = 64;

/// The distance of a time's baseline from the top of its row, in pixels. It is above a call.
const TIME: usize = 4;

/// The number of nanoseconds in a millisecond.
const MILLISECOND: u64 = 1_000_000;

/// The state while rows are drawn.
#[derive(Drop)]
pub(crate) struct Pen {
    alloc: Global,
    names: Names,
    delivered: Delivered,
    /// The bytes of the result of each event line so far.
    answers: Vec<Vec<u8>>,
    /// The height at which the next row begins.
    down: usize,
    /// The last time that a line had.
    time: Option<u64>,
    /// The heads of the two lifelines, if a line has set up a client.
    heads: Option<(String, String)>,
}

/// The heights of the arrows of a row.
#[derive(Clone, Copy)]
struct Laid {
    /// Whether no later line delivers the bytes of the result.
    lost: bool,
    /// The height of the first arrow, in pixels from the top.
    first: usize,
    /// The height of a reply's arrow, in pixels from the top.
    reply: usize,
}

impl Pen {
    /// Returns the state before the first row.
    pub(crate) fn new(alloc: Global, delivered: Delivered) -> Result<Pen, NoMemory> {
        Ok(Pen {
            alloc,
            names: names(alloc)?,
            delivered,
            answers: Vec::new(alloc),
            down: TOP,
            time: None,
            heads: None,
        })
    }

    /// Returns the height of the picture.
    pub(crate) fn height(&self) -> usize {
        self.down.saturating_add(STEP)
    }

    /// Returns the heads of the two lifelines.
    pub(crate) fn heads(&self) -> Result<Vec<Label>, AllocError> {
        let mut labels = Labels::new(self.alloc);
        let (client, desk) = match &self.heads {
            Some((client, desk)) => (client.as_str(), desk.as_str()),
            None => ("no client", "desk"),
        };
        labels.put(Position::Client, HEAD, client)?;
        labels.put(Position::Desk, HEAD, desk)?;
        Ok(labels.into_vec())
    }

    /// Returns the allocator.
    pub(crate) fn alloc(&self) -> Global {
        self.alloc
    }

    /// Takes the heads of the two lifelines from the words of a setup line, if it is a `client`
    /// line.
    pub(crate) fn set_up(&mut self, words: &[&str]) -> Result<(), AllocError> {
        if let ["client", transport, local, remote, ..] = words {
            let client = format!(in self.alloc; "client {local}, {transport}")?;
            let desk = format!(in self.alloc; "desk {remote}")?;
            self.heads = Some((client, desk));
        }
        Ok(())
    }

    /// Returns the row of an event line.
    pub(crate) fn row(
        &mut self,
        line: &str,
        event: &Event<'_, '_, '_, '_>,
    ) -> Result<Row, LineError>
        ensures { IfOk result (IsMarked line.now event.now) }
    {
        let mut labels = Labels::new(self.alloc);
        let laid = self.lay(&mut labels, event)?;
        Ok(Row {
            line: String::from_str(self.alloc, line)?,
            answer: String::from_str(self.alloc, event.answer)?,
            marks: marks_of(
                self.alloc,
                event.kind,
                carries(event.reported),
                laid.lost,
                laid.first,
                laid.reply,
            )?,
            labels: labels.into_vec(),
        })
    }

    /// Adds the labels of a row, stores the bytes of its result if it is counted, and the height of
    /// its bottom, and returns the heights of its arrows.
    fn lay(
        &mut self,
        labels: &mut Labels,
        event: &Event<'_, '_, '_, '_>,
    ) -> Result<Laid, LineError> {
        let top = self.begin(labels, event)?;
        let number = self.answers.len().saturating_add(1);
        let answered = event.answered(self.alloc)?;
        let (reply, foot) = self.describe(labels, event, answered.as_slice(), top)?;
        if event.is_counted() {
            self.answers.push(answered)?;
        }
        self.down = foot;
        Ok(Laid {
            lost: !self.delivered.has(number),
            first: top.saturating_add(ARROW),
            reply,
        })
    }

    /// Begins a row: adds its number if it is counted, and its time if this differs from the last
    /// one. Returns the height of the row's top.
    fn begin(
        &mut self,
        labels: &mut Labels,
        event: &Event<'_, '_, '_, '_>,
    ) -> Result<usize, AllocError> {
        let mut gap = CLOSE;
        let time = event.time();
        if let Some(now) = time {
            gap = gap_between(self.time, now);
        }
        let top = self.down.saturating_add(gap);
        if event.is_counted() {
            self.put_number(labels, top.saturating_add(ARROW))?;
        }
        if let Some(now) = time {
            if self.time != time {
                self.put_time(labels, top.saturating_add(TIME), now)?;
            }
            self.time = time;
        }
        Ok(top)
    }

    /// Adds the number of a row.
    fn put_number(&self, labels: &mut Labels, at: usize) -> Result<(), AllocError> {
        let number = self.answers.len().saturating_add(1);
        let text = format!(in self.alloc; "{number}")?;
        labels.put(Position::Number, at, text.as_str())
    }

    /// Adds a time.
    fn put_time(&self, labels: &mut Labels, at: usize, now: u64) -> Result<(), AllocError> {
        let text = time_in_words(self.alloc, now)?;
        labels.put(Position::Time, at, text.as_str())
    }

    /// Adds the text beside the arrows of a row. Returns the height of a reply's arrow, and that of
    /// the row's bottom.
    fn describe(
        &self,
        labels: &mut Labels,
        event: &Event<'_, '_, '_, '_>,
        answered: &[u8],
        top: usize,
    ) -> Result<(usize, usize), LineError> {
        let near = (Position::Near, Position::NearMore);
        let beside = top.saturating_add(ARROW);
        match event.kind {
            Kind::ToDesk => self.describe_desk(labels, event, answered, top),
            Kind::ToClient => {
                labels.put(Position::BesideMore, beside, event.answer)?;
                Ok((top, self.stack_delivered(labels, near, top, event, "")?))
            }
            Kind::Drawing | Kind::Sending if carries(event.reported) => {
                self.put_call(labels, beside, event)?;
                Ok((top, self.stack_bytes(labels, near, top, answered)?))
            }
            _ => Ok((top, self.stack_call(labels, top, event)?)),
        }
    }

    /// Adds the text for the bytes that reach the server core, and for its reply. Returns the
    /// height of the reply's arrow, and that of the row's bottom.
    fn describe_desk(
        &self,
        labels: &mut Labels,
        event: &Event<'_, '_, '_, '_>,
        answered: &[u8],
        top: usize,
    ) -> Result<(usize, usize), LineError> {
        let far = (Position::Far, Position::FarMore);
        if !carries(event.reported) {
            return Ok((
                top,
                self.stack_delivered(labels, far, top, event, "\nno reply")?,
            ));
        }
        let below = self.stack_delivered(labels, far, top, event, "")?;
        let below = below.saturating_add(CLOSE);
        let foot = self.stack_bytes(labels, far, below, answered)?;
        Ok((below.saturating_add(ARROW), foot))
    }

    /// Adds a call, without its time, in one line.
    fn put_call(
        &self,
        labels: &mut Labels,
        at: usize,
        event: &Event<'_, '_, '_, '_>,
    ) -> Result<(), AllocError> {
        let mut call = String::new(self.alloc);
        event.push_call(&mut call)?;
        labels.put(Position::BesideMore, at, call.as_str())
    }

    /// Adds a call, without its time, and its result below. Returns the height of their bottom.
    fn stack_call(
        &self,
        labels: &mut Labels,
        top: usize,
        event: &Event<'_, '_, '_, '_>,
    ) -> Result<usize, AllocError> {
        let mut text = String::new(self.alloc);
        event.push_call(&mut text)?;
        text.push_str("\n")?;
        text.push_str(event.visible())?;
        labels.stack((Position::Beside, Position::BesideMore), top, text.as_str())
    }

    /// Adds the description of bytes. Returns the height of its bottom.
    fn stack_bytes(
        &self,
        labels: &mut Labels,
        indexes: (Position, Position),
        top: usize,
        bytes: &[u8],
    ) -> Result<usize, NoMemory> {
        let mut text = String::new(self.alloc);
        push_lines(self.alloc, &mut text, bytes, &self.names)?;
        let foot = labels.stack(indexes, top, text.as_str())?;
        Ok(foot)
    }

    /// Adds the description of the bytes that reach the client or the server core, and the text
    /// `more` after it. Returns the height of their bottom.
    fn stack_delivered(
        &self,
        labels: &mut Labels,
        indexes: (Position, Position),
        top: usize,
        event: &Event<'_, '_, '_, '_>,
        more: &str,
    ) -> Result<usize, LineError> {
        let mut text = String::new(self.alloc);
        self.push_delivered(&mut text, event.delivered())?;
        text.push_str(more)?;
        let foot = labels.stack(indexes, top, text.as_str())?;
        Ok(foot)
    }

    /// Appends the description of a BYTES word, in lines. A word with several parts, or one that
    /// names a range of a result, is printed as it is, under the heading `pieces`. For other words
    /// the result that it names is described, or its hex bytes.
    fn push_delivered(&self, text: &mut String, word: Option<&str>) -> Result<(), LineError> {
        let Some(word) = word else {
            return Err(LineError::Bad);
        };
        if word.contains('+') || (word.contains('@') && word.contains(':')) {
            write!(text, "pieces\n{word}")?;
        } else if let Some(number) = answered_by(word) {
            let Some(bytes) = self.answer(number) else {
                return Err(LineError::Bad);
            };
            push_lines(self.alloc, text, bytes, &self.names)?;
        } else {
            let bytes = read_hex(self.alloc, word)?;
            push_lines(self.alloc, text, bytes.as_slice(), &self.names)?;
        }
        Ok(())
    }

    /// Returns the bytes of the result of an earlier event line, counted from 1, or `None` if there
    /// is no such line or its result has no bytes.
    fn answer(&self, number: usize) -> Option<&[u8]> {
        if number == 0 {
            return None;
        }
        match self.answers.get(number - 1) {
            Some(bytes) if !bytes.is_empty() => Some(bytes.as_slice()),
            _ => None,
        }
    }
}

/// Returns the distance between two rows, in pixels. It grows with the number of digits of the time
/// between them in milliseconds.
fn gap_between(before: Option<u64>, now: u64) -> usize {
    let Some(before) = before else {
        return CLOSE;
    };
    match now.saturating_sub(before) / MILLISECOND {
        0 => CLOSE,
        1..=9 => 16,
        10..=99 => 24,
        100..=999 => 32,
        1_000..=9_999 => 48,
        _ => APART,
    }
}

/// Returns a time as text: in seconds from ten seconds on, otherwise in milliseconds. `…` stands
/// for a fraction of a millisecond.
fn time_in_words(alloc: Global, now: u64) -> Result<String, AllocError> {
    let whole = now / MILLISECOND;
    let more = if now % MILLISECOND == 0 { "" } else { "…" };
    if whole < 10_000 {
        format!(in alloc; "{whole}{more} ms")
    } else {
        format!(in alloc; "{}.{:03}{more} s", whole / 1_000, whole % 1_000)
    }
}

//! Replays of a trace by readers and writers that fail.

use std::alloc::Global;
use std::io;
use std::io::{Error, ErrorKind, Read, Write};
use turn_desk::replay;

/// A reader of a remark of `left` bytes, after which it fails or ends.
#[derive(Drop)]
struct Remark {
    left: usize,
    fails: Option<ErrorKind>,
}

impl Read for Remark {
    fn read(&mut self, buf: &mut [u8]) -> io::Result<usize> {
        match self.fails {
            Some(kind) if self.left == 0 => Err(Error::from(kind)),
            _ => {
                let count = buf.len().min(self.left);
                buf[..count].fill(b'#');
                self.left -= count;
                Ok(count)
            }
        }
    }
}

/// A reader of a trace in chunks of `size` bytes, which fails once, after `reads` reads.
#[derive(Drop)]
struct Chunks<'a> {
    rest: &'a [u8],
    size: usize,
    reads: usize,
    fails: ErrorKind,
}

impl Read for Chunks<'_> {
    fn read(&mut self, buf: &mut [u8]) -> io::Result<usize> {
        if self.reads == 0 {
            self.reads = usize::MAX;
            return Err(Error::from(self.fails));
        }
        self.reads -= 1;
        let count = buf.len().min(self.size);
        self.rest.read(&mut buf[..count])
    }
}

/// A writer that has room for `room` bytes, of which one write takes at most `size`, and then
/// fails. It may also fail when it is flushed. It stores what it accepted.
#[derive(Drop)]
struct Narrow {
    stored: Vec<u8>,
    size: usize,
    room: usize,
    flushes: bool,
}

impl Write for Narrow {
    fn write(&mut self, buf: &[u8]) -> io::Result<usize> {
        if self.room == 0 {
            return Err(Error::from(ErrorKind::StorageFull));
        }
        let count = buf.len().min(self.size).min(self.room);
        self.room -= count;
        self.stored.write(&buf[..count])
    }

    fn flush(&mut self) -> io::Result<()> {
        if self.flushes {
            Ok(())
        } else {
            Err(Error::from(ErrorKind::BrokenPipe))
        }
    }
}

/// A trace of 86 bytes, whose last line is no line of a trace.
const TRACE: &[u8] =
    b"desk realm sha1 auto\ntodesk 0 10.0.0.1:1 - 0 grant\ntodesk 0 10.0.0.1:1 - 0 grant\nhello";

/// Returns how a reader fails: `none` means that it ends.
fn failure(word: &str) -> Option<ErrorKind> {
    match word {
        "fault" => Some(ErrorKind::BrokenPipe),
        "memory" => Some(ErrorKind::OutOfMemory),
        "interrupted" => Some(ErrorKind::Interrupted),
        _ => None,
    }
}

/// `remark LEFT FAILS`: replays a remark of LEFT bytes, after which the reader fails or ends.
/// Prints the exit status, how many bytes were read, and the output.
pub(crate) fn replay_remark(
    rt: &impl Print,
    alloc: Global,
    left: usize,
    fails: &str,
) -> anyhow::Result<()> {
    let fails = failure(fails);
    let mut input = Remark { left, fails };
    let mut output = Vec::new(alloc);
    let status = replay(alloc, &mut input, &mut output).number();
    let read = left.saturating_sub(input.left);
    print!(rt; "remark {status} {read} ")?;
    print_text(rt, output.as_slice())
}

/// `chunks SIZE READS FAILS`: replays the trace by a reader that gives at most SIZE bytes a read
/// and fails once, after READS reads. Prints the exit status and the output.
pub(crate) fn replay_chunks(
    rt: &impl Print,
    alloc: Global,
    size: usize,
    reads: usize,
    fails: &str,
) -> anyhow::Result<()> {
    let mut input = Chunks {
        rest: TRACE,
        size,
        reads,
        fails: failure(fails).unwrap_or(ErrorKind::BrokenPipe),
    };
    let mut output = Vec::new(alloc);
    let status = replay(alloc, &mut input, &mut output).number();
    print!(rt; "chunks {status} ")?;
    print_text(rt, output.as_slice())
}

/// `writer SIZE ROOM FLUSHES`: replays the trace by a writer that takes at most SIZE bytes a write
/// and ROOM bytes in all, and that fails when it is flushed if FLUSHES is `false`. Prints the exit
/// status and what was written.
pub(crate) fn replay_to(
    rt: &impl Print,
    alloc: Global,
    size: usize,
    room: usize,
    flushes: bool,
) -> anyhow::Result<()> {
    let mut input = TRACE;
    let mut output = Narrow {
        stored: Vec::new(alloc),
        size,
        room,
        flushes,
    };
    let status = replay(alloc, &mut input, &mut output).number();
    print!(rt; "writer {status} ")?;
    print_text(rt, output.stored.as_slice())
}

/// Prints text in quotation marks, with `\n` at the end of each line.
fn print_text(rt: &impl Print, bytes: &[u8]) -> anyhow::Result<()> {
    let text = str::from_utf8(bytes)?;
    println!(rt; "{text:?}")?;
    Ok(())
}

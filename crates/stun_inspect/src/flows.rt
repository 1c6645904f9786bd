//! Streams of TCP, put together from the packets of a capture.

use crate::packet::Segment;
use std::alloc::Global;
use std::collections::BTreeMap;
use std::net::SocketAddr;
use stun_types_base::memory::NoMemory;
use stun_types_wire::header::MessageHeader;

/// One direction of a connection: from where, and to where.
pub(crate) type Direction = (SocketAddr, SocketAddr);

/// A stream in one direction.
#[derive(Drop)]
struct Stream {
    /// The sequence number of the byte that comes next.
    next: u32,
    /// The bytes that weren't taken yet: of a message or frame that is still incomplete.
    buffered: Vec<u8>,
    /// Whether a message was taken.
    has_started: bool,
}

/// What a segment does to a stream.
#[derive(Clone, Copy, Debug, PartialEq, Eq)]
pub(crate) enum Change {
    /// It adds bytes.
    Grown,
    /// It adds nothing: it has no new bytes, or no stream that is followed.
    Nothing,
    /// Bytes before it are lacking: this many. The stream is no longer followed.
    Gap(u32),
}

/// The streams that are followed.
#[derive(Drop)]
pub(crate) struct Flows {
    alloc: Global,
    streams: BTreeMap<Direction, Stream>,
}

impl Flows {
    pub(crate) fn new(alloc: Global) -> Flows {
        Flows {
            alloc,
            streams: BTreeMap::new(alloc),
        }
    }

    /// Adds a segment. A stream is followed from its beginning (SYN) on, or from a segment on that
    /// begins with the header of a message.
    pub(crate) fn add(
        &mut self,
        direction: Direction,
        segment: Segment<'_>,
    ) -> Result<Change, NoMemory> {
        if segment.is_first {
            // the SYN itself has a number
            let next = segment.sequence.wrapping_add(1);
            self.follow(direction, next)?;
            return self.grow(direction, next, segment.bytes);
        }
        if !self.streams.contains_key(&direction) {
            if MessageHeader::from_bytes(segment.bytes).is_err() {
                return Ok(Change::Nothing);
            }
            self.follow(direction, segment.sequence)?;
        }
        self.grow(direction, segment.sequence, segment.bytes)
    }

    /// Returns the bytes of a stream that weren't taken yet.
    pub(crate) fn buffered(&self, direction: Direction) -> &[u8] {
        match self.streams.get(&direction) {
            Some(stream) => stream.buffered.as_slice(),
            None => &[],
        }
    }

    /// Returns whether a message was taken from a stream.
    pub(crate) fn has_started(&self, direction: Direction) -> bool {
        match self.streams.get(&direction) {
            Some(stream) => stream.has_started,
            None => false,
        }
    }

    /// Takes the first bytes of a stream.
    pub(crate) fn take(&mut self, direction: Direction, count: usize) {
        if let Some(stream) = self.streams.get_mut(&direction) {
            drop_first(&mut stream.buffered, count);
            stream.has_started = stream.has_started || count > 0;
        }
    }

    /// Follows a stream no longer.
    pub(crate) fn forget(&mut self, direction: Direction) {
        self.streams.remove(&direction);
    }

    /// Follows a stream from this sequence number on.
    fn follow(&mut self, direction: Direction, next: u32) -> Result<(), NoMemory> {
        let stream = Stream {
            next,
            buffered: Vec::new(self.alloc),
            has_started: false,
        };
        self.streams.insert(direction, stream)?;
        Ok(())
    }

    /// Adds bytes to a stream that is followed.
    fn grow(
        &mut self,
        direction: Direction,
        sequence: u32,
        bytes: &[u8],
    ) -> Result<Change, NoMemory> {
        let Some(stream) = self.streams.get_mut(&direction) else {
            return Ok(Change::Nothing);
        };
        match new_part(stream.next, sequence, bytes) {
            Part::New(part) => {
                stream.buffered.extend_from_slice(part)?;
                stream.next = stream.next.wrapping_add(size_of_part(part));
                Ok(Change::Grown)
            }
            Part::Old => Ok(Change::Nothing),
            Part::Ahead(count) => {
                self.streams.remove(&direction);
                Ok(Change::Gap(count))
            }
        }
    }
}

/// What is new in a segment.
enum Part<'a> {
    /// These bytes, and nothing lacks before them.
    New(&'a [u8]),
    /// Nothing.
    Old,
    /// This many bytes lack before it.
    Ahead(u32),
}

/// Returns what is new in a segment of a stream whose next byte has the number `next`. Numbers wrap
/// around (RFC 9293, section 3.4).
fn new_part(next: u32, sequence: u32, bytes: &[u8]) -> Part<'_> {
    if bytes.is_empty() {
        return Part::Old;
    }
    let ahead = sequence.wrapping_sub(next);
    if ahead == 0 {
        return Part::New(bytes);
    }
    if ahead < 0x8000_0000 {
        return Part::Ahead(ahead);
    }
    let skipped = usize::try_from(next.wrapping_sub(sequence)).unwrap_or(usize::MAX);
    match bytes.get(skipped..) {
        Some(part) if !part.is_empty() => Part::New(part),
        _ => Part::Old,
    }
}

/// Returns the length of a part, as sequence numbers count it.
fn size_of_part(part: &[u8]) -> u32 {
    u32::try_from(part.len()).unwrap_or(u32::MAX)
}

/// Removes the first bytes, or all if there are fewer.
fn drop_first(bytes: &mut Vec<u8>, count: usize) {
    if count >= bytes.len() {
        bytes.clear();
    } else {
        bytes.drain(..count);
    }
}

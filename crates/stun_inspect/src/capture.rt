//! Captures of packets in files of the format pcap (draft-ietf-opsawg-pcap), as `tcpdump -w` writes
//! them.

use crate::packet::Link;

/// The maximum number of bytes of a packet that a record may have, as in libpcap.
const MAX_PACKET: usize = 262_144;

/// Where in the head of a file its type of links stands.
const LINK_AT: usize = 20;

/// Why a capture can't be read, or can't be read on.
#[derive(Clone, Copy, Debug, PartialEq, Eq)]
pub(crate) enum CaptureError {
    /// The input doesn't begin with the head of a pcap file.
    NotPcap,
    /// The input is a file of the format pcapng.
    Pcapng,
    /// The packets are those of a link of this type, which isn't read.
    Link(u32),
    /// The record of this packet is incomplete, or has more than 262,144 bytes. Packets are counted
    /// from 1.
    Packet(usize),
}

/// A packet, as it stands in a record.
#[derive(Clone, Copy)]
pub(crate) struct Record<'a> {
    /// When it was captured, in seconds since 1970.
    pub(crate) seconds: u32,
    /// The part of a second, in microseconds or nanoseconds.
    pub(crate) fraction: u32,
    /// Its bytes, with the head of the link. Where they were cut, the captured ones.
    pub(crate) bytes: &'a [u8],
}

/// A capture, of which some records were read.
#[derive(Clone, Copy)]
pub(crate) struct Capture<'a> {
    is_little: bool,
    /// Whether times are in nanoseconds.
    pub(crate) is_nano: bool,
    /// What a packet begins with.
    pub(crate) link: Link,
    rest: &'a [u8],
    /// How many records were read.
    pub(crate) count: usize,
}

impl<'a> Capture<'a> {
    /// Reads the head of a file.
    pub(crate) fn open(bytes: &'a [u8]) -> Result<Capture<'a>, CaptureError> {
        let (is_little, is_nano) = match bytes {
            [0xD4, 0xC3, 0xB2, 0xA1, ..] => (true, false),
            [0xA1, 0xB2, 0xC3, 0xD4, ..] => (false, false),
            [0x4D, 0x3C, 0xB2, 0xA1, ..] => (true, true),
            [0xA1, 0xB2, 0x3C, 0x4D, ..] => (false, true),
            [0x0A, 0x0D, 0x0D, 0x0A, ..] => return Err(CaptureError::Pcapng),
            _ => return Err(CaptureError::NotPcap),
        };
        let Some((number, rest)) = word_at(is_little, bytes, LINK_AT) else {
            return Err(CaptureError::NotPcap);
        };
        // the upper half says of Ethernet how long a check sequence is, which nothing here reads
        let number = number % 0x1_0000;
        match Link::of_number(number) {
            Some(link) => Ok(Capture {
                is_little,
                is_nano,
                link,
                rest,
                count: 0,
            }),
            None => Err(CaptureError::Link(number)),
        }
    }

    /// Reads the next record. `None` if there is none.
    pub(crate) fn next_record(&mut self) -> Option<Result<Record<'a>, CaptureError>> {
        if self.rest.is_empty() {
            return None;
        }
        self.count = self.count.saturating_add(1);
        Some(match read_record(self.is_little, self.rest) {
            Some((record, rest)) => {
                self.rest = rest;
                Ok(record)
            }
            None => Err(CaptureError::Packet(self.count)),
        })
    }
}

/// Reads a record, and returns it and the bytes after it.
fn read_record(is_little: bool, bytes: &[u8]) -> Option<(Record<'_>, &[u8])> {
    let (seconds, after_seconds) = word_at(is_little, bytes, 0)?;
    let (fraction, after_fraction) = word_at(is_little, after_seconds, 0)?;
    let (captured, after_captured) = word_at(is_little, after_fraction, 0)?;
    let (_, packets) = word_at(is_little, after_captured, 0)?;
    let size = usize::try_from(captured).unwrap_or(usize::MAX);
    if size > MAX_PACKET {
        return None;
    }
    let bytes = packets.get(..size)?;
    let record = Record {
        seconds,
        fraction,
        bytes,
    };
    Some((record, packets.get(size..)?))
}

/// Reads a number of four bytes, and returns it and the bytes after it.
fn word_at(is_little: bool, bytes: &[u8], at: usize) -> Option<(u32, &[u8])> {
    let [a, b, c, d, rest @ ..] = bytes.get(at..)? else {
        return None;
    };
    let word = [*a, *b, *c, *d];
    let number = if is_little {
        u32::from_le_bytes(word)
    } else {
        u32::from_be_bytes(word)
    };
    Some((number, rest))
}

//! An input line: its words, and the output for it.

use line_io::lower_hex::{read_hex, write_hex};
use std::alloc::Global;
use std::fmt::Display;
use std::net::{IpAddr, Ipv4Addr, SocketAddr};
use std::str::FromStr;
use stun_types_add::attribute::Fingerprint;
use stun_types_wire::attribute::AttributeType;
use stun_types_wire::error::StunParseError;
use stun_types_wire::transaction::TransactionId;
use stun_types_write::attribute::AttributeWrite;

/// The maximum length of bytes that are printed in full. Longer bytes are printed as their length
/// and CRC-32.
const MOST_LISTED: usize = 256;

/// The words of a line, how many were read, and the output so far.
#[derive(Drop)]
pub(crate) struct Line<'a> {
    pub(crate) alloc: Global,
    words: &'a [&'a str],
    read: usize,
    pub(crate) answer: String,
    pub(crate) is_bad: bool,
}

impl<'a> Line<'a> {
    pub(crate) fn new(alloc: Global, words: &'a [&'a str]) -> Line<'a> {
        Line {
            alloc,
            words,
            read: 0,
            answer: String::new(alloc),
            is_bad: false,
        }
    }

    /// Returns the next word.
    pub(crate) fn word(&mut self) -> &'a str {
        let words = self.words;
        let word = words.get(self.read).copied();
        self.is_bad = self.is_bad || word.is_none();
        self.read = self.read.saturating_add(1);
        word.unwrap_or("")
    }

    /// Returns how many words are left to read.
    pub(crate) fn left(&self) -> usize {
        self.words.len().saturating_sub(self.read)
    }

    /// Parses the next word. Returns `other` if it cannot be parsed.
    pub(crate) fn value<T: FromStr + Drop>(&mut self, other: T) -> T
    where
        T::Err: Drop,
    {
        match self.word().parse::<T>() {
            Ok(value) => value,
            Err(_) => {
                self.is_bad = true;
                other
            }
        }
    }

    /// Parses the next word as a socket address.
    pub(crate) fn address(&mut self) -> SocketAddr {
        self.value(SocketAddr::new(IpAddr::V4(Ipv4Addr::new(0, 0, 0, 0)), 0))
    }

    /// Parses the next word as hex bytes. `-` means no bytes; `NN*3` means `NN` three times.
    pub(crate) fn bytes(&mut self) -> Vec<u8> {
        let word = self.word();
        let (once, count) = word.split_once('*').unwrap_or((word, "1"));
        let all = match read_hex(self.alloc, once) {
            Ok(bytes) => bytes
                .as_slice()
                .repeat(self.alloc, count.parse::<usize>().unwrap_or(0)),
            Err(_) => {
                self.is_bad = true;
                Ok(Vec::new(self.alloc))
            }
        };
        all.unwrap_or(Vec::new(self.alloc))
    }

    /// Returns the next word as text. `a*3` means `aaa`.
    pub(crate) fn text(&mut self) -> String {
        let word = self.word();
        let (once, count) = word.split_once('*').unwrap_or((word, "1"));
        let all = once.repeat(self.alloc, count.parse::<usize>().unwrap_or(0));
        all.unwrap_or(String::new(self.alloc))
    }

    /// Parses the next word as attribute types in hex, two bytes each.
    pub(crate) fn types(&mut self) -> Vec<AttributeType> {
        let bytes = self.bytes();
        let mut types = Vec::new(self.alloc);
        for pair in bytes.as_slice().chunks_exact(2) {
            let _ = types.push(AttributeType(u16::from_be_bytes([pair[0], pair[1]])));
        }
        types
    }

    /// Parses the next word as a 16-bit integer in hex.
    pub(crate) fn number(&mut self) -> u16 {
        let number = u16::from_str_radix(self.word(), 16);
        self.is_bad = self.is_bad || number.is_err();
        number.unwrap_or(0)
    }

    /// Parses the next word as a transaction ID in hex.
    pub(crate) fn transaction(&mut self) -> TransactionId {
        let number = u128::from_str_radix(self.word(), 16);
        self.is_bad = self.is_bad || number.is_err();
        TransactionId::from(number.unwrap_or(0))
    }

    /// Appends a value to the output, as `Display` prints it.
    pub(crate) fn say<T: Display>(&mut self, value: &T) {
        let _ = write!(self.answer, " {value}");
    }

    /// Appends a call's value or error to the output.
    pub(crate) fn gave<T: Display + Drop, E: Display + Drop>(&mut self, answer: Result<T, E>) {
        match answer {
            Ok(value) => self.say(&value),
            Err(error) => self.say(&error),
        }
    }

    /// Appends bytes in hex to the output, `-` for none. For many bytes it appends their length and
    /// CRC-32.
    pub(crate) fn hex(&mut self, bytes: &[u8]) {
        let crc = Fingerprint::compute(bytes);
        let visible = if bytes.len() > MOST_LISTED {
            self.say(&bytes.len());
            crc.as_slice()
        } else {
            bytes
        };
        if let Ok(text) = write_hex(self.alloc, visible) {
            self.say(&text);
        }
    }

    /// Appends an attribute's bytes to the output: header, value and padding.
    pub(crate) fn attribute<A: AttributeWrite>(&mut self, attribute: &A) {
        if let Ok(raw) = attribute.to_raw(self.alloc) {
            if let Ok(bytes) = raw.to_bytes(self.alloc) {
                self.hex(bytes.as_slice());
            }
        }
    }

    /// Appends a name and the attribute that was read, or a name and the error, to the output.
    /// Appends nothing if the attribute has another type.
    pub(crate) fn read<A: AttributeWrite + Drop>(
        &mut self,
        name: &str,
        read: Result<A, StunParseError>,
    ) {
        match read {
            Ok(attribute) => {
                self.say(&name);
                self.attribute(&attribute);
            }
            Err(StunParseError::WrongAttributeImplementation) => {}
            Err(error) => {
                self.say(&name);
                self.say(&error);
            }
        }
    }
}

//! An input line: its words, and the output for it.

use line_io::lower_hex::{read_hex, write_hex};
use std::alloc::Global;
use std::fmt::Display;
use std::net::{IpAddr, Ipv4Addr, SocketAddr};
use std::str::FromStr;
use std::time::Duration;

/// The words of a line, how many were read, and the output so far.
#[derive(Drop)]
pub(crate) struct Line<'a> {
    pub(crate) alloc: Global,
    words: &'a [&'a str],
    read: usize,
    pub(crate) answer: String,
    pub(crate) is_bad: bool,
}

impl<'a> Line<'a> {
    pub(crate) fn new(alloc: Global, words: &'a [&'a str]) -> Line<'a> {
        Line {
            alloc,
            words,
            read: 0,
            answer: String::new(alloc),
            is_bad: false,
        }
    }

    /// Returns the next word.
    pub(crate) fn word(&mut self) -> &'a str {
        let words = self.words;
        let word = words.get(self.read).copied();
        self.is_bad = self.is_bad || word.is_none();
        self.read = self.read.saturating_add(1);
        word.unwrap_or("")
    }

    /// Returns how many words are left to read.
    pub(crate) fn left(&self) -> usize {
        self.words.len().saturating_sub(self.read)
    }

    /// Returns the next word as text; `-` is the empty text.
    pub(crate) fn text(&mut self) -> &'a str {
        match self.word() {
            "-" => "",
            word => word,
        }
    }

    /// Parses the next word. Returns `other` if it cannot be parsed.
    pub(crate) fn value<T: FromStr + Drop>(&mut self, other: T) -> T
    where
        T::Err: Drop,
    {
        match self.word().parse::<T>() {
            Ok(value) => value,
            Err(_) => {
                self.is_bad = true;
                other
            }
        }
    }

    /// Parses the next word as a socket address.
    pub(crate) fn address(&mut self) -> SocketAddr {
        self.value(SocketAddr::new(IpAddr::V4(Ipv4Addr::UNSPECIFIED), 0))
    }

    /// Parses the next word as milliseconds; `max` is the longest duration.
    pub(crate) fn duration(&mut self) -> Duration {
        match self.word() {
            "max" => Duration::MAX,
            word => {
                let millis = word.parse::<u64>();
                self.is_bad = self.is_bad || millis.is_err();
                Duration::from_millis(millis.unwrap_or(0))
            }
        }
    }

    /// Parses the next word as an index; `max` is the greatest index.
    pub(crate) fn index(&mut self) -> usize {
        match self.word() {
            "max" => usize::MAX,
            word => {
                let index = word.parse::<usize>();
                self.is_bad = self.is_bad || index.is_err();
                index.unwrap_or(0)
            }
        }
    }

    /// Parses the next word as hex bytes; `-` means no bytes.
    pub(crate) fn bytes(&mut self) -> Vec<u8> {
        let bytes = read_hex(self.alloc, self.word());
        self.is_bad = self.is_bad || bytes.is_err();
        bytes.unwrap_or(Vec::new(self.alloc))
    }

    /// Parses the next word as a 16-bit integer in hex.
    pub(crate) fn number(&mut self) -> u16 {
        let number = u16::from_str_radix(self.word(), 16);
        self.is_bad = self.is_bad || number.is_err();
        number.unwrap_or(0)
    }

    /// Appends a value to the output, as `Display` prints it.
    pub(crate) fn say<T: Display>(&mut self, value: &T) {
        let _ = write!(self.answer, " {value}");
    }

    /// Appends a text to the output, `-` if it is empty.
    pub(crate) fn say_text(&mut self, text: &str) {
        self.say(&if text.is_empty() { "-" } else { text });
    }

    /// Appends bytes in hex to the output, `-` for none.
    pub(crate) fn hex(&mut self, bytes: &[u8]) {
        if let Ok(text) = write_hex(self.alloc, bytes) {
            self.say(&text);
        }
    }
}

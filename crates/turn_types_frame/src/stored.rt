//! A queue of bytes: appended at the end, removed at the start.

ghost use Rattle.std.specs.Prelude.{◌≡◌, ◌==◌, ◌≤◌, ◌++◌, [], length, take, drop, OnOk, OnErr};

use crate::stun_types_base::memory::NoMemory;
use std::alloc::Global;
use std::marker::Model;

/// A queue of bytes, appended at the end and removed at the start. Contracts see the remaining
/// bytes.
///
/// Removal only advances the start. The remaining bytes are moved when at least as many bytes as
/// remain have been removed. So each byte is moved about once, however many chunks and frames there
/// are.
#[derive(Debug, Drop)]
pub(crate) struct Stored {
    bytes: Vec<u8>,
    start: usize,
}

impl Model for Stored {
    ghost use Rattle.std.specs.Prelude.{ℕ, List, ◌≤◌, length, drop};

    ghost Value = { List ℕ };

    ghost view = { λ k. drop k.start k.bytes.items };

    ghost invariant = { λ k. k.start ≤ length k.bytes.items };
}

impl Stored {
    /// Creates an empty queue, which has allocated no memory yet.
    pub(crate) fn new(alloc: Global) -> Stored
        ensures { result ≡ [] }
    {
        Stored {
            bytes: Vec::new(alloc),
            start: 0,
        }
    }

    /// The bytes.
    pub(crate) fn as_slice(&self) -> &[u8]
        ensures { result.now ≡ self.now }
    {
        let (_, bytes) = self.bytes.as_slice().split_at(self.start);
        bytes
    }

    /// Returns the number of bytes.
    pub(crate) fn len(&self) -> usize
        ensures { result ≡ length self.now }
    {
        self.bytes.len() - self.start
    }

    /// Appends bytes.
    ///
    /// # Errors
    ///
    /// - `NoMemory`: an allocation failed. Nothing changes.
    pub(crate) fn push(&mut self, more: &[u8]) -> Result<(), NoMemory>
        ensures ok { OnOk result (self.new ≡ self.old ++ more.now) }
        ensures err { OnErr result (self.new ≡ self.old) }
    {
        if self.start >= self.len() {
            close_up(&mut self.bytes, self.start);
            self.start = 0;
        }
        self.bytes.extend_from_slice(more)?;
        Ok(())
    }

    /// Removes `count` bytes from the start.
    pub(crate) fn advance(&mut self, count: usize)
        requires { count ≤ length self.old }
        ensures { self.new ≡ drop count self.old }
    {
        self.start += count;
    }

    /// Removes bytes from the end until `len` are left.
    pub(crate) fn shorten(&mut self, len: usize)
        requires { len ≤ length self.old }
        ensures { self.new ≡ take len self.old }
    {
        self.bytes.truncate(self.start + len);
    }

    /// Removes all bytes.
    pub(crate) fn clear(&mut self)
        ensures { self.new ≡ [] }
    {
        self.bytes.clear();
        self.start = 0;
    }

    /// Returns the bytes in a vector.
    pub(crate) fn into_vec(self) -> Vec<u8>
        ensures { result.items ≡ self }
    {
        let Stored { bytes, start } = self;
        let mut bytes = bytes;
        close_up(&mut bytes, start);
        bytes
    }
}

/// Removes `start` bytes from the start, and moves the others there.
fn close_up(bytes: &mut Vec<u8>, start: usize)
    requires { start ≤ length bytes.old.items }
    ensures { bytes.new.items ≡ drop start bytes.old.items }
{
    let len = bytes.len() - start;
    bytes.copy_within(start.., 0);
    bytes.truncate(len);
}

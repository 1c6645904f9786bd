//! What is sent to a server for a peer, before its bytes are written (RFC 8656, sections 11.1 and
//! 12.5).

ghost use Rattle.std.specs.Prelude.{◌≡◌, length};
ghost use Rattle.turn_client_proto_api.specs.Payloads.{part_of};

use crate::data::part;
use std::alloc::Global;
use std::convert::AsSlice;
use std::fmt::Debug;
use std::marker::Model;
use std::ops::Range;
use stun_types_base::memory::NoMemory;
use turn_types_frame::build::DelayedTransmitBuild;
use turn_types_frame::delayed_channel::DelayedChannel;
use turn_types_frame::delayed_message::DelayedMessage;

/// What carries a payload to a peer. Its bytes are written later.
#[derive(Debug, Drop)]
pub enum DelayedMessageOrChannelSend<T: AsSlice<u8>> {
    /// A frame of a channel (RFC 8656, section 12.5).
    Channel(DelayedChannel<T>),
    /// A SEND indication (RFC 8656, section 11.1).
    Message(DelayedMessage<T>),
    /// The payload itself, on a connection of its own (RFC 6062, section 4.5).
    Data(T),
    /// Bytes that are written already.
    OwnedData(Vec<u8>),
}

impl<T: AsSlice<u8> + Debug + Drop> DelayedTransmitBuild for DelayedMessageOrChannelSend<T> {
    ghost use Rattle.turn_client_proto_api.specs.Sends.{send_text};

    ghost text = { send_text T.items };

    fn len(&self) -> usize {
        match self {
            DelayedMessageOrChannelSend::Channel(frame) => frame.len(),
            DelayedMessageOrChannelSend::Message(message) => message.len(),
            DelayedMessageOrChannelSend::Data(bytes) => bytes.as_slice().len(),
            DelayedMessageOrChannelSend::OwnedData(bytes) => bytes.len(),
        }
    }

    fn write_into(self, dest: &mut [u8]) -> usize {
        match self {
            DelayedMessageOrChannelSend::Channel(frame) => frame.write_into(dest),
            DelayedMessageOrChannelSend::Message(message) => message.write_into(dest),
            DelayedMessageOrChannelSend::Data(bytes) => copied(bytes.as_slice(), dest),
            DelayedMessageOrChannelSend::OwnedData(bytes) => copied(bytes.as_slice(), dest),
        }
    }

    fn build(self, alloc: Global) -> Result<Vec<u8>, NoMemory> {
        match self {
            DelayedMessageOrChannelSend::Channel(frame) => frame.build(alloc),
            DelayedMessageOrChannelSend::Message(message) => message.build(alloc),
            DelayedMessageOrChannelSend::Data(bytes) => {
                Ok(Vec::from_slice(alloc, bytes.as_slice())?)
            }
            DelayedMessageOrChannelSend::OwnedData(bytes) => Ok(bytes),
        }
    }
}

/// Copies bytes into a slice of the same length, and returns that length.
fn copied(bytes: &[u8], dest: &mut [u8]) -> usize
    requires { length dest.old ≡ length bytes.now }
    ensures bytes { dest.new ≡ bytes.now }
    ensures count { result ≡ length bytes.now }
{
    dest.copy_from_slice(bytes);
    bytes.len()
}

/// A range of bytes that is sent unchanged. The part of the range past the end of the bytes is
/// empty. In contracts it is the bytes of the range.
#[derive(Debug, Drop)]
pub struct DelayedTransmit<T: AsSlice<u8>> {
    bytes: T,
    range: Range<usize>,
}

impl<T: AsSlice<u8>> Model for DelayedTransmit<T> {
    ghost use Rattle.std.specs.Prelude.{ℕ, List};
    ghost use Rattle.turn_client_proto_api.specs.Payloads.{part_of};

    ghost Value = { List ℕ };

    ghost view = { λ d. part_of (T.items d.bytes) d.range.start d.range.end };
}

impl<T: AsSlice<u8> + Debug + Drop> DelayedTransmit<T> {
    /// Creates this range of the bytes.
    pub(crate) fn new(bytes: T, range: Range<usize>) -> DelayedTransmit<T>
        ensures { result ≡ part_of (T.items bytes) range.start range.end }
    {
        DelayedTransmit { bytes, range }
    }

    /// Returns the bytes of the range.
    fn part(&self) -> &[u8]
        ensures { result.now ≡ self.now }
    {
        part(self.bytes.as_slice(), self.range.start, self.range.end)
    }
}

impl<T: AsSlice<u8> + Debug + Drop> DelayedTransmitBuild for DelayedTransmit<T> {
    ghost text = { λ bytes. bytes };

    fn len(&self) -> usize {
        self.part().len()
    }

    fn write_into(self, dest: &mut [u8]) -> usize {
        copied(self.part(), dest)
    }

    fn build(self, alloc: Global) -> Result<Vec<u8>, NoMemory> {
        Ok(Vec::from_slice(alloc, self.part())?)
    }
}

//! Data to be sent in a channel frame (RFC 8656, sections 12.4 and 12.5).

ghost use Rattle.std.specs.Prelude.{◌≡◌, ◌+◌, length, true, false, if◌then◌else◌};
ghost use Rattle.turn_types_frame.specs.ChannelFrames.{IsLawful};

use crate::build::DelayedTransmitBuild;
use crate::channel::ChannelData;
use crate::stun_types_base::memory::NoMemory;
use crate::stun_types_wire::attribute::pad_attribute_len;
use crate::turn_types_attributes::registry::CHANNEL_HEADER_LENGTH;
use std::alloc::Global;
use std::convert::AsSlice;
use std::fmt::Debug;
use std::marker::Model;

/// A channel frame that is not encoded yet. For a stream it is padded to a multiple of four bytes
/// (RFC 8656, section 12.5). Contracts see the record `Channeled`.
#[derive(Debug, Drop)]
pub struct DelayedChannel<T: AsSlice<u8>> {
    id: u16,
    payload: T,
    padded: bool,
}

impl<T: AsSlice<u8>> Model for DelayedChannel<T> {
    ghost use Rattle.std.specs.Prelude.{length};
    ghost use Rattle.turn_types_frame.specs.ChannelFrames.{IsLawful};
    ghost use Rattle.turn_types_frame.specs.Channeled.{Channeled};

    ghost Value = { Channeled };

    ghost view = { λ c.
        record { frame = record { id = c.id; payload = T.items c.payload }; padded = c.padded } };

    ghost invariant = { λ c. IsLawful c.id (length (T.items c.payload)) };
}

impl<T: AsSlice<u8> + Debug + Drop> DelayedChannel<T> {
    /// Creates a frame for datagrams, without padding. `id` has to be from 0x4000 to 0x7FFF, and
    /// `payload` at most 65,535 bytes.
    pub fn new(id: u16, payload: T) -> DelayedChannel<T>
        requires { IsLawful id (length (T.items payload)) }
        ensures { result
            ≡ record { frame = record { id = id; payload = T.items payload }; padded = false } }
    {
        DelayedChannel {
            id,
            payload,
            padded: false,
        }
    }

    /// Creates a frame for a stream, within the limits of `new`. Zeros pad it to a multiple of four
    /// bytes; its length field does not count them.
    pub fn padded(id: u16, payload: T) -> DelayedChannel<T>
        requires { IsLawful id (length (T.items payload)) }
        ensures { result
            ≡ record { frame = record { id = id; payload = T.items payload }; padded = true } }
    {
        DelayedChannel {
            id,
            payload,
            padded: true,
        }
    }
}

impl<T: AsSlice<u8> + Debug + Drop> DelayedTransmitBuild for DelayedChannel<T> {
    ghost use Rattle.turn_types_frame.specs.Channeled.{channeled_text};

    ghost text = { channeled_text };

    fn len(&self) -> usize {
        let len = self.payload.as_slice().len();
        CHANNEL_HEADER_LENGTH
            + if self.padded {
                pad_attribute_len(len)
            } else {
                len
            }
    }

    fn write_into(self, dest: &mut [u8]) -> usize {
        let channel = ChannelData::new(self.id, self.payload.as_slice());
        let (frame, padding) = dest.split_at_mut(channel.len());
        channel.write_into_unchecked(frame);
        padding.fill(0);
        dest.len()
    }

    fn build(self, alloc: Global) -> Result<Vec<u8>, NoMemory> {
        let mut bytes = Vec::from_elem(alloc, 0u8, self.len())?;
        self.write_into(bytes.as_mut_slice());
        Ok(bytes)
    }
}

//! Channel frames (RFC 8656, section 12.4).

ghost use Rattle.std.specs.Prelude.{◌≡◌, ◌+◌, ◌<◌, ◌≤◌, ◌++◌, length, drop, None, Some};
ghost use Rattle.std.specs.Prelude.{MatchResult, IfOk, IfErr, OnOk};
ghost use Rattle.byteorder.specs.Endian.{big_bytes};
ghost use Rattle.turn_types_peer.specs.Wire.Attributes.{kind_at, length_at};
ghost use Rattle.turn_types_peer.specs.Wire.declared.error.StunWriteError.TheVariants.{TooSmall};
ghost use Rattle.turn_types_peer.specs.TurnAttributes.TurnRegistry.{channel_header_size};
ghost use Rattle.turn_types_frame.specs.ChannelFrames.{IsLawful, channel_header_refusal};
ghost use Rattle.turn_types_frame.specs.ChannelFrames.{channel_refusal, frame_at, frame_text};

use crate::stun_types_wire::error::{StunParseError, StunWriteError};
use crate::turn_types_attributes::registry::{
    CHANNEL_HEADER_LENGTH, GREATEST_CHANNEL, LEAST_CHANNEL,
};
use byteorder::{BigEndian, ByteOrder};
use std::marker::Model;

/// The content of a channel frame: a channel number from 0x4000 to 0x7FFF, and at most 65,535 bytes
/// of data, which are borrowed (RFC 8656, section 12.4). Contracts see the record `Frame`.
#[derive(Debug, Drop)]
pub struct ChannelData<'a> {
    id: u16,
    payload: &'a [u8],
}

impl<'a> Model for ChannelData<'a> {
    ghost use Rattle.std.specs.Prelude.{length};
    ghost use Rattle.turn_types_frame.specs.ChannelFrames.{Frame, IsLawful};

    ghost Value = { Frame };

    ghost view = { λ c. record { id = c.id; payload = c.payload.now } };

    ghost invariant = { λ c. IsLawful c.id (length c.payload.now) };
}

impl<'a> ChannelData<'a> {
    /// Creates a frame's content. `id` has to be from 0x4000 to 0x7FFF, and `payload` at most
    /// 65,535 bytes.
    pub fn new(id: u16, payload: &'a [u8]) -> ChannelData<'a>
        requires { IsLawful id (length payload.now) }
        ensures { result ≡ record { id = id; payload = payload.now } }
    {
        ChannelData { id, payload }
    }

    /// The channel number.
    pub fn id(&self) -> u16
        ensures { result ≡ self.now.id }
    {
        self.id
    }

    /// The data, with the lifetime of the borrow.
    pub fn data(&self) -> &'a [u8]
        ensures { result.now ≡ self.now.payload }
    {
        self.payload
    }

    /// Decodes the channel number and the length of the data from the first four bytes. Bytes after
    /// them are ignored.
    ///
    /// # Errors
    ///
    /// 1. `Truncated`: there are fewer than four bytes.
    /// 2. `NotStun`: the number is not from 0x4000 to 0x7FFF.
    #[tactic(auto, unfolding(crate::specs::ChannelFrames::channel_header_refusal))]
    pub fn parse_header(bytes: &[u8]) -> Result<(u16, u16), StunParseError>
        ensures { MatchResult result (λ header. (channel_header_refusal bytes.now ≡ None)
            × (header.0 ≡ kind_at bytes.now) × (header.1 ≡ length_at bytes.now))
            (λ error. channel_header_refusal bytes.now ≡ Some error) }
    {
        if bytes.len() < CHANNEL_HEADER_LENGTH {
            return Err(StunParseError::Truncated {
                expected: CHANNEL_HEADER_LENGTH,
                actual: bytes.len(),
            });
        }
        let (_, after_number) = bytes.split_at(2);
        let id = BigEndian::read_u16(bytes);
        if id < LEAST_CHANNEL || GREATEST_CHANNEL < id {
            return Err(StunParseError::NotStun);
        }
        Ok((id, BigEndian::read_u16(after_number)))
    }

    /// Decodes the channel frame at the start of `bytes`. Bytes after its data, padding included,
    /// are ignored.
    ///
    /// # Errors
    ///
    /// 1. The errors of `parse_header`.
    /// 2. `Truncated`: the data is incomplete.
    #[tactic(auto, unfolding(crate::proofs::Framing::refusals))]
    pub fn parse(bytes: &'a [u8]) -> Result<ChannelData<'a>, StunParseError>
        ensures { MatchResult result (λ channel. (channel_refusal bytes.now ≡ None)
            × (channel ≡ frame_at bytes.now)) (λ error. channel_refusal bytes.now ≡ Some error) }
    {
        let (id, len) = ChannelData::parse_header(bytes)?;
        let len = usize::from(len);
        let (_, after_header) = bytes.split_at(CHANNEL_HEADER_LENGTH);
        if after_header.len() < len {
            return Err(StunParseError::Truncated {
                expected: CHANNEL_HEADER_LENGTH + len,
                actual: bytes.len(),
            });
        }
        let (payload, _) = after_header.split_at(len);
        Ok(ChannelData { id, payload })
    }

    /// Returns the length of the frame in bytes: header and data, without padding.
    pub fn len(&self) -> usize
        ensures { result ≡ channel_header_size + length self.now.payload }
    {
        CHANNEL_HEADER_LENGTH + self.payload.len()
    }

    /// Writes the frame to the start of `dest`, and returns its length. Bytes after it do not
    /// change.
    ///
    /// # Errors
    ///
    /// - `TooSmall`: `dest` is shorter than the frame. Nothing is written.
    pub fn write_into(&self, dest: &mut [u8]) -> Result<usize, StunWriteError>
        ensures count { IfOk result (λ n. (n ≡ channel_header_size + length self.now.payload)
            × (n ≤ length dest.old)) }
        ensures bytes { OnOk result (dest.new ≡ frame_text self.now
            ++ drop (channel_header_size + length self.now.payload) dest.old) }
        ensures refused { IfErr result (λ error.
            (error ≡ TooSmall (channel_header_size + length self.now.payload) (length dest.old))
            × (length dest.old < channel_header_size + length self.now.payload)
            × (dest.new ≡ dest.old)) }
    {
        let size = self.len();
        if dest.len() < size {
            return Err(StunWriteError::TooSmall {
                expected: size,
                actual: dest.len(),
            });
        }
        self.write_into_unchecked(dest);
        Ok(size)
    }

    /// Writes the frame to the start of `dest`, which has to be long enough. Bytes after it do not
    /// change.
    pub fn write_into_unchecked(&self, dest: &mut [u8])
        requires { channel_header_size + length self.now.payload ≤ length dest.old }
        ensures { dest.new ≡ frame_text self.now
            ++ drop (channel_header_size + length self.now.payload) dest.old }
    {
        let (header, after_header) = dest.split_at_mut(CHANNEL_HEADER_LENGTH);
        let (data, _) = after_header.split_at_mut(self.payload.len());
        let [i0, i1] = self.id.to_be_bytes();
        let [l0, l1] = (self.payload.len() as u16).to_be_bytes();
        header.copy_from_slice(&[i0, i1, l0, l1]);
        data.copy_from_slice(self.payload);
    }
}

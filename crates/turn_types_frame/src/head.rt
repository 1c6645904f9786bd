//! Recognizes the frame at the head of a stream (RFC 8656, section 12.5).

ghost use Rattle.std.specs.Prelude.{◌≡◌, ◌<◌, ◌≤◌, true, false, length};
ghost use Rattle.turn_types_frame.specs.StreamHeads.{head, is_channel_top, channel_head};
ghost use Rattle.turn_types_frame.specs.StreamHeads.{message_head};

use crate::stun_types_wire::attribute::pad_attribute_len;
use crate::stun_types_wire::error::StunParseError;
use crate::stun_types_wire::header::MessageHeader;
use crate::turn_types_attributes::registry::CHANNEL_HEADER_LENGTH;
use byteorder::{BigEndian, ByteOrder};

/// What the first bytes of a stream are.
#[derive(Clone, Copy, Debug, PartialEq, Eq)]
pub enum FrameHead {
    /// A complete message of this many bytes, with its header.
    Message(usize),
    /// A complete channel frame with this many bytes of data. Its header and its padding are there
    /// too.
    Channel(u16),
    /// The beginning of a message or a channel frame that is still incomplete, or no bytes.
    Incomplete,
    /// Not the beginning of a frame, whatever follows: the top two bits are 10 or 11, or a byte of
    /// the magic cookie is wrong.
    Invalid,
}

/// Returns what the first bytes of a stream are. Bytes after a complete frame are ignored.
#[tactic(auto, unfolding(crate::specs::StreamHeads::head))]
pub fn peek_frame(bytes: &[u8]) -> FrameHead
    ensures { result ≡ head bytes.now }
{
    match bytes {
        [0x40..=0x7F, ..] => channel_at(bytes),
        _ => message_at(bytes),
    }
}

/// Recognizes a channel frame at the start of `bytes`, and whether it is complete.
fn channel_at(bytes: &[u8]) -> FrameHead
    ensures { result ≡ channel_head bytes.now }
{
    if bytes.len() < CHANNEL_HEADER_LENGTH {
        return FrameHead::Incomplete;
    }
    let (_, after_number) = bytes.split_at(2);
    let len = BigEndian::read_u16(after_number);
    if bytes.len() < CHANNEL_HEADER_LENGTH + pad_attribute_len(usize::from(len)) {
        return FrameHead::Incomplete;
    }
    FrameHead::Channel(len)
}

/// Recognizes a message at the start of `bytes`, and whether it is complete.
#[tactic(auto, using(crate::proofs::Heads::decoded))]
fn message_at(bytes: &[u8]) -> FrameHead
    requires { is_channel_top bytes.now ≡ false }
    ensures { result ≡ head bytes.now }
{
    match MessageHeader::from_bytes(bytes) {
        Err(error) if error == StunParseError::NotStun => FrameHead::Invalid,
        Err(_) => FrameHead::Incomplete,
        Ok(header) => {
            let size = MessageHeader::LENGTH + usize::from(header.data_length());
            if bytes.len() < size {
                return FrameHead::Incomplete;
            }
            FrameHead::Message(size)
        }
    }
}

//! The header of a message (RFC 8489, section 5).

ghost use Rattle.std.specs.Prelude.{◌≡◌, ◌<◌, ◌^◌, length, None, Some, MatchResult};
ghost use Rattle.stun_types_wire.specs.Grammar.{header_at, header_refusal, may_begin, number_at};
ghost use Rattle.stun_types_wire.specs.Text.{header_text};

use crate::class::MessageType;
use crate::error::StunParseError;
use crate::registry::{HEADER_LENGTH, MAGIC_COOKIE};
use crate::transaction::TransactionId;
use byteorder::{BigEndian, ByteOrder};
use std::marker::Model;

/// The header of a message: its type, the length of what follows the header, and the transaction
/// ID.
#[derive(Clone, Copy, Debug, PartialEq, Eq)]
pub struct MessageHeader {
    mtype: MessageType,
    length: u16,
    transaction_id: TransactionId,
}

impl Model for MessageHeader {
    ghost use Rattle.stun_types_wire.specs.Grammar.{Header};

    ghost Value = { Header };

    ghost view = { λ header.
        record { kind = header.mtype; len = header.length; number = header.transaction_id } };

    ghost inverse = { λ decoded.
        record { mtype = decoded.kind; length = decoded.len; transaction_id = decoded.number } };
}

impl MessageHeader {
    /// The length of a header in bytes.
    pub const LENGTH: usize = HEADER_LENGTH;

    /// Makes a header of a message type, a length and a transaction ID.
    pub fn new(mtype: MessageType, length: u16, transaction_id: TransactionId) -> MessageHeader
        ensures kind { result.kind ≡ mtype }
        ensures len { result.len ≡ length }
        ensures number { result.number ≡ transaction_id }
    {
        MessageHeader {
            mtype,
            length,
            transaction_id,
        }
    }

    /// Decodes the header from the first twenty bytes. The bytes after them are ignored.
    ///
    /// # Errors
    ///
    /// In this order:
    ///
    /// - `NotStun`: no header begins with these bytes.
    /// - `Truncated`: there are fewer than twenty bytes.
    #[tactic(auto, unfolding(crate::proofs::Headers::headers))]
    pub fn from_bytes(bytes: &[u8]) -> Result<MessageHeader, StunParseError>
        ensures { MatchResult result (λ header. (header_refusal bytes.now ≡ None)
            × (header ≡ header_at bytes.now)) (λ error. header_refusal bytes.now ≡ Some error) }
    {
        if !begins(bytes) {
            return Err(StunParseError::NotStun);
        }
        if bytes.len() < MessageHeader::LENGTH {
            return Err(StunParseError::Truncated {
                expected: MessageHeader::LENGTH,
                actual: bytes.len(),
            });
        }
        let mtype = MessageType::from_bytes(bytes)?;
        let (_, after_type) = bytes.split_at(2);
        let (_, after_cookie) = bytes.split_at(8);
        Ok(MessageHeader {
            mtype,
            length: BigEndian::read_u16(after_type),
            transaction_id: TransactionId::from(BigEndian::read_uint128(after_cookie, 12)),
        })
    }

    /// Encodes the header in twenty bytes.
    #[tactic(auto, unfolding(crate::specs::Text::header_text))]
    pub fn to_bytes(self) -> [u8; 20]
        ensures text { result ≡ header_text self.kind self.len self.number }
        ensures lawful { self.kind < 2 ^ 14 }
    {
        let number = u128::from(self.transaction_id);
        let mut bytes = [0; 20];
        BigEndian::write_u16(&mut bytes[..2], self.mtype.value());
        BigEndian::write_u16(&mut bytes[2..4], self.length);
        BigEndian::write_u32(&mut bytes[4..8], MAGIC_COOKIE);
        BigEndian::write_u32(&mut bytes[8..12], (number >> 64) as u32);
        BigEndian::write_u64(&mut bytes[12..], (number % (1 << 64)) as u64);
        bytes
    }

    /// Returns the message type.
    pub fn get_type(self) -> MessageType
        ensures { result ≡ self.kind }
    {
        self.mtype
    }

    /// Returns the length in bytes of what follows the header.
    pub fn data_length(self) -> u16
        ensures { result ≡ self.len }
    {
        self.length
    }

    /// Returns the transaction ID.
    pub fn transaction_id(self) -> TransactionId
        ensures { result ≡ self.number }
    {
        self.transaction_id
    }
}

/// Returns whether the bytes may be the first bytes of a header, as far as type and magic cookie
/// show.
fn begins(bytes: &[u8]) -> bool
    ensures { result ≡ may_begin bytes.now }
{
    let lawful_top = match bytes {
        [first, ..] => *first < 0x40,
        [] => true,
    };
    let from = bytes.len().min(4);
    let to = bytes.len().min(8);
    lawful_top && MAGIC_COOKIE.to_be_bytes().starts_with(&bytes[from..to])
}

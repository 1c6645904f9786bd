//! The header of the attribute at the start of some bytes.

ghost use Rattle.std.specs.Prelude.{◌<◌, ◌≤◌, length, MatchOption};
ghost use Rattle.stun_types_message.specs.Heads.{DecodesHead};

use crate::stun_types_wire::attribute::{AttributeType, pad_attribute_len};
use byteorder::{BigEndian, ByteOrder};

/// A decoded attribute header: the type, the length of the value, and the size of the whole
/// attribute with its header and padding.
#[derive(Clone, Copy, Debug)]
pub(crate) struct AttributeHead {
    pub(crate) atype: AttributeType,
    pub(crate) length: usize,
    pub(crate) size: usize,
}

impl AttributeHead {
    /// Decodes the first four bytes.
    pub(crate) fn at(bytes: &[u8]) -> AttributeHead
        requires { 4 ≤ length bytes.now }
        ensures { DecodesHead bytes.now result }
    {
        let (_, after_type) = bytes.split_at(2);
        let length = usize::from(BigEndian::read_u16(after_type));
        AttributeHead {
            atype: AttributeType(BigEndian::read_u16(bytes)),
            length,
            size: 4 + pad_attribute_len(length),
        }
    }

    /// Decodes the first four bytes, or returns `None` if there are fewer.
    pub(crate) fn of(bytes: &[u8]) -> Option<AttributeHead>
        ensures { MatchOption result (length bytes.now < 4) (DecodesHead bytes.now) }
    {
        if bytes.len() < 4 {
            return None;
        }
        Some(AttributeHead::at(bytes))
    }
}

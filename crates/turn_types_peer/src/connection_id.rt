//! CONNECTION-ID (RFC 6062, section 6.2.1).

ghost use Rattle.std.specs.Prelude.{◌≡◌};
ghost use Rattle.turn_types_attributes.specs.TurnRegistry.{connection_id_kind};

use crate::stun_types_base::memory::NoMemory;
use crate::stun_types_wire::attribute::{AttributeType, RawAttribute};
use crate::stun_types_wire::error::StunParseError;
use crate::stun_types_write::attribute::{
    Attribute, AttributeFromRaw, AttributeStaticType, AttributeWrite,
};
use crate::stun_types_write::text::write_attribute;
use std::alloc::Global;
use std::convert::TryFrom;
use std::marker::Model;
use turn_types_attributes::number::read_number;
use turn_types_attributes::registry;

/// The number with which a server identifies a connection to a peer (RFC 6062, section 6.2.1). Any
/// 32-bit number is allowed. Contracts see the number.
#[derive(Debug, Drop)]
pub struct ConnectionId {
    id: u32,
}

impl Model for ConnectionId {
    ghost use Rattle.std.specs.Prelude.{ℕ};

    ghost Value = { ℕ };

    ghost view = { λ a. a.id };
}

impl ConnectionId {
    /// Creates the attribute for a connection's number.
    pub fn new(id: u32) -> ConnectionId
        ensures { result ≡ id }
    {
        ConnectionId { id }
    }

    /// The connection's number.
    pub fn id(&self) -> u32
        ensures { result ≡ self.now }
    {
        self.id
    }
}

impl AttributeStaticType for ConnectionId {
    ghost TYPE = { record { 0 = connection_id_kind } };

    const TYPE: AttributeType = registry::CONNECTION_ID;
}

impl Attribute for ConnectionId {
    ghost use Rattle.byteorder.specs.Endian.{big_bytes};

    ghost kind = { λ _. connection_id_kind };

    ghost value = { big_bytes 4 };

    fn get_type(&self) -> AttributeType {
        ConnectionId::TYPE
    }

    fn length(&self) -> u16 {
        4
    }
}

impl AttributeWrite for ConnectionId {
    fn write_into_unchecked(&self, dest: &mut [u8]) {
        write_attribute(ConnectionId::TYPE, &self.id().to_be_bytes(), dest);
    }

    fn to_raw(&self, alloc: Global) -> Result<RawAttribute<'_>, NoMemory> {
        let value = Vec::from_slice(alloc, &self.id().to_be_bytes())?;
        Ok(RawAttribute::new_owned(ConnectionId::TYPE, value.into_boxed_slice()))
    }
}

/// Decodes the four bytes of the value as a big-endian number.
///
/// # Errors
///
/// 1. `WrongAttributeImplementation`: the attribute has another type.
/// 2. `Truncated`: the value has fewer than four bytes.
/// 3. `TooLarge`: the value has more than four bytes.
impl<'a, 'raw> TryFrom<&'raw RawAttribute<'a>> for ConnectionId {
    ghost use Rattle.std.specs.Prelude.{◌≡◌, MatchResult, Some, None};
    ghost use Rattle.turn_types_attributes.specs.Write.ValueReading.{IsNamed, value_refusal};
    ghost use Rattle.byteorder.specs.Endian.{big_number};

    type Error = StunParseError;

    ghost try_from_gives = { λ raw result. MatchResult result
        (λ read. (value_refusal connection_id_kind 4 4 raw.now ≡ None) × (read
        ≡ big_number 4 raw.now.value))
        (IsNamed (value_refusal connection_id_kind 4 4 raw.now)) };

    fn try_from(raw: &'raw RawAttribute<'a>) -> Result<ConnectionId, StunParseError> {
        let id = read_number(raw, ConnectionId::TYPE)?;
        Ok(ConnectionId { id })
    }
}

/// Fails as `try_from` does. It allocates no memory.
impl<'a> AttributeFromRaw<'a> for ConnectionId {
    ghost use Rattle.std.specs.Prelude.{false};
    ghost use Rattle.turn_types_attributes.specs.Write.ValueReading.{value_refusal};

    ghost read_refusal = { value_refusal connection_id_kind 4 4 };

    ghost read_value = { λ value. value };

    ghost reading_takes_memory = { false };

    fn from_raw_ref(
        _alloc: Global,
        raw: &RawAttribute<'_>,
    ) -> Result<ConnectionId, StunParseError> {
        let id = read_number(raw, ConnectionId::TYPE)?;
        Ok(ConnectionId { id })
    }

    fn from_raw(alloc: Global, raw: RawAttribute<'a>) -> Result<ConnectionId, StunParseError> {
        ConnectionId::from_raw_ref(alloc, &raw)
    }

    #[tactic(auto, using(turn_types_attributes::proofs::Numbers::numbers))]
    fn proof_is_read_back(&self, read: &ConnectionId) {
        let _ = (self.id(), read.id());
    }
}

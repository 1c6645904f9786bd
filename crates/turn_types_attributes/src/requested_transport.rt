//! REQUESTED-TRANSPORT (RFC 8656, section 18.8).

ghost use Rattle.std.specs.Prelude.{◌≡◌, None, MatchResult, slice_index};
ghost use Rattle.stun_types_integrity.specs.Write.ValueReading.{IsNamed, value_refusal};
ghost use Rattle.turn_types_attributes.specs.Transports.{transport_value};
ghost use Rattle.turn_types_attributes.specs.TurnRegistry.{requested_transport_kind};

use crate::registry;
use crate::stun_types_base::memory::NoMemory;
use crate::stun_types_wire::attribute::{AttributeType, RawAttribute};
use crate::stun_types_wire::error::StunParseError;
use crate::stun_types_write::attribute::{
    Attribute, AttributeFromRaw, AttributeStaticType, AttributeWrite,
};
use crate::stun_types_write::reading::value_of;
use crate::stun_types_write::text::write_attribute;
use std::alloc::Global;
use std::convert::TryFrom;
use std::marker::Model;

/// The transport between an allocation and its peers (RFC 8656, section 18.8): an IP protocol
/// number from 0 to 255. Contracts see the number.
#[derive(Debug, Drop)]
pub struct RequestedTransport {
    protocol: u8,
}

impl Model for RequestedTransport {
    ghost use Rattle.std.specs.Prelude.{ℕ};

    ghost Value = { ℕ };

    ghost view = { λ a. a.protocol };
}

impl RequestedTransport {
    /// The protocol number of TCP.
    pub const TCP: u8 = registry::TCP;
    /// The protocol number of UDP, the only one that RFC 8656 itself allows.
    pub const UDP: u8 = registry::UDP;

    /// Creates the attribute for a protocol number.
    pub fn new(protocol: u8) -> RequestedTransport
        ensures { result ≡ protocol }
    {
        RequestedTransport { protocol }
    }

    /// The protocol number.
    pub fn protocol(&self) -> u8
        ensures { result ≡ self.now }
    {
        self.protocol
    }

    /// Returns the value: the protocol number and three zero bytes.
    fn value(&self) -> [u8; 4]
        ensures { result ≡ transport_value self.now }
    {
        [self.protocol, 0, 0, 0]
    }
}

impl AttributeStaticType for RequestedTransport {
    ghost TYPE = { record { 0 = requested_transport_kind } };

    const TYPE: AttributeType = registry::REQUESTED_TRANSPORT;
}

impl Attribute for RequestedTransport {
    ghost use Rattle.turn_types_attributes.specs.Transports.{transport_value};

    ghost kind = { λ _. requested_transport_kind };

    ghost value = { transport_value };

    fn get_type(&self) -> AttributeType {
        RequestedTransport::TYPE
    }

    fn length(&self) -> u16 {
        4
    }
}

impl AttributeWrite for RequestedTransport {
    fn write_into_unchecked(&self, dest: &mut [u8]) {
        write_attribute(RequestedTransport::TYPE, &self.value(), dest);
    }

    fn to_raw(&self, alloc: Global) -> Result<RawAttribute<'_>, NoMemory> {
        let value = Vec::from_slice(alloc, &self.value())?;
        Ok(RawAttribute::new_owned(RequestedTransport::TYPE, value.into_boxed_slice()))
    }
}

/// Decodes the first of four bytes. The other three are ignored.
///
/// # Errors
///
/// 1. `WrongAttributeImplementation`: the attribute has another type.
/// 2. `Truncated`: the value has fewer than four bytes.
/// 3. `TooLarge`: the value has more than four bytes.
impl<'a, 'raw> TryFrom<&'raw RawAttribute<'a>> for RequestedTransport {
    ghost use Rattle.std.specs.Prelude.{◌≡◌, MatchResult, Some, None, slice_index};
    ghost use Rattle.stun_types_integrity.specs.Write.ValueReading.{IsNamed, value_refusal};

    type Error = StunParseError;

    ghost try_from_gives = { λ raw result. MatchResult result
        (λ read. (value_refusal requested_transport_kind 4 4 raw.now ≡ None) × (read
        ≡ slice_index raw.now.value 0))
        (IsNamed (value_refusal requested_transport_kind 4 4 raw.now)) };

    fn try_from(raw: &'raw RawAttribute<'a>) -> Result<RequestedTransport, StunParseError> {
        let protocol = protocol_of(raw)?;
        Ok(RequestedTransport { protocol })
    }
}

/// Fails as `try_from` does. It allocates no memory.
impl<'a> AttributeFromRaw<'a> for RequestedTransport {
    ghost use Rattle.std.specs.Prelude.{false, slice_index};
    ghost use Rattle.stun_types_integrity.specs.Write.ValueReading.{value_refusal};
    ghost use Rattle.turn_types_attributes.specs.Transports.{transport_value};

    ghost read_refusal = { value_refusal requested_transport_kind 4 4 };

    ghost read_value = { λ value. transport_value (slice_index value 0) };

    ghost reading_takes_memory = { false };

    fn from_raw_ref(
        _alloc: Global,
        raw: &RawAttribute<'_>,
    ) -> Result<RequestedTransport, StunParseError> {
        let protocol = protocol_of(raw)?;
        Ok(RequestedTransport { protocol })
    }

    fn from_raw(
        alloc: Global,
        raw: RawAttribute<'a>,
    ) -> Result<RequestedTransport, StunParseError> {
        RequestedTransport::from_raw_ref(alloc, &raw)
    }

    #[tactic(auto, using(crate::proofs::Below::value_is_accepted))]
    fn proof_is_read_back(&self, _read: &RequestedTransport) {}
}

/// Decodes the protocol number in the value of a REQUESTED-TRANSPORT. Fails as `try_from` does.
fn protocol_of(raw: &RawAttribute<'_>) -> Result<u8, StunParseError>
    ensures { MatchResult result (λ protocol. (value_refusal requested_transport_kind 4 4 raw.now
        ≡ None)
        × (raw.now.kind ≡ requested_transport_kind) × (protocol ≡ slice_index raw.now.value 0))
        (IsNamed (value_refusal requested_transport_kind 4 4 raw.now)) }
{
    let value = value_of(raw, RequestedTransport::TYPE, 4, 4)?;
    Ok(value[0])
}

//! EVEN-PORT (RFC 8656, section 18.7).

ghost use Rattle.std.specs.Prelude.{◌≡◌, None, MatchResult};
ghost use Rattle.stun_types_integrity.specs.Write.ValueReading.{IsNamed, value_refusal};
ghost use Rattle.turn_types_attributes.specs.EvenPorts.{even_port_value, reserves_in};
ghost use Rattle.turn_types_attributes.specs.TurnRegistry.{even_port_kind};

use crate::registry;
use crate::stun_types_base::memory::NoMemory;
use crate::stun_types_wire::attribute::{AttributeType, RawAttribute};
use crate::stun_types_wire::error::StunParseError;
use crate::stun_types_write::attribute::{
    Attribute, AttributeFromRaw, AttributeStaticType, AttributeWrite,
};
use crate::stun_types_write::reading::value_of;
use crate::stun_types_write::text::write_attribute;
use std::alloc::Global;
use std::convert::TryFrom;
use std::marker::Model;

/// Requests that the port of the relayed address be even, and optionally that the server reserve
/// the next port on the same IP address for a later allocation (RFC 8656, section 18.7). Contracts
/// see whether the next port is to be reserved.
#[derive(Debug, Drop)]
pub struct EvenPort {
    reserves_next: bool,
}

impl Model for EvenPort {
    ghost use Rattle.std.specs.Prelude.{Bool};

    ghost Value = { Bool };

    ghost view = { λ a. a.reserves_next };
}

impl EvenPort {
    /// Creates the attribute. `reserves_next` is whether the server is to reserve the next port as
    /// well: the bit R.
    pub fn new(reserves_next: bool) -> EvenPort
        ensures { result ≡ reserves_next }
    {
        EvenPort { reserves_next }
    }

    /// Returns whether the server is to reserve the next port: the bit R.
    pub fn reserves_next(&self) -> bool
        ensures { result ≡ self.now }
    {
        self.reserves_next
    }

    /// Returns the value: the bit R, and seven zero bits.
    fn value(&self) -> [u8; 1]
        ensures { result ≡ even_port_value self.now }
    {
        if self.reserves_next {
            [registry::RESERVE_BIT]
        } else {
            [0]
        }
    }
}

impl AttributeStaticType for EvenPort {
    ghost TYPE = { record { 0 = even_port_kind } };

    const TYPE: AttributeType = registry::EVEN_PORT;
}

impl Attribute for EvenPort {
    ghost use Rattle.turn_types_attributes.specs.EvenPorts.{even_port_value};

    ghost kind = { λ _. even_port_kind };

    ghost value = { even_port_value };

    fn get_type(&self) -> AttributeType {
        EvenPort::TYPE
    }

    fn length(&self) -> u16 {
        1
    }
}

impl AttributeWrite for EvenPort {
    fn write_into_unchecked(&self, dest: &mut [u8]) {
        write_attribute(EvenPort::TYPE, &self.value(), dest);
    }

    fn to_raw(&self, alloc: Global) -> Result<RawAttribute<'_>, NoMemory> {
        let value = Vec::from_slice(alloc, &self.value())?;
        Ok(RawAttribute::new_owned(EvenPort::TYPE, value.into_boxed_slice()))
    }
}

/// Decodes the bit R, the top bit of the only byte. The other seven bits are ignored.
///
/// # Errors
///
/// 1. `WrongAttributeImplementation`: the attribute has another type.
/// 2. `Truncated`: the value is empty.
/// 3. `TooLarge`: the value has more than one byte.
impl<'a, 'raw> TryFrom<&'raw RawAttribute<'a>> for EvenPort {
    ghost use Rattle.std.specs.Prelude.{◌≡◌, MatchResult, Some, None};
    ghost use Rattle.stun_types_integrity.specs.Write.ValueReading.{IsNamed, value_refusal};
    ghost use Rattle.turn_types_attributes.specs.EvenPorts.{reserves_in};

    type Error = StunParseError;

    ghost try_from_gives = { λ raw result. MatchResult result
        (λ read. (value_refusal even_port_kind 1 1 raw.now ≡ None)
        × (read ≡ reserves_in raw.now.value))
        (IsNamed (value_refusal even_port_kind 1 1 raw.now)) };

    fn try_from(raw: &'raw RawAttribute<'a>) -> Result<EvenPort, StunParseError> {
        let reserves_next = read_bit(raw)?;
        Ok(EvenPort { reserves_next })
    }
}

/// Fails as `try_from` does. It allocates no memory.
impl<'a> AttributeFromRaw<'a> for EvenPort {
    ghost use Rattle.std.specs.Prelude.{false};
    ghost use Rattle.stun_types_integrity.specs.Write.ValueReading.{value_refusal};
    ghost use Rattle.turn_types_attributes.specs.EvenPorts.{even_port_value, reserves_in};

    ghost read_refusal = { value_refusal even_port_kind 1 1 };

    ghost read_value = { λ value. even_port_value (reserves_in value) };

    ghost reading_takes_memory = { false };

    fn from_raw_ref(_alloc: Global, raw: &RawAttribute<'_>) -> Result<EvenPort, StunParseError> {
        let reserves_next = read_bit(raw)?;
        Ok(EvenPort { reserves_next })
    }

    fn from_raw(alloc: Global, raw: RawAttribute<'a>) -> Result<EvenPort, StunParseError> {
        EvenPort::from_raw_ref(alloc, &raw)
    }

    #[tactic(auto, using(crate::proofs::EvenPorts::even_ports))]
    fn proof_is_read_back(&self, _read: &EvenPort) {}
}

/// Decodes the bit R in the value of an EVEN-PORT. Fails as `try_from` does.
fn read_bit(raw: &RawAttribute<'_>) -> Result<bool, StunParseError>
    ensures { MatchResult result (λ reserves. (value_refusal even_port_kind 1 1 raw.now ≡ None)
        × (raw.now.kind ≡ even_port_kind) × (reserves ≡ reserves_in raw.now.value))
        (IsNamed (value_refusal even_port_kind 1 1 raw.now)) }
{
    let value = value_of(raw, EvenPort::TYPE, 1, 1)?;
    Ok(value[0] >= registry::RESERVE_BIT)
}

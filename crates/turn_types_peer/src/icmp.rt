//! ICMP (RFC 8656, section 18.13).

ghost use Rattle.std.specs.Prelude.{◌≡◌, None, MatchResult, length};
ghost use Rattle.turn_types_attributes.specs.Write.ValueReading.{IsNamed, value_refusal};
ghost use Rattle.turn_types_attributes.specs.TurnRegistry.{icmp_kind};
ghost use Rattle.turn_types_peer.specs.PeerValues.{icmp_decoded, icmp_value};

use crate::stun_types_base::memory::NoMemory;
use crate::stun_types_wire::attribute::{AttributeType, RawAttribute};
use crate::stun_types_wire::error::StunParseError;
use crate::stun_types_write::attribute::{
    Attribute, AttributeFromRaw, AttributeStaticType, AttributeWrite,
};
use crate::stun_types_write::reading::value_of;
use crate::stun_types_write::text::write_attribute;
use byteorder::{BigEndian, ByteOrder};
use std::alloc::Global;
use std::convert::TryFrom;
use std::marker::Model;
use turn_types_attributes::registry;

/// An ICMP error that a host or router on the path to a peer reported (RFC 8656, section 18.13).
/// Contracts see the record `IcmpReport`.
#[derive(Debug, Drop)]
pub struct Icmp {
    icmp_type: u8,
    code: u8,
    details: u32,
}

impl Model for Icmp {
    ghost use Rattle.turn_types_peer.specs.PeerValues.{IcmpReport};

    ghost Value = { IcmpReport };

    ghost view = { λ a. record { icmp_type = a.icmp_type; code = a.code; details = a.details } };
}

impl Icmp {
    /// Creates the attribute from a type, a code and the error data, for example the maximum size
    /// of a datagram.
    pub fn new(icmp_type: u8, code: u8, details: u32) -> Icmp
        ensures { result ≡ record { icmp_type = icmp_type; code = code; details = details } }
    {
        Icmp {
            icmp_type,
            code,
            details,
        }
    }

    /// The ICMP type. It belongs to ICMPv4 or ICMPv6 according to the family of the peer's address.
    pub fn icmp_type(&self) -> u8
        ensures { result ≡ self.now.icmp_type }
    {
        self.icmp_type
    }

    /// The ICMP code, which refines the type.
    pub fn code(&self) -> u8
        ensures { result ≡ self.now.code }
    {
        self.code
    }

    /// The error data: the last four bytes of the ICMP header.
    pub fn data(&self) -> u32
        ensures { result ≡ self.now.details }
    {
        self.details
    }

    /// Returns the value: two zero bytes, the type, the code and the error data.
    fn value(&self) -> [u8; 8]
        ensures { result ≡ icmp_value self.now }
    {
        let [d0, d1, d2, d3] = self.details.to_be_bytes();
        [0, 0, self.icmp_type, self.code, d0, d1, d2, d3]
    }
}

impl AttributeStaticType for Icmp {
    ghost TYPE = { record { 0 = icmp_kind } };

    const TYPE: AttributeType = registry::ICMP;
}

impl Attribute for Icmp {
    ghost use Rattle.turn_types_peer.specs.PeerValues.{icmp_value};

    ghost kind = { λ _. icmp_kind };

    ghost value = { icmp_value };

    fn get_type(&self) -> AttributeType {
        Icmp::TYPE
    }

    fn length(&self) -> u16 {
        8
    }
}

impl AttributeWrite for Icmp {
    fn write_into_unchecked(&self, dest: &mut [u8]) {
        write_attribute(Icmp::TYPE, &self.value(), dest);
    }

    fn to_raw(&self, alloc: Global) -> Result<RawAttribute<'_>, NoMemory> {
        let value = Vec::from_slice(alloc, &self.value())?;
        Ok(RawAttribute::new_owned(Icmp::TYPE, value.into_boxed_slice()))
    }
}

/// Decodes type, code and error data from eight bytes. The first two are ignored.
///
/// # Errors
///
/// 1. `WrongAttributeImplementation`: the attribute has another type.
/// 2. `Truncated`: the value has fewer than eight bytes.
/// 3. `TooLarge`: the value has more than eight bytes.
impl<'a, 'raw> TryFrom<&'raw RawAttribute<'a>> for Icmp {
    ghost use Rattle.std.specs.Prelude.{◌≡◌, MatchResult, None};
    ghost use Rattle.turn_types_attributes.specs.Write.ValueReading.{IsNamed, value_refusal};
    ghost use Rattle.turn_types_peer.specs.PeerValues.{icmp_decoded};

    type Error = StunParseError;

    ghost try_from_gives = { λ raw result. MatchResult result
        (λ read. (value_refusal icmp_kind 8 8 raw.now ≡ None) × (read ≡ icmp_decoded raw.now.value))
        (IsNamed (value_refusal icmp_kind 8 8 raw.now)) };

    fn try_from(raw: &'raw RawAttribute<'a>) -> Result<Icmp, StunParseError> {
        read_report(raw)
    }
}

/// Fails as `try_from` does. It allocates no memory.
impl<'a> AttributeFromRaw<'a> for Icmp {
    ghost use Rattle.std.specs.Prelude.{false};
    ghost use Rattle.turn_types_attributes.specs.Write.ValueReading.{value_refusal};
    ghost use Rattle.turn_types_peer.specs.PeerValues.{icmp_decoded, icmp_value};

    ghost read_refusal = { value_refusal icmp_kind 8 8 };

    ghost read_value = { λ value. icmp_value (icmp_decoded value) };

    ghost reading_takes_memory = { false };

    fn from_raw_ref(_alloc: Global, raw: &RawAttribute<'_>) -> Result<Icmp, StunParseError> {
        read_report(raw)
    }

    fn from_raw(_alloc: Global, raw: RawAttribute<'a>) -> Result<Icmp, StunParseError> {
        read_report(&raw)
    }

    #[tactic(auto, using(crate::proofs::Peers::reports))]
    fn proof_is_read_back(&self, read: &Icmp) {
        let _ = (self.data(), read.data());
    }
}

/// Decodes the report in the value of an ICMP attribute. Fails as `try_from` does.
fn read_report(raw: &RawAttribute<'_>) -> Result<Icmp, StunParseError>
    ensures { MatchResult result (λ read. (value_refusal icmp_kind 8 8 raw.now ≡ None)
        × (raw.now.kind ≡ icmp_kind) × (read ≡ icmp_decoded raw.now.value))
        (IsNamed (value_refusal icmp_kind 8 8 raw.now)) }
{
    let value = value_of(raw, Icmp::TYPE, 8, 8)?;
    let (_, data) = value.split_at(4);
    Ok(Icmp {
        icmp_type: value[2],
        code: value[3],
        details: BigEndian::read_u32(data),
    })
}

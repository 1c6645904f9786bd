//! REQUESTED-ADDRESS-FAMILY (RFC 8656, section 18.6).

ghost use Rattle.std.specs.Prelude.{◌≡◌};
ghost use Rattle.turn_types_attributes.specs.TurnRegistry.{requested_address_family_kind};

use crate::family::{read_family, value_of_family};
use crate::registry;
use crate::stun_types_base::family::AddressFamily;
use crate::stun_types_base::memory::NoMemory;
use crate::stun_types_wire::attribute::{AttributeType, RawAttribute};
use crate::stun_types_wire::error::StunParseError;
use crate::stun_types_write::attribute::{
    Attribute, AttributeFromRaw, AttributeStaticType, AttributeWrite,
};
use crate::stun_types_write::text::write_attribute;
use std::alloc::Global;
use std::convert::TryFrom;
use std::marker::Model;

/// The family of the relayed address that a client requests. Without this attribute, it is IPv4
/// (RFC 8656, section 18.6). Contracts see the family.
#[derive(Debug, Drop)]
pub struct RequestedAddressFamily {
    family: AddressFamily,
}

impl Model for RequestedAddressFamily {
    ghost use Rattle.stun_types_attributes.specs.Base.declared.family.AddressFamily.{AddressFamily};

    ghost Value = { AddressFamily };

    ghost view = { λ a. a.family };
}

impl RequestedAddressFamily {
    /// Creates the attribute for a family.
    pub fn new(family: AddressFamily) -> RequestedAddressFamily
        ensures { result ≡ family }
    {
        RequestedAddressFamily { family }
    }

    /// The family.
    pub fn family(&self) -> AddressFamily
        ensures { result ≡ self.now }
    {
        self.family
    }
}

impl AttributeStaticType for RequestedAddressFamily {
    ghost TYPE = { record { 0 = requested_address_family_kind } };

    const TYPE: AttributeType = registry::REQUESTED_ADDRESS_FAMILY;
}

impl Attribute for RequestedAddressFamily {
    ghost use Rattle.turn_types_attributes.specs.FamilyValues.{family_value};

    ghost kind = { λ _. requested_address_family_kind };

    ghost value = { family_value };

    fn get_type(&self) -> AttributeType {
        RequestedAddressFamily::TYPE
    }

    fn length(&self) -> u16 {
        4
    }
}

impl AttributeWrite for RequestedAddressFamily {
    fn write_into_unchecked(&self, dest: &mut [u8]) {
        write_attribute(
            RequestedAddressFamily::TYPE,
            &value_of_family(self.family),
            dest,
        );
    }

    fn to_raw(&self, alloc: Global) -> Result<RawAttribute<'_>, NoMemory> {
        let value = Vec::from_slice(alloc, &value_of_family(self.family))?;
        Ok(RawAttribute::new_owned(RequestedAddressFamily::TYPE, value.into_boxed_slice()))
    }
}

/// Decodes the family in the first of four bytes. The other three are ignored.
///
/// # Errors
///
/// 1. `WrongAttributeImplementation`: the attribute has another type.
/// 2. `Truncated`: the value has fewer than four bytes.
/// 3. `TooLarge`: the value has more than four bytes.
/// 4. `InvalidAttributeData`: the first byte is not a known family.
impl<'a, 'raw> TryFrom<&'raw RawAttribute<'a>> for RequestedAddressFamily {
    ghost use Rattle.std.specs.Prelude.{◌≡◌, MatchResult, Some, None, slice_index};
    ghost use Rattle.stun_types_integrity.specs.Write.ValueReading.{IsNamed};
    ghost use Rattle.turn_types_attributes.specs.FamilyValues.{family_number, family_read_refusal};

    type Error = StunParseError;

    ghost try_from_gives = { λ raw result. MatchResult result
        (λ read. (family_read_refusal requested_address_family_kind raw.now ≡ None)
        × (family_number read ≡ slice_index raw.now.value 0))
        (IsNamed (family_read_refusal requested_address_family_kind raw.now)) };

    fn try_from(raw: &'raw RawAttribute<'a>) -> Result<RequestedAddressFamily, StunParseError> {
        let family = read_family(raw, RequestedAddressFamily::TYPE)?;
        Ok(RequestedAddressFamily { family })
    }
}

/// Fails as `try_from` does. It allocates no memory.
impl<'a> AttributeFromRaw<'a> for RequestedAddressFamily {
    ghost use Rattle.std.specs.Prelude.{false, slice_index};
    ghost use Rattle.turn_types_attributes.specs.FamilyValues.{family_entry, family_read_refusal};

    ghost read_refusal = { family_read_refusal requested_address_family_kind };

    ghost read_value = { λ value. family_entry (slice_index value 0) };

    ghost reading_takes_memory = { false };

    fn from_raw_ref(
        _alloc: Global,
        raw: &RawAttribute<'_>,
    ) -> Result<RequestedAddressFamily, StunParseError> {
        let family = read_family(raw, RequestedAddressFamily::TYPE)?;
        Ok(RequestedAddressFamily { family })
    }

    fn from_raw(
        alloc: Global,
        raw: RawAttribute<'a>,
    ) -> Result<RequestedAddressFamily, StunParseError> {
        RequestedAddressFamily::from_raw_ref(alloc, &raw)
    }

    #[tactic(auto, using(crate::proofs::Families::families))]
    fn proof_is_read_back(&self, _read: &RequestedAddressFamily) {}
}

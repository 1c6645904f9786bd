//! Attribute values that request an address family.

ghost use Rattle.std.specs.Prelude.{◌≡◌, None, MatchResult, slice_index};
ghost use Rattle.stun_types_integrity.specs.Write.ValueReading.{IsNamed};
ghost use Rattle.turn_types_attributes.specs.FamilyValues.{family_number, family_read_refusal};
ghost use Rattle.turn_types_attributes.specs.FamilyValues.{family_refusal, family_value};

use crate::stun_types_base::family::AddressFamily;
use crate::stun_types_wire::attribute::{AttributeType, RawAttribute};
use crate::stun_types_wire::error::StunParseError;
use crate::stun_types_wire::registry::{IPV4_FAMILY, IPV6_FAMILY};
use crate::stun_types_write::reading::value_of;

/// Returns the value for a family: its number and three zero bytes.
pub(crate) fn value_of_family(family: AddressFamily) -> [u8; 4]
    ensures { result ≡ family_value family }
{
    [number_of(family), 0, 0, 0]
}

/// Returns the number of a family.
pub(crate) fn number_of(family: AddressFamily) -> u8
    ensures { result ≡ family_number family }
{
    match family {
        AddressFamily::IPV4 => IPV4_FAMILY,
        AddressFamily::IPV6 => IPV6_FAMILY,
    }
}

/// Decodes the family in the first of four bytes. The other three are ignored.
///
/// # Errors
///
/// 1. `WrongAttributeImplementation`: the attribute has another type.
/// 2. `Truncated`: the value has fewer than four bytes.
/// 3. `TooLarge`: the value has more than four bytes.
/// 4. `InvalidAttributeData`: the first byte is not a known family.
#[tactic(auto, unfolding(crate::specs::FamilyValues::family_read_refusal))]
pub(crate) fn read_family(
    raw: &RawAttribute<'_>,
    atype: AttributeType,
) -> Result<AddressFamily, StunParseError>
    ensures { MatchResult result (λ family. (family_read_refusal atype.0 raw.now ≡ None)
        × (raw.now.kind ≡ atype.0) × (family_number family ≡ slice_index raw.now.value 0))
        (IsNamed (family_read_refusal atype.0 raw.now)) }
{
    let value = value_of(raw, atype, 4, 4)?;
    family_of(value[0])
}

/// Returns the family with a number, or fails with `InvalidAttributeData` if there is none.
#[tactic(auto, unfolding(crate::specs::FamilyValues::family_refusal))]
pub(crate) fn family_of(number: u8) -> Result<AddressFamily, StunParseError>
    ensures { MatchResult result (λ family. (family_refusal number ≡ None)
        × (family_number family ≡ number)) (IsNamed (family_refusal number)) }
{
    match number {
        IPV4_FAMILY => Ok(AddressFamily::IPV4),
        IPV6_FAMILY => Ok(AddressFamily::IPV6),
        _ => Err(StunParseError::InvalidAttributeData),
    }
}

//! Attribute values that are a 32-bit number.

ghost use Rattle.std.specs.Prelude.{◌≡◌, None, length, MatchResult};
ghost use Rattle.stun_types_integrity.specs.Write.ValueReading.{IsNamed, value_refusal};
ghost use Rattle.byteorder.specs.Endian.{big_bytes, big_number};

use crate::stun_types_wire::attribute::{AttributeType, RawAttribute};
use crate::stun_types_wire::error::StunParseError;
use crate::stun_types_write::reading::value_of;
use byteorder::{BigEndian, ByteOrder};

/// Decodes the four bytes of an attribute of this type as a big-endian number.
///
/// # Errors
///
/// 1. `WrongAttributeImplementation`: the attribute has another type.
/// 2. `Truncated`: the value has fewer than four bytes.
/// 3. `TooLarge`: the value has more than four bytes.
pub fn read_number(raw: &RawAttribute<'_>, atype: AttributeType) -> Result<u32, StunParseError>
    ensures { MatchResult result (λ number. (value_refusal atype.0 4 4 raw.now ≡ None)
        × (raw.now.kind ≡ atype.0) × (number ≡ big_number 4 raw.now.value)
        × (big_bytes 4 number ≡ raw.now.value)) (IsNamed (value_refusal atype.0 4 4 raw.now)) }
{
    let value = value_of(raw, atype, 4, 4)?;
    Ok(number_of(value))
}

/// Returns the big-endian number in four bytes.
#[tactic(auto, using(crate::proofs::Numbers::bytes_again))]
fn number_of(value: &[u8]) -> u32
    requires { length value.now ≡ 4 }
    ensures decoded { result ≡ big_number 4 value.now }
    ensures again { big_bytes 4 result ≡ value.now }
{
    BigEndian::read_u32(value)
}

//! What typed attributes share when they decode a type and a value.

ghost use Rattle.std.specs.Prelude.{◌≡◌, ◌≤◌, ℕ, length, MatchResult, None};
ghost use Rattle.stun_types_write.specs.Adding.{attr_of};
ghost use Rattle.stun_types_write.specs.ValueReading.{IsNamed, value_refusal, text_read_refusal};
ghost use Rattle.stun_types_write.specs.ValueReading.{utf8_refusal};

use std::ops::Bound;
use stun_types_wire::attribute::{AttributeType, RawAttribute};
use stun_types_wire::error::StunParseError;

/// Returns the value of an attribute of type `atype`, with a length from `least` to `most`.
///
/// # Errors
///
/// In this order:
///
/// - `WrongAttributeImplementation`: the type is another one.
/// - `Truncated`, with `least`: the value is shorter.
/// - `TooLarge`, with `most`: the value is longer.
#[tactic(auto, using(crate::proofs::Values::decoded))]
pub fn value_of<'raw>(
    raw: &'raw RawAttribute<'_>,
    atype: AttributeType,
    least: usize,
    most: usize,
) -> Result<&'raw [u8], StunParseError>
    ensures { MatchResult result (λ value. (value_refusal atype.0 least most raw.now ≡ None)
        × (raw.now.kind ≡ atype.0) × (value.now ≡ raw.now.value)
        × (least ≤ length value.now) × (length value.now ≤ most))
        (IsNamed (value_refusal atype.0 least most raw.now)) }
{
    raw.check_type_and_len(atype, Bound::Included(least), Bound::Included(most))?;
    Ok(raw.value())
}

/// Returns the text of an attribute of type `atype`, with at most `most` bytes.
///
/// # Errors
///
/// In this order:
///
/// - `WrongAttributeImplementation`: the type is another one.
/// - `TooLarge`: the value is longer.
/// - `InvalidAttributeData`: the value is not UTF-8.
#[tactic(auto, unfolding(crate::specs::ValueReading::text_read_refusal))]
pub fn text_of<'raw>(
    raw: &'raw RawAttribute<'_>,
    atype: AttributeType,
    most: usize,
) -> Result<&'raw str, StunParseError>
    ensures { MatchResult result (λ text. (text_read_refusal atype.0 most raw.now ≡ None)
        × (raw.now.kind ≡ atype.0) × (text.now ≡ raw.now.value) × (length text.now ≤ most))
        (IsNamed (text_read_refusal atype.0 most raw.now)) }
{
    let value = value_of(raw, atype, 0, most)?;
    let text = read_text(value)?;
    Ok(text)
}

/// Decodes bytes as a text. Fails with `InvalidAttributeData` if they are not UTF-8.
#[tactic(auto, using(crate::proofs::Values::texts))]
pub fn read_text(bytes: &[u8]) -> Result<&str, StunParseError>
    ensures { MatchResult result (λ text. (utf8_refusal bytes.now ≡ None) × (text.now ≡ bytes.now))
        (IsNamed (utf8_refusal bytes.now)) }
{
    match str::from_utf8(bytes) {
        Ok(text) => Ok(text),
        Err(_) => Err(StunParseError::InvalidAttributeData),
    }
}

/// Proof only. A text of at most `most` bytes is accepted as the value of an attribute of any type.
#[tactic(auto, using(crate::proofs::Values::text_is_accepted))]
pub fn proof_text_is_read(text: &str, most: usize)
    requires { length text.now ≤ most }
    ensures utf8 { utf8_refusal text.now ≡ None }
    ensures accepted { (kind : ℕ) → text_read_refusal kind most (attr_of kind text.now) ≡ None }
{}

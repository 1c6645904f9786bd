//! Truncated HMACs, as in MESSAGE-INTEGRITY-SHA256 (RFC 8489, section 14.6) and
//! MESSAGE-INTEGRITY-SHA512: the first bytes of an HMAC, at least a minimum number of them and a
//! multiple of four.

ghost use Rattle.std.specs.Prelude.{◌≡◌, length, MatchResult, IsTrue, None, Some};
ghost use Rattle.stun_types_write.specs.ValueReading.{IsNamed};
ghost use Rattle.stun_types_integrity.specs.TruncatedHmacs.{truncated_read_refusal};
ghost use Rattle.stun_types_integrity.specs.TruncatedHmacs.{truncated_refusal, is_truncated_length};

use crate::stun_types_wire::attribute::{AttributeType, RawAttribute};
use crate::stun_types_wire::error::{StunParseError, StunWriteError};
use stun_types_write::reading::value_of;

/// Checks that `len` bytes are an accepted truncation of an HMAC of `whole` bytes.
///
/// # Errors
///
/// 1. `TooSmall`: `len` is less than `least`.
/// 2. `TooLarge`: `len` is greater than `whole`.
/// 3. `IntegrityFailed`: `len` is not a multiple of four.
#[tactic(auto, unfolding(crate::specs::TruncatedHmacs::truncated_refusal))]
pub(crate) fn check_truncated(len: usize, least: usize, whole: usize) -> Result<(), StunWriteError>
    ensures { MatchResult result (λ _. (truncated_refusal least whole len ≡ None)
        × IsTrue (is_truncated_length least whole len))
        (λ error. truncated_refusal least whole len ≡ Some error) }
{
    if len < least {
        return Err(StunWriteError::TooSmall {
            expected: least,
            actual: len,
        });
    }
    if len > whole {
        return Err(StunWriteError::TooLarge {
            expected: whole,
            actual: len,
        });
    }
    if len % 4 != 0 {
        return Err(StunWriteError::IntegrityFailed);
    }
    Ok(())
}

/// Returns the HMAC, possibly truncated, in the value of an attribute of this type.
///
/// # Errors
///
/// 1. `WrongAttributeImplementation`: `raw` has another type.
/// 2. `Truncated`: the value has fewer than `least` bytes.
/// 3. `TooLarge`: the value has more than `whole` bytes.
/// 4. `InvalidAttributeData`: the value's length is not a multiple of four.
#[tactic(auto, unfolding(crate::proofs::TruncatedHmacs::refusals))]
pub(crate) fn truncated_to<'raw>(
    raw: &'raw RawAttribute<'_>,
    atype: AttributeType,
    least: usize,
    whole: usize,
) -> Result<&'raw [u8], StunParseError>
    ensures { MatchResult result (λ value.
        (truncated_read_refusal atype.0 least whole raw.now ≡ None)
        × (raw.now.kind ≡ atype.0) × (value.now ≡ raw.now.value)
        × IsTrue (is_truncated_length least whole (length value.now)))
        (IsNamed (truncated_read_refusal atype.0 least whole raw.now)) }
{
    let value = value_of(raw, atype, least, whole)?;
    if value.len() % 4 != 0 {
        return Err(StunParseError::InvalidAttributeData);
    }
    Ok(value)
}

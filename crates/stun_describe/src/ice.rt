//! The values of ICE's attributes as text (RFC 8445, section 16.1).

use std::convert::TryFrom;
use stun_types_add::ice::{IceControlled, IceControlling, Priority, UseCandidate};
use stun_types_wire::attribute::RawAttribute;
use stun_types_wire::error::StunParseError;
use stun_types_write::attribute::AttributeStaticType;

/// Appends the value of an ICE attribute as text: a priority in decimal, a tie-breaker in hex, and
/// `-` for USE-CANDIDATE, which has no value. Returns whether the attribute is an ICE attribute.
///
/// # Errors
///
/// - The errors of the attribute's own `try_from`.
pub(crate) fn push_ice(text: &mut String, raw: &RawAttribute<'_>) -> Result<bool, StunParseError> {
    match raw.get_type() {
        Priority::TYPE => write!(text, "{}", Priority::try_from(raw)?.priority())?,
        UseCandidate::TYPE => {
            let _ = UseCandidate::try_from(raw)?;
            text.push_str("-")?;
        }
        IceControlled::TYPE => {
            let tie_breaker = IceControlled::try_from(raw)?.tie_breaker();
            write!(text, "0x{tie_breaker:016x}")?;
        }
        IceControlling::TYPE => {
            let tie_breaker = IceControlling::try_from(raw)?.tie_breaker();
            write!(text, "0x{tie_breaker:016x}")?;
        }
        _ => return Ok(false),
    }
    Ok(true)
}

//! Checks on what may be added to a message, and how long it may grow.

ghost use Rattle.std.specs.Prelude.{◌≡◌, ◌≢◌, ◌*◌, ◌≤◌, length, IfErr, MatchResult, None, Some};
ghost use Rattle.stun_types_integrity.specs.Wire.Registry.{greatest_size};
ghost use Rattle.stun_types_integrity.specs.Write.Outcomes.{Fits, IsTooLong};
ghost use Rattle.stun_types_integrity.specs.Signing.{order_refusal};

use crate::stun_types_wire::algorithm::IntegrityAlgorithm;
use crate::stun_types_wire::error::StunWriteError;
use crate::stun_types_wire::header::MessageHeader;
use crate::stun_types_wire::registry::{MAX_DATA_LENGTH, MAX_MESSAGE_LENGTH};
use crate::stun_types_write::ended::Ended;
use crate::stun_types_write::writer::MessageWrite;
use stun_types_integrity::algorithm::attribute_type;

/// Returns the length of the message after `size` more bytes.
///
/// # Errors
///
/// 1. `TooLarge`: the length field would exceed 65,535.
/// 2. `TooSmall`: the message would exceed the writer's maximum size.
pub fn end_of_add<W: MessageWrite>(writer: &W, size: usize) -> Result<usize, StunWriteError>
    requires started { length (W.draft writer.now).bytes ≤ greatest_size }
    requires small { size ≤ 2 * greatest_size }
    ensures { MatchResult result (Fits (W.draft writer.now) size)
        (IsTooLong (W.draft writer.now) size) }
{
    let end = writer.len() + size;
    if end > MAX_MESSAGE_LENGTH {
        return Err(StunWriteError::TooLarge {
            expected: MAX_DATA_LENGTH,
            actual: end - MessageHeader::LENGTH,
        });
    }
    if let Some(most) = writer.max_size() {
        if most < end {
            return Err(StunWriteError::TooSmall {
                expected: end,
                actual: most,
            });
        }
    }
    Ok(end)
}

/// Checks that the integrity attribute of an algorithm may follow what was added (RFC 8489,
/// sections 14.5 to 14.7).
///
/// # Errors
///
/// 1. `FingerprintExists`: a FINGERPRINT was added.
/// 2. `AttributeExists`: the integrity attribute of this algorithm was added.
/// 3. `MessageIntegrityExists`: the integrity attribute of a stronger algorithm was added.
#[tactic(auto, unfolding(stun_types_integrity::specs::Signing::order_refusal))]
pub fn may_sign(ended: Ended, algorithm: IntegrityAlgorithm) -> Result<(), StunWriteError>
    ensures order { MatchResult result (λ _. order_refusal ended algorithm ≡ None)
        (λ error. order_refusal ended algorithm ≡ Some error) }
    ensures named { IfErr result (λ error. error ≢ StunWriteError.NoMemory) }
{
    if ended.fingerprint {
        return Err(StunWriteError::FingerprintExists);
    }
    let (same, stronger) = match algorithm {
        IntegrityAlgorithm::Sha1 => (ended.integrity, ended.sha256 || ended.sha512),
        IntegrityAlgorithm::Sha256 => (ended.sha256, ended.sha512),
        IntegrityAlgorithm::Sha512 => (ended.sha512, false),
    };
    if same {
        return Err(StunWriteError::AttributeExists(attribute_type(algorithm)));
    }
    if stronger {
        return Err(StunWriteError::MessageIntegrityExists);
    }
    Ok(())
}

//! Checks, made before anything is added, that all attributes may be added and fit.

ghost use Rattle.std.specs.Prelude.{◌≡◌, ◌≤◌, length, MatchResult, None};
ghost use Rattle.stun_types_message.specs.Write.Adding.{IsStarted};
ghost use Rattle.stun_types_message.specs.Wire.Registry.{greatest_size};
ghost use Rattle.stun_proto_auth.specs.Addition.{parts_refusal};
ghost use Rattle.stun_proto_auth.specs.AdditionStages.{FitsAfter, IsNamed, PartsFit, refusal_after};
ghost use Rattle.stun_proto_auth.specs.AdditionStages.{signing_refusal_after};

use crate::part::Part;
use crate::stun_types_add::room::{end_of_add, may_sign};
use crate::stun_types_integrity::algorithm::hmac_length;
use crate::stun_types_wire::algorithm::IntegrityAlgorithm;
use crate::stun_types_wire::attribute::pad_attribute_len;
use crate::stun_types_wire::error::StunWriteError;
use crate::stun_types_write::writer::MessageWrite;

/// Checks that a part can be added after `before` further bytes, and returns `before` plus the size
/// of its attribute.
///
/// # Errors
///
/// 1. `TooLarge`: the part's value is over its limit.
/// 2. The errors of `add_attribute`.
#[tactic(auto, unfolding(crate::proofs::Below::add_refusal))]
fn fits_after<W: MessageWrite>(
    writer: &W,
    before: usize,
    part: &Part<'_>,
) -> Result<usize, StunWriteError>
    requires size { length (W.draft writer.now).bytes ≤ greatest_size }
    requires before { before ≤ greatest_size }
    ensures { MatchResult result (FitsAfter (W.draft writer.now) before part.now)
        (IsNamed (refusal_after (W.draft writer.now) before part.now)) }
{
    if part.len() > part.most() {
        return Err(StunWriteError::TooLarge {
            expected: part.most(),
            actual: part.len(),
        });
    }
    let ended = writer.ended();
    if ended.fingerprint {
        return Err(StunWriteError::FingerprintExists);
    }
    if ended.integrity || ended.sha256 || ended.sha512 {
        return Err(StunWriteError::MessageIntegrityExists);
    }
    let after = before + (4 + pad_attribute_len(part.len()));
    end_of_add(writer, after)?;
    Ok(after)
}

/// Checks that the parts can be added one after another, and returns how many bytes they take.
/// Fails with the error of the first part that can't be added.
pub(crate) fn parts_fit<W: MessageWrite>(
    writer: &W,
    parts: &[Part<'_>],
) -> Result<usize, StunWriteError>
    requires { IsStarted (W.draft writer.now).bytes }
    ensures { MatchResult result (PartsFit (W.draft writer.now) parts.now)
        (IsNamed (parts_refusal (W.draft writer.now) parts.now)) }
{
    let mut size = 0;
    for part in parts {
        size = fits_after(writer, size, part)?;
    }
    Ok(size)
}

/// Checks that the integrity attribute of an algorithm can be added after `before` further bytes.
/// Fails as `add_message_integrity` does.
pub(crate) fn signature_fits<W: MessageWrite>(
    writer: &W,
    before: usize,
    algorithm: IntegrityAlgorithm,
) -> Result<(), StunWriteError>
    requires size { length (W.draft writer.now).bytes ≤ greatest_size }
    requires before { before ≤ greatest_size }
    ensures { MatchResult result
        (λ _. signing_refusal_after (W.draft writer.now) before algorithm ≡ None)
        (IsNamed (signing_refusal_after (W.draft writer.now) before algorithm)) }
{
    may_sign(writer.ended(), algorithm)?;
    end_of_add(writer, before + (4 + hmac_length(algorithm)))?;
    Ok(())
}

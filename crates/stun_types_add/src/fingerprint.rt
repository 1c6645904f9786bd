//! Adds FINGERPRINT at the end of a message (RFC 8489, section 14.7).

ghost use Rattle.std.specs.Prelude.{◌≡◌, OnOk, OnErr};
ghost use Rattle.stun_types_integrity.specs.Wire.Fingerprints.{fingerprint_of};
ghost use Rattle.stun_types_integrity.specs.Write.Adding.{IsStarted, fingerprint_add_refusal};
ghost use Rattle.stun_types_integrity.specs.Write.Outcomes.{TakesNoMemory, IsAdded};
ghost use Rattle.stun_types_integrity.specs.Base.Refusals.{RefusesFor};

use crate::attribute::Fingerprint;
use crate::room::end_of_add;
use crate::signing::push_as;
use crate::stun_types_wire::error::StunWriteError;
use crate::stun_types_wire::header::MessageHeader;
use crate::stun_types_wire::registry::FINGERPRINT_SIZE;
use crate::stun_types_write::writer::MessageWrite;

/// Adds a FINGERPRINT. Its errors are listed at `MessageWriteExt::add_fingerprint`.
#[tactic(auto, using(crate::proofs::Adds::long), unfolding(crate::proofs::Adds::refusals))]
pub(crate) fn mark<W: MessageWrite>(writer: &mut W) -> Result<(), StunWriteError>
    requires started { IsStarted (W.draft writer.old).bytes }
    ensures ok { OnOk result (IsAdded (fingerprint_of (W.draft writer.old).bytes)
        (W.draft writer.old) (W.draft writer.new)) }
    ensures err { OnErr result (W.draft writer.new ≡ W.draft writer.old) }
    ensures cause { RefusesFor StunWriteError.NoMemory
        (fingerprint_add_refusal (W.draft writer.old)) result }
    ensures lent { TakesNoMemory (W.draft writer.old) result }
{
    if writer.ended().fingerprint {
        return Err(StunWriteError::FingerprintExists);
    }
    let end = end_of_add(&*writer, FINGERPRINT_SIZE)?;
    let len = (end - MessageHeader::LENGTH) as u16;
    let fingerprint = Fingerprint::of_message(writer.data(), len);
    push_as(writer, &fingerprint, &fingerprint)?;
    writer.set_length(len);
    Ok(())
}

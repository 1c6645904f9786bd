//! Adds an integrity attribute at the end of a message (RFC 8489, sections 14.5 and 14.6).

ghost use Rattle.std.specs.Prelude.{◌≡◌, ◌≤◌, ℕ, length, OnOk, OnErr, IsOk, IsSome};
ghost use Rattle.stun_types_integrity.specs.Wire.Attributes.{attr_size};
ghost use Rattle.stun_types_integrity.specs.Wire.Covered.{with_length};
ghost use Rattle.stun_types_integrity.specs.Write.Adding.{attr_of, IsStarted};
ghost use Rattle.stun_types_integrity.specs.Wire.Registry.{greatest_size, header_size};
ghost use Rattle.stun_types_integrity.specs.Signing.{signature, signing_refusal};
ghost use Rattle.stun_types_integrity.specs.Write.Drafts.{HasRoom, pushed_attribute};
ghost use Rattle.stun_types_integrity.specs.Write.Outcomes.{TakesNoMemory, IsAdded};
ghost use Rattle.stun_types_integrity.specs.Base.Refusals.{RefusesFor};

use crate::room::{end_of_add, may_sign};
use crate::stun_types_base::memory::NoMemory;
use crate::stun_types_wire::algorithm::IntegrityAlgorithm;
use crate::stun_types_wire::attribute::RawAttribute;
use crate::stun_types_wire::error::StunWriteError;
use crate::stun_types_wire::header::MessageHeader;
use crate::stun_types_write::attribute::{Attribute, AttributeWrite};
use crate::stun_types_write::writer::MessageWrite;
use stun_types_integrity::algorithm::{attribute_type, hmac_length};
use stun_types_integrity::key::IntegrityKey;

/// Adds the integrity attribute of an algorithm under a key. Its errors are listed at
/// `MessageWriteExt::add_message_integrity_with_key`.
#[tactic(auto, using(crate::proofs::Adds::long), unfolding(crate::proofs::Adds::refusals))]
pub(crate) fn sign<W: MessageWrite>(
    writer: &mut W,
    key: &IntegrityKey<'_>,
    algorithm: IntegrityAlgorithm,
) -> Result<(), StunWriteError>
    requires started { IsStarted (W.draft writer.old).bytes }
    ensures ok { OnOk result (IsAdded (signature algorithm key.now.bytes (W.draft writer.old).bytes)
        (W.draft writer.old) (W.draft writer.new)) }
    ensures err { OnErr result (W.draft writer.new ≡ W.draft writer.old) }
    ensures cause { RefusesFor StunWriteError.NoMemory
        (signing_refusal (W.draft writer.old) key.now.algorithm algorithm) result }
    ensures lent { TakesNoMemory (W.draft writer.old) result }
{
    may_sign(writer.ended(), algorithm)?;
    if key.algorithm() != algorithm {
        return Err(StunWriteError::IntegrityFailed);
    }
    let end = end_of_add(&*writer, 4 + hmac_length(algorithm))?;
    let decoded = length_decoded(writer.data());
    writer.set_length((end - MessageHeader::LENGTH) as u16);
    let hmac = key.hmac(writer.data(), &[], &[]);
    let attribute = RawAttribute::new(attribute_type(algorithm), hmac.as_slice());
    match push_as(writer, &attribute, &attribute) {
        Ok(()) => Ok(()),
        Err(_) => {
            writer.set_length(decoded);
            Err(StunWriteError::NoMemory)
        }
    }
}

/// Returns the length field of a message's header. Writing it back undoes a change of the field.
fn length_decoded(bytes: &[u8]) -> u16
    requires { header_size ≤ length bytes.now }
    ensures { (n : ℕ) → with_length (with_length bytes.now n) result ≡ bytes.now }
{
    u16::from_be_bytes([bytes[2], bytes[3]])
}

/// Calls `push_attribute_unchecked` with an attribute whose type is known. `attribute` and `same`
/// are one value, as a `dyn` and as itself.
pub(crate) fn push_as<W: MessageWrite, A: AttributeWrite>(
    writer: &mut W,
    attribute: &dyn AttributeWrite,
    same: &A,
) -> Result<(), NoMemory>
    requires size { length (W.draft writer.old).bytes ≤ greatest_size }
    requires room { HasRoom (W.draft writer.old)
        (attr_size (attr_of (A.kind same.now) (A.value same.now))) }
    requires kind { (⟦<dyn AttributeWrite as Attribute>⟧ attribute.now.0).kind attribute.now.1
        ≡ A.kind same.now }
    requires value { (⟦<dyn AttributeWrite as Attribute>⟧ attribute.now.0).value attribute.now.1
        ≡ A.value same.now }
    ensures lent { IsSome (W.draft writer.old).limit → IsOk result }
    ensures ok { OnOk result (W.draft writer.new
        ≡ pushed_attribute (attr_of (A.kind same.now) (A.value same.now)) (W.draft writer.old)) }
    ensures err { OnErr result (W.draft writer.new ≡ W.draft writer.old) }
{
    writer.push_attribute_unchecked(attribute)
}

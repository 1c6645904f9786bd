//! Signing of a message that is sent.

ghost use Rattle.std.specs.Prelude.{◌≡◌, IfOk, None, OnOk, Some};
ghost use Rattle.std.specs.Option.{option_copied};
ghost use Rattle.stun_types_message.specs.Base.Refusals.{RefusesFor};
ghost use Rattle.stun_types_message.specs.Write.Adding.{IsStarted};
ghost use Rattle.stun_types_message.specs.Write.Outcomes.{TakesNoMemory};
ghost use Rattle.stun_proto_auth.specs.Addition.{addition_refusal, parts_refusal};
ghost use Rattle.stun_proto_auth.specs.AdditionStages.{AreAdded, IsMade};

use crate::part::Part;
use crate::room::{parts_fit, signature_fits};
use crate::stun_types_add::ext::MessageWriteExt;
use crate::stun_types_integrity::key::IntegrityKey;
use crate::stun_types_wire::error::StunWriteError;
use crate::stun_types_write::writer::MessageWrite;

/// Adds authentication attributes to a message and returns the writer (RFC 8489, sections 9.1 and
/// 9.2). Each part is added as an attribute of its own, in the given order. If there is a key, the
/// integrity attribute of the key's algorithm follows: that one only, and with the full digest.
///
/// # Errors
///
/// The attributes are checked in order before any of them is added, and the first error is
/// returned. A refusal drops the writer.
///
/// 1. For each part: `TooLarge` if its value is over its limit, then the errors of `add_attribute`.
/// 2. For the integrity attribute: the errors of `add_message_integrity`.
/// 3. `NoMemory`: an allocation failed. It never occurs with a writer that has a size limit.
pub fn sign<W: MessageWrite + Drop>(
    writer: W,
    parts: &[Part<'_>],
    signer: Option<&IntegrityKey<'_>>,
) -> Result<W, StunWriteError>
    requires { IsStarted (W.draft writer).bytes }
    ensures ok { IfOk result (λ signed. IsMade
        (record { parts = parts.now; signer = option_copied signer.entry })
        (W.draft writer) (W.draft signed)) }
    ensures cause { RefusesFor StunWriteError.NoMemory (addition_refusal
        (record { parts = parts.now; signer = option_copied signer.entry })
        (W.draft writer)) result }
    ensures lent { TakesNoMemory (W.draft writer) result }
{
    let mut writer = writer;
    match signer {
        Some(key) => add_signed(&mut writer, parts, key)?,
        None => add_unsigned(&mut writer, parts)?,
    }
    Ok(writer)
}

/// Adds the parts and then the integrity attribute under a key. Fails as `sign` does.
fn add_signed<W: MessageWrite>(
    writer: &mut W,
    parts: &[Part<'_>],
    key: &IntegrityKey<'_>,
) -> Result<(), StunWriteError>
    requires { IsStarted (W.draft writer.old).bytes }
    ensures ok { OnOk result (IsMade
        (record { parts = parts.now; signer = Some key.now })
        (W.draft writer.old) (W.draft writer.new)) }
    ensures cause { RefusesFor StunWriteError.NoMemory (addition_refusal
        (record { parts = parts.now; signer = Some key.now }) (W.draft writer.old)) result }
    ensures lent { TakesNoMemory (W.draft writer.old) result }
{
    let size = parts_fit(&*writer, parts)?;
    signature_fits(&*writer, size, key.algorithm())?;
    add_parts(writer, parts)?;
    writer.add_message_integrity_with_key(key, key.algorithm())?;
    Ok(())
}

/// Adds only the parts. Fails as `sign` does.
fn add_unsigned<W: MessageWrite>(writer: &mut W, parts: &[Part<'_>]) -> Result<(), StunWriteError>
    requires { IsStarted (W.draft writer.old).bytes }
    ensures ok { OnOk result (IsMade
        (record { parts = parts.now; signer = None })
        (W.draft writer.old) (W.draft writer.new)) }
    ensures cause { RefusesFor StunWriteError.NoMemory (addition_refusal
        (record { parts = parts.now; signer = None }) (W.draft writer.old)) result }
    ensures lent { TakesNoMemory (W.draft writer.old) result }
{
    parts_fit(&*writer, parts)?;
    add_parts(writer, parts)?;
    Ok(())
}

/// Adds parts that are known to fit, in order. Fails only with `NoMemory`.
fn add_parts<W: MessageWrite>(writer: &mut W, parts: &[Part<'_>]) -> Result<(), StunWriteError>
    requires started { IsStarted (W.draft writer.old).bytes }
    requires accepted { parts_refusal (W.draft writer.old) parts.now ≡ None }
    ensures ok { OnOk result (AreAdded parts.now (W.draft writer.old) (W.draft writer.new)) }
    ensures memory { RefusesFor StunWriteError.NoMemory None result }
    ensures lent { TakesNoMemory (W.draft writer.old) result }
{
    for part in parts {
        part.add_to(writer)?;
    }
    Ok(())
}

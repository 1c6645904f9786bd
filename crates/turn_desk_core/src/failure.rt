//! Error responses (RFC 8489, section 6.3.4).

ghost use Rattle.std.specs.Prelude.{◌≡◌, ◌≤◌, IfOk, IfErr};
ghost use Rattle.stun_types_wire.specs.Attributes.{kind_at};
ghost use Rattle.stun_types_wire.specs.Types.{class_of};
ghost use Rattle.stun_types_wire.specs.Grammar.{number_at};
ghost use Rattle.stun_types_wire.specs.declared.class.MessageClass.TheVariants.{Request};
ghost use Rattle.stun_types_wire.specs.Registry.{greatest_code, least_code};
ghost use Rattle.stun_types_write.specs.Lent.{own_draft};
ghost use Rattle.stun_types_message.specs.Objections.{error_type};
ghost use Rattle.turn_desk_core.specs.Replies.{IsReply, failure_attributes};

use std::alloc::Global;
use stun_types_add::ext::add_as;
use stun_types_attributes::error_code::ErrorCode;
use stun_types_base::memory::NoMemory;
use stun_types_message::parsed::Message;
use stun_types_wire::error::StunWriteError;
use stun_types_write::vec::MessageWriteVec;

/// Returns the unsigned error response to a request. Its only attribute is ERROR-CODE, with the
/// code and its standard reason. The authenticator adds the attributes of a challenge.
///
/// # Errors
///
/// - `NoMemory`: an allocation failed.
pub fn failure(alloc: Global, request: &Message, code: u16) -> Result<MessageWriteVec, NoMemory>
    requires request { class_of (kind_at request.now) ≡ Request }
    requires least { least_code ≤ code }
    requires most { code ≤ greatest_code }
    ensures { IfOk result (λ reply. IsReply (error_type request.now) (number_at request.now)
        (failure_attributes code) (own_draft reply)) }
{
    match write_failure(alloc, request, code) {
        Ok(reply) => Ok(reply),
        Err(StunWriteError::NoMemory) => Err(NoMemory),
        Err(_) => unreachable!(),
    }
}

/// Does the work of `failure` with the writer's error type. The only possible error is
/// `StunWriteError::NoMemory`.
fn write_failure(
    alloc: Global,
    request: &Message,
    code: u16,
) -> Result<MessageWriteVec, StunWriteError>
    requires request { class_of (kind_at request.now) ≡ Request }
    requires least { least_code ≤ code }
    requires most { code ≤ greatest_code }
    ensures reply { IfOk result (λ reply. IsReply (error_type request.now) (number_at request.now)
        (failure_attributes code) (own_draft reply)) }
    ensures memory { IfErr result (λ error. error ≡ StunWriteError.NoMemory) }
{
    let code = ErrorCode::builder(code).build(alloc)?;
    let mut reply = Message::builder_error(request, MessageWriteVec::new(alloc))?;
    add_as(&mut reply, &code, &code)?;
    Ok(reply)
}

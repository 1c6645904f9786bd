//! The success responses to the methods other than ALLOCATE, which concern an existing allocation
//! (RFC 8656, sections 8.2, 10.2 and 12.2; RFC 6062, sections 5.2 and 5.4).

ghost use Rattle.std.specs.Prelude.{◌≡◌, IfOk, IfErr};
ghost use Rattle.stun_types_wire.specs.Attributes.{kind_at};
ghost use Rattle.stun_types_wire.specs.Types.{class_of};
ghost use Rattle.stun_types_wire.specs.Grammar.{number_at};
ghost use Rattle.stun_types_wire.specs.declared.class.MessageClass.TheVariants.{Request};
ghost use Rattle.stun_types_write.specs.Lent.{own_draft};
ghost use Rattle.turn_desk_core.specs.Replies.{IsReply, success_type};
ghost use Rattle.turn_desk_core.specs.Granted.{connected_attributes, granted_attributes, refreshed_attributes};

use std::alloc::Global;
use stun_types_add::ext::add_as;
use stun_types_base::memory::NoMemory;
use stun_types_message::parsed::Message;
use stun_types_wire::error::StunWriteError;
use stun_types_write::vec::MessageWriteVec;
use turn_types_attributes::lifetime::Lifetime;
use turn_types_peer::connection_id::ConnectionId;

/// Returns the unsigned success response to a REFRESH, with LIFETIME in seconds (RFC 8656, section
/// 8.2).
///
/// # Errors
///
/// - `NoMemory`: an allocation failed.
pub fn refreshed(
    alloc: Global,
    request: &Message,
    lifetime: u32,
) -> Result<MessageWriteVec, NoMemory>
    requires request { class_of (kind_at request.now) ≡ Request }
    ensures { IfOk result (λ reply. IsReply (success_type request.now) (number_at request.now)
        (refreshed_attributes lifetime) (own_draft reply)) }
{
    match write_refreshed(alloc, request, lifetime) {
        Ok(reply) => Ok(reply),
        Err(StunWriteError::NoMemory) => Err(NoMemory),
        Err(_) => unreachable!(),
    }
}

/// Returns the unsigned success response to a CONNECT, with the CONNECTION-ID of the connection to
/// the peer (RFC 6062, section 5.2).
///
/// # Errors
///
/// - `NoMemory`: an allocation failed.
pub fn connected(
    alloc: Global,
    request: &Message,
    connection: u32,
) -> Result<MessageWriteVec, NoMemory>
    requires request { class_of (kind_at request.now) ≡ Request }
    ensures { IfOk result (λ reply. IsReply (success_type request.now) (number_at request.now)
        (connected_attributes connection) (own_draft reply)) }
{
    match write_connected(alloc, request, connection) {
        Ok(reply) => Ok(reply),
        Err(StunWriteError::NoMemory) => Err(NoMemory),
        Err(_) => unreachable!(),
    }
}

/// Returns an unsigned success response without attributes: the one to a CREATE_PERMISSION, a
/// CHANNEL_BIND or a CONNECTION_BIND (RFC 8656, sections 10.2 and 12.2; RFC 6062, section 5.4).
///
/// # Errors
///
/// - `NoMemory`: an allocation failed.
pub fn granted(alloc: Global, request: &Message) -> Result<MessageWriteVec, NoMemory>
    requires request { class_of (kind_at request.now) ≡ Request }
    ensures { IfOk result (λ reply. IsReply (success_type request.now) (number_at request.now)
        granted_attributes (own_draft reply)) }
{
    match write_granted(alloc, request) {
        Ok(reply) => Ok(reply),
        Err(StunWriteError::NoMemory) => Err(NoMemory),
        Err(_) => unreachable!(),
    }
}

/// Does the work of `refreshed` with the writer's error type. The only possible error is
/// `StunWriteError::NoMemory`.
fn write_refreshed(
    alloc: Global,
    request: &Message,
    lifetime: u32,
) -> Result<MessageWriteVec, StunWriteError>
    requires request { class_of (kind_at request.now) ≡ Request }
    ensures reply { IfOk result (λ reply. IsReply (success_type request.now)
        (number_at request.now) (refreshed_attributes lifetime) (own_draft reply)) }
    ensures memory { IfErr result (λ error. error ≡ StunWriteError.NoMemory) }
{
    let lifetime = Lifetime::new(lifetime);
    let mut reply = write_granted(alloc, request)?;
    add_as(&mut reply, &lifetime, &lifetime)?;
    Ok(reply)
}

/// Does the work of `connected` with the writer's error type. The only possible error is
/// `StunWriteError::NoMemory`.
fn write_connected(
    alloc: Global,
    request: &Message,
    connection: u32,
) -> Result<MessageWriteVec, StunWriteError>
    requires request { class_of (kind_at request.now) ≡ Request }
    ensures reply { IfOk result (λ reply. IsReply (success_type request.now)
        (number_at request.now) (connected_attributes connection) (own_draft reply)) }
    ensures memory { IfErr result (λ error. error ≡ StunWriteError.NoMemory) }
{
    let connection = ConnectionId::new(connection);
    let mut reply = write_granted(alloc, request)?;
    add_as(&mut reply, &connection, &connection)?;
    Ok(reply)
}

/// Does the work of `granted` with the writer's error type. The only possible error is
/// `StunWriteError::NoMemory`.
fn write_granted(alloc: Global, request: &Message) -> Result<MessageWriteVec, StunWriteError>
    requires request { class_of (kind_at request.now) ≡ Request }
    ensures reply { IfOk result (λ reply. IsReply (success_type request.now)
        (number_at request.now) granted_attributes (own_draft reply)) }
    ensures memory { IfErr result (λ error. error ≡ StunWriteError.NoMemory) }
{
    let reply = Message::builder_success(request, MessageWriteVec::new(alloc))?;
    Ok(reply)
}

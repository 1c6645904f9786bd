//! The success response to an ALLOCATE (RFC 8656, section 7.3).

ghost use Rattle.std.specs.Prelude.{◌≡◌, ◌≤◌, ◌++◌, length, ℕ, List, None, IfOk, IfErr, OnOk, option_to_list};
ghost use Rattle.std.specs.Option.{option_copied};
ghost use Rattle.stun_types_wire.specs.Attributes.{Attr, attr_size, kind_at};
ghost use Rattle.stun_types_wire.specs.Types.{class_of};
ghost use Rattle.stun_types_wire.specs.Grammar.{number_at};
ghost use Rattle.stun_types_wire.specs.declared.class.MessageClass.TheVariants.{Request};
ghost use Rattle.stun_types_write.specs.Adding.{IsStarted, add_refusal};
ghost use Rattle.stun_types_write.specs.Drafts.{Draft};
ghost use Rattle.stun_types_write.specs.Lent.{own_draft};
ghost use Rattle.stun_types_add.specs.Calls.{IsComposed};
ghost use Rattle.turn_desk_core.specs.Replies.{IsReply, allocated_attributes, relayed_attribute, relayed_attributes, success_type};

use std::alloc::Global;
use std::net::SocketAddr;
use stun_types_add::ext::add_as;
use stun_types_attributes::xor_mapped_address::XorMappedAddress;
use stun_types_base::memory::NoMemory;
use stun_types_message::parsed::Message;
use stun_types_wire::error::StunWriteError;
use stun_types_wire::transaction::TransactionId;
use stun_types_write::vec::MessageWriteVec;
use turn_types_attributes::lifetime::Lifetime;
use turn_types_attributes::xor_relayed_address::XorRelayedAddress;

/// Returns the unsigned success response to an ALLOCATE. Its attributes are one XOR-RELAYED-ADDRESS
/// per relayed address, in order; LIFETIME, in seconds; and XOR-MAPPED-ADDRESS with the request's
/// source address.
///
/// # Errors
///
/// - `NoMemory`: an allocation failed.
pub fn allocated(
    alloc: Global,
    request: &Message,
    relayed: &[SocketAddr],
    lifetime: u32,
    from: SocketAddr,
) -> Result<MessageWriteVec, NoMemory>
    requires request { class_of (kind_at request.now) ≡ Request }
    requires few { length relayed.now ≤ 2 }
    ensures { IfOk result (λ reply. IsReply (success_type request.now) (number_at request.now)
        (allocated_attributes (number_at request.now) relayed.now lifetime from)
        (own_draft reply)) }
{
    match write_allocated(alloc, request, relayed, lifetime, from) {
        Ok(reply) => Ok(reply),
        Err(StunWriteError::NoMemory) => Err(NoMemory),
        Err(_) => unreachable!(),
    }
}

/// Does the work of `allocated` with the writer's error type. The only possible error is
/// `StunWriteError::NoMemory`.
fn write_allocated(
    alloc: Global,
    request: &Message,
    relayed: &[SocketAddr],
    lifetime: u32,
    from: SocketAddr,
) -> Result<MessageWriteVec, StunWriteError>
    requires request { class_of (kind_at request.now) ≡ Request }
    requires few { length relayed.now ≤ 2 }
    ensures reply { IfOk result (λ reply. IsReply (success_type request.now)
        (number_at request.now)
        (allocated_attributes (number_at request.now) relayed.now lifetime from)
        (own_draft reply)) }
    ensures memory { IfErr result (λ error. error ≡ StunWriteError.NoMemory) }
{
    let number = request.transaction_id();
    let lifetime = Lifetime::new(lifetime);
    let mapped = XorMappedAddress::new(from, number);
    let mut reply = Message::builder_success(request, MessageWriteVec::new(alloc))?;
    add_relayed(&mut reply, relayed.first(), number)?;
    add_relayed(&mut reply, relayed.get(1), number)?;
    add_as(&mut reply, &lifetime, &lifetime)?;
    add_as(&mut reply, &mapped, &mapped)?;
    Ok(reply)
}

/// Adds XOR-RELAYED-ADDRESS to a reply with this transaction ID, if there is an address. The reply
/// has room for any address, so the only possible error is `StunWriteError::NoMemory`.
fn add_relayed(
    reply: &mut MessageWriteVec,
    relayed: Option<&SocketAddr>,
    transaction_id: TransactionId,
) -> Result<(), StunWriteError>
    requires started { IsStarted (own_draft reply.old).bytes }
    requires room { (addr : SocketAddr) → add_refusal (own_draft reply.old)
        (attr_size (relayed_attribute transaction_id addr)) ≡ None }
    ensures composed { OnOk result ((kind : ℕ) (attributes : List Attr) (old : Draft)
        → IsComposed kind transaction_id attributes old (own_draft reply.old)
        → IsComposed kind transaction_id
        (attributes ++ relayed_attributes transaction_id (option_to_list
        (option_copied relayed.entry)))
        old (own_draft reply.new)) }
    ensures started { IsStarted (own_draft reply.new).bytes }
    ensures memory { IfErr result (λ error. error ≡ StunWriteError.NoMemory) }
{
    if let Some(addr) = relayed {
        let relayed = XorRelayedAddress::new(*addr, transaction_id);
        add_as(reply, &relayed, &relayed)?;
    }
    Ok(())
}

//! The reply to a request, and the grant that is stored for it.

ghost use Rattle.std.specs.Prelude.{◌≡◌, ◌∷◌, [], IfOk, option_to_list};
ghost use Rattle.stun_types_wire.specs.Attributes.{kind_at};
ghost use Rattle.stun_types_wire.specs.Types.{class_of};
ghost use Rattle.stun_types_wire.specs.declared.class.MessageClass.TheVariants.{Request};
ghost use Rattle.stun_types_wire.specs.Grammar.{number_at};
ghost use Rattle.stun_types_write.specs.Lent.{own_draft};
ghost use Rattle.turn_desk_core.specs.Replies.{IsReply};
ghost use Rattle.turn_desk_core.specs.Verdicts.{IsLawful, bare_grant, grants_of, reply_attributes, reply_type};

use crate::allocated::allocated;
use crate::failure::failure;
use crate::grant::Grant;
use crate::granted::{connected, granted, refreshed};
use crate::verdict::Verdict;
use std::alloc::Global;
use std::net::SocketAddr;
use stun_types_base::list::ListOf;
use stun_types_base::memory::NoMemory;
use stun_types_message::parsed::Message;
use stun_types_write::vec::MessageWriteVec;

/// Returns the reply to a request for a verdict, before it is signed.
///
/// - `Verdict::Fails`: an error response with the code.
/// - `Verdict::Allocates`: a success response with the relayed addresses, LIFETIME and
///   XOR-MAPPED-ADDRESS.
/// - `Verdict::Refreshes`: a success response with LIFETIME.
/// - `Verdict::Connects`: a success response with CONNECTION-ID.
/// - Any other verdict: a success response without attributes.
///
/// # Errors
///
/// - `NoMemory`: an allocation failed.
pub fn reply_to(
    alloc: Global,
    request: &Message,
    from: SocketAddr,
    what: &Verdict,
) -> Result<MessageWriteVec, NoMemory>
    requires request { class_of (kind_at request.now) ≡ Request }
    requires lawful { IsLawful what.now }
    ensures { IfOk result (λ reply. IsReply (reply_type request.now what.now)
        (number_at request.now) (reply_attributes request.now from what.now) (own_draft reply)) }
{
    match what {
        Verdict::Fails(code) => failure(alloc, request, *code),
        Verdict::Allocates {
            relayed,
            lifetime,
            ..
        } => allocated(alloc, request, relayed.as_slice(), *lifetime, from),
        Verdict::Refreshes(lifetime) => refreshed(alloc, request, *lifetime),
        Verdict::Connects { connection, .. } => connected(alloc, request, *connection),
        Verdict::Permits(_) | Verdict::Binds { .. } | Verdict::Joins(_) => granted(alloc, request),
    }
}

/// Returns the grant for a verdict on a request from an address, or `None` if nothing is granted.
/// Peers, channel, transport and the ID of a connection that is bound come from the request.
/// Relayed addresses, lifetime and the ID of a new connection come from the decision.
///
/// # Errors
///
/// - `NoMemory`: an allocation failed.
pub fn granted_to(
    alloc: Global,
    request: &Message,
    from: SocketAddr,
    what: Verdict,
) -> Result<Option<Grant>, NoMemory>
    ensures { IfOk result (λ stored. option_to_list stored ≡ grants_of request.now from what) }
{
    let mut grant = bare_grant(alloc, request, from);
    match what {
        Verdict::Fails(_) => return Ok(None),
        Verdict::Allocates {
            transport,
            relayed,
            lifetime,
        } => {
            grant.transport = Some(transport);
            grant.relayed = relayed;
            grant.lifetime = Some(lifetime);
        }
        Verdict::Refreshes(lifetime) => grant.lifetime = Some(lifetime),
        Verdict::Permits(peers) => grant.peers = peers,
        Verdict::Binds { channel, peer } => {
            grant.peers = one(alloc, peer)?;
            grant.channel = Some(channel);
        }
        Verdict::Connects { peer, connection } => {
            grant.peers = one(alloc, peer)?;
            grant.connection = Some(connection);
        }
        Verdict::Joins(connection) => grant.connection = Some(connection),
    }
    Ok(Some(grant))
}

/// Returns a grant with the request's method, transaction ID and source, and all other fields
/// empty.
fn bare_grant(alloc: Global, request: &Message, from: SocketAddr) -> Grant
    ensures { result ≡ bare_grant request.now from }
{
    Grant {
        method: request.method(),
        number: request.transaction_id(),
        from,
        transport: None,
        relayed: ListOf::new(alloc),
        lifetime: None,
        peers: ListOf::new(alloc),
        channel: None,
        connection: None,
    }
}

/// Returns a list of one peer.
///
/// # Errors
///
/// - `NoMemory`: an allocation failed.
fn one(alloc: Global, peer: SocketAddr) -> Result<ListOf<SocketAddr>, NoMemory>
    ensures { IfOk result (λ peers. peers ≡ peer ∷ []) }
{
    let mut peers = ListOf::new(alloc);
    peers.push(peer)?;
    Ok(peers)
}

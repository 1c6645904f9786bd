//! The peers that a request names (RFC 8656, section 18.3).

ghost use Rattle.std.specs.Prelude.{◌≡◌, IfOk};
ghost use Rattle.turn_desk_core.specs.RequestedFor.{are_peers, peer_requested, peer_in, peers_requested, peers_reported};

use std::alloc::Global;
use std::convert::TryFrom;
use std::net::SocketAddr;
use stun_types_base::list::ListOf;
use stun_types_base::memory::NoMemory;
use stun_types_message::parsed::Message;
use stun_types_wire::attribute::RawAttribute;
use stun_types_wire::transaction::TransactionId;
use stun_types_write::attribute::AttributeStaticType;
use turn_types_peer::xor_peer_address::XorPeerAddress;

/// Returns the peer of the first XOR-PEER-ADDRESS, if there is one and it is well formed.
pub(crate) fn peer_requested(request: &Message) -> Option<SocketAddr>
    ensures { result ≡ peer_requested request.now }
{
    let raw = request.raw_attribute(XorPeerAddress::TYPE)?;
    peer_in(&raw, request.transaction_id())
}

/// Returns the peers of all XOR-PEER-ADDRESS attributes, in order, or `None` if there is none or
/// one is malformed.
///
/// # Errors
///
/// - `NoMemory`: an allocation failed.
pub(crate) fn peers_requested(
    alloc: Global,
    request: &Message,
) -> Result<Option<ListOf<SocketAddr>>, NoMemory>
    ensures { IfOk result (λ peers. peers ≡ peers_requested request.now) }
{
    if !are_peers(request) {
        return Ok(None);
    }
    let peers = peers_reported(alloc, request)?;
    if peers.is_empty() {
        return Ok(None);
    }
    Ok(Some(peers))
}

/// Returns whether every XOR-PEER-ADDRESS is well formed.
#[tactic(auto, using(stun_types_wire::proofs::Left::map_numbered))]
fn are_peers(request: &Message) -> bool
    ensures { result ≡ are_peers request.now }
{
    let number = request.transaction_id();
    for (_, raw) in request.iter_attributes() {
        if raw.get_type() == XorPeerAddress::TYPE && peer_in(&raw, number).is_none() {
            return false;
        }
    }
    true
}

/// Returns the peers of all well-formed XOR-PEER-ADDRESS attributes, in order.
#[tactic(auto, using(stun_types_wire::proofs::Left::map_numbered))]
fn peers_reported(alloc: Global, request: &Message) -> Result<ListOf<SocketAddr>, NoMemory>
    ensures { IfOk result (λ peers. peers ≡ peers_reported request.now) }
{
    let number = request.transaction_id();
    let mut peers = ListOf::new(alloc);
    for (_, raw) in request.iter_attributes() {
        if raw.get_type() == XorPeerAddress::TYPE {
            if let Some(peer) = peer_in(&raw, number) {
                peers.push(peer)?;
            }
        }
    }
    Ok(peers)
}

/// Returns the peer of a XOR-PEER-ADDRESS in a message with this transaction ID, if it is well
/// formed.
fn peer_in(raw: &RawAttribute<'_>, transaction_id: TransactionId) -> Option<SocketAddr>
    ensures { result ≡ peer_in transaction_id raw.now }
{
    match XorPeerAddress::try_from(raw) {
        Ok(peer) => Some(peer.addr(transaction_id)),
        Err(_) => None,
    }
}

//! Channels that the client requests (RFC 8656, section 12.1).

ghost use Rattle.std.specs.Prelude.{◌≡◌, ◌<◌, ◌∷◌, [], IfOk, List, Some, OnOk, OnErr, IfSome, find, length, slice_get, slice_set};
ghost use Rattle.std.specs.List.{list_any};
ghost use Rattle.turn_client_proto_allocation.specs.declared.allocation.Allocation.{Allocation as Stored};
ghost use Rattle.turn_client_proto_allocation.specs.declared.channel.PendingChannel.{PendingChannel as Pending};
ghost use Rattle.turn_client_proto_peers.specs.Channel.Binding.{asking, barred_by, barring, bars, is_to};

use std::alloc::Global;
use std::net::SocketAddr;
use stun_types_base::instant::Instant;
use stun_types_base::list::ListOf;
use stun_types_base::memory::NoMemory;
use stun_types_wire::transaction::TransactionId;
use turn_client_proto_allocation::allocation::Allocation;
use turn_client_proto_allocation::channel::{Channel, ChannelId, ExpiredChannel, PendingChannel};
use turn_client_proto_allocation::channel_of::protected_until;
use turn_client_proto_allocation::listed::Allocations;
use turn_client_proto_api::error::BindChannelError;

/// Returns whether there is an active channel to the peer.
fn is_any_to(channels: &[Channel], peer: SocketAddr) -> bool
    ensures { result ≡ list_any (is_to peer) channels.now }
{
    channels.iter().any(|c| c.peer == peer)
}

/// Returns the error for a peer whose channel has expired and is still protected at `now`, by the
/// first such channel, or `None`.
fn barred(expired: &[ExpiredChannel], peer: SocketAddr, now: Instant) -> Option<BindChannelError>
    ensures { result ≡ barred_by (find (bars peer now) expired.now) }
{
    let c = expired
        .iter()
        .find(|c| c.peer == peer && now <= protected_until(c))?;
    Some(BindChannelError::ExpiredChannelExists(protected_until(c)))
}

/// Returns why no channel to the peer can be bound in the allocation at `now`, or `None` if it can
/// be. A pending channel to the peer does not prevent it.
///
/// 1. `AlreadyExists`: there is an active channel to the peer.
/// 2. `ExpiredChannelExists`, with the end of the protection: a channel to the peer has expired and
///    is still protected. The first such channel counts.
#[tactic(auto, unfolding(crate::specs::Channel::Binding::barring))]
pub fn barring(a: &Allocation, peer: SocketAddr, now: Instant) -> Option<BindChannelError>
    ensures { result ≡ barring peer now a.now }
{
    if is_any_to(a.channels.as_slice(), peer) {
        return Some(BindChannelError::AlreadyExists);
    }
    barred(a.expired_channels.as_slice(), peer, now)
}

/// Returns a pending channel with this number to the peer, requested by the request with the
/// transaction ID `number`. Fails with `NoMemory` if memory runs out.
pub fn pending_channel(
    alloc: Global,
    channel: ChannelId,
    peer: SocketAddr,
    transaction_id: TransactionId,
) -> Result<PendingChannel, NoMemory>
    ensures { IfOk result (λ pending.
        pending ≡ record { channel = channel; peer = peer; numbers = transaction_id ∷ [] }) }
{
    let mut numbers = ListOf::new(alloc);
    numbers.push(transaction_id)?;
    Ok(PendingChannel {
        channel,
        peer,
        numbers,
    })
}

/// Appends a pending channel to the allocation at `index`. If memory runs out, fails with
/// `NoMemory` and nothing changes.
pub fn ask(
    allocations: &mut Allocations,
    index: usize,
    pending: PendingChannel,
) -> Result<(), NoMemory>
    requires { index < length allocations.old }
    ensures ok { OnOk result (IfSome (slice_get allocations.old index)
        (λ a. allocations.new ≡ slice_set allocations.old index (asking pending a))) }
    ensures err { OnErr result (allocations.new ≡ allocations.old) }
{
    let items = allocations.as_mut_slice();
    items[index].pending_channels.push(pending)
}

/// Removes the pending channel that was appended last from the allocation at `index`.
pub fn forget(allocations: &mut Allocations, index: usize)
    requires { index < length allocations.old }
    ensures { (before : List Stored) (a : Stored) (pending : Pending)
        → slice_get before index ≡ Some a
        → allocations.old ≡ slice_set before index (asking pending a) → allocations.new ≡ before }
{
    let items = allocations.as_mut_slice();
    items[index].pending_channels.pop();
}

//! The effect of a response to a CHANNEL_BIND on the channels (RFC 8656, section 12.3).

ghost use Rattle.std.specs.Prelude.{◌≡◌, ◌<◌, ◌++◌, OnOk, OnErr, Some, filter, length, map, position};
ghost use Rattle.turn_client_proto_allocation.specs.Awaited.{renews_channel};
ghost use Rattle.turn_client_proto_allocation.specs.PendingRequests.{awaits_reply};
ghost use Rattle.turn_client_proto_allocation.specs.Channels.{expired_of, renewed_channel};
ghost use Rattle.turn_client_proto_peers.specs.Channel.Granted.{all_bound, bound, channel_end, expire_due, renewed, rejected};

use std::alloc::Global;
use std::net::SocketAddr;
use std::time::Duration;
use stun_types_base::instant::Instant;
use stun_types_base::list::ListOf;
use stun_types_base::memory::NoMemory;
use stun_types_wire::transaction::TransactionId;
use turn_client_proto_allocation::allocation::Allocation;
use turn_client_proto_allocation::channel::{Channel, ChannelId, ExpiredChannel};
use turn_client_proto_allocation::channel_of;

/// The lifetime of a channel in seconds, unless it is renewed (RFC 8656, section 12).
const CHANNEL_LIFETIME: u64 = 600;

/// Returns the expiry of a channel that is granted at `now`.
fn channel_end(now: Instant) -> Instant
    ensures { result ≡ channel_end now }
{
    now.saturating_add(Duration::from_secs(CHANNEL_LIFETIME))
}

/// Adds an active channel to the peer and removes the pending channels of the request with the
/// transaction ID `request`, in one allocation. If memory runs out, fails with `NoMemory` and
/// nothing changes.
fn bind_in(
    alloc: Global,
    a: &mut Allocation,
    number: ChannelId,
    peer: SocketAddr,
    request: TransactionId,
    now: Instant,
) -> Result<(), NoMemory>
    ensures ok { OnOk result (a.new ≡ bound number peer request now a.old) }
    ensures err { OnErr result (a.new ≡ a.old) }
{
    let channel = Channel {
        number,
        peer,
        expiry: channel_end(now),
        renewals: ListOf::new(alloc),
    };
    a.channels.push(channel)?;
    a.pending_channels
        .retain(|c| !channel_of::is_requested_by(c, request));
    Ok(())
}

/// Handles the success response to the request for a new channel with the transaction ID `request`:
/// adds an active channel to the peer in the allocation at `index` and removes the pending
/// channels of the request there.
///
/// That allocation has to be the first that awaits the response. If memory runs out, fails with
/// `NoMemory` and nothing changes.
#[tactic(auto, using(turn_client_proto_allocation::proofs::Changes::first_by_index))]
pub fn bind(
    alloc: Global,
    allocations: &mut [Allocation],
    index: usize,
    number: ChannelId,
    peer: SocketAddr,
    request: TransactionId,
    now: Instant,
) -> Result<(), NoMemory>
    requires { position (awaits_reply request) allocations.old ≡ Some index }
    ensures ok { OnOk result (allocations.new
        ≡ all_bound number peer request now allocations.old) }
    ensures err { OnErr result (allocations.new ≡ allocations.old) }
{
    bind_in(alloc, &mut allocations[index], number, peer, request, now)
}

/// Sets the expiry of those channels that the request with this transaction ID was to renew, and
/// forgets the requests that are to renew them.
fn renew_each(channels: &mut [Channel], transaction_id: TransactionId, expiry: Instant)
    ensures { channels.new ≡ map (renewed_channel transaction_id expiry) channels.old }
{
    for channel in channels.iter_mut() {
        channel_of::renew(channel, transaction_id, expiry);
    }
}

/// Handles the success response to the request with this transaction ID: in each allocation, renews
/// the channels that it was to renew. No request is to renew these any more.
#[tactic(auto, unfolding(crate::specs::Channel::Granted::renewed))]
pub fn renew(allocations: &mut [Allocation], transaction_id: TransactionId, now: Instant)
    ensures { allocations.new ≡ map (renewed transaction_id now) allocations.old }
{
    for allocation in allocations.iter_mut() {
        renew_each(
            allocation.channels.as_mut_slice(),
            transaction_id,
            channel_end(now),
        );
    }
}

/// Handles an error response to the request with this transaction ID: in each allocation, removes
/// the pending channels that it requested.
#[tactic(auto, unfolding(crate::specs::Channel::Granted::rejected))]
pub fn reject(allocations: &mut [Allocation], transaction_id: TransactionId)
    ensures { allocations.new ≡ map (rejected transaction_id) allocations.old }
{
    for allocation in allocations.iter_mut() {
        allocation
            .pending_channels
            .retain(|c| !channel_of::is_requested_by(c, transaction_id));
    }
}

/// Appends those of the channels that the request with this transaction ID was to renew to the
/// expired channels. Fails with `NoMemory` if memory runs out.
fn add_expired(
    expired: &mut ListOf<ExpiredChannel>,
    channels: &[Channel],
    transaction_id: TransactionId,
) -> Result<(), NoMemory>
    ensures { OnOk result (expired.new
        ≡ expired.old ++ map expired_of (filter (renews_channel transaction_id) channels.now)) }
{
    for channel in channels {
        if channel_of::is_renewed_by(channel, transaction_id) {
            expired.push(channel_of::expired_of(channel))?;
        }
    }
    Ok(())
}

/// Handles an error response to the request with this transaction ID: in each allocation, moves the
/// channels that it was to renew to the expired channels, with their expiry unchanged. If memory
/// runs out, fails with `NoMemory`, and some of them may have been moved.
pub fn expire_due(
    allocations: &mut [Allocation],
    transaction_id: TransactionId,
) -> Result<(), NoMemory>
    ensures { OnOk result (allocations.new ≡ map (expire_due transaction_id) allocations.old) }
{
    for allocation in allocations.iter_mut() {
        let channels = allocation.channels.as_slice();
        add_expired(&mut allocation.expired_channels, channels, transaction_id)?;
        allocation
            .channels
            .retain(|c| !channel_of::is_renewed_by(c, transaction_id));
    }
    Ok(())
}

//! Expiry of channels (RFC 8656, section 12) and the events for it.

ghost use Rattle.std.specs.Prelude.{◌≡◌, ◌≢◌, ◌<◌, ◌++◌, [], IfSome, OnOk, OnErr, length, map, take};
ghost use Rattle.turn_client_proto_allocation.specs.StunProtoTransaction.Least.{IsLeastOf};
ghost use Rattle.turn_client_proto_api.specs.declared.event.TurnEvent.TheVariants.{ChannelCreateFailed};
ghost use Rattle.turn_client_proto_allocation.specs.Channels.{has_expired, polled_channel};
ghost use Rattle.turn_client_proto_peers.specs.Channel.Expiring.{all_expiring, all_nexts, earlier_of, expired, last_index, peer_expiring, peers_expiring, peers_over, polled};

use std::net::SocketAddr;
use stun_types_base::instant::Instant;
use stun_types_base::memory::NoMemory;
use stun_types_base::transport::TransportType;
use stun_types_wire::transaction::TransactionId;
use turn_client_proto_allocation::allocation::Allocation;
use turn_client_proto_allocation::channel::{Channel, PendingChannel};
use turn_client_proto_allocation::channel_of;
use turn_client_proto_allocation::numbers::is_among;
use turn_client_proto_api::event::TurnEvent;
use turn_client_proto_api::queue::QueueOf;

/// Returns the index of the last channel that has expired at `now`.
fn index_expiring(channels: &[Channel], now: Instant) -> Option<usize>
    ensures index { result ≡ last_index (has_expired now) channels.now }
    ensures there { IfSome result (λ index. index < length channels.now) }
{
    let mut last = None;
    for (index, channel) in channels.iter().enumerate() {
        if channel_of::has_expired(channel, now) {
            last = Some(index);
        }
    }
    last
}

/// Returns the peer of the last channel that has expired at `now`.
pub fn peer_expiring(channels: &[Channel], now: Instant) -> Option<SocketAddr>
    ensures { result ≡ peer_expiring now channels.now }
{
    let index = index_expiring(channels, now)?;
    Some(channels[index].peer)
}

/// Moves the last channel that has expired at `now` to the expired channels. Fails with `NoMemory`
/// if memory runs out, which happens only if a channel is moved.
#[tactic(auto, unfolding(crate::specs::Channel::Expiring::expired))]
fn expire(a: &mut Allocation, now: Instant) -> Result<(), NoMemory>
    ensures ok { OnOk result (a.new ≡ expired now a.old) }
    ensures reported { OnErr result (peers_expiring now a.old ≢ []) }
{
    let Some(index) = index_expiring(a.channels.as_slice(), now) else {
        return Ok(());
    };
    let channel = a.channels.remove(index);
    a.expired_channels.push(channel_of::expired_of(&channel))
}

/// Forgets the requests that are to renew a channel, in each channel for which the transaction that
/// timed out is one of theirs. Such a channel may be renewed again.
fn poll_each(channels: &mut [Channel], ended: &Option<TransactionId>)
    ensures { channels.new ≡ map (polled_channel ended.now) channels.old }
{
    for channel in channels.iter_mut() {
        channel_of::poll(channel, ended);
    }
}

/// Does in one allocation what `poll` does in all. Fails with `NoMemory` if memory runs out, which
/// happens only if a channel has expired.
#[tactic(auto, unfolding(crate::specs::Channel::Expiring::polled))]
fn poll_in(a: &mut Allocation, ended: &Option<TransactionId>, now: Instant) -> Result<(), NoMemory>
    ensures ok { OnOk result (a.new ≡ polled ended.now now a.old) }
    ensures reported { OnErr result (peers_expiring now a.old ≢ []) }
{
    expire(a, now)?;
    poll_each(a.channels.as_mut_slice(), ended);
    a.pending_channels
        .retain(|c| !is_among(ended, c.numbers.as_slice()));
    a.expired_channels
        .retain(|c| now <= channel_of::protected_until(c));
    Ok(())
}

/// Updates the channels of each allocation at `now`, when the transaction `ended`, if any, has
/// timed out.
///
/// 1. Moves the last expired channel to the expired ones (`expired_channels`).
/// 2. Forgets renewals that timed out, so that these channels may be renewed again.
/// 3. Removes the pending channels whose request timed out.
/// 4. Forgets the expired channels whose protection is over.
///
/// # Errors
///
/// - `NoMemory`: memory ran out. This happens only if a channel has expired.
pub fn poll(
    allocations: &mut [Allocation],
    ended: &Option<TransactionId>,
    now: Instant,
) -> Result<(), NoMemory>
    ensures ok { OnOk result (allocations.new ≡ map (polled ended.now now) allocations.old) }
    ensures reported { OnErr result (all_expiring now allocations.old ≢ []) }
{
    for allocation in allocations.iter_mut() {
        poll_in(allocation, ended, now)?;
    }
    Ok(())
}

/// Queues a `ChannelCreateFailed` for each pending channel whose request timed out. Fails with
/// `NoMemory` if memory runs out, which happens only if there is an event to queue. The events that
/// were queued before are then still the first ones.
#[tactic(auto, using(turn_client_proto_allocation::proofs::Heads::heads))]
pub fn report_over(
    events: &mut QueueOf<TurnEvent>,
    transport: TransportType,
    pending: &[PendingChannel],
    ended: &Option<TransactionId>,
) -> Result<(), NoMemory>
    ensures ok { OnOk result (events.new ≡ events.old
        ++ map (ChannelCreateFailed transport) (peers_over ended.now pending.now)) }
    ensures err { OnErr result (take (length events.old) events.new ≡ events.old) }
    ensures reported { OnErr result (peers_over ended.now pending.now ≢ []) }
{
    for channel in pending {
        if is_among(ended, channel.numbers.as_slice()) {
            events.push_back(TurnEvent::ChannelCreateFailed(transport, channel.peer))?;
        }
    }
    Ok(())
}

/// Returns the earliest of `wait` and of the times at which one of the channels has to be polled.
fn earliest_of(
    channels: &[Channel],
    ended: &Option<TransactionId>,
    ready: Instant,
    now: Instant,
    wait: Instant,
) -> Instant
    ensures { result ≡ earlier_of ended.now ready now wait channels.now }
{
    let mut next = wait;
    for channel in channels {
        next = next.min(channel_of::next(channel, ended, ready, now));
    }
    next
}

/// Returns the earliest of `wait` and of the times at which a channel of one of the allocations has
/// to be polled.
///
/// `ended` is the transaction that timed out, if any. `ready` is the earliest time at which a
/// request can be sent.
pub fn earliest(
    allocations: &[Allocation],
    ended: &Option<TransactionId>,
    ready: Instant,
    now: Instant,
    wait: Instant,
) -> Instant
    ensures { IsLeastOf wait (all_nexts ended.now ready now allocations.now) result }
{
    let mut next = wait;
    for allocation in allocations {
        next = earliest_of(allocation.channels.as_slice(), ended, ready, now, next);
    }
    next
}

//! Which allocations, channels and permissions are to be renewed (RFC 8656, sections 8.1, 10.1 and
//! 12.1).

ghost use Rattle.std.specs.Prelude.{◌≡◌, OnOk, OnErr, position};
ghost use Rattle.turn_client_proto_timers.specs.Wanting.{channel_renewal_first, refreshed_first, renewal_first, want, wanted, wants};

use std::net::{IpAddr, SocketAddr};
use stun_types_base::instant::Instant;
use stun_types_base::memory::NoMemory;
use stun_types_wire::transaction::TransactionId;
use turn_client_proto_allocation::allocation::Allocation;
use turn_client_proto_allocation::channel::ChannelId;
use turn_client_proto_allocation::permissions;
use turn_client_proto_allocation::refresh::PendingRefresh;
use turn_client_proto_peers::channel::wanting as channels;
use turn_client_proto_peers::permission::wanting::renewal_wanted;

/// A request that is to be sent to renew something of an allocation.
#[derive(Clone, Copy, Debug, PartialEq, Eq)]
pub enum Want {
    /// A REFRESH.
    Refresh,
    /// A CHANNEL_BIND with this channel number and this peer, which renews the channel.
    Channel(ChannelId, SocketAddr),
    /// A CREATE_PERMISSION for this address, which renews its permission.
    Permission(IpAddr),
}

/// Returns what is to be sent for an allocation at `now`: first a REFRESH, then a CHANNEL_BIND,
/// then a CREATE_PERMISSION.
#[tactic(auto, unfolding(crate::specs::Wanting::want))]
fn want_of(a: &Allocation, now: Instant) -> Option<Want>
    ensures { result ≡ want now a.now }
{
    if a.wants_refresh(now) {
        return Some(Want::Refresh);
    }
    if let Some((channel, peer)) = channels::renewal_wanted(a, now) {
        return Some(Want::Channel(channel, peer));
    }
    let ip = renewal_wanted(a, now)?;
    Some(Want::Permission(ip))
}

/// Returns whether something is to be sent for an allocation at `now`.
fn wants(a: &Allocation, now: Instant) -> bool
    ensures { result ≡ wants now a.now }
{
    want_of(a, now).is_some()
}

/// Returns the index of the first allocation for which something is to be sent at `now`.
fn index_wanting(allocations: &[Allocation], now: Instant) -> Option<usize>
    ensures { result ≡ position (wants now) allocations.now }
{
    allocations.iter().position(|a| wants(a, now))
}

/// Returns what is to be sent at `now` for the first allocation for which something is.
#[tactic(auto, using(crate::proofs::Usual::by_index))]
pub fn wanted(allocations: &[Allocation], now: Instant) -> Option<Want>
    ensures { result ≡ wanted now allocations.now }
{
    let index = index_wanting(allocations, now)?;
    want_of(&allocations[index], now)
}

/// Records that the first allocation for which something is to be sent at `now` awaits the response
/// to a REFRESH. With `NoMemory`, nothing has changed.
#[tactic(auto, using(crate::proofs::Usual::by_index))]
pub fn refresh_first(
    allocations: &mut [Allocation],
    now: Instant,
    refresh: &PendingRefresh,
) -> Result<(), NoMemory>
    ensures ok { OnOk result (allocations.new
        ≡ refreshed_first now refresh.now allocations.old) }
    ensures err { OnErr result (allocations.new ≡ allocations.old) }
{
    let Some(index) = index_wanting(allocations, now) else {
        return Ok(());
    };
    allocations[index].await_refresh(refresh.number, refresh.lifetime)
}

/// Records that the request `number` renews the first permission that is due, in the first
/// allocation for which something is to be sent at `now`. With `NoMemory`, nothing has changed.
#[tactic(auto, using(crate::proofs::Usual::by_index))]
pub fn renew_first(
    allocations: &mut [Allocation],
    now: Instant,
    transaction_id: TransactionId,
) -> Result<(), NoMemory>
    ensures ok { OnOk result (allocations.new ≡ renewal_first now transaction_id allocations.old) }
    ensures err { OnErr result (allocations.new ≡ allocations.old) }
{
    let Some(index) = index_wanting(allocations, now) else {
        return Ok(());
    };
    permissions::renew_first(
        allocations[index].permissions.as_mut_slice(),
        now,
        transaction_id,
    )
}

/// Records that the request `number` renews the first channel that is due, in the first allocation
/// for which something is to be sent at `now`. With `NoMemory`, nothing has changed.
#[tactic(auto, using(crate::proofs::Usual::by_index))]
pub fn renew_channel_first(
    allocations: &mut [Allocation],
    now: Instant,
    transaction_id: TransactionId,
) -> Result<(), NoMemory>
    ensures ok { OnOk result (allocations.new
        ≡ channel_renewal_first now transaction_id allocations.old) }
    ensures err { OnErr result (allocations.new ≡ allocations.old) }
{
    let Some(index) = index_wanting(allocations, now) else {
        return Ok(());
    };
    channels::renew_first(
        allocations[index].channels.as_mut_slice(),
        now,
        transaction_id,
    )
}

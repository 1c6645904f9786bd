//! Which channels are to be renewed (RFC 8656, section 12.1).

ghost use Rattle.std.specs.Prelude.{◌≡◌, OnOk, OnErr, find, position};
ghost use Rattle.std.specs.Option.{option_map};
ghost use Rattle.turn_client_proto_allocation.specs.declared.channel.Channel.{Channel as Standing};
ghost use Rattle.turn_client_proto_allocation.specs.Channels.{renewed_first, wants_renewal};
ghost use Rattle.turn_client_proto_peers.specs.Channel.Wanting.{renewal_wanted};

use std::net::SocketAddr;
use stun_types_base::instant::Instant;
use stun_types_base::memory::NoMemory;
use stun_types_wire::transaction::TransactionId;
use turn_client_proto_allocation::allocation::Allocation;
use turn_client_proto_allocation::channel::{Channel, ChannelId};
use turn_client_proto_allocation::channel_of::wants_renewal;

/// Returns the number and peer of the first channel that is to be renewed at `now`.
fn first_renewal(channels: &[Channel], now: Instant) -> Option<(ChannelId, SocketAddr)>
    ensures { result ≡ option_map (λ (c : Standing). (c.number, c.peer))
        (find (wants_renewal now) channels.now) }
{
    let found = channels.iter().find(|c| wants_renewal(c, now))?;
    Some((found.number, found.peer))
}

/// Returns the number and peer of the first channel of the allocation that is to be renewed at
/// `now`, or `None` if the allocation is marked as expired or its expiry is before `now`.
///
/// A channel is to be renewed in the last 60 s before its expiry, if no request is to renew it
/// already.
#[tactic(auto, unfolding(crate::specs::Channel::Wanting::renewal_wanted))]
pub fn renewal_wanted(a: &Allocation, now: Instant) -> Option<(ChannelId, SocketAddr)>
    ensures { result ≡ renewal_wanted now a.now }
{
    if !a.is_expired && now <= a.expiry {
        first_renewal(a.channels.as_slice(), now)
    } else {
        None
    }
}

/// Returns the index of the first channel that is to be renewed at `now`.
fn index_wanting(channels: &[Channel], now: Instant) -> Option<usize>
    ensures { result ≡ position (wants_renewal now) channels.now }
{
    channels.iter().position(|c| wants_renewal(c, now))
}

/// Remembers that the request with this transaction ID is to renew the first channel that is to be
/// renewed at `now`. If memory runs out, fails with `NoMemory` and nothing changes.
#[tactic(auto, using(turn_client_proto_allocation::proofs::Changes::first_by_index))]
pub fn renew_first(
    channels: &mut [Channel],
    now: Instant,
    transaction_id: TransactionId,
) -> Result<(), NoMemory>
    ensures ok { OnOk result (channels.new ≡ renewed_first now transaction_id channels.old) }
    ensures err { OnErr result (channels.new ≡ channels.old) }
{
    let Some(index) = index_wanting(channels, now) else {
        return Ok(());
    };
    channels[index].renewals.push(transaction_id)
}

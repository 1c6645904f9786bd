//! Channels (RFC 8656, section 12).

ghost use Rattle.std.specs.Prelude.{◌≡◌, ◌≤◌};
ghost use Rattle.std.specs.List.{list_any};
ghost use Rattle.turn_types_frame.specs.Attributes.TurnRegistry.{greatest_channel, least_channel};
ghost use Rattle.turn_client_proto_allocation.specs.Awaited.{asks_for_channel, has_number, renews_channel};

use crate::numbers::has_number;
use std::marker::Model;
use std::net::SocketAddr;
use stun_types_base::instant::Instant;
use stun_types_base::list::ListOf;
use stun_types_wire::transaction::TransactionId;

/// A channel number, 0x4000 to 0x7FFF (RFC 8656, section 12). Contracts see the number.
#[derive(Clone, Copy, Debug, PartialEq, Eq)]
pub struct ChannelId {
    id: u16,
}

impl Model for ChannelId {
    ghost use Rattle.std.specs.Prelude.{ℕ, ◌≤◌};
    ghost use Rattle.turn_types_frame.specs.Attributes.TurnRegistry.{greatest_channel, least_channel};

    ghost Value = { ℕ };

    ghost view = { λ channel. channel.id };

    ghost invariant = { λ channel. (least_channel ≤ channel.id)
        × (channel.id ≤ greatest_channel) };

    ghost inverse = { λ id. record { id = id } };
}

impl ChannelId {
    /// Returns the channel number `id`, which has to be in the range.
    pub fn new(id: u16) -> ChannelId
        requires least { least_channel ≤ id }
        requires most { id ≤ greatest_channel }
        ensures { result ≡ id }
    {
        ChannelId { id }
    }

    /// Returns the number.
    pub fn number(self) -> u16
        ensures number { result ≡ self }
        ensures least { least_channel ≤ result }
        ensures most { result ≤ greatest_channel }
    {
        self.id
    }
}

/// An active channel.
#[derive(Debug, Drop)]
pub struct Channel {
    /// The channel number.
    pub number: ChannelId,
    /// The peer's address.
    pub peer: SocketAddr,
    /// The time at which it expires.
    pub expiry: Instant,
    /// The transaction IDs of the requests that are to renew it.
    pub renewals: ListOf<TransactionId>,
}

/// A channel that is requested and not yet granted.
#[derive(Debug, Drop)]
pub struct PendingChannel {
    /// The channel number.
    pub channel: ChannelId,
    /// The peer's address.
    pub peer: SocketAddr,
    /// The transaction IDs of the requests for it.
    pub numbers: ListOf<TransactionId>,
}

/// A channel that has expired. For a while neither its number nor its peer is used for another
/// channel (RFC 8656, section 12).
#[derive(Clone, Copy, Debug)]
pub struct ExpiredChannel {
    /// The channel number.
    pub number: ChannelId,
    /// The peer's address.
    pub peer: SocketAddr,
    /// The time at which it expired.
    pub expiry: Instant,
}

/// Returns whether the request with this transaction ID is to renew one of the channels.
pub(crate) fn renews_any(channels: &[Channel], transaction_id: TransactionId) -> bool
    ensures { result ≡ list_any (renews_channel transaction_id) channels.now }
{
    channels
        .iter()
        .any(|c| has_number(c.renewals.as_slice(), transaction_id))
}

/// Returns whether the request with this transaction ID requests one of the channels.
pub(crate) fn asks_for_any(channels: &[PendingChannel], transaction_id: TransactionId) -> bool
    ensures { result ≡ list_any (asks_for_channel transaction_id) channels.now }
{
    channels
        .iter()
        .any(|c| has_number(c.numbers.as_slice(), transaction_id))
}

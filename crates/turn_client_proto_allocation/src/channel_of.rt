//! The state of one channel: expiry, renewal, protection after expiry.

ghost use Rattle.std.specs.Prelude.{◌≡◌};
ghost use Rattle.turn_client_proto_allocation.specs.Awaited.{asks_for_channel, renews_channel};
ghost use Rattle.turn_client_proto_allocation.specs.Channels.{channel_renewal, has_expired, expired_of, next_of_channel, polled_channel, protected_until, renewed_channel, wants_renewal};

use crate::channel::{Channel, ExpiredChannel, PendingChannel};
use crate::numbers::{has_number, is_among};
use std::time::Duration;
use stun_types_base::instant::Instant;
use stun_types_wire::transaction::TransactionId;

/// How long before its expiry a channel is renewed, in nanoseconds: 60 s.
const RENEWED_BEFORE: u64 = 60_000_000_000;

/// How long a channel is protected after its expiry, in seconds (RFC 8656, section 12).
const PROTECTION: u64 = 300;

/// Returns whether the request with this transaction ID is to renew the channel.
pub fn is_renewed_by(c: &Channel, transaction_id: TransactionId) -> bool
    ensures { result ≡ renews_channel transaction_id c.now }
{
    has_number(c.renewals.as_slice(), transaction_id)
}

/// Returns whether the request with this transaction ID requests the channel.
pub fn is_requested_by(c: &PendingChannel, transaction_id: TransactionId) -> bool
    ensures { result ≡ asks_for_channel transaction_id c.now }
{
    has_number(c.numbers.as_slice(), transaction_id)
}

/// Returns what is remembered of a channel that expires.
pub fn expired_of(c: &Channel) -> ExpiredChannel
    ensures { result ≡ expired_of c.now }
{
    ExpiredChannel {
        number: c.number,
        peer: c.peer,
        expiry: c.expiry,
    }
}

/// Returns whether the channel has expired at `now`.
pub fn has_expired(c: &Channel, now: Instant) -> bool
    ensures { result ≡ has_expired now c.now }
{
    c.expiry <= now
}

/// Returns the time until which an expired channel is protected: before it, neither its number nor
/// its peer is bound anew.
pub fn protected_until(c: &ExpiredChannel) -> Instant
    ensures { result ≡ protected_until c.now }
{
    c.expiry.saturating_add(Duration::from_secs(PROTECTION))
}

/// Returns the time from which a channel is to be renewed: 60 s before its expiry.
fn renewal(c: &Channel) -> Instant
    ensures { result ≡ channel_renewal c.now }
{
    Instant::from_nanos(c.expiry.as_nanos().saturating_sub(RENEWED_BEFORE))
}

/// Returns whether a channel is to be renewed at `now`: `now` is not after its expiry, no request
/// is to renew it, and the time from which it is to be renewed has come.
pub fn wants_renewal(c: &Channel, now: Instant) -> bool
    ensures { result ≡ wants_renewal now c.now }
{
    now <= c.expiry && c.renewals.is_empty() && renewal(c) <= now
}

/// Returns the next time at which a channel has to be polled, because it expires or is to be
/// renewed.
///
/// `ended` is the transaction that timed out, if any. `ready` is the earliest time at which a
/// request can be sent.
#[tactic(auto, unfolding(crate::specs::Channels::next_of_channel))]
pub fn next(c: &Channel, ended: &Option<TransactionId>, ready: Instant, now: Instant) -> Instant
    ensures { result ≡ next_of_channel ended.now ready now c.now }
{
    if has_expired(c, now) {
        now
    } else if is_among(ended, c.renewals.as_slice()) {
        ready
    } else if c.renewals.is_empty() {
        renewal(c).max(ready)
    } else {
        c.expiry
    }
}

/// Forgets the requests that are to renew a channel if the transaction that timed out is one of
/// theirs.
#[tactic(auto, unfolding(crate::specs::Channels::polled_channel))]
pub fn poll(c: &mut Channel, ended: &Option<TransactionId>)
    ensures { c.new ≡ polled_channel ended.now c.old }
{
    if is_among(ended, c.renewals.as_slice()) {
        c.renewals.clear();
    }
}

/// Handles the success response to the request with this transaction ID. If it was to renew the
/// channel, the channel now expires at `expiry`, and no request is to renew it any more.
#[tactic(auto, unfolding(crate::specs::Channels::renewed_channel))]
pub fn renew(c: &mut Channel, transaction_id: TransactionId, expiry: Instant)
    ensures { c.new ≡ renewed_channel transaction_id expiry c.old }
{
    if is_renewed_by(c, transaction_id) {
        c.expiry = expiry;
        c.renewals.clear();
    }
}

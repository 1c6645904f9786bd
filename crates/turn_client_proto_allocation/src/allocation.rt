//! An allocation (RFC 8656, section 5).

ghost use Rattle.std.specs.Prelude.{◌≡◌, OnOk, OnErr, Option, Some, None};
ghost use Rattle.std.specs.Duration.{as_nanos};
ghost use Rattle.turn_client_proto_allocation.specs.Awaited.{is_awaited};
ghost use Rattle.turn_client_proto_allocation.specs.declared.allocation.Allocation.{Allocation};
ghost use Rattle.turn_client_proto_allocation.specs.declared.refresh.PendingRefresh.{PendingRefresh};
ghost use Rattle.turn_client_proto_allocation.specs.Polling.{has_ended, next_of, polled, stays};
ghost use Rattle.turn_client_proto_allocation.specs.Refreshing.{ahead, ended, ends_by, granted, least_of, lifetime_requested, margin_of, refreshing, renewal, renewed, is_active_for, wants_refresh};

use crate::channel::{Channel, ExpiredChannel, PendingChannel};
use crate::connection::{
    Connecting, Connection, Waiting, is_any_attempt, is_any_binding, is_any_connecting,
};
use crate::permission::{PendingPermission, Permission};
use crate::refresh::{PendingRefresh, is_any_refresh, lifetime_requested};
use crate::{channel, permission};
use std::alloc::Global;
use std::net::SocketAddr;
use std::time::Duration;
use stun_types_base::instant::Instant;
use stun_types_base::list::ListOf;
use stun_types_base::memory::NoMemory;
use stun_types_base::transport::TransportType;
use stun_types_wire::transaction::TransactionId;

/// How long before its expiry an allocation is refreshed, in nanoseconds: 60 s.
const RENEWED_BEFORE: u64 = 60_000_000_000;

/// Half a second, in nanoseconds.
const HALF_SECOND: u64 = 500_000_000;

/// The longest lifetime, in seconds, of an allocation that is refreshed when half of it is left.
const SHORT_LIFETIME: u32 = 120;

/// The least LIFETIME in a REFRESH response, in seconds, that any client believes.
const LEAST_LIFETIME: u32 = 600;

/// Returns the least LIFETIME in a REFRESH response, in seconds, that is believed: 0 if short
/// lifetimes are (`TurnConfig::set_short_lifetimes`), else 600. A response with less changes
/// nothing.
pub fn least_of(short_lifetimes: bool) -> u32
    ensures { result ≡ least_of short_lifetimes }
{
    if short_lifetimes { 0 } else { LEAST_LIFETIME }
}

/// A relayed address at the server, with its permissions, channels and connections, and the
/// requests that concern it and are not answered.
#[derive(Debug, Drop)]
pub struct Allocation {
    /// The transport between the server and the peers.
    pub transport: TransportType,
    /// The relayed address.
    pub address: SocketAddr,
    /// The lifetime that decides how long before its expiry the allocation is refreshed, in
    /// seconds: the one that the ALLOCATE response granted, or the latest under 600 that a
    /// REFRESH response gave it.
    pub renewal_lifetime: u32,
    /// The time at which the allocation expires.
    pub expiry: Instant,
    /// Whether a call found the allocation to be expired, or its deletion was requested.
    pub is_expired: bool,
    /// The active permissions.
    pub permissions: ListOf<Permission>,
    /// The active channels.
    pub channels: ListOf<Channel>,
    /// The permissions that are requested and not yet granted.
    pub pending_permissions: ListOf<PendingPermission>,
    /// The channels that are requested and not yet granted.
    pub pending_channels: ListOf<PendingChannel>,
    /// The REFRESH requests that are not answered.
    pub pending_refreshes: ListOf<PendingRefresh>,
    /// The channels that have expired.
    pub expired_channels: ListOf<ExpiredChannel>,
    /// The CONNECT requests that are not answered.
    pub connecting: ListOf<Connecting>,
    /// The connections to peers that wait for the caller to open a socket.
    pub waiting: ListOf<Waiting>,
    /// The data connections to the server.
    pub connections: ListOf<Connection>,
}

impl Allocation {
    /// Returns an allocation granted at `now` for `lifetime` seconds, with no permissions,
    /// channels, connections or outstanding requests. It allocates no memory yet.
    pub fn granted(
        alloc: Global,
        transport: TransportType,
        address: SocketAddr,
        lifetime: u32,
        now: Instant,
    ) -> Allocation
        ensures { result ≡ granted transport address lifetime now }
    {
        Allocation {
            transport,
            address,
            renewal_lifetime: lifetime,
            expiry: now.saturating_add(Duration::from_secs(u64::from(lifetime))),
            is_expired: false,
            permissions: ListOf::new(alloc),
            channels: ListOf::new(alloc),
            pending_permissions: ListOf::new(alloc),
            pending_channels: ListOf::new(alloc),
            pending_refreshes: ListOf::new(alloc),
            expired_channels: ListOf::new(alloc),
            connecting: ListOf::new(alloc),
            waiting: ListOf::new(alloc),
            connections: ListOf::new(alloc),
        }
    }

    /// Returns whether the transaction ID is that of a request of this allocation that the server
    /// has not answered, or of a request of the server that the client has not answered.
    #[tactic(auto, unfolding(crate::specs::Awaited::is_awaited))]
    pub fn is_awaited(&self, transaction_id: TransactionId) -> bool
        ensures { result ≡ is_awaited transaction_id self.now }
    {
        permission::renews_any(self.permissions.as_slice(), transaction_id)
            || channel::renews_any(self.channels.as_slice(), transaction_id)
            || permission::asks_for_any(self.pending_permissions.as_slice(), transaction_id)
            || channel::asks_for_any(self.pending_channels.as_slice(), transaction_id)
            || is_any_refresh(self.pending_refreshes.as_slice(), transaction_id)
            || is_any_connecting(self.connecting.as_slice(), transaction_id)
            || is_any_attempt(self.waiting.as_slice(), transaction_id)
            || is_any_binding(self.connections.as_slice(), transaction_id)
    }

    /// Returns the time from which the allocation is to be refreshed (RFC 8656, section 8.1).
    ///
    /// This is 60 s before its expiry, or half of its `renewal_lifetime` before it if that is 120 s
    /// or less.
    #[tactic(auto, unfolding(crate::specs::Refreshing::renewal))]
    pub fn renewal(&self) -> Instant
        ensures { result ≡ renewal self.now }
    {
        let ahead = ahead(self.renewal_lifetime);
        Instant::from_nanos(self.expiry.as_nanos().saturating_sub(ahead))
    }

    /// Returns whether the allocation is to be refreshed at `now`: it is not marked as expired,
    /// `now` is not after its expiry, no REFRESH is outstanding, and the time from which it is to
    /// be refreshed has come.
    #[tactic(auto, unfolding(crate::specs::Refreshing::wants_refresh))]
    pub fn wants_refresh(&self, now: Instant) -> bool
        ensures { result ≡ wants_refresh now self.now }
    {
        !self.is_expired
            && now <= self.expiry
            && self.pending_refreshes.is_empty()
            && self.renewal() <= now
    }

    /// Returns whether the outstanding REFRESH with this transaction ID requests the deletion of
    /// the allocation, that is, lifetime 0.
    #[tactic(auto, unfolding(crate::specs::Refreshing::ends_by))]
    pub fn ends_by(&self, transaction_id: TransactionId) -> bool
        ensures { result ≡ ends_by transaction_id self.now }
    {
        match self.lifetime_requested(transaction_id) {
            Some(lifetime) => lifetime == 0,
            None => false,
        }
    }

    /// Returns the lifetime, in seconds, that the outstanding REFRESH with this transaction ID
    /// requests, or `None` if no such REFRESH is outstanding.
    pub fn lifetime_requested(&self, transaction_id: TransactionId) -> Option<u32>
        ensures { result ≡ lifetime_requested transaction_id self.now.pending_refreshes }
    {
        lifetime_requested(self.pending_refreshes.as_slice(), transaction_id)
    }

    /// Handles a success response to the REFRESH with this transaction ID, with its LIFETIME in
    /// seconds (RFC 8656, section 8.3).
    ///
    /// - No such REFRESH is outstanding: nothing changes.
    /// - It requested lifetime 0: no REFRESH is outstanding any more.
    /// - It requested more: the allocation expires `lifetime` seconds after `now`, and no REFRESH
    ///   is outstanding any more. A lifetime under 600 also decides how long before that expiry it
    ///   is refreshed. If `lifetime` is missing or under `least` seconds, nothing changes.
    #[tactic(auto, unfolding(crate::specs::Refreshing::renewed))]
    pub(crate) fn renew(
        &mut self,
        transaction_id: TransactionId,
        lifetime: Option<u32>,
        least: u32,
        now: Instant,
    )
        ensures { self.new ≡ renewed least transaction_id now lifetime self.old }
    {
        match self.lifetime_requested(transaction_id) {
            None => {}
            Some(0) => self.pending_refreshes.clear(),
            Some(_) => self.stand_for(lifetime, least, now),
        }
    }

    /// Sets the expiry to `lifetime` seconds after `now` and forgets the outstanding REFRESH
    /// requests; a lifetime under 600 also decides how long before that expiry the allocation is
    /// refreshed. Does nothing if `lifetime` is missing or under `least` seconds.
    fn stand_for(&mut self, lifetime: Option<u32>, least: u32, now: Instant)
        ensures { self.new ≡ is_active_for least now lifetime self.old }
    {
        if let Some(lifetime) = lifetime {
            if lifetime >= least {
                self.renewal_lifetime = margin_of(self.renewal_lifetime, lifetime);
                self.expiry = now.saturating_add(Duration::from_secs(u64::from(lifetime)));
                self.pending_refreshes.clear();
            }
        }
    }

    /// Remembers that a REFRESH with this transaction ID was sent that requests `lifetime` seconds.
    /// If memory runs out, returns `NoMemory` and nothing changes.
    pub fn await_refresh(
        &mut self,
        transaction_id: TransactionId,
        lifetime: u32,
    ) -> Result<(), NoMemory>
        ensures ok { OnOk result (self.new
            ≡ refreshing (record { number = transaction_id; lifetime = lifetime }) self.old) }
        ensures err { OnErr result (self.new ≡ self.old) }
    {
        self.pending_refreshes.push(PendingRefresh {
            number: transaction_id,
            lifetime,
        })
    }

    /// Forgets the REFRESH that was remembered last.
    pub(crate) fn forget_refresh(&mut self)
        ensures { (a : Allocation) (refresh : PendingRefresh) → self.old ≡ refreshing refresh a
            → self.new ≡ a }
    {
        self.pending_refreshes.pop();
    }

    /// Marks the allocation as expired, sets its expiry to `now` and removes its permissions and
    /// channels.
    pub(crate) fn end(&mut self, now: Instant)
        ensures { self.new ≡ ended now self.old }
    {
        self.permissions.clear();
        self.channels.clear();
        self.expiry = now;
        self.is_expired = true;
    }

    /// Returns whether the allocation is to be retained at `now`, when the transaction `ended`, if
    /// any, has timed out.
    ///
    /// It is retained if it has not expired. It is also retained if it was marked as expired before
    /// and a REFRESH is outstanding that has not timed out.
    #[tactic(auto, unfolding(crate::specs::Polling::stays))]
    pub(crate) fn stays(&self, ended: &Option<TransactionId>, now: Instant) -> bool
        ensures { result ≡ stays ended.now now self.now }
    {
        now < self.expiry
            || (self.is_expired && (!self.pending_refreshes.is_empty() && !self.has_ended(ended)))
    }

    /// Returns whether the transaction that timed out is that of an outstanding REFRESH.
    fn has_ended(&self, ended: &Option<TransactionId>) -> bool
        ensures { result ≡ has_ended ended.now self.now.pending_refreshes }
    {
        match ended {
            None => false,
            Some(number) => is_any_refresh(self.pending_refreshes.as_slice(), *number),
        }
    }

    /// Forgets all outstanding REFRESH requests if the transaction that timed out is one of theirs.
    #[tactic(auto, unfolding(crate::specs::Polling::polled))]
    pub(crate) fn poll(&mut self, ended: &Option<TransactionId>)
        ensures { self.new ≡ polled ended.now self.old }
    {
        if self.has_ended(ended) {
            self.pending_refreshes.clear();
        }
    }

    /// Returns the next time at which the allocation has to be polled, or `None` if there is none.
    /// `ready` is the earliest time at which a request can be sent.
    #[tactic(auto, unfolding(crate::specs::Polling::next_of))]
    pub(crate) fn next(
        &self,
        ended: &Option<TransactionId>,
        ready: Instant,
        now: Instant,
    ) -> Option<Instant>
        ensures { result ≡ next_of ended.now ready now self.now }
    {
        if self.pending_refreshes.is_empty() {
            Some(self.renewal().max(ready))
        } else if self.has_ended(ended) {
            Some(ready)
        } else if now < self.expiry {
            Some(self.expiry)
        } else {
            None
        }
    }
}

/// Returns the lifetime that decides how long before its expiry an allocation is refreshed, after
/// `before` decided it and a REFRESH gave it `lifetime`, both in seconds: `lifetime` if that is
/// under 600, else `before`.
fn margin_of(before: u32, lifetime: u32) -> u32
    ensures { result ≡ margin_of before lifetime }
{
    if lifetime >= LEAST_LIFETIME {
        before
    } else {
        lifetime
    }
}

/// Returns how long before its expiry an allocation is refreshed, in nanoseconds, by the lifetime
/// that decides it, in seconds.
fn ahead(lifetime: u32) -> u64
    ensures { result ≡ ahead lifetime }
{
    if lifetime <= SHORT_LIFETIME {
        u64::from(lifetime) * HALF_SECOND
    } else {
        RENEWED_BEFORE
    }
}

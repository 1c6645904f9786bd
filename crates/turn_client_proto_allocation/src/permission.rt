//! Permissions (RFC 8656, section 9).

ghost use Rattle.std.specs.Prelude.{◌≡◌, [], ◌∷◌, IfOk};
ghost use Rattle.std.specs.List.{list_any};
ghost use Rattle.turn_client_proto_allocation.specs.Awaited.{asks_for_permission, has_number, renews_permission};
ghost use Rattle.turn_client_proto_allocation.specs.Permissions.{addresses_of, has_expired, is_over, next_of_permission, permission_renewal, polled_permission, renewed_permission, wants_renewal};

use crate::addresses;
use crate::numbers::{has_number, is_among};
use std::alloc::Global;
use std::net::IpAddr;
use stun_types_base::instant::Instant;
use stun_types_base::list::ListOf;
use stun_types_base::memory::NoMemory;
use stun_types_wire::transaction::TransactionId;

/// How long before its expiry a permission is renewed, in nanoseconds: 60 s.
const RENEWED_BEFORE: u64 = 60_000_000_000;

/// An active permission: the server relays data from this address.
#[derive(Debug, Drop)]
pub struct Permission {
    /// The peer's address.
    pub ip: IpAddr,
    /// The time at which it expires.
    pub expiry: Instant,
    /// The transaction IDs of the requests that are to renew it.
    pub renewals: ListOf<TransactionId>,
}

impl Permission {
    /// Returns whether the request with this transaction ID is to renew it.
    pub fn is_renewed_by(&self, transaction_id: TransactionId) -> bool
        ensures { result ≡ renews_permission transaction_id self.now }
    {
        has_number(self.renewals.as_slice(), transaction_id)
    }

    /// Returns the time from which it is to be renewed: 60 s before its expiry.
    fn renewal(&self) -> Instant
        ensures { result ≡ permission_renewal self.now }
    {
        Instant::from_nanos(self.expiry.as_nanos().saturating_sub(RENEWED_BEFORE))
    }

    /// Returns whether it is to be renewed at `now`: `now` is not after its expiry, no request is
    /// to renew it, and the time from which it is to be renewed has come.
    pub fn wants_renewal(&self, now: Instant) -> bool
        ensures { result ≡ wants_renewal now self.now }
    {
        now <= self.expiry && self.renewals.is_empty() && self.renewal() <= now
    }

    /// Returns whether it has expired at `now`.
    pub fn has_expired(&self, now: Instant) -> bool
        ensures { result ≡ has_expired now self.now }
    {
        self.expiry <= now
    }

    /// Returns the next time at which it has to be polled, because it expires or is to be renewed.
    ///
    /// `ended` is the transaction that timed out, if any. `ready` is the earliest time at which a
    /// request can be sent.
    #[tactic(auto, unfolding(crate::specs::Permissions::next_of_permission))]
    pub fn next(&self, ended: &Option<TransactionId>, ready: Instant, now: Instant) -> Instant
        ensures { result ≡ next_of_permission ended.now ready now self.now }
    {
        if self.has_expired(now) {
            now
        } else if is_among(ended, self.renewals.as_slice()) {
            ready
        } else if self.renewals.is_empty() {
            self.renewal().max(ready)
        } else {
            self.expiry
        }
    }

    /// Forgets the requests that are to renew it if the transaction that timed out is one of
    /// theirs.
    #[tactic(auto, unfolding(crate::specs::Permissions::polled_permission))]
    pub(crate) fn poll(&mut self, ended: &Option<TransactionId>)
        ensures { self.new ≡ polled_permission ended.now self.old }
    {
        if is_among(ended, self.renewals.as_slice()) {
            self.renewals.clear();
        }
    }

    /// Handles the success response to the request with this transaction ID. If it was to renew the
    /// permission, the permission now expires at `expiry`, and no request is to renew it any more.
    #[tactic(auto, unfolding(crate::specs::Permissions::renewed_permission))]
    pub(crate) fn renew(&mut self, transaction_id: TransactionId, expiry: Instant)
        ensures { self.new ≡ renewed_permission transaction_id expiry self.old }
    {
        if self.is_renewed_by(transaction_id) {
            self.expiry = expiry;
            self.renewals.clear();
        }
    }
}

/// Permissions that one request is for and that are not yet granted: mostly of one address.
#[derive(Debug, Drop)]
pub struct PendingPermission {
    /// The first peer's address.
    pub ip: IpAddr,
    /// The further peers' addresses, as the caller gave them: an address may come twice.
    pub others: ListOf<IpAddr>,
    /// The transaction IDs of the requests for them.
    pub numbers: ListOf<TransactionId>,
}

impl PendingPermission {
    /// Returns a pending permission for the addresses, requested by the request with this
    /// transaction ID. Fails with `NoMemory` if memory runs out.
    pub fn new(
        alloc: Global,
        ip: IpAddr,
        others: &[IpAddr],
        transaction_id: TransactionId,
    ) -> Result<PendingPermission, NoMemory>
        ensures { IfOk result (λ pending. pending
            ≡ record { ip = ip; others = others.now; numbers = transaction_id ∷ [] }) }
    {
        let others = addresses::copied(alloc, others)?;
        let mut numbers = ListOf::new(alloc);
        numbers.push(transaction_id)?;
        Ok(PendingPermission {
            ip,
            others,
            numbers,
        })
    }

    /// Returns the addresses that a request for it is for, each once. Fails with `NoMemory` if
    /// memory runs out.
    pub fn addresses(&self, alloc: Global) -> Result<ListOf<IpAddr>, NoMemory>
        ensures { IfOk result (λ ips. ips ≡ addresses_of self.now) }
    {
        addresses::each_once(alloc, self.ip, self.others.as_slice())
    }

    /// Returns whether the request with this transaction ID requests it.
    pub fn is_requested_by(&self, transaction_id: TransactionId) -> bool
        ensures { result ≡ asks_for_permission transaction_id self.now }
    {
        has_number(self.numbers.as_slice(), transaction_id)
    }

    /// Returns whether the transaction that timed out is that of a request for it.
    pub fn is_over(&self, ended: &Option<TransactionId>) -> bool
        ensures { result ≡ is_over ended.now self.now }
    {
        is_among(ended, self.numbers.as_slice())
    }
}

/// Returns whether the request with this transaction ID is to renew one of the permissions.
pub(crate) fn renews_any(permissions: &[Permission], transaction_id: TransactionId) -> bool
    ensures { result ≡ list_any (renews_permission transaction_id) permissions.now }
{
    permissions.iter().any(|p| p.is_renewed_by(transaction_id))
}

/// Returns whether the request with this transaction ID requests one of the permissions.
pub(crate) fn asks_for_any(permissions: &[PendingPermission], transaction_id: TransactionId) -> bool
    ensures { result ≡ list_any (asks_for_permission transaction_id) permissions.now }
{
    permissions
        .iter()
        .any(|p| p.is_requested_by(transaction_id))
}

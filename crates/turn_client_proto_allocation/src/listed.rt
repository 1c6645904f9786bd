//! The allocations of a client.

ghost use Rattle.std.specs.Prelude.{◌≡◌, ◌++◌, ◌∷◌, [], List, OnOk, OnErr, length, map};
ghost use Rattle.std.specs.Borrow.{sem};
ghost use Rattle.std.specs.List.{list_any};
ghost use Rattle.stun_proto_transaction.specs.Least.{IsLeastOf};
ghost use Rattle.turn_client_proto_allocation.specs.Lending.{LendsAllocations};
ghost use Rattle.turn_client_proto_allocation.specs.Listed.{is_any_awaited};
ghost use Rattle.turn_client_proto_allocation.specs.Polling.{earlier, stored, nexts, polled};
ghost use Rattle.turn_client_proto_allocation.specs.declared.allocation.Allocation.{Allocation};
ghost use Rattle.turn_client_proto_allocation.specs.declared.refresh.PendingRefresh.{PendingRefresh};
ghost use Rattle.turn_client_proto_allocation.specs.Refreshing.{ended, ends_by, refreshing, renewed};

use crate::allocation::Allocation;
use crate::refresh::PendingRefresh;
use std::alloc::Global;
use std::marker::Model;
use stun_types_base::instant::Instant;
use stun_types_base::memory::NoMemory;
use stun_types_wire::transaction::TransactionId;

/// The maximum number of allocations in the list.
const MOST: usize = (1 << 32) - 1;

/// The allocations of a client, in the order in which they were granted, fewer than 2^32. Contracts
/// see them as a list.
#[derive(Debug, Drop)]
pub struct Allocations {
    items: Vec<Allocation>,
}

impl Model for Allocations {
    ghost use Rattle.std.specs.Prelude.{List, ◌<◌, ◌^◌, length};
    ghost use Rattle.turn_client_proto_allocation.specs.declared.allocation.Allocation.{Allocation};

    ghost Value = { List Allocation };

    ghost view = { λ allocations. allocations.items.items };

    ghost invariant = { λ allocations. length allocations.items.items < 2 ^ 32 };
}

impl Allocations {
    /// Returns an empty list, which allocates no memory yet.
    pub fn new(alloc: Global) -> Self
        ensures { result ≡ [] }
    {
        Allocations {
            items: Vec::new(alloc),
        }
    }

    /// Returns the allocations.
    pub fn as_slice(&self) -> &[Allocation]
        ensures { result.now ≡ self.now }
    {
        self.items.as_slice()
    }

    /// Returns the count of the allocations, which fits 32 bits.
    pub fn count(&self) -> u32
        ensures { result ≡ length self.now }
    {
        self.items.len() as u32
    }

    /// Borrows the allocations mutably.
    pub fn as_mut_slice(&mut self) -> &mut [Allocation]
        ensures* writes_back { sem 𝓛 (LendsAllocations self.entry result) }
        ensures value { result.now ≡ self.old }
    {
        self.items.as_mut_slice()
    }

    /// Appends an allocation. If memory runs out or the list has 2^32 - 1 elements, returns
    /// `NoMemory` and nothing changes.
    pub fn push(&mut self, allocation: Allocation) -> Result<(), NoMemory>
        ensures ok { OnOk result (self.new ≡ self.old ++ allocation ∷ []) }
        ensures err { OnErr result (self.new ≡ self.old) }
    {
        if self.items.len() >= MOST {
            return Err(NoMemory);
        }
        self.items.push(allocation)?;
        Ok(())
    }

    /// Removes all of them.
    pub fn clear(&mut self)
        ensures { self.new ≡ [] }
    {
        self.items.clear();
    }

    /// Returns whether the transaction ID is that of a request of one of the allocations that the
    /// server has not answered, or of a request of the server that the client has not answered.
    pub fn is_any_awaited(&self, transaction_id: TransactionId) -> bool
        ensures { result ≡ is_any_awaited transaction_id self.now }
    {
        self.items.iter().any(|a| a.is_awaited(transaction_id))
    }

    /// Remembers in each allocation that this REFRESH was sent. If memory runs out, returns
    /// `NoMemory` and nothing changes.
    pub fn await_refresh(&mut self, refresh: &PendingRefresh) -> Result<(), NoMemory>
        ensures ok { OnOk result (self.new ≡ map (refreshing refresh.now) self.old) }
        ensures err { OnErr result (self.new ≡ self.old) }
    {
        await_each(self.items.as_mut_slice(), refresh)
    }

    /// Forgets in each allocation the REFRESH that was remembered last.
    pub fn forget_refresh(&mut self)
        ensures { (before : List Allocation) (refresh : PendingRefresh)
            → self.old ≡ map (refreshing refresh) before → self.new ≡ before }
    {
        forget_each(self.items.as_mut_slice());
    }

    /// Marks each allocation as expired, sets its expiry to `now` and removes its permissions and
    /// channels.
    pub fn end(&mut self, now: Instant)
        ensures { self.new ≡ map (ended now) self.old }
    {
        for allocation in self.items.iter_mut() {
            allocation.end(now);
        }
    }

    /// Returns whether the REFRESH with this transaction ID requests the deletion of one of the
    /// allocations.
    pub fn ends_any(&self, transaction_id: TransactionId) -> bool
        ensures { result ≡ list_any (ends_by transaction_id) self.now }
    {
        self.items.iter().any(|a| a.ends_by(transaction_id))
    }

    /// Handles a success response to the REFRESH with this transaction ID, with its LIFETIME in
    /// seconds, in each allocation (RFC 8656, section 8.3). `least` is the least LIFETIME that is
    /// believed, in seconds.
    pub fn renew(
        &mut self,
        transaction_id: TransactionId,
        lifetime: Option<u32>,
        least: u32,
        now: Instant,
    )
        ensures { self.new ≡ map (renewed least transaction_id now lifetime) self.old }
    {
        for allocation in self.items.iter_mut() {
            allocation.renew(transaction_id, lifetime, least, now);
        }
    }

    /// Removes the allocations that have expired at `now` and returns the next wake-up time.
    ///
    /// In those that remain, the outstanding REFRESH requests are forgotten if the transaction
    /// `ended` is one of theirs. The wake-up time is the earliest of `wait` and of the times at
    /// which a remaining allocation has to be polled. `ready` is the earliest time at which a
    /// request can be sent.
    pub fn poll(
        &mut self,
        ended: &Option<TransactionId>,
        ready: Instant,
        now: Instant,
        wait: Instant,
    ) -> Instant
        ensures left { self.new ≡ map (polled ended.now) (stored ended.now now self.old) }
        ensures wait { IsLeastOf wait
            (nexts ended.now ready now (stored ended.now now self.old)) result }
    {
        self.items.retain(|a| a.stays(ended, now));
        let next = earliest(self.items.as_slice(), ended, ready, now, wait);
        for allocation in self.items.iter_mut() {
            allocation.poll(ended);
        }
        next
    }
}

/// Remembers in each allocation that this REFRESH was sent. If memory runs out, returns `NoMemory`
/// and nothing changes.
fn await_each(allocations: &mut [Allocation], refresh: &PendingRefresh) -> Result<(), NoMemory>
    ensures ok { OnOk result (allocations.new ≡ map (refreshing refresh.now) allocations.old) }
    ensures err { OnErr result (allocations.new ≡ allocations.old) }
{
    let Some((first, others)) = allocations.split_first_mut() else {
        return Ok(());
    };
    first.await_refresh(refresh.number, refresh.lifetime)?;
    match await_each(others, refresh) {
        Ok(()) => Ok(()),
        Err(e) => {
            first.forget_refresh();
            Err(e)
        }
    }
}

/// Forgets in each allocation the REFRESH that was remembered last.
fn forget_each(allocations: &mut [Allocation])
    ensures { (before : List Allocation) (refresh : PendingRefresh)
        → allocations.old ≡ map (refreshing refresh) before → allocations.new ≡ before }
{
    let Some((first, others)) = allocations.split_first_mut() else {
        return;
    };
    first.forget_refresh();
    forget_each(others);
}

/// Returns the earliest of `wait` and of the times at which one of the allocations has to be
/// polled.
///
/// `ended` is the transaction that timed out, if any. `ready` is the earliest time at which a
/// request can be sent.
pub fn earliest(
    allocations: &[Allocation],
    ended: &Option<TransactionId>,
    ready: Instant,
    now: Instant,
    wait: Instant,
) -> Instant
    ensures { IsLeastOf wait (nexts ended.now ready now allocations.now) result }
{
    let mut next = wait;
    for allocation in allocations {
        next = earlier(next, allocation.next(ended, ready, now));
    }
    next
}

/// Returns the earlier of `wait` and the time, or `wait` if there is no time.
fn earlier(wait: Instant, time: Option<Instant>) -> Instant
    ensures { result ≡ earlier wait time }
{
    match time {
        Some(time) => wait.min(time),
        None => wait,
    }
}

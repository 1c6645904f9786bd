//! The table of outstanding requests: a vector sorted by transaction ID, and two times for each
//! request.

ghost use Rattle.std.specs.Prelude.{◌≡◌, ◌≤◌, IfErr, IfOk, MatchOption, None, OnErr, OnOk, Some};
ghost use Rattle.std.specs.Prelude.{length, max, min};
ghost use Rattle.std.specs.FinMap as finite;
ghost use Rattle.std.specs.List.{insert};
ghost use Rattle.stun_types_message.specs.Base.Times.{greatest_time};
ghost use Rattle.stun_proto_transaction.specs.Agents.{Transaction, changed, is_due, is_ended};
ghost use Rattle.stun_proto_transaction.specs.Agents.{is_over, transmitted};
ghost use Rattle.stun_proto_transaction.specs.StoredRequests.{IsFirstFrom, IsNext, NoneDue};
ghost use Rattle.stun_proto_transaction.specs.StoredRequests.{NoneEnded, NoneFrom, with_number};
ghost use Rattle.stun_proto_transaction.specs.Least.{IsLeast};
ghost use Rattle.stun_proto_transaction.specs.Sorted.{IsAt, IsGap, IsStrictlySorted};

use crate::stored::Stored;
use crate::stun_types_base::instant::Instant;
use crate::stun_types_base::memory::NoMemory;
use crate::stun_types_wire::transaction::TransactionId;
use crate::times::Times;
use crate::transaction::{Change, Transaction};
use std::alloc::Global;
use std::marker::Model;

/// The outstanding requests over one transport. Contracts see the record `Requests` of
/// `specs/StoredRequests.antt`, a map from transaction ID to request.
///
/// The entries are sorted by transaction ID without duplicates, and are looked up by binary search.
/// For each entry two times are stored: when its next transmission is due, and when it ends. At the
/// end of every call both agree with the request and its waits.
#[derive(Debug, Drop)]
pub struct Outstanding {
    alloc: Global,
    is_tcp: bool,
    entries: Vec<(TransactionId, Stored)>,
    // The time at which each entry's next transmission is due.
    sends: Times,
    // The time at which each entry ends.
    ends: Times,
}

impl Model for Outstanding {
    ghost use Rattle.stun_proto_transaction.specs.StoredRequests.{Requests};

    ghost Value = { Requests };

    ghost use Rattle.stun_proto_transaction.specs.OutstandingCodes.{requests_code};

    ghost coded = { requests_code };

    ghost use Rattle.stun_proto_transaction.specs.Sound.{IsOutstanding, requests_of};

    ghost view = { requests_of };

    ghost invariant = { IsOutstanding };
}

impl Outstanding {
    /// Creates an empty table for a transport that is TCP or not.
    pub fn new(alloc: Global, is_tcp: bool) -> Outstanding
        ensures { result ≡ record { is_tcp = is_tcp; by_number = finite.empty } }
    {
        Outstanding {
            alloc,
            is_tcp,
            entries: Vec::new(alloc),
            sends: Times::new(alloc),
            ends: Times::new(alloc),
        }
    }

    /// Returns the outstanding request with this transaction ID, or `None`.
    pub fn get(&self, transaction_id: TransactionId) -> Option<&Transaction>
        ensures { MatchOption result (finite.get self.now.by_number transaction_id ≡ None)
            (λ t. finite.get self.now.by_number transaction_id ≡ Some t.now) }
    {
        match index_of(self.entries.as_slice(), transaction_id) {
            Ok(position) => Some(self.entries[position].1.transaction()),
            Err(_) => None,
        }
    }

    /// Stores a request, and replaces one with the same transaction ID.
    ///
    /// # Errors
    ///
    /// - `NoMemory`: an allocation failed. Nothing changes.
    pub fn insert(
        &mut self,
        transaction_id: TransactionId,
        transaction: Transaction,
    ) -> Result<(), NoMemory>
        ensures ok { OnOk result (self.new ≡ with_number self.old transaction_id transaction) }
        ensures err { OnErr result (self.new ≡ self.old) }
    {
        let sends = transaction.sends_from(self.is_tcp);
        let ends = transaction.ends_from();
        let boxed = Stored::new(self.alloc, transaction)?;
        match index_of(self.entries.as_slice(), transaction_id) {
            Ok(position) => {
                self.entries[position] = (transaction_id, boxed);
                self.sends.set(position, sends);
                self.ends.set(position, ends);
                Ok(())
            }
            Err(position) => {
                self.entries.insert(position, (transaction_id, boxed))?;
                let stored = insert_both(&mut self.sends, &mut self.ends, position, sends, ends);
                if stored.is_err() {
                    self.entries.remove(position);
                }
                stored
            }
        }
    }

    /// Removes the request with this transaction ID, if it is outstanding.
    pub fn remove(&mut self, transaction_id: TransactionId)
        ensures { self.new
            ≡ record self.old { by_number = finite.remove self.old.by_number transaction_id } }
    {
        match index_of(self.entries.as_slice(), transaction_id) {
            Ok(position) => {
                self.entries.remove(position);
                self.sends.remove(position);
                self.ends.remove(position);
            }
            Err(_) => {}
        }
    }

    /// Counts a transmission of the request with this transaction ID, if it is outstanding and has
    /// a transmission left.
    pub fn transmit(&mut self, transaction_id: TransactionId)
        ensures { MatchOption (finite.get self.old.by_number transaction_id) (self.new ≡ self.old)
            (λ t. self.new ≡ with_number self.old transaction_id (transmitted self.old.is_tcp t)) }
    {
        match index_of(self.entries.as_slice(), transaction_id) {
            Ok(position) => {
                let boxed = &mut self.entries[position].1;
                boxed.transmit(self.is_tcp);
                let sends = boxed.transaction().sends_from(self.is_tcp);
                let ends = boxed.transaction().ends_from();
                self.sends.set(position, sends);
                self.ends.set(position, ends);
            }
            Err(_) => {}
        }
    }

    /// Changes the request with this transaction ID, if it is outstanding.
    pub fn change(&mut self, transaction_id: TransactionId, change: Change)
        ensures { MatchOption (finite.get self.old.by_number transaction_id) (self.new ≡ self.old)
            (λ t. self.new ≡ with_number self.old transaction_id (changed change t)) }
    {
        match index_of(self.entries.as_slice(), transaction_id) {
            Ok(position) => {
                let boxed = &mut self.entries[position].1;
                boxed.change(change);
                let send = boxed.transaction().sends_from(self.is_tcp);
                let end = boxed.transaction().ends_from();
                self.sends.set(position, send);
                self.ends.set(position, end);
            }
            Err(_) => {}
        }
    }

    /// Returns the lowest transaction ID of a request of which a transmission is due at `now`, or
    /// `None`.
    pub fn first_due(&mut self, now: Instant) -> Option<TransactionId>
        ensures first { MatchOption result (NoneDue self.old now) (λ number. (t : Transaction)
            × IsLeast (is_due self.old.is_tcp now) self.old.by_number number t) }
        ensures state { self.new ≡ self.old }
    {
        let from = self.sends.first_until(now)?;
        // This is `from` itself, unless `now` is the greatest possible time.
        let position = first_due_from(self.entries.as_slice(), from, self.is_tcp, now)?;
        Some(self.entries[position].0)
    }

    /// Returns the lowest transaction ID of a request that has ended at `now`, and whether the
    /// whole transaction is cancelled. Returns `None` if none has ended.
    pub fn first_ended(&mut self, now: Instant) -> Option<(TransactionId, bool)>
        ensures first { MatchOption result (NoneEnded self.old now) (λ found. (t : Transaction)
            × IsLeast (is_ended now) self.old.by_number found.0 t
            × (is_over t.cancelled ≡ found.1)) }
        ensures state { self.new ≡ self.old }
    {
        let position = self.ends.first_until(now)?;
        let entry = &self.entries[position];
        Some((entry.0, entry.1.transaction().is_over()))
    }

    /// Returns the earliest next time of the requests, limited to the range from `now` to `most`.
    /// None of the requests may have ended.
    pub fn next_time(&mut self, now: Instant, most: Instant) -> Instant
        requires none { NoneEnded self.old now }
        requires later { now ≤ most }
        requires small { most ≤ greatest_time }
        ensures next { IsNext self.old now most result }
        ensures state { self.new ≡ self.old }
    {
        if self.first_due(now).is_some() {
            return now;
        }
        let sends = self.sends.least();
        let ends = self.ends.least();
        between(now, most, sends, ends)
    }
}

/// Returns the earlier of two times, limited to the range from `now` to `most`.
fn between(now: Instant, most: Instant, sends: Instant, ends: Instant) -> Instant
    ensures { result ≡ max now (min most (min sends ends)) }
{
    now.max(most.min(sends.min(ends)))
}

/// Returns the index of a transaction ID or, as `Err`, the index at which to insert it.
fn index_of(
    entries: &[(TransactionId, Stored)],
    transaction_id: TransactionId,
) -> Result<usize, usize>
    requires { IsStrictlySorted entries.now }
    ensures found { IfOk result (λ position. IsAt entries.now transaction_id position) }
    ensures absent { IfErr result (λ position. IsGap entries.now transaction_id position) }
{
    entries.binary_search_by_key(&transaction_id, |entry| entry.0)
}

/// Inserts a time into each list at the same index.
///
/// # Errors
///
/// - `NoMemory`: an allocation failed. Nothing changes.
fn insert_both(
    sends: &mut Times,
    ends: &mut Times,
    position: usize,
    send: Instant,
    end: Instant,
) -> Result<(), NoMemory>
    requires first { position ≤ length sends.old }
    requires second { position ≤ length ends.old }
    ensures ok_sends { OnOk result (sends.new ≡ insert sends.old position send) }
    ensures ok_ends { OnOk result (ends.new ≡ insert ends.old position end) }
    ensures err_sends { OnErr result (sends.new ≡ sends.old) }
    ensures err_ends { OnErr result (ends.new ≡ ends.old) }
{
    sends.insert(position, send)?;
    let stored = ends.insert(position, end);
    if stored.is_err() {
        sends.remove(position);
    }
    stored
}

/// Returns the first index, starting at `from`, of a request of which a transmission is due at
/// `now`.
fn first_due_from(
    entries: &[(TransactionId, Stored)],
    from: usize,
    is_tcp: bool,
    now: Instant,
) -> Option<usize>
    ensures { MatchOption result (NoneFrom (is_due is_tcp now) entries.now from)
        (λ position. IsFirstFrom (is_due is_tcp now) entries.now from position) }
{
    for position in from..entries.len() {
        if entries[position].1.transaction().is_due(is_tcp, now) {
            return Some(position);
        }
    }
    None
}

//! A list of times with a lower bound on those that a search has passed.

ghost use Rattle.std.specs.Prelude.{◌≡◌, ◌<◌, ◌≤◌, [], OnErr, OnOk, MatchOption, length, slice_set};
ghost use Rattle.std.specs.List.{insert, remove};
ghost use Rattle.stun_proto_transaction.specs.StoredTimes.{AllLater, IsFirst};
ghost use Rattle.stun_proto_transaction.specs.Least.{IsLeastOf};
ghost use Rattle.stun_types_message.specs.Base.Times.{greatest_time};

use crate::stun_types_base::instant::Instant;
use crate::stun_types_base::memory::NoMemory;
use std::alloc::Global;
use std::marker::Model;

/// A list of times. Contracts see the list.
///
/// A search resumes at a cursor, so asking what is due scans nothing while nothing is due. A lower
/// bound covers all times before the cursor. The bound is exact, that is, equal to one of these
/// times or to the greatest possible time, unless the time that it came from was raised or removed.
/// After that, the next search that needs an exact bound restarts at index 0.
#[derive(Debug, Drop)]
pub struct Times {
    times: Vec<Instant>,
    // The cursor: the number of times at the start that a search has passed.
    passed: usize,
    // A lower bound on the times before the cursor.
    least: Instant,
    // Whether the bound is one of these times or the greatest possible time.
    is_exact: bool,
}

impl Model for Times {
    ghost use Rattle.std.specs.Prelude.{ℕ, List};

    ghost Value = { List ℕ };

    ghost use Rattle.stun_proto_transaction.specs.Watched.{IsWatched};

    ghost view = { λ m. m.times.items };

    ghost invariant = { IsWatched };
}

impl Times {
    /// Creates an empty list.
    pub fn new(alloc: Global) -> Times
        ensures { result ≡ [] }
    {
        Times {
            times: Vec::new(alloc),
            passed: 0,
            least: Instant::from_nanos(u64::MAX),
            is_exact: true,
        }
    }

    /// Inserts a time at an index and shifts the times from there on.
    ///
    /// # Errors
    ///
    /// - `NoMemory`: an allocation failed. Nothing changes.
    pub fn insert(&mut self, position: usize, time: Instant) -> Result<(), NoMemory>
        requires { position ≤ length self.old }
        ensures ok { OnOk result (self.new ≡ insert self.old position time) }
        ensures err { OnErr result (self.new ≡ self.old) }
    {
        self.times.insert(position, time)?;
        if position <= self.passed {
            self.passed += 1;
            if time <= self.least {
                self.least = time;
                self.is_exact = true;
            }
        }
        Ok(())
    }

    /// Removes the time at an index and shifts those after it.
    pub fn remove(&mut self, position: usize)
        requires { position < length self.old }
        ensures { self.new ≡ remove self.old position }
    {
        let old = self.times.remove(position);
        if position < self.passed {
            self.passed -= 1;
            if old <= self.least && old < Instant::from_nanos(u64::MAX) {
                self.is_exact = false;
            }
        }
    }

    /// Replaces the time at an index.
    pub fn set(&mut self, position: usize, time: Instant)
        requires { position < length self.old }
        ensures { self.new ≡ slice_set self.old position time }
    {
        let old = self.times[position];
        self.times[position] = time;
        if position < self.passed {
            if time <= self.least {
                self.least = time;
                self.is_exact = true;
            } else if old <= self.least {
                self.is_exact = false;
            }
        }
    }

    /// Returns the first index whose time is at or before `now`, or `None` if every time is later.
    ///
    /// Resumes the scan at the cursor. If the bound is at or before `now`, a time before the cursor
    /// may be due, so the scan restarts at index 0. Afterwards every due time is at or below the
    /// bound, so a time above the bound needs no second comparison.
    pub fn first_until(&mut self, now: Instant) -> Option<usize>
        ensures first { MatchOption result (AllLater now self.old)
            (λ position. IsFirst now self.old position) }
        ensures state { self.new ≡ self.old }
    {
        if self.least <= now {
            self.passed = 0;
            self.least = Instant::from_nanos(u64::MAX);
            self.is_exact = true;
        }
        while self.passed < self.times.len() {
            let time = self.times[self.passed];
            // Compared as numbers: none exceeds the greatest possible time, at which the bound
            // starts.
            if time.as_nanos() <= self.least.as_nanos() {
                if time <= now {
                    return Some(self.passed);
                }
                self.least = time;
                self.is_exact = true;
            }
            self.passed += 1;
        }
        None
    }

    /// Returns the earliest time, or the greatest possible time if the list is empty. It resumes
    /// the scan at the cursor. If the bound is not exact, it restarts at index 0.
    pub fn least(&mut self) -> Instant
        ensures least { IsLeastOf greatest_time self.old result }
        ensures state { self.new ≡ self.old }
    {
        if !self.is_exact {
            self.passed = 0;
            self.least = Instant::from_nanos(u64::MAX);
            self.is_exact = true;
        }
        while self.passed < self.times.len() {
            let time = self.times[self.passed];
            if time <= self.least {
                self.least = time;
                self.is_exact = true;
            }
            self.passed += 1;
        }
        self.least
    }
}

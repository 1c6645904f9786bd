//! The time that an agent waits for the response to a request (RFC 8489, section 6.2.1).

ghost use Rattle.std.specs.Prelude.{◌≡◌, ◌+◌, ◌*◌, ◌<◌, ◌≤◌, min, MatchOption};
ghost use Rattle.std.specs.List.{sum};
ghost use Rattle.std.specs.Duration.{as_nanos};
ghost use Rattle.std.specs.Option.{option_map};
ghost use Rattle.stun_types_message.specs.Base.Times.{greatest_time, time_after};
ghost use Rattle.stun_proto_transaction.specs.Schedule.{end_at, greatest_wait, is_reached, slot_at};
ghost use Rattle.stun_proto_transaction.specs.Schedule.{transmissions, waits_after};

use crate::stun_types_base::instant::Instant;
use std::marker::Model;
use std::time::Duration;

/// The timing of a request's transmissions: the wait after the first transmission, the maximum
/// wait, the number of transmissions, and the wait after the last transmission. Contracts see the
/// record `Waits`.
#[derive(Debug, Drop)]
pub struct Waits {
    initial: Duration,
    most: Option<Duration>,
    retransmits: u32,
    last: Duration,
}

impl Model for Waits {
    ghost use Rattle.std.specs.Duration.{as_nanos};
    ghost use Rattle.std.specs.Option.{option_map};
    ghost use Rattle.stun_proto_transaction.specs.Schedule.{Waits as WaitsOf};

    ghost Value = { WaitsOf };

    ghost view = { λ w. record {
      initial = as_nanos w.initial;
      most = option_map as_nanos w.most;
      retransmits = w.retransmits;
      final = as_nanos w.last;
    } };
}

impl Waits {
    /// Creates the waits.
    pub fn new(initial: Duration, most: Option<Duration>, retransmits: u32, last: Duration) -> Waits
        ensures { result ≡ record {
          initial = as_nanos initial;
          most = option_map as_nanos most;
          retransmits = retransmits;
          final = as_nanos last;
        } }
    {
        Waits {
            initial,
            most,
            retransmits,
            last,
        }
    }

    /// Returns a copy of the waits.
    pub fn copied(&self) -> Waits
        ensures { result ≡ self.now }
    {
        Waits {
            initial: self.initial,
            most: self.most,
            retransmits: self.retransmits,
            last: self.last,
        }
    }

    /// Returns how often a request is transmitted: once over TCP, otherwise at least once.
    pub fn transmissions(&self, is_tcp: bool) -> u32
        ensures { result ≡ transmissions is_tcp self.now }
    {
        if is_tcp || self.retransmits == 0 {
            1
        } else {
            self.retransmits
        }
    }

    /// Returns the time of a transmission, given its index, of a request that was sent at `sent`.
    pub fn slot(&self, sent: Instant, position: u32) -> Instant
        ensures { result ≡ slot_at sent self.now position }
    {
        sent.saturating_add(Duration::from_nanos(self.waited(position)))
    }

    /// Returns the time at which a request that was sent at `sent` is given up.
    pub fn end(&self, sent: Instant) -> Instant
        ensures { result ≡ end_at sent self.now }
    {
        let last = self.slot(sent, self.transmissions(false) - 1);
        last.saturating_add(self.last)
    }

    /// Returns the total of the waits after the first `count` transmissions, in nanoseconds and at
    /// most the greatest possible time.
    ///
    /// It loops at most 65 times, because each wait is twice the one before until the maximum wait
    /// is reached or the sum exceeds the greatest possible time.
    #[tactic(auto, using(crate::proofs::Summing::sums))]
    fn waited(&self, count: u32) -> u64
        ensures { result ≡ min (sum (waits_after self.now count)) greatest_time }
    {
        let mut wait = self.initial.as_nanos();
        if wait == 0 {
            return 0;
        }
        let mut total = 0_u64;
        let mut position = 0_u32;
        while position < count && !self.is_reached(wait) {
            let Some(sum) = longer(total, wait) else {
                return u64::MAX;
            };
            total = sum;
            wait *= 2;
            position += 1;
        }
        total.saturating_add(self.others(count - position))
    }

    /// Returns whether a wait is at least the maximum wait.
    fn is_reached(&self, wait: u128) -> bool
        ensures { result ≡ is_reached self.now.most wait }
    {
        match self.most {
            Some(most) => most.as_nanos() <= wait,
            None => false,
        }
    }

    /// Returns the length of `count` maximum waits, at most the greatest possible time, or 0 if
    /// there is no maximum wait.
    fn others(&self, count: u32) -> u64
        ensures { result ≡ min (count * greatest_wait self.now.most) greatest_time }
    {
        match self.most {
            Some(most) => times(count, most.as_nanos()),
            None => 0,
        }
    }
}

/// Returns the sum of a total and a wait, or `None` if it exceeds the greatest possible time.
fn longer(total: u64, wait: u128) -> Option<u64>
    ensures { MatchOption result (greatest_time < total + wait)
        (λ sum. (sum ≡ total + wait) × (total + wait ≤ greatest_time)) }
{
    let wait = u64::try_from(wait).ok()?;
    total.checked_add(wait)
}

/// Returns the length of `count` waits, at most the greatest possible time.
fn times(count: u32, wait: u128) -> u64
    ensures { result ≡ min (count * wait) greatest_time }
{
    u64::try_from(u128::from(count).saturating_mul(wait)).unwrap_or(u64::MAX)
}

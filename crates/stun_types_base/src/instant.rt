//! Points in time, in nanoseconds.

ghost use Rattle.std.specs.Prelude.{◌≡◌, ◌↔◌, ◌+◌, ◌-◌, ◌≤◌, IsSome, IfSome};
ghost use Rattle.std.specs.Duration.{as_nanos};
ghost use Rattle.stun_types_base.specs.Times.{greatest_time, time_after};

use std::marker::Model;
use std::time::Duration;

/// A point in time: the nanoseconds since a start that the caller chooses, at most 2^64 - 1.
/// Contracts see an `Instant` as that number.
#[derive(Clone, Copy, Debug, PartialEq, Eq, PartialOrd, Ord, Hash)]
pub struct Instant {
    nanos: u64,
}

impl Model for Instant {
    ghost use Rattle.std.specs.Prelude.{ℕ};

    ghost Value = { ℕ };

    ghost view = { λ instant. instant.nanos };

    ghost inverse = { λ nanos. record { nanos = nanos } };
}

impl Instant {
    /// The start: 0 nanoseconds.
    pub const ZERO: Instant = Instant { nanos: 0 };

    /// Returns the time `nanos` nanoseconds after the start.
    pub fn from_nanos(nanos: u64) -> Self
        ensures { result ≡ nanos }
    {
        Instant { nanos }
    }

    /// Returns the nanoseconds since the start.
    pub fn as_nanos(self) -> u64
        ensures { result ≡ self }
    {
        self.nanos
    }

    /// Adds a duration. Returns `None` if the sum is later than the greatest `Instant`. A duration
    /// may be longer than the whole range of an `Instant`.
    pub fn checked_add(self, duration: Duration) -> Option<Instant>
        ensures variant { IsSome result ↔ (self + as_nanos duration ≤ greatest_time) }
        ensures sum { IfSome result (λ later. later ≡ self + as_nanos duration) }
    {
        let nanos = u64::try_from(duration.as_nanos()).ok()?;
        Some(Instant {
            nanos: self.nanos.checked_add(nanos)?,
        })
    }

    /// Adds a duration. Returns the greatest `Instant` if the sum would be later than that.
    pub fn saturating_add(self, duration: Duration) -> Instant
        ensures { result ≡ time_after self (as_nanos duration) }
    {
        match self.checked_add(duration) {
            Some(later) => later,
            None => Instant { nanos: u64::MAX },
        }
    }

    /// Returns the time that passed since `earlier`, or zero if `earlier` is not before this time.
    pub fn duration_since(self, earlier: Instant) -> Duration
        ensures { as_nanos result ≡ self - earlier }
    {
        Duration::from_nanos(self.nanos.saturating_sub(earlier.nanos))
    }
}

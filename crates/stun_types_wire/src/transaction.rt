//! Transaction IDs.

ghost use Rattle.std.specs.Prelude.{◌≡◌};
ghost use Rattle.stun_types_base.specs.GeneratorWords.{stream_after};
ghost use Rattle.stun_types_wire.specs.Generated.{generated_id, number_words};

use rand_core::Rng;
use std::fmt;
use std::marker::Model;
use stun_types_base::words::draw_words;

/// A transaction ID, of 96 bits. A response has the transaction ID of its request.
#[derive(Clone, Copy, Debug, PartialEq, Eq, PartialOrd, Ord)]
pub struct TransactionId {
    id: u128,
}

impl Model for TransactionId {
    ghost use Rattle.std.specs.Prelude.{ℕ, ◌<◌, ◌^◌};

    ghost Value = { ℕ };

    ghost view = { λ number. number.id };

    ghost invariant = { λ number. number.id < 2 ^ 96 };

    ghost inverse = { λ n. record { id = n } };
}

impl TransactionId {
    /// Generates a transaction ID from three 32-bit words of a generator. The first word becomes
    /// the highest 32 bits.
    #[tactic(auto, unfolding(crate::proofs::Headers::generated))]
    pub fn generate<R: Rng>(rng: &mut R) -> TransactionId
        ensures number { result ≡ generated_id (R.stream rng.old) }
        ensures stream { R.stream rng.new ≡ stream_after number_words (R.stream rng.old) }
    {
        let [high, middle, low]: [u32; 3] = draw_words(rng);
        TransactionId {
            id: (u128::from(high) << 64) + (u128::from(middle) << 32) + u128::from(low),
        }
    }
}

/// Prints `0x` and 24 hex digits.
impl fmt::Display for TransactionId {
    ghost use Rattle.std.specs.Prelude.{Some};
    ghost use Rattle.stun_types_wire.specs.NumberText.{number_text};

    ghost output = { λ number. Some (number_text number) };

    fn fmt<W: fmt::Write>(&self, f: &mut fmt::Formatter<W>) -> fmt::Result {
        let high = (self.id >> 64) as u32;
        let low = (self.id % (1 << 64)) as u64;
        write!(f, "0x{high:08x}{low:016x}")
    }
}

/// Takes the low 96 bits.
impl From<u128> for TransactionId {
    ghost use Rattle.std.specs.Prelude.{◌≡◌, ◌%◌, ◌^◌};

    ghost from_gives = { λ n number. number ≡ n % 2 ^ 96 };

    fn from(value: u128) -> TransactionId {
        TransactionId {
            id: value % (1 << 96),
        }
    }
}

/// Returns the transaction ID as a number below 2^96.
impl From<TransactionId> for u128 {
    ghost use Rattle.std.specs.Prelude.{◌≡◌};

    ghost from_gives = { λ number n. n ≡ number };

    fn from(value: TransactionId) -> u128 {
        value.id
    }
}

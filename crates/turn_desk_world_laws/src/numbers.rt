//! The transaction IDs that a client generates of its seed: whether they are different, as the
//! theorem on runs presumes.

ghost use Rattle.std.specs.Prelude.{◌↔◌, ◌≤◌, List, ℕ, IfOk};
ghost use Rattle.std.specs.Bool.{MatchBool};
ghost use Rattle.turn_desk_event.specs.TurnClientProtoApi.Config.{Config};
ghost use Rattle.turn_desk_step_laws.specs.TurnRuns.Runs.{AreDistinct};
ghost use Rattle.turn_client_proto_step_laws.specs.Recv.ClientState.{Protocol};
ghost use Rattle.turn_client_proto_step_laws.specs.Beginning.{first_client};
ghost use Rattle.turn_desk_world_laws.specs.Numbers.{NumbersDiffer};
ghost use Rattle.turn_desk_world_laws.specs.Safety.{words};

use rand_chacha::ChaCha20Rng;
use rand_core::SeedableRng;
use std::alloc::Global;
use std::collections::BTreeSet;
use stun_types_base::memory::NoMemory;
use stun_types_wire::transaction::TransactionId;

/// Returns whether the first `count` transaction IDs that a client generates of this seed are
/// pairwise different (premise `AreDistinct` of [`Runs::run`](crate::running::Runs::run)).
///
/// If they are, the premise holds of each run of a new client of this seed in which it generates at
/// most `count` transaction IDs. If they aren't, it fails of each run in which the client generates
/// `count` of them or more (theorem `different_numbers_are_distinct`).
///
/// It stores the transaction IDs until it returns, at 16 bytes or more each.
///
/// # Errors
///
/// - `NoMemory`: an allocation failed.
pub fn numbers_differ(alloc: Global, seed: [u8; 32], count: u32) -> Result<bool, NoMemory>
    ensures { IfOk result (λ differ.
        MatchBool differ (NumbersDiffer seed count) (¬ NumbersDiffer seed count)) }
{
    let mut rng = ChaCha20Rng::from_seed(seed);
    let mut numbers = BTreeSet::new(alloc);
    for _ in 0..count {
        let transaction_id = u128::from(TransactionId::generate(&mut rng));
        if !numbers.insert(transaction_id)? {
            return Ok(false);
        }
    }
    Ok(true)
}

/// What [`numbers_differ`] decides is the premise `AreDistinct` of the theorem on runs.
///
/// - `premise`: For a client that is new when the run begins, and generates `count` transaction IDs
///   in it, the premise says exactly that the first `count` of its seed are pairwise different.
/// - `fewer`: If the first `count` of a seed are, so are the first `few`, for each `few` up to
///   `count`. So an upper bound on how many the client generates serves as well.
pub fn different_numbers_are_distinct()
    ensures premise { (config : Config) (seed : List ℕ) (core : Protocol) (count : ℕ)
        → NumbersDiffer seed count
        ↔ AreDistinct words (words.client.seed (first_client config.credentials seed core)) count }
    ensures fewer { (seed : List ℕ) (few count : ℕ)
        → few ≤ count
        → NumbersDiffer seed count
        → NumbersDiffer seed few }
{}

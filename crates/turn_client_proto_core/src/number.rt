//! Generation of transaction IDs.

ghost use Rattle.std.specs.Prelude.{◌≡◌, ◌+◌, ◌%◌, ◌^◌, IfOk, OnErr};
ghost use Rattle.std.specs.FinMap as finite;
ghost use Rattle.turn_client_proto_allocation.specs.Awaited.{has_number};
ghost use Rattle.turn_client_proto_core.specs.Numbering.{AreAllTaken, IsFirstFree, IsNextNumber, after_draw, after_number, following, generated, is_taken};

use crate::protocol::Protocol;
use rand_chacha::ChaCha20Rng;
use rand_core::utils::NextWord;
use stun_types_base::memory::NoMemory;
use stun_types_wire::transaction::TransactionId;

/// The count of transaction IDs.
const NUMBERS: u128 = 1 << 96;

/// Returns the transaction ID that the next three words of the generator make, most significant
/// word first.
#[tactic(auto, unfolding(crate::specs::Numbering::generated, crate::specs::Numbering::after_draw))]
fn generated(rng: &mut ChaCha20Rng) -> TransactionId
    ensures number { result ≡ generated rng.old }
    ensures after { rng.new ≡ after_draw rng.old }
{
    let high = rng.next_word();
    let middle = rng.next_word();
    let low = rng.next_word();
    TransactionId::from((u128::from(high) << 64) + (u128::from(middle) << 32) + u128::from(low))
}

/// Returns the transaction ID after `number`; 0 follows the greatest one.
fn next(transaction_id: TransactionId) -> TransactionId
    ensures { result ≡ following transaction_id 1 }
{
    let value: u128 = transaction_id.into();
    TransactionId::from(value + 1)
}

impl Protocol {
    /// Generates the transaction ID of the next message: the next three words of the generator,
    /// most significant word first. If that ID is in use, the next one that isn't is taken.
    ///
    /// # Errors
    ///
    /// - `NoMemory`: all 2^96 transaction IDs are in use, which no client has the memory for.
    pub fn generate_id(&mut self) -> Result<TransactionId, NoMemory>
        ensures number { IfOk result (λ number. IsNextNumber self.old number) }
        ensures full { OnErr result (AreAllTaken self.old) }
        ensures after { self.new ≡ after_number self.old }
    {
        let generated = generated(&mut self.rng);
        self.first_free(generated)
    }

    /// Returns whether a request with this transaction ID is outstanding, or its response is
    /// awaited.
    #[tactic(auto, unfolding(crate::specs::Numbering::is_taken))]
    fn is_taken(&self, transaction_id: TransactionId) -> bool
        ensures { result ≡ is_taken self.now transaction_id }
    {
        self.agent.request_transaction(transaction_id).is_some()
            || (self.phase.awaits(transaction_id)
                || self.allocations.is_any_awaited(transaction_id))
    }

    /// Returns the first transaction ID from `from` on that isn't in use, wrapping around to 0.
    /// Fails with `NoMemory` if the search comes back to `from`.
    fn first_free(&self, from: TransactionId) -> Result<TransactionId, NoMemory>
        ensures free { IfOk result (λ number. IsFirstFree self.now from number) }
        ensures full { OnErr result (AreAllTaken self.now) }
    {
        let mut number = from;
        for _ in 0..NUMBERS {
            if !self.is_taken(number) {
                return Ok(number);
            }
            number = next(number);
        }
        Err(NoMemory)
    }
}

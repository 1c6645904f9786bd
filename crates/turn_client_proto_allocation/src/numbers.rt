//! Lists of transaction IDs.

ghost use Rattle.std.specs.Prelude.{◌≡◌};
ghost use Rattle.turn_client_proto_allocation.specs.Awaited.{has_number, is_among};

use stun_types_wire::transaction::TransactionId;

/// Returns whether the transaction ID is in the list.
pub fn has_number(numbers: &[TransactionId], transaction_id: TransactionId) -> bool
    ensures { result ≡ has_number transaction_id numbers.now }
{
    numbers.iter().any(|n| *n == transaction_id)
}

/// Returns whether a transaction has timed out and its ID is in the list.
pub fn is_among(ended: &Option<TransactionId>, numbers: &[TransactionId]) -> bool
    ensures { result ≡ is_among ended.now numbers.now }
{
    match ended {
        Some(number) => has_number(numbers, *number),
        None => false,
    }
}

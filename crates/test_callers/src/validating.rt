//! Validation of messages with credentials.

ghost use Rattle.std.specs.Prelude.{◌≡◌, ℕ, List, IfOk, Ok};
ghost use Rattle.stun_types.specs.IntegrityAlgorithms.{IntegrityAlgorithm as Algorithm};
ghost use Rattle.stun_types.specs.Integrity.{Validates};
ghost use Rattle.stun_types.specs.Keys.{key_of};

use stun_types::message::{
    IntegrityAlgorithm, Message, MessageIntegrityCredentials, ValidateError,
};

/// Validates bytes with credentials, and returns the algorithm that they are signed with. Fails if
/// they are no message that a holder of the credentials signed.
pub(crate) fn validate(
    bytes: &[u8],
    credentials: &MessageIntegrityCredentials,
) -> Result<IntegrityAlgorithm, ValidateError>
    ensures valid { IfOk result (λ algorithm. (text : List ℕ)
        × Validates bytes.now (key_of credentials.now algorithm).bytes algorithm text) }
    ensures accepted { (algorithm : Algorithm) (text : List ℕ)
        → Validates bytes.now (key_of credentials.now algorithm).bytes algorithm text
        → result ≡ Ok algorithm }
{
    let message = Message::from_bytes(bytes)?;
    message.validate_integrity(credentials)
}

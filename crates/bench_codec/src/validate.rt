//! Validates a message under a password.

ghost use Rattle.std.specs.Prelude.{◌≡◌, ◌↔◌, ℕ, List, IsTrue, MatchOption, false};
ghost use Rattle.std.specs.Str.{IsUtf8};
ghost use Rattle.stun_types_wire.specs.declared.algorithm.IntegrityAlgorithm.TheVariants.{Sha1, Sha256, Sha512};
ghost use Rattle.stun_types_integrity.specs.Integrity.{IsSigned};

use crate::key::text_of_password;
use stun_types_integrity::key::IntegrityKey;
use stun_types_message::parsed::Message;
use stun_types_wire::algorithm::IntegrityAlgorithm;

/// The answer to a question, as C receives it; the answer may be unknown.
#[repr(C)]
#[derive(Clone, Copy, Debug)]
pub struct Answer {
    /// Whether the answer is known.
    pub known: bool,
    /// The answer; false if it is unknown.
    pub holds: bool,
}

/// Returns whether bytes are a message with a visible MESSAGE-INTEGRITY whose HMAC is right under
/// this password (RFC 8489, sections 9.1.1 and 14.5). The answer is unknown only if the password is
/// not UTF-8.
#[unsafe(no_mangle)]
pub extern "C" fn stun_bench_validate_sha1(password: &[u8], bytes: &[u8]) -> Answer
    ensures known { IsTrue result.known → (IsTrue result.holds
        ↔ ((text : List ℕ) × IsSigned bytes.now password.now Sha1 text)) }
    ensures unknown { result.known ≡ false → (¬ IsUtf8 password.now)
        × (result.holds ≡ false) }
{
    reported(validates(password, bytes, IntegrityAlgorithm::Sha1))
}

/// Does what `stun_bench_validate_sha1` does, for a MESSAGE-INTEGRITY-SHA256 (RFC 8489, section
/// 14.6).
#[unsafe(no_mangle)]
pub extern "C" fn stun_bench_validate_sha256(password: &[u8], bytes: &[u8]) -> Answer
    ensures known { IsTrue result.known → (IsTrue result.holds
        ↔ ((text : List ℕ) × IsSigned bytes.now password.now Sha256 text)) }
    ensures unknown { result.known ≡ false → (¬ IsUtf8 password.now)
        × (result.holds ≡ false) }
{
    reported(validates(password, bytes, IntegrityAlgorithm::Sha256))
}

/// Does what `stun_bench_validate_sha1` does, for a MESSAGE-INTEGRITY-SHA512.
#[unsafe(no_mangle)]
pub extern "C" fn stun_bench_validate_sha512(password: &[u8], bytes: &[u8]) -> Answer
    ensures known { IsTrue result.known → (IsTrue result.holds
        ↔ ((text : List ℕ) × IsSigned bytes.now password.now Sha512 text)) }
    ensures unknown { result.known ≡ false → (¬ IsUtf8 password.now)
        × (result.holds ≡ false) }
{
    reported(validates(password, bytes, IntegrityAlgorithm::Sha512))
}

/// Returns whether bytes are a message with the visible integrity attribute of an algorithm whose
/// HMAC is right under a password. Returns `None` if the password is not UTF-8.
fn validates(password: &[u8], bytes: &[u8], algorithm: IntegrityAlgorithm) -> Option<bool>
    ensures { MatchOption result (¬ IsUtf8 password.now) (λ holds. IsTrue holds
        ↔ ((text : List ℕ) × IsSigned bytes.now password.now algorithm text)) }
{
    let text = text_of_password(password)?;
    let key = IntegrityKey::short_term(text, algorithm);
    match Message::from_bytes(bytes) {
        Ok(message) => Some(message.validate_integrity_with_key(&key).is_ok()),
        Err(_) => Some(false),
    }
}

/// Returns the answer in the form that C receives.
fn reported(holds: Option<bool>) -> Answer
    ensures { MatchOption holds ((result.known ≡ false) × (result.holds ≡ false))
        (λ answer. (IsTrue result.known) × (result.holds ≡ answer)) }
{
    match holds {
        Some(holds) => Answer { known: true, holds },
        None => Answer {
            known: false,
            holds: false,
        },
    }
}

//! The numbers of a trace: decimal digits only, without a sign; leading zeros are allowed.

ghost use Rattle.std.specs.Prelude.{◌≡◌, ◌-◌, ◌^◌, ◌≤◌, IfSome};
ghost use Rattle.turn_desk_trace.specs.TraceNumbers.{number_within, seed_of};
ghost use Rattle.stun_types_wire.specs.Registry.{greatest_code, least_code};

use stun_types_wire::registry;

/// The least error code that a decision may have.
pub const LEAST_CODE: u16 = registry::MIN_ERROR_CODE;

/// The greatest error code that a decision may have.
pub const GREATEST_CODE: u16 = registry::MAX_ERROR_CODE;

/// The length of a ChaCha20 generator's seed, in bytes.
pub const SEED_LENGTH: usize = 32;

/// Reads a decimal number. Returns `None` if the word is empty, contains a character that is not a
/// digit, or spells 2^64 or more.
#[tactic(auto, using(crate::proofs::NumberLemmas::parsed))]
pub fn read_u64(word: &str) -> Option<u64>
    ensures { result ≡ number_within 0 (2 ^ 64 - 1) word.now }
{
    if word.as_bytes().first() == Some(&b'+') {
        return None;
    }
    word.parse::<u64>().ok()
}

/// Reads a decimal number. Returns `None` if it is not within the bounds, which are included.
fn read_within(word: &str, least: u64, most: u64) -> Option<u64>
    ensures value { result ≡ number_within least most word.now }
    ensures within { IfSome result (λ n. (least ≤ n) × (n ≤ most)) }
{
    let Some(number) = read_u64(word) else {
        return None;
    };
    if number < least {
        return None;
    }
    if most < number {
        return None;
    }
    Some(number)
}

/// Reads a decimal number below 2^32. Returns `None` for any other word.
pub fn read_u32(word: &str) -> Option<u32>
    ensures { result ≡ number_within 0 (2 ^ 32 - 1) word.now }
{
    let number = read_within(word, 0, u32::MAX as u64)?;
    Some(number as u32)
}

/// Reads the seed of a ChaCha20 generator: a number from 0 to 255, which is the value of all
/// [`SEED_LENGTH`] bytes. Returns `None` for any other word.
pub fn read_seed(word: &str) -> Option<[u8; SEED_LENGTH]>
    ensures { result ≡ seed_of word.now }
{
    let seed = read_within(word, 0, u8::MAX as u64)?;
    Some([seed as u8; SEED_LENGTH])
}

/// Reads an error code, 300 to 699 (RFC 8489, section 14.8). Returns `None` for any other word.
pub fn read_code(word: &str) -> Option<u16>
    ensures { result ≡ number_within least_code greatest_code word.now }
{
    let code = read_within(word, LEAST_CODE as u64, GREATEST_CODE as u64)?;
    Some(code as u16)
}

//! Processes many messages under one key, which measures what a stored key saves, and builds
//! requests in borrowed bytes. The programs in `bench/` check the results.

ghost use Rattle.std.specs.Prelude.{◌≡◌, [], IfSome};
ghost use Rattle.stun_types_wire.specs.declared.algorithm.IntegrityAlgorithm.TheVariants.{Sha1};
ghost use Rattle.stun_types_write.specs.Adding.{IsStarted};
ghost use Rattle.stun_types_write.specs.Lent.{lent_draft};
ghost use Rattle.stun_types_wire.specs.Text.{message_text};
ghost use Rattle.bench_codec.specs.Allocated.{IsSizeOf};
ghost use Rattle.bench_codec.specs.Requested.{requested_text, requested_type, signed_requested_text};

use crate::allocation::Allocation;
use crate::key::text_of_password;
use crate::lent::{begin_into, size_of_head};
use crate::request::{add_request, request_type};
use crate::response::add_response;
use stun_types_add::ext::MessageWriteExt;
use stun_types_integrity::key::IntegrityKey;
use stun_types_message::parsed::Message;
use stun_types_wire::algorithm::IntegrityAlgorithm;
use stun_types_wire::header::MessageHeader;
use stun_types_wire::transaction::TransactionId;
use stun_types_write::slice::MessageWriteMutSlice;
use stun_types_write::writer::MessageWrite;

/// Splits `messages` into messages of `size` bytes and returns how many validate by SHA-1. The key
/// is derived from the password once. Returns 0 if the password is not UTF-8.
#[unsafe(no_mangle)]
pub extern "C" fn stun_bench_validate_all_sha1(
    password: &[u8],
    messages: &[u8],
    size: usize,
) -> usize {
    validate_all(password, IntegrityAlgorithm::Sha1, messages, size)
}

/// Does what `stun_bench_validate_all_sha1` does, by SHA-256.
#[unsafe(no_mangle)]
pub extern "C" fn stun_bench_validate_all_sha256(
    password: &[u8],
    messages: &[u8],
    size: usize,
) -> usize {
    validate_all(password, IntegrityAlgorithm::Sha256, messages, size)
}

/// Does what `stun_bench_validate_all_sha1` does, by SHA-512.
#[unsafe(no_mangle)]
pub extern "C" fn stun_bench_validate_all_sha512(
    password: &[u8],
    messages: &[u8],
    size: usize,
) -> usize {
    validate_all(password, IntegrityAlgorithm::Sha512, messages, size)
}

/// Writes one response for each of these transaction IDs, each to the start of `out`, and signs it
/// by SHA-1. The key is derived from the password once.
///
/// Returns the sum of the responses' lengths, or 0 if the password is not UTF-8.
#[unsafe(no_mangle)]
pub extern "C" fn stun_bench_sign_all_sha1(
    password: &[u8],
    reported: &Allocation,
    numbers: &[u8],
    software: &[u8],
    out: &mut [u8],
) -> usize {
    let algorithm = IntegrityAlgorithm::Sha1;
    sign_all(password, algorithm, reported, numbers, software, out)
}

/// Does what `stun_bench_sign_all_sha1` does, by SHA-256.
#[unsafe(no_mangle)]
pub extern "C" fn stun_bench_sign_all_sha256(
    password: &[u8],
    reported: &Allocation,
    numbers: &[u8],
    software: &[u8],
    out: &mut [u8],
) -> usize {
    let algorithm = IntegrityAlgorithm::Sha256;
    sign_all(password, algorithm, reported, numbers, software, out)
}

/// Does what `stun_bench_sign_all_sha1` does, by SHA-512.
#[unsafe(no_mangle)]
pub extern "C" fn stun_bench_sign_all_sha512(
    password: &[u8],
    reported: &Allocation,
    numbers: &[u8],
    software: &[u8],
    out: &mut [u8],
) -> usize {
    let algorithm = IntegrityAlgorithm::Sha512;
    sign_all(password, algorithm, reported, numbers, software, out)
}

/// Returns how many of the messages of `size` bytes validate by an algorithm under the key derived
/// from the password. Returns 0 if the password is not UTF-8.
fn validate_all(
    password: &[u8],
    algorithm: IntegrityAlgorithm,
    messages: &[u8],
    size: usize,
) -> usize {
    match text_of_password(password) {
        Some(text) => {
            let key = IntegrityKey::short_term(text, algorithm);
            validated(&key, messages, size)
        }
        None => 0,
    }
}

/// Writes the response for each transaction ID, signed by an algorithm under the key derived from
/// the password. Returns the sum of their lengths, or 0 if the password is not UTF-8.
fn sign_all(
    password: &[u8],
    algorithm: IntegrityAlgorithm,
    reported: &Allocation,
    numbers: &[u8],
    software: &[u8],
    out: &mut [u8],
) -> usize {
    match text_of_password(password) {
        Some(text) => {
            let key = IntegrityKey::short_term(text, algorithm);
            signed(&key, reported, numbers, software, out)
        }
        None => 0,
    }
}

/// Returns how many of the messages of `size` bytes validate under a key.
fn validated(key: &IntegrityKey<'_>, messages: &[u8], size: usize) -> usize {
    let mut valid = 0usize;
    for bytes in messages.chunks(size.max(1)) {
        if is_valid(bytes, key) {
            valid = valid.saturating_add(1);
        }
    }
    valid
}

/// Returns whether bytes are a message that validates under a key. Never inlined.
#[inline(never)]
fn is_valid(bytes: &[u8], key: &IntegrityKey<'_>) -> bool {
    match Message::from_bytes(bytes) {
        Ok(message) => message.validate_integrity_with_key(key).is_ok(),
        Err(_) => false,
    }
}

/// Writes the response for each transaction ID, signed under a key, and returns the sum of their
/// lengths.
fn signed(
    key: &IntegrityKey<'_>,
    reported: &Allocation,
    numbers: &[u8],
    software: &[u8],
    out: &mut [u8],
) -> usize {
    let mut size = 0usize;
    for number in numbers {
        size = size.saturating_add(sign_one(key, reported, u64::from(*number), software, out));
    }
    size
}

/// Writes one response, signs it, and returns its length or 0. Never inlined.
#[inline(never)]
fn sign_one(
    key: &IntegrityKey<'_>,
    reported: &Allocation,
    number: u64,
    software: &[u8],
    out: &mut [u8],
) -> usize {
    let Some(started) = begin_into(number, out) else {
        return 0;
    };
    let mut writer = started;
    if add_response(&mut writer, reported, number, software).is_err() {
        return 0;
    }
    match writer.add_message_integrity_with_key(key, key.algorithm()) {
        Ok(()) => size_of_head(writer),
        Err(_) => 0,
    }
}

/// Writes the ALLOCATE request with this transaction ID to the start of `out`, like
/// `stun_bench_build_request`, but the writer writes directly into `out`.
///
/// Returns the length of the request. Returns 0 if a text has more than 763 bytes or if `out` is
/// too short; `out` may then hold part of the request.
#[unsafe(no_mangle)]
pub extern "C" fn stun_bench_build_request_lent(
    lifetime: u32,
    number: u64,
    user: &[u8],
    realm: &[u8],
    nonce: &[u8],
    out: &mut [u8],
) -> usize
    ensures { IsSizeOf (requested_text lifetime number user.now realm.now nonce.now) result }
{
    let Some(started) = begin_request_into(number, out) else {
        return 0;
    };
    let mut writer = started;
    match add_request(&mut writer, lifetime, user, realm, nonce) {
        Ok(()) => size_of_head(writer),
        Err(_) => 0,
    }
}

/// Writes the request of `stun_bench_build_request_lent` with a MESSAGE-INTEGRITY at its end, under
/// the key derived from the password.
///
/// Returns the length of the request. Returns 0 where `stun_bench_build_request_lent` does, and
/// also if the password is not UTF-8.
#[unsafe(no_mangle)]
pub extern "C" fn stun_bench_sign_request_lent_sha1(
    password: &[u8],
    lifetime: u32,
    number: u64,
    user: &[u8],
    realm: &[u8],
    nonce: &[u8],
    out: &mut [u8],
) -> usize
    ensures { IsSizeOf
        (signed_requested_text Sha1 password.now lifetime number user.now realm.now nonce.now)
        result }
{
    let Some(text) = text_of_password(password) else {
        return 0;
    };
    let key = IntegrityKey::short_term(text, IntegrityAlgorithm::Sha1);
    let Some(started) = begin_request_into(number, out) else {
        return 0;
    };
    let mut writer = started;
    if add_request(&mut writer, lifetime, user, realm, nonce).is_err() {
        return 0;
    }
    match writer.add_message_integrity_with_key(&key, key.algorithm()) {
        Ok(()) => size_of_head(writer),
        Err(_) => 0,
    }
}

/// Starts the request with this transaction ID in `out`. Returns `None` if `out` has no room for a
/// header.
#[inline(always)]
fn begin_request_into(number: u64, out: &mut [u8]) -> Option<MessageWriteMutSlice<'_>>
    ensures text { IfSome result (λ started.
        (lent_draft started).bytes ≡ message_text requested_type number []) }
    ensures started { IfSome result (λ started. IsStarted (lent_draft started).bytes) }
{
    if out.len() < MessageHeader::LENGTH {
        return None;
    }
    let number = TransactionId::from(u128::from(number));
    let writer = MessageWriteMutSlice::new(out);
    Message::builder(request_type(), number, writer).ok()
}

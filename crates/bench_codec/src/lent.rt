//! Builds and signs a response in borrowed bytes, with a writer that allocates nothing.

ghost use Rattle.std.specs.Prelude.{◌≡◌, IfSome, length};
ghost use Rattle.stun_types_wire.specs.declared.algorithm.IntegrityAlgorithm.TheVariants.{Sha1};
ghost use Rattle.stun_types_write.specs.Lent.{lent_draft};
ghost use Rattle.bench_codec.specs.Allocated.{BeginsResponse, IsSizeOf, allocated_text, marked_text};

use crate::allocation::Allocation;
use crate::key::text_of_password;
use crate::response::{add_response, mark_response, response_type};
use stun_types_integrity::key::IntegrityKey;
use stun_types_message::parsed::Message;
use stun_types_wire::algorithm::IntegrityAlgorithm;
use stun_types_wire::header::MessageHeader;
use stun_types_wire::transaction::TransactionId;
use stun_types_write::slice::MessageWriteMutSlice;
use stun_types_write::writer::MessageWrite;

/// Writes the success response to an ALLOCATE with this transaction ID to the start of `out`, like
/// `stun_bench_build`, but the writer writes directly into `out`.
///
/// Returns the length of the response. Returns 0 if SOFTWARE has more than 763 bytes or if `out` is
/// too short; `out` may then hold part of the response.
#[unsafe(no_mangle)]
pub extern "C" fn stun_bench_build_lent(
    reported: &Allocation,
    number: u64,
    software: &[u8],
    out: &mut [u8],
) -> usize
    ensures { IsSizeOf (allocated_text reported.now number software.now) result }
{
    let Some(started) = begin_into(number, out) else {
        return 0;
    };
    let mut writer = started;
    match add_response(&mut writer, reported, number, software) {
        Ok(()) => size_of_head(writer),
        Err(_) => 0,
    }
}

/// Writes the response of `stun_bench_build_lent` with a MESSAGE-INTEGRITY, under the key derived
/// from the password, and a FINGERPRINT at its end.
///
/// Returns the length of the response. Returns 0 where `stun_bench_build_lent` does, and also if
/// the password is not UTF-8.
#[unsafe(no_mangle)]
pub extern "C" fn stun_bench_mark_lent_sha1(
    password: &[u8],
    reported: &Allocation,
    number: u64,
    software: &[u8],
    out: &mut [u8],
) -> usize
    ensures { IsSizeOf (marked_text Sha1 password.now reported.now number software.now) result }
{
    let Some(text) = text_of_password(password) else {
        return 0;
    };
    let key = IntegrityKey::short_term(text, IntegrityAlgorithm::Sha1);
    let Some(started) = begin_into(number, out) else {
        return 0;
    };
    let mut writer = started;
    if add_response(&mut writer, reported, number, software).is_err() {
        return 0;
    }
    match mark_response(&mut writer, &key) {
        Ok(()) => size_of_head(writer),
        Err(_) => 0,
    }
}

/// Starts the response with this transaction ID in `out`. Returns `None` if `out` has no room for a
/// header.
pub(crate) fn begin_into(number: u64, out: &mut [u8]) -> Option<MessageWriteMutSlice<'_>>
    ensures { IfSome result (λ started. BeginsResponse number (lent_draft started).bytes) }
{
    if out.len() < MessageHeader::LENGTH {
        return None;
    }
    let number = TransactionId::from(u128::from(number));
    let writer = MessageWriteMutSlice::new(out);
    Message::builder(response_type(), number, writer).ok()
}

/// Returns how many bytes the writer wrote.
pub(crate) fn size_of_head(writer: MessageWriteMutSlice<'_>) -> usize
    ensures { result ≡ length (lent_draft writer.entry).bytes }
{
    let (head, _) = writer.finish();
    head.len()
}

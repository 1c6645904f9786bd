//! Builds and signs a response in memory that the writer allocates.

ghost use Rattle.std.specs.Prelude.{◌≡◌, [], IfOk};
ghost use Rattle.stun_types_wire.specs.declared.algorithm.IntegrityAlgorithm.TheVariants.{Sha1, Sha256, Sha512};
ghost use Rattle.stun_types_write.specs.Adding.{IsStarted};
ghost use Rattle.stun_types_wire.specs.Text.{message_text};
ghost use Rattle.bench_codec.specs.Allocated.{BeginsResponse, WritesOut, allocated_text, marked_text, signed_text};

use crate::allocation::Allocation;
use crate::key::text_of_password;
use crate::response::{add_response, mark_response, response_type};
use std::alloc::Global;
use stun_types_add::ext::MessageWriteExt;
use stun_types_base::memory::NoMemory;
use stun_types_integrity::key::IntegrityKey;
use stun_types_message::parsed::Message;
use stun_types_wire::algorithm::IntegrityAlgorithm;
use stun_types_wire::class::MessageType;
use stun_types_wire::transaction::TransactionId;
use stun_types_write::vec::MessageWriteVec;

/// The initial capacity of a writer in bytes: the length of a signed message with short texts.
pub(crate) const ROOM: usize = 160;

/// Writes the success response to an ALLOCATE with this transaction ID to the start of `out`:
/// XOR-RELAYED-ADDRESS, LIFETIME, XOR-MAPPED-ADDRESS and SOFTWARE.
///
/// Returns the length of the response. Returns 0 and writes nothing if SOFTWARE has more than 763
/// bytes, if `out` is too short or if an allocation fails.
#[unsafe(no_mangle)]
pub extern "C" fn stun_bench_build(
    alloc: Global,
    reported: &Allocation,
    number: u64,
    software: &[u8],
    out: &mut [u8],
) -> usize
    ensures { WritesOut (allocated_text reported.now number software.now) out.old out.new result }
{
    match begin(alloc, response_type(), number) {
        Ok(mut writer) => {
            let size = build(&mut writer, reported, number, software, out);
            drop(writer);
            size
        }
        Err(_) => 0,
    }
}

/// Writes the response of `stun_bench_build` with a MESSAGE-INTEGRITY at its end, under the key
/// derived from this password.
///
/// Returns the length of the response. Returns 0 and writes nothing where `stun_bench_build` does,
/// and also if the password is not UTF-8.
#[unsafe(no_mangle)]
pub extern "C" fn stun_bench_sign_sha1(
    alloc: Global,
    password: &[u8],
    reported: &Allocation,
    number: u64,
    software: &[u8],
    out: &mut [u8],
) -> usize
    ensures { WritesOut
        (signed_text Sha1 password.now reported.now number software.now) out.old out.new result }
{
    let algorithm = IntegrityAlgorithm::Sha1;
    sign(alloc, password, algorithm, reported, number, software, out)
}

/// Does what `stun_bench_sign_sha1` does, with a MESSAGE-INTEGRITY-SHA256.
#[unsafe(no_mangle)]
pub extern "C" fn stun_bench_sign_sha256(
    alloc: Global,
    password: &[u8],
    reported: &Allocation,
    number: u64,
    software: &[u8],
    out: &mut [u8],
) -> usize
    ensures { WritesOut
        (signed_text Sha256 password.now reported.now number software.now) out.old out.new result }
{
    let algorithm = IntegrityAlgorithm::Sha256;
    sign(alloc, password, algorithm, reported, number, software, out)
}

/// Does what `stun_bench_sign_sha1` does, with a MESSAGE-INTEGRITY-SHA512.
#[unsafe(no_mangle)]
pub extern "C" fn stun_bench_sign_sha512(
    alloc: Global,
    password: &[u8],
    reported: &Allocation,
    number: u64,
    software: &[u8],
    out: &mut [u8],
) -> usize
    ensures { WritesOut
        (signed_text Sha512 password.now reported.now number software.now) out.old out.new result }
{
    let algorithm = IntegrityAlgorithm::Sha512;
    sign(alloc, password, algorithm, reported, number, software, out)
}

/// Does what `stun_bench_sign_sha1` does, with a FINGERPRINT after the MESSAGE-INTEGRITY: six
/// attributes in all.
#[unsafe(no_mangle)]
pub extern "C" fn stun_bench_mark_sha1(
    alloc: Global,
    password: &[u8],
    reported: &Allocation,
    number: u64,
    software: &[u8],
    out: &mut [u8],
) -> usize
    ensures { WritesOut
        (marked_text Sha1 password.now reported.now number software.now) out.old out.new result }
{
    let Some(text) = text_of_password(password) else {
        return 0;
    };
    let key = IntegrityKey::short_term(text, IntegrityAlgorithm::Sha1);
    match begin(alloc, response_type(), number) {
        Ok(mut writer) => {
            let size = mark(&mut writer, &key, reported, number, software, out);
            drop(writer);
            size
        }
        Err(_) => 0,
    }
}

/// Copies a text to the start of `out` and returns its length. Returns 0 and writes nothing if
/// `out` is shorter than the text.
pub(crate) fn copy_out(text: &[u8], out: &mut [u8]) -> usize
    ensures { WritesOut text.now out.old out.new result }
{
    if out.len() < text.len() {
        return 0;
    }
    let (head, _) = out.split_at_mut(text.len());
    head.copy_from_slice(text);
    text.len()
}

/// Writes the response to the start of `out`, signed by this algorithm under the key derived from
/// the password.
///
/// Returns the length of the response. Returns 0 and writes nothing where `stun_bench_sign_sha1`
/// does.
fn sign(
    alloc: Global,
    password: &[u8],
    algorithm: IntegrityAlgorithm,
    reported: &Allocation,
    number: u64,
    software: &[u8],
    out: &mut [u8],
) -> usize
    ensures { WritesOut
        (signed_text algorithm password.now reported.now number software.now) out.old out.new result }
{
    let Some(text) = text_of_password(password) else {
        return 0;
    };
    let key = IntegrityKey::short_term(text, algorithm);
    match begin(alloc, response_type(), number) {
        Ok(mut writer) => {
            let size = add_signed(&mut writer, &key, reported, number, software, out);
            drop(writer);
            size
        }
        Err(_) => 0,
    }
}

/// Adds the response's attributes to a started response and writes it to the start of `out`.
///
/// Returns the length of the response. Returns 0 and writes nothing if an add fails or if `out` is
/// too short.
fn build(
    writer: &mut MessageWriteVec,
    reported: &Allocation,
    number: u64,
    software: &[u8],
    out: &mut [u8],
) -> usize
    requires started { BeginsResponse number writer.old.bytes }
    ensures { WritesOut (allocated_text reported.now number software.now) out.old out.new result }
{
    match add_response(writer, reported, number, software) {
        Ok(()) => copy_out(writer.as_slice(), out),
        Err(_) => 0,
    }
}

/// Does what `build` does, and signs the response under a key.
fn add_signed(
    writer: &mut MessageWriteVec,
    key: &IntegrityKey<'_>,
    reported: &Allocation,
    number: u64,
    software: &[u8],
    out: &mut [u8],
) -> usize
    requires started { BeginsResponse number writer.old.bytes }
    ensures { WritesOut
        (signed_text key.now.algorithm key.now.bytes reported.now number software.now)
        out.old out.new result }
{
    if add_response(writer, reported, number, software).is_err() {
        return 0;
    }
    match writer.add_message_integrity_with_key(key, key.algorithm()) {
        Ok(()) => copy_out(writer.as_slice(), out),
        Err(_) => 0,
    }
}

/// Does what `add_signed` does, and adds a FINGERPRINT.
fn mark(
    writer: &mut MessageWriteVec,
    key: &IntegrityKey<'_>,
    reported: &Allocation,
    number: u64,
    software: &[u8],
    out: &mut [u8],
) -> usize
    requires started { BeginsResponse number writer.old.bytes }
    ensures { WritesOut
        (marked_text key.now.algorithm key.now.bytes reported.now number software.now)
        out.old out.new result }
{
    if add_response(writer, reported, number, software).is_err() {
        return 0;
    }
    match mark_response(writer, key) {
        Ok(()) => copy_out(writer.as_slice(), out),
        Err(_) => 0,
    }
}

/// Starts a message with this type and transaction ID in a new writer. Fails only with `NoMemory`.
///
/// It is inlined into each caller, so the writer is moved no more often than in code that starts a
/// message itself.
#[inline(always)]
pub(crate) fn begin(
    alloc: Global,
    mtype: MessageType,
    number: u64,
) -> Result<MessageWriteVec, NoMemory>
    ensures text { IfOk result (λ writer. writer.bytes ≡ message_text mtype number []) }
    ensures started { IfOk result (λ writer. IsStarted writer.bytes) }
{
    let number = TransactionId::from(u128::from(number));
    match MessageWriteVec::with_capacity(alloc, ROOM) {
        Ok(writer) => Message::builder(mtype, number, writer),
        Err(NoMemory) => Err(NoMemory),
    }
}

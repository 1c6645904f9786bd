//! Builds and signs an ALLOCATE request.

ghost use Rattle.std.specs.Prelude.{◌≡◌, [], ℕ, OnOk};
ghost use Rattle.stun_types_wire.specs.declared.algorithm.IntegrityAlgorithm.TheVariants.{Sha1};
ghost use Rattle.stun_types_wire.specs.Text.{message_text};
ghost use Rattle.stun_types_write.specs.Adding.{IsStarted};
ghost use Rattle.bench_codec.specs.Allocated.{WritesOut};
ghost use Rattle.bench_codec.specs.Requested.{requested_text, requested_type, signed_requested_text};

use crate::build::{begin, copy_out};
use crate::key::text_of_password;
use crate::response::add_text;
use std::alloc::Global;
use stun_types_add::ext::{MessageWriteExt, add_as};
use stun_types_integrity::key::IntegrityKey;
use stun_types_wire::algorithm::IntegrityAlgorithm;
use stun_types_wire::class::{MessageClass, MessageType};
use stun_types_wire::error::StunWriteError;
use stun_types_wire::registry;
use stun_types_write::vec::MessageWriteVec;
use stun_types_write::writer::MessageWrite;
use turn_types_attributes::lifetime::Lifetime;
use turn_types_attributes::registry::ALLOCATE;
use turn_types_attributes::requested_transport::RequestedTransport;

/// Writes the ALLOCATE request with this transaction ID to the start of `out`: REQUESTED-TRANSPORT
/// for UDP, LIFETIME, USERNAME, REALM and NONCE.
///
/// Returns the length of the request. Returns 0 and writes nothing if a text has more than 763
/// bytes, if `out` is too short or if an allocation fails.
#[unsafe(no_mangle)]
pub extern "C" fn stun_bench_build_request(
    alloc: Global,
    lifetime: u32,
    number: u64,
    user: &[u8],
    realm: &[u8],
    nonce: &[u8],
    out: &mut [u8],
) -> usize
    ensures { WritesOut
        (requested_text lifetime number user.now realm.now nonce.now) out.old out.new result }
{
    match begin(alloc, request_type(), number) {
        Ok(mut writer) => {
            let size = ask(&mut writer, lifetime, user, realm, nonce, out);
            drop(writer);
            size
        }
        Err(_) => 0,
    }
}

/// Writes the request of `stun_bench_build_request` with a MESSAGE-INTEGRITY at its end, under the
/// key derived from the password.
///
/// Returns the length of the request. Returns 0 and writes nothing where `stun_bench_build_request`
/// does, and also if the password is not UTF-8.
#[unsafe(no_mangle)]
pub extern "C" fn stun_bench_sign_request_sha1(
    alloc: Global,
    password: &[u8],
    lifetime: u32,
    number: u64,
    user: &[u8],
    realm: &[u8],
    nonce: &[u8],
    out: &mut [u8],
) -> usize
    ensures { WritesOut
        (signed_requested_text Sha1 password.now lifetime number user.now realm.now nonce.now)
        out.old out.new result }
{
    let Some(text) = text_of_password(password) else {
        return 0;
    };
    let key = IntegrityKey::short_term(text, IntegrityAlgorithm::Sha1);
    match begin(alloc, request_type(), number) {
        Ok(mut writer) => {
            let size = sign(&mut writer, &key, lifetime, user, realm, nonce, out);
            drop(writer);
            size
        }
        Err(_) => 0,
    }
}

/// Adds the request's attributes to a started request and writes it to the start of `out`.
///
/// Returns the length of the request. Returns 0 and writes nothing if an add fails or if `out` is
/// too short.
fn ask(
    writer: &mut MessageWriteVec,
    lifetime: u32,
    user: &[u8],
    realm: &[u8],
    nonce: &[u8],
    out: &mut [u8],
) -> usize
    requires started { IsStarted writer.old.bytes }
    ensures { (number : ℕ) → writer.old.bytes ≡ message_text requested_type number []
        → WritesOut (requested_text lifetime number user.now realm.now nonce.now)
        out.old out.new result }
{
    match add_request(writer, lifetime, user, realm, nonce) {
        Ok(()) => copy_out(writer.as_slice(), out),
        Err(_) => 0,
    }
}

/// Adds the request's attributes to a started request, signs it under a key and writes it to the
/// start of `out`.
///
/// Returns the length of the request. Returns 0 and writes nothing if an add fails or if `out` is
/// too short.
fn sign(
    writer: &mut MessageWriteVec,
    key: &IntegrityKey<'_>,
    lifetime: u32,
    user: &[u8],
    realm: &[u8],
    nonce: &[u8],
    out: &mut [u8],
) -> usize
    requires started { IsStarted writer.old.bytes }
    ensures { (number : ℕ) → writer.old.bytes ≡ message_text requested_type number []
        → WritesOut (signed_requested_text key.now.algorithm key.now.bytes lifetime number
        user.now realm.now nonce.now) out.old out.new result }
{
    if add_request(writer, lifetime, user, realm, nonce).is_err() {
        return 0;
    }
    match writer.add_message_integrity_with_key(key, key.algorithm()) {
        Ok(()) => copy_out(writer.as_slice(), out),
        Err(_) => 0,
    }
}

/// Returns the message type of the request.
pub(crate) fn request_type() -> MessageType
    ensures { result ≡ requested_type }
{
    MessageType::from_class_method(MessageClass::Request, ALLOCATE)
}

/// Adds the request's attributes to a started request: REQUESTED-TRANSPORT for UDP, LIFETIME,
/// USERNAME, REALM and NONCE. Fails with `TooLarge` if a text has more than 763 bytes, and as an
/// add fails.
// Inlined into its callers, as in code that writes the adds in place.
#[inline(always)]
pub(crate) fn add_request<W: MessageWrite>(
    writer: &mut W,
    lifetime: u32,
    user: &[u8],
    realm: &[u8],
    nonce: &[u8],
) -> Result<(), StunWriteError>
    requires started { IsStarted (W.draft writer.old).bytes }
    ensures text { OnOk result ((number : ℕ)
        → (W.draft writer.old).bytes ≡ message_text requested_type number []
        → (W.draft writer.new).bytes
        ≡ requested_text lifetime number user.now realm.now nonce.now) }
    ensures started { OnOk result (IsStarted (W.draft writer.new).bytes) }
{
    let transport = RequestedTransport::new(RequestedTransport::UDP);
    let lifetime = Lifetime::new(lifetime);
    add_as(writer, &transport, &transport)?;
    add_as(writer, &lifetime, &lifetime)?;
    add_text(writer, registry::USERNAME, user)?;
    add_text(writer, registry::REALM, realm)?;
    add_text(writer, registry::NONCE, nonce)
}

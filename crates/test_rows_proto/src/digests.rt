//! Lines for digests of texts.

use crate::line::Line;
use crate::text::push_hex;
use line_io::refusal::LineError;
use stun_types_add::attribute::Fingerprint;
use stun_types_digest::crc::{Crc32, bitwise};
use stun_types_digest::hmac::{HmacSha1, HmacSha256, HmacSha512};
use stun_types_integrity::key::IntegrityKey;
use stun_types_wire::algorithm::IntegrityAlgorithm;
use stun_types_wire::header::MessageHeader;

/// Splits a text into three parts of equal length; the last two may be longer.
pub(crate) fn thirds(bytes: &[u8]) -> [&[u8]; 3] {
    let (head, rest) = bytes.split_at(bytes.len() / 3);
    let (middle, tail) = rest.split_at(rest.len() / 2);
    [head, middle, tail]
}

/// Appends the HMACs of a text under a key, by HMAC-SHA1, HMAC-SHA256 and HMAC-SHA512. Each is
/// computed twice: in three chunks, and with one call.
pub(crate) fn hmacs(key: &[u8], bytes: &[u8], text: &mut String) -> Result<(), LineError> {
    let [head, middle, tail] = thirds(bytes);
    let mut sha1 = HmacSha1::new(key);
    let mut sha256 = HmacSha256::new(key);
    let mut sha512 = HmacSha512::new(key);
    for chunk in [head, middle, tail] {
        sha1.update(chunk);
        sha256.update(chunk);
        sha512.update(chunk);
    }
    let (sha1, sha256, sha512) = (sha1.finalize(), sha256.finalize(), sha512.finalize());
    let sha1_again = HmacSha1::of_chunks(key, head, middle, tail);
    let sha256_again = HmacSha256::of_chunks(key, head, middle, tail);
    let sha512_again = HmacSha512::of_chunks(key, head, middle, tail);
    let hmacs: [&[u8]; 6] = [
        &sha1,
        &sha1_again,
        &sha256,
        &sha256_again,
        &sha512,
        &sha512_again,
    ];
    for hmac in hmacs {
        push_hex(text, hmac)?;
        text.push_str(" ")?;
    }
    Ok(text.push_str("hmac")?)
}

/// Appends HMACs by HMAC-SHA1, HMAC-SHA256 and HMAC-SHA512 that reuse the state after the key. The
/// state computes the HMAC of the text, of its first third, and of the text again. A clone of the
/// state computes the HMAC of the first third and then of the text.
pub(crate) fn hmacs_again(key: &[u8], bytes: &[u8], text: &mut String) -> Result<(), LineError> {
    let (sha1, sha256, sha512) = (
        HmacSha1::new(key),
        HmacSha256::new(key),
        HmacSha512::new(key),
    );
    let (other_sha1, other_sha256, other_sha512) = (sha1.again(), sha256.again(), sha512.again());
    let [head, middle, tail] = thirds(bytes);
    let none: &[u8] = &[];
    for [one, two, three] in [
        [head, middle, tail],
        [head, none, none],
        [none, none, bytes],
    ] {
        push_hex(text, &sha1.with_chunks(one, two, three))?;
        text.push_str(" ")?;
        push_hex(text, &sha256.with_chunks(one, two, three))?;
        text.push_str(" ")?;
        push_hex(text, &sha512.with_chunks(one, two, three))?;
        text.push_str(" ")?;
    }
    for [one, two, three] in [[none, head, none], [head, middle, tail]] {
        push_hex(text, &other_sha1.with_chunks(one, two, three))?;
        text.push_str(" ")?;
        push_hex(text, &other_sha256.with_chunks(one, two, three))?;
        text.push_str(" ")?;
        push_hex(text, &other_sha512.with_chunks(one, two, three))?;
        text.push_str(" ")?;
    }
    Ok(text.push_str("hmac")?)
}

/// Appends what `Debug` prints of keys, which reveals nothing of them.
pub(crate) fn hidden(line: &Line<'_>, text: &mut String) -> Result<(), LineError> {
    let hmac = HmacSha1::new(line.password.as_bytes());
    let key = IntegrityKey::short_term(line.password, IntegrityAlgorithm::Sha1);
    Ok(write!(text, "{hmac:?} {key:?}")?)
}

/// The length of a chunk, in bytes, when a CRC-32 is computed in chunks.
const CHUNK: usize = 17;

/// Appends the CRC-32 of a text, computed in five ways:
///
/// 1. with the table;
/// 2. bit by bit;
/// 3. in chunks;
/// 4. with the first four bytes passed separately;
/// 5. as FINGERPRINT uses it.
pub(crate) fn crcs(bytes: &[u8], text: &mut String) -> Result<(), LineError> {
    let mut parts = Crc32::default();
    for chunk in bytes.chunks(CHUNK) {
        parts.update(chunk);
    }
    let after_four = match bytes.split_first_chunk::<4>() {
        Some((prefix, back)) => Crc32::of_chunks(*prefix, back),
        None => Crc32::checksum(bytes),
    };
    for crc in [
        Crc32::checksum(bytes),
        bitwise::checksum(bytes),
        parts.finalize(),
        after_four,
        u32::from_be_bytes(Fingerprint::compute(bytes)),
    ] {
        write!(text, "{crc:08x} ")?;
    }
    Ok(text.push_str("crc")?)
}

/// Appends the CRC-32 and the value of a message's FINGERPRINT, computed as if the header had this
/// length field, and whether these four bytes are that value.
pub(crate) fn fingerprint(
    line: &Line<'_>,
    value: &[u8],
    bytes: &[u8],
    text: &mut String,
) -> Result<(), LineError> {
    if bytes.len() < MessageHeader::LENGTH || value.len() != 4 {
        return Err(LineError::Bad);
    }
    let made = Fingerprint::of_message(bytes, line.length);
    push_hex(text, &made.fingerprint())?;
    text.push_str(" ")?;
    push_hex(text, &made.value())?;
    let has_value = made.has_value(value);
    Ok(write!(text, " {has_value}")?)
}

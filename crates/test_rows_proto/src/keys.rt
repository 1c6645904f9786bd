//! Lines for keys and their HMACs, and for a server's validation of a message.

use crate::digests::thirds;
use crate::line::Line;
use crate::text::{push_hex, read_message};
use line_io::refusal::LineError;
use std::alloc::Global;
use stun_proto_auth::claim::Claim;
use stun_proto_verify::judgement::judge_message;
use stun_proto_verify::known::{Known, NamedUser};
use stun_types_integrity::credentials::{
    LongTermCredentials, MessageIntegrityCredentials, ShortTermCredentials,
};
use stun_types_integrity::integrity_sha1::MessageIntegrity;
use stun_types_integrity::integrity_sha256::MessageIntegritySha256;
use stun_types_integrity::integrity_sha512::MessageIntegritySha512;
use stun_types_integrity::key::IntegrityKey;
use stun_types_wire::algorithm::IntegrityAlgorithm;

/// Returns the credentials that a line names: a short-term password if the name is `-`.
fn credentials_of(
    alloc: Global,
    line: &Line<'_>,
) -> Result<MessageIntegrityCredentials, LineError> {
    let password = String::from_str(alloc, line.password)?;
    if line.name == "-" {
        let credentials = ShortTermCredentials::new(password);
        return Ok(MessageIntegrityCredentials::from(credentials));
    }
    let credentials = LongTermCredentials::new(String::from_str(alloc, line.name)?, password);
    let key = credentials.to_key(alloc, String::from_str(alloc, line.realm)?)?;
    Ok(MessageIntegrityCredentials::from(key))
}

/// Appends the credentials that a line names, and the HMACs of a text under each of their keys.
pub(crate) fn sign(
    alloc: Global,
    line: &Line<'_>,
    bytes: &[u8],
    text: &mut String,
) -> Result<(), LineError> {
    match credentials_of(alloc, line) {
        Ok(credentials) => {
            let done = push_signed(&credentials, bytes, text);
            drop(credentials);
            done
        }
        Err(error) => Err(error),
    }
}

/// Appends credentials, and the HMACs of a text under their key for each algorithm.
fn push_signed(
    credentials: &MessageIntegrityCredentials,
    bytes: &[u8],
    text: &mut String,
) -> Result<(), LineError> {
    match credentials {
        MessageIntegrityCredentials::ShortTerm(secret) => write!(text, "{}", secret.password())?,
        MessageIntegrityCredentials::LongTerm(secret) => {
            let (name, realm) = (secret.username(), secret.realm());
            write!(text, "{name} {realm} {}", secret.password())?;
        }
    }
    for algorithm in [
        IntegrityAlgorithm::Sha1,
        IntegrityAlgorithm::Sha256,
        IntegrityAlgorithm::Sha512,
    ] {
        push_hmacs(&credentials.make_key(algorithm), bytes, text)?;
    }
    Ok(())
}

/// Appends the HMACs of a text under a key: by MESSAGE-INTEGRITY, by MESSAGE-INTEGRITY-SHA256 and
/// by MESSAGE-INTEGRITY-SHA512, each in one chunk and in three; then by the algorithm of the key.
fn push_hmacs(key: &IntegrityKey<'_>, bytes: &[u8], text: &mut String) -> Result<(), LineError> {
    let [head, middle, tail] = thirds(bytes);
    write!(text, " {:?}", key.algorithm())?;
    for made in [
        MessageIntegrity::compute(bytes, key),
        MessageIntegrity::compute_in_chunks(head, middle, tail, key),
    ] {
        text.push_str(" ")?;
        match made {
            Ok(hmac) => push_hex(text, &hmac)?,
            Err(error) => write!(text, "{error:?}")?,
        }
    }
    for made in [
        MessageIntegritySha256::compute(bytes, key),
        MessageIntegritySha256::compute_in_chunks(head, middle, tail, key),
    ] {
        text.push_str(" ")?;
        match made {
            Ok(hmac) => push_hex(text, &hmac)?,
            Err(error) => write!(text, "{error:?}")?,
        }
    }
    for made in [
        MessageIntegritySha512::compute(bytes, key),
        MessageIntegritySha512::compute_in_chunks(head, middle, tail, key),
    ] {
        text.push_str(" ")?;
        match made {
            Ok(hmac) => push_hex(text, &hmac)?,
            Err(error) => write!(text, "{error:?}")?,
        }
    }
    text.push_str(" ")?;
    push_hex(text, key.hmac(head, middle, tail).as_slice())
}

/// Returns the key that a line names: that of a short-term password if the name is `-`.
fn key_of<'a>(line: &Line<'a>) -> IntegrityKey<'a> {
    if line.name == "-" {
        IntegrityKey::short_term(line.password, line.algorithm)
    } else {
        IntegrityKey::long_term(line.name, line.realm, line.password, line.algorithm)
    }
}

/// Appends HMACs under a line's key: of the text, of its first third, and of the text again. A
/// clone of the key computes the HMAC of the first third and then of the text. Then appends whether
/// the two keys are equal, and the clone's algorithm.
pub(crate) fn sign_again(
    line: &Line<'_>,
    bytes: &[u8],
    text: &mut String,
) -> Result<(), LineError> {
    let key = key_of(line);
    let same = key.clone()?;
    let [head, middle, tail] = thirds(bytes);
    for hmac in [
        key.hmac(head, middle, tail),
        key.hmac(head, &[], &[]),
        key.hmac(&[], &[], bytes),
        same.hmac(&[], head, &[]),
        same.hmac(head, middle, tail),
    ] {
        push_hex(text, hmac.as_slice())?;
        text.push_str(" ")?;
    }
    let is_equal = key == same;
    Ok(write!(text, "{is_equal} {:?}", same.algorithm())?)
}

/// Appends whether a value verifies for a text under a line's key: by MESSAGE-INTEGRITY, if it has
/// exactly twenty bytes, by MESSAGE-INTEGRITY-SHA256 and by MESSAGE-INTEGRITY-SHA512. Then appends
/// whether the value is the text's HMAC under the key or the first bytes of it.
pub(crate) fn verify(
    line: &Line<'_>,
    value: &[u8],
    bytes: &[u8],
    text: &mut String,
) -> Result<(), LineError> {
    let key = key_of(line);
    match value.split_first_chunk::<20>() {
        Some((hmac, [])) => write!(text, "{:?}", MessageIntegrity::verify(bytes, &key, hmac))?,
        _ => text.push_str("none")?,
    }
    let by_sha256 = MessageIntegritySha256::verify(bytes, &key, value);
    let by_sha512 = MessageIntegritySha512::verify(bytes, &key, value);
    let [head, middle, tail] = thirds(bytes);
    let signs = key.signs(head, middle, tail, value);
    Ok(write!(text, " {by_sha256:?} {by_sha512:?} {signs}")?)
}

/// Appends whether a line's key equals two keys for HMAC-SHA1: that of the short-term password
/// `pass`, and that of `user` in `realm` with that password. Then appends the key's algorithm.
pub(crate) fn equal(line: &Line<'_>, text: &mut String) -> Result<(), LineError> {
    let key = key_of(line);
    let short = IntegrityKey::short_term("pass", IntegrityAlgorithm::Sha1);
    let long = IntegrityKey::long_term("user", "realm", "pass", IntegrityAlgorithm::Sha1);
    let (is_short, is_long) = (key == short, key == long);
    Ok(write!(text, "{is_short} {is_long} {:?}", key.algorithm())?)
}

/// Appends the user whom a server authenticates from a message, or the error. The line names the
/// server's realm, its algorithms, the valid nonce and the known user; `-` means no nonce or no
/// user.
pub(crate) fn judge(
    alloc: Global,
    line: &Line<'_>,
    bytes: &[u8],
    text: &mut String,
) -> Result<(), LineError> {
    let message = read_message(bytes)?;
    if message.is_response() {
        return Err(LineError::Bad);
    }
    let nonce = match line.nonce {
        "-" => None,
        nonce => Some(nonce),
    };
    let user = match line.name {
        "-" => None,
        name => Some(NamedUser::new(name, line.password)),
    };
    let known = Known::new(line.realm, line.supported, nonce, user);
    let claim = Claim::of(&message);
    let answer = judge_message(alloc, &message, &claim, &known);
    drop(claim);
    match &answer {
        Ok(user) => write!(text, "{} {:?}", user.name(), user.algorithm())?,
        Err(error) => write!(text, "{error:?}")?,
    }
    Ok(())
}

//! Lines for operations that need no state.

use crate::digests::{crcs, fingerprint, hidden, hmacs, hmacs_again};
use crate::keys::{equal, judge, sign, sign_again, verify};
use crate::line::{Line, read};
use crate::party::Party;
use crate::waits::{time, waits};
use line_io::lower_hex::read_hex;
use line_io::refusal::LineError;
use std::alloc::Global;
use stun_proto_agent::error::StunError;
use stun_proto_auth::nonce::{NONCE_WORDS, NonceFeatures, write_nonce};
use stun_proto_client::error::LongTermClientAuthError;
use stun_proto_verify::error::LongTermServerAuthError;
use stun_types_wire::algorithm::IntegrityAlgorithm;
use stun_types_wire::error::{StunParseError, StunWriteError};

/// The object for the lines of a section whose operations need no state.
#[derive(Drop)]
pub(crate) struct Values;

impl Party for Values {
    fn answer(
        &mut self,
        alloc: Global,
        line: &Line<'_>,
        bytes: &[u8],
        text: &mut String,
    ) -> Result<(), LineError> {
        match line.what {
            "moment" => time(line, text),
            "waits" => waits(line, text),
            "crc" => crcs(bytes, text),
            "hidden" => hidden(line, text),
            "equal" => equal(line, text),
            "sign" => sign(alloc, line, bytes, text),
            "sign-again" => sign_again(line, bytes, text),
            "judge" => judge(alloc, line, bytes, text),
            "nonce" => nonce(alloc, line, text),
            "told" => push_features(NonceFeatures::decoded_by(line.nonce), text),
            "errors" => errors(text),
            _ => with_value(alloc, line, bytes, text),
        }
    }
}

/// Runs a line whose value argument is decoded from hex.
fn with_value(
    alloc: Global,
    line: &Line<'_>,
    bytes: &[u8],
    text: &mut String,
) -> Result<(), LineError> {
    let value = read_hex(alloc, line.value)?;
    match line.what {
        "hmac" => hmacs(value.as_slice(), bytes, text),
        "hmac-again" => hmacs_again(value.as_slice(), bytes, text),
        "verify" => verify(line, value.as_slice(), bytes, text),
        "fingerprint" => fingerprint(line, value.as_slice(), bytes, text),
        _ => Err(LineError::Bad),
    }
}

/// Appends the features that a server offers, and the nonce with these features and with these
/// random words.
fn nonce(alloc: Global, line: &Line<'_>, text: &mut String) -> Result<(), LineError> {
    let features = NonceFeatures::offered(line.supported, line.anonymity);
    let mut numbers = [0; NONCE_WORDS];
    for (number, word) in numbers.iter_mut().zip(line.words.split(',')) {
        *number = read(word)?;
    }
    let nonce = write_nonce(alloc, features, &numbers)?;
    push_features(features, text)?;
    Ok(write!(text, " {}", nonce.as_str())?)
}

/// Appends the features that a nonce announces.
fn push_features(features: NonceFeatures, text: &mut String) -> Result<(), LineError> {
    let (algorithms, anonymity) = (features.password_algorithms, features.anonymous_username);
    Ok(write!(text, "algorithms {algorithms} names {anonymity}")?)
}

/// Appends each error of an agent, of a client and of a server, and its text.
fn errors(text: &mut String) -> Result<(), LineError> {
    for error in [
        StunError::AlreadyInProgress,
        StunError::ResourceNotFound,
        StunError::TimedOut,
        StunError::ProtocolViolation,
        StunError::Aborted,
        StunError::ParseError(StunParseError::NotStun),
        StunError::WriteError(StunWriteError::IntegrityFailed),
        StunError::NoMemory,
    ] {
        write!(text, "{error:?} {error}; ")?;
    }
    let (sha1, sha256) = (IntegrityAlgorithm::Sha1, IntegrityAlgorithm::Sha256);
    let sha512 = IntegrityAlgorithm::Sha512;
    for error in [
        LongTermClientAuthError::Unauthorized,
        LongTermClientAuthError::IntegrityFailed(sha1),
        LongTermClientAuthError::IntegrityFailed(sha256),
        LongTermClientAuthError::IntegrityFailed(sha512),
        LongTermClientAuthError::UnsupportedFeature,
        LongTermClientAuthError::NoMemory,
    ] {
        let (reason, integrity) = (error.reason(), error.integrity());
        write!(text, "{error:?} {reason:?} {integrity:?} {error}; ")?;
    }
    for error in [
        LongTermServerAuthError::Unauthorized,
        LongTermServerAuthError::IntegrityFailed(sha1),
        LongTermServerAuthError::IntegrityFailed(sha256),
        LongTermServerAuthError::IntegrityFailed(sha512),
        LongTermServerAuthError::BadRequest,
        LongTermServerAuthError::StaleNonce,
        LongTermServerAuthError::NoMemory,
    ] {
        let (reason, integrity) = (error.reason(), error.integrity());
        write!(text, "{error:?} {reason:?} {integrity:?} {error}; ")?;
    }
    Ok(())
}

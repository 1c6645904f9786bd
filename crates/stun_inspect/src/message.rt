//! One message: its header, its attributes, and whether it validates.

use line_io::lower_hex::write_hex;
use std::alloc::Global;
use stun_describe::attribute::push_attribute;
use stun_describe::names::{algorithm_name, class_name};
use stun_describe::refusal::{Objection, Refusal};
use stun_types_add::attribute::Fingerprint;
use stun_types_base::memory::NoMemory;
use stun_types_integrity::credentials::MessageIntegrityCredentials;
use stun_types_integrity::integrity_sha1::MessageIntegrity;
use stun_types_integrity::integrity_sha256::MessageIntegritySha256;
use stun_types_integrity::integrity_sha512::MessageIntegritySha512;
use stun_types_message::parsed::Message;
use stun_types_wire::algorithm::IntegrityAlgorithm;
use stun_types_wire::attribute::RawAttribute;
use stun_types_wire::error::{StunParseError, ValidateError};
use stun_types_wire::header::MessageHeader;
use stun_types_wire::names::Names;
use stun_types_wire::transaction::TransactionId;
use stun_types_write::attribute::{Attribute, AttributeStaticType};

/// Appends the description of bytes as a message, and validates it if there are credentials.
pub(crate) fn push_message(
    alloc: Global,
    text: &mut String,
    bytes: &[u8],
    credentials: Option<&MessageIntegrityCredentials>,
    names: &Names,
) -> Result<(), NoMemory> {
    let size = bytes.len();
    writeln!(text, "message {size} bytes")?;
    match Message::from_bytes(bytes) {
        Ok(message) => {
            push_header(text, &message, names)?;
            push_listed(alloc, text, &message, names)?;
            match credentials {
                Some(credentials) => push_integrity(text, &message, credentials, names)?,
                None => text.push_str("validation without credentials\n")?,
            }
            push_fingerprint(text, &message)?;
        }
        Err(error) => push_refused(text, error)?,
    }
    Ok(())
}

/// Appends the description of bytes as one attribute. An address is decoded with transaction ID 0.
pub(crate) fn push_raw(
    alloc: Global,
    text: &mut String,
    bytes: &[u8],
    names: &Names,
) -> Result<(), NoMemory> {
    let size = bytes.len();
    writeln!(text, "raw {size} bytes")?;
    match RawAttribute::from_bytes(bytes) {
        Ok(raw) => push_attribute(alloc, text, &raw, TransactionId::from(0u128), names)?,
        Err(error) => push_refused(text, error)?,
    }
    Ok(())
}

/// Appends a line with the reason why bytes are invalid.
pub(crate) fn push_refused(text: &mut String, error: StunParseError) -> Result<(), NoMemory> {
    let refusal = Refusal(error);
    writeln!(text, "refused {refusal}")?;
    Ok(())
}

/// Appends a line with a name and bytes in hex.
pub(crate) fn push_named(
    alloc: Global,
    text: &mut String,
    name: &str,
    bytes: &[u8],
) -> Result<(), NoMemory> {
    let hex = write_hex(alloc, bytes)?;
    writeln!(text, "{name} {hex}")?;
    Ok(())
}

/// Appends the class, the method and the transaction ID.
fn push_header(text: &mut String, message: &Message<'_>, names: &Names) -> Result<(), NoMemory> {
    let class = class_name(message.class());
    let method = message.method();
    let (value, name) = (method.value(), method.name(names));
    let number = message.transaction_id();
    writeln!(text, "class {class}")?;
    writeln!(text, "method 0x{value:03x} {name}")?;
    writeln!(text, "transaction {number}")?;
    Ok(())
}

/// Appends each visible attribute, and the bytes after them.
fn push_listed(
    alloc: Global,
    text: &mut String,
    message: &Message<'_>,
    names: &Names,
) -> Result<(), NoMemory> {
    let bytes = message.as_ref();
    let mut following = bytes.get(MessageHeader::LENGTH..).unwrap_or(&[]);
    for (_, raw) in message.iter_attributes() {
        push_attribute(alloc, text, &raw, message.transaction_id(), names)?;
        following = following.get(raw.padded_len()..).unwrap_or(&[]);
    }
    push_named(alloc, text, "behind", following)
}

/// Appends the result of validating each visible integrity attribute under the credentials, and
/// then the result for the message, which is decided by the last of them.
fn push_integrity(
    text: &mut String,
    message: &Message<'_>,
    credentials: &MessageIntegrityCredentials,
    names: &Names,
) -> Result<(), NoMemory> {
    for (atype, algorithm) in [
        (MessageIntegrity::TYPE, IntegrityAlgorithm::Sha1),
        (MessageIntegritySha256::TYPE, IntegrityAlgorithm::Sha256),
        (MessageIntegritySha512::TYPE, IntegrityAlgorithm::Sha512),
    ] {
        if message.has_attribute(atype) {
            let key = credentials.make_key(algorithm);
            let name = atype.name(names);
            write!(text, "integrity {name} ")?;
            push_verdict(text, message.validate_integrity_with_key(&key))?;
        }
    }
    text.push_str("validation ")?;
    push_verdict(text, message.validate_integrity(credentials))
}

/// Appends the result of a validation, and a line feed.
fn push_verdict(
    text: &mut String,
    verdict: Result<IntegrityAlgorithm, ValidateError>,
) -> Result<(), NoMemory> {
    match verdict {
        Ok(algorithm) => {
            let name = algorithm_name(algorithm);
            writeln!(text, "valid {name}")?;
        }
        Err(error) => {
            let objection = Objection(error);
            writeln!(text, "refused {objection}")?;
        }
    }
    Ok(())
}

/// Appends whether a FINGERPRINT is visible.
fn push_fingerprint(text: &mut String, message: &Message<'_>) -> Result<(), NoMemory> {
    if message.has_attribute(Fingerprint::TYPE) {
        text.push_str("fingerprint shown\n")?;
    } else {
        text.push_str("fingerprint none\n")?;
    }
    Ok(())
}

//! Messages, attributes and channel frames as JSON objects.

use crate::names::{algorithm_name, class_name};
use crate::value::{attribute_object, hex_value, refusal_object};
use serde_json::{Map, Value, json, put};
use std::alloc::{AllocError, Global};
use stun_types_add::attribute::Fingerprint;
use stun_types_base::memory::NoMemory;
use stun_types_integrity::credentials::MessageIntegrityCredentials;
use stun_types_integrity::integrity_sha1::MessageIntegrity;
use stun_types_integrity::integrity_sha256::MessageIntegritySha256;
use stun_types_integrity::integrity_sha512::MessageIntegritySha512;
use stun_types_message::parsed::Message;
use stun_types_wire::algorithm::IntegrityAlgorithm;
use stun_types_wire::attribute::RawAttribute;
use stun_types_wire::error::{StunParseError, ValidateError};
use stun_types_wire::header::MessageHeader;
use stun_types_wire::names::Names;
use stun_types_wire::transaction::TransactionId;
use stun_types_write::attribute::{Attribute, AttributeStaticType};
use turn_types_frame::channel::ChannelData;

/// An object's members.
pub type Members = Map<String, Value>;

/// Returns bytes as a message, and validates it if there are credentials.
pub fn message_object(
    alloc: Global,
    bytes: &[u8],
    credentials: Option<&MessageIntegrityCredentials>,
    names: &Names,
) -> Result<Members, NoMemory> {
    let mut object = new_object(alloc, "message", bytes)?;
    match Message::from_bytes(bytes) {
        Ok(message) => {
            put_header(alloc, &mut object, &message, names)?;
            put_listed(alloc, &mut object, &message, names)?;
            put_integrity(alloc, &mut object, &message, credentials, names)?;
            let has_one = message.has_attribute(Fingerprint::TYPE);
            put(&mut object, alloc, "fingerprint", Value::Bool(has_one))?;
        }
        Err(error) => put_refused(alloc, &mut object, error)?,
    }
    Ok(object)
}

/// Returns bytes as one attribute. An address is decoded with transaction ID 0.
pub fn raw_object(alloc: Global, bytes: &[u8], names: &Names) -> Result<Value, NoMemory> {
    let mut object = new_object(alloc, "raw", bytes)?;
    match RawAttribute::from_bytes(bytes) {
        Ok(raw) => {
            let attribute = attribute_object(alloc, &raw, TransactionId::from(0u128), names)?;
            put(&mut object, alloc, "attribute", attribute)?;
        }
        Err(error) => put_refused(alloc, &mut object, error)?,
    }
    Ok(Value::Object(object))
}

/// Returns bytes as one channel frame: its channel, its data, and the bytes after these.
pub fn frame_object(alloc: Global, bytes: &[u8]) -> Result<Members, NoMemory> {
    let mut object = new_object(alloc, "frame", bytes)?;
    match ChannelData::parse(bytes) {
        Ok(frame) => {
            let following = bytes.get(frame.len()..).unwrap_or(&[]);
            put(&mut object, alloc, "channel", Value::from(frame.id()))?;
            put_bytes(alloc, &mut object, "data", frame.data())?;
            put_bytes(alloc, &mut object, "behind", following)?;
        }
        Err(error) => put_refused(alloc, &mut object, error)?,
    }
    Ok(object)
}

/// Returns an object with what the bytes are read as, and their number.
pub fn new_object(alloc: Global, kind: &str, bytes: &[u8]) -> Result<Members, AllocError> {
    let mut object = Map::new(alloc);
    put_text(alloc, &mut object, "kind", kind)?;
    put(&mut object, alloc, "size", Value::from(bytes.len()))?;
    Ok(object)
}

/// Adds a text.
pub fn put_text(
    alloc: Global,
    object: &mut Members,
    name: &str,
    text: &str,
) -> Result<(), AllocError> {
    put(
        object,
        alloc,
        name,
        Value::String(String::from_str(alloc, text)?),
    )
}

/// Adds bytes, in hex.
pub fn put_bytes(
    alloc: Global,
    object: &mut Members,
    name: &str,
    bytes: &[u8],
) -> Result<(), AllocError> {
    put(object, alloc, name, hex_value(alloc, bytes)?)
}

/// Adds the reason why bytes are invalid.
fn put_refused(
    alloc: Global,
    object: &mut Members,
    error: StunParseError,
) -> Result<(), AllocError> {
    put(object, alloc, "refused", refusal_object(alloc, error)?)
}

/// Adds the class, the method and the transaction ID.
fn put_header(
    alloc: Global,
    object: &mut Members,
    message: &Message<'_>,
    names: &Names,
) -> Result<(), AllocError> {
    let (number, name) = (message.method().value(), message.method().name(names));
    let method = json!(in alloc; {"type": number, "name": name})?;
    let number = message.transaction_id();
    let transaction_id = format!(in alloc; "{number}")?;
    put_text(alloc, object, "class", class_name(message.class()))?;
    put(object, alloc, "method", method)?;
    put(
        object,
        alloc,
        "transaction_id",
        Value::String(transaction_id),
    )
}

/// Adds each visible attribute, and the bytes after them.
fn put_listed(
    alloc: Global,
    object: &mut Members,
    message: &Message<'_>,
    names: &Names,
) -> Result<(), NoMemory> {
    let mut listed = Vec::new(alloc);
    let bytes = message.as_ref();
    let mut following = bytes.get(MessageHeader::LENGTH..).unwrap_or(&[]);
    for (_, raw) in message.iter_attributes() {
        listed.push(attribute_object(alloc, &raw, message.transaction_id(), names)?)?;
        following = following.get(raw.padded_len()..).unwrap_or(&[]);
    }
    put(object, alloc, "attributes", Value::Array(listed))?;
    put_bytes(alloc, object, "behind", following)?;
    Ok(())
}

/// Adds the result of validating each visible integrity attribute under the credentials, and the
/// result for the message, which is decided by the last of them. Without credentials there are no
/// such results.
fn put_integrity(
    alloc: Global,
    object: &mut Members,
    message: &Message<'_>,
    credentials: Option<&MessageIntegrityCredentials>,
    names: &Names,
) -> Result<(), NoMemory> {
    let Some(credentials) = credentials else {
        put(object, alloc, "validation", Value::Null)?;
        return Ok(());
    };
    let mut results = Vec::new(alloc);
    for (atype, algorithm) in [
        (MessageIntegrity::TYPE, IntegrityAlgorithm::Sha1),
        (MessageIntegritySha256::TYPE, IntegrityAlgorithm::Sha256),
        (MessageIntegritySha512::TYPE, IntegrityAlgorithm::Sha512),
    ] {
        if message.has_attribute(atype) {
            let key = credentials.make_key(algorithm);
            let mut result = verdict(alloc, message.validate_integrity_with_key(&key))?;
            put_text(alloc, &mut result, "name", atype.name(names))?;
            results.push(Value::Object(result))?;
        }
    }
    put(object, alloc, "integrity", Value::Array(results))?;
    let result = verdict(alloc, message.validate_integrity(credentials))?;
    put(object, alloc, "validation", Value::Object(result))?;
    Ok(())
}

/// Returns an object with the result of a validation.
fn verdict(
    alloc: Global,
    validated: Result<IntegrityAlgorithm, ValidateError>,
) -> Result<Members, AllocError> {
    let mut object = Map::new(alloc);
    match validated {
        Ok(algorithm) => put_text(alloc, &mut object, "valid", algorithm_name(algorithm))?,
        Err(ValidateError::Parse(error)) => put_refused(alloc, &mut object, error)?,
        Err(ValidateError::IntegrityFailed) => {
            put(
                &mut object,
                alloc,
                "refused",
                json!(in alloc; {"name": "IntegrityFailed"})?,
            )?
        }
    }
    Ok(object)
}

//! One attribute as a JSON object.

use crate::attribute::{longest_text, push_read};
use crate::refusal::error_name;
use crate::turn::family_name;
use line_io::lower_hex::write_hex;
use serde_json::{Value, json, push};
use std::alloc::{AllocError, Global};
use std::convert::TryFrom;
use stun_types_add::ice::{Priority, UseCandidate};
use stun_types_attributes::error_code::ErrorCode;
use stun_types_attributes::unknown_attributes::UnknownAttributes;
use stun_types_auth_attributes::password_algorithms::PasswordAlgorithms;
use stun_types_base::memory::NoMemory;
use stun_types_wire::attribute::RawAttribute;
use stun_types_wire::error::StunParseError;
use stun_types_wire::names::Names;
use stun_types_wire::transaction::TransactionId;
use stun_types_write::attribute::{AttributeFromRaw, AttributeStaticType};
use stun_types_write::reading::text_of;
use turn_types_attributes::address_error_code::AddressErrorCode;
use turn_types_attributes::dont_fragment::DontFragment;
use turn_types_attributes::lifetime::Lifetime;
use turn_types_attributes::requested_transport::RequestedTransport;
use turn_types_peer::channel_number::ChannelNumber;
use turn_types_peer::connection_id::ConnectionId;
use turn_types_peer::icmp::Icmp;

/// Returns an attribute of a message with this transaction ID: its type, its name and its value.
/// For an invalid value the object has the reason and the bytes instead.
pub fn attribute_object(
    alloc: Global,
    raw: &RawAttribute<'_>,
    transaction_id: TransactionId,
    names: &Names,
) -> Result<Value, NoMemory> {
    let atype = raw.get_type();
    let (number, name) = (atype.value(), atype.name(names));
    match attribute_value(alloc, raw, transaction_id) {
        Ok(value) => Ok(json!(in alloc; {"type": number, "name": name, "value": value})?),
        Err(StunParseError::NoMemory) => Err(NoMemory),
        Err(error) => {
            let (refused, bytes) = (
                refusal_object(alloc, error)?,
                hex_value(alloc, raw.value())?,
            );
            Ok(json!(in alloc; {"type": number, "name": name, "refused": refused, "bytes": bytes})?)
        }
    }
}

/// Returns the reason why bytes are invalid: its name and its numbers.
pub fn refusal_object(alloc: Global, error: StunParseError) -> Result<Value, AllocError> {
    let name = error_name(error);
    match error {
        StunParseError::Truncated { expected, actual }
        | StunParseError::TooLarge { expected, actual } => {
            json!(in alloc; {"name": name, "expected": expected, "actual": actual})
        }
        StunParseError::MissingAttribute(atype) | StunParseError::AttributeAfterIntegrity(atype) =>
            {
                let number = atype.value();
                json!(in alloc; {"name": name, "type": number})
            }
        _ => json!(in alloc; {"name": name}),
    }
}

/// Returns bytes as a string of hex.
pub fn hex_value(alloc: Global, bytes: &[u8]) -> Result<Value, AllocError> {
    if bytes.is_empty() {
        return Ok(Value::String(String::new(alloc)));
    }
    Ok(Value::String(write_hex(alloc, bytes)?))
}

/// Returns the value of an attribute, in a message with this transaction ID.
///
/// # Errors
///
/// - The errors of the type's own `from_raw`.
fn attribute_value(
    alloc: Global,
    raw: &RawAttribute<'_>,
    transaction_id: TransactionId,
) -> Result<Value, StunParseError> {
    let atype = raw.get_type();
    if let Some(longest) = longest_text(atype) {
        let text = String::from_str(alloc, text_of(raw, atype, longest)?)?;
        return Ok(Value::String(text));
    }
    match atype {
        ErrorCode::TYPE | AddressErrorCode::TYPE => error_value(alloc, raw),
        UnknownAttributes::TYPE | PasswordAlgorithms::TYPE => list_value(alloc, raw),
        ChannelNumber::TYPE | Lifetime::TYPE | ConnectionId::TYPE | Priority::TYPE => {
            number_value(raw)
        }
        RequestedTransport::TYPE | Icmp::TYPE => numbers_value(alloc, raw),
        DontFragment::TYPE | UseCandidate::TYPE => {
            let mut text = String::new(alloc);
            push_read(alloc, &mut text, raw, transaction_id)?;
            Ok(Value::Null)
        }
        _ => text_value(alloc, raw, transaction_id),
    }
}

/// Returns the value of an attribute as the text that describes it; of one without bytes, an empty
/// text.
fn text_value(
    alloc: Global,
    raw: &RawAttribute<'_>,
    transaction_id: TransactionId,
) -> Result<Value, StunParseError> {
    let mut text = String::new(alloc);
    push_read(alloc, &mut text, raw, transaction_id)?;
    if raw.value().is_empty() {
        text = String::new(alloc);
    }
    Ok(Value::String(text))
}

/// Returns the code and the reason of an ERROR-CODE, and of an ADDRESS-ERROR-CODE also its family.
fn error_value(alloc: Global, raw: &RawAttribute<'_>) -> Result<Value, StunParseError> {
    if raw.get_type() == AddressErrorCode::TYPE {
        let read = AddressErrorCode::from_raw_ref(alloc, raw)?;
        let (family, code, reason) = (family_name(read.family()), read.code(), read.reason());
        return Ok(json!(in alloc; {"family": family, "code": code, "reason": reason})?);
    }
    let read = ErrorCode::from_raw_ref(alloc, raw)?;
    let (code, reason) = (read.code(), read.reason());
    Ok(json!(in alloc; {"code": code, "reason": reason})?)
}

/// Returns the types of an UNKNOWN-ATTRIBUTES as an array of numbers, and the algorithms of a
/// PASSWORD-ALGORITHMS as an array of names.
fn list_value(alloc: Global, raw: &RawAttribute<'_>) -> Result<Value, StunParseError> {
    let mut list = Vec::new(alloc);
    if raw.get_type() == UnknownAttributes::TYPE {
        let _ = UnknownAttributes::from_raw_ref(alloc, raw)?;
        for pair in raw.value().chunks_exact(2) {
            push(
                &mut list,
                Value::from(u16::from_be_bytes([pair[0], pair[1]])),
            )?;
        }
        return Ok(Value::Array(list));
    }
    let read = PasswordAlgorithms::from_raw_ref(alloc, raw)?;
    for algorithm in read.algorithms() {
        push(&mut list, Value::String(format!(in alloc; "{algorithm}")?))?;
    }
    Ok(Value::Array(list))
}

/// Returns the number of an attribute that contains just one.
fn number_value(raw: &RawAttribute<'_>) -> Result<Value, StunParseError> {
    Ok(match raw.get_type() {
        ChannelNumber::TYPE => Value::from(ChannelNumber::try_from(raw)?.channel()),
        Lifetime::TYPE => Value::from(Lifetime::try_from(raw)?.seconds()),
        ConnectionId::TYPE => Value::from(ConnectionId::try_from(raw)?.id()),
        _ => Value::from(Priority::try_from(raw)?.priority()),
    })
}

/// Returns the protocol of a REQUESTED-TRANSPORT, and the type, code and data of an ICMP.
fn numbers_value(alloc: Global, raw: &RawAttribute<'_>) -> Result<Value, StunParseError> {
    if raw.get_type() == Icmp::TYPE {
        let report = Icmp::try_from(raw)?;
        let (icmp_type, code, details) = (report.icmp_type(), report.code(), report.data());
        return Ok(json!(in alloc; {"type": icmp_type, "code": code, "data": details})?);
    }
    let protocol = RequestedTransport::try_from(raw)?.protocol();
    let name = match protocol {
        RequestedTransport::UDP => "UDP",
        RequestedTransport::TCP => "TCP",
        _ => "unknown",
    };
    Ok(json!(in alloc; {"protocol": protocol, "name": name})?)
}

//! One attribute as text: its type, its name and its value.

use crate::ice::push_ice;
use crate::refusal::Refusal;
use crate::turn::push_turn;
use line_io::lower_hex::write_hex;
use std::alloc::{AllocError, Global};
use std::convert::TryFrom;
use std::net::SocketAddr;
use stun_types_add::attribute::Fingerprint;
use stun_types_attributes::alternate_server::AlternateServer;
use stun_types_attributes::error_code::ErrorCode;
use stun_types_attributes::mapped_address::MappedAddress;
use stun_types_attributes::unknown_attributes::UnknownAttributes;
use stun_types_attributes::xor_mapped_address::XorMappedAddress;
use stun_types_auth_attributes::algorithm::PasswordAlgorithmValue;
use stun_types_auth_attributes::alternate_domain::AlternateDomain;
use stun_types_auth_attributes::nonce::Nonce;
use stun_types_auth_attributes::password_algorithm::PasswordAlgorithm;
use stun_types_auth_attributes::password_algorithms::PasswordAlgorithms;
use stun_types_auth_attributes::realm::Realm;
use stun_types_auth_attributes::software::Software;
use stun_types_auth_attributes::userhash::Userhash;
use stun_types_auth_attributes::username::Username;
use stun_types_base::memory::NoMemory;
use stun_types_integrity::integrity_sha1::MessageIntegrity;
use stun_types_integrity::integrity_sha256::MessageIntegritySha256;
use stun_types_integrity::integrity_sha512::MessageIntegritySha512;
use stun_types_wire::attribute::{AttributeType, RawAttribute};
use stun_types_wire::error::StunParseError;
use stun_types_wire::names::Names;
use stun_types_wire::transaction::TransactionId;
use stun_types_write::attribute::{AttributeFromRaw, AttributeStaticType};
use stun_types_write::reading::text_of;

/// Appends the line of an attribute of a message with this transaction ID: its type, its name and
/// its value. For an invalid value the line has the reason and the bytes instead.
pub fn push_attribute(
    alloc: Global,
    text: &mut String,
    raw: &RawAttribute<'_>,
    transaction_id: TransactionId,
    names: &Names,
) -> Result<(), NoMemory> {
    let atype = raw.get_type();
    let (value, name) = (atype.value(), atype.name(names));
    write!(text, "attribute 0x{value:04x} {name} ")?;
    if !push_value(alloc, text, raw, transaction_id)? {
        text.push_str(" of ")?;
        push_hex(alloc, text, raw.value())?;
    }
    text.push_str("\n")?;
    Ok(())
}

/// Appends the value of an attribute as text, in a message with this transaction ID; for an invalid
/// value `refused` and the reason. Returns whether the value is valid.
pub(crate) fn push_value(
    alloc: Global,
    text: &mut String,
    raw: &RawAttribute<'_>,
    transaction_id: TransactionId,
) -> Result<bool, NoMemory> {
    match push_read(alloc, text, raw, transaction_id) {
        Ok(()) => Ok(true),
        Err(StunParseError::NoMemory) => Err(NoMemory),
        Err(error) => {
            let refusal = Refusal(error);
            write!(text, "refused {refusal}")?;
            Ok(false)
        }
    }
}

/// Appends the value of an attribute as text, in a message with this transaction ID. The text is
/// hex for a type that this repository does not decode.
///
/// # Errors
///
/// - The errors of the type's own `from_raw`. Nothing is appended then.
pub(crate) fn push_read(
    alloc: Global,
    text: &mut String,
    raw: &RawAttribute<'_>,
    transaction_id: TransactionId,
) -> Result<(), StunParseError> {
    let is_read = push_text(text, raw)?
        || push_address(text, raw, transaction_id)?
        || push_numbers(alloc, text, raw)?
        || push_digest(alloc, text, raw)?
        || push_ice(text, raw)?
        || push_turn(alloc, text, raw, transaction_id)?;
    if !is_read {
        push_hex(alloc, text, raw.value())?;
    }
    Ok(())
}

/// Appends bytes in hex.
pub(crate) fn push_hex(alloc: Global, text: &mut String, bytes: &[u8]) -> Result<(), AllocError> {
    let hex = write_hex(alloc, bytes)?;
    text.push_str(hex.as_str())
}

/// Appends the text of an attribute that contains one, in quotation marks. Returns whether the
/// attribute contains one.
fn push_text(text: &mut String, raw: &RawAttribute<'_>) -> Result<bool, StunParseError> {
    let atype = raw.get_type();
    let Some(longest) = longest_text(atype) else {
        return Ok(false);
    };
    let read = text_of(raw, atype, longest)?;
    write!(text, "{read:?}")?;
    Ok(true)
}

/// Returns the maximum length in bytes of the text of an attribute, or `None` if its type contains
/// no text.
pub(crate) fn longest_text(atype: AttributeType) -> Option<usize> {
    match atype {
        Username::TYPE => Some(Username::MAX_LEN),
        Realm::TYPE => Some(Realm::MAX_LEN),
        Nonce::TYPE => Some(Nonce::MAX_LEN),
        Software::TYPE => Some(Software::MAX_LEN),
        AlternateDomain::TYPE => Some(AlternateDomain::MAX_LEN),
        _ => None,
    }
}

/// Appends the address of a STUN attribute that contains one. Returns whether the attribute
/// contains one.
fn push_address(
    text: &mut String,
    raw: &RawAttribute<'_>,
    transaction_id: TransactionId,
) -> Result<bool, StunParseError> {
    match raw.get_type() {
        XorMappedAddress::TYPE => push_addr(
            text,
            XorMappedAddress::try_from(raw)?.addr(transaction_id),
        )?,
        MappedAddress::TYPE => push_addr(text, MappedAddress::try_from(raw)?.addr())?,
        AlternateServer::TYPE => push_addr(text, AlternateServer::try_from(raw)?.server())?,
        _ => return Ok(false),
    }
    Ok(true)
}

/// Appends an address.
pub(crate) fn push_addr(text: &mut String, addr: SocketAddr) -> Result<(), AllocError> {
    write!(text, "{addr}")
}

/// Appends the numbers of an attribute that contains some: the names of algorithms, an error code
/// and its reason, or unknown attribute types. Returns whether the attribute contains some.
fn push_numbers(
    alloc: Global,
    text: &mut String,
    raw: &RawAttribute<'_>,
) -> Result<bool, StunParseError> {
    match raw.get_type() {
        PasswordAlgorithm::TYPE => {
            let algorithm = PasswordAlgorithm::try_from(raw)?.algorithm();
            write!(text, "{algorithm}")?;
        }
        PasswordAlgorithms::TYPE => {
            let read = PasswordAlgorithms::from_raw_ref(alloc, raw)?;
            push_algorithms(text, read.algorithms())?;
        }
        ErrorCode::TYPE => push_error(alloc, text, raw)?,
        UnknownAttributes::TYPE => {
            let _ = UnknownAttributes::from_raw_ref(alloc, raw)?;
            push_types(text, raw.value())?;
        }
        _ => return Ok(false),
    }
    Ok(true)
}

/// Appends the names of algorithms.
fn push_algorithms(
    text: &mut String,
    algorithms: &[PasswordAlgorithmValue],
) -> Result<(), AllocError> {
    let mut is_first = true;
    for algorithm in algorithms {
        if !is_first {
            text.push_str(" ")?;
        }
        is_first = false;
        write!(text, "{algorithm}")?;
    }
    Ok(())
}

/// Appends the code and the reason of an ERROR-CODE.
fn push_error(
    alloc: Global,
    text: &mut String,
    raw: &RawAttribute<'_>,
) -> Result<(), StunParseError> {
    let read = ErrorCode::from_raw_ref(alloc, raw)?;
    let (code, reason) = (read.code(), read.reason());
    write!(text, "{code} {reason:?}")?;
    Ok(())
}

/// Appends the types that the value of an UNKNOWN-ATTRIBUTES lists, or `-` if it lists none.
fn push_types(text: &mut String, value: &[u8]) -> Result<(), AllocError> {
    if value.is_empty() {
        return text.push_str("-");
    }
    let mut is_first = true;
    for pair in value.chunks_exact(2) {
        if !is_first {
            text.push_str(" ")?;
        }
        is_first = false;
        let (high, low) = (pair[0], pair[1]);
        write!(text, "0x{high:02x}{low:02x}")?;
    }
    Ok(())
}

/// Appends the bytes of an attribute that contains a digest. Returns whether the attribute contains
/// one.
fn push_digest(
    alloc: Global,
    text: &mut String,
    raw: &RawAttribute<'_>,
) -> Result<bool, StunParseError> {
    match raw.get_type() {
        MessageIntegrity::TYPE => {
            let _ = MessageIntegrity::try_from(raw)?;
        }
        MessageIntegritySha256::TYPE => {
            let _ = MessageIntegritySha256::try_from(raw)?;
        }
        MessageIntegritySha512::TYPE => {
            let _ = MessageIntegritySha512::try_from(raw)?;
        }
        Userhash::TYPE => {
            let _ = Userhash::try_from(raw)?;
        }
        Fingerprint::TYPE => {
            let _ = Fingerprint::try_from(raw)?;
        }
        _ => return Ok(false),
    }
    push_hex(alloc, text, raw.value())?;
    Ok(true)
}

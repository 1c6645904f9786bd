//! Writes the parts of a result, and decodes messages.

use line_io::refusal::LineError;
use stun_types_message::parsed::Message;

/// Appends bytes in hex, or `-` if there are none.
pub(crate) fn push_hex(text: &mut String, bytes: &[u8]) -> Result<(), LineError> {
    if bytes.is_empty() {
        text.push_str("-")?;
    }
    for byte in bytes {
        write!(text, "{byte:02x}")?;
    }
    Ok(())
}

/// Decodes a message from bytes.
pub(crate) fn read_message(bytes: &[u8]) -> Result<Message<'_>, LineError> {
    match Message::from_bytes(bytes) {
        Ok(message) => Ok(message),
        Err(_) => Err(LineError::Bad),
    }
}

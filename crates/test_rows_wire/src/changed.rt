//! What outlives a message, and bytes that are changed in place.

use crate::line::Line;
use crate::written::{add_all, begin};
use stun_types_message::parsed::Message;
use stun_types_wire::attribute::{AttributeType, RawAttribute};
use stun_types_wire::error::StunParseError;
use stun_types_wire::header::MessageHeader;
use stun_types_write::slice::MessageWriteMutSlice;
use stun_types_write::vec::MessageWriteVec;
use stun_types_write::writer::MessageWrite;

/// `outlive TYPE BYTES`: prints the first visible attribute of a type, which is borrowed from the
/// bytes, after the message is gone. Then prints the index of each visible attribute, and whether
/// their iterator, once it has ended, returns one when it is called twice more.
pub(crate) fn outlive(line: &mut Line<'_>) {
    let (atype, bytes) = (AttributeType(line.number()), line.bytes());
    match first_of(bytes.as_slice(), atype) {
        Ok(Some(raw)) => line.attribute(&raw),
        Ok(None) => line.say(&"none"),
        Err(error) => line.say(&error),
    }
    if let Ok(message) = Message::from_bytes(bytes.as_slice()) {
        let mut left = message.iter_attributes();
        for _ in 0..bytes.len() {
            let Some((offset, _)) = left.next() else {
                break;
            };
            line.say(&offset);
        }
        line.say(&left.next().is_some());
        line.say(&left.next().is_some());
    }
}

/// Returns the first attribute of a type. It is borrowed from the bytes, so it outlives the
/// message.
fn first_of(
    bytes: &[u8],
    atype: AttributeType,
) -> Result<Option<RawAttribute<'_>>, StunParseError> {
    let message = Message::from_bytes(bytes)?;
    Ok(message.raw_attribute(atype))
}

/// `change ROOM AT VALUE HOW BYTES ADD..`: writes a message into memory with room for ROOM bytes,
/// which grows if that is too small, and then sets the byte at index AT through the writer. After
/// the results of the adds and the writer's properties, prints how many bytes can be set, and the
/// message's bytes.
pub(crate) fn change(line: &mut Line<'_>) {
    let (room, at, value) = (line.value(0usize), line.value(0usize), line.value(0u8));
    let (how, bytes) = (line.word(), line.bytes());
    if let Ok(writer) = MessageWriteVec::with_capacity(line.alloc, room) {
        let started = begin(how, bytes.as_slice(), writer);
        if let Some(mut writer) = started {
            add_all(line, &mut writer);
            set(line, writer.mut_all(), at, value);
            line.hex(writer.finish().as_slice());
        }
    }
}

/// `change-lent ROOM AT VALUE HOW BYTES ADD..`: the same in ROOM borrowed bytes of EE, at least 20,
/// all of which it prints.
pub(crate) fn change_lent(line: &mut Line<'_>) {
    let (room, at, value) = (line.value(0usize), line.value(0usize), line.value(0u8));
    let (how, bytes) = (line.word(), line.bytes());
    let room = Vec::from_elem(line.alloc, 0xEEu8, room.max(MessageHeader::LENGTH));
    if let Ok(mut room) = room {
        let writer = MessageWriteMutSlice::new(room.as_mut_slice());
        let started = begin(how, bytes.as_slice(), writer);
        if let Some(mut writer) = started {
            add_all(line, &mut writer);
            set(line, writer.mut_all(), at, value);
            let whole: &[u8] = writer.into_lent();
            line.hex(whole);
        }
    }
}

/// Sets a byte, if there is one at this index, and prints how many bytes there are.
fn set(line: &mut Line<'_>, all: &mut [u8], at: usize, value: u8) {
    line.say(&all.len());
    if let Some(byte) = all.get_mut(at) {
        *byte = value;
    }
}

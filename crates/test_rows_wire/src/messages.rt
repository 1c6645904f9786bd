//! Writes and validates messages.

use crate::line::Line;
use crate::written::{add_all, begin};
use std::alloc::Global;
use stun_types_integrity::credentials::{
    LongTermKeyCredentials, MessageIntegrityCredentials, ShortTermCredentials,
};
use stun_types_message::parsed::Message;
use stun_types_wire::algorithm::IntegrityAlgorithm;
use stun_types_wire::error::ValidateError;
use stun_types_wire::header::MessageHeader;
use stun_types_write::slice::MessageWriteMutSlice;
use stun_types_write::vec::MessageWriteVec;
use stun_types_write::writer::MessageWrite;

/// `message HOW BYTES ADD..`: writes a message into memory that the writer allocates. After the
/// results of the adds and the writer's properties, prints the message's bytes.
pub(crate) fn message(line: &mut Line<'_>) {
    let (how, bytes) = (line.word(), line.bytes());
    let started = begin(how, bytes.as_slice(), MessageWriteVec::new(line.alloc));
    if let Some(mut writer) = started {
        add_all(line, &mut writer);
        line.say(&(writer.as_slice() == writer.data()));
        line.hex(writer.finish().as_slice());
    }
}

/// `lent ROOM HOW BYTES ADD..`: writes a message into ROOM borrowed bytes of EE, at least 20. After
/// the results of the adds and the writer's properties, prints the message's bytes and last the
/// bytes that were not written.
pub(crate) fn lent(line: &mut Line<'_>) {
    let (room, how, bytes) = (line.value(0usize), line.word(), line.bytes());
    let room = Vec::from_elem(line.alloc, 0xEEu8, room.max(MessageHeader::LENGTH));
    if let Ok(mut room) = room {
        let writer = MessageWriteMutSlice::new(room.as_mut_slice());
        let started = begin(how, bytes.as_slice(), writer);
        if let Some(mut writer) = started {
            add_all(line, &mut writer);
            line.say(&(writer.as_slice() == writer.data()));
            line.say(&writer.lent().len());
            let (head, following) = writer.finish();
            line.hex(head);
            line.hex(following);
        }
    }
}

/// Returns the credentials of a user in a realm, or of a password alone if the user is `-`.
pub(crate) fn credentials(
    alloc: Global,
    user: &str,
    realm: &str,
    password: &str,
) -> MessageIntegrityCredentials {
    let password = String::from_str(alloc, password).unwrap_or(String::new(alloc));
    if user == "-" {
        return MessageIntegrityCredentials::from(ShortTermCredentials::new(password));
    }
    let user = String::from_str(alloc, user).unwrap_or(String::new(alloc));
    let realm = String::from_str(alloc, realm).unwrap_or(String::new(alloc));
    MessageIntegrityCredentials::from(LongTermKeyCredentials::new(user, password, realm))
}

/// `judge USER REALM PASSWORD BYTES`: validates a message by its last integrity attribute, and then
/// with the key for each algorithm.
pub(crate) fn judge(line: &mut Line<'_>) {
    let (user, realm, password) = (line.word(), line.word(), line.word());
    let bytes = line.bytes();
    match Message::from_bytes(bytes.as_slice()) {
        Ok(message) => {
            let credentials = credentials(line.alloc, user, realm, password);
            verdict(line, message.validate_integrity(&credentials));
            for algorithm in [
                IntegrityAlgorithm::Sha1,
                IntegrityAlgorithm::Sha256,
                IntegrityAlgorithm::Sha512,
            ] {
                let key = credentials.make_key(algorithm);
                verdict(line, message.validate_integrity_with_key(&key));
            }
        }
        Err(error) => line.say(&error),
    }
}

/// Prints the algorithm by which the message validates, or the error.
fn verdict(line: &mut Line<'_>, verdict: Result<IntegrityAlgorithm, ValidateError>) {
    match verdict {
        Ok(algorithm) => {
            let _ = write!(line.answer, " {algorithm:?}");
        }
        Err(error) => line.say(&error),
    }
}

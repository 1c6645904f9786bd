//! Error responses to requests with bad attributes.

ghost use Rattle.std.specs.Prelude.{◌≡◌};
ghost use Rattle.stun_types_wire.specs.Attributes.{kind_at};
ghost use Rattle.stun_types_wire.specs.Types.{class_of};
ghost use Rattle.stun_types_wire.specs.declared.class.MessageClass.TheVariants.{Request};
ghost use Rattle.stun_types_write.specs.Outcomes.{CanBegin};

use crate::line::Line;
use stun_types_message::parsed::Message;
use stun_types_wire::class::MessageClass;
use stun_types_wire::error::StunWriteError;
use stun_types_wire::header::MessageHeader;
use stun_types_write::slice::MessageWriteMutSlice;
use stun_types_write::vec::MessageWriteVec;
use stun_types_write::writer::MessageWrite;

/// `object ROOM BYTES HOW..`: prints the error response to a request, written into ROOM borrowed
/// bytes, at least 20, or into memory that the writer allocates if ROOM is 0. HOW is `check
/// SUPPORTED REQUIRED`, `unknown TYPES` or `bad`.
pub(crate) fn object(line: &mut Line<'_>) {
    let (room, bytes) = (line.value(0usize), line.bytes());
    match Message::from_bytes(bytes.as_slice()) {
        Ok(request) if request.class() == MessageClass::Request => {
            if room == 0 {
                reply(line, &request, MessageWriteVec::new(line.alloc));
                return;
            }
            let room = Vec::from_elem(line.alloc, 0xEEu8, room.max(MessageHeader::LENGTH));
            if let Ok(mut room) = room {
                reply(
                    line,
                    &request,
                    MessageWriteMutSlice::new(room.as_mut_slice()),
                );
            }
        }
        _ => line.is_bad = true,
    }
}

/// Writes the error response to a request.
fn reply<W: MessageWrite + Drop>(line: &mut Line<'_>, request: &Message, writer: W)
    requires request { class_of (kind_at request.now) ≡ Request }
    requires empty { CanBegin (W.draft writer) }
{
    let alloc = line.alloc;
    match line.word() {
        "check" => {
            let (supported, required) = (line.types(), line.types());
            let (supported, required) = (supported.as_slice(), required.as_slice());
            match Message::check_attribute_types(alloc, request, supported, required, writer) {
                Ok(Some(reply)) => line.hex(reply.data()),
                Ok(None) => line.say(&"fine"),
                Err(error) => line.say(&error),
            }
        }
        "unknown" => {
            let types = line.types();
            let types = types.as_slice();
            replied(
                line,
                Message::unknown_attributes(alloc, request, types, writer),
            );
        }
        _ => replied(line, Message::bad_request(alloc, request, writer)),
    }
}

/// Prints a response, or the error if it was not written.
fn replied<W: MessageWrite + Drop>(line: &mut Line<'_>, replied: Result<W, StunWriteError>) {
    match replied {
        Ok(reply) => line.hex(reply.data()),
        Err(error) => line.say(&error),
    }
}

//! Messages to sign.

ghost use Rattle.std.specs.Prelude.{[], ◌≡◌, IfOk};
ghost use Rattle.stun_types_wire.specs.Text.{message_text};
ghost use Rattle.stun_types_wire.specs.Types.{type_of};
ghost use Rattle.stun_types_write.specs.Adding.{IsStarted};
ghost use Rattle.stun_types_write.specs.Drafts.{none_ended};

use crate::text::push_hex;
use line_io::refusal::LineError;
use std::alloc::Global;
use stun_types_base::memory::NoMemory;
use stun_types_message::parsed::Message;
use stun_types_wire::class::{MessageClass, MessageType, Method};
use stun_types_wire::error::StunWriteError;
use stun_types_wire::transaction::TransactionId;
use stun_types_write::vec::MessageWriteVec;

/// Starts a message with the method ALLOCATE and this class.
pub(crate) fn started(alloc: Global, class: MessageClass) -> Result<MessageWriteVec, NoMemory>
    ensures bytes { IfOk result (λ writer. writer.bytes
        ≡ message_text (type_of class 3) 0x7392 []) }
    ensures ended { IfOk result (λ writer. writer.ended ≡ none_ended) }
    ensures started { IfOk result (λ writer. IsStarted writer.bytes) }
{
    let mtype = MessageType::from_class_method(class, Method(3));
    let number = TransactionId::from(0x7392u128);
    Message::builder(mtype, number, MessageWriteVec::new(alloc))
}

/// Appends the message that either call signed, or the error.
pub(crate) fn push_made(
    made: Result<[Vec<u8>; 2], StunWriteError>,
    text: &mut String,
) -> Result<(), LineError> {
    match made {
        Ok([bytes, again]) => {
            push_hex(text, bytes.as_slice())?;
            text.push_str(" ")?;
            push_hex(text, again.as_slice())
        }
        Err(StunWriteError::NoMemory) => Err(LineError::NoMemory),
        Err(error) => Ok(write!(text, "{error:?}")?),
    }
}

//! The client's responses to the server's own requests: writing and signing them (RFC 6062, section
//! 4.4).

ghost use Rattle.std.specs.Prelude.{◌≡◌, ◌∷◌, [], IfOk, OnOk, length, ◌≤◌};
ghost use Rattle.stun_types_write.specs.Lent.{own_draft};
ghost use Rattle.stun_types_message.specs.Objections.{error_attribute};
ghost use Rattle.turn_client_proto_messages.specs.Answers.{IsAnswer, answer_class, answer_text, is_answer_code};
ghost use Rattle.turn_client_proto_messages.specs.Composing.{IsGrown, IsOpen, most_before};
ghost use Rattle.turn_client_proto_messages.specs.ShortTexts.{HasShortTexts};

use crate::attributes::{add, begin};
use std::alloc::Global;
use stun_proto_client::long_term::LongTermClientAuth;
use stun_types_attributes::error_code::ErrorCode;
use stun_types_base::memory::NoMemory;
use stun_types_wire::class::MessageClass;
use stun_types_wire::error::StunWriteError;
use stun_types_wire::transaction::TransactionId;
use stun_types_write::vec::MessageWriteVec;
use stun_types_write::writer::MessageWrite;
use turn_types_attributes::registry::CONNECTION_ATTEMPT;

/// The client's response to a CONNECTION_ATTEMPT.
#[derive(Clone, Copy, Debug, PartialEq, Eq)]
pub enum AttemptAnswer {
    /// Success: the caller has opened a socket for the connection.
    Accepted,
    /// Error 400: the request names no connection ID or no peer, or no allocation could have the
    /// connection.
    BadRequest,
    /// Error 446: the client already has a connection to the peer, or one that waits for its
    /// socket.
    AlreadyExists,
    /// Error 447: the caller has no socket for the connection, or too many connections wait for
    /// theirs.
    Failed,
}

/// Returns the message class of the response.
fn class_of(answer: AttemptAnswer) -> MessageClass
    ensures { result ≡ answer_class answer }
{
    match answer {
        AttemptAnswer::Accepted => MessageClass::Success,
        _ => MessageClass::Error,
    }
}

/// Adds an ERROR-CODE with one of the codes of these responses and the reason phrase of that code.
/// Fails with `NoMemory` if memory runs out.
fn add_code(alloc: Global, draft: &mut MessageWriteVec, code: u16) -> Result<(), NoMemory>
    requires is_open { IsOpen (own_draft draft.old) }
    requires room { length (own_draft draft.old).bytes ≤ most_before }
    requires code { is_answer_code code }
    ensures { OnOk result (IsGrown (error_attribute code ∷ []) (own_draft draft.old)
        (own_draft draft.new)) }
{
    let code = match ErrorCode::builder(code).build(alloc) {
        Ok(code) => code,
        Err(e) => match e {
            StunWriteError::NoMemory => return Err(NoMemory),
            // Not reached: the code is one of an error, and its reason is short.
            _ => unreachable!(),
        },
    };
    add(draft, &code, &code)
}

/// Returns the response to the request with this transaction ID, not signed yet. Fails with
/// `NoMemory` if memory runs out.
fn write_plain(
    alloc: Global,
    transaction_id: TransactionId,
    answer: AttemptAnswer,
) -> Result<MessageWriteVec, NoMemory>
    ensures answer { IfOk result (λ draft. IsAnswer answer transaction_id (own_draft draft)) }
    ensures short { IfOk result (λ draft. length (own_draft draft).bytes ≤ most_before) }
{
    let mut draft = begin(alloc, class_of(answer), CONNECTION_ATTEMPT, transaction_id)?;
    match answer {
        AttemptAnswer::Accepted => {}
        AttemptAnswer::BadRequest => add_code(alloc, &mut draft, ErrorCode::BAD_REQUEST)?,
        AttemptAnswer::AlreadyExists => {
            add_code(alloc, &mut draft, ErrorCode::CONNECTION_ALREADY_EXISTS)?;
        }
        AttemptAnswer::Failed => {
            add_code(alloc, &mut draft, ErrorCode::CONNECTION_TIMEOUT_OR_FAILURE)?;
        }
    }
    Ok(draft)
}

/// Returns the bytes of the response to the CONNECTION_ATTEMPT with this transaction ID, signed by
/// the client's authenticator (RFC 8489, section 9.2.5). Fails with `NoMemory` if memory runs out.
pub fn write_answer(
    alloc: Global,
    auth: &LongTermClientAuth,
    transaction_id: TransactionId,
    answer: AttemptAnswer,
) -> Result<Vec<u8>, NoMemory>
    requires { HasShortTexts auth.now }
    ensures { IfOk result (λ bytes. bytes.items ≡ answer_text auth.now answer transaction_id) }
{
    let draft = write_plain(alloc, transaction_id, answer)?;
    let signed = auth.sign_outgoing_message_unchecked(draft)?;
    Ok(signed.finish())
}

//! Decoding and signing of messages.

ghost use Rattle.std.specs.Prelude.{◌≡◌, IfErr, IfOk, IsSomeAnd, MatchResult, Some};
ghost use Rattle.stun_types.specs.Grammar.{refusal};
ghost use Rattle.stun_types.specs.ValueReading.{value_refusal};
ghost use Rattle.turn_types.specs.TurnRegistry.{lifetime_kind};
ghost use Rattle.test_callers.specs.Requested.{signed_text};
ghost use Rattle.test_callers.specs.Looked.{IsLifetime, Reports, first_visible};

use std::alloc::Global;
use stun_types::attribute::{MessageIntegrity, Nonce, RawAttribute, Realm, Username};
use stun_types::message::{
    IntegrityAlgorithm, LongTermKeyCredentials, Message, MessageClass, MessageType,
    MessageWriteVec, Method, StunParseError, StunWriteError, TransactionId, add_as,
};
use stun_types::prelude::{AttributeStaticType, MessageWrite, MessageWriteExt};
use turn_types::attribute::{Lifetime, RequestedTransport};
use turn_types::message::ALLOCATE;

/// What is decoded from a message: its type, its transaction ID, whether it is signed, and its
/// user.
#[derive(Drop)]
pub(crate) struct Looked<'a> {
    pub(crate) class: MessageClass,
    pub(crate) method: Method,
    pub(crate) number: TransactionId,
    pub(crate) is_signed: bool,
    pub(crate) user: Option<RawAttribute<'a>>,
}

/// Decodes a message. Fails with what is wrong if the bytes are no message.
pub(crate) fn look(bytes: &[u8]) -> Result<Looked<'_>, StunParseError>
    ensures { MatchResult result (Reports bytes.now) (λ error. refusal bytes.now ≡ Some error) }
{
    let message = Message::from_bytes(bytes)?;
    Ok(Looked {
        class: message.class(),
        method: message.method(),
        number: message.transaction_id(),
        is_signed: message.has_attribute(MessageIntegrity::TYPE),
        user: message.raw_attribute(Username::TYPE),
    })
}

/// Returns the ALLOCATE request of a user with this nonce, signed with HMAC-SHA1. Fails if a text
/// is too long for its attribute.
pub(crate) fn sign(
    alloc: Global,
    transaction_id: TransactionId,
    user: &LongTermKeyCredentials,
    nonce: &str,
) -> Result<Vec<u8>, StunWriteError>
    ensures { IfOk result (λ bytes. bytes.items ≡ signed_text transaction_id user.now nonce.now) }
{
    let transport = RequestedTransport::new(RequestedTransport::UDP);
    let name = Username::new(alloc, user.username())?;
    let realm = Realm::new(alloc, user.realm())?;
    let nonce = Nonce::new(alloc, nonce)?;
    let mtype = MessageType::from_class_method(MessageClass::Request, ALLOCATE);
    let mut writer = Message::builder(mtype, transaction_id, MessageWriteVec::new(alloc))?;
    add_as(&mut writer, &transport, &transport)?;
    add_as(&mut writer, &name, &name)?;
    add_as(&mut writer, &realm, &realm)?;
    add_as(&mut writer, &nonce, &nonce)?;
    let key = user.make_key(IntegrityAlgorithm::Sha1);
    writer.add_message_integrity_with_key(&key, IntegrityAlgorithm::Sha1)?;
    Ok(writer.finish())
}

/// Returns the seconds in a message's LIFETIME: those requested, or those granted. Returns `None`
/// if it has no visible LIFETIME. Fails if the first visible one is malformed.
pub(crate) fn lifetime(alloc: Global, message: &Message) -> Result<Option<u32>, StunParseError>
    ensures reported { IfOk result (IsLifetime (first_visible lifetime_kind message.now)) }
    ensures refused { IfErr result (λ error. IsSomeAnd (first_visible lifetime_kind message.now)
        (λ a. value_refusal lifetime_kind 4 4 a ≡ Some error)) }
{
    if !message.has_attribute(Lifetime::TYPE) {
        return Ok(None);
    }
    let lifetime = message.attribute::<Lifetime>(alloc)?;
    Ok(Some(lifetime.seconds()))
}

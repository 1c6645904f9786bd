//! Calls of a client, and the server core's replies to what it sends.

ghost use Rattle.std.specs.Prelude.{◌≡◌, IfOk, IsSome, IsTrue};
ghost use Rattle.stun_types_wire.specs.Attributes.{kind_at};
ghost use Rattle.stun_types_wire.specs.declared.class.MessageClass.TheVariants.{Success};
ghost use Rattle.stun_types_wire.specs.Types.{class_of};
ghost use Rattle.turn_client_proto.specs.StunProtoClient.Challenges.{asks_again, challenge_visible};
ghost use Rattle.turn_desk_event.specs.declared.answer.Answer.TheVariants.{Nothing};
ghost use Rattle.turn_desk_event.specs.declared.event.Event.TheVariants.{Draw};
ghost use Rattle.test_driver.specs.Driving.{Happened};
ghost use Rattle.test_honest_network.specs.Replies.{IsBrought, IsCall, IsGiven, IsKind, IsPoll, IsReplied, IsTaken};

use std::alloc::Global;
use stun_proto_auth::claim::{Claim, error_code_of};
use stun_types_base::data::Data;
use stun_types_base::instant::Instant;
use stun_types_base::memory::NoMemory;
use stun_types_base::transmit::Transmit;
use stun_types_message::parsed::Message;
use stun_types_wire::class::MessageClass;
use stun_types_wire::registry::{STALE_NONCE, UNAUTHORIZED};
use test_driver::driving::happen;
use turn_desk_core::decision::Decision;
use turn_desk_event::answer::Answer;
use turn_desk_event::event::{ClientCall, Event};
use turn_desk_world::world::World;

/// The kind of reply from a server core.
#[derive(Clone, Copy)]
pub(crate) enum Reply {
    /// No reply, or one that is neither a success response nor a challenge.
    Neither,
    /// A success response.
    Success,
    /// A challenge.
    Challenge,
}

/// Makes a call of the client and returns whether it succeeded.
pub(crate) fn calls(world: &mut World, what: ClientCall, now: Instant) -> Result<bool, NoMemory>
    ensures { IfOk result (λ calls. IsTrue calls → IsCall what now world.old world.new) }
{
    match happen(world, Event::Call(what, now))? {
        Answer::Done => Ok(true),
        _ => Ok(false),
    }
}

/// Takes one event of the client if one is queued.
pub(crate) fn takes(world: &mut World, now: Instant) -> Result<(), NoMemory>
    ensures { IfOk result (λ taken. IsTaken now world.old world.new) }
{
    happen(world, Event::Call(ClientCall::PollEvent, now))?;
    Ok(())
}

/// Polls the client for a message and returns whether it has nothing to send.
pub(crate) fn draws_nothing(world: &mut World, now: Instant) -> Result<bool, NoMemory>
    ensures { IfOk result (λ none.
        IsTrue none → Happened (Draw now) world.old Nothing world.new) }
{
    match happen(world, Event::Draw(now))? {
        Answer::Nothing => Ok(true),
        _ => Ok(false),
    }
}

/// Polls the client and returns whether it asks for a socket.
pub(crate) fn polls(world: &mut World, now: Instant) -> Result<bool, NoMemory>
    ensures { IfOk result (λ polls. IsTrue polls → IsPoll now world.old world.new) }
{
    match happen(world, Event::Call(ClientCall::Poll, now))? {
        Answer::Socket { .. } => Ok(true),
        _ => Ok(false),
    }
}

/// Polls the client for a message, delivers it to the server core, and delivers the reply to the
/// client, all at one time.
///
/// The server core receives this decision. Its random words come from another seed than in the
/// handshake, so a new nonce differs, too.
pub(crate) fn replies(
    alloc: Global,
    world: &mut World,
    now: Instant,
    decision: Decision,
) -> Result<Reply, NoMemory>
    ensures { IfOk result (λ reply. IsReplied now decision world.old reply world.new) }
{
    match happen(world, Event::Draw(now))? {
        Answer::Transmit(sent) => bring(alloc, world, &sent, now, decision),
        _ => Ok(Reply::Neither),
    }
}

/// Delivers to the server core what a client sent, and to the client what the server core replies.
fn bring(
    alloc: Global,
    world: &mut World,
    sent: &Transmit<Data<'_>>,
    now: Instant,
    decision: Decision,
) -> Result<Reply, NoMemory>
    ensures { IfOk result (λ reply. IsBrought sent.now now decision world.old reply world.new) }
{
    let requested = Event::ToDesk {
        bytes: Vec::from_slice(alloc, sent.bytes.as_slice())?,
        from: sent.from,
        now,
        decision,
        seed: [1; 32],
    };
    match happen(world, requested)? {
        Answer::Reply(bytes) => give(world, bytes, sent, now),
        _ => Ok(Reply::Neither),
    }
}

/// Delivers the server core's reply to the client and returns its kind.
fn give(
    world: &mut World,
    bytes: Vec<u8>,
    sent: &Transmit<Data<'_>>,
    now: Instant,
) -> Result<Reply, NoMemory>
    ensures { IfOk result (λ reply. IsGiven sent.now now bytes world.old reply world.new) }
{
    let kind = kind_of(bytes.as_slice());
    let given = Event::ToClient {
        bytes,
        from: sent.to,
        to: sent.from,
        now,
    };
    happen(world, given)?;
    Ok(kind)
}

/// Returns whether bytes are a success response.
pub(crate) fn is_success(bytes: &[u8]) -> bool
    ensures { IsTrue result → class_of (kind_at bytes.now) ≡ Success }
{
    match Message::from_bytes(bytes) {
        Ok(message) => message.has_class(MessageClass::Success),
        Err(_) => false,
    }
}

/// Returns the kind of reply that a server core's bytes are.
fn kind_of(bytes: &[u8]) -> Reply
    ensures { IsKind bytes.now result }
{
    match Message::from_bytes(bytes) {
        Ok(message) => {
            if message.has_class(MessageClass::Success) {
                Reply::Success
            } else if is_challenge(&message) {
                Reply::Challenge
            } else {
                Reply::Neither
            }
        }
        Err(_) => Reply::Neither,
    }
}

/// Returns whether a message is a challenge (RFC 8489, section 9.2.5).
fn is_challenge(message: &Message<'_>) -> bool
    ensures { IsTrue result → IsSome (challenge_visible message.now) }
{
    if !asks_again(message) {
        return false;
    }
    let claim = Claim::of(message);
    if claim.realm().is_none() {
        return false;
    }
    claim.nonce().is_some()
}

/// Returns whether a message is an error response with code 401 or 438.
fn asks_again(message: &Message<'_>) -> bool
    ensures { result ≡ asks_again message.now }
{
    if message.class() != MessageClass::Error {
        return false;
    }
    match error_code_of(message) {
        Some(code) => code == UNAUTHORIZED || code == STALE_NONCE,
        None => false,
    }
}

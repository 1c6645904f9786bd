//! What a client notes of the messages that it handles: why its events happened, its own address
//! as the server saw it, and the server to which it was redirected; and which allocations expired.
//! What it notes changes nothing that it does otherwise.

ghost use Rattle.std.specs.Option.{option_copied};
ghost use Rattle.std.specs.Prelude.{◌≡◌, IfOk, length};
ghost use Rattle.stun_types_wire.specs.Attributes.{kind_at};
ghost use Rattle.stun_types_wire.specs.Types.{class_of};
ghost use Rattle.turn_client_proto_core.specs.Responding.{is_error_class};
ghost use Rattle.turn_client_proto_recv.specs.Notes.{IsCaused, IsNotedAt, IsNotedBy, IsRedirectNoted, after_deletion, after_event, before_of, cause_at, cause_of, cause_signed, cause_unended, cause_unsigned, has_ended, is_allocated, is_challenge, is_redirected, no_notes, rejected_or, unless_deleted};

use std::alloc::Global;
use std::net::SocketAddr;
use stun_types_base::memory::NoMemory;
use stun_types_message::parsed::Message;
use stun_types_wire::class::MessageClass;
use stun_types_wire::registry::{NONCE, REALM, STALE_NONCE, TRY_ALTERNATE, UNAUTHORIZED};
use turn_client_proto_api::cause::{MessageText, TurnCause};
use turn_client_proto_api::causes::Causes;
use turn_client_proto_api::event::TurnEvent;
use turn_client_proto_api::expired::Expired;
use turn_client_proto_core::protocol::{Phase, Protocol};
use turn_client_proto_messages::noted;
use turn_client_proto_messages::reported::{first_code, lifetime_reported};

/// What is noted of a client before it handles a message.
#[derive(Clone, Copy, Debug)]
pub struct Before {
    /// An ALLOCATE was sent without credentials, and none with them.
    pub is_unsigned: bool,
    /// An ALLOCATE was sent with credentials, and the server has not allocated.
    pub is_allocating: bool,
    /// A request with the message's transaction ID is outstanding.
    pub is_awaited: bool,
    /// The number of queued events.
    pub events: usize,
}

impl Before {
    /// Returns what is noted before a message is handled.
    pub fn of(protocol: &Protocol, message: &Message<'_>) -> Before
        ensures { result ≡ before_of protocol.now message.now }
    {
        Before {
            is_unsigned: matches!(protocol.phase, Phase::InitialSent(_)),
            is_allocating: matches!(protocol.phase, Phase::Authenticating(_)),
            is_awaited: protocol.is_awaited(message),
            events: protocol.events.len(),
        }
    }
}

/// What a client notes.
#[derive(Debug, Drop)]
pub struct Notes {
    /// Why its events happened.
    pub causes: Causes,
    /// The client's own address as the server saw it: the XOR-MAPPED-ADDRESS of the signed response
    /// that allocated (RFC 8656, section 7.3).
    pub mapped: Option<SocketAddr>,
    /// The RESERVATION-TOKEN of that response (RFC 8656, section 18.10), its first byte the most
    /// significant.
    pub reservation: Option<u64>,
    /// The ALTERNATE-SERVER of the response 300 that ended the client (RFC 8489, section 10).
    pub alternate: Option<SocketAddr>,
    /// The ALTERNATE-DOMAIN of that response; `None` too if memory for it ran out.
    pub domain: Option<MessageText>,
    /// Whether `delete` requested the end of the allocations. It is the cause of whatever fails or
    /// ends afterwards.
    pub is_deleted: bool,
    /// The allocations whose time was over, and which the user was not told of yet.
    pub expired: Expired,
}

impl Notes {
    /// Creates notes of nothing, which hold no memory.
    pub fn new(alloc: Global) -> Notes
        ensures { result ≡ no_notes }
    {
        Notes {
            causes: Causes::new(alloc),
            mapped: None,
            reservation: None,
            alternate: None,
            domain: None,
            is_deleted: false,
            expired: Expired::new(),
        }
    }

    /// Notes a message that the client handled. `protocol` is the client afterwards.
    pub fn note(&mut self, before: Before, message: &Message<'_>, protocol: &Protocol)
        ensures { IsNotedBy before message.now protocol.now self.old self.new }
    {
        if is_allocated(before, protocol) {
            self.mapped = noted::mapped_reported(message);
            self.reservation = noted::reservation_reported(message);
        }
        if is_redirected(before, message, protocol) {
            self.note_redirect(message, protocol.alloc);
        }
        if protocol.events.len() <= before.events {
            return;
        }
        if let Ok(cause) = cause_noted(self.is_deleted, before, message, protocol) {
            self.causes
                .push(before.events, protocol.events.len(), cause);
        }
    }

    /// Notes the other server that a message names.
    fn note_redirect(&mut self, message: &Message<'_>, alloc: Global)
        ensures { IsRedirectNoted message.now self.old self.new }
    {
        self.alternate = noted::alternate_reported(message);
        self.domain = match noted::domain_reported(alloc, message) {
            Ok(domain) => domain,
            Err(NoMemory) => None,
        };
    }

    /// Notes the cause of the events that a call queued. There were `before` events, and `protocol`
    /// is the client afterwards.
    pub fn note_call(&mut self, before: usize, protocol: &Protocol, cause: TurnCause)
        ensures { IsCaused before cause protocol.now self.old self.new }
    {
        self.causes.push(before, protocol.events.len(), cause);
    }

    /// Notes that `delete` requested the end of the allocations.
    pub fn note_deletion(&mut self)
        ensures { self.new ≡ after_deletion self.old }
    {
        self.is_deleted = true;
    }

    /// Goes on to the cause of the event that was taken from the queue, if there was one.
    pub fn note_event(&mut self, event: Option<TurnEvent>)
        ensures { self.new ≡ after_event event self.old }
    {
        if let Some(event) = event {
            self.causes.advance(event);
        }
    }

    /// Returns the ALTERNATE-DOMAIN that is noted.
    pub fn domain(&self) -> Option<&str>
        ensures { option_copied result ≡ self.now.domain }
    {
        match &self.domain {
            Some(domain) => Some(domain.as_str()),
            None => None,
        }
    }

    /// Notes a message that the client handled on the socket of a connection that is being bound.
    /// There were `before` events, and `protocol` is the client afterwards.
    pub fn note_at(&mut self, before: usize, message: &Message<'_>, protocol: &Protocol)
        ensures { IsNotedAt before message.now protocol.now self.old self.new }
    {
        if protocol.events.len() <= before {
            return;
        }
        if let Ok(cause) = cause_noted_at(self.is_deleted, protocol.alloc, message) {
            self.causes.push(before, protocol.events.len(), cause);
        }
    }
}

/// Returns whether the message ended an outstanding transaction.
fn has_ended(before: Before, message: &Message<'_>, protocol: &Protocol) -> bool
    ensures { result ≡ has_ended before message.now protocol.now }
{
    before.is_awaited && !protocol.is_awaited(message)
}

/// Returns whether the server allocated by the message.
fn is_allocated(before: Before, protocol: &Protocol) -> bool
    ensures { result ≡ is_allocated before protocol.now }
{
    before.is_allocating && protocol.is_authenticated()
}

/// Returns whether a message is an error response with code 300 that ended the client.
fn is_redirected(before: Before, message: &Message<'_>, protocol: &Protocol) -> bool
    ensures { result ≡ is_redirected before message.now protocol.now }
{
    has_ended(before, message, protocol)
        && matches!(protocol.phase, Phase::Ended)
        && is_error(message)
        && first_code(message) == Some(TRY_ALTERNATE)
}

/// Returns whether a message is an error response.
fn is_error(message: &Message<'_>) -> bool
    ensures { result ≡ is_error_class (class_of (kind_at message.now)) }
{
    matches!(message.class(), MessageClass::Error)
}

/// Returns whether a message is an error response with code 401 or 438 (RFC 8489, section 9.2.5).
fn is_challenge(message: &Message<'_>) -> bool
    ensures { result ≡ is_challenge message.now }
{
    match first_code(message) {
        Some(code) => is_error(message) && (code == UNAUTHORIZED || code == STALE_NONCE),
        None => false,
    }
}

/// Returns the cause that is noted of a message. `is_deleted` says whether `delete` was called
/// before, and `protocol` is the client afterwards. Fails with `NoMemory` if an allocation fails.
fn cause_noted(
    is_deleted: bool,
    before: Before,
    message: &Message<'_>,
    protocol: &Protocol,
) -> Result<TurnCause, NoMemory>
    ensures { IfOk result (λ cause.
        cause ≡ unless_deleted is_deleted (cause_of before message.now protocol.now)) }
{
    if is_deleted {
        return Ok(TurnCause::Deleted);
    }
    cause_of(protocol.alloc, before, message, protocol)
}

/// Returns the cause that is noted of a message on the socket of a connection that is being bound.
/// Fails with `NoMemory` if an allocation fails.
fn cause_noted_at(
    is_deleted: bool,
    alloc: Global,
    message: &Message<'_>,
) -> Result<TurnCause, NoMemory>
    ensures { IfOk result (λ cause. cause ≡ unless_deleted is_deleted (cause_at message.now)) }
{
    if is_deleted {
        return Ok(TurnCause::Deleted);
    }
    rejected_or(alloc, message, false, TurnCause::Unusable)
}

/// Returns why a message that the client handled queued events that report that something failed.
/// `protocol` is the client afterwards. Fails with `NoMemory` if an allocation fails.
fn cause_of(
    alloc: Global,
    before: Before,
    message: &Message<'_>,
    protocol: &Protocol,
) -> Result<TurnCause, NoMemory>
    ensures { IfOk result (λ cause. cause ≡ cause_of before message.now protocol.now) }
{
    if !has_ended(before, message, protocol) {
        return cause_unended(alloc, message);
    }
    if before.is_unsigned {
        return cause_unsigned(alloc, message);
    }
    cause_signed(alloc, before.is_allocating, message)
}

/// Returns the cause if no transaction ended.
fn cause_unended(alloc: Global, message: &Message<'_>) -> Result<TurnCause, NoMemory>
    ensures { IfOk result (λ cause. cause ≡ cause_unended message.now) }
{
    if is_challenge(message) {
        rejected_or(alloc, message, false, TurnCause::Unusable)
    } else {
        Ok(TurnCause::Integrity)
    }
}

/// Returns the cause if the response to a request without credentials ended its transaction.
fn cause_unsigned(alloc: Global, message: &Message<'_>) -> Result<TurnCause, NoMemory>
    ensures { IfOk result (λ cause. cause ≡ cause_unsigned message.now) }
{
    if is_challenge(message) && message.has_attribute(REALM) && message.has_attribute(NONCE) {
        return Ok(TurnCause::NoCommonAlgorithm);
    }
    rejected_or(alloc, message, false, TurnCause::Unusable)
}

/// Returns the cause if a validated response ended its transaction. `is_allocating` says whether it
/// is the response to an ALLOCATE.
fn cause_signed(
    alloc: Global,
    is_allocating: bool,
    message: &Message<'_>,
) -> Result<TurnCause, NoMemory>
    ensures { IfOk result (λ cause. cause ≡ cause_signed is_allocating message.now) }
{
    if is_error(message) {
        return rejected_or(alloc, message, true, TurnCause::Unusable);
    }
    if is_allocating && lifetime_reported(message).is_some() && noted::is_relaying(message) {
        return Ok(TurnCause::OtherFamily);
    }
    Ok(TurnCause::Unusable)
}

/// Returns that the server rejected the request, if the message is an error response with a code,
/// else another cause.
fn rejected_or(
    alloc: Global,
    message: &Message<'_>,
    is_signed: bool,
    otherwise: TurnCause,
) -> Result<TurnCause, NoMemory>
    ensures { IfOk result (λ cause. cause ≡ rejected_or is_signed otherwise message.now) }
{
    if !is_error(message) {
        return Ok(otherwise);
    }
    let Some(code) = first_code(message) else {
        return Ok(otherwise);
    };
    let reason = noted::reason_reported(alloc, message)?;
    Ok(TurnCause::Rejected {
        code,
        reason,
        is_signed,
    })
}

//! Handling of messages before the server has allocated (RFC 8656, sections 7.3 and 7.4).

ghost use Rattle.std.specs.Prelude.{◌≡◌, ◌++◌, ◌∷◌, [], ℕ, IfOk, OnOk, OnErr, Some, None, true};
ghost use Rattle.stun_proto_agent.specs.Handling.{is_awaited, is_response};
ghost use Rattle.stun_proto_auth.specs.Claims.{code_visible};
ghost use Rattle.stun_types_wire.specs.Attributes.{kind_at};
ghost use Rattle.stun_types_wire.specs.Grammar.{number_at};
ghost use Rattle.stun_types_wire.specs.Types.{class_of};
ghost use Rattle.turn_client_proto_messages.specs.ReportedRequests.{IsLawfulAllocate};
ghost use Rattle.turn_client_proto_messages.specs.declared.request.TurnRequest.TheVariants.{Allocate};
ghost use Rattle.turn_client_proto_core.specs.Asking.{requested};
ghost use Rattle.turn_client_proto_core.specs.Authenticating.{IsAccepted, IsAllocateAnswered, IsChallenged, IsErrorAnswered, IsFirstJudged, IsSignedJudged, IsUnauthenticated, allocates_again, allocates_other, ends_unsigned, family_left, is_final_error, numbers_sent, other_family};
ghost use Rattle.turn_client_proto_core.specs.Ending.{IsUnderWay};
ghost use Rattle.turn_client_proto_core.specs.Numbering.{IsNextNumber, after_number};
ghost use Rattle.turn_client_proto_core.specs.Receiving.{GrowsBy, GrowsFirst, GrowsSigned, IsFollowed};
ghost use Rattle.turn_client_proto_core.specs.Responding.{accepted, answered, is_tired};

use crate::ending::end;
use crate::protocol::{Phase, Protocol};
use std::alloc::Global;
use std::mem;
use stun_proto_auth::claim::error_code_of;
use stun_proto_client::error::LongTermClientAuthError;
use stun_proto_client::validation::LongTermClientValidation;
use stun_types_base::family::AddressFamily;
use stun_types_base::instant::Instant;
use stun_types_base::list::ListOf;
use stun_types_base::memory::NoMemory;
use stun_types_message::parsed::Message;
use stun_types_wire::class::MessageClass;
use stun_types_wire::registry::{ADDRESS_FAMILY_NOT_SUPPORTED, BAD_REQUEST};
use stun_types_wire::transaction::TransactionId;
use turn_client_proto_api::event::TurnEvent;
use turn_client_proto_api::families::RequestedFamilies;
use turn_client_proto_messages::laws::proof_requests_are_lawful;
use turn_client_proto_messages::reported::first_code;
use turn_client_proto_messages::request::TurnRequest;

/// Returns IPv6 if both families were requested: the family to try after the server had no IPv4
/// address. Returns `None` otherwise.
fn other_family(families: RequestedFamilies) -> Option<AddressFamily>
    ensures { result ≡ other_family families }
{
    if families.contains(AddressFamily::IPV4) && families.contains(AddressFamily::IPV6) {
        Some(AddressFamily::IPV6)
    } else {
        None
    }
}

/// Returns the transaction IDs of the ALLOCATEs that were sent. Allocates no memory.
fn numbers_sent(alloc: Global, phase: Phase) -> ListOf<TransactionId>
    ensures { result ≡ numbers_sent phase }
{
    match phase {
        Phase::InitialSent(numbers) | Phase::Authenticating(numbers) => numbers,
        Phase::Initial | Phase::Authenticated | Phase::Ended => ListOf::new(alloc),
    }
}

/// Returns whether a response is an error that ends a request sent without credentials: one with a
/// code from 300 to 499, but not 400, which is to be discarded where no integrity attribute
/// protects it (RFC 8489, sections 6.3.4 and 9.2.5). After other errors the request may be sent
/// again.
fn is_final_error(message: &Message<'_>) -> bool
    ensures { result ≡ is_final_error (class_of (kind_at message.now)) (code_visible message.now) }
{
    if message.class() != MessageClass::Error {
        return false;
    }
    match error_code_of(message) {
        Some(code) => (300..500).contains(&code) && code != BAD_REQUEST,
        None => false,
    }
}

impl Protocol {
    /// Queues another ALLOCATE, signed with the credentials.
    fn allocate_again(&mut self, now: Instant) -> Result<(), NoMemory>
        ensures ok { OnOk result ((number : ℕ) × IsNextNumber self.old number
            × (self.new ≡ allocates_again number now self.old)) }
        ensures lawful { OnOk result (IsLawfulAllocate self.old.families self.old.options) }
        ensures err { OnErr result (IsUnderWay self.old self.new) }
    {
        let number = self.generate_id()?;
        let request = TurnRequest::Allocate(self.allocates, self.families, self.options);
        proof_requests_are_lawful(&request);
        self.ask(number, request, now)?;
        let phase = mem::replace(&mut self.phase, Phase::Ended);
        let mut numbers = numbers_sent(self.alloc, phase);
        numbers.push(number)?;
        self.phase = Phase::Authenticating(numbers);
        Ok(())
    }

    /// Handles a challenge that can be answered (RFC 8489, section 9.2.5): sends the ALLOCATE
    /// again, or ends the client after too many challenges. Ignores it if its transaction isn't
    /// outstanding.
    fn answer_challenge(&mut self, message: &Message<'_>, now: Instant) -> Result<bool, NoMemory>
        ensures ok { IfOk result (λ handled.
            IsChallenged self.old message.now now handled self.new) }
        ensures err { OnErr result (IsUnderWay self.old self.new) }
    {
        if !self.is_awaited(message) {
            return Ok(false);
        }
        if self.is_tired() {
            end(self)?;
            return Ok(true);
        }
        self.allocate_again(now)?;
        self.count_challenge(message)?;
        Ok(true)
    }

    /// Ends the client on a response to the first ALLOCATE that is no challenge, or a challenge
    /// that can't be answered. Ignores it if its transaction isn't outstanding, or if the client is
    /// hardened and the response is no final error.
    fn refuse_unauthenticated(&mut self, message: &Message<'_>) -> Result<bool, NoMemory>
        ensures ok { IfOk result (λ handled. IsUnauthenticated self.old message.now handled
            self.new) }
        ensures err { OnErr result (IsUnderWay self.old self.new) }
        ensures memory { OnErr result (is_awaited self.old.agent message.now ≡ true) }
    {
        if !(self.is_awaited(message) && self.ends_unsigned(message)) {
            return Ok(false);
        }
        self.answer(message)?;
        end(self)?;
        Ok(true)
    }

    /// Returns whether a response that nothing authenticates may end the client: any may, unless
    /// the client is hardened; then only a final error may.
    fn ends_unsigned(&self, message: &Message<'_>) -> bool
        ensures { result ≡ ends_unsigned self.now message.now }
    {
        !self.auth.is_hardened() || is_final_error(message)
    }

    /// Handles a response before any ALLOCATE was signed.
    pub(crate) fn process_first(
        &mut self,
        message: &Message<'_>,
        now: Instant,
    ) -> Result<bool, NoMemory>
        ensures ok { IfOk result (λ handled.
            IsFollowed IsFirstJudged self.old message.now now handled self.new) }
        ensures err { OnErr result (IsUnderWay self.old self.new) }
        ensures memory { OnErr result (GrowsBy GrowsFirst self.old message.now) }
    {
        match self.auth.validate_incoming_message(message) {
            Ok(LongTermClientValidation::ResendRequest(_)) => self.answer_challenge(message, now),
            Ok(LongTermClientValidation::Validated(_)) => {
                end(self)?;
                Ok(false)
            }
            Err(LongTermClientAuthError::NoMemory) => Err(NoMemory),
            Err(_) => self.refuse_unauthenticated(message),
        }
    }

    /// Handles a response to one of the ALLOCATEs after one was signed.
    pub(crate) fn process_signed(
        &mut self,
        message: &Message<'_>,
        now: Instant,
    ) -> Result<bool, NoMemory>
        ensures ok { IfOk result (λ handled.
            IsFollowed IsSignedJudged self.old message.now now handled self.new) }
        ensures err { OnErr result (IsUnderWay self.old self.new) }
        ensures memory { OnErr result (GrowsBy GrowsSigned self.old message.now) }
    {
        match self.auth.validate_incoming_message(message) {
            Ok(LongTermClientValidation::ResendRequest(_)) => self.answer_challenge(message, now),
            Ok(LongTermClientValidation::Validated(_)) => self.take_response(message, now),
            Err(LongTermClientAuthError::IntegrityFailed(_)) => {
                if self.auth.is_hardened() {
                    return Ok(false);
                }
                end(self)?;
                Ok(true)
            }
            Err(LongTermClientAuthError::NoMemory) => Err(NoMemory),
            Err(_) => Ok(false),
        }
    }

    /// Handles a validated response to an ALLOCATE: accepts it if its transaction is outstanding.
    fn take_response(&mut self, message: &Message<'_>, now: Instant) -> Result<bool, NoMemory>
        ensures ok { IfOk result (λ handled.
            IsAccepted self.old message.now now handled self.new) }
        ensures err { OnErr result (IsUnderWay self.old self.new) }
        ensures memory { OnErr result (is_awaited self.old.agent message.now ≡ true) }
    {
        let is_fresh = self.is_awaited(message);
        if !is_fresh {
            return Ok(true);
        }
        self.accept(message)?;
        self.take_answer(message, now)
    }

    /// Handles an accepted response to a signed ALLOCATE, by its class.
    fn take_answer(&mut self, message: &Message<'_>, now: Instant) -> Result<bool, NoMemory>
        ensures ok { IfOk result (λ handled. IsAllocateAnswered
            (class_of (kind_at message.now)) self.old message.now now handled self.new) }
        ensures err { OnErr result (IsUnderWay self.old self.new) }
    {
        match message.class() {
            MessageClass::Success => self.take_success(message, now),
            MessageClass::Error => self.take_error(message, now),
            MessageClass::Request | MessageClass::Indication => Ok(true),
        }
    }

    /// Returns the family to request after an error response: the one that is left if the error is
    /// 440 (Address Family not Supported).
    fn family_left(&self, message: &Message<'_>) -> Option<AddressFamily>
        ensures { result ≡ family_left self.now message.now }
    {
        match first_code(message) {
            Some(ADDRESS_FAMILY_NOT_SUPPORTED) => other_family(self.families),
            _ => None,
        }
    }

    /// Handles an accepted error response to a signed ALLOCATE (RFC 8656, section 7.4): requests
    /// the family that is left, or ends the client if there is none.
    fn take_error(&mut self, message: &Message<'_>, now: Instant) -> Result<bool, NoMemory>
        ensures ok { IfOk result (λ handled. IsErrorAnswered
            (family_left self.old message.now) self.old now handled self.new) }
        ensures err { OnErr result (IsUnderWay self.old self.new) }
    {
        let Some(family) = self.family_left(message) else {
            end(self)?;
            return Ok(true);
        };
        self.allocate_other(family, now)?;
        Ok(true)
    }

    /// Drops IPv4, queues the event for that, and queues an ALLOCATE for the family that is left.
    fn allocate_other(&mut self, family: AddressFamily, now: Instant) -> Result<(), NoMemory>
        ensures ok { OnOk result ((number : ℕ) × IsNextNumber self.old number
            × (self.new ≡ allocates_other family number now self.old)) }
        ensures lawful { OnOk result (IsLawfulAllocate (family ∷ []) self.old.options) }
        ensures err { OnErr result (IsUnderWay self.old self.new) }
    {
        let number = self.generate_id()?;
        self.families = RequestedFamilies::only(family);
        let failure = TurnEvent::AllocationCreateFailed(AddressFamily::IPV4);
        self.events.push_back(failure)?;
        let request = TurnRequest::Allocate(self.allocates, self.families, self.options);
        proof_requests_are_lawful(&request);
        self.ask(number, request, now)?;
        let mut numbers = ListOf::new(self.alloc);
        numbers.push(number)?;
        self.phase = Phase::Authenticating(numbers);
        Ok(())
    }
}

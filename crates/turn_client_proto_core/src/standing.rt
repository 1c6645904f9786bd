//! Handling of messages after the server has allocated (RFC 8656, section 8.3).

ghost use Rattle.std.specs.Prelude.{◌≡◌, ℕ, IfOk, OnOk, OnErr, Some, position, true};
ghost use Rattle.stun_types_wire.specs.Grammar.{number_at};
ghost use Rattle.turn_client_proto_core.specs.Ending.{IsUnderWay};
ghost use Rattle.turn_client_proto_core.specs.Numbering.{IsNextNumber, IsUnused};
ghost use Rattle.turn_client_proto_core.specs.Receiving.{GrowsBy, GrowsStanding, IsFollowed};
ghost use Rattle.turn_client_proto_core.specs.Standing.{IsConnectResponded, IsJudgedStanding, IsRechallenged, IsTakenUp, after_refresh, asks_again, counts, deallocated, is_refreshed, refreshed, request_again};
ghost use Rattle.turn_client_proto_allocation.specs.PendingRequests.{addresses_for, awaits_reply};
ghost use Rattle.turn_client_proto_messages.specs.ReportedRequests.{IsLawfulRequest};
ghost use Rattle.turn_client_proto_messages.specs.declared.request.TurnRequest.TheVariants.{CreatePermission};
ghost use Rattle.turn_client_proto_core.specs.Asking.{requested};

use crate::ending::end;
use crate::protocol::{Phase, Protocol};
use stun_proto_client::error::LongTermClientAuthError;
use stun_proto_client::validation::LongTermClientValidation;
use stun_types_base::instant::Instant;
use stun_types_base::memory::NoMemory;
use stun_types_message::parsed::Message;
use stun_types_wire::class::MessageClass;
use stun_types_wire::registry::ALLOCATION_MISMATCH;
use stun_types_wire::transaction::TransactionId;
use turn_client_proto_allocation::allocation::least_of;
use turn_client_proto_allocation::pending::{
    PendingRequest, addresses_for, pending_request, reissue_under,
};
use turn_client_proto_connection::reported::answer;
use turn_client_proto_messages::laws::proof_requests_are_lawful;
use turn_client_proto_messages::peer_ips::PeerIps;
use turn_client_proto_messages::reported::{connection_reported, first_code, lifetime_reported};
use turn_client_proto_messages::request::TurnRequest;
use turn_types_attributes::registry::{CHANNEL_BIND, CONNECT, CREATE_PERMISSION, REFRESH};

/// Returns whether a response grants a REFRESH: a success does, and error 437 (Allocation
/// Mismatch), which says that there is no allocation.
fn is_refreshed(message: &Message<'_>) -> bool
    ensures { result ≡ is_refreshed message.now }
{
    match message.class() {
        MessageClass::Error => first_code(message) == Some(ALLOCATION_MISMATCH),
        MessageClass::Success | MessageClass::Request | MessageClass::Indication => true,
    }
}

impl Protocol {
    /// Handles a request or a response.
    pub(crate) fn process_standing(
        &mut self,
        message: &Message<'_>,
        now: Instant,
    ) -> Result<bool, NoMemory>
        ensures ok { IfOk result (λ handled.
            IsFollowed IsJudgedStanding self.old message.now now handled self.new) }
        ensures err { OnErr result (IsUnderWay self.old self.new) }
        ensures memory { OnErr result (GrowsBy GrowsStanding self.old message.now) }
    {
        match self.auth.validate_incoming_message(message) {
            Ok(LongTermClientValidation::ResendRequest(_)) => self.ask_again(message, now),
            Ok(LongTermClientValidation::Validated(_)) => self.take_up(message, now),
            Err(LongTermClientAuthError::NoMemory) => Err(NoMemory),
            Err(_) => Ok(false),
        }
    }

    /// Handles a challenge that can be answered (RFC 8489, section 9.2.5): sends the request again
    /// with a new transaction ID, or ends the client after too many challenges. Ignores it if its
    /// transaction isn't outstanding or no allocation awaits its response.
    fn ask_again(&mut self, message: &Message<'_>, now: Instant) -> Result<bool, NoMemory>
        ensures ok { IfOk result (λ handled.
            IsRechallenged self.old message.now now handled self.new) }
        ensures err { OnErr result (IsUnderWay self.old self.new) }
    {
        if self.is_tired() {
            end(self)?;
            return Ok(true);
        }
        if !self.is_awaited(message) {
            return Ok(false);
        }
        let old = message.transaction_id();
        let Some((index, requested)) = pending_request(self.allocations.as_slice(), old) else {
            return Ok(false);
        };
        self.send_again(index, requested, old, now)?;
        self.count_challenge(message)?;
        Ok(true)
    }

    /// Sends a request again with a new transaction ID. `index` is the index of the first
    /// allocation that awaits the response to the request `old`; `requested` is what that request
    /// asks for.
    fn send_again(
        &mut self,
        index: usize,
        requested: PendingRequest,
        old: TransactionId,
        now: Instant,
    ) -> Result<(), NoMemory>
        requires { position (awaits_reply old) self.old.allocations ≡ Some index }
        ensures ok { OnOk result ((number : ℕ) × IsNextNumber self.old number
            × IsLawfulRequest (request_again requested old self.old.allocations)
            × (self.new ≡ asks_again requested old number now self.old)) }
        ensures err { OnErr result (IsUnderWay self.old self.new) }
    {
        let number = self.generate_id()?;
        self.ask_same(&requested, old, number, now)?;
        reissue_under(
            self.allocations.as_mut_slice(),
            index,
            requested,
            old,
            number,
        )?;
        Ok(())
    }

    /// Queues the request `old` for this again, with another transaction ID. With
    /// `NoMemory`, nothing has changed.
    fn ask_same(
        &mut self,
        what: &PendingRequest,
        old: TransactionId,
        transaction_id: TransactionId,
        now: Instant,
    ) -> Result<(), NoMemory>
        requires unused { IsUnused self.old.agent transaction_id }
        ensures ok { OnOk result (self.new ≡ requested self.old
            (request_again what.now old self.old.allocations) transaction_id now) }
        ensures lawful { OnOk result
            (IsLawfulRequest (request_again what.now old self.old.allocations)) }
        ensures err { OnErr result (self.new ≡ self.old) }
    {
        match what {
            PendingRequest::Lifetime(lifetime) => {
                self.ask_lawful(TurnRequest::Refresh(*lifetime), transaction_id, now)
            }
            PendingRequest::NewChannel(_, channel, peer)
            | PendingRequest::ChannelRenewal(_, channel, peer) => {
                let request = TurnRequest::ChannelBind(channel.number(), *peer);
                self.ask_lawful(request, transaction_id, now)
            }
            PendingRequest::NewPermission(_, _) => self.ask_names(old, transaction_id, now),
            PendingRequest::Renewal(_, ip) => {
                let request = TurnRequest::CreatePermission(PeerIps::one(ip));
                self.ask_lawful(request, transaction_id, now)
            }
            PendingRequest::NewConnection(peer) => {
                self.ask_lawful(TurnRequest::Connect(*peer), transaction_id, now)
            }
        }
    }

    /// Queues a CREATE_PERMISSION for the addresses that the request `old` asks for, with another
    /// transaction ID. With `NoMemory`, nothing has changed.
    fn ask_names(
        &mut self,
        old: TransactionId,
        transaction_id: TransactionId,
        now: Instant,
    ) -> Result<(), NoMemory>
        requires unused { IsUnused self.old.agent transaction_id }
        ensures ok { OnOk result (self.new ≡ requested self.old
            (CreatePermission (addresses_for old self.old.allocations)) transaction_id now) }
        ensures lawful { OnOk result
            (IsLawfulRequest (CreatePermission (addresses_for old self.old.allocations))) }
        ensures err { OnErr result (self.new ≡ self.old) }
    {
        let names = addresses_for(self.alloc, self.allocations.as_slice(), old)?;
        // It is always `Some`: the request `old` named these addresses already.
        let Some(ips) = PeerIps::new(names.as_slice()) else {
            return Err(NoMemory);
        };
        self.ask_lawful(TurnRequest::CreatePermission(ips), transaction_id, now)
    }

    /// Queues a request with this transaction ID, as `ask` does. With `NoMemory`, nothing has
    /// changed.
    fn ask_lawful(
        &mut self,
        request: TurnRequest<'_>,
        transaction_id: TransactionId,
        now: Instant,
    ) -> Result<(), NoMemory>
        requires unused { IsUnused self.old.agent transaction_id }
        ensures ok { OnOk result
            (self.new ≡ requested self.old request.entry transaction_id now) }
        ensures lawful { IsLawfulRequest request.entry }
        ensures err { OnErr result (self.new ≡ self.old) }
    {
        proof_requests_are_lawful(&request);
        self.ask(transaction_id, request, now)
    }

    /// Handles a validated request or response.
    fn take_up(&mut self, message: &Message<'_>, now: Instant) -> Result<bool, NoMemory>
        ensures ok { IfOk result (λ handled.
            IsTakenUp self.old message.now now handled self.new) }
        ensures err { OnErr result (IsUnderWay self.old self.new) }
        ensures memory { OnErr result (counts self.old message.now ≡ true) }
    {
        if !(message.is_response() && self.is_awaited(message)) {
            return self.take_request(message);
        }
        self.accept(message)?;
        if message.method() == REFRESH {
            self.take_refresh(message, now);
            return Ok(true);
        }
        if message.method() == CREATE_PERMISSION {
            return self.take_permission(message, now);
        }
        if message.method() == CHANNEL_BIND {
            return self.take_channel(message, now);
        }
        if message.method() == CONNECT {
            return self.take_connection(message);
        }
        Ok(false)
    }

    /// Handles an accepted response to a CONNECT.
    fn take_connection(&mut self, message: &Message<'_>) -> Result<bool, NoMemory>
        ensures ok { IfOk result (λ handled.
            IsConnectResponded self.old message.now handled self.new) }
        ensures err { OnErr result (IsUnderWay self.old self.new) }
    {
        let reported = connection_reported(message);
        let allocations = self.allocations.as_mut_slice();
        answer(
            &mut self.events,
            allocations,
            message.transaction_id(),
            reported,
        )
    }

    /// Handles an accepted response to a REFRESH.
    fn take_refresh(&mut self, message: &Message<'_>, now: Instant)
        ensures { self.new ≡ after_refresh message.now now self.old }
    {
        if is_refreshed(message) {
            self.refresh(message, now);
        }
    }

    /// Applies a granted REFRESH: removes all allocations and ends the client if the REFRESH asked
    /// for their deletion; else renews the allocations that requested it.
    fn refresh(&mut self, message: &Message<'_>, now: Instant)
        ensures { self.new ≡ refreshed message.now now self.old }
    {
        let number = message.transaction_id();
        if self.allocations.ends_any(number) {
            self.phase = Phase::Ended;
            self.allocations.clear();
        } else {
            let least = least_of(self.short_lifetimes);
            self.allocations
                .renew(number, lifetime_reported(message), least, now);
        }
    }
}

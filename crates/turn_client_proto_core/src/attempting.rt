//! Handling of the server's own requests and indications: a peer opened a connection (RFC 6062,
//! section 4.4).

ghost use Rattle.std.specs.Prelude.{◌≡◌, IfOk, OnErr, OnOk, true};
ghost use Rattle.turn_client_proto_core.specs.Attempting.{IsAttemptTaken, IsIndicationTaken, after_attempt, after_offer, answering, is_attempt, is_at_limit, offers_limit, rejecting, takes_offer};

use crate::protocol::Protocol;
use stun_types_base::family::AddressFamily;
use stun_types_base::memory::NoMemory;
use stun_types_base::transport::TransportType;
use stun_types_message::parsed::Message;
use stun_types_wire::class::MessageClass;
use stun_types_wire::transaction::TransactionId;
use turn_client_proto_connection::attempts::{begin, is_joining, offer};
use turn_client_proto_messages::answer::AttemptAnswer;
use turn_client_proto_messages::queued::Queued;
use turn_client_proto_messages::reported::{connection_reported, peer_reported};
use turn_client_proto_peers::permission::asking::index_of;
use turn_types_attributes::registry::CONNECTION_ATTEMPT;

/// Returns whether there are as many as the limit allows, or more. Without a limit there never are.
#[tactic(auto, unfolding(crate::specs::Attempting::is_at_limit))]
fn is_at_limit(limit: Option<usize>, count: usize) -> bool
    ensures { result ≡ is_at_limit limit count }
{
    match limit {
        Some(limit) => limit <= count,
        None => false,
    }
}

/// How many connections may wait for their socket while an indication adds one, if the settings
/// have no limit: whoever writes into the control connection can send as many as it likes.
const OFFERS: usize = 64;

/// Returns how many connections may wait for their socket while an indication adds one.
#[tactic(auto, unfolding(crate::specs::Attempting::offers_limit))]
fn offers_limit(limit: Option<usize>) -> usize
    ensures { result ≡ offers_limit limit }
{
    match limit {
        Some(limit) => limit,
        None => OFFERS,
    }
}

impl Protocol {
    /// Queues the response to the server's request with this transaction ID. After an error nothing
    /// has changed.
    pub fn answer_attempt(
        &mut self,
        transaction_id: TransactionId,
        answer: AttemptAnswer,
    ) -> Result<(), NoMemory>
        ensures ok { OnOk result (self.new ≡ answering answer transaction_id self.old) }
        ensures err { OnErr result (self.new ≡ self.old) }
    {
        let bytes = self.auth.write_answer(self.alloc, transaction_id, answer)?;
        let here = self.agent.local_addr();
        self.queue.push_back(Queued::new(bytes, here, false))
    }

    /// Handles a validated request, or a validated response that nothing awaits. Returns whether it
    /// was for the client: only a CONNECTION_ATTEMPT request is. After an error nothing has
    /// changed.
    pub(crate) fn take_request(&mut self, message: &Message<'_>) -> Result<bool, NoMemory>
        ensures ok { IfOk result (λ handled.
            IsAttemptTaken self.old message.now handled self.new) }
        ensures err { OnErr result (self.new ≡ self.old) }
        ensures memory { OnErr result (is_attempt message.now ≡ true) }
    {
        if !(message.class() == MessageClass::Request && message.method() == CONNECTION_ATTEMPT) {
            return Ok(false);
        }
        self.take_attempt(message)?;
        Ok(true)
    }

    /// Handles a validated CONNECTION_ATTEMPT request. The new connection waits for its socket in
    /// the first allocation whose transport is that of the control connection and whose family is
    /// the peer's.
    ///
    /// The request is rejected, by a queued response,
    ///
    /// - with error 400 if it names no connection or no peer, or if there is no such allocation;
    /// - with error 446 if that allocation has a connection to the peer, or one that waits for its
    ///   socket;
    /// - with error 447 if as many connections as the client's limit allows wait for their socket
    ///   in that allocation.
    ///
    /// If as many messages as the limit allows wait to be sent, what would be rejected is ignored:
    /// nothing changes.
    fn take_attempt(&mut self, message: &Message<'_>) -> Result<(), NoMemory>
        ensures ok { OnOk result (self.new ≡ after_attempt message.now self.old) }
        ensures err { OnErr result (self.new ≡ self.old) }
    {
        let number = message.transaction_id();
        let Some(connection) = connection_reported(message) else {
            return self.reject_attempt(number, AttemptAnswer::BadRequest);
        };
        let Some(peer) = peer_reported(message) else {
            return self.reject_attempt(number, AttemptAnswer::BadRequest);
        };
        let (transport, family) = (self.agent.transport(), AddressFamily::from(&peer));
        let Some(index) = index_of(self.allocations.as_slice(), transport, family) else {
            return self.reject_attempt(number, AttemptAnswer::BadRequest);
        };
        if is_joining(&self.allocations.as_slice()[index], peer) {
            return self.reject_attempt(number, AttemptAnswer::AlreadyExists);
        }
        let waiting = self.allocations.as_slice()[index].waiting.len();
        if is_at_limit(self.max_connection_attempts, waiting) {
            return self.reject_attempt(number, AttemptAnswer::Failed);
        }
        begin(&mut self.allocations, index, connection, peer, number)
    }

    /// Handles an indication after the server has allocated. Returns whether it was for the client:
    /// only a CONNECTION_ATTEMPT is, if the client accepts such and allocates over TCP. After an
    /// error nothing has changed.
    pub(crate) fn take_indication(&mut self, message: &Message<'_>) -> Result<bool, NoMemory>
        ensures ok { IfOk result (λ handled.
            IsIndicationTaken self.old message.now handled self.new) }
        ensures err { OnErr result (self.new ≡ self.old) }
        ensures memory { OnErr result (takes_offer self.old message.now ≡ true) }
    {
        if !(self.attempt_indications
            && self.allocates == TransportType::Tcp
            && message.method() == CONNECTION_ATTEMPT)
        {
            return Ok(false);
        }
        self.take_offer(message)?;
        Ok(true)
    }

    /// Handles a CONNECTION_ATTEMPT indication. The new connection waits for its socket in the first
    /// allocation whose transport is that of the control connection and whose family is the peer's.
    /// Nothing changes if the indication names no connection or no peer; if there is no such
    /// allocation; or if that allocation has a connection to the peer, one that waits for its
    /// socket, or as many that wait as are allowed. After an error nothing has changed.
    fn take_offer(&mut self, message: &Message<'_>) -> Result<(), NoMemory>
        ensures ok { OnOk result (self.new ≡ after_offer message.now self.old) }
        ensures err { OnErr result (self.new ≡ self.old) }
    {
        let Some(connection) = connection_reported(message) else {
            return Ok(());
        };
        let Some(peer) = peer_reported(message) else {
            return Ok(());
        };
        let (transport, family) = (self.agent.transport(), AddressFamily::from(&peer));
        let Some(index) = index_of(self.allocations.as_slice(), transport, family) else {
            return Ok(());
        };
        if is_joining(&self.allocations.as_slice()[index], peer) {
            return Ok(());
        }
        let count = self.allocations.as_slice()[index].waiting.len();
        if offers_limit(self.max_connection_attempts) <= count {
            return Ok(());
        }
        offer(&mut self.allocations, index, connection, peer)
    }

    /// Queues the response that rejects the server's request with this transaction ID, unless as
    /// many messages as the client's limit allows wait to be sent: then nothing changes. After an
    /// error nothing has changed.
    #[tactic(auto, unfolding(crate::specs::Attempting::rejecting))]
    fn reject_attempt(
        &mut self,
        transaction_id: TransactionId,
        answer: AttemptAnswer,
    ) -> Result<(), NoMemory>
        ensures ok { OnOk result (self.new ≡ rejecting answer transaction_id self.old) }
        ensures err { OnErr result (self.new ≡ self.old) }
    {
        if is_at_limit(self.max_connection_attempts, self.queue.len()) {
            return Ok(());
        }
        self.answer_attempt(transaction_id, answer)
    }
}

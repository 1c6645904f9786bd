//! Sending of messages and data.

ghost use Rattle.std.specs.Prelude.{◌≡◌, ◌≢◌, ⊤, IfOk, MatchOption, MatchResult, None, Some, OnOk};
ghost use Rattle.std.specs.Prelude.{OnErr, is_some};
ghost use Rattle.std.specs.Borrow.{sem};
ghost use Rattle.std.specs.FinMap as finite;
ghost use Rattle.stun_proto_agent.specs.AgentRest.{AgentRests};
ghost use Rattle.stun_proto_transaction.specs.Base.Data.{data_bytes};
ghost use Rattle.stun_proto_transaction.specs.Wire.Grammar.{number_at};
ghost use Rattle.stun_proto_transaction.specs.Base.Refusals.{RefusesFor};
ghost use Rattle.stun_proto_agent.specs.Sending.{IsSent, started, is_request, request_refusal};
ghost use Rattle.stun_proto_agent.specs.Sending.{send_refusal, with_request};

use crate::agent::StunAgent;
use crate::error::StunError;
use crate::stun_types_base::instant::Instant;
use crate::stun_types_base::transmit::Transmit;
use crate::stun_types_message::parsed::Message;
use crate::stun_types_wire::class::MessageClass;
use crate::stun_types_wire::transaction::TransactionId;
use std::convert::AsSlice;
use std::net::SocketAddr;

impl StunAgent {
    /// Addresses data to `to`, over the agent's transport and from its own address. The bytes are
    /// not inspected, and nothing is stored.
    pub fn send_data<T>(&self, bytes: T, to: SocketAddr) -> Transmit<T>
        ensures { result ≡ record {
          bytes = bytes;
          transport = self.now.transport;
          from = self.now.here;
          to = to;
        } }
    {
        Transmit::new(bytes, self.transport(), self.local_addr(), to)
    }

    /// Addresses a response or an indication to `to`, to be sent once (RFC 8489, sections 6.2.1 and
    /// 6.3.1.2). Nothing is stored.
    ///
    /// # Errors
    ///
    /// 1. `ParseError`: the bytes are not a STUN message.
    /// 2. `ProtocolViolation`: the message is a request.
    pub fn send<T: AsSlice<u8> + Drop>(
        &self,
        msg: T,
        to: SocketAddr,
        _now: Instant,
    ) -> Result<Transmit<T>, StunError>
        ensures { MatchResult result (λ sent. (send_refusal (T.items msg) ≡ None)
            × (sent ≡ record {
              bytes = msg;
              transport = self.now.transport;
              from = self.now.here;
              to = to;
            }))
            (λ error. send_refusal (T.items msg) ≡ Some error) }
    {
        check_sent(msg.as_slice())?;
        Ok(self.send_data(msg, to))
    }

    /// Starts a transaction: returns the first transmission of a request to `to`, which counts as
    /// made at `now` (RFC 8489, section 6.2). The request is outstanding from then on. Its bytes
    /// are stored, and `poll_transmit` returns them when a retransmission is due.
    ///
    /// # Errors
    ///
    /// A refusal changes nothing.
    ///
    /// 1. `ParseError`: the bytes are not a STUN message.
    /// 2. `ProtocolViolation`: the message is not a request.
    /// 3. `AlreadyInProgress`: a request with this transaction ID is outstanding.
    /// 4. `NoMemory`: an allocation failed.
    pub fn send_request<'a, T: AsSlice<u8> + Drop>(
        &'a mut self,
        msg: T,
        to: SocketAddr,
        now: Instant,
    ) -> Result<Transmit<&'a [u8]>, StunError>
        ensures cause { RefusesFor StunError.NoMemory
            (request_refusal self.old (T.items msg)) result }
        ensures sent { IfOk result (λ sent. IsSent self.old (T.items msg) to sent) }
        ensures* state { sem 𝓛 (AgentRests self.entry (λ new. MatchResult result
            (λ _. new ≡ with_request self.old (T.items msg) to now) (λ _. new ≡ self.old))) }
    {
        let number = self.check_request(msg.as_slice())?;
        self.keep_request(number, msg.as_slice(), to, now)?;
        Ok(self.first_transmission(number, to))
    }

    /// Checks that bytes are a request whose transaction ID is not outstanding, and returns the ID.
    /// Fails as `send_request` does.
    #[tactic(auto, unfolding(crate::specs::Sending::request_refusal))]
    fn check_request(&self, bytes: &[u8]) -> Result<TransactionId, StunError>
        ensures { MatchResult result (λ number. (request_refusal self.now bytes.now ≡ None)
            × (number ≡ number_at bytes.now))
            (λ error. (request_refusal self.now bytes.now ≡ Some error)
            × (error ≢ StunError.NoMemory)) }
    {
        let message = Message::from_bytes(bytes)?;
        if !is_request(&message) {
            return Err(StunError::ProtocolViolation);
        }
        let number = message.transaction_id();
        if self.is_outstanding(number) {
            return Err(StunError::AlreadyInProgress);
        }
        Ok(number)
    }

    /// Returns the transmission of an outstanding request.
    fn first_transmission(&self, transaction_id: TransactionId, to: SocketAddr) -> Transmit<&[u8]>
        ensures { MatchOption (finite.get self.now.outstanding transaction_id) ⊤
            (λ t. IsSent self.now t.bytes to result) }
    {
        self.send_data(self.bytes_of(transaction_id), to)
    }
}

/// Checks that bytes are a message that awaits no response. Fails as `send` does.
#[tactic(auto, unfolding(crate::specs::Sending::send_refusal))]
fn check_sent(bytes: &[u8]) -> Result<(), StunError>
    ensures { MatchResult result (λ _. send_refusal bytes.now ≡ None)
        (λ error. send_refusal bytes.now ≡ Some error) }
{
    let message = Message::from_bytes(bytes)?;
    if is_request(&message) {
        return Err(StunError::ProtocolViolation);
    }
    Ok(())
}

/// Returns whether a message is a request.
fn is_request(message: &Message<'_>) -> bool
    ensures { result ≡ is_request message.now }
{
    match message.class() {
        MessageClass::Request => true,
        MessageClass::Indication | MessageClass::Success | MessageClass::Error => false,
    }
}

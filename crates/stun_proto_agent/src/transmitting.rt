//! Retransmission of outstanding requests.

ghost use Rattle.std.specs.Prelude.{◌≡◌, MatchOption, None, Some};
ghost use Rattle.std.specs.Borrow.{sem};
ghost use Rattle.std.specs.FinMap as finite;
ghost use Rattle.stun_proto_agent.specs.AgentRest.{AgentRests};
ghost use Rattle.stun_proto_transaction.specs.Agents.{Transaction, transmitted};
ghost use Rattle.stun_proto_transaction.specs.Least.{IsLeast};
ghost use Rattle.stun_proto_agent.specs.Sending.{IsAfterTransmit, IsDueSent, IsSent, NoneDue};
ghost use Rattle.stun_proto_agent.specs.Sending.{is_due_of, stored_under};
ghost use Rattle.stun_proto_agent.specs.State.{is_tcp};

use crate::agent::StunAgent;
use crate::stun_types_base::instant::Instant;
use crate::stun_types_base::transmit::Transmit;
use crate::stun_types_wire::transaction::TransactionId;

impl StunAgent {
    /// Returns one retransmission that is due at `now`, and counts it as made (RFC 8489, section
    /// 6.2.1). If several requests have one due, the one with the least transaction ID is returned,
    /// with its own bytes and its own target. Call it again until it returns `None`: then none is
    /// due, and nothing has changed.
    ///
    /// # Cost
    ///
    /// - If nothing is due, the outstanding requests are not scanned. The exception is when the
    ///   earliest time has come and its request was ended or delayed meanwhile: then their times
    ///   are scanned once.
    /// - If one is due, the times up to that one are scanned, and the next call continues from
    ///   there.
    pub fn poll_transmit<'a>(&'a mut self, now: Instant) -> Option<Transmit<&'a [u8]>>
        ensures sent { MatchOption result (NoneDue self.old now) (IsDueSent self.old now) }
        ensures* state { sem 𝓛 (AgentRests self.entry (λ new. IsAfterTransmit self.old now new)) }
    {
        let number = self.due(now)?;
        self.transmit(number);
        self.transmission(number)
    }

    /// Returns the transmission of the request with this transaction ID, if it is outstanding.
    fn transmission(&self, transaction_id: TransactionId) -> Option<Transmit<&[u8]>>
        ensures { MatchOption result (finite.get self.now.outstanding transaction_id ≡ None)
            (λ sent. (t : Transaction) × (finite.get self.now.outstanding transaction_id ≡ Some t)
            × IsSent self.now t.bytes t.to sent) }
    {
        let to = self.target_of(transaction_id)?;
        Some(self.send_data(self.bytes_of(transaction_id), to))
    }
}

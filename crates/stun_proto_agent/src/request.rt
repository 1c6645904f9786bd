//! Handles that read and change an outstanding request.

ghost use Rattle.std.specs.Prelude.{◌≡◌, MatchOption, None, Some, option_map};
ghost use Rattle.std.specs.Borrow.{RestsIfNone, sem};
ghost use Rattle.std.specs.Duration.{as_nanos};
ghost use Rattle.std.specs.FinMap as finite;
ghost use Rattle.stun_proto_agent.specs.RequestLending.{LendsAgent};
ghost use Rattle.stun_proto_agent.specs.Requests.{IsChangedRequest, IsReported};
ghost use Rattle.stun_proto_agent.specs.contracts.agent.StunAgent.{the_row};
ghost use Rattle.stun_proto_transaction.specs.declared.transaction.Change.TheVariants.{Cancel};
ghost use Rattle.stun_proto_transaction.specs.declared.transaction.Change.TheVariants.{CancelRetransmissions};
ghost use Rattle.stun_proto_transaction.specs.declared.transaction.Change.TheVariants.{ConfigureTimeout};

use crate::agent::StunAgent;
use crate::stun_types_wire::algorithm::IntegrityAlgorithm;
use crate::stun_types_wire::transaction::TransactionId;
use std::net::SocketAddr;
use std::time::Duration;
use stun_proto_transaction::transaction::Change;
use stun_proto_transaction::waits::Waits;

/// A read-only handle to an outstanding request. It borrows the agent, so nothing changes while it
/// exists.
#[derive(Debug, Drop)]
pub struct StunRequest<'a> {
    agent: &'a StunAgent,
    peer: SocketAddr,
    integrity: Option<IntegrityAlgorithm>,
}

/// A handle to change a request that was outstanding when the handle was created. Its address and
/// algorithm are those of that time. If the request is no longer outstanding, for instance after a
/// `poll` of `mut_agent()`, the calls that change it do nothing.
#[derive(Drop)]
pub struct StunRequestMut<'a> {
    agent: &'a mut StunAgent,
    number: TransactionId,
    peer: SocketAddr,
    integrity: Option<IntegrityAlgorithm>,
}

impl StunAgent {
    /// Returns a read-only handle to the request with this transaction ID, or `None` if it is not
    /// outstanding.
    pub fn request_transaction(&self, transaction_id: TransactionId) -> Option<StunRequest<'_>>
        ensures { MatchOption result (finite.get self.now.outstanding transaction_id ≡ None)
            (λ request. (request.agent.now ≡ self.now)
            × IsReported self.now transaction_id request.peer request.integrity) }
    {
        let (peer, integrity) = self.reported_of(transaction_id)?;
        Some(StunRequest {
            agent: self,
            peer,
            integrity,
        })
    }

    /// Returns a handle to change the request with this transaction ID, or `None` if it is not
    /// outstanding. Changes through the handle change this agent.
    pub fn mut_request_transaction(
        &mut self,
        transaction_id: TransactionId,
    ) -> Option<StunRequestMut<'_>>
        ensures request { MatchOption result
            (finite.get self.old.outstanding transaction_id ≡ None)
            (λ request. (request.agent.now ≡ self.old)
            × (request.agent.ghost_name ≡ self.entry.ghost_name)
            × (request.number ≡ transaction_id)
            × IsReported self.old transaction_id request.peer request.integrity) }
        // When the handle ends, the agent has the last value that the handle gave it; if the result
        // is `None`, it is unchanged.
        ensures* ends { sem 𝓛 (RestsIfNone the_row self.entry (λ request. request.agent.ghost_name)
            result (λ new. new ≡ self.old)) }
    {
        let (peer, integrity) = self.reported_of(transaction_id)?;
        Some(StunRequestMut {
            agent: self,
            number: transaction_id,
            peer,
            integrity,
        })
    }
}

impl<'a> StunRequest<'a> {
    /// Returns the address to which the request is sent.
    pub fn peer_address(&self) -> SocketAddr
        ensures { result ≡ self.now.peer }
    {
        self.peer
    }

    /// Returns the algorithm of the request's last visible integrity attribute (RFC 8489, sections
    /// 14.5 and 14.6), or `None` if it has none.
    pub fn integrity(&self) -> Option<IntegrityAlgorithm>
        ensures { result ≡ self.now.integrity }
    {
        self.integrity
    }

    /// Returns the agent of the request.
    pub fn agent(&self) -> &'a StunAgent
        ensures { result.now ≡ self.now.agent.now }
    {
        self.agent
    }
}

impl<'a> StunRequestMut<'a> {
    /// Returns the address to which the request was sent when this handle was created.
    pub fn peer_address(&self) -> SocketAddr
        ensures { result ≡ self.now.peer }
    {
        self.peer
    }

    /// Returns the algorithm of the request's last visible integrity attribute (RFC 8489, sections
    /// 14.5 and 14.6) when this handle was created, or `None` if it had none.
    pub fn integrity(&self) -> Option<IntegrityAlgorithm>
        ensures { result ≡ self.now.integrity }
    {
        self.integrity
    }

    /// Returns the agent in its present state, including the changes made through this handle.
    pub fn agent(&self) -> &StunAgent
        ensures { result.now ≡ self.now.agent.now }
    {
        self.agent
    }

    /// Returns the agent for changes. Whatever is changed, this handle keeps its transaction ID,
    /// address and algorithm.
    pub fn mut_agent(&mut self) -> &mut StunAgent
        ensures* writes_back { sem 𝓛 (LendsAgent self.entry result) }
        ensures value { result.now ≡ self.old.agent.now }
    {
        self.agent
    }

    /// Stops retransmitting the request (RFC 8489, section 6.2.1). It still ends at the same time;
    /// until then it is outstanding, and a response to it is accepted. If it is no longer
    /// outstanding, nothing changes.
    pub fn cancel_retransmissions(&mut self)
        ensures { IsChangedRequest self.old CancelRetransmissions self.new }
    {
        self.agent
            .change(self.number, Change::CancelRetransmissions);
    }

    /// Cancels the request: it is not retransmitted, and its transaction has ended. It stays
    /// outstanding until `poll` reports it as `TransactionCancelled`, or a response comes first. If
    /// it is no longer outstanding, nothing changes.
    pub fn cancel(&mut self)
        ensures { IsChangedRequest self.old Cancel self.new }
    {
        self.agent.change(self.number, Change::Cancel);
    }

    /// Sets the waits of the request from now on (RFC 8489, section 6.2.1):
    ///
    /// - `initial_rto` is the wait after the first transmission. Each next wait is twice as long,
    ///   without an upper limit.
    /// - `retransmits` is how many times the request is sent in all; it is sent at least once.
    /// - `last_retransmit_timeout` is the wait after the last transmission.
    ///
    /// The waits count from the first transmission, and the transmissions made so far count as
    /// well. If the request is no longer outstanding, nothing changes.
    pub fn configure_timeout(
        &mut self,
        initial_rto: Duration,
        retransmits: u32,
        last_retransmit_timeout: Duration,
    )
        ensures { IsChangedRequest self.old (ConfigureTimeout (record {
          initial = as_nanos initial_rto;
          most = None;
          retransmits = retransmits;
          final = as_nanos last_retransmit_timeout;
        })) self.new }
    {
        let waits = Waits::new(initial_rto, None, retransmits, last_retransmit_timeout);
        self.agent
            .change(self.number, Change::ConfigureTimeout(waits));
    }

    /// Sets the waits of the request from now on as `configure_timeout` does, with `max_rto` as the
    /// upper limit of a wait between two transmissions. The wait after the last transmission may be
    /// longer. If the request is no longer outstanding, nothing changes.
    pub fn configure_timeout_with_max(
        &mut self,
        initial_rto: Duration,
        retransmits: u32,
        last_retransmit_timeout: Duration,
        max_rto: Duration,
    )
        ensures { IsChangedRequest self.old (ConfigureTimeout (record {
          initial = as_nanos initial_rto;
          most = Some (as_nanos max_rto);
          retransmits = retransmits;
          final = as_nanos last_retransmit_timeout;
        })) self.new }
    {
        let waits = Waits::new(
            initial_rto,
            Some(max_rto),
            retransmits,
            last_retransmit_timeout,
        );
        self.agent
            .change(self.number, Change::ConfigureTimeout(waits));
    }
}

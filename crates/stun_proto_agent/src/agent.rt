//! The STUN agent: tracks outstanding requests and their retransmissions.

ghost use Rattle.std.specs.Prelude.{◌≡◌, ◌≤◌, [], MatchOption, OnErr, OnOk, is_some, max};
ghost use Rattle.std.specs.FinMap as finite;
ghost use Rattle.std.specs.Option.{option_map};
ghost use Rattle.std.specs.declared.net.socket_addr.SocketAddr.{SocketAddr};
ghost use Rattle.stun_proto_transaction.specs.Agents.{Transaction, changed, integrity_of, is_ended};
ghost use Rattle.stun_proto_transaction.specs.Agents.{is_over, transmitted};
ghost use Rattle.stun_proto_transaction.specs.Least.{IsLeast};
ghost use Rattle.stun_proto_agent.specs.Sending.{NoneDue, started, is_due_of, stored_under};
ghost use Rattle.stun_proto_agent.specs.State.{IsNext, IsPolled, NoneEnded, is_tcp, longest_wait};
ghost use Rattle.stun_proto_transaction.specs.Base.Times.{time_after};

use crate::stun_types_base::instant::Instant;
use crate::stun_types_base::memory::NoMemory;
use crate::stun_types_base::transport::TransportType;
use crate::stun_types_wire::algorithm::IntegrityAlgorithm;
use crate::stun_types_wire::transaction::TransactionId;
use std::alloc::Global;
use std::collections::BTreeMap;
use std::marker::Model;
use std::net::SocketAddr;
use std::time::Duration;
use stun_proto_transaction::outstanding::Outstanding;
use stun_proto_transaction::transaction::{Change, Transaction};
use stun_proto_transaction::waits::Waits;

/// The longest wait that an agent reports, in seconds.
const LONGEST_WAIT: u64 = 3600;

/// The result of `StunAgent::poll`.
#[derive(Clone, Copy, Debug, PartialEq, Eq)]
pub enum StunAgentPollRet {
    /// The transaction with this ID ended without a response: the wait after its last transmission
    /// is over (RFC 8489, section 6.2.1). It is no longer outstanding.
    TransactionTimedOut(TransactionId),
    /// The transaction with this ID was cancelled by `StunRequestMut::cancel`. It is no longer
    /// outstanding.
    TransactionCancelled(TransactionId),
    /// Nothing is due to be sent and no transaction ends before this time, unless a call changes
    /// the agent.
    WaitUntil(Instant),
}

/// Tracks the requests of one side that await responses: when each is retransmitted and when it is
/// given up (RFC 8489, section 6.2.1). It performs no input or output and reads no clock: the
/// caller sends what the agent returns, and passes it the time. After each call that changes the
/// agent, drive it with this loop:
///
/// <!-- crates/test_rows_proto/src/agent.rt: drive -->
/// ```rust
/// for _ in 0..MOST_TURNS {
///     write!(text, "{} ", now.as_nanos())?;
///     if let Some(sent) = agent.poll_transmit(now) {
///         push_sent(&sent, text)?;
///     } else {
///         let answer = agent.poll(now);
///         push_polled(&answer, text)?;
///         if let StunAgentPollRet::WaitUntil(next) = &answer {
///             now = *next;
///         }
///     }
///     if now > last {
///         return Ok(());
///     }
///     text.push_str("\n")?;
/// }
/// ```
///
/// Where this loop prints, a program sends what `poll_transmit` returns and reacts to the
/// transactions that ended. Where this loop sets `now`, a program waits until that time. Whatever
/// times the caller passes, nothing is retransmitted or ended before its time. Contracts see the
/// record `Agent` of `specs/State.antt`.
#[derive(Debug, Drop)]
pub struct StunAgent {
    alloc: Global,
    transport: TransportType,
    local: SocketAddr,
    remote: Option<SocketAddr>,
    waits: Waits,
    outstanding: Outstanding,
    validated: BTreeMap<SocketAddr, ()>,
}

impl Model for StunAgent {
    ghost use Rattle.stun_proto_agent.specs.State.{Agent};
    ghost use Rattle.stun_proto_agent.specs.View.{agent_of};
    ghost use Rattle.stun_proto_agent.specs.Codes.{agent_code};

    ghost Value = { Agent };

    ghost coded = { agent_code };

    ghost use Rattle.stun_proto_agent.specs.View.{IsAgent};

    ghost view = { agent_of };

    ghost invariant = { IsAgent };
}

impl StunAgent {
    /// Creates an agent with no outstanding request and no validated address.
    pub(crate) fn new(
        alloc: Global,
        transport: TransportType,
        local: SocketAddr,
        remote: Option<SocketAddr>,
        waits: Waits,
    ) -> StunAgent
        ensures { result ≡ record {
          transport = transport;
          here = local;
          remote = remote;
          waits = waits;
          outstanding = finite.empty;
          validated = finite.empty;
        } }
    {
        StunAgent {
            alloc,
            transport,
            local,
            remote,
            waits,
            outstanding: Outstanding::new(alloc, goes_by_tcp(transport)),
            validated: BTreeMap::new(alloc),
        }
    }

    /// Returns the transport over which requests are sent.
    pub fn transport(&self) -> TransportType
        ensures { result ≡ self.now.transport }
    {
        self.transport
    }

    /// Returns the agent's own address, from which requests are sent.
    pub fn local_addr(&self) -> SocketAddr
        ensures { result ≡ self.now.here }
    {
        self.local
    }

    /// Returns the other side's address as it was given to the builder, or `None` if none was
    /// given. The agent does not send to it: each call that sends names its target.
    pub fn remote_addr(&self) -> Option<SocketAddr>
        ensures { result ≡ self.now.remote }
    {
        self.remote
    }

    /// Returns whether a response that ended a transaction came from the address, or
    /// `validated_peer` was called for it.
    pub fn is_validated_peer(&self, remote_addr: SocketAddr) -> bool
        ensures { result ≡ is_some (finite.get self.now.validated remote_addr) }
    {
        self.validated.contains_key(&remote_addr)
    }

    /// Removes and reports one transaction that has ended by `now`, or returns how long to wait. If
    /// several have ended, the one with the least transaction ID is reported: as cancelled if
    /// `StunRequestMut::cancel` was called for it, otherwise as timed out. Call it again until it
    /// returns `WaitUntil`.
    ///
    /// If none has ended, nothing changes, and the result is `WaitUntil` with the earliest time at
    /// which a transmission is due or a transaction ends:
    ///
    /// - It is no earlier than `now`, and no later than an hour after `now`.
    /// - It is `now` while a transmission is due that `poll_transmit` has not returned yet.
    ///
    /// # Cost
    ///
    /// - If nothing is due and none has ended, the outstanding requests are not scanned. The
    ///   exception is the first call after the request with the earliest time was ended or delayed:
    ///   it scans their times once.
    /// - If one has ended, the times up to that one are scanned, and the next call continues from
    ///   there.
    pub fn poll(&mut self, now: Instant) -> StunAgentPollRet
        ensures { IsPolled self.old now result self.new }
    {
        let Some((number, is_over)) = self.ended(now) else {
            return StunAgentPollRet::WaitUntil(self.next_time(now));
        };
        self.take_out(number);
        if is_over {
            StunAgentPollRet::TransactionCancelled(number)
        } else {
            StunAgentPollRet::TransactionTimedOut(number)
        }
    }

    /// Returns the least ID of the transactions that have ended by `now`, if any, and whether that
    /// transaction was cancelled as a whole.
    fn ended(&mut self, now: Instant) -> Option<(TransactionId, bool)>
        ensures found { MatchOption result (NoneEnded self.old now) (λ found. (t : Transaction)
            × IsLeast (is_ended now) self.old.outstanding found.0 t
            × (is_over t.cancelled ≡ found.1)) }
        ensures state { self.new ≡ self.old }
    {
        self.outstanding.first_ended(now)
    }

    /// Returns whether a request with this transaction ID is outstanding.
    pub(crate) fn is_outstanding(&self, transaction_id: TransactionId) -> bool
        ensures { result ≡ is_some (finite.get self.now.outstanding transaction_id) }
    {
        self.outstanding.get(transaction_id).is_some()
    }

    /// Returns the bytes of the outstanding request with this transaction ID; empty if there is
    /// none.
    pub(crate) fn bytes_of(&self, transaction_id: TransactionId) -> &[u8]
        ensures { MatchOption (finite.get self.now.outstanding transaction_id) (result.now ≡ [])
            (λ t. result.now ≡ t.bytes) }
    {
        match self.outstanding.get(transaction_id) {
            Some(transaction) => transaction.bytes(),
            None => &[],
        }
    }

    /// Returns the target of the outstanding request with this transaction ID, if there is one.
    pub(crate) fn target_of(&self, transaction_id: TransactionId) -> Option<SocketAddr>
        ensures { result ≡ option_map (λ (t : Transaction). t.to)
            (finite.get self.now.outstanding transaction_id) }
    {
        match self.outstanding.get(transaction_id) {
            Some(transaction) => Some(transaction.to()),
            None => None,
        }
    }

    /// Changes the request with this transaction ID, if it is outstanding.
    pub(crate) fn change(&mut self, transaction_id: TransactionId, with: Change)
        ensures { MatchOption (finite.get self.old.outstanding transaction_id) (self.new ≡ self.old)
            (λ t. self.new ≡ stored_under self.old transaction_id (changed with t)) }
    {
        self.outstanding.change(transaction_id, with);
    }

    /// Returns the target of the request with this transaction ID and the algorithm of its last
    /// visible integrity attribute, if the request is outstanding.
    pub(crate) fn reported_of(
        &self,
        transaction_id: TransactionId,
    ) -> Option<(SocketAddr, Option<IntegrityAlgorithm>)>
        ensures { result ≡ option_map (λ (t : Transaction). (t.to, integrity_of t))
            (finite.get self.now.outstanding transaction_id) }
    {
        match self.outstanding.get(transaction_id) {
            Some(transaction) => Some((transaction.to(), transaction.integrity())),
            None => None,
        }
    }

    /// Returns the least transaction ID of the requests of which a transmission is due, if any.
    pub(crate) fn due(&mut self, now: Instant) -> Option<TransactionId>
        ensures found { MatchOption result (NoneDue self.old now) (λ number. (t : Transaction)
            × IsLeast (is_due_of self.old now) self.old.outstanding number t) }
        ensures state { self.new ≡ self.old }
    {
        self.outstanding.first_due(now)
    }

    /// Counts one transmission of the request with this transaction ID, if it is outstanding and a
    /// transmission is left.
    pub(crate) fn transmit(&mut self, transaction_id: TransactionId)
        ensures { MatchOption (finite.get self.old.outstanding transaction_id) (self.new ≡ self.old)
            (λ t. self.new
            ≡ stored_under self.old transaction_id (transmitted (is_tcp self.old.transport) t)) }
    {
        self.outstanding.transmit(transaction_id);
    }

    /// Stores an outstanding request, replacing any with the same transaction ID. If an allocation
    /// fails, nothing changes.
    pub(crate) fn keep_request(
        &mut self,
        transaction_id: TransactionId,
        bytes: &[u8],
        to: SocketAddr,
        now: Instant,
    ) -> Result<(), NoMemory>
        ensures ok { OnOk result (self.new ≡ record self.old {
          outstanding = finite.insert self.old.outstanding transaction_id
              (started self.old bytes.now to now);
        }) }
        ensures err { OnErr result (self.new ≡ self.old) }
    {
        let bytes = Vec::from_slice(self.alloc, bytes)?;
        let transaction = Transaction::new(bytes, to, now, self.waits.copied());
        self.outstanding.insert(transaction_id, transaction)?;
        Ok(())
    }

    /// Marks an address as validated: from then on `is_validated_peer` returns `true` for it.
    ///
    /// # Errors
    ///
    /// - `NoMemory`: an allocation failed. Nothing changes.
    pub fn validated_peer(&mut self, addr: SocketAddr) -> Result<(), NoMemory>
        ensures ok { OnOk result
            (self.new ≡ record self.old { validated = finite.insert self.old.validated addr tt }) }
        ensures err { OnErr result (self.new ≡ self.old) }
    {
        self.validated.insert(addr, ())?;
        Ok(())
    }

    /// Removes the transaction with this ID, if there is one.
    pub(crate) fn take_out(&mut self, transaction_id: TransactionId)
        ensures { self.new
            ≡ record self.old { outstanding = finite.remove self.old.outstanding transaction_id } }
    {
        self.outstanding.remove(transaction_id);
    }

    /// Returns the earliest time at which there is something to do, but no earlier than `now` and
    /// no later than the longest wait.
    fn next_time(&mut self, now: Instant) -> Instant
        requires { NoneEnded self.old now }
        ensures next { IsNext self.old now result }
        ensures state { self.new ≡ self.old }
    {
        let most = hour_after(now);
        self.outstanding.next_time(now, most)
    }
}

/// Returns whether a transport is TCP.
fn goes_by_tcp(transport: TransportType) -> bool
    ensures { result ≡ is_tcp transport }
{
    match transport {
        TransportType::Tcp => true,
        TransportType::Udp => false,
    }
}

/// Returns the time at the end of the longest wait.
fn hour_after(now: Instant) -> Instant
    ensures is { result ≡ time_after now longest_wait }
    ensures later { now ≤ result }
{
    now.saturating_add(Duration::from_secs(LONGEST_WAIT))
}

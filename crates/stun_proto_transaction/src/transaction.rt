//! An outstanding request: its state, and the changes that a caller can make to it. Contracts of
//! other crates use `Cancelled` and `Change`.

ghost use Rattle.std.specs.Prelude.{◌≡◌, ◌+◌, ◌<◌, ◌≤◌, ◌^◌, true};
ghost use Rattle.stun_types_message.specs.Wire.Grammar.{visible};
ghost use Rattle.stun_types_message.specs.MessageValidation.{last_algorithm};
ghost use Rattle.stun_proto_transaction.specs.Agents.{changed, ends_from, continues, has_left};
ghost use Rattle.stun_proto_transaction.specs.Agents.{integrity_of, is_due, is_over, next_slot};
ghost use Rattle.stun_proto_transaction.specs.Agents.{sends_from, transmitted};
ghost use Rattle.stun_proto_transaction.specs.Agents.{without_retransmissions};
ghost use Rattle.stun_proto_transaction.specs.Schedule.{transmissions};

use crate::stun_types_base::instant::Instant;
use crate::stun_types_wire::algorithm::IntegrityAlgorithm;
use crate::waits::Waits;
use std::marker::Model;
use std::net::SocketAddr;
use stun_types_message::parsed::Message;

/// How far a transaction is cancelled. Contracts use it; no call of the public crate returns it.
#[derive(Clone, Copy, Debug, PartialEq, Eq)]
pub enum Cancelled {
    /// It is not cancelled.
    Nothing,
    /// It is not retransmitted any more; its end does not change.
    Retransmissions,
    /// It is not transmitted any more and has ended.
    Whole,
}

impl Cancelled {
    /// Returns whether nothing is cancelled.
    fn continues(self) -> bool
        ensures { result ≡ continues self }
    {
        match self {
            Cancelled::Nothing => true,
            Cancelled::Retransmissions | Cancelled::Whole => false,
        }
    }

    /// Returns the state after retransmissions are cancelled too.
    fn silenced(self) -> Cancelled
        ensures { result ≡ without_retransmissions self }
    {
        match self {
            Cancelled::Whole => Cancelled::Whole,
            Cancelled::Nothing | Cancelled::Retransmissions => Cancelled::Retransmissions,
        }
    }

    /// Returns whether the whole transaction is cancelled.
    pub fn is_over(self) -> bool
        ensures { result ≡ is_over self }
    {
        match self {
            Cancelled::Whole => true,
            Cancelled::Nothing | Cancelled::Retransmissions => false,
        }
    }
}

/// An outstanding request. Contracts see the record `Transaction` of `specs/Agents.antt`.
///
/// It holds the bytes and their destination, the time of the first transmission, the number of
/// transmissions so far, the waits, and how far it is cancelled.
#[derive(Debug, Drop)]
pub struct Transaction {
    bytes: Vec<u8>,
    to: SocketAddr,
    sent: Instant,
    used: u32,
    waits: Waits,
    cancelled: Cancelled,
}

impl Model for Transaction {
    ghost use Rattle.stun_proto_transaction.specs.Agents.{Transaction as TransactionOf};

    ghost Value = { TransactionOf };

    ghost view = { λ t. record {
      bytes = t.bytes.items;
      to = t.to;
      sent = t.sent;
      used = t.used;
      waits = t.waits;
      cancelled = t.cancelled;
    } };
}

impl Transaction {
    /// Creates a request whose first transmission is made at `sent`.
    pub fn new(bytes: Vec<u8>, to: SocketAddr, sent: Instant, waits: Waits) -> Transaction
        ensures { result ≡ record {
          bytes = bytes.items;
          to = to;
          sent = sent;
          used = 1;
          waits = waits;
          cancelled = Cancelled.Nothing;
        } }
    {
        Transaction {
            bytes,
            to,
            sent,
            used: 1,
            waits,
            cancelled: Cancelled::Nothing,
        }
    }

    /// The bytes of the request.
    pub fn bytes(&self) -> &[u8]
        ensures { result.now ≡ self.now.bytes }
    {
        self.bytes.as_slice()
    }

    /// The destination of the request.
    pub fn to(&self) -> SocketAddr
        ensures { result ≡ self.now.to }
    {
        self.to
    }

    /// Returns whether the whole transaction is cancelled.
    pub fn is_over(&self) -> bool
        ensures { result ≡ is_over self.now.cancelled }
    {
        self.cancelled.is_over()
    }

    /// Returns whether a transmission is left.
    fn has_left(&self, is_tcp: bool) -> bool
        ensures { result ≡ has_left is_tcp self.now }
    {
        self.cancelled.continues() && self.used < self.waits.transmissions(is_tcp)
    }

    /// Returns the time of the next transmission.
    fn next_slot(&self) -> Instant
        ensures { result ≡ next_slot self.now }
    {
        self.waits.slot(self.sent, self.used)
    }

    /// Returns whether a transmission is due at `now`.
    pub fn is_due(&self, is_tcp: bool, now: Instant) -> bool
        ensures { result ≡ is_due is_tcp now self.now }
    {
        self.has_left(is_tcp) && self.next_slot() <= now
    }

    /// Returns the time at which the next transmission is due, or the greatest possible time if
    /// none is left.
    pub fn sends_from(&self, is_tcp: bool) -> Instant
        ensures { result ≡ sends_from is_tcp self.now }
    {
        if self.has_left(is_tcp) {
            self.next_slot()
        } else {
            Instant::from_nanos(u64::MAX)
        }
    }

    /// Returns the time at which the transaction ends, or time zero if the whole transaction is
    /// cancelled.
    pub fn ends_from(&self) -> Instant
        ensures { result ≡ ends_from self.now }
    {
        if self.is_over() {
            Instant::ZERO
        } else {
            self.waits.end(self.sent)
        }
    }

    /// Returns the algorithm of the last visible integrity attribute of the request, or `None`.
    pub fn integrity(&self) -> Option<IntegrityAlgorithm>
        ensures { result ≡ integrity_of self.now }
    {
        match Message::from_bytes(self.bytes.as_slice()) {
            Ok(request) => request.last_integrity(),
            Err(_) => None,
        }
    }

    /// Counts a transmission if one is left.
    pub fn transmit(&mut self, is_tcp: bool)
        ensures { self.new ≡ transmitted is_tcp self.old }
    {
        // Proof only: `has_left` is written out, because its result alone does not show that the
        // sum fits.
        if self.cancelled.continues() && self.used < self.waits.transmissions(is_tcp) {
            self.used += 1;
        }
    }

    /// Changes the transaction.
    pub fn change(&mut self, change: Change)
        ensures { self.new ≡ changed change self.old }
    {
        match change {
            Change::ConfigureTimeout(waits) => self.waits = waits,
            Change::CancelRetransmissions => self.cancelled = self.cancelled.silenced(),
            Change::Cancel => self.cancelled = Cancelled::Whole,
        }
    }
}

/// A change that a caller makes to a transaction with the calls of `StunRequestMut`. Contracts use
/// it; no call of the public crate takes it.
#[derive(Debug, Drop)]
pub enum Change {
    /// Replaces the waits. They count from the first transmission.
    ConfigureTimeout(Waits),
    /// Stops retransmission; the end does not change.
    CancelRetransmissions,
    /// Stops retransmission and ends the transaction.
    Cancel,
}

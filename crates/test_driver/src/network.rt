//! A network that takes time. Of each request one transmission reaches the server core, the first;
//! each reply reaches the client once and unaltered, over TCP in two chunks.

ghost use Rattle.std.specs.Prelude.{◌≡◌, false, max, min};
ghost use Rattle.stun_types_base.specs.Times.{time_after};
ghost use Rattle.test_driver.specs.Driving.{IsAlike, IsStill};

use std::alloc::Global;
use std::time::Duration;
use stun_types_base::data::Data;
use stun_types_base::instant::Instant;
use stun_types_base::memory::NoMemory;
use stun_types_base::transmit::Transmit;
use turn_client_proto_api::event::TurnEvent;
use turn_desk_event::answer::Answer;

/// By how much the indexes of two cuts differ that follow each other.
const STEP: usize = 6;

/// A message that the client transmitted.
#[derive(Debug, Drop)]
pub struct Seen {
    /// The time at which it did, in nanoseconds.
    pub at: u64,
    /// The bytes.
    pub bytes: Vec<u8>,
}

/// The clocks of a client and a server core, and what the client transmitted and reported.
#[derive(Debug, Drop)]
pub struct Network {
    /// The time by the client's clock.
    pub time: Instant,
    /// How long a message takes, in nanoseconds.
    pub latency: u64,
    /// How far the server core's clock is ahead of the client's, in nanoseconds.
    pub lead: u64,
    /// The index at which the next reply over TCP is cut.
    pub cut: usize,
    /// Whether forged datagrams reach the client before each reply.
    pub forges: bool,
    /// How many requests have set out for the server core. One that the end of the driver's loop
    /// keeps from arriving counts too.
    pub count: u8,
    /// What the client transmitted.
    pub seen: Vec<Seen>,
    /// The time at which the client reported an allocation, in nanoseconds.
    pub reported: Option<u64>,
}

impl Network {
    /// Returns a network with this latency. The first reply is cut at this index.
    pub fn new(alloc: Global, latency: u64, cut: usize) -> Network
        ensures time { result.time ≡ 0 }
        ensures latency { result.latency ≡ latency }
        ensures lead { result.lead ≡ 0 }
        ensures forges { result.forges ≡ false }
    {
        Network {
            time: Instant::ZERO,
            latency,
            lead: 0,
            cut,
            forges: false,
            count: 0,
            seen: Vec::new(alloc),
            reported: None,
        }
    }

    /// Records what the client transmits.
    pub fn record(&mut self, alloc: Global, sent: &Transmit<Data<'_>>) -> Result<(), NoMemory>
        ensures { IsStill self.old self.new }
    {
        let bytes = Vec::from_slice(alloc, sent.bytes.as_slice())?;
        let at = self.time.as_nanos();
        Ok(self.seen.push(Seen { at, bytes })?)
    }

    /// Returns whether the answer is an event of the client's. If it reports an allocation, records
    /// the time.
    pub fn reports(&mut self, answer: &Answer) -> bool
        ensures { IsStill self.old self.new }
    {
        match answer {
            Answer::Event(event) => {
                if let TurnEvent::AllocationCreated(_, _) = event {
                    self.reported = Some(self.time.as_nanos());
                }
                true
            }
            _ => false,
        }
    }

    /// Lets the clock go on to this time, but no further than to `until`. It never goes back.
    pub fn advance(&mut self, time: Instant, until: Instant)
        ensures time { self.new.time ≡ max self.old.time (min time until) }
        ensures alike { IsAlike self.old self.new }
    {
        self.time = self.time.max(time.min(until));
    }

    /// Returns the seed for the server core's handling of a request that sets out now, and counts
    /// that request.
    pub fn seed(&mut self) -> [u8; 32]
        ensures { IsStill self.old self.new }
    {
        let seed = [self.count; 32];
        self.count = self.count.saturating_add(1);
        seed
    }

    /// Has the next reply over TCP cut later.
    pub fn cut_later(&mut self)
        ensures { IsStill self.old self.new }
    {
        self.cut = self.cut.saturating_add(STEP);
    }

    /// Returns the time this many nanoseconds later, by the client's clock.
    pub fn after(&self, nanos: u64) -> Instant
        ensures { result ≡ time_after self.now.time nanos }
    {
        self.time.saturating_add(Duration::from_nanos(nanos))
    }
}

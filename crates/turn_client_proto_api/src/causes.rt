//! The causes of a client's queued events, in the order of the events.

ghost use Rattle.std.specs.Option.{option_copied};
ghost use Rattle.std.specs.Prelude.{◌≡◌};
ghost use Rattle.turn_client_proto_api.specs.Causes.{IsPushed, advanced, cause_taken, is_failure, no_causes};

use crate::cause::TurnCause;
use crate::event::TurnEvent;
use crate::queue::QueueOf;
use std::alloc::Global;

/// The cause of the events that one message or one call queued.
#[derive(Debug, Drop)]
pub struct Run {
    /// How many events it queued, at least one.
    pub count: usize,
    /// The cause of those that report that something failed or ended.
    pub cause: TurnCause,
}

/// The causes of a client's queued events, and of the event that was polled last.
///
/// The causes are those of the oldest events: if memory for a cause runs out, it and those of later
/// events are not noted, until no event is queued.
#[derive(Debug, Drop)]
pub struct Causes {
    /// The causes, in the order of the events. There are no more than queued events.
    pub runs: QueueOf<Run>,
    /// How many of the queued events, from the oldest, have their cause here or in `last`.
    pub covered: usize,
    /// How many of the queued events, from the oldest, have the cause `last`.
    pub left: usize,
    /// The cause of the event that was polled last, and of those queued with it.
    pub last: TurnCause,
    /// Whether the event that was polled last reports that something failed or ended.
    pub is_failure: bool,
}

impl Causes {
    /// Creates the causes of a client that has no event, which hold no memory.
    pub fn new(alloc: Global) -> Causes
        ensures { result ≡ no_causes }
    {
        Causes {
            runs: QueueOf::new(alloc),
            covered: 0,
            left: 0,
            last: TurnCause::OutOfMemory,
            is_failure: false,
        }
    }

    /// Notes the cause of the events that were queued since `before` were, if there are some now
    /// that there are `events`. If memory runs out, or the cause of an earlier event is not noted,
    /// nothing changes.
    pub fn push(&mut self, before: usize, events: usize, cause: TurnCause)
        ensures { IsPushed before events cause self.old self.new }
    {
        if self.covered != before || before >= events {
            return;
        }
        let run = Run {
            count: events - before,
            cause,
        };
        if self.runs.push_back(run).is_ok() {
            self.covered = events;
        }
    }

    /// Goes on to the cause of the oldest queued event, which is taken from the queue now.
    pub fn advance(&mut self, event: TurnEvent)
        ensures { self.new ≡ advanced event self.old }
    {
        self.is_failure = is_failure(event);
        self.covered = self.covered.saturating_sub(1);
        if self.left > 0 {
            self.left -= 1;
            return;
        }
        match self.runs.pop_front() {
            Some(run) => {
                self.left = run.count.saturating_sub(1);
                self.last = run.cause;
            }
            None => {
                self.last = TurnCause::OutOfMemory;
            }
        }
    }

    /// Returns the cause of the event that was taken last, or `None` if that reports a success, or
    /// if none was taken.
    pub fn cause(&self) -> Option<&TurnCause>
        ensures { option_copied result ≡ cause_taken self.now }
    {
        if self.is_failure {
            Some(&self.last)
        } else {
            None
        }
    }
}

/// Returns whether an event reports that something failed or ended.
fn is_failure(event: TurnEvent) -> bool
    ensures { result ≡ is_failure event }
{
    match event {
        TurnEvent::AllocationCreateFailed(_)
        | TurnEvent::PermissionCreateFailed(..)
        | TurnEvent::ChannelCreateFailed(..)
        | TurnEvent::TcpConnectFailed(_) => true,
        TurnEvent::AllocationCreated(..)
        | TurnEvent::PermissionCreated(..)
        | TurnEvent::ChannelCreated(..)
        | TurnEvent::TcpConnected(_) => false,
    }
}

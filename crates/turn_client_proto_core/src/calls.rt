//! Calls of the application that read or drain a client.

ghost use Rattle.std.specs.Prelude.{◌≡◌, ◌++◌, [], IfNone, option_to_list};
ghost use Rattle.turn_client_proto_core.specs.Deleting.{is_authenticated};

use crate::protocol::{Phase, Protocol};
use turn_client_proto_api::event::TurnEvent;

/// Removes and returns the oldest event.
pub fn poll_event(protocol: &mut Protocol) -> Option<TurnEvent>
    ensures event { protocol.old.events ≡ option_to_list result ++ protocol.new.events }
    ensures none { IfNone result (protocol.old.events ≡ []) }
    ensures others { protocol.new ≡ record protocol.old { events = protocol.new.events } }
{
    protocol.events.pop_front()
}

impl Protocol {
    /// Returns whether the server has allocated and the client has not ended.
    pub fn is_authenticated(&self) -> bool
        ensures { result ≡ is_authenticated self.now.phase }
    {
        matches!(self.phase, Phase::Authenticated)
    }
}

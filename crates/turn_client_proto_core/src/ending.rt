//! Ending of a client.

ghost use Rattle.std.specs.Prelude.{◌≡◌, ◌≢◌, [], OnOk, OnErr};
ghost use Rattle.turn_client_proto_core.specs.Ending.{ended, failed};

use crate::protocol::{Phase, Protocol};
use stun_proto_agent::agent::StunAgent;
use stun_types_base::memory::NoMemory;
use turn_client_proto_messages::reporting::report_failures;

/// Ends the client: queues an `AllocationCreateFailed` event for each family, in order. Outstanding
/// requests, allocations, queued messages and queued events stay.
///
/// # Errors
///
/// - `NoMemory`: a memory allocation failed; nothing changed. This can happen only if there is a
///   family to report, as there is in every client.
pub fn end(protocol: &mut Protocol) -> Result<(), NoMemory>
    ensures ok { OnOk result (protocol.new ≡ ended protocol.old) }
    ensures err { OnErr result (protocol.new ≡ protocol.old) }
    ensures memory { OnErr result (protocol.old.families ≢ []) }
{
    report_failures(&mut protocol.events, protocol.families.as_slice())?;
    protocol.phase = Phase::Ended;
    Ok(())
}

impl Protocol {
    /// Ends the client after a memory allocation failed: it has no allocations, awaits no response
    /// and sends nothing more. Only the first `events` of its events stay queued.
    #[tactic(auto, unfolding(crate::specs::Ending::failed))]
    pub fn fail(&mut self, events: usize)
        ensures { self.new ≡ failed events self.old }
    {
        let agent = StunAgent::builder(self.alloc, self.agent.transport(), self.agent.local_addr());
        self.agent = agent.build();
        self.phase = Phase::Ended;
        self.allocations.clear();
        self.queue.clear();
        self.closing.clear();
        self.events.truncate(events);
    }
}

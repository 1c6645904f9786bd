//! Handling of the success response to an ALLOCATE (RFC 8656, section 7.3).

ghost use Rattle.std.specs.Prelude.{◌≡◌, IfOk, OnOk, OnErr};
ghost use Rattle.turn_client_proto_core.specs.Allocating.{IsAllocated, allocated, phase_by};
ghost use Rattle.turn_client_proto_core.specs.Ending.{IsUnderWay};

use crate::ending::end;
use crate::protocol::{Phase, Protocol};
use stun_types_base::instant::Instant;
use stun_types_base::memory::NoMemory;
use stun_types_message::parsed::Message;
use turn_client_proto_allocation::allocation::Allocation;
use turn_client_proto_allocation::listed::Allocations;
use turn_client_proto_messages::granting::{Terms, allocations_of};
use turn_client_proto_messages::reported::lifetime_reported;
use turn_client_proto_messages::reporting::{report_created, report_without};

/// Returns the phase of a client with these allocations: `Ended` if there are none, else
/// `Authenticated`.
fn phase_by(allocations: &[Allocation]) -> Phase
    ensures { result ≡ phase_by allocations.now }
{
    if allocations.is_empty() {
        Phase::Ended
    } else {
        Phase::Authenticated
    }
}

impl Protocol {
    /// Handles an accepted success response to a signed ALLOCATE: installs its allocations, or ends
    /// the client if the response has no readable LIFETIME.
    pub(crate) fn take_success(
        &mut self,
        message: &Message<'_>,
        now: Instant,
    ) -> Result<bool, NoMemory>
        ensures ok { IfOk result (λ handled.
            IsAllocated self.old message.now now handled self.new) }
        ensures err { OnErr result (IsUnderWay self.old self.new) }
    {
        let Some(lifetime) = lifetime_reported(message) else {
            end(self)?;
            return Ok(true);
        };
        let terms = Terms {
            families: self.families,
            transport: self.allocates,
            lifetime,
            time: now,
        };
        let allocations = allocations_of(self.alloc, message, &terms)?;
        self.keep_allocations(allocations)?;
        Ok(true)
    }

    /// Installs the allocations that a success response granted. Queues an event for each of them,
    /// then a failure event for each requested family that got none.
    fn keep_allocations(&mut self, allocations: Allocations) -> Result<(), NoMemory>
        ensures ok { OnOk result (self.new ≡ allocated allocations self.old) }
        ensures err { OnErr result (IsUnderWay self.old self.new) }
    {
        report_created(&mut self.events, allocations.as_slice())?;
        report_without(
            &mut self.events,
            self.families.as_slice(),
            allocations.as_slice(),
        )?;
        self.phase = phase_by(allocations.as_slice());
        self.allocations = allocations;
        Ok(())
    }
}

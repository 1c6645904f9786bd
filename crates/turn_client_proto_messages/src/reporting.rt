//! The events for allocations that are created or not (RFC 8656, sections 7.3 and 7.4).

ghost use Rattle.std.specs.Prelude.{◌≡◌, ◌++◌, OnOk, OnErr, length, map, take};
ghost use Rattle.turn_client_proto_api.specs.declared.event.TurnEvent.TheVariants.{AllocationCreateFailed};
ghost use Rattle.turn_client_proto_messages.specs.Granting.{families_without};
ghost use Rattle.turn_client_proto_messages.specs.Reporting.{created};

use crate::granting::has_family;
use stun_types_base::family::AddressFamily;
use stun_types_base::memory::NoMemory;
use turn_client_proto_allocation::allocation::Allocation;
use turn_client_proto_api::event::TurnEvent;
use turn_client_proto_api::queue::QueueOf;

/// Queues an `AllocationCreated` for each allocation. Fails with `NoMemory` if memory runs out. The
/// events that were queued before are then still the first ones.
#[tactic(auto, using(turn_client_proto_allocation::proofs::Prefixes::stored))]
pub fn report_created(
    events: &mut QueueOf<TurnEvent>,
    allocations: &[Allocation],
) -> Result<(), NoMemory>
    ensures ok { OnOk result (events.new ≡ events.old ++ map created allocations.now) }
    ensures err { OnErr result (take (length events.old) events.new ≡ events.old) }
{
    for allocation in allocations {
        let created = TurnEvent::AllocationCreated(allocation.transport, allocation.address);
        events.push_back(created)?;
    }
    Ok(())
}

/// Queues an `AllocationCreateFailed` for each family that has no allocation. Fails with `NoMemory`
/// if memory runs out. The events that were queued before are then still the first ones.
#[tactic(auto, using(turn_client_proto_allocation::proofs::Prefixes::stored))]
pub fn report_without(
    events: &mut QueueOf<TurnEvent>,
    families: &[AddressFamily],
    allocations: &[Allocation],
) -> Result<(), NoMemory>
    ensures ok { OnOk result (events.new ≡ events.old
        ++ map AllocationCreateFailed (families_without families.now allocations.now)) }
    ensures err { OnErr result (take (length events.old) events.new ≡ events.old) }
{
    for family in families {
        if !has_family(allocations, *family) {
            events.push_back(TurnEvent::AllocationCreateFailed(*family))?;
        }
    }
    Ok(())
}

/// Queues an `AllocationCreateFailed` for each of the families. If memory runs out, fails with
/// `NoMemory` and nothing changes.
pub fn report_failures(
    events: &mut QueueOf<TurnEvent>,
    families: &[AddressFamily],
) -> Result<(), NoMemory>
    ensures ok { OnOk result (events.new
        ≡ events.old ++ map AllocationCreateFailed families.now) }
    ensures err { OnErr result (events.new ≡ events.old) }
{
    let count = events.len();
    match push_failures(events, families) {
        Ok(()) => Ok(()),
        Err(e) => {
            events.truncate(count);
            Err(e)
        }
    }
}

/// Queues an `AllocationCreateFailed` for each of the families. Fails with `NoMemory` if memory
/// runs out. Some events may have been queued then; those that were queued before are still the
/// first ones.
#[tactic(auto, using(turn_client_proto_allocation::proofs::Prefixes::stored))]
fn push_failures(
    events: &mut QueueOf<TurnEvent>,
    families: &[AddressFamily],
) -> Result<(), NoMemory>
    ensures ok { OnOk result (events.new
        ≡ events.old ++ map AllocationCreateFailed families.now) }
    ensures err { OnErr result (take (length events.old) events.new ≡ events.old) }
{
    for family in families {
        events.push_back(TurnEvent::AllocationCreateFailed(*family))?;
    }
    Ok(())
}

//! The allocations that a success response to an ALLOCATE grants (RFC 8656, section 7.3).

ghost use Rattle.std.specs.Prelude.{◌≡◌, IfOk, OnOk};
ghost use Rattle.turn_client_proto_messages.specs.Granting.{allocations_of, counts, has_family, with_address};
ghost use Rattle.turn_client_proto_messages.specs.Reported.{relayed_reported};

use crate::reported::relayed_in;
use std::alloc::Global;
use std::net::SocketAddr;
use stun_types_base::family::AddressFamily;
use stun_types_base::instant::Instant;
use stun_types_base::memory::NoMemory;
use stun_types_base::transport::TransportType;
use stun_types_message::parsed::Message;
use stun_types_write::attribute::AttributeStaticType;
use turn_client_proto_allocation::allocation::Allocation;
use turn_client_proto_allocation::listed::Allocations;
use turn_client_proto_api::families::RequestedFamilies;
use turn_types_attributes::xor_relayed_address::XorRelayedAddress;

/// What allocations have in common, besides their addresses.
#[derive(Debug, Drop)]
pub struct Terms {
    /// The requested address families.
    pub families: RequestedFamilies,
    /// The transport between the server and the peers.
    pub transport: TransportType,
    /// The granted lifetime, in seconds.
    pub lifetime: u32,
    /// The time at which the response was received.
    pub time: Instant,
}

/// Returns whether one of the allocations has a relayed address of this family.
pub fn has_family(allocations: &[Allocation], family: AddressFamily) -> bool
    ensures { result ≡ has_family family allocations.now }
{
    allocations
        .iter()
        .any(|a| family == AddressFamily::from(&a.address))
}

/// Returns whether an address makes a new allocation: its family is requested, and no allocation
/// has an address of it yet.
fn counts(families: RequestedFamilies, allocations: &[Allocation], address: SocketAddr) -> bool
    ensures { result ≡ counts families allocations.now address }
{
    let family = AddressFamily::from(&address);
    families.contains(family) && !has_family(allocations, family)
}

/// Appends an allocation with this relayed address, unless its family is not requested or has an
/// allocation already. Fails with `NoMemory` if memory runs out.
#[tactic(auto, unfolding(crate::specs::Granting::with_address))]
fn add_address(
    alloc: Global,
    allocations: &mut Allocations,
    terms: &Terms,
    address: SocketAddr,
) -> Result<(), NoMemory>
    ensures { OnOk result (allocations.new ≡ with_address terms.now.families terms.now.transport
        terms.now.lifetime terms.now.time allocations.old address) }
{
    if !counts(terms.families, allocations.as_slice(), address) {
        return Ok(());
    }
    let granted = Allocation::granted(alloc, terms.transport, address, terms.lifetime, terms.time);
    allocations.push(granted)
}

/// Returns the allocations that a success response to an ALLOCATE grants: one for the first address
/// of each requested family, in the order of the response.
///
/// Only the XOR-RELAYED-ADDRESSes before the first malformed one count. Fails with `NoMemory` if
/// memory runs out.
#[tactic(auto, using(crate::proofs::Firsts::firsts), unfolding(crate::proofs::Firsts::reported_before))]
pub fn allocations_of(
    alloc: Global,
    message: &Message<'_>,
    terms: &Terms,
) -> Result<Allocations, NoMemory>
    ensures { IfOk result (λ allocations. allocations ≡ allocations_of terms.now.families
        terms.now.transport terms.now.lifetime terms.now.time (relayed_reported message.now)) }
{
    let number = message.transaction_id();
    let mut allocations = Allocations::new(alloc);
    for (_, raw) in message.iter_attributes() {
        if raw.get_type() == XorRelayedAddress::TYPE {
            let Some(address) = relayed_in(&raw, number) else {
                return Ok(allocations);
            };
            add_address(alloc, &mut allocations, terms, address)?;
        }
    }
    Ok(allocations)
}

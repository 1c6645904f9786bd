//! Permissions that the client requests (RFC 8656, section 10.1).

ghost use Rattle.std.specs.Prelude.{◌≡◌, ◌<◌, List, OnOk, OnErr, IfSome, length, position, slice_get, slice_set};
ghost use Rattle.std.specs.List.{list_any};
ghost use Rattle.turn_client_proto_allocation.specs.declared.allocation.Allocation.{Allocation as Stored};
ghost use Rattle.turn_client_proto_allocation.specs.declared.permission.PendingPermission.{PendingPermission as Pending};
ghost use Rattle.turn_client_proto_peers.specs.Permission.Asking.{asking, is_of, marked, permits_over};

use crate::permission::one::{is_of, permits_over};
use std::net::IpAddr;
use stun_types_base::family::AddressFamily;
use stun_types_base::memory::NoMemory;
use stun_types_base::transport::TransportType;
use turn_client_proto_allocation::allocation::Allocation;
use turn_client_proto_allocation::listed::Allocations;
use turn_client_proto_allocation::permission::PendingPermission;

/// Returns the index of the first allocation of this transport whose relayed address is of this
/// family.
pub fn index_of(
    allocations: &[Allocation],
    transport: TransportType,
    family: AddressFamily,
) -> Option<usize>
    ensures { result ≡ position (is_of transport family) allocations.now }
{
    allocations.iter().position(|a| is_of(a, transport, family))
}

/// Returns whether one of the allocations of this transport that are not marked as expired has an
/// active permission for the address.
#[inline(always)]
pub fn permits_any(allocations: &[Allocation], transport: TransportType, ip: IpAddr) -> bool
    ensures { result ≡ list_any (permits_over transport ip) allocations.now }
{
    allocations.iter().any(|a| permits_over(a, transport, ip))
}

/// Marks the allocation at `index` as expired.
pub fn mark(allocations: &mut Allocations, index: usize)
    requires { index < length allocations.old }
    ensures { IfSome (slice_get allocations.old index)
        (λ a. allocations.new ≡ slice_set allocations.old index (marked a)) }
{
    let items = allocations.as_mut_slice();
    items[index].is_expired = true;
}

/// Appends a pending permission to the allocation at `index`. If memory runs out, fails with
/// `NoMemory` and nothing changes.
pub fn ask(
    allocations: &mut Allocations,
    index: usize,
    pending: PendingPermission,
) -> Result<(), NoMemory>
    requires { index < length allocations.old }
    ensures ok { OnOk result (IfSome (slice_get allocations.old index)
        (λ a. allocations.new ≡ slice_set allocations.old index (asking pending a))) }
    ensures err { OnErr result (allocations.new ≡ allocations.old) }
{
    let items = allocations.as_mut_slice();
    items[index].pending_permissions.push(pending)
}

/// Removes the pending permission that was appended last from the allocation at `index`.
pub fn forget(allocations: &mut Allocations, index: usize)
    requires { index < length allocations.old }
    ensures { (before : List Stored) (a : Stored) (pending : Pending)
        → slice_get before index ≡ Some a
        → allocations.old ≡ slice_set before index (asking pending a) → allocations.new ≡ before }
{
    let items = allocations.as_mut_slice();
    items[index].pending_permissions.pop();
}

//! The permissions that the getters list.

ghost use Rattle.std.specs.Prelude.{◌≡◌, position};
ghost use Rattle.turn_client_proto_peers.specs.Permission.Visible.{is_at, permissions_at};

use std::net::SocketAddr;
use stun_types_base::transport::TransportType;
use turn_client_proto_allocation::allocation::Allocation;
use turn_client_proto_allocation::permission::Permission;

/// Returns whether the allocation has this transport and relayed address and is not marked as
/// expired.
fn is_at(a: &Allocation, transport: TransportType, relayed: SocketAddr) -> bool
    ensures { result ≡ is_at transport relayed a.now }
{
    !a.is_expired && a.transport == transport && a.address == relayed
}

/// Returns the index of the first allocation with this transport and relayed address that is not
/// marked as expired.
fn index_at(
    allocations: &[Allocation],
    transport: TransportType,
    relayed: SocketAddr,
) -> Option<usize>
    ensures { result ≡ position (is_at transport relayed) allocations.now }
{
    allocations
        .iter()
        .position(|a| is_at(a, transport, relayed))
}

/// Returns the active permissions of the first allocation with this transport and relayed address
/// that is not marked as expired.
#[tactic(auto, using(turn_client_proto_allocation::proofs::Changes::first_by_index))]
pub fn permissions_at(
    allocations: &[Allocation],
    transport: TransportType,
    relayed: SocketAddr,
) -> &[Permission]
    ensures { result.now ≡ permissions_at transport relayed allocations.now }
{
    match index_at(allocations, transport, relayed) {
        Some(index) => allocations[index].permissions.as_slice(),
        None => &[],
    }
}

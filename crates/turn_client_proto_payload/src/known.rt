//! Which peers a client permits: those with a permission, and those of channels (RFC 8656, sections
//! 9 and 12).
#![tactic(auto, using(turn_client_proto_core::proofs::Usual::usual), unfolding(turn_client_proto_core::proofs::Usual::opened))]

ghost use Rattle.std.specs.Prelude.{◌≡◌, find};
ghost use Rattle.turn_client_proto_allocation.specs.Permits.{permits};
ghost use Rattle.turn_client_proto_payload.specs.Payloads.{bound, bound_in, permitted};

use std::net::{IpAddr, SocketAddr};
use stun_types_base::transport::TransportType;
use turn_client_proto_allocation::allocation::Allocation;
use turn_client_proto_allocation::permitted::permits;

/// Returns the transport of the first allocation that has an active permission for this address. An
/// allocation that is marked as expired counts too.
pub fn permitted(allocations: &[Allocation], ip: IpAddr) -> Option<TransportType>
    ensures { result ≡ permitted ip allocations.now }
{
    for allocation in allocations {
        if permits(allocation, ip) {
            return Some(allocation.transport);
        }
    }
    None
}

/// Returns the transport of an allocation, and the peer of its first channel with this number.
fn bound_in(a: &Allocation, number: u16) -> Option<(TransportType, SocketAddr)>
    ensures { result ≡ bound_in number a.now }
{
    for channel in a.channels.as_slice() {
        if channel.number.number() == number {
            return Some((a.transport, channel.peer));
        }
    }
    None
}

/// Returns the transport and the peer of the first channel with this number. An allocation that is
/// marked as expired counts too.
pub fn bound(allocations: &[Allocation], number: u16) -> Option<(TransportType, SocketAddr)>
    ensures { result ≡ bound number allocations.now }
{
    for allocation in allocations {
        if let Some(to) = bound_in(allocation, number) {
            return Some(to);
        }
    }
    None
}

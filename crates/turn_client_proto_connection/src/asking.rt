//! Connections that the client requests (RFC 6062, section 4.3).

ghost use Rattle.std.specs.Prelude.{◌≡◌, ◌<◌, List, OnOk, OnErr, IfSome, length, slice_get, slice_set};
ghost use Rattle.std.specs.List.{list_any};
ghost use Rattle.turn_client_proto_allocation.specs.declared.allocation.Allocation.{Allocation as Stored};
ghost use Rattle.turn_client_proto_allocation.specs.declared.connection.Connecting.{Connecting as Requested};
ghost use Rattle.turn_client_proto_connection.specs.Asking.{barring, connecting, has_way_to, is_connecting_to, is_joined_to, is_waiting_for};

use std::net::SocketAddr;
use stun_types_base::memory::NoMemory;
use turn_client_proto_allocation::allocation::Allocation;
use turn_client_proto_allocation::connection::{Connecting, Connection, Waiting};
use turn_client_proto_allocation::listed::Allocations;
use turn_client_proto_allocation::permitted::permits;
use turn_client_proto_api::error::TcpConnectError;

/// Returns whether one of the data connections is to the peer.
pub(crate) fn is_any_joined(connections: &[Connection], peer: SocketAddr) -> bool
    ensures { result ≡ list_any (is_joined_to peer) connections.now }
{
    connections.iter().any(|c| c.peer == peer)
}

/// Returns whether one of the connections that wait for a socket is to the peer.
pub(crate) fn is_any_waiting(waiting: &[Waiting], peer: SocketAddr) -> bool
    ensures { result ≡ list_any (is_waiting_for peer) waiting.now }
{
    waiting.iter().any(|w| w.peer == peer)
}

/// Returns whether one of the outstanding CONNECT requests is for the peer.
fn is_any_connecting(connecting: &[Connecting], peer: SocketAddr) -> bool
    ensures { result ≡ list_any (is_connecting_to peer) connecting.now }
{
    connecting.iter().any(|c| c.peer == peer)
}

/// Returns whether the allocation has a data connection to the peer, a connection to it that waits
/// for a socket, or an outstanding CONNECT for it.
#[tactic(auto, unfolding(crate::specs::Asking::has_way_to))]
fn has_way_to(a: &Allocation, peer: SocketAddr) -> bool
    ensures { result ≡ has_way_to peer a.now }
{
    is_any_joined(a.connections.as_slice(), peer)
        || is_any_waiting(a.waiting.as_slice(), peer)
        || is_any_connecting(a.connecting.as_slice(), peer)
}

/// Returns why no connection to the peer can be requested in the allocation, or `None` if it can
/// be:
///
/// 1. `NoPermission`: the allocation has no active permission for the peer's address.
/// 2. `AlreadyExists`: there is a data connection to the peer, one that waits for its socket, or an
///    outstanding CONNECT.
#[tactic(auto, unfolding(crate::specs::Asking::barring))]
pub fn barring(a: &Allocation, peer: SocketAddr) -> Option<TcpConnectError>
    ensures { result ≡ barring peer a.now }
{
    if !permits(a, peer.ip()) {
        return Some(TcpConnectError::NoPermission);
    }
    if has_way_to(a, peer) {
        return Some(TcpConnectError::AlreadyExists);
    }
    None
}

/// Appends an outstanding CONNECT to the allocation at `index`. If memory runs out, fails
/// with `NoMemory` and nothing changes.
pub fn ask(
    allocations: &mut Allocations,
    index: usize,
    requested: Connecting,
) -> Result<(), NoMemory>
    requires { index < length allocations.old }
    ensures ok { OnOk result (IfSome (slice_get allocations.old index)
        (λ a. allocations.new ≡ slice_set allocations.old index (connecting requested a))) }
    ensures err { OnErr result (allocations.new ≡ allocations.old) }
{
    let items = allocations.as_mut_slice();
    items[index].connecting.push(requested)
}

/// Removes the CONNECT that was appended last from the allocation at `index`.
pub fn forget(allocations: &mut Allocations, index: usize)
    requires { index < length allocations.old }
    ensures { (before : List Stored) (a : Stored) (requested : Requested)
        → slice_get before index ≡ Some a
        → allocations.old ≡ slice_set before index (connecting requested a)
        → allocations.new ≡ before }
{
    let items = allocations.as_mut_slice();
    items[index].connecting.pop();
}

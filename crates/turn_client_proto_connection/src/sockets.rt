//! Opening and closing the sockets of connections to peers (RFC 6062, sections 4.3 and 4.6).

ghost use Rattle.std.specs.Prelude.{◌≡◌, ◌<◌, List, OnOk, OnErr, IfSome, Some, length, map, position, slice_get, slice_set};
ghost use Rattle.turn_client_proto_allocation.specs.declared.allocation.Allocation.{Allocation as Stored};
ghost use Rattle.turn_client_proto_allocation.specs.declared.connection.Connection.{Connection as Joined};
ghost use Rattle.turn_client_proto_connection.specs.Sockets.{awaits_socket, binding, closed, has_from, is_any_from, is_socket_for, release, not_for, to_bind};

use std::alloc::Global;
use std::net::SocketAddr;
use stun_types_base::list::ListOf;
use stun_types_base::memory::NoMemory;
use turn_client_proto_allocation::allocation::Allocation;
use turn_client_proto_allocation::connection::{Binding, Connection, Waiting};
use turn_client_proto_allocation::listed::Allocations;
use turn_types_frame::tcp::TurnTcpBuffer;

/// Returns whether a connection with this connection ID to this peer waits for its socket in the
/// allocation.
fn awaits_socket(a: &Allocation, connection: u32, peer: SocketAddr) -> bool
    ensures { result ≡ awaits_socket connection peer a.now }
{
    let waiting = a.waiting.as_slice();
    waiting
        .iter()
        .any(|w| w.connection == connection && w.peer == peer)
}

/// Returns the index of the first allocation in which such a connection waits for its socket.
pub fn index_of(allocations: &[Allocation], connection: u32, peer: SocketAddr) -> Option<usize>
    ensures { result ≡ position (awaits_socket connection peer) allocations.now }
{
    allocations
        .iter()
        .position(|a| awaits_socket(a, connection, peer))
}

/// Returns whether a data connection of the allocation has this own address.
pub(crate) fn has_from(a: &Allocation, here: SocketAddr) -> bool
    ensures { result ≡ has_from here a.now }
{
    a.connections.as_slice().iter().any(|c| c.here == here)
}

/// Returns whether a data connection of one of the allocations has this own address.
pub fn is_any_from(allocations: &[Allocation], here: SocketAddr) -> bool
    ensures { result ≡ is_any_from here allocations.now }
{
    allocations.iter().any(|a| has_from(a, here))
}

/// Appends a data connection that is to be bound by the outstanding CONNECTION_BIND `awaited` to
/// the allocation at `index`. If memory runs out, fails with `NoMemory` and nothing changes.
pub fn bind(
    alloc: Global,
    allocations: &mut Allocations,
    index: usize,
    here: SocketAddr,
    peer: SocketAddr,
    connection: u32,
    awaited: Binding,
) -> Result<(), NoMemory>
    requires { index < length allocations.old }
    ensures ok { OnOk result (IfSome (slice_get allocations.old index)
        (λ a. allocations.new
        ≡ slice_set allocations.old index (binding (to_bind here peer connection awaited) a))) }
    ensures err { OnErr result (allocations.new ≡ allocations.old) }
{
    let items = allocations.as_mut_slice();
    items[index].connections.push(Connection {
        here,
        peer,
        connection,
        awaited: Some(awaited),
        stream: TurnTcpBuffer::new(alloc),
    })
}

/// Removes the data connection that was appended last from the allocation at `index`.
pub fn forget(allocations: &mut Allocations, index: usize)
    requires { index < length allocations.old }
    ensures { (before : List Stored) (a : Stored) (connection : Joined)
        → slice_get before index ≡ Some a
        → allocations.old ≡ slice_set before index (binding connection a)
        → allocations.new ≡ before }
{
    let items = allocations.as_mut_slice();
    items[index].connections.pop();
}

/// Returns the index of the first waiting connection with this connection ID to this peer.
pub(crate) fn index_among(waiting: &[Waiting], connection: u32, peer: SocketAddr) -> Option<usize>
    ensures { result ≡ position (is_socket_for connection peer) waiting.now }
{
    waiting
        .iter()
        .position(|w| w.connection == connection && w.peer == peer)
}

/// Removes the first waiting connection with this connection ID to this peer.
fn drop_first(waiting: &mut ListOf<Waiting>, connection: u32, peer: SocketAddr)
    ensures { waiting.new ≡ not_for connection peer waiting.old }
{
    if let Some(index) = index_among(waiting.as_slice(), connection, peer) {
        waiting.remove(index);
    }
}

/// Removes, in each allocation, the first waiting connection with this connection ID to this peer.
#[tactic(auto, unfolding(crate::specs::Sockets::release))]
pub fn release(allocations: &mut [Allocation], connection: u32, peer: SocketAddr)
    ensures { allocations.new ≡ map (release connection peer) allocations.old }
{
    for allocation in allocations.iter_mut() {
        drop_first(&mut allocation.waiting, connection, peer);
    }
}

/// Removes the data connections with this own address.
#[tactic(auto, unfolding(crate::specs::Sockets::closed))]
pub fn close(allocations: &mut [Allocation], here: SocketAddr)
    ensures { allocations.new ≡ map (closed here) allocations.old }
{
    for allocation in allocations.iter_mut() {
        allocation.connections.retain(|c| c.here != here);
    }
}

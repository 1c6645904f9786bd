//! Bytes that are received over the sockets of data connections (RFC 6062, sections 4.3 and 4.5):
//! finding a connection by its own address, whether it is bound, and the bytes that are stored for
//! it.

ghost use Rattle.std.specs.Prelude.{◌≡◌, [], find, map, option_map, position};
ghost use Rattle.std.specs.List.{list_any};
ghost use Rattle.turn_client_proto_allocation.specs.Changes.{change_first};
ghost use Rattle.turn_types_frame.specs.Streams.{alive};
ghost use Rattle.turn_client_proto_connection.specs.Sockets.{has_from, is_from};
ghost use Rattle.turn_client_proto_connection.specs.Streams.{awaiting, emptied, exchanged, first_raw, from, from_in, has_raw, is_any_raw, raw_stored, raw_of, waits_from, with_stream};

use crate::sockets::has_from;
use std::alloc::Global;
use std::mem;
use std::net::SocketAddr;
use turn_client_proto_allocation::allocation::Allocation;
use turn_client_proto_allocation::connection::{Binding, Connection};
use turn_types_frame::tcp::TurnTcpBuffer;

// ---- by own address

/// Returns the first data connection of the allocation with this own address.
fn from_in(a: &Allocation, here: SocketAddr) -> Option<&Connection>
    ensures { option_map (λ c. c.now) result ≡ from_in here a.now }
{
    for connection in a.connections.as_slice() {
        if connection.here == here {
            return Some(connection);
        }
    }
    None
}

/// Returns the first data connection of all allocations with this own address.
#[tactic(auto, using(crate::proofs::Usual::by_index))]
pub fn from(allocations: &[Allocation], here: SocketAddr) -> Option<&Connection>
    ensures { option_map (λ c. c.now) result ≡ from here allocations.now }
{
    let index = index_from(allocations, here)?;
    from_in(&allocations[index], here)
}

/// Returns the index of the first data connection with this own address.
fn index_in(connections: &[Connection], here: SocketAddr) -> Option<usize>
    ensures { result ≡ position (is_from here) connections.now }
{
    connections.iter().position(|c| c.here == here)
}

/// Returns the index of the first allocation that has a data connection with this own address.
fn index_from(allocations: &[Allocation], here: SocketAddr) -> Option<usize>
    ensures { result ≡ position (has_from here) allocations.now }
{
    allocations.iter().position(|a| has_from(a, here))
}

/// Sets the outstanding CONNECTION_BIND of the first connection of the list with this own address.
/// `None` means that it is bound.
#[tactic(auto, using(crate::proofs::Usual::by_index))]
fn await_in(connections: &mut [Connection], here: SocketAddr, awaited: Option<Binding>)
    ensures { connections.new ≡ change_first (is_from here) (awaiting awaited) connections.old }
{
    if let Some(index) = index_in(connections, here) {
        connections[index].awaited = awaited;
    }
}

/// Sets the outstanding CONNECTION_BIND of the first connection of all allocations with this own
/// address. `None` means that it is bound. Does nothing if there is no such connection.
#[tactic(auto, using(crate::proofs::Usual::by_index))]
pub fn await_from(allocations: &mut [Allocation], here: SocketAddr, awaited: Option<Binding>)
    ensures { allocations.new ≡ waits_from here awaited allocations.old }
{
    if let Some(index) = index_from(allocations, here) {
        await_in(allocations[index].connections.as_mut_slice(), here, awaited);
    }
}

/// Replaces the stored bytes of the first connection of the list with this own address, and returns
/// those that were stored before.
#[tactic(auto, using(crate::proofs::Usual::by_index))]
fn exchange_in(
    connections: &mut [Connection],
    here: SocketAddr,
    stream: TurnTcpBuffer,
) -> Option<TurnTcpBuffer>
    ensures given { result ≡ option_map (λ c. c.stream) (find (is_from here) connections.old) }
    ensures after { connections.new
        ≡ change_first (is_from here) (with_stream stream) connections.old }
{
    let index = index_in(connections, here)?;
    Some(mem::replace(&mut connections[index].stream, stream))
}

/// Replaces the stored bytes of the first connection of all allocations with this own address, and
/// returns those that were stored before. Returns `None` if there is no such connection.
#[tactic(auto, using(crate::proofs::Usual::by_index))]
pub fn exchange(
    allocations: &mut [Allocation],
    here: SocketAddr,
    stream: TurnTcpBuffer,
) -> Option<TurnTcpBuffer>
    ensures given { result ≡ option_map (λ c. c.stream) (from here allocations.old) }
    ensures after { allocations.new ≡ exchanged here stream allocations.old }
{
    let index = index_from(allocations, here)?;
    exchange_in(allocations[index].connections.as_mut_slice(), here, stream)
}

// ---- stored data of peers

/// Data that a peer sent over a data connection.
#[derive(Debug, Drop)]
pub struct Raw {
    /// The peer's address.
    pub peer: SocketAddr,
    /// The data, in order.
    pub bytes: Vec<u8>,
}

/// Returns whether the connection is bound and has stored data of its peer.
fn has_raw(connection: &Connection) -> bool
    ensures { result ≡ has_raw connection.now }
{
    connection.awaited.is_none() && !connection.stream.is_empty()
}

/// Returns whether a connection of the allocation is bound and has stored data.
fn is_any_raw(a: &Allocation) -> bool
    ensures { result ≡ is_any_raw a.now }
{
    a.connections.as_slice().iter().any(|c| has_raw(c))
}

/// Returns the index of the first connection that is bound and has stored data.
fn index_raw(connections: &[Connection]) -> Option<usize>
    ensures { result ≡ position has_raw connections.now }
{
    connections.iter().position(|c| has_raw(c))
}

/// Returns the index of the first allocation that has such a connection.
fn index_of_raw(allocations: &[Allocation]) -> Option<usize>
    ensures { result ≡ position is_any_raw allocations.now }
{
    allocations.iter().position(|a| is_any_raw(a))
}

/// Takes the stored bytes of the connection, and leaves none.
fn take_one(alloc: Global, connection: &mut Connection) -> Raw
    ensures given { raw_of result ≡ raw_stored connection.old }
    ensures after { connection.new ≡ with_stream (alive []) connection.old }
{
    let stream = mem::replace(&mut connection.stream, TurnTcpBuffer::new(alloc));
    Raw {
        peer: connection.peer,
        bytes: stream.into_inner(),
    }
}

/// Takes the stored data of the first connection of the list that is bound and has some.
#[tactic(auto, using(crate::proofs::Usual::by_index))]
fn take_in(alloc: Global, connections: &mut [Connection]) -> Option<Raw>
    ensures given { option_map raw_of result
        ≡ option_map raw_stored (find has_raw connections.old) }
    ensures after { connections.new
        ≡ change_first has_raw (with_stream (alive [])) connections.old }
{
    let index = index_raw(connections)?;
    Some(take_one(alloc, &mut connections[index]))
}

/// Takes the stored data of the first connection that is bound and has some, in the order of the
/// allocations and of the connections in each.
#[tactic(auto, using(crate::proofs::Usual::by_index))]
pub fn take_raw(alloc: Global, allocations: &mut [Allocation]) -> Option<Raw>
    ensures given { option_map raw_of result
        ≡ option_map raw_stored (first_raw allocations.old) }
    ensures after { allocations.new ≡ emptied allocations.old }
{
    let index = index_of_raw(allocations)?;
    take_in(alloc, allocations[index].connections.as_mut_slice())
}

//! The calls that list what the client holds.

ghost use Rattle.std.specs.Prelude.{◌≡◌, false};
ghost use Rattle.turn_client_c_types.specs.Addresses.{reported_ip};
ghost use Rattle.turn_client_c_calls.specs.Visible.{Lists, Shows, is_permitted, named, permitted_of, reported_channel, reported_connection, reported_relayed};
ghost use Rattle.turn_client_proto.specs.Getters.{channels_of, connections_of, relayed_of};

use crate::handle::TurnHandle;
use std::alloc::Global;
use std::net::SocketAddr;
use stun_types_base::transport::TransportType;
use turn_client_c_types::address::{TurnAddress, number_of, transport_of};
use turn_client_proto::api::TurnClientApi;

/// A relayed address.
#[repr(C)]
#[derive(Clone, Copy)]
pub struct TurnRelayed {
    /// The transport between the server and the peers, by its protocol number in IP.
    pub transport: u32,
    /// The address.
    pub address: TurnAddress,
}

/// A channel.
#[repr(C)]
#[derive(Clone, Copy)]
pub struct TurnChannel {
    /// The channel's number.
    pub number: u16,
    /// The channel's peer.
    pub peer: TurnAddress,
}

/// A connection to a peer that has a socket.
#[repr(C)]
#[derive(Clone, Copy)]
pub struct TurnConnection {
    /// The socket's own address.
    pub local: TurnAddress,
    /// The peer.
    pub peer: TurnAddress,
    /// The ID by which the server knows it.
    pub id: u32,
    /// Whether it is bound.
    pub is_bound: bool,
}

/// Returns the transport with this protocol number and the address, or `None` if one of them is
/// invalid.
fn named(transport: u32, address: &TurnAddress) -> Option<(TransportType, SocketAddr)>
    ensures { result ≡ named transport address.now }
{
    match (transport_of(transport), address.to_socket()) {
        (Some(by), Some(at)) => Some((by, at)),
        _ => None,
    }
}

/// Writes the relayed addresses, as many as there is room for. Returns how many there are.
pub fn turn_client_relayed(alloc: Global, client: &mut TurnHandle, out: &mut [TurnRelayed]) -> usize
    ensures { Lists reported_relayed (λ stored. relayed_of stored.core) client.old.boxed_client.value
        client.new.boxed_client.value result out.old out.new }
{
    let Some(whole) = client.take(alloc) else {
        return 0;
    };
    let mut visible = whole.client.relayed_addresses();
    let count = visible.len();
    for slot in out.iter_mut() {
        let Some((transport, address)) = visible.next() else {
            break;
        };
        slot.transport = number_of(transport);
        slot.address.report(&address);
    }
    client.put(whole);
    count
}

/// Writes the IP addresses that have a permission in the allocation of a relayed address, as many
/// as there is room for. Returns how many there are, and 0 if the transport or the address family
/// is invalid.
#[tactic(auto, using(crate::proofs::Showing::none_visible))]
pub fn turn_client_permissions(
    alloc: Global,
    client: &mut TurnHandle,
    transport: u32,
    relayed: &TurnAddress,
    out: &mut [TurnAddress],
) -> usize
    ensures { Lists reported_ip (permitted_of transport relayed.now) client.old.boxed_client.value
        client.new.boxed_client.value result out.old out.new }
{
    let Some(whole) = client.take(alloc) else {
        return 0;
    };
    let Some((by, at)) = named(transport, relayed) else {
        client.put(whole);
        return 0;
    };
    let mut visible = whole.client.permissions(by, at);
    let count = visible.len();
    for slot in out.iter_mut() {
        let Some(ip) = visible.next() else {
            break;
        };
        slot.report_ip(ip);
    }
    client.put(whole);
    count
}

/// Returns whether there is a permission for a peer's IP address, and false if the transport or the
/// address family is invalid.
pub fn turn_client_is_permitted(
    alloc: Global,
    client: &mut TurnHandle,
    transport: u32,
    peer: &TurnAddress,
) -> bool
    ensures { Shows false (is_permitted transport peer.now) client.old.boxed_client.value
        client.new.boxed_client.value result }
{
    let Some(whole) = client.take(alloc) else {
        return false;
    };
    let occurs = match named(transport, peer) {
        Some((by, to)) => whole.client.have_permission(by, to.ip()),
        None => false,
    };
    client.put(whole);
    occurs
}

/// Writes the channels, as many as there is room for. Returns how many there are.
pub fn turn_client_channels(
    alloc: Global,
    client: &mut TurnHandle,
    out: &mut [TurnChannel],
) -> usize
    ensures { Lists reported_channel (λ stored. channels_of stored.core) client.old.boxed_client.value
        client.new.boxed_client.value result out.old out.new }
{
    let Some(whole) = client.take(alloc) else {
        return 0;
    };
    let mut visible = whole.client.channels();
    let count = visible.len();
    for slot in out.iter_mut() {
        let Some((number, peer)) = visible.next() else {
            break;
        };
        slot.number = number;
        slot.peer.report(&peer);
    }
    client.put(whole);
    count
}

/// Writes the connections to peers that have a socket, as many as there is room for. Returns how
/// many there are.
pub fn turn_client_connections(
    alloc: Global,
    client: &mut TurnHandle,
    out: &mut [TurnConnection],
) -> usize
    ensures { Lists reported_connection (λ stored. connections_of stored.core) client.old.boxed_client.value
        client.new.boxed_client.value result out.old out.new }
{
    let Some(whole) = client.take(alloc) else {
        return 0;
    };
    let mut visible = whole.client.connections();
    let count = visible.len();
    for slot in out.iter_mut() {
        let Some((local, peer, id, is_bound)) = visible.next() else {
            break;
        };
        slot.local.report(&local);
        slot.peer.report(&peer);
        slot.id = id;
        slot.is_bound = is_bound;
    }
    client.put(whole);
    count
}

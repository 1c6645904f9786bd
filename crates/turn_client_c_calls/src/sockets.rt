//! The calls that report the sockets of connections to peers (RFC 6062, sections 4.3 and 4.6).

ghost use Rattle.std.specs.Prelude.{◌≡◌};
ghost use Rattle.turn_client_c_types.specs.Addresses.{address_of, socket_of};
ghost use Rattle.turn_client_c_calls.specs.Answers.{memory_answer, socket_answer};
ghost use Rattle.turn_client_c_calls.specs.Calls.{Named, OnClient, OnStored, Reports};
ghost use Rattle.turn_client_c_calls.specs.Codes.{bad_family};
ghost use Rattle.turn_client_c_calls.specs.Sockets.{IsClosedReported, own_tuple};
ghost use Rattle.turn_client_proto.specs.SocketsReported.{IsSocketReported};

use crate::handle::TurnHandle;
use crate::status;
use crate::whole::HandleState;
use std::alloc::Global;
use std::net::SocketAddr;
use stun_types_base::instant::Instant;
use turn_client_c_types::address::{TurnAddress, socket_of};
use turn_client_proto::api::TurnClientApi;
use turn_client_proto::client::TurnClient;
use turn_client_proto_api::answer::Socket5Tuple;
use turn_client_proto_api::error::TcpAllocateError;

/// Returns the client's own connection to the server.
fn own_tuple(client: &TurnClient) -> Socket5Tuple
    ensures { result ≡ own_tuple client.now }
{
    Socket5Tuple {
        transport: client.transport(),
        from: client.local_addr(),
        to: client.remote_addr(),
    }
}

/// Reports to a client the own address of the socket that was opened for a connection, or that none
/// was.
#[tactic(auto, using(crate::proofs::Reporting::socket_reported))]
fn report_socket(
    whole: &mut HandleState,
    id: u32,
    to: SocketAddr,
    here: Option<SocketAddr>,
    now: Instant,
) -> i32
    ensures { Reports (socket_answer result) (λ answer. OnStored (λ before after.
        IsSocketReported before id (own_tuple whole.old.client) to here now answer after)
        whole.old whole.new) }
{
    let tuple = own_tuple(&whole.client);
    match whole.client.allocated_tcp_socket(id, tuple, to, here, now) {
        Ok(()) => status::OK,
        Err(TcpAllocateError::AlreadyExists) => status::ALREADY_EXISTS,
        Err(TcpAllocateError::NoAllocation) => status::NO_ALLOCATION,
        Err(_) => status::NO_MEMORY,
    }
}

/// Reports the own address of the socket that was opened for a connection, or that none was.
pub fn turn_client_socket(
    alloc: Global,
    client: &mut TurnHandle,
    id: u32,
    peer: &TurnAddress,
    local: &TurnAddress,
    now: u64,
) -> i32
    ensures { Named (address_of peer.now) bad_family client.old.boxed_client.value client.new.boxed_client.value
        result (λ to.
        Named (socket_of local.now) bad_family client.old.boxed_client.value client.new.boxed_client.value
        result (λ here.
        OnClient client.old.boxed_client.value client.new.boxed_client.value result (λ old new.
        Reports (socket_answer result) (λ answer. OnStored (λ before after.
        IsSocketReported before id (own_tuple old.client) to here now answer after) old new)))) }
{
    let Some(to) = peer.to_socket() else {
        return status::BAD_FAMILY;
    };
    let Some(here) = socket_of(local) else {
        return status::BAD_FAMILY;
    };
    let Some(mut whole) = client.take(alloc) else {
        return status::NO_CLIENT;
    };
    let answer = report_socket(&mut whole, id, to, here, Instant::from_nanos(now));
    client.put(whole);
    answer
}

/// Reports that the socket of a connection was closed.
pub fn turn_client_closed(
    alloc: Global,
    client: &mut TurnHandle,
    local: &TurnAddress,
    remote: &TurnAddress,
    now: u64,
) -> i32
    ensures { Named (address_of local.now) bad_family client.old.boxed_client.value client.new.boxed_client.value
        result (λ here.
        Named (address_of remote.now) bad_family client.old.boxed_client.value client.new.boxed_client.value
        result (λ server.
        OnClient client.old.boxed_client.value client.new.boxed_client.value result (λ old new.
        Reports (memory_answer result) (λ answer.
        OnStored (IsClosedReported here server answer) old new)))) }
{
    let Some(here) = local.to_socket() else {
        return status::BAD_FAMILY;
    };
    let Some(server) = remote.to_socket() else {
        return status::BAD_FAMILY;
    };
    let Some(mut whole) = client.take(alloc) else {
        return status::NO_CLIENT;
    };
    let answer = whole
        .client
        .tcp_closed(here, server, Instant::from_nanos(now));
    client.put(whole);
    match answer {
        Ok(()) => status::OK,
        Err(_) => status::NO_MEMORY,
    }
}

//! The calls that request something from the server.

ghost use Rattle.std.specs.Prelude.{◌≡◌, Err, Some, length, nat_lt};
ghost use Rattle.turn_client_c_types.specs.Addresses.{address_of, ips_of, transport_of};
ghost use Rattle.turn_client_c_calls.specs.Answers.{bind_answer, connect_answer, delete_answer, permission_answer, permissions_answer};
ghost use Rattle.turn_client_c_calls.specs.Calls.{Named, OnClient, OnCore, Reports, Unless};
ghost use Rattle.turn_client_c_calls.specs.Codes.{bad_addresses, bad_family, bad_setting};
ghost use Rattle.std.specs.Net.Socket.{socket_ip};
ghost use Rattle.turn_client_proto.specs.Recv.Connecting.{IsConnectAnswered};
ghost use Rattle.turn_client_proto.specs.Core.Binding.{IsBindAnswered};
ghost use Rattle.turn_client_proto.specs.Core.Deleting.{IsDeleteAnswered};
ghost use Rattle.turn_client_proto.specs.Core.Permitting.{ArePermissionsAnswered, IsPermissionAnswered};
ghost use Rattle.turn_client_proto_api.specs.Limits.{most_peer_ips};

use crate::handle::TurnHandle;
use crate::status;
use std::alloc::Global;
use std::net::{IpAddr, Ipv4Addr};
use stun_types_base::instant::Instant;
use turn_client_c_types::address::{TurnAddress, transport_of, write_ips};
use turn_client_proto::api::TurnClientApi;
use turn_client_proto_api::error::{
    BindChannelError, CreatePermissionError, CreatePermissionsError, DeleteError, TcpConnectError,
};
use turn_client_proto_api::limits::MOST_PEER_IPS;

/// Requests the end of all allocations (RFC 8656, section 8.1).
pub fn turn_client_delete(alloc: Global, client: &mut TurnHandle, now: u64) -> i32
    ensures { OnClient client.old.boxed_client.value client.new.boxed_client.value result (λ old new.
        Reports (delete_answer result) (λ answer.
        OnCore (λ old new. IsDeleteAnswered old now answer new) old new)) }
{
    let Some(mut whole) = client.take(alloc) else {
        return status::NO_CLIENT;
    };
    let answer = whole.client.delete(Instant::from_nanos(now));
    client.put(whole);
    match answer {
        Ok(()) => status::OK,
        Err(DeleteError::NoAllocation) => status::NO_ALLOCATION,
        Err(_) => status::NO_MEMORY,
    }
}

/// Requests a permission for a peer's IP address (RFC 8656, section 9). The peer's port does not
/// count.
pub fn turn_client_permit(
    alloc: Global,
    client: &mut TurnHandle,
    transport: u32,
    peer: &TurnAddress,
    now: u64,
) -> i32
    ensures { Named (transport_of transport) bad_setting client.old.boxed_client.value client.new.boxed_client.value
        result (λ by.
        Named (address_of peer.now) bad_family client.old.boxed_client.value client.new.boxed_client.value
        result (λ to.
        OnClient client.old.boxed_client.value client.new.boxed_client.value result (λ old new.
        Reports (permission_answer result) (λ answer.
        OnCore (λ old new. IsPermissionAnswered old by (socket_ip to) now answer new) old new)))) }
{
    let Some(by) = transport_of(transport) else {
        return status::BAD_SETTING;
    };
    let Some(to) = peer.to_socket() else {
        return status::BAD_FAMILY;
    };
    let Some(mut whole) = client.take(alloc) else {
        return status::NO_CLIENT;
    };
    let answer = whole
        .client
        .create_permission(by, to.ip(), Instant::from_nanos(now));
    client.put(whole);
    match answer {
        Ok(()) => status::OK,
        Err(CreatePermissionError::AlreadyExists) => status::ALREADY_EXISTS,
        Err(CreatePermissionError::NoAllocation) => status::NO_ALLOCATION,
        Err(_) => status::NO_MEMORY,
    }
}

/// Returns the status of the result of `create_permissions`.
fn status_of_permits(answer: Result<(), CreatePermissionsError>) -> i32
    ensures { permissions_answer result ≡ Some answer }
{
    match answer {
        Ok(()) => status::OK,
        Err(CreatePermissionsError::InvalidAddresses) => status::BAD_ADDRESSES,
        Err(CreatePermissionsError::Refused(error)) => match error {
            CreatePermissionError::AlreadyExists => status::ALREADY_EXISTS,
            CreatePermissionError::NoAllocation => status::NO_ALLOCATION,
            _ => status::NO_MEMORY,
        },
        Err(_) => status::NO_MEMORY,
    }
}

/// Requests permissions for the IP addresses of several peers by one request (RFC 8656, section
/// 10.1). The peers' ports do not count.
pub fn turn_client_permit_several(
    alloc: Global,
    client: &mut TurnHandle,
    transport: u32,
    peers: &[TurnAddress],
    now: u64,
) -> i32
    ensures { Named (transport_of transport) bad_setting client.old.boxed_client.value client.new.boxed_client.value
        result (λ by.
        Unless (nat_lt most_peer_ips (length peers.now)) bad_addresses client.old.boxed_client.value
        client.new.boxed_client.value result
        (Named (ips_of peers.now) bad_family client.old.boxed_client.value client.new.boxed_client.value
        result (λ ips.
        OnClient client.old.boxed_client.value client.new.boxed_client.value result (λ old new.
        Reports (permissions_answer result) (λ answer.
        OnCore (λ old new. ArePermissionsAnswered old by ips now answer new) old new))))) }
{
    let Some(by) = transport_of(transport) else {
        return status::BAD_SETTING;
    };
    if peers.len() > MOST_PEER_IPS {
        return status::BAD_ADDRESSES;
    }
    let mut room = [IpAddr::V4(Ipv4Addr::from_octets([0; 4])); 32];
    if !write_ips(peers, &mut room) {
        return status::BAD_FAMILY;
    }
    let Some(mut whole) = client.take(alloc) else {
        return status::NO_CLIENT;
    };
    let (ips, _) = room.split_at(peers.len());
    let answer = whole
        .client
        .create_permissions(by, ips, Instant::from_nanos(now));
    client.put(whole);
    status_of_permits(answer)
}

/// Returns the status of an error of `bind_channel`, and writes the time of `ExpiredChannelExists`.
fn report_unbound(error: BindChannelError, until: &mut u64) -> i32
    ensures { bind_answer result until.new ≡ Some (Err error) }
{
    match error {
        BindChannelError::AlreadyExists => status::ALREADY_EXISTS,
        BindChannelError::ExpiredChannelExists(time) => {
            *until = time.as_nanos();
            status::EXPIRED_CHANNEL
        }
        BindChannelError::NoAllocation => status::NO_ALLOCATION,
        BindChannelError::NoChannel => status::NO_CHANNEL,
        _ => status::NO_MEMORY,
    }
}

/// Requests a channel to a peer (RFC 8656, section 12). If one expired a short while ago, writes to
/// `until` the last time at which the peer is refused for that.
pub fn turn_client_bind(
    alloc: Global,
    client: &mut TurnHandle,
    transport: u32,
    peer: &TurnAddress,
    now: u64,
    until: &mut u64,
) -> i32
    ensures { Named (transport_of transport) bad_setting client.old.boxed_client.value client.new.boxed_client.value
        result (λ by.
        Named (address_of peer.now) bad_family client.old.boxed_client.value client.new.boxed_client.value
        result (λ to.
        OnClient client.old.boxed_client.value client.new.boxed_client.value result (λ old new.
        Reports (bind_answer result until.new) (λ answer.
        OnCore (λ old new. IsBindAnswered old by to now answer new) old new)))) }
{
    let Some(by) = transport_of(transport) else {
        return status::BAD_SETTING;
    };
    let Some(to) = peer.to_socket() else {
        return status::BAD_FAMILY;
    };
    let Some(mut whole) = client.take(alloc) else {
        return status::NO_CLIENT;
    };
    let answer = whole.client.bind_channel(by, to, Instant::from_nanos(now));
    client.put(whole);
    match answer {
        Ok(()) => status::OK,
        Err(error) => report_unbound(error, until),
    }
}

/// Requests a TCP connection to a peer (RFC 6062, section 4.3).
pub fn turn_client_connect(
    alloc: Global,
    client: &mut TurnHandle,
    peer: &TurnAddress,
    now: u64,
) -> i32
    ensures { Named (address_of peer.now) bad_family client.old.boxed_client.value client.new.boxed_client.value
        result (λ to.
        OnClient client.old.boxed_client.value client.new.boxed_client.value result (λ old new.
        Reports (connect_answer result) (λ answer.
        OnCore (λ old new. IsConnectAnswered old to now answer new) old new))) }
{
    let Some(to) = peer.to_socket() else {
        return status::BAD_FAMILY;
    };
    let Some(mut whole) = client.take(alloc) else {
        return status::NO_CLIENT;
    };
    let answer = whole.client.tcp_connect(to, Instant::from_nanos(now));
    client.put(whole);
    match answer {
        Ok(()) => status::OK,
        Err(TcpConnectError::AlreadyExists) => status::ALREADY_EXISTS,
        Err(TcpConnectError::NoAllocation) => status::NO_ALLOCATION,
        Err(TcpConnectError::NoPermission) => status::NO_PERMISSION,
        Err(_) => status::NO_MEMORY,
    }
}

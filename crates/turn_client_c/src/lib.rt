//! The client for C: the functions of `bindings/c/include/turn_client.h`, exported.
//!
//! `turn_client_c_calls` has their bodies, and proves the contracts that are repeated here. The
//! functions stand in a crate of their own because a static library exports only its own.
#![tactic(auto)]

ghost use Rattle.std.specs.Net.Socket.{socket_ip};
ghost use Rattle.std.specs.Prelude.{None, false, length, nat_lt, ◌+◌, ◌≡◌, ◌≢◌};
ghost use Rattle.turn_client_c_calls.specs.Answers.{bind_answer, connect_answer, delete_answer, memory_answer, permission_answer, permissions_answer, socket_answer};
ghost use Rattle.turn_client_c_calls.specs.Calls.{Named, OnClient, OnCore, OnStored, Reports, Unless};
ghost use Rattle.turn_client_c_calls.specs.Causes.{Reads, cause_noted, cause_status, domain_status, domain_written, mapped_reported, mapped_status, reason_status, reason_written, reservation_reported, reservation_status};
ghost use Rattle.turn_client_c_calls.specs.Codes.{bad_addresses, bad_family, bad_length, bad_setting, ok, small_buffer};
ghost use Rattle.turn_client_c_calls.specs.Lengths.{is_bad_length};
ghost use Rattle.turn_client_c_calls.specs.Opened.{HoldsOpened, WhyNot};
ghost use Rattle.turn_client_c_calls.specs.Visible.{Lists, Shows, is_permitted, permitted_of, reported_channel, reported_connection, reported_relayed};
ghost use Rattle.turn_client_c_calls.specs.Speaking.{WhyNoSoftware, WhyNotSet, software_of};
ghost use Rattle.turn_client_c_calls.specs.TurnClientProtoCore.Speaking.{with_fingerprint, with_next_credentials, with_software};
ghost use Rattle.turn_client_c_calls.specs.Sockets.{IsClosedReported, own_tuple};
ghost use Rattle.turn_client_c_calls.specs.Traffic.{IsTransmittedReported, IsFed, IsPulledReported, IsReadReported, IsSendReported, message_room, send_extra};
ghost use Rattle.turn_client_c_calls.specs.Waits.{IsEventReported, IsExpiredReported, IsPollReported};
ghost use Rattle.turn_client_c_calls.specs.TurnClientProtoCore.Binding.{IsBindAnswered};
ghost use Rattle.turn_client_c_calls.specs.TurnClientProtoRecv.Connecting.{IsConnectAnswered};
ghost use Rattle.turn_client_c_calls.specs.TurnClientProtoCore.Deleting.{IsDeleteAnswered};
ghost use Rattle.turn_client_c_calls.specs.TurnClientProto.Getters.{channels_of, connections_of, relayed_of};
ghost use Rattle.turn_client_c_calls.specs.TurnClientProtoCore.Permitting.{ArePermissionsAnswered, IsPermissionAnswered};
ghost use Rattle.turn_client_c_calls.specs.TurnClientProto.SocketsReported.{IsSocketReported};
ghost use Rattle.turn_client_c_calls.specs.TurnClientProto.Api.Limits.{most_peer_ips};
ghost use Rattle.turn_client_c_types.specs.Addresses.{address_of, ips_of, socket_of, reported_ip, transport_of};

use std::alloc::Global;
use turn_client_c_calls::getters::{TurnChannel, TurnConnection, TurnRelayed};
use turn_client_c_calls::handle::TurnHandle;
use turn_client_c_calls::{asking, causes, getters, opening, sockets, speaking, traffic, waiting};
use turn_client_c_types::address::TurnAddress;
use turn_client_c_types::cause::TurnClientCause;
use turn_client_c_types::event::TurnClientEvent;
use turn_client_c_types::reported::{TurnPayload, TurnTransmit, TurnWait};
use turn_client_c_types::settings::{TurnSeed, TurnSettings};

/// The version of the library: major * 10,000 + minor * 100 + patch.
const VERSION: u32 = 100;

/// Returns the version of the library: major * 10,000 + minor * 100 + patch.
#[unsafe(no_mangle)]
pub extern "C" fn turn_client_version() -> u32
    ensures { result ≡ 100 }
{
    VERSION
}

/// Opens a client of this user. Nothing is sent yet.
#[unsafe(no_mangle)]
pub extern "C" fn turn_client_open(
    alloc: Global,
    client: &mut TurnHandle,
    settings: &TurnSettings,
    username: &[u8],
    password: &[u8],
    seed: &TurnSeed,
) -> i32
    ensures opened { result ≡ ok → HoldsOpened settings.now username.now password.now
        seed.now.bytes client.new.boxed_client.value }
    ensures stays { result ≢ ok → client.new.boxed_client.value ≡ client.old.boxed_client.value }
    ensures why { WhyNot client.old.boxed_client.value settings.now username.now password.now
        seed.now.bytes result }
{
    opening::turn_client_open(alloc, client, settings, username, password, seed)
}

/// Closes a client: frees it, and sends nothing to the server.
#[unsafe(no_mangle)]
pub extern "C" fn turn_client_close(alloc: Global, client: &mut TurnHandle)
    ensures { client.new.boxed_client.value ≡ None }
{
    opening::turn_client_close(alloc, client)
}

/// Handles received bytes, with the addresses from and to which they were sent: a datagram, or a
/// chunk of a stream.
#[unsafe(no_mangle)]
pub extern "C" fn turn_client_feed(
    alloc: Global,
    client: &mut TurnHandle,
    from: &TurnAddress,
    to: &TurnAddress,
    bytes: &[u8],
    now: u64,
    payload: &mut TurnPayload,
) -> i32
    ensures { Named (address_of from.now) bad_family client.old.boxed_client.value client.new.boxed_client.value
        result (λ sender.
        Named (address_of to.now) bad_family client.old.boxed_client.value client.new.boxed_client.value
        result (λ here.
        Unless (is_bad_length (length bytes.now)) bad_length client.old.boxed_client.value
        client.new.boxed_client.value result
        (OnClient client.old.boxed_client.value client.new.boxed_client.value result
        (IsFed bytes.entry sender here now result payload.old payload.new)))) }
{
    traffic::turn_client_feed(alloc, client, from, to, bytes, now, payload)
}

/// Writes the next buffered data of a peer of a stream.
#[unsafe(no_mangle)]
pub extern "C" fn turn_client_pull(
    alloc: Global,
    client: &mut TurnHandle,
    now: u64,
    payload: &mut TurnPayload,
) -> i32
    ensures { OnClient client.old.boxed_client.value client.new.boxed_client.value result
        (IsPulledReported now result payload.old payload.new) }
{
    traffic::turn_client_pull(alloc, client, now, payload)
}

/// Copies the joined bytes of the last reported payload to the start of a buffer, and frees them.
#[unsafe(no_mangle)]
pub extern "C" fn turn_client_read(alloc: Global, client: &mut TurnHandle, out: &mut [u8]) -> i32
    ensures { Unless (is_bad_length (length out.old)) bad_length client.old.boxed_client.value
        client.new.boxed_client.value result
        (OnClient client.old.boxed_client.value client.new.boxed_client.value result
        (IsReadReported result out.old out.new)) }
{
    traffic::turn_client_read(alloc, client, out)
}

/// Writes the next message to send at `now` to the start of a buffer that has room for any message.
#[unsafe(no_mangle)]
pub extern "C" fn turn_client_draw(
    alloc: Global,
    client: &mut TurnHandle,
    now: u64,
    out: &mut [u8],
    transmit: &mut TurnTransmit,
) -> i32
    ensures { Unless (is_bad_length (length out.old)) bad_length client.old.boxed_client.value
        client.new.boxed_client.value result
        (Unless (nat_lt (length out.old) message_room) small_buffer client.old.boxed_client.value
        client.new.boxed_client.value result
        (OnClient client.old.boxed_client.value client.new.boxed_client.value result
        (IsTransmittedReported now result out.old out.new transmit.old transmit.new))) }
{
    traffic::turn_client_draw(alloc, client, now, out, transmit)
}

/// Writes what carries a payload to a peer to the start of a buffer that has room for more than the
/// payload.
#[unsafe(no_mangle)]
pub extern "C" fn turn_client_send(
    alloc: Global,
    client: &mut TurnHandle,
    transport: u32,
    peer: &TurnAddress,
    bytes: &[u8],
    now: u64,
    out: &mut [u8],
    transmit: &mut TurnTransmit,
) -> i32
    ensures { Named (transport_of transport) bad_setting client.old.boxed_client.value client.new.boxed_client.value
        result (λ by.
        Named (address_of peer.now) bad_family client.old.boxed_client.value client.new.boxed_client.value
        result (λ to.
        Unless (is_bad_length (length bytes.now)) bad_length client.old.boxed_client.value
        client.new.boxed_client.value result
        (Unless (is_bad_length (length out.old)) bad_length client.old.boxed_client.value
        client.new.boxed_client.value result
        (Unless (nat_lt (length out.old) (length bytes.now + send_extra)) small_buffer
        client.old.boxed_client.value client.new.boxed_client.value result
        (OnClient client.old.boxed_client.value client.new.boxed_client.value result
        (IsSendReported by to bytes.now now result out.old out.new transmit.old transmit.new)))))) }
{
    traffic::turn_client_send(alloc, client, transport, peer, bytes, now, out, transmit)
}

/// Does what is due at `now`. Writes until when there is nothing to do, or which connection to the
/// server is to be opened or closed.
#[unsafe(no_mangle)]
pub extern "C" fn turn_client_poll(
    alloc: Global,
    client: &mut TurnHandle,
    now: u64,
    wait: &mut TurnWait,
) -> i32
    ensures { OnClient client.old.boxed_client.value client.new.boxed_client.value result
        (IsPollReported now result wait.old wait.new) }
{
    waiting::turn_client_poll(alloc, client, now, wait)
}

/// Writes the oldest queued event.
#[unsafe(no_mangle)]
pub extern "C" fn turn_client_event(
    alloc: Global,
    client: &mut TurnHandle,
    event: &mut TurnClientEvent,
) -> i32
    ensures { OnClient client.old.boxed_client.value client.new.boxed_client.value result
        (IsEventReported result event.old event.new) }
{
    waiting::turn_client_event(alloc, client, event)
}

/// Writes the oldest allocation that was removed because its time was over and that was not written
/// yet (RFC 8656, section 6).
#[unsafe(no_mangle)]
pub extern "C" fn turn_client_expired(
    alloc: Global,
    client: &mut TurnHandle,
    expired: &mut TurnRelayed,
) -> i32
    ensures { OnClient client.old.boxed_client.value client.new.boxed_client.value result
        (IsExpiredReported result expired.old expired.new) }
{
    waiting::turn_client_expired(alloc, client, expired)
}

/// Writes why the event that `turn_client_event` wrote last happened, and the server that a
/// response 300 named (RFC 8489, section 10).
#[unsafe(no_mangle)]
pub extern "C" fn turn_client_cause(
    alloc: Global,
    client: &mut TurnHandle,
    cause: &mut TurnClientCause,
) -> i32
    ensures { Reads cause_status cause_noted client.old.boxed_client.value
        client.new.boxed_client.value result cause.old cause.new }
{
    causes::turn_client_cause(alloc, client, cause)
}

/// Copies the reason phrase of the error response by which the server rejected the request (RFC
/// 8489, section 14.8) to the start of a buffer.
#[unsafe(no_mangle)]
pub extern "C" fn turn_client_reason(alloc: Global, client: &mut TurnHandle, out: &mut [u8]) -> i32
    ensures { Unless (is_bad_length (length out.old)) bad_length client.old.boxed_client.value
        client.new.boxed_client.value result
        (Reads (reason_status (length out.old)) reason_written client.old.boxed_client.value
        client.new.boxed_client.value result out.old out.new) }
{
    causes::turn_client_reason(alloc, client, out)
}

/// Copies the name of the domain of the server that a response 300 named (RFC 8489, section 14.16)
/// to the start of a buffer.
#[unsafe(no_mangle)]
pub extern "C" fn turn_client_domain(alloc: Global, client: &mut TurnHandle, out: &mut [u8]) -> i32
    ensures { Unless (is_bad_length (length out.old)) bad_length client.old.boxed_client.value
        client.new.boxed_client.value result
        (Reads (domain_status (length out.old)) domain_written client.old.boxed_client.value
        client.new.boxed_client.value result out.old out.new) }
{
    causes::turn_client_domain(alloc, client, out)
}

/// Writes the client's own address, as the server saw it (RFC 8656, section 7.3).
#[unsafe(no_mangle)]
pub extern "C" fn turn_client_mapped(
    alloc: Global,
    client: &mut TurnHandle,
    mapped: &mut TurnAddress,
) -> i32
    ensures { Reads mapped_status mapped_reported client.old.boxed_client.value
        client.new.boxed_client.value result mapped.old mapped.new }
{
    causes::turn_client_mapped(alloc, client, mapped)
}

/// Writes the token of the port that the server reserved (RFC 8656, section 18.10).
#[unsafe(no_mangle)]
pub extern "C" fn turn_client_reservation(
    alloc: Global,
    client: &mut TurnHandle,
    token: &mut u64,
) -> i32
    ensures { Reads reservation_status reservation_reported client.old.boxed_client.value
        client.new.boxed_client.value result token.old token.new }
{
    causes::turn_client_reservation(alloc, client, token)
}

/// Requests the end of all allocations (RFC 8656, section 8.1).
#[unsafe(no_mangle)]
pub extern "C" fn turn_client_delete(alloc: Global, client: &mut TurnHandle, now: u64) -> i32
    ensures { OnClient client.old.boxed_client.value client.new.boxed_client.value result (λ old new.
        Reports (delete_answer result) (λ answer.
        OnCore (λ old new. IsDeleteAnswered old now answer new) old new)) }
{
    asking::turn_client_delete(alloc, client, now)
}

/// Requests a permission for a peer's IP address (RFC 8656, section 9). The peer's port does not
/// count.
#[unsafe(no_mangle)]
pub extern "C" fn turn_client_permit(
    alloc: Global,
    client: &mut TurnHandle,
    transport: u32,
    peer: &TurnAddress,
    now: u64,
) -> i32
    ensures { Named (transport_of transport) bad_setting client.old.boxed_client.value client.new.boxed_client.value
        result (λ by.
        Named (address_of peer.now) bad_family client.old.boxed_client.value client.new.boxed_client.value
        result (λ to.
        OnClient client.old.boxed_client.value client.new.boxed_client.value result (λ old new.
        Reports (permission_answer result) (λ answer.
        OnCore (λ old new. IsPermissionAnswered old by (socket_ip to) now answer new) old new)))) }
{
    asking::turn_client_permit(alloc, client, transport, peer, now)
}

/// Requests permissions for the IP addresses of several peers by one request (RFC 8656, section
/// 10.1). The peers' ports do not count.
#[unsafe(no_mangle)]
pub extern "C" fn turn_client_permit_several(
    alloc: Global,
    client: &mut TurnHandle,
    transport: u32,
    peers: &[TurnAddress],
    now: u64,
) -> i32
    ensures { Named (transport_of transport) bad_setting client.old.boxed_client.value client.new.boxed_client.value
        result (λ by.
        Unless (nat_lt most_peer_ips (length peers.now)) bad_addresses client.old.boxed_client.value
        client.new.boxed_client.value result
        (Named (ips_of peers.now) bad_family client.old.boxed_client.value client.new.boxed_client.value
        result (λ ips.
        OnClient client.old.boxed_client.value client.new.boxed_client.value result (λ old new.
        Reports (permissions_answer result) (λ answer.
        OnCore (λ old new. ArePermissionsAnswered old by ips now answer new) old new))))) }
{
    asking::turn_client_permit_several(alloc, client, transport, peers, now)
}

/// Requests a channel to a peer (RFC 8656, section 12). If one expired a short while ago, writes to
/// `until` the last time at which the peer is refused for that.
#[unsafe(no_mangle)]
pub extern "C" fn turn_client_bind(
    alloc: Global,
    client: &mut TurnHandle,
    transport: u32,
    peer: &TurnAddress,
    now: u64,
    until: &mut u64,
) -> i32
    ensures { Named (transport_of transport) bad_setting client.old.boxed_client.value client.new.boxed_client.value
        result (λ by.
        Named (address_of peer.now) bad_family client.old.boxed_client.value client.new.boxed_client.value
        result (λ to.
        OnClient client.old.boxed_client.value client.new.boxed_client.value result (λ old new.
        Reports (bind_answer result until.new) (λ answer.
        OnCore (λ old new. IsBindAnswered old by to now answer new) old new)))) }
{
    asking::turn_client_bind(alloc, client, transport, peer, now, until)
}

/// Requests a TCP connection to a peer (RFC 6062, section 4.3).
#[unsafe(no_mangle)]
pub extern "C" fn turn_client_connect(
    alloc: Global,
    client: &mut TurnHandle,
    peer: &TurnAddress,
    now: u64,
) -> i32
    ensures { Named (address_of peer.now) bad_family client.old.boxed_client.value client.new.boxed_client.value
        result (λ to.
        OnClient client.old.boxed_client.value client.new.boxed_client.value result (λ old new.
        Reports (connect_answer result) (λ answer.
        OnCore (λ old new. IsConnectAnswered old to now answer new) old new))) }
{
    asking::turn_client_connect(alloc, client, peer, now)
}

/// Reports the own address of the socket that was opened for a connection, or that none was.
#[unsafe(no_mangle)]
pub extern "C" fn turn_client_socket(
    alloc: Global,
    client: &mut TurnHandle,
    id: u32,
    peer: &TurnAddress,
    local: &TurnAddress,
    now: u64,
) -> i32
    ensures { Named (address_of peer.now) bad_family client.old.boxed_client.value client.new.boxed_client.value
        result (λ to.
        Named (socket_of local.now) bad_family client.old.boxed_client.value client.new.boxed_client.value
        result (λ here.
        OnClient client.old.boxed_client.value client.new.boxed_client.value result (λ old new.
        Reports (socket_answer result) (λ answer. OnStored (λ before after.
        IsSocketReported before id (own_tuple old.client) to here now answer after) old new)))) }
{
    sockets::turn_client_socket(alloc, client, id, peer, local, now)
}

/// Reports that the socket of a connection was closed.
#[unsafe(no_mangle)]
pub extern "C" fn turn_client_closed(
    alloc: Global,
    client: &mut TurnHandle,
    local: &TurnAddress,
    remote: &TurnAddress,
    now: u64,
) -> i32
    ensures { Named (address_of local.now) bad_family client.old.boxed_client.value client.new.boxed_client.value
        result (λ here.
        Named (address_of remote.now) bad_family client.old.boxed_client.value client.new.boxed_client.value
        result (λ server.
        OnClient client.old.boxed_client.value client.new.boxed_client.value result (λ old new.
        Reports (memory_answer result) (λ answer.
        OnStored (IsClosedReported here server answer) old new)))) }
{
    sockets::turn_client_closed(alloc, client, local, remote, now)
}

/// Sets other credentials, which replace the present ones with the next challenge that the client
/// accepts.
#[unsafe(no_mangle)]
pub extern "C" fn turn_client_credentials(
    alloc: Global,
    client: &mut TurnHandle,
    username: &[u8],
    password: &[u8],
) -> i32
    ensures set { result ≡ ok → OnClient client.old.boxed_client.value
        client.new.boxed_client.value result (OnCore (λ old new. new ≡ with_next_credentials
        (record { username = username.now; password = password.now }) old)) }
    ensures stays { result ≢ ok → client.new.boxed_client.value ≡ client.old.boxed_client.value }
    ensures why { WhyNotSet client.old.boxed_client.value username.now password.now result }
{
    speaking::turn_client_credentials(alloc, client, username, password)
}

/// Sets the SOFTWARE that requests carry from now on, or none, if the text is empty.
#[unsafe(no_mangle)]
pub extern "C" fn turn_client_software(alloc: Global, client: &mut TurnHandle, text: &[u8]) -> i32
    ensures set { result ≡ ok → OnClient client.old.boxed_client.value
        client.new.boxed_client.value result
        (OnCore (λ old new. new ≡ with_software (software_of text.now) old)) }
    ensures stays { result ≢ ok → client.new.boxed_client.value ≡ client.old.boxed_client.value }
    ensures why { WhyNoSoftware client.old.boxed_client.value text.now result }
{
    speaking::turn_client_software(alloc, client, text)
}

/// Sets whether requests end with FINGERPRINT from now on.
#[unsafe(no_mangle)]
pub extern "C" fn turn_client_fingerprint(
    alloc: Global,
    client: &mut TurnHandle,
    fingerprint: bool,
) -> i32
    ensures { OnClient client.old.boxed_client.value client.new.boxed_client.value result
        (λ old new. (result ≡ ok)
        × OnCore (λ old new. new ≡ with_fingerprint fingerprint old) old new) }
{
    speaking::turn_client_fingerprint(alloc, client, fingerprint)
}

/// Writes the relayed addresses, as many as there is room for. Returns how many there are.
#[unsafe(no_mangle)]
pub extern "C" fn turn_client_relayed(
    alloc: Global,
    client: &mut TurnHandle,
    out: &mut [TurnRelayed],
) -> usize
    ensures { Lists reported_relayed (λ stored. relayed_of stored.core) client.old.boxed_client.value
        client.new.boxed_client.value result out.old out.new }
{
    getters::turn_client_relayed(alloc, client, out)
}

/// Writes the IP addresses that have a permission in the allocation of a relayed address, as many
/// as there is room for. Returns how many there are, and 0 if the transport or the address family
/// is invalid.
#[unsafe(no_mangle)]
pub extern "C" fn turn_client_permissions(
    alloc: Global,
    client: &mut TurnHandle,
    transport: u32,
    relayed: &TurnAddress,
    out: &mut [TurnAddress],
) -> usize
    ensures { Lists reported_ip (permitted_of transport relayed.now) client.old.boxed_client.value
        client.new.boxed_client.value result out.old out.new }
{
    getters::turn_client_permissions(alloc, client, transport, relayed, out)
}

/// Returns whether there is a permission for a peer's IP address, and false if the transport or the
/// address family is invalid.
#[unsafe(no_mangle)]
pub extern "C" fn turn_client_is_permitted(
    alloc: Global,
    client: &mut TurnHandle,
    transport: u32,
    peer: &TurnAddress,
) -> bool
    ensures { Shows false (is_permitted transport peer.now) client.old.boxed_client.value
        client.new.boxed_client.value result }
{
    getters::turn_client_is_permitted(alloc, client, transport, peer)
}

/// Writes the channels, as many as there is room for. Returns how many there are.
#[unsafe(no_mangle)]
pub extern "C" fn turn_client_channels(
    alloc: Global,
    client: &mut TurnHandle,
    out: &mut [TurnChannel],
) -> usize
    ensures { Lists reported_channel (λ stored. channels_of stored.core) client.old.boxed_client.value
        client.new.boxed_client.value result out.old out.new }
{
    getters::turn_client_channels(alloc, client, out)
}

/// Writes the connections to peers that have a socket, as many as there is room for. Returns how
/// many there are.
#[unsafe(no_mangle)]
pub extern "C" fn turn_client_connections(
    alloc: Global,
    client: &mut TurnHandle,
    out: &mut [TurnConnection],
) -> usize
    ensures { Lists reported_connection (λ stored. connections_of stored.core) client.old.boxed_client.value
        client.new.boxed_client.value result out.old out.new }
{
    getters::turn_client_connections(alloc, client, out)
}

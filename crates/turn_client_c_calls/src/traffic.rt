//! The calls by which bytes are received and sent.

ghost use Rattle.std.specs.Prelude.{◌≡◌, ◌+◌, [], length, nat_lt, not, None};
ghost use Rattle.turn_client_c_types.specs.Addresses.{address_of, transport_of};
ghost use Rattle.turn_client_c_calls.specs.Calls.{Named, OnClient, Unless};
ghost use Rattle.turn_client_c_calls.specs.Codes.{bad_family, bad_length, bad_setting, small_buffer};
ghost use Rattle.turn_client_c_calls.specs.Lengths.{is_bad_length};
ghost use Rattle.turn_client_c_calls.specs.Traffic.{IsTransmittedReported, IsFed, IsPulledReported, IsReadReported, IsCarried, IsSendReported, draw_status, draw_reported, draw_written, joined_by, message_room, payload_reported, recv_joined, recv_status, recv_reported, send_extra, written};

use crate::handle::TurnHandle;
use crate::lengths::is_bad_length;
use crate::status;
use crate::whole::HandleState;
use std::alloc::Global;
use std::net::SocketAddr;
use stun_types_base::data::Data;
use stun_types_base::instant::Instant;
use stun_types_base::memory::NoMemory;
use stun_types_base::transmit::Transmit;
use stun_types_base::transport::TransportType;
use stun_types_wire::registry::MAX_MESSAGE_LENGTH;
use turn_client_c_types::address::{TurnAddress, transport_of};
use turn_client_c_types::reported::{TurnPayload, TurnTransmit};
use turn_client_proto::api::TurnClientApi;
use turn_client_proto::client::TurnClient;
use turn_client_proto_api::answer::TurnRecvRet;
use turn_client_proto_api::data::{DataRangeOrOwned, TurnPeerData};
use turn_client_proto_api::error::SendError;
use turn_types_frame::build::{DelayedTransmitBuild, TransmitBuild};

/// The room that the buffer for a message needs in addition to its payload, in bytes. A SEND
/// indication's header, an IPv6 address, and DATA's header and padding take 51.
const SEND_EXTRA: usize = 64;

/// Writes bytes to the start of a buffer if they fit, and returns whether they do.
pub(crate) fn write_head(out: &mut [u8], bytes: &[u8]) -> bool
    ensures room { result ≡ not (nat_lt (length out.old) (length bytes.now)) }
    ensures bytes { out.new ≡ written bytes.now out.old }
{
    if out.len() < bytes.len() {
        return false;
    }
    let (head, _) = out.split_at_mut(bytes.len());
    head.copy_from_slice(bytes);
    true
}

/// Writes where the data of a peer is. Data that is not in the received bytes is stored in
/// `joined`, to be read.
fn report_data(given: TurnPeerData<&[u8]>, joined: &mut Vec<u8>, payload: &mut TurnPayload)
    ensures reported { payload.new ≡ payload_reported given.entry }
    ensures joined { joined.old.items ≡ [] → joined.new.items ≡ joined_by given.entry }
{
    let size = given.data().len();
    let (transport, peer) = (given.transport, given.peer);
    match given.into_data() {
        DataRangeOrOwned::Range { range, .. } => {
            payload.report(range.start, size, false, transport, &peer);
        }
        DataRangeOrOwned::Owned(bytes) => {
            *joined = bytes;
            payload.report(0, size, true, transport, &peer);
        }
    }
}

/// Writes the result of `recv`, and returns its status.
fn report(answer: TurnRecvRet<&[u8]>, joined: &mut Vec<u8>, payload: &mut TurnPayload) -> i32
    ensures status { result ≡ recv_status answer.entry }
    ensures reported { payload.new ≡ recv_reported payload.old answer.entry }
    ensures joined { joined.old.items ≡ [] → joined.new.items ≡ recv_joined answer.entry }
{
    match answer {
        TurnRecvRet::Handled => status::OK,
        TurnRecvRet::Ignored(_) => status::IGNORED,
        TurnRecvRet::PeerData(given) => {
            report_data(given, joined, payload);
            status::PAYLOAD
        }
        TurnRecvRet::PeerIcmp {
            transport,
            peer,
            icmp_type,
            icmp_code,
            icmp_data,
        } => {
            payload.report_report(transport, &peer, icmp_type, icmp_code, icmp_data);
            status::ICMP
        }
        TurnRecvRet::NoMemory(_) => status::NO_MEMORY,
    }
}

/// Passes received bytes to a client. Does nothing while joined bytes are unread.
#[tactic(auto, using(crate::proofs::Reporting::waits_unread))]
fn feed(
    whole: &mut HandleState,
    from: SocketAddr,
    to: SocketAddr,
    bytes: &[u8],
    now: Instant,
    payload: &mut TurnPayload,
) -> i32
    ensures { IsFed bytes.entry from to now result payload.old payload.new whole.old whole.new }
{
    if !whole.joined.is_empty() {
        return status::UNREAD;
    }
    let came = Transmit::new(bytes, whole.client.transport(), from, to);
    let answer = whole.client.recv(came, now);
    report(answer, &mut whole.joined, payload)
}

/// Handles received bytes, with the addresses from and to which they were sent: a datagram, or a
/// chunk of a stream.
pub fn turn_client_feed(
    alloc: Global,
    client: &mut TurnHandle,
    from: &TurnAddress,
    to: &TurnAddress,
    bytes: &[u8],
    now: u64,
    payload: &mut TurnPayload,
) -> i32
    ensures { Named (address_of from.now) bad_family client.old.boxed_client.value client.new.boxed_client.value
        result (λ sender.
        Named (address_of to.now) bad_family client.old.boxed_client.value client.new.boxed_client.value
        result (λ here.
        Unless (is_bad_length (length bytes.now)) bad_length client.old.boxed_client.value
        client.new.boxed_client.value result
        (OnClient client.old.boxed_client.value client.new.boxed_client.value result
        (IsFed bytes.entry sender here now result payload.old payload.new)))) }
{
    let Some(sender) = from.to_socket() else {
        return status::BAD_FAMILY;
    };
    let Some(here) = to.to_socket() else {
        return status::BAD_FAMILY;
    };
    if is_bad_length(bytes.len()) {
        return status::BAD_LENGTH;
    }
    let Some(mut whole) = client.take(alloc) else {
        return status::NO_CLIENT;
    };
    let time = Instant::from_nanos(now);
    let status = feed(&mut whole, sender, here, bytes, time, payload);
    client.put(whole);
    status
}

/// Stores the bytes of a payload of `poll_recv` in `joined`, to be read, and writes the payload.
fn report_waiting(given: TurnPeerData<Vec<u8>>, joined: &mut Vec<u8>, payload: &mut TurnPayload)
    requires { given.index ≡ None }
    ensures reported { payload.new ≡ payload_reported given }
    ensures joined { joined.new.items ≡ given.payload }
{
    let size = given.data().len();
    let (transport, peer) = (given.transport, given.peer);
    match given.into_data() {
        DataRangeOrOwned::Owned(bytes) => {
            *joined = bytes;
            payload.report(0, size, true, transport, &peer);
        }
        // The payloads of `poll_recv` own their bytes.
        DataRangeOrOwned::Range { .. } => unreachable!(),
    }
}

/// Writes the next buffered data of a peer of a client's stream. Does nothing while joined bytes
/// are unread.
#[tactic(auto, using(crate::proofs::Reporting::waits_still, crate::proofs::Reporting::waiting_owned))]
fn pull(whole: &mut HandleState, now: Instant, payload: &mut TurnPayload) -> i32
    ensures { IsPulledReported now result payload.old payload.new whole.old whole.new }
{
    if !whole.joined.is_empty() {
        return status::UNREAD;
    }
    match whole.client.poll_recv(now) {
        Ok(Some(given)) => {
            report_waiting(given, &mut whole.joined, payload);
            status::PAYLOAD
        }
        Ok(None) => status::NOTHING,
        Err(_) => status::NO_MEMORY,
    }
}

/// Writes the next buffered data of a peer of a stream.
pub fn turn_client_pull(
    alloc: Global,
    client: &mut TurnHandle,
    now: u64,
    payload: &mut TurnPayload,
) -> i32
    ensures { OnClient client.old.boxed_client.value client.new.boxed_client.value result
        (IsPulledReported now result payload.old payload.new) }
{
    let Some(mut whole) = client.take(alloc) else {
        return status::NO_CLIENT;
    };
    let status = pull(&mut whole, Instant::from_nanos(now), payload);
    client.put(whole);
    status
}

/// Copies the joined bytes of the last reported payload to the start of a buffer, and frees them.
pub fn turn_client_read(alloc: Global, client: &mut TurnHandle, out: &mut [u8]) -> i32
    ensures { Unless (is_bad_length (length out.old)) bad_length client.old.boxed_client.value
        client.new.boxed_client.value result
        (OnClient client.old.boxed_client.value client.new.boxed_client.value result
        (IsReadReported result out.old out.new)) }
{
    if is_bad_length(out.len()) {
        return status::BAD_LENGTH;
    }
    let Some(mut whole) = client.take(alloc) else {
        return status::NO_CLIENT;
    };
    let status = if whole.joined.is_empty() {
        status::NOTHING
    } else if write_head(out, whole.joined.as_slice()) {
        whole.joined = Vec::new(alloc);
        status::OK
    } else {
        status::SMALL_BUFFER
    };
    client.put(whole);
    status
}

/// Writes the result of `poll_transmit`, and its bytes to the start of a buffer; returns its
/// status.
fn report_transmitted(
    answer: Result<Option<Transmit<Data<'static>>>, NoMemory>,
    out: &mut [u8],
    transmit: &mut TurnTransmit,
) -> i32
    ensures status { result ≡ draw_status (length out.old) answer.entry }
    ensures bytes { out.new ≡ draw_written out.old answer.entry }
    ensures reported { transmit.new ≡ draw_reported transmit.old answer.entry }
{
    match answer {
        Ok(Some(transmitted)) => {
            let bytes = transmitted.bytes.as_slice();
            transmit.report(
                bytes.len(),
                transmitted.transport,
                &transmitted.from,
                &transmitted.to,
            );
            if write_head(out, bytes) {
                status::OK
            } else {
                status::TOO_LARGE
            }
        }
        Ok(None) => status::NOTHING,
        Err(_) => status::NO_MEMORY,
    }
}

/// Writes a client's next message.
fn draw(whole: &mut HandleState, now: Instant, out: &mut [u8], transmit: &mut TurnTransmit) -> i32
    ensures { IsTransmittedReported now result out.old out.new transmit.old transmit.new whole.old
        whole.new }
{
    let answer = whole.client.poll_transmit(now);
    report_transmitted(answer, out, transmit)
}

/// Writes the next message to send at `now` to the start of a buffer that has room for any message.
pub fn turn_client_draw(
    alloc: Global,
    client: &mut TurnHandle,
    now: u64,
    out: &mut [u8],
    transmit: &mut TurnTransmit,
) -> i32
    ensures { Unless (is_bad_length (length out.old)) bad_length client.old.boxed_client.value
        client.new.boxed_client.value result
        (Unless (nat_lt (length out.old) message_room) small_buffer client.old.boxed_client.value
        client.new.boxed_client.value result
        (OnClient client.old.boxed_client.value client.new.boxed_client.value result
        (IsTransmittedReported now result out.old out.new transmit.old transmit.new))) }
{
    if is_bad_length(out.len()) {
        return status::BAD_LENGTH;
    }
    if out.len() < MAX_MESSAGE_LENGTH {
        return status::SMALL_BUFFER;
    }
    let Some(mut whole) = client.take(alloc) else {
        return status::NO_CLIENT;
    };
    let status = draw(&mut whole, Instant::from_nanos(now), out, transmit);
    client.put(whole);
    status
}

/// Writes what carries a payload to a peer to the start of a buffer, with its transport and its
/// addresses.
#[tactic(auto, using(crate::proofs::Reporting::is_carried))]
fn carry<C: TurnClientApi>(
    client: &mut C,
    by: TransportType,
    to: SocketAddr,
    bytes: &[u8],
    now: Instant,
    out: &mut [u8],
    transmit: &mut TurnTransmit,
) -> i32
    ensures { IsCarried by to bytes.now now result out.old out.new transmit.old transmit.new
        (C.stored client.old) (C.stored client.new) }
{
    match client.send_to(by, to, bytes, now) {
        Ok(Some(carrier)) => {
            let TransmitBuild {
                bytes: carried,
                transport,
                from,
                to,
            } = carrier;
            let size = carried.len();
            transmit.report(size, transport, &from, &to);
            if out.len() < size {
                return status::SMALL_BUFFER;
            }
            let (head, _) = out.split_at_mut(size);
            carried.write_into(head);
            status::OK
        }
        Ok(None) => status::NOTHING,
        Err(SendError::NoAllocation) => status::NO_ALLOCATION,
        Err(SendError::NoPermission) => status::NO_PERMISSION,
        Err(SendError::NoTcpSocket) => status::NO_SOCKET,
        Err(SendError::TooLarge) => status::TOO_LARGE,
        Err(_) => status::NO_MEMORY,
    }
}

/// Calls `carry` for the handle's client, by its own transport. So the result of `send_to`, which
/// is large, is not passed on.
fn send(
    whole: &mut HandleState,
    by: TransportType,
    to: SocketAddr,
    bytes: &[u8],
    now: Instant,
    out: &mut [u8],
    transmit: &mut TurnTransmit,
) -> i32
    ensures { IsSendReported by to bytes.now now result out.old out.new transmit.old transmit.new
        whole.old whole.new }
{
    match &mut whole.client {
        TurnClient::Udp(client) => carry(client, by, to, bytes, now, out, transmit),
        TurnClient::Tcp(client) => carry(client, by, to, bytes, now, out, transmit),
    }
}

/// Writes what carries a payload to a peer to the start of a buffer that has room for more than the
/// payload.
pub fn turn_client_send(
    alloc: Global,
    client: &mut TurnHandle,
    transport: u32,
    peer: &TurnAddress,
    bytes: &[u8],
    now: u64,
    out: &mut [u8],
    transmit: &mut TurnTransmit,
) -> i32
    ensures { Named (transport_of transport) bad_setting client.old.boxed_client.value client.new.boxed_client.value
        result (λ by.
        Named (address_of peer.now) bad_family client.old.boxed_client.value client.new.boxed_client.value
        result (λ to.
        Unless (is_bad_length (length bytes.now)) bad_length client.old.boxed_client.value
        client.new.boxed_client.value result
        (Unless (is_bad_length (length out.old)) bad_length client.old.boxed_client.value
        client.new.boxed_client.value result
        (Unless (nat_lt (length out.old) (length bytes.now + send_extra)) small_buffer
        client.old.boxed_client.value client.new.boxed_client.value result
        (OnClient client.old.boxed_client.value client.new.boxed_client.value result
        (IsSendReported by to bytes.now now result out.old out.new transmit.old transmit.new)))))) }
{
    let Some(by) = transport_of(transport) else {
        return status::BAD_SETTING;
    };
    let Some(to) = peer.to_socket() else {
        return status::BAD_FAMILY;
    };
    if is_bad_length(bytes.len()) {
        return status::BAD_LENGTH;
    }
    if is_bad_length(out.len()) {
        return status::BAD_LENGTH;
    }
    // The payload is no longer than an object can be, so the sum doesn't wrap.
    if out.len() < bytes.len() + SEND_EXTRA {
        return status::SMALL_BUFFER;
    }
    let Some(mut whole) = client.take(alloc) else {
        return status::NO_CLIENT;
    };
    let time = Instant::from_nanos(now);
    let status = send(&mut whole, by, to, bytes, time, out, transmit);
    client.put(whole);
    status
}

//! Handling of what is received on the socket of a connection to a peer (RFC 6062, sections 4.3 and
//! 4.5): frames until the connection is bound, and then the peer's bytes.

ghost use Rattle.std.specs.Prelude.{◌≡◌, ◌≢◌, ◌≤◌, [], false, length, take, true, IfOk, OnErr, OnOk, MatchResult, Some, option_map};
ghost use Rattle.stun_types_wire.specs.Headers.{AreBytes};
ghost use Rattle.stun_types_base.specs.declared.transport.TransportType.TheVariants.{Tcp};
ghost use Rattle.turn_client_proto_recv.specs.Datagrams.{IsHandledAs};
ghost use Rattle.turn_client_proto_recv.specs.Notes.{AreNoted, IsFrameNoted, IsNotedAt};
ghost use Rattle.turn_client_proto_recv.specs.Processing.{IsProcessedAt, may_bind};
ghost use Rattle.turn_client_proto_recv.specs.Pulls.{frame_of};
ghost use Rattle.turn_client_proto_recv.specs.SocketChunks.{IsEnded, IsFed, IsFrameProcessed, IsHeadTaken, IsLostAt, IsLostFrom, IsMessageProcessed, IsNextTaken, IsChunkFed, IsRawTaken, IsReceivedAt, IsTakenFor, IsTakenFrom, IsWaitingTaken, MayGrowAt, MayGrowBy, is_joining, raw_waiting, socket_of, with_stored};
ghost use Rattle.turn_client_proto_allocation.specs.declared.connection.Connection.{Connection as Joined};
ghost use Rattle.turn_client_proto_api.specs.declared.answer.TurnRecvRet.TheVariants as recv;
ghost use Rattle.turn_client_proto_connection.specs.Streams.{emptied, from, raw_stored as stored_of, raw_of};
ghost use Rattle.turn_client_proto_core.specs.Ending.{HasFailed};
ghost use Rattle.turn_types_frame.specs.StreamAnswers.{IsNone, looked};

use crate::closing::tcp_closed;
use crate::handing::handle;
use crate::notes::Notes;
use crate::processing::{awaited_at, process_at};
use crate::pulling::give_up;
use std::convert::AsSlice;
use std::fmt::Debug;
use std::net::SocketAddr;
use stun_types_base::instant::Instant;
use stun_types_base::memory::NoMemory;
use stun_types_base::transmit::Transmit;
use stun_types_base::transport::TransportType;
use stun_types_message::parsed::Message;
use turn_client_proto_allocation::connection::Connection;
use turn_client_proto_api::answer::TurnRecvRet;
use turn_client_proto_api::data::{DataRangeOrOwned, TurnPeerData};
use turn_client_proto_connection::streams;
use turn_client_proto_connection::streams::{Raw, take_raw};
use turn_client_proto_core::protocol::Protocol;
use turn_types_frame::tcp::{IncomingTcp, TurnTcpBuffer};

// ---- until the connection is bound

/// Proof only: each byte is below 256.
fn proof_are_bytes(bytes: &[u8])
    ensures { AreBytes bytes.now }
{}

/// Handles a message on the socket of a connection that is being bound, and notes it.
fn handle_at(
    protocol: &mut Protocol,
    notes: &mut Notes,
    here: SocketAddr,
    message: &Message<'_>,
    now: Instant,
) -> Result<(), NoMemory>
    ensures ok { OnOk result (IsProcessedAt here protocol.old message.now now protocol.new) }
    ensures err { OnErr result (HasFailed protocol.old protocol.new) }
    ensures memory { OnErr result (may_bind here protocol.old message.now ≡ true) }
    ensures noted { MatchResult result
        (λ _. IsNotedAt (length protocol.old.events) message.now protocol.new
        notes.old notes.new)
        (λ _. notes.new ≡ notes.old) }
{
    let before = protocol.events.len();
    process_at(protocol, here, message, now)?;
    notes.note_at(before, message, protocol);
    Ok(())
}

/// Handles a message on the socket with a local address. On a socket with the client's own address
/// it is handled as a message of the control connection.
fn process_message(
    protocol: &mut Protocol,
    notes: &mut Notes,
    here: SocketAddr,
    message: &Message<'_>,
    now: Instant,
) -> Result<(), NoMemory>
    ensures ok { OnOk result (IsMessageProcessed here now protocol.old message.now protocol.new) }
    ensures err { OnErr result (MayGrowBy here protocol.old message.now
        × HasFailed protocol.old protocol.new) }
    ensures noted { IsFrameNoted now protocol.old notes.old message.now protocol.new notes.new }
{
    if here == protocol.agent.local_addr() {
        match handle(protocol, notes, message, now) {
            Ok(_) => Ok(()),
            Err(error) => Err(error),
        }
    } else {
        handle_at(protocol, notes, here, message, now)
    }
}

/// Handles a frame on the socket with a local address.
fn take_frame(
    protocol: &mut Protocol,
    notes: &mut Notes,
    here: SocketAddr,
    frame: &[u8],
    now: Instant,
) -> Result<(), NoMemory>
    ensures ok { OnOk result (IsFrameProcessed here now protocol.old frame.now protocol.new) }
    ensures err { OnErr result (MayGrowAt here protocol.old frame.now
        × HasFailed protocol.old protocol.new) }
    ensures noted { IsFrameNoted now protocol.old notes.old frame.now protocol.new notes.new }
{
    proof_are_bytes(frame);
    match Message::from_bytes(frame) {
        Ok(message) => process_message(protocol, notes, here, &message, now),
        Err(_) => Ok(()),
    }
}

/// Returns whether the connection with this local address is still to be bound.
fn is_joining(protocol: &Protocol, here: SocketAddr) -> bool
    ensures { result ≡ is_joining here protocol.now }
{
    awaited_at(protocol.allocations.as_slice(), here).is_some()
}

/// Handles the frame at the head of a stream if it is complete and the connection is still to be
/// bound. Returns whether it did.
fn take_next(
    protocol: &mut Protocol,
    notes: &mut Notes,
    here: SocketAddr,
    stream: &mut TurnTcpBuffer,
    now: Instant,
) -> Result<bool, NoMemory>
    ensures ok { IfOk result (λ went.
        IsNextTaken here now stream.old protocol.old went stream.new protocol.new) }
    ensures err { OnErr result ((is_joining here protocol.old ≡ true)
        × (¬ IsNone (looked stream.old))
        × MayGrowAt here protocol.old (frame_of stream.old)
        × HasFailed protocol.old protocol.new) }
    ensures noted { AreNoted now protocol.old notes.old protocol.new notes.new }
{
    if !is_joining(protocol, here) {
        return Ok(false);
    }
    let is_whole = match stream.head() {
        Some(frame) => {
            take_frame(protocol, notes, here, frame, now)?;
            true
        }
        None => false,
    };
    stream.drop_head();
    Ok(is_whole)
}

/// Handles the complete frames of a stream while the connection is still to be bound.
///
/// # Errors
///
/// - `NoMemory`: a memory allocation failed, and the client has failed.
fn feed(
    protocol: &mut Protocol,
    notes: &mut Notes,
    here: SocketAddr,
    stream: &mut TurnTcpBuffer,
    now: Instant,
) -> Result<(), NoMemory>
    ensures ok { OnOk result (IsFed here now stream.old protocol.old stream.new protocol.new) }
    ensures err { OnErr result (IsLostAt here now stream.old protocol.old protocol.new) }
    ensures noted { AreNoted now protocol.old notes.old protocol.new notes.new }
{
    while take_next(protocol, notes, here, stream, now)? {}
    Ok(())
}

/// Handles a frame, and then the complete frames after it.
fn take_from(
    protocol: &mut Protocol,
    notes: &mut Notes,
    here: SocketAddr,
    stream: &mut TurnTcpBuffer,
    frame: &[u8],
    now: Instant,
) -> Result<(), NoMemory>
    ensures ok { OnOk result (IsTakenFrom here now frame.now stream.old protocol.old
        stream.new protocol.new) }
    ensures err { OnErr result (IsLostFrom here now frame.now stream.old protocol.old
        protocol.new) }
    ensures noted { AreNoted now protocol.old notes.old protocol.new notes.new }
{
    take_frame(protocol, notes, here, frame, now)?;
    feed(protocol, notes, here, stream, now)
}

/// Returns the result for a chunk whose frames have been handled.
fn reported<T: AsSlice<u8> + Debug + Drop>(
    done: Result<(), NoMemory>,
    transmit: Transmit<T>,
    is_message: bool,
) -> TurnRecvRet<T>
    ensures { MatchResult done (λ _. IsHandledAs transmit is_message result)
        (λ _. result ≡ recv.NoMemory transmit) }
{
    match done {
        Ok(()) => {
            if is_message {
                TurnRecvRet::Handled
            } else {
                TurnRecvRet::Ignored(transmit)
            }
        }
        Err(NoMemory) => TurnRecvRet::NoMemory(transmit),
    }
}

/// Returns the result for a chunk whose first frame is its first `end` bytes. `is_message` says
/// whether that frame is a message.
fn take_in_place<T: AsSlice<u8> + Debug + Drop>(
    protocol: &mut Protocol,
    notes: &mut Notes,
    stream: &mut TurnTcpBuffer,
    transmit: Transmit<T>,
    end: usize,
    is_message: bool,
    now: Instant,
) -> TurnRecvRet<T>
    requires { end ≤ length (T.items transmit.bytes) }
    ensures taken { IsHeadTaken transmit.to now is_message (take end (T.items transmit.bytes))
        stream.old protocol.old transmit result stream.new protocol.new }
    ensures noted { AreNoted now protocol.old notes.old protocol.new notes.new }
{
    let (frame, _) = transmit.bytes.as_slice().split_at(end);
    let done = take_from(protocol, notes, transmit.to, stream, frame, now);
    reported(done, transmit, is_message)
}

/// Returns the result for a chunk whose first frame began in an earlier chunk. `is_message` says
/// whether that frame is a message.
fn take_apart<T: AsSlice<u8> + Debug + Drop>(
    protocol: &mut Protocol,
    notes: &mut Notes,
    stream: &mut TurnTcpBuffer,
    transmit: Transmit<T>,
    frame: &[u8],
    is_message: bool,
    now: Instant,
) -> TurnRecvRet<T>
    ensures taken { IsHeadTaken transmit.to now is_message frame.now
        stream.old protocol.old transmit result stream.new protocol.new }
    ensures noted { AreNoted now protocol.old notes.old protocol.new notes.new }
{
    let done = take_from(protocol, notes, transmit.to, stream, frame, now);
    reported(done, transmit, is_message)
}

/// Handles the complete frames of a chunk on the socket of a connection that is being bound.
/// `stream` has the bytes buffered before it.
fn take_frames<T: AsSlice<u8> + Debug + Drop>(
    protocol: &mut Protocol,
    notes: &mut Notes,
    stream: &mut TurnTcpBuffer,
    transmit: Transmit<T>,
    now: Instant,
) -> TurnRecvRet<T>
    requires { is_joining transmit.to protocol.old ≡ true }
    ensures taken { IsChunkFed T.items transmit.to now stream.old protocol.old transmit result
        stream.new protocol.new }
    ensures noted { AreNoted now protocol.old notes.old protocol.new notes.new }
{
    match stream.incoming_tcp(transmit) {
        None => TurnRecvRet::Handled,
        Some(IncomingTcp::CompleteMessage(transmit, range)) => {
            take_in_place(protocol, notes, stream, transmit, range.end, true, now)
        }
        Some(IncomingTcp::CompleteChannel(transmit, range)) => {
            take_in_place(protocol, notes, stream, transmit, range.end, false, now)
        }
        Some(IncomingTcp::StoredMessage(frame, transmit)) => {
            take_apart(
                protocol,
                notes,
                stream,
                transmit,
                frame.as_slice(),
                true,
                now,
            )
        }
        Some(IncomingTcp::StoredChannel(frame, transmit)) => {
            take_apart(
                protocol,
                notes,
                stream,
                transmit,
                frame.as_slice(),
                false,
                now,
            )
        }
        Some(IncomingTcp::NoMemory(transmit)) => {
            give_up(protocol);
            TurnRecvRet::NoMemory(transmit)
        }
    }
}

/// Replaces the stream of the first connection with this local address, and returns the old one.
fn exchange(
    protocol: &mut Protocol,
    here: SocketAddr,
    stream: TurnTcpBuffer,
) -> Option<TurnTcpBuffer>
    ensures given { result ≡ option_map (λ c. c.stream) (from here protocol.old.allocations) }
    ensures after { protocol.new ≡ with_stored here stream protocol.old }
{
    streams::exchange(protocol.allocations.as_mut_slice(), here, stream)
}

/// Handles a chunk on the socket of a connection that is being bound. The connection's stream is
/// moved out of the client while its frames are handled.
fn take_joining<T: AsSlice<u8> + Debug + Drop>(
    protocol: &mut Protocol,
    notes: &mut Notes,
    transmit: Transmit<T>,
    now: Instant,
) -> TurnRecvRet<T>
    requires { is_joining transmit.to protocol.old ≡ true }
    ensures taken { (c : Joined) → from transmit.to protocol.old.allocations ≡ Some c
        → IsTakenFor T.items c now protocol.old transmit result protocol.new }
    ensures noted { AreNoted now protocol.old notes.old protocol.new notes.new }
{
    let here = transmit.to;
    let fresh = TurnTcpBuffer::new(protocol.alloc);
    let Some(mut stream) = exchange(protocol, here, fresh) else {
        return TurnRecvRet::Ignored(transmit);
    };
    let answer = take_frames(protocol, notes, &mut stream, transmit, now);
    let _ = exchange(protocol, here, stream);
    answer
}

// ---- once it is bound

/// Returns the peer's bytes that came on the socket of a bound connection without buffered bytes.
fn give_in_place<T: AsSlice<u8> + Debug + Drop>(
    transmit: Transmit<T>,
    peer: SocketAddr,
) -> TurnRecvRet<T>
    ensures { result ≡ recv.PeerData (record {
      payload = T.items transmit.bytes;
      index = Some (0, length (T.items transmit.bytes));
      transport = Tcp;
      peer = peer;
    }) }
{
    let end = transmit.bytes.as_slice().len();
    let held = DataRangeOrOwned::Range {
        bytes: transmit.bytes,
        range: 0..end,
    };
    TurnRecvRet::PeerData(TurnPeerData::new(held, TransportType::Tcp, peer))
}

/// Returns the buffered bytes of a bound connection, followed by those that came.
fn give_joined<T: AsSlice<u8> + Debug + Drop>(
    protocol: &mut Protocol,
    transmit: Transmit<T>,
    peer: SocketAddr,
) -> TurnRecvRet<T>
    ensures { (c : Joined) → from transmit.to protocol.old.allocations ≡ Some c
        → c.stream.stored ≢ []
        → c.peer ≡ peer
        → IsRawTaken T.items c protocol.old transmit result protocol.new }
{
    let fresh = TurnTcpBuffer::new(protocol.alloc);
    let Some(stream) = exchange(protocol, transmit.to, fresh) else {
        return TurnRecvRet::Ignored(transmit);
    };
    let mut bytes = stream.into_inner();
    if bytes.extend_from_slice(transmit.bytes.as_slice()).is_err() {
        give_up(protocol);
        return TurnRecvRet::NoMemory(transmit);
    }
    let held = DataRangeOrOwned::Owned(bytes);
    TurnRecvRet::PeerData(TurnPeerData::new(held, TransportType::Tcp, peer))
}

// ---- a chunk

/// Returns the connection on whose socket bytes came from the server.
fn socket_of<'a, T>(protocol: &'a Protocol, transmit: &Transmit<T>) -> Option<&'a Connection>
    ensures { option_map (λ c. c.now) result ≡ socket_of protocol.now transmit.now }
{
    if transmit.transport == protocol.agent.transport() && transmit.from == protocol.server {
        streams::from(protocol.allocations.as_slice(), transmit.to)
    } else {
        None
    }
}

/// Handles the closing of a connection's socket.
fn end<T: AsSlice<u8> + Debug + Drop>(
    protocol: &mut Protocol,
    transmit: Transmit<T>,
) -> TurnRecvRet<T>
    ensures { IsEnded protocol.old transmit result protocol.new }
{
    let server = protocol.server;
    match tcp_closed(protocol, transmit.to, server) {
        Ok(()) => TurnRecvRet::Handled,
        Err(NoMemory) => {
            give_up(protocol);
            TurnRecvRet::NoMemory(transmit)
        }
    }
}

/// Handles bytes that didn't come on the control connection. Bytes that came on no connection's
/// socket are given back; an empty chunk ends a connection.
pub fn receive_at<T: AsSlice<u8> + Debug + Drop>(
    protocol: &mut Protocol,
    notes: &mut Notes,
    transmit: Transmit<T>,
    now: Instant,
) -> TurnRecvRet<T>
    ensures taken { IsReceivedAt T.items now protocol.old transmit result protocol.new }
    ensures noted { AreNoted now protocol.old notes.old protocol.new notes.new }
    ensures elsewhere { transmit.from ≢ protocol.old.server → notes.new ≡ notes.old }
{
    let Some(connection) = socket_of(protocol, &transmit) else {
        return TurnRecvRet::Ignored(transmit);
    };
    if transmit.bytes.as_slice().is_empty() {
        return end(protocol, transmit);
    }
    if connection.awaited.is_some() {
        return take_joining(protocol, notes, transmit, now);
    }
    let peer = connection.peer;
    if connection.stream.is_empty() {
        return give_in_place(transmit, peer);
    }
    give_joined(protocol, transmit, peer)
}

// ---- buffered bytes

/// Removes and returns the buffered bytes of the first bound connection that has some.
fn take_first(protocol: &mut Protocol) -> Option<Raw>
    ensures given { option_map raw_of result ≡ option_map stored_of (raw_waiting protocol.old) }
    ensures after { protocol.new ≡ record protocol.old {
      allocations = emptied protocol.old.allocations;
    } }
{
    take_raw(protocol.alloc, protocol.allocations.as_mut_slice())
}

/// Removes and returns the buffered bytes of the first bound connection that has some, in the order
/// of allocations and of sockets. Allocates no memory.
pub fn take_waiting(protocol: &mut Protocol) -> Option<TurnPeerData<Vec<u8>>>
    ensures { IsWaitingTaken protocol.old result protocol.new }
{
    match take_first(protocol) {
        Some(raw) => {
            let held = DataRangeOrOwned::Owned(raw.bytes);
            Some(TurnPeerData::new(held, TransportType::Tcp, raw.peer))
        }
        None => None,
    }
}

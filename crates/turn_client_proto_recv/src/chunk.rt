//! Handling of a chunk of the TCP stream from the server.

ghost use Rattle.std.specs.Prelude.{◌≤◌, false, length, take, true};
ghost use Rattle.turn_client_proto_recv.specs.Chunks.{IsAfter, IsFirstAnswered, IsPayloadAnswered, IsChunkTaken};
ghost use Rattle.turn_client_proto_recv.specs.Notes.{AreNoted};

use crate::handing::{Taken, dispatch, given};
use crate::notes::Notes;
use crate::pulling::{give_up, owned, pull};
use std::convert::AsSlice;
use std::fmt::Debug;
use stun_types_base::instant::Instant;
use stun_types_base::memory::NoMemory;
use stun_types_base::transmit::Transmit;
use turn_client_proto_api::answer::TurnRecvRet;
use turn_client_proto_core::protocol::Protocol;
use turn_client_proto_payload::payload::Payload;
use turn_types_frame::tcp::{IncomingTcp, TurnTcpBuffer};

/// Handles a chunk of the control stream: handles the first complete frame, and returns what it
/// delivers from a peer.
///
/// - Data is returned as a range of the chunk if the frame begins with the chunk, else in a vector
///   of its own.
/// - If the frame delivers nothing, further frames are handled until one carries data.
/// - Bytes that are neither a message nor a channel frame are skipped; then no other frame is
///   handled.
/// - If no frame is complete, the bytes are buffered and the result is `Handled`.
///
/// # Errors
///
/// - `NoMemory`, with the chunk: a memory allocation failed, and the client has failed. Memory is
///   needed only to buffer bytes, to handle a frame of which the client stores or reports
///   something, or for data that doesn't lie in the chunk.
pub fn take_chunk<T: AsSlice<u8> + Debug + Drop>(
    protocol: &mut Protocol,
    notes: &mut Notes,
    stream: &mut TurnTcpBuffer,
    transmit: Transmit<T>,
    now: Instant,
) -> TurnRecvRet<T>
    ensures taken { IsChunkTaken T.items now stream.old protocol.old transmit result
        stream.new protocol.new }
    ensures noted { AreNoted now protocol.old notes.old protocol.new notes.new }
{
    match stream.incoming_tcp(transmit) {
        None => TurnRecvRet::Handled,
        Some(IncomingTcp::CompleteMessage(transmit, range)) => {
            take_in_place(protocol, notes, stream, transmit, range.end, now)
        }
        Some(IncomingTcp::CompleteChannel(transmit, range)) => {
            take_in_place(protocol, notes, stream, transmit, range.end, now)
        }
        Some(IncomingTcp::StoredMessage(frame, transmit)) => {
            take_apart(protocol, notes, stream, transmit, frame.as_slice(), now)
        }
        Some(IncomingTcp::StoredChannel(frame, transmit)) => {
            take_apart(protocol, notes, stream, transmit, frame.as_slice(), now)
        }
        Some(IncomingTcp::NoMemory(transmit)) => {
            give_up(protocol);
            TurnRecvRet::NoMemory(transmit)
        }
    }
}

/// Returns the result for a chunk whose first frame is its first `end` bytes.
fn take_in_place<T: AsSlice<u8> + Debug + Drop>(
    protocol: &mut Protocol,
    notes: &mut Notes,
    stream: &mut TurnTcpBuffer,
    transmit: Transmit<T>,
    end: usize,
    now: Instant,
) -> TurnRecvRet<T>
    requires { end ≤ length (T.items transmit.bytes) }
    ensures taken { IsFirstAnswered now false (take end (T.items transmit.bytes))
        stream.old protocol.old transmit result stream.new protocol.new }
    ensures noted { AreNoted now protocol.old notes.old protocol.new notes.new }
{
    let (frame, _) = transmit.bytes.as_slice().split_at(end);
    match dispatch(protocol, notes, frame, now) {
        Ok(Taken::Given(payload)) => given(transmit, payload),
        Ok(Taken::Handled) => go_on(protocol, notes, stream, transmit, true, now),
        Ok(Taken::Ignored) => go_on(protocol, notes, stream, transmit, false, now),
        Ok(Taken::Garbled) => TurnRecvRet::Handled,
        Err(NoMemory) => TurnRecvRet::NoMemory(transmit),
    }
}

/// Returns the result for a chunk whose first frame began in an earlier chunk.
fn take_apart<T: AsSlice<u8> + Debug + Drop>(
    protocol: &mut Protocol,
    notes: &mut Notes,
    stream: &mut TurnTcpBuffer,
    transmit: Transmit<T>,
    frame: &[u8],
    now: Instant,
) -> TurnRecvRet<T>
    ensures taken { IsFirstAnswered now true frame.now
        stream.old protocol.old transmit result stream.new protocol.new }
    ensures noted { AreNoted now protocol.old notes.old protocol.new notes.new }
{
    match dispatch(protocol, notes, frame, now) {
        Ok(Taken::Given(payload)) => given_apart(protocol, frame, transmit, payload),
        Ok(Taken::Handled) => go_on(protocol, notes, stream, transmit, true, now),
        Ok(Taken::Ignored) => go_on(protocol, notes, stream, transmit, false, now),
        Ok(Taken::Garbled) => TurnRecvRet::Handled,
        Err(NoMemory) => TurnRecvRet::NoMemory(transmit),
    }
}

/// Returns what a frame delivers that doesn't lie in one chunk: data in a vector of its own.
fn given_apart<T: AsSlice<u8> + Debug + Drop>(
    protocol: &mut Protocol,
    frame: &[u8],
    transmit: Transmit<T>,
    payload: Payload,
) -> TurnRecvRet<T>
    ensures { IsPayloadAnswered frame.now payload transmit protocol.old result protocol.new }
{
    if let Payload::Report(..) = &payload {
        return given(transmit, payload);
    }
    match owned(protocol.alloc, frame, payload) {
        Ok(Some(data)) => TurnRecvRet::PeerData(data),
        // A payload that is no report is data.
        Ok(None) => unreachable!(),
        Err(NoMemory) => {
            give_up(protocol);
            TurnRecvRet::NoMemory(transmit)
        }
    }
}

/// Returns the result after the first frame delivered nothing: what another frame delivers, else
/// whether the first frame was for the client.
fn go_on<T: AsSlice<u8> + Debug + Drop>(
    protocol: &mut Protocol,
    notes: &mut Notes,
    stream: &mut TurnTcpBuffer,
    transmit: Transmit<T>,
    is_handled: bool,
    now: Instant,
) -> TurnRecvRet<T>
    ensures taken { IsAfter now is_handled stream.old protocol.old transmit result
        stream.new protocol.new }
    ensures noted { AreNoted now protocol.old notes.old protocol.new notes.new }
{
    match pull(protocol, notes, stream, now) {
        Ok(Some(data)) => TurnRecvRet::PeerData(data),
        Ok(None) => {
            if is_handled {
                TurnRecvRet::Handled
            } else {
                TurnRecvRet::Ignored(transmit)
            }
        }
        Err(NoMemory) => TurnRecvRet::NoMemory(transmit),
    }
}

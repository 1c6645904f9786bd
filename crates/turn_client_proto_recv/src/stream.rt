//! Handling of the TCP stream from the server (RFC 8656, section 12.5). While the stream is open,
//! its buffered bytes are stored; once it has ended, nothing is.

ghost use Rattle.std.specs.Bool.{MatchBool};
ghost use Rattle.std.specs.Prelude.{◌≡◌, ◌≢◌, IfOk, OnErr};
ghost use Rattle.turn_client_proto_recv.specs.Notes.{AreNoted};
ghost use Rattle.turn_client_proto_recv.specs.Receipts.{IsGivenBy, IsLostBy, IsOfStream, IsReceivedBy, control_of, over_tcp};

use crate::chunk::take_chunk;
use crate::datagram::is_of_server;
use crate::notes::Notes;
use crate::pulling::pull;
use crate::sockets::{receive_at, take_waiting};
use std::convert::AsSlice;
use std::fmt::Debug;
use stun_types_base::instant::Instant;
use stun_types_base::memory::NoMemory;
use stun_types_base::transmit::Transmit;
use turn_client_proto_api::answer::TurnRecvRet;
use turn_client_proto_api::data::TurnPeerData;
use turn_client_proto_core::protocol::Protocol;
use turn_types_frame::tcp::TurnTcpBuffer;

/// Returns whether a chunk belongs to the stream from the server, and the client has not failed.
fn is_of_stream<T>(protocol: &Protocol, transmit: &Transmit<T>) -> bool
    ensures { MatchBool result (IsOfStream protocol.now transmit.now)
        (¬ IsOfStream protocol.now transmit.now) }
{
    protocol.agent.remote_addr().is_some() && is_of_server(protocol, transmit)
}

/// Handles received bytes. An empty chunk ends the control stream. Bytes that don't belong to that
/// stream are handled as bytes on the socket of a connection, or given back if they are neither.
pub fn receive<T: AsSlice<u8> + Debug + Drop>(
    protocol: &mut Protocol,
    notes: &mut Notes,
    control: &mut Option<TurnTcpBuffer>,
    transmit: Transmit<T>,
    now: Instant,
) -> TurnRecvRet<T>
    ensures received { IsReceivedBy T.items now (control_of control.old) protocol.old transmit
        result (over_tcp protocol.new control.new) }
    ensures noted { AreNoted now protocol.old notes.old protocol.new notes.new }
    ensures elsewhere { transmit.from ≢ protocol.old.server → notes.new ≡ notes.old }
{
    let Some(stream) = control else {
        return receive_at(protocol, notes, transmit, now);
    };
    if !is_of_stream(protocol, &transmit) {
        return receive_at(protocol, notes, transmit, now);
    }
    if transmit.bytes.as_slice().is_empty() {
        *control = None;
        return TurnRecvRet::Handled;
    }
    take_chunk(protocol, notes, stream, transmit, now)
}

/// Returns buffered data from a peer: the bytes of the first bound connection that has some, else
/// the data that a frame in the control stream carries. A client that has failed has no
/// allocations, and so returns none.
pub fn ask(
    protocol: &mut Protocol,
    notes: &mut Notes,
    control: &mut Option<TurnTcpBuffer>,
    now: Instant,
) -> Result<Option<TurnPeerData<Vec<u8>>>, NoMemory>
    ensures ok { IfOk result (λ given. IsGivenBy now (control_of control.old) protocol.old given
        (over_tcp protocol.new control.new)) }
    ensures err { OnErr result (IsLostBy now (control_of control.old) protocol.old
        (over_tcp protocol.new control.new)) }
    ensures noted { AreNoted now protocol.old notes.old protocol.new notes.new }
{
    if let Some(given) = take_waiting(protocol) {
        return Ok(Some(given));
    }
    match control {
        Some(stream) => pull(protocol, notes, stream, now),
        None => Ok(None),
    }
}

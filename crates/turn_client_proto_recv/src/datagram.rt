//! Handling of datagrams from the server.

ghost use Rattle.std.specs.Bool.{MatchBool};
ghost use Rattle.turn_client_proto_recv.specs.Datagrams.{IsOfServer, IsTaken};
ghost use Rattle.turn_client_proto_recv.specs.Notes.{AreNoted};

use crate::handing::{Taken, dispatch, given};
use crate::notes::Notes;
use std::convert::AsSlice;
use std::fmt::Debug;
use stun_types_base::instant::Instant;
use stun_types_base::memory::NoMemory;
use stun_types_base::transmit::Transmit;
use turn_client_proto_api::answer::TurnRecvRet;
use turn_client_proto_core::protocol::Protocol;

/// Returns whether bytes came from the server to the client's own address, over its transport.
pub fn is_of_server<T>(protocol: &Protocol, transmit: &Transmit<T>) -> bool
    ensures { MatchBool result (IsOfServer protocol.now transmit.now)
        (¬ IsOfServer protocol.now transmit.now) }
{
    transmit.transport == protocol.agent.transport()
        && transmit.from == protocol.server
        && transmit.to == protocol.agent.local_addr()
}

/// Handles a datagram from the server.
pub fn take_datagram<T: AsSlice<u8> + Debug + Drop>(
    protocol: &mut Protocol,
    notes: &mut Notes,
    transmit: Transmit<T>,
    now: Instant,
) -> TurnRecvRet<T>
    ensures taken { IsTaken T.items protocol.old transmit now result protocol.new }
    ensures noted { AreNoted now protocol.old notes.old protocol.new notes.new }
{
    match dispatch(protocol, notes, transmit.bytes.as_slice(), now) {
        Ok(Taken::Given(payload)) => given(transmit, payload),
        Ok(Taken::Handled) => TurnRecvRet::Handled,
        Ok(Taken::Ignored) => TurnRecvRet::Ignored(transmit),
        Ok(Taken::Garbled) => TurnRecvRet::Ignored(transmit),
        Err(NoMemory) => TurnRecvRet::NoMemory(transmit),
    }
}

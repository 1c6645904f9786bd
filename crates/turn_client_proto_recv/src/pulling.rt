//! Handling of the frames that are buffered in a client's stream, one by one.

ghost use Rattle.std.specs.Prelude.{◌≡◌, IfOk, OnErr};
ghost use Rattle.turn_client_proto_core.specs.Ending.{HasFailed};
ghost use Rattle.turn_client_proto_recv.specs.Chunks.{GivesData, Needs, data_given};
ghost use Rattle.turn_client_proto_recv.specs.Chunks.{IsFrameHandled, IsLostOn, IsTakenOff};
ghost use Rattle.turn_client_proto_recv.specs.Notes.{AreNoted};
ghost use Rattle.turn_client_proto_recv.specs.Pulls.{IsPulled, frame_of};
ghost use Rattle.turn_types_frame.specs.StreamAnswers.{IsNone, looked};

use crate::handing::{Taken, dispatch};
use crate::notes::Notes;
use std::alloc::Global;
use std::convert::AsSlice;
use std::fmt::Debug;
use stun_types_base::instant::Instant;
use stun_types_base::memory::NoMemory;
use turn_client_proto_api::data::{DataRangeOrOwned, TurnPeerData};
use turn_client_proto_core::protocol::Protocol;
use turn_client_proto_payload::payload::Payload;
use turn_types_frame::tcp::TurnTcpBuffer;

/// Fails the client after a memory allocation failed. Its events stay.
pub(crate) fn give_up(protocol: &mut Protocol)
    ensures { HasFailed protocol.old protocol.new }
{
    let events = protocol.events.len();
    protocol.fail(events);
}

/// Returns the data that a frame carries, in a vector of its own; `None` for a report. Fails with
/// `NoMemory`.
pub(crate) fn owned<R: AsSlice<u8> + Debug + Drop>(
    alloc: Global,
    frame: &[u8],
    payload: Payload,
) -> Result<Option<TurnPeerData<R>>, NoMemory>
    ensures ok { IfOk result (λ given. given ≡ data_given frame.now payload) }
    ensures err { OnErr result (GivesData payload) }
{
    match payload {
        Payload::Data {
            transport,
            peer,
            start,
            end,
        }
        | Payload::Framed {
            transport,
            peer,
            start,
            end,
            ..
        } => {
            let held = DataRangeOrOwned::Range {
                bytes: frame,
                range: start..end,
            };
            match TurnPeerData::new(held, transport, peer).into_owned(alloc) {
                Ok(given) => Ok(Some(given)),
                Err(error) => Err(error),
            }
        }
        Payload::Report(..) => Ok(None),
    }
}

/// Handles a frame, and returns the data that it carries from a peer.
fn take_up<R: AsSlice<u8> + Debug + Drop>(
    protocol: &mut Protocol,
    notes: &mut Notes,
    frame: &[u8],
    now: Instant,
) -> Result<Option<TurnPeerData<R>>, NoMemory>
    ensures ok { IfOk result (λ given.
        IsFrameHandled now protocol.old frame.now given protocol.new) }
    ensures err { OnErr result (Needs protocol.old frame.now
        × HasFailed protocol.old protocol.new) }
    ensures noted { AreNoted now protocol.old notes.old protocol.new notes.new }
{
    match dispatch(protocol, notes, frame, now) {
        Ok(Taken::Given(payload)) => match owned(protocol.alloc, frame, payload) {
            Ok(given) => Ok(given),
            Err(error) => {
                give_up(protocol);
                Err(error)
            }
        },
        Ok(Taken::Handled) => Ok(None),
        Ok(Taken::Ignored) => Ok(None),
        Ok(Taken::Garbled) => Ok(None),
        Err(error) => Err(error),
    }
}

/// Handles the frame at the head of a stream, and returns the data that it carries from a peer.
/// Returns `None` if no frame is complete.
fn take_off<R: AsSlice<u8> + Debug + Drop>(
    protocol: &mut Protocol,
    notes: &mut Notes,
    stream: &mut TurnTcpBuffer,
    now: Instant,
) -> Result<Option<Option<TurnPeerData<R>>>, NoMemory>
    ensures ok { IfOk result (λ found.
        IsTakenOff now stream.old protocol.old found stream.new protocol.new) }
    ensures err { OnErr result ((¬ IsNone (looked stream.old))
        × Needs protocol.old (frame_of stream.old) × HasFailed protocol.old protocol.new) }
    ensures noted { AreNoted now protocol.old notes.old protocol.new notes.new }
{
    let found = match stream.head() {
        Some(frame) => Some(take_up(protocol, notes, frame, now)?),
        None => None,
    };
    stream.drop_head();
    Ok(found)
}

/// Handles the complete frames of a stream until one carries data from a peer, and returns the
/// data. Returns `None` when no frame is complete any more.
///
/// # Errors
///
/// - `NoMemory`: a memory allocation failed, and the client has failed.
pub fn pull<R: AsSlice<u8> + Debug + Drop>(
    protocol: &mut Protocol,
    notes: &mut Notes,
    stream: &mut TurnTcpBuffer,
    now: Instant,
) -> Result<Option<TurnPeerData<R>>, NoMemory>
    ensures ok { IfOk result (λ given.
        IsPulled (IsFrameHandled now) stream.old protocol.old given stream.new protocol.new) }
    ensures err { OnErr result (IsLostOn now stream.old protocol.old protocol.new) }
    ensures noted { AreNoted now protocol.old notes.old protocol.new notes.new }
{
    while let Some(given) = take_off(protocol, notes, stream, now)? {
        if given.is_some() {
            return Ok(given);
        }
    }
    Ok(None)
}

//! Handling of a message or a channel frame from the server.

ghost use Rattle.std.specs.Prelude.{◌≡◌, IfOk, MatchResult, None, OnErr};
ghost use Rattle.stun_types_wire.specs.Grammar.{refusal};
ghost use Rattle.turn_client_proto_core.specs.Ending.{HasFailed};
ghost use Rattle.turn_client_proto_core.specs.Receiving.{IsProcessed, MayGrow};
ghost use Rattle.turn_client_proto_payload.specs.Payloads.{payload_of};
ghost use Rattle.turn_client_proto_recv.specs.HandingIn.{IsFrameTaken};
ghost use Rattle.turn_client_proto_recv.specs.Datagrams.{IsDelivered};
ghost use Rattle.turn_client_proto_recv.specs.Notes.{IsFrameNoted, IsNotedBy, before_of};

use crate::notes::{Before, Notes};
use std::convert::AsSlice;
use std::fmt::Debug;
use stun_types_base::instant::Instant;
use stun_types_base::memory::NoMemory;
use stun_types_base::transmit::Transmit;
use stun_types_message::parsed::Message;
use turn_client_proto_api::answer::TurnRecvRet;
use turn_client_proto_api::data::{DataRangeOrOwned, TurnPeerData};
use turn_client_proto_core::protocol::Protocol;
use turn_client_proto_payload::payload::{Payload, payload_framed, payload_in};
use turn_types_frame::channel::ChannelData;

/// The result of handling a frame.
#[derive(Debug, Drop)]
pub enum Taken {
    /// The frame delivers this payload from a peer.
    Given(Payload),
    /// The frame was for the client and delivers nothing.
    Handled,
    /// The frame was not for the client.
    Ignored,
    /// The bytes are neither a message nor a channel frame.
    Garbled,
}

/// Handles a message from the server, and notes it.
pub(crate) fn handle(
    protocol: &mut Protocol,
    notes: &mut Notes,
    message: &Message<'_>,
    now: Instant,
) -> Result<bool, NoMemory>
    ensures ok { IfOk result (λ handled.
        IsProcessed protocol.old message.now now handled protocol.new) }
    ensures err { OnErr result (HasFailed protocol.old protocol.new) }
    ensures memory { OnErr result (MayGrow protocol.old message.now) }
    ensures noted { MatchResult result
        (λ _. IsNotedBy (before_of protocol.old message.now) message.now protocol.new
        notes.old notes.new)
        (λ _. notes.new ≡ notes.old) }
{
    let before = Before::of(protocol, message);
    let is_handled = protocol.handle_message(message, now)?;
    notes.note(before, message, protocol);
    Ok(is_handled)
}

/// Handles a message or a channel frame from the server, and notes a message that it handles.
#[tactic(auto, unfolding(crate::proofs::UsualHanding::opened))]
pub fn dispatch(
    protocol: &mut Protocol,
    notes: &mut Notes,
    bytes: &[u8],
    now: Instant,
) -> Result<Taken, NoMemory>
    ensures ok { IfOk result (λ taken. IsFrameTaken protocol.old bytes.now now taken protocol.new) }
    ensures err { OnErr result ((payload_of protocol.old bytes.now ≡ None)
        × (refusal bytes.now ≡ None)
        × MayGrow protocol.old bytes.now × HasFailed protocol.old protocol.new) }
    ensures noted { IsFrameNoted now protocol.old notes.old bytes.now protocol.new notes.new }
{
    match Message::from_bytes(bytes) {
        Ok(message) => {
            if let Some(payload) = payload_in(protocol, &message) {
                return Ok(Taken::Given(payload));
            }
            match handle(protocol, notes, &message, now) {
                Ok(true) => Ok(Taken::Handled),
                Ok(false) => Ok(Taken::Ignored),
                Err(error) => Err(error),
            }
        }
        Err(_) => {
            if let Some(payload) = payload_framed(protocol, bytes) {
                return Ok(Taken::Given(payload));
            }
            match ChannelData::parse(bytes) {
                Ok(_) => Ok(Taken::Ignored),
                Err(_) => Ok(Taken::Garbled),
            }
        }
    }
}

/// Returns what received bytes deliver: data as a range of the bytes.
pub fn given<T: AsSlice<u8> + Debug + Drop>(
    transmit: Transmit<T>,
    payload: Payload,
) -> TurnRecvRet<T>
    ensures { IsDelivered T.items transmit payload result }
{
    match payload {
        Payload::Data {
            transport,
            peer,
            start,
            end,
        }
        | Payload::Framed {
            transport,
            peer,
            start,
            end,
            ..
        } => {
            let held = DataRangeOrOwned::Range {
                bytes: transmit.bytes,
                range: start..end,
            };
            TurnRecvRet::PeerData(TurnPeerData::new(held, transport, peer))
        }
        Payload::Report(transport, peer, report) => TurnRecvRet::PeerIcmp {
            transport,
            peer,
            icmp_type: report.icmp_type(),
            icmp_code: report.code(),
            icmp_data: report.data(),
        },
    }
}

//! A client that has allocated is asked for a channel (RFC 8656, section 12). The functions do
//! nothing; each contract is a theorem.

ghost use Rattle.std.specs.Prelude.{◌≡◌, ◌≢◌, ◌↔◌, ◌<◌, ℕ, Bool, true, List};
ghost use Rattle.std.specs.Prelude.{Result, Ok, Err};
ghost use Rattle.std.specs.declared.net.socket_addr.SocketAddr.{SocketAddr};
ghost use Rattle.turn_client_proto_messages.specs.StunTypesWire.Headers.{AreBytes};
ghost use Rattle.turn_client_proto_messages.specs.StunTypesBase.declared.transmit.Transmit.{Transmit};
ghost use Rattle.turn_client_proto_messages.specs.StunTypesBase.declared.transport.TransportType.{TransportType};
ghost use Rattle.turn_client_proto_messages.specs.StunProtoTransaction.Schedule.{end_at};
ghost use Rattle.turn_client_proto_messages.specs.Api.Payloads.{PeerPayload};
ghost use Rattle.turn_client_proto_messages.specs.Api.declared.answer.TurnRecvRet.{TurnRecvRet};
ghost use Rattle.turn_client_proto_messages.specs.Api.declared.answer.TurnRecvRet.TheVariants.{PeerData};
ghost use Rattle.turn_client_proto_messages.specs.Api.declared.error.BindChannelError.{BindChannelError};
ghost use Rattle.turn_client_proto_messages.specs.Api.declared.error.BindChannelError.TheVariants as not_bound;
ghost use Rattle.turn_client_proto_step_laws.specs.Peers.Channel.Visible.{channels_listed};
ghost use Rattle.turn_client_proto_step_laws.specs.Recv.Control.{Datagrams};
ghost use Rattle.turn_client_proto_handshake_laws.specs.Core.Binding.{IsBindAnswered};
ghost use Rattle.turn_client_proto_handshake_laws.specs.Core.Receiving.{IsProcessed};
ghost use Rattle.turn_client_proto_handshake_laws.specs.Core.declared.protocol.Protocol.{Protocol};
ghost use Rattle.turn_client_proto_step_laws.specs.Recv.ClientState.{ClientState};
ghost use Rattle.turn_client_proto_messages.specs.TurnRuns.Members.{IsIn};
ghost use Rattle.turn_client_proto_step_laws.specs.Recv.Receipts.{IsReceived};
ghost use Rattle.turn_client_proto_handshake_laws.specs.Coming.{IsFromServer};
ghost use Rattle.turn_client_proto_handshake_laws.specs.Sent.{Beginning};
ghost use Rattle.turn_client_proto_progress_laws.specs.Asking.{AChannel, HasRequested, IsMade, MayBind};
ghost use Rattle.turn_client_proto_progress_laws.specs.Holding.{HoldsChannel, IsFrameOf, IsGrantOf, IsPayloadOf};
ghost use Rattle.turn_client_proto_progress_laws.specs.Speaking.{AreHeldBeyond, Speaks};

use std::convert::AsSlice;
use turn_client_proto_messages::laws::{proof_requests_are_read, signed_requests_claim};

/// An established client is asked for a channel to a peer (RFC 8656, section 12.1):
///
/// - `answered`: unless memory runs out, `bind_channel` returns `Ok` if and only if a channel to
///   the peer may be requested (`MayBind`).
/// - `one`: then one request is outstanding that wasn't before.
/// - `requested`: that request, for some channel number, is pending (`HasRequested`) until a given
///   time, if neither the request is given up nor the client's allocation ends by that time.
pub fn channels_are_requested_for()
    ensures answered { (b : Beginning) (realm : List ℕ) (address : SocketAddr) (old new : Protocol)
        (transport : TransportType) (peer : SocketAddr) (now : ℕ)
        (ret : Result (Unit {0}) BindChannelError)
        → Speaks b realm address old
        → ret ≢ Err not_bound.NoMemory
        → IsBindAnswered old transport peer now ret new
        → (ret ≡ Ok tt) ↔ MayBind b address transport peer now old }
    ensures one { (b : Beginning) (realm : List ℕ) (address : SocketAddr) (old new : Protocol)
        (transport : TransportType) (peer : SocketAddr) (now : ℕ)
        → Speaks b realm address old
        → IsBindAnswered old transport peer now (Ok tt) new
        → (request : List ℕ) × IsMade old new request }
    ensures requested { (b : Beginning) (realm : List ℕ) (address : SocketAddr) (old new : Protocol)
        (transport : TransportType) (peer : SocketAddr) (made now : ℕ) (request : List ℕ)
        → Speaks b realm address old
        → AreHeldBeyond now old.allocations
        → now < end_at made b.config.waits
        → IsBindAnswered old transport peer made (Ok tt) new
        → IsMade old new request
        → (channel : ℕ) × HasRequested b realm address (AChannel channel peer) request now new }
{}

/// A client with a pending request for a channel receives the success response, valid under the key
/// of its credentials: it then holds the channel (`holds`), and lists it (`visible`; RFC 8656,
/// section 12.3).
pub fn granted_channels_are_held()
    ensures holds { (b : Beginning) (realm : List ℕ) (address : SocketAddr) (channel : ℕ)
        (peer : SocketAddr) (request reply : List ℕ) (now : ℕ) (old new : Protocol) (handled : Bool)
        → HasRequested b realm address (AChannel channel peer) request now old
        → IsGrantOf b realm request reply
        → IsProcessed old reply now handled new
        → (handled ≡ true) × HoldsChannel b channel peer new }
    ensures visible { (b : Beginning) (channel : ℕ) (peer : SocketAddr) (p : Protocol)
        → HoldsChannel b channel peer p
        → IsIn (channel, peer) (channels_listed p.allocations) }
{
    proof_requests_are_read();
    signed_requests_claim();
}

/// Over UDP, a client that holds a channel delivers the data of any length that a frame of that
/// channel carries, and does not change (RFC 8656, section 12.6).
pub fn frames_are_taken<T: AsSlice<u8>>()
    ensures { (b : Beginning) (channel : ℕ) (old new : ClientState) (came : Transmit T) (now : ℕ)
        (answer : TurnRecvRet T) (peer : SocketAddr) (payload : List ℕ)
        → HoldsChannel b channel peer old.core
        → old.control ≡ Datagrams
        → IsFromServer b came
        → AreBytes (T.items came.bytes)
        → IsFrameOf channel payload (T.items came.bytes)
        → IsReceived T.items old came now answer new
        → (given : PeerPayload) × (answer ≡ PeerData given)
        × IsPayloadOf b.config.transport peer payload given × (new ≡ old) }
{}

//! A client that has allocated and is asked for a permission comes to hold it, by the contracts of
//! its own calls alone, whatever answers them (RFC 8489, sections 6.2 and 9.2.5; RFC 8656, sections
//! 10.1, 10.3 and 11.3). The functions do nothing; each contract is a theorem.
//!
//! A client is established (`Speaks`) if the server has allocated to it and it stores a challenge
//! of the server's realm.
//!
//! - A client that holds the allocation of its handshake is established ([`holders_speak`]), and
//!   stays so ([`speakers_go_on`], [`speakers_are_called`], [`speakers_process`]).
//! - [`permissions_are_requested_for`] says when it may request a permission, and what it awaits
//!   then. [`requests_are_own`] says what its request is.
//! - While that request is unanswered, no other call removes it ([`requested_requests_stand`]).
//! - After the success response the client holds the permission ([`granted_permissions_are_held`]),
//!   and delivers what comes from that peer ([`datagrams_are_taken`]).

ghost use Rattle.std.specs.List.{list_any};
ghost use Rattle.std.specs.Net.Socket.{socket_ip};
ghost use Rattle.std.specs.Prelude.{◌≡◌, ◌≢◌, ◌⊎◌, ◌↔◌, ◌≤◌, ◌<◌, ℕ, Bool, true, List, Option, Some, None};
ghost use Rattle.std.specs.Prelude.{Result, Ok, Err};
ghost use Rattle.std.specs.declared.net.ip_addr.IpAddr.{IpAddr};
ghost use Rattle.std.specs.declared.net.socket_addr.SocketAddr.{SocketAddr};
ghost use Rattle.turn_client_proto_messages.specs.StunTypesWire.Attributes.{kind_at};
ghost use Rattle.turn_client_proto_messages.specs.StunTypesWire.Grammar.{refusal};
ghost use Rattle.turn_client_proto_messages.specs.StunTypesWire.declared.class.MessageClass.TheVariants.{Success};
ghost use Rattle.turn_client_proto_messages.specs.StunTypesWire.Types.{class_of};
ghost use Rattle.turn_client_proto_messages.specs.StunTypesBase.declared.transmit.Transmit.{Transmit};
ghost use Rattle.turn_client_proto_messages.specs.StunTypesBase.declared.transport.TransportType.{TransportType};
ghost use Rattle.turn_client_proto_messages.specs.StunProtoTransaction.Schedule.{end_at};
ghost use Rattle.turn_client_proto_messages.specs.Api.Payloads.{PeerPayload};
ghost use Rattle.turn_client_proto_messages.specs.Api.declared.answer.TurnPollRet.{TurnPollRet};
ghost use Rattle.turn_client_proto_messages.specs.Api.declared.answer.TurnPollRet.TheVariants as poll;
ghost use Rattle.turn_client_proto_messages.specs.Api.declared.answer.TurnRecvRet.{TurnRecvRet};
ghost use Rattle.turn_client_proto_messages.specs.Api.declared.answer.TurnRecvRet.TheVariants.{PeerData};
ghost use Rattle.turn_client_proto_messages.specs.Api.declared.error.BindChannelError.{BindChannelError};
ghost use Rattle.turn_client_proto_messages.specs.Api.declared.error.BindChannelError.TheVariants as not_bound;
ghost use Rattle.turn_client_proto_messages.specs.Api.declared.error.CreatePermissionError.{CreatePermissionError};
ghost use Rattle.turn_client_proto_messages.specs.Api.declared.error.CreatePermissionError.TheVariants as not_permitted;
ghost use Rattle.turn_client_proto_messages.specs.Api.declared.error.CreatePermissionsError.{CreatePermissionsError};
ghost use Rattle.turn_client_proto_messages.specs.Api.declared.error.CreatePermissionsError.TheVariants as none_permitted;
ghost use Rattle.turn_client_proto_messages.specs.Api.declared.error.DeleteError.{DeleteError};
ghost use Rattle.turn_client_proto_messages.specs.Api.declared.error.DeleteError.TheVariants as not_deleted;
ghost use Rattle.turn_client_proto_messages.specs.Api.declared.error.SendError.{SendError};
ghost use Rattle.turn_client_proto_messages.specs.Api.declared.error.TcpAllocateError.{TcpAllocateError};
ghost use Rattle.turn_client_proto_messages.specs.Api.declared.error.TcpAllocateError.TheVariants as not_taken;
ghost use Rattle.turn_client_proto_messages.specs.Api.declared.error.TcpConnectError.{TcpConnectError};
ghost use Rattle.turn_client_proto_messages.specs.Api.declared.error.TcpConnectError.TheVariants as not_connected;
ghost use Rattle.turn_client_proto_messages.specs.Api.declared.answer.Socket5Tuple.{Socket5Tuple};
ghost use Rattle.turn_client_proto_messages.specs.Api.declared.event.TurnEvent.{TurnEvent};
ghost use Rattle.turn_client_proto_step_laws.specs.Recv.Closing.{after_close};
ghost use Rattle.turn_client_proto_step_laws.specs.Recv.Connecting.{IsConnectAnswered};
ghost use Rattle.turn_client_proto_step_laws.specs.Recv.Control.{Datagrams};
ghost use Rattle.turn_client_proto_handshake_laws.specs.Core.Binding.{IsBindAnswered};
ghost use Rattle.turn_client_proto_handshake_laws.specs.Core.Deleting.{IsDeleteAnswered};
ghost use Rattle.turn_client_proto_handshake_laws.specs.Core.Ending.{ended};
ghost use Rattle.turn_client_proto_handshake_laws.specs.Core.Permitting.{ArePermissionsAnswered, IsPermissionAnswered};
ghost use Rattle.turn_client_proto_handshake_laws.specs.Core.Receiving.{IsProcessed};
ghost use Rattle.turn_client_proto_messages.specs.Waiting.{Queued};
ghost use Rattle.turn_client_proto_handshake_laws.specs.Core.declared.protocol.Protocol.{Protocol};
ghost use Rattle.turn_client_proto_step_laws.specs.Timers.Drawing.{IsTransmitted};
ghost use Rattle.turn_client_proto_messages.specs.Api.Sent.{Sent};
ghost use Rattle.turn_client_proto_messages.specs.TurnRuns.Indications.{HasData, IsOfPeer};
ghost use Rattle.turn_client_proto_step_laws.specs.Recv.ClientState.{ClientState};
ghost use Rattle.turn_client_proto_step_laws.specs.Peers.Permission.Asking.{permits_over};
ghost use Rattle.turn_client_proto_step_laws.specs.Timers.Polling.{IsPolled};
ghost use Rattle.turn_client_proto_step_laws.specs.Recv.Receipts.{IsReceived};
ghost use Rattle.turn_client_proto_step_laws.specs.Payload.Sending.{IsSendAnswered};
ghost use Rattle.turn_client_proto_step_laws.specs.Recv.Sockets.{IsSocketAnswered};
ghost use Rattle.turn_client_proto_handshake_laws.specs.Choosing.{Choice, HasTextName, IsChoice};
ghost use Rattle.turn_client_proto_handshake_laws.specs.Coming.{IsFromServer, IsProcessedAs, IsLost};
ghost use Rattle.turn_client_proto_handshake_laws.specs.Stages.{Holds};
ghost use Rattle.turn_client_proto_handshake_laws.specs.Driving.{IsEventTaken};
ghost use Rattle.turn_client_proto_handshake_laws.specs.Sent.{Beginning, HasRoom};
ghost use Rattle.turn_client_proto_progress_laws.specs.Asking.{APermission, HasRequested, IsMade, MayPermit, Wanted};
ghost use Rattle.turn_client_proto_progress_laws.specs.Holding.{HoldsPermission, IsDataOf, IsGrantOf, IsOwnRequest};
ghost use Rattle.turn_client_proto_progress_laws.specs.Holding.{IsPayloadOf};
ghost use Rattle.turn_client_proto_progress_laws.specs.Speaking.{AreHeldBeyond, Speaks, ReportsRealm};

use std::convert::AsSlice;
use turn_client_proto_handshake_laws::stages::signed_allocates_answer;
use turn_client_proto_messages::laws::{proof_requests_are_read, signed_requests_claim};

/// A client that holds the allocation of its handshake is established: it signs under the challenge
/// that it answered, and has that allocation alone (RFC 8489, section 9.2.5; RFC 8656, section
/// 7.3). Premises: the name of the user fits into a message and is valid UTF-8, and at most two
/// address families are configured.
pub fn holders_speak()
    ensures { (b : Beginning) (c : Choice) (address : SocketAddr) (lifetime made last : ℕ)
        (queue : List Queued) (events : List TurnEvent) (p : Protocol)
        → HasRoom b.config
        → HasTextName b.config
        → IsChoice b c
        → Holds b c address lifetime made last queue events p
        → Speaks b c.reported.realm address p }
{
    signed_allocates_answer();
}

/// An established client stays so in `poll_transmit`, `poll`, `poll_event`, `create_permission`,
/// `create_permissions` and `bind_channel`, unless memory runs out.
pub fn speakers_go_on()
    ensures transmitted { (b : Beginning) (realm : List ℕ) (address : SocketAddr) (old new :
        Protocol)
        (now : ℕ) (sent : Option Sent)
        → Speaks b realm address old
        → IsTransmitted old now sent new
        → Speaks b realm address new }
    ensures polled { (b : Beginning) (realm : List ℕ) (address : SocketAddr) (old new : Protocol)
        (now : ℕ) (ret : TurnPollRet)
        → Speaks b realm address old
        → ret ≢ poll.NoMemory
        → IsPolled old now ret new
        → Speaks b realm address new }
    ensures reported { (b : Beginning) (realm : List ℕ) (address : SocketAddr) (old new : Protocol)
        (event : Option TurnEvent)
        → Speaks b realm address old
        → IsEventTaken old event new
        → Speaks b realm address new }
    ensures permission { (b : Beginning) (realm : List ℕ) (address : SocketAddr)
        (old new : Protocol) (transport : TransportType) (ip : IpAddr) (now : ℕ)
        (ret : Result (Unit {0}) CreatePermissionError)
        → Speaks b realm address old
        → ret ≢ Err not_permitted.NoMemory
        → IsPermissionAnswered old transport ip now ret new
        → Speaks b realm address new }
    ensures several { (b : Beginning) (realm : List ℕ) (address : SocketAddr) (old new : Protocol)
        (transport : TransportType) (ips : List IpAddr) (now : ℕ)
        (ret : Result (Unit {0}) CreatePermissionsError)
        → Speaks b realm address old
        → ret ≢ Err (none_permitted.Refused not_permitted.NoMemory)
        → ArePermissionsAnswered old transport ips now ret new
        → Speaks b realm address new }
    ensures channel { (b : Beginning) (realm : List ℕ) (address : SocketAddr) (old new : Protocol)
        (transport : TransportType) (peer : SocketAddr) (now : ℕ)
        (ret : Result (Unit {0}) BindChannelError)
        → Speaks b realm address old
        → ret ≢ Err not_bound.NoMemory
        → IsBindAnswered old transport peer now ret new
        → Speaks b realm address new }
{}

/// An established client stays so in the other calls, unless memory runs out: `delete`,
/// `tcp_connect`, `send_to`, `tcp_closed`, `allocated_tcp_socket` with or without a socket, and
/// `protocol_error`.
pub fn speakers_are_called()
    ensures deleted { (b : Beginning) (realm : List ℕ) (address : SocketAddr) (old new : Protocol)
        (now : ℕ) (ret : Result (Unit {0}) DeleteError)
        → Speaks b realm address old
        → ret ≢ Err not_deleted.NoMemory
        → IsDeleteAnswered old now ret new
        → Speaks b realm address new }
    ensures connected { (b : Beginning) (realm : List ℕ) (address : SocketAddr) (old new : Protocol)
        (peer : SocketAddr) (now : ℕ) (ret : Result (Unit {0}) TcpConnectError)
        → Speaks b realm address old
        → ret ≢ Err not_connected.NoMemory
        → IsConnectAnswered old peer now ret new
        → Speaks b realm address new }
    ensures sent { (b : Beginning) (realm : List ℕ) (address : SocketAddr) (old new : Protocol)
        (transport : TransportType) (to : SocketAddr) (bytes : List ℕ) (now : ℕ)
        (ret : Result (Option Sent) SendError)
        → Speaks b realm address old
        → IsSendAnswered old transport to bytes now ret new
        → Speaks b realm address new }
    ensures closed { (b : Beginning) (realm : List ℕ) (address here there : SocketAddr)
        (p : Protocol)
        → Speaks b realm address p
        → Speaks b realm address (after_close here there p) }
    ensures socket { (b : Beginning) (realm : List ℕ) (address : SocketAddr) (old new : Protocol)
        (connection : ℕ) (socket : Socket5Tuple) (peer : SocketAddr) (here : Option SocketAddr)
        (now : ℕ) (ret : Result (Unit {0}) TcpAllocateError)
        → Speaks b realm address old
        → ret ≢ Err not_taken.NoMemory
        → IsSocketAnswered old connection socket peer here now ret new
        → Speaks b realm address new }
    ensures ended { (b : Beginning) (realm : List ℕ) (address : SocketAddr) (p : Protocol)
        → Speaks b realm address p
        → Speaks b realm address (ended p) }
{}

/// An established client stays so whatever message it handles, as long as that is no challenge of
/// another realm (RFC 8489, section 9.2.5).
pub fn speakers_process()
    ensures { (b : Beginning) (realm : List ℕ) (address : SocketAddr) (old new : Protocol)
        (message : List ℕ) (now : ℕ) (handled : Bool)
        → Speaks b realm address old
        → ReportsRealm realm message
        → IsProcessed old message now handled new
        → Speaks b realm address new }
{}

/// An established client is asked for a permission (RFC 8656, section 10.1):
///
/// - `answered`: unless memory runs out, `create_permission` returns `Ok` if and only if a
///   permission for the address may be requested (`MayPermit`).
/// - `one`: then one request is outstanding that wasn't before.
/// - `requested`: that request is pending (`HasRequested`) until a given time, if neither the
///   request is given up nor the client's allocation ends by that time.
pub fn permissions_are_requested_for()
    ensures answered { (b : Beginning) (realm : List ℕ) (address : SocketAddr) (old new : Protocol)
        (transport : TransportType) (ip : IpAddr) (now : ℕ)
        (ret : Result (Unit {0}) CreatePermissionError)
        → Speaks b realm address old
        → ret ≢ Err not_permitted.NoMemory
        → IsPermissionAnswered old transport ip now ret new
        → (ret ≡ Ok tt) ↔ MayPermit b address transport ip now old }
    ensures one { (b : Beginning) (realm : List ℕ) (address : SocketAddr) (old new : Protocol)
        (transport : TransportType) (ip : IpAddr) (now : ℕ)
        → Speaks b realm address old
        → IsPermissionAnswered old transport ip now (Ok tt) new
        → (request : List ℕ) × IsMade old new request }
    ensures requested { (b : Beginning) (realm : List ℕ) (address : SocketAddr) (old new : Protocol)
        (transport : TransportType) (ip : IpAddr) (made now : ℕ) (request : List ℕ)
        → Speaks b realm address old
        → AreHeldBeyond now old.allocations
        → now < end_at made b.config.waits
        → IsPermissionAnswered old transport ip made (Ok tt) new
        → IsMade old new request
        → HasRequested b realm address (APermission ip) request now new }
{}

/// A pending request claims the client's own credentials, under a challenge of its server's realm
/// (RFC 8489, section 9.2.5; RFC 8656, sections 10.1 and 12.1).
pub fn requests_are_own()
    ensures { (b : Beginning) (realm : List ℕ) (address : SocketAddr) (wanted : Wanted)
        (request : List ℕ) (now : ℕ) (p : Protocol)
        → HasRequested b realm address wanted request now p
        → IsOwnRequest b realm wanted request }
{
    proof_requests_are_read();
    signed_requests_claim();
}

/// A request that is pending until a given time stays pending in other calls: in `poll_transmit`
/// and `poll_event` at any time, and in `poll`, `create_permission` and `bind_channel` up to that
/// time, unless memory runs out.
pub fn requested_requests_stand()
    ensures transmitted { (b : Beginning) (realm : List ℕ) (address : SocketAddr) (wanted : Wanted)
        (request : List ℕ) (now at : ℕ) (old new : Protocol) (sent : Option Sent)
        → HasRequested b realm address wanted request now old
        → IsTransmitted old at sent new
        → HasRequested b realm address wanted request now new }
    ensures polled { (b : Beginning) (realm : List ℕ) (address : SocketAddr) (wanted : Wanted)
        (request : List ℕ) (now at : ℕ) (old new : Protocol) (ret : TurnPollRet)
        → HasRequested b realm address wanted request now old
        → at ≤ now
        → ret ≢ poll.NoMemory
        → IsPolled old at ret new
        → HasRequested b realm address wanted request now new }
    ensures reported { (b : Beginning) (realm : List ℕ) (address : SocketAddr) (wanted : Wanted)
        (request : List ℕ) (now : ℕ) (old new : Protocol) (event : Option TurnEvent)
        → HasRequested b realm address wanted request now old
        → IsEventTaken old event new
        → HasRequested b realm address wanted request now new }
    ensures permission { (b : Beginning) (realm : List ℕ) (address : SocketAddr) (wanted : Wanted)
        (request : List ℕ) (now at : ℕ) (old new : Protocol) (transport : TransportType)
        (ip : IpAddr) (ret : Result (Unit {0}) CreatePermissionError)
        → HasRequested b realm address wanted request now old
        → at ≤ now
        → ret ≢ Err not_permitted.NoMemory
        → IsPermissionAnswered old transport ip at ret new
        → HasRequested b realm address wanted request now new }
    ensures channel { (b : Beginning) (realm : List ℕ) (address : SocketAddr) (wanted : Wanted)
        (request : List ℕ) (now at : ℕ) (old new : Protocol) (transport : TransportType)
        (peer : SocketAddr) (ret : Result (Unit {0}) BindChannelError)
        → HasRequested b realm address wanted request now old
        → at ≤ now
        → ret ≢ Err not_bound.NoMemory
        → IsBindAnswered old transport peer at ret new
        → HasRequested b realm address wanted request now new }
{}

/// A client with a pending request for a permission receives the success response, valid under the
/// key of its credentials (RFC 8656, section 10.3):
///
/// - `holds`: it then holds the permission.
/// - `had`: the getter for permissions (`have_permission`) reports a permission that is held.
pub fn granted_permissions_are_held()
    ensures holds { (b : Beginning) (realm : List ℕ) (address : SocketAddr) (ip : IpAddr)
        (request reply : List ℕ) (now : ℕ) (old new : Protocol) (handled : Bool)
        → HasRequested b realm address (APermission ip) request now old
        → IsGrantOf b realm request reply
        → IsProcessed old reply now handled new
        → (handled ≡ true) × HoldsPermission b ip new }
    ensures had { (b : Beginning) (ip : IpAddr) (p : Protocol)
        → HoldsPermission b ip p
        → list_any (permits_over b.config.transport ip) p.allocations ≡ true }
{
    proof_requests_are_read();
    signed_requests_claim();
}

/// Datagrams from the server, over UDP (RFC 8656, sections 11.3 and 11.4):
///
/// - `processed`: a client with a pending request handles a success response, or memory runs out.
/// - `given`: a client that holds a permission delivers the data that a DATA indication from that
///   peer carries, and does not change.
/// - `visible`: a message whose only visible attributes are XOR-PEER-ADDRESS and DATA is such an
///   indication, and carries that data.
pub fn datagrams_are_taken<T: AsSlice<u8>>()
    ensures processed { (b : Beginning) (realm : List ℕ) (address : SocketAddr) (wanted : Wanted)
        (request : List ℕ) (old new : ClientState) (came : Transmit T) (now : ℕ) (answer : TurnRecvRet T)
        → HasRequested b realm address wanted request now old.core
        → old.control ≡ Datagrams
        → IsFromServer b came
        → refusal (T.items came.bytes) ≡ None
        → class_of (kind_at (T.items came.bytes)) ≡ Success
        → IsReceived T.items old came now answer new
        → IsProcessedAs old (T.items came.bytes) came now Datagrams answer new
        ⊎ IsLost old came answer new }
    ensures given { (b : Beginning) (ip : IpAddr) (old new : ClientState) (came : Transmit T) (now : ℕ)
        (answer : TurnRecvRet T) (peer : SocketAddr) (payload : List ℕ)
        → HoldsPermission b ip old.core
        → old.control ≡ Datagrams
        → IsFromServer b came
        → socket_ip peer ≡ ip
        → IsOfPeer (T.items came.bytes) peer
        → HasData (T.items came.bytes) payload
        → IsReceived T.items old came now answer new
        → (given : PeerPayload) × (answer ≡ PeerData given)
        × IsPayloadOf b.config.transport peer payload given × (new ≡ old) }
    ensures visible { (peer : SocketAddr) (payload bytes : List ℕ)
        → IsDataOf peer payload bytes
        → IsOfPeer bytes peer × HasData bytes payload }
{}

//! What a server takes from the bytes by which a client sends to a peer (RFC 8656, sections 11.2
//! and 12.6; RFC 6062, section 4.5). Each contract is a theorem. The functions do nothing, except
//! `channels_are_numbered`, which looks at each channel of a client.

ghost use Rattle.std.specs.Prelude.{◌≡◌, ◌≤◌, ◌<◌, ◌^◌, ◌++◌, ℕ, List, [], ◌∷◌, Ok, Some, Vec, length};
ghost use Rattle.std.specs.declared.alloc.Global.{Global};
ghost use Rattle.std.specs.List.{AllByRecursion};
ghost use Rattle.std.specs.Net.Socket.{IsSocketAddr, socket_ip};
ghost use Rattle.std.specs.declared.net.socket_addr.SocketAddr.{SocketAddr};
ghost use Rattle.turn_client_proto_messages.specs.ReportedRequests.{IsReadBack};
ghost use Rattle.turn_client_proto_messages.specs.StunProtoAgent.State.{is_tcp};
ghost use Rattle.turn_client_proto_messages.specs.StunTypesBase.declared.transport.TransportType.{TransportType};
ghost use Rattle.turn_client_proto_messages.specs.TurnTypesAttributes.TurnRegistry.{data_method, greatest_channel, least_channel, most_payload};
ghost use Rattle.turn_client_proto_api.specs.Sent.{Sent};
ghost use Rattle.turn_client_proto_core.specs.declared.protocol.Protocol.{Protocol};
ghost use Rattle.turn_client_proto_step_laws.specs.Payload.Sending.{IsSendAnswered, indication_to};
ghost use Rattle.turn_client_proto_messages.specs.TurnTypesFrame.Channeled.{channeled_text};
ghost use Rattle.turn_client_proto_messages.specs.TurnTypesFrame.Indications.{indication_text};
ghost use Rattle.turn_client_proto_progress_laws.specs.Holding.{IsDataOf, IsFrameOf};
ghost use Rattle.turn_client_proto_messages.specs.StunTypesBase.declared.data.Data.{Data};
ghost use Rattle.turn_client_proto_messages.specs.StunTypesBase.declared.transmit.Transmit.{Transmit};
ghost use Rattle.turn_client_proto_messages.specs.TurnRuns.Runs.{Step};
ghost use Rattle.turn_client_proto_api.specs.Config.{Config};
ghost use Rattle.turn_client_proto_api.specs.Sent.{sent_of};
ghost use Rattle.turn_client_proto_step_laws.specs.Beginning.{first_client};
ghost use Rattle.turn_client_proto_step_laws.specs.RunClient.{Client};
ghost use Rattle.turn_client_proto_messages.specs.TurnRuns.Messages.{Permission};
ghost use Rattle.turn_client_proto_step_laws.specs.Peers.Channel.Numbers.{AreDistinct};
ghost use Rattle.turn_desk_step_laws.specs.DeskRun.{DeskCall};
ghost use Rattle.turn_desk_event.specs.declared.answer.Answer.{Answer};
ghost use Rattle.turn_desk_event.specs.declared.answer.Answer.TheVariants as answer;
ghost use Rattle.turn_desk_event.specs.declared.event.ClientCall.TheVariants as call;
ghost use Rattle.turn_desk_event.specs.declared.event.Event.{Event};
ghost use Rattle.turn_desk_event.specs.declared.event.Event.TheVariants.{Call};
ghost use Rattle.turn_desk_world.specs.Model.{World};
ghost use Rattle.turn_desk_world_laws.specs.Safety.{BeginsNew, IsAccount, WasGranted};
ghost use Rattle.turn_desk_world_laws.specs.Sending.{AreNumbered, HasChannel, HasPermission, IsAlone, IsMeantFor, IsMeantInRun, IsNumbered, IsSendOf};

use turn_client_proto_allocation::allocation::Allocation;
use turn_client_proto_allocation::channel::Channel;
use turn_client_proto_core::protocol::Protocol;

/// Written indications and channel frames are read back (RFC 8656, sections 11.2, 11.4 and 12.6).
///
/// - `indicated`, `reported`: A SEND or DATA indication with any transaction ID is read as one with
///   that peer and these bytes. Premises: there are at most `MAX_PAYLOAD` bytes, and the peer's
///   address is one that XOR-PEER-ADDRESS carries unchanged (`IsReadBack`), as each is without flow
///   information and scope.
/// - `framed`: A channel frame is read as one with that number and these bytes, and nothing but
///   its padding follows. It is padded over TCP, and not over UDP. Premises: the number is a
///   channel number, and the number of bytes fits into the length field.
pub fn sends_are_read()
    ensures indicated { (number : ℕ) (peer : SocketAddr) (bytes : List ℕ)
        → number < 2 ^ 96
        → length bytes ≤ most_payload
        → IsReadBack number peer
        → IsSendOf peer bytes (indication_to peer number bytes) }
    ensures reported { (number : ℕ) (peer : SocketAddr) (bytes : List ℕ)
        → number < 2 ^ 96
        → length bytes ≤ most_payload
        → IsReadBack number peer
        → IsDataOf peer bytes (indication_text (record {
          method = data_method;
          peer = peer;
          number = number;
          payload = bytes;
        })) }
    ensures framed { (transport : TransportType) (number : ℕ) (bytes : List ℕ)
        → least_channel ≤ number
        → number ≤ greatest_channel
        → length bytes < 2 ^ 16
        → IsFrameOf number bytes (channeled_text (record {
          frame = record { id = number; payload = bytes };
          padded = is_tcp transport;
        }))
        × IsAlone transport (channeled_text (record {
          frame = record { id = number; payload = bytes };
          padded = is_tcp transport;
        })) }
{}

/// What `send_to` of a client returns is for that peer, as a server reads it.
///
/// - `meant`: Over UDP it goes to the server on the client's own connection. It is a SEND
///   indication to that peer with these bytes; or a frame with these bytes of a channel to that
///   peer, which the client has and which hasn't expired. Over TCP it is these very bytes, on a
///   connection of the client's that is bound to that peer (RFC 6062, section 4.5).
/// - `permitted`: The client has a permission for the peer's IP address.
/// - `one`: A channel number stands for one peer: no two channels of a client with the same number
///   are to different peers. Premise: the client's channel numbers are distinct, as `IsSound`
///   says.
///
/// Premises of `meant`: each channel has a channel number, which holds of every client
/// ([`channels_are_numbered`]); and the peer's address is one of Rust's type (`IsSocketAddr`). No
/// server reads flow information or scope: an indication doesn't carry them.
pub fn answers_send_to_whom_is_meant()
    ensures meant { (old new : Protocol) (transport : TransportType) (to : SocketAddr)
        (bytes : List ℕ) (now : ℕ) (sent : Sent)
        → AreNumbered old.allocations
        → IsSocketAddr to
        → IsSendAnswered old transport to bytes now (Ok (Some sent)) new
        → IsMeantFor transport old to bytes now sent }
    ensures permitted { (old new : Protocol) (transport : TransportType) (to : SocketAddr)
        (bytes : List ℕ) (now : ℕ) (sent : Sent)
        → IsSendAnswered old transport to bytes now (Ok (Some sent)) new
        → HasPermission old transport (socket_ip to) }
    ensures one { (p : Protocol) (transport over : TransportType) (number : ℕ)
        (peer other : SocketAddr) (now later : ℕ)
        → AreDistinct p.allocations
        → HasChannel p transport number peer now
        → HasChannel p over number other later
        → peer ≡ other }
{}

/// The same in a simulation, over a network that loses, repeats, reorders and invents messages:
/// what carries the bytes was granted.
///
/// Premises: the client of the simulation is new (`BeginsNew`); its last event is a call of
/// `send_to`, which returned something to send; and the run is described by these steps
/// (`IsAccount`), as each run with fair events is ([`crate::laws::runs_of_a_world_are_safe`]). Each
/// channel of the client has a channel number ([`channels_are_numbered`]).
///
/// - `meant`: What is sent is for that peer, as in [`answers_send_to_whom_is_meant`]. Unless
///   something was forged or a transaction ID was generated twice, the server core granted the
///   channel with that number to that peer, or the connection, during that run, in response to a
///   request of the client's.
/// - `permitted`: In the same way it granted a permission for the peer's IP address.
pub fn sends_use_what_was_granted()
    ensures meant { (transport : TransportType) (here server : SocketAddr) (config : Config)
        (seed : List ℕ) (core : Protocol) (old new : World) (before : List (Event × Answer))
        (over : TransportType) (to : SocketAddr) (bytes : Vec ℕ Global) (now : ℕ)
        (transmit : Transmit Data) (run : List (Step Client DeskCall)) (last : Client)
        → BeginsNew transport here server config seed core old
        → IsAccount (first_client config.credentials seed core) old
        (before ++ (Call (call.SendTo over to bytes) now, answer.Transmit transmit) ∷ [])
        new run last
        → AreNumbered last.core.allocations
        → IsSocketAddr to
        → IsMeantInRun over (first_client config.credentials seed core) run last to bytes.items
        (sent_of transmit) }
    ensures permitted { (transport : TransportType) (here server : SocketAddr) (config : Config)
        (seed : List ℕ) (core : Protocol) (old new : World) (before : List (Event × Answer))
        (over : TransportType) (to : SocketAddr) (bytes : Vec ℕ Global) (now : ℕ)
        (transmit : Transmit Data) (run : List (Step Client DeskCall)) (last : Client)
        → BeginsNew transport here server config seed core old
        → IsAccount (first_client config.credentials seed core) old
        (before ++ (Call (call.SendTo over to bytes) now, answer.Transmit transmit) ∷ [])
        new run last
        → WasGranted (first_client config.credentials seed core) run last
        (Permission over (socket_ip to)) }
{}

/// Each channel of a client has a channel number (RFC 8656, section 12).
pub fn channels_are_numbered(client: &Protocol)
    ensures { AreNumbered client.now.allocations }
{
    proof_each_is_numbered(client.allocations.as_slice());
}

/// The same for some allocations.
fn proof_each_is_numbered(allocations: &[Allocation])
    ensures { AreNumbered allocations.now }
{
    if let Some((first, others)) = allocations.split_first() {
        proof_all_are_numbered(first.channels.as_slice());
        proof_each_is_numbered(others);
    }
}

/// The same for some channels.
fn proof_all_are_numbered(channels: &[Channel])
    ensures { AllByRecursion IsNumbered channels.now }
{
    if let Some((first, others)) = channels.split_first() {
        let _number = first.number.number();
        proof_all_are_numbered(others);
    }
}

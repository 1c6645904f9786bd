//! What is requested is held: after a run over an honest network the application requests a
//! permission or a channel, the client's request reaches the server core and is granted, and the
//! reply reaches the client (RFC 8656, sections 10 to 12). The functions do nothing; each contract
//! is a theorem on a simulation of both.
//!
//! `specs/Asking.antt` has what may happen before, and what becomes of the request;
//! `specs/Promises.antt` what is held then, and what is delivered by it.

ghost use Rattle.std.specs.Prelude.{◌≡◌, ◌<◌, ◌≤◌, ◌↔◌, List, [], ℕ};
ghost use Rattle.std.specs.declared.net.ip_addr.IpAddr.{IpAddr};
ghost use Rattle.std.specs.declared.net.socket_addr.SocketAddr.{SocketAddr};
ghost use Rattle.turn_desk_event.specs.StunProtoTransaction.Schedule.{end_at};
ghost use Rattle.turn_desk_core.specs.StunTypesBase.declared.transport.TransportType.{TransportType};
ghost use Rattle.turn_client_proto_api.specs.Sent.{Sent};
ghost use Rattle.turn_client_proto_handshake_laws.specs.Driving.{client_end};
ghost use Rattle.turn_client_proto_progress_laws.specs.Asking.{MayBind, MayPermit};
ghost use Rattle.turn_client_proto_progress_laws.specs.Speaking.{AreHeldBeyond, Speaks};
ghost use Rattle.turn_desk_world_laws.specs.World.Model.{World};
ghost use Rattle.turn_desk_world_laws.specs.World.Runs.{IsRun, IsStep};
ghost use Rattle.turn_desk_event.specs.declared.answer.Answer.{Answer};
ghost use Rattle.turn_desk_event.specs.declared.answer.Answer.TheVariants as answer;
ghost use Rattle.turn_desk_event.specs.declared.event.ClientCall.TheVariants.{BindChannel, CreatePermission};
ghost use Rattle.turn_desk_event.specs.declared.event.Event.{Event};
ghost use Rattle.turn_desk_event.specs.declared.event.Event.TheVariants.{Call};
ghost use Rattle.turn_desk_progress_laws.specs.Promises.{HasClient, IsFresh};
ghost use Rattle.turn_desk_progress_laws.specs.Scripts.{Done, IsScript, Plan, Start};
ghost use Rattle.turn_desk_progress_laws.specs.Asking.{Got, Idle, IsAskingScript, IsCleanRun};
ghost use Rattle.turn_desk_progress_laws.specs.Asking.{IsRequestOf, Pending, replies_in};
ghost use Rattle.turn_desk_progress_laws.specs.RequestPromises.{IsChannelHeld, IsPermissionHeld};

use crate::honest::honest_runs_allocate;
use turn_client_proto_handshake_laws::stages::{
    granted_clients_hold, messages_reach_clients, stages_are_unserved,
};
use turn_client_proto_progress_laws::channels::{
    channels_are_requested_for, frames_are_taken, granted_channels_are_held,
};
use turn_client_proto_progress_laws::requests::{
    datagrams_are_taken, granted_permissions_are_held, holders_speak,
    permissions_are_requested_for, requests_are_own,
};

/// After an honest run that allocates, the client is established: it has that allocation alone, and
/// signs under a challenge of the server core's realm (RFC 8489, section 9.2.5; RFC 8656, section
/// 7.3).
pub fn honest_runs_leave_speakers()
    ensures { (plan : Plan) (old one : World) (first : List (Event × Answer)) (signed : Sent)
        (address : SocketAddr) (lifetime : ℕ) (reply : List ℕ)
        → IsFresh plan old
        → IsRun old first one
        → IsScript plan Start first (Done signed address lifetime reply)
        → HasClient plan [] one (λ p. Speaks plan.client old.desk.auth.realm address p) }
{
    honest_runs_allocate();
    granted_clients_hold();
    stages_are_unserved();
    messages_reach_clients::<&[u8]>();
    holders_speak();
}

/// What is requested is held after an honest run that allocates, if:
///
/// 1. Anything may reach the client and the server core then, with these limits (`IsCleanRun`):
///    each challenge that reaches the client is an unaltered reply of the server core; over TCP
///    nothing but such replies reaches it, each whole; and the client is given no socket with its
///    own local address.
/// 2. `create_permission` or `bind_channel` succeeds, and the allocation is held beyond the time of
///    step 3.
/// 3. The client transmits the request that the call made, before it would be given up. Until then
///    nothing is delivered to the client, though anything may reach the server core. The client is
///    called no later, and only for this: `poll`, `poll_transmit`, its events, its getters, further
///    permissions and channels.
/// 4. At that same time the request reaches the server core from the client's own address, the
///    server core grants it by a success response, and the reply reaches the client.
///
/// Conclusions:
///
/// - `permission`: The client has the permission.
/// - `channel`: The client has a channel to that peer.
/// - Over UDP, let a DATA indication come next, at that time, from the server's address to the
///   client's, which shows an XOR-PEER-ADDRESS with that IP, a DATA and nothing else; or a frame of
///   that channel. The result is its data (RFC 8656, sections 10 to 12).
/// - `permitted`, `bindable`: The call succeeds if and only if the client may request this
///   (`MayPermit`, `MayBind`).
/// - `permission_request`, `channel_request`: If it succeeds, there is a request that it made.
pub fn requested_things_are_held()
    ensures permission { (plan : Plan) (old one two three four : World)
        (first second third : List (Event × Answer)) (signed : Sent) (reply request grant : List ℕ)
        (address : SocketAddr) (lifetime made now : ℕ) (ip : IpAddr)
        → IsFresh plan old
        → IsRun old first one
        → IsScript plan Start first (Done signed address lifetime reply)
        → IsRun one second two
        → IsCleanRun plan (replies_in first []) Idle second Idle
        → HasClient plan [] two (λ p. AreHeldBeyond now p.allocations)
        → now < end_at made plan.client.config.waits
        → IsStep (Call (CreatePermission plan.client.config.transport ip) made) two answer.Done
        three
        → IsRequestOf two three request
        → IsRun three third four
        → IsAskingScript plan request now Pending third (Got grant)
        → IsPermissionHeld plan ip now four }
    ensures channel { (plan : Plan) (old one two three four : World)
        (first second third : List (Event × Answer)) (signed : Sent) (reply request grant : List ℕ)
        (address : SocketAddr) (lifetime made now : ℕ) (peer : SocketAddr)
        → IsFresh plan old
        → IsRun old first one
        → IsScript plan Start first (Done signed address lifetime reply)
        → IsRun one second two
        → IsCleanRun plan (replies_in first []) Idle second Idle
        → HasClient plan [] two (λ p. AreHeldBeyond now p.allocations)
        → now < end_at made plan.client.config.waits
        → IsStep (Call (BindChannel plan.client.config.transport peer) made) two answer.Done three
        → IsRequestOf two three request
        → IsRun three third four
        → IsAskingScript plan request now Pending third (Got grant)
        → IsChannelHeld plan peer now four }
    ensures permitted { (plan : Plan) (old one two three : World)
        (first second : List (Event × Answer)) (signed : Sent) (reply : List ℕ)
        (address : SocketAddr) (lifetime made : ℕ) (transport : TransportType) (ip : IpAddr)
        (ret : Answer)
        → IsFresh plan old
        → IsRun old first one
        → IsScript plan Start first (Done signed address lifetime reply)
        → IsRun one second two
        → IsCleanRun plan (replies_in first []) Idle second Idle
        → made ≤ client_end
        → IsStep (Call (CreatePermission transport ip) made) two ret three
        → (ret ≡ answer.Done)
        ↔ HasClient plan [] two (λ p. MayPermit plan.client address transport ip made p) }
    ensures bindable { (plan : Plan) (old one two three : World)
        (first second : List (Event × Answer)) (signed : Sent) (reply : List ℕ)
        (address : SocketAddr) (lifetime made : ℕ) (transport : TransportType) (peer : SocketAddr)
        (ret : Answer)
        → IsFresh plan old
        → IsRun old first one
        → IsScript plan Start first (Done signed address lifetime reply)
        → IsRun one second two
        → IsCleanRun plan (replies_in first []) Idle second Idle
        → made ≤ client_end
        → IsStep (Call (BindChannel transport peer) made) two ret three
        → (ret ≡ answer.Done)
        ↔ HasClient plan [] two (λ p. MayBind plan.client address transport peer made p) }
    ensures permission_request { (plan : Plan) (old one two three : World)
        (first second : List (Event × Answer)) (signed : Sent) (reply : List ℕ)
        (address : SocketAddr) (lifetime made : ℕ) (transport : TransportType) (ip : IpAddr)
        → IsFresh plan old
        → IsRun old first one
        → IsScript plan Start first (Done signed address lifetime reply)
        → IsRun one second two
        → IsCleanRun plan (replies_in first []) Idle second Idle
        → IsStep (Call (CreatePermission transport ip) made) two answer.Done three
        → (request : List ℕ) × IsRequestOf two three request }
    ensures channel_request { (plan : Plan) (old one two three : World)
        (first second : List (Event × Answer)) (signed : Sent) (reply : List ℕ)
        (address : SocketAddr) (lifetime made : ℕ) (transport : TransportType) (peer : SocketAddr)
        → IsFresh plan old
        → IsRun old first one
        → IsScript plan Start first (Done signed address lifetime reply)
        → IsRun one second two
        → IsCleanRun plan (replies_in first []) Idle second Idle
        → IsStep (Call (BindChannel transport peer) made) two answer.Done three
        → (request : List ℕ) × IsRequestOf two three request }
{
    honest_runs_leave_speakers();
    permissions_are_requested_for();
    channels_are_requested_for();
    requests_are_own();
    granted_permissions_are_held();
    granted_channels_are_held();
    datagrams_are_taken::<&[u8]>();
    frames_are_taken::<&[u8]>();
}

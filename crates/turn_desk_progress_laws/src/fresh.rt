//! A simulation in which an honest run begins.

ghost use Rattle.std.specs.FinMap as map;
ghost use Rattle.std.specs.Prelude.{◌≡◌, ◌≤◌, ◌<◌, ℕ, List, [], None, Some, length};
ghost use Rattle.std.specs.declared.net.socket_addr.SocketAddr.{SocketAddr};
ghost use Rattle.turn_desk_core.specs.StunTypesBase.Times.{time_after};
ghost use Rattle.turn_desk_core.specs.StunProtoServer.Users.{HashesDiffer};
ghost use Rattle.turn_desk_core.specs.StunTypesWire.Registry.{longest_username};
ghost use Rattle.turn_desk_core.specs.StunTypesBase.declared.transport.TransportType.{TransportType};
ghost use Rattle.turn_client_proto_handshake_laws.specs.Core.Beginning.{IsNew};
ghost use Rattle.turn_client_proto_step_laws.specs.Recv.ClientState.{Protocol};
ghost use Rattle.turn_desk_world_laws.specs.World.Model.{World};
ghost use Rattle.turn_client_proto_handshake_laws.specs.Sent.{IsUsual};
ghost use Rattle.turn_desk_progress_laws.specs.Promises.{IsFresh, IsTimely, control_at, over};
ghost use Rattle.turn_desk_progress_laws.specs.Scripts.{plan_over};

use turn_client_proto_api::config::TurnConfig;
use turn_client_proto_messages::laws::{names_are_texts, proof_requests_are_lawful};
use turn_client_proto_messages::request::TurnRequest;

/// An honest run can begin (`IsFresh`) in a simulation with:
///
/// - a client as `TurnClientUdp::allocate` or `TurnClientTcp::allocate` makes it of these settings,
///   whose user name fits into a request (RFC 8489, section 14.3), and which request half an hour
///   and leave 50 ms between two messages, as new settings do
/// - a server core that has the client's user, stores nothing for the client's address, and has no
///   two users with the same USERHASH
///
/// The times `made` and `second` of the client's two calls of `poll_transmit` may be any with these
/// limits: the second is at least 50 ms after the first, is a time at which a client can be called,
/// and is before the nonce of the first reply expires.
pub fn worlds_begin_fresh(config: &TurnConfig)
    ensures { (transport : TransportType) (local remote : SocketAddr) (seed : List ℕ)
        (made second : ℕ) (core : Protocol) (w : World)
        → w.client ≡ Some (over (control_at transport []) core)
        → IsNew transport local remote config.now seed core
        → length config.now.credentials.username ≤ longest_username
        → IsUsual config.now
        → map.get w.desk.auth.clients local ≡ None
        → map.get w.desk.auth.users config.now.credentials.username
        ≡ Some config.now.credentials.password
        → HashesDiffer w.desk.auth
        → IsTimely (plan_over transport local remote config.now seed made second)
        → second < time_after made w.desk.auth.nonce_expiry
        → IsFresh (plan_over transport local remote config.now seed made second) w }
{
    names_are_texts(config);
    let allocates = config.allocation_transport();
    let families = config.requested_families();
    let options = config.allocate_options();
    proof_requests_are_lawful(&TurnRequest::FirstAllocate(allocates, families, options));
}

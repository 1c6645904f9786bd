//! What the contracts of a client mean for a layer above. Each function does nothing: its contract
//! is a theorem.
//!
//! More theorems, which take longer proofs, are in crates of their own:
//!
//! - `turn_client_proto_step_laws`: each call is a step of a run, and what a call may add.
//! - `turn_client_proto_handshake_laws`: a client in a handshake, and one that receives nothing.
//! - `turn_client_proto_progress_laws`: what a client requests after the handshake.

ghost use Rattle.std.specs.Prelude.{◌==◌, ◌≤◌, ℕ, List, filter, length};
ghost use Rattle.std.specs.declared.net.socket_addr.SocketAddr.{SocketAddr};
ghost use Rattle.stun_types_base.specs.declared.transport.TransportType.{TransportType};
ghost use Rattle.turn_client_proto_api.specs.Config.{Config};
ghost use Rattle.turn_client_proto_peers.specs.Channel.Numbers.{AreDistinct};
ghost use Rattle.turn_client_proto_core.specs.Beginning.{IsNew};
ghost use Rattle.turn_client_proto_core.specs.declared.protocol.Protocol.{Protocol};
ghost use Rattle.turn_client_proto.specs.Getters.{channels_of};

pub use turn_client_proto_timers::laws::nothing_is_sent_before;

/// If no two channels that a client stores, bound or requested, have the same number, then no two
/// channels that it lists have the same number (RFC 8656, section 12).
///
/// The premise holds of a new client, and each call preserves it: theorem `numbers_are_distinct` of
/// a client whose invariant holds. A client here is the `core` of its state `ClientState`.
pub fn channels_are_distinct()
    ensures new { (transport : TransportType) (here server : SocketAddr) (config : Config)
        (seed : List ℕ) (client : Protocol)
        → IsNew transport here server config seed client
        → AreDistinct client.allocations }
    ensures visible { (client : Protocol) (number : ℕ)
        → AreDistinct client.allocations
        → length (filter (λ channel. channel.0 == number) (channels_of client)) ≤ 1 }
{}

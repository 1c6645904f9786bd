//! What comes over the sockets of connections to peers, as steps of a run (RFC 6062, sections 4.3
//! and 4.5). The functions here do nothing; each contract is a theorem.

ghost use Rattle.std.specs.Prelude.{◌≡◌, ℕ, List, [], ◌∷◌, Bool, Some, None};
ghost use Rattle.std.specs.declared.net.socket_addr.SocketAddr.{SocketAddr};
ghost use Rattle.turn_client_proto_timers.specs.StunTypesWire.Grammar.{refusal};
ghost use Rattle.turn_client_proto_timers.specs.StunTypesWire.Headers.{AreBytes};
ghost use Rattle.turn_client_proto_recv.specs.TurnTypesFrame.Streams.{Stream};
ghost use Rattle.turn_client_proto_timers.specs.Connection.Streams.{emptied, exchanged, first_raw, from};
ghost use Rattle.turn_client_proto_timers.specs.Core.Receiving.{IsProcessed};
ghost use Rattle.turn_client_proto_timers.specs.Core.declared.protocol.Protocol.{Protocol};
ghost use Rattle.turn_client_proto_recv.specs.Processing.{IsProcessedAt};
ghost use Rattle.turn_client_proto_timers.specs.TurnRuns.Messages.{FromConnection};
ghost use Rattle.turn_client_proto_step_laws.specs.Held.{Allocation, Connection};
ghost use Rattle.turn_client_proto_step_laws.specs.RunClient.{Client};
ghost use Rattle.turn_client_proto_step_laws.specs.RunSteps.{IsPassingOn, IsReceiving, IsSilent};
ghost use Rattle.turn_client_proto_step_laws.specs.Sound.{IsSound};

/// A message that came over the socket of a connection is a step (RFC 6062, section 4.3; RFC 8489,
/// section 9.2.5). After it, by the definition of a step:
///
/// - If the client now holds the connection, this message brought it: the message is the success
///   response to a CONNECTION_BIND with its transaction ID, which was outstanding and no longer is.
///   It validates under the client's key, by the algorithm that the client chose for its stored
///   challenge. The connection ID and its peer were known before.
/// - A challenge may cause a new request.
/// - The connection may be removed.
pub fn answers_are_steps()
    ensures { (c : Client) (here : SocketAddr) (bytes : List ℕ) (now : ℕ) (new : Protocol)
        → IsSound c
        → AreBytes bytes
        → refusal bytes ≡ None
        → IsProcessedAt here c.core bytes now new
        → IsReceiving c bytes new }
{}

/// Two changes to buffered bytes are steps in which nothing is requested and nothing gained:
///
/// - `stored`: a connection's buffer of bytes from its socket is replaced.
/// - `taken`: the peer bytes of the first connection that buffers some are removed.
pub fn exchanges_are_steps()
    ensures stored { (c : Client) (here : SocketAddr) (stream : Stream)
        → IsSound c
        → IsSilent c (record c.core { allocations = exchanged here stream c.core.allocations }) }
    ensures taken { (c : Client)
        → IsSound c
        → IsSilent c (record c.core { allocations = emptied c.core.allocations }) }
{}

/// Delivering bytes of a bound connection's peer is a step (RFC 6062, section 4.5): the payload
/// names that connection, which the client holds. The connection's buffer may change in this step
/// or stay as it is.
pub fn peer_bytes_are_steps()
    ensures passed { (c : Client) (here : SocketAddr) (k : Connection) (bytes : List ℕ)
        → IsSound c
        → from here c.core.allocations ≡ Some k
        → k.awaited ≡ None
        → IsPassingOn c (FromConnection k.here k.peer bytes ∷ []) c.core }
    ensures stored { (c : Client) (here : SocketAddr) (k : Connection) (bytes : List ℕ)
        (stream : Stream)
        → IsSound c
        → from here c.core.allocations ≡ Some k
        → k.awaited ≡ None
        → IsPassingOn c (FromConnection k.here k.peer bytes ∷ [])
        (record c.core { allocations = exchanged here stream c.core.allocations }) }
    ensures waiting { (c : Client) (k : Connection) (bytes : List ℕ)
        → IsSound c
        → first_raw c.core.allocations ≡ Some k
        → IsPassingOn c (FromConnection k.here k.peer bytes ∷ []) c.core }
    ensures taken { (c : Client) (k : Connection) (bytes : List ℕ)
        → IsSound c
        → first_raw c.core.allocations ≡ Some k
        → IsPassingOn c (FromConnection k.here k.peer bytes ∷ [])
        (record c.core { allocations = emptied c.core.allocations }) }
{}

/// The connection that is found by a local address has that address. A connection with buffered
/// peer bytes is bound.
pub fn found_connections()
    ensures address { (all : List Allocation) (here : SocketAddr) (k : Connection)
        → from here all ≡ Some k
        → k.here ≡ here }
    ensures bound { (all : List Allocation) (k : Connection)
        → first_raw all ≡ Some k
        → k.awaited ≡ None }
{}

/// A message of the control connection buffers no bytes of a peer: if none were buffered before,
/// none are afterwards.
pub fn processing_leaves_sockets()
    ensures { (old new : Protocol) (bytes : List ℕ) (now : ℕ) (handled : Bool)
        → IsProcessed old bytes now handled new
        → first_raw old.allocations ≡ None
        → first_raw new.allocations ≡ None }
{}

/// A message that came over the socket of a connection leaves each connection's buffered bytes
/// unchanged (`stored`). So if no peer bytes were buffered before, and that socket's connection had
/// an empty buffer, no peer bytes are buffered afterwards (`waiting`).
pub fn answers_leave_streams()
    ensures waiting { (old new : Protocol) (here : SocketAddr) (bytes : List ℕ) (now : ℕ)
        → IsProcessedAt here old bytes now new
        → ((k : Connection) → from here old.allocations ≡ Some k → k.stream.stored ≡ [])
        → first_raw old.allocations ≡ None
        → first_raw new.allocations ≡ None }
    ensures stored { (old new : Protocol) (here there : SocketAddr) (bytes : List ℕ) (now : ℕ)
        (k : Connection)
        → IsProcessedAt here old bytes now new
        → from there new.allocations ≡ Some k
        → (before : Connection) × (from there old.allocations ≡ Some before)
        × (k.stream ≡ before.stream) }
{}

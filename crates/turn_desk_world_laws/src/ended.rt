//! How connections to peers end besides the close of their sockets (RFC 6062, sections 4.3 to 4.6):
//! with their streams, in time, by a refusal, and with a deletion. Each contract is a theorem on an
//! event of a simulation, and on a run with that event; the functions do nothing.
//!
//! After such an event the client has no connection with the local address of that socket, bound or
//! not (`HasNoneAt`; clause `none`). So from then on it has a bound connection with that address in
//! its lists, lists it, and delivers bytes that come to it, only if that connection was bound later
//! (`BoundSince`; clause `later`).
//!
//! # Premises
//!
//! 1. The time of the event is in range, which the caller knows.
//! 2. What the state before the event is like: each function says which. Nothing is said of how it
//!    was reached, nor of the other connections.
//! 3. For clause `later`: the run is one that `World::run` promises to be safe, and it is divided
//!    right after that event (`IsDividedAfter`). Each run can be divided so
//!    ([`runs_divide_after_each_event`]).
//!
//! A client that ends otherwise, by `protocol_error` or because it was challenged too often, keeps
//! what it holds, and nothing is promised of its connections then.

ghost use Rattle.std.specs.Prelude.{◌≡◌, ◌≢◌, ◌++◌, ℕ, List, [], ◌∷◌, Some, Vec, true};
ghost use Rattle.std.specs.declared.alloc.Global.{Global};
ghost use Rattle.std.specs.declared.net.socket_addr.SocketAddr.{SocketAddr};
ghost use Rattle.turn_client_proto_api.specs.declared.event.TurnEvent.TheVariants as reported;
ghost use Rattle.turn_client_proto_step_laws.specs.Held.{Allocation, Connection};
ghost use Rattle.turn_client_proto_step_laws.specs.Recv.ClientState.{ClientState};
ghost use Rattle.turn_client_proto_step_laws.specs.RunClient.{Client};
ghost use Rattle.turn_desk_event.specs.declared.answer.Answer.{Answer};
ghost use Rattle.turn_desk_event.specs.declared.event.Event.{Event};
ghost use Rattle.turn_desk_event.specs.declared.event.Event.TheVariants.{Call, ToClient};
ghost use Rattle.turn_desk_event.specs.declared.event.ClientCall.TheVariants.{Poll};
ghost use Rattle.turn_desk_step_laws.specs.DeskRun.{DeskCall};
ghost use Rattle.turn_desk_step_laws.specs.TurnRuns.Messages.{FromConnection};
ghost use Rattle.turn_desk_step_laws.specs.TurnRuns.Messages.{Connection as ConnectionHeld};
ghost use Rattle.turn_desk_step_laws.specs.TurnRuns.Members.{IsIn};
ghost use Rattle.turn_desk_step_laws.specs.TurnRuns.Runs.{AtClient, AtEach, Step};
ghost use Rattle.turn_desk_step_laws.specs.TurnRuns.Steps.{Call as CallOf};
ghost use Rattle.turn_desk_world_laws.specs.Ends.{BoundSince, EndWithSockets, HasNoneOver};
ghost use Rattle.turn_desk_world_laws.specs.Ends.{WasBound};
ghost use Rattle.turn_desk_world.specs.Model.{World};
ghost use Rattle.turn_desk_world.specs.Runs.{IsStep, is_in_range};
ghost use Rattle.turn_desk_world_laws.specs.Ended.{AreOverAt, EndsBinding, GrantsDeletion, HasNoneAt};
ghost use Rattle.turn_desk_world_laws.specs.Ended.{HasWorked, IsBinding, IsDeleting, IsDividedAfter};
ghost use Rattle.turn_desk_world_laws.specs.Ended.{HasReportedFailure, MayConnect};

/// A run can be divided right after each of its events (`divided`). A client that has no connection
/// with a local address has no bound one with it (`bound`).
pub fn runs_divide_after_each_event()
    ensures divided { (event : Event) (ret : Answer) (old new : World)
        (pairs before after : List (Event × Answer)) (run : List (Step Client DeskCall))
        → EndWithSockets old pairs run new
        → pairs ≡ before ++ (event, ret) ∷ after
        → IsDividedAfter event ret old before after run new }
    ensures bound { (here : SocketAddr) (w : World) → HasNoneAt here w → HasNoneOver here w }
{}

/// A chunk of no bytes from the server, on the socket of a connection to a peer, ends the
/// connection: its stream has ended (RFC 6062, section 4.6).
///
/// Premise: the client is over TCP with this server, and the socket's local address isn't that of
/// the client's own connection to the server (`MayConnect`). Who makes the client and the socket
/// knows that.
///
/// Clause `closes`: If there was a connection with that local address, its socket is the next one
/// that `poll` asks the caller to close.
pub fn connections_end_with_their_streams()
    ensures none { (here there : SocketAddr) (w v : World) (bytes : Vec ℕ Global) (now : ℕ)
        (ret : Answer)
        → bytes.items ≡ []
        → is_in_range now ≡ true
        → MayConnect here there w
        → IsStep (ToClient bytes there here now) w ret v
        → HasNoneAt here v }
    ensures later { (here there : SocketAddr) (old new : World)
        (before after : List (Event × Answer)) (run : List (Step Client DeskCall))
        (bytes : Vec ℕ Global) (now : ℕ) (ret : Answer)
        (d : IsDividedAfter (ToClient bytes there here now) ret old before after run new)
        → bytes.items ≡ []
        → is_in_range now ≡ true
        → MayConnect here there d.begins
        → AtEach (BoundSince here) d.parted.later }
    ensures closes { (here there : SocketAddr) (w v : World) (bytes : Vec ℕ Global) (now : ℕ)
        (ret : Answer) (may : MayConnect here there w) (a : Allocation) (c : Connection)
        (k : ClientState)
        → bytes.items ≡ []
        → is_in_range now ≡ true
        → IsStep (ToClient bytes there here now) w ret v
        → IsIn a may.client.core.allocations
        → IsIn c a.connections
        → c.here ≡ here
        → v.client ≡ Some k
        → k.core.closing ≡ here ∷ may.client.core.closing }
{}

/// A connection to a peer ends in time: with its allocation (RFC 8656, section 8), or if it isn't
/// bound 39.5 s after its CONNECTION_BIND was queued (RFC 6062, section 4.3). `poll` removes it.
///
/// # Premises
///
/// 1. The client has allocated and hasn't ended; and the time of each connection with that local
///    address is over (`AreOverAt`). That is one connection, as no socket is accepted with the
///    local address of another.
/// 2. The poll has done all that was due: it returns neither a wait until now nor a request for a
///    socket (`HasWorked`). A driver calls `poll` until it does.
///
/// An allocation whose deletion was requested stays until the response or until its REFRESH times
/// out: see [`connections_end_with_deletions`].
pub fn connections_end_in_time()
    ensures none { (here : SocketAddr) (w v : World) (now : ℕ) (ret : Answer)
        → is_in_range now ≡ true
        → AreOverAt here now w
        → HasWorked now ret
        → IsStep (Call Poll now) w ret v
        → HasNoneAt here v }
    ensures later { (here : SocketAddr) (old new : World) (before after : List (Event × Answer))
        (run : List (Step Client DeskCall)) (now : ℕ) (ret : Answer)
        (d : IsDividedAfter (Call Poll now) ret old before after run new)
        → is_in_range now ≡ true
        → AreOverAt here now d.begins
        → HasWorked now ret
        → AtEach (BoundSince here) d.parted.later }
{}

/// A connection to a peer ends if the response to its CONNECTION_BIND is an error, or is none to
/// that request (RFC 6062, section 4.3).
///
/// # Premises
///
/// 1. The connection with that local address waits for the response to its newest CONNECTION_BIND,
///    and some bytes of it may have come (`IsBinding`).
/// 2. The bytes that come complete a CONNECTION_BIND message that is no response, has another
///    transaction ID, or is an error response other than a challenge (`EndsBinding`). It need not
///    validate. More bytes may follow it.
///
/// # Conclusions
///
/// - `none`, `later`: see this module.
/// - `reports`: The client queues the event `TcpConnectFailed` for that peer, and no other.
/// - `reported`: Whatever bytes come on the socket of a connection: if they make the client report
///   that a connection failed, none with that local address is left.
pub fn connections_end_with_refusals()
    ensures none { (here there : SocketAddr) (w v : World) (bytes : Vec ℕ Global) (now : ℕ)
        (ret : Answer) (transaction_id : ℕ) (head message more : List ℕ)
        → bytes.items ≢ []
        → is_in_range now ≡ true
        → IsBinding here there transaction_id head w
        → head ++ bytes.items ≡ message ++ more
        → EndsBinding transaction_id message
        → IsStep (ToClient bytes there here now) w ret v
        → HasNoneAt here v }
    ensures later { (here there : SocketAddr) (old new : World)
        (before after : List (Event × Answer)) (run : List (Step Client DeskCall))
        (bytes : Vec ℕ Global) (now : ℕ) (ret : Answer) (transaction_id : ℕ)
        (head message more : List ℕ)
        (d : IsDividedAfter (ToClient bytes there here now) ret old before after run new)
        → bytes.items ≢ []
        → is_in_range now ≡ true
        → IsBinding here there transaction_id head d.begins
        → head ++ bytes.items ≡ message ++ more
        → EndsBinding transaction_id message
        → AtEach (BoundSince here) d.parted.later }
    ensures reports { (here there : SocketAddr) (w v : World) (bytes : Vec ℕ Global) (now : ℕ)
        (ret : Answer) (transaction_id : ℕ) (head message more : List ℕ) (k : ClientState)
        (is : IsBinding here there transaction_id head w)
        → bytes.items ≢ []
        → is_in_range now ≡ true
        → head ++ bytes.items ≡ message ++ more
        → EndsBinding transaction_id message
        → IsStep (ToClient bytes there here now) w ret v
        → v.client ≡ Some k
        → k.core.events
        ≡ is.may.client.core.events ++ reported.TcpConnectFailed is.connection.peer ∷ [] }
    ensures reported { (here there : SocketAddr) (w v : World) (bytes : Vec ℕ Global) (now : ℕ)
        (ret : Answer) (may : MayConnect here there w) (k : ClientState)
        → is_in_range now ≡ true
        → IsStep (ToClient bytes there here now) w ret v
        → v.client ≡ Some k
        → HasReportedFailure may.client k
        → HasNoneAt here v }
{}

/// All connections to peers end when the server grants a deletion (RFC 8656, sections 7.2 and 8.1):
/// the client then has none, with any local address.
///
/// # Premises
///
/// 1. The client's own connection to the server is open; it has allocated, and awaits the response
///    to a REFRESH by which it requested the deletion of an allocation (`IsDeleting`).
/// 2. The bytes that come complete the response to that REFRESH, a success or error 437, which
///    validates under the client's key (`GrantsDeletion`). More bytes may follow it.
pub fn connections_end_with_deletions()
    ensures none { (here there : SocketAddr) (w v : World) (bytes : Vec ℕ Global) (now : ℕ)
        (ret : Answer) (transaction_id : ℕ) (head message more : List ℕ) (other : SocketAddr)
        (is : IsDeleting here there transaction_id head w)
        → bytes.items ≢ []
        → is_in_range now ≡ true
        → head ++ bytes.items ≡ message ++ more
        → GrantsDeletion transaction_id is.standing message
        → IsStep (ToClient bytes there here now) w ret v
        → HasNoneAt other v }
    ensures later { (here there : SocketAddr) (old new : World)
        (before after : List (Event × Answer)) (run : List (Step Client DeskCall))
        (bytes : Vec ℕ Global) (now : ℕ) (ret : Answer) (transaction_id : ℕ)
        (head message more : List ℕ) (other : SocketAddr)
        (d : IsDividedAfter (ToClient bytes there here now) ret old before after run new)
        (is : IsDeleting here there transaction_id head d.begins)
        → bytes.items ≢ []
        → is_in_range now ≡ true
        → head ++ bytes.items ≡ message ++ more
        → GrantsDeletion transaction_id is.standing message
        → AtEach (BoundSince other) d.parted.later }
{}

/// What is promised of ended connections excludes these clients, whatever they are:
///
/// - `keeps`: One that still has a connection with that local address, bound or not, in an
///   allocation that is marked as expired or in any other.
/// - `delivers`: One that delivers bytes that came to that address, though none was bound since.
/// - `lists`: One that lists a bound connection with that address, though it was not bound since.
pub fn ended_connections_exclude_these_clients()
    ensures keeps { (w : World) (k : ClientState) (a : Allocation) (c : Connection)
        → w.client ≡ Some k
        → IsIn a k.core.allocations
        → IsIn c a.connections
        → HasNoneAt c.here w → ⊥ }
    ensures delivers { (here peer : SocketAddr) (bytes : List ℕ) (call : CallOf Client)
        (later : List (Step Client DeskCall))
        → IsIn (FromConnection here peer bytes) call.payloads
        → ((transaction_id : ℕ) → WasBound here peer transaction_id (AtClient call ∷ later) → ⊥)
        → AtEach (BoundSince here) (AtClient call ∷ later) → ⊥ }
    ensures lists { (here peer : SocketAddr) (transaction_id : ℕ) (call : CallOf Client)
        (later : List (Step Client DeskCall))
        → IsIn (ConnectionHeld here peer transaction_id) call.visible
        → (WasBound here peer transaction_id (AtClient call ∷ later) → ⊥)
        → AtEach (BoundSince here) (AtClient call ∷ later) → ⊥ }
{}

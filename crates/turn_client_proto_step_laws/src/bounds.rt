//! What the server's own requests and indications make a client store. The functions do nothing;
//! their contracts are theorems.

ghost use Rattle.std.specs.Prelude.{◌≡◌, ◌≤◌, ◌⊎◌, ℕ, Bool, List, Some, length};
ghost use Rattle.turn_client_proto_timers.specs.Allocation.declared.allocation.Allocation.{Allocation};
ghost use Rattle.turn_client_proto_timers.specs.Core.Attempting.{IsAttemptTaken, IsIndicationTaken, offers_limit};
ghost use Rattle.turn_client_proto_timers.specs.Core.declared.protocol.Protocol.{Protocol};
ghost use Rattle.turn_client_proto_timers.specs.TurnRuns.Members.{IsIn};
ghost use Rattle.turn_client_proto_step_laws.specs.Bounds.{WaitAtMost};

/// What a validated request of the server adds stays within the client's limit
/// (`TurnConfig::set_max_connection_attempts`; RFC 6062, section 4.4).
///
/// - `limit`: the limit itself stays.
/// - `waiting`: if in each allocation at most that many connections waited for their socket that
///   the server had announced, this is so afterwards.
/// - `queued`: if at most that many messages waited to be sent, this is so afterwards.
pub fn attempts_are_bounded()
    ensures limit { (limit : ℕ) (old new : Protocol) (bytes : List ℕ) (handled : Bool)
        → old.max_connection_attempts ≡ Some limit
        → IsAttemptTaken old bytes handled new
        → new.max_connection_attempts ≡ Some limit }
    ensures waiting { (limit : ℕ) (old new : Protocol) (bytes : List ℕ) (handled : Bool)
        → old.max_connection_attempts ≡ Some limit
        → IsAttemptTaken old bytes handled new
        → WaitAtMost limit old.allocations
        → WaitAtMost limit new.allocations }
    ensures queued { (limit : ℕ) (old new : Protocol) (bytes : List ℕ) (handled : Bool)
        → old.max_connection_attempts ≡ Some limit
        → IsAttemptTaken old bytes handled new
        → length old.queue ≤ limit
        → length new.queue ≤ limit }
{}

/// What an indication adds stays within the limit, which is 64 if the settings have none
/// (`TurnConfig::set_attempt_indications`; RFC 6062, section 4.4).
///
/// - `others`: an indication changes allocations alone; no event, request or response is queued.
/// - `waiting`: an allocation that it changed has no more connections that wait for their socket
///   than are allowed, however many indications came before.
pub fn indications_are_bounded()
    ensures others { (old new : Protocol) (bytes : List ℕ) (handled : Bool)
        → IsIndicationTaken old bytes handled new
        → new ≡ record old { allocations = new.allocations } }
    ensures waiting { (old new : Protocol) (bytes : List ℕ) (handled : Bool)
        → IsIndicationTaken old bytes handled new
        → (a : Allocation) → IsIn a new.allocations
        → IsIn a old.allocations
        ⊎ (length a.waiting ≤ offers_limit old.max_connection_attempts) }
{}

//! What a server core does, in the terms of a run of a client and a server core (RFC 8656).

ghost use Rattle.turn_runs_laws.specs.TurnRuns.Steps.{DeskStep};
ghost use Rattle.turn_runs_laws.specs.TurnRuns.StunWire.{stun_wire};
ghost use Rattle.turn_desk_step_laws.specs.DeskRun.{DeskCall, IsHandled, desk_words};

/// A call that is as the contract of `Desk::handle` says is a step of a run. So a success response
/// grants what the request is for, and is signed under the key that validated the request. That key
/// is the key of a user name and password in the server core's realm, for the algorithm by which
/// the request validated.
pub fn desk_runs()
    ensures { (d : DeskCall) → IsHandled d → DeskStep stun_wire desk_words d }
{}

//! Over TCP, complete frames arrive, are buffered, and are handled one by one (RFC 8656, section
//! 12.5). Each of these events is a step of its own. The functions do nothing; each contract is a
//! theorem.

ghost use Rattle.std.specs.Prelude.{◌≡◌, ◌⊎◌, ℕ, List, [], ◌∷◌, Bool, None, Some};
ghost use Rattle.turn_client_proto_timers.specs.StunTypesWire.Grammar.{refusal};
ghost use Rattle.turn_client_proto_timers.specs.StunTypesWire.Headers.{AreBytes};
ghost use Rattle.turn_client_proto_timers.specs.Core.Receiving.{IsProcessed};
ghost use Rattle.turn_client_proto_timers.specs.Core.declared.protocol.Protocol.{Protocol};
ghost use Rattle.turn_client_proto_timers.specs.TurnRuns.Members.{IsIn};
ghost use Rattle.turn_client_proto_recv.specs.Payload.OfPeers.{reported_of};
ghost use Rattle.turn_client_proto_recv.specs.Payload.Payloads.{payload_of};
ghost use Rattle.turn_client_proto_recv.specs.Payload.declared.payload.Payload.{Payload};
ghost use Rattle.turn_client_proto_step_laws.specs.RunClient.{Client};
ghost use Rattle.turn_client_proto_step_laws.specs.RunSteps.{IsComing, IsTakingUp};
ghost use Rattle.turn_client_proto_step_laws.specs.Sound.{IsSound};

/// The arrival of complete frames is a step in which none is handled. Any frames may be buffered
/// afterwards, as long as each of them arrived now or was buffered before. If the stream ends, none
/// is buffered any more.
pub fn comings_are_steps()
    ensures { (c : Client) (came waiting : List (List ℕ))
        → IsSound c
        → ((frame : List ℕ) → IsIn frame waiting → IsIn frame came ⊎ IsIn frame c.waiting)
        → IsComing c came waiting }
{}

/// Handling the oldest buffered frame is a step. There are three cases:
///
/// - `processed`: the frame is a message, and the client handles it.
/// - `delivered`: the frame carries data or a report of a peer that the client permits, which is
///   delivered.
/// - `passed`: the frame, whatever it is, has no effect.
pub fn waiting_frames_are_steps()
    ensures processed { (c : Client) (frame : List ℕ) (rest : List (List ℕ)) (now : ℕ)
        (handled : Bool) (new : Protocol)
        → IsSound c
        → c.waiting ≡ frame ∷ rest
        → AreBytes frame
        → refusal frame ≡ None
        → IsProcessed c.core frame now handled new
        → IsTakingUp c frame [] new }
    ensures delivered { (c : Client) (frame : List ℕ) (rest : List (List ℕ)) (payload : Payload)
        → IsSound c
        → c.waiting ≡ frame ∷ rest
        → payload_of c.core frame ≡ Some payload
        → IsTakingUp c frame (reported_of frame payload ∷ []) c.core }
    ensures passed { (c : Client) (frame : List ℕ) (rest : List (List ℕ))
        → IsSound c
        → c.waiting ≡ frame ∷ rest
        → IsTakingUp c frame [] c.core }
{}

//! What the promises on loops exclude. Each contract is a theorem on the definitions alone, of any
//! client whatever: what is promised of each draw is not met by what such a client gives. The
//! functions do nothing.

ghost use Rattle.std.specs.Prelude.{◌≡◌, ◌≢◌, ◌≤◌, ◌<◌, ℕ, false, List, Some};
ghost use Rattle.turn_desk_core.specs.StunTypesBase.Times.{time_after};
ghost use Rattle.turn_desk_core.specs.StunTypesBase.declared.data.Data.{Data};
ghost use Rattle.turn_desk_core.specs.StunTypesBase.declared.transmit.Transmit.{Transmit as Sending};
ghost use Rattle.turn_desk_core.specs.StunTypesWire.Grammar.{number_at};
ghost use Rattle.turn_client_proto_messages.specs.StunProtoAuth.Claims.{claimed};
ghost use Rattle.turn_client_proto_messages.specs.StunProtoClient.Challenges.{ChallengeFields};
ghost use Rattle.turn_client_proto_messages.specs.StunProtoClient.Challenges.{challenge_visible};
ghost use Rattle.turn_client_proto_api.specs.Sent.{Sent, sent_of};
ghost use Rattle.turn_client_proto_messages.specs.Api.Options.{cadence};
ghost use Rattle.turn_desk_event.specs.declared.answer.Answer.TheVariants.{Nothing, Transmit};
ghost use Rattle.turn_desk_world_laws.specs.World.Model.{World};
ghost use Rattle.turn_desk_progress_laws.specs.Loops.{IsNoneDue, IsTransmissionDue};
ghost use Rattle.turn_desk_progress_laws.specs.Scripts.{Plan};
ghost use Rattle.turn_desk_progress_laws.specs.Turns.{due};
ghost use Rattle.turn_desk_laws.specs.RenewalLoops.{Holding, IsDrawAt, Refreshing};
ghost use Rattle.turn_desk_laws.specs.RenewalLoops.{RenewalPosition, Turned};
ghost use Rattle.turn_desk_laws.specs.RequestLoops.{IsDrawOf};

/// What `loops_renew` promises of a draw (`IsDrawAt`) excludes these clients, at any position and
/// whatever was challenged before:
///
/// - `unanswered`: One that gives nothing at a draw 50 ms after its last message, once a challenge
///   has come: it answers no challenge, or answers one and never again.
/// - `silent`: One that gives nothing at a draw a minute before the end of its allocation or later,
///   and 50 ms after its last message, however late the reply came that granted it.
/// - `late`: One that gives nothing at a draw at which a slot of its REFRESH is due: it transmits at
///   a later one.
/// - `early`: One that transmits its REFRESH again before the next slot.
/// - `altered`: One that transmits it again with another transaction ID, with other bytes, or
///   between other addresses.
/// - `answers`: One that answers a challenge with the transaction ID of the challenged REFRESH, or
///   under another nonce than that of the challenge.
pub fn renewals_exclude_these_clients()
    ensures unanswered { (plan : Plan) (old : World) (secondly request : Sent) (reply : List ℕ)
        (p : RenewalPosition) (now : ℕ)
        → time_after p.sent cadence ≤ now
        → IsDrawAt plan old secondly (Turned request reply) p now Nothing → ⊥ }
    ensures silent { (plan : Plan) (old : World) (secondly : Sent) (p : RenewalPosition) (now : ℕ)
        → due p.from p.lifetime ≤ now
        → time_after p.sent cadence ≤ now
        → IsDrawAt plan old secondly Holding p now Nothing → ⊥ }
    ensures late { (plan : Plan) (old : World) (secondly request : Sent) (p : RenewalPosition)
        (now : ℕ)
        → p.queued ≡ false
        → IsTransmissionDue plan p.made p.many now
        → IsDrawAt plan old secondly (Refreshing request) p now Nothing → ⊥ }
    ensures early { (plan : Plan) (old : World) (secondly request : Sent) (p : RenewalPosition)
        (now : ℕ) (sent : Sending Data)
        → p.queued ≡ false
        → IsNoneDue plan p.made p.many now
        → IsDrawAt plan old secondly (Refreshing request) p now (Transmit sent) → ⊥ }
    ensures altered { (plan : Plan) (old : World) (secondly request : Sent) (p : RenewalPosition)
        (now : ℕ) (sent : Sending Data)
        → sent_of sent ≢ request
        → IsDrawAt plan old secondly (Refreshing request) p now (Transmit sent) → ⊥ }
    ensures answers { (plan : Plan) (old : World) (secondly request : Sent) (reply : List ℕ)
        (p : RenewalPosition) (now : ℕ) (reported : ChallengeFields) (sent : Sending Data)
        → time_after p.sent cadence ≤ now
        → challenge_visible reply ≡ Some reported
        → IsDrawAt plan old secondly (Turned request reply) p now (Transmit sent)
        → (number_at (sent_of sent).bytes ≢ number_at request.bytes)
        × ((claimed (sent_of sent).bytes).nonce ≡ Some reported.nonce) }
{}

/// What `loops_hold_what_is_requested` promises of a draw while the request is queued (`IsDrawOf`)
/// excludes a client that gives nothing then, whether or not the request answers a challenge.
pub fn requests_exclude_silent_clients()
    ensures { (plan : Plan) (request : List ℕ) (ahead : ℕ) (w v : World)
        → IsDrawOf plan request ahead w Nothing v → ⊥ }
{}

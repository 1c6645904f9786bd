//! What the contracts of a client mean for the crates above. The functions do nothing; each
//! contract is a theorem.

ghost use Rattle.std.specs.Prelude.{◌≡◌, ◌<◌, ◌≤◌, ℕ, Option};
ghost use Rattle.turn_client_proto_api.specs.declared.answer.TurnPollRet.TheVariants.{WaitUntil};
ghost use Rattle.turn_client_proto_timers.specs.Drawing.{IsTransmitted, IsStill};
ghost use Rattle.turn_client_proto_api.specs.Sent.{Sent};
ghost use Rattle.turn_client_proto_timers.specs.Polling.{IsPolled};
ghost use Rattle.turn_client_proto_core.specs.declared.protocol.Protocol.{Protocol};

use stun_proto_agent::laws::agent_laws;

/// If `poll` at `now` returns `WaitUntil(until)` with `until` later than `now`, and no other call
/// comes between, then `poll_transmit` at any time from `now` to before `until` returns `None` and
/// changes nothing (RFC 8489, section 6.2.1).
pub fn nothing_is_sent_before()
    ensures { (old new after : Protocol) (now until time : ℕ) (sent : Option Sent)
        → IsPolled old now (WaitUntil until) new → now < until → now ≤ time → time < until
        → IsTransmitted new time sent after → IsStill new sent after }
{
    agent_laws();
}

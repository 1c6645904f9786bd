//! Theorems on an agent for the layers above. The functions do nothing; each contract states
//! theorems.

ghost use Rattle.std.specs.Prelude.{◌≡◌, ◌+◌, ◌<◌, ◌≤◌, ◌⊎◌, ℕ, Bool, List, Some, false, true};
ghost use Rattle.std.specs.FinMap as finite;
ghost use Rattle.std.specs.declared.net.socket_addr.SocketAddr.{SocketAddr};
ghost use Rattle.stun_proto_transaction.specs.Agents.{Transaction, is_ended};
ghost use Rattle.stun_proto_agent.specs.Handling.{after_message, ends_one, is_awaited};
ghost use Rattle.stun_proto_agent.specs.Numbers.{IsWithout, NothingNew, ShowsNumbers};
ghost use Rattle.stun_proto_agent.specs.Requests.{IsChanged};
ghost use Rattle.stun_proto_agent.specs.Sending.{IsAfterTransmit, IsCounted, started, is_due_of};
ghost use Rattle.stun_proto_agent.specs.Sending.{with_request};
ghost use Rattle.stun_proto_agent.specs.State.{Agent, IsEnd, IsNext, IsPolled, NoneEnded};
ghost use Rattle.stun_proto_agent.specs.declared.agent.StunAgentPollRet.{StunAgentPollRet};
ghost use Rattle.stun_proto_transaction.specs.declared.transaction.Change.{Change};
ghost use Rattle.stun_proto_transaction.specs.Base.Times.{time_after};
ghost use Rattle.stun_proto_transaction.specs.Schedule.{Waits, slot_at, wait_at};
ghost use Rattle.stun_proto_transaction.specs.Wire.Grammar.{number_at};

/// States when an agent sends:
///
/// - `apart`: each transmission is scheduled at the time of the one before plus the wait configured
///   after it.
/// - `waited`: a transmission that is made at `now` was scheduled for `now` or earlier.
/// - `quiet`: if no transaction has ended at `now`, then from `now` until the time that `WaitUntil`
///   reports, no transmission is due and no transaction ends.
/// - `foreign`: a message whose transaction ID is not outstanding changes nothing.
pub fn agent_laws()
    ensures apart { (sent index : ℕ) (waits : Waits) → slot_at sent waits (index + 1)
        ≡ time_after (slot_at sent waits index) (wait_at waits index) }
    ensures waited { (old new : Agent) (now : ℕ) (counted : IsCounted old now new)
        → slot_at counted.transaction.sent counted.transaction.waits counted.transaction.used
        ≤ now }
    ensures quiet { (agent : Agent) (now until time number : ℕ) (t : Transaction)
        → NoneEnded agent now → IsNext agent now until → now ≤ time → time < until
        → finite.get agent.outstanding number ≡ Some t
        → (is_due_of agent time t ≡ false) × (is_ended time t ≡ false) }
    ensures foreign { (agent : Agent) (bytes : List ℕ) (from : SocketAddr)
        → is_awaited agent bytes ≡ false → after_message agent bytes from ≡ agent }
{}

/// States how transaction IDs become outstanding and stop being so (RFC 8489, section 6):
///
/// - `answered`, `ended`: after a response that ended a transaction, or a poll that reported one,
///   that ID is not outstanding, and every other entry is unchanged.
/// - `sent`: after a request is sent, each outstanding request either was outstanding before,
///   unchanged, or is that request under the transaction ID in its bytes.
pub fn numbers_come_and_go()
    ensures answered { (agent : Agent) (bytes : List ℕ) (from : SocketAddr)
        → ends_one agent bytes ≡ true
        → IsWithout agent (number_at bytes) (after_message agent bytes from) }
    ensures ended { (old new : Agent) (now number : ℕ) (over : Bool)
        → IsEnd old now number over new → IsWithout old number new }
    ensures sent { (agent : Agent) (bytes : List ℕ) (to : SocketAddr) (now number : ℕ)
        (t : Transaction)
        → finite.get (with_request agent bytes to now).outstanding number ≡ Some t
        → (finite.get agent.outstanding number ≡ Some t)
        ⊎ ((number ≡ number_at bytes) × (t ≡ started agent bytes to now)) }
{}

/// Only the call that sends a request makes one outstanding. Each request that is outstanding after
/// a message was handled, a poll, a transmission, or a change by the caller was outstanding before.
/// Its bytes, its target and the time of its first transmission are unchanged, and its count of
/// transmissions has not decreased.
pub fn nothing_new()
    ensures handled { (agent : Agent) (bytes : List ℕ) (from : SocketAddr)
        → NothingNew agent (after_message agent bytes from) }
    ensures polled { (old new : Agent) (now : ℕ) (answer : StunAgentPollRet)
        → IsPolled old now answer new → NothingNew old new }
    ensures transmitted { (old new : Agent) (now : ℕ)
        → IsAfterTransmit old now new → NothingNew old new }
    ensures changed { (old new : Agent) (number : ℕ) (change : Change)
        → IsChanged old number change new → NothingNew old new }
{}

/// Each outstanding request is stored under the transaction ID in its bytes. This holds for an
/// agent with nothing outstanding, and each call preserves it.
pub fn numbers_are_listed()
    ensures fresh { (agent : Agent) → agent.outstanding ≡ finite.empty → ShowsNumbers agent }
    ensures sent { (agent : Agent) (bytes : List ℕ) (to : SocketAddr) (now : ℕ)
        → ShowsNumbers agent → ShowsNumbers (with_request agent bytes to now) }
    ensures handled { (agent : Agent) (bytes : List ℕ) (from : SocketAddr)
        → ShowsNumbers agent → ShowsNumbers (after_message agent bytes from) }
    ensures polled { (old new : Agent) (now : ℕ) (answer : StunAgentPollRet)
        → IsPolled old now answer new → ShowsNumbers old → ShowsNumbers new }
    ensures transmitted { (old new : Agent) (now : ℕ)
        → IsAfterTransmit old now new → ShowsNumbers old → ShowsNumbers new }
    ensures changed { (old new : Agent) (number : ℕ) (change : Change)
        → IsChanged old number change new → ShowsNumbers old → ShowsNumbers new }
{}

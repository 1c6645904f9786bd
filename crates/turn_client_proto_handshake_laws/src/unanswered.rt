//! A TURN client that receives nothing (RFC 8489, section 6.2.1; RFC 8656, section 7.1): what it
//! transmits and when, how long it waits, and how it ends. [`driving`] has a driver of such a
//! client.

ghost use Rattle.std.specs.Prelude.{◌≤◌, List};
ghost use Rattle.std.specs.List.{AllByRecursion};
ghost use Rattle.turn_client_proto_core.specs.declared.protocol.Protocol.{Protocol};
ghost use Rattle.turn_client_proto_handshake_laws.specs.Driving.{Call, IsDriven, client_end};
ghost use Rattle.turn_client_proto_handshake_laws.specs.Promises.{AreSlots, HasSent, HasReported};
ghost use Rattle.turn_client_proto_handshake_laws.specs.Promises.{IsAllocate, IsAnswered};
ghost use Rattle.turn_client_proto_handshake_laws.specs.Sent.{Beginning, Begins, HasRoom};
ghost use Rattle.turn_client_proto_handshake_laws.specs.declared.driving.Stage.{Stage};
ghost use Rattle.turn_client_proto_handshake_laws.specs.declared.driving.Stage.TheVariants.{Drawing};

use turn_client_proto_messages::laws::{proof_requests_are_read, proof_texts_stay_short};

/// A new client that receives nothing transmits its first request by its schedule, and is closed at
/// the end of it.
///
/// Premises: the user's name fits into a message, at most two address families are configured
/// (`HasRoom`), and the client is driven as follows. `poll_transmit` is called until it returns
/// nothing, then `poll`, and then again from the time that `poll` returns, whatever that is, up to
/// the latest time of a client. Events are taken and getters called at any time. A client is here
/// the `core` of its state.
///
/// - `sent`: it transmits its first request, the same bytes each time, from its own address to the
///   server's, and nothing else (RFC 8489, section 6.2.1). Once `poll_transmit` has returned
///   nothing at a time, the request was transmitted exactly at each slot of its settings' schedule
///   up to that time; over TCP, at the first slot alone. This is an equation of whole lists,
///   including the times.
/// - `request`: that request is a message that asks for an allocation.
/// - `slots`: over TCP there is one slot. With the default waits, the slots over UDP are 0, 0.5,
///   1.5, 3.5, 7.5, 15.5 and 31.5 seconds after the first, and over both transports the end is 39.5
///   seconds after it.
/// - `answered`: a poll before the end of the schedule returns a later time, no later than the end.
///   No poll comes after the end, and that at the end returns `Closed`.
/// - `reported`: at the end the client has ended, and `poll_event` returns, for each family in
///   order, that no address was allocated. Before that it returns nothing.
///
/// If memory runs out, the client has failed, and reports nothing. This can happen when the request
/// is to be transmitted, at a slot, and when the events are to be queued, at the end.
///
/// The theorem holds for all settings. With waits of zero several slots are at the same time, and
/// the request is then transmitted once for each. If there is no wait after the last slot, the end
/// is that slot: with a single transmission and no final wait, the client is closed at the time at
/// which it transmitted its request.
pub fn unanswered_clients_end()
    ensures sent { (b : Beginning) (old new : Protocol) (calls : List Call) (last : Stage)
        → HasRoom b.config → Begins b old → IsDriven (Drawing b.made) old calls last new
        → HasSent b calls last }
    ensures answered { (b : Beginning) (old new : Protocol) (calls : List Call) (last : Stage)
        → HasRoom b.config → Begins b old → IsDriven (Drawing b.made) old calls last new
        → AllByRecursion (IsAnswered b) calls }
    ensures reported { (b : Beginning) (old new : Protocol) (calls : List Call) (last : Stage)
        → HasRoom b.config → Begins b old → IsDriven (Drawing b.made) old calls last new
        → HasReported b calls last new }
    ensures request { (b : Beginning) → HasRoom b.config → IsAllocate b }
    ensures slots { (b : Beginning) → b.made ≤ client_end → AreSlots b }
{
    proof_requests_are_read();
    proof_texts_stay_short();
}

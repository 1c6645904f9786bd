//! The outstanding requests of a client, whatever they ask for: when they are transmitted, and what
//! their end makes of them (RFC 8489, section 6.2.1), by the contracts of the client's own calls
//! alone. The functions do nothing; each contract is a theorem.

ghost use Rattle.std.specs.Prelude.{◌≡◌, ◌≢◌, ◌⊎◌, ◌≤◌, ◌<◌, ◌++◌, ℕ, List, [], Option, None, Some};
ghost use Rattle.std.specs.declared.net.ip_addr.IpAddr.{IpAddr};
ghost use Rattle.turn_client_proto_messages.specs.Allocation.Permissions.{names_of};
ghost use Rattle.turn_client_proto_messages.specs.Api.Sent.{Sent};
ghost use Rattle.turn_client_proto_messages.specs.Api.declared.answer.TurnPollRet.{TurnPollRet};
ghost use Rattle.turn_client_proto_messages.specs.Api.declared.answer.TurnPollRet.TheVariants.{NoMemory};
ghost use Rattle.turn_client_proto_core.specs.declared.protocol.Protocol.{Protocol};
ghost use Rattle.turn_client_proto_handshake_laws.specs.Driving.{Call};
ghost use Rattle.turn_client_proto_messages.specs.Api.declared.event.TurnEvent.TheVariants.{ChannelCreateFailed};
ghost use Rattle.turn_client_proto_messages.specs.Api.declared.event.TurnEvent.TheVariants.{PermissionCreateFailed};
ghost use Rattle.turn_client_proto_messages.specs.Api.declared.event.TurnEvent.TheVariants.{TcpConnectFailed};
ghost use Rattle.turn_client_proto_core.specs.declared.protocol.Phase.TheVariants.{Authenticating};
ghost use Rattle.turn_client_proto_core.specs.declared.protocol.Phase.TheVariants.{InitialSent};
ghost use Rattle.turn_client_proto_messages.specs.TurnRuns.Members.{IsIn};
ghost use Rattle.turn_client_proto_step_laws.specs.Held.{Allocation, Binding, Connecting, Connection};
ghost use Rattle.turn_client_proto_step_laws.specs.Held.{PendingChannel, PendingPermission};
ghost use Rattle.turn_client_proto_step_laws.specs.Held.{PendingRefresh};
ghost use Rattle.turn_client_proto_step_laws.specs.Timers.Drawing.{IsTransmitted};
ghost use Rattle.turn_client_proto_step_laws.specs.Timers.Polling.{IsPolled};
ghost use Rattle.turn_client_proto_progress_laws.specs.ScheduleEnds.{EndsAt, HasClosed, IsAttended, IsRefreshedAnew};
ghost use Rattle.turn_client_proto_progress_laws.specs.Schedules.{AreCalled, IsDrawOf, IsGivenUp, IsInOrder};
ghost use Rattle.turn_client_proto_progress_laws.specs.Schedules.{IsLeft, IsNoneDue, IsOutstanding, IsStillAwaited};
ghost use Rattle.turn_client_proto_progress_laws.specs.Schedules.{IsTraced, Request};

use turn_client_proto_messages::laws::proof_requests_are_read;

/// An outstanding request of a client, whatever it asks for and whatever else is outstanding, goes
/// by its schedule until it is given up.
///
/// # Premises
///
/// 1. The request is outstanding and was transmitted `many` times (`IsOutstanding`): an ALLOCATE, a
///    REFRESH, a CREATE_PERMISSION, a CHANNEL_BIND, a CONNECT or a CONNECTION_BIND.
/// 2. The client is in order (`IsInOrder`), as each client is that hasn't ended.
/// 3. Times are in nanoseconds, and may be any. `IsTransmitted` is the contract of `poll_transmit`,
///    `IsPolled` that of `poll`. A call that ran out of memory ends the client, and nothing is said
///    of it.
///
/// # Conclusions
///
/// - `draws`: a draw gives the request again only if its next slot isn't later than the draw, and
///   then it is the same bytes, under the same transaction ID, from the client's own address to
///   the same one. A draw at or after that slot gives a message: if not this one, then one of
///   another request, with a lesser transaction ID, that is due too (`IsDrawOf`). So draws that are
///   repeated until one gives nothing give the request once for each slot up to then (`quiet`).
/// - `polls`: a poll before the end of the schedule leaves the request as it is. A poll at or after
///   it gives the request up, unless an event or a reply is queued or another request with a lesser
///   transaction ID has ended (`ComesFirst`), and then the next poll follows at once. If a poll
///   returns a later time than now, that isn't later than the request's end, nor than its next slot
///   (`IsStillAwaited`, `IsGivenUp`).
/// - `calls`: the same of any number of such calls in a row, to which events may be polled and
///   getters called (`IsTraced`): the `k`-th transmission isn't before slot `k`, and none comes
///   once the request was given up.
pub fn requests_go_by_their_schedule()
    ensures draws { (r : Request) (many now : ℕ) (old new : Protocol) (sent : Option Sent)
        → IsInOrder old
        → IsOutstanding r many old
        → IsTransmitted old now sent new
        → (next : ℕ) × IsDrawOf r many now old sent next × IsOutstanding r next new
        × IsInOrder new }
    ensures quiet { (r : Request) (many now : ℕ) (old new : Protocol)
        → IsInOrder old
        → IsOutstanding r many old
        → IsTransmitted old now None new
        → IsNoneDue r many now old × IsOutstanding r many new }
    ensures polls { (r : Request) (many now : ℕ) (old new : Protocol) (ret : TurnPollRet)
        → IsInOrder old
        → IsOutstanding r many old
        → ret ≢ NoMemory
        → IsPolled old now ret new
        → (IsStillAwaited r many now old ret new ⊎ IsGivenUp r now new) × IsInOrder new }
    ensures calls { (r : Request) (many : ℕ) (old new : Protocol) (calls : List Call)
        → IsInOrder old
        → IsOutstanding r many old
        → AreCalled old calls new
        → (last : Option ℕ) × IsTraced r old many calls last × IsLeft r last new }
{
    proof_requests_are_read();
}

/// What becomes of what a request asked for, once a poll gave the request up (`EndsAt`). That poll
/// reports nothing else before, since no event was queued.
///
/// - `allocate`: an ALLOCATE ends the client. `poll` returns `Closed`, and for each family in order
///   an `AllocationCreateFailed` is queued (RFC 8656, section 7.4).
/// - `permission`: each new permission that the request asked for is reported by
///   `PermissionCreateFailed`; a request may name several addresses (RFC 8656, section 10.1).
/// - `channel`: the new channel that it asked for is reported by `ChannelCreateFailed`.
/// - `connect`, `binding`: the connection that a CONNECT asked for, or that a CONNECTION_BIND was
///   to bind, is reported by `TcpConnectFailed` (RFC 6062, section 4.3).
/// - `refresh`: the allocation is kept, and another REFRESH is to be sent (`IsRefreshedAnew`).
///
/// All but the first presume that the server has allocated and that no socket is to be requested
/// from the caller (`IsAttended`), and that the allocation hasn't expired: a caller learns the
/// latter from `poll_event`.
pub fn requests_that_end_are_reported()
    ensures allocate { (r : Request) (many now : ℕ) (old new : Protocol) (ret : TurnPollRet)
        (numbers : List ℕ)
        → EndsAt r many now old ret new
        → (old.phase ≡ InitialSent numbers) ⊎ (old.phase ≡ Authenticating numbers)
        → IsIn r.number numbers
        → HasClosed old ret new }
    ensures permission { (r : Request) (many now : ℕ) (old new : Protocol) (ret : TurnPollRet)
        (a : Allocation) (p : PendingPermission) (ip : IpAddr)
        → EndsAt r many now old ret new
        → IsAttended old
        → IsIn a old.allocations
        → now < a.expiry
        → IsIn p a.pending_permissions
        → IsIn r.number p.numbers
        → IsIn ip (names_of p)
        → IsIn (PermissionCreateFailed a.transport ip) new.events }
    ensures channel { (r : Request) (many now : ℕ) (old new : Protocol) (ret : TurnPollRet)
        (a : Allocation) (p : PendingChannel)
        → EndsAt r many now old ret new
        → IsAttended old
        → IsIn a old.allocations
        → now < a.expiry
        → IsIn p a.pending_channels
        → IsIn r.number p.numbers
        → IsIn (ChannelCreateFailed a.transport p.peer) new.events }
    ensures connect { (r : Request) (many now : ℕ) (old new : Protocol) (ret : TurnPollRet)
        (a : Allocation) (p : Connecting)
        → EndsAt r many now old ret new
        → IsAttended old
        → IsIn a old.allocations
        → now < a.expiry
        → IsIn p a.connecting
        → p.number ≡ r.number
        → IsIn (TcpConnectFailed p.peer) new.events }
    ensures binding { (r : Request) (many now : ℕ) (old new : Protocol) (ret : TurnPollRet)
        (a : Allocation) (p : Connection) (b : Binding)
        → EndsAt r many now old ret new
        → IsAttended old
        → IsIn a old.allocations
        → now < a.expiry
        → IsIn p a.connections
        → p.awaited ≡ Some b
        → b.number ≡ r.number
        → IsIn (TcpConnectFailed p.peer) new.events }
    ensures refresh { (r : Request) (many now : ℕ) (old new : Protocol) (ret : TurnPollRet)
        (a : Allocation) (p : PendingRefresh)
        → EndsAt r many now old ret new
        → IsAttended old
        → IsIn a old.allocations
        → now < a.expiry
        → IsIn p a.pending_refreshes
        → p.number ≡ r.number
        → (left : Allocation) × IsIn left new.allocations × IsRefreshedAnew a left }
{}

//! The timed work of a client.

ghost use Rattle.std.specs.Prelude.{◌≡◌, ◌≢◌, [], IfNone, IfOk, IfSome, None, OnErr, max, min, option_map};
ghost use Rattle.std.specs.Duration.{as_nanos};
ghost use Rattle.turn_client_proto_connection.specs.Waiting.{unasked};
ghost use Rattle.stun_types_base.specs.Times.{time_after};
ghost use Rattle.turn_client_proto_core.specs.Ending.{IsUnderWay};
ghost use Rattle.turn_client_proto_timers.specs.Polling.{HasToReport, HasToReportIn, IsClosing, IsPolled};
ghost use Rattle.turn_client_proto_timers.specs.Polling.{IsPolledBy, IsPolledIn, IsPolledSent};
ghost use Rattle.turn_client_proto_timers.specs.Polling.{IsPolledStanding, IsAgentPolled, AreAllocationsPolled};
ghost use Rattle.turn_client_proto_timers.specs.Polling.{after_asking, answer_of, socket_for};
ghost use Rattle.turn_client_proto_timers.specs.Polling.{ended_of, left, longest_pause};
ghost use Rattle.turn_client_proto_timers.specs.Polling.{pace_of, ready_after, wait_of};
ghost use Rattle.turn_client_proto_timers.specs.Polling.{wait_to_send, waits_until};
ghost use Rattle.turn_client_proto_timers.specs.Quiet.{IsQuiet};
ghost use Rattle.turn_client_proto_timers.specs.Reporting.{all_failures};

use crate::answers::has_answer;
use crate::quiet::Quiet;
use crate::reporting;
use std::time::Duration;
use stun_proto_agent::agent::StunAgentPollRet;
use stun_types_base::instant::Instant;
use stun_types_base::memory::NoMemory;
use stun_types_wire::transaction::TransactionId;
use turn_client_proto_allocation::allocation::Allocation;
use turn_client_proto_allocation::numbers::is_among;
use turn_client_proto_api::answer::{Socket5Tuple, TurnPollRet};
use turn_client_proto_connection::expire as joined;
use turn_client_proto_connection::waiting::ask_first;
use turn_client_proto_core::ending::end;
use turn_client_proto_core::protocol::{Phase, Protocol};
use turn_client_proto_peers::channel::expire;
use turn_client_proto_peers::permission::reporting as permissions;

/// The longest wait that a client returns, in seconds.
const LONGEST_PAUSE: u64 = 9999;

/// Returns the earliest time for the next message after one that was sent at `last`, if two are at
/// least `pace` apart.
pub(crate) fn next_send(pace: Duration, last: Instant) -> Instant
    ensures { result ≡ time_after last (as_nanos pace) }
{
    last.saturating_add(pace)
}

/// Returns the end of the longest wait.
pub(crate) fn longest_wait(now: Instant) -> Instant
    ensures { result ≡ time_after now longest_pause }
{
    now.saturating_add(Duration::from_secs(LONGEST_PAUSE))
}

/// Returns the transaction ID of the transaction that ended.
fn ended_of(ticked: &StunAgentPollRet) -> Option<TransactionId>
    ensures { result ≡ ended_of ticked.now }
{
    match ticked {
        StunAgentPollRet::TransactionTimedOut(number)
        | StunAgentPollRet::TransactionCancelled(number) => Some(*number),
        StunAgentPollRet::WaitUntil(_) => None,
    }
}

/// Returns the earlier of `wait` and the time until which the agent waits.
fn wait_of(wait: Instant, ticked: &StunAgentPollRet) -> Instant
    ensures { result ≡ wait_of wait ticked.now }
{
    match ticked {
        StunAgentPollRet::WaitUntil(time) => wait.min(*time),
        StunAgentPollRet::TransactionTimedOut(_) | StunAgentPollRet::TransactionCancelled(_) => {
            wait
        }
    }
}

/// Returns a wait until `wait`, or until `now` if a transaction has ended.
fn waits_until(ended: &Option<TransactionId>, now: Instant, wait: Instant) -> TurnPollRet
    ensures { result ≡ waits_until ended.now now wait }
{
    match ended {
        Some(_) => TurnPollRet::WaitUntil(now),
        None => TurnPollRet::WaitUntil(wait),
    }
}

/// Returns the result for a client with these allocations: `Closed` if there are none, else a wait.
fn answer_of(
    allocations: &[Allocation],
    ended: &Option<TransactionId>,
    now: Instant,
    wait: Instant,
) -> TurnPollRet
    ensures { result ≡ answer_of allocations.now ended.now now wait }
{
    if allocations.is_empty() {
        TurnPollRet::Closed
    } else {
        waits_until(ended, now, wait.max(now))
    }
}

/// Does the timed work that is due at `now`, and returns what the caller has to do next.
///
/// 1. If an event is queued (drain `poll_event`) or a reply to the server is queued (drain
///    `poll_transmit`), returns `WaitUntil(now)` and does nothing else.
/// 2. Drops at most one request that has ended without a response. A dropped ALLOCATE ends the
///    client.
/// 3. If a connection waits for a socket that has not been requested from the caller, returns
///    `AllocateTcpSocket` for the first one and does nothing else. What the dropped request asked
///    for stays as it is.
/// 4. Removes the allocations, permissions and channels that have expired, the connections that
///    were not bound in time, and the new permission, channel or connection that the dropped
///    request asked for. In each allocation, one call expires at most one channel, and drops at
///    most one connection that the server announced by the request that ended.
///
/// The result is then
///
/// - `TcpClose` if there is a socket to close that has not been reported: the first; each is
///   reported once;
/// - `Closed` if the client has ended or has no allocation left;
/// - otherwise `WaitUntil`, with the time until which there is nothing to do, at most 9999 seconds
///   from now. It is `now` if a request has ended.
///
/// A client that has ended returns `Closed` only, even if there are sockets to close.
///
/// `quiet` is a span in which nothing is due of what the client holds, if one is known. A call in
/// it doesn't look at what the client holds, whose size then costs no time. Any other call that does
/// sets `quiet` to `None`.
///
/// # Errors
///
/// - `NoMemory`: a memory allocation failed, and the client has failed. Memory is needed only if no
///   event and no reply is queued, no socket is requested, and there is something to report: an
///   ALLOCATE ended without a response; the request for a permission, a channel or a connection
///   did; a permission or a channel expired; or a connection is removed.
pub fn poll(protocol: &mut Protocol, quiet: &mut Option<Quiet>, now: Instant) -> TurnPollRet
    requires known { IfSome quiet.old (IsQuiet protocol.old) }
    ensures polled { IsPolled protocol.old now result protocol.new }
    ensures known { IfSome quiet.new (IsQuiet protocol.new) }
{
    let events = protocol.events.len();
    if events > 0 {
        return TurnPollRet::WaitUntil(now);
    }
    if has_answer(&protocol.queue) {
        return TurnPollRet::WaitUntil(now);
    }
    match poll_agent(protocol, quiet, now) {
        Ok(answer) => answer,
        Err(NoMemory) => {
            *quiet = None;
            protocol.fail(events);
            TurnPollRet::NoMemory
        }
    }
}

/// Returns the earlier of `wait` and the time at which the first message of the queue may be sent.
fn wait_to_send(protocol: &Protocol, now: Instant, wait: Instant) -> Instant
    ensures { result
        ≡ wait_to_send (pace_of protocol.now) protocol.now.last_send protocol.now.queue now wait }
{
    match (protocol.queue.head(), protocol.last_send) {
        (None, _) => wait,
        (Some(_), None) => now,
        (Some(_), Some(last)) => wait.min(next_send(protocol.pace, last)),
    }
}

/// Returns the earliest time at which another message may be sent.
pub(crate) fn ready_after(protocol: &Protocol, now: Instant) -> Instant
    ensures { result ≡ ready_after (pace_of protocol.now) protocol.now.last_send now }
{
    match protocol.last_send {
        Some(last) => next_send(protocol.pace, last).max(now),
        None => now,
    }
}

/// Polls the agent, then the client. No event and no reply is queued.
fn poll_agent(
    protocol: &mut Protocol,
    quiet: &mut Option<Quiet>,
    now: Instant,
) -> Result<TurnPollRet, NoMemory>
    requires known { IfSome quiet.old (IsQuiet protocol.old) }
    ensures ok { IfOk result (λ answer. IsAgentPolled protocol.old now answer protocol.new) }
    ensures named { IfOk result (λ answer. answer ≢ TurnPollRet.NoMemory) }
    ensures err { OnErr result (IsUnderWay protocol.old protocol.new) }
    ensures memory { OnErr result (HasToReport protocol.old now) }
    ensures known { IfOk result (λ _. IfSome quiet.new (IsQuiet protocol.new)) }
{
    let wait = wait_to_send(protocol, now, longest_wait(now));
    let ticked = protocol.agent.poll(now);
    let ended = ended_of(&ticked);
    poll_phase(protocol, quiet, &ended, wait_of(wait, &ticked), now)
}

/// Polls the client after its agent. `ended` is the transaction that ended, `wait` the wait so far.
fn poll_phase(
    protocol: &mut Protocol,
    quiet: &mut Option<Quiet>,
    ended: &Option<TransactionId>,
    wait: Instant,
    now: Instant,
) -> Result<TurnPollRet, NoMemory>
    requires known { IfSome quiet.old (IsQuiet protocol.old) }
    ensures ok { IfOk result (λ answer.
        IsPolledIn protocol.old.phase ended.now wait protocol.old now answer protocol.new) }
    ensures named { IfOk result (λ answer. answer ≢ TurnPollRet.NoMemory) }
    ensures err { OnErr result (IsUnderWay protocol.old protocol.new) }
    ensures memory { OnErr result
        (HasToReportIn protocol.old.phase ended.now protocol.old now) }
    ensures known { IfOk result (λ _. IfSome quiet.new (IsQuiet protocol.new)) }
{
    match &protocol.phase {
        Phase::Initial => Ok(TurnPollRet::WaitUntil(now)),
        Phase::Ended => Ok(TurnPollRet::Closed),
        Phase::InitialSent(numbers) | Phase::Authenticating(numbers) => {
            if is_among(ended, numbers.as_slice()) {
                *quiet = None;
                end(protocol)?;
                return Ok(TurnPollRet::Closed);
            }
            Ok(waits_until(ended, now, wait))
        }
        Phase::Authenticated => poll_standing(protocol, quiet, ended, wait, now),
    }
}

/// Requests a socket from the caller for the first connection that waits for one and for which none
/// was requested (RFC 6062, section 4.3).
fn ask_socket(protocol: &mut Protocol) -> Option<TurnPollRet>
    ensures given { result
        ≡ option_map (socket_for protocol.old) (unasked protocol.old.allocations) }
    ensures after { IfSome result (λ _. protocol.new ≡ after_asking protocol.old) }
    ensures none { IfNone result (protocol.new ≡ protocol.old) }
{
    // Proof only: makes the type of the agent's transaction IDs known to the checker.
    let _none: Option<TransactionId> = None;
    let first = ask_first(protocol.allocations.as_mut_slice())?;
    Some(TurnPollRet::AllocateTcpSocket {
        id: first.connection,
        socket: Socket5Tuple {
            transport: protocol.agent.transport(),
            from: protocol.agent.local_addr(),
            to: protocol.server,
        },
        peer_addr: first.peer,
    })
}

/// Returns the result in a span in which nothing is due, if no transaction has ended: the earlier of
/// `wait` and the end of the span. Returns `None` if the allocations have to be looked at.
fn answer_quietly(
    protocol: &Protocol,
    quiet: &Option<Quiet>,
    ended: &Option<TransactionId>,
    wait: Instant,
    now: Instant,
) -> Option<TurnPollRet>
    requires known { IfSome quiet.now (IsQuiet protocol.now) }
    ensures ok { IfSome result (λ answer.
        IsPolledStanding ended.now wait protocol.now now answer protocol.now) }
    ensures named { IfSome result (λ answer. answer ≢ TurnPollRet.NoMemory) }
{
    let Some(span) = quiet else {
        return None;
    };
    let None = ended else {
        return None;
    };
    let allocations = protocol.allocations.as_slice();
    if !span.covers(now) || !span.reaches(wait) {
        return None;
    }
    if protocol.closing.len() > 0 || allocations.is_empty() {
        return None;
    }
    Some(TurnPollRet::WaitUntil(sooner(wait, span.until, now)))
}

/// Returns the earlier of `wait` and `until`, but not a time before `now`.
fn sooner(wait: Instant, until: Instant, now: Instant) -> Instant
    ensures { result ≡ max (min wait until) now }
{
    wait.min(until).max(now)
}

/// Does the timed work of what the server has allocated: nothing in a span in which nothing is due.
/// Otherwise requests a socket from the caller if one is to be requested, else goes over the
/// allocations.
fn poll_standing(
    protocol: &mut Protocol,
    quiet: &mut Option<Quiet>,
    ended: &Option<TransactionId>,
    wait: Instant,
    now: Instant,
) -> Result<TurnPollRet, NoMemory>
    requires known { IfSome quiet.old (IsQuiet protocol.old) }
    ensures ok { IfOk result (λ answer.
        IsPolledStanding ended.now wait protocol.old now answer protocol.new) }
    ensures named { IfOk result (λ answer. answer ≢ TurnPollRet.NoMemory) }
    ensures err { OnErr result (IsUnderWay protocol.old protocol.new) }
    ensures memory { OnErr result ((unasked protocol.old.allocations ≡ None)
        × (all_failures ended.now now (left ended.now now protocol.old) ≢ [])) }
    ensures known { IfOk result (λ _. IfSome quiet.new (IsQuiet protocol.new)) }
{
    if let Some(answer) = answer_quietly(protocol, quiet, ended, wait, now) {
        return Ok(answer);
    }
    *quiet = None;
    if let Some(answer) = ask_socket(protocol) {
        return Ok(answer);
    }
    poll_allocations(protocol, ended, wait, now)
}

/// Returns `TcpClose` for the first socket that is to be closed, or `answer` if there is none.
fn close_first(protocol: &mut Protocol, answer: TurnPollRet) -> TurnPollRet
    ensures { IsClosing protocol.old.closing answer protocol.old result protocol.new }
{
    match protocol.closing.pop_front() {
        Some(local_addr) => TurnPollRet::TcpClose {
            local_addr,
            remote_addr: protocol.server,
        },
        None => answer,
    }
}

/// Expires what is due at `now` in every allocation and its permissions, channels and connections,
/// queues the events for it, and returns the result of `poll`.
fn poll_allocations(
    protocol: &mut Protocol,
    ended: &Option<TransactionId>,
    wait: Instant,
    now: Instant,
) -> Result<TurnPollRet, NoMemory>
    ensures ok { IfOk result (λ answer.
        AreAllocationsPolled ended.now wait protocol.old now answer protocol.new) }
    ensures named { IfOk result (λ answer. answer ≢ TurnPollRet.NoMemory) }
    ensures err { OnErr result (IsUnderWay protocol.old protocol.new) }
    ensures memory { OnErr result
        (all_failures ended.now now (left ended.now now protocol.old) ≢ []) }
{
    let ready = ready_after(protocol, now);
    let next = protocol.allocations.poll(ended, ready, now, wait);
    let allocations = protocol.allocations.as_slice();
    let sooner = permissions::earliest(allocations, ended, ready, now, next);
    let earliest = expire::earliest(allocations, ended, ready, now, sooner);
    let first = joined::earliest(allocations, earliest);
    let answer = answer_of(allocations, ended, now, first);
    reporting::report_failures(&mut protocol.events, allocations, ended, now)?;
    joined::close_all_gone(&mut protocol.closing, allocations, ended, now)?;
    reporting::poll(protocol.allocations.as_mut_slice(), ended, now)?;
    Ok(close_first(protocol, answer))
}

//! What a client sends.

ghost use Rattle.std.specs.Prelude.{◌≡◌, ◌≢◌, [], ℕ, false, IfOk, IfSome, MatchOption, find, OnErr, OnOk, Some, None};
ghost use Rattle.std.specs.Option.{option_map};
ghost use Rattle.stun_proto_agent.specs.Sending.{NoneDue};
ghost use Rattle.turn_client_proto_messages.specs.Requests.{request_text};
ghost use Rattle.turn_client_proto_messages.specs.Waiting.{is_answer};
ghost use Rattle.turn_client_proto_timers.specs.Drawing.{HasToBegin, HasToRepeat, HasToSend, IsAnswerSent, IsStarted};
ghost use Rattle.turn_client_proto_timers.specs.Drawing.{IsChannelRenewalSent, IsTransmitted, IsFirstSent, IsFreshSent};
ghost use Rattle.turn_client_proto_timers.specs.Drawing.{IsNextSent, IsRefreshSent, IsRenewalSent};
ghost use Rattle.turn_client_proto_timers.specs.Drawing.{IsRenewed, IsRepeated, after_sending};
ghost use Rattle.turn_client_proto_timers.specs.Drawing.{first_allocated, first_bound, first_permitted};
ghost use Rattle.turn_client_proto_timers.specs.Drawing.{first_refreshed, is_resting, sent_at_once};
ghost use Rattle.turn_client_proto_api.specs.Sent.{sent_of};
ghost use Rattle.turn_client_proto_timers.specs.Polling.{pace_of};
ghost use Rattle.turn_client_proto_timers.specs.Quiet.{IsQuiet};
ghost use Rattle.turn_client_proto_timers.specs.Wanting.{wanted};
ghost use Rattle.turn_client_proto_core.specs.Ending.{HasFailed, IsUnderWay};
ghost use Rattle.turn_client_proto_core.specs.Numbering.{IsNextNumber, IsUnused};

use crate::answers::take_answer;
use crate::polling::next_send;
use crate::quiet::Quiet;
use crate::wanting::{Want, refresh_first, renew_channel_first, renew_first, wanted};
use std::net::{IpAddr, SocketAddr};
use stun_proto_agent::error::StunError;
use stun_types_base::data::{Data, DataOwned};
use stun_types_base::instant::Instant;
use stun_types_base::list::ListOf;
use stun_types_base::memory::NoMemory;
use stun_types_base::transmit::Transmit;
use stun_types_base::transport::TransportType;
use stun_types_wire::transaction::TransactionId;
use turn_client_proto_allocation::channel::ChannelId;
use turn_client_proto_allocation::refresh::PendingRefresh;
use turn_client_proto_core::protocol::{Phase, Protocol};
use turn_client_proto_messages::laws::proof_requests_are_lawful;
use turn_client_proto_messages::peer_ips::PeerIps;
use turn_client_proto_messages::request::TurnRequest;

/// Returns the message to send at `now`, if there is one. Call it until it returns `None`. The
/// order is:
///
/// 1. A request whose retransmission is due.
/// 2. Within the pace after the last message (`TurnConfig::set_pace`, 50 ms), only the oldest queued
///    reply to the server.
/// 3. After that, the oldest message of the queue.
/// 4. The first ALLOCATE, or a renewal that is due, for the first allocation that has one: a
///    REFRESH of the allocation, then a CHANNEL_BIND for a channel, then a CREATE_PERMISSION for a
///    permission.
///
/// `quiet` is a span in which nothing is due of what the client holds, if one is known: in it
/// nothing is renewed, and the call doesn't look at what the client holds. Only if the result is
/// `None` it is still one afterwards.
///
/// # Errors
///
/// - `NoMemory`: a memory allocation failed, and the client has failed. Memory is needed only for a
///   request that is retransmitted or made by this call, not for a queued message or for `None`.
pub fn poll_transmit(
    protocol: &mut Protocol,
    quiet: &Option<Quiet>,
    now: Instant,
) -> Result<Option<Transmit<Data<'static>>>, NoMemory>
    requires known { IfSome quiet.now (IsQuiet protocol.old) }
    ensures ok { IfOk result (λ answer.
        IsTransmitted protocol.old now (option_map sent_of answer) protocol.new) }
    ensures err { OnErr result (HasFailed protocol.old protocol.new) }
    ensures memory { OnErr result (HasToSend protocol.old now) }
{
    let events = protocol.events.len();
    match draw(protocol, quiet, now) {
        Ok(answer) => Ok(answer),
        Err(e) => {
            protocol.fail(events);
            Err(e)
        }
    }
}

/// Returns the message to send for `poll_transmit`. If a memory allocation fails, the client is
/// left in an intermediate state (`IsUnderWay`).
fn draw(
    protocol: &mut Protocol,
    quiet: &Option<Quiet>,
    now: Instant,
) -> Result<Option<Transmit<Data<'static>>>, NoMemory>
    requires known { IfSome quiet.now (IsQuiet protocol.old) }
    ensures ok { IfOk result (λ answer.
        IsTransmitted protocol.old now (option_map sent_of answer) protocol.new) }
    ensures err { OnErr result (IsUnderWay protocol.old protocol.new) }
    ensures memory { OnErr result (HasToSend protocol.old now) }
{
    if let Some(again) = draw_again(protocol, now)? {
        return Ok(Some(again));
    }
    if is_resting(protocol, now) {
        return Ok(draw_answer(protocol));
    }
    draw_next(protocol, quiet, now)
}

/// Returns a request whose retransmission is due.
fn draw_again(
    protocol: &mut Protocol,
    now: Instant,
) -> Result<Option<Transmit<Data<'static>>>, NoMemory>
    ensures ok { IfOk result (λ answer. MatchOption answer
        (NoneDue protocol.old.agent now × (protocol.new ≡ protocol.old))
        (λ sent. IsRepeated protocol.old now (sent_of sent) protocol.new)) }
    ensures err { OnErr result (IsUnderWay protocol.old protocol.new) }
    ensures memory { OnErr result (HasToRepeat protocol.old now) }
{
    let Some(due) = protocol.agent.poll_transmit(now) else {
        return Ok(None);
    };
    let bytes = Vec::from_slice(protocol.alloc, due.bytes)?;
    let again = transmit(bytes, due.transport, due.from, due.to);
    protocol.last_send = Some(now);
    Ok(Some(again))
}

/// Returns whether the last message was sent so recently that no other one may be sent yet.
fn is_resting(protocol: &Protocol, now: Instant) -> bool
    ensures { result ≡ is_resting (pace_of protocol.now) protocol.now.last_send now }
{
    match protocol.last_send {
        Some(last) => now < next_send(protocol.pace, last),
        None => false,
    }
}

/// Returns the first queued reply to the server. Sending it doesn't delay other messages.
fn draw_answer(protocol: &mut Protocol) -> Option<Transmit<Data<'static>>>
    ensures { IsAnswerSent (find is_answer protocol.old.queue) protocol.old
        (option_map sent_of result) protocol.new }
{
    let queued = take_answer(&mut protocol.queue)?;
    let transport = protocol.agent.transport();
    let from = queued.from();
    Some(transmit(queued.into_bytes(), transport, from, protocol.server))
}

/// Returns the first message of the queue, or one that is made now if the queue is empty.
fn draw_next(
    protocol: &mut Protocol,
    quiet: &Option<Quiet>,
    now: Instant,
) -> Result<Option<Transmit<Data<'static>>>, NoMemory>
    requires known { IfSome quiet.now (IsQuiet protocol.old) }
    requires free { is_resting (pace_of protocol.old) protocol.old.last_send now ≡ false }
    ensures ok { IfOk result (λ answer.
        IsNextSent protocol.old.queue protocol.old now (option_map sent_of answer) protocol.new) }
    ensures err { OnErr result (IsUnderWay protocol.old protocol.new) }
    ensures memory { OnErr result ((protocol.old.queue ≡ [])
        × HasToBegin protocol.old.phase protocol.old.allocations now) }
{
    match protocol.queue.pop_front() {
        Some(queued) => {
            let transport = protocol.agent.transport();
            let from = queued.from();
            let sent = transmit(queued.into_bytes(), transport, from, protocol.server);
            protocol.last_send = Some(now);
            Ok(Some(sent))
        }
        None => begin(protocol, quiet, now),
    }
}

/// Returns a message that is made now: the first ALLOCATE, or a renewal that is due.
fn begin(
    protocol: &mut Protocol,
    quiet: &Option<Quiet>,
    now: Instant,
) -> Result<Option<Transmit<Data<'static>>>, NoMemory>
    requires known { IfSome quiet.now (IsQuiet protocol.old) }
    requires free { is_resting (pace_of protocol.old) protocol.old.last_send now ≡ false }
    ensures ok { IfOk result (λ answer.
        IsStarted protocol.old.phase protocol.old now (option_map sent_of answer) protocol.new) }
    ensures err { OnErr result (IsUnderWay protocol.old protocol.new) }
    ensures memory { OnErr result
        (HasToBegin protocol.old.phase protocol.old.allocations now) }
{
    match &protocol.phase {
        Phase::Initial => Ok(Some(send_first(protocol, now)?)),
        Phase::Authenticated => renew(protocol, quiet, now),
        Phase::InitialSent(_) | Phase::Authenticating(_) | Phase::Ended => Ok(None),
    }
}

/// Returns what is to be renewed: of nothing in a span in which nothing is due.
fn want_now(protocol: &Protocol, quiet: &Option<Quiet>, now: Instant) -> Option<Want>
    requires known { IfSome quiet.now (IsQuiet protocol.now) }
    requires free { is_resting (pace_of protocol.now) protocol.now.last_send now ≡ false }
    ensures { result ≡ wanted now protocol.now.allocations }
{
    match quiet {
        Some(span) if span.covers(now) => None,
        _ => wanted(protocol.allocations.as_slice(), now),
    }
}

/// Returns the renewal that is due: a REFRESH for an allocation, a CHANNEL_BIND for a channel, or a
/// CREATE_PERMISSION for a permission.
fn renew(
    protocol: &mut Protocol,
    quiet: &Option<Quiet>,
    now: Instant,
) -> Result<Option<Transmit<Data<'static>>>, NoMemory>
    requires known { IfSome quiet.now (IsQuiet protocol.old) }
    requires free { is_resting (pace_of protocol.old) protocol.old.last_send now ≡ false }
    ensures ok { IfOk result (λ answer. IsRenewed (wanted now protocol.old.allocations)
        protocol.old now (option_map sent_of answer) protocol.new) }
    ensures err { OnErr result (IsUnderWay protocol.old protocol.new) }
    ensures memory { OnErr result (wanted now protocol.old.allocations ≢ None) }
{
    let Some(want) = want_now(protocol, quiet, now) else {
        return Ok(None);
    };
    match want {
        Want::Refresh => Ok(Some(send_refresh(protocol, now)?)),
        Want::Channel(channel, peer) => {
            Ok(Some(send_channel_renewal(protocol, channel, peer, now)?))
        }
        Want::Permission(ip) => Ok(Some(send_renewal(protocol, ip, now)?)),
    }
}

/// Sends the first ALLOCATE.
fn send_first(protocol: &mut Protocol, now: Instant) -> Result<Transmit<Data<'static>>, NoMemory>
    ensures ok { IfOk result (λ sent. IsFirstSent protocol.old now (sent_of sent) protocol.new) }
    ensures err { OnErr result (IsUnderWay protocol.old protocol.new) }
{
    let number = protocol.generate_id()?;
    let request = TurnRequest::FirstAllocate(
        protocol.allocates,
        protocol.families,
        protocol.options,
    );
    proof_requests_are_lawful(&request);
    let sent = send_at_once(protocol, number, request, now)?;
    let mut numbers = ListOf::new(protocol.alloc);
    numbers.push(number)?;
    protocol.phase = Phase::InitialSent(numbers);
    protocol.last_send = Some(now);
    Ok(sent)
}

/// Sends a REFRESH for the first allocation for which something is to be sent.
fn send_refresh(protocol: &mut Protocol, now: Instant) -> Result<Transmit<Data<'static>>, NoMemory>
    ensures ok { IfOk result (λ sent. IsRefreshSent protocol.old now (sent_of sent) protocol.new) }
    ensures err { OnErr result (IsUnderWay protocol.old protocol.new) }
{
    let number = protocol.generate_id()?;
    let lifetime = protocol.options.lifetime;
    let request = TurnRequest::Refresh(lifetime);
    proof_requests_are_lawful(&request);
    let sent = send_at_once(protocol, number, request, now)?;
    let refresh = PendingRefresh { number, lifetime };
    refresh_first(protocol.allocations.as_mut_slice(), now, &refresh)?;
    protocol.last_send = Some(now);
    Ok(sent)
}

/// Sends a CREATE_PERMISSION for an address, which renews the first permission that is due.
fn send_renewal(
    protocol: &mut Protocol,
    ip: IpAddr,
    now: Instant,
) -> Result<Transmit<Data<'static>>, NoMemory>
    ensures ok { IfOk result (λ sent.
        IsRenewalSent protocol.old ip now (sent_of sent) protocol.new) }
    ensures err { OnErr result (IsUnderWay protocol.old protocol.new) }
{
    let number = protocol.generate_id()?;
    let request = TurnRequest::CreatePermission(PeerIps::one(&ip));
    proof_requests_are_lawful(&request);
    let sent = send_at_once(protocol, number, request, now)?;
    renew_first(protocol.allocations.as_mut_slice(), now, number)?;
    protocol.last_send = Some(now);
    Ok(sent)
}

/// Sends a CHANNEL_BIND for a channel number and a peer, which renews the first channel that is
/// due.
fn send_channel_renewal(
    protocol: &mut Protocol,
    channel: ChannelId,
    peer: SocketAddr,
    now: Instant,
) -> Result<Transmit<Data<'static>>, NoMemory>
    ensures ok { IfOk result (λ sent.
        IsChannelRenewalSent protocol.old channel peer now (sent_of sent) protocol.new) }
    ensures err { OnErr result (IsUnderWay protocol.old protocol.new) }
{
    let number = protocol.generate_id()?;
    let request = TurnRequest::ChannelBind(channel.number(), peer);
    proof_requests_are_lawful(&request);
    let sent = send_at_once(protocol, number, request, now)?;
    renew_channel_first(protocol.allocations.as_mut_slice(), now, number)?;
    protocol.last_send = Some(now);
    Ok(sent)
}

/// Builds a request with this transaction ID that is sent at once; it is outstanding from now on.
/// With `NoMemory`, nothing has changed.
fn send_at_once(
    protocol: &mut Protocol,
    transaction_id: TransactionId,
    request: TurnRequest<'_>,
    now: Instant,
) -> Result<Transmit<Data<'static>>, NoMemory>
    requires unused { IsUnused protocol.old.agent transaction_id }
    ensures sent { IfOk result (λ sent. sent_of sent ≡ record {
      bytes = request_text protocol.old.auth request.entry transaction_id;
      transport = protocol.old.agent.transport;
      from = protocol.old.agent.here;
      to = protocol.old.server;
    }) }
    ensures ok { OnOk result (protocol.new ≡ sent_at_once protocol.old request.entry
        transaction_id now) }
    ensures err { OnErr result (protocol.new ≡ protocol.old) }
{
    let bytes = protocol
        .auth
        .write_request(protocol.alloc, transaction_id, request)?;
    match protocol
        .agent
        .send_request(bytes.as_slice(), protocol.server, now)
    {
        Ok(_) => {}
        Err(e) => match e {
            StunError::NoMemory => return Err(NoMemory),
            // The bytes are a request, and its transaction ID isn't outstanding (`unused`).
            _ => unreachable!(),
        },
    }
    let transport = protocol.agent.transport();
    let from = protocol.agent.local_addr();
    Ok(transmit(bytes, transport, from, protocol.server))
}

/// Returns a transmit that owns its bytes.
fn transmit(
    bytes: Vec<u8>,
    transport: TransportType,
    from: SocketAddr,
    to: SocketAddr,
) -> Transmit<Data<'static>>
    ensures { sent_of result ≡ record {
      bytes = bytes.items;
      transport = transport;
      from = from;
      to = to;
    } }
{
    let owned = DataOwned::from(bytes.into_boxed_slice());
    Transmit::new(Data::Owned(owned), transport, from, to)
}

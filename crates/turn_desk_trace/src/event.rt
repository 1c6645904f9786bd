//! Event lines: what happens to the client or to the server core.

ghost use Rattle.std.specs.Prelude.{◌≡◌, ℕ, Err, IfOk, MatchOption, Option, map};
ghost use Rattle.std.specs.declared.net.ip_addr.IpAddr.{IpAddr};
ghost use Rattle.std.specs.declared.net.socket_addr.SocketAddr.{SocketAddr};
ghost use Rattle.stun_types_base.specs.declared.transport.TransportType.{TransportType};
ghost use Rattle.turn_desk_event.specs.declared.event.ClientCall.{ClientCall};
ghost use Rattle.turn_desk_event.specs.declared.event.Event.{Event};
ghost use Rattle.turn_desk_trace.specs.Event.{IsBind, IsCall, IsEvent, IsTime, IsNoTime, IsPermission, IsPermit, IsPlacedIp, IsPlacedSocket, IsSend, IsToClient, IsToClientFrom, IsToClientOf, IsToDesk, IsToDeskFrom, IsToDeskOf, IsConnect, IsAllocated, IsClosed, IsSocket};

use crate::address::{read_address, read_ip, read_ips, read_transport};
use crate::bytes::read_bytes;
use crate::decision::read_decision;
use crate::named::Named;
use crate::number::{read_seed, read_u32, read_u64};
use line_io::refusal::LineError;
use std::alloc::Global;
use std::net::{IpAddr, SocketAddr};
use stun_types_base::instant::Instant;
use stun_types_base::transport::TransportType;
use turn_desk_event::event::{ClientCall, Event};

/// Reads an event. `answers` are the results of the event lines so far.
///
/// # Errors
///
/// - `Bad`: the words are not an event.
/// - `NoMemory`: an allocation failed.
pub fn read_event(alloc: Global, words: &[&str], answers: &[Named]) -> Result<Event, LineError>
    ensures ok { IfOk result (IsEvent answers.now (map (λ x. x.now) words.now)) }
    ensures bad { result ≡ Err LineError.Bad → (event : Event)
        → ¬ (IsEvent answers.now (map (λ x. x.now) words.now) event) }
{
    match words {
        ["todesk", rest @ ..] => read_to_desk(alloc, rest, answers),
        ["toclient", rest @ ..] => read_to_client(alloc, rest, answers),
        ["send", rest @ ..] => match read_send(alloc, rest, answers) {
            Ok((call, now)) => Ok(Event::Call(call, now)),
            Err(error) => Err(error),
        },
        ["permit", rest @ ..] => match read_permit(alloc, rest) {
            Ok((call, now)) => Ok(Event::Call(call, now)),
            Err(error) => Err(error),
        },
        ["draw", rest @ ..] => match read_time(rest) {
            Some(now) => Ok(Event::Draw(now)),
            None => Err(LineError::Bad),
        },
        [name, rest @ ..] => match read_call(name, rest) {
            Some((call, now)) => Ok(Event::Call(call, now)),
            None => Err(LineError::Bad),
        },
        _ => Err(LineError::Bad),
    }
}

/// Reads the words after `todesk`.
fn read_to_desk(alloc: Global, words: &[&str], answers: &[Named]) -> Result<Event, LineError>
    ensures ok { IfOk result (IsToDesk answers.now (map (λ x. x.now) words.now)) }
    ensures bad { result ≡ Err LineError.Bad → (event : Event)
        → ¬ (IsToDesk answers.now (map (λ x. x.now) words.now) event) }
{
    match words {
        [now, from, rest @ ..] => read_to_desk_from(alloc, now, from, rest, answers),
        _ => Err(LineError::Bad),
    }
}

/// Reads the words after the time and the source of a `todesk` line.
fn read_to_desk_from(
    alloc: Global,
    now: &str,
    from: &str,
    words: &[&str],
    answers: &[Named],
) -> Result<Event, LineError>
    ensures ok { IfOk result (IsToDeskFrom answers.now now.now from.now
        (map (λ x. x.now) words.now)) }
    ensures bad { result ≡ Err LineError.Bad → (event : Event)
        → ¬ (IsToDeskFrom answers.now now.now from.now (map (λ x. x.now) words.now) event) }
{
    match words {
        [bytes, seed, decision @ ..] => {
            to_desk(alloc, now, from, bytes, seed, decision, answers)
        }
        _ => Err(LineError::Bad),
    }
}

/// Reads the event of a `todesk` line, one word for each field; the last words are the decision.
fn to_desk(
    alloc: Global,
    now: &str,
    from: &str,
    bytes: &str,
    seed: &str,
    decision: &[&str],
    answers: &[Named],
) -> Result<Event, LineError>
    ensures ok { IfOk result (IsToDeskOf answers.now now.now from.now bytes.now seed.now
        (map (λ x. x.now) decision.now)) }
    ensures bad { result ≡ Err LineError.Bad → (event : Event)
        → ¬ (IsToDeskOf answers.now now.now from.now bytes.now seed.now
        (map (λ x. x.now) decision.now) event) }
{
    let Some(now) = read_u64(now) else {
        return Err(LineError::Bad);
    };
    let Some(from) = read_address(from) else {
        return Err(LineError::Bad);
    };
    let Some(seed) = read_seed(seed) else {
        return Err(LineError::Bad);
    };
    let decision = match read_decision(alloc, decision) {
        Ok(decision) => decision,
        Err(error) => return Err(error),
    };
    match read_bytes(alloc, bytes, answers) {
        Ok(bytes) => Ok(Event::ToDesk {
            bytes,
            from,
            now: Instant::from_nanos(now),
            decision,
            seed,
        }),
        Err(error) => Err(error),
    }
}

/// Reads the words after `toclient`.
fn read_to_client(alloc: Global, words: &[&str], answers: &[Named]) -> Result<Event, LineError>
    ensures ok { IfOk result (IsToClient answers.now (map (λ x. x.now) words.now)) }
    ensures bad { result ≡ Err LineError.Bad → (event : Event)
        → ¬ (IsToClient answers.now (map (λ x. x.now) words.now) event) }
{
    match words {
        [now, from, rest @ ..] => read_to_client_from(alloc, now, from, rest, answers),
        _ => Err(LineError::Bad),
    }
}

/// Reads the words after the time and the source of a `toclient` line.
fn read_to_client_from(
    alloc: Global,
    now: &str,
    from: &str,
    words: &[&str],
    answers: &[Named],
) -> Result<Event, LineError>
    ensures ok { IfOk result (IsToClientFrom answers.now now.now from.now
        (map (λ x. x.now) words.now)) }
    ensures bad { result ≡ Err LineError.Bad → (event : Event)
        → ¬ (IsToClientFrom answers.now now.now from.now (map (λ x. x.now) words.now) event) }
{
    match words {
        [to, bytes] => to_client(alloc, now, from, to, bytes, answers),
        _ => Err(LineError::Bad),
    }
}

/// Reads the event of a `toclient` line, one word for each of its four fields.
fn to_client(
    alloc: Global,
    now: &str,
    from: &str,
    to: &str,
    bytes: &str,
    answers: &[Named],
) -> Result<Event, LineError>
    ensures ok { IfOk result (IsToClientOf answers.now now.now from.now to.now bytes.now) }
    ensures bad { result ≡ Err LineError.Bad → (event : Event)
        → ¬ (IsToClientOf answers.now now.now from.now to.now bytes.now event) }
{
    let Some(now) = read_u64(now) else {
        return Err(LineError::Bad);
    };
    let Some(from) = read_address(from) else {
        return Err(LineError::Bad);
    };
    let Some(to) = read_address(to) else {
        return Err(LineError::Bad);
    };
    match read_bytes(alloc, bytes, answers) {
        Ok(bytes) => Ok(Event::ToClient {
            bytes,
            from,
            to,
            now: Instant::from_nanos(now),
        }),
        Err(error) => Err(error),
    }
}

/// Reads the words after `send`. Returns the call and its time.
fn read_send(
    alloc: Global,
    words: &[&str],
    answers: &[Named],
) -> Result<(ClientCall, Instant), LineError>
    ensures ok { IfOk result (λ called. IsSend answers.now (map (λ x. x.now) words.now)
        called.0 called.1) }
    ensures bad { result ≡ Err LineError.Bad → (call : ClientCall) (time : ℕ)
        → ¬ (IsSend answers.now (map (λ x. x.now) words.now) call time) }
{
    let [now, transport, to, bytes] = words else {
        return Err(LineError::Bad);
    };
    let Some(now) = read_u64(now) else {
        return Err(LineError::Bad);
    };
    let Some(transport) = read_transport(transport) else {
        return Err(LineError::Bad);
    };
    let Some(to) = read_address(to) else {
        return Err(LineError::Bad);
    };
    match read_bytes(alloc, bytes, answers) {
        Ok(bytes) => Ok((
            ClientCall::SendTo(transport, to, bytes),
            Instant::from_nanos(now),
        )),
        Err(error) => Err(error),
    }
}

/// Reads the words after `permit`: a time, a transport, and IP addresses separated by commas.
/// Returns the call and its time.
fn read_permit(alloc: Global, words: &[&str]) -> Result<(ClientCall, Instant), LineError>
    ensures ok { IfOk result (λ called. IsPermit (map (λ x. x.now) words.now) called.0 called.1) }
    ensures bad { result ≡ Err LineError.Bad → (call : ClientCall) (time : ℕ)
        → ¬ (IsPermit (map (λ x. x.now) words.now) call time) }
{
    let [now, transport, ips] = words else {
        return Err(LineError::Bad);
    };
    let Some(now) = read_u64(now) else {
        return Err(LineError::Bad);
    };
    let Some(transport) = read_transport(transport) else {
        return Err(LineError::Bad);
    };
    match read_ips(alloc, ips) {
        Ok(ips) => Ok((
            ClientCall::CreatePermissions(transport, ips),
            Instant::from_nanos(now),
        )),
        Err(error) => Err(error),
    }
}

/// Reads any call of the client except `send` and `permit`, from its name and the words after it.
/// Returns the call and its time.
fn read_call(name: &str, words: &[&str]) -> Option<(ClientCall, Instant)>
    ensures { MatchOption result ((call : ClientCall) (time : ℕ)
        → ¬ (IsCall name.now (map (λ x. x.now) words.now) call time))
        (λ called. IsCall name.now (map (λ x. x.now) words.now) called.0 called.1) }
{
    match name {
        "poll" => Some((ClientCall::Poll, read_time(words)?)),
        "event" => Some((ClientCall::PollEvent, read_no_time(words)?)),
        "delete" => Some((ClientCall::Delete, read_time(words)?)),
        "permission" => {
            let (transport, ip, now) = read_permission(words)?;
            Some((ClientCall::CreatePermission(transport, ip), now))
        }
        "have" => {
            let (transport, ip) = read_placed_ip(words)?;
            Some((
                ClientCall::HavePermission(transport, ip),
                Instant::from_nanos(0),
            ))
        }
        "permissions" => {
            let (transport, relayed) = read_placed_socket(words)?;
            Some((
                ClientCall::Permissions(transport, relayed),
                Instant::from_nanos(0),
            ))
        }
        "bind" => {
            let (transport, peer, now) = read_bind(words)?;
            Some((ClientCall::BindChannel(transport, peer), now))
        }
        "channels" => Some((ClientCall::Channels, read_no_time(words)?)),
        "connect" => {
            let (peer, now) = read_connect(words)?;
            Some((ClientCall::TcpConnect(peer), now))
        }
        "socket" => {
            let (id, peer, local, now) = read_allocated(words)?;
            Some((ClientCall::AllocatedTcpSocket(id, peer, local), now))
        }
        "closed" => {
            let (local, remote, now) = read_closed(words)?;
            Some((ClientCall::TcpClosed(local, remote), now))
        }
        "connections" => Some((ClientCall::Connections, read_no_time(words)?)),
        "recv" => Some((ClientCall::PollRecv, read_time(words)?)),
        "error" => Some((ClientCall::ProtocolError, read_no_time(words)?)),
        "relayed" => Some((ClientCall::RelayedAddresses, read_no_time(words)?)),
        _ => None,
    }
}

/// Reads the time of a call from a list of one word. Returns `None` for any other words.
fn read_time(words: &[&str]) -> Option<Instant>
    ensures { MatchOption result ((time : ℕ) → ¬ (IsTime (map (λ x. x.now) words.now) time))
        (IsTime (map (λ x. x.now) words.now)) }
{
    match words {
        [now] => match read_u64(now) {
            Some(now) => Some(Instant::from_nanos(now)),
            None => None,
        },
        _ => None,
    }
}

/// Returns time 0, for a call that has no time argument. Returns `None` if a word is left.
fn read_no_time(words: &[&str]) -> Option<Instant>
    ensures { MatchOption result ((time : ℕ) → ¬ (IsNoTime (map (λ x. x.now) words.now) time))
        (IsNoTime (map (λ x. x.now) words.now)) }
{
    match words {
        [] => Some(Instant::from_nanos(0)),
        _ => None,
    }
}

/// Reads the words after `permission`: a time, a transport and an IP address.
fn read_permission(words: &[&str]) -> Option<(TransportType, IpAddr, Instant)>
    ensures { MatchOption result ((transport : TransportType) (ip : IpAddr) (time : ℕ)
        → ¬ (IsPermission (map (λ x. x.now) words.now) transport ip time))
        (λ read. IsPermission (map (λ x. x.now) words.now) read.0 read.1 read.2) }
{
    match words {
        [now, rest @ ..] => match (read_u64(now), read_placed_ip(rest)) {
            (Some(now), Some((transport, ip))) => Some((transport, ip, Instant::from_nanos(now))),
            _ => None,
        },
        _ => None,
    }
}

/// Reads the words after `bind`: a time, a transport and a transport address.
fn read_bind(words: &[&str]) -> Option<(TransportType, SocketAddr, Instant)>
    ensures { MatchOption result ((transport : TransportType) (peer : SocketAddr) (time : ℕ)
        → ¬ (IsBind (map (λ x. x.now) words.now) transport peer time))
        (λ read. IsBind (map (λ x. x.now) words.now) read.0 read.1 read.2) }
{
    match words {
        [now, rest @ ..] => match (read_u64(now), read_placed_socket(rest)) {
            (Some(now), Some((transport, peer))) => {
                Some((transport, peer, Instant::from_nanos(now)))
            }
            _ => None,
        },
        _ => None,
    }
}

/// Reads the words after `connect`: a time and a transport address.
fn read_connect(words: &[&str]) -> Option<(SocketAddr, Instant)>
    ensures { MatchOption result ((peer : SocketAddr) (time : ℕ)
        → ¬ (IsConnect (map (λ x. x.now) words.now) peer time))
        (λ read. IsConnect (map (λ x. x.now) words.now) read.0 read.1) }
{
    match words {
        [now, peer] => match (read_u64(now), read_address(peer)) {
            (Some(now), Some(peer)) => Some((peer, Instant::from_nanos(now))),
            _ => None,
        },
        _ => None,
    }
}

/// Reads the local address of a socket, or `none`.
fn read_socket(word: &str) -> Option<Option<SocketAddr>>
    ensures { MatchOption result ((here : Option SocketAddr) → ¬ (IsSocket word.now here))
        (IsSocket word.now) }
{
    match word {
        "none" => Some(None),
        _ => match read_address(word) {
            Some(here) => Some(Some(here)),
            None => None,
        },
    }
}

/// Reads the words after `socket`: a time, a connection ID, a peer and a socket.
fn read_allocated(words: &[&str]) -> Option<(u32, SocketAddr, Option<SocketAddr>, Instant)>
    ensures { MatchOption result
        ((id : ℕ) (peer : SocketAddr) (here : Option SocketAddr) (time : ℕ)
        → ¬ (IsAllocated (map (λ x. x.now) words.now) id peer here time))
        (λ read. IsAllocated (map (λ x. x.now) words.now) read.0 read.1 read.2 read.3) }
{
    match words {
        [now, id, peer, local] => {
            let now = Instant::from_nanos(read_u64(now)?);
            Some((read_u32(id)?, read_address(peer)?, read_socket(local)?, now))
        }
        _ => None,
    }
}

/// Reads the words after `closed`: a time, the local address and the remote address.
fn read_closed(words: &[&str]) -> Option<(SocketAddr, SocketAddr, Instant)>
    ensures { MatchOption result ((here there : SocketAddr) (time : ℕ)
        → ¬ (IsClosed (map (λ x. x.now) words.now) here there time))
        (λ read. IsClosed (map (λ x. x.now) words.now) read.0 read.1 read.2) }
{
    match words {
        [now, local, remote] => {
            let now = Instant::from_nanos(read_u64(now)?);
            Some((read_address(local)?, read_address(remote)?, now))
        }
        _ => None,
    }
}

/// Reads a transport and an IP address from the last two words of a line.
fn read_placed_ip(words: &[&str]) -> Option<(TransportType, IpAddr)>
    ensures { MatchOption result ((transport : TransportType) (ip : IpAddr)
        → ¬ (IsPlacedIp (map (λ x. x.now) words.now) transport ip))
        (λ read. IsPlacedIp (map (λ x. x.now) words.now) read.0 read.1) }
{
    match words {
        [transport, ip] => match (read_transport(transport), read_ip(ip)) {
            (Some(transport), Some(ip)) => Some((transport, ip)),
            _ => None,
        },
        _ => None,
    }
}

/// Reads a transport and a transport address from the last two words of a line.
fn read_placed_socket(words: &[&str]) -> Option<(TransportType, SocketAddr)>
    ensures { MatchOption result ((transport : TransportType) (socket : SocketAddr)
        → ¬ (IsPlacedSocket (map (λ x. x.now) words.now) transport socket))
        (λ read. IsPlacedSocket (map (λ x. x.now) words.now) read.0 read.1) }
{
    match words {
        [transport, socket] => match (read_transport(transport), read_address(socket)) {
            (Some(transport), Some(socket)) => Some((transport, socket)),
            _ => None,
        },
        _ => None,
    }
}

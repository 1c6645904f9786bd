//! The loop that drives a client: what it receives, what it sends, how long it waits, its events,
//! and what its user does in response.

ghost use Rattle.std.specs.Prelude.{◌≡◌, ◌≢◌, ◌≤◌, ◌^◌, [], IfOk};
ghost use Rattle.test_callers.specs.Driven.{HasTakenTurn};

use crate::line::Line;
use crate::print_hex;
use std::alloc::Global;
use std::net::{IpAddr, Ipv4Addr, SocketAddr};
use stun_proto::Instant;
use stun_types::{NoMemory, Transmit};
use turn_client_proto::api::{TurnConfig, TurnEvent, TurnPollRet, TurnRecvRet};
use turn_client_proto::prelude::{DelayedTransmitBuild, TurnClientApi};
use turn_client_proto::tcp::TurnClientTcp;
use turn_client_proto::types::TurnCredentials;
use turn_client_proto::udp::TurnClientUdp;

/// Does what is due for a client at `now`: sends what it has to send, polls it, and follows each
/// event, up to sending bytes to the peer. Requests that the events lead to are sent in the next
/// turn.
///
/// Call it again at once, unless it returns `Closed` or a wait until a later time. Unless it
/// returns a wait until `now`, no event is queued any more.
///
/// What it does with the client is a turn of a driver's loop, as a run of any simulation that has
/// the client (`HasTakenTurn`). So until an allocation is held, such turns are the loop of the
/// theorem `honest_loops_allocate`.
pub(crate) fn drive<C: TurnClientApi>(
    rt: &impl Print,
    alloc: Global,
    client: &mut C,
    line: &mut Line,
    peer: SocketAddr,
    now: Instant,
) -> anyhow::Result<TurnPollRet>
    ensures events { IfOk result (λ answer. answer ≢ TurnPollRet.WaitUntil now
        → (C.stored client.new).core.events ≡ []) }
    ensures turn { IfOk result (λ answer. answer ≢ TurnPollRet.NoMemory → now ≤ 2 ^ 62
        → HasTakenTurn now (C.stored client.old) (C.stored client.new)) }
{
    for _ in 0..u64::MAX {
        let Some(sent) = client.poll_transmit(now)? else {
            break;
        };
        line.write(sent.bytes.as_slice(), sent.from, now)?;
    }
    let mut answer = client.poll(now);
    for _ in 0..u64::MAX {
        let Some(event) = client.poll_event() else {
            return Ok(answer);
        };
        println!(rt; "drive: {event:?}")?;
        match event {
            TurnEvent::AllocationCreated(by, _) => client.create_permission(by, peer.ip(), now)?,
            TurnEvent::PermissionCreated(by, _) => client.bind_channel(by, peer, now)?,
            TurnEvent::ChannelCreated(by, to) => {
                if let Some(sending) = client.send_to(by, to, b"hello".as_slice(), now)? {
                    let sent = sending.build(alloc)?;
                    line.write(sent.bytes.as_slice(), sent.from, now)?;
                }
            }
            _ => client.delete(now)?,
        }
        if let TurnPollRet::WaitUntil(_) = answer {
            answer = TurnPollRet::WaitUntil(now);
        }
    }
    Ok(TurnPollRet::WaitUntil(now))
}

/// Passes bytes from the server to a client, and prints the data from a peer in them. The first
/// data ends the client, which waited only for that. Over TCP there may be more data after the
/// first.
pub(crate) fn process<C: TurnClientApi>(
    rt: &impl Print,
    client: &mut C,
    bytes: &[u8],
    now: Instant,
) -> anyhow::Result<()> {
    let (server, local) = (client.remote_addr(), client.local_addr());
    let came = Transmit::new(bytes, client.transport(), server, local);
    match client.recv(came, now) {
        TurnRecvRet::PeerData(given) => {
            print_hex(rt, "drive: data", given.data())?;
            client.delete(now)?;
        }
        TurnRecvRet::NoMemory(_) => return Err(NoMemory.into()),
        _ => {}
    }
    for _ in 0..u64::MAX {
        let Some(given) = client.poll_recv(now)? else {
            break;
        };
        print_hex(rt, "drive: more data", given.data())?;
    }
    Ok(())
}

/// The most turns in which a client is driven.
const MOST_TURNS: u64 = 100;

/// Drives a client until it has closed, and prints the time at which it has.
fn run<C: TurnClientApi>(
    rt: &impl Print,
    alloc: Global,
    client: &mut C,
    line: &mut Line,
    peer: SocketAddr,
) -> anyhow::Result<()> {
    let mut now = Instant::ZERO;
    for _ in 0..MOST_TURNS {
        process_all(rt, client, line, now)?;
        match drive(rt, alloc, client, line, peer, now)? {
            // With real sockets: wait until that time or until something is received, and read the
            // clock.
            TurnPollRet::WaitUntil(time) => {
                if line.is_empty() {
                    now = now.max(time);
                }
            }
            TurnPollRet::Closed => {
                let millis = now.as_nanos() / 1_000_000;
                println!(rt; "drive: closed after {millis} milliseconds")?;
                return Ok(());
            }
            TurnPollRet::NoMemory => return Err(NoMemory.into()),
            // These are about sockets for connections to peers, which nothing here requests.
            TurnPollRet::AllocateTcpSocket { .. } | TurnPollRet::TcpClose { .. } => {}
        }
    }
    Ok(())
}

/// Passes all received bytes to a client.
fn process_all<C: TurnClientApi>(
    rt: &impl Print,
    client: &mut C,
    line: &mut Line,
    now: Instant,
) -> anyhow::Result<()> {
    for _ in 0..u64::MAX {
        match line.read() {
            Some(bytes) => {
                let done = process(rt, client, bytes.as_slice(), now);
                drop(bytes);
                done?;
                show(rt, client)?;
            }
            None => break,
        }
    }
    Ok(())
}

/// Prints the channels of a client, each with its index among them.
fn show<C: TurnClientApi>(rt: &impl Print, client: &C) -> anyhow::Result<()> {
    let all = client.channels().len();
    for (index, (number, peer)) in client.channels().enumerate() {
        println!(rt; "drive: channel {number} to {peer}, place {index} of {all}")?;
    }
    Ok(())
}

/// Returns the address of a host in the client's network.
const fn host(last: u8, port: u16) -> SocketAddr {
    SocketAddr::new(IpAddr::V4(Ipv4Addr::new(10, 0, 0, last)), port)
}

/// Drives a client over UDP and one over TCP, with one server and one peer.
pub(crate) fn drive_both(rt: &impl Print, alloc: Global) -> anyhow::Result<()> {
    let peer = host(1, 5);
    match Line::new(alloc) {
        Ok(mut line) => {
            let over_udp = drive_udp(rt, alloc, &mut line, peer);
            let over_tcp = drive_tcp(rt, alloc, &mut line, peer);
            drop(line);
            over_udp?;
            over_tcp
        }
        Err(error) => Err(error.into()),
    }
}

/// Drives a client over UDP.
fn drive_udp(
    rt: &impl Print,
    alloc: Global,
    line: &mut Line,
    peer: SocketAddr,
) -> anyhow::Result<()> {
    println!(rt; "drive: over UDP")?;
    let config = TurnConfig::new(TurnCredentials::new(alloc, "user", "pass")?);
    match TurnClientUdp::allocate(alloc, host(3, 1000), host(2, 2000), config, [1; 32]) {
        Ok(mut client) => {
            let done = run(rt, alloc, &mut client, line, peer);
            drop(client);
            done
        }
        Err(error) => Err(error.into()),
    }
}

/// Drives a client over TCP.
fn drive_tcp(
    rt: &impl Print,
    alloc: Global,
    line: &mut Line,
    peer: SocketAddr,
) -> anyhow::Result<()> {
    println!(rt; "drive: over TCP")?;
    let config = TurnConfig::new(TurnCredentials::new(alloc, "user", "pass")?);
    match TurnClientTcp::allocate(alloc, host(3, 1001), host(2, 2000), config, [2; 32]) {
        Ok(mut client) => {
            let done = run(rt, alloc, &mut client, line, peer);
            drop(client);
            done
        }
        Err(error) => Err(error.into()),
    }
}

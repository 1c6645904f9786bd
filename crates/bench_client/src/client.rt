//! Times a client with channels: the datagrams and the chunks of a stream that it receives, and the
//! bytes that it sends to peers.

ghost use Rattle.std.specs.Prelude.{◌≢◌};

use rand_chacha::ChaCha20Rng;
use rand_core::SeedableRng;
use std::alloc::Global;
use std::net::{Ipv4Addr, SocketAddr, SocketAddrV4};
use stun_proto_server::long_term::LongTermServerAuth;
use stun_types_base::instant::Instant;
use stun_types_base::list::ListOf;
use stun_types_base::memory::NoMemory;
use stun_types_base::transmit::Transmit;
use stun_types_base::transport::TransportType;
use stun_types_integrity::credentials::LongTermCredentials;
use turn_client_proto::api::TurnClientApi;
use turn_client_proto::tcp::TurnClientTcp;
use turn_client_proto::udp::TurnClientUdp;
use turn_client_proto_api::answer::TurnRecvRet;
use turn_client_proto_api::config::TurnConfig;
use turn_desk_core::decision::Decision;
use turn_desk_core::desk::Desk;
use turn_types_attributes::credentials::TurnCredentials;
use turn_types_frame::build::DelayedTransmitBuild;

/// The time between two requests of a client, in nanoseconds (RFC 8489, section 6.2.1).
const CADENCE: u64 = 50_000_000;

/// Returns the time at which this many requests have been sent since the first one.
pub(crate) fn time(requests: usize) -> Instant {
    Instant::from_nanos((requests as u64).saturating_mul(CADENCE))
}

/// Returns an address from its numbers.
pub(crate) fn address(host: u32, port: u16) -> SocketAddr {
    SocketAddr::V4(SocketAddrV4::new(Ipv4Addr::from(host), port))
}

/// Returns a port of the peer of a channel. Each peer is a host of its own, from 10.1.0.0 on.
pub(crate) fn peer(channel: usize, port: u16) -> SocketAddr {
    address(0x0a01_0000u32.wrapping_add((channel % 65_536) as u32), port)
}

/// The client's own address, and its server's.
const HERE: (u32, u16) = (0xc0a8_0001, 1000);

const SERVER: (u32, u16) = (0x0a00_0002, 2000);

/// Creates a client over UDP.
pub(crate) fn over_udp(alloc: Global) -> Result<TurnClientUdp, NoMemory> {
    match TurnCredentials::new(alloc, "user", "pass") {
        Ok(user) => {
            let (here, server) = (address(HERE.0, HERE.1), address(SERVER.0, SERVER.1));
            TurnClientUdp::allocate(alloc, here, server, TurnConfig::new(user), [0; 32])
        }
        Err(error) => Err(error),
    }
}

/// Creates a client over TCP, which requests an allocation over UDP.
fn over_tcp(alloc: Global) -> Result<TurnClientTcp, NoMemory> {
    match TurnCredentials::new(alloc, "user", "pass") {
        Ok(user) => {
            let (here, server) = (address(HERE.0, HERE.1), address(SERVER.0, SERVER.1));
            TurnClientTcp::allocate(alloc, here, server, TurnConfig::new(user), [0; 32])
        }
        Err(error) => Err(error),
    }
}

/// Creates a server core that knows the client's user.
pub(crate) fn desk(alloc: Global) -> Result<Desk, NoMemory> {
    let Ok(realm) = String::from_str(alloc, "realm") else {
        return Err(NoMemory);
    };
    let mut auth = LongTermServerAuth::new(alloc, realm);
    match add_user(alloc, &mut auth, "user", "pass") {
        Ok(()) => Ok(Desk::new(alloc, auth)),
        Err(error) => {
            drop(auth);
            Err(error)
        }
    }
}

/// Adds a user to a server's users.
pub(crate) fn add_user(
    alloc: Global,
    auth: &mut LongTermServerAuth,
    name: &str,
    password: &str,
) -> Result<(), NoMemory> {
    let Ok(name) = String::from_str(alloc, name) else {
        return Err(NoMemory);
    };
    match String::from_str(alloc, password) {
        Ok(password) => auth.add_user(LongTermCredentials::new(name, password)),
        Err(_) => {
            drop(name);
            Err(NoMemory)
        }
    }
}

/// Passes the client's next message to the server core, and its reply to the client.
fn exchange(
    client: &mut impl TurnClientApi,
    desk: &mut Desk,
    decision: &Decision,
    now: Instant,
) -> Result<(), NoMemory> {
    let reply = match client.poll_transmit(now) {
        Ok(Some(sent)) => {
            let mut words = ChaCha20Rng::from_seed([0; 32]);
            let reply = desk.handle(sent.bytes.as_slice(), sent.from, now, decision, &mut words);
            drop(sent);
            reply
        }
        Ok(None) => Ok(None),
        Err(error) => Err(error),
    };
    match reply {
        Ok(Some(reply)) => {
            dispatch(client, reply.as_slice(), now);
            drop(reply);
            Ok(())
        }
        Ok(None) => Ok(()),
        Err(error) => Err(error),
    }
}

/// Passes bytes from its server to a client. Returns whether they gave data of a peer.
pub(crate) fn dispatch(client: &mut impl TurnClientApi, bytes: &[u8], now: Instant) -> bool {
    let came = Transmit::new(
        bytes,
        client.transport(),
        client.remote_addr(),
        client.local_addr(),
    );
    matches!(client.recv(came, now), TurnRecvRet::PeerData(_))
}

/// Has the server core grant a client an allocation of an hour, and this many channels, each with a
/// permission.
pub(crate) fn hold(
    alloc: Global,
    client: &mut impl TurnClientApi,
    desk: &mut Desk,
    channels: usize,
) -> Result<(), NoMemory> {
    let mut addresses = ListOf::new(alloc);
    addresses.push(address(0xcb00_7105, 50_000))?;
    let granted = Decision::Allocate {
        addresses,
        lifetime: 3600,
    };
    let done = bind(client, desk, &granted, channels);
    drop(granted);
    done
}

/// Does the work of `hold`, with this decision on the allocation.
fn bind(
    client: &mut impl TurnClientApi,
    desk: &mut Desk,
    granted: &Decision,
    channels: usize,
) -> Result<(), NoMemory> {
    exchange(client, desk, granted, time(0))?;
    exchange(client, desk, granted, time(1))?;
    for i in 0..channels {
        let now = time(i.saturating_add(2));
        // A refused call binds nothing; the results show it.
        let _ = client.bind_channel(TransportType::Udp, peer(i, 9000), now);
        exchange(client, desk, &Decision::Grant, now)?;
    }
    Ok(())
}

/// Has a server core of its own grant a client this many channels. Returns whether no allocation
/// failed.
fn is_held(alloc: Global, client: &mut impl TurnClientApi, channels: usize) -> bool {
    match desk(alloc) {
        Ok(mut desk) => {
            let done = hold(alloc, client, &mut desk, channels);
            drop(desk);
            done.is_ok()
        }
        Err(_) => false,
    }
}

/// Passes these bytes from its server to a client over UDP with this many channels, `rounds` times.
/// Returns how often they gave data of a peer; 0 if an allocation failed. `bench.c` compares the
/// result.
#[unsafe(no_mangle)]
pub extern "C" fn stun_bench_take(
    alloc: Global,
    channels: usize,
    rounds: usize,
    bytes: &[u8],
) -> usize {
    match over_udp(alloc) {
        Ok(mut client) => {
            let taken = if is_held(alloc, &mut client, channels) {
                take(&mut client, time(channels), rounds, bytes)
            } else {
                0
            };
            drop(client);
            taken
        }
        Err(_) => 0,
    }
}

/// Passes these bytes to a client `rounds` times. Returns how often they gave data of a peer.
fn take(client: &mut impl TurnClientApi, now: Instant, rounds: usize, bytes: &[u8]) -> usize {
    let mut taken = 0usize;
    for _ in 0..rounds {
        if dispatch(client, bytes, now) {
            taken = taken.saturating_add(1);
        }
    }
    taken
}

/// Passes these bytes of its stream to a client over TCP with this many channels, `rounds` times.
///
/// Each time they are passed in chunks of this size, and `poll_recv` is called after each chunk
/// until it returns nothing. Returns how many frames gave data of a peer; 0 if an allocation
/// failed. `bench.c` compares the result.
#[unsafe(no_mangle)]
pub extern "C" fn stun_bench_drain(
    alloc: Global,
    channels: usize,
    rounds: usize,
    bytes: &[u8],
    size: usize,
) -> usize {
    match over_tcp(alloc) {
        Ok(mut client) => {
            let mut taken = 0usize;
            if is_held(alloc, &mut client, channels) {
                for _ in 0..rounds {
                    let given = drain(&mut client, time(channels), bytes, size.max(1));
                    taken = taken.saturating_add(given);
                }
            }
            drop(client);
            taken
        }
        Err(_) => 0,
    }
}

/// Passes these bytes of its stream to a client in chunks. Returns how many frames gave data of a
/// peer.
fn drain(client: &mut impl TurnClientApi, now: Instant, bytes: &[u8], size: usize) -> usize
    requires { size ≢ 0 }
{
    let mut taken = 0usize;
    for chunk in bytes.chunks(size) {
        if dispatch(client, chunk, now) {
            taken = taken.saturating_add(1);
        }
        for _ in 0..bytes.len() {
            match client.poll_recv(now) {
                Ok(Some(given)) => {
                    drop(given);
                    taken = taken.saturating_add(1);
                }
                _ => break,
            }
        }
    }
    taken
}

/// Has a client with this many channels send these bytes to a port of the peer of the last channel,
/// `rounds` times.
///
/// Each time it writes what is sent to the server to the start of `out`. Returns how often it did;
/// 0 if an allocation failed. `bench.c` compares the result.
#[unsafe(no_mangle)]
pub extern "C" fn stun_bench_send(
    alloc: Global,
    channels: usize,
    rounds: usize,
    port: u16,
    bytes: &[u8],
    out: &mut [u8],
) -> usize {
    let to = peer(channels.saturating_sub(1), port);
    match over_udp(alloc) {
        Ok(mut client) => {
            let sent = if is_held(alloc, &mut client, channels) {
                send(&mut client, time(channels), rounds, to, bytes, out)
            } else {
                0
            };
            drop(client);
            sent
        }
        Err(_) => 0,
    }
}

/// Has a client send these bytes to a peer `rounds` times. Returns how often they were written.
fn send(
    client: &mut impl TurnClientApi,
    now: Instant,
    rounds: usize,
    to: SocketAddr,
    bytes: &[u8],
    out: &mut [u8],
) -> usize {
    let mut sent = 0usize;
    for _ in 0..rounds {
        let Ok(Some(carrier)) = client.send_to(TransportType::Udp, to, bytes, now) else {
            return sent;
        };
        let len = carrier.bytes.len();
        if out.len() < len {
            return sent;
        }
        let (head, _) = out.split_at_mut(len);
        carrier.write_into(head);
        sent = sent.saturating_add(1);
    }
    sent
}

//! Requests of a client that holds an allocation, over a network that takes time, after the server
//! core's nonce has expired: the server core challenges, and the client sends the request again with
//! the new nonce (RFC 8489, sections 9.2.4 and 9.2.5).

use crate::carrying::{Answered, exchange};
use crate::driving::{MOST_TURNS, Turn, drive, happen, wait};
use crate::network::Network;
use std::alloc::Global;
use std::net::SocketAddr;
use stun_types_base::memory::NoMemory;
use stun_types_base::transport::TransportType;
use stun_types_wire::registry::STALE_NONCE;
use turn_desk_core::decision::Decision;
use turn_desk_event::answer::Answer;
use turn_desk_event::event::{ClientCall, Event};
use turn_desk_world::world::World;

/// A kind of request.
#[derive(Clone, Copy, Debug, PartialEq, Eq)]
pub enum Kind {
    /// REFRESH.
    Refresh,
    /// CREATE_PERMISSION.
    CreatePermission,
    /// CHANNEL_BIND.
    ChannelBind,
    /// CONNECT.
    Connect,
    /// CONNECTION_BIND.
    ConnectionBind,
}

/// A request for something of a peer.
#[derive(Clone, Copy)]
pub struct Wanted {
    /// Its kind.
    pub kind: Kind,
    /// How often in a row the nonce has expired when the request reaches the server core.
    pub expiries: u32,
    /// The client's relayed address.
    pub address: SocketAddr,
    /// The peer.
    pub peer: SocketAddr,
    /// The local address of the socket of a connection to the peer.
    pub local: SocketAddr,
}

/// How long the application waits before it requests something, in nanoseconds.
const BEFORE: u64 = 1_000_000_000;

/// For how long a nonce is valid, and one second, in nanoseconds.
const EXPIRY: u64 = 3_601_000_000_000;

/// How long a driver waits for a request: longer than until the allocation is renewed, in
/// nanoseconds.
const PATIENCE: u64 = LIFETIME as u64 * 1_000_000_000;

/// After so many nanoseconds an allocation that was not renewed has expired.
const PAST: u64 = 120_000_000_000;

/// The lifetime of an allocation that is renewed, in seconds.
const LIFETIME: u32 = 600;

/// The connection ID that the server core gives a connection.
const NUMBER: u32 = 7;

/// Requests something of a client that holds an allocation. Returns how often the server core
/// challenged the request, if it then granted it and the client holds what it requested.
pub fn request(
    alloc: Global,
    world: &mut World,
    network: &mut Network,
    wanted: Wanted,
) -> Result<Option<u32>, NoMemory> {
    if !prepares(alloc, world, network, wanted)? {
        return Ok(None);
    }
    network.seen.clear();
    let count = exchanges(alloc, world, network, wanted)?;
    if holds(alloc, world, network, wanted)? {
        Ok(count)
    } else {
        Ok(None)
    }
}

/// Has the application call the client, so that it transmits the request. Returns whether that
/// succeeded.
fn prepares(
    alloc: Global,
    world: &mut World,
    network: &mut Network,
    wanted: Wanted,
) -> Result<bool, NoMemory> {
    let (udp, peer) = (TransportType::Udp, wanted.peer);
    match wanted.kind {
        Kind::Refresh => Ok(true),
        Kind::CreatePermission => {
            let call = ClientCall::CreatePermission(udp, peer.ip());
            calls_later(alloc, world, network, call)
        }
        Kind::ChannelBind => {
            let call = ClientCall::BindChannel(udp, peer);
            calls_later(alloc, world, network, call)
        }
        Kind::Connect => permits_and_connects(alloc, world, network, peer),
        Kind::ConnectionBind => {
            if !permits_and_connects(alloc, world, network, peer)? {
                return Ok(false);
            }
            let decision = Decision::Connect { number: NUMBER };
            match exchange(alloc, world, network, PATIENCE, decision)? {
                Answered::Success => opens(world, network, wanted),
                _ => Ok(false),
            }
        }
    }
}

/// Has the application request a permission for the peer, and once that is granted a connection to
/// it. Returns whether both calls and the first request succeeded.
fn permits_and_connects(
    alloc: Global,
    world: &mut World,
    network: &mut Network,
    peer: SocketAddr,
) -> Result<bool, NoMemory> {
    let call = ClientCall::CreatePermission(TransportType::Tcp, peer.ip());
    if !calls_later(alloc, world, network, call)? {
        return Ok(false);
    }
    match exchange(alloc, world, network, PATIENCE, Decision::Grant)? {
        Answered::Success => calls_later(alloc, world, network, ClientCall::TcpConnect(peer)),
        _ => Ok(false),
    }
}

/// Makes a call of the client. Returns whether it succeeded.
fn calls(world: &mut World, network: &Network, call: ClientCall) -> Result<bool, NoMemory> {
    match happen(world, Event::Call(call, network.time))? {
        Answer::Done => Ok(true),
        _ => Ok(false),
    }
}

/// Makes a call of the client some time later. Returns whether it succeeded.
fn calls_later(
    alloc: Global,
    world: &mut World,
    network: &mut Network,
    call: ClientCall,
) -> Result<bool, NoMemory> {
    let later = network.after(BEFORE);
    if !wait(alloc, world, network, later, MOST_TURNS)? {
        return Ok(false);
    }
    calls(world, network, call)
}

/// Runs the driver's loop until the client asks for a socket, and reports one to it. Returns
/// whether it asked for one to the peer, and accepted it.
fn opens(world: &mut World, network: &mut Network, wanted: Wanted) -> Result<bool, NoMemory> {
    let later = network.after(BEFORE);
    match drive(world, network, later, MOST_TURNS)? {
        Turn::Connects(id, peer) => {
            if peer != wanted.peer {
                return Ok(false);
            }
            let call = ClientCall::AllocatedTcpSocket(id, peer, Some(wanted.local));
            calls(world, network, call)
        }
        _ => Ok(false),
    }
}

/// Delivers the request, and its repetitions, until the server core grants it. Returns how often it
/// was challenged because of its nonce.
fn exchanges(
    alloc: Global,
    world: &mut World,
    network: &mut Network,
    wanted: Wanted,
) -> Result<Option<u32>, NoMemory> {
    for count in 0..MOST_TURNS {
        if count < wanted.expiries {
            network.lead = network.lead.saturating_add(EXPIRY);
        }
        let decision = match wanted.kind {
            Kind::Refresh => Decision::Refresh { lifetime: LIFETIME },
            Kind::Connect => Decision::Connect { number: NUMBER },
            _ => Decision::Grant,
        };
        match exchange(alloc, world, network, PATIENCE, decision)? {
            Answered::Success => return Ok(Some(count)),
            Answered::Error(STALE_NONCE) => {}
            _ => return Ok(None),
        }
    }
    Ok(None)
}

/// Returns whether the client holds what was requested.
fn holds(
    alloc: Global,
    world: &mut World,
    network: &mut Network,
    wanted: Wanted,
) -> Result<bool, NoMemory> {
    let later = network.after(PAST);
    let call = match wanted.kind {
        Kind::Refresh => {
            if !wait(alloc, world, network, later, MOST_TURNS)? {
                return Ok(false);
            }
            ClientCall::RelayedAddresses
        }
        Kind::CreatePermission => {
            ClientCall::HavePermission(TransportType::Udp, wanted.peer.ip())
        }
        Kind::ChannelBind => ClientCall::Channels,
        Kind::Connect => return opens(world, network, wanted),
        Kind::ConnectionBind => ClientCall::Connections,
    };
    match happen(world, Event::Call(call, network.time))? {
        Answer::Relayed(listed) => Ok(listed.iter().any(|one| one.1 == wanted.address)),
        Answer::Have(has) => Ok(has),
        Answer::Channels(listed) => Ok(listed.iter().any(|one| one.1 == wanted.peer)),
        Answer::Connections(listed) => Ok(listed.iter().any(|one| one.1 == wanted.peer && one.3)),
        _ => Ok(false),
    }
}

//! The outcome of a validated request.

ghost use Rattle.std.specs.Prelude.{◌≡◌, IfOk};
ghost use Rattle.turn_desk_core.specs.Verdicts.{IsLawful, are_relayable, decided, on_allocation, on_connection, on_refreshment, refused_code, verdict_on};

use crate::decision::Decision;
use crate::requested::{Requested, requested_by};
use std::alloc::Global;
use std::net::SocketAddr;
use stun_types_attributes::error_code::ErrorCode;
use stun_types_base::list::ListOf;
use stun_types_base::memory::NoMemory;
use stun_types_base::transport::TransportType;
use stun_types_message::parsed::Message;

/// The outcome of a validated request.
#[derive(Debug, Drop)]
pub enum Verdict {
    /// The request is rejected with this error code, from 300 to 699.
    Fails(u16),
    /// An allocation is granted.
    Allocates {
        /// The transport between the server and the peers.
        transport: TransportType,
        /// The relayed addresses: one, or two of different families.
        relayed: ListOf<SocketAddr>,
        /// The lifetime, in seconds.
        lifetime: u32,
    },
    /// An allocation's lifetime is set to this number of seconds.
    Refreshes(u32),
    /// Permissions for these peers are installed.
    Permits(ListOf<SocketAddr>),
    /// A channel is bound.
    Binds {
        /// The channel number.
        channel: u16,
        /// The peer.
        peer: SocketAddr,
    },
    /// A connection was made.
    Connects {
        /// The peer.
        peer: SocketAddr,
        /// The connection ID.
        connection: u32,
    },
    /// A data connection is bound to the connection with this ID.
    Joins(u32),
}

/// Returns the outcome of a request under the application's decision. Checked in this order:
///
/// 1. An attribute that the method needs is missing or malformed: error code 400.
/// 2. The decision refuses the request: its code, or 500 if the code is not from 300 to 699.
/// 3. The decision does not fit the method: error code 500.
///
/// # Errors
///
/// - `NoMemory`: an allocation failed.
#[tactic(auto, using(crate::proofs::Lawful::verdict_lawful))]
pub fn verdict_on(
    alloc: Global,
    request: &Message,
    decision: &Decision,
) -> Result<Verdict, NoMemory>
    ensures made { IfOk result (λ made. made ≡ verdict_on request.now decision.now) }
    ensures lawful { IfOk result IsLawful }
{
    match requested_by(alloc, request)? {
        None => Ok(Verdict::Fails(ErrorCode::BAD_REQUEST)),
        Some(reported) => decided(alloc, reported, decision),
    }
}

/// Returns the outcome of a request that asks for `reported`, under this decision.
fn decided(alloc: Global, reported: Requested, decision: &Decision) -> Result<Verdict, NoMemory>
    ensures { IfOk result (λ made. made ≡ decided reported decision.now) }
{
    if let Decision::Refuse(code) = decision {
        return Ok(Verdict::Fails(refused_code(*code)));
    }
    match reported {
        Requested::Allocation(transport) => on_allocation(alloc, transport, decision),
        Requested::Refreshment => Ok(on_refreshment(decision)),
        Requested::Permissions(peers) => match decision {
            Decision::Grant => Ok(Verdict::Permits(peers)),
            _ => Ok(Verdict::Fails(ErrorCode::SERVER_ERROR)),
        },
        Requested::Channel { channel, peer } => match decision {
            Decision::Grant => Ok(Verdict::Binds { channel, peer }),
            _ => Ok(Verdict::Fails(ErrorCode::SERVER_ERROR)),
        },
        Requested::Connection(peer) => Ok(on_connection(peer, decision)),
        Requested::Binding(connection) => match decision {
            Decision::Grant => Ok(Verdict::Joins(connection)),
            _ => Ok(Verdict::Fails(ErrorCode::SERVER_ERROR)),
        },
    }
}

/// Returns the outcome of an ALLOCATE for a transport: an allocation as decided, or 500 if the
/// decision does not fit.
fn on_allocation(
    alloc: Global,
    transport: TransportType,
    decision: &Decision,
) -> Result<Verdict, NoMemory>
    ensures { IfOk result (λ made. made ≡ on_allocation transport decision.now) }
{
    match decision {
        Decision::Allocate {
            addresses,
            lifetime,
        } => {
            if !are_relayable(addresses.as_slice()) {
                return Ok(Verdict::Fails(ErrorCode::SERVER_ERROR));
            }
            Ok(Verdict::Allocates {
                transport,
                relayed: copy_of(alloc, addresses.as_slice())?,
                lifetime: *lifetime,
            })
        }
        _ => Ok(Verdict::Fails(ErrorCode::SERVER_ERROR)),
    }
}

/// Returns the outcome of a REFRESH: the decided lifetime, whatever lifetime was requested, or 500
/// if the decision does not fit.
fn on_refreshment(decision: &Decision) -> Verdict
    ensures { result ≡ on_refreshment decision.now }
{
    match decision {
        Decision::Refresh { lifetime } => Verdict::Refreshes(*lifetime),
        _ => Verdict::Fails(ErrorCode::SERVER_ERROR),
    }
}

/// Returns the outcome of a CONNECT to a peer: a connection with the decided ID, or 500 if the
/// decision does not fit.
fn on_connection(peer: SocketAddr, decision: &Decision) -> Verdict
    ensures { result ≡ on_connection peer decision.now }
{
    match decision {
        Decision::Connect { number } => Verdict::Connects {
            peer,
            connection: *number,
        },
        _ => Verdict::Fails(ErrorCode::SERVER_ERROR),
    }
}

/// Returns the code of a refusal if it is from 300 to 699, and 500 otherwise.
fn refused_code(code: u16) -> u16
    ensures { result ≡ refused_code code }
{
    if code < ErrorCode::MIN_CODE || code > ErrorCode::MAX_CODE {
        return ErrorCode::SERVER_ERROR;
    }
    code
}

/// Returns whether there is one address, or two of different families.
fn are_relayable(addresses: &[SocketAddr]) -> bool
    ensures { result ≡ are_relayable addresses.now }
{
    match addresses.len() {
        1 => true,
        2 => addresses[0].is_ipv4() != addresses[1].is_ipv4(),
        _ => false,
    }
}

/// Returns a copy of the addresses.
fn copy_of(alloc: Global, addresses: &[SocketAddr]) -> Result<ListOf<SocketAddr>, NoMemory>
    ensures { IfOk result (λ copy. copy ≡ addresses.now) }
{
    let mut copy = ListOf::new(alloc);
    for addr in addresses {
        copy.push(*addr)?;
    }
    Ok(copy)
}

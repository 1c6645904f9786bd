//! Requests for connections to peers (RFC 6062, section 4.3).
#![tactic(auto, using(crate::proofs::Usual::usual), unfolding(crate::proofs::Usual::opened))]

ghost use Rattle.std.specs.Prelude.{◌≡◌, ◌<◌, ℕ, IfSome, OnErr, OnOk, length, slice_get, slice_set};
ghost use Rattle.turn_client_proto_core.specs.Asking.{requested};
ghost use Rattle.turn_client_proto_connection.specs.Asking.{connecting};
ghost use Rattle.turn_client_proto_core.specs.Numbering.{IsNextNumber, after_number};
ghost use Rattle.turn_client_proto_messages.specs.declared.request.TurnRequest.TheVariants.{Connect};
ghost use Rattle.turn_client_proto_recv.specs.Connecting.{IsConnectAnswered};

use std::net::SocketAddr;
use stun_types_base::family::AddressFamily;
use stun_types_base::instant::Instant;
use stun_types_base::memory::NoMemory;
use stun_types_base::transport::TransportType;
use turn_client_proto_allocation::connection::Connecting;
use turn_client_proto_api::error::TcpConnectError;
use turn_client_proto_connection::asking;
use turn_client_proto_core::protocol::Protocol;
use turn_client_proto_messages::request::TurnRequest;
use turn_client_proto_peers::permission::{asking as permissions, one};

/// Queues a CONNECT to `peer` (RFC 6062, section 4.3), in the first TCP allocation whose address is
/// of the peer's family.
///
/// # Errors
///
/// The first that applies is returned:
///
/// - `NoAllocation`: there is no such allocation, or it has expired. An expired one is marked as
///   expired.
/// - `NoAllocation`: the client has ended.
/// - `NoPermission`: the allocation has no active permission for the peer's address.
/// - `AlreadyExists`: the allocation has a connection to the peer, in whatever state.
/// - `NoMemory`: a memory allocation failed.
///
/// After an error nothing has changed, except for that mark and, with `NoMemory`, the random words
/// that were generated.
pub fn tcp_connect(
    protocol: &mut Protocol,
    peer: SocketAddr,
    now: Instant,
) -> Result<(), TcpConnectError>
    ensures { IsConnectAnswered protocol.old peer now result protocol.new }
{
    let family = AddressFamily::from(&peer);
    let allocations = protocol.allocations.as_slice();
    let Some(index) = permissions::index_of(allocations, TransportType::Tcp, family) else {
        return Err(TcpConnectError::NoAllocation);
    };
    let allocation = &protocol.allocations.as_slice()[index];
    if one::is_past(allocation, now) {
        permissions::mark(&mut protocol.allocations, index);
        return Err(TcpConnectError::NoAllocation);
    }
    if !protocol.is_authenticated() {
        return Err(TcpConnectError::NoAllocation);
    }
    if let Some(error) = asking::barring(allocation, peer) {
        return Err(error);
    }
    match ask_connection(protocol, index, peer, now) {
        Ok(()) => Ok(()),
        Err(NoMemory) => Err(TcpConnectError::NoMemory),
    }
}

/// Requests a connection to a peer in the allocation at `index`. With `NoMemory`, nothing has
/// changed except that random words were generated.
fn ask_connection(
    protocol: &mut Protocol,
    index: usize,
    peer: SocketAddr,
    now: Instant,
) -> Result<(), NoMemory>
    requires { index < length protocol.old.allocations }
    ensures ok { OnOk result ((number : ℕ) × IsNextNumber protocol.old number
        × IfSome (slice_get protocol.old.allocations index) (λ a. protocol.new
        ≡ record (requested (after_number protocol.old) (Connect peer) number now) {
          allocations = slice_set protocol.old.allocations index
              (connecting (record { number = number; peer = peer }) a);
        })) }
    ensures err { OnErr result (protocol.new ≡ after_number protocol.old) }
{
    let number = protocol.generate_id()?;
    asking::ask(
        &mut protocol.allocations,
        index,
        Connecting { number, peer },
    )?;
    match protocol.ask(number, TurnRequest::Connect(peer), now) {
        Ok(()) => Ok(()),
        Err(e) => {
            asking::forget(&mut protocol.allocations, index);
            Err(e)
        }
    }
}

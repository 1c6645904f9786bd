//! Handling of closed sockets (RFC 6062, section 4.6).
#![tactic(auto, using(crate::proofs::Usual::usual), unfolding(crate::proofs::Usual::opened))]

ghost use Rattle.std.specs.Prelude.{◌≡◌, OnErr, OnOk, true};
ghost use Rattle.turn_client_proto_recv.specs.Closing.{after_close, is_joined};

use std::net::SocketAddr;
use stun_types_base::memory::NoMemory;
use stun_types_base::transport::TransportType;
use turn_client_proto_connection::sockets;
use turn_client_proto_core::protocol::Protocol;

/// Returns whether a socket between a local address and the server is that of a data connection.
fn is_joined(protocol: &Protocol, local: SocketAddr, remote: SocketAddr) -> bool
    ensures { result ≡ is_joined local remote protocol.now }
{
    protocol.agent.transport() == TransportType::Tcp
        && remote == protocol.server
        && sockets::is_any_from(protocol.allocations.as_slice(), local)
}

/// Handles the closing of a socket between a local address and the server. If the socket is that of
/// a data connection, bound or not, the connection is removed without an event, and the socket is
/// the next one that `poll` asks the caller to close. For any other socket nothing changes.
///
/// # Errors
///
/// - `NoMemory`: a memory allocation failed; nothing changed.
pub fn tcp_closed(
    protocol: &mut Protocol,
    local: SocketAddr,
    remote: SocketAddr,
) -> Result<(), NoMemory>
    ensures ok { OnOk result (protocol.new ≡ after_close local remote protocol.old) }
    ensures err { OnErr result (protocol.new ≡ protocol.old) }
    ensures memory { OnErr result (is_joined local remote protocol.old ≡ true) }
{
    if !is_joined(protocol, local, remote) {
        return Ok(());
    }
    protocol.closing.push_front(local)?;
    sockets::close(protocol.allocations.as_mut_slice(), local);
    Ok(())
}

//! A client: the request that it sends first, and a datagram that it handles.

ghost use Rattle.std.specs.Prelude.{◌≡◌, ◌≢◌, ◌≤◌, IfOk, IsSome, Ok, false, length};
ghost use Rattle.stun_types.specs.Registry.{longest_username};

use std::alloc::Global;
use std::net::SocketAddr;
use stun_proto::Instant;
use stun_types::data::Data;
use stun_types::{NoMemory, Transmit};
use turn_client_proto::api::{TurnConfig, TurnRecvRet};
use turn_client_proto::prelude::TurnClientApi;
use turn_client_proto::types::TurnCredentials;
use turn_client_proto::udp::TurnClientUdp;

/// Returns a client that requests a UDP allocation from a server, and the request that it sends
/// first. The user name has at most 513 bytes.
pub(crate) fn begin(
    alloc: Global,
    local: SocketAddr,
    server: SocketAddr,
    user: &str,
    password: &str,
    seed: [u8; 32],
) -> Result<(TurnClientUdp, Option<Transmit<Data<'static>>>), NoMemory>
    requires { length user.now ≤ longest_username }
    ensures { IfOk result (λ started. IsSome started.1) }
{
    let config = TurnConfig::new(TurnCredentials::new(alloc, user, password)?);
    let mut client = TurnClientUdp::allocate(alloc, local, server, config, seed)?;
    let first = client.poll_transmit(Instant::ZERO)?;
    Ok((client, first))
}

/// Passes a datagram to a client, and returns whether it was a message for it. A datagram from
/// another address than the server's never is.
pub(crate) fn process(
    client: &mut TurnClientUdp,
    bytes: &[u8],
    from: SocketAddr,
    now: Instant,
) -> Result<bool, NoMemory>
    ensures { from ≢ client.old.0.server → (result ≡ Ok false) × (client.new ≡ client.old) }
{
    let came = Transmit::new(bytes, client.transport(), from, client.local_addr());
    match client.recv(came, now) {
        TurnRecvRet::Handled => Ok(true),
        TurnRecvRet::NoMemory(_) => Err(NoMemory),
        _ => Ok(false),
    }
}

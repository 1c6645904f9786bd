//! A client that sends bytes to a peer and receives bytes from one, and the server core that it
//! requests them from.

ghost use Rattle.std.specs.Prelude.{◌≡◌, IfOk, IsNone, None, Ok, false, is_none, is_some};
ghost use Rattle.std.specs.Net.Socket.{socket_ip};
ghost use Rattle.stun_types.specs.Base.declared.transport.TransportType.TheVariants.{Udp};
ghost use Rattle.turn_client_proto.specs.Getters.{has_permission};
ghost use Rattle.turn_client_proto.specs.Payloads.{payload_of};
ghost use Rattle.turn_client_proto.specs.Sending.{send_refusal};

use crate::client::process;
use crate::served::decision;
use rand_chacha::ChaCha20Rng;
use rand_core::SeedableRng;
use std::alloc::Global;
use std::net::SocketAddr;
use stun_proto::Instant;
use stun_types::data::Data;
use stun_types::{NoMemory, Transmit, TransportType};
use turn_client_proto::api::{SendError, TurnRecvRet};
use turn_client_proto::prelude::TurnClientApi;
use turn_client_proto::udp::TurnClientUdp;
use turn_desk::{Decision, Desk};

/// Returns what is to be written to the socket to send bytes to a peer. Returns `None` if no
/// permission for the peer's address is active, or there are more bytes than a datagram carries.
#[tactic(auto, using(crate::proofs::Sending::nothing_sent, crate::proofs::Sending::is_sent))]
pub(crate) fn send(
    alloc: Global,
    client: &mut TurnClientUdp,
    peer: SocketAddr,
    bytes: &[u8],
    now: Instant,
) -> Result<Option<Transmit<Vec<u8>>>, NoMemory>
    ensures refused { has_permission Udp (socket_ip peer) client.old.0 ≡ false
        → (result ≡ Ok None) × (client.new ≡ client.old) }
    ensures sent { IfOk result (λ sent. is_some sent
        ≡ is_none (send_refusal Udp client.old.0 peer bytes.now)) }
{
    match client.send_to(TransportType::Udp, peer, bytes, now) {
        Ok(Some(carrier)) => Ok(Some(carrier.build(alloc)?)),
        Err(SendError::NoMemory) => Err(NoMemory),
        _ => Ok(None),
    }
}

/// Returns the peer whose data a datagram from the server carries, and the data. Returns `None` if
/// it carries none from a permitted peer.
pub(crate) fn take(
    alloc: Global,
    client: &mut TurnClientUdp,
    bytes: &[u8],
    now: Instant,
) -> Result<Option<(SocketAddr, Vec<u8>)>, NoMemory>
    ensures { payload_of client.old.0 bytes.now ≡ None → IfOk result IsNone }
{
    let came = Transmit::new(
        bytes,
        client.transport(),
        client.remote_addr(),
        client.local_addr(),
    );
    match client.recv(came, now) {
        TurnRecvRet::PeerData(given) => {
            let data = Vec::from_slice(alloc, given.data())?;
            Ok(Some((given.peer, data)))
        }
        TurnRecvRet::NoMemory(_) => Err(NoMemory),
        _ => Ok(None),
    }
}

/// Passes what a client sends to a server core, and the reply to the client.
fn pass_on(
    client: &mut TurnClientUdp,
    desk: &mut Desk,
    sent: Option<&Transmit<Data<'static>>>,
    decision: &Decision,
    now: Instant,
) -> Result<(), NoMemory> {
    let Some(sent) = sent else {
        return Ok(());
    };
    let mut words = ChaCha20Rng::from_seed([0; 32]);
    match desk.handle(sent.bytes.as_slice(), sent.from, now, decision, &mut words) {
        Ok(Some(reply)) => {
            let server = client.remote_addr();
            let processed = process(client, reply.as_slice(), server, now);
            drop(reply);
            match processed {
                Ok(_) => Ok(()),
                Err(error) => Err(error),
            }
        }
        Ok(None) => Ok(()),
        Err(error) => Err(error),
    }
}

/// Passes what a client sends now to a server core, and the reply to the client.
fn ask(
    client: &mut TurnClientUdp,
    desk: &mut Desk,
    decision: &Decision,
    now: Instant,
) -> Result<(), NoMemory> {
    match client.poll_transmit(now) {
        Ok(sent) => {
            let done = pass_on(client, desk, sent.as_ref(), decision, now);
            drop(sent);
            done
        }
        Err(error) => Err(error),
    }
}

/// Lets a client that has sent its first request get an address and a permission for a peer from a
/// server core, within 100 milliseconds.
pub(crate) fn reach(
    alloc: Global,
    client: &mut TurnClientUdp,
    desk: &mut Desk,
    first: Option<&Transmit<Data<'static>>>,
    peer: SocketAddr,
) -> anyhow::Result<()> {
    let allocated = Instant::from_nanos(50_000_000);
    match decision(alloc) {
        Ok(decision) => {
            let challenged = pass_on(client, desk, first, &decision, Instant::ZERO);
            let granted = ask(client, desk, &decision, allocated);
            drop(decision);
            challenged?;
            granted?;
        }
        Err(error) => return Err(error.into()),
    }
    client.create_permission(TransportType::Udp, peer.ip(), allocated)?;
    let permitted = Instant::from_nanos(100_000_000);
    Ok(ask(client, desk, &Decision::Grant, permitted)?)
}

//! A client over TCP: how it handles the stream from its server in chunks.

use crate::served::decision;
use rand_chacha::ChaCha20Rng;
use rand_core::SeedableRng;
use std::alloc::Global;
use stun_proto::Instant;
use stun_types::{NoMemory, Transmit, TransportType};
use turn_client_proto::api::TurnRecvRet;
use turn_client_proto::prelude::TurnClientApi;
use turn_client_proto::tcp::TurnClientTcp;
use turn_desk::Desk;

/// Passes a chunk of the server's stream to a client, and then takes all data that is buffered.
/// Returns the count of frames that carried data from a peer.
pub(crate) fn drain(
    client: &mut TurnClientTcp,
    chunk: &[u8],
    now: Instant,
) -> Result<u64, NoMemory> {
    let came = Transmit::new(
        chunk,
        TransportType::Tcp,
        client.remote_addr(),
        client.local_addr(),
    );
    let first = match client.recv(came, now) {
        TurnRecvRet::PeerData(_) => 1,
        TurnRecvRet::NoMemory(_) => return Err(NoMemory),
        _ => 0,
    };
    for more in 0..u64::MAX {
        if client.poll_recv(now)?.is_none() {
            return Ok(more.saturating_add(first));
        }
    }
    Ok(u64::MAX)
}

/// Passes what a client sends now to a server core, and the reply to the client in two chunks.
pub(crate) fn ask_in_chunks(
    alloc: Global,
    client: &mut TurnClientTcp,
    desk: &mut Desk,
    now: Instant,
) -> Result<(), NoMemory> {
    let Some(sent) = client.poll_transmit(now)? else {
        return Ok(());
    };
    let mut words = ChaCha20Rng::from_seed([0; 32]);
    let replied = match decision(alloc) {
        Ok(decision) => {
            let replied = desk.handle(sent.bytes.as_slice(), sent.from, now, &decision, &mut words);
            drop(decision);
            replied
        }
        Err(error) => Err(error),
    };
    drop(sent);
    match replied {
        Ok(Some(reply)) => {
            let done = dispatch_halves(client, reply.as_slice(), now);
            drop(reply);
            done
        }
        Ok(None) => Ok(()),
        Err(error) => Err(error),
    }
}

/// Passes both halves of a reply to a client.
fn dispatch_halves(client: &mut TurnClientTcp, reply: &[u8], now: Instant) -> Result<(), NoMemory> {
    let (head, rest) = reply.split_at(reply.len() / 2);
    drain(client, head, now)?;
    drain(client, rest, now)?;
    Ok(())
}

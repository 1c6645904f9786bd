//! Times the signed success responses that a client receives.

use crate::client::{desk, dispatch, hold, over_udp, peer, time};
use rand_chacha::ChaCha20Rng;
use rand_core::SeedableRng;
use std::alloc::Global;
use stun_types_base::list::ListOf;
use stun_types_base::memory::NoMemory;
use stun_types_base::transport::TransportType;
use turn_client_proto::api::TurnClientApi;
use turn_client_proto_api::event::TurnEvent;
use turn_desk_core::decision::Decision;
use turn_desk_core::desk::Desk;

/// Has a client request `requested` permissions, each for another peer, has a server core respond
/// to them all, and then passes `taken` of the responses to the client.
///
/// Returns how many permissions the client reported; 0 if an allocation failed. `bench.c` compares
/// the result.
#[unsafe(no_mangle)]
pub extern "C" fn stun_bench_take_successes(
    alloc: Global,
    requested: usize,
    taken: usize,
) -> usize {
    let Ok(mut client) = over_udp(alloc) else {
        return 0;
    };
    let reported = match desk(alloc) {
        Ok(mut desk) => {
            let reported = permitted(alloc, &mut client, &mut desk, requested, taken);
            drop(desk);
            reported
        }
        Err(_) => 0,
    };
    drop(client);
    reported
}

/// Does the work of `stun_bench_take_successes` with this client and this server core.
fn permitted(
    alloc: Global,
    client: &mut impl TurnClientApi,
    desk: &mut Desk,
    requested: usize,
    taken: usize,
) -> usize {
    if hold(alloc, client, desk, 0).is_err() {
        return 0;
    }
    let mut reported = 0usize;
    if let Ok(replies) = replies(alloc, client, desk, requested) {
        let now = time(requested.saturating_add(2));
        for reply in replies.as_slice().iter().take(taken) {
            dispatch(client, reply.as_slice(), now);
        }
        for _ in 0..requested.saturating_add(2) {
            if let Some(TurnEvent::PermissionCreated(..)) = client.poll_event() {
                reported = reported.saturating_add(1);
            }
        }
        drop(replies);
    }
    reported
}

/// Returns the server core's responses to a client that requests `requested` permissions.
fn replies(
    alloc: Global,
    client: &mut impl TurnClientApi,
    desk: &mut Desk,
    requested: usize,
) -> Result<ListOf<Vec<u8>>, NoMemory> {
    let mut replies = ListOf::new(alloc);
    for i in 0..requested {
        let now = time(i.saturating_add(2));
        // A refused call sends nothing and gets no response; the events show it.
        let _ = client.create_permission(TransportType::Udp, peer(i, 0).ip(), now);
        if let Some(reply) = answered(client, desk, i)? {
            replies.push(reply)?;
        }
    }
    Ok(replies)
}

/// Returns the server core's response to the client's next message, sent when this many requests
/// have been.
fn answered(
    client: &mut impl TurnClientApi,
    desk: &mut Desk,
    requests: usize,
) -> Result<Option<Vec<u8>>, NoMemory> {
    let now = time(requests.saturating_add(2));
    match client.poll_transmit(now)? {
        Some(sent) => {
            let mut words = ChaCha20Rng::from_seed([0; 32]);
            let bytes = sent.bytes.as_slice();
            let reply = desk.handle(bytes, sent.from, now, &Decision::Grant, &mut words);
            drop(sent);
            reply
        }
        None => Ok(None),
    }
}

//! Times a server core with many users, and one that gets requests from many addresses.

use crate::client::{add_user, address, desk};
use rand_chacha::ChaCha20Rng;
use rand_core::SeedableRng;
use std::alloc::Global;
use stun_proto_server::long_term::LongTermServerAuth;
use stun_types_base::instant::Instant;
use stun_types_base::memory::NoMemory;
use turn_desk_core::decision::Decision;
use turn_desk_core::desk::Desk;

/// The first address of the clients.
const CLIENT: (u32, u16) = (0x0a01_0000, 1000);
/// The limit on addresses of `stun_bench_limited`.
const MOST_CLIENTS: usize = 1000;

/// Has a new server core with this many users more than that of `desk`, `u0`, `u1` and so on,
/// handle these bytes `rounds` times, from one address at time 0.
///
/// Returns how many replies there were; 0 if an allocation failed. `users.c` compares the result.
#[unsafe(no_mangle)]
pub extern "C" fn stun_bench_users(alloc: Global, users: u32, rounds: u32, bytes: &[u8]) -> usize {
    match desk_of(alloc, users) {
        Ok(mut desk) => {
            let replies = serve(&mut desk, rounds, false, bytes);
            drop(desk);
            replies
        }
        Err(_) => 0,
    }
}

/// Has a new server core with one user handle these bytes once from each of `addresses` addresses,
/// at time 0.
///
/// Returns how many replies there were; 0 if an allocation failed. `users.c` compares the result.
#[unsafe(no_mangle)]
pub extern "C" fn stun_bench_addresses(alloc: Global, addresses: u32, bytes: &[u8]) -> usize {
    match desk(alloc) {
        Ok(mut desk) => {
            let replies = serve(&mut desk, addresses, true, bytes);
            drop(desk);
            replies
        }
        Err(_) => 0,
    }
}

/// The same, of a server core that stores something for at most 1000 addresses.
#[unsafe(no_mangle)]
pub extern "C" fn stun_bench_limited(alloc: Global, addresses: u32, bytes: &[u8]) -> usize {
    match desk(alloc) {
        Ok(mut desk) => {
            desk.auth_mut().set_max_clients(Some(MOST_CLIENTS));
            let replies = serve(&mut desk, addresses, true, bytes);
            drop(desk);
            replies
        }
        Err(_) => 0,
    }
}

/// Creates a server core that knows this many users more than that of `desk`.
fn desk_of(alloc: Global, users: u32) -> Result<Desk, NoMemory> {
    let mut desk = desk(alloc)?;
    match add_users(alloc, desk.auth_mut(), users) {
        Ok(()) => Ok(desk),
        Err(error) => {
            drop(desk);
            Err(error)
        }
    }
}

/// Adds the users `u0`, `u1` and so on to a server's users.
fn add_users(alloc: Global, auth: &mut LongTermServerAuth, users: u32) -> Result<(), NoMemory> {
    for number in 0..users {
        let Ok(name) = format!(in alloc; "u{number}") else {
            return Err(NoMemory);
        };
        let added = add_user(alloc, auth, name.as_str(), "pass");
        drop(name);
        added?;
    }
    Ok(())
}

/// Has a server core handle these bytes `rounds` times at time 0, each time from another address or
/// always from the same one. Returns how many replies there were; 0 if an allocation failed.
fn serve(desk: &mut Desk, rounds: u32, is_new_each: bool, bytes: &[u8]) -> usize {
    let mut words = ChaCha20Rng::from_seed([0; 32]);
    let now = Instant::from_nanos(0);
    let mut replies = 0usize;
    for round in 0..rounds {
        let host = CLIENT.0.wrapping_add(if is_new_each { round } else { 0 });
        let from = address(host, CLIENT.1);
        match desk.handle(bytes, from, now, &Decision::Grant, &mut words) {
            Ok(Some(reply)) => {
                drop(reply);
                replies = replies.saturating_add(1);
            }
            Ok(None) => {}
            Err(_) => return 0,
        }
    }
    replies
}

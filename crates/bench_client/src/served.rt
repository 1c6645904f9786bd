//! A server core that receives any datagrams, for the fuzzer `tests/fuzz/desk.c`.

use crate::client::{add_user, desk};
use rand_chacha::ChaCha20Rng;
use rand_core::SeedableRng;
use std::alloc::Global;
use std::net::{Ipv4Addr, Ipv6Addr, SocketAddr, SocketAddrV4, SocketAddrV6};
use stun_types_base::instant::Instant;
use stun_types_base::list::ListOf;
use stun_types_base::memory::NoMemory;
use turn_desk_core::decision::Decision;
use turn_desk_core::desk::Desk;

/// The results in the log: no reply, a reply, or a failed allocation.
const NONE: u8 = 0;

const REPLY: u8 = 1;

const NO_MEMORY: u8 = 2;

/// The time that one unit of a datagram's head lets pass, in nanoseconds.
const UNIT: u64 = 120_000_000_000;

/// Has a new server core with two users handle the datagrams of an input, and writes a log of the
/// results to `out`. Returns how many bytes it wrote; 0 if the server core couldn't be made.
///
/// A datagram is preceded by four bytes: a number of its source address, a choice of the decision
/// (modulo 8) and of the time that passes before it (divided by 8), and its length, the high byte
/// first. An input that ends early gives a shorter datagram. Words for nonces come from the
/// all-zero seed.
///
/// The log has an entry for each datagram until `out` is full: the result, the number of grants
/// modulo 256, and the length of the reply, the high byte first, and then the reply.
#[unsafe(no_mangle)]
pub extern "C" fn stun_fuzz_desk(alloc: Global, input: &[u8], out: &mut [u8]) -> usize {
    match two_users(alloc) {
        Ok(mut desk) => {
            let written = serve_all(alloc, &mut desk, input, out);
            drop(desk);
            written
        }
        Err(_) => 0,
    }
}

/// Creates a server core with the users `user` and `other`.
fn two_users(alloc: Global) -> Result<Desk, NoMemory> {
    let mut desk = desk(alloc)?;
    match add_user(alloc, desk.auth_mut(), "other", "word") {
        Ok(()) => Ok(desk),
        Err(error) => {
            drop(desk);
            Err(error)
        }
    }
}

/// Does the work of `stun_fuzz_desk` with this server core.
fn serve_all(alloc: Global, desk: &mut Desk, input: &[u8], out: &mut [u8]) -> usize {
    let mut words = ChaCha20Rng::from_seed([0; 32]);
    let mut written = 0usize;
    let mut now = 0u64;
    let mut rest = input;
    for _ in 0..input.len() {
        let [from, choice, high, low, tail @ ..] = rest else {
            break;
        };
        let size = (*high as usize * 256 + *low as usize).min(tail.len());
        let (bytes, next) = tail.split_at(size);
        now = now.saturating_add((*choice / 8) as u64 * UNIT);
        let reply = serve(alloc, desk, bytes, source(*from), now, *choice, &mut words);
        written = log(out, written, &reply, desk.grants().len());
        drop(reply);
        rest = next;
    }
    written
}

/// Has a server core handle one datagram.
fn serve(
    alloc: Global,
    desk: &mut Desk,
    bytes: &[u8],
    from: SocketAddr,
    now: u64,
    choice: u8,
    words: &mut ChaCha20Rng,
) -> Result<Option<Vec<u8>>, NoMemory> {
    let decision = decided(alloc, choice)?;
    let reply = desk.handle(bytes, from, Instant::from_nanos(now), &decision, words);
    drop(decision);
    reply
}

/// Returns the source address with this number: an even number gives IPv4, an odd one IPv6.
fn source(number: u8) -> SocketAddr {
    if number % 2 == 0 {
        SocketAddr::V4(SocketAddrV4::new(Ipv4Addr::new(192, 168, 0, number), 1000))
    } else {
        let ip = Ipv6Addr::new(0x2001, 0xdb8, 0, 0, 0, 0, 0, number as u16);
        SocketAddr::V6(SocketAddrV6::new(ip, 1000, 0, 0))
    }
}

/// Returns the decision of this choice.
fn decided(alloc: Global, choice: u8) -> Result<Decision, NoMemory> {
    match choice % 8 {
        0 => Ok(Decision::Grant),
        1 => Ok(Decision::Refuse(403)),
        2 => Ok(Decision::Refresh { lifetime: 600 }),
        3 => Ok(Decision::Connect { number: 7 }),
        4 => relayed(alloc, &[source(8)]),
        5 => relayed(alloc, &[source(8), source(9)]),
        6 => relayed(alloc, &[source(8), source(10)]),
        _ => relayed(alloc, &[]),
    }
}

/// Returns the decision to allocate these addresses for ten minutes.
fn relayed(alloc: Global, relayed: &[SocketAddr]) -> Result<Decision, NoMemory> {
    let mut addresses = ListOf::new(alloc);
    for address in relayed {
        addresses.push(*address)?;
    }
    Ok(Decision::Allocate {
        addresses,
        lifetime: 600,
    })
}

/// Writes the entry of a datagram to the log, where `written` bytes are written already. Returns
/// how many are written then.
fn log(
    out: &mut [u8],
    written: usize,
    reply: &Result<Option<Vec<u8>>, NoMemory>,
    grants: usize,
) -> usize {
    let (result, bytes): (u8, &[u8]) = match reply {
        Ok(Some(reply)) => (REPLY, reply.as_slice()),
        Ok(None) => (NONE, &[]),
        Err(_) => (NO_MEMORY, &[]),
    };
    let size = bytes.len();
    let head = [
        result,
        (grants % 256) as u8,
        (size / 256 % 256) as u8,
        (size % 256) as u8,
    ];
    let middle = put(out, written, &head);
    put(out, middle, bytes)
}

/// Writes as many of these bytes as fit at this index. Returns the index after them.
fn put(out: &mut [u8], at: usize, bytes: &[u8]) -> usize {
    let mut at = at;
    for byte in bytes {
        if let Some(slot) = out.get_mut(at) {
            *slot = *byte;
            at = at.saturating_add(1);
        }
    }
    at
}

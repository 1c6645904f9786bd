//! Times an agent that has outstanding requests and is polled.

use std::alloc::Global;
use std::net::{Ipv4Addr, SocketAddr, SocketAddrV4};
use stun_proto_agent::agent::{StunAgent, StunAgentPollRet};
use stun_types_base::instant::Instant;
use stun_types_base::transport::TransportType;

/// The time between two requests, in nanoseconds.
const APART: u64 = 1000;

/// The bits of `asks`: `poll_transmit` is called, `poll` is called, or both, in this order.
const ASKS_TRANSMIT: u32 = 1;

const ASKS_POLL: u32 = 2;

/// Returns a BINDING request without attributes, for this index. Consecutive transaction IDs are in
/// no order.
fn request(index: u64) -> [u8; 20] {
    let high = index.wrapping_mul(0x9e37_79b9_7f4a_7c15).to_be_bytes();
    let low = index.to_be_bytes();
    [
        0, 1, 0, 0, 0x21, 0x12, 0xa4, 0x42, high[0], high[1], high[2], high[3], high[4], high[5],
        high[6], high[7], low[4], low[5], low[6], low[7],
    ]
}

/// Has a new agent send `requests` requests, a microsecond apart, and then polls it `rounds` times.
///
/// The first poll is at `from`. Each time `poll` returns a time to wait until, the next poll is at
/// that time, if it is not later than `until`. Returns how many requests were retransmitted or
/// ended. `bench.c` compares the result.
#[unsafe(no_mangle)]
pub extern "C" fn stun_bench_agent(
    alloc: Global,
    is_tcp: bool,
    requests: usize,
    asks: u32,
    rounds: usize,
    from: u64,
    until: u64,
) -> usize {
    let transport = if is_tcp {
        TransportType::Tcp
    } else {
        TransportType::Udp
    };
    let here = SocketAddr::V4(SocketAddrV4::new(Ipv4Addr::new(192, 168, 0, 1), 1000));
    let mut agent = StunAgent::builder(alloc, transport, here).build();
    send(&mut agent, requests, here);
    let done = drive(&mut agent, asks, rounds, from, until);
    drop(agent);
    done
}

/// Sends a number of requests to an address. If an allocation fails, the results show it.
fn send(agent: &mut StunAgent, requests: usize, to: SocketAddr) {
    for index in 0..requests as u64 {
        let now = Instant::from_nanos(index.wrapping_mul(APART));
        let _ = agent.send_request(request(index).as_slice(), to, now);
    }
}

/// Polls an agent `rounds` times, at times between `from` and `until`. Returns how many requests
/// were retransmitted or ended.
fn drive(agent: &mut StunAgent, asks: u32, rounds: usize, from: u64, until: u64) -> usize {
    let mut now = from;
    let mut done = 0usize;
    for _ in 0..rounds {
        let time = Instant::from_nanos(now);
        if asks & ASKS_TRANSMIT != 0 && agent.poll_transmit(time).is_some() {
            done = done.saturating_add(1);
        } else if asks & ASKS_POLL != 0 {
            match agent.poll(time) {
                StunAgentPollRet::WaitUntil(next) => now = at_most(next, until, now),
                StunAgentPollRet::TransactionTimedOut(_)
                | StunAgentPollRet::TransactionCancelled(_) => done = done.saturating_add(1),
            }
        }
    }
    done
}

/// Returns the nanoseconds of `time` if they are at most `most`, and `others` otherwise.
fn at_most(time: Instant, most: u64, others: u64) -> u64 {
    let nanos = time.as_nanos();
    if nanos <= most { nanos } else { others }
}

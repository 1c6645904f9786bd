//! The agent that settings make, and how long its requests wait.

use crate::line::Line;
use std::net::{IpAddr, Ipv4Addr, SocketAddr};
use stun_proto_agent::agent::{StunAgent, StunAgentPollRet};
use stun_types_base::instant::Instant;
use stun_types_base::transport::TransportType;
use turn_client_proto_api::config::TurnConfig;

/// A BINDING request with transaction ID 1 (RFC 8489, section 5).
const REQUEST: &[u8] = b"\0\x01\0\0\x21\x12\xa4\x42\0\0\0\0\0\0\0\0\0\0\0\x01";

/// The maximum number of iterations of `drive`, which is more than there are transmissions.
const MOST_TURNS: u32 = 32;

/// `agent TRANSPORT END`: makes the agent of the last settings, and prints when it retransmits a
/// request and when it gives it up. END is the time, in nanoseconds, at which it should give up.
pub(crate) fn agent(line: &mut Line<'_>, stored: &[TurnConfig]) {
    let (transport, end) = (line.value(TransportType::Udp), line.value(0u64));
    match stored.last() {
        Some(config) => {
            let local = SocketAddr::new(IpAddr::V4(Ipv4Addr::new(192, 168, 0, 1)), 1000);
            let builder = config.stun_agent_builder(line.alloc, transport, local);
            let mut agent = builder.build();
            show(line, &agent);
            request(line, &mut agent);
            drive(line, &mut agent, end);
            end_of(line, &mut agent, end);
        }
        None => line.is_bad = true,
    }
}

/// Prints the transport, the agent's local address and the remote address.
fn show(line: &mut Line<'_>, agent: &StunAgent) {
    let (transport, local, remote) = (agent.transport(), agent.local_addr(), agent.remote_addr());
    let _ = write!(line.answer, " {transport} {local} {remote:?}");
}

/// Sends the request at time 0.
fn request(line: &mut Line<'_>, agent: &mut StunAgent) {
    let to = SocketAddr::new(IpAddr::V4(Ipv4Addr::new(192, 168, 0, 2)), 3478);
    match agent.send_request(REQUEST, to, Instant::ZERO) {
        Ok(sent) => line.say(&sent.to),
        Err(error) => line.say(&error),
    }
}

/// Prints the times, in nanoseconds, at which an agent retransmits before the end.
fn drive(line: &mut Line<'_>, agent: &mut StunAgent, end: u64) {
    let early = Instant::from_nanos(end.saturating_sub(1));
    let mut now = Instant::ZERO;
    line.say(&"again");
    for _ in 0..MOST_TURNS {
        if agent.poll_transmit(now).is_some() {
            line.say(&now.as_nanos());
        } else if let StunAgentPollRet::WaitUntil(next) = agent.poll(now) {
            now = next.min(early);
        }
    }
}

/// Prints the results of polling an agent one nanosecond before the end, at the end, and at the end
/// again.
fn end_of(line: &mut Line<'_>, agent: &mut StunAgent, end: u64) {
    for now in [end.saturating_sub(1), end, end] {
        match agent.poll(Instant::from_nanos(now)) {
            StunAgentPollRet::TransactionTimedOut(number) => {
                let _ = write!(line.answer, " {now} timed out {number}");
            }
            StunAgentPollRet::TransactionCancelled(number) => {
                let _ = write!(line.answer, " {now} cancelled {number}");
            }
            StunAgentPollRet::WaitUntil(next) => {
                let _ = write!(line.answer, " {now} waits {}", next.as_nanos());
            }
        }
    }
}

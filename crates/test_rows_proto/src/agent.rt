//! Lines for a STUN agent, which sends requests.

use crate::line::Line;
use crate::party::Party;
use crate::text::{push_hex, read_message};
use line_io::refusal::LineError;
use std::alloc::Global;
use std::time::Duration;
use stun_proto_agent::agent::{StunAgent, StunAgentPollRet};
use stun_proto_agent::error::StunError;
use stun_types_base::instant::Instant;
use stun_types_base::transmit::Transmit;

/// Returns an agent with a transport and a local address. The line may also name the remote address
/// and, with a maximum wait, the retransmission schedule.
pub(crate) fn new_agent(alloc: Global, line: &Line<'_>) -> StunAgent {
    let builder = StunAgent::builder(alloc, line.transport, line.address);
    let builder = match line.remote {
        Some(remote) => builder.remote_addr(remote),
        None => builder,
    };
    let builder = match line.most {
        Some(most) => builder.request_retransmits(line.initial, most, line.times, line.following),
        None => builder,
    };
    builder.build()
}

impl Party for StunAgent {
    fn answer(
        &mut self,
        _alloc: Global,
        line: &Line<'_>,
        bytes: &[u8],
        text: &mut String,
    ) -> Result<(), LineError> {
        match line.what {
            "show" => show(self, text),
            "request" | "send" | "data" => send(self, line, bytes, text),
            "draw" => draw(self, line.now, text),
            "poll" => push_polled(&self.poll(line.now), text),
            "drive" => drive(self, [line.now, line.last], text),
            "is" => Ok(write!(text, "{}", self.is_validated_peer(line.address))?),
            "validate" => {
                self.validated_peer(line.address)?;
                Ok(text.push_str("ok")?)
            }
            "known" => known(self, line, text),
            "hear" => process(self, line, bytes, text),
            "hold" => hold(self, line, bytes, text),
            _ => change(self, line, text),
        }
    }
}

/// Appends the transport, the agent's local address and the remote address.
fn show(agent: &StunAgent, text: &mut String) -> Result<(), LineError> {
    let (transport, local) = (agent.transport(), agent.local_addr());
    let remote = agent.remote_addr();
    Ok(write!(text, "{transport} {local} {remote:?}")?)
}

/// Sends a request, another message or data.
fn send(
    agent: &mut StunAgent,
    line: &Line<'_>,
    bytes: &[u8],
    text: &mut String,
) -> Result<(), LineError> {
    match line.what {
        "request" => push_answer(agent.send_request(bytes, line.address, line.now), text),
        "send" => push_answer(agent.send(bytes, line.address, line.now), text),
        _ => push_answer(Ok(agent.send_data(bytes, line.address)), text),
    }
}

/// Appends what is sent, or the error.
fn push_answer(
    answer: Result<Transmit<&[u8]>, StunError>,
    text: &mut String,
) -> Result<(), LineError> {
    match answer {
        Ok(sent) => push_sent(&sent, text),
        Err(error) => Ok(write!(text, "{error:?}")?),
    }
}

/// Appends the bytes that are sent, with their transport and addresses.
fn push_sent(sent: &Transmit<&[u8]>, text: &mut String) -> Result<(), LineError> {
    let (transport, from, to) = (sent.transport, sent.from, sent.to);
    write!(text, "sends {transport} {from} {to} ")?;
    push_hex(text, sent.bytes)
}

/// Appends what is due for retransmission at this time.
fn draw(agent: &mut StunAgent, now: Instant, text: &mut String) -> Result<(), LineError> {
    match agent.poll_transmit(now) {
        Some(sent) => push_sent(&sent, text),
        None => Ok(text.push_str("nothing")?),
    }
}

/// Appends the result of polling an agent.
fn push_polled(answer: &StunAgentPollRet, text: &mut String) -> Result<(), LineError> {
    match answer {
        StunAgentPollRet::TransactionTimedOut(number) => write!(text, "timed out {number}")?,
        StunAgentPollRet::TransactionCancelled(number) => write!(text, "cancelled {number}")?,
        StunAgentPollRet::WaitUntil(next) => write!(text, "waits {}", next.as_nanos())?,
    }
    Ok(())
}

/// The maximum number of iterations of `drive`.
const MOST_TURNS: u32 = 64;

/// Drives an agent from a start time. Each iteration appends the time and what is due for
/// retransmission; if nothing is due, it appends the result of `poll` and continues at the time
/// until which the agent waits. It ends after the last time.
fn drive(
    agent: &mut StunAgent,
    [from, last]: [Instant; 2],
    text: &mut String,
) -> Result<(), LineError> {
    let mut now = from;
    for _ in 0..MOST_TURNS {
        write!(text, "{} ", now.as_nanos())?;
        if let Some(sent) = agent.poll_transmit(now) {
            push_sent(&sent, text)?;
        } else {
            let answer = agent.poll(now);
            push_polled(&answer, text)?;
            if let StunAgentPollRet::WaitUntil(next) = &answer {
                now = *next;
            }
        }
        if now > last {
            return Ok(());
        }
        text.push_str("\n")?;
    }
    Ok(())
}

/// Appends the properties of the request with this transaction ID: its destination, the algorithm
/// of its integrity attribute, and its agent's local address. It reads them through the shared and
/// through the mutable request.
fn known(agent: &mut StunAgent, line: &Line<'_>, text: &mut String) -> Result<(), LineError> {
    let visible = match agent.request_transaction(line.number) {
        Some(it) => Some((it.peer_address(), it.integrity(), it.agent().local_addr())),
        None => None,
    };
    let changed = match agent.mut_request_transaction(line.number) {
        Some(it) => Some((it.peer_address(), it.integrity(), it.agent().local_addr())),
        None => None,
    };
    Ok(write!(text, "{visible:?} {changed:?}")?)
}

/// Passes a message to an agent. It makes the call that takes a time if the line names a time, and
/// otherwise the call without a time.
fn process(
    agent: &mut StunAgent,
    line: &Line<'_>,
    bytes: &[u8],
    text: &mut String,
) -> Result<(), LineError> {
    let message = read_message(bytes)?;
    let is_taken = if line.now > Instant::ZERO {
        agent.handle_stun_message_with_time(&message, line.address, line.now)?
    } else {
        agent.handle_stun_message(&message, line.address)?
    };
    Ok(write!(text, "{is_taken}")?)
}

/// Borrows the request with this transaction ID, passes a message to its agent, and then changes
/// the request in each way. Appends the request's properties and the result of polling the agent at
/// time 0.
fn hold(
    agent: &mut StunAgent,
    line: &Line<'_>,
    bytes: &[u8],
    text: &mut String,
) -> Result<(), LineError> {
    let message = read_message(bytes)?;
    let Some(mut request) = agent.mut_request_transaction(line.number) else {
        return Ok(text.push_str("no request")?);
    };
    let is_taken = request
        .mut_agent()
        .handle_stun_message(&message, line.address)?;
    request.cancel();
    request.cancel_retransmissions();
    request.configure_timeout(Duration::ZERO, 1, Duration::ZERO);
    request.configure_timeout_with_max(Duration::ZERO, 1, Duration::ZERO, Duration::ZERO);
    let (to, integrity) = (request.peer_address(), request.integrity());
    let answer = request.mut_agent().poll(Instant::ZERO);
    write!(text, "{is_taken} {to} {integrity:?} ")?;
    push_polled(&answer, text)
}

/// Changes the request with this transaction ID: cancels it, stops its retransmissions, or sets its
/// waits.
fn change(agent: &mut StunAgent, line: &Line<'_>, text: &mut String) -> Result<(), LineError> {
    let Some(mut request) = agent.mut_request_transaction(line.number) else {
        return Ok(text.push_str("no request")?);
    };
    match (line.what, line.most) {
        ("cancel", _) => request.cancel(),
        ("send-no-more", _) => request.cancel_retransmissions(),
        ("wait", None) => request.configure_timeout(line.initial, line.times, line.following),
        ("wait", Some(most)) => {
            request.configure_timeout_with_max(line.initial, line.times, line.following, most);
        }
        _ => return Err(LineError::Bad),
    }
    Ok(text.push_str("ok")?)
}

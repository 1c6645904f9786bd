//! An exchange over a network that takes time.

ghost use Rattle.std.specs.Prelude.{◌≡◌, false, IfOk, IsTrue};
ghost use Rattle.test_driver.specs.Carrying.{HasBrought, HasExchanged, HasReturned, IfReplied};
ghost use Rattle.test_driver.specs.Carrying.{IsCutInTwo, IsGiven};

use crate::driving::{MOST_TURNS, Turn, drive, happen, wait};
use crate::network::Network;
use std::alloc::Global;
use stun_proto_auth::claim::error_code_of;
use stun_types_base::data::Data;
use stun_types_base::instant::Instant;
use stun_types_base::memory::NoMemory;
use stun_types_base::transmit::Transmit;
use stun_types_base::transport::TransportType;
use stun_types_message::parsed::Message;
use stun_types_wire::class::MessageClass;
use turn_desk_core::decision::Decision;
use turn_desk_event::answer::Answer;
use turn_desk_event::event::Event;
use turn_desk_world::world::World;

/// The server core's reply to a request.
#[derive(Clone, Copy, Debug)]
pub enum Answered {
    /// None, or one that is neither of these; or the client sent no request.
    Neither,
    /// A success response.
    Success,
    /// An error response with this code.
    Error(u16),
}

/// Runs the driver's loop until the client transmits a request, for at most `patience` nanoseconds,
/// and delivers the request and the reply.
pub fn exchange(
    alloc: Global,
    world: &mut World,
    network: &mut Network,
    patience: u64,
    decision: Decision,
) -> Result<Answered, NoMemory>
    ensures { network.old.forges ≡ false → IfOk result (λ answered. IfReplied answered
        (HasExchanged patience decision network.old world.old network.new world.new)) }
{
    let until = network.after(patience);
    match drive(world, network, until, MOST_TURNS)? {
        Turn::Transmits(sent) => bring(alloc, world, network, &sent, decision),
        _ => Ok(Answered::Neither),
    }
}

/// Delivers a request to the server core, and the reply to the client. The driver's loop goes on
/// while they are under way.
pub fn bring(
    alloc: Global,
    world: &mut World,
    network: &mut Network,
    sent: &Transmit<Data<'_>>,
    decision: Decision,
) -> Result<Answered, NoMemory>
    ensures { network.old.forges ≡ false → IfOk result (λ answered. IfReplied answered
        (HasBrought decision sent.now network.old world.old network.new world.new)) }
{
    network.record(alloc, sent)?;
    let seed = network.seed();
    let arrival = network.after(network.latency);
    if !wait(alloc, world, network, arrival, MOST_TURNS)? {
        return Ok(Answered::Neither);
    }
    let requested = Event::ToDesk {
        bytes: Vec::from_slice(alloc, sent.bytes.as_slice())?,
        from: sent.from,
        now: network.after(network.lead),
        decision,
        seed,
    };
    match happen(world, requested)? {
        Answer::Reply(bytes) => give(alloc, world, network, bytes.as_slice(), sent),
        _ => Ok(Answered::Neither),
    }
}

/// Delivers a reply to the client, over TCP in two chunks.
fn give(
    alloc: Global,
    world: &mut World,
    network: &mut Network,
    reply: &[u8],
    sent: &Transmit<Data<'_>>,
) -> Result<Answered, NoMemory>
    ensures { network.old.forges ≡ false → IfOk result (λ answered. IfReplied answered
        (HasReturned reply.now sent.now network.old world.old network.new world.new)) }
{
    let arrival = network.after(network.latency);
    if !wait(alloc, world, network, arrival, MOST_TURNS)? {
        return Ok(Answered::Neither);
    }
    forge(alloc, world, network, reply, sent)?;
    match sent.transport {
        TransportType::Udp => {
            give_chunk(alloc, world, network.time, reply, sent)?;
            Ok(answered_by(reply))
        }
        TransportType::Tcp => {
            if give_chunks(alloc, world, network, reply, sent)? {
                Ok(answered_by(reply))
            } else {
                Ok(Answered::Neither)
            }
        }
    }
}

/// The time between the two chunks of a reply, in nanoseconds.
pub const PAUSE: u64 = 1_000_000;

/// Delivers a reply to the client in two chunks, neither of which is empty. Returns whether both
/// came.
fn give_chunks(
    alloc: Global,
    world: &mut World,
    network: &mut Network,
    reply: &[u8],
    sent: &Transmit<Data<'_>>,
) -> Result<bool, NoMemory>
    ensures { IfOk result (λ came. IsTrue came
        → IsCutInTwo reply.now sent.now network.old world.old network.new world.new) }
{
    if reply.len() < 2 {
        return Ok(false);
    }
    let (head, rest) = reply.split_at(network.cut.max(1).min(reply.len() - 1));
    network.cut_later();
    give_chunk(alloc, world, network.time, head, sent)?;
    let later = network.after(PAUSE);
    if !wait(alloc, world, network, later, MOST_TURNS)? {
        return Ok(false);
    }
    give_chunk(alloc, world, network.time, rest, sent)?;
    Ok(true)
}

/// Delivers bytes from the server to the client.
fn give_chunk(
    alloc: Global,
    world: &mut World,
    now: Instant,
    chunk: &[u8],
    sent: &Transmit<Data<'_>>,
) -> Result<(), NoMemory>
    ensures { IfOk result (λ given. IsGiven chunk.now sent.now now world.old world.new) }
{
    let given = Event::ToClient {
        bytes: Vec::from_slice(alloc, chunk)?,
        from: sent.to,
        to: sent.from,
        now,
    };
    happen(world, given)?;
    Ok(())
}

/// Delivers two forged datagrams to the client, if this network has any: the reply from another
/// address, and from the server's address the reply with another transaction ID.
fn forge(
    alloc: Global,
    world: &mut World,
    network: &Network,
    reply: &[u8],
    sent: &Transmit<Data<'_>>,
) -> Result<(), NoMemory>
    ensures { network.now.forges ≡ false → world.new ≡ world.old }
{
    if !network.forges {
        return Ok(());
    }
    for (from, change) in [(sent.from, 0), (sent.to, 1)] {
        let mut bytes = Vec::from_slice(alloc, reply)?;
        if let Some(byte) = bytes.get_mut(19) {
            *byte ^= change;
        }
        let (to, now) = (sent.from, network.time);
        let given = Event::ToClient {
            bytes,
            from,
            to,
            now,
        };
        happen(world, given)?;
    }
    Ok(())
}

/// Returns which reply bytes are.
fn answered_by(bytes: &[u8]) -> Answered {
    match Message::from_bytes(bytes) {
        Ok(message) => {
            if message.has_class(MessageClass::Success) {
                return Answered::Success;
            }
            match error_code_of(&message) {
                Some(code) => Answered::Error(code),
                None => Answered::Neither,
            }
        }
        Err(_) => Answered::Neither,
    }
}

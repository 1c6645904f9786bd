//! An honest network. It delivers each message of the client and each reply of the server core once
//! and unaltered, at the time at which the client transmitted.

ghost use Rattle.std.specs.Prelude.{IfOk};
ghost use Rattle.test_honest_network.specs.Exchanges.{IsCarried, IsDelivered};

use std::alloc::Global;
use stun_types_base::data::Data;
use stun_types_base::instant::Instant;
use stun_types_base::memory::NoMemory;
use stun_types_base::transmit::Transmit;
use test_driver::driving::happen;
use turn_desk_core::decision::Decision;
use turn_desk_event::answer::Answer;
use turn_desk_event::event::Event;
use turn_desk_world::world::World;

/// How far an exchange went.
#[derive(Clone, Copy)]
pub(crate) enum Carried {
    /// The client sent nothing.
    Unsent,
    /// The server core did not reply.
    Unanswered,
    /// The reply reached the client.
    Replied,
}

/// Polls the client for a message, delivers it to the server core, and delivers the reply to the
/// client. The server core receives this decision; a seed of zeros generates its nonce.
pub(crate) fn carry(
    alloc: Global,
    world: &mut World,
    now: Instant,
    decision: Decision,
) -> Result<Carried, NoMemory>
    ensures { IfOk result (λ carried.
        IsCarried now decision world.old carried world.new) }
{
    match happen(world, Event::Draw(now))? {
        Answer::Transmit(sent) => deliver(alloc, world, &sent, now, decision),
        _ => Ok(Carried::Unsent),
    }
}

/// Delivers to the server core what the client sent, and to the client what the server core
/// replies.
fn deliver(
    alloc: Global,
    world: &mut World,
    sent: &Transmit<Data<'_>>,
    now: Instant,
    decision: Decision,
) -> Result<Carried, NoMemory>
    ensures { IfOk result (λ carried.
        IsDelivered sent.now now decision world.old carried world.new) }
{
    let requested = Event::ToDesk {
        bytes: Vec::from_slice(alloc, sent.bytes.as_slice())?,
        from: sent.from,
        now,
        decision,
        seed: [0; 32],
    };
    match happen(world, requested)? {
        Answer::Reply(bytes) => {
            let given = Event::ToClient {
                bytes,
                from: sent.to,
                to: sent.from,
                now,
            };
            happen(world, given)?;
            Ok(Carried::Replied)
        }
        _ => Ok(Carried::Unanswered),
    }
}

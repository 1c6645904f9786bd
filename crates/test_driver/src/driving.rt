//! A driver's loop: it polls the client for messages until none is left, polls it, polls its events
//! until none is left, and goes on at the next time for which the client or the network waits.

ghost use Rattle.std.specs.Prelude.{IfOk};
ghost use Rattle.test_driver.specs.Driving.{Drives, Happened, HasWaited, IsDrivenTo, IsNoMessage};
ghost use Rattle.test_driver.specs.Driving.{IsQuiet, IsTaken};

use crate::network::Network;
use std::alloc::Global;
use std::net::SocketAddr;
use std::slice;
use stun_types_base::data::Data;
use stun_types_base::instant::Instant;
use stun_types_base::memory::NoMemory;
use stun_types_base::transmit::Transmit;
use turn_desk_event::answer::Answer;
use turn_desk_event::event::{ClientCall, Event};
use turn_desk_world::world::World;
use turn_desk_world_laws::running::Runs;

/// Runs one event and returns its answer.
pub fn happen(world: &mut World, event: Event) -> Result<Answer, NoMemory>
    ensures { IfOk result (λ answer. Happened event world.old answer world.new) }
{
    let mut answers = world.run(slice::from_ref(&event))?;
    match answers.pop() {
        Some(answer) => Ok(answer),
        // One event has one answer.
        None => unreachable!(),
    }
}

/// How a part of the driver's loop ended.
#[derive(Debug, Drop)]
pub enum Turn {
    /// The client transmits this.
    Transmits(Transmit<Data<'static>>),
    /// The client waits until this time.
    Waits(Instant),
    /// The client asks for a socket, for the connection with this ID to this peer.
    Connects(u32, SocketAddr),
    /// The client has ended, or the loop took too many turns.
    Ends,
}

/// The most turns of one part of the driver's loop, and the most events that are polled in one.
pub const MOST_TURNS: u32 = 40;

/// Runs the driver's loop until the client transmits something or asks for a socket, or until the
/// given time has come.
pub fn drive(
    world: &mut World,
    network: &mut Network,
    until: Instant,
    turns: u32,
) -> Result<Turn, NoMemory>
    ensures { IfOk result (λ turn.
        IsDrivenTo until network.old world.old turn network.new world.new) }
{
    match take_turn(world, network)? {
        Turn::Waits(time) => {
            network.advance(time, until);
            if until <= time {
                Ok(Turn::Waits(until))
            } else if turns == 0 {
                Ok(Turn::Ends)
            } else {
                drive(world, network, until, turns - 1)
            }
        }
        other => Ok(other),
    }
}

/// Polls the client for a message; if there is none, polls it, and polls its events until none is
/// left.
fn take_turn(world: &mut World, network: &mut Network) -> Result<Turn, NoMemory>
    ensures { IfOk result (λ turn. IsTaken network.old world.old turn network.new world.new) }
{
    match happen(world, Event::Draw(network.time))? {
        Answer::Transmit(sent) => Ok(Turn::Transmits(sent)),
        _ => poll(world, network),
    }
}

/// Polls the client, and polls its events until none is left.
fn poll(world: &mut World, network: &mut Network) -> Result<Turn, NoMemory>
    ensures { IfOk result (λ turn. IsTaken network.old world.old turn network.new world.new) }
{
    let polled = happen(world, Event::Call(ClientCall::Poll, network.time))?;
    poll_events(world, network, MOST_TURNS)?;
    let ended = ended_by(&polled);
    drop(polled);
    Ok(ended)
}

/// Returns how the loop goes on after the client was polled with this answer.
fn ended_by(polled: &Answer) -> Turn
    ensures { IsNoMessage result }
{
    match polled {
        Answer::Wait(time) => Turn::Waits(*time),
        Answer::Socket { id, peer, .. } => Turn::Connects(*id, *peer),
        _ => Turn::Ends,
    }
}

/// Polls the client's events until none is left, and records when an allocation is reported.
fn poll_events(world: &mut World, network: &mut Network, most: u32) -> Result<(), NoMemory>
    ensures { IfOk result (λ polled.
        Drives IsQuiet network.old.time network.old world.old network.new world.new) }
{
    let polled = happen(world, Event::Call(ClientCall::PollEvent, network.time))?;
    let more = network.reports(&polled);
    drop(polled);
    if !more || most == 0 {
        return Ok(());
    }
    poll_events(world, network, most - 1)
}

/// Runs the driver's loop until the given time has come. What the client transmits is lost. Returns
/// whether that time has come.
pub fn wait(
    alloc: Global,
    world: &mut World,
    network: &mut Network,
    until: Instant,
    turns: u32,
) -> Result<bool, NoMemory>
    ensures { IfOk result (λ came.
        HasWaited until network.old world.old came network.new world.new) }
{
    match drive(world, network, until, MOST_TURNS)? {
        Turn::Transmits(sent) => {
            network.record(alloc, &sent)?;
            if turns == 0 {
                Ok(false)
            } else {
                wait(alloc, world, network, until, turns - 1)
            }
        }
        Turn::Waits(_) => Ok(true),
        Turn::Connects(_, _) => Ok(false),
        Turn::Ends => Ok(false),
    }
}

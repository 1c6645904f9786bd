//! A client that was allocated an address keeps it by renewing it in time.

ghost use Rattle.std.specs.Prelude.{◌≡◌, ◌≤◌, length, IfOk};
ghost use Rattle.stun_types_base.specs.Family.{family_of_socket};
ghost use Rattle.stun_types_wire.specs.Registry.{longest_text, longest_username};
ghost use Rattle.turn_desk_world_laws.specs.TurnClientProtoStepLaws.Sound.{IsWhole};
ghost use Rattle.turn_desk_progress_laws.specs.TurnClientProtoHandshakeLaws.Stages.{AsksForOne};
ghost use Rattle.turn_desk_progress_laws.specs.Promises.{IsFresh};
ghost use Rattle.turn_desk_progress_laws.specs.Scripts.{Plan};
ghost use Rattle.turn_desk_world.specs.Model.{World as WorldModel};
ghost use Rattle.test_honest_network.specs.Courses.{HasGoneBy, HasStored, IsGiven, IsGranted, IsRefreshed};
ghost use Rattle.test_honest_network.specs.Courses.{IsRest, IsListed, IsStill, IsWait, Where};
ghost use Rattle.test_honest_network.specs.Simulations.{plan_of};

use crate::replying::{draws_nothing, is_success, takes};
use crate::setting::Setting;
use crate::simulation::{LIFETIME, Outcome, SECOND, shake, world_of};
use std::alloc::Global;
use std::net::SocketAddr;
use stun_types_base::data::Data;
use stun_types_base::instant::Instant;
use stun_types_base::memory::NoMemory;
use stun_types_base::transmit::Transmit;
use test_driver::driving::happen;
use turn_desk_core::decision::Decision;
use turn_desk_event::answer::Answer;
use turn_desk_event::event::{ClientCall, Event};
use turn_desk_progress_laws::renewals::renewed_in_time;
use turn_desk_world::world::World;

/// The outcome for the address.
#[derive(Clone, Copy, Debug)]
pub(crate) enum Stored {
    /// No address was allocated.
    Unmet,
    /// The calls did not lead to a renewal, or the client did not list exactly this address after
    /// it.
    Unrenewed,
    /// The address was renewed, and the client still holds it one minute before its new expiry.
    Renewed,
}

/// One minute before the first expiry. The address was granted when the client was polled for its
/// second request (RFC 8656, section 8).
const DUE: u64 = SECOND + (LIFETIME as u64 - 60) * 1_000_000_000;

/// One minute before the expiry that the renewal set.
const AGAIN: u64 = DUE + (LIFETIME as u64 - 60) * 1_000_000_000;

/// Simulates a client and a server core with these settings. After the allocation the test only
/// takes the client's events and polls it, also for messages, at the times for which it waits.
pub(crate) fn keep(
    alloc: Global,
    setting: &Setting<'_>,
    address: SocketAddr,
) -> Result<Stored, NoMemory>
    requires name { length setting.now.name.now ≤ longest_username }
    requires realm { length setting.now.realm.now ≤ longest_text }
    requires family { family_of_socket address ≡ setting.now.family }
    requires whole { IsWhole address }
    ensures { IfOk result (λ stored. (old : WorldModel) × (new : WorldModel)
        × IsFresh (plan_of setting.now) old
        × HasStored (plan_of setting.now) address old stored new) }
{
    let mut world = world_of(alloc, setting)?;
    let stored = simulate_and_keep(alloc, &mut world, address);
    drop(world);
    stored
}

/// Runs the handshake and what follows it.
fn simulate_and_keep(
    alloc: Global,
    world: &mut World,
    address: SocketAddr,
) -> Result<Stored, NoMemory>
    ensures { (plan : Plan)
        → IsFresh plan world.old
        → plan.client.made ≡ 0
        → plan.second ≡ SECOND
        → AsksForOne plan.client address
        → IsWhole address
        → IfOk result (λ stored. (new : WorldModel) × HasStored plan address world.old stored new) }
{
    renewed_in_time();
    let second = Instant::from_nanos(SECOND);
    match shake(alloc, world, Instant::ZERO, second, address)? {
        Outcome::Allocated => wait_and_renew(alloc, world, address),
        Outcome::Silent => Ok(Stored::Unmet),
        Outcome::CannotAgree => Ok(Stored::Unmet),
    }
}

/// Checks that the client has nothing to send until one minute before the expiry and then sends a
/// REFRESH.
fn wait_and_renew(alloc: Global, world: &mut World, address: SocketAddr) -> Result<Stored, NoMemory>
    ensures { IfOk result (λ stored. HasGoneBy world.old stored world.new) }
{
    let second = Instant::from_nanos(SECOND);
    let due = Instant::from_nanos(DUE);
    if !rest(world, second, due)? || !refresh(alloc, world, due)? {
        return Ok(Stored::Unrenewed);
    }
    if hold(world, Instant::from_nanos(AGAIN), address)? {
        Ok(Stored::Renewed)
    } else {
        Ok(Stored::Unrenewed)
    }
}

/// Takes the client's events, checks that it has nothing to send, and polls it. Returns whether it
/// waits until `due` or later.
fn rest(world: &mut World, now: Instant, due: Instant) -> Result<bool, NoMemory>
    ensures { IfOk result (λ rests. Where rests (IsRest now due world.old world.new)) }
{
    takes(world, now)?;
    takes(world, now)?;
    if draws_nothing(world, now)? {
        wait(world, now, due)
    } else {
        Ok(false)
    }
}

/// Polls the client. Returns whether it waits until `due` or later.
fn wait(world: &mut World, now: Instant, due: Instant) -> Result<bool, NoMemory>
    ensures { IfOk result (λ waits. Where waits (IsWait now due world.old world.new)) }
{
    match happen(world, Event::Call(ClientCall::Poll, now))? {
        Answer::Wait(time) => Ok(due <= time),
        _ => Ok(false),
    }
}

/// Polls the client for its REFRESH and delivers it to the server core, which grants it, and the
/// reply to the client.
fn refresh(alloc: Global, world: &mut World, now: Instant) -> Result<bool, NoMemory>
    ensures { IfOk result (λ renews. Where renews (IsRefreshed now world.old world.new)) }
{
    match happen(world, Event::Draw(now))? {
        Answer::Transmit(sent) => grant(alloc, world, &sent, now),
        _ => Ok(false),
    }
}

/// Delivers the REFRESH to the server core, with the decision to grant it, and the success response
/// to the client.
fn grant(
    alloc: Global,
    world: &mut World,
    sent: &Transmit<Data<'_>>,
    now: Instant,
) -> Result<bool, NoMemory>
    ensures { IfOk result (λ grants. Where grants (IsGranted sent.now now world.old world.new)) }
{
    let requested = Event::ToDesk {
        bytes: Vec::from_slice(alloc, sent.bytes.as_slice())?,
        from: sent.from,
        now,
        decision: Decision::Refresh { lifetime: LIFETIME },
        seed: [0; 32],
    };
    match happen(world, requested)? {
        Answer::Reply(bytes) => give(world, bytes, sent, now),
        _ => Ok(false),
    }
}

/// Delivers a reply to the client if it is a success response.
fn give(
    world: &mut World,
    bytes: Vec<u8>,
    sent: &Transmit<Data<'_>>,
    now: Instant,
) -> Result<bool, NoMemory>
    ensures { IfOk result (λ gives.
        Where gives (IsGiven sent.now now bytes world.old world.new)) }
{
    if !is_success(bytes.as_slice()) {
        return Ok(false);
    }
    let given = Event::ToClient {
        bytes,
        from: sent.to,
        to: sent.from,
        now,
    };
    happen(world, given)?;
    Ok(true)
}

/// Polls the client at a later time and lists its addresses. Returns whether this address is the
/// only one.
fn hold(world: &mut World, now: Instant, address: SocketAddr) -> Result<bool, NoMemory>
    ensures { IfOk result (λ holds. Where holds (IsStill now world.old world.new)) }
{
    if wait(world, now, now)? {
        shows(world, now, address)
    } else {
        Ok(false)
    }
}

/// Returns whether the client lists this address and no other.
fn shows(world: &mut World, now: Instant, address: SocketAddr) -> Result<bool, NoMemory>
    ensures { IfOk result (λ shows. Where shows (IsListed now world.old world.new)) }
{
    match happen(world, Event::Call(ClientCall::RelayedAddresses, now))? {
        Answer::Relayed(visible) => match visible.as_slice() {
            [(_, one)] => Ok(*one == address),
            _ => Ok(false),
        },
        _ => Ok(false),
    }
}

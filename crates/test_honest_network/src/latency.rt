//! The handshake of a client and a server core over a network that takes time.

ghost use Rattle.std.specs.Prelude.{◌≡◌, ◌≤◌, [], ◌∷◌, false, length, IfOk};
ghost use Rattle.stun_types_base.specs.Family.{family_of_socket};
ghost use Rattle.stun_types_wire.specs.Registry.{longest_text, longest_username};
ghost use Rattle.turn_desk_world_laws.specs.TurnClientProtoStepLaws.Sound.{IsWhole};
ghost use Rattle.turn_desk_core.specs.declared.decision.Decision.TheVariants.{Allocate};
ghost use Rattle.turn_desk_world.specs.Model.{World as WorldModel};
ghost use Rattle.test_driver.specs.Carrying.{HasExchanged};
ghost use Rattle.test_driver.specs.declared.network.Network.{Network as NetworkModel};
ghost use Rattle.test_honest_network.specs.Latencies.{HasLooped, HasShaken, IfAllocated, IsTimely};
ghost use Rattle.test_honest_network.specs.Simulations.{plan_of};

use crate::setting::Setting;
use crate::simulation::{LIFETIME, Outcome, decision_for, world_of};
use std::alloc::Global;
use std::net::SocketAddr;
use stun_types_base::memory::NoMemory;
use test_driver::carrying::{Answered, bring, exchange};
use test_driver::driving::{MOST_TURNS, happen, wait};
use test_driver::network::Network;
use turn_desk_core::decision::Decision;
use turn_desk_event::answer::Answer;
use turn_desk_event::event::Event;
use turn_desk_progress_laws::loops::honest_loops_allocate;
use turn_desk_world::world::World;

/// How long a driver waits for the second request, in nanoseconds.
const PATIENCE: u64 = 1_000_000_000;

/// Simulates a client and a server core with these settings, over this network.
///
/// If the client holds the address, and the network is timely (`IsTimely`), the run satisfies the
/// premises of the theorem on a client that a driver's loop calls (`HasLooped`).
pub(crate) fn shake_over(
    alloc: Global,
    setting: &Setting<'_>,
    network: &mut Network,
    address: SocketAddr,
) -> Result<Outcome, NoMemory>
    requires name { length setting.now.name.now ≤ longest_username }
    requires realm { length setting.now.realm.now ≤ longest_text }
    requires family { family_of_socket address ≡ setting.now.family }
    requires whole { IsWhole address }
    ensures { IsTimely network.old → IfOk result (λ outcome. IfAllocated outcome
        ((old : WorldModel) × (new : WorldModel)
        × HasLooped (plan_of setting.now) address old new)) }
{
    honest_loops_allocate();
    let mut world = world_of(alloc, setting)?;
    let outcome = shake_and_wait(alloc, &mut world, network, address);
    drop(world);
    outcome
}

/// Runs the handshake over this network, and then the driver's loop for a second.
fn shake_and_wait(
    alloc: Global,
    world: &mut World,
    network: &mut Network,
    address: SocketAddr,
) -> Result<Outcome, NoMemory>
    ensures { network.old.forges ≡ false → IfOk result (λ outcome. IfAllocated outcome
        ((after : NetworkModel) × (new : WorldModel)
        × HasShaken address network.old world.old after new)) }
{
    let outcome = shake_slowly(alloc, world, network, address)?;
    let later = network.after(PATIENCE);
    wait(alloc, world, network, later, MOST_TURNS)?;
    Ok(outcome)
}

/// Runs the handshake over this network.
pub(crate) fn shake_slowly(
    alloc: Global,
    world: &mut World,
    network: &mut Network,
    address: SocketAddr,
) -> Result<Outcome, NoMemory>
    ensures { network.old.forges ≡ false → IfOk result (λ outcome. IfAllocated outcome
        (HasShaken address network.old world.old network.new world.new)) }
{
    match happen(world, Event::Draw(network.time))? {
        Answer::Transmit(sent) => {
            match bring(alloc, world, network, &sent, Decision::Refuse(400))? {
                Answered::Error(_) => sign(alloc, world, network, address),
                _ => Ok(Outcome::Silent),
            }
        }
        _ => Ok(Outcome::Silent),
    }
}

/// Runs the second exchange; the decision is to allocate the address.
fn sign(
    alloc: Global,
    world: &mut World,
    network: &mut Network,
    address: SocketAddr,
) -> Result<Outcome, NoMemory>
    ensures { network.old.forges ≡ false → IfOk result (λ outcome. IfAllocated outcome
        (HasExchanged PATIENCE (Allocate (address ∷ []) LIFETIME)
        network.old world.old network.new world.new)) }
{
    let decision = decision_for(alloc, address)?;
    match exchange(alloc, world, network, PATIENCE, decision)? {
        Answered::Success => Ok(Outcome::Allocated),
        Answered::Error(_) => Ok(Outcome::Silent),
        Answered::Neither => Ok(Outcome::CannotAgree),
    }
}

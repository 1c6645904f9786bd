//! Simulates the handshake of a client and a server core over an honest network.

ghost use Rattle.std.specs.Prelude.{◌≡◌, ◌≤◌, length, [], ◌∷◌, IfOk};
ghost use Rattle.stun_types_base.specs.Family.{family_of_socket};
ghost use Rattle.stun_types_wire.specs.Registry.{longest_text, longest_username};
ghost use Rattle.stun_types_base.specs.declared.transport.TransportType.TheVariants.{Udp};
ghost use Rattle.turn_desk_world_laws.specs.TurnClientProtoStepLaws.Sound.{IsWhole};
ghost use Rattle.turn_desk_progress_laws.specs.TurnClientProtoHandshakeLaws.Stages.{AsksForOne};
ghost use Rattle.turn_desk_progress_laws.specs.Promises.{IsFresh};
ghost use Rattle.turn_desk_progress_laws.specs.Scripts.{Plan};
ghost use Rattle.turn_client_proto.specs.Clients.{stored_of};
ghost use Rattle.turn_desk_core.specs.declared.decision.Decision.TheVariants.{Allocate};
ghost use Rattle.turn_desk_world.specs.Model.{World as WorldModel};
ghost use Rattle.test_honest_network.specs.Settings.{server_of};
ghost use Rattle.test_honest_network.specs.Simulations.{HasGoneOn, HasSimulated, IsStarted, plan_of};

use crate::exchange::{Carried, carry};
use crate::setting::{Setting, config_of, server_of};
use std::alloc::Global;
use std::net::SocketAddr;
use std::time::Duration;
use stun_types_base::instant::Instant;
use stun_types_base::list::ListOf;
use stun_types_base::memory::NoMemory;
use stun_types_base::transport::TransportType;
use turn_client_proto::client::TurnClient;
use turn_client_proto::tcp::TurnClientTcp;
use turn_client_proto::udp::TurnClientUdp;
use turn_client_proto_api::config::TurnConfig;
use turn_desk_core::decision::Decision;
use turn_desk_core::desk::Desk;
use turn_desk_progress_laws::fresh::worlds_begin_fresh;
use turn_desk_progress_laws::honest::honest_runs_allocate;
use turn_desk_progress_laws::unforged::honest_runs_are_unforged;
use turn_desk_world::world::World;

/// The outcome of a simulated run.
#[derive(Clone, Copy, Debug)]
pub(crate) enum Outcome {
    /// The client transmitted no first request, or the server core did not reply to a request. This
    /// never happens.
    Silent,
    /// The two cannot agree: the client transmitted no second request.
    CannotAgree,
    /// The client holds the address of the decision: the reply to its second request reached it.
    Allocated,
}

/// The time at which the client is polled for its second request: 50 ms after the start (RFC 8489,
/// section 6.2.1).
pub(crate) const SECOND: u64 = 50_000_000;

/// The lifetime of the allocation in seconds.
pub(crate) const LIFETIME: u32 = 600;

/// Simulates a client and a server core with these settings.
///
/// Their initial states satisfy the premises of the theorem on an honest network (`IsFresh`), and
/// the run is a script of that network (`HasSimulated`). So `World::run`'s premise that nothing was
/// forged holds of the run, too (`unforged`).
pub(crate) fn simulate(
    alloc: Global,
    setting: &Setting<'_>,
    address: SocketAddr,
) -> Result<Outcome, NoMemory>
    requires name { length setting.now.name.now ≤ longest_username }
    requires realm { length setting.now.realm.now ≤ longest_text }
    requires family { family_of_socket address ≡ setting.now.family }
    requires whole { IsWhole address }
    ensures { IfOk result (λ outcome. (old : WorldModel) × (new : WorldModel)
        × IsFresh (plan_of setting.now) old
        × HasSimulated (plan_of setting.now) address old outcome new) }
{
    let mut world = world_of(alloc, setting)?;
    let second = Instant::from_nanos(SECOND);
    let outcome = shake(alloc, &mut world, Instant::ZERO, second, address);
    drop(world);
    outcome
}

/// Carries messages between a simulation's client and server core over an honest network. The
/// client is polled for a message twice.
pub(crate) fn shake(
    alloc: Global,
    world: &mut World,
    made: Instant,
    second: Instant,
    address: SocketAddr,
) -> Result<Outcome, NoMemory>
    ensures { (plan : Plan)
        → IsFresh plan world.old
        → plan.client.made ≡ made
        → plan.second ≡ second
        → AsksForOne plan.client address
        → IsWhole address
        → IfOk result (λ outcome. HasSimulated plan address world.old outcome world.new) }
{
    honest_runs_allocate();
    honest_runs_are_unforged();
    match carry(alloc, world, made, Decision::Refuse(400))? {
        Carried::Replied => go_on(alloc, world, second, address),
        Carried::Unsent => Ok(Outcome::Silent),
        Carried::Unanswered => Ok(Outcome::Silent),
    }
}

/// Runs the second exchange; the decision is to allocate the address.
fn go_on(
    alloc: Global,
    world: &mut World,
    now: Instant,
    address: SocketAddr,
) -> Result<Outcome, NoMemory>
    ensures { IfOk result (λ outcome. HasGoneOn now address world.old outcome world.new) }
{
    let decision = decision_for(alloc, address)?;
    match carry(alloc, world, now, decision)? {
        Carried::Unsent => Ok(Outcome::CannotAgree),
        Carried::Unanswered => Ok(Outcome::Silent),
        Carried::Replied => Ok(Outcome::Allocated),
    }
}

/// Returns the decision to allocate the address.
pub(crate) fn decision_for(alloc: Global, address: SocketAddr) -> Result<Decision, NoMemory>
    ensures { IfOk result (λ decision. decision ≡ Allocate (address ∷ []) LIFETIME) }
{
    let mut addresses = ListOf::new(alloc);
    addresses.push(address)?;
    Ok(Decision::Allocate {
        addresses,
        lifetime: LIFETIME,
    })
}

/// Returns a simulation with a new client and a new server core with these settings.
pub(crate) fn world_of(alloc: Global, setting: &Setting<'_>) -> Result<World, NoMemory>
    requires name { length setting.now.name.now ≤ longest_username }
    requires realm { length setting.now.realm.now ≤ longest_text }
    ensures fresh { IfOk result (λ world. IsFresh (plan_of setting.now) world) }
    ensures auth { IfOk result (λ world. world.desk.auth ≡ server_of setting.now) }
{
    let config = config_of(alloc, setting)?;
    worlds_begin_fresh(&config);
    let client = client_of(alloc, setting, config)?;
    match server_of(alloc, setting) {
        Ok(server) => Ok(World::new(alloc, Desk::new(alloc, server), Some(client))),
        Err(error) => {
            drop(client);
            Err(error)
        }
    }
}

/// Returns a new client with these settings.
fn client_of(
    alloc: Global,
    setting: &Setting<'_>,
    config: TurnConfig,
) -> Result<TurnClient, NoMemory>
    requires transport { config.transport ≡ Udp }
    requires name { length config.credentials.username ≤ longest_username }
    ensures { IfOk result (λ client. IsStarted setting.now config (stored_of client)) }
{
    let (here, server) = (setting.here, setting.server);
    match setting.transport {
        TransportType::Udp => match TurnClientUdp::allocate(alloc, here, server, config, [0; 32]) {
            Ok(client) => Ok(TurnClient::Udp(client)),
            Err(error) => Err(error),
        },
        TransportType::Tcp => match TurnClientTcp::allocate(alloc, here, server, config, [0; 32]) {
            Ok(client) => Ok(TurnClient::Tcp(client)),
            Err(error) => Err(error),
        },
    }
}

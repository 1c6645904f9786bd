//! A client that has allocated an address over TCP requests a connection to a peer and binds it.
//! Such a run satisfies every premise of the theorem on a challenged CONNECTION_BIND (RFC 8656,
//! section 10; RFC 6062, section 4.3).

ghost use Rattle.std.specs.Prelude.{◌≡◌, ◌≢◌, ◌≤◌, length, IfOk, IsTrue};
ghost use Rattle.stun_types_base.specs.Family.{family_of_socket};
ghost use Rattle.stun_types_wire.specs.Registry.{longest_text, longest_username};
ghost use Rattle.turn_desk_world_laws.specs.TurnClientProtoStepLaws.Sound.{IsWhole};
ghost use Rattle.turn_desk_progress_laws.specs.TurnClientProtoHandshakeLaws.Stages.{AsksForOne};
ghost use Rattle.turn_desk_progress_laws.specs.Promises.{IsFresh};
ghost use Rattle.turn_desk_progress_laws.specs.Scripts.{Plan};
ghost use Rattle.turn_desk_progress_laws.specs.Joining.{KeepsOwn};
ghost use Rattle.turn_desk_progress_laws.specs.Linked.{IsOverTcp};
ghost use Rattle.turn_desk_world.specs.Model.{World as WorldModel};
ghost use Rattle.test_honest_network.specs.Connections.{HasBound, IsRequested, IsBound, IsBoundAgain};
ghost use Rattle.test_honest_network.specs.Connections.{IsGone, IsOpened, link_of, stream_plan_of};
ghost use Rattle.test_honest_network.specs.Settings.{server_of};

use crate::replying::{Reply, calls, polls, replies, takes};
use crate::setting::{Setting, config_of, server_of};
use crate::simulation::{Outcome, SECOND, shake};
use std::alloc::Global;
use std::net::SocketAddr;
use stun_types_base::instant::Instant;
use stun_types_base::memory::NoMemory;
use stun_types_base::transport::TransportType;
use turn_client_proto::client::TurnClient;
use turn_client_proto::tcp::TurnClientTcp;
use turn_desk_core::decision::Decision;
use turn_desk_core::desk::Desk;
use turn_desk_event::event::ClientCall;
use turn_desk_progress_laws::connections::challenged_bindings_go_again;
use turn_desk_progress_laws::fresh::worlds_begin_fresh;
use turn_desk_world::world::World;

/// The connection ID that the decision gives the connection.
pub(crate) const NUMBER: u32 = 7;

/// The time at which a permission is requested, granted and confirmed: 50 ms after the client was
/// polled for its second request.
pub(crate) const REQUESTED: u64 = 100_000_000;

/// The time at which the connection is requested, granted and confirmed, and a socket is opened: 50
/// ms later.
pub(crate) const MADE: u64 = 150_000_000;

/// The time at which the CONNECTION_BIND is transmitted and challenged: 50 ms later.
pub(crate) const TURNED: u64 = 200_000_000;

/// The time at which the CONNECTION_BIND is transmitted again and granted: 50 ms later.
pub(crate) const AGAIN: u64 = 250_000_000;

/// Simulates a client and a server core with these settings over TCP, and requests a connection to
/// a peer through a socket with this local address. Returns whether the connection was bound.
///
/// If it was, the run satisfies every premise of the theorem on a challenged CONNECTION_BIND
/// (`HasBound`). So the client holds exactly that connection, and it is bound.
pub(crate) fn link(
    alloc: Global,
    setting: &Setting<'_>,
    address: SocketAddr,
    peer: SocketAddr,
    local: SocketAddr,
) -> Result<bool, NoMemory>
    requires name { length setting.now.name.now ≤ longest_username }
    requires realm { length setting.now.realm.now ≤ longest_text }
    requires family { family_of_socket address ≡ setting.now.family }
    requires whole { IsWhole address }
    requires own { local ≢ setting.now.here }
    ensures { IfOk result (λ is_bound. IsTrue is_bound → (old : WorldModel) × (new : WorldModel)
        × HasBound (stream_plan_of setting.now) address (link_of peer local) old new) }
{
    let mut world = world_of(alloc, setting)?;
    let is_bound = link_in(alloc, &mut world, address, peer, local);
    drop(world);
    is_bound
}

/// Does what `link` does, in a simulation that is ready for an honest run (`IsFresh`). Returns
/// whether the connection was bound.
fn link_in(
    alloc: Global,
    world: &mut World,
    address: SocketAddr,
    peer: SocketAddr,
    local: SocketAddr,
) -> Result<bool, NoMemory>
    ensures { (plan : Plan)
        → IsFresh plan world.old
        → IsOverTcp plan
        → KeepsOwn (link_of peer local) world.old.desk.auth
        → local ≢ plan.client.here
        → plan.client.made ≡ 0
        → plan.second ≡ SECOND
        → AsksForOne plan.client address
        → IsWhole address
        → IfOk result (λ is_bound. IsTrue is_bound
        → HasBound plan address (link_of peer local) world.old world.new) }
{
    challenged_bindings_go_again();
    let second = Instant::from_nanos(SECOND);
    match shake(alloc, world, Instant::ZERO, second, address)? {
        Outcome::Allocated => go(alloc, world, peer, local),
        Outcome::Silent => Ok(false),
        Outcome::CannotAgree => Ok(false),
    }
}

/// Runs what follows the handshake: the permission, the connection, its socket and its binding.
fn go(
    alloc: Global,
    world: &mut World,
    peer: SocketAddr,
    local: SocketAddr,
) -> Result<bool, NoMemory>
    ensures { IfOk result (λ goes. IsTrue goes → IsGone peer local world.old world.new) }
{
    let permission = ClientCall::CreatePermission(TransportType::Tcp, peer.ip());
    let requested = Instant::from_nanos(REQUESTED);
    if !ask(alloc, world, permission, requested, Decision::Grant)? {
        return Ok(false);
    }
    let made = Instant::from_nanos(MADE);
    let decision = Decision::Connect { number: NUMBER };
    if !ask(alloc, world, ClientCall::TcpConnect(peer), made, decision)? {
        return Ok(false);
    }
    if !open(world, peer, local, made)? {
        return Ok(false);
    }
    bind(alloc, world)
}

/// Makes a call of the client, delivers its request, which is granted, and delivers the reply.
/// Returns whether the reply was a success response.
fn ask(
    alloc: Global,
    world: &mut World,
    what: ClientCall,
    now: Instant,
    decision: Decision,
) -> Result<bool, NoMemory>
    ensures { IfOk result (λ asks. IsTrue asks → IsRequested what now decision world.old world.new) }
{
    if !calls(world, what, now)? {
        return Ok(false);
    }
    match replies(alloc, world, now, decision)? {
        Reply::Success => Ok(true),
        Reply::Challenge => Ok(false),
        Reply::Neither => Ok(false),
    }
}

/// Takes the client's events, checks that it asks for a socket, and reports one to it.
fn open(
    world: &mut World,
    peer: SocketAddr,
    local: SocketAddr,
    now: Instant,
) -> Result<bool, NoMemory>
    ensures { IfOk result (λ opens. IsTrue opens
        → IsOpened peer local now world.old world.new) }
{
    takes(world, now)?;
    takes(world, now)?;
    if !polls(world, now)? {
        return Ok(false);
    }
    let reported = ClientCall::AllocatedTcpSocket(NUMBER, peer, Some(local));
    calls(world, reported, now)
}

/// Delivers the CONNECTION_BIND, which is challenged, and then the repeated one, which is granted.
fn bind(alloc: Global, world: &mut World) -> Result<bool, NoMemory>
    ensures { IfOk result (λ binds. IsTrue binds → IsBound world.old world.new) }
{
    let turned = replies(alloc, world, Instant::from_nanos(TURNED), Decision::Grant)?;
    match turned {
        Reply::Challenge => bind_again(alloc, world),
        Reply::Success => Ok(false),
        Reply::Neither => Ok(false),
    }
}

/// Delivers the repeated CONNECTION_BIND, which is granted.
fn bind_again(alloc: Global, world: &mut World) -> Result<bool, NoMemory>
    ensures { IfOk result (λ binds. IsTrue binds → IsBoundAgain world.old world.new) }
{
    match replies(alloc, world, Instant::from_nanos(AGAIN), Decision::Grant)? {
        Reply::Success => Ok(true),
        Reply::Challenge => Ok(false),
        Reply::Neither => Ok(false),
    }
}

/// Returns a simulation with a new client over TCP that requests an allocation over TCP, and a new
/// server core with these settings.
pub(crate) fn world_of(alloc: Global, setting: &Setting<'_>) -> Result<World, NoMemory>
    requires name { length setting.now.name.now ≤ longest_username }
    requires realm { length setting.now.realm.now ≤ longest_text }
    ensures { IfOk result (λ world. IsFresh (stream_plan_of setting.now) world
        × (world.desk.auth ≡ server_of setting.now)) }
{
    let mut config = config_of(alloc, setting)?;
    config.set_allocation_transport(TransportType::Tcp);
    worlds_begin_fresh(&config);
    let client = TurnClientTcp::allocate(alloc, setting.here, setting.server, config, [0; 32])?;
    match server_of(alloc, setting) {
        Ok(server) => Ok(World::new(
            alloc,
            Desk::new(alloc, server),
            Some(TurnClient::Tcp(client)),
        )),
        Err(error) => {
            drop(client);
            Err(error)
        }
    }
}

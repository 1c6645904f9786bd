//! A client that has allocated an address over an honest network requests a permission or a
//! channel, and the server core grants it. Such a run satisfies every premise of the theorem on
//! requests (RFC 8656, sections 10 to 12).

ghost use Rattle.std.specs.Prelude.{◌≡◌, ◌≤◌, length, IfOk};
ghost use Rattle.std.specs.Net.Socket.{socket_ip};
ghost use Rattle.stun_types_base.specs.Family.{family_of_socket};
ghost use Rattle.stun_types_wire.specs.Registry.{longest_text, longest_username};
ghost use Rattle.stun_types_base.specs.declared.transport.TransportType.TheVariants.{Udp};
ghost use Rattle.turn_desk_world_laws.specs.TurnClientProtoStepLaws.Sound.{IsWhole};
ghost use Rattle.turn_desk_progress_laws.specs.Promises.{IsFresh};
ghost use Rattle.turn_desk_world.specs.Model.{World as WorldModel};
ghost use Rattle.test_honest_network.specs.Simulations.{plan_of};
ghost use Rattle.test_honest_network.specs.Payloads.{IsProcessed, IsReceived, indication, peer};
ghost use Rattle.test_honest_network.specs.Wishes.{IsBound, IsBrought, IsGiven, IsSimulated, IsPermitted, IsSent};

use crate::replying::{calls, draws_nothing, is_success};
use crate::setting::Setting;
use crate::simulation::{Outcome, SECOND, shake, world_of};
use std::alloc::Global;
use std::net::{IpAddr, Ipv4Addr, SocketAddr};
use stun_types_base::data::Data;
use stun_types_base::instant::Instant;
use stun_types_base::memory::NoMemory;
use stun_types_base::transmit::Transmit;
use stun_types_base::transport::TransportType;
use test_driver::driving::happen;
use turn_desk_core::decision::Decision;
use turn_desk_event::answer::Answer;
use turn_desk_event::event::{ClientCall, Event};
use turn_desk_progress_laws::honest::honest_runs_allocate;
use turn_desk_progress_laws::requests::requested_things_are_held;
use turn_desk_world::world::World;

/// The outcome of a request.
#[derive(Clone, Copy, Debug)]
pub(crate) enum Wish {
    /// The run did not get as far as a grant.
    Unheld,
    /// The server core granted the request, and its reply reached the client.
    Held,
}

/// The time at which the client has nothing to send and its application calls it: 50 ms after the
/// client was polled for its second request.
pub(crate) const CALLED: u64 = 100_000_000;

/// The time at which the client transmits its request, the server core receives it and replies: 50
/// ms later.
pub(crate) const TRANSMITTED: u64 = 150_000_000;

/// Simulates a client and a server core with these settings, and requests a permission for an IP
/// address.
///
/// If the server core granted it and the reply reached the client, the run satisfies the premises
/// of the theorem on requests (`IsPermitted`). So the client has the permission, and over UDP it
/// returns what a peer at that address sends.
pub(crate) fn permit(
    alloc: Global,
    setting: &Setting<'_>,
    address: SocketAddr,
    ip: IpAddr,
) -> Result<Wish, NoMemory>
    requires name { length setting.now.name.now ≤ longest_username }
    requires realm { length setting.now.realm.now ≤ longest_text }
    requires family { family_of_socket address ≡ setting.now.family }
    requires whole { IsWhole address }
    ensures { IfOk result (λ wish. (old : WorldModel) × (new : WorldModel)
        × IsFresh (plan_of setting.now) old
        × IsPermitted (plan_of setting.now) address ip old wish new) }
{
    let mut world = world_of(alloc, setting)?;
    let wish = permit_in(alloc, &mut world, setting, address, ip);
    drop(world);
    wish
}

/// Does what `permit` does, in a simulation that is ready for an honest run (`IsFresh`).
fn permit_in(
    alloc: Global,
    world: &mut World,
    setting: &Setting<'_>,
    address: SocketAddr,
    ip: IpAddr,
) -> Result<Wish, NoMemory>
    requires family { family_of_socket address ≡ setting.now.family }
    requires whole { IsWhole address }
    ensures { IsFresh (plan_of setting.now) world.old
        → IfOk result (λ wish.
        IsPermitted (plan_of setting.now) address ip world.old wish world.new) }
{
    honest_runs_allocate();
    requested_things_are_held();
    let second = Instant::from_nanos(SECOND);
    match shake(alloc, world, Instant::ZERO, second, address)? {
        Outcome::Allocated => {
            let what = ClientCall::CreatePermission(TransportType::Udp, ip);
            ask(alloc, world, what, setting.here, setting.server)
        }
        Outcome::Silent => Ok(Wish::Unheld),
        Outcome::CannotAgree => Ok(Wish::Unheld),
    }
}

/// Does what `permit` does, for a channel to a peer (RFC 8656, section 12). If the server core
/// granted it and the reply reached the client, the client has the channel, and over UDP it returns
/// what that peer sends through it.
pub(crate) fn bind(
    alloc: Global,
    setting: &Setting<'_>,
    address: SocketAddr,
    peer: SocketAddr,
) -> Result<Wish, NoMemory>
    requires name { length setting.now.name.now ≤ longest_username }
    requires realm { length setting.now.realm.now ≤ longest_text }
    requires family { family_of_socket address ≡ setting.now.family }
    requires whole { IsWhole address }
    ensures { IfOk result (λ wish. (old : WorldModel) × (new : WorldModel)
        × IsFresh (plan_of setting.now) old
        × IsBound (plan_of setting.now) address peer old wish new) }
{
    let mut world = world_of(alloc, setting)?;
    let wish = bind_in(alloc, &mut world, setting, address, peer);
    drop(world);
    wish
}

/// Does what `bind` does, in a simulation that is ready for an honest run (`IsFresh`).
fn bind_in(
    alloc: Global,
    world: &mut World,
    setting: &Setting<'_>,
    address: SocketAddr,
    peer: SocketAddr,
) -> Result<Wish, NoMemory>
    requires family { family_of_socket address ≡ setting.now.family }
    requires whole { IsWhole address }
    ensures { IsFresh (plan_of setting.now) world.old
        → IfOk result (λ wish.
        IsBound (plan_of setting.now) address peer world.old wish world.new) }
{
    honest_runs_allocate();
    requested_things_are_held();
    let second = Instant::from_nanos(SECOND);
    match shake(alloc, world, Instant::ZERO, second, address)? {
        Outcome::Allocated => {
            let what = ClientCall::BindChannel(TransportType::Udp, peer);
            ask(alloc, world, what, setting.here, setting.server)
        }
        Outcome::Silent => Ok(Wish::Unheld),
        Outcome::CannotAgree => Ok(Wish::Unheld),
    }
}

/// Simulates a client and a server core over UDP, and requests a permission for a peer's address.
/// Then data from that peer reaches the client. If the client returns data from that peer, it is
/// what the peer sent (`IsReceived`; RFC 8656, section 11.3).
pub(crate) fn receive(
    alloc: Global,
    setting: &Setting<'_>,
    address: SocketAddr,
) -> Result<Wish, NoMemory>
    requires name { length setting.now.name.now ≤ longest_username }
    requires realm { length setting.now.realm.now ≤ longest_text }
    requires transport { setting.now.transport ≡ Udp }
    requires family { family_of_socket address ≡ setting.now.family }
    requires whole { IsWhole address }
    ensures { IfOk result (λ wish. (old : WorldModel) × (new : WorldModel)
        × IsFresh (plan_of setting.now) old
        × IsReceived (plan_of setting.now) address old wish new) }
{
    let mut world = world_of(alloc, setting)?;
    let wish = receive_in(alloc, &mut world, setting, address);
    drop(world);
    wish
}

/// Does what `receive` does, in a simulation that is ready for an honest run (`IsFresh`).
fn receive_in(
    alloc: Global,
    world: &mut World,
    setting: &Setting<'_>,
    address: SocketAddr,
) -> Result<Wish, NoMemory>
    requires transport { setting.now.transport ≡ Udp }
    requires family { family_of_socket address ≡ setting.now.family }
    requires whole { IsWhole address }
    ensures { IsFresh (plan_of setting.now) world.old
        → IfOk result (λ wish.
        IsReceived (plan_of setting.now) address world.old wish world.new) }
{
    match permit_in(alloc, world, setting, address, peer_ip())? {
        Wish::Held => process(alloc, world, setting.here, setting.server),
        Wish::Unheld => Ok(Wish::Unheld),
    }
}

/// Returns the peer's IP address.
fn peer_ip() -> IpAddr
    ensures { result ≡ socket_ip peer }
{
    IpAddr::V4(Ipv4Addr::new(198, 51, 100, 7))
}

/// Delivers the peer's data to the client.
fn process(
    alloc: Global,
    world: &mut World,
    here: SocketAddr,
    server: SocketAddr,
) -> Result<Wish, NoMemory>
    ensures { IfOk result (λ wish. IsProcessed here server world.old wish world.new) }
{
    let came = Event::ToClient {
        bytes: indication(alloc)?,
        from: server,
        to: here,
        now: Instant::from_nanos(TRANSMITTED),
    };
    match happen(world, came)? {
        Answer::Peer(_) => Ok(Wish::Held),
        _ => Ok(Wish::Unheld),
    }
}

/// Returns the Data indication that carries what the peer sends.
fn indication(alloc: Global) -> Result<Vec<u8>, NoMemory>
    ensures { IfOk result (λ bytes. bytes.items ≡ indication) }
{
    let bytes: [u8; 40] = [
        0x00, 0x17, 0x00, 0x14, 0x21, 0x12, 0xa4, 0x42, 0x00, 0x00, 0x00, 0x00, 0x00, 0x00, 0x00,
        0x00, 0x00, 0x00, 0x00, 0x01, 0x00, 0x12, 0x00, 0x08, 0x00, 0x01, 0x2a, 0xaa, 0xe7, 0x21,
        0xc0, 0x45, 0x00, 0x13, 0x00, 0x04, 0x70, 0x69, 0x6e, 0x67,
    ];
    Ok(Vec::from_slice(alloc, &bytes)?)
}

/// Makes a call of a client that has nothing to send, then delivers the client's request to the
/// server core and the reply to the client.
fn ask(
    alloc: Global,
    world: &mut World,
    what: ClientCall,
    here: SocketAddr,
    server: SocketAddr,
) -> Result<Wish, NoMemory>
    ensures { IfOk result (λ wish. IsSimulated what here server world.old wish world.new) }
{
    let called = Instant::from_nanos(CALLED);
    if draws_nothing(world, called)? && calls(world, what, called)? {
        send(alloc, world, here, server)
    } else {
        Ok(Wish::Unheld)
    }
}

/// Polls the client for its request and delivers what it sends.
fn send(
    alloc: Global,
    world: &mut World,
    here: SocketAddr,
    server: SocketAddr,
) -> Result<Wish, NoMemory>
    ensures { IfOk result (λ wish. IsSent here server world.old wish world.new) }
{
    match happen(world, Event::Draw(Instant::from_nanos(TRANSMITTED)))? {
        Answer::Transmit(sent) => bring(alloc, world, &sent, here, server),
        _ => Ok(Wish::Unheld),
    }
}

/// Delivers to the server core what the client sent; the decision is to grant it.
fn bring(
    alloc: Global,
    world: &mut World,
    sent: &Transmit<Data<'_>>,
    here: SocketAddr,
    server: SocketAddr,
) -> Result<Wish, NoMemory>
    ensures { IfOk result (λ wish. IsBrought sent.now here server world.old wish world.new) }
{
    let requested = Event::ToDesk {
        bytes: Vec::from_slice(alloc, sent.bytes.as_slice())?,
        from: here,
        now: Instant::from_nanos(TRANSMITTED),
        decision: Decision::Grant,
        seed: [0; 32],
    };
    match happen(world, requested)? {
        Answer::Reply(bytes) => give(world, bytes, here, server),
        _ => Ok(Wish::Unheld),
    }
}

/// Delivers the server core's reply to the client if it is a success response.
fn give(
    world: &mut World,
    bytes: Vec<u8>,
    here: SocketAddr,
    server: SocketAddr,
) -> Result<Wish, NoMemory>
    ensures { IfOk result (λ wish. IsGiven bytes here server world.old wish world.new) }
{
    if !is_success(bytes.as_slice()) {
        return Ok(Wish::Unheld);
    }
    let given = Event::ToClient {
        bytes,
        from: server,
        to: here,
        now: Instant::from_nanos(TRANSMITTED),
    };
    happen(world, given)?;
    Ok(Wish::Held)
}

//! Requests of a client after the server core's nonce has expired.

ghost use Rattle.std.specs.Prelude.{◌≡◌, ◌≤◌, length};
ghost use Rattle.stun_types_wire.specs.Registry.{longest_text, longest_username};

use crate::latency::shake_slowly;
use crate::setting::Setting;
use crate::simulation::{Outcome, world_of};
use crate::tcp_binding::world_of as tcp_world_of;
use std::alloc::Global;
use stun_types_base::memory::NoMemory;
use test_driver::network::Network;
use test_driver::requesting::{Kind, Wanted, request};
use turn_desk_world::world::World;

/// Simulates a client and a server core with these settings. Returns how often the server core
/// challenged the request, if it then granted it and the client holds what it requested.
pub(crate) fn request_stale(
    alloc: Global,
    setting: &Setting<'_>,
    network: &mut Network,
    wanted: Wanted,
) -> Result<Option<u32>, NoMemory>
    requires name { length setting.now.name.now ≤ longest_username }
    requires realm { length setting.now.realm.now ≤ longest_text }
{
    let mut world = match wanted.kind {
        Kind::Connect | Kind::ConnectionBind => tcp_world_of(alloc, setting)?,
        _ => world_of(alloc, setting)?,
    };
    let found = request_in(alloc, &mut world, network, wanted);
    drop(world);
    found
}

/// Does what `request_stale` does, in a new simulation.
fn request_in(
    alloc: Global,
    world: &mut World,
    network: &mut Network,
    wanted: Wanted,
) -> Result<Option<u32>, NoMemory> {
    match shake_slowly(alloc, world, network, wanted.address)? {
        Outcome::Allocated => request(alloc, world, network, wanted),
        _ => Ok(None),
    }
}

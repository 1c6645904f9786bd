//! Prints what a client transmitted over a network that takes time.

ghost use Rattle.std.specs.Prelude.{◌≡◌, ◌≤◌, length};
ghost use Rattle.stun_types_base.specs.Family.{family_of_socket};
ghost use Rattle.stun_types_wire.specs.Registry.{longest_text, longest_username};
ghost use Rattle.turn_desk_world_laws.specs.TurnClientProtoStepLaws.Sound.{IsWhole};

use crate::latency::shake_over;
use crate::setting::Setting;
use crate::stale::request_stale;
use std::alloc::Global;
use std::net::SocketAddr;
use test_driver::network::Network;
use test_driver::requesting::Wanted;
use test_driver::showing::show_seen;

/// Prints the handshake with each latency.
pub(crate) fn shake_all(
    rt: &impl Print,
    alloc: Global,
    setting: &Setting<'_>,
    address: SocketAddr,
    forges: bool,
) -> anyhow::Result<()>
    requires name { length setting.now.name.now ≤ longest_username }
    requires realm { length setting.now.realm.now ≤ longest_text }
    requires family { family_of_socket address ≡ setting.now.family }
    requires whole { IsWhole address }
{
    let latencies = [0, 1, 20_000_000, 499_000_000, 501_000_000, 3_000_000_000];
    for (i, latency) in latencies.into_iter().enumerate() {
        let mut network = Network::new(alloc, latency, 13 * i + 1);
        network.forges = forges;
        let outcome = shake_over(alloc, setting, &mut network, address)?;
        let mark = if forges {
            " beside forged datagrams"
        } else {
            ""
        };
        print!(rt;
            "{} latency {latency}{mark}: {outcome:?}",
            setting.transport
        )?;
        show_seen(rt, network.seen.as_slice())?;
        match network.reported {
            Some(at) => println!(rt; "; reported at {at}")?,
            None => println!(rt; "")?,
        }
    }
    Ok(())
}

/// Prints what comes of requests of this kind, with nonces that expired once, and twice in a row.
pub(crate) fn request_by(
    rt: &impl Print,
    alloc: Global,
    setting: &Setting<'_>,
    wanted: Wanted,
) -> anyhow::Result<()>
    requires name { length setting.now.name.now ≤ longest_username }
    requires realm { length setting.now.realm.now ≤ longest_text }
{
    for expiries in [1, 2] {
        let mut network = Network::new(alloc, 20_000_000, 1);
        let mut wanted = wanted;
        wanted.expiries = expiries;
        let count = request_stale(alloc, setting, &mut network, wanted)?;
        print!(rt; "{} {:?}: ", setting.transport, wanted.kind)?;
        match count {
            Some(count) => print!(rt; "held after {count} challenges")?,
            None => print!(rt; "not held")?,
        }
        show_seen(rt, network.seen.as_slice())?;
        println!(rt; "")?;
    }
    Ok(())
}

//! Clients and server cores that communicate over an honest network. The test creates and calls
//! real ones, so it shows that the premises of the theorems on such runs can be satisfied. It
//! prints one line for each run.
#![tactic(auto)]

mod asking;
mod exchange;
mod latency;
mod renewing;
mod replying;
mod reporting;
mod setting;
mod simulation;
mod stale;
mod tcp_binding;

ghost use Rattle.std.specs.Prelude.{◌≡◌, ◌≤◌, length};
ghost use Rattle.stun_types_base.specs.Family.{family_of_socket};
ghost use Rattle.stun_types_wire.specs.Registry.{longest_text, longest_username};
ghost use Rattle.stun_types_base.specs.declared.family.AddressFamily.TheVariants.{IPV4};
ghost use Rattle.turn_desk_world_laws.specs.TurnClientProtoStepLaws.Sound.{IsWhole};

use crate::asking::{bind, permit, receive};
use crate::renewing::keep;
use crate::reporting::{request_by, shake_all};
use crate::setting::{Setting, Supported};
use crate::simulation::simulate;
use crate::tcp_binding::link;
use std::alloc::Global;
use std::net::{IpAddr, Ipv4Addr, Ipv6Addr, SocketAddr};
use stun_proto_auth::feature::Feature;
use stun_types_base::family::AddressFamily;
use stun_types_base::transport::TransportType;
use test_driver::requesting::{Kind, Wanted};
use turn_desk_world_laws::numbers::numbers_differ;

fn main(rt: HostRuntime) -> anyhow::Result<()> {
    for transport in [TransportType::Udp, TransportType::Tcp] {
        for family in [AddressFamily::IPV4, AddressFamily::IPV6] {
            simulate_by(&rt, rt.alloc(), transport, family)?;
        }
    }
    simulate_by_sha512(&rt, rt.alloc(), TransportType::Udp)?;
    simulate_by_sha512(&rt, rt.alloc(), TransportType::Tcp)?;
    ask_all(&rt, rt.alloc())?;
    link_by(&rt, rt.alloc())?;
    keep_by(&rt, rt.alloc(), TransportType::Udp)?;
    keep_by(&rt, rt.alloc(), TransportType::Tcp)?;
    wait_all(&rt, rt.alloc())?;
    compare_numbers(&rt, rt.alloc())
}

/// Prints whether transaction IDs of a seed are pairwise different, as the theorem on runs presumes.
fn compare_numbers(rt: &impl Print, alloc: Global) -> anyhow::Result<()> {
    let count = 1000;
    let differ = numbers_differ(alloc, [0; 32], count)?;
    println!(rt; "the first {count} transaction IDs of a seed differ: {differ}")?;
    Ok(())
}

/// Prints what comes of handshakes over networks that take time, and of requests whose nonces have
/// expired.
fn wait_all(rt: &impl Print, alloc: Global) -> anyhow::Result<()> {
    let address = decided(AddressFamily::IPV4);
    let udp = over(TransportType::Udp, client_address(), Feature::Auto);
    let tcp = over(TransportType::Tcp, client_address(), Feature::Auto);
    shake_all(rt, alloc, &udp, address, false)?;
    shake_all(rt, alloc, &tcp, address, false)?;
    shake_all(rt, alloc, &udp, address, true)?;
    for kind in [Kind::Refresh, Kind::CreatePermission, Kind::ChannelBind] {
        request_by(rt, alloc, &udp, wanted(kind, address))?;
        request_by(rt, alloc, &tcp, wanted(kind, address))?;
    }
    request_by(rt, alloc, &tcp, wanted(Kind::Connect, address))?;
    request_by(rt, alloc, &tcp, wanted(Kind::ConnectionBind, address))
}

/// Returns a request of this kind.
fn wanted(kind: Kind, address: SocketAddr) -> Wanted {
    let here = IpAddr::V4(Ipv4Addr::new(192, 168, 0, 1));
    Wanted {
        kind,
        expiries: 1,
        address,
        peer: SocketAddr::new(IpAddr::V4(Ipv4Addr::new(198, 51, 100, 7)), 3000),
        local: SocketAddr::new(here, 1001),
    }
}

/// Prints whether a client gets a permission and a channel that it requests, and over UDP whether
/// it returns what a peer sends.
fn ask_all(rt: &impl Print, alloc: Global) -> anyhow::Result<()> {
    let ip = IpAddr::V4(Ipv4Addr::new(198, 51, 100, 7));
    let address = decided(AddressFamily::IPV4);
    for transport in [TransportType::Udp, TransportType::Tcp] {
        let setting = over(transport, client_address(), Feature::Auto);
        let wish = permit(alloc, &setting, address, ip)?;
        println!(rt; "{transport} permission: {wish:?}")?;
        let wish = bind(alloc, &setting, address, SocketAddr::new(ip, 3000))?;
        println!(rt; "{transport} channel: {wish:?}")?;
    }
    let setting = over(TransportType::Udp, client_address(), Feature::Auto);
    let data = receive(alloc, &setting, address)?;
    println!(rt; "UDP data: {data:?}")?;
    Ok(())
}

/// Prints whether a client that has an allocation over TCP gets and binds a connection to a peer.
fn link_by(rt: &impl Print, alloc: Global) -> anyhow::Result<()> {
    let here = IpAddr::V4(Ipv4Addr::new(192, 168, 0, 1));
    let setting = over(
        TransportType::Tcp,
        SocketAddr::new(here, 1000),
        Feature::Auto,
    );
    let peer = SocketAddr::new(IpAddr::V4(Ipv4Addr::new(198, 51, 100, 7)), 3000);
    let local = SocketAddr::new(here, 1001);
    let is_bound = link(alloc, &setting, decided(AddressFamily::IPV4), peer, local)?;
    println!(rt; "TCP connection is bound: {is_bound}")?;
    Ok(())
}

/// Prints whether a client that hides its name renews its allocation, over this transport.
fn keep_by(rt: &impl Print, alloc: Global, transport: TransportType) -> anyhow::Result<()> {
    let setting = over(transport, client_address(), Feature::Required);
    let stored = keep(alloc, &setting, decided(setting.family))?;
    println!(rt; "{transport} renewed: {stored:?}")?;
    Ok(())
}

/// Returns the client's own address.
fn client_address() -> SocketAddr {
    SocketAddr::new(IpAddr::V4(Ipv4Addr::new(192, 168, 0, 1)), 1000)
}

/// Returns settings of a client and a server core that can agree, over this transport. Both have
/// the same setting for hidden names.
fn over(transport: TransportType, here: SocketAddr, hides: Feature) -> Setting<'static>
    ensures name { length result.name.now ≤ longest_username }
    ensures realm { length result.realm.now ≤ longest_text }
    ensures transport { result.transport ≡ transport }
    ensures family { result.family ≡ IPV4 }
    ensures here { result.here ≡ here }
{
    Setting {
        name: "user",
        password: "pass",
        realm: "realm",
        here,
        server: SocketAddr::new(IpAddr::V4(Ipv4Addr::new(10, 0, 0, 2)), 2000),
        transport,
        family: AddressFamily::IPV4,
        own: Supported::Both,
        others: Supported::Both,
        hides,
        takes: hides,
    }
}

/// Runs each client with each server core, over this transport, for an address of this family.
fn simulate_by(
    rt: &impl Print,
    alloc: Global,
    transport: TransportType,
    family: AddressFamily,
) -> anyhow::Result<()> {
    let every = [Supported::OnlySha1, Supported::OnlySha256, Supported::Both];
    let features = [Feature::Auto, Feature::Required, Feature::Disabled];
    for own in every {
        for others in every {
            for hides in features {
                for takes in features {
                    let mut setting = over(transport, client_address(), hides);
                    setting.family = family;
                    setting.own = own;
                    setting.others = others;
                    setting.takes = takes;
                    show(rt, alloc, &setting)?;
                }
            }
        }
    }
    Ok(())
}

/// Runs the cases in which SHA-512 matters, over this transport:
///
/// - both sides support all algorithms;
/// - the client supports SHA-512 alone, and the server core supports all;
/// - the client supports SHA-512 alone, and the server core supports all but SHA-512.
fn simulate_by_sha512(
    rt: &impl Print,
    alloc: Global,
    transport: TransportType,
) -> anyhow::Result<()> {
    let sides = [
        (Supported::All, Supported::All),
        (Supported::OnlySha512, Supported::All),
        (Supported::OnlySha512, Supported::Both),
    ];
    for (own, others) in sides {
        let mut setting = over(transport, client_address(), Feature::Auto);
        setting.own = own;
        setting.others = others;
        show(rt, alloc, &setting)?;
    }
    Ok(())
}

/// Prints the outcome of a simulated run.
fn show(rt: &impl Print, alloc: Global, setting: &Setting<'_>) -> anyhow::Result<()>
    requires name { length setting.now.name.now ≤ longest_username }
    requires realm { length setting.now.realm.now ≤ longest_text }
{
    let outcome = simulate(alloc, setting, decided(setting.family))?;
    let (transport, family) = (setting.transport, setting.family);
    let (own, others) = (setting.own, setting.others);
    let (hides, takes) = (setting.hides, setting.takes);
    println!(rt; "{transport} {family:?} {own:?} {others:?} {hides:?} {takes:?}: {outcome:?}")?;
    Ok(())
}

/// Returns the address that the decision gives the client, of the family that it requests.
fn decided(family: AddressFamily) -> SocketAddr
    ensures family { family_of_socket result ≡ family }
    ensures whole { IsWhole result }
{
    let ip = match family {
        AddressFamily::IPV4 => IpAddr::V4(Ipv4Addr::new(203, 0, 113, 5)),
        AddressFamily::IPV6 => IpAddr::V6(Ipv6Addr::new(0x2001, 0xdb8, 0, 0, 0, 0, 0, 5)),
    };
    SocketAddr::new(ip, 50000)
}

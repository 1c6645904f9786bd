//! Permissions of several addresses, which a client requests by one call.

use crate::line::Line;
use std::alloc::Global;
use std::net::{IpAddr, Ipv4Addr, SocketAddr, SocketAddrV4};
use stun_types_base::family::AddressFamily;
use stun_types_base::instant::Instant;
use stun_types_base::transmit::Transmit;
use stun_types_base::transport::TransportType;
use turn_client_proto::api::TurnClientApi;
use turn_client_proto::udp::TurnClientUdp;
use turn_client_proto_api::answer::TurnRecvRet;
use turn_client_proto_api::config::TurnConfig;
use turn_client_proto_api::event::TurnEvent;
use turn_types_attributes::credentials::TurnCredentials;

/// The time between two steps, in nanoseconds: as long as a client waits between two messages.
const PACE: u64 = 50_000_000;

/// `permits STEP..`: makes a client over UDP of the user `user` with the password `pass`, at
/// 192.168.0.1:1000 and for a relayed address of each family of the server 10.0.0.2:2000, with the
/// transaction IDs of a seed of zeros. Then takes the steps, 50 ms after one another:
///
/// - `draw`: prints the next message, or `-` for none.
/// - `take BYTES`: passes a message of the server, which the client handles.
/// - `events`: prints each queued event: `created` or `failed` and the IP address of a permission,
///   or `other`.
/// - `ask TRANSPORT IPS`: requests permissions for addresses that are separated by commas, `-` for
///   none, and prints `ok` or the text of the error.
pub(crate) fn permits(line: &mut Line<'_>) {
    let Some(mut client) = client(line.alloc) else {
        line.is_bad = true;
        return;
    };
    let mut now = 0u64;
    for _ in 0..line.left() {
        if line.left() > 0 {
            step(line, &mut client, Instant::from_nanos(now));
            now = now.saturating_add(PACE);
        }
    }
}

/// Returns a client that has sent nothing.
fn client(alloc: Global) -> Option<TurnClientUdp> {
    match TurnCredentials::new(alloc, "user", "pass") {
        Ok(credentials) => {
            let mut config = TurnConfig::new(credentials);
            config.add_address_family(AddressFamily::IPV6);
            let local = address([192, 168, 0, 1], 1000);
            TurnClientUdp::allocate(
                alloc,
                local,
                address([10, 0, 0, 2], 2000),
                config,
                [0; 32],
            ).ok()
        }
        Err(_) => None,
    }
}

fn address(octets: [u8; 4], port: u16) -> SocketAddr {
    SocketAddr::V4(SocketAddrV4::new(Ipv4Addr::from_octets(octets), port))
}

/// Takes the next step.
fn step(line: &mut Line<'_>, client: &mut TurnClientUdp, now: Instant) {
    match line.word() {
        "draw" => draw(line, client, now),
        "take" => take(line, client, now),
        "events" => events(line, client),
        "ask" => ask(line, client, now),
        _ => line.is_bad = true,
    }
}

fn draw(line: &mut Line<'_>, client: &mut TurnClientUdp, now: Instant) {
    match client.poll_transmit(now) {
        Ok(Some(sent)) => line.hex(sent.bytes.as_slice()),
        Ok(None) => line.say_text(""),
        Err(_) => line.is_bad = true,
    }
}

fn take(line: &mut Line<'_>, client: &mut TurnClientUdp, now: Instant) {
    let bytes = line.bytes();
    let (server, local) = (client.remote_addr(), client.local_addr());
    let came = Transmit::new(bytes.as_slice(), TransportType::Udp, server, local);
    let is_handled = matches!(client.recv(came, now), TurnRecvRet::Handled);
    line.is_bad = line.is_bad || !is_handled;
}

fn events(line: &mut Line<'_>, client: &mut TurnClientUdp) {
    for _ in 0..u64::MAX {
        match client.poll_event() {
            Some(TurnEvent::PermissionCreated(_, ip)) => {
                line.say(&"created");
                line.say(&ip);
            }
            Some(TurnEvent::PermissionCreateFailed(_, ip)) => {
                line.say(&"failed");
                line.say(&ip);
            }
            Some(_) => line.say(&"other"),
            None => return,
        }
    }
}

fn ask(line: &mut Line<'_>, client: &mut TurnClientUdp, now: Instant) {
    let transport = match line.word() {
        "udp" => TransportType::Udp,
        "tcp" => TransportType::Tcp,
        _ => {
            line.is_bad = true;
            TransportType::Udp
        }
    };
    let ips = ips(line);
    match client.create_permissions(transport, ips.as_slice(), now) {
        Ok(()) => line.say(&"ok"),
        Err(error) => line.say(&error),
    }
}

/// Parses the next word as IP addresses that are separated by commas; `-` is none.
fn ips(line: &mut Line<'_>) -> Vec<IpAddr> {
    let mut ips = Vec::new(line.alloc);
    let text = line.text();
    if !text.is_empty() {
        for word in text.split(',') {
            let is_stored = match word.parse::<IpAddr>() {
                Ok(ip) => ips.push(ip).is_ok(),
                Err(_) => false,
            };
            line.is_bad = line.is_bad || !is_stored;
        }
    }
    ips
}

//! The peers to which a relay should not relay by default.

ghost use Rattle.std.specs.Prelude.{◌↔◌, IsTrue};
ghost use Rattle.turn_desk_core.specs.ForbiddenPeers.{IsForbidden, IsForbiddenIpv4, IsForbiddenIpv6};

use std::net::IpAddr;

/// The addresses 64:ff9b::/96, without their last 32 bits (RFC 6052, section 2.1).
const NAT64: u128 = 0x0064_ff9b_0000_0000_0000_0000;

/// Returns whether a relay should, by default, refuse to relay to this address.
///
/// `Desk` doesn't call this: it grants any peer that the `Decision` allows. Call it for each peer
/// of a CREATE_PERMISSION, CHANNEL_BIND or CONNECT, and refuse the request with 403 if it returns
/// true (RFC 8656, sections 10.2 and 12.2).
///
/// - IPv4: 0.0.0.0/8, 127.0.0.0/8, 169.254.0.0/16, 224.0.0.0/4, 240.0.0.0/4 (RFC 6890, section
///   2.2.2; RFC 5771).
/// - IPv6: `::`, `::1`, fe80::/10, ff00::/8 (RFC 6890, section 2.2.3; RFC 4291, section 2.7), and
///   ::ffff:0:0/96, whichever IPv4 address it maps.
/// - Of 64:ff9b::/96, the addresses whose last 32 bits are one of the IPv4 addresses above: a NAT64
///   would translate them to it (RFC 6052).
/// - Teredo 2001::/32 and 6to4 2002::/16 (RFC 8656, section 21.4).
///
/// Private addresses (10.0.0.0/8, 172.16.0.0/12, 192.168.0.0/16, fc00::/7) are not forbidden:
/// whether clients may reach them is the application's policy. The relay's own addresses aren't
/// known here.
#[tactic(auto, unfolding(crate::specs::ForbiddenPeers::IsForbiddenIpv4, crate::specs::ForbiddenPeers::IsForbiddenIpv6))]
pub fn is_forbidden_peer(peer: &IpAddr) -> bool
    ensures { IsTrue result ↔ IsForbidden peer.now }
{
    match peer {
        IpAddr::V4(ip) => is_forbidden_ipv4(ip.to_bits()),
        IpAddr::V6(ip) => is_forbidden_ipv6(ip.to_bits()),
    }
}

/// Returns whether the IPv4 address with this big-endian value is forbidden.
#[tactic(auto, unfolding(crate::specs::ForbiddenPeers::IsForbiddenIpv4, crate::specs::ForbiddenPeers::IsInOneOf, crate::specs::ForbiddenPeers::ipv4_blocks))]
fn is_forbidden_ipv4(bits: u32) -> bool
    ensures { IsTrue result ↔ IsForbiddenIpv4 bits }
{
    bits >> 24 == 0 || bits >> 24 == 127 || bits >> 16 == 0xa9fe || bits >> 28 >= 14
}

/// Returns whether the IPv6 address with this big-endian value is forbidden.
#[tactic(auto, unfolding(crate::specs::ForbiddenPeers::IsForbiddenIpv4, crate::specs::ForbiddenPeers::IsForbiddenIpv6, crate::specs::ForbiddenPeers::IsInOneOf, crate::specs::ForbiddenPeers::ipv4_blocks, crate::specs::ForbiddenPeers::ipv6_blocks))]
fn is_forbidden_ipv6(bits: u128) -> bool
    ensures { IsTrue result ↔ IsForbiddenIpv6 bits }
{
    bits <= 1
        || bits >> 32 == 0xffff
        || bits >> 96 == 0x2001_0000
        || bits >> 112 == 0x2002
        || bits >> 118 == 0x3fa
        || bits >> 120 == 0xff
        || (bits >> 32 == NAT64 && is_forbidden_ipv4((bits % 0x1_0000_0000) as u32))
}

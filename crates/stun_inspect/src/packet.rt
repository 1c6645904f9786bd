//! Packets: what is in them of UDP and TCP.

use std::net::{IpAddr, SocketAddr};

/// The numbers of protocols over IP.
const TCP: u8 = 6;

const UDP: u8 = 17;
/// The number of headers of IPv6 before that of a protocol that are read at most.
const MAX_EXTENSIONS: usize = 8;

/// What stands before the header of IP.
#[derive(Clone, Copy, Debug, PartialEq, Eq)]
pub(crate) enum Link {
    /// Nothing.
    Raw,
    /// Four bytes with the family of addresses (loopback of BSD).
    Loopback,
    /// Two addresses of Ethernet, at most two tags of VLANs, and a type.
    Ethernet,
    /// 16 bytes, of which the last two are the type (Linux, any interface).
    Cooked,
    /// 20 bytes, of which the first two are the type (the same, version 2).
    Cooked2,
}

impl Link {
    /// Returns the link with this number of a file (LINKTYPE), if it is read.
    pub(crate) fn of_number(number: u32) -> Option<Link> {
        match number {
            0 | 108 => Some(Link::Loopback),
            1 => Some(Link::Ethernet),
            12 | 14 | 101 | 228 | 229 => Some(Link::Raw),
            113 => Some(Link::Cooked),
            276 => Some(Link::Cooked2),
            _ => None,
        }
    }

    /// Returns the bytes of IP, if the packet has some.
    fn inside<'a>(self, bytes: &'a [u8]) -> Option<&'a [u8]> {
        match self {
            Link::Raw => Some(bytes),
            Link::Loopback => bytes.get(4..),
            Link::Ethernet => of_type(untagged(untagged(bytes.get(12..)?))),
            Link::Cooked => of_type(bytes.get(14..)?),
            Link::Cooked2 => {
                of_type(bytes)?;
                bytes.get(20..)
            }
        }
    }
}

/// Skips the tag of a VLAN, if there is one.
fn untagged(bytes: &[u8]) -> &[u8] {
    match bytes {
        [0x81, 0x00, _, _, rest @ ..] | [0x88, 0xA8, _, _, rest @ ..] => rest,
        _ => bytes,
    }
}

/// Returns the bytes after a type that is IPv4 or IPv6.
fn of_type(bytes: &[u8]) -> Option<&[u8]> {
    match bytes {
        [0x08, 0x00, rest @ ..] | [0x86, 0xDD, rest @ ..] => Some(rest),
        _ => None,
    }
}

/// What a packet carries.
#[derive(Clone, Copy)]
pub(crate) enum Carried<'a> {
    /// The payload of a datagram.
    Udp(&'a [u8]),
    /// A part of a stream.
    Tcp(Segment<'a>),
}

/// A part of a stream of TCP.
#[derive(Clone, Copy)]
pub(crate) struct Segment<'a> {
    /// The sequence number of its first byte.
    pub(crate) sequence: u32,
    /// Whether the stream begins with it (SYN).
    pub(crate) is_first: bool,
    /// Its bytes.
    pub(crate) bytes: &'a [u8],
}

/// A packet over UDP or TCP.
#[derive(Clone, Copy)]
pub(crate) struct Packet<'a> {
    pub(crate) from: SocketAddr,
    pub(crate) to: SocketAddr,
    pub(crate) carried: Carried<'a>,
}

/// Reads a packet. `None` if it isn't one over UDP or TCP, is a fragment, or is cut.
pub(crate) fn read_packet(link: Link, bytes: &[u8]) -> Option<Packet<'_>> {
    let inside = link.inside(bytes)?;
    match inside {
        [0x40..=0x4F, ..] => read_ipv4(inside),
        [0x60..=0x6F, ..] => read_ipv6(inside),
        _ => None,
    }
}

/// Reads a packet of IPv4 (RFC 791, section 3.1).
fn read_ipv4(bytes: &[u8]) -> Option<Packet<'_>> {
    let [first, _, t0, t1, _, _, f0, f1, _, protocol, _, _, rest @ ..] = bytes else {
        return None;
    };
    let [s0, s1, s2, s3, d0, d1, d2, d3, ..] = rest else {
        return None;
    };
    // neither more fragments nor an offset
    if u16::from_be_bytes([*f0, *f1]) & 0x3FFF != 0 {
        return None;
    }
    let total = usize::from(u16::from_be_bytes([*t0, *t1]));
    // a length of 0 is that of a packet that the network card was to cut
    let whole = if total == 0 {
        bytes
    } else {
        bytes.get(..total)?
    };
    let inside = whole.get(usize::from(*first & 0x0F) * 4..)?;
    let from = IpAddr::from([*s0, *s1, *s2, *s3]);
    let to = IpAddr::from([*d0, *d1, *d2, *d3]);
    read_carried(*protocol, from, to, inside)
}

/// Reads a packet of IPv6 (RFC 8200, section 3).
fn read_ipv6(bytes: &[u8]) -> Option<Packet<'_>> {
    let [_, _, _, _, l0, l1, next, _, ..] = bytes else {
        return None;
    };
    let from = IpAddr::from(<[u8; 16]>::try_from(bytes.get(8..24)?).ok()?);
    let to = IpAddr::from(<[u8; 16]>::try_from(bytes.get(24..40)?).ok()?);
    let size = usize::from(u16::from_be_bytes([*l0, *l1]));
    let after = bytes.get(40..)?;
    let inside = if size == 0 { after } else { after.get(..size)? };
    let (protocol, inside) = after_extensions(*next, inside)?;
    read_carried(protocol, from, to, inside)
}

/// Skips headers of IPv6 that say nothing of the payload: hop-by-hop and destination options, routing
/// (RFC 8200, section 4).
fn after_extensions(next: u8, bytes: &[u8]) -> Option<(u8, &[u8])> {
    let mut next = next;
    let mut rest = bytes;
    for _ in 0..MAX_EXTENSIONS {
        match (next, rest) {
            (0 | 43 | 60, [following, len, ..]) => {
                next = *following;
                rest = rest.get((usize::from(*len) + 1) * 8..)?;
            }
            _ => return Some((next, rest)),
        }
    }
    None
}

/// Reads what a packet carries.
fn read_carried(protocol: u8, from: IpAddr, to: IpAddr, bytes: &[u8]) -> Option<Packet<'_>> {
    let [s0, s1, d0, d1, ..] = bytes else {
        return None;
    };
    let carried = match protocol {
        UDP => Carried::Udp(read_udp(bytes)?),
        TCP => Carried::Tcp(read_tcp(bytes)?),
        _ => return None,
    };
    Some(Packet {
        from: SocketAddr::new(from, u16::from_be_bytes([*s0, *s1])),
        to: SocketAddr::new(to, u16::from_be_bytes([*d0, *d1])),
        carried,
    })
}

/// Returns the payload of a datagram (RFC 768).
fn read_udp(bytes: &[u8]) -> Option<&[u8]> {
    let [_, _, _, _, l0, l1, ..] = bytes else {
        return None;
    };
    bytes.get(8..usize::from(u16::from_be_bytes([*l0, *l1])))
}

/// Reads a part of a stream (RFC 9293, section 3.1).
fn read_tcp(bytes: &[u8]) -> Option<Segment<'_>> {
    let [_, _, _, _, q0, q1, q2, q3, _, _, _, _, offset, flags, ..] = bytes else {
        return None;
    };
    Some(Segment {
        sequence: u32::from_be_bytes([*q0, *q1, *q2, *q3]),
        is_first: *flags & 0x02 != 0,
        bytes: bytes.get(usize::from(*offset >> 4) * 4..)?,
    })
}

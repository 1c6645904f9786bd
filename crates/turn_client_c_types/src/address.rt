//! Addresses and transports, as C passes and gets them.

ghost use Rattle.std.specs.Prelude.{◌≡◌, ◌≤◌, ◌++◌, length, take, Some, None, if◌then◌else◌};
ghost use Rattle.std.specs.Net.Addr.{ipv4_octets};
ghost use Rattle.turn_client_c_types.specs.Addresses.{address_of, ipv4, ips_of, no_address, number_of, socket_of, reported_address, reported_ip, transport_of, zeros};

use std::net::{IpAddr, Ipv4Addr, Ipv6Addr, SocketAddr, SocketAddrV4, SocketAddrV6};
use stun_types_base::transport::TransportType;
use turn_types::registry;

/// The number of the IPv4 family.
pub const IPV4: u8 = 4;

/// The number of the IPv6 family.
pub const IPV6: u8 = 6;

/// The protocol number of UDP in IP.
pub(crate) const UDP: u32 = registry::UDP as u32;

/// The protocol number of TCP in IP.
pub(crate) const TCP: u32 = registry::TCP as u32;

/// An address and a port.
#[repr(C)]
#[derive(Clone, Copy)]
pub struct TurnAddress {
    /// The octets, in network order. Of IPv4 only the first four count.
    pub ip: [u8; 16],
    /// The port.
    pub port: u16,
    /// The family: 4 or 6.
    pub family: u8,
}

impl TurnAddress {
    /// Returns the address, or `None` if the family is neither 4 nor 6. An IPv6 address has no flow
    /// information and no scope.
    #[inline]
    #[tactic(auto, unfolding(crate::specs::Addresses::address_of))]
    pub fn to_socket(&self) -> Option<SocketAddr>
        ensures { result ≡ address_of self.now }
    {
        if self.family == IPV4 {
            let [a, b, c, d, ..] = self.ip;
            let ip = Ipv4Addr::from_octets([a, b, c, d]);
            Some(SocketAddr::V4(SocketAddrV4::new(ip, self.port)))
        } else if self.family == IPV6 {
            let ip = Ipv6Addr::from_octets(self.ip);
            Some(SocketAddr::V6(SocketAddrV6::new(ip, self.port, 0, 0)))
        } else {
            None
        }
    }

    /// Writes an address.
    #[inline]
    pub fn report(&mut self, address: &SocketAddr)
        ensures { self.new ≡ reported_address address.now }
    {
        match address {
            SocketAddr::V4(v4) => self.report_v4(*v4.ip(), v4.port()),
            SocketAddr::V6(v6) => {
                self.ip = v6.ip().octets();
                self.port = v6.port();
                self.family = IPV6;
            }
        }
    }

    /// Writes an IP address, with port 0.
    pub fn report_ip(&mut self, ip: IpAddr)
        ensures { self.new ≡ reported_ip ip }
    {
        match ip {
            IpAddr::V4(v4) => self.report_v4(v4, 0),
            IpAddr::V6(v6) => {
                self.ip = v6.octets();
                self.port = 0;
                self.family = IPV6;
            }
        }
    }

    /// Writes no address, with a family only; family 0 is none.
    pub fn report_none(&mut self, family: u8)
        ensures { self.new ≡ no_address family }
    {
        self.ip = [0; 16];
        self.port = 0;
        self.family = family;
    }

    /// Writes an IPv4 address and a port.
    #[inline]
    fn report_v4(&mut self, ip: Ipv4Addr, port: u16)
        ensures { self.new
            ≡ record { ip = ipv4_octets ip ++ zeros; port = port; family = ipv4 } }
    {
        let [a, b, c, d] = ip.octets();
        self.ip = [a, b, c, d, 0, 0, 0, 0, 0, 0, 0, 0, 0, 0, 0, 0];
        self.port = port;
        self.family = IPV4;
    }
}

/// Returns the protocol number of a transport in IP.
pub fn number_of(transport: TransportType) -> u32
    ensures { result ≡ number_of transport }
{
    match transport {
        TransportType::Udp => UDP,
        TransportType::Tcp => TCP,
    }
}

/// Returns the transport with this protocol number in IP, or `None` if it is neither UDP nor TCP.
#[tactic(auto, unfolding(crate::specs::Addresses::transport_of))]
pub fn transport_of(number: u32) -> Option<TransportType>
    ensures { result ≡ transport_of number }
{
    if number == UDP {
        Some(TransportType::Udp)
    } else if number == TCP {
        Some(TransportType::Tcp)
    } else {
        None
    }
}

/// Returns the own address of a socket, `Some(None)` for family 0, which means that there is no
/// socket, or `None` if the family is none of 0, 4 and 6.
#[tactic(auto, unfolding(crate::specs::Addresses::socket_of))]
pub fn socket_of(address: &TurnAddress) -> Option<Option<SocketAddr>>
    ensures { result ≡ socket_of address.now }
{
    if address.family == 0 {
        return Some(None);
    }
    match address.to_socket() {
        Some(socket) => Some(Some(socket)),
        None => None,
    }
}

/// Writes the IP addresses of addresses to the start of `room`. Returns false if the family of one
/// is neither 4 nor 6; then not all are written.
pub fn write_ips(addresses: &[TurnAddress], room: &mut [IpAddr]) -> bool
    requires { length addresses.now ≤ length room.old }
    ensures { ips_of addresses.now
        ≡ (if result then Some (take (length addresses.now) room.new) else None) }
{
    for i in 0..addresses.len() {
        let Some(address) = addresses[i].to_socket() else {
            return false;
        };
        room[i] = address.ip();
    }
    true
}

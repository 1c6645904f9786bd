//! Address families.

use std::fmt;
use std::net::{IpAddr, Ipv4Addr, Ipv6Addr, SocketAddr, SocketAddrV4, SocketAddrV6};

/// The family of an address.
#[derive(Clone, Copy, Debug, PartialEq, Eq)]
pub enum AddressFamily {
    /// IPv4.
    IPV4,
    /// IPv6.
    IPV6,
}

/// Prints `IPV4` or `IPV6`.
impl fmt::Display for AddressFamily {
    ghost use Rattle.std.specs.Prelude.{Some};
    ghost use Rattle.stun_types_base.specs.Family.{name_of_family};

    ghost output = { λ family. Some (name_of_family family) };

    fn fmt<W: fmt::Write>(&self, f: &mut fmt::Formatter<W>) -> fmt::Result {
        match self {
            AddressFamily::IPV4 => write!(f, "IPV4"),
            AddressFamily::IPV6 => write!(f, "IPV6"),
        }
    }
}

impl From<&SocketAddr> for AddressFamily {
    ghost use Rattle.std.specs.Prelude.{◌≡◌};
    ghost use Rattle.stun_types_base.specs.Family.{family_of_socket};

    ghost from_gives = { λ addr family. family ≡ family_of_socket addr.now };

    fn from(value: &SocketAddr) -> AddressFamily {
        match value {
            SocketAddr::V4(_) => AddressFamily::IPV4,
            SocketAddr::V6(_) => AddressFamily::IPV6,
        }
    }
}

impl From<&IpAddr> for AddressFamily {
    ghost use Rattle.std.specs.Prelude.{◌≡◌};
    ghost use Rattle.stun_types_base.specs.Family.{family_of_ip};

    ghost from_gives = { λ addr family. family ≡ family_of_ip addr.now };

    fn from(value: &IpAddr) -> AddressFamily {
        match value {
            IpAddr::V4(_) => AddressFamily::IPV4,
            IpAddr::V6(_) => AddressFamily::IPV6,
        }
    }
}

impl From<&SocketAddrV4> for AddressFamily {
    ghost use Rattle.std.specs.Prelude.{◌≡◌};
    ghost use Rattle.stun_types_base.specs.declared.family.AddressFamily.TheVariants.{IPV4};

    ghost from_gives = { λ _ family. family ≡ IPV4 };

    fn from(_value: &SocketAddrV4) -> AddressFamily {
        AddressFamily::IPV4
    }
}

impl From<&SocketAddrV6> for AddressFamily {
    ghost use Rattle.std.specs.Prelude.{◌≡◌};
    ghost use Rattle.stun_types_base.specs.declared.family.AddressFamily.TheVariants.{IPV6};

    ghost from_gives = { λ _ family. family ≡ IPV6 };

    fn from(_value: &SocketAddrV6) -> AddressFamily {
        AddressFamily::IPV6
    }
}

impl From<&Ipv4Addr> for AddressFamily {
    ghost use Rattle.std.specs.Prelude.{◌≡◌};
    ghost use Rattle.stun_types_base.specs.declared.family.AddressFamily.TheVariants.{IPV4};

    ghost from_gives = { λ _ family. family ≡ IPV4 };

    fn from(_value: &Ipv4Addr) -> AddressFamily {
        AddressFamily::IPV4
    }
}

impl From<&Ipv6Addr> for AddressFamily {
    ghost use Rattle.std.specs.Prelude.{◌≡◌};
    ghost use Rattle.stun_types_base.specs.declared.family.AddressFamily.TheVariants.{IPV6};

    ghost from_gives = { λ _ family. family ≡ IPV6 };

    fn from(_value: &Ipv6Addr) -> AddressFamily {
        AddressFamily::IPV6
    }
}

//! Which addresses an allocation permits (RFC 8656, section 9).

ghost use Rattle.std.specs.Prelude.{◌≡◌};
ghost use Rattle.turn_client_proto_allocation.specs.Permits.{permits};

use crate::allocation::Allocation;
use std::net::IpAddr;

/// Returns whether the allocation has an active permission for the address.
pub fn permits(a: &Allocation, ip: IpAddr) -> bool
    ensures { result ≡ permits ip a.now }
{
    a.permissions.as_slice().iter().any(|p| p.ip == ip)
}

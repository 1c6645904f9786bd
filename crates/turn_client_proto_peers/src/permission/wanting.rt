//! Which permissions are to be renewed (RFC 8656, section 10.1).

ghost use Rattle.std.specs.Prelude.{◌≡◌, find};
ghost use Rattle.std.specs.Option.{option_map};
ghost use Rattle.turn_client_proto_allocation.specs.Permissions.{wants_renewal};
ghost use Rattle.turn_client_proto_allocation.specs.declared.permission.Permission.{Permission as Standing};
ghost use Rattle.turn_client_proto_peers.specs.Permission.Wanting.{renewal_wanted};

use std::net::IpAddr;
use stun_types_base::instant::Instant;
use turn_client_proto_allocation::allocation::Allocation;
use turn_client_proto_allocation::permission::Permission;

/// Returns the address of the first permission that is to be renewed at `now`.
fn first_renewal(permissions: &[Permission], now: Instant) -> Option<IpAddr>
    ensures { result ≡ option_map (λ (p : Standing). p.ip)
        (find (wants_renewal now) permissions.now) }
{
    let found = permissions.iter().find(|p| p.wants_renewal(now))?;
    Some(found.ip)
}

/// Returns the address of the first permission of the allocation that is to be renewed at `now`, or
/// `None` if the allocation is marked as expired or its expiry is before `now`.
///
/// A permission is to be renewed in the last 60 s before its expiry, if no request is to renew it
/// already.
#[tactic(auto, unfolding(crate::specs::Permission::Wanting::renewal_wanted))]
pub fn renewal_wanted(a: &Allocation, now: Instant) -> Option<IpAddr>
    ensures { result ≡ renewal_wanted now a.now }
{
    if !a.is_expired && now <= a.expiry {
        first_renewal(a.permissions.as_slice(), now)
    } else {
        None
    }
}

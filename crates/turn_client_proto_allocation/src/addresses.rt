//! The addresses that one request for permissions names (RFC 8656, section 10.1).

ghost use Rattle.std.specs.Prelude.{◌≡◌, ◌∷◌, IfOk};
ghost use Rattle.std.specs.List.{list_any};
ghost use Rattle.turn_client_proto_allocation.specs.Permissions.{each_once};
ghost use Rattle.turn_client_proto_allocation.specs.Same.{is_same_ip};

use std::alloc::Global;
use std::net::IpAddr;
use stun_types_base::list::ListOf;
use stun_types_base::memory::NoMemory;

/// Returns whether one of the addresses is `ip`.
pub fn names(ips: &[IpAddr], ip: IpAddr) -> bool
    ensures { result ≡ list_any (λ x. is_same_ip x ip) ips.now }
{
    ips.iter().any(|x| *x == ip)
}

/// Returns a list of these addresses. It allocates nothing if there is none. Fails with `NoMemory`
/// if memory runs out.
pub(crate) fn copied(alloc: Global, ips: &[IpAddr]) -> Result<ListOf<IpAddr>, NoMemory>
    ensures { IfOk result (λ list. list ≡ ips.now) }
{
    let mut list = ListOf::new(alloc);
    for ip in ips {
        list.push(*ip)?;
    }
    Ok(list)
}

/// Returns whether an address comes before: it is `ip` or one of `before`.
pub fn is_repeated(ip: IpAddr, before: &[IpAddr], other: IpAddr) -> bool
    ensures { result ≡ list_any (λ x. is_same_ip x other) (ip ∷ before.now) }
{
    ip == other || names(before, other)
}

/// Returns each of the addresses `ip` and `others` once, in the order in which they come first.
/// Fails with `NoMemory` if memory runs out.
pub fn each_once(alloc: Global, ip: IpAddr, others: &[IpAddr]) -> Result<ListOf<IpAddr>, NoMemory>
    ensures { IfOk result (λ ips. ips ≡ each_once (ip ∷ others.now)) }
{
    let mut ips = ListOf::new(alloc);
    ips.push(ip)?;
    for index in 0..others.len() {
        if !is_repeated(ip, &others[..index], others[index]) {
            ips.push(others[index])?;
        }
    }
    Ok(ips)
}

//! The permissions of one allocation.

ghost use Rattle.std.specs.Prelude.{◌≡◌, ◌++◌, OnOk, OnErr, take};
ghost use Rattle.turn_client_proto_peers.specs.Permission.Asking.{asks_for, is_of, is_past, is_pending_for, knows, permits_over};
ghost use Rattle.turn_client_proto_peers.specs.Permission.Granted.{granted_each, granted_for, permission_end, permitted, permitted_all, renewed, rejected};
ghost use Rattle.turn_client_proto_peers.specs.Permission.Reporting.{polled};

use std::alloc::Global;
use std::net::IpAddr;
use std::time::Duration;
use stun_types_base::family::AddressFamily;
use stun_types_base::instant::Instant;
use stun_types_base::list::ListOf;
use stun_types_base::memory::NoMemory;
use stun_types_base::transport::TransportType;
use stun_types_wire::transaction::TransactionId;
use turn_client_proto_allocation::addresses::names;
use turn_client_proto_allocation::allocation::Allocation;
use turn_client_proto_allocation::permission::{PendingPermission, Permission};
use turn_client_proto_allocation::permissions;
use turn_client_proto_allocation::permitted::permits;

/// The lifetime of a permission in seconds, unless it is renewed (RFC 8656, section 9).
const PERMISSION_LIFETIME: u64 = 300;

/// Returns the expiry of a permission that is granted at `now`.
pub(crate) fn permission_end(now: Instant) -> Instant
    ensures { result ≡ permission_end now }
{
    now.saturating_add(Duration::from_secs(PERMISSION_LIFETIME))
}

/// Returns whether the allocation is of this transport and its relayed address of this family.
pub(crate) fn is_of(a: &Allocation, transport: TransportType, family: AddressFamily) -> bool
    ensures { result ≡ is_of transport family a.now }
{
    a.transport == transport && AddressFamily::from(&a.address) == family
}

/// Returns whether the allocation has expired at `now`.
pub fn is_past(a: &Allocation, now: Instant) -> bool
    ensures { result ≡ is_past now a.now }
{
    a.expiry <= now
}

/// Returns whether the pending permission is for the address, among others.
fn is_pending_for(p: &PendingPermission, ip: IpAddr) -> bool
    ensures { result ≡ is_pending_for ip p.now }
{
    names(p.others.as_slice(), ip) || p.ip == ip
}

/// Returns whether the allocation has a pending permission for the address.
fn asks_for(a: &Allocation, ip: IpAddr) -> bool
    ensures { result ≡ asks_for ip a.now }
{
    let pending = a.pending_permissions.as_slice();
    pending.iter().any(|p| is_pending_for(p, ip))
}

/// Returns whether the allocation has an active or pending permission for the address.
pub fn knows(a: &Allocation, ip: IpAddr) -> bool
    ensures { result ≡ knows ip a.now }
{
    permits(a, ip) || asks_for(a, ip)
}

/// Returns whether the allocation is of this transport, is not marked as expired, and has an active
/// permission for the address.
pub(crate) fn permits_over(a: &Allocation, transport: TransportType, ip: IpAddr) -> bool
    ensures { result ≡ permits_over transport ip a.now }
{
    !a.is_expired && a.transport == transport && permits(a, ip)
}

/// Returns the permission for the address that was granted at `now`.
fn granted_for(alloc: Global, ip: IpAddr, now: Instant) -> Permission
    ensures { result ≡ granted_for ip now }
{
    Permission {
        ip,
        expiry: permission_end(now),
        renewals: ListOf::new(alloc),
    }
}

/// Removes all permissions but the first `count`.
fn keep_first(permissions: &mut ListOf<Permission>, count: usize)
    ensures { permissions.new ≡ take count permissions.old }
{
    while permissions.len() > count {
        permissions.pop();
    }
}

/// Appends a permission for each address, granted at `now`. If memory runs out, fails with
/// `NoMemory` and nothing changes.
fn grant_each(
    alloc: Global,
    permissions: &mut ListOf<Permission>,
    ips: &[IpAddr],
    now: Instant,
) -> Result<(), NoMemory>
    ensures ok { OnOk result (permissions.new ≡ permissions.old ++ granted_each ips.now now) }
    ensures err { OnErr result (permissions.new ≡ permissions.old) }
{
    let count = permissions.len();
    for ip in ips {
        if permissions.push(granted_for(alloc, *ip, now)).is_err() {
            keep_first(permissions, count);
            return Err(NoMemory);
        }
    }
    Ok(())
}

/// Adds an active permission for each address and removes the pending permissions of the request
/// with this transaction ID. If memory runs out, fails with `NoMemory` and nothing changes.
pub fn permit_each(
    alloc: Global,
    a: &mut Allocation,
    ips: &[IpAddr],
    transaction_id: TransactionId,
    now: Instant,
) -> Result<(), NoMemory>
    ensures ok { OnOk result (a.new ≡ permitted_all ips.now transaction_id now a.old) }
    ensures err { OnErr result (a.new ≡ a.old) }
{
    grant_each(alloc, &mut a.permissions, ips, now)?;
    a.pending_permissions
        .retain(|p| !p.is_requested_by(transaction_id));
    Ok(())
}

/// Adds an active permission for the address and removes the pending permissions of the request
/// with this transaction ID. If memory runs out, fails with `NoMemory` and nothing changes.
pub fn permit(
    alloc: Global,
    a: &mut Allocation,
    ip: IpAddr,
    transaction_id: TransactionId,
    now: Instant,
) -> Result<(), NoMemory>
    ensures ok { OnOk result (a.new ≡ permitted ip transaction_id now a.old) }
    ensures err { OnErr result (a.new ≡ a.old) }
{
    a.permissions.push(granted_for(alloc, ip, now))?;
    a.pending_permissions
        .retain(|p| !p.is_requested_by(transaction_id));
    Ok(())
}

/// Handles the success response to the request with this transaction ID: renews the permissions
/// that it was to renew.
#[tactic(auto, unfolding(crate::specs::Permission::Granted::renewed))]
pub(crate) fn renew(a: &mut Allocation, transaction_id: TransactionId, now: Instant)
    ensures { a.new ≡ renewed transaction_id now a.old }
{
    permissions::renew(
        a.permissions.as_mut_slice(),
        transaction_id,
        permission_end(now),
    );
}

/// Handles an error response to the request with this transaction ID: removes the permissions that
/// it requested or was to renew.
#[tactic(auto, unfolding(crate::specs::Permission::Granted::rejected))]
pub(crate) fn reject(a: &mut Allocation, transaction_id: TransactionId)
    ensures { a.new ≡ rejected transaction_id a.old }
{
    a.permissions.retain(|p| !p.is_renewed_by(transaction_id));
    a.pending_permissions
        .retain(|p| !p.is_requested_by(transaction_id));
}

/// Removes the permissions that have expired at `now` and the pending permissions whose request
/// timed out, and forgets renewals that timed out.
#[tactic(auto, unfolding(crate::specs::Permission::Reporting::polled))]
pub(crate) fn poll(a: &mut Allocation, ended: &Option<TransactionId>, now: Instant)
    ensures { a.new ≡ polled ended.now now a.old }
{
    a.permissions.retain(|p| !p.has_expired(now));
    permissions::poll(a.permissions.as_mut_slice(), ended);
    a.pending_permissions.retain(|p| !p.is_over(ended));
}

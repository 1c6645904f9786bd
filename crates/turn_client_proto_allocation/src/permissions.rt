//! Operations on the permissions of one allocation (RFC 8656, sections 9 and 10).

ghost use Rattle.std.specs.Prelude.{◌≡◌, OnOk, OnErr, map, position};
ghost use Rattle.turn_client_proto_allocation.specs.Awaited.{asks_for_permission, renews_permission};
ghost use Rattle.turn_client_proto_allocation.specs.Permissions.{requested_again, polled_permission, renewed_again, renewed_first, renewed_permission, wants_renewal};

use crate::permission::{PendingPermission, Permission};
use stun_types_base::instant::Instant;
use stun_types_base::memory::NoMemory;
use stun_types_wire::transaction::TransactionId;

/// Handles the success response to the request with this transaction ID: the permissions that it
/// was to renew now expire at `expiry`.
pub fn renew(permissions: &mut [Permission], transaction_id: TransactionId, expiry: Instant)
    ensures { permissions.new ≡ map (renewed_permission transaction_id expiry) permissions.old }
{
    for permission in permissions.iter_mut() {
        permission.renew(transaction_id, expiry);
    }
}

/// Forgets the requests that are to renew a permission, in each permission for which the
/// transaction that timed out is one of theirs. Such a permission may be renewed again.
pub fn poll(permissions: &mut [Permission], ended: &Option<TransactionId>)
    ensures { permissions.new ≡ map (polled_permission ended.now) permissions.old }
{
    for permission in permissions.iter_mut() {
        permission.poll(ended);
    }
}

/// Returns the index of the first permission that the request with this transaction ID is to renew.
fn index_renewed(permissions: &[Permission], transaction_id: TransactionId) -> Option<usize>
    ensures { result ≡ position (renews_permission transaction_id) permissions.now }
{
    permissions
        .iter()
        .position(|p| p.is_renewed_by(transaction_id))
}

/// Returns the index of the first permission that is to be renewed at `now`.
fn index_wanting(permissions: &[Permission], now: Instant) -> Option<usize>
    ensures { result ≡ position (wants_renewal now) permissions.now }
{
    permissions.iter().position(|p| p.wants_renewal(now))
}

/// Returns the index of the first permission that the request with this transaction ID requests.
pub(crate) fn index_requested(
    pending: &[PendingPermission],
    transaction_id: TransactionId,
) -> Option<usize>
    ensures { result ≡ position (asks_for_permission transaction_id) pending.now }
{
    pending
        .iter()
        .position(|p| p.is_requested_by(transaction_id))
}

/// Adds the transaction ID `number` to the first permission that the request with the ID `old` is
/// to renew. If memory runs out, returns `NoMemory` and nothing changes.
#[tactic(auto, using(crate::proofs::Changes::first_by_index))]
pub fn renew_again(
    permissions: &mut [Permission],
    old: TransactionId,
    transaction_id: TransactionId,
) -> Result<(), NoMemory>
    ensures ok { OnOk result (permissions.new ≡ renewed_again old transaction_id permissions.old) }
    ensures err { OnErr result (permissions.new ≡ permissions.old) }
{
    let Some(index) = index_renewed(permissions, old) else {
        return Ok(());
    };
    permissions[index].renewals.push(transaction_id)
}

/// Remembers that the request with this transaction ID is to renew the first permission that is to
/// be renewed at `now`. If memory runs out, returns `NoMemory` and nothing changes.
#[tactic(auto, using(crate::proofs::Changes::first_by_index))]
pub fn renew_first(
    permissions: &mut [Permission],
    now: Instant,
    transaction_id: TransactionId,
) -> Result<(), NoMemory>
    ensures ok { OnOk result (permissions.new ≡ renewed_first now transaction_id permissions.old) }
    ensures err { OnErr result (permissions.new ≡ permissions.old) }
{
    let Some(index) = index_wanting(permissions, now) else {
        return Ok(());
    };
    permissions[index].renewals.push(transaction_id)
}

/// Adds the transaction ID `number` to the first pending permission that the request with the ID
/// `old` requests. If memory runs out, returns `NoMemory` and nothing changes.
#[tactic(auto, using(crate::proofs::Changes::first_by_index))]
pub fn ask_again(
    pending: &mut [PendingPermission],
    old: TransactionId,
    transaction_id: TransactionId,
) -> Result<(), NoMemory>
    ensures ok { OnOk result (pending.new ≡ requested_again old transaction_id pending.old) }
    ensures err { OnErr result (pending.new ≡ pending.old) }
{
    let Some(index) = index_requested(pending, old) else {
        return Ok(());
    };
    pending[index].numbers.push(transaction_id)
}

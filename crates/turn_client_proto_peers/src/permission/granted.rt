//! The effect of a response to a CREATE_PERMISSION on the permissions (RFC 8656, section 10.3).

ghost use Rattle.std.specs.Prelude.{◌≡◌, map};
ghost use Rattle.turn_client_proto_peers.specs.Permission.Granted.{renewed, rejected};

use crate::permission::one;
use stun_types_base::instant::Instant;
use stun_types_wire::transaction::TransactionId;
use turn_client_proto_allocation::allocation::Allocation;

/// Handles the success response to the request with this transaction ID: in each allocation, renews
/// the permissions that it was to renew.
pub fn renew(allocations: &mut [Allocation], transaction_id: TransactionId, now: Instant)
    ensures { allocations.new ≡ map (renewed transaction_id now) allocations.old }
{
    for allocation in allocations.iter_mut() {
        one::renew(allocation, transaction_id, now);
    }
}

/// Handles an error response to the request with this transaction ID: in each allocation, removes
/// the permissions that it requested or was to renew.
pub fn reject(allocations: &mut [Allocation], transaction_id: TransactionId)
    ensures { allocations.new ≡ map (rejected transaction_id) allocations.old }
{
    for allocation in allocations.iter_mut() {
        one::reject(allocation, transaction_id);
    }
}

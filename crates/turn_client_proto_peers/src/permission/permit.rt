//! The effect of a success response to a CREATE_PERMISSION on the permissions (RFC 8656, section
//! 10.3).

ghost use Rattle.std.specs.Prelude.{◌≡◌, OnOk, OnErr, Some, position};
ghost use Rattle.turn_client_proto_allocation.specs.PendingRequests.{awaits_reply};
ghost use Rattle.turn_client_proto_peers.specs.Permission.Permitted.{all_permitted, all_permitted_each, permission_requested};

use crate::permission::one::{permit as permit_in, permit_each as permit_each_in};
use std::alloc::Global;
use std::net::IpAddr;
use stun_types_base::instant::Instant;
use stun_types_base::memory::NoMemory;
use stun_types_wire::transaction::TransactionId;
use turn_client_proto_allocation::allocation::Allocation;

/// Returns the address of the first permission of the allocation that the request with this
/// transaction ID requests. A CHANNEL_BIND may request one together with its channel.
pub fn permission_requested(a: &Allocation, transaction_id: TransactionId) -> Option<IpAddr>
    ensures { result ≡ permission_requested transaction_id a.now }
{
    let pending = a.pending_permissions.as_slice();
    let p = pending.iter().find(|p| p.is_requested_by(transaction_id))?;
    Some(p.ip)
}

/// Handles the success response to the request for new permissions with this transaction ID: adds
/// an active permission for each address in the allocation at `index` and removes the pending
/// permissions of the request there.
///
/// That allocation has to be the first that awaits the response. If memory runs out, fails with
/// `NoMemory` and nothing changes.
#[tactic(auto, using(turn_client_proto_allocation::proofs::Changes::first_by_index))]
pub fn permit_each(
    alloc: Global,
    allocations: &mut [Allocation],
    index: usize,
    ips: &[IpAddr],
    transaction_id: TransactionId,
    now: Instant,
) -> Result<(), NoMemory>
    requires { position (awaits_reply transaction_id) allocations.old ≡ Some index }
    ensures ok { OnOk result (allocations.new
        ≡ all_permitted_each ips.now transaction_id now allocations.old) }
    ensures err { OnErr result (allocations.new ≡ allocations.old) }
{
    permit_each_in(alloc, &mut allocations[index], ips, transaction_id, now)
}

/// Handles the success response to the request for a new permission with this transaction ID: adds
/// an active permission for the address in the allocation at `index` and removes the pending
/// permissions of the request there.
///
/// That allocation has to be the first that awaits the response. If memory runs out, fails with
/// `NoMemory` and nothing changes.
#[tactic(auto, using(turn_client_proto_allocation::proofs::Changes::first_by_index))]
pub fn permit(
    alloc: Global,
    allocations: &mut [Allocation],
    index: usize,
    ip: IpAddr,
    transaction_id: TransactionId,
    now: Instant,
) -> Result<(), NoMemory>
    requires { position (awaits_reply transaction_id) allocations.old ≡ Some index }
    ensures ok { OnOk result (allocations.new ≡ all_permitted ip transaction_id now allocations.old) }
    ensures err { OnErr result (allocations.new ≡ allocations.old) }
{
    permit_in(alloc, &mut allocations[index], ip, transaction_id, now)
}

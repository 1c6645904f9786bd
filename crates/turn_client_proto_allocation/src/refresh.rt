//! REFRESH requests that are not answered (RFC 8656, section 8).

ghost use Rattle.std.specs.Prelude.{◌≡◌, find};
ghost use Rattle.std.specs.List.{list_any};
ghost use Rattle.turn_client_proto_allocation.specs.Awaited.{is_refresh};
ghost use Rattle.turn_client_proto_allocation.specs.Refreshing.{lifetime_requested};

use stun_types_wire::transaction::TransactionId;

/// A REFRESH request that is not answered.
#[derive(Clone, Copy, Debug)]
pub struct PendingRefresh {
    /// The transaction ID of the request.
    pub number: TransactionId,
    /// The lifetime that it requests, in seconds; 0 deletes the allocation.
    pub lifetime: u32,
}

/// Returns whether one of the requests has this transaction ID.
pub(crate) fn is_any_refresh(refreshes: &[PendingRefresh], transaction_id: TransactionId) -> bool
    ensures { result ≡ list_any (is_refresh transaction_id) refreshes.now }
{
    refreshes.iter().any(|r| r.number == transaction_id)
}

/// Returns the lifetime, in seconds, that the first request with this transaction ID requests.
pub(crate) fn lifetime_requested(
    refreshes: &[PendingRefresh],
    transaction_id: TransactionId,
) -> Option<u32>
    ensures { result ≡ lifetime_requested transaction_id refreshes.now }
{
    let found = refreshes.iter().find(|r| r.number == transaction_id)?;
    Some(found.lifetime)
}

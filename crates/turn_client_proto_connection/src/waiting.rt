//! Connections for which the caller is to open a socket (RFC 6062, section 4.3).

ghost use Rattle.std.specs.Prelude.{◌≡◌, find, position};
ghost use Rattle.turn_client_proto_allocation.specs.Changes.{change_first};
ghost use Rattle.turn_client_proto_connection.specs.Waiting.{all_requested, requested, has_unasked, is_unasked, unasked};

use turn_client_proto_allocation::allocation::Allocation;
use turn_client_proto_allocation::connection::Waiting;

/// Returns the index of the first waiting connection for which no socket was requested from the
/// caller yet.
fn index_unasked(waiting: &[Waiting]) -> Option<usize>
    ensures { result ≡ position is_unasked waiting.now }
{
    waiting.iter().position(|w| !w.is_requested)
}

/// Returns whether the allocation has such a connection.
fn has_unasked(a: &Allocation) -> bool
    ensures { result ≡ has_unasked a.now }
{
    a.waiting.as_slice().iter().any(|w| !w.is_requested)
}

/// Returns the index of the first allocation that has such a connection.
fn index_of(allocations: &[Allocation]) -> Option<usize>
    ensures { result ≡ position has_unasked allocations.now }
{
    allocations.iter().position(|a| has_unasked(a))
}

/// Returns the first waiting connection of the list for which no socket was requested yet, and
/// marks it as requested.
#[tactic(auto, using(crate::proofs::Usual::by_index))]
fn ask_in(waiting: &mut [Waiting]) -> Option<Waiting>
    ensures given { result ≡ find is_unasked waiting.old }
    ensures after { waiting.new ≡ change_first is_unasked requested waiting.old }
{
    let index = index_unasked(waiting)?;
    let first = waiting[index];
    waiting[index].is_requested = true;
    Some(first)
}

/// Returns the first waiting connection of all allocations for which no socket was requested yet,
/// and marks it as requested.
#[tactic(auto, using(crate::proofs::Usual::by_index))]
pub fn ask_first(allocations: &mut [Allocation]) -> Option<Waiting>
    ensures given { result ≡ unasked allocations.old }
    ensures after { allocations.new ≡ all_requested allocations.old }
{
    let index = index_of(allocations)?;
    ask_in(allocations[index].waiting.as_mut_slice())
}

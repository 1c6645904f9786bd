//! The connections that the getters list.

ghost use Rattle.std.specs.Prelude.{◌≡◌, length};
ghost use Rattle.turn_client_proto_connection.specs.Visible.{connections_of, connections_listed};

use turn_client_proto_allocation::allocation::Allocation;
use turn_client_proto_allocation::connection::Connection;
use turn_client_proto_allocation::listed::Allocations;

/// Returns the data connections of the allocation, bound or not, or none if it is marked as
/// expired.
pub fn connections_of(a: &Allocation) -> &[Connection]
    ensures { result.now ≡ connections_of a.now }
{
    if a.is_expired {
        &[]
    } else {
        a.connections.as_slice()
    }
}

/// Returns the count of the listed connections of all allocations.
pub fn connections_count(allocations: &Allocations) -> usize
    ensures { result ≡ length (connections_listed allocations.now) }
{
    let most = allocations.count() as usize;
    let mut count = 0;
    for a in allocations.as_slice() {
        count += listed_count(a) as usize;
    }
    count
}

/// Returns the count of the listed connections of one allocation.
fn listed_count(a: &Allocation) -> u32
    ensures { result ≡ length (connections_of a.now) }
{
    if a.is_expired {
        0
    } else {
        a.connections.count()
    }
}

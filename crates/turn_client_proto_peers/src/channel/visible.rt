//! The channels that the getters list.

ghost use Rattle.std.specs.Prelude.{◌≡◌, length};
ghost use Rattle.turn_client_proto_peers.specs.Channel.Visible.{channels_of, channels_listed};

use turn_client_proto_allocation::allocation::Allocation;
use turn_client_proto_allocation::channel::Channel;
use turn_client_proto_allocation::listed::Allocations;

/// Returns the active channels of the allocation, or none if it is marked as expired.
pub fn channels_of(a: &Allocation) -> &[Channel]
    ensures { result.now ≡ channels_of a.now }
{
    if a.is_expired {
        &[]
    } else {
        a.channels.as_slice()
    }
}

/// Returns the count of the listed channels of all allocations.
pub fn channels_count(allocations: &Allocations) -> usize
    ensures { result ≡ length (channels_listed allocations.now) }
{
    let most = allocations.count() as usize;
    let mut count = 0;
    for a in allocations.as_slice() {
        count += listed_count(a) as usize;
    }
    count
}

/// Returns the count of the listed channels of one allocation.
fn listed_count(a: &Allocation) -> u32
    ensures { result ≡ length (channels_of a.now) }
{
    if a.is_expired { 0 } else { a.channels.count() }
}

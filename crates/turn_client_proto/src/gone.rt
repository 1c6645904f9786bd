//! The allocations that `poll` removes because their time is over.

ghost use Rattle.std.specs.Prelude.{◌≡◌, map, option_to_list, take};
ghost use Rattle.turn_client_proto.specs.Gone.{gone_of, is_held, pushed_all, reported_of};

use std::net::SocketAddr;
use turn_client_proto_allocation::allocation::Allocation;
use turn_client_proto_api::expired::{AllocationExpired, Expired};

/// Returns what a user is told of an allocation when its time is over.
fn reported_of(allocation: &Allocation) -> AllocationExpired
    ensures { result ≡ reported_of allocation.now }
{
    AllocationExpired {
        transport: allocation.transport,
        relayed: allocation.address,
    }
}

/// Returns the first two of these allocations, or all if there are fewer.
pub(crate) fn first_two(allocations: &[Allocation]) -> Expired
    ensures { result ≡ take 2 (map reported_of allocations.now) }
{
    let mut held = Expired::new();
    match allocations {
        [] => {}
        [only] => held.push(reported_of(only)),
        [first, second, ..] => {
            held.push(reported_of(first));
            held.push(reported_of(second));
        }
    }
    held
}

/// Returns whether one of these allocations has this relayed address.
fn is_held(allocations: &[Allocation], relayed: SocketAddr) -> bool
    ensures { result ≡ is_held relayed allocations.now }
{
    allocations.iter().any(|a| a.address == relayed)
}

/// Adds those of `held` whose relayed address none of `left` has.
pub(crate) fn push_gone(expired: &mut Expired, held: Expired, left: &[Allocation])
    ensures { expired.new ≡ pushed_all (gone_of held left.now) expired.old }
{
    let (first, second) = held.both();
    push_if_gone(expired, first, left);
    push_if_gone(expired, second, left);
}

/// Adds an allocation, if there is one and none of `left` has its relayed address.
fn push_if_gone(expired: &mut Expired, held: Option<AllocationExpired>, left: &[Allocation])
    ensures { expired.new ≡ pushed_all (gone_of (option_to_list held) left.now) expired.old }
{
    if let Some(held) = held {
        if !is_held(left, held.relayed) {
            expired.push(held);
        }
    }
}

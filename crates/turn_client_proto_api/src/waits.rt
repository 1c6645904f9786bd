//! The waits of requests that a caller sets.

ghost use Rattle.std.specs.Prelude.{◌≡◌, Some};
ghost use Rattle.turn_client_proto_api.specs.SameWaits.{same_waits};
ghost use Rattle.turn_client_proto_api.specs.SetWaitsView.{waits_of};

use std::time::Duration;

/// The wait after the first transmission of a request, the longest wait, the number of
/// transmissions, and the wait after the last transmission.
#[derive(Clone, Copy, Debug)]
pub(crate) struct SetWaits {
    pub(crate) initial: Duration,
    pub(crate) max: Duration,
    pub(crate) retransmits: u32,
    pub(crate) last: Duration,
}

/// Returns whether the set waits are equal, where `None` stands for those of a new agent.
pub(crate) fn is_same(one: Option<SetWaits>, other: Option<SetWaits>) -> bool
    ensures { result ≡ same_waits (waits_of one) (waits_of other) }
{
    match (one, other) {
        (Some(one), Some(other)) => is_each_same(one, other),
        (None, None) => true,
        _ => false,
    }
}

/// Returns whether two settings of waits are equal.
fn is_each_same(one: SetWaits, other: SetWaits) -> bool
    ensures { result ≡ same_waits (waits_of (Some one)) (waits_of (Some other)) }
{
    one.max.as_nanos() == other.max.as_nanos()
        && one.initial.as_nanos() == other.initial.as_nanos()
        && one.retransmits == other.retransmits
        && one.last.as_nanos() == other.last.as_nanos()
}

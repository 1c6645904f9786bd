//! The queued replies to the server's own requests (RFC 6062, section 4.4).

ghost use Rattle.std.specs.Prelude.{◌≡◌, IfNone, find, position};
ghost use Rattle.std.specs.List.{list_any};
ghost use Rattle.turn_client_proto_messages.specs.Waiting.{is_answer};
ghost use Rattle.turn_client_proto_timers.specs.Answering.{without_answer};

use turn_client_proto_api::queue::QueueOf;
use turn_client_proto_messages::queued::Queued;

/// Returns whether one of these messages is a reply.
fn has_one(queued: &[Queued]) -> bool
    ensures { result ≡ list_any is_answer queued.now }
{
    queued.iter().any(|q| !q.is_request())
}

/// Returns whether a reply is queued.
pub(crate) fn has_answer(queue: &QueueOf<Queued>) -> bool
    ensures { result ≡ list_any is_answer queue.now }
{
    let (head, following) = queue.as_slices();
    has_one(head) || has_one(following)
}

/// Returns the index of the first reply among these messages.
fn index_in(queued: &[Queued]) -> Option<usize>
    ensures { result ≡ position is_answer queued.now }
{
    queued.iter().position(|q| !q.is_request())
}

/// Returns the index of the first reply in the queue.
fn index_of(queue: &QueueOf<Queued>) -> Option<usize>
    ensures { result ≡ position is_answer queue.now }
{
    let (head, following) = queue.as_slices();
    if let Some(index) = index_in(head) {
        return Some(index);
    }
    let index = index_in(following)?;
    Some(head.len() + index)
}

/// Removes and returns the first reply in the queue. The other messages keep their order.
pub(crate) fn take_answer(queue: &mut QueueOf<Queued>) -> Option<Queued>
    ensures given { result ≡ find is_answer queue.old }
    ensures after { queue.new ≡ without_answer queue.old }
    ensures none { IfNone result (queue.new ≡ queue.old) }
{
    let index = index_of(queue)?;
    queue.remove(index)
}

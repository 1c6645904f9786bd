//! Checks the attributes of a request.

ghost use Rattle.std.specs.Prelude.{◌≡◌, IfSome};
ghost use Rattle.bench_codec.specs.Allocated.{WritesOut};
ghost use Rattle.bench_codec.specs.Objected.{unknown_text};

use crate::build::copy_out;
use std::alloc::Global;
use stun_types_message::parsed::Message;
use stun_types_wire::class::MessageClass;
use stun_types_write::vec::MessageWriteVec;

/// Checks the visible attributes of a request, with no attribute type supported and none required,
/// and writes the error response to the start of `out`: ERROR-CODE 420 and UNKNOWN-ATTRIBUTES,
/// which lists each unknown type once.
///
/// Returns the length of the response. Returns 0 and writes nothing if:
///
/// - the bytes are not a request;
/// - no type is unknown;
/// - the response would be too long;
/// - `out` is too short;
/// - an allocation fails.
#[unsafe(no_mangle)]
pub extern "C" fn stun_bench_check_types(alloc: Global, bytes: &[u8], out: &mut [u8]) -> usize
    ensures { WritesOut (unknown_text bytes.now) out.old out.new result }
{
    match objection_to(alloc, bytes) {
        Some(reply) => {
            let size = copy_out(reply.as_slice(), out);
            drop(reply);
            size
        }
        None => 0,
    }
}

/// Returns that response in a writer. Returns `None` if there is none to send or if building it
/// fails.
#[tactic(auto, using(crate::proofs::Objected::is_unknown_text))]
fn objection_to(alloc: Global, bytes: &[u8]) -> Option<MessageWriteVec>
    ensures { IfSome result (λ reply. reply.bytes ≡ unknown_text bytes.now) }
{
    let message = Message::from_bytes(bytes).ok()?;
    if !message.has_class(MessageClass::Request) {
        return None;
    }
    match Message::check_attribute_types(alloc, &message, &[], &[], MessageWriteVec::new(alloc)) {
        Ok(answered) => answered,
        Err(_) => None,
    }
}

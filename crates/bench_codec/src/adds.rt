//! Builds a message with many attributes.

ghost use Rattle.std.specs.Prelude.{OnOk};
ghost use Rattle.stun_types_write.specs.Adding.{IsStarted};
ghost use Rattle.stun_types_write.specs.Outcomes.{IsAdded};
ghost use Rattle.bench_codec.specs.Allocated.{IsSizeOf};
ghost use Rattle.bench_codec.specs.Lifetimes.{GrowsBy, lifetime, lifetimes_text};

use crate::lent::{begin_into, size_of_head};
use stun_types_add::ext::add_as;
use stun_types_wire::error::StunWriteError;
use stun_types_write::writer::MessageWrite;
use turn_types_attributes::lifetime::Lifetime;

/// Writes a success response to an ALLOCATE with this transaction ID to the start of `out`. The
/// response has one LIFETIME for each of these numbers of seconds and no other attribute. The
/// writer writes directly into `out`.
///
/// Returns the length of the response. Returns 0 if `out` is too short or if the length field would
/// exceed 65,535.
#[unsafe(no_mangle)]
pub extern "C" fn stun_bench_add_lifetimes(each: &[u32], number: u64, out: &mut [u8]) -> usize
    ensures { IsSizeOf (lifetimes_text each.now number) result }
{
    let Some(started) = begin_into(number, out) else {
        return 0;
    };
    let mut writer = started;
    match add_lifetimes(&mut writer, each) {
        Ok(()) => size_of_head(writer),
        Err(_) => 0,
    }
}

/// Adds one LIFETIME to a message for each of these numbers of seconds. Fails as an add fails.
#[tactic(auto, using(crate::proofs::Growing::grows_by_none, crate::proofs::Growing::grows_by_one))]
fn add_lifetimes<W: MessageWrite>(writer: &mut W, each: &[u32]) -> Result<(), StunWriteError>
    requires started { IsStarted (W.draft writer.old).bytes }
    ensures { OnOk result (GrowsBy each.now
        (W.draft writer.old).bytes (W.draft writer.new).bytes) }
{
    for seconds in each {
        add_lifetime(writer, *seconds)?;
    }
    Ok(())
}

/// Adds a LIFETIME of this many seconds to a message. Fails as an add fails.
///
/// It is never inlined, so the benchmark times separate adds and not a loop into which the compiler
/// merged them.
#[inline(never)]
fn add_lifetime<W: MessageWrite>(writer: &mut W, seconds: u32) -> Result<(), StunWriteError>
    requires started { IsStarted (W.draft writer.old).bytes }
    ensures { OnOk result (IsAdded (lifetime seconds)
        (W.draft writer.old) (W.draft writer.new)) }
{
    let added = Lifetime::new(seconds);
    add_as(writer, &added, &added)
}

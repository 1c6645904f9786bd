//! Proof only: what the types of values imply. The functions do nothing; each contract is a lemma.

ghost use Rattle.std.specs.Prelude.{◌<◌, ◌^◌};
ghost use Rattle.stun_types_wire.specs.Headers.{AreBytes};
ghost use Rattle.turn_desk_world.specs.Desks.{HasFourBytes};

use turn_desk_core::decision::Decision;

/// Each byte is below 256.
pub(crate) fn proof_are_bytes(bytes: &[u8])
    ensures { AreBytes bytes.now }
{}

/// A `u32` is below 2^32.
fn proof_has_four_bytes(number: u32)
    ensures { number < 2 ^ 32 }
{}

/// The 32-bit numbers of a decision are below 2^32.
pub(crate) fn proof_numbers_have_four_bytes(decision: &Decision)
    ensures { HasFourBytes decision.now }
{
    match decision {
        Decision::Allocate { lifetime, .. } => proof_has_four_bytes(*lifetime),
        Decision::Refresh { lifetime } => proof_has_four_bytes(*lifetime),
        Decision::Connect { number } => proof_has_four_bytes(*number),
        Decision::Refuse(_) | Decision::Grant => {}
    }
}

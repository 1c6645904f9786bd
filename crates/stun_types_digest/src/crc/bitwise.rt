//! The CRC-32 computed bit by bit, as its definition says. It needs no table. The fast version
//! returns the same values.

ghost use Rattle.std.specs.Prelude.{◌≡◌};
ghost use Rattle.stun_types_digest.specs.Crc.{crc32, bit_step, byte_step};

use crate::crc::ALL_ONES;

/// The generator without its term x^32; bit 0 is the coefficient of x^31.
const GENERATOR: u32 = 0xedb8_8320;

/// Returns the register after one more bit.
fn after_bit(register: u32) -> u32
    ensures { result ≡ bit_step register }
{
    if register % 2 == 1 {
        (register >> 1) ^ GENERATOR
    } else {
        register >> 1
    }
}

/// Returns the register after one more byte.
#[tactic(auto, using(crate::proofs::Register::more_steps), unfolding(crate::specs::Crc::bit_steps))]
fn after_byte(register: u32, byte: u8) -> u32
    ensures { result ≡ byte_step register byte }
{
    let mut mixed = register ^ u32::from(byte);
    for _bit in 0..8u8 {
        mixed = after_bit(mixed);
    }
    mixed
}

/// Returns the CRC-32 of a text.
#[tactic(auto, unfolding(crate::specs::Crc::crc32))]
pub fn checksum(text: &[u8]) -> u32
    ensures { result ≡ crc32 text.now }
{
    let mut register = ALL_ONES;
    for byte in text {
        register = after_byte(register, *byte);
    }
    register ^ ALL_ONES
}

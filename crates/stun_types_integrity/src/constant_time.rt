//! Comparison of HMACs in a time that depends on their lengths alone.

ghost use Rattle.std.specs.Prelude.{◌≡◌, ◌↔◌, IsTrue};

/// Returns whether two byte strings are equal. If their lengths differ, it reads no byte.
///
/// Otherwise it reads all bytes of both, even after a pair that differs: as far as the source goes,
/// the time depends on the lengths alone. No contract says so, and a compiler is not proved to keep
/// it so.
#[inline(never)]
pub(crate) fn is_same(one: &[u8], other: &[u8]) -> bool
    ensures { IsTrue result ↔ (one.now ≡ other.now) }
{
    if one.len() != other.len() {
        return false;
    }
    let mut difference = 0;
    let mut one_left = one;
    let mut other_left = other;
    while let (Some((one_byte, one_rest)), Some((other_byte, other_rest))) = (
        one_left.split_first(),
        other_left.split_first(),
    ) {
        difference = with_difference(difference, *one_byte, *other_byte);
        one_left = one_rest;
        other_left = other_rest;
    }
    difference == 0
}

/// Returns `difference` with the bits set in which two bytes differ: zero if it was zero and the
/// bytes are equal. It doesn't branch.
#[inline(always)]
fn with_difference(difference: u8, one: u8, other: u8) -> u8
    ensures { (result ≡ 0) ↔ ((difference ≡ 0) × (one ≡ other)) }
{
    difference | (one ^ other)
}

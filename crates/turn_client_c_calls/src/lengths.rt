//! The lengths that C passes.

ghost use Rattle.std.specs.Prelude.{◌≡◌};
ghost use Rattle.turn_client_c_calls.specs.Lengths.{is_bad_length};

/// The size of the largest object that a program can have (PTRDIFF_MAX).
const LARGEST_OBJECT: usize = 9_223_372_036_854_775_807;

/// Returns whether no object is of this length, in bytes.
pub(crate) fn is_bad_length(length: usize) -> bool
    ensures { result ≡ is_bad_length length }
{
    length > LARGEST_OBJECT
}

//! The error of a failed allocation.

use std::alloc::{AllocError, AllocFailed};
use std::fmt;

/// The error of a failed allocation. Larger error types have it as a variant, `NoMemory`.
///
/// What follows holds for every call, so the lists of errors at other calls only name it.
///
/// # When it is returned
///
/// - Any call that allocates may return it. Contracts can't promise that an allocation succeeds.
/// - A call checks for its other errors first: if it returns `NoMemory`, none of them applies.
/// - Two limits other than memory are reported by it too: a list is full (it has 2^32 - 1 elements,
///   see `ListOf::push`), and all 2^96 transaction IDs are in use.
///
/// # What holds afterwards
///
/// - What the call borrows is unchanged, also through `&mut`.
/// - What was moved into the call is dropped, unless the error gives it back.
/// - Random words that the call generated stay consumed.
///
/// # Exceptions
///
/// A call for which one of these rules doesn't hold says so. The main ones are:
///
/// - The TURN client's calls that receive, poll and transmit: the client has failed, and holds
///   nothing any more.
/// - Validation by the long-term server authenticator: a nonce that the client's address needs is
///   allocated before the message is checked, and may be stored even though the call fails.
/// - A step of a simulated run: every later step fails with `NoMemory` too.
/// - Reading a line of text: the line may be bad as well.
#[derive(Clone, Copy, Debug, PartialEq, Eq)]
pub struct NoMemory;

/// Prints `no memory`.
impl fmt::Display for NoMemory {
    ghost use Rattle.std.specs.Prelude.{Some, codes};

    ghost output = { λ _. Some (codes "no memory") };

    fn fmt<W: fmt::Write>(&self, f: &mut fmt::Formatter<W>) -> fmt::Result {
        write!(f, "no memory")
    }
}

impl std::error::Error for NoMemory {}

impl From<AllocError> for NoMemory {
    fn from(_error: AllocError) -> NoMemory {
        NoMemory
    }
}

impl<T: Drop> From<AllocFailed<T>> for NoMemory {
    fn from(_error: AllocFailed<T>) -> NoMemory {
        NoMemory
    }
}

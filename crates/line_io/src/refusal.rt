//! Why a line can't be read.

ghost use Rattle.std.specs.Prelude.{◌≡◌};

use std::alloc::{AllocError, AllocFailed};
use std::fmt;
use stun_types_base::memory::NoMemory;

/// Why a line can't be read.
#[derive(Clone, Copy, Debug, PartialEq, Eq)]
pub enum LineError {
    /// The line is not a line of the language, or is not permitted at this position.
    Bad,
    /// An allocation failed. The line may be good or bad: unlike other calls that return
    /// `NoMemory`, those that read lines may do so before they find the line to be bad.
    NoMemory,
}

impl fmt::Display for LineError {
    ghost use Rattle.line_io.specs.Refusal.{name_of_line_error};
    ghost use Rattle.std.specs.Prelude.{Some};

    ghost output = { λ error. Some (name_of_line_error error) };

    fn fmt<W: fmt::Write>(&self, f: &mut fmt::Formatter<W>) -> fmt::Result {
        match self {
            LineError::Bad => write!(f, "bad line"),
            LineError::NoMemory => write!(f, "no memory"),
        }
    }
}

impl std::error::Error for LineError {}

impl From<NoMemory> for LineError {
    ghost use Rattle.line_io.specs.declared.refusal.LineError.TheVariants as refused;

    ghost from_gives = { λ _ e. e ≡ refused.NoMemory };

    fn from(_error: NoMemory) -> LineError {
        LineError::NoMemory
    }
}

impl From<AllocError> for LineError {
    ghost use Rattle.line_io.specs.declared.refusal.LineError.TheVariants as refused;

    ghost from_gives = { λ _ e. e ≡ refused.NoMemory };

    fn from(_error: AllocError) -> LineError {
        LineError::NoMemory
    }
}

impl<T: Drop> From<AllocFailed<T>> for LineError {
    ghost use Rattle.line_io.specs.declared.refusal.LineError.TheVariants as refused;

    ghost from_gives = { λ _ e. e ≡ refused.NoMemory };

    fn from(_error: AllocFailed<T>) -> LineError {
        LineError::NoMemory
    }
}

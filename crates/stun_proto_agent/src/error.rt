//! The errors of an agent's calls.

use crate::stun_types_base::memory::NoMemory;
use crate::stun_types_wire::error::{StunParseError, StunWriteError};
use std::alloc::AllocError;
use thiserror::Error;

/// Why a call of an agent is refused. A refused call changes nothing.
#[derive(Clone, Copy, Debug, PartialEq, Eq, Error)]
pub enum StunError {
    /// `send_request`: a request with this transaction ID is outstanding.
    #[error("already in progress")]
    AlreadyInProgress,
    /// No call of the agent returns this.
    #[error("resource not found")]
    ResourceNotFound,
    /// No call of the agent returns this.
    #[error("timed out")]
    TimedOut,
    /// The call does not accept a message of this class: `send` accepts no request, `send_request`
    /// accepts only requests.
    #[error("protocol violation")]
    ProtocolViolation,
    /// No call of the agent returns this.
    #[error("aborted")]
    Aborted,
    /// `send` and `send_request`: the bytes are not a STUN message. The value is the error of
    /// parsing them.
    #[error("the message can't be parsed")]
    ParseError(StunParseError),
    /// No call of the agent returns this.
    #[error("the message can't be written")]
    WriteError(StunWriteError),
    /// An allocation failed, and no other refusal applies.
    #[error("no memory")]
    NoMemory,
}

impl From<StunParseError> for StunError {
    ghost use Rattle.std.specs.Prelude.{◌≡◌};
    ghost use Rattle.stun_proto_agent.specs.declared.error.StunError.TheVariants.{ParseError};

    ghost from_gives = { λ cause error. error ≡ ParseError cause };

    fn from(error: StunParseError) -> StunError {
        StunError::ParseError(error)
    }
}

impl From<StunWriteError> for StunError {
    ghost use Rattle.std.specs.Prelude.{◌≡◌};
    ghost use Rattle.stun_proto_agent.specs.declared.error.StunError.TheVariants.{WriteError};

    ghost from_gives = { λ cause error. error ≡ WriteError cause };

    fn from(error: StunWriteError) -> StunError {
        StunError::WriteError(error)
    }
}

impl From<NoMemory> for StunError {
    ghost use Rattle.std.specs.Prelude.{◌≡◌};
    ghost use Rattle.stun_proto_agent.specs.declared.error.StunError.TheVariants.{NoMemory};

    ghost from_gives = { λ _ error. error ≡ NoMemory };

    fn from(_error: NoMemory) -> StunError {
        StunError::NoMemory
    }
}

impl From<AllocError> for StunError {
    ghost use Rattle.std.specs.Prelude.{◌≡◌};
    ghost use Rattle.stun_proto_agent.specs.declared.error.StunError.TheVariants.{NoMemory};

    ghost from_gives = { λ _ error. error ≡ NoMemory };

    fn from(_error: AllocError) -> StunError {
        StunError::NoMemory
    }
}

//! The errors of a server's validation.

ghost use Rattle.std.specs.Prelude.{◌≡◌};
ghost use Rattle.stun_proto_verify.specs.AuthErrors.{digest_error, integrity_of, reason_of};

use crate::stun_types_base::memory::NoMemory;
use crate::stun_types_wire::algorithm::IntegrityAlgorithm;
use crate::stun_types_wire::error::ValidateError;
use std::alloc::AllocError;
use thiserror::Error;

/// Why a message is not validated: the kind of error, without its data.
#[derive(Clone, Copy, Debug, PartialEq, Eq)]
pub enum LongTermServerAuthErrorReason {
    /// The message has no visible integrity attribute, or names no user of the server.
    Unauthorized,
    /// The digest is not that of the message under the user's key.
    IntegrityFailed,
    /// The message is a response, lacks an attribute that is required along with its integrity
    /// attribute, or has inconsistent password algorithms.
    BadRequest,
    /// The nonce is not the valid one for the address.
    StaleNonce,
    /// No call returns this.
    UnsupportedFeature,
    /// An allocation failed.
    NoMemory,
}

/// Why a message is not validated.
#[derive(Clone, Copy, Debug, PartialEq, Eq, Error)]
pub enum LongTermServerAuthError {
    /// The message has no visible integrity attribute, or names no user of the server.
    #[error("unauthorized")]
    Unauthorized,
    /// The digest, by this algorithm, is not that of the message under the user's key.
    #[error("the integrity of the message does not hold")]
    IntegrityFailed(IntegrityAlgorithm),
    /// The message is a response, lacks an attribute that is required along with its integrity
    /// attribute, or has inconsistent password algorithms.
    #[error("bad request")]
    BadRequest,
    /// The nonce is not the valid one for the address.
    #[error("stale nonce")]
    StaleNonce,
    /// An allocation failed.
    #[error("no memory")]
    NoMemory,
}

impl LongTermServerAuthError {
    /// Returns the error for a message that does not validate with this algorithm.
    pub(crate) fn of_digest(
        algorithm: IntegrityAlgorithm,
        error: ValidateError,
    ) -> LongTermServerAuthError
        ensures { result ≡ digest_error algorithm error }
    {
        match error {
            ValidateError::Parse(_) | ValidateError::IntegrityFailed => {
                LongTermServerAuthError::IntegrityFailed(algorithm)
            }
        }
    }

    /// Returns the kind of the error.
    pub fn reason(&self) -> LongTermServerAuthErrorReason
        ensures { result ≡ reason_of self.now }
    {
        match self {
            LongTermServerAuthError::Unauthorized => LongTermServerAuthErrorReason::Unauthorized,
            LongTermServerAuthError::IntegrityFailed(_) => {
                LongTermServerAuthErrorReason::IntegrityFailed
            }
            LongTermServerAuthError::BadRequest => LongTermServerAuthErrorReason::BadRequest,
            LongTermServerAuthError::StaleNonce => LongTermServerAuthErrorReason::StaleNonce,
            LongTermServerAuthError::NoMemory => LongTermServerAuthErrorReason::NoMemory,
        }
    }

    /// Returns the algorithm of the message's last visible integrity attribute if the error is a
    /// wrong digest, otherwise `None`.
    pub fn integrity(&self) -> Option<IntegrityAlgorithm>
        ensures { result ≡ integrity_of self.now }
    {
        match self {
            LongTermServerAuthError::IntegrityFailed(algorithm) => Some(*algorithm),
            _ => None,
        }
    }
}

impl From<NoMemory> for LongTermServerAuthError {
    ghost use Rattle.stun_proto_verify.specs.declared.error.LongTermServerAuthError.TheVariants.{NoMemory};

    ghost from_gives = { λ _ error. error ≡ NoMemory };

    fn from(_error: NoMemory) -> LongTermServerAuthError {
        LongTermServerAuthError::NoMemory
    }
}

impl From<AllocError> for LongTermServerAuthError {
    ghost use Rattle.stun_proto_verify.specs.declared.error.LongTermServerAuthError.TheVariants.{NoMemory};

    ghost from_gives = { λ _ error. error ≡ NoMemory };

    fn from(_error: AllocError) -> LongTermServerAuthError {
        LongTermServerAuthError::NoMemory
    }
}

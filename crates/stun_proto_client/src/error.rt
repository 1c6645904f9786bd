//! The errors of a client's validation.

ghost use Rattle.std.specs.Prelude.{◌≡◌};
ghost use Rattle.stun_proto_client.specs.ClientErrors.{integrity_of, reason_of};

use crate::stun_types_base::memory::NoMemory;
use crate::stun_types_wire::algorithm::IntegrityAlgorithm;
use thiserror::Error;

/// Why a message is not validated: the kind of error, without its data.
#[derive(Clone, Copy, Debug, PartialEq, Eq)]
pub enum LongTermClientAuthErrorReason {
    /// The message has no visible integrity attribute, or the client has no credentials or no
    /// stored challenge.
    Unauthorized,
    /// The digest is not that of the message under the client's key.
    IntegrityFailed,
    /// The challenge has no algorithm in common with the client, or lacks the feature that the
    /// client requires.
    UnsupportedFeature,
    /// An allocation failed.
    NoMemory,
}

/// Why a message is not validated.
#[derive(Clone, Copy, Debug, PartialEq, Eq, Error)]
pub enum LongTermClientAuthError {
    /// The message has no visible integrity attribute, or the client has no credentials or no
    /// stored challenge.
    #[error("unauthorized")]
    Unauthorized,
    /// The last integrity attribute, which is of this algorithm, is not the one of the message
    /// under the client's key and the chosen algorithm.
    #[error("the integrity of the message does not hold")]
    IntegrityFailed(IntegrityAlgorithm),
    /// The challenge has no algorithm in common with the client, or lacks the feature that the
    /// client requires.
    #[error("unsupported feature")]
    UnsupportedFeature,
    /// An allocation failed.
    #[error("no memory")]
    NoMemory,
}

impl LongTermClientAuthError {
    /// Returns the kind of the error.
    pub fn reason(&self) -> LongTermClientAuthErrorReason
        ensures { result ≡ reason_of self.now }
    {
        match self {
            LongTermClientAuthError::Unauthorized => LongTermClientAuthErrorReason::Unauthorized,
            LongTermClientAuthError::IntegrityFailed(_) => {
                LongTermClientAuthErrorReason::IntegrityFailed
            }
            LongTermClientAuthError::UnsupportedFeature => {
                LongTermClientAuthErrorReason::UnsupportedFeature
            }
            LongTermClientAuthError::NoMemory => LongTermClientAuthErrorReason::NoMemory,
        }
    }

    /// Returns the algorithm of the message's last visible integrity attribute if the error is a
    /// wrong digest, otherwise `None`.
    pub fn integrity(&self) -> Option<IntegrityAlgorithm>
        ensures { result ≡ integrity_of self.now }
    {
        match self {
            LongTermClientAuthError::IntegrityFailed(algorithm) => Some(*algorithm),
            _ => None,
        }
    }
}

impl From<NoMemory> for LongTermClientAuthError {
    ghost use Rattle.stun_proto_client.specs.declared.error.LongTermClientAuthError.TheVariants.{NoMemory};

    ghost from_gives = { λ _ error. error ≡ NoMemory };

    fn from(_error: NoMemory) -> LongTermClientAuthError {
        LongTermClientAuthError::NoMemory
    }
}

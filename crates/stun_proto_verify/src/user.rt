//! The user for whom a message was validated.

ghost use Rattle.std.specs.Prelude.{◌≡◌};
ghost use Rattle.std.specs.String.{string_bytes};

use crate::stun_types_wire::algorithm::IntegrityAlgorithm;
use std::marker::Model;

/// The user under whose key a message was validated, and the algorithm that was used. Contracts see
/// the bytes of the name and the algorithm.
#[derive(Debug, Drop)]
pub struct ValidatedUser {
    name: String,
    algorithm: IntegrityAlgorithm,
}

impl Model for ValidatedUser {
    ghost use Rattle.std.specs.String.{string_bytes};
    ghost use Rattle.stun_proto_verify.specs.Knowledge.{Outcome};

    ghost Value = { Outcome };

    ghost view = { λ user. record { name = string_bytes user.name; algorithm = user.algorithm } };
}

impl ValidatedUser {
    /// Creates the record of a user's name and an algorithm.
    pub fn new(name: String, algorithm: IntegrityAlgorithm) -> ValidatedUser
        ensures { result ≡ record { name = string_bytes name; algorithm = algorithm } }
    {
        ValidatedUser { name, algorithm }
    }

    /// Returns the user's name.
    pub fn name(&self) -> &str
        ensures { result.now ≡ self.now.name }
    {
        self.name.as_str()
    }

    /// Returns the algorithm of the integrity attribute that was validated.
    pub fn algorithm(&self) -> IntegrityAlgorithm
        ensures { result ≡ self.now.algorithm }
    {
        self.algorithm
    }
}

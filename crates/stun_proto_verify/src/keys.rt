//! The keys of a user in a realm.

ghost use Rattle.std.specs.Prelude.{◌≡◌};
ghost use Rattle.stun_proto_auth.specs.Integrity.Credentials.{LongTermSecret, long_term_key};
ghost use Rattle.stun_proto_verify.specs.UserKeys.{AreKeysOf};

use crate::stun_types_integrity::key::IntegrityKey;
use crate::stun_types_wire::algorithm::IntegrityAlgorithm;

/// The keys of a user in a realm, one for each algorithm, derived once and stored as long as the
/// user exists.
#[derive(Debug, Drop)]
pub struct UserKeys {
    sha1: IntegrityKey<'static>,
    sha256: IntegrityKey<'static>,
    sha512: IntegrityKey<'static>,
}

impl UserKeys {
    /// Derives the keys of a user with this name and password in a realm. It allocates nothing.
    pub fn new(name: &str, realm: &str, password: &str) -> UserKeys
        ensures { AreKeysOf (record {
          username = name.now;
          password = password.now;
          realm = realm.now;
        }) result }
    {
        UserKeys {
            sha1: IntegrityKey::long_term(name, realm, password, IntegrityAlgorithm::Sha1),
            sha256: IntegrityKey::long_term(name, realm, password, IntegrityAlgorithm::Sha256),
            sha512: IntegrityKey::long_term(name, realm, password, IntegrityAlgorithm::Sha512),
        }
    }

    /// Returns the key for an algorithm.
    pub fn key(&self, algorithm: IntegrityAlgorithm) -> &IntegrityKey<'static>
        ensures { (secret : LongTermSecret) → AreKeysOf secret self.now
            → result.now ≡ long_term_key secret algorithm }
    {
        match algorithm {
            IntegrityAlgorithm::Sha1 => &self.sha1,
            IntegrityAlgorithm::Sha256 => &self.sha256,
            IntegrityAlgorithm::Sha512 => &self.sha512,
        }
    }
}

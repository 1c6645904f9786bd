//! What a server knows and checks a claim against.

ghost use Rattle.std.specs.Prelude.{◌≡◌, IfSome};
ghost use Rattle.std.specs.Option.{option_copied};
ghost use Rattle.stun_proto_auth.specs.Integrity.Credentials.{long_term_key};
ghost use Rattle.stun_proto_auth.specs.declared.feature.Feature.TheVariants.{Auto};
ghost use Rattle.stun_proto_verify.specs.UserKeys.{AreKeysOf};

use crate::keys::UserKeys;
use crate::stun_types_integrity::key::IntegrityKey;
use crate::stun_types_wire::algorithm::IntegrityAlgorithm;
use std::marker::Model;
use stun_proto_auth::feature::Feature;
use stun_proto_auth::supported::SupportedIntegrity;

/// The stored keys of a user, and the realm for which they were derived.
#[derive(Debug, Drop)]
struct StoredKeys<'a> {
    realm: &'a str,
    keys: &'a UserKeys,
}

/// A user of a server: name, password and, if they are stored, the keys in a realm. Contracts see
/// the record `Named`.
#[derive(Debug, Drop)]
pub struct NamedUser<'a> {
    name: &'a str,
    password: &'a str,
    stored: Option<StoredKeys<'a>>,
}

impl<'a> Model for NamedUser<'a> {
    ghost use Rattle.std.specs.Prelude.{IfSome};
    ghost use Rattle.stun_proto_verify.specs.Knowledge.{Named};
    ghost use Rattle.stun_proto_verify.specs.UserKeys.{AreKeysOf};

    ghost Value = { Named };

    ghost view = { λ user. record { name = user.name.now; password = user.password.now } };

    ghost invariant = { λ user. IfSome user.stored (λ stored. AreKeysOf (record {
      username = user.name.now;
      password = user.password.now;
      realm = stored.realm.now;
    }) stored.keys.now) };
}

impl<'a> NamedUser<'a> {
    /// Creates a user with this name and password, without stored keys.
    pub fn new(name: &'a str, password: &'a str) -> NamedUser<'a>
        ensures { result ≡ record { name = name.now; password = password.now } }
    {
        NamedUser {
            name,
            password,
            stored: None,
        }
    }

    /// Creates a user with this name and password, and stored keys in a realm.
    pub fn with_keys(
        name: &'a str,
        password: &'a str,
        realm: &'a str,
        keys: &'a UserKeys,
    ) -> NamedUser<'a>
        requires { AreKeysOf (record {
          username = name.now;
          password = password.now;
          realm = realm.now;
        }) keys.now }
        ensures { result ≡ record { name = name.now; password = password.now } }
    {
        NamedUser {
            name,
            password,
            stored: Some(StoredKeys { realm, keys }),
        }
    }

    /// Returns the user's name.
    pub fn name(&self) -> &'a str
        ensures { result.now ≡ self.now.name }
    {
        self.name
    }

    /// Returns the user's password.
    pub fn password(&self) -> &'a str
        ensures { result.now ≡ self.now.password }
    {
        self.password
    }

    /// Returns the user's stored key in a realm for an algorithm, or `None` if it is not stored.
    pub(crate) fn stored_key(
        &self,
        realm: &str,
        algorithm: IntegrityAlgorithm,
    ) -> Option<&'a IntegrityKey<'static>>
        ensures { IfSome result (λ key. key.now ≡ long_term_key (record {
          username = self.now.name;
          password = self.now.password;
          realm = realm.now;
        }) algorithm) }
    {
        match &self.stored {
            Some(stored) if stored.realm == realm => Some(stored.keys.key(algorithm)),
            _ => None,
        }
    }
}

/// What a server knows when it checks a message: its realm, the algorithms that it supports, whether
/// it accepts hashed names, the nonce that is valid for the address, and the user that the message
/// names. Contracts see the record `Knowledge`.
#[derive(Debug, Drop)]
pub struct Known<'a> {
    realm: &'a str,
    supported: SupportedIntegrity,
    anonymous_username: Feature,
    nonce: Option<&'a str>,
    user: Option<NamedUser<'a>>,
}

impl<'a> Model for Known<'a> {
    ghost use Rattle.std.specs.Option.{option_copied};
    ghost use Rattle.stun_proto_verify.specs.Knowledge.{Knowledge};

    ghost Value = { Knowledge };

    ghost view = { λ k.
        record {
          realm = k.realm.now;
          algorithms = k.supported;
          anonymous_username = k.anonymous_username;
          nonce = option_copied k.nonce;
          user = k.user;
        } };
}

impl<'a> Known<'a> {
    /// Collects what the server knows. It accepts hashed names. The nonce is `None` if none is valid
    /// for the address, and the user is `None` if the server has no such user.
    pub fn new(
        realm: &'a str,
        supported: SupportedIntegrity,
        nonce: Option<&'a str>,
        user: Option<NamedUser<'a>>,
    ) -> Known<'a>
        ensures { result
            ≡ record {
              realm = realm.now;
              algorithms = supported;
              anonymous_username = Auto;
              nonce = option_copied nonce.entry;
              user = user.entry;
            } }
    {
        Known {
            realm,
            supported,
            anonymous_username: Feature::Auto,
            nonce,
            user,
        }
    }

    /// Returns what the server knows, with this setting for hashed names: they are accepted unless
    /// it is `Disabled`.
    pub fn with_anonymous_username(self, anonymous_username: Feature) -> Known<'a>
        ensures { result ≡ record self.entry { anonymous_username = anonymous_username } }
    {
        Known {
            anonymous_username,
            ..self
        }
    }

    /// Returns what the server knows, with this user in place of any other.
    pub fn with_user(self, user: Option<NamedUser<'a>>) -> Known<'a>
        ensures { result ≡ record self.entry { user = user.entry } }
    {
        Known { user, ..self }
    }

    /// Returns the realm.
    pub fn realm(&self) -> &'a str
        ensures { result.now ≡ self.now.realm }
    {
        self.realm
    }

    /// Returns the algorithms that the server supports.
    pub fn supported(&self) -> SupportedIntegrity
        ensures { result ≡ self.now.algorithms }
    {
        self.supported
    }

    /// Returns the setting for hashed names.
    pub(crate) fn anonymous_username(&self) -> Feature
        ensures { result ≡ self.now.anonymous_username }
    {
        self.anonymous_username
    }

    /// Returns the nonce that is valid for the address, if any.
    pub fn nonce(&self) -> Option<&'a str>
        ensures { option_copied result ≡ self.now.nonce }
    {
        self.nonce
    }

    /// Returns the user that the message names, if the server has that user.
    pub fn user(&self) -> Option<&NamedUser<'a>>
        ensures { option_copied result ≡ self.now.user }
    {
        self.user.as_ref()
    }
}

//! Credentials, from which integrity keys are derived (RFC 8489, section 9).

ghost use Rattle.std.specs.Prelude.{◌≡◌, IfOk};
ghost use Rattle.std.specs.String.{string_bytes};
ghost use Rattle.stun_types_integrity.specs.Credentials.{long_term_key, short_term_key};

use crate::hmac_state::HmacState;
use crate::key::IntegrityKey;
use crate::stun_types_base::memory::NoMemory;
use crate::stun_types_wire::algorithm::IntegrityAlgorithm;
use std::alloc::Global;
use std::fmt;
use std::marker::Model;

/// A user's name and password, valid in many sessions and with a different key in each realm (RFC
/// 8489, section 9.2). Contracts see the two texts.
#[derive(Drop)]
pub struct LongTermCredentials {
    username: String,
    password: String,
}

impl Model for LongTermCredentials {
    ghost use Rattle.std.specs.String.{string_bytes};
    ghost use Rattle.stun_types_integrity.specs.Credentials.{NameAndPassword};

    ghost Value = { NameAndPassword };

    ghost view = { λ c.
        record { username = string_bytes c.username; password = string_bytes c.password } };
}

impl LongTermCredentials {
    /// Creates the credentials of this name and password.
    pub fn new(username: String, password: String) -> Self
        ensures { result
            ≡ record { username = string_bytes username; password = string_bytes password } }
    {
        LongTermCredentials { username, password }
    }

    /// The user's name.
    pub fn username(&self) -> &str
        ensures { result.now ≡ self.now.username }
    {
        self.username.as_str()
    }

    /// The user's password.
    pub fn password(&self) -> &str
        ensures { result.now ≡ self.now.password }
    {
        self.password.as_str()
    }

    /// Returns copies of these credentials for one realm.
    ///
    /// # Errors
    ///
    /// - `NoMemory`: an allocation failed. `realm` is dropped.
    pub fn to_key(&self, alloc: Global, realm: String) -> Result<LongTermKeyCredentials, NoMemory>
        ensures { IfOk result (λ key. key
            ≡ record {
              username = self.now.username;
              password = self.now.password;
              realm = string_bytes realm;
            }) }
    {
        let username = String::from_str(alloc, self.username())?;
        let password = String::from_str(alloc, self.password())?;
        Ok(LongTermKeyCredentials::new(username, password, realm))
    }
}

impl fmt::Debug for LongTermCredentials {
    /// Prints the name and hides the password.
    fn fmt<W: fmt::Write>(&self, f: &mut fmt::Formatter<W>) -> fmt::Result {
        write!(
            f,
            "LongTermCredentials {{ username: {:?}, password: .. }}",
            self.username
        )
    }
}

/// A user's name and password in one realm (RFC 8489, section 9.2.2). Contracts see the three
/// texts.
#[derive(Drop)]
pub struct LongTermKeyCredentials {
    username: String,
    password: String,
    realm: String,
}

impl Model for LongTermKeyCredentials {
    ghost use Rattle.std.specs.String.{string_bytes};
    ghost use Rattle.stun_types_integrity.specs.Credentials.{LongTermSecret};

    ghost Value = { LongTermSecret };

    ghost view = { λ c.
        record {
          username = string_bytes c.username;
          password = string_bytes c.password;
          realm = string_bytes c.realm;
        } };
}

impl LongTermKeyCredentials {
    /// Creates the credentials of this name and password in this realm.
    pub fn new(username: String, password: String, realm: String) -> Self
        ensures { result
            ≡ record {
              username = string_bytes username;
              password = string_bytes password;
              realm = string_bytes realm;
            } }
    {
        LongTermKeyCredentials {
            username,
            password,
            realm,
        }
    }

    /// The user's name.
    pub fn username(&self) -> &str
        ensures { result.now ≡ self.now.username }
    {
        self.username.as_str()
    }

    /// The user's password.
    pub fn password(&self) -> &str
        ensures { result.now ≡ self.now.password }
    {
        self.password.as_str()
    }

    /// The realm.
    pub fn realm(&self) -> &str
        ensures { result.now ≡ self.now.realm }
    {
        self.realm.as_str()
    }

    /// Returns the key for an algorithm: a digest of name, realm and password with colons between
    /// them (RFC 8489, sections 9.2.2 and 18.5.1). The digest is MD5 for `Sha1`, SHA-256 for
    /// `Sha256` and SHA-512 for `Sha512`.
    #[inline(always)]
    pub fn make_key(&self, algorithm: IntegrityAlgorithm) -> IntegrityKey<'_>
        ensures { result ≡ long_term_key self.now algorithm }
    {
        IntegrityKey::long_term(self.username(), self.realm(), self.password(), algorithm)
    }
}

impl fmt::Debug for LongTermKeyCredentials {
    /// Prints the name and the realm and hides the password.
    fn fmt<W: fmt::Write>(&self, f: &mut fmt::Formatter<W>) -> fmt::Result {
        write!(
            f,
            "LongTermKeyCredentials {{ username: {:?}, realm: {:?}, password: .. }}",
            self.username, self.realm
        )
    }
}

/// A password that is valid in one session (RFC 8489, section 9.1). Contracts see its text.
#[derive(Drop)]
pub struct ShortTermCredentials {
    password: String,
}

impl Model for ShortTermCredentials {
    ghost use Rattle.std.specs.String.{string_bytes};
    ghost use Rattle.stun_types_integrity.specs.Credentials.{ShortTermSecret};

    ghost Value = { ShortTermSecret };

    ghost view = { λ c. record { password = string_bytes c.password } };
}

impl ShortTermCredentials {
    /// Creates the credentials of this password.
    pub fn new(password: String) -> Self
        ensures { result ≡ record { password = string_bytes password } }
    {
        ShortTermCredentials { password }
    }

    /// The password.
    pub fn password(&self) -> &str
        ensures { result.now ≡ self.now.password }
    {
        self.password.as_str()
    }

    /// Returns the key for an algorithm: the bytes of the password, which the key borrows (RFC
    /// 8489, section 9.1.1).
    #[inline(always)]
    pub fn make_key(&self, algorithm: IntegrityAlgorithm) -> IntegrityKey<'_>
        ensures { result ≡ short_term_key self.now algorithm }
    {
        IntegrityKey::short_term(self.password(), algorithm)
    }
}

impl fmt::Debug for ShortTermCredentials {
    /// Hides the password.
    fn fmt<W: fmt::Write>(&self, f: &mut fmt::Formatter<W>) -> fmt::Result {
        f.write_str("ShortTermCredentials { password: .. }")
    }
}

/// A password that is valid in one session, an algorithm, and the HMAC state keyed with the
/// password. Because the state is stored, `key` processes no block of a digest. Contracts see the
/// password's text and the algorithm.
#[derive(Drop)]
pub struct ShortTermKeyCredentials {
    credentials: ShortTermCredentials,
    hmac_state: HmacState,
}

impl Model for ShortTermKeyCredentials {
    ghost use Rattle.stun_types_integrity.specs.HmacState.{HasKey, hmac_algorithm};
    ghost use Rattle.stun_types_integrity.specs.Credentials.{ShortTermUse};

    ghost Value = { ShortTermUse };

    ghost view = { λ c. record { secret = c.credentials; algorithm = hmac_algorithm c.hmac_state } };

    ghost invariant = { λ c. HasKey c.hmac_state c.credentials.password };
}

impl ShortTermKeyCredentials {
    /// Combines credentials with an algorithm, and computes the keyed HMAC state.
    pub fn new(credentials: ShortTermCredentials, algorithm: IntegrityAlgorithm) -> Self
        ensures { result ≡ record { secret = credentials; algorithm = algorithm } }
    {
        let hmac_state = credentials.make_key(algorithm).into_hmac_state();
        ShortTermKeyCredentials {
            credentials,
            hmac_state,
        }
    }

    /// The credentials.
    pub fn credentials(&self) -> &ShortTermCredentials
        ensures { result.now ≡ self.now.secret }
    {
        &self.credentials
    }

    /// The algorithm for which they are used.
    pub fn algorithm(&self) -> IntegrityAlgorithm
        ensures { result ≡ self.now.algorithm }
    {
        self.hmac_state.algorithm()
    }

    /// Returns the key: the bytes of the password, which the key borrows (RFC 8489, section 9.1.1).
    pub fn key(&self) -> IntegrityKey<'_>
        ensures { result ≡ short_term_key self.now.secret self.now.algorithm }
    {
        IntegrityKey::of_hmac_state(self.credentials.password(), &self.hmac_state)
    }
}

impl fmt::Debug for ShortTermKeyCredentials {
    /// Prints the algorithm and hides the password.
    fn fmt<W: fmt::Write>(&self, f: &mut fmt::Formatter<W>) -> fmt::Result {
        write!(
            f,
            "ShortTermKeyCredentials {{ algorithm: {:?}, password: .. }}",
            self.hmac_state.algorithm()
        )
    }
}

/// Credentials with which messages are signed and validated.
#[derive(Debug, Drop)]
pub enum MessageIntegrityCredentials {
    /// A password (short-term credentials, RFC 8489, section 9.1).
    ShortTerm(ShortTermCredentials),
    /// A name and a password in a realm (long-term credentials, RFC 8489, section 9.2).
    LongTerm(LongTermKeyCredentials),
}

impl MessageIntegrityCredentials {
    ghost use Rattle.stun_types_integrity.specs.Keys.{key_of};

    /// Returns the key for an algorithm, as `make_key` of the credentials does. It allocates no
    /// memory.
    #[inline(always)]
    pub fn make_key(&self, algorithm: IntegrityAlgorithm) -> IntegrityKey<'_>
        ensures { result ≡ key_of self.now algorithm }
    {
        match self {
            MessageIntegrityCredentials::ShortTerm(credentials) => credentials.make_key(algorithm),
            MessageIntegrityCredentials::LongTerm(credentials) => credentials.make_key(algorithm),
        }
    }
}

impl From<ShortTermCredentials> for MessageIntegrityCredentials {
    ghost use Rattle.stun_types_integrity.specs.declared.credentials.MessageIntegrityCredentials.TheVariants.{ShortTerm};

    ghost from_gives = { λ secret credentials. credentials ≡ ShortTerm secret };

    fn from(value: ShortTermCredentials) -> MessageIntegrityCredentials {
        MessageIntegrityCredentials::ShortTerm(value)
    }
}

impl From<LongTermKeyCredentials> for MessageIntegrityCredentials {
    ghost use Rattle.stun_types_integrity.specs.declared.credentials.MessageIntegrityCredentials.TheVariants.{LongTerm};

    ghost from_gives = { λ secret credentials. credentials ≡ LongTerm secret };

    fn from(value: LongTermKeyCredentials) -> MessageIntegrityCredentials {
        MessageIntegrityCredentials::LongTerm(value)
    }
}

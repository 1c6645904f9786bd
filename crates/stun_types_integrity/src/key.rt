//! Message integrity keys.

ghost use Rattle.std.specs.Prelude.{◌≡◌, ◌↔◌, ◌++◌, ⊤, length, IsTrue, codes};
ghost use Rattle.md5.specs.Md5.{md5};
ghost use Rattle.sha2.specs.Sha256.{sha256};
ghost use Rattle.sha2.specs.Sha512.{sha512};
ghost use Rattle.stun_types_integrity.specs.HmacState.{HasKey, hmac_algorithm};
ghost use Rattle.stun_types_integrity.specs.Credentials.{long_term_key, short_term_key};
ghost use Rattle.stun_types_integrity.specs.Hmacs.{algorithm_of_hmac, hmac_bytes};
ghost use Rattle.stun_types_integrity.specs.KeyBytes.{bytes_of};
ghost use Rattle.stun_types_integrity.specs.Integrity.{IsPrefix, integrity_hmac};
ghost use Rattle.stun_types_integrity.specs.Signing.{hmac_length};

use crate::constant_time::is_same;
use crate::hmac::IntegrityHmac;
use crate::hmac_state::HmacState;
use crate::stun_types_digest::hmac::BlockDigest;
use crate::stun_types_wire::algorithm::IntegrityAlgorithm;
use md5::{Digest, Md5};
use sha2::{Sha256, Sha512};
use std::alloc::AllocError;
use std::fmt;
use std::marker::Model;

/// The bytes of a key: a digest, or the password itself.
#[derive(Clone, Copy)]
enum KeyBytes<'a> {
    Md5([u8; 16]),
    Sha256([u8; 32]),
    Sha512([u8; 64]),
    Password(&'a str),
}

impl<'a> KeyBytes<'a> {
    /// The bytes.
    fn as_slice(&self) -> &[u8]
        ensures { result.now ≡ bytes_of self.now }
    {
        match self {
            KeyBytes::Md5(digest) => digest,
            KeyBytes::Sha256(digest) => digest,
            KeyBytes::Sha512(digest) => digest,
            KeyBytes::Password(password) => password.as_bytes(),
        }
    }
}

/// The fields of a key: its bytes, the algorithm for which it was made, and the keyed HMAC state.
// A struct with three fields is moved as a whole, so a key is not copied when it is made. A struct
// with two fields is not moved as a whole.
#[derive(Drop)]
struct Held<'a> {
    bytes: KeyBytes<'a>,
    algorithm: IntegrityAlgorithm,
    hmac_state: HmacState,
}

/// An HMAC key and the algorithm for which it was made. Contracts see its bytes and the algorithm.
///
/// It owns a digest or borrows the password. It also stores the keyed HMAC state: making a key
/// allocates no memory and processes two blocks of the digest, which no HMAC under the key
/// processes again.
///
/// Two keys are equal if their bytes are equal; the algorithms are not compared.
#[derive(Drop)]
pub struct IntegrityKey<'a> {
    // The key is set in place, because a move costs a tenth of a digest block.
    held: Held<'a>,
}

impl<'a> Model for IntegrityKey<'a> {
    ghost use Rattle.std.specs.Prelude.{◌≡◌};
    ghost use Rattle.stun_types_integrity.specs.HmacState.{HasKey, hmac_algorithm};
    ghost use Rattle.stun_types_integrity.specs.Credentials.{Key};
    ghost use Rattle.stun_types_integrity.specs.KeyBytes.{bytes_of};

    ghost Value = { Key };

    ghost view = { λ key.
        record { bytes = bytes_of key.held.bytes; algorithm = key.held.algorithm } };

    ghost invariant = { λ key. (hmac_algorithm key.held.hmac_state ≡ key.held.algorithm)
        × HasKey key.held.hmac_state (bytes_of key.held.bytes) };
}

impl<'a> IntegrityKey<'a> {
    /// Creates the short-term key of a password for an algorithm: the bytes of the password (RFC
    /// 8489, section 9.1.1). The password is valid in one session.
    #[inline(always)]
    pub fn short_term(password: &'a str, algorithm: IntegrityAlgorithm) -> IntegrityKey<'a>
        ensures { result ≡ short_term_key (record { password = password.now }) algorithm }
    {
        let mut held = Held {
            bytes: KeyBytes::Password(password),
            algorithm,
            hmac_state: HmacState::unkeyed(),
        };
        held.hmac_state.set_key(algorithm, password.as_bytes());
        IntegrityKey { held }
    }

    /// Creates the long-term key of a user in a realm for an algorithm: a digest of name, realm and
    /// password with colons between them (RFC 8489, sections 9.2.2 and 18.5.1). It borrows none of
    /// the three texts.
    ///
    /// The digest is MD5 for `Sha1`, SHA-256 for `Sha256` and SHA-512 for `Sha512`.
    #[inline(always)]
    pub fn long_term(
        username: &str,
        realm: &str,
        password: &str,
        algorithm: IntegrityAlgorithm,
    ) -> IntegrityKey<'a>
        ensures { result ≡ long_term_key (record {
          username = username.now;
          password = password.now;
          realm = realm.now;
        }) algorithm }
    {
        let (name, realm, secret) = (username.as_bytes(), realm.as_bytes(), password.as_bytes());
        let bytes = match algorithm {
            IntegrityAlgorithm::Sha1 => KeyBytes::Md5(md5_of_parts(name, realm, secret)),
            IntegrityAlgorithm::Sha256 => KeyBytes::Sha256(sha256_of_parts(name, realm, secret)),
            IntegrityAlgorithm::Sha512 => KeyBytes::Sha512(sha512_of_parts(name, realm, secret)),
        };
        let mut held = Held {
            bytes,
            algorithm,
            hmac_state: HmacState::unkeyed(),
        };
        held.hmac_state.set_key(algorithm, bytes.as_slice());
        IntegrityKey { held }
    }

    /// Creates the short-term key of a password from the HMAC state keyed with it.
    pub(crate) fn of_hmac_state(password: &'a str, hmac_state: &HmacState) -> IntegrityKey<'a>
        requires { HasKey hmac_state.now password.now }
        ensures { result ≡ short_term_key (record { password = password.now })
            (hmac_algorithm hmac_state.now) }
    {
        IntegrityKey {
            held: Held {
                bytes: KeyBytes::Password(password),
                algorithm: hmac_state.algorithm(),
                hmac_state: hmac_state.again(),
            },
        }
    }

    /// Returns the keyed HMAC state.
    pub(crate) fn into_hmac_state(self) -> HmacState
        ensures key { HasKey result self.entry.bytes }
        ensures by { hmac_algorithm result ≡ self.entry.algorithm }
    {
        self.held.hmac_state
    }

    /// The bytes of the key.
    pub(crate) fn bytes(&self) -> &[u8]
        ensures { result.now ≡ self.now.bytes }
    {
        self.held.bytes.as_slice()
    }

    /// The algorithm for which the key was made.
    pub fn algorithm(&self) -> IntegrityAlgorithm
        ensures { result ≡ self.now.algorithm }
    {
        self.held.algorithm
    }

    /// Returns the HMAC of a text under this key, by the algorithm for which the key was made. The
    /// text is the concatenation of three chunks.
    ///
    /// Use the chunks to cover a message with a changed length field: pass the bytes before the
    /// field, the new field and the bytes after it.
    pub fn hmac(&self, head: &[u8], middle: &[u8], tail: &[u8]) -> IntegrityHmac
        ensures bytes { hmac_bytes result ≡ integrity_hmac self.now.algorithm self.now.bytes
            (head.now ++ middle.now ++ tail.now) }
        ensures size { length (hmac_bytes result) ≡ hmac_length self.now.algorithm }
        ensures by { algorithm_of_hmac result ≡ self.now.algorithm }
    {
        match &self.held.hmac_state {
            HmacState::Sha1(hmac) => IntegrityHmac::Sha1(hmac.with_chunks(head, middle, tail)),
            HmacState::Sha256(hmac) => IntegrityHmac::Sha256(hmac.with_chunks(head, middle, tail)),
            HmacState::Sha512(hmac) => IntegrityHmac::Sha512(hmac.with_chunks(head, middle, tail)),
        }
    }

    /// Returns whether `value` is the HMAC of a text under this key, or the first bytes of it. The
    /// text comes in three chunks, as for `hmac`.
    ///
    /// It compares all bytes of a `value` that is no longer than the HMAC, even after one that
    /// differs: as far as the source goes, the time of the comparison depends on the lengths alone.
    /// A compiler is not proved to keep it so.
    pub fn signs(&self, head: &[u8], middle: &[u8], tail: &[u8], value: &[u8]) -> bool
        ensures { IsTrue result ↔ IsPrefix value.now
            (integrity_hmac self.now.algorithm self.now.bytes
            (head.now ++ middle.now ++ tail.now)) }
    {
        is_truncated(value, self.hmac(head, middle, tail).as_slice())
    }
}

/// Returns whether `truncated` is a prefix of `whole`. It reads all bytes of `truncated`, and as
/// many of `whole`, whatever they are.
fn is_truncated(truncated: &[u8], whole: &[u8]) -> bool
    ensures { IsTrue result ↔ IsPrefix truncated.now whole.now }
{
    match whole.get(..truncated.len()) {
        Some(head) => is_same(truncated, head),
        None => false,
    }
}

impl<'a> Clone for IntegrityKey<'a> {
    ghost is_clone = { λ x y. y ≡ x };

    ghost is_infallible = { λ _. ⊤ };

    /// Returns an equal key. It processes no block of a digest.
    fn clone(&self) -> Result<Self, AllocError> {
        Ok(IntegrityKey {
            held: Held {
                bytes: self.held.bytes,
                algorithm: self.held.algorithm,
                hmac_state: self.held.hmac_state.again(),
            },
        })
    }
}

impl<'a> PartialEq for IntegrityKey<'a> {
    ghost use Rattle.std.specs.Prelude.{nat_eq};
    ghost use Rattle.std.specs.Cmp.Lexicographic.{pointwise, nat_list_eq_equiv};
    ghost use Rattle.std.specs.Cmp.{on_per, partial_equiv_from_equiv};
    ghost use Rattle.stun_types_integrity.specs.Credentials.{key_bytes};

    ghost eq = { λ a b. pointwise nat_eq a.bytes b.bytes };

    ghost laws = { on_per key_bytes (partial_equiv_from_equiv nat_list_eq_equiv) };

    fn eq(&self, other: &Self) -> bool {
        self.bytes() == other.bytes()
    }
}

impl<'a> Eq for IntegrityKey<'a> {
    ghost use Rattle.std.specs.Cmp.{on_equiv};
    ghost use Rattle.std.specs.Cmp.Lexicographic.{nat_list_eq_equiv};
    ghost use Rattle.stun_types_integrity.specs.Credentials.{key_bytes};

    ghost laws = { on_equiv key_bytes nat_list_eq_equiv };
}

impl<'a> fmt::Debug for IntegrityKey<'a> {
    /// Hides the bytes of the key.
    fn fmt<W: fmt::Write>(&self, f: &mut fmt::Formatter<W>) -> fmt::Result {
        f.write_str("IntegrityKey { .. }")
    }
}

/// Returns the MD5 of three texts joined by colons.
fn md5_of_parts(first: &[u8], second: &[u8], third: &[u8]) -> [u8; 16]
    ensures { result ≡ md5 (first.now ++ codes ":" ++ second.now ++ codes ":" ++ third.now) }
{
    let mut hasher = Md5::new();
    hasher.update(first);
    hasher.update(b":");
    hasher.update(second);
    hasher.update(b":");
    hasher.update(third);
    hasher.finalize()
}

/// Returns the SHA-256 of three texts joined by colons.
fn sha256_of_parts(first: &[u8], second: &[u8], third: &[u8]) -> [u8; 32]
    ensures { result ≡ sha256 (first.now ++ codes ":" ++ second.now ++ codes ":" ++ third.now) }
{
    let mut hasher = Sha256::start();
    hasher.take(first);
    hasher.take(b":");
    hasher.take(second);
    hasher.take(b":");
    hasher.take(third);
    hasher.finish()
}

/// Returns the SHA-512 of three texts joined by colons.
fn sha512_of_parts(first: &[u8], second: &[u8], third: &[u8]) -> [u8; 64]
    ensures { result ≡ sha512 (first.now ++ codes ":" ++ second.now ++ codes ":" ++ third.now) }
{
    let mut hasher = Sha512::start();
    hasher.take(first);
    hasher.take(b":");
    hasher.take(second);
    hasher.take(b":");
    hasher.take(third);
    hasher.finish()
}

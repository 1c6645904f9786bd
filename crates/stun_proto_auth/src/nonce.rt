//! The text of a server's nonce, which tells the client which security features the server has (RFC
//! 8489, section 9.2).

ghost use Rattle.std.specs.Prelude.{◌≡◌, ◌<◌, ◌≤◌, IfOk, ℕ, List, length};
ghost use Rattle.stun_types_message.specs.Wire.Registry.{longest_text};
ghost use Rattle.stun_proto_auth.specs.Nonce.{nonce_character, nonce_text, features_in};
ghost use Rattle.stun_proto_auth.specs.declared.nonce.NonceFeatures.{NonceFeatures};

use crate::feature::Feature;
use crate::stun_types_base::memory::NoMemory;
use crate::stun_types_wire::algorithm::IntegrityAlgorithm;
use crate::supported::SupportedIntegrity;
use base64::engine::general_purpose::STANDARD;
use std::alloc::Global;
use std::marker::Model;

/// The nonce cookie: a nonce begins with it if it announces the server's security features.
pub const LONG_TERM_RFC8489_NONCE_COOKIE: &str = "obMatJos2";

/// The number of random words from which a nonce is made.
pub const NONCE_WORDS: usize = 16;

/// The characters that may follow the features in a nonce: A to Z, a to z, 0 to 9.
const ALPHABET: &[u8; 62] = b"ABCDEFGHIJKLMNOPQRSTUVWXYZabcdefghijklmnopqrstuvwxyz0123456789";

/// The security features that a nonce announces (RFC 8489, section 18.1).
#[derive(Clone, Copy, Debug, PartialEq, Eq)]
pub struct NonceFeatures {
    /// The server offers a list of password algorithms.
    pub password_algorithms: bool,
    /// The server accepts a hash of the user's name in place of the name.
    pub anonymous_username: bool,
}

impl NonceFeatures {
    ghost use Rattle.stun_proto_auth.specs.Nonce.{features_offered, feature_bytes};
    ghost use Rattle.stun_proto_auth.specs.Nonce.{features_decoded, features_of_byte};
    ghost use Rattle.base64.specs.GeneralPurpose.{decode_of};
    ghost use Rattle.base64.specs.Engines.{standard};

    /// Returns the features of a server. It has password algorithms unless it supports only `Sha1`,
    /// and anonymous user names unless they are disabled.
    pub fn offered(supported: SupportedIntegrity, anonymous_username: Feature) -> Self
        ensures { result ≡ features_offered supported anonymous_username }
    {
        let password_algorithms = supported != SupportedIntegrity::only(IntegrityAlgorithm::Sha1);
        let anonymous_username = anonymous_username != Feature::Disabled;
        NonceFeatures {
            password_algorithms,
            anonymous_username,
        }
    }

    /// Returns the features that a nonce announces to a client. It announces none in these cases:
    ///
    /// - It does not begin with the nonce cookie.
    /// - The four characters after the cookie are missing, or do not decode to three bytes in
    ///   base64's standard alphabet.
    pub fn decoded_by(nonce: &str) -> Self
        ensures { result ≡ features_in nonce.now }
    {
        let cookie = LONG_TERM_RFC8489_NONCE_COOKIE.as_bytes();
        let Some(after_cookie) = nonce.as_bytes().strip_prefix(cookie) else {
            return NonceFeatures::NONE;
        };
        NonceFeatures::of_characters(&after_cookie[..after_cookie.len().min(4)])
    }

    /// Returns the features in the three bytes to which the characters decode; none if they do not
    /// decode to three bytes.
    fn of_characters(characters: &[u8]) -> Self
        requires { length characters.now ≤ 4 }
        ensures { result ≡ features_decoded (decode_of standard characters.now) }
    {
        let mut bytes = [0; 3];
        let Ok(count) = STANDARD.decode_slice_unchecked(characters, &mut bytes) else {
            return NonceFeatures::NONE;
        };
        if count == 3 {
            NonceFeatures::of_byte(bytes[0])
        } else {
            NonceFeatures::NONE
        }
    }

    /// No features.
    const NONE: NonceFeatures = NonceFeatures {
        password_algorithms: false,
        anonymous_username: false,
    };

    /// Returns the features whose bits are set in the first of the three bytes.
    fn of_byte(byte: u8) -> Self
        ensures { result ≡ features_of_byte byte }
    {
        NonceFeatures {
            password_algorithms: byte & 0x80 != 0,
            anonymous_username: byte & 0x40 != 0,
        }
    }

    /// Returns the three bytes that encode the features.
    fn bytes(self) -> [u8; 3]
        ensures { result ≡ feature_bytes self }
    {
        let password_algorithms = if self.password_algorithms { 0x80 } else { 0 };
        let anonymous_username = if self.anonymous_username { 0x40 } else { 0 };
        [password_algorithms + anonymous_username, 0, 0]
    }
}

/// The text of a server's nonce. It is at most 763 bytes long, so it fits a NONCE (RFC 8489,
/// section 14.10). Contracts see the bytes of the text.
#[derive(Debug, Drop)]
pub struct ServerNonce {
    text: String,
}

impl Model for ServerNonce {
    ghost use Rattle.std.specs.Prelude.{List, ℕ, ◌≤◌, length};
    ghost use Rattle.std.specs.String.{string_bytes};
    ghost use Rattle.stun_types_message.specs.Wire.Registry.{longest_text};

    ghost Value = { List ℕ };

    ghost view = { λ nonce. string_bytes nonce.text };

    ghost invariant = { λ nonce. length (string_bytes nonce.text) ≤ longest_text };
}

impl ServerNonce {
    /// Returns the text.
    pub fn as_str(&self) -> &str
        ensures value { result.now ≡ self.now }
        ensures short { length result.now ≤ longest_text }
    {
        self.text.as_str()
    }
}

/// Returns the character of a nonce for a random word.
fn character(word: u32) -> char
    ensures value { result ≡ nonce_character word }
    ensures ascii { result < 128 }
{
    char::from(ALPHABET[(word % 62) as usize])
}

/// Makes a nonce from random words: the cookie, the features as four base64 characters, and one
/// character for each word. The character of a word is the one at index word modulo 62 in A to Z, a
/// to z, 0 to 9.
///
/// # Errors
///
/// - `NoMemory`: an allocation failed.
pub fn write_nonce(
    alloc: Global,
    features: NonceFeatures,
    words: &[u32; NONCE_WORDS],
) -> Result<ServerNonce, NoMemory>
    ensures { IfOk result (λ nonce. nonce ≡ nonce_text features words.now) }
{
    let mut text = String::from_str(alloc, LONG_TERM_RFC8489_NONCE_COOKIE)?;
    STANDARD.encode_string(&features.bytes(), &mut text)?;
    for word in words {
        text.push(character(*word))?;
    }
    Ok(ServerNonce { text })
}

/// A client reads from a nonce exactly the features with which the nonce was written.
pub fn nonce_decodes_its_features()
    ensures { (features : NonceFeatures) (words : List ℕ)
        → features_in (nonce_text features words) ≡ features }
{}

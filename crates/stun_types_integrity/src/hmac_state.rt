//! The state of an HMAC before it has processed any text.

ghost use Rattle.std.specs.Prelude.{◌≡◌};
ghost use Rattle.stun_types_integrity.specs.HmacState.{HasKey, HasNoKey, hmac_algorithm};

use crate::stun_types_digest::hmac::{HmacSha1, HmacSha256, HmacSha512};
use crate::stun_types_wire::algorithm::IntegrityAlgorithm;

/// The state of an HMAC by one of the algorithms, with or without its key. It has processed no byte
/// of a text.
#[derive(Drop)]
pub(crate) enum HmacState {
    Sha1(HmacSha1),
    Sha256(HmacSha256),
    Sha512(HmacSha512),
}

impl HmacState {
    /// Returns the state of an unkeyed HMAC-SHA1.
    #[inline(always)]
    pub(crate) fn unkeyed() -> HmacState
        ensures unkeyed { HasNoKey result }
        ensures by { hmac_algorithm result ≡ IntegrityAlgorithm.Sha1 }
    {
        HmacState::Sha1(HmacSha1::unkeyed())
    }

    /// Turns an unkeyed HMAC-SHA1 into an HMAC by `algorithm` and sets its key. No state that has
    /// already processed bytes is moved.
    pub(crate) fn set_key(&mut self, algorithm: IntegrityAlgorithm, key: &[u8])
        requires unkeyed { HasNoKey self.old }
        requires by { hmac_algorithm self.old ≡ IntegrityAlgorithm.Sha1 }
        ensures key { HasKey self.new key.now }
        ensures by { hmac_algorithm self.new ≡ algorithm }
    {
        match algorithm {
            IntegrityAlgorithm::Sha1 => {}
            IntegrityAlgorithm::Sha256 => *self = HmacState::Sha256(HmacSha256::unkeyed()),
            IntegrityAlgorithm::Sha512 => *self = HmacState::Sha512(HmacSha512::unkeyed()),
        }
        match self {
            HmacState::Sha1(hmac) => hmac.set_key(key),
            HmacState::Sha256(hmac) => hmac.set_key(key),
            HmacState::Sha512(hmac) => hmac.set_key(key),
        }
    }

    /// The algorithm of the HMAC.
    pub(crate) fn algorithm(&self) -> IntegrityAlgorithm
        ensures { result ≡ hmac_algorithm self.now }
    {
        match self {
            HmacState::Sha1(_) => IntegrityAlgorithm::Sha1,
            HmacState::Sha256(_) => IntegrityAlgorithm::Sha256,
            HmacState::Sha512(_) => IntegrityAlgorithm::Sha512,
        }
    }

    /// Returns a clone of the state.
    pub(crate) fn again(&self) -> HmacState
        ensures { result ≡ self.now }
    {
        match self {
            HmacState::Sha1(hmac) => HmacState::Sha1(hmac.again()),
            HmacState::Sha256(hmac) => HmacState::Sha256(hmac.again()),
            HmacState::Sha512(hmac) => HmacState::Sha512(hmac.again()),
        }
    }
}

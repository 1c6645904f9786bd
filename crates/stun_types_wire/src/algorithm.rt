//! Message integrity algorithms.

ghost use Rattle.std.specs.Prelude.{◌≡◌};
ghost use Rattle.stun_types_wire.specs.Strength.{is_stronger};

/// An algorithm that signs messages. The order is by strength, weaker algorithms first.
#[derive(Clone, Copy, Debug, PartialEq, Eq, PartialOrd, Ord)]
pub enum IntegrityAlgorithm {
    /// HMAC over SHA-1, in MESSAGE-INTEGRITY (RFC 8489, section 14.5).
    Sha1,
    /// HMAC over SHA-256, in MESSAGE-INTEGRITY-SHA256 (RFC 8489, section 14.6).
    Sha256,
    /// HMAC over SHA-512, in MESSAGE-INTEGRITY-SHA512, an extension of this project that no RFC
    /// defines.
    Sha512,
}

impl IntegrityAlgorithm {
    /// Returns whether this algorithm is stronger than `other`: `Sha512` is stronger than `Sha256`,
    /// and both are stronger than `Sha1`.
    pub fn is_stronger_than(self, other: IntegrityAlgorithm) -> bool
        ensures { result ≡ is_stronger self other }
    {
        self > other
    }
}

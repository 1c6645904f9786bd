//! The HMAC of a text by any of the algorithms.

ghost use Rattle.std.specs.Prelude.{◌≡◌};
ghost use Rattle.stun_types_integrity.specs.Hmacs.{hmac_bytes};

/// The HMAC of a text, by one of the algorithms. Contracts see its bytes.
#[derive(Clone, Copy, Debug)]
pub enum IntegrityHmac {
    /// HMAC-SHA1.
    Sha1([u8; 20]),
    /// HMAC-SHA256.
    Sha256([u8; 32]),
    /// HMAC-SHA512.
    Sha512([u8; 64]),
}

impl IntegrityHmac {
    /// Returns the bytes of the HMAC: 20, 32 or 64.
    pub fn as_slice(&self) -> &[u8]
        ensures { result.now ≡ hmac_bytes self.now }
    {
        match self {
            IntegrityHmac::Sha1(bytes) => bytes,
            IntegrityHmac::Sha256(bytes) => bytes,
            IntegrityHmac::Sha512(bytes) => bytes,
        }
    }
}

//! Digests without any message: the benchmark reports the other times relative to them.

ghost use Rattle.std.specs.Prelude.{◌≡◌};
ghost use Rattle.sha1.specs.Sha1.{sha1};
ghost use Rattle.sha2.specs.Sha256.{sha256};
ghost use Rattle.sha2.specs.Sha512.{sha512};
ghost use Rattle.byteorder.specs.Endian.{big_number};
ghost use Rattle.stun_types_digest.specs.Crc.{crc32};
ghost use Rattle.stun_types_wire.specs.Fingerprints.{fingerprint_value};

use byteorder::{BigEndian, ByteOrder};
use sha1::Sha1;
use sha2::{Digest, Sha256, Sha512};
use stun_types_add::attribute::Fingerprint;
use stun_types_digest::crc::Crc32;

/// A SHA-1 digest.
#[repr(C)]
#[derive(Clone, Copy, Debug)]
pub struct Sha1Digest {
    /// Its 20 bytes.
    pub bytes: [u8; 20],
}

/// A SHA-256 digest.
#[repr(C)]
#[derive(Clone, Copy, Debug)]
pub struct Sha256Digest {
    /// Its 32 bytes.
    pub bytes: [u8; 32],
}

/// A SHA-512 digest.
#[repr(C)]
#[derive(Clone, Copy, Debug)]
pub struct Sha512Digest {
    /// Its 64 bytes.
    pub bytes: [u8; 64],
}

/// Writes the SHA-1 digest of a text.
#[unsafe(no_mangle)]
pub extern "C" fn stun_bench_sha1(text: &[u8], digest: &mut Sha1Digest)
    ensures { digest.new.bytes ≡ sha1 text.now }
{
    digest.bytes = Sha1::digest(text);
}

/// Writes the SHA-256 digest of a text.
#[unsafe(no_mangle)]
pub extern "C" fn stun_bench_sha256(text: &[u8], digest: &mut Sha256Digest)
    ensures { digest.new.bytes ≡ sha256 text.now }
{
    digest.bytes = Sha256::digest(text);
}

/// Writes the SHA-512 digest of a text.
#[unsafe(no_mangle)]
pub extern "C" fn stun_bench_sha512(text: &[u8], digest: &mut Sha512Digest)
    ensures { digest.new.bytes ≡ sha512 text.now }
{
    digest.bytes = Sha512::digest(text);
}

/// Returns the CRC-32 of a text, from which FINGERPRINT is computed (RFC 8489, section 14.7).
#[unsafe(no_mangle)]
pub extern "C" fn stun_bench_crc32(text: &[u8]) -> u32
    ensures { result ≡ crc32 text.now }
{
    Crc32::checksum(text)
}

/// Returns the FINGERPRINT value of a text as an integer (RFC 8489, section 14.7).
#[unsafe(no_mangle)]
pub extern "C" fn stun_bench_fingerprint(text: &[u8]) -> u32
    ensures { result ≡ big_number 4 (fingerprint_value text.now) }
{
    let value = Fingerprint::new(Fingerprint::compute(text)).value();
    BigEndian::read_u32(&value)
}

//! The number of bytes that signing adds.

ghost use Rattle.std.specs.Prelude.{◌≡◌, ◌≤◌, length, min};
ghost use Rattle.stun_types_message.specs.Wire.RawBytes.{greatest_len};
ghost use Rattle.stun_types_message.specs.Wire.Registry.{longest_text};
ghost use Rattle.stun_proto_auth.specs.Addition.{size_of_part};
ghost use Rattle.stun_proto_auth.specs.Sizes.{size_of_addition, size_of_signature};

use crate::part::Part;
use crate::stun_types_integrity::algorithm::hmac_length;
use crate::stun_types_wire::algorithm::IntegrityAlgorithm;
use crate::stun_types_wire::attribute::pad_attribute_len;

/// Returns how many bytes `sign` adds to a message with these parts and, if an algorithm is given,
/// a key of that algorithm. The result is 0 if a part is over its limit, since nothing is added
/// then. It saturates at the greatest `usize`.
pub fn signature_bytes(parts: &[Part<'_>], algorithm: Option<IntegrityAlgorithm>) -> usize
    ensures { result ≡ min (size_of_addition parts.now algorithm) greatest_len }
{
    let mut total = integrity_bytes(algorithm);
    for part in parts {
        if part.len() > part.most() {
            return 0;
        }
        total = total.saturating_add(part_bytes(part));
    }
    total
}

/// Returns the size in bytes of the integrity attribute of an algorithm; 0 without an algorithm.
fn integrity_bytes(algorithm: Option<IntegrityAlgorithm>) -> usize
    ensures value { result ≡ size_of_signature algorithm }
    ensures short { result ≤ greatest_len }
{
    match algorithm {
        Some(algorithm) => 4 + hmac_length(algorithm),
        None => 0,
    }
}

/// Returns the size in bytes of a part's attribute, with header and padding. The part has to be
/// within its limit.
fn part_bytes(part: &Part<'_>) -> usize
    requires { length part.now.value ≤ longest_text }
    ensures { result ≡ size_of_part part.now }
{
    4 + pad_attribute_len(part.len())
}

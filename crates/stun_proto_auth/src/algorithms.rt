//! Lookup in a list of password algorithms.

ghost use Rattle.std.specs.Prelude.{◌≡◌, ◌==◌};
ghost use Rattle.stun_types_message.specs.AuthAttributes.Entries.{number_decoded};
ghost use Rattle.stun_proto_auth.specs.SupportedAlgorithms.{number_by};
ghost use Rattle.stun_proto_auth.specs.Offers.{offers};

use crate::number::number_by;
use crate::stun_types_wire::algorithm::IntegrityAlgorithm;
use byteorder::{BigEndian, ByteOrder};

/// Returns whether a PASSWORD-ALGORITHMS value lists the password algorithm that derives the keys
/// of an integrity algorithm (RFC 8489, sections 14.11 and 18.5).
#[tactic(auto, using(crate::proofs::Entries::offered))]
pub fn offers(value: &[u8], algorithm: IntegrityAlgorithm) -> bool
    ensures { result ≡ offers value.now algorithm }
{
    let mut left = value;
    while let Some((entry, rest)) = left.split_first_chunk::<4>() {
        if decodes(entry, algorithm) {
            return true;
        }
        left = rest;
    }
    false
}

/// Returns whether an entry has the number of the password algorithm that derives the keys of an
/// integrity algorithm.
#[tactic(auto, unfolding(crate::proofs::Below::number_decoded))]
fn decodes(entry: &[u8; 4], algorithm: IntegrityAlgorithm) -> bool
    ensures { result ≡ (number_decoded entry.now == number_by algorithm) }
{
    BigEndian::read_u16(entry) == number_by(algorithm)
}

//! Lists of password algorithms that may have unknown ones (RFC 8489, section 14.11).

ghost use Rattle.std.specs.Prelude.{◌≡◌, ◌≢◌, ◌≤◌, ◌==◌, ◌&&◌, List, [], MatchOption, None, drop};
ghost use Rattle.std.specs.Prelude.{false, length, true};
ghost use Rattle.stun_types_message.specs.Wire.declared.algorithm.IntegrityAlgorithm.{IntegrityAlgorithm as Algorithm};
ghost use Rattle.stun_types_message.specs.Wire.Attributes.{attr_header_at, is_whole, size_at};
ghost use Rattle.stun_types_message.specs.Wire.Registry.{most_algorithms, password_algorithms_kind};
ghost use Rattle.stun_types_message.specs.Write.Adding.{attr_of};
ghost use Rattle.stun_proto_auth.specs.Lists.{is_list, list_read_refusal, lists};
ghost use Rattle.stun_proto_auth.specs.Offers.{offers};
ghost use Rattle.stun_proto_auth.specs.SupportedAlgorithms.{list_of, number_by};

use crate::number::number_by;
use crate::stun_types_wire::algorithm::IntegrityAlgorithm;
use crate::stun_types_wire::attribute::{AttributeHeader, pad_attribute_len};
use std::convert::TryFrom;

/// Returns whether a PASSWORD-ALGORITHMS value has the password algorithm that derives the keys of
/// an integrity algorithm (RFC 8489, sections 14.11 and 18.5). It is read entry by entry, so bytes
/// among the parameters of another algorithm don't count, and unknown algorithms are passed over. A
/// known number with parameters is an unknown algorithm.
#[tactic(auto, using(crate::proofs::Listed::looked))]
pub fn lists(value: &[u8], algorithm: IntegrityAlgorithm) -> bool
    ensures { result ≡ lists value.now algorithm }
{
    let mut left = value;
    while let Some((header, rest)) = split_entry(left) {
        if is_header_of(header, algorithm) {
            return true;
        }
        left = rest;
    }
    false
}

/// Returns whether the header of an entry is that of the password algorithm that derives the keys
/// of an integrity algorithm: its number, and no parameters.
fn is_header_of(header: AttributeHeader, algorithm: IntegrityAlgorithm) -> bool
    ensures { result ≡ (header.kind == number_by algorithm && header.len == 0) }
{
    header.get_type().value() == number_by(algorithm) && header.length() == 0
}

/// Returns whether a value consists of complete entries, whatever their algorithms.
#[tactic(auto, using(crate::proofs::Listed::counted))]
pub(crate) fn is_list(value: &[u8]) -> bool
    ensures { result ≡ is_list value.now }
{
    let mut left = value;
    while let Some((_, rest)) = split_entry(left) {
        left = rest;
    }
    left.is_empty()
}

/// Splits the complete entry with which some bytes begin, padding included, from the rest. Returns
/// its header, which is laid out as that of an attribute, and the rest.
#[tactic(auto, using(crate::proofs::Listed::split))]
fn split_entry(bytes: &[u8]) -> Option<(AttributeHeader, &[u8])>
    ensures { MatchOption result (is_whole bytes.now ≡ false)
        (λ parts. (is_whole bytes.now ≡ true) × (parts.0 ≡ attr_header_at bytes.now)
        × (parts.1.now ≡ drop (size_at bytes.now) bytes.now)) }
{
    let Ok(header) = AttributeHeader::try_from(bytes) else {
        return None;
    };
    let size = 4 + pad_attribute_len(usize::from(header.length()));
    if bytes.len() < size {
        return None;
    }
    let (_, rest) = bytes.split_at(size);
    Some((header, rest))
}

/// A list of known algorithms without parameters, as a server makes it (RFC 8489, section 14.11):
///
/// - `alike`: read entry by entry it has the same algorithms as read four bytes at a time.
/// - `accepted`: if it has one to eight algorithms, it is a list of complete entries.
pub fn known_lists_are_read()
    ensures alike { (algorithms : List Algorithm) (algorithm : Algorithm)
        → lists (list_of algorithms) algorithm ≡ offers (list_of algorithms) algorithm }
    ensures accepted { (algorithms : List Algorithm)
        → algorithms ≢ []
        → length algorithms ≤ most_algorithms
        → list_read_refusal (attr_of password_algorithms_kind (list_of algorithms)) ≡ None }
{}

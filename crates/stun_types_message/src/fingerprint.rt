//! Compares a FINGERPRINT with the message before it (RFC 8489, section 14.7).

ghost use Rattle.std.specs.Prelude.{◌≡◌, ◌+◌, ◌-◌, ◌≤◌, bytes_eq, drop, length};
ghost use Rattle.stun_types_attributes.specs.Wire.Attributes.{attr_at, length_at, size_at};
ghost use Rattle.stun_types_attributes.specs.Wire.Covered.{covered_text};
ghost use Rattle.stun_types_attributes.specs.Wire.Fingerprints.{fingerprint_value};
ghost use Rattle.stun_types_attributes.specs.Wire.Fingerprints.{is_wrong_fingerprint};
ghost use Rattle.stun_types_message.specs.Heads.{DecodesHead};
ghost use Rattle.stun_types_attributes.specs.Wire.Registry.{greatest_size, header_size};

use crate::attribute_head::AttributeHead;
use crate::stun_types_wire::header::MessageHeader;
use crate::stun_types_wire::registry::FINGERPRINT_SIZE;
use crate::stun_types_write::attribute::AttributeStaticType;
use stun_types_add::attribute::Fingerprint;

/// Returns whether the attribute at the start of `rest` is a FINGERPRINT that does not match the
/// message before it.
#[tactic(auto)]
pub(crate) fn is_wrong(bytes: &[u8], rest: &[u8], attribute_head: AttributeHead) -> bool
    requires attribute_head { DecodesHead rest.now attribute_head }
    requires whole { size_at rest.now ≤ length rest.now }
    requires within { header_size + length rest.now ≤ length bytes.now }
    requires short { length bytes.now ≤ greatest_size }
    requires occurs { drop (length bytes.now - length rest.now) bytes.now ≡ rest.now }
    ensures { result ≡ is_wrong_fingerprint bytes.now
        (length bytes.now - length rest.now, attr_at rest.now) }
{
    attribute_head.atype == Fingerprint::TYPE && !has_value(bytes, rest, attribute_head.length)
}

/// Returns whether the attribute at the start of `rest` has the value of the FINGERPRINT of the
/// message before it.
#[tactic(auto, using(crate::proofs::Fingerprints::other_length))]
fn has_value(bytes: &[u8], rest: &[u8], len: usize) -> bool
    requires len { len ≡ length_at rest.now }
    requires whole { size_at rest.now ≤ length rest.now }
    requires within { header_size + length rest.now ≤ length bytes.now }
    requires short { length bytes.now ≤ greatest_size }
    requires occurs { drop (length bytes.now - length rest.now) bytes.now ≡ rest.now }
    ensures { result ≡ bytes_eq (attr_at rest.now).value
        (fingerprint_value (covered_text bytes.now (length bytes.now - length rest.now))) }
{
    if len != FINGERPRINT_SIZE - 4 {
        return false;
    }
    let offset = bytes.len() - rest.len();
    let (attribute_head, _) = bytes.split_at(offset);
    let decoded = (offset + FINGERPRINT_SIZE - MessageHeader::LENGTH) as u16;
    let own = Fingerprint::of_message(attribute_head, decoded);
    let (attribute, _) = rest.split_at(FINGERPRINT_SIZE);
    let (_, value) = attribute.split_at(4);
    own.has_value(value)
}

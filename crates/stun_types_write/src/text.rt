//! Encodes attributes and lengths into a buffer.

ghost use Rattle.std.specs.Prelude.{◌≡◌, ◌+◌, ◌<◌, ◌≤◌, ◌^◌, ◌∷◌, ◌++◌, length, drop, slice_index};
ghost use Rattle.byteorder.specs.Endian.{big_bytes};
ghost use Rattle.stun_types_wire.specs.Attributes.{padded};
ghost use Rattle.stun_types_wire.specs.Text.{attribute_text};
ghost use Rattle.stun_types_write.specs.Adding.{attr_of};
ghost use Rattle.stun_types_wire.specs.Covered.{with_length};
ghost use Rattle.stun_types_wire.specs.Registry.{header_size};

use byteorder::{BigEndian, ByteOrder};
use stun_types_wire::attribute::{AttributeType, pad_attribute_len};

/// Writes the four bytes before a value to the first four bytes of `dest`: the type, and the length
/// of the value.
pub fn write_attribute_header(atype: AttributeType, len: u16, dest: &mut [u8])
    requires { 4 ≤ length dest.old }
    ensures { dest.new ≡ big_bytes 2 atype.0 ++ big_bytes 2 len ++ drop 4 dest.old }
{
    let (header, _) = dest.split_at_mut(4);
    let [k0, k1] = atype.value().to_be_bytes();
    let [l0, l1] = len.to_be_bytes();
    header.copy_from_slice(&[k0, k1, l0, l1]);
}

/// Writes an attribute to the first bytes of `dest`: type, length, value, and zeros up to a
/// multiple of four bytes. The bytes after it are unchanged.
pub fn write_attribute(atype: AttributeType, value: &[u8], dest: &mut [u8])
    requires short { length value.now < 2 ^ 16 }
    requires room { 4 + padded (length value.now) ≤ length dest.old }
    ensures { dest.new ≡ attribute_text (attr_of atype.0 value.now)
        ++ drop (4 + padded (length value.now)) dest.old }
{
    write_attribute_in_two(atype, &[], value, dest);
}

/// Writes an attribute as `write_attribute` does, with a value that is `head` followed by `back`.
/// The last four bytes are set to zero first and then overwritten up to the padding, so the padding
/// need not be counted. It is inlined, so that a caller with a value in one slice has no code to
/// copy the other.
#[inline(always)]
pub fn write_attribute_in_two(atype: AttributeType, head: &[u8], back: &[u8], dest: &mut [u8])
    requires short { length (head.now ++ back.now) < 2 ^ 16 }
    requires room { 4 + padded (length (head.now ++ back.now)) ≤ length dest.old }
    ensures { dest.new ≡ attribute_text (attr_of atype.0 (head.now ++ back.now))
        ++ drop (4 + padded (length (head.now ++ back.now))) dest.old }
{
    let len = head.len() + back.len();
    let before_last = pad_attribute_len(len);
    let (text, _) = dest.split_at_mut(4 + before_last);
    let (_, last) = text.split_at_mut(before_last);
    last.copy_from_slice(&[0; 4]);
    write_attribute_header(atype, len as u16, text);
    let (_, after_header) = text.split_at_mut(4);
    let (first, after_head) = after_header.split_at_mut(head.len());
    let (second, _) = after_head.split_at_mut(back.len());
    first.copy_from_slice(head);
    second.copy_from_slice(back);
}

/// Returns the first four bytes of a message, with `len` in the length field.
pub fn head_decoded(bytes: &[u8], len: u16) -> [u8; 4]
    requires { header_size ≤ length bytes.now }
    ensures { result ≡ slice_index bytes.now 0 ∷ slice_index bytes.now 1 ∷ big_bytes 2 len }
{
    let [high, low] = len.to_be_bytes();
    [bytes[0], bytes[1], high, low]
}

/// Writes the length of a message into its header.
pub fn write_length(bytes: &mut [u8], n: u16)
    requires { header_size ≤ length bytes.old }
    ensures { bytes.new ≡ with_length bytes.old n }
{
    BigEndian::write_u16(&mut bytes[2..4], n);
}

//! Iterates over the written attributes by their length fields.

ghost use Rattle.std.specs.Prelude.{◌≡◌, find, map, drop};
ghost use Rattle.std.specs.Option.{option_map};
ghost use Rattle.stun_types_write.specs.Adding.{has_kind, is_among};
ghost use Rattle.stun_types_write.specs.Drafts.{kinds_written};
ghost use Rattle.stun_types_write.specs.Scan.{IsStep};
ghost use Rattle.stun_types_wire.specs.Registry.{header_size};

use crate::among::has_type;
use byteorder::{BigEndian, ByteOrder};
use stun_types_wire::attribute::{AttributeType, pad_attribute_len};

/// Returns the type of the attribute that begins at the first byte, and the bytes after it. Returns
/// `None` if it is incomplete.
fn step(bytes: &[u8]) -> Option<(AttributeType, &[u8])>
    ensures { IsStep bytes.now result }
{
    if bytes.len() < 4 {
        return None;
    }
    let (_, after_type) = bytes.split_at(2);
    let length = usize::from(BigEndian::read_u16(after_type));
    let size = 4 + pad_attribute_len(length);
    if bytes.len() < size {
        return None;
    }
    let (_, following) = bytes.split_at(size);
    Some((AttributeType(BigEndian::read_u16(bytes)), following))
}

/// Returns the bytes after the header.
fn body(bytes: &[u8]) -> &[u8]
    ensures { result.now ≡ drop header_size bytes.now }
{
    let (_, body) = bytes.split_at(bytes.len().min(20));
    body
}

/// Returns whether an attribute of this type follows the header.
pub fn is_written(bytes: &[u8], atype: AttributeType) -> bool
    ensures { result ≡ has_kind atype.0 (kinds_written bytes.now) }
{
    let mut left = body(bytes);
    while let Some((found, following)) = step(left) {
        if found.0 == atype.0 {
            return true;
        }
        left = following;
    }
    false
}

/// Returns the type of the first attribute after the header whose type is one of the requested
/// ones.
pub fn first_written(bytes: &[u8], requested: &[AttributeType]) -> Option<AttributeType>
    ensures { option_map (λ t. t.0) result
        ≡ find (is_among (map (λ t. t.0) requested.now)) (kinds_written bytes.now) }
{
    let mut left = body(bytes);
    while let Some((found, following)) = step(left) {
        if has_type(requested, found) {
            return Some(found);
        }
        left = following;
    }
    None
}

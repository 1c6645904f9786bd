//! UNKNOWN-ATTRIBUTES (RFC 8489, section 14.13).

ghost use Rattle.std.specs.Prelude.{◌≡◌, ℕ, List, ◌+◌, ◌*◌, ◌%◌, ◌≤◌, ◌++◌, ◌∷◌, [], IfOk, OnOk};
ghost use Rattle.std.specs.Prelude.{OnErr, MatchResult, None, Some, is_some, length, map};
ghost use Rattle.stun_types_wire.specs.Base.Refusals.{RefusesFor};
ghost use Rattle.stun_types_auth_attributes.specs.Write.ValueReading.{IsNamed};
ghost use Rattle.stun_types_auth_attributes.specs.Write.Adding.{has_kind};
ghost use Rattle.stun_types_attributes.specs.TypeMarks.{IsIndexed};
ghost use Rattle.stun_types_attributes.specs.UnknownTypes.{types_read_refusal, types_refusal};
ghost use Rattle.stun_types_attributes.specs.UnknownTypes.{types_decoded, types_value, with_type};
ghost use Rattle.stun_types_wire.specs.Registry.{longest_value, unknown_attributes_kind};

use crate::stun_types_base::memory::NoMemory;
use crate::stun_types_write::attribute::{
    Attribute, AttributeFromRaw, AttributeStaticType, AttributeWrite,
};
use crate::stun_types_write::reading::value_of;
use crate::stun_types_write::text::write_attribute;
use crate::type_index::TypeIndex;
use std::alloc::Global;
use std::fmt;
use std::marker::Model;
use stun_types_wire::attribute::{AttributeType, RawAttribute};
use stun_types_wire::error::{StunParseError, StunWriteError};
use stun_types_wire::registry;

/// The comprehension-required attribute types that a server did not understand (RFC 8489, section
/// 14.13). A value of at most 65,535 bytes holds them, at two bytes each. Contracts see the list of
/// their numbers.
#[derive(Drop)]
pub struct UnknownAttributes {
    bytes: Vec<u8>,
    // An index of the types in `bytes`, made when a type is added to a long list.
    index: Option<TypeIndex>,
}

impl Model for UnknownAttributes {
    ghost use Rattle.std.specs.Prelude.{◌≡◌, ℕ, ◌%◌, ◌≤◌, List, length};
    ghost use Rattle.stun_types_attributes.specs.TypeMarks.{IsIndexed};
    ghost use Rattle.stun_types_attributes.specs.UnknownTypes.{types_decoded};
    ghost use Rattle.stun_types_wire.specs.Registry.{longest_value};

    ghost Value = { List ℕ };

    ghost view = { λ a. types_decoded a.bytes.items };

    ghost invariant = { λ a. (length a.bytes.items % 2 ≡ 0)
        × (length a.bytes.items ≤ longest_value)
        × IsIndexed a.index (types_decoded a.bytes.items) };
}

/// The length of the value, in bytes, from which adding a type makes an index: that of 32 types.
const INDEXED_LEN: usize = 64;

impl UnknownAttributes {
    /// The maximum length of the value in bytes.
    pub const MAX_LEN: usize = registry::MAX_VALUE_LENGTH;

    /// Makes an UNKNOWN-ATTRIBUTES of these types, in their order. Duplicates are kept.
    ///
    /// # Errors
    ///
    /// - `TooLarge`: the value would have more than 65,535 bytes.
    /// - `NoMemory`: an allocation failed.
    pub fn new(alloc: Global, types: &[AttributeType]) -> Result<UnknownAttributes, StunWriteError>
        ensures ok { IfOk result (λ made. (made ≡ map (λ t. t.0) types.now)
            × (types_refusal (length types.now) ≡ None)) }
        ensures cause { RefusesFor StunWriteError.NoMemory
            (types_refusal (length types.now)) result }
    {
        let len = 2 * types.len();
        if len > UnknownAttributes::MAX_LEN {
            return Err(StunWriteError::TooLarge {
                expected: UnknownAttributes::MAX_LEN,
                actual: len,
            });
        }
        let bytes = bytes_of(alloc, types)?;
        Ok(UnknownAttributes { bytes, index: None })
    }

    /// Returns whether a type is in the list.
    pub fn has_attribute(&self, atype: AttributeType) -> bool
        ensures { result ≡ has_kind atype.0 self.now }
    {
        match &self.index {
            Some(index) => index.has(atype),
            None => decodes_type(self.bytes.as_slice(), atype),
        }
    }

    /// Adds a type at the end, unless it is in the list already.
    ///
    /// A list of 32 types or more gets an index in which types are looked up. If the allocation of
    /// the index fails, the call goes on without one and searches the list.
    ///
    /// # Errors
    ///
    /// The list is unchanged after each.
    ///
    /// - `TooLarge`: the value would have more than 65,535 bytes.
    /// - `NoMemory`: an allocation failed.
    #[tactic(auto, using(crate::proofs::TypeLists::decoded_length))]
    pub fn add_attribute(&mut self, atype: AttributeType) -> Result<(), StunWriteError>
        ensures added { OnOk result (self.new ≡ with_type atype.0 self.old) }
        ensures cause { RefusesFor StunWriteError.NoMemory
            (types_refusal (length (with_type atype.0 self.old))) result }
        ensures unchanged { OnErr result (self.new ≡ self.old) }
    {
        self.index_types();
        if self.has_attribute(atype) {
            return Ok(());
        }
        let len = self.bytes.len() + 2;
        if len > UnknownAttributes::MAX_LEN {
            return Err(StunWriteError::TooLarge {
                expected: UnknownAttributes::MAX_LEN,
                actual: len,
            });
        }
        push_type(&mut self.bytes, atype)?;
        mark_type(&mut self.index, atype);
        Ok(())
    }

    /// Makes the index if the list is long enough for one. If an allocation fails, there is none.
    fn index_types(&mut self)
        ensures { self.new ≡ self.old }
    {
        if self.index.is_none() && INDEXED_LEN <= self.bytes.len() {
            self.index = index_of(*self.bytes.allocator(), self.bytes.as_slice()).ok();
        }
    }

    /// Returns the bytes of the value.
    #[tactic(auto, using(crate::proofs::TypeLists::decoded_length))]
    fn value(&self) -> &[u8]
        ensures value { result.now ≡ types_value self.now }
        ensures decoded { types_decoded result.now ≡ self.now }
        ensures count { 2 * length self.now ≡ length result.now }
        ensures even { length result.now % 2 ≡ 0 }
        ensures short { length result.now ≤ longest_value }
    {
        proof_types_are_decoded(self.bytes.as_slice());
        self.bytes.as_slice()
    }
}

impl fmt::Debug for UnknownAttributes {
    /// Prints the bytes of the value, and not the index.
    fn fmt<W: fmt::Write>(&self, f: &mut fmt::Formatter<W>) -> fmt::Result {
        f.debug_struct("UnknownAttributes")
            .field("bytes", &self.bytes)
            .finish()
    }
}

impl AttributeStaticType for UnknownAttributes {
    ghost TYPE = { record { 0 = unknown_attributes_kind } };

    const TYPE: AttributeType = registry::UNKNOWN_ATTRIBUTES;
}

impl Attribute for UnknownAttributes {
    ghost use Rattle.stun_types_attributes.specs.UnknownTypes.{types_value};

    ghost kind = { λ _. unknown_attributes_kind };

    ghost value = { types_value };

    fn get_type(&self) -> AttributeType {
        UnknownAttributes::TYPE
    }

    fn length(&self) -> u16 {
        self.value().len() as u16
    }
}

impl AttributeWrite for UnknownAttributes {
    ghost use Rattle.std.specs.Prelude.{false};

    ghost giving_takes_memory = { false };

    fn write_into_unchecked(&self, dest: &mut [u8]) {
        write_attribute(UnknownAttributes::TYPE, self.value(), dest);
    }

    fn to_raw(&self, _alloc: Global) -> Result<RawAttribute<'_>, NoMemory> {
        Ok(RawAttribute::new(UnknownAttributes::TYPE, self.value()))
    }
}

/// Decodes types of two bytes each, the high byte first.
///
/// # Errors
///
/// In this order:
///
/// - `WrongAttributeImplementation`: the type is another one.
/// - `InvalidAttributeData`: the value has an odd number of bytes. This is not `Truncated`, because
///   no length is prescribed.
/// - `NoMemory`: an allocation failed.
impl<'a> AttributeFromRaw<'a> for UnknownAttributes {
    ghost use Rattle.stun_types_attributes.specs.UnknownTypes.{types_read_refusal};

    ghost read_refusal = { types_read_refusal };

    ghost read_value = { λ value. value };

    fn from_raw_ref(
        alloc: Global,
        raw: &RawAttribute<'_>,
    ) -> Result<UnknownAttributes, StunParseError> {
        let value = even_value_of(raw)?;
        Ok(UnknownAttributes {
            bytes: Vec::from_slice(alloc, value)?,
            index: None,
        })
    }

    fn from_raw(alloc: Global, raw: RawAttribute<'a>) -> Result<UnknownAttributes, StunParseError> {
        UnknownAttributes::from_raw_ref(alloc, &raw)
    }

    #[tactic(auto, using(crate::proofs::TypeLists::lists))]
    fn proof_is_read_back(&self, read: &UnknownAttributes) {
        let _ = self.value();
        let _ = read.value();
    }
}

/// Returns the value of an UNKNOWN-ATTRIBUTES. Fails as decoding the attribute does, but allocates
/// nothing.
#[tactic(auto, unfolding(crate::proofs::TypeLists::refusals))]
fn even_value_of<'raw>(raw: &'raw RawAttribute<'_>) -> Result<&'raw [u8], StunParseError>
    ensures { MatchResult result (λ value. (types_read_refusal raw.now ≡ None)
        × (raw.now.kind ≡ unknown_attributes_kind) × (value.now ≡ raw.now.value)
        × (length value.now % 2 ≡ 0)
        × (length value.now ≤ longest_value) × (types_value (types_decoded value.now) ≡ value.now))
        (IsNamed (types_read_refusal raw.now)) }
{
    let value = value_of(raw, UnknownAttributes::TYPE, 0, UnknownAttributes::MAX_LEN)?;
    if value.len() % 2 != 0 {
        return Err(StunParseError::InvalidAttributeData);
    }
    proof_types_are_decoded(value);
    Ok(value)
}

/// Proof only. Encoding the types in an even number of bytes gives these bytes again.
fn proof_types_are_decoded(bytes: &[u8])
    requires { length bytes.now % 2 ≡ 0 }
    ensures { types_value (types_decoded bytes.now) ≡ bytes.now }
{}

/// Encodes types as a value. Fails only with `NoMemory`, if an allocation fails.
#[tactic(auto, using(crate::proofs::TypeLists::none_decoded))]
fn bytes_of(alloc: Global, types: &[AttributeType]) -> Result<Vec<u8>, NoMemory>
    ensures decoded { IfOk result (λ bytes. types_decoded bytes.items ≡ map (λ t. t.0) types.now) }
    ensures length { IfOk result (λ bytes. length bytes.items ≡ 2 * length types.now) }
{
    let mut bytes = Vec::with_capacity(alloc, 2 * types.len())?;
    for atype in types {
        push_type(&mut bytes, *atype)?;
    }
    Ok(bytes)
}

/// Adds a type to a value of an even number of bytes. Fails only with `NoMemory`, if an allocation
/// fails; the bytes are unchanged then.
#[tactic(auto, using(crate::proofs::TypeLists::decoded_more))]
fn push_type(bytes: &mut Vec<u8>, atype: AttributeType) -> Result<(), NoMemory>
    requires { length bytes.old.items % 2 ≡ 0 }
    ensures decoded { OnOk result (types_decoded bytes.new.items ≡ types_decoded bytes.old.items ++
        atype.0
        ∷ []) }
    ensures length { OnOk result (length bytes.new.items ≡ length bytes.old.items + 2) }
    ensures unchanged { OnErr result (bytes.new.items ≡ bytes.old.items) }
{
    bytes.extend_from_slice(&atype.value().to_be_bytes())?;
    Ok(())
}

/// Makes an index of the types in a value. Fails only with `NoMemory`, if an allocation fails.
fn index_of(alloc: Global, bytes: &[u8]) -> Result<TypeIndex, NoMemory>
    ensures { IfOk result (λ index. IsIndexed (Some index) (types_decoded bytes.now)) }
{
    let mut index = TypeIndex::new(alloc)?;
    let mut left = bytes;
    while let Some((pair, rest)) = left.split_first_chunk::<2>() {
        index.mark(AttributeType(u16::from_be_bytes(*pair)));
        left = rest;
    }
    Ok(index)
}

/// Adds a type to an index, if there is one.
fn mark_type(index: &mut Option<TypeIndex>, atype: AttributeType)
    ensures marked { (kinds : List ℕ) → IsIndexed index.old kinds
        → IsIndexed index.new (kinds ++ atype.0 ∷ []) }
    ensures stored { is_some index.new ≡ is_some index.old }
{
    if let Some(index) = index {
        index.mark(atype);
    }
}

/// Returns whether a type is in a value.
#[tactic(auto, using(crate::proofs::TypeLists::none), unfolding(crate::proofs::TypeLists::decoded))]
fn decodes_type(bytes: &[u8], atype: AttributeType) -> bool
    ensures { result ≡ has_kind atype.0 (types_decoded bytes.now) }
{
    let mut left = bytes;
    while let Some((pair, rest)) = left.split_first_chunk::<2>() {
        if u16::from_be_bytes(*pair) == atype.value() {
            return true;
        }
        left = rest;
    }
    false
}

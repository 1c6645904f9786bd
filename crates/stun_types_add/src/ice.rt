//! The attributes of connectivity checks (RFC 8445, sections 7.1 and 16.1): PRIORITY, USE-CANDIDATE,
//! ICE-CONTROLLED and ICE-CONTROLLING.

ghost use Rattle.std.specs.Prelude.{◌≡◌, None, length, MatchResult};
ghost use Rattle.stun_types_integrity.specs.Write.ValueReading.{IsNamed, value_refusal};
ghost use Rattle.byteorder.specs.Endian.{big_bytes, big_number};
ghost use Rattle.stun_types_integrity.specs.Wire.Registry.{priority_kind, use_candidate_kind};
ghost use Rattle.stun_types_integrity.specs.Wire.Registry.{ice_controlled_kind};
ghost use Rattle.stun_types_integrity.specs.Wire.Registry.{ice_controlling_kind};

use crate::stun_types_base::memory::NoMemory;
use crate::stun_types_wire::attribute::{AttributeType, RawAttribute};
use crate::stun_types_wire::error::StunParseError;
use crate::stun_types_wire::registry;
use crate::stun_types_write::attribute::{
    Attribute, AttributeFromRaw, AttributeStaticType, AttributeWrite,
};
use crate::stun_types_write::reading::value_of;
use crate::stun_types_write::text::write_attribute;
use byteorder::{BigEndian, ByteOrder};
use std::alloc::Global;
use std::convert::TryFrom;
use std::marker::Model;

/// The priority that a peer-reflexive candidate would have that is learned from the check (RFC 8445,
/// sections 5.1.2 and 7.1.1). Section 5.1.2 requires a number from 1 to 2^31 - 1; as an attribute any
/// 32-bit number is made and decoded. Contracts see the number.
#[derive(Debug, Drop)]
pub struct Priority {
    priority: u32,
}

impl Model for Priority {
    ghost use Rattle.std.specs.Prelude.{ℕ};

    ghost Value = { ℕ };

    ghost view = { λ a. a.priority };
}

impl Priority {
    /// Creates the PRIORITY of a candidate.
    pub fn new(priority: u32) -> Priority
        ensures { result ≡ priority }
    {
        Priority { priority }
    }

    /// Returns the priority of the candidate.
    pub fn priority(&self) -> u32
        ensures { result ≡ self.now }
    {
        self.priority
    }
}

impl AttributeStaticType for Priority {
    ghost TYPE = { record { 0 = priority_kind } };

    const TYPE: AttributeType = registry::PRIORITY;
}

impl Attribute for Priority {
    ghost use Rattle.byteorder.specs.Endian.{big_bytes};

    ghost kind = { λ _. priority_kind };

    ghost value = { big_bytes 4 };

    fn get_type(&self) -> AttributeType {
        Priority::TYPE
    }

    fn length(&self) -> u16 {
        4
    }
}

impl AttributeWrite for Priority {
    fn write_into_unchecked(&self, dest: &mut [u8]) {
        write_attribute(Priority::TYPE, &self.priority().to_be_bytes(), dest);
    }

    fn to_raw(&self, alloc: Global) -> Result<RawAttribute<'_>, NoMemory> {
        let value = Vec::from_slice(alloc, &self.priority().to_be_bytes())?;
        Ok(RawAttribute::new_owned(Priority::TYPE, value.into_boxed_slice()))
    }
}

/// Decodes the four bytes of the value as a big-endian number.
///
/// # Errors
///
/// 1. `WrongAttributeImplementation`: the attribute has another type.
/// 2. `Truncated`: the value has fewer than four bytes.
/// 3. `TooLarge`: the value has more than four bytes.
impl<'a, 'raw> TryFrom<&'raw RawAttribute<'a>> for Priority {
    ghost use Rattle.std.specs.Prelude.{◌≡◌, MatchResult, None};
    ghost use Rattle.stun_types_integrity.specs.Write.ValueReading.{IsNamed, value_refusal};
    ghost use Rattle.byteorder.specs.Endian.{big_number};

    type Error = StunParseError;

    ghost try_from_gives = { λ raw result. MatchResult result
        (λ read. (value_refusal priority_kind 4 4 raw.now ≡ None)
        × (read ≡ big_number 4 raw.now.value))
        (IsNamed (value_refusal priority_kind 4 4 raw.now)) };

    fn try_from(raw: &'raw RawAttribute<'a>) -> Result<Priority, StunParseError> {
        let priority = read_u32(raw, Priority::TYPE)?;
        Ok(Priority { priority })
    }
}

/// Fails as `try_from` does. It allocates no memory.
impl<'a> AttributeFromRaw<'a> for Priority {
    ghost use Rattle.std.specs.Prelude.{false};
    ghost use Rattle.stun_types_integrity.specs.Write.ValueReading.{value_refusal};

    ghost read_refusal = { value_refusal priority_kind 4 4 };

    ghost read_value = { λ value. value };

    ghost reading_takes_memory = { false };

    fn from_raw_ref(_alloc: Global, raw: &RawAttribute<'_>) -> Result<Priority, StunParseError> {
        let priority = read_u32(raw, Priority::TYPE)?;
        Ok(Priority { priority })
    }

    fn from_raw(alloc: Global, raw: RawAttribute<'a>) -> Result<Priority, StunParseError> {
        Priority::from_raw_ref(alloc, &raw)
    }

    #[tactic(auto, using(crate::proofs::Numbers::numbers_4))]
    fn proof_is_read_back(&self, read: &Priority) {
        let _ = (self.priority(), read.priority());
    }
}

/// Nominates the candidate pair of a check: only the controlling agent sends it (RFC 8445, section
/// 7.1.2). It has no value.
#[derive(Debug, Drop)]
pub struct UseCandidate {}

impl UseCandidate {
    /// Creates the attribute.
    pub fn new() -> UseCandidate {
        UseCandidate {}
    }
}

impl AttributeStaticType for UseCandidate {
    ghost TYPE = { record { 0 = use_candidate_kind } };

    const TYPE: AttributeType = registry::USE_CANDIDATE;
}

impl Attribute for UseCandidate {
    ghost use Rattle.std.specs.Prelude.{[]};

    ghost kind = { λ _. use_candidate_kind };

    ghost value = { λ _. [] };

    fn get_type(&self) -> AttributeType {
        UseCandidate::TYPE
    }

    fn length(&self) -> u16 {
        0
    }
}

impl AttributeWrite for UseCandidate {
    ghost use Rattle.std.specs.Prelude.{false};

    ghost giving_takes_memory = { false };

    fn write_into_unchecked(&self, dest: &mut [u8]) {
        write_attribute(UseCandidate::TYPE, &[], dest);
    }

    fn to_raw(&self, _alloc: Global) -> Result<RawAttribute<'_>, NoMemory> {
        Ok(RawAttribute::new(UseCandidate::TYPE, &[]))
    }
}

/// Decodes the attribute, which has no value.
///
/// # Errors
///
/// 1. `WrongAttributeImplementation`: the attribute has another type.
/// 2. `TooLarge`: the value is not empty.
impl<'a, 'raw> TryFrom<&'raw RawAttribute<'a>> for UseCandidate {
    ghost use Rattle.std.specs.Prelude.{◌≡◌, MatchResult, None};
    ghost use Rattle.stun_types_integrity.specs.Write.ValueReading.{IsNamed, value_refusal};

    type Error = StunParseError;

    ghost try_from_gives = { λ raw result. MatchResult result
        (λ _. value_refusal use_candidate_kind 0 0 raw.now ≡ None)
        (IsNamed (value_refusal use_candidate_kind 0 0 raw.now)) };

    fn try_from(raw: &'raw RawAttribute<'a>) -> Result<UseCandidate, StunParseError> {
        value_of(raw, UseCandidate::TYPE, 0, 0)?;
        Ok(UseCandidate {})
    }
}

/// Fails as `try_from` does. It allocates no memory.
impl<'a> AttributeFromRaw<'a> for UseCandidate {
    ghost use Rattle.std.specs.Prelude.{[], false};
    ghost use Rattle.stun_types_integrity.specs.Write.ValueReading.{value_refusal};

    ghost read_refusal = { value_refusal use_candidate_kind 0 0 };

    ghost read_value = { λ _. [] };

    ghost reading_takes_memory = { false };

    fn from_raw_ref(
        _alloc: Global,
        raw: &RawAttribute<'_>,
    ) -> Result<UseCandidate, StunParseError> {
        value_of(raw, UseCandidate::TYPE, 0, 0)?;
        Ok(UseCandidate {})
    }

    fn from_raw(alloc: Global, raw: RawAttribute<'a>) -> Result<UseCandidate, StunParseError> {
        UseCandidate::from_raw_ref(alloc, &raw)
    }

    #[tactic(auto, using(crate::proofs::Below::value_is_accepted))]
    fn proof_is_read_back(&self, _read: &UseCandidate) {}
}

/// States that the agent sending a check is in the controlled role (RFC 8445, section 7.1.3). The
/// tie-breaker decides which agent changes its role if both have the same one (section 7.3.1.1). Any
/// 64-bit number is allowed. Contracts see the number.
#[derive(Debug, Drop)]
pub struct IceControlled {
    tie_breaker: u64,
}

impl Model for IceControlled {
    ghost use Rattle.std.specs.Prelude.{ℕ};

    ghost Value = { ℕ };

    ghost view = { λ a. a.tie_breaker };
}

impl IceControlled {
    /// Creates the attribute with the tie-breaker of the agent that sends it.
    pub fn new(tie_breaker: u64) -> IceControlled
        ensures { result ≡ tie_breaker }
    {
        IceControlled { tie_breaker }
    }

    /// Returns the tie-breaker of the agent that sent the attribute.
    pub fn tie_breaker(&self) -> u64
        ensures { result ≡ self.now }
    {
        self.tie_breaker
    }
}

impl AttributeStaticType for IceControlled {
    ghost TYPE = { record { 0 = ice_controlled_kind } };

    const TYPE: AttributeType = registry::ICE_CONTROLLED;
}

impl Attribute for IceControlled {
    ghost use Rattle.byteorder.specs.Endian.{big_bytes};

    ghost kind = { λ _. ice_controlled_kind };

    ghost value = { big_bytes 8 };

    fn get_type(&self) -> AttributeType {
        IceControlled::TYPE
    }

    fn length(&self) -> u16 {
        8
    }
}

impl AttributeWrite for IceControlled {
    fn write_into_unchecked(&self, dest: &mut [u8]) {
        write_attribute(IceControlled::TYPE, &self.tie_breaker().to_be_bytes(), dest);
    }

    fn to_raw(&self, alloc: Global) -> Result<RawAttribute<'_>, NoMemory> {
        let value = Vec::from_slice(alloc, &self.tie_breaker().to_be_bytes())?;
        Ok(RawAttribute::new_owned(IceControlled::TYPE, value.into_boxed_slice()))
    }
}

/// Decodes the eight bytes of the value as a big-endian number.
///
/// # Errors
///
/// 1. `WrongAttributeImplementation`: the attribute has another type.
/// 2. `Truncated`: the value has fewer than eight bytes.
/// 3. `TooLarge`: the value has more than eight bytes.
impl<'a, 'raw> TryFrom<&'raw RawAttribute<'a>> for IceControlled {
    ghost use Rattle.std.specs.Prelude.{◌≡◌, MatchResult, None};
    ghost use Rattle.stun_types_integrity.specs.Write.ValueReading.{IsNamed, value_refusal};
    ghost use Rattle.byteorder.specs.Endian.{big_number};

    type Error = StunParseError;

    ghost try_from_gives = { λ raw result. MatchResult result
        (λ read. (value_refusal ice_controlled_kind 8 8 raw.now ≡ None)
        × (read ≡ big_number 8 raw.now.value))
        (IsNamed (value_refusal ice_controlled_kind 8 8 raw.now)) };

    fn try_from(raw: &'raw RawAttribute<'a>) -> Result<IceControlled, StunParseError> {
        let tie_breaker = read_u64(raw, IceControlled::TYPE)?;
        Ok(IceControlled { tie_breaker })
    }
}

/// Fails as `try_from` does. It allocates no memory.
impl<'a> AttributeFromRaw<'a> for IceControlled {
    ghost use Rattle.std.specs.Prelude.{false};
    ghost use Rattle.stun_types_integrity.specs.Write.ValueReading.{value_refusal};

    ghost read_refusal = { value_refusal ice_controlled_kind 8 8 };

    ghost read_value = { λ value. value };

    ghost reading_takes_memory = { false };

    fn from_raw_ref(
        _alloc: Global,
        raw: &RawAttribute<'_>,
    ) -> Result<IceControlled, StunParseError> {
        let tie_breaker = read_u64(raw, IceControlled::TYPE)?;
        Ok(IceControlled { tie_breaker })
    }

    fn from_raw(alloc: Global, raw: RawAttribute<'a>) -> Result<IceControlled, StunParseError> {
        IceControlled::from_raw_ref(alloc, &raw)
    }

    #[tactic(auto, using(crate::proofs::Numbers::numbers_8))]
    fn proof_is_read_back(&self, read: &IceControlled) {
        let _ = (self.tie_breaker(), read.tie_breaker());
    }
}

/// States that the agent sending a check is in the controlling role (RFC 8445, section 7.1.3). The
/// tie-breaker decides which agent changes its role if both have the same one (section 7.3.1.1). Any
/// 64-bit number is allowed. Contracts see the number.
#[derive(Debug, Drop)]
pub struct IceControlling {
    tie_breaker: u64,
}

impl Model for IceControlling {
    ghost use Rattle.std.specs.Prelude.{ℕ};

    ghost Value = { ℕ };

    ghost view = { λ a. a.tie_breaker };
}

impl IceControlling {
    /// Creates the attribute with the tie-breaker of the agent that sends it.
    pub fn new(tie_breaker: u64) -> IceControlling
        ensures { result ≡ tie_breaker }
    {
        IceControlling { tie_breaker }
    }

    /// Returns the tie-breaker of the agent that sent the attribute.
    pub fn tie_breaker(&self) -> u64
        ensures { result ≡ self.now }
    {
        self.tie_breaker
    }
}

impl AttributeStaticType for IceControlling {
    ghost TYPE = { record { 0 = ice_controlling_kind } };

    const TYPE: AttributeType = registry::ICE_CONTROLLING;
}

impl Attribute for IceControlling {
    ghost use Rattle.byteorder.specs.Endian.{big_bytes};

    ghost kind = { λ _. ice_controlling_kind };

    ghost value = { big_bytes 8 };

    fn get_type(&self) -> AttributeType {
        IceControlling::TYPE
    }

    fn length(&self) -> u16 {
        8
    }
}

impl AttributeWrite for IceControlling {
    fn write_into_unchecked(&self, dest: &mut [u8]) {
        write_attribute(
            IceControlling::TYPE,
            &self.tie_breaker().to_be_bytes(),
            dest,
        );
    }

    fn to_raw(&self, alloc: Global) -> Result<RawAttribute<'_>, NoMemory> {
        let value = Vec::from_slice(alloc, &self.tie_breaker().to_be_bytes())?;
        Ok(RawAttribute::new_owned(IceControlling::TYPE, value.into_boxed_slice()))
    }
}

/// Decodes the eight bytes of the value as a big-endian number.
///
/// # Errors
///
/// 1. `WrongAttributeImplementation`: the attribute has another type.
/// 2. `Truncated`: the value has fewer than eight bytes.
/// 3. `TooLarge`: the value has more than eight bytes.
impl<'a, 'raw> TryFrom<&'raw RawAttribute<'a>> for IceControlling {
    ghost use Rattle.std.specs.Prelude.{◌≡◌, MatchResult, None};
    ghost use Rattle.stun_types_integrity.specs.Write.ValueReading.{IsNamed, value_refusal};
    ghost use Rattle.byteorder.specs.Endian.{big_number};

    type Error = StunParseError;

    ghost try_from_gives = { λ raw result. MatchResult result
        (λ read. (value_refusal ice_controlling_kind 8 8 raw.now ≡ None)
        × (read ≡ big_number 8 raw.now.value))
        (IsNamed (value_refusal ice_controlling_kind 8 8 raw.now)) };

    fn try_from(raw: &'raw RawAttribute<'a>) -> Result<IceControlling, StunParseError> {
        let tie_breaker = read_u64(raw, IceControlling::TYPE)?;
        Ok(IceControlling { tie_breaker })
    }
}

/// Fails as `try_from` does. It allocates no memory.
impl<'a> AttributeFromRaw<'a> for IceControlling {
    ghost use Rattle.std.specs.Prelude.{false};
    ghost use Rattle.stun_types_integrity.specs.Write.ValueReading.{value_refusal};

    ghost read_refusal = { value_refusal ice_controlling_kind 8 8 };

    ghost read_value = { λ value. value };

    ghost reading_takes_memory = { false };

    fn from_raw_ref(
        _alloc: Global,
        raw: &RawAttribute<'_>,
    ) -> Result<IceControlling, StunParseError> {
        let tie_breaker = read_u64(raw, IceControlling::TYPE)?;
        Ok(IceControlling { tie_breaker })
    }

    fn from_raw(alloc: Global, raw: RawAttribute<'a>) -> Result<IceControlling, StunParseError> {
        IceControlling::from_raw_ref(alloc, &raw)
    }

    #[tactic(auto, using(crate::proofs::Numbers::numbers_8))]
    fn proof_is_read_back(&self, read: &IceControlling) {
        let _ = (self.tie_breaker(), read.tie_breaker());
    }
}

/// Decodes the four bytes of an attribute of this type as a big-endian number.
///
/// # Errors
///
/// 1. `WrongAttributeImplementation`: the attribute has another type.
/// 2. `Truncated`: the value has fewer than four bytes.
/// 3. `TooLarge`: the value has more than four bytes.
fn read_u32(raw: &RawAttribute<'_>, atype: AttributeType) -> Result<u32, StunParseError>
    ensures { MatchResult result (λ number. (value_refusal atype.0 4 4 raw.now ≡ None)
        × (raw.now.kind ≡ atype.0) × (number ≡ big_number 4 raw.now.value)
        × (big_bytes 4 number ≡ raw.now.value)) (IsNamed (value_refusal atype.0 4 4 raw.now)) }
{
    let value = value_of(raw, atype, 4, 4)?;
    Ok(u32_of(value))
}

/// Returns the big-endian number in four bytes.
#[tactic(auto, using(crate::proofs::Numbers::bytes_again_4))]
fn u32_of(value: &[u8]) -> u32
    requires { length value.now ≡ 4 }
    ensures decoded { result ≡ big_number 4 value.now }
    ensures again { big_bytes 4 result ≡ value.now }
{
    BigEndian::read_u32(value)
}

/// Decodes the eight bytes of an attribute of this type as a big-endian number.
///
/// # Errors
///
/// 1. `WrongAttributeImplementation`: the attribute has another type.
/// 2. `Truncated`: the value has fewer than eight bytes.
/// 3. `TooLarge`: the value has more than eight bytes.
fn read_u64(raw: &RawAttribute<'_>, atype: AttributeType) -> Result<u64, StunParseError>
    ensures { MatchResult result (λ number. (value_refusal atype.0 8 8 raw.now ≡ None)
        × (raw.now.kind ≡ atype.0) × (number ≡ big_number 8 raw.now.value)
        × (big_bytes 8 number ≡ raw.now.value)) (IsNamed (value_refusal atype.0 8 8 raw.now)) }
{
    let value = value_of(raw, atype, 8, 8)?;
    Ok(u64_of(value))
}

/// Returns the big-endian number in eight bytes.
#[tactic(auto, using(crate::proofs::Numbers::bytes_again_8))]
fn u64_of(value: &[u8]) -> u64
    requires { length value.now ≡ 8 }
    ensures decoded { result ≡ big_number 8 value.now }
    ensures again { big_bytes 8 result ≡ value.now }
{
    BigEndian::read_u64(value)
}

//! DONT-FRAGMENT (RFC 8656, section 18.9).

ghost use Rattle.turn_types_attributes.specs.TurnRegistry.{dont_fragment_kind};

use crate::registry;
use crate::stun_types_base::memory::NoMemory;
use crate::stun_types_wire::attribute::{AttributeType, RawAttribute};
use crate::stun_types_wire::error::StunParseError;
use crate::stun_types_write::attribute::{
    Attribute, AttributeFromRaw, AttributeStaticType, AttributeWrite,
};
use crate::stun_types_write::reading::value_of;
use crate::stun_types_write::text::write_attribute;
use std::alloc::Global;
use std::convert::TryFrom;

/// Requests that the server set the DF bit in the IPv4 header of datagrams to a peer (RFC 8656,
/// section 18.9). It has no value.
#[derive(Debug, Drop)]
pub struct DontFragment {}

impl DontFragment {
    /// Creates the attribute.
    pub fn new() -> DontFragment {
        DontFragment {}
    }
}

impl AttributeStaticType for DontFragment {
    ghost TYPE = { record { 0 = dont_fragment_kind } };

    const TYPE: AttributeType = registry::DONT_FRAGMENT;
}

impl Attribute for DontFragment {
    ghost use Rattle.std.specs.Prelude.{[]};

    ghost kind = { λ _. dont_fragment_kind };

    ghost value = { λ _. [] };

    fn get_type(&self) -> AttributeType {
        DontFragment::TYPE
    }

    fn length(&self) -> u16 {
        0
    }
}

impl AttributeWrite for DontFragment {
    ghost use Rattle.std.specs.Prelude.{false};

    ghost giving_takes_memory = { false };

    fn write_into_unchecked(&self, dest: &mut [u8]) {
        write_attribute(DontFragment::TYPE, &[], dest);
    }

    fn to_raw(&self, _alloc: Global) -> Result<RawAttribute<'_>, NoMemory> {
        Ok(RawAttribute::new(DontFragment::TYPE, &[]))
    }
}

/// Decodes the attribute, which has no value.
///
/// # Errors
///
/// 1. `WrongAttributeImplementation`: the attribute has another type.
/// 2. `TooLarge`: the value is not empty.
impl<'a, 'raw> TryFrom<&'raw RawAttribute<'a>> for DontFragment {
    ghost use Rattle.std.specs.Prelude.{◌≡◌, MatchResult, None};
    ghost use Rattle.stun_types_integrity.specs.Write.ValueReading.{IsNamed, value_refusal};

    type Error = StunParseError;

    ghost try_from_gives = { λ raw result. MatchResult result
        (λ _. value_refusal dont_fragment_kind 0 0 raw.now ≡ None)
        (IsNamed (value_refusal dont_fragment_kind 0 0 raw.now)) };

    fn try_from(raw: &'raw RawAttribute<'a>) -> Result<DontFragment, StunParseError> {
        value_of(raw, DontFragment::TYPE, 0, 0)?;
        Ok(DontFragment {})
    }
}

/// Fails as `try_from` does. It allocates no memory.
impl<'a> AttributeFromRaw<'a> for DontFragment {
    ghost use Rattle.std.specs.Prelude.{[], false};
    ghost use Rattle.stun_types_integrity.specs.Write.ValueReading.{value_refusal};

    ghost read_refusal = { value_refusal dont_fragment_kind 0 0 };

    ghost read_value = { λ _. [] };

    ghost reading_takes_memory = { false };

    fn from_raw_ref(
        _alloc: Global,
        raw: &RawAttribute<'_>,
    ) -> Result<DontFragment, StunParseError> {
        value_of(raw, DontFragment::TYPE, 0, 0)?;
        Ok(DontFragment {})
    }

    fn from_raw(alloc: Global, raw: RawAttribute<'a>) -> Result<DontFragment, StunParseError> {
        DontFragment::from_raw_ref(alloc, &raw)
    }

    #[tactic(auto, using(crate::proofs::Below::value_is_accepted))]
    fn proof_is_read_back(&self, _read: &DontFragment) {}
}

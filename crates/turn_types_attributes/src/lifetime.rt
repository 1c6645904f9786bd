//! LIFETIME (RFC 8656, section 18.2).

ghost use Rattle.std.specs.Prelude.{◌≡◌};
ghost use Rattle.turn_types_attributes.specs.TurnRegistry.{lifetime_kind};

use crate::number::read_number;
use crate::registry;
use crate::stun_types_base::memory::NoMemory;
use crate::stun_types_wire::attribute::{AttributeType, RawAttribute};
use crate::stun_types_wire::error::StunParseError;
use crate::stun_types_write::attribute::{
    Attribute, AttributeFromRaw, AttributeStaticType, AttributeWrite,
};
use crate::stun_types_write::text::write_attribute;
use std::alloc::Global;
use std::convert::TryFrom;
use std::marker::Model;

/// The lifetime of an allocation in seconds, if it is not refreshed (RFC 8656, section 18.2). Any
/// 32-bit number is allowed. Contracts see the number.
#[derive(Debug, Drop)]
pub struct Lifetime {
    seconds: u32,
}

impl Model for Lifetime {
    ghost use Rattle.std.specs.Prelude.{ℕ};

    ghost Value = { ℕ };

    ghost view = { λ a. a.seconds };
}

impl Lifetime {
    /// Creates the LIFETIME of a number of seconds.
    pub fn new(seconds: u32) -> Lifetime
        ensures { result ≡ seconds }
    {
        Lifetime { seconds }
    }

    /// The number of seconds.
    pub fn seconds(&self) -> u32
        ensures { result ≡ self.now }
    {
        self.seconds
    }
}

impl AttributeStaticType for Lifetime {
    ghost TYPE = { record { 0 = lifetime_kind } };

    const TYPE: AttributeType = registry::LIFETIME;
}

impl Attribute for Lifetime {
    ghost use Rattle.byteorder.specs.Endian.{big_bytes};

    ghost kind = { λ _. lifetime_kind };

    ghost value = { big_bytes 4 };

    fn get_type(&self) -> AttributeType {
        Lifetime::TYPE
    }

    fn length(&self) -> u16 {
        4
    }
}

impl AttributeWrite for Lifetime {
    fn write_into_unchecked(&self, dest: &mut [u8]) {
        write_attribute(Lifetime::TYPE, &self.seconds().to_be_bytes(), dest);
    }

    fn to_raw(&self, alloc: Global) -> Result<RawAttribute<'_>, NoMemory> {
        let value = Vec::from_slice(alloc, &self.seconds().to_be_bytes())?;
        Ok(RawAttribute::new_owned(Lifetime::TYPE, value.into_boxed_slice()))
    }
}

/// Decodes the four bytes of the value as a big-endian number.
///
/// # Errors
///
/// 1. `WrongAttributeImplementation`: the attribute has another type.
/// 2. `Truncated`: the value has fewer than four bytes.
/// 3. `TooLarge`: the value has more than four bytes.
impl<'a, 'raw> TryFrom<&'raw RawAttribute<'a>> for Lifetime {
    ghost use Rattle.std.specs.Prelude.{◌≡◌, MatchResult, Some, None};
    ghost use Rattle.stun_types_integrity.specs.Write.ValueReading.{IsNamed, value_refusal};
    ghost use Rattle.byteorder.specs.Endian.{big_number};

    type Error = StunParseError;

    ghost try_from_gives = { λ raw result. MatchResult result
        (λ read. (value_refusal lifetime_kind 4 4 raw.now ≡ None) × (read
        ≡ big_number 4 raw.now.value))
        (IsNamed (value_refusal lifetime_kind 4 4 raw.now)) };

    fn try_from(raw: &'raw RawAttribute<'a>) -> Result<Lifetime, StunParseError> {
        let seconds = read_number(raw, Lifetime::TYPE)?;
        Ok(Lifetime { seconds })
    }
}

/// Fails as `try_from` does. It allocates no memory.
impl<'a> AttributeFromRaw<'a> for Lifetime {
    ghost use Rattle.std.specs.Prelude.{false};
    ghost use Rattle.stun_types_integrity.specs.Write.ValueReading.{value_refusal};

    ghost read_refusal = { value_refusal lifetime_kind 4 4 };

    ghost read_value = { λ value. value };

    ghost reading_takes_memory = { false };

    fn from_raw_ref(_alloc: Global, raw: &RawAttribute<'_>) -> Result<Lifetime, StunParseError> {
        let seconds = read_number(raw, Lifetime::TYPE)?;
        Ok(Lifetime { seconds })
    }

    fn from_raw(alloc: Global, raw: RawAttribute<'a>) -> Result<Lifetime, StunParseError> {
        Lifetime::from_raw_ref(alloc, &raw)
    }

    #[tactic(auto, using(crate::proofs::Numbers::numbers))]
    fn proof_is_read_back(&self, read: &Lifetime) {
        let _ = (self.seconds(), read.seconds());
    }
}

//! DATA (RFC 8656, section 18.4).

ghost use Rattle.std.specs.Prelude.{◌≡◌, ◌<◌, ◌^◌, length, IfOk, MatchResult, None};
ghost use Rattle.turn_types_attributes.specs.StunTypesWire.Registry.{longest_value};
ghost use Rattle.turn_types_attributes.specs.Write.ValueReading.{IsNamed, value_refusal};
ghost use Rattle.turn_types_attributes.specs.TurnRegistry.{data_kind};

use crate::stun_types_base::memory::NoMemory;
use crate::stun_types_wire::attribute::{AttributeType, RawAttribute};
use crate::stun_types_wire::error::StunParseError;
use crate::stun_types_wire::registry::MAX_VALUE_LENGTH;
use crate::stun_types_write::attribute::{
    Attribute, AttributeFromRaw, AttributeStaticType, AttributeWrite,
};
use crate::stun_types_write::reading::value_of;
use crate::stun_types_write::text::write_attribute;
use std::alloc::Global;
use std::marker::Model;
use turn_types_attributes::registry;

/// Data that a peer sends or that is sent to a peer (RFC 8656, section 18.4): at most 65,535 bytes,
/// which it owns. Use [`Data::bytes_of`] to read them from a message without a copy. Contracts see
/// the bytes.
#[derive(Debug, Drop)]
pub struct Data {
    raw: RawAttribute<'static>,
}

impl Model for Data {
    ghost use Rattle.std.specs.Prelude.{List, ℕ, ◌≡◌};
    ghost use Rattle.turn_types_attributes.specs.TurnRegistry.{data_kind};

    ghost Value = { List ℕ };

    ghost view = { λ a. a.raw.value };

    ghost invariant = { λ a. a.raw.kind ≡ data_kind };
}

impl Data {
    /// Creates the attribute with a copy of at most 65,535 bytes.
    ///
    /// # Errors
    ///
    /// - `NoMemory`: an allocation failed.
    pub fn new(alloc: Global, bytes: &[u8]) -> Result<Data, NoMemory>
        requires { length bytes.now < 2 ^ 16 }
        ensures { IfOk result (λ made. made ≡ bytes.now) }
    {
        let raw = RawAttribute::new(registry::DATA_ATTRIBUTE, bytes);
        Ok(Data {
            raw: raw.into_owned(alloc)?,
        })
    }

    /// The bytes.
    pub fn data(&self) -> &[u8]
        ensures value { result.now ≡ self.now }
        ensures short { length result.now < 2 ^ 16 }
    {
        self.raw.value()
    }

    /// Returns the bytes of a DATA attribute without copying them.
    ///
    /// # Errors
    ///
    /// - `WrongAttributeImplementation`: the attribute has another type.
    pub fn bytes_of<'raw>(raw: &'raw RawAttribute<'_>) -> Result<&'raw [u8], StunParseError>
        ensures { MatchResult result
            (λ bytes. (value_refusal data_kind 0 longest_value raw.now ≡ None)
            × (raw.now.kind ≡ data_kind) × (bytes.now ≡ raw.now.value)
            × (length bytes.now < 2 ^ 16))
            (IsNamed (value_refusal data_kind 0 longest_value raw.now)) }
    {
        value_of(raw, registry::DATA_ATTRIBUTE, 0, MAX_VALUE_LENGTH)
    }
}

impl AttributeStaticType for Data {
    ghost TYPE = { record { 0 = data_kind } };

    const TYPE: AttributeType = registry::DATA_ATTRIBUTE;
}

impl Attribute for Data {
    ghost kind = { λ _. data_kind };

    ghost value = { λ a. a };

    fn get_type(&self) -> AttributeType {
        Data::TYPE
    }

    fn length(&self) -> u16 {
        self.raw.length()
    }
}

impl AttributeWrite for Data {
    ghost use Rattle.std.specs.Prelude.{false};

    ghost giving_takes_memory = { false };

    fn write_into_unchecked(&self, dest: &mut [u8]) {
        write_attribute(Data::TYPE, self.data(), dest);
    }

    fn to_raw(&self, _alloc: Global) -> Result<RawAttribute<'_>, NoMemory> {
        Ok(RawAttribute::new(Data::TYPE, self.data()))
    }
}

/// Decodes any bytes. `from_raw` keeps bytes that are already owned; bytes that are borrowed are
/// copied.
///
/// # Errors
///
/// 1. `WrongAttributeImplementation`: the attribute has another type.
/// 2. `NoMemory`: an allocation failed.
impl<'a> AttributeFromRaw<'a> for Data {
    ghost use Rattle.turn_types_attributes.specs.StunTypesWire.Registry.{longest_value};
    ghost use Rattle.turn_types_attributes.specs.Write.ValueReading.{value_refusal};

    ghost read_refusal = { value_refusal data_kind 0 longest_value };

    ghost read_value = { λ value. value };

    fn from_raw_ref(alloc: Global, raw: &RawAttribute<'_>) -> Result<Data, StunParseError> {
        let bytes = Data::bytes_of(raw)?;
        Ok(Data::new(alloc, bytes)?)
    }

    fn from_raw(alloc: Global, raw: RawAttribute<'a>) -> Result<Data, StunParseError> {
        Data::bytes_of(&raw)?;
        Ok(Data {
            raw: raw.into_owned(alloc)?,
        })
    }

    #[tactic(auto, using(crate::proofs::Below::value_is_accepted))]
    fn proof_is_read_back(&self, _read: &Data) {
        let _ = self.data();
    }
}

//! ALTERNATE-DOMAIN (RFC 8489, section 14.16).

ghost use Rattle.std.specs.Prelude.{◌≡◌, ◌≤◌, IfOk, None, length};
ghost use Rattle.stun_types_write.specs.Base.Refusals.{RefusesFor};
ghost use Rattle.stun_types_auth_attributes.specs.Texts.{text_refusal};
ghost use Rattle.stun_types_write.specs.Wire.Registry.{longest_domain, alternate_domain_kind};

use crate::stun_types_base::memory::NoMemory;
use crate::stun_types_wire::attribute::{AttributeType, RawAttribute};
use crate::stun_types_wire::error::{StunParseError, StunWriteError};
use crate::stun_types_wire::registry;
use std::alloc::Global;
use std::marker::Model;
use stun_types_write::attribute::{
    Attribute, AttributeFromRaw, AttributeStaticType, AttributeWrite,
};
use stun_types_write::reading::{proof_text_is_read, text_of};
use stun_types_write::text::write_attribute;

/// The domain of another server that the client should try: the name that its certificate must have
/// (RFC 8489, section 14.16). It has at most 255 bytes. Contracts see the bytes of the text.
#[derive(Debug, Drop)]
pub struct AlternateDomain {
    domain: String,
}

impl Model for AlternateDomain {
    ghost use Rattle.std.specs.Prelude.{List, ℕ, ◌≤◌, length};
    ghost use Rattle.std.specs.String.{string_bytes};
    ghost use Rattle.stun_types_write.specs.Wire.Registry.{longest_domain};

    ghost Value = { List ℕ };

    ghost view = { λ a. string_bytes a.domain };

    ghost invariant = { λ a. length (string_bytes a.domain) ≤ longest_domain };
}

impl AlternateDomain {
    /// The maximum length of the text in bytes.
    pub const MAX_LEN: usize = registry::MAX_DOMAIN_LENGTH;

    /// Makes an ALTERNATE-DOMAIN.
    ///
    /// # Errors
    ///
    /// - `TooLarge`: the text has more than 255 bytes.
    /// - `NoMemory`: an allocation failed.
    pub fn new(alloc: Global, domain: &str) -> Result<AlternateDomain, StunWriteError>
        ensures ok { IfOk result (λ made. (made ≡ domain.now)
            × (text_refusal longest_domain domain.now ≡ None)) }
        ensures cause { RefusesFor StunWriteError.NoMemory
            (text_refusal longest_domain domain.now) result }
    {
        if domain.len() > AlternateDomain::MAX_LEN {
            return Err(StunWriteError::TooLarge {
                expected: AlternateDomain::MAX_LEN,
                actual: domain.len(),
            });
        }
        Ok(AlternateDomain {
            domain: String::from_str(alloc, domain)?,
        })
    }

    /// Returns the text.
    pub fn domain(&self) -> &str
        ensures value { result.now ≡ self.now }
        ensures short { length result.now ≤ longest_domain }
    {
        self.domain.as_str()
    }
}

impl AttributeStaticType for AlternateDomain {
    ghost TYPE = { record { 0 = alternate_domain_kind } };

    const TYPE: AttributeType = registry::ALTERNATE_DOMAIN;
}

impl Attribute for AlternateDomain {
    ghost kind = { λ _. alternate_domain_kind };

    ghost value = { λ a. a };

    fn get_type(&self) -> AttributeType {
        AlternateDomain::TYPE
    }

    fn length(&self) -> u16 {
        self.domain().len() as u16
    }
}

impl AttributeWrite for AlternateDomain {
    ghost use Rattle.std.specs.Prelude.{false};

    ghost giving_takes_memory = { false };

    fn write_into_unchecked(&self, dest: &mut [u8]) {
        write_attribute(AlternateDomain::TYPE, self.domain().as_bytes(), dest);
    }

    fn to_raw(&self, _alloc: Global) -> Result<RawAttribute<'_>, NoMemory> {
        Ok(RawAttribute::new(AlternateDomain::TYPE, self.domain().as_bytes()))
    }
}

/// Decodes a text of at most 255 bytes.
///
/// # Errors
///
/// In this order:
///
/// - `WrongAttributeImplementation`: the type is another one.
/// - `TooLarge`: the value is longer.
/// - `InvalidAttributeData`: the value is not UTF-8.
/// - `NoMemory`: an allocation failed.
impl<'a> AttributeFromRaw<'a> for AlternateDomain {
    ghost use Rattle.stun_types_write.specs.ValueReading.{text_read_refusal};

    ghost read_refusal = { text_read_refusal alternate_domain_kind longest_domain };

    ghost read_value = { λ value. value };

    fn from_raw_ref(
        alloc: Global,
        raw: &RawAttribute<'_>,
    ) -> Result<AlternateDomain, StunParseError> {
        let text = text_of(raw, AlternateDomain::TYPE, AlternateDomain::MAX_LEN)?;
        Ok(AlternateDomain {
            domain: String::from_str(alloc, text)?,
        })
    }

    fn from_raw(alloc: Global, raw: RawAttribute<'a>) -> Result<AlternateDomain, StunParseError> {
        AlternateDomain::from_raw_ref(alloc, &raw)
    }

    fn proof_is_read_back(&self, _read: &AlternateDomain) {
        proof_text_is_read(self.domain(), AlternateDomain::MAX_LEN);
    }
}

//! REALM (RFC 8489, section 14.9).

ghost use Rattle.std.specs.Prelude.{◌≡◌, ◌≤◌, IfOk, None, length};
ghost use Rattle.stun_types_write.specs.Base.Refusals.{RefusesFor};
ghost use Rattle.stun_types_auth_attributes.specs.Texts.{text_refusal};
ghost use Rattle.stun_types_write.specs.Wire.Registry.{longest_text, realm_kind};

use crate::stun_types_base::memory::NoMemory;
use crate::stun_types_wire::attribute::{AttributeType, RawAttribute};
use crate::stun_types_wire::error::{StunParseError, StunWriteError};
use crate::stun_types_wire::registry;
use std::alloc::Global;
use std::marker::Model;
use stun_types_write::attribute::{
    Attribute, AttributeFromRaw, AttributeStaticType, AttributeWrite,
};
use stun_types_write::reading::{proof_text_is_read, text_of};
use stun_types_write::text::write_attribute;

/// The realm in which a user name and a password are valid. It has at most 763 bytes. Contracts see
/// the bytes of the text.
#[derive(Debug, Drop)]
pub struct Realm {
    realm: String,
}

impl Model for Realm {
    ghost use Rattle.std.specs.Prelude.{List, ℕ, ◌≤◌, length};
    ghost use Rattle.std.specs.String.{string_bytes};
    ghost use Rattle.stun_types_write.specs.Wire.Registry.{longest_text};

    ghost Value = { List ℕ };

    ghost view = { λ a. string_bytes a.realm };

    ghost invariant = { λ a. length (string_bytes a.realm) ≤ longest_text };
}

impl Realm {
    /// The maximum length of the text in bytes.
    pub const MAX_LEN: usize = registry::MAX_TEXT_LENGTH;

    /// Makes a REALM.
    ///
    /// # Errors
    ///
    /// - `TooLarge`: the text has more than 763 bytes.
    /// - `NoMemory`: an allocation failed.
    pub fn new(alloc: Global, realm: &str) -> Result<Realm, StunWriteError>
        ensures ok { IfOk result (λ made. (made ≡ realm.now)
            × (text_refusal longest_text realm.now ≡ None)) }
        ensures cause { RefusesFor StunWriteError.NoMemory
            (text_refusal longest_text realm.now) result }
    {
        if realm.len() > Realm::MAX_LEN {
            return Err(StunWriteError::TooLarge {
                expected: Realm::MAX_LEN,
                actual: realm.len(),
            });
        }
        Ok(Realm {
            realm: String::from_str(alloc, realm)?,
        })
    }

    /// Returns the text.
    pub fn realm(&self) -> &str
        ensures value { result.now ≡ self.now }
        ensures short { length result.now ≤ longest_text }
    {
        self.realm.as_str()
    }
}

impl AttributeStaticType for Realm {
    ghost TYPE = { record { 0 = realm_kind } };

    const TYPE: AttributeType = registry::REALM;
}

impl Attribute for Realm {
    ghost kind = { λ _. realm_kind };

    ghost value = { λ a. a };

    fn get_type(&self) -> AttributeType {
        Realm::TYPE
    }

    fn length(&self) -> u16 {
        self.realm().len() as u16
    }
}

impl AttributeWrite for Realm {
    ghost use Rattle.std.specs.Prelude.{false};

    ghost giving_takes_memory = { false };

    fn write_into_unchecked(&self, dest: &mut [u8]) {
        write_attribute(Realm::TYPE, self.realm().as_bytes(), dest);
    }

    fn to_raw(&self, _alloc: Global) -> Result<RawAttribute<'_>, NoMemory> {
        Ok(RawAttribute::new(Realm::TYPE, self.realm().as_bytes()))
    }
}

/// Decodes a text of at most 763 bytes.
///
/// # Errors
///
/// In this order:
///
/// - `WrongAttributeImplementation`: the type is another one.
/// - `TooLarge`: the value is longer.
/// - `InvalidAttributeData`: the value is not UTF-8.
/// - `NoMemory`: an allocation failed.
impl<'a> AttributeFromRaw<'a> for Realm {
    ghost use Rattle.stun_types_write.specs.ValueReading.{text_read_refusal};

    ghost read_refusal = { text_read_refusal realm_kind longest_text };

    ghost read_value = { λ value. value };

    fn from_raw_ref(alloc: Global, raw: &RawAttribute<'_>) -> Result<Realm, StunParseError> {
        let text = text_of(raw, Realm::TYPE, Realm::MAX_LEN)?;
        Ok(Realm {
            realm: String::from_str(alloc, text)?,
        })
    }

    fn from_raw(alloc: Global, raw: RawAttribute<'a>) -> Result<Realm, StunParseError> {
        Realm::from_raw_ref(alloc, &raw)
    }

    fn proof_is_read_back(&self, _read: &Realm) {
        proof_text_is_read(self.realm(), Realm::MAX_LEN);
    }
}

//! USERNAME (RFC 8489, section 14.3).

ghost use Rattle.std.specs.Prelude.{◌≡◌, ◌≤◌, IfOk, None, length};
ghost use Rattle.stun_types_write.specs.Base.Refusals.{RefusesFor};
ghost use Rattle.stun_types_auth_attributes.specs.Texts.{text_refusal};
ghost use Rattle.stun_types_write.specs.Wire.Registry.{longest_username, username_kind};

use crate::stun_types_base::memory::NoMemory;
use crate::stun_types_wire::attribute::{AttributeType, RawAttribute};
use crate::stun_types_wire::error::{StunParseError, StunWriteError};
use crate::stun_types_wire::registry;
use std::alloc::Global;
use std::marker::Model;
use stun_types_write::attribute::{
    Attribute, AttributeFromRaw, AttributeStaticType, AttributeWrite,
};
use stun_types_write::reading::{proof_text_is_read, text_of};
use stun_types_write::text::write_attribute;

/// The name of a user. It has at most 513 bytes. Contracts see the bytes of the text.
#[derive(Debug, Drop)]
pub struct Username {
    username: String,
}

impl Model for Username {
    ghost use Rattle.std.specs.Prelude.{List, ℕ, ◌≤◌, length};
    ghost use Rattle.std.specs.String.{string_bytes};
    ghost use Rattle.stun_types_write.specs.Wire.Registry.{longest_username};

    ghost Value = { List ℕ };

    ghost view = { λ a. string_bytes a.username };

    ghost invariant = { λ a. length (string_bytes a.username) ≤ longest_username };
}

impl Username {
    /// The maximum length of the text in bytes.
    pub const MAX_LEN: usize = registry::MAX_USERNAME_LENGTH;

    /// Makes a USERNAME.
    ///
    /// # Errors
    ///
    /// - `TooLarge`: the text has more than 513 bytes.
    /// - `NoMemory`: an allocation failed.
    pub fn new(alloc: Global, username: &str) -> Result<Username, StunWriteError>
        ensures ok { IfOk result (λ made. (made ≡ username.now)
            × (text_refusal longest_username username.now ≡ None)) }
        ensures cause { RefusesFor StunWriteError.NoMemory
            (text_refusal longest_username username.now) result }
    {
        if username.len() > Username::MAX_LEN {
            return Err(StunWriteError::TooLarge {
                expected: Username::MAX_LEN,
                actual: username.len(),
            });
        }
        Ok(Username {
            username: String::from_str(alloc, username)?,
        })
    }

    /// Returns the text.
    pub fn username(&self) -> &str
        ensures value { result.now ≡ self.now }
        ensures short { length result.now ≤ longest_username }
    {
        self.username.as_str()
    }
}

impl AttributeStaticType for Username {
    ghost TYPE = { record { 0 = username_kind } };

    const TYPE: AttributeType = registry::USERNAME;
}

impl Attribute for Username {
    ghost kind = { λ _. username_kind };

    ghost value = { λ a. a };

    fn get_type(&self) -> AttributeType {
        Username::TYPE
    }

    fn length(&self) -> u16 {
        self.username().len() as u16
    }
}

impl AttributeWrite for Username {
    ghost use Rattle.std.specs.Prelude.{false};

    ghost giving_takes_memory = { false };

    fn write_into_unchecked(&self, dest: &mut [u8]) {
        write_attribute(Username::TYPE, self.username().as_bytes(), dest);
    }

    fn to_raw(&self, _alloc: Global) -> Result<RawAttribute<'_>, NoMemory> {
        Ok(RawAttribute::new(Username::TYPE, self.username().as_bytes()))
    }
}

/// Decodes a text of at most 513 bytes.
///
/// # Errors
///
/// In this order:
///
/// - `WrongAttributeImplementation`: the type is another one.
/// - `TooLarge`: the value is longer.
/// - `InvalidAttributeData`: the value is not UTF-8.
/// - `NoMemory`: an allocation failed.
impl<'a> AttributeFromRaw<'a> for Username {
    ghost use Rattle.stun_types_write.specs.ValueReading.{text_read_refusal};

    ghost read_refusal = { text_read_refusal username_kind longest_username };

    ghost read_value = { λ value. value };

    fn from_raw_ref(alloc: Global, raw: &RawAttribute<'_>) -> Result<Username, StunParseError> {
        let text = text_of(raw, Username::TYPE, Username::MAX_LEN)?;
        Ok(Username {
            username: String::from_str(alloc, text)?,
        })
    }

    fn from_raw(alloc: Global, raw: RawAttribute<'a>) -> Result<Username, StunParseError> {
        Username::from_raw_ref(alloc, &raw)
    }

    fn proof_is_read_back(&self, _read: &Username) {
        proof_text_is_read(self.username(), Username::MAX_LEN);
    }
}

//! NONCE (RFC 8489, section 14.10).

ghost use Rattle.std.specs.Prelude.{◌≡◌, ◌≤◌, IfOk, None, length};
ghost use Rattle.stun_types_write.specs.Base.Refusals.{RefusesFor};
ghost use Rattle.stun_types_auth_attributes.specs.Texts.{text_refusal};
ghost use Rattle.stun_types_write.specs.Wire.Registry.{longest_text, nonce_kind};

use crate::stun_types_base::memory::NoMemory;
use crate::stun_types_wire::attribute::{AttributeType, RawAttribute};
use crate::stun_types_wire::error::{StunParseError, StunWriteError};
use crate::stun_types_wire::registry;
use std::alloc::Global;
use std::marker::Model;
use stun_types_write::attribute::{
    Attribute, AttributeFromRaw, AttributeStaticType, AttributeWrite,
};
use stun_types_write::reading::{proof_text_is_read, text_of};
use stun_types_write::text::write_attribute;

/// The nonce of a challenge, which the client repeats in its requests. It has at most 763 bytes.
/// Contracts see the bytes of the text.
#[derive(Debug, Drop)]
pub struct Nonce {
    nonce: String,
}

impl Model for Nonce {
    ghost use Rattle.std.specs.Prelude.{List, ℕ, ◌≤◌, length};
    ghost use Rattle.std.specs.String.{string_bytes};
    ghost use Rattle.stun_types_write.specs.Wire.Registry.{longest_text};

    ghost Value = { List ℕ };

    ghost view = { λ a. string_bytes a.nonce };

    ghost invariant = { λ a. length (string_bytes a.nonce) ≤ longest_text };
}

impl Nonce {
    /// The maximum length of the text in bytes.
    pub const MAX_LEN: usize = registry::MAX_TEXT_LENGTH;

    /// Makes a NONCE.
    ///
    /// # Errors
    ///
    /// - `TooLarge`: the text has more than 763 bytes.
    /// - `NoMemory`: an allocation failed.
    pub fn new(alloc: Global, nonce: &str) -> Result<Nonce, StunWriteError>
        ensures ok { IfOk result (λ made. (made ≡ nonce.now)
            × (text_refusal longest_text nonce.now ≡ None)) }
        ensures cause { RefusesFor StunWriteError.NoMemory
            (text_refusal longest_text nonce.now) result }
    {
        if nonce.len() > Nonce::MAX_LEN {
            return Err(StunWriteError::TooLarge {
                expected: Nonce::MAX_LEN,
                actual: nonce.len(),
            });
        }
        Ok(Nonce {
            nonce: String::from_str(alloc, nonce)?,
        })
    }

    /// Returns the text.
    pub fn nonce(&self) -> &str
        ensures value { result.now ≡ self.now }
        ensures short { length result.now ≤ longest_text }
    {
        self.nonce.as_str()
    }
}

impl AttributeStaticType for Nonce {
    ghost TYPE = { record { 0 = nonce_kind } };

    const TYPE: AttributeType = registry::NONCE;
}

impl Attribute for Nonce {
    ghost kind = { λ _. nonce_kind };

    ghost value = { λ a. a };

    fn get_type(&self) -> AttributeType {
        Nonce::TYPE
    }

    fn length(&self) -> u16 {
        self.nonce().len() as u16
    }
}

impl AttributeWrite for Nonce {
    ghost use Rattle.std.specs.Prelude.{false};

    ghost giving_takes_memory = { false };

    fn write_into_unchecked(&self, dest: &mut [u8]) {
        write_attribute(Nonce::TYPE, self.nonce().as_bytes(), dest);
    }

    fn to_raw(&self, _alloc: Global) -> Result<RawAttribute<'_>, NoMemory> {
        Ok(RawAttribute::new(Nonce::TYPE, self.nonce().as_bytes()))
    }
}

/// Decodes a text of at most 763 bytes.
///
/// # Errors
///
/// In this order:
///
/// - `WrongAttributeImplementation`: the type is another one.
/// - `TooLarge`: the value is longer.
/// - `InvalidAttributeData`: the value is not UTF-8.
/// - `NoMemory`: an allocation failed.
impl<'a> AttributeFromRaw<'a> for Nonce {
    ghost use Rattle.stun_types_write.specs.ValueReading.{text_read_refusal};

    ghost read_refusal = { text_read_refusal nonce_kind longest_text };

    ghost read_value = { λ value. value };

    fn from_raw_ref(alloc: Global, raw: &RawAttribute<'_>) -> Result<Nonce, StunParseError> {
        let text = text_of(raw, Nonce::TYPE, Nonce::MAX_LEN)?;
        Ok(Nonce {
            nonce: String::from_str(alloc, text)?,
        })
    }

    fn from_raw(alloc: Global, raw: RawAttribute<'a>) -> Result<Nonce, StunParseError> {
        Nonce::from_raw_ref(alloc, &raw)
    }

    fn proof_is_read_back(&self, _read: &Nonce) {
        proof_text_is_read(self.nonce(), Nonce::MAX_LEN);
    }
}

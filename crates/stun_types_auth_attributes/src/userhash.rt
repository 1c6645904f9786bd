//! USERHASH (RFC 8489, section 14.4).

ghost use Rattle.std.specs.Prelude.{◌≡◌, length, None, MatchResult};
ghost use Rattle.stun_types_write.specs.ValueReading.{IsNamed};
ghost use Rattle.stun_types_write.specs.ValueReading.{value_refusal};
ghost use Rattle.stun_types_auth_attributes.specs.Userhashes.{userhash_of};
ghost use Rattle.stun_types_write.specs.Wire.Registry.{userhash_length, userhash_kind};

use crate::stun_types_base::memory::NoMemory;
use crate::stun_types_wire::attribute::{AttributeType, RawAttribute};
use crate::stun_types_wire::error::StunParseError;
use crate::stun_types_wire::registry;
use sha2::{Digest, Sha256};
use std::alloc::Global;
use std::convert::TryFrom;
use std::marker::Model;
use stun_types_write::attribute::{
    Attribute, AttributeFromRaw, AttributeStaticType, AttributeWrite,
};
use stun_types_write::reading::value_of;
use stun_types_write::text::write_attribute;

/// A hash of a user's name and realm, which identifies the user to the server and to nobody else
/// (RFC 8489, section 14.4). Contracts see its 32 bytes.
#[derive(Debug, Drop)]
pub struct Userhash {
    hash: [u8; 32],
}

impl Model for Userhash {
    ghost use Rattle.std.specs.Prelude.{◌≡◌, ℕ, List, length};
    ghost use Rattle.stun_types_write.specs.Wire.Registry.{userhash_length};

    ghost Value = { List ℕ };

    ghost view = { λ a. a.hash };

    ghost invariant = { λ a. length a.hash ≡ userhash_length };
}

impl Userhash {
    /// Makes a USERHASH of a hash.
    pub fn new(hash: [u8; 32]) -> Userhash
        ensures { result ≡ hash }
    {
        Userhash { hash }
    }

    /// Returns the hash.
    pub fn hash(&self) -> &[u8; 32]
        ensures value { result.now ≡ self.now }
        ensures length { length result.now ≡ userhash_length }
    {
        &self.hash
    }

    /// Computes the hash of a user's name in a realm: the SHA-256 of the name, a colon and the
    /// realm, with both texts taken unchanged.
    pub fn compute(username: &str, realm: &str) -> [u8; 32]
        ensures { result ≡ userhash_of username.now realm.now }
    {
        let mut hasher = Sha256::new();
        hasher.update(username.as_bytes());
        hasher.update(b":");
        hasher.update(realm.as_bytes());
        hasher.finalize()
    }
}

impl AttributeStaticType for Userhash {
    ghost TYPE = { record { 0 = userhash_kind } };

    const TYPE: AttributeType = registry::USERHASH;
}

impl Attribute for Userhash {
    ghost kind = { λ _. userhash_kind };

    ghost value = { λ a. a };

    fn get_type(&self) -> AttributeType {
        Userhash::TYPE
    }

    fn length(&self) -> u16 {
        self.hash().len() as u16
    }
}

impl AttributeWrite for Userhash {
    ghost use Rattle.std.specs.Prelude.{false};

    ghost giving_takes_memory = { false };

    fn write_into_unchecked(&self, dest: &mut [u8]) {
        write_attribute(Userhash::TYPE, self.hash(), dest);
    }

    fn to_raw(&self, _alloc: Global) -> Result<RawAttribute<'_>, NoMemory> {
        Ok(RawAttribute::new(Userhash::TYPE, self.hash()))
    }
}

/// Decodes the 32 bytes of a hash.
///
/// # Errors
///
/// In this order:
///
/// - `WrongAttributeImplementation`: the type is another one.
/// - `Truncated`: the value is shorter.
/// - `TooLarge`: the value is longer.
impl<'a, 'raw> TryFrom<&'raw RawAttribute<'a>> for Userhash {
    ghost use Rattle.std.specs.Prelude.{◌≡◌, MatchResult, Some, None};
    ghost use Rattle.stun_types_write.specs.ValueReading.{IsNamed};
    ghost use Rattle.stun_types_write.specs.ValueReading.{value_refusal};

    type Error = StunParseError;

    ghost try_from_gives = { λ raw result. MatchResult result
        (λ read. (value_refusal userhash_kind userhash_length userhash_length raw.now ≡ None)
        × (raw.now.kind ≡ userhash_kind) × (read ≡ raw.now.value))
        (IsNamed (value_refusal userhash_kind userhash_length userhash_length raw.now)) };

    fn try_from(raw: &'raw RawAttribute<'a>) -> Result<Userhash, StunParseError> {
        let value = value_of(
            raw,
            Userhash::TYPE,
            registry::USERHASH_LENGTH,
            registry::USERHASH_LENGTH,
        )?;
        let mut hash = [0; 32];
        hash.copy_from_slice(value);
        Ok(Userhash { hash })
    }
}

/// Decodes the attribute as `try_from` does, with the same errors. It allocates nothing.
impl<'a> AttributeFromRaw<'a> for Userhash {
    ghost use Rattle.std.specs.Prelude.{false};
    ghost use Rattle.stun_types_write.specs.ValueReading.{value_refusal};

    ghost read_refusal = { value_refusal userhash_kind userhash_length userhash_length };

    ghost read_value = { λ value. value };

    ghost reading_takes_memory = { false };

    fn from_raw_ref(_alloc: Global, raw: &RawAttribute<'_>) -> Result<Userhash, StunParseError> {
        Userhash::try_from(raw)
    }

    fn from_raw(alloc: Global, raw: RawAttribute<'a>) -> Result<Userhash, StunParseError> {
        Userhash::from_raw_ref(alloc, &raw)
    }

    #[tactic(auto, using(stun_types_write::proofs::Values::value_is_accepted))]
    fn proof_is_read_back(&self, _read: &Userhash) {
        let _ = self.hash();
    }
}

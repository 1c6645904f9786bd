//! RESERVATION-TOKEN (RFC 8656, section 18.10).

ghost use Rattle.std.specs.Prelude.{◌≡◌, length, None, MatchResult};
ghost use Rattle.stun_types_integrity.specs.Write.ValueReading.{IsNamed, value_refusal};
ghost use Rattle.turn_types_attributes.specs.TurnRegistry.{reservation_token_kind};
ghost use Rattle.turn_types_attributes.specs.TurnRegistry.{reservation_token_length};

use crate::registry;
use crate::stun_types_base::memory::NoMemory;
use crate::stun_types_wire::attribute::{AttributeType, RawAttribute};
use crate::stun_types_wire::error::StunParseError;
use crate::stun_types_write::attribute::{
    Attribute, AttributeFromRaw, AttributeStaticType, AttributeWrite,
};
use crate::stun_types_write::reading::value_of;
use crate::stun_types_write::text::write_attribute;
use std::alloc::Global;
use std::convert::TryFrom;
use std::marker::Model;

/// The token of a port that a server has reserved: a server sends it in the response to an
/// EVEN-PORT that requests a reservation, and a client in the request that takes the port (RFC
/// 8656, section 18.10). Contracts see its eight bytes.
#[derive(Debug, Drop)]
pub struct ReservationToken {
    token: [u8; 8],
}

impl Model for ReservationToken {
    ghost use Rattle.std.specs.Prelude.{◌≡◌, ℕ, List, length};
    ghost use Rattle.turn_types_attributes.specs.TurnRegistry.{reservation_token_length};

    ghost Value = { List ℕ };

    ghost view = { λ a. a.token };

    ghost invariant = { λ a. length a.token ≡ reservation_token_length };
}

impl ReservationToken {
    /// Creates the attribute for a token. Only the server that sent the token knows what it means.
    pub fn new(token: [u8; 8]) -> ReservationToken
        ensures { result ≡ token }
    {
        ReservationToken { token }
    }

    /// Returns the token.
    pub fn token(&self) -> &[u8; 8]
        ensures value { result.now ≡ self.now }
        ensures length { length result.now ≡ reservation_token_length }
    {
        &self.token
    }
}

impl AttributeStaticType for ReservationToken {
    ghost TYPE = { record { 0 = reservation_token_kind } };

    const TYPE: AttributeType = registry::RESERVATION_TOKEN;
}

impl Attribute for ReservationToken {
    ghost kind = { λ _. reservation_token_kind };

    ghost value = { λ a. a };

    fn get_type(&self) -> AttributeType {
        ReservationToken::TYPE
    }

    fn length(&self) -> u16 {
        self.token().len() as u16
    }
}

impl AttributeWrite for ReservationToken {
    ghost use Rattle.std.specs.Prelude.{false};

    ghost giving_takes_memory = { false };

    fn write_into_unchecked(&self, dest: &mut [u8]) {
        write_attribute(ReservationToken::TYPE, self.token(), dest);
    }

    fn to_raw(&self, _alloc: Global) -> Result<RawAttribute<'_>, NoMemory> {
        Ok(RawAttribute::new(ReservationToken::TYPE, self.token()))
    }
}

/// Decodes the eight bytes of a token.
///
/// # Errors
///
/// 1. `WrongAttributeImplementation`: the attribute has another type.
/// 2. `Truncated`: the value has fewer than eight bytes.
/// 3. `TooLarge`: the value has more than eight bytes.
impl<'a, 'raw> TryFrom<&'raw RawAttribute<'a>> for ReservationToken {
    ghost use Rattle.std.specs.Prelude.{◌≡◌, MatchResult, Some, None};
    ghost use Rattle.stun_types_integrity.specs.Write.ValueReading.{IsNamed, value_refusal};

    type Error = StunParseError;

    ghost try_from_gives = { λ raw result. MatchResult result
        (λ read. (value_refusal reservation_token_kind reservation_token_length
        reservation_token_length raw.now ≡ None)
        × (raw.now.kind ≡ reservation_token_kind) × (read ≡ raw.now.value))
        (IsNamed (value_refusal reservation_token_kind reservation_token_length
        reservation_token_length raw.now)) };

    fn try_from(raw: &'raw RawAttribute<'a>) -> Result<ReservationToken, StunParseError> {
        let value = value_of(
            raw,
            ReservationToken::TYPE,
            registry::RESERVATION_TOKEN_LENGTH,
            registry::RESERVATION_TOKEN_LENGTH,
        )?;
        let mut token = [0; 8];
        token.copy_from_slice(value);
        Ok(ReservationToken { token })
    }
}

/// Fails as `try_from` does. It allocates no memory.
impl<'a> AttributeFromRaw<'a> for ReservationToken {
    ghost use Rattle.std.specs.Prelude.{false};
    ghost use Rattle.stun_types_integrity.specs.Write.ValueReading.{value_refusal};

    ghost read_refusal = { value_refusal reservation_token_kind reservation_token_length
        reservation_token_length };

    ghost read_value = { λ value. value };

    ghost reading_takes_memory = { false };

    fn from_raw_ref(
        _alloc: Global,
        raw: &RawAttribute<'_>,
    ) -> Result<ReservationToken, StunParseError> {
        ReservationToken::try_from(raw)
    }

    fn from_raw(alloc: Global, raw: RawAttribute<'a>) -> Result<ReservationToken, StunParseError> {
        ReservationToken::from_raw_ref(alloc, &raw)
    }

    #[tactic(auto, using(crate::proofs::Below::value_is_accepted))]
    fn proof_is_read_back(&self, _read: &ReservationToken) {
        let _ = self.token();
    }
}

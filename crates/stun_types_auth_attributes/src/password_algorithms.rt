//! PASSWORD-ALGORITHMS (RFC 8489, section 14.11).

ghost use Rattle.std.specs.Prelude.{◌≡◌, ◌+◌, ◌*◌, ◌%◌, ◌≤◌, ◌++◌, IfOk, IfErr, MatchResult, None};
ghost use Rattle.std.specs.Prelude.{Some, drop, length, map, take, true};
ghost use Rattle.stun_types_write.specs.Base.Refusals.{RefusesFor};
ghost use Rattle.stun_types_write.specs.ValueReading.{IsNamed};
ghost use Rattle.std.specs.List.{list_all};
ghost use Rattle.stun_types_auth_attributes.specs.PasswordAlgorithmNumbers.{is_known, number_of};
ghost use Rattle.stun_types_auth_attributes.specs.Entries.{algorithms_read_refusal};
ghost use Rattle.stun_types_auth_attributes.specs.Entries.{algorithms_value, count_refusal};
ghost use Rattle.stun_types_auth_attributes.specs.Entries.{numbers_decoded};
ghost use Rattle.stun_types_write.specs.Wire.Registry.{most_algorithms, password_algorithms_kind};

use crate::algorithm::PasswordAlgorithmValue;
use crate::stun_types_base::memory::NoMemory;
use crate::stun_types_wire::attribute::{AttributeType, RawAttribute};
use crate::stun_types_wire::error::{StunParseError, StunWriteError};
use crate::stun_types_wire::registry;
use std::alloc::Global;
use std::marker::Model;
use stun_types_write::attribute::{
    Attribute, AttributeFromRaw, AttributeStaticType, AttributeWrite,
};
use stun_types_write::reading::value_of;
use stun_types_write::text::write_attribute;

/// The password algorithms that a server supports, at most eight, in its order of preference (RFC
/// 8489, section 14.11). Contracts see the list.
///
/// An empty list can be made and encoded, but decoding rejects it.
#[derive(Debug, Drop)]
pub struct PasswordAlgorithms {
    algorithms: Vec<PasswordAlgorithmValue>,
}

impl Model for PasswordAlgorithms {
    ghost use Rattle.std.specs.Prelude.{◌≤◌, List, length};
    ghost use Rattle.stun_types_auth_attributes.specs.declared.algorithm.PasswordAlgorithmValue.{PasswordAlgorithmValue};
    ghost use Rattle.stun_types_write.specs.Wire.Registry.{most_algorithms};

    ghost Value = { List PasswordAlgorithmValue };

    ghost view = { λ a. a.algorithms.items };

    ghost invariant = { λ a. length a.algorithms.items ≤ most_algorithms };
}

impl PasswordAlgorithms {
    /// The maximum number of algorithms.
    pub const MAX_COUNT: usize = registry::MAX_PASSWORD_ALGORITHMS;
    /// The maximum length of the value in bytes.
    pub const MAX_LEN: usize = 4 * registry::MAX_PASSWORD_ALGORITHMS;

    /// Makes a PASSWORD-ALGORITHMS of these algorithms, in their order. Duplicates are kept.
    ///
    /// # Errors
    ///
    /// - `TooLarge`: there are more than eight algorithms. `actual` is the length that the value
    ///   would have, four bytes for each algorithm, or the greatest `usize` if that is less.
    /// - `NoMemory`: an allocation failed.
    pub fn new(
        alloc: Global,
        algorithms: &[PasswordAlgorithmValue],
    ) -> Result<PasswordAlgorithms, StunWriteError>
        ensures ok { IfOk result (λ made. (made ≡ algorithms.now)
            × (count_refusal (length algorithms.now) ≡ None)) }
        ensures cause { RefusesFor StunWriteError.NoMemory
            (count_refusal (length algorithms.now)) result }
    {
        if algorithms.len() > PasswordAlgorithms::MAX_COUNT {
            return Err(StunWriteError::TooLarge {
                expected: PasswordAlgorithms::MAX_LEN,
                actual: algorithms.len().saturating_mul(4),
            });
        }
        Ok(PasswordAlgorithms {
            algorithms: Vec::from_slice(alloc, algorithms)?,
        })
    }

    /// Returns the algorithms.
    pub fn algorithms(&self) -> &[PasswordAlgorithmValue]
        ensures value { result.now ≡ self.now }
        ensures short { length result.now ≤ most_algorithms }
    {
        self.algorithms.as_slice()
    }

    /// Returns the length of the value in bytes: four for each algorithm.
    #[tactic(auto, using(crate::proofs::Lists::value_length))]
    fn value_len(&self) -> usize
        ensures count { result ≡ 4 * length self.now }
        ensures value { length (algorithms_value self.now) ≡ result }
        ensures short { result ≤ 4 * most_algorithms }
    {
        4 * self.algorithms().len()
    }

    /// Returns a buffer of the maximum length that begins with the value.
    #[tactic(auto, using(crate::proofs::Lists::value_length))]
    fn value(&self) -> [u8; 32]
        ensures { take (4 * length self.now) result ≡ algorithms_value self.now }
    {
        let mut bytes = [0; 32];
        write_entries(self.algorithms(), &mut bytes);
        bytes
    }
}

/// Encodes the algorithms in the first bytes of `dest`, which must have room for them.
#[tactic(auto, using(crate::proofs::Lists::written), unfolding(crate::specs::Entries::entries))]
fn write_entries(algorithms: &[PasswordAlgorithmValue], dest: &mut [u8])
    requires { 4 * length algorithms.now ≤ length dest.old }
    ensures { dest.new ≡ algorithms_value algorithms.now
        ++ drop (4 * length algorithms.now) dest.old }
{
    if let Some((first, rest)) = algorithms.split_first() {
        let (entry, following) = dest.split_at_mut(4);
        entry.copy_from_slice(&first.to_bytes());
        write_entries(rest, following);
    }
}

impl AttributeStaticType for PasswordAlgorithms {
    ghost TYPE = { record { 0 = password_algorithms_kind } };

    const TYPE: AttributeType = registry::PASSWORD_ALGORITHMS;
}

impl Attribute for PasswordAlgorithms {
    ghost use Rattle.stun_types_auth_attributes.specs.Entries.{algorithms_value};

    ghost kind = { λ _. password_algorithms_kind };

    ghost value = { algorithms_value };

    fn get_type(&self) -> AttributeType {
        PasswordAlgorithms::TYPE
    }

    fn length(&self) -> u16 {
        self.value_len() as u16
    }
}

impl AttributeWrite for PasswordAlgorithms {
    fn write_into_unchecked(&self, dest: &mut [u8]) {
        write_attribute(
            PasswordAlgorithms::TYPE,
            &self.value()[..self.value_len()],
            dest,
        );
    }

    fn to_raw(&self, alloc: Global) -> Result<RawAttribute<'_>, NoMemory> {
        let value = Vec::from_slice(alloc, &self.value()[..self.value_len()])?;
        Ok(RawAttribute::new_owned(PasswordAlgorithms::TYPE, value.into_boxed_slice()))
    }
}

/// Decodes one to eight algorithms of four bytes each. The last two bytes of each, the length of
/// the parameters, are ignored.
///
/// # Errors
///
/// In this order:
///
/// - `WrongAttributeImplementation`: the type is another one.
/// - `Truncated`: the value has fewer than four bytes.
/// - `TooLarge`: the value has more than 32 bytes.
/// - `InvalidAttributeData`: the length of the value is not a multiple of four, or no algorithm has
///   one of the numbers.
/// - `NoMemory`: an allocation failed.
impl<'a> AttributeFromRaw<'a> for PasswordAlgorithms {
    ghost use Rattle.stun_types_auth_attributes.specs.Entries.{algorithms_read_refusal, entries};
    ghost use Rattle.stun_types_auth_attributes.specs.Entries.{none_decoded_refusal};
    ghost use Rattle.stun_types_auth_attributes.specs.Entries.{numbers_decoded};

    ghost read_refusal = { algorithms_read_refusal };

    ghost read_value = { λ value. entries (numbers_decoded value) };

    ghost written_refusal = { none_decoded_refusal };

    fn from_raw_ref(
        alloc: Global,
        raw: &RawAttribute<'_>,
    ) -> Result<PasswordAlgorithms, StunParseError> {
        let value = PasswordAlgorithms::entries_of(raw)?;
        let algorithms = algorithms_of(alloc, value)?;
        Ok(PasswordAlgorithms { algorithms })
    }

    fn from_raw(
        alloc: Global,
        raw: RawAttribute<'a>,
    ) -> Result<PasswordAlgorithms, StunParseError> {
        PasswordAlgorithms::from_raw_ref(alloc, &raw)
    }

    #[tactic(auto, using(crate::proofs::Lists::lists))]
    fn proof_is_read_back(&self, _read: &PasswordAlgorithms) {
        let _ = self.algorithms();
    }
}

impl PasswordAlgorithms {
    /// Returns the value of a PASSWORD-ALGORITHMS: four bytes for each algorithm, from one to eight
    /// algorithms, each of them known. Fails as decoding the attribute does, but allocates nothing.
    #[tactic(auto, using(crate::proofs::Lists::counts), unfolding(crate::proofs::Lists::refusals))]
    pub fn entries_of<'raw>(raw: &'raw RawAttribute<'_>) -> Result<&'raw [u8], StunParseError>
        ensures { MatchResult result (λ value. (algorithms_read_refusal raw.now ≡ None)
            × (raw.now.kind ≡ password_algorithms_kind) × (value.now ≡ raw.now.value)
            × (length (numbers_decoded value.now) ≤ most_algorithms)
            × (list_all is_known (numbers_decoded value.now) ≡ true))
            (IsNamed (algorithms_read_refusal raw.now)) }
    {
        let value = value_of(
            raw,
            PasswordAlgorithms::TYPE,
            4,
            PasswordAlgorithms::MAX_LEN,
        )?;
        if value.len() % 4 != 0 || !decode_known(value) {
            return Err(StunParseError::InvalidAttributeData);
        }
        Ok(value)
    }
}

/// Returns whether the algorithm of each entry is known.
#[tactic(auto, using(crate::proofs::Lists::decoded))]
fn decode_known(value: &[u8]) -> bool
    ensures { result ≡ list_all is_known (numbers_decoded value.now) }
{
    let mut left = value;
    while let Some((entry, rest)) = left.split_first_chunk::<4>() {
        if PasswordAlgorithmValue::from_bytes(entry).is_err() {
            return false;
        }
        left = rest;
    }
    true
}

/// Decodes the algorithms of entries, each of which is known. Fails only with `NoMemory`, if an
/// allocation fails.
#[tactic(auto, using(crate::proofs::Lists::decoded))]
fn algorithms_of(alloc: Global, value: &[u8]) -> Result<Vec<PasswordAlgorithmValue>, StunParseError>
    requires { list_all is_known (numbers_decoded value.now) ≡ true }
    ensures decoded { IfOk result (λ algorithms. map number_of algorithms.items
        ≡ numbers_decoded value.now) }
    ensures refused { IfErr result (λ error. error ≡ StunParseError.NoMemory) }
{
    let mut algorithms = Vec::with_capacity(alloc, value.len() / 4)?;
    let mut left = value;
    while let Some((entry, rest)) = left.split_first_chunk::<4>() {
        let algorithm = PasswordAlgorithmValue::from_bytes(entry)?;
        if algorithms.push(algorithm).is_err() {
            return Err(StunParseError::NoMemory);
        }
        left = rest;
    }
    Ok(algorithms)
}

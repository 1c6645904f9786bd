//! CHANNEL-NUMBER (RFC 8656, section 18.1).

ghost use Rattle.std.specs.Prelude.{◌≡◌, ◌≤◌, None, MatchResult, length};
ghost use Rattle.byteorder.specs.Endian.{big_number};
ghost use Rattle.turn_types_attributes.specs.Write.ValueReading.{IsNamed, value_refusal};
ghost use Rattle.turn_types_attributes.specs.TurnRegistry.{channel_number_kind};
ghost use Rattle.turn_types_peer.specs.PeerValues.{channel_value};

use crate::stun_types_base::memory::NoMemory;
use crate::stun_types_wire::attribute::{AttributeType, RawAttribute};
use crate::stun_types_wire::error::StunParseError;
use crate::stun_types_write::attribute::{
    Attribute, AttributeFromRaw, AttributeStaticType, AttributeWrite,
};
use crate::stun_types_write::reading::value_of;
use crate::stun_types_write::text::write_attribute;
use byteorder::{BigEndian, ByteOrder};
use std::alloc::Global;
use std::convert::TryFrom;
use std::marker::Model;
use turn_types_attributes::registry;

/// The number of a channel to a peer (RFC 8656, section 18.1). It is any 16-bit number, even one
/// that no channel frame can carry. Contracts see the number.
#[derive(Debug, Drop)]
pub struct ChannelNumber {
    channel: u16,
}

impl Model for ChannelNumber {
    ghost use Rattle.std.specs.Prelude.{ℕ};

    ghost Value = { ℕ };

    ghost view = { λ a. a.channel };
}

impl ChannelNumber {
    /// Creates the attribute for a channel number.
    pub fn new(channel: u16) -> ChannelNumber
        ensures { result ≡ channel }
    {
        ChannelNumber { channel }
    }

    /// The channel number.
    pub fn channel(&self) -> u16
        ensures { result ≡ self.now }
    {
        self.channel
    }

    /// Returns the value: the channel number in big-endian order and two zero bytes.
    fn value(&self) -> [u8; 4]
        ensures { result ≡ channel_value self.now }
    {
        let [high, low] = self.channel.to_be_bytes();
        [high, low, 0, 0]
    }
}

impl AttributeStaticType for ChannelNumber {
    ghost TYPE = { record { 0 = channel_number_kind } };

    const TYPE: AttributeType = registry::CHANNEL_NUMBER;
}

impl Attribute for ChannelNumber {
    ghost use Rattle.turn_types_peer.specs.PeerValues.{channel_value};

    ghost kind = { λ _. channel_number_kind };

    ghost value = { channel_value };

    fn get_type(&self) -> AttributeType {
        ChannelNumber::TYPE
    }

    fn length(&self) -> u16 {
        4
    }
}

impl AttributeWrite for ChannelNumber {
    fn write_into_unchecked(&self, dest: &mut [u8]) {
        write_attribute(ChannelNumber::TYPE, &self.value(), dest);
    }

    fn to_raw(&self, alloc: Global) -> Result<RawAttribute<'_>, NoMemory> {
        let value = Vec::from_slice(alloc, &self.value())?;
        Ok(RawAttribute::new_owned(ChannelNumber::TYPE, value.into_boxed_slice()))
    }
}

/// Decodes the first two of four bytes as a big-endian number. The other two are ignored.
///
/// # Errors
///
/// 1. `WrongAttributeImplementation`: the attribute has another type.
/// 2. `Truncated`: the value has fewer than four bytes.
/// 3. `TooLarge`: the value has more than four bytes.
impl<'a, 'raw> TryFrom<&'raw RawAttribute<'a>> for ChannelNumber {
    ghost use Rattle.std.specs.Prelude.{◌≡◌, MatchResult, Some, None};
    ghost use Rattle.turn_types_attributes.specs.Write.ValueReading.{IsNamed, value_refusal};
    ghost use Rattle.byteorder.specs.Endian.{big_number};

    type Error = StunParseError;

    ghost try_from_gives = { λ raw result. MatchResult result
        (λ read. (value_refusal channel_number_kind 4 4 raw.now ≡ None) × (read
        ≡ big_number 2 raw.now.value))
        (IsNamed (value_refusal channel_number_kind 4 4 raw.now)) };

    fn try_from(raw: &'raw RawAttribute<'a>) -> Result<ChannelNumber, StunParseError> {
        let channel = channel_of(raw)?;
        Ok(ChannelNumber { channel })
    }
}

/// Fails as `try_from` does. It allocates no memory.
impl<'a> AttributeFromRaw<'a> for ChannelNumber {
    ghost use Rattle.std.specs.Prelude.{false};
    ghost use Rattle.byteorder.specs.Endian.{big_number};
    ghost use Rattle.turn_types_attributes.specs.Write.ValueReading.{value_refusal};
    ghost use Rattle.turn_types_peer.specs.PeerValues.{channel_value};

    ghost read_refusal = { value_refusal channel_number_kind 4 4 };

    ghost read_value = { λ value. channel_value (big_number 2 value) };

    ghost reading_takes_memory = { false };

    fn from_raw_ref(
        _alloc: Global,
        raw: &RawAttribute<'_>,
    ) -> Result<ChannelNumber, StunParseError> {
        let channel = channel_of(raw)?;
        Ok(ChannelNumber { channel })
    }

    fn from_raw(alloc: Global, raw: RawAttribute<'a>) -> Result<ChannelNumber, StunParseError> {
        ChannelNumber::from_raw_ref(alloc, &raw)
    }

    #[tactic(auto, using(crate::proofs::Peers::channels))]
    fn proof_is_read_back(&self, read: &ChannelNumber) {
        let _ = (self.channel(), read.channel());
    }
}

/// Decodes the channel number in the value of a CHANNEL-NUMBER. Fails as `try_from` does.
fn channel_of(raw: &RawAttribute<'_>) -> Result<u16, StunParseError>
    ensures { MatchResult result (λ channel. (value_refusal channel_number_kind 4 4 raw.now ≡ None)
        × (raw.now.kind ≡ channel_number_kind) × (channel ≡ big_number 2 raw.now.value))
        (IsNamed (value_refusal channel_number_kind 4 4 raw.now)) }
{
    let value = value_of(raw, ChannelNumber::TYPE, 4, 4)?;
    Ok(BigEndian::read_u16(value))
}

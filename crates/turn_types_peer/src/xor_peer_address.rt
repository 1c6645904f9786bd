//! XOR-PEER-ADDRESS (RFC 8656, section 18.3).

ghost use Rattle.std.specs.Prelude.{Some, ◌≡◌};
ghost use Rattle.turn_types_attributes.specs.Write.ValueReading.{IsNamed};
ghost use Rattle.turn_types_attributes.specs.StunTypesAttributes.Addresses.{address_of};
ghost use Rattle.turn_types_attributes.specs.StunTypesAttributes.Addresses.{address_value};
ghost use Rattle.turn_types_attributes.specs.StunTypesAttributes.Xor.{xored};
ghost use Rattle.turn_types_attributes.specs.TurnRegistry.{xor_peer_address_kind};

use crate::stun_types_attributes::socket_addr::XorSocketAddr;
use crate::stun_types_base::memory::NoMemory;
use crate::stun_types_wire::attribute::{AttributeType, RawAttribute};
use crate::stun_types_wire::error::StunParseError;
use crate::stun_types_wire::transaction::TransactionId;
use crate::stun_types_write::attribute::{
    Attribute, AttributeFromRaw, AttributeStaticType, AttributeWrite,
};
use std::alloc::Global;
use std::convert::TryFrom;
use std::marker::Model;
use std::net::SocketAddr;
use turn_types_attributes::registry;

/// The address of a peer, XORed as in XOR-MAPPED-ADDRESS (RFC 8656, section 18.3). Contracts see
/// the bytes of the value.
#[derive(Debug, Drop)]
pub struct XorPeerAddress {
    addr: XorSocketAddr,
}

impl Model for XorPeerAddress {
    ghost use Rattle.std.specs.Prelude.{ℕ, List};

    ghost Value = { List ℕ };

    ghost view = { λ a. a.addr };
}

impl XorPeerAddress {
    /// Creates the attribute for an address and the transaction ID of the message that will carry
    /// it.
    pub fn new(addr: SocketAddr, transaction_id: TransactionId) -> XorPeerAddress
        ensures { result ≡ xored transaction_id (address_value addr) }
    {
        XorPeerAddress {
            addr: XorSocketAddr::new(addr, transaction_id),
        }
    }

    /// Returns the address, given the transaction ID of the message that carries it. It has no flow
    /// information and no scope.
    pub fn addr(&self, transaction_id: TransactionId) -> SocketAddr
        ensures decoded { Some result ≡ address_of (xored transaction_id self.now) }
        ensures value { address_value result ≡ xored transaction_id self.now }
    {
        self.addr.addr(transaction_id)
    }
}

impl AttributeStaticType for XorPeerAddress {
    ghost TYPE = { record { 0 = xor_peer_address_kind } };

    const TYPE: AttributeType = registry::XOR_PEER_ADDRESS;
}

impl Attribute for XorPeerAddress {
    ghost kind = { λ _. xor_peer_address_kind };

    ghost value = { λ a. a };

    fn get_type(&self) -> AttributeType {
        XorPeerAddress::TYPE
    }

    fn length(&self) -> u16 {
        self.addr.length()
    }
}

impl AttributeWrite for XorPeerAddress {
    fn write_into_unchecked(&self, dest: &mut [u8]) {
        self.addr.write_into_unchecked(XorPeerAddress::TYPE, dest);
    }

    fn to_raw(&self, alloc: Global) -> Result<RawAttribute<'_>, NoMemory> {
        self.addr.to_raw(alloc, XorPeerAddress::TYPE)
    }
}

/// Decodes a XORed address. Its first byte is ignored.
///
/// # Errors
///
/// 1. `WrongAttributeImplementation`: the attribute has another type.
/// 2. `Truncated`: the value has fewer than four bytes.
/// 3. `InvalidAttributeData`: the family is unknown.
/// 4. `Truncated` or `TooLarge`: the value does not have the 8 bytes of IPv4 or the 20 bytes of
///    IPv6.
impl<'a, 'raw> TryFrom<&'raw RawAttribute<'a>> for XorPeerAddress {
    ghost use Rattle.std.specs.Prelude.{◌≡◌, MatchResult, Some, None};
    ghost use Rattle.turn_types_attributes.specs.Write.ValueReading.{IsNamed};
    ghost use Rattle.turn_types_attributes.specs.StunTypesAttributes.Addresses.{address_again};
    ghost use Rattle.turn_types_attributes.specs.StunTypesAttributes.Addresses.{address_read_refusal};

    type Error = StunParseError;

    ghost try_from_gives = { λ raw result. MatchResult result
        (λ read. (address_read_refusal xor_peer_address_kind raw.now ≡ None)
        × (read ≡ address_again raw.now.value))
        (IsNamed (address_read_refusal xor_peer_address_kind raw.now)) };

    fn try_from(raw: &'raw RawAttribute<'a>) -> Result<XorPeerAddress, StunParseError> {
        let addr = XorSocketAddr::from_raw_of_type(raw, XorPeerAddress::TYPE)?;
        Ok(XorPeerAddress { addr })
    }
}

/// Fails as `try_from` does. It allocates no memory.
impl<'a> AttributeFromRaw<'a> for XorPeerAddress {
    ghost use Rattle.std.specs.Prelude.{false};
    ghost use Rattle.turn_types_attributes.specs.StunTypesAttributes.Addresses.{address_again};
    ghost use Rattle.turn_types_attributes.specs.StunTypesAttributes.Addresses.{address_read_refusal};

    ghost read_refusal = { address_read_refusal xor_peer_address_kind };

    ghost read_value = { address_again };

    ghost reading_takes_memory = { false };

    fn from_raw_ref(
        _alloc: Global,
        raw: &RawAttribute<'_>,
    ) -> Result<XorPeerAddress, StunParseError> {
        let addr = XorSocketAddr::from_raw_of_type(raw, XorPeerAddress::TYPE)?;
        Ok(XorPeerAddress { addr })
    }

    fn from_raw(alloc: Global, raw: RawAttribute<'a>) -> Result<XorPeerAddress, StunParseError> {
        XorPeerAddress::from_raw_ref(alloc, &raw)
    }

    fn proof_is_read_back(&self, _read: &XorPeerAddress) {
        self.addr.proof_is_read_back();
    }
}

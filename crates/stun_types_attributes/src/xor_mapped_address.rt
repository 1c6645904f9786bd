//! XOR-MAPPED-ADDRESS (RFC 8489, section 14.2).

ghost use Rattle.std.specs.Prelude.{Some, ◌≡◌};
ghost use Rattle.stun_types_auth_attributes.specs.Write.ValueReading.{IsNamed};
ghost use Rattle.stun_types_attributes.specs.Addresses.{address_of, address_value};
ghost use Rattle.stun_types_attributes.specs.Xor.{xored};
ghost use Rattle.stun_types_wire.specs.Registry.{xor_mapped_address_kind};

use crate::socket_addr::XorSocketAddr;
use crate::stun_types_base::memory::NoMemory;
use crate::stun_types_write::attribute::{
    Attribute, AttributeFromRaw, AttributeStaticType, AttributeWrite,
};
use std::alloc::Global;
use std::convert::TryFrom;
use std::marker::Model;
use std::net::SocketAddr;
use stun_types_wire::attribute::{AttributeType, RawAttribute};
use stun_types_wire::error::StunParseError;
use stun_types_wire::registry;
use stun_types_wire::transaction::TransactionId;

/// The address from which the server received the request, xored. Contracts see the bytes of the
/// value.
#[derive(Debug, Drop)]
pub struct XorMappedAddress {
    addr: XorSocketAddr,
}

impl Model for XorMappedAddress {
    ghost use Rattle.std.specs.Prelude.{ℕ, List};

    ghost Value = { List ℕ };

    ghost view = { λ a. a.addr };
}

impl XorMappedAddress {
    /// Makes a XOR-MAPPED-ADDRESS of an address and the transaction ID of the message that will
    /// hold it.
    pub fn new(addr: SocketAddr, transaction_id: TransactionId) -> XorMappedAddress
        ensures { result ≡ xored transaction_id (address_value addr) }
    {
        XorMappedAddress {
            addr: XorSocketAddr::new(addr, transaction_id),
        }
    }

    /// Returns the address, for the transaction ID of the message that holds it, with flow
    /// information and scope 0.
    pub fn addr(&self, transaction_id: TransactionId) -> SocketAddr
        ensures decoded { Some result ≡ address_of (xored transaction_id self.now) }
        ensures value { address_value result ≡ xored transaction_id self.now }
    {
        self.addr.addr(transaction_id)
    }
}

impl AttributeStaticType for XorMappedAddress {
    ghost TYPE = { record { 0 = xor_mapped_address_kind } };

    const TYPE: AttributeType = registry::XOR_MAPPED_ADDRESS;
}

impl Attribute for XorMappedAddress {
    ghost kind = { λ _. xor_mapped_address_kind };

    ghost value = { λ a. a };

    fn get_type(&self) -> AttributeType {
        XorMappedAddress::TYPE
    }

    fn length(&self) -> u16 {
        self.addr.length()
    }
}

impl AttributeWrite for XorMappedAddress {
    fn write_into_unchecked(&self, dest: &mut [u8]) {
        self.addr.write_into_unchecked(XorMappedAddress::TYPE, dest);
    }

    fn to_raw(&self, alloc: Global) -> Result<RawAttribute<'_>, NoMemory> {
        self.addr.to_raw(alloc, XorMappedAddress::TYPE)
    }
}

/// Decodes a xored address. The first byte of the value is ignored.
///
/// # Errors
///
/// In this order:
///
/// - `WrongAttributeImplementation`: the type is another one.
/// - `Truncated`: the value has fewer than four bytes.
/// - `InvalidAttributeData`: the family is unknown.
/// - `Truncated` or `TooLarge`: the length of the value is not 8 bytes for IPv4, or 20 for IPv6.
impl<'a, 'raw> TryFrom<&'raw RawAttribute<'a>> for XorMappedAddress {
    ghost use Rattle.std.specs.Prelude.{◌≡◌, MatchResult, Some, None};
    ghost use Rattle.stun_types_auth_attributes.specs.Write.ValueReading.{IsNamed};
    ghost use Rattle.stun_types_attributes.specs.Addresses.{address_again, address_read_refusal};

    type Error = StunParseError;

    ghost try_from_gives = { λ raw result. MatchResult result
        (λ read. (address_read_refusal xor_mapped_address_kind raw.now ≡ None)
        × (read ≡ address_again raw.now.value))
        (IsNamed (address_read_refusal xor_mapped_address_kind raw.now)) };

    fn try_from(raw: &'raw RawAttribute<'a>) -> Result<XorMappedAddress, StunParseError> {
        let addr = XorSocketAddr::from_raw_of_type(raw, XorMappedAddress::TYPE)?;
        Ok(XorMappedAddress { addr })
    }
}

/// Decodes the attribute as `try_from` does, with the same errors. It allocates nothing.
impl<'a> AttributeFromRaw<'a> for XorMappedAddress {
    ghost use Rattle.std.specs.Prelude.{false};
    ghost use Rattle.stun_types_attributes.specs.Addresses.{address_again, address_read_refusal};

    ghost read_refusal = { address_read_refusal xor_mapped_address_kind };

    ghost read_value = { address_again };

    ghost reading_takes_memory = { false };

    fn from_raw_ref(
        _alloc: Global,
        raw: &RawAttribute<'_>,
    ) -> Result<XorMappedAddress, StunParseError> {
        let addr = XorSocketAddr::from_raw_of_type(raw, XorMappedAddress::TYPE)?;
        Ok(XorMappedAddress { addr })
    }

    fn from_raw(alloc: Global, raw: RawAttribute<'a>) -> Result<XorMappedAddress, StunParseError> {
        XorMappedAddress::from_raw_ref(alloc, &raw)
    }

    fn proof_is_read_back(&self, _read: &XorMappedAddress) {
        self.addr.proof_is_read_back();
    }
}

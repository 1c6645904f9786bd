//! MAPPED-ADDRESS (RFC 8489, section 14.1).

ghost use Rattle.std.specs.Prelude.{Some, ◌≡◌};
ghost use Rattle.stun_types_auth_attributes.specs.Write.ValueReading.{IsNamed};
ghost use Rattle.stun_types_attributes.specs.Addresses.{address_of, address_value};
ghost use Rattle.stun_types_wire.specs.Registry.{mapped_address_kind};

use crate::socket_addr::MappedSocketAddr;
use crate::stun_types_base::memory::NoMemory;
use crate::stun_types_write::attribute::{
    Attribute, AttributeFromRaw, AttributeStaticType, AttributeWrite,
};
use std::alloc::Global;
use std::convert::TryFrom;
use std::marker::Model;
use std::net::SocketAddr;
use stun_types_wire::attribute::{AttributeType, RawAttribute};
use stun_types_wire::error::StunParseError;
use stun_types_wire::registry;

/// The address from which the server received the request, not xored (RFC 8489, section 14.1).
/// Servers send it for clients of RFC 3489. Others use XOR-MAPPED-ADDRESS, since a NAT may change an
/// address that is not xored (section 14.2). Contracts see the bytes of the value.
#[derive(Debug, Drop)]
pub struct MappedAddress {
    addr: MappedSocketAddr,
}

impl Model for MappedAddress {
    ghost use Rattle.std.specs.Prelude.{ℕ, List};

    ghost Value = { List ℕ };

    ghost view = { λ a. a.addr };
}

impl MappedAddress {
    /// Makes a MAPPED-ADDRESS of an address. The flow information and the scope of an IPv6 address
    /// are not encoded.
    pub fn new(addr: SocketAddr) -> MappedAddress
        ensures { result ≡ address_value addr }
    {
        MappedAddress {
            addr: MappedSocketAddr::new(addr),
        }
    }

    /// Returns the address, with flow information and scope 0.
    pub fn addr(&self) -> SocketAddr
        ensures decoded { Some result ≡ address_of self.now }
        ensures value { address_value result ≡ self.now }
    {
        self.addr.addr()
    }
}

impl AttributeStaticType for MappedAddress {
    ghost TYPE = { record { 0 = mapped_address_kind } };

    const TYPE: AttributeType = registry::MAPPED_ADDRESS;
}

impl Attribute for MappedAddress {
    ghost kind = { λ _. mapped_address_kind };

    ghost value = { λ a. a };

    fn get_type(&self) -> AttributeType {
        MappedAddress::TYPE
    }

    fn length(&self) -> u16 {
        self.addr.length()
    }
}

impl AttributeWrite for MappedAddress {
    fn write_into_unchecked(&self, dest: &mut [u8]) {
        self.addr.write_into_unchecked(MappedAddress::TYPE, dest);
    }

    fn to_raw(&self, alloc: Global) -> Result<RawAttribute<'_>, NoMemory> {
        self.addr.to_raw(alloc, MappedAddress::TYPE)
    }
}

/// Decodes an address that is not xored. The first byte of the value is ignored.
///
/// # Errors
///
/// In this order:
///
/// - `WrongAttributeImplementation`: the type is another one.
/// - `Truncated`: the value has fewer than four bytes.
/// - `InvalidAttributeData`: the family is unknown.
/// - `Truncated` or `TooLarge`: the length of the value is not 8 bytes for IPv4, or 20 for IPv6.
impl<'a, 'raw> TryFrom<&'raw RawAttribute<'a>> for MappedAddress {
    ghost use Rattle.std.specs.Prelude.{◌≡◌, MatchResult, Some, None};
    ghost use Rattle.stun_types_auth_attributes.specs.Write.ValueReading.{IsNamed};
    ghost use Rattle.stun_types_attributes.specs.Addresses.{address_again, address_read_refusal};

    type Error = StunParseError;

    ghost try_from_gives = { λ raw result. MatchResult result
        (λ read. (address_read_refusal mapped_address_kind raw.now ≡ None)
        × (read ≡ address_again raw.now.value))
        (IsNamed (address_read_refusal mapped_address_kind raw.now)) };

    fn try_from(raw: &'raw RawAttribute<'a>) -> Result<MappedAddress, StunParseError> {
        let addr = MappedSocketAddr::from_raw_of_type(raw, MappedAddress::TYPE)?;
        Ok(MappedAddress { addr })
    }
}

/// Decodes the attribute as `try_from` does, with the same errors. It allocates nothing.
impl<'a> AttributeFromRaw<'a> for MappedAddress {
    ghost use Rattle.std.specs.Prelude.{false};
    ghost use Rattle.stun_types_attributes.specs.Addresses.{address_again, address_read_refusal};

    ghost read_refusal = { address_read_refusal mapped_address_kind };

    ghost read_value = { address_again };

    ghost reading_takes_memory = { false };

    fn from_raw_ref(
        _alloc: Global,
        raw: &RawAttribute<'_>,
    ) -> Result<MappedAddress, StunParseError> {
        let addr = MappedSocketAddr::from_raw_of_type(raw, MappedAddress::TYPE)?;
        Ok(MappedAddress { addr })
    }

    fn from_raw(alloc: Global, raw: RawAttribute<'a>) -> Result<MappedAddress, StunParseError> {
        MappedAddress::from_raw_ref(alloc, &raw)
    }

    fn proof_is_read_back(&self, _read: &MappedAddress) {
        self.addr.proof_is_read_back();
    }
}

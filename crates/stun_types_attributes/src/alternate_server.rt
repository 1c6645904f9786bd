//! ALTERNATE-SERVER (RFC 8489, section 14.15).

ghost use Rattle.std.specs.Prelude.{Some, ◌≡◌};
ghost use Rattle.stun_types_auth_attributes.specs.Write.ValueReading.{IsNamed};
ghost use Rattle.stun_types_attributes.specs.Addresses.{address_of, address_value};
ghost use Rattle.stun_types_wire.specs.Registry.{alternate_server_kind};

use crate::socket_addr::MappedSocketAddr;
use crate::stun_types_base::memory::NoMemory;
use crate::stun_types_write::attribute::{
    Attribute, AttributeFromRaw, AttributeStaticType, AttributeWrite,
};
use std::alloc::Global;
use std::convert::TryFrom;
use std::marker::Model;
use std::net::SocketAddr;
use stun_types_wire::attribute::{AttributeType, RawAttribute};
use stun_types_wire::error::StunParseError;
use stun_types_wire::registry;

/// The address of another server that the client should try, not xored (RFC 8489, section 14.15).
/// Contracts see the bytes of the value.
#[derive(Debug, Drop)]
pub struct AlternateServer {
    addr: MappedSocketAddr,
}

impl Model for AlternateServer {
    ghost use Rattle.std.specs.Prelude.{ℕ, List};

    ghost Value = { List ℕ };

    ghost view = { λ a. a.addr };
}

impl AlternateServer {
    /// Makes an ALTERNATE-SERVER of an address. The flow information and the scope of an IPv6
    /// address are not encoded.
    pub fn new(server: SocketAddr) -> AlternateServer
        ensures { result ≡ address_value server }
    {
        AlternateServer {
            addr: MappedSocketAddr::new(server),
        }
    }

    /// Returns the address, with flow information and scope 0.
    pub fn server(&self) -> SocketAddr
        ensures decoded { Some result ≡ address_of self.now }
        ensures value { address_value result ≡ self.now }
    {
        self.addr.addr()
    }
}

impl AttributeStaticType for AlternateServer {
    ghost TYPE = { record { 0 = alternate_server_kind } };

    const TYPE: AttributeType = registry::ALTERNATE_SERVER;
}

impl Attribute for AlternateServer {
    ghost kind = { λ _. alternate_server_kind };

    ghost value = { λ a. a };

    fn get_type(&self) -> AttributeType {
        AlternateServer::TYPE
    }

    fn length(&self) -> u16 {
        self.addr.length()
    }
}

impl AttributeWrite for AlternateServer {
    fn write_into_unchecked(&self, dest: &mut [u8]) {
        self.addr.write_into_unchecked(AlternateServer::TYPE, dest);
    }

    fn to_raw(&self, alloc: Global) -> Result<RawAttribute<'_>, NoMemory> {
        self.addr.to_raw(alloc, AlternateServer::TYPE)
    }
}

/// Decodes an address that is not xored. The first byte of the value is ignored.
///
/// # Errors
///
/// In this order:
///
/// - `WrongAttributeImplementation`: the type is another one.
/// - `Truncated`: the value has fewer than four bytes.
/// - `InvalidAttributeData`: the family is unknown.
/// - `Truncated` or `TooLarge`: the length of the value is not 8 bytes for IPv4, or 20 for IPv6.
impl<'a, 'raw> TryFrom<&'raw RawAttribute<'a>> for AlternateServer {
    ghost use Rattle.std.specs.Prelude.{◌≡◌, MatchResult, Some, None};
    ghost use Rattle.stun_types_auth_attributes.specs.Write.ValueReading.{IsNamed};
    ghost use Rattle.stun_types_attributes.specs.Addresses.{address_again, address_read_refusal};

    type Error = StunParseError;

    ghost try_from_gives = { λ raw result. MatchResult result
        (λ read. (address_read_refusal alternate_server_kind raw.now ≡ None)
        × (read ≡ address_again raw.now.value))
        (IsNamed (address_read_refusal alternate_server_kind raw.now)) };

    fn try_from(raw: &'raw RawAttribute<'a>) -> Result<AlternateServer, StunParseError> {
        let addr = MappedSocketAddr::from_raw_of_type(raw, AlternateServer::TYPE)?;
        Ok(AlternateServer { addr })
    }
}

/// Decodes the attribute as `try_from` does, with the same errors. It allocates nothing.
impl<'a> AttributeFromRaw<'a> for AlternateServer {
    ghost use Rattle.std.specs.Prelude.{false};
    ghost use Rattle.stun_types_attributes.specs.Addresses.{address_again, address_read_refusal};

    ghost read_refusal = { address_read_refusal alternate_server_kind };

    ghost read_value = { address_again };

    ghost reading_takes_memory = { false };

    fn from_raw_ref(
        _alloc: Global,
        raw: &RawAttribute<'_>,
    ) -> Result<AlternateServer, StunParseError> {
        let addr = MappedSocketAddr::from_raw_of_type(raw, AlternateServer::TYPE)?;
        Ok(AlternateServer { addr })
    }

    fn from_raw(alloc: Global, raw: RawAttribute<'a>) -> Result<AlternateServer, StunParseError> {
        AlternateServer::from_raw_ref(alloc, &raw)
    }

    fn proof_is_read_back(&self, _read: &AlternateServer) {
        self.addr.proof_is_read_back();
    }
}

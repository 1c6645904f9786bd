//! Encoded addresses, xored or not.

ghost use Rattle.std.specs.Prelude.{◌≡◌, ◌+◌, ◌≤◌, ◌++◌, ℕ, length, drop, None, Some, IfOk};
ghost use Rattle.std.specs.Prelude.{MatchResult};
ghost use Rattle.stun_types_auth_attributes.specs.Write.ValueReading.{IsNamed};
ghost use Rattle.stun_types_wire.specs.Attributes.{padded};
ghost use Rattle.stun_types_wire.specs.Text.{attribute_text};
ghost use Rattle.stun_types_auth_attributes.specs.Write.Adding.{attr_of};
ghost use Rattle.stun_types_attributes.specs.Addresses.{address_again, address_of};
ghost use Rattle.stun_types_attributes.specs.Addresses.{address_read_refusal, address_refusal};
ghost use Rattle.stun_types_attributes.specs.Addresses.{address_value, on_the_wire};
ghost use Rattle.stun_types_attributes.specs.Xor.{xored};

use crate::octets::{
    head_of, proof_segments_are_decoded, read_address, without_scope, xor_address,
};
use crate::stun_types_base::memory::NoMemory;
use crate::stun_types_write::text::write_attribute_in_two;
use std::alloc::Global;
use std::marker::Model;
use std::net::SocketAddr;
use stun_types_wire::attribute::{AttributeType, RawAttribute};
use stun_types_wire::error::StunParseError;
use stun_types_wire::registry::{IPV4_FAMILY, IPV6_FAMILY};
use stun_types_wire::transaction::TransactionId;

/// An address and a port as encoded in an attribute: a zero, the family, the port, and the 4 or 16
/// bytes of the address (RFC 8489, section 14.1). The flow information and the scope of an IPv6
/// address are not encoded. Contracts see the bytes.
#[derive(Debug, Drop)]
pub struct MappedSocketAddr {
    addr: SocketAddr,
}

impl Model for MappedSocketAddr {
    ghost use Rattle.std.specs.Prelude.{◌≡◌, ℕ, List, None, Some};
    ghost use Rattle.stun_types_attributes.specs.Addresses.{address_of, address_refusal};
    ghost use Rattle.stun_types_attributes.specs.Addresses.{address_value};

    ghost Value = { List ℕ };

    ghost view = { λ a. address_value a.addr };

    ghost invariant = { λ a. (Some a.addr ≡ address_of (address_value a.addr))
        × (address_refusal (address_value a.addr) ≡ None) };
}

impl MappedSocketAddr {
    /// Encodes an address.
    pub fn new(addr: SocketAddr) -> MappedSocketAddr
        ensures { result ≡ address_value addr }
    {
        MappedSocketAddr {
            addr: without_scope(addr),
        }
    }

    /// Decodes the address in an attribute of any type. The first byte of the value is ignored.
    ///
    /// # Errors
    ///
    /// In this order:
    ///
    /// - `Truncated`: the value has fewer than four bytes.
    /// - `InvalidAttributeData`: the family is not 1 or 2.
    /// - `Truncated` or `TooLarge`: the length of the value is not 8 bytes for IPv4, or 20 for
    ///   IPv6.
    pub fn from_raw(raw: &RawAttribute<'_>) -> Result<MappedSocketAddr, StunParseError>
        ensures { MatchResult result (λ read. (address_refusal raw.now.value ≡ None)
            × (read ≡ address_again raw.now.value)) (IsNamed (address_refusal raw.now.value)) }
    {
        let addr = read_address(raw.value())?;
        Ok(MappedSocketAddr { addr })
    }

    /// Decodes the address in an attribute of this type. Fails with `WrongAttributeImplementation`
    /// if the attribute has another type, and then as `from_raw` does.
    #[tactic(auto, unfolding(crate::specs::Addresses::address_read_refusal))]
    pub fn from_raw_of_type(
        raw: &RawAttribute<'_>,
        atype: AttributeType,
    ) -> Result<MappedSocketAddr, StunParseError>
        ensures { MatchResult result (λ read. (address_read_refusal atype.0 raw.now ≡ None)
            × (raw.now.kind ≡ atype.0) × (read ≡ address_again raw.now.value))
            (IsNamed (address_read_refusal atype.0 raw.now)) }
    {
        if raw.get_type() != atype {
            return Err(StunParseError::WrongAttributeImplementation);
        }
        MappedSocketAddr::from_raw(raw)
    }

    /// Returns the address, with flow information and scope 0.
    pub fn addr(&self) -> SocketAddr
        ensures decoded { Some result ≡ address_of self.now }
        ensures value { address_value result ≡ self.now }
    {
        self.addr
    }

    /// Returns the length of the value in bytes, 8 or 20.
    pub fn length(&self) -> u16
        ensures { result ≡ length self.now }
    {
        match self.addr {
            SocketAddr::V4(v4) => 4 + v4.ip().octets().len() as u16,
            SocketAddr::V6(v6) => 4 + v6.ip().octets().len() as u16,
        }
    }

    /// Returns an attribute of a type with this value. Fails only with `NoMemory`, if an allocation
    /// fails.
    pub fn to_raw<'b>(
        &self,
        alloc: Global,
        atype: AttributeType,
    ) -> Result<RawAttribute<'b>, NoMemory>
        ensures { IfOk result (λ raw. raw ≡ attr_of atype.0 self.now) }
    {
        let mut value = Vec::with_capacity(alloc, self.length() as usize)?;
        match self.addr {
            SocketAddr::V4(v4) => {
                value.extend_from_slice(&head_of(IPV4_FAMILY, v4.port()))?;
                value.extend_from_slice(&v4.ip().octets())?;
            }
            SocketAddr::V6(v6) => {
                value.extend_from_slice(&head_of(IPV6_FAMILY, v6.port()))?;
                value.extend_from_slice(&v6.ip().octets())?;
            }
        }
        Ok(RawAttribute::new_owned(atype, value.into_boxed_slice()))
    }

    /// Writes an attribute of a type with this value to the first bytes of `dest`, padding
    /// included. `dest` must have room for it.
    pub fn write_into_unchecked(&self, atype: AttributeType, dest: &mut [u8])
        requires { 4 + padded (length self.now) ≤ length dest.old }
        ensures { dest.new ≡ attribute_text (attr_of atype.0 self.now)
            ++ drop (4 + padded (length self.now)) dest.old }
    {
        match self.addr {
            SocketAddr::V4(v4) => {
                write_attribute_in_two(
                    atype,
                    &head_of(IPV4_FAMILY, v4.port()),
                    &v4.ip().octets(),
                    dest,
                );
            }
            SocketAddr::V6(v6) => {
                write_attribute_in_two(
                    atype,
                    &head_of(IPV6_FAMILY, v6.port()),
                    &v6.ip().octets(),
                    dest,
                );
            }
        }
    }

    /// Proof only. Decoding accepts the value and leaves it unchanged.
    #[tactic(auto, using(crate::proofs::Bytes::value_stored, crate::proofs::Bytes::value_accepted))]
    pub fn proof_is_read_back(&self)
        ensures value { address_refusal self.now ≡ None }
        ensures accepted { (kind : ℕ) → address_read_refusal kind (attr_of kind self.now) ≡ None }
        ensures stored { address_again self.now ≡ self.now }
    {
        let _ = &self.addr;
    }
}

/// A xored address (RFC 8489, section 14.2). An IPv4 address is xored with the magic cookie, an
/// IPv6 address with the magic cookie followed by the transaction ID, and the port with the top 16
/// bits of the cookie. Contracts see the bytes as they are encoded in an attribute.
#[derive(Debug, Drop)]
pub struct XorSocketAddr {
    masked: MappedSocketAddr,
}

impl Model for XorSocketAddr {
    ghost use Rattle.std.specs.Prelude.{ℕ, List};

    ghost Value = { List ℕ };

    ghost view = { λ a. a.masked };
}

impl XorSocketAddr {
    /// Encodes an address, xored for a transaction ID.
    pub fn new(addr: SocketAddr, transaction_id: TransactionId) -> XorSocketAddr
        ensures { result ≡ xored transaction_id (address_value addr) }
    {
        XorSocketAddr {
            masked: MappedSocketAddr::new(XorSocketAddr::xor_addr(addr, transaction_id)),
        }
    }

    /// Returns the address for a transaction ID, with flow information and scope 0.
    pub fn addr(&self, transaction_id: TransactionId) -> SocketAddr
        ensures decoded { Some result ≡ address_of (xored transaction_id self.now) }
        ensures value { address_value result ≡ xored transaction_id self.now }
    {
        XorSocketAddr::xor_addr(self.masked.addr(), transaction_id)
    }

    /// Xors an address for a transaction ID. Doing so twice gives the address again, with flow
    /// information and scope 0.
    pub fn xor_addr(addr: SocketAddr, transaction_id: TransactionId) -> SocketAddr
        ensures decoded { Some result ≡ address_of (xored transaction_id (address_value addr)) }
        ensures value { address_value result ≡ xored transaction_id (address_value addr) }
        ensures undone { address_of (xored transaction_id (address_value result))
            ≡ Some (on_the_wire addr) }
    {
        value_is_decoded(addr);
        xor_is_undone(addr, transaction_id);
        xor_address(addr, transaction_id)
    }

    /// Decodes the xored address in an attribute of any type. Fails as `MappedSocketAddr::from_raw`
    /// does.
    pub fn from_raw(raw: &RawAttribute<'_>) -> Result<XorSocketAddr, StunParseError>
        ensures { MatchResult result (λ read. (address_refusal raw.now.value ≡ None)
            × (read ≡ address_again raw.now.value)) (IsNamed (address_refusal raw.now.value)) }
    {
        let masked = MappedSocketAddr::from_raw(raw)?;
        Ok(XorSocketAddr { masked })
    }

    /// Decodes the xored address in an attribute of this type. Fails as
    /// `MappedSocketAddr::from_raw_of_type` does.
    pub fn from_raw_of_type(
        raw: &RawAttribute<'_>,
        atype: AttributeType,
    ) -> Result<XorSocketAddr, StunParseError>
        ensures { MatchResult result (λ read. (address_read_refusal atype.0 raw.now ≡ None)
            × (raw.now.kind ≡ atype.0) × (read ≡ address_again raw.now.value))
            (IsNamed (address_read_refusal atype.0 raw.now)) }
    {
        let masked = MappedSocketAddr::from_raw_of_type(raw, atype)?;
        Ok(XorSocketAddr { masked })
    }

    /// Returns the length of the value in bytes, 8 or 20.
    pub fn length(&self) -> u16
        ensures { result ≡ length self.now }
    {
        self.masked.length()
    }

    /// Returns an attribute of a type with this value. Fails only with `NoMemory`, if an allocation
    /// fails.
    pub fn to_raw<'b>(
        &self,
        alloc: Global,
        atype: AttributeType,
    ) -> Result<RawAttribute<'b>, NoMemory>
        ensures { IfOk result (λ raw. raw ≡ attr_of atype.0 self.now) }
    {
        self.masked.to_raw(alloc, atype)
    }

    /// Writes an attribute of a type with this value to the first bytes of `dest`, padding
    /// included. `dest` must have room for it.
    pub fn write_into_unchecked(&self, atype: AttributeType, dest: &mut [u8])
        requires { 4 + padded (length self.now) ≤ length dest.old }
        ensures { dest.new ≡ attribute_text (attr_of atype.0 self.now)
            ++ drop (4 + padded (length self.now)) dest.old }
    {
        self.masked.write_into_unchecked(atype, dest);
    }

    /// Proof only. Decoding accepts the value and leaves it unchanged.
    pub fn proof_is_read_back(&self)
        ensures value { address_refusal self.now ≡ None }
        ensures accepted { (kind : ℕ) → address_read_refusal kind (attr_of kind self.now) ≡ None }
        ensures stored { address_again self.now ≡ self.now }
    {
        self.masked.proof_is_read_back();
    }
}

/// Proof only. Xoring an encoded address twice for the same transaction ID gives it again.
#[tactic(auto, using(crate::proofs::Masks::xored_again))]
pub fn xor_is_undone(addr: SocketAddr, transaction_id: TransactionId)
    ensures { xored transaction_id (xored transaction_id (address_value addr)) ≡ address_value addr }
{
    let _ = without_scope(addr);
}

/// Proof only. Decoding an encoded address gives that address, with flow information and scope 0.
#[tactic(auto, using(crate::proofs::Bytes::port_again))]
pub fn value_is_decoded(addr: SocketAddr)
    ensures { address_of (address_value addr) ≡ Some (on_the_wire addr) }
{
    match addr {
        SocketAddr::V4(v4) => {
            let _ = v4.ip().octets();
        }
        SocketAddr::V6(v6) => {
            let _ = v6.port();
            proof_segments_are_decoded(&v6.ip().segments());
        }
    }
}

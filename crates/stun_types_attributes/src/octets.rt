//! The parts of an encoded address: its family, its port and its octets.

ghost use Rattle.std.specs.Prelude.{◌≡◌, ◌∷◌, [], ◌+◌, ◌*◌, ◌≤◌, length, slice_index, None, Some};
ghost use Rattle.std.specs.Prelude.{MatchResult};
ghost use Rattle.stun_types_auth_attributes.specs.Write.ValueReading.{IsNamed};
ghost use Rattle.byteorder.specs.Endian.{big_bytes};
ghost use Rattle.stun_types_attributes.specs.Addresses.{address_again, address_of, address_refusal};
ghost use Rattle.stun_types_attributes.specs.Addresses.{address_value, length_refusal};
ghost use Rattle.stun_types_attributes.specs.Addresses.{value_of_parts};
ghost use Rattle.std.specs.Net.Addr.{octets_of, segments_of};
ghost use Rattle.stun_types_attributes.specs.Xor.{octets_mask, xor_bytes, xored};
ghost use Rattle.stun_types_wire.specs.Registry.{cookie_head, ipv4_family, ipv4_value_size};
ghost use Rattle.stun_types_wire.specs.Registry.{ipv6_family, ipv6_value_size};

use std::net::{Ipv4Addr, Ipv6Addr, SocketAddr, SocketAddrV4, SocketAddrV6};
use stun_types_wire::error::StunParseError;
use stun_types_wire::registry::{
    COOKIE_HEAD, IPV4_FAMILY, IPV4_VALUE_LENGTH, IPV6_FAMILY, IPV6_VALUE_LENGTH, MAGIC_COOKIE,
};
use stun_types_wire::transaction::TransactionId;

/// Makes an IPv4 address of a port and octets.
#[tactic(auto, using(crate::proofs::Bytes::v4_is_accepted))]
pub(crate) fn v4_address(port: u16, octets: [u8; 4]) -> SocketAddr
    ensures value { address_value result ≡ value_of_parts ipv4_family port octets }
    ensures decoded { Some result ≡ address_of (value_of_parts ipv4_family port octets) }
    ensures accepted { address_refusal (value_of_parts ipv4_family port octets) ≡ None }
{
    SocketAddr::V4(SocketAddrV4::new(Ipv4Addr::from_octets(octets), port))
}

/// Makes an IPv6 address of a port and octets, with flow information and scope 0.
#[tactic(auto, using(crate::proofs::Bytes::v6_is_accepted, crate::proofs::Bytes::sixteen_again))]
pub(crate) fn v6_address(port: u16, octets: &[u8; 16]) -> SocketAddr
    ensures value { address_value result ≡ value_of_parts ipv6_family port octets.now }
    ensures decoded { Some result ≡ address_of (value_of_parts ipv6_family port octets.now) }
    ensures accepted { address_refusal (value_of_parts ipv6_family port octets.now) ≡ None }
{
    SocketAddr::V6(SocketAddrV6::new(Ipv6Addr::from_octets(*octets), port, 0, 0))
}

/// Sets the flow information and the scope of an address to 0.
pub(crate) fn without_scope(addr: SocketAddr) -> SocketAddr
    ensures value { address_value result ≡ address_value addr }
    ensures decoded { Some result ≡ address_of (address_value addr) }
    ensures accepted { address_refusal (address_value addr) ≡ None }
{
    match addr {
        SocketAddr::V4(v4) => v4_address(v4.port(), v4.ip().octets()),
        SocketAddr::V6(v6) => v6_address(v6.port(), &v6.ip().octets()),
    }
}

/// Returns the part of an encoded address before its octets: a zero, the family, the port.
pub(crate) fn head_of(family: u8, port: u16) -> [u8; 4]
    ensures { result ≡ 0 ∷ family ∷ big_bytes 2 port }
{
    let [high, low] = port.to_be_bytes();
    [0, family, high, low]
}

/// Decodes an address.
///
/// # Errors
///
/// In this order:
///
/// - `Truncated`: there are fewer than four bytes.
/// - `InvalidAttributeData`: the family is unknown.
/// - `Truncated` or `TooLarge`: the length is not that of the family.
#[tactic(auto, unfolding(crate::specs::Addresses::address_refusal))]
pub(crate) fn read_address(value: &[u8]) -> Result<SocketAddr, StunParseError>
    ensures { MatchResult result (λ addr. (address_refusal value.now ≡ None)
        × (address_value addr ≡ address_again value.now)
        × (Some addr ≡ address_of (address_again value.now))
        × (address_refusal (address_again value.now) ≡ None))
        (IsNamed (address_refusal value.now)) }
{
    if value.len() < 4 {
        return Err(StunParseError::Truncated {
            expected: 4,
            actual: value.len(),
        });
    }
    match value[1] {
        IPV4_FAMILY => read_v4(value),
        IPV6_FAMILY => read_v6(value),
        _ => Err(StunParseError::InvalidAttributeData),
    }
}

/// Decodes an IPv4 address. Fails with `Truncated` or `TooLarge` if the value doesn't have eight
/// bytes.
#[tactic(auto, using(crate::proofs::Bytes::parts_again))]
fn read_v4(value: &[u8]) -> Result<SocketAddr, StunParseError>
    requires head { 4 ≤ length value.now }
    requires family { slice_index value.now 1 ≡ ipv4_family }
    ensures { MatchResult result (λ addr. (length_refusal ipv4_value_size value.now ≡ None)
        × (address_value addr ≡ address_again value.now)
        × (Some addr ≡ address_of (address_again value.now))
        × (address_refusal (address_again value.now) ≡ None))
        (IsNamed (length_refusal ipv4_value_size value.now)) }
{
    check_length(value, IPV4_VALUE_LENGTH)?;
    let mut octets = [0; 4];
    octets.copy_from_slice(&value[4..]);
    Ok(v4_address(port_in(value), octets))
}

/// Decodes an IPv6 address. Fails with `Truncated` or `TooLarge` if the value doesn't have twenty
/// bytes.
#[tactic(auto, using(crate::proofs::Bytes::parts_again))]
fn read_v6(value: &[u8]) -> Result<SocketAddr, StunParseError>
    requires head { 4 ≤ length value.now }
    requires family { slice_index value.now 1 ≡ ipv6_family }
    ensures { MatchResult result (λ addr. (length_refusal ipv6_value_size value.now ≡ None)
        × (address_value addr ≡ address_again value.now)
        × (Some addr ≡ address_of (address_again value.now))
        × (address_refusal (address_again value.now) ≡ None))
        (IsNamed (length_refusal ipv6_value_size value.now)) }
{
    check_length(value, IPV6_VALUE_LENGTH)?;
    let mut octets = [0; 16];
    octets.copy_from_slice(&value[4..]);
    Ok(v6_address(port_in(value), &octets))
}

/// Returns the port in the third and fourth bytes of a value.
fn port_in(value: &[u8]) -> u16
    requires { 4 ≤ length value.now }
    ensures { result ≡ slice_index value.now 2 * 256 + slice_index value.now 3 }
{
    u16::from(value[2]) * 256 + u16::from(value[3])
}

/// Fails with `Truncated` or `TooLarge` if a value doesn't have exactly `expected` bytes.
fn check_length(value: &[u8], expected: usize) -> Result<(), StunParseError>
    ensures { MatchResult result (λ _. (length_refusal expected value.now ≡ None)
        × (length value.now ≡ expected)) (IsNamed (length_refusal expected value.now)) }
{
    let actual = value.len();
    if actual < expected {
        return Err(StunParseError::Truncated { expected, actual });
    }
    if expected < actual {
        return Err(StunParseError::TooLarge { expected, actual });
    }
    Ok(())
}

/// Xors an address for a transaction ID. The port is xored with the top 16 bits of the magic
/// cookie.
#[tactic(auto, unfolding(crate::specs::Xor::octets_mask))]
pub(crate) fn xor_address(addr: SocketAddr, transaction_id: TransactionId) -> SocketAddr
    ensures value { address_value result ≡ xored transaction_id (address_value addr) }
    ensures decoded { Some result ≡ address_of (xored transaction_id (address_value addr)) }
    ensures accepted { address_refusal (xored transaction_id (address_value addr)) ≡ None }
{
    let mask = mask_of(transaction_id);
    match addr {
        SocketAddr::V4(v4) => {
            let mut octets = v4.ip().octets();
            xor_in_place(&mut octets, &mask);
            v4_address(xor_port(v4.port()), octets)
        }
        SocketAddr::V6(v6) => {
            let mut octets = v6.ip().octets();
            xor_in_place(&mut octets, &mask);
            v6_address(xor_port(v6.port()), &octets)
        }
    }
}

/// Proof only. The octets of an IPv6 address determine its segments.
pub(crate) fn proof_segments_are_decoded(segments: &[u16])
    ensures { segments_of (octets_of segments.now) ≡ segments.now }
{}

/// Returns what the octets of an address are xored with: the magic cookie followed by the
/// transaction ID.
#[tactic(auto, unfolding(crate::specs::Xor::octets_mask))]
pub(crate) fn mask_of(transaction_id: TransactionId) -> [u8; 16]
    ensures { result ≡ octets_mask transaction_id }
{
    let [c0, c1, c2, c3] = MAGIC_COOKIE.to_be_bytes();
    let word = u128::from(transaction_id);
    let [_, _, _, _, n0, n1, n2, n3, n4, n5, n6, n7, n8, n9, n10, n11] = word.to_be_bytes();
    [
        c0, c1, c2, c3, n0, n1, n2, n3, n4, n5, n6, n7, n8, n9, n10, n11,
    ]
}

/// Xors bytes with a mask of at least their length.
pub(crate) fn xor_in_place(bytes: &mut [u8], mask: &[u8])
    requires { length bytes.old ≤ length mask.now }
    ensures { bytes.new ≡ xor_bytes bytes.old mask.now }
{
    for i in 0..bytes.len() {
        bytes[i] ^= mask[i];
    }
}

/// Xors a port with the top 16 bits of the magic cookie.
#[tactic(auto, using(crate::proofs::Masks::port_xored))]
pub(crate) fn xor_port(port: u16) -> u16
    ensures { big_bytes 2 result ≡ xor_bytes (big_bytes 2 port) cookie_head }
{
    port ^ COOKIE_HEAD
}

//! Reads a message. No function here allocates.

ghost use Rattle.std.specs.Prelude.{◌≡◌, ◌≢◌, ◌↔◌, ℕ, IsTrue, MatchOption, true, false};
ghost use Rattle.std.specs.List.{list_all};
ghost use Rattle.std.specs.declared.net.socket_addr.SocketAddr.TheVariants.{V4};
ghost use Rattle.std.specs.declared.net.socket_addr.SocketAddrV4.{SocketAddrV4 as AddrV4};
ghost use Rattle.stun_types_wire.specs.Grammar.{IsMessage};
ghost use Rattle.bench_codec.specs.declared.allocation.Allocation.{Allocation as Reported};
ghost use Rattle.bench_codec.specs.Allocated.{Reports, ReportsAddress, ReportsLifetime, shows_kind};
ghost use Rattle.stun_types_wire.specs.Registry.{fingerprint_kind, xor_mapped_address_kind};
ghost use Rattle.turn_types_attributes.specs.TurnRegistry.{xor_relayed_address_kind};

use crate::allocation::Allocation;
use std::convert::TryFrom;
use std::net::{SocketAddr, SocketAddrV4};
use stun_types_attributes::xor_mapped_address::XorMappedAddress;
use stun_types_integrity::integrity_sha1::MessageIntegrity;
use stun_types_message::parsed::Message;
use stun_types_wire::attribute::AttributeType;
use stun_types_wire::registry::{FINGERPRINT, SOFTWARE};
use stun_types_write::attribute::AttributeStaticType;
use turn_types_attributes::lifetime::Lifetime;
use turn_types_attributes::xor_relayed_address::XorRelayedAddress;

/// Returns whether bytes are a message.
#[unsafe(no_mangle)]
pub extern "C" fn stun_bench_parse(bytes: &[u8]) -> bool
    ensures { IsTrue result ↔ IsMessage bytes.now }
{
    Message::from_bytes(bytes).is_ok()
}

/// Returns whether bytes are a message with a visible attribute of each of these types.
#[unsafe(no_mangle)]
pub extern "C" fn stun_bench_shows(bytes: &[u8], atypes: &[u16]) -> bool
    ensures { IsTrue result ↔ (IsMessage bytes.now
        × IsTrue (list_all (λ kind. shows_kind kind bytes.now) atypes.now)) }
{
    let Ok(message) = Message::from_bytes(bytes) else {
        return false;
    };
    shows_each(&message, atypes)
}

/// Reads the success response to an ALLOCATE with one look-up per attribute, and reports whether it
/// has a FINGERPRINT.
///
/// Returns false and writes nothing if:
///
/// - the bytes are not a message;
/// - an IPv4 XOR-RELAYED-ADDRESS, an IPv4 XOR-MAPPED-ADDRESS or a LIFETIME is missing or malformed;
/// - SOFTWARE or MESSAGE-INTEGRITY is missing.
#[unsafe(no_mangle)]
pub extern "C" fn stun_bench_read(
    bytes: &[u8],
    reported: &mut Allocation,
    has_fingerprint: &mut bool,
) -> bool
    ensures read { result ≡ true → IsMessage bytes.now × Reports bytes.now reported.new }
    ensures fingerprint { result ≡ true → has_fingerprint.new
        ≡ shows_kind fingerprint_kind bytes.now }
    ensures refused { result ≡ false → IsMessage bytes.now → (other : Reported)
        → ¬ Reports bytes.now other }
    ensures unchanged { result ≡ false → (reported.new ≡ reported.old)
        × (has_fingerprint.new ≡ has_fingerprint.old) }
{
    let Ok(message) = Message::from_bytes(bytes) else {
        return false;
    };
    let Some(read) = allocation_of(&message) else {
        return false;
    };
    *reported = read;
    *has_fingerprint = message.has_attribute(FINGERPRINT);
    true
}

/// Returns whether a message has a visible attribute of each of these types.
fn shows_each(message: &Message, atypes: &[u16]) -> bool
    ensures { result ≡ list_all (λ kind. shows_kind kind message.now) atypes.now }
{
    atypes
        .iter()
        .all(|atype| message.has_attribute(AttributeType(*atype)))
}

/// Returns the allocation that a message describes.
fn allocation_of(message: &Message) -> Option<Allocation>
    ensures { MatchOption result ((reported : Reported) → ¬ Reports message.now reported) (Reports
        message.now) }
{
    let relayed = relayed_of(message)?;
    let mapped = mapped_of(message)?;
    let lifetime = lifetime_of(message)?;
    if !message.has_attribute(SOFTWARE) || !message.has_attribute(MessageIntegrity::TYPE) {
        return None;
    }
    Some(Allocation {
        relayed_ip: relayed.ip().to_bits(),
        mapped_ip: mapped.ip().to_bits(),
        lifetime,
        relayed_port: relayed.port(),
        mapped_port: mapped.port(),
    })
}

/// Returns the relayed address if it is an IPv4 address.
fn relayed_of(message: &Message) -> Option<SocketAddrV4>
    ensures { MatchOption result ((addr : AddrV4)
        → ¬ ReportsAddress xor_relayed_address_kind message.now addr)
        (ReportsAddress xor_relayed_address_kind message.now) }
{
    let raw = message.raw_attribute(XorRelayedAddress::TYPE)?;
    match XorRelayedAddress::try_from(&raw) {
        Ok(read) => v4_of(read.addr(message.transaction_id())),
        Err(_) => None,
    }
}

/// Returns the address from which the request came, if it is an IPv4 address.
fn mapped_of(message: &Message) -> Option<SocketAddrV4>
    ensures { MatchOption result ((addr : AddrV4)
        → ¬ ReportsAddress xor_mapped_address_kind message.now addr)
        (ReportsAddress xor_mapped_address_kind message.now) }
{
    let raw = message.raw_attribute(XorMappedAddress::TYPE)?;
    match XorMappedAddress::try_from(&raw) {
        Ok(read) => v4_of(read.addr(message.transaction_id())),
        Err(_) => None,
    }
}

/// Returns the lifetime of the allocation in seconds.
fn lifetime_of(message: &Message) -> Option<u32>
    ensures { MatchOption result ((seconds : ℕ) → ¬ ReportsLifetime message.now seconds)
        (ReportsLifetime message.now) }
{
    let raw = message.raw_attribute(Lifetime::TYPE)?;
    match Lifetime::try_from(&raw) {
        Ok(read) => Some(read.seconds()),
        Err(_) => None,
    }
}

/// Returns the address if it is an IPv4 address.
fn v4_of(addr: SocketAddr) -> Option<SocketAddrV4>
    ensures { MatchOption result ((v4 : AddrV4) → addr ≢ V4 v4) (λ v4. addr ≡ V4 v4) }
{
    match addr {
        SocketAddr::V4(v4) => Some(v4),
        SocketAddr::V6(_) => None,
    }
}

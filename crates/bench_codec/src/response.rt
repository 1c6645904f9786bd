//! Writes the success response to an ALLOCATE with any writer.

ghost use Rattle.std.specs.Prelude.{◌≡◌, [], OnOk};
ghost use Rattle.stun_types_wire.specs.Text.{message_text};
ghost use Rattle.stun_types_write.specs.Adding.{IsStarted, attr_of};
ghost use Rattle.stun_types_write.specs.Outcomes.{IsAdded};
ghost use Rattle.stun_types_attributes.specs.Addresses.{address_value};
ghost use Rattle.stun_types_wire.specs.Shape.{rank};
ghost use Rattle.bench_codec.specs.Allocated.{granted_type, IsMarked, allocated_text, index_value};

use crate::allocation::Allocation;
use std::net::{Ipv4Addr, SocketAddr, SocketAddrV4};
use stun_types_add::ext::{MessageWriteExt, add_as};
use stun_types_attributes::xor_mapped_address::XorMappedAddress;
use stun_types_integrity::key::IntegrityKey;
use stun_types_wire::attribute::{AttributeType, RawAttribute};
use stun_types_wire::class::{MessageClass, MessageType, Method};
use stun_types_wire::error::StunWriteError;
use stun_types_wire::registry;
use stun_types_wire::transaction::TransactionId;
use stun_types_write::writer::MessageWrite;
use turn_types_attributes::lifetime::Lifetime;
use turn_types_attributes::registry::ALLOCATE;
use turn_types_attributes::xor_relayed_address::XorRelayedAddress;

/// Returns the message type of the response.
pub(crate) fn response_type() -> MessageType
    ensures { result ≡ granted_type }
{
    MessageType::from_class_method(MessageClass::Success, ALLOCATE)
}

/// Adds the response's attributes to a started response: XOR-RELAYED-ADDRESS, LIFETIME,
/// XOR-MAPPED-ADDRESS and SOFTWARE. Fails with `TooLarge` if SOFTWARE has more than 763 bytes, and
/// as an add fails.
pub(crate) fn add_response<W: MessageWrite>(
    writer: &mut W,
    reported: &Allocation,
    number: u64,
    software: &[u8],
) -> Result<(), StunWriteError>
    requires started { IsStarted (W.draft writer.old).bytes }
    ensures text { OnOk result ((W.draft writer.old).bytes ≡ message_text granted_type number []
        → (W.draft writer.new).bytes ≡ allocated_text reported.now number software.now) }
    ensures started { OnOk result (IsStarted (W.draft writer.new).bytes) }
{
    let number = TransactionId::from(u128::from(number));
    let relayed = XorRelayedAddress::new(
        address(reported.relayed_ip, reported.relayed_port),
        number,
    );
    let lifetime = Lifetime::new(reported.lifetime);
    let mapped = XorMappedAddress::new(address(reported.mapped_ip, reported.mapped_port), number);
    add_as(writer, &relayed, &relayed)?;
    add_as(writer, &lifetime, &lifetime)?;
    add_as(writer, &mapped, &mapped)?;
    add_text(writer, registry::SOFTWARE, software)
}

/// Adds an attribute with a text. Its type is neither an integrity attribute nor FINGERPRINT. Fails
/// with `TooLarge` if the text has more than 763 bytes, and as an add fails.
// Inlined into its callers, like the other adds.
#[inline(always)]
pub(crate) fn add_text<W: MessageWrite>(
    writer: &mut W,
    atype: AttributeType,
    text: &[u8],
) -> Result<(), StunWriteError>
    requires started { IsStarted (W.draft writer.old).bytes }
    requires ordinary { rank atype.0 ≡ 0 }
    ensures { OnOk result (IsAdded (attr_of atype.0 text.now)
        (W.draft writer.old) (W.draft writer.new)) }
{
    if text.len() > registry::MAX_TEXT_LENGTH {
        return Err(StunWriteError::TooLarge {
            expected: registry::MAX_TEXT_LENGTH,
            actual: text.len(),
        });
    }
    let raw = RawAttribute::new(atype, text);
    let added = add_as(writer, &raw, &raw);
    drop(raw);
    added
}

/// Adds to the response the integrity attribute of the key's algorithm and a FINGERPRINT. Fails as
/// an add fails.
pub(crate) fn mark_response<W: MessageWrite>(
    writer: &mut W,
    key: &IntegrityKey<'_>,
) -> Result<(), StunWriteError>
    requires started { IsStarted (W.draft writer.old).bytes }
    ensures { OnOk result (IsMarked key.now.algorithm key.now.bytes
        (W.draft writer.old).bytes (W.draft writer.new).bytes) }
{
    writer.add_message_integrity_with_key(key, key.algorithm())?;
    writer.add_fingerprint()
}

/// Returns an IPv4 socket address.
fn address(ip: u32, port: u16) -> SocketAddr
    ensures { address_value result ≡ index_value ip port }
{
    SocketAddr::V4(SocketAddrV4::new(Ipv4Addr::from_octets(ip.to_be_bytes()), port))
}

//! Starting a message and adding attributes to it.

ghost use Rattle.std.specs.Prelude.{◌≡◌, ◌+◌, ◌*◌, ◌≤◌, ◌<◌, ◌^◌, [], ◌∷◌, length, IfOk, OnOk};
ghost use Rattle.stun_types_write.specs.Adding.{attr_of};
ghost use Rattle.stun_types_write.specs.Lent.{own_draft};
ghost use Rattle.stun_types_wire.specs.Types.{type_of};
ghost use Rattle.turn_client_proto_messages.specs.Composing.{IsGrown, IsOpen, IsSmall, IsUnsigned, most_before, most_per_attribute};
ghost use Rattle.turn_client_proto_messages.specs.Requests.{channel_attribute, connection_attribute, dont_fragment_attribute, even_port_attribute, families_attributes, families_beside, lifetime_attribute, peer_attribute, peer_of, peers_attributes, port_attributes, protocol_of, reservation_attribute, transport_attribute};

use std::alloc::Global;
use std::net::{IpAddr, SocketAddr};
use stun_types_add::ext::add_as;
use stun_types_base::family::AddressFamily;
use stun_types_base::memory::NoMemory;
use stun_types_base::transport::TransportType;
use stun_types_message::parsed::Message;
use stun_types_wire::class::{MessageClass, MessageType, Method};
use stun_types_wire::error::StunWriteError;
use stun_types_wire::transaction::TransactionId;
use stun_types_write::attribute::{Attribute, AttributeWrite};
use stun_types_write::vec::MessageWriteVec;
use turn_client_proto_api::families::RequestedFamilies;
use turn_client_proto_api::options::RelayedPort;
use turn_types_attributes::additional_address_family::AdditionalAddressFamily;
use turn_types_attributes::dont_fragment::DontFragment;
use turn_types_attributes::even_port::EvenPort;
use turn_types_attributes::lifetime::Lifetime;
use turn_types_attributes::requested_address_family::RequestedAddressFamily;
use turn_types_attributes::requested_transport::RequestedTransport;
use turn_types_attributes::reservation_token::ReservationToken;
use turn_types_peer::channel_number::ChannelNumber;
use turn_types_peer::connection_id::ConnectionId;
use turn_types_peer::xor_peer_address::XorPeerAddress;

/// Returns a message of this class, method and transaction ID without attributes. Fails with
/// `NoMemory` if memory runs out.
pub(crate) fn begin(
    alloc: Global,
    class: MessageClass,
    method: Method,
    transaction_id: TransactionId,
) -> Result<MessageWriteVec, NoMemory>
    requires { method.0 < 2 ^ 12 }
    ensures unsigned { IfOk result (λ draft. IsUnsigned (type_of class method.0) transaction_id []
        (own_draft draft)) }
    ensures is_open { IfOk result (λ draft. IsOpen (own_draft draft)) }
    ensures size { IfOk result (λ draft. length (own_draft draft).bytes ≤ 20) }
{
    let mtype = MessageType::from_class_method(class, method);
    let draft = Message::builder(mtype, transaction_id, MessageWriteVec::new(alloc))?;
    Ok(draft)
}

/// Adds an attribute, for which the message has room. `attribute` and `same` are the same
/// attribute. Fails with `NoMemory` if memory runs out.
#[tactic(auto, using(crate::proofs::Growing::open_room))]
pub(crate) fn add<A: AttributeWrite>(
    draft: &mut MessageWriteVec,
    attribute: &dyn AttributeWrite,
    same: &A,
) -> Result<(), NoMemory>
    requires is_open { IsOpen (own_draft draft.old) }
    requires room { length (own_draft draft.old).bytes ≤ most_before }
    requires small { IsSmall (attr_of (A.kind same.now) (A.value same.now)) }
    requires kind { (⟦<dyn AttributeWrite as Attribute>⟧ attribute.now.0).kind attribute.now.1
        ≡ A.kind same.now }
    requires value { (⟦<dyn AttributeWrite as Attribute>⟧ attribute.now.0).value attribute.now.1
        ≡ A.value same.now }
    ensures { OnOk result (IsGrown (attr_of (A.kind same.now) (A.value same.now) ∷ [])
        (own_draft draft.old) (own_draft draft.new)) }
{
    match add_as(draft, attribute, same) {
        Ok(()) => Ok(()),
        Err(StunWriteError::NoMemory) => Err(NoMemory),
        Err(_) => unreachable!(),
    }
}

/// Adds LIFETIME, in seconds (RFC 8656, section 18.2). Fails with `NoMemory` if memory runs out.
pub(crate) fn add_lifetime(draft: &mut MessageWriteVec, seconds: u32) -> Result<(), NoMemory>
    requires is_open { IsOpen (own_draft draft.old) }
    requires room { length (own_draft draft.old).bytes ≤ most_before }
    ensures { OnOk result (IsGrown (lifetime_attribute seconds ∷ [])
        (own_draft draft.old) (own_draft draft.new)) }
{
    let lifetime = Lifetime::new(seconds);
    add(draft, &lifetime, &lifetime)
}

/// Adds REQUESTED-TRANSPORT (RFC 8656, section 18.8). Fails with `NoMemory` if memory runs out.
pub(crate) fn add_transport(
    draft: &mut MessageWriteVec,
    transport: TransportType,
) -> Result<(), NoMemory>
    requires is_open { IsOpen (own_draft draft.old) }
    requires room { length (own_draft draft.old).bytes ≤ most_before }
    ensures { OnOk result (IsGrown (transport_attribute transport ∷ [])
        (own_draft draft.old) (own_draft draft.new)) }
{
    let requested = RequestedTransport::new(protocol_of(transport));
    add(draft, &requested, &requested)
}

/// Returns the protocol number of a transport (RFC 8656, section 18.8; RFC 6062, section 4.1).
fn protocol_of(transport: TransportType) -> u8
    ensures { result ≡ protocol_of transport }
{
    match transport {
        TransportType::Udp => RequestedTransport::UDP,
        TransportType::Tcp => RequestedTransport::TCP,
    }
}

/// Adds DONT-FRAGMENT (RFC 8656, section 18.9). Fails with `NoMemory` if memory runs out.
pub(crate) fn add_dont_fragment(draft: &mut MessageWriteVec) -> Result<(), NoMemory>
    requires is_open { IsOpen (own_draft draft.old) }
    requires room { length (own_draft draft.old).bytes ≤ most_before }
    ensures { OnOk result (IsGrown (dont_fragment_attribute ∷ [])
        (own_draft draft.old) (own_draft draft.new)) }
{
    let dont_fragment = DontFragment::new();
    add(draft, &dont_fragment, &dont_fragment)
}

/// Adds the requested address families (RFC 8656, sections 18.6 and 18.11). Fails with `NoMemory`
/// if memory runs out.
///
/// - IPv4 alone: adds nothing.
/// - IPv6 alone: adds REQUESTED-ADDRESS-FAMILY of IPv6.
/// - Both: adds ADDITIONAL-ADDRESS-FAMILY of IPv6.
fn add_families(draft: &mut MessageWriteVec, families: RequestedFamilies) -> Result<(), NoMemory>
    requires is_open { IsOpen (own_draft draft.old) }
    requires room { length (own_draft draft.old).bytes ≤ most_before }
    ensures families { OnOk result (IsGrown (families_attributes families)
        (own_draft draft.old) (own_draft draft.new)) }
    ensures short { OnOk result (length (own_draft draft.new).bytes
        ≤ length (own_draft draft.old).bytes + most_per_attribute) }
{
    if !families.contains(AddressFamily::IPV6) {
        return Ok(());
    }
    let requested = families.as_slice();
    if requested.len() == 1 {
        let requested = RequestedAddressFamily::new(AddressFamily::IPV6);
        add(draft, &requested, &requested)
    } else {
        let additional = AdditionalAddressFamily::new(AddressFamily::IPV6);
        add(draft, &additional, &additional)
    }
}

/// Adds the requested address families beside a requested port: none beside a reserved one (RFC
/// 8656, section 7.1). Fails with `NoMemory` if memory runs out.
pub(crate) fn add_families_beside(
    draft: &mut MessageWriteVec,
    port: RelayedPort,
    families: RequestedFamilies,
) -> Result<(), NoMemory>
    requires is_open { IsOpen (own_draft draft.old) }
    requires room { length (own_draft draft.old).bytes ≤ most_before }
    ensures families { OnOk result (IsGrown (families_beside port families)
        (own_draft draft.old) (own_draft draft.new)) }
    ensures short { OnOk result (length (own_draft draft.new).bytes
        ≤ length (own_draft draft.old).bytes + most_per_attribute) }
{
    match port {
        RelayedPort::Any | RelayedPort::Even | RelayedPort::EvenAndNextReserved => {
            add_families(draft, families)
        }
        RelayedPort::Reserved(_) => Ok(()),
    }
}

/// Adds EVEN-PORT or RESERVATION-TOKEN for a requested port, or nothing for any port (RFC 8656,
/// sections 18.7 and 18.10). Fails with `NoMemory` if memory runs out.
pub(crate) fn add_port(draft: &mut MessageWriteVec, port: RelayedPort) -> Result<(), NoMemory>
    requires is_open { IsOpen (own_draft draft.old) }
    requires room { length (own_draft draft.old).bytes ≤ most_before }
    ensures port { OnOk result (IsGrown (port_attributes port)
        (own_draft draft.old) (own_draft draft.new)) }
    ensures short { OnOk result (length (own_draft draft.new).bytes
        ≤ length (own_draft draft.old).bytes + most_per_attribute) }
{
    match port {
        RelayedPort::Any => Ok(()),
        RelayedPort::Even => add_even_port(draft, false),
        RelayedPort::EvenAndNextReserved => add_even_port(draft, true),
        RelayedPort::Reserved(token) => add_reservation(draft, token),
    }
}

/// Adds EVEN-PORT, which requests also the next port if `reserves_next` (RFC 8656, section 18.7).
/// Fails with `NoMemory` if memory runs out.
fn add_even_port(draft: &mut MessageWriteVec, reserves_next: bool) -> Result<(), NoMemory>
    requires is_open { IsOpen (own_draft draft.old) }
    requires room { length (own_draft draft.old).bytes ≤ most_before }
    ensures { OnOk result (IsGrown (even_port_attribute reserves_next ∷ [])
        (own_draft draft.old) (own_draft draft.new)) }
{
    let even_port = EvenPort::new(reserves_next);
    add(draft, &even_port, &even_port)
}

/// Adds RESERVATION-TOKEN, whose most significant byte comes first (RFC 8656, section 18.10). Fails
/// with `NoMemory` if memory runs out.
fn add_reservation(draft: &mut MessageWriteVec, token: u64) -> Result<(), NoMemory>
    requires is_open { IsOpen (own_draft draft.old) }
    requires room { length (own_draft draft.old).bytes ≤ most_before }
    ensures { OnOk result (IsGrown (reservation_attribute token ∷ [])
        (own_draft draft.old) (own_draft draft.new)) }
{
    let reservation = ReservationToken::new(token.to_be_bytes());
    add(draft, &reservation, &reservation)
}

/// Adds XOR-PEER-ADDRESS to a message with this transaction ID (RFC 8656, section 18.3). Fails with
/// `NoMemory` if memory runs out.
pub(crate) fn add_peer(
    draft: &mut MessageWriteVec,
    transaction_id: TransactionId,
    peer: SocketAddr,
) -> Result<(), NoMemory>
    requires is_open { IsOpen (own_draft draft.old) }
    requires room { length (own_draft draft.old).bytes ≤ most_before }
    ensures { OnOk result (IsGrown (peer_attribute transaction_id peer ∷ [])
        (own_draft draft.old) (own_draft draft.new)) }
{
    let peer = XorPeerAddress::new(peer, transaction_id);
    add(draft, &peer, &peer)
}

/// Adds an XOR-PEER-ADDRESS for each of the IP addresses, in order (RFC 8656, section 18.3). Fails
/// with `NoMemory` if memory runs out.
pub(crate) fn add_peers(
    draft: &mut MessageWriteVec,
    transaction_id: TransactionId,
    ips: &[IpAddr],
) -> Result<(), NoMemory>
    requires is_open { IsOpen (own_draft draft.old) }
    requires room { length (own_draft draft.old).bytes + most_per_attribute * length ips.now
        ≤ most_before }
    ensures { OnOk result (IsGrown (peers_attributes transaction_id ips.now)
        (own_draft draft.old) (own_draft draft.new)) }
{
    let Some((first, others)) = ips.split_first() else {
        return Ok(());
    };
    add_peer(draft, transaction_id, peer_of(*first))?;
    add_peers(draft, transaction_id, others)
}

/// Returns the peer with this IP address and a port that the server ignores (RFC 8656, section
/// 10.1).
fn peer_of(ip: IpAddr) -> SocketAddr
    ensures { result ≡ peer_of ip }
{
    SocketAddr::new(ip, 0)
}

/// Adds CHANNEL-NUMBER (RFC 8656, section 18.1). Fails with `NoMemory` if memory runs out.
pub(crate) fn add_channel(draft: &mut MessageWriteVec, channel: u16) -> Result<(), NoMemory>
    requires is_open { IsOpen (own_draft draft.old) }
    requires room { length (own_draft draft.old).bytes ≤ most_before }
    ensures { OnOk result (IsGrown (channel_attribute channel ∷ [])
        (own_draft draft.old) (own_draft draft.new)) }
{
    let channel = ChannelNumber::new(channel);
    add(draft, &channel, &channel)
}

/// Adds CONNECTION-ID (RFC 6062, section 6.2.1). Fails with `NoMemory` if memory runs out.
pub(crate) fn add_connection(draft: &mut MessageWriteVec, connection: u32) -> Result<(), NoMemory>
    requires is_open { IsOpen (own_draft draft.old) }
    requires room { length (own_draft draft.old).bytes ≤ most_before }
    ensures { OnOk result (IsGrown (connection_attribute connection ∷ [])
        (own_draft draft.old) (own_draft draft.new)) }
{
    let connection = ConnectionId::new(connection);
    add(draft, &connection, &connection)
}

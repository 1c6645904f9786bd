//! Requests before they are signed.

ghost use Rattle.std.specs.Prelude.{◌≡◌, ◌≤◌, ◌<◌, ◌^◌, [], ◌∷◌, length, IfOk};
ghost use Rattle.stun_types_write.specs.Lent.{own_draft};
ghost use Rattle.stun_types_wire.specs.declared.class.MessageClass.TheVariants.{Request};
ghost use Rattle.stun_types_wire.specs.Types.{type_of};
ghost use Rattle.turn_client_proto_api.specs.Limits.{most_peer_ips};
ghost use Rattle.turn_client_proto_messages.specs.Composing.{IsRequest, IsUnsigned, most_before};
ghost use Rattle.turn_client_proto_messages.specs.Requests.{peer_attribute};

use crate::attributes::{
    add_channel, add_connection, add_dont_fragment, add_families_beside, add_lifetime, add_peer,
    add_peers, add_port, add_transport, begin,
};
use crate::request::TurnRequest;
use std::alloc::Global;
use std::net::{IpAddr, SocketAddr};
use stun_types_base::memory::NoMemory;
use stun_types_base::transport::TransportType;
use stun_types_wire::class::{MessageClass, Method};
use stun_types_wire::transaction::TransactionId;
use stun_types_write::vec::MessageWriteVec;
use turn_client_proto_api::families::RequestedFamilies;
use turn_client_proto_api::options::AllocateOptions;
use turn_types_attributes::registry::{
    ALLOCATE, CHANNEL_BIND, CONNECT, CONNECTION_BIND, CREATE_PERMISSION, REFRESH,
};

/// Returns the request with this transaction ID, not signed yet. Fails with `NoMemory` if memory
/// runs out.
pub(crate) fn write_unsigned(
    alloc: Global,
    transaction_id: TransactionId,
    request: TurnRequest<'_>,
) -> Result<MessageWriteVec, NoMemory>
    ensures request { IfOk result (λ draft.
        IsRequest request.entry transaction_id (own_draft draft)) }
    ensures short { IfOk result (λ draft. length (own_draft draft).bytes ≤ most_before) }
{
    match request {
        TurnRequest::FirstAllocate(transport, families, options) => {
            write_first_allocate(alloc, transaction_id, transport, families, options)
        }
        TurnRequest::Allocate(transport, families, options) => {
            write_allocate(alloc, transaction_id, transport, families, options)
        }
        TurnRequest::Refresh(lifetime) => write_refresh(alloc, transaction_id, lifetime),
        TurnRequest::CreatePermission(peers) => {
            write_create_permission(alloc, transaction_id, peers.as_slice())
        }
        TurnRequest::ChannelBind(channel, peer) => {
            write_channel_bind(alloc, transaction_id, channel, peer)
        }
        TurnRequest::Connect(peer) => write_to_peer(alloc, CONNECT, transaction_id, peer),
        TurnRequest::ConnectionBind(connection) => {
            write_connection_bind(alloc, transaction_id, connection)
        }
    }
}

/// Returns the ALLOCATE before any challenge, with LIFETIME, REQUESTED-TRANSPORT, DONT-FRAGMENT, the
/// port and the families (RFC 8656, section 7.1). Fails with `NoMemory` if memory runs out.
fn write_first_allocate(
    alloc: Global,
    transaction_id: TransactionId,
    transport: TransportType,
    families: RequestedFamilies,
    options: AllocateOptions,
) -> Result<MessageWriteVec, NoMemory>
    ensures request { IfOk result (λ draft.
        IsRequest (TurnRequest.FirstAllocate transport families options) transaction_id
        (own_draft draft)) }
    ensures short { IfOk result (λ draft. length (own_draft draft).bytes ≤ most_before) }
{
    let mut first = begin(alloc, MessageClass::Request, ALLOCATE, transaction_id)?;
    add_lifetime(&mut first, options.lifetime)?;
    add_transport(&mut first, transport)?;
    add_dont_fragment(&mut first)?;
    add_port(&mut first, options.port)?;
    add_families_beside(&mut first, options.port, families)?;
    Ok(first)
}

/// Returns the ALLOCATE that is to be signed, with REQUESTED-TRANSPORT, LIFETIME, the port and the
/// families (RFC 8656, section 7.1). Fails with `NoMemory` if memory runs out.
fn write_allocate(
    alloc: Global,
    transaction_id: TransactionId,
    transport: TransportType,
    families: RequestedFamilies,
    options: AllocateOptions,
) -> Result<MessageWriteVec, NoMemory>
    ensures request { IfOk result (λ draft.
        IsRequest (TurnRequest.Allocate transport families options) transaction_id
        (own_draft draft)) }
    ensures short { IfOk result (λ draft. length (own_draft draft).bytes ≤ most_before) }
{
    let mut draft = begin(alloc, MessageClass::Request, ALLOCATE, transaction_id)?;
    add_transport(&mut draft, transport)?;
    add_lifetime(&mut draft, options.lifetime)?;
    add_port(&mut draft, options.port)?;
    add_families_beside(&mut draft, options.port, families)?;
    Ok(draft)
}

/// Returns the REFRESH, with LIFETIME (RFC 8656, section 8.1). Fails with `NoMemory` if memory runs
/// out.
fn write_refresh(
    alloc: Global,
    transaction_id: TransactionId,
    lifetime: u32,
) -> Result<MessageWriteVec, NoMemory>
    ensures request { IfOk result (λ draft. IsRequest (TurnRequest.Refresh lifetime) transaction_id
        (own_draft draft)) }
    ensures short { IfOk result (λ draft. length (own_draft draft).bytes ≤ most_before) }
{
    let mut draft = begin(alloc, MessageClass::Request, REFRESH, transaction_id)?;
    add_lifetime(&mut draft, lifetime)?;
    Ok(draft)
}

/// Returns the CREATE_PERMISSION, with an XOR-PEER-ADDRESS for each of the IP addresses, in order
/// (RFC 8656, section 10.1). Fails with `NoMemory` if memory runs out.
fn write_create_permission(
    alloc: Global,
    transaction_id: TransactionId,
    ips: &[IpAddr],
) -> Result<MessageWriteVec, NoMemory>
    requires { length ips.now ≤ most_peer_ips }
    ensures request { IfOk result (λ draft. IsRequest (TurnRequest.CreatePermission ips.now)
        transaction_id
        (own_draft draft)) }
    ensures short { IfOk result (λ draft. length (own_draft draft).bytes ≤ most_before) }
{
    let mut draft = begin(
        alloc,
        MessageClass::Request,
        CREATE_PERMISSION,
        transaction_id,
    )?;
    add_peers(&mut draft, transaction_id, ips)?;
    Ok(draft)
}

/// Returns a request whose only attribute is XOR-PEER-ADDRESS. Fails with `NoMemory` if memory runs
/// out.
fn write_to_peer(
    alloc: Global,
    method: Method,
    transaction_id: TransactionId,
    peer: SocketAddr,
) -> Result<MessageWriteVec, NoMemory>
    requires { method.0 < 2 ^ 12 }
    ensures request { IfOk result (λ draft. IsUnsigned (type_of Request method.0) transaction_id
        (peer_attribute transaction_id peer ∷ []) (own_draft draft)) }
    ensures short { IfOk result (λ draft. length (own_draft draft).bytes ≤ most_before) }
{
    let mut draft = begin(alloc, MessageClass::Request, method, transaction_id)?;
    add_peer(&mut draft, transaction_id, peer)?;
    Ok(draft)
}

/// Returns the CHANNEL_BIND, with CHANNEL-NUMBER and XOR-PEER-ADDRESS (RFC 8656, section 12.1).
/// Fails with `NoMemory` if memory runs out.
fn write_channel_bind(
    alloc: Global,
    transaction_id: TransactionId,
    channel: u16,
    peer: SocketAddr,
) -> Result<MessageWriteVec, NoMemory>
    ensures request { IfOk result (λ draft. IsRequest (TurnRequest.ChannelBind channel peer)
        transaction_id
        (own_draft draft)) }
    ensures short { IfOk result (λ draft. length (own_draft draft).bytes ≤ most_before) }
{
    let mut draft = begin(alloc, MessageClass::Request, CHANNEL_BIND, transaction_id)?;
    add_channel(&mut draft, channel)?;
    add_peer(&mut draft, transaction_id, peer)?;
    Ok(draft)
}

/// Returns the CONNECTION_BIND, with CONNECTION-ID (RFC 6062, section 4.3). Fails with `NoMemory`
/// if memory runs out.
fn write_connection_bind(
    alloc: Global,
    transaction_id: TransactionId,
    connection: u32,
) -> Result<MessageWriteVec, NoMemory>
    ensures request { IfOk result (λ draft. IsRequest (TurnRequest.ConnectionBind connection)
        transaction_id
        (own_draft draft)) }
    ensures short { IfOk result (λ draft. length (own_draft draft).bytes ≤ most_before) }
{
    let mut draft = begin(
        alloc,
        MessageClass::Request,
        CONNECTION_BIND,
        transaction_id,
    )?;
    add_connection(&mut draft, connection)?;
    Ok(draft)
}

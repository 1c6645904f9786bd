//! Printing of results.

ghost use Rattle.std.specs.Prelude.{◌≡◌, ◌++◌, IfOk, OnOk, codes, decimal, string_bytes};
ghost use Rattle.std.specs.List.{flat_map};
ghost use Rattle.std.specs.Option.{option_map};
ghost use Rattle.std.specs.Net.Text.{socket_text};
ghost use Rattle.line_io.specs.LowerHex.{hex_text};
ghost use Rattle.turn_desk_event.specs.Printed.{address_text, alternate_line, answer_text, answer_words, between_text, bind_error_text, cause_line, cause_text, channel_text, connection_text, delete_error_text, domain_text, event_text, family_word, have_text, icmp_text, mapped_line, permission_error_text, permissions_error_text, permitted_text, placed_text, refusal_text, relayed_text, send_error_text, signed_text, socket_error_text, transport_word, bound_text, connect_error_text};

use crate::answer::{Answer, Refusal};
use line_io::lower_hex::write_hex;
use std::alloc::{AllocError, Global};
use std::net::{IpAddr, SocketAddr};
use stun_types_base::family::AddressFamily;
use stun_types_base::transport::TransportType;
use turn_client_proto_api::answer::Socket5Tuple;
use turn_client_proto_api::cause::TurnCause;
use turn_client_proto_api::error::{
    BindChannelError, CreatePermissionError, CreatePermissionsError, DeleteError, SendError,
    TcpAllocateError, TcpConnectError,
};
use turn_client_proto_api::event::TurnEvent;

/// Returns the line that is printed for a result, with its line feed.
///
/// # Errors
///
/// - `AllocError`: an allocation failed.
pub fn answer_line(alloc: Global, answer: &Answer) -> Result<String, AllocError>
    ensures { IfOk result (λ text. string_bytes text ≡ answer_text answer.now) }
{
    let mut text = print_words(alloc, answer)?;
    text.push_str("\n")?;
    Ok(text)
}

/// Returns the line that is printed for the cause of the event that was reported last, with its
/// line feed.
///
/// # Errors
///
/// - `AllocError`: an allocation failed.
pub fn cause_line(alloc: Global, cause: Option<&TurnCause>) -> Result<String, AllocError>
    ensures { IfOk result (λ text. string_bytes text
        ≡ cause_line (option_map (λ c. c.now) cause.entry)) }
{
    match cause {
        Some(cause) => {
            let words = print_cause(alloc, cause)?;
            format!(in alloc; "cause {words}\n")
        }
        None => String::from_str(alloc, "cause none\n"),
    }
}

/// Returns the line that is printed for the client's address as the server saw it, with its line
/// feed.
///
/// # Errors
///
/// - `AllocError`: an allocation failed.
pub fn mapped_line(alloc: Global, mapped: Option<SocketAddr>) -> Result<String, AllocError>
    ensures { IfOk result (λ text. string_bytes text ≡ mapped_line mapped) }
{
    let address = print_address(alloc, mapped)?;
    format!(in alloc; "mapped {address}\n")
}

/// Returns the line that is printed for the server that the client was redirected to and its
/// domain, with its line feed.
///
/// # Errors
///
/// - `AllocError`: an allocation failed.
pub fn alternate_line(
    alloc: Global,
    server: Option<SocketAddr>,
    domain: Option<&str>,
) -> Result<String, AllocError>
    ensures { IfOk result (λ text. string_bytes text
        ≡ alternate_line server (option_map (λ d. d.now) domain.entry)) }
{
    let address = print_address(alloc, server)?;
    let digits = print_domain(alloc, domain)?;
    format!(in alloc; "alternate {address} {digits}\n")
}

/// Returns the line that is printed for a result, without the line feed.
fn print_words(alloc: Global, answer: &Answer) -> Result<String, AllocError>
    ensures { IfOk result (λ text. string_bytes text ≡ answer_words answer.now) }
{
    match answer {
        Answer::Reply(reply) => print_reply(alloc, reply.as_slice()),
        Answer::Nothing => String::from_str(alloc, "none"),
        Answer::Transmit(sent) => print_transmit(alloc, sent.from, sent.to, sent.bytes.as_slice()),
        Answer::Handled => String::from_str(alloc, "handled"),
        Answer::Ignored => String::from_str(alloc, "ignored"),
        Answer::Peer(data) => print_peer(alloc, data.transport, data.peer, data.data()),
        Answer::Icmp {
            transport,
            peer,
            icmp_type,
            icmp_code,
            icmp_data,
        } => print_icmp(alloc, *transport, *peer, *icmp_type, *icmp_code, *icmp_data),
        Answer::Wait(time) => format!(in alloc; "wait {}", time.as_nanos()),
        Answer::Socket { id, socket, peer } => print_socket(alloc, *id, *socket, *peer),
        Answer::Close { local, remote } => print_close(alloc, *local, *remote),
        Answer::Closed => String::from_str(alloc, "closed"),
        Answer::Event(event) => print_event(alloc, *event),
        Answer::Done => String::from_str(alloc, "ok"),
        Answer::Refused(refusal) => print_refusal(alloc, *refusal),
        Answer::Have(occurs) => String::from_str(alloc, name_of_have(*occurs)),
        Answer::Relayed(list) => print_relayed(alloc, list.as_slice()),
        Answer::Permissions(list) => print_permissions(alloc, list.as_slice()),
        Answer::Channels(list) => print_channels(alloc, list.as_slice()),
        Answer::Connections(list) => print_connections(alloc, list.as_slice()),
        Answer::OutOfRange => String::from_str(alloc, "out of range"),
    }
}

/// `reply HEX`
fn print_reply(alloc: Global, reply: &[u8]) -> Result<String, AllocError>
    ensures { IfOk result (λ text. string_bytes text ≡ codes "reply " ++ hex_text reply.now) }
{
    let digits = write_hex(alloc, reply)?;
    format!(in alloc; "reply {digits}")
}

/// `transmit FROM TO HEX`
fn print_transmit(
    alloc: Global,
    from: SocketAddr,
    to: SocketAddr,
    bytes: &[u8],
) -> Result<String, AllocError>
    ensures { IfOk result (λ text. string_bytes text
        ≡ codes "transmit " ++ between_text from to ++ codes " " ++ hex_text bytes.now) }
{
    let digits = write_hex(alloc, bytes)?;
    format!(in alloc; "transmit {from} {to} {digits}")
}

/// `peer T ADDR HEX`
fn print_peer(
    alloc: Global,
    transport: TransportType,
    peer: SocketAddr,
    payload: &[u8],
) -> Result<String, AllocError>
    ensures { IfOk result (λ text. string_bytes text ≡ codes "peer "
        ++ placed_text transport (socket_text peer) ++ codes " " ++ hex_text payload.now) }
{
    let digits = write_hex(alloc, payload)?;
    format!(in alloc; "peer {} {peer} {digits}", name_of_transport(transport))
}

/// `icmp T ADDR TYPE CODE DATA`
fn print_icmp(
    alloc: Global,
    transport: TransportType,
    peer: SocketAddr,
    icmp_type: u8,
    icmp_code: u8,
    icmp_data: u32,
) -> Result<String, AllocError>
    ensures { IfOk result (λ text. string_bytes text ≡ codes "icmp "
        ++ placed_text transport (socket_text peer) ++ codes " "
        ++ icmp_text icmp_type icmp_code icmp_data) }
{
    let name = name_of_transport(transport);
    format!(in alloc; "icmp {name} {peer} {icmp_type} {icmp_code} {icmp_data}")
}

/// `socket ID FROM TO PEER`
fn print_socket(
    alloc: Global,
    id: u32,
    socket: Socket5Tuple,
    peer: SocketAddr,
) -> Result<String, AllocError>
    ensures { IfOk result (λ text. string_bytes text ≡ codes "socket " ++ decimal id ++ codes " "
        ++ between_text socket.from socket.to ++ codes " " ++ socket_text peer) }
{
    format!(in alloc; "socket {id} {} {} {peer}", socket.from, socket.to)
}

/// `close LOCAL REMOTE`
fn print_close(alloc: Global, local: SocketAddr, remote: SocketAddr) -> Result<String, AllocError>
    ensures { IfOk result (λ text. string_bytes text
        ≡ codes "close " ++ between_text local remote) }
{
    format!(in alloc; "close {local} {remote}")
}

/// `event NAME`, followed by the values of the event.
fn print_event(alloc: Global, event: TurnEvent) -> Result<String, AllocError>
    ensures { IfOk result (λ text. string_bytes text ≡ codes "event " ++ event_text event) }
{
    match event {
        TurnEvent::AllocationCreated(transport, address) => {
            format!(in alloc;
                "event AllocationCreated {} {address}",
                name_of_transport(transport)
            )
        }
        TurnEvent::AllocationCreateFailed(family) => {
            format!(in alloc; "event AllocationCreateFailed {}", name_of_family(family))
        }
        TurnEvent::PermissionCreated(transport, ip) => {
            format!(in alloc;
                "event PermissionCreated {} {ip}",
                name_of_transport(transport)
            )
        }
        TurnEvent::PermissionCreateFailed(transport, ip) => {
            format!(in alloc;
                "event PermissionCreateFailed {} {ip}",
                name_of_transport(transport)
            )
        }
        TurnEvent::ChannelCreated(transport, peer) => {
            format!(in alloc;
                "event ChannelCreated {} {peer}",
                name_of_transport(transport)
            )
        }
        TurnEvent::ChannelCreateFailed(transport, peer) => {
            format!(in alloc;
                "event ChannelCreateFailed {} {peer}",
                name_of_transport(transport)
            )
        }
        TurnEvent::TcpConnected(peer) => format!(in alloc; "event TcpConnected {peer}"),
        TurnEvent::TcpConnectFailed(peer) => format!(in alloc; "event TcpConnectFailed {peer}"),
    }
}

/// `relayed`, followed by the transport and the address of each relayed address.
fn print_relayed(alloc: Global, list: &[(TransportType, SocketAddr)]) -> Result<String, AllocError>
    ensures { IfOk result (λ text. string_bytes text
        ≡ codes "relayed" ++ flat_map relayed_text list.now) }
{
    let mut text = String::from_str(alloc, "relayed")?;
    for relayed in list {
        push_relayed(alloc, &mut text, *relayed)?;
    }
    Ok(text)
}

/// Appends the transport and the address of a relayed address, each after a space.
fn push_relayed(
    alloc: Global,
    text: &mut String,
    relayed: (TransportType, SocketAddr),
) -> Result<(), AllocError>
    ensures { OnOk result (string_bytes text.new ≡ string_bytes text.old ++ relayed_text relayed) }
{
    let (transport, address) = relayed;
    let words = format!(in alloc; " {} {address}", name_of_transport(transport))?;
    text.push_str(words.as_str())
}

/// `permissions`, followed by the address of each permission.
fn print_permissions(alloc: Global, list: &[IpAddr]) -> Result<String, AllocError>
    ensures { IfOk result (λ text. string_bytes text
        ≡ codes "permissions" ++ flat_map permitted_text list.now) }
{
    let mut text = String::from_str(alloc, "permissions")?;
    for ip in list {
        push_permitted(alloc, &mut text, *ip)?;
    }
    Ok(text)
}

/// Appends the address of a permission after a space.
fn push_permitted(alloc: Global, text: &mut String, ip: IpAddr) -> Result<(), AllocError>
    ensures { OnOk result (string_bytes text.new ≡ string_bytes text.old ++ permitted_text ip) }
{
    let word = format!(in alloc; " {ip}")?;
    text.push_str(word.as_str())
}

/// `channels`, followed by the number and the peer of each channel.
fn print_channels(alloc: Global, list: &[(u16, SocketAddr)]) -> Result<String, AllocError>
    ensures { IfOk result (λ text. string_bytes text
        ≡ codes "channels" ++ flat_map channel_text list.now) }
{
    let mut text = String::from_str(alloc, "channels")?;
    for channel in list {
        push_channel(alloc, &mut text, *channel)?;
    }
    Ok(text)
}

/// Appends the number and the peer of a channel, each after a space.
fn push_channel(
    alloc: Global,
    text: &mut String,
    channel: (u16, SocketAddr),
) -> Result<(), AllocError>
    ensures { OnOk result (string_bytes text.new ≡ string_bytes text.old ++ channel_text channel) }
{
    let (number, peer) = channel;
    let words = format!(in alloc; " {number} {peer}")?;
    text.push_str(words.as_str())
}

/// `connections`, followed by the local address, the peer, the connection ID and the bound state of
/// each connection.
fn print_connections(
    alloc: Global,
    list: &[(SocketAddr, SocketAddr, u32, bool)],
) -> Result<String, AllocError>
    ensures { IfOk result (λ text. string_bytes text
        ≡ codes "connections" ++ flat_map connection_text list.now) }
{
    let mut text = String::from_str(alloc, "connections")?;
    for connection in list {
        push_connection(alloc, &mut text, *connection)?;
    }
    Ok(text)
}

/// Appends the words for a connection, each after a space.
fn push_connection(
    alloc: Global,
    text: &mut String,
    connection: (SocketAddr, SocketAddr, u32, bool),
) -> Result<(), AllocError>
    ensures { OnOk result (string_bytes text.new
        ≡ string_bytes text.old ++ connection_text connection) }
{
    let (here, peer, number, is_bound) = connection;
    let words = format!(in alloc; " {here} {peer} {number} {}", name_of_bound(is_bound))?;
    text.push_str(words.as_str())
}

/// Returns the word for whether a connection is bound.
fn name_of_bound(is_bound: bool) -> &'static str
    ensures { result.now ≡ bound_text is_bound }
{
    if is_bound { "bound" } else { "waiting" }
}

/// `refused NAME`; the name for an expired channel is followed by its time.
fn print_refusal(alloc: Global, refusal: Refusal) -> Result<String, AllocError>
    ensures { IfOk result (λ text. string_bytes text ≡ codes "refused " ++ refusal_text refusal) }
{
    match refusal {
        Refusal::Delete(error) => format!(in alloc; "refused {}", name_of_delete_error(error)),
        Refusal::CreatePermission(error) => {
            format!(in alloc; "refused {}", name_of_permission_error(error))
        }
        Refusal::CreatePermissions(error) => {
            format!(in alloc; "refused {}", name_of_permissions_error(error))
        }
        Refusal::BindChannel(error) => print_bind_refusal(alloc, error),
        Refusal::TcpConnect(error) => format!(in alloc; "refused {}", name_of_connect_error(error)),
        Refusal::TcpAllocate(error) => format!(in alloc; "refused {}", name_of_socket_error(error)),
        Refusal::Send(error) => format!(in alloc; "refused {}", name_of_send_error(error)),
    }
}

/// Returns the name of a `TcpConnectError`.
fn name_of_connect_error(error: TcpConnectError) -> &'static str
    ensures { result.now ≡ connect_error_text error }
{
    match error {
        TcpConnectError::AlreadyExists => "AlreadyExists",
        TcpConnectError::NoAllocation => "NoAllocation",
        TcpConnectError::NoPermission => "NoPermission",
        _ => "NoMemory",
    }
}

/// Returns the name of a `TcpAllocateError`.
fn name_of_socket_error(error: TcpAllocateError) -> &'static str
    ensures { result.now ≡ socket_error_text error }
{
    match error {
        TcpAllocateError::AlreadyExists => "AlreadyExists",
        TcpAllocateError::NoAllocation => "NoAllocation",
        _ => "NoMemory",
    }
}

/// Returns the name of a `SendError`.
fn name_of_send_error(error: SendError) -> &'static str
    ensures { result.now ≡ send_error_text error }
{
    match error {
        SendError::NoAllocation => "NoAllocation",
        SendError::NoPermission => "NoPermission",
        SendError::NoTcpSocket => "NoTcpSocket",
        SendError::TooLarge => "TooLarge",
        _ => "NoMemory",
    }
}

/// `refused NAME` for a `BindChannelError`. The name for an expired channel is followed by the time
/// until which no channel can be bound to that peer, that time included.
fn print_bind_refusal(alloc: Global, error: BindChannelError) -> Result<String, AllocError>
    ensures { IfOk result (λ text. string_bytes text ≡ codes "refused " ++ bind_error_text error) }
{
    match error {
        BindChannelError::AlreadyExists => String::from_str(alloc, "refused AlreadyExists"),
        BindChannelError::ExpiredChannelExists(until) => {
            format!(in alloc; "refused ExpiredChannelExists {}", until.as_nanos())
        }
        BindChannelError::NoAllocation => String::from_str(alloc, "refused NoAllocation"),
        BindChannelError::NoChannel => String::from_str(alloc, "refused NoChannel"),
        _ => String::from_str(alloc, "refused NoMemory"),
    }
}

/// Returns the word for whether a permission is active.
fn name_of_have(occurs: bool) -> &'static str
    ensures { result.now ≡ have_text occurs }
{
    if occurs { "yes" } else { "no" }
}

/// Returns the word for a transport.
fn name_of_transport(transport: TransportType) -> &'static str
    ensures { result.now ≡ transport_word transport }
{
    match transport {
        TransportType::Udp => "udp",
        TransportType::Tcp => "tcp",
    }
}

/// Returns the word for an address family.
fn name_of_family(family: AddressFamily) -> &'static str
    ensures { result.now ≡ family_word family }
{
    match family {
        AddressFamily::IPV4 => "4",
        AddressFamily::IPV6 => "6",
    }
}

/// Returns the name of a `DeleteError`.
fn name_of_delete_error(error: DeleteError) -> &'static str
    ensures { result.now ≡ delete_error_text error }
{
    match error {
        DeleteError::NoAllocation => "NoAllocation",
        _ => "NoMemory",
    }
}

/// Returns the name of a `CreatePermissionError`.
fn name_of_permission_error(error: CreatePermissionError) -> &'static str
    ensures { result.now ≡ permission_error_text error }
{
    match error {
        CreatePermissionError::AlreadyExists => "AlreadyExists",
        CreatePermissionError::NoAllocation => "NoAllocation",
        _ => "NoMemory",
    }
}

/// Returns the name of a `CreatePermissionsError`; of `Refused`, that of its reason.
fn name_of_permissions_error(error: CreatePermissionsError) -> &'static str
    ensures { result.now ≡ permissions_error_text error }
{
    match error {
        CreatePermissionsError::Refused(error) => name_of_permission_error(error),
        _ => "InvalidAddresses",
    }
}

/// Returns the words for a cause: its name; for a rejection also its code, whether it was signed,
/// and its reason phrase in hex.
fn print_cause(alloc: Global, cause: &TurnCause) -> Result<String, AllocError>
    ensures { IfOk result (λ text. string_bytes text ≡ cause_text cause.now) }
{
    match cause {
        TurnCause::Rejected {
            code,
            reason,
            is_signed,
        } => print_rejection(alloc, *code, reason.as_str(), *is_signed),
        TurnCause::Unanswered => String::from_str(alloc, "unanswered"),
        TurnCause::Integrity => String::from_str(alloc, "integrity"),
        TurnCause::NoCommonAlgorithm => String::from_str(alloc, "no-algorithm"),
        TurnCause::OtherFamily => String::from_str(alloc, "other-family"),
        TurnCause::OutOfMemory => String::from_str(alloc, "no-memory"),
        TurnCause::Deleted => String::from_str(alloc, "deleted"),
        TurnCause::Expired => String::from_str(alloc, "expired"),
        TurnCause::SocketClosed => String::from_str(alloc, "socket-closed"),
        _ => String::from_str(alloc, "unusable"),
    }
}

/// `rejected CODE signed HEX`, or `unsigned`.
fn print_rejection(
    alloc: Global,
    code: u16,
    reason: &str,
    is_signed: bool,
) -> Result<String, AllocError>
    ensures { IfOk result (λ text. string_bytes text ≡ codes "rejected " ++ decimal code
        ++ codes " " ++ signed_text is_signed ++ codes " " ++ hex_text reason.now) }
{
    let digits = write_hex(alloc, reason.as_bytes())?;
    format!(in alloc; "rejected {code} {} {digits}", name_of_signed(is_signed))
}

/// Returns the word for whether a response was signed.
fn name_of_signed(is_signed: bool) -> &'static str
    ensures { result.now ≡ signed_text is_signed }
{
    if is_signed { "signed" } else { "unsigned" }
}

/// An address, or `none`.
fn print_address(alloc: Global, address: Option<SocketAddr>) -> Result<String, AllocError>
    ensures { IfOk result (λ text. string_bytes text ≡ address_text address) }
{
    match address {
        Some(address) => format!(in alloc; "{address}"),
        None => String::from_str(alloc, "none"),
    }
}

/// A domain in hex, or `-` if there is none.
fn print_domain(alloc: Global, domain: Option<&str>) -> Result<String, AllocError>
    ensures { IfOk result (λ text. string_bytes text
        ≡ domain_text (option_map (λ d. d.now) domain.entry)) }
{
    match domain {
        Some(domain) => write_hex(alloc, domain.as_bytes()),
        None => String::from_str(alloc, "-"),
    }
}

//! Requests of a client: writing and signing them.

ghost use Rattle.std.specs.Prelude.{◌≡◌, ◌≤◌, IfOk, None, OnOk, length};
ghost use Rattle.stun_types_add.specs.Calls.{after_calls};
ghost use Rattle.stun_types_wire.specs.Registry.{longest_software, software_kind};
ghost use Rattle.stun_types_write.specs.Adding.{IsStarted, attr_of, fingerprint_add_refusal};
ghost use Rattle.stun_types_write.specs.Lent.{own_draft};
ghost use Rattle.stun_types_write.specs.Outcomes.{IsAdded};
ghost use Rattle.turn_client_proto_messages.specs.Composing.{IsDescribed, IsOpen, IsUnmarked, most_before};
ghost use Rattle.turn_client_proto_messages.specs.Requests.{fingerprint_calls, is_signed, request_text};
ghost use Rattle.turn_client_proto_messages.specs.ShortTexts.{HasShortTexts};

use crate::peer_ips::PeerIps;
use crate::unsigned::write_unsigned;
use std::alloc::Global;
use std::net::SocketAddr;
use stun_proto_client::long_term::LongTermClientAuth;
use stun_types_add::ext::{MessageWriteExt, add_as};
use stun_types_auth_attributes::software::Software;
use stun_types_base::memory::NoMemory;
use stun_types_base::transport::TransportType;
use stun_types_wire::error::StunWriteError;
use stun_types_wire::transaction::TransactionId;
use stun_types_write::vec::MessageWriteVec;
use stun_types_write::writer::MessageWrite;
use turn_client_proto_api::families::RequestedFamilies;
use turn_client_proto_api::options::AllocateOptions;

/// A request of a client.
#[derive(Debug, Drop)]
pub enum TurnRequest<'a> {
    /// ALLOCATE with this transport, these address families and options, before any challenge (RFC
    /// 8656, section 7.1). It is not signed.
    FirstAllocate(TransportType, RequestedFamilies, AllocateOptions),
    /// ALLOCATE with this transport, these address families and options, signed (RFC 8656, section
    /// 7.1).
    Allocate(TransportType, RequestedFamilies, AllocateOptions),
    /// REFRESH with this lifetime in seconds (RFC 8656, section 8.1).
    Refresh(u32),
    /// CREATE_PERMISSION for these IP addresses (RFC 8656, section 10.1).
    CreatePermission(PeerIps<'a>),
    /// CHANNEL_BIND of this channel number to this peer (RFC 8656, section 12.1).
    ChannelBind(u16, SocketAddr),
    /// CONNECT to this peer (RFC 6062, section 4.3).
    Connect(SocketAddr),
    /// CONNECTION_BIND of a data connection to the peer connection with this connection ID (RFC
    /// 6062, section 4.3).
    ConnectionBind(u32),
}

/// Returns the bytes of a request with this transaction ID. It has the client's SOFTWARE, if one is
/// set, and ends with FINGERPRINT, if that is set (RFC 8489, sections 14.14 and 14.7). All requests
/// but the first ALLOCATE are signed by the client's authenticator (RFC 8489, section 9.2.3). Fails
/// with `NoMemory` if memory runs out.
pub fn write_request(
    alloc: Global,
    auth: &LongTermClientAuth,
    transaction_id: TransactionId,
    request: TurnRequest<'_>,
) -> Result<Vec<u8>, NoMemory>
    requires { HasShortTexts auth.now }
    ensures { IfOk result (λ bytes.
        bytes.items ≡ request_text auth.now request.entry transaction_id) }
{
    let draft = write_unmarked(alloc, auth, transaction_id, request)?;
    let bytes = finish(draft, auth.has_fingerprint())?;
    Ok(bytes)
}

/// Returns the request with this transaction ID up to its FINGERPRINT. Fails with `NoMemory` if
/// memory runs out.
fn write_unmarked(
    alloc: Global,
    auth: &LongTermClientAuth,
    transaction_id: TransactionId,
    request: TurnRequest<'_>,
) -> Result<MessageWriteVec, NoMemory>
    requires { HasShortTexts auth.now }
    ensures { IfOk result (λ draft.
        IsUnmarked auth.now request.entry transaction_id (own_draft draft)) }
{
    let is_signed = is_signed(&request);
    let draft = write_described(alloc, auth, transaction_id, request)?;
    if is_signed {
        let signed = auth.sign_outgoing_message_unchecked(draft)?;
        Ok(signed)
    } else {
        Ok(draft)
    }
}

/// Returns the request with this transaction ID and the client's SOFTWARE, if one is set, not
/// signed yet. Fails with `NoMemory` if memory runs out.
fn write_described(
    alloc: Global,
    auth: &LongTermClientAuth,
    transaction_id: TransactionId,
    request: TurnRequest<'_>,
) -> Result<MessageWriteVec, NoMemory>
    requires { HasShortTexts auth.now }
    ensures { IfOk result (λ draft.
        IsDescribed auth.now.style.software request.entry transaction_id (own_draft draft)) }
{
    let mut draft = write_unsigned(alloc, transaction_id, request)?;
    match auth.software() {
        Some(software) => {
            add_software(&mut draft, software)?;
            Ok(draft)
        }
        None => Ok(draft),
    }
}

/// Adds SOFTWARE, for which the message has room (RFC 8489, section 14.14). Fails with `NoMemory`
/// if memory runs out.
#[tactic(auto, using(crate::proofs::Writing::software_room))]
fn add_software(draft: &mut MessageWriteVec, software: &Software) -> Result<(), NoMemory>
    requires is_open { IsOpen (own_draft draft.old) }
    requires room { length (own_draft draft.old).bytes ≤ most_before }
    ensures added { OnOk result (IsAdded (attr_of software_kind software.now)
        (own_draft draft.old) (own_draft draft.new)) }
    ensures short { length software.now ≤ longest_software }
{
    let _text = software.software();
    match add_as(draft, software, software) {
        Ok(()) => Ok(()),
        Err(StunWriteError::NoMemory) => Err(NoMemory),
        Err(_) => unreachable!(),
    }
}

/// Returns the bytes of a message, after adding FINGERPRINT if it is wanted (RFC 8489, section
/// 14.7). Fails with `NoMemory` if memory runs out.
fn finish(mut draft: MessageWriteVec, has_fingerprint: bool) -> Result<Vec<u8>, NoMemory>
    requires started { IsStarted (own_draft draft).bytes }
    requires room { fingerprint_add_refusal (own_draft draft) ≡ None }
    ensures { IfOk result (λ bytes. bytes.items
        ≡ (after_calls (fingerprint_calls has_fingerprint) (own_draft draft)).bytes) }
{
    if has_fingerprint {
        match draft.add_fingerprint() {
            Ok(()) => Ok(draft.finish()),
            Err(StunWriteError::NoMemory) => Err(NoMemory),
            Err(_) => unreachable!(),
        }
    } else {
        Ok(draft.finish())
    }
}

/// Returns whether the request is signed: all but the first ALLOCATE are.
fn is_signed(request: &TurnRequest<'_>) -> bool
    ensures { result ≡ is_signed request.now }
{
    match request {
        TurnRequest::FirstAllocate(_, _, _) => false,
        _ => true,
    }
}

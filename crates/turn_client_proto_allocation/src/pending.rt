//! What the outstanding requests of a client are for, found by their transaction IDs (RFC 8489,
//! section 6).

ghost use Rattle.std.specs.Prelude.{◌≡◌, ◌<◌, IfOk, IfSome, MatchOption, None, OnOk, OnErr, Some, length, position};
ghost use Rattle.std.specs.List.{list_any};
ghost use Rattle.turn_client_proto_allocation.specs.Awaited.{asks_for_channel, asks_for_permission, is_connecting, renews_channel};
ghost use Rattle.turn_client_proto_allocation.specs.PendingRequests.{addresses_for, addresses_requested, all_reissued_under, pending_request, requested_of, reissued_under, awaits_reply, channel_requested, channel_renewal_requested, connected_again, connection_requested, new_requested, permission_too, renewal_requested};
ghost use Rattle.turn_client_proto_allocation.specs.Channels.{requested_again, renewed_again};

use crate::allocation::Allocation;
use crate::channel::{Channel, ChannelId, PendingChannel};
use crate::channel_of::{is_renewed_by, is_requested_by};
use crate::connection::Connecting;
use crate::permission::PendingPermission;
use crate::permissions;
use std::alloc::Global;
use std::net::{IpAddr, SocketAddr};
use stun_types_base::list::ListOf;
use stun_types_base::memory::NoMemory;
use stun_types_base::transport::TransportType;
use stun_types_wire::transaction::TransactionId;

/// What an outstanding request is for.
#[derive(Clone, Copy, Debug, PartialEq, Eq)]
pub enum PendingRequest {
    /// A REFRESH: a lifetime of the allocations in seconds, or their deletion if it is 0 (RFC 8656,
    /// section 8.1).
    Lifetime(u32),
    /// A CHANNEL_BIND: a new channel with this number to this peer, in an allocation of this
    /// transport (RFC 8656, section 12.1).
    NewChannel(TransportType, ChannelId, SocketAddr),
    /// A CHANNEL_BIND: the renewal of the channel with this number to this peer, in an allocation
    /// of this transport.
    ChannelRenewal(TransportType, ChannelId, SocketAddr),
    /// A CREATE_PERMISSION: new permissions, the first of them for this address, in an allocation
    /// of this transport (RFC 8656, section 10.1).
    NewPermission(TransportType, IpAddr),
    /// A CREATE_PERMISSION: the renewal of the permission for this address, in an allocation of
    /// this transport.
    Renewal(TransportType, IpAddr),
    /// A CONNECT: a connection to this peer (RFC 6062, section 4.3).
    NewConnection(SocketAddr),
}

/// Returns the new channel that the request with this transaction ID requests.
fn channel_requested(a: &Allocation, transaction_id: TransactionId) -> Option<PendingRequest>
    ensures { result ≡ channel_requested transaction_id a.now }
{
    let pending = a.pending_channels.as_slice();
    let found = pending.iter().find(|c| is_requested_by(c, transaction_id))?;
    Some(PendingRequest::NewChannel(a.transport, found.channel, found.peer))
}

/// Returns the channel that the request with this transaction ID is to renew.
fn channel_renewal_requested(
    a: &Allocation,
    transaction_id: TransactionId,
) -> Option<PendingRequest>
    ensures { result ≡ channel_renewal_requested transaction_id a.now }
{
    let channels = a.channels.as_slice();
    let found = channels.iter().find(|c| is_renewed_by(c, transaction_id))?;
    Some(PendingRequest::ChannelRenewal(a.transport, found.number, found.peer))
}

/// Returns the new permission that the request with this transaction ID requests, by the first of
/// its addresses.
fn new_requested(a: &Allocation, transaction_id: TransactionId) -> Option<PendingRequest>
    ensures { result ≡ new_requested transaction_id a.now }
{
    let pending = a.pending_permissions.as_slice();
    let found = pending.iter().find(|p| p.is_requested_by(transaction_id))?;
    Some(PendingRequest::NewPermission(a.transport, found.ip))
}

/// Returns the permission that the request with this transaction ID is to renew.
fn renewal_requested(a: &Allocation, transaction_id: TransactionId) -> Option<PendingRequest>
    ensures { result ≡ renewal_requested transaction_id a.now }
{
    let permissions = a.permissions.as_slice();
    let found = permissions
        .iter()
        .find(|p| p.is_renewed_by(transaction_id))?;
    Some(PendingRequest::Renewal(a.transport, found.ip))
}

/// Returns the connection that the request with this transaction ID requests.
fn connection_requested(a: &Allocation, transaction_id: TransactionId) -> Option<PendingRequest>
    ensures { result ≡ connection_requested transaction_id a.now }
{
    let connecting = a.connecting.as_slice();
    let found = connecting.iter().find(|c| c.number == transaction_id)?;
    Some(PendingRequest::NewConnection(found.peer))
}

/// Returns what the request with this transaction ID is for in the allocation, or `None` if the
/// allocation does not await its response.
#[tactic(auto, unfolding(crate::specs::PendingRequests::requested_of))]
fn requested_of(a: &Allocation, transaction_id: TransactionId) -> Option<PendingRequest>
    ensures { result ≡ requested_of transaction_id a.now }
{
    if let Some(lifetime) = a.lifetime_requested(transaction_id) {
        return Some(PendingRequest::Lifetime(lifetime));
    }
    if let Some(requested) = channel_requested(a, transaction_id) {
        return Some(requested);
    }
    if let Some(requested) = channel_renewal_requested(a, transaction_id) {
        return Some(requested);
    }
    if let Some(requested) = new_requested(a, transaction_id) {
        return Some(requested);
    }
    match renewal_requested(a, transaction_id) {
        Some(requested) => Some(requested),
        None => connection_requested(a, transaction_id),
    }
}

/// Returns the index of the first allocation that awaits the response to the request with this
/// transaction ID.
fn index_awaiting(allocations: &[Allocation], transaction_id: TransactionId) -> Option<usize>
    ensures { result ≡ position (awaits_reply transaction_id) allocations.now }
{
    allocations
        .iter()
        .position(|a| requested_of(a, transaction_id).is_some())
}

/// Returns what the outstanding request with this transaction ID is for, with the index of the
/// first allocation that awaits its response. Returns `None` if no allocation awaits it.
#[tactic(auto, using(crate::proofs::Changes::first_by_index))]
pub fn pending_request(
    allocations: &[Allocation],
    transaction_id: TransactionId,
) -> Option<(usize, PendingRequest)>
    ensures requested { MatchOption result (pending_request transaction_id allocations.now ≡ None)
        (λ found. pending_request transaction_id allocations.now ≡ Some found.1) }
    ensures index { IfSome result (λ found.
        position (awaits_reply transaction_id) allocations.now ≡ Some found.0) }
{
    let index = index_awaiting(allocations, transaction_id)?;
    let requested = requested_of(&allocations[index], transaction_id)?;
    Some((index, requested))
}

/// Returns the addresses for which the request with this transaction ID requests permissions in the
/// allocation, each once. Fails with `NoMemory` if memory runs out.
#[tactic(auto, using(crate::proofs::Changes::first_by_index))]
pub fn addresses_requested(
    alloc: Global,
    a: &Allocation,
    transaction_id: TransactionId,
) -> Result<ListOf<IpAddr>, NoMemory>
    ensures { IfOk result (λ ips. ips ≡ addresses_requested transaction_id a.now) }
{
    let pending = a.pending_permissions.as_slice();
    let Some(index) = permissions::index_requested(pending, transaction_id) else {
        return Ok(ListOf::new(alloc));
    };
    pending[index].addresses(alloc)
}

/// Returns the addresses for which the request with this transaction ID requests permissions, each
/// once, by the first allocation that awaits its response. Fails with `NoMemory` if memory runs
/// out.
#[tactic(auto, using(crate::proofs::Changes::first_by_index))]
pub fn addresses_for(
    alloc: Global,
    allocations: &[Allocation],
    transaction_id: TransactionId,
) -> Result<ListOf<IpAddr>, NoMemory>
    ensures { IfOk result (λ ips. ips ≡ addresses_for transaction_id allocations.now) }
{
    let Some(index) = index_awaiting(allocations, transaction_id) else {
        return Ok(ListOf::new(alloc));
    };
    addresses_requested(alloc, &allocations[index], transaction_id)
}

/// Returns the index of the first channel that the request with this transaction ID requests.
fn index_requested(pending: &[PendingChannel], transaction_id: TransactionId) -> Option<usize>
    ensures { result ≡ position (asks_for_channel transaction_id) pending.now }
{
    pending
        .iter()
        .position(|c| is_requested_by(c, transaction_id))
}

/// Returns the index of the first channel that the request with this transaction ID is to renew.
fn index_renewed(channels: &[Channel], transaction_id: TransactionId) -> Option<usize>
    ensures { result ≡ position (renews_channel transaction_id) channels.now }
{
    channels
        .iter()
        .position(|c| is_renewed_by(c, transaction_id))
}

/// Adds the transaction ID `number` to the first pending channel that the request with the ID `old`
/// requests. Fails with `NoMemory` if memory runs out.
#[tactic(auto, using(crate::proofs::Changes::first_by_index))]
fn ask_again(
    pending: &mut [PendingChannel],
    old: TransactionId,
    transaction_id: TransactionId,
) -> Result<(), NoMemory>
    ensures { OnOk result (pending.new ≡ requested_again old transaction_id pending.old) }
{
    let Some(index) = index_requested(pending, old) else {
        return Ok(());
    };
    pending[index].numbers.push(transaction_id)
}

/// Adds the transaction ID `number` to the first channel that the request with the ID `old` is to
/// renew. Fails with `NoMemory` if memory runs out.
#[tactic(auto, using(crate::proofs::Changes::first_by_index))]
fn renew_again(
    channels: &mut [Channel],
    old: TransactionId,
    transaction_id: TransactionId,
) -> Result<(), NoMemory>
    ensures { OnOk result (channels.new ≡ renewed_again old transaction_id channels.old) }
{
    let Some(index) = index_renewed(channels, old) else {
        return Ok(());
    };
    channels[index].renewals.push(transaction_id)
}

/// Returns the index of the first connection that the request with this transaction ID requests.
fn index_connecting(connecting: &[Connecting], transaction_id: TransactionId) -> Option<usize>
    ensures { result ≡ position (is_connecting transaction_id) connecting.now }
{
    connecting.iter().position(|c| c.number == transaction_id)
}

/// Replaces the transaction ID `old` by `number` at the first connection that the request with the
/// ID `old` requests.
#[tactic(auto, using(crate::proofs::Changes::first_by_index))]
fn connect_again(connecting: &mut [Connecting], old: TransactionId, transaction_id: TransactionId)
    ensures { connecting.new ≡ connected_again old transaction_id connecting.old }
{
    let Some(index) = index_connecting(connecting, old) else {
        return;
    };
    connecting[index].number = transaction_id;
}

/// Returns whether the request with this transaction ID requests one of the permissions.
fn is_any_requested(pending: &[PendingPermission], transaction_id: TransactionId) -> bool
    ensures { result ≡ list_any (asks_for_permission transaction_id) pending.now }
{
    pending.iter().any(|p| p.is_requested_by(transaction_id))
}

/// Adds the transaction ID `number` to the first pending permission that the request with the ID
/// `old` requests. If it requests none, adds it to the first permission that the request is to
/// renew. Fails with `NoMemory` if memory runs out.
#[tactic(auto, unfolding(crate::specs::PendingRequests::permission_too))]
fn permission_too(
    a: &mut Allocation,
    old: TransactionId,
    transaction_id: TransactionId,
) -> Result<(), NoMemory>
    ensures { OnOk result (a.new ≡ permission_too old transaction_id a.old) }
{
    if is_any_requested(a.pending_permissions.as_slice(), old) {
        permissions::ask_again(a.pending_permissions.as_mut_slice(), old, transaction_id)
    } else {
        permissions::renew_again(a.permissions.as_mut_slice(), old, transaction_id)
    }
}

/// Adds the transaction ID `number` to what the request with the ID `old` requests of this
/// allocation. Fails with `NoMemory` if memory runs out.
fn reissue_one_under(
    a: &mut Allocation,
    requested: PendingRequest,
    old: TransactionId,
    transaction_id: TransactionId,
) -> Result<(), NoMemory>
    ensures { OnOk result (a.new ≡ reissued_under requested old transaction_id a.old) }
{
    match requested {
        PendingRequest::Lifetime(lifetime) => a.await_refresh(transaction_id, lifetime),
        PendingRequest::NewChannel(_, _, _) => {
            ask_again(a.pending_channels.as_mut_slice(), old, transaction_id)?;
            permission_too(a, old, transaction_id)
        }
        PendingRequest::ChannelRenewal(_, _, _) => {
            renew_again(a.channels.as_mut_slice(), old, transaction_id)?;
            permission_too(a, old, transaction_id)
        }
        PendingRequest::NewPermission(_, _) => {
            permissions::ask_again(a.pending_permissions.as_mut_slice(), old, transaction_id)
        }
        PendingRequest::Renewal(_, _) => {
            permissions::renew_again(a.permissions.as_mut_slice(), old, transaction_id)
        }
        PendingRequest::NewConnection(_) => {
            connect_again(a.connecting.as_mut_slice(), old, transaction_id);
            Ok(())
        }
    }
}

/// Adds the transaction ID `number`, of a request that is sent again, to what the request with the
/// ID `old` requests. The allocation at `index` has to be the first that awaits the response to
/// `old`.
///
/// - A CHANNEL_BIND: the ID is added to its channel, and to the first permission that is requested
///   under `old`. If none is, it is added to the first permission that is to be renewed under
///   `old`.
/// - A CONNECT: the ID replaces the old one.
///
/// # Errors
///
/// - `NoMemory`: memory ran out. The channel may have the new ID already.
#[tactic(auto, using(crate::proofs::Changes::first_by_index))]
pub fn reissue_under(
    allocations: &mut [Allocation],
    index: usize,
    requested: PendingRequest,
    old: TransactionId,
    transaction_id: TransactionId,
) -> Result<(), NoMemory>
    requires { position (awaits_reply old) allocations.old ≡ Some index }
    ensures { OnOk result (allocations.new ≡ all_reissued_under requested old transaction_id
        allocations.old) }
{
    reissue_one_under(&mut allocations[index], requested, old, transaction_id)
}

//! Requests for channels, and the responses to them (RFC 8656, section 12).

ghost use Rattle.std.specs.Prelude.{◌≡◌, ◌<◌, ◌++◌, ℕ, ◌∷◌, [], IfOk, IfSome, OnErr, OnOk, Some, length, position, slice_get, slice_set};
ghost use Rattle.std.specs.Net.Socket.{socket_ip};
ghost use Rattle.turn_client_proto_api.specs.declared.event.TurnEvent.TheVariants.{PermissionCreated, PermissionCreateFailed};
ghost use Rattle.turn_client_proto_allocation.specs.PendingRequests.{pending_request, awaits_reply};
ghost use Rattle.turn_client_proto_messages.specs.ReportedRequests.{IsLawfulRequest};
ghost use Rattle.turn_client_proto_messages.specs.declared.request.TurnRequest.TheVariants.{ChannelBind};
ghost use Rattle.turn_client_proto_core.specs.Asking.{requested};
ghost use Rattle.turn_client_proto_core.specs.Binding.{IsBindAnswered, IsBindResponded, IsBoundFor, IsUnboundFor, asking_channel, permission_beside, permission_with, permitted_with, reported_with, rejected_with, unbound};
ghost use Rattle.turn_client_proto_core.specs.Ending.{IsUnderWay};
ghost use Rattle.turn_client_proto_core.specs.Numbering.{IsNextNumber, IsUnused, after_number};

use crate::protocol::Protocol;
use std::net::{IpAddr, SocketAddr};
use stun_types_base::family::AddressFamily;
use stun_types_base::instant::Instant;
use stun_types_base::memory::NoMemory;
use stun_types_base::transport::TransportType;
use stun_types_message::parsed::Message;
use stun_types_wire::class::MessageClass;
use stun_types_wire::transaction::TransactionId;
use turn_client_proto_allocation::channel::ChannelId;
use turn_client_proto_allocation::pending::{PendingRequest, pending_request};
use turn_client_proto_api::error::BindChannelError;
use turn_client_proto_api::event::TurnEvent;
use turn_client_proto_messages::laws::proof_requests_are_lawful;
use turn_client_proto_messages::request::TurnRequest;
use turn_client_proto_peers::channel::binding::{ask, barring, forget, pending_channel};
use turn_client_proto_peers::channel::free::free_number;
use turn_client_proto_peers::channel::granted;
use turn_client_proto_peers::permission::{asking, granted as permitted, one, permit};

/// Queues a CHANNEL_BIND for a channel to `peer` (RFC 8656, sections 12 and 12.1).
///
/// The channel belongs to the first allocation of this transport whose address is of the peer's
/// family, and gets the least channel number that is free. If that allocation has no permission for
/// the peer's address, and none is requested, the permission is requested along with it.
///
/// # Errors
///
/// The first that applies is returned:
///
/// - `NoAllocation`: there is no such allocation, or it has expired. An expired one is marked as
///   expired.
/// - `AlreadyExists`: the allocation has an active channel to the peer. A channel that is only
///   requested is no obstacle.
/// - `ExpiredChannelExists`: a channel to the peer has expired there. The error holds the last time
///   at which this call is refused.
/// - `NoAllocation`: the client has ended.
/// - `NoChannel`: no channel number is free.
/// - `NoMemory`: a memory allocation failed.
///
/// After an error nothing has changed, except for that mark and, with `NoMemory`, the random words
/// that were generated.
pub fn bind_channel(
    protocol: &mut Protocol,
    transport: TransportType,
    peer: SocketAddr,
    now: Instant,
) -> Result<(), BindChannelError>
    ensures { IsBindAnswered protocol.old transport peer now result protocol.new }
{
    let family = AddressFamily::from(&peer);
    let Some(index) = asking::index_of(protocol.allocations.as_slice(), transport, family) else {
        return Err(BindChannelError::NoAllocation);
    };
    let allocation = &protocol.allocations.as_slice()[index];
    if one::is_past(allocation, now) {
        asking::mark(&mut protocol.allocations, index);
        return Err(BindChannelError::NoAllocation);
    }
    if let Some(error) = barring(allocation, peer, now) {
        return Err(error);
    }
    if !protocol.is_authenticated() {
        return Err(BindChannelError::NoAllocation);
    }
    let Some(channel) = free_number(protocol.allocations.as_slice(), now) else {
        return Err(BindChannelError::NoChannel);
    };
    match protocol.ask_channel(index, channel, peer, now) {
        Ok(()) => Ok(()),
        Err(NoMemory) => Err(BindChannelError::NoMemory),
    }
}

impl Protocol {
    /// Requests a channel, and the permission that it needs, in the allocation at `index`.
    /// With `NoMemory`, nothing has changed except that random words were generated.
    fn ask_channel(
        &mut self,
        index: usize,
        channel: ChannelId,
        peer: SocketAddr,
        now: Instant,
    ) -> Result<(), NoMemory>
        requires { index < length self.old.allocations }
        ensures ok { OnOk result ((number : ℕ) × IsNextNumber self.old number
            × IsLawfulRequest (ChannelBind channel peer)
            × IfSome (slice_get self.old.allocations index) (λ a. self.new
            ≡ record (requested (after_number self.old) (ChannelBind channel peer) number now) {
              allocations = slice_set self.old.allocations index
                  (asking_channel channel peer number a);
            })) }
        ensures err { OnErr result (self.new ≡ after_number self.old) }
    {
        let request = TurnRequest::ChannelBind(channel.number(), peer);
        proof_requests_are_lawful(&request);
        let number = self.generate_id()?;
        let pending = pending_channel(self.alloc, channel, peer, number)?;
        ask(&mut self.allocations, index, pending)?;
        match self.ask_beside(index, peer, request, number, now) {
            Ok(()) => Ok(()),
            Err(e) => {
                forget(&mut self.allocations, index);
                Err(e)
            }
        }
    }

    /// Queues a request for a channel with this transaction ID. Records that it requests the
    /// permission for the peer's address too, unless that permission is active or requested
    /// already. With `NoMemory`, nothing has changed.
    fn ask_beside(
        &mut self,
        index: usize,
        peer: SocketAddr,
        request: TurnRequest<'_>,
        transaction_id: TransactionId,
        now: Instant,
    ) -> Result<(), NoMemory>
        requires there { index < length self.old.allocations }
        requires unused { IsUnused self.old.agent transaction_id }
        ensures ok { OnOk result (IfSome (slice_get self.old.allocations index) (λ a. self.new
            ≡ record (requested self.old request.entry transaction_id now) {
              allocations = slice_set self.old.allocations index
                  (permission_beside (socket_ip peer) transaction_id a);
            })) }
        ensures err { OnErr result (self.new ≡ self.old) }
    {
        if one::knows(&self.allocations.as_slice()[index], peer.ip()) {
            return self.ask(transaction_id, request, now);
        }
        self.ask_by(index, peer.ip(), &[], request, transaction_id, now)
    }

    /// Handles an accepted response to a CHANNEL_BIND (RFC 8656, section 12.3).
    pub(crate) fn take_channel(
        &mut self,
        message: &Message<'_>,
        now: Instant,
    ) -> Result<bool, NoMemory>
        ensures ok { IfOk result (λ handled.
            IsBindResponded self.old message.now now handled self.new) }
        ensures err { OnErr result (IsUnderWay self.old self.new) }
    {
        let number = message.transaction_id();
        match message.class() {
            MessageClass::Error => self.refuse_channel(number),
            MessageClass::Success | MessageClass::Request | MessageClass::Indication => {
                self.grant_channel(number, now)
            }
        }
    }

    /// Handles the success response to a CHANNEL_BIND. For a new channel, it installs the
    /// permission requested with it (if any) and the channel, and queues the events in that order.
    /// For a renewal, it extends the channels that the request renews, and queues no event.
    fn grant_channel(
        &mut self,
        transaction_id: TransactionId,
        now: Instant,
    ) -> Result<bool, NoMemory>
        ensures ok { IfOk result (λ handled. IsBoundFor
            (pending_request transaction_id self.old.allocations) self.old transaction_id now
            handled self.new) }
        ensures err { OnErr result (IsUnderWay self.old self.new) }
    {
        let Some((index, requested)) = pending_request(self.allocations.as_slice(), transaction_id)
        else {
            return Ok(false);
        };
        match requested {
            PendingRequest::NewChannel(transport, channel, peer) => {
                self.permit_beside(index, transport, transaction_id, now)?;
                self.events
                    .push_back(TurnEvent::ChannelCreated(transport, peer))?;
                let allocations = self.allocations.as_mut_slice();
                granted::bind(
                    self.alloc,
                    allocations,
                    index,
                    channel,
                    peer,
                    transaction_id,
                    now,
                )?;
                Ok(true)
            }
            PendingRequest::ChannelRenewal(_, _, _) => {
                granted::renew(self.allocations.as_mut_slice(), transaction_id, now);
                Ok(true)
            }
            PendingRequest::Lifetime(_)
            | PendingRequest::NewPermission(_, _)
            | PendingRequest::Renewal(_, _)
            | PendingRequest::NewConnection(_) => Ok(false),
        }
    }

    /// Installs the permission that was requested along with a channel, and queues its event, if
    /// there is such a permission. `index` is the index of the first allocation that awaits the
    /// response to the request `number`.
    fn permit_beside(
        &mut self,
        index: usize,
        transport: TransportType,
        transaction_id: TransactionId,
        now: Instant,
    ) -> Result<(), NoMemory>
        requires { position (awaits_reply transaction_id) self.old.allocations ≡ Some index }
        ensures ok { OnOk result (self.new ≡ record self.old {
          allocations = permitted_with (permission_with transaction_id self.old.allocations)
              transaction_id now
              self.old.allocations;
          events = self.old.events ++ reported_with (PermissionCreated transport)
              (permission_with transaction_id self.old.allocations);
        }) }
        ensures err { OnErr result (IsUnderWay self.old self.new) }
    {
        let allocation = &self.allocations.as_slice()[index];
        let Some(ip) = permit::permission_requested(allocation, transaction_id) else {
            return Ok(());
        };
        self.events
            .push_back(TurnEvent::PermissionCreated(transport, ip))?;
        let allocations = self.allocations.as_mut_slice();
        permit::permit(self.alloc, allocations, index, ip, transaction_id, now)
    }

    /// Handles the error response to a CHANNEL_BIND. For a new channel, it removes the requested
    /// channel and the permission requested with it, and queues an event for each. For a renewal,
    /// the channels that the request was to renew expire, and an event is queued for the first of
    /// them.
    fn refuse_channel(&mut self, transaction_id: TransactionId) -> Result<bool, NoMemory>
        ensures ok { IfOk result (λ handled. IsUnboundFor
            (pending_request transaction_id self.old.allocations) self.old transaction_id handled
            self.new) }
        ensures err { OnErr result (IsUnderWay self.old self.new) }
    {
        let Some((index, requested)) = pending_request(self.allocations.as_slice(), transaction_id)
        else {
            return Ok(false);
        };
        match requested {
            PendingRequest::NewChannel(transport, _, peer) => {
                self.unbind(index, transport, peer, transaction_id)?;
                Ok(true)
            }
            PendingRequest::ChannelRenewal(transport, _, peer) => {
                self.events
                    .push_back(TurnEvent::ChannelCreateFailed(transport, peer))?;
                granted::expire_due(self.allocations.as_mut_slice(), transaction_id)?;
                Ok(true)
            }
            PendingRequest::Lifetime(_)
            | PendingRequest::NewPermission(_, _)
            | PendingRequest::Renewal(_, _)
            | PendingRequest::NewConnection(_) => Ok(false),
        }
    }

    /// Removes the requested channel to a peer, then the permission requested with it, and queues
    /// an event for each. `index` is the index of the first allocation that awaits the response to
    /// the request `number`.
    fn unbind(
        &mut self,
        index: usize,
        transport: TransportType,
        peer: SocketAddr,
        transaction_id: TransactionId,
    ) -> Result<(), NoMemory>
        requires { position (awaits_reply transaction_id) self.old.allocations ≡ Some index }
        ensures ok { OnOk result (self.new ≡ unbound transport peer
            (permission_with transaction_id self.old.allocations) transaction_id self.old) }
        ensures err { OnErr result (IsUnderWay self.old self.new) }
    {
        let allocation = &self.allocations.as_slice()[index];
        let beside = permit::permission_requested(allocation, transaction_id);
        self.events
            .push_back(TurnEvent::ChannelCreateFailed(transport, peer))?;
        granted::reject(self.allocations.as_mut_slice(), transaction_id);
        self.refuse_beside(transport, beside, transaction_id)
    }

    /// Removes the permission that was requested along with a channel, and queues its event, if
    /// there is one. With `NoMemory`, nothing has changed.
    fn refuse_beside(
        &mut self,
        transport: TransportType,
        beside: Option<IpAddr>,
        transaction_id: TransactionId,
    ) -> Result<(), NoMemory>
        ensures ok { OnOk result (self.new ≡ record self.old {
          allocations = rejected_with beside transaction_id self.old.allocations;
          events = self.old.events ++ reported_with (PermissionCreateFailed transport) beside;
        }) }
        ensures err { OnErr result (self.new ≡ self.old) }
    {
        let Some(ip) = beside else {
            return Ok(());
        };
        self.events
            .push_back(TurnEvent::PermissionCreateFailed(transport, ip))?;
        permitted::reject(self.allocations.as_mut_slice(), transaction_id);
        Ok(())
    }
}

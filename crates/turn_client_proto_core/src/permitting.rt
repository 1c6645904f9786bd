//! Requests for permissions, and the responses to them (RFC 8656, section 10).

ghost use Rattle.std.specs.Prelude.{◌≡◌, ◌<◌, ◌++◌, ℕ, ◌∷◌, [], List, IfOk, IfSome, OnErr, OnOk, Some, length, map, position, slice_get, slice_set};
ghost use Rattle.std.specs.List.{list_all, list_any};
ghost use Rattle.turn_client_proto_api.specs.Families.{is_same_family};
ghost use Rattle.turn_client_proto_peers.specs.Permission.Asking.{asking, knows};
ghost use Rattle.turn_client_proto_allocation.specs.PendingRequests.{addresses_for, awaits_reply, pending_request};
ghost use Rattle.turn_client_proto_allocation.specs.Permissions.{each_once};
ghost use Rattle.turn_client_proto_messages.specs.ReportedRequests.{IsLawfulRequest};
ghost use Rattle.turn_client_proto_messages.specs.declared.request.TurnRequest.TheVariants.{CreatePermission};
ghost use Rattle.turn_client_proto_core.specs.Asking.{requested};
ghost use Rattle.turn_client_proto_core.specs.Ending.{IsUnderWay};
ghost use Rattle.turn_client_proto_core.specs.Numbering.{IsNextNumber, IsUnused, after_number};
ghost use Rattle.turn_client_proto_core.specs.Permitting.{ArePermissionsAnswered, IsAnsweredAmong, IsGrantedFor, IsPermissionAnswered, IsPermissionResponded, IsRefusedFor, family_of_ip, granted, knows_any, may_name};

use crate::protocol::Protocol;
use crate::reporting::{report_created, report_failed};
use std::net::IpAddr;
use stun_types_base::family::AddressFamily;
use stun_types_base::instant::Instant;
use stun_types_base::memory::NoMemory;
use stun_types_base::transport::TransportType;
use stun_types_message::parsed::Message;
use stun_types_wire::class::MessageClass;
use stun_types_wire::transaction::TransactionId;
use turn_client_proto_allocation::addresses::each_once;
use turn_client_proto_allocation::allocation::Allocation;
use turn_client_proto_allocation::pending::{PendingRequest, addresses_for, pending_request};
use turn_client_proto_allocation::permission::PendingPermission;
use turn_client_proto_api::error::{CreatePermissionError, CreatePermissionsError};
use turn_client_proto_api::event::TurnEvent;
use turn_client_proto_api::limits::MOST_PEER_IPS;
use turn_client_proto_messages::laws::proof_requests_are_lawful;
use turn_client_proto_messages::peer_ips::PeerIps;
use turn_client_proto_messages::request::TurnRequest;
use turn_client_proto_peers::permission::permit::permit_each;
use turn_client_proto_peers::permission::{asking, granted, one};

/// Queues a CREATE_PERMISSION for `ip` (RFC 8656, section 10.1), in the first allocation of this
/// transport whose address is of the family of `ip`.
///
/// # Errors
///
/// The first that applies is returned:
///
/// - `NoAllocation`: there is no such allocation, or it has expired. An expired one is marked as
///   expired.
/// - `AlreadyExists`: a permission for `ip` is active there, or requested.
/// - `NoAllocation`: the client has ended.
/// - `NoMemory`: a memory allocation failed.
///
/// After an error nothing has changed, except for that mark and, with `NoMemory`, the random words
/// that were generated.
pub fn create_permission(
    protocol: &mut Protocol,
    transport: TransportType,
    ip: IpAddr,
    now: Instant,
) -> Result<(), CreatePermissionError>
    ensures { IsPermissionAnswered protocol.old transport ip now result protocol.new }
{
    request_among(protocol, transport, ip, &[], now)
}

/// Queues one CREATE_PERMISSION for several addresses (RFC 8656, section 10.1), in the first
/// allocation of this transport whose address is of their family. An address that is named twice is
/// requested once.
///
/// # Errors
///
/// The first that applies is returned:
///
/// - `InvalidAddresses`: there is no address, there are more than 32, or they are not all of one
///   family.
/// - `Refused(NoAllocation)`: there is no such allocation, or it has expired. An expired one is
///   marked as expired.
/// - `Refused(AlreadyExists)`: a permission for one of the addresses is active there, or requested.
/// - `Refused(NoAllocation)`: the client has ended.
/// - `Refused(NoMemory)`: a memory allocation failed.
///
/// After an error nothing has changed, except for that mark and, with `NoMemory`, the random words
/// that were generated.
pub fn create_permissions(
    protocol: &mut Protocol,
    transport: TransportType,
    ips: &[IpAddr],
    now: Instant,
) -> Result<(), CreatePermissionsError>
    ensures { ArePermissionsAnswered protocol.old transport ips.now now result protocol.new }
{
    let [ip, others @ ..] = ips else {
        return Err(CreatePermissionsError::InvalidAddresses);
    };
    if !may_name(*ip, others) {
        return Err(CreatePermissionsError::InvalidAddresses);
    }
    match request_among(protocol, transport, *ip, others, now) {
        Ok(()) => Ok(()),
        Err(e) => Err(CreatePermissionsError::Refused(e)),
    }
}

/// Returns whether two addresses are of one family.
fn is_like(one: IpAddr, other: IpAddr) -> bool
    ensures { result ≡ is_same_family (family_of_ip other) (family_of_ip one) }
{
    AddressFamily::from(&other) == AddressFamily::from(&one)
}

/// Returns whether all of the others are of the family of `ip`.
fn are_like(ip: IpAddr, others: &[IpAddr]) -> bool
    ensures { result
        ≡ list_all (λ other. is_same_family (family_of_ip other) (family_of_ip ip)) others.now }
{
    others.iter().all(|other| is_like(ip, *other))
}

/// Returns whether the addresses can stand in one request: there are at most 32, and all are of the
/// family of the first one, `ip`.
fn may_name(ip: IpAddr, others: &[IpAddr]) -> bool
    ensures { result ≡ may_name ip others.now }
{
    others.len() < MOST_PEER_IPS && are_like(ip, others)
}

/// Returns whether the allocation has an active or pending permission for one of the addresses.
fn knows_one(allocation: &Allocation, ips: &[IpAddr]) -> bool
    ensures { result ≡ list_any (λ ip. knows ip allocation.now) ips.now }
{
    ips.iter().any(|ip| one::knows(allocation, *ip))
}

/// Returns whether the allocation has an active or pending permission for `ip`, or for one of the
/// others.
fn knows_any(allocation: &Allocation, ip: IpAddr, others: &[IpAddr]) -> bool
    ensures { result ≡ knows_any ip others.now allocation.now }
{
    knows_one(allocation, others) || one::knows(allocation, ip)
}

/// Queues a CREATE_PERMISSION for `ip` and the others, in the first allocation of this transport
/// whose address is of the family of `ip`. It is refused as `create_permission` is.
fn request_among(
    protocol: &mut Protocol,
    transport: TransportType,
    ip: IpAddr,
    others: &[IpAddr],
    now: Instant,
) -> Result<(), CreatePermissionError>
    ensures { IsAnsweredAmong protocol.old transport ip others.now now result protocol.new }
{
    let family = AddressFamily::from(&ip);
    let Some(index) = asking::index_of(protocol.allocations.as_slice(), transport, family) else {
        return Err(CreatePermissionError::NoAllocation);
    };
    let allocation = &protocol.allocations.as_slice()[index];
    if one::is_past(allocation, now) {
        asking::mark(&mut protocol.allocations, index);
        return Err(CreatePermissionError::NoAllocation);
    }
    if knows_any(allocation, ip, others) {
        return Err(CreatePermissionError::AlreadyExists);
    }
    if !protocol.is_authenticated() {
        return Err(CreatePermissionError::NoAllocation);
    }
    match protocol.ask_permission(index, ip, others, now) {
        Ok(()) => Ok(()),
        Err(NoMemory) => Err(CreatePermissionError::NoMemory),
    }
}

impl Protocol {
    /// Requests permissions for `ip` and the others in the allocation at `index`, each of them
    /// once. With `NoMemory`, nothing has changed except that random words were generated.
    fn ask_permission(
        &mut self,
        index: usize,
        ip: IpAddr,
        others: &[IpAddr],
        now: Instant,
    ) -> Result<(), NoMemory>
        requires { index < length self.old.allocations }
        ensures ok { OnOk result ((number : ℕ) × IsNextNumber self.old number
            × IsLawfulRequest (CreatePermission (each_once (ip ∷ others.now)))
            × IfSome (slice_get self.old.allocations index) (λ a. self.new
            ≡ record (requested (after_number self.old)
            (CreatePermission (each_once (ip ∷ others.now))) number now) {
              allocations = slice_set self.old.allocations index
                  (asking (record { ip = ip; others = others.now; numbers = number ∷ [] }) a);
            })) }
        ensures err { OnErr result (self.new ≡ after_number self.old) }
    {
        let number = self.generate_id()?;
        let names = each_once(self.alloc, ip, others)?;
        // It is `Some` for every caller: each has seen to it that there are at most 32 addresses.
        let Some(ips) = PeerIps::new(names.as_slice()) else {
            return Err(NoMemory);
        };
        let request = TurnRequest::CreatePermission(ips);
        proof_requests_are_lawful(&request);
        self.ask_by(index, ip, others, request, number, now)
    }

    /// Queues a request with this transaction ID, and records that it requests permissions for `ip`
    /// and the others in the allocation at `index`. With `NoMemory`, nothing has changed.
    pub(crate) fn ask_by(
        &mut self,
        index: usize,
        ip: IpAddr,
        others: &[IpAddr],
        request: TurnRequest<'_>,
        transaction_id: TransactionId,
        now: Instant,
    ) -> Result<(), NoMemory>
        requires there { index < length self.old.allocations }
        requires unused { IsUnused self.old.agent transaction_id }
        ensures ok { OnOk result (IfSome (slice_get self.old.allocations index) (λ a. self.new
            ≡ record (requested self.old request.entry transaction_id now) {
              allocations = slice_set self.old.allocations index (asking
                  (record { ip = ip; others = others.now; numbers = transaction_id ∷ [] }) a);
            })) }
        ensures err { OnErr result (self.new ≡ self.old) }
    {
        let pending = PendingPermission::new(self.alloc, ip, others, transaction_id)?;
        asking::ask(&mut self.allocations, index, pending)?;
        match self.ask(transaction_id, request, now) {
            Ok(()) => Ok(()),
            Err(e) => {
                asking::forget(&mut self.allocations, index);
                Err(e)
            }
        }
    }

    /// Handles an accepted response to a CREATE_PERMISSION.
    pub(crate) fn take_permission(
        &mut self,
        message: &Message<'_>,
        now: Instant,
    ) -> Result<bool, NoMemory>
        ensures ok { IfOk result (λ handled.
            IsPermissionResponded self.old message.now now handled self.new) }
        ensures err { OnErr result (IsUnderWay self.old self.new) }
    {
        let number = message.transaction_id();
        match message.class() {
            MessageClass::Error => self.refuse_permission(number),
            MessageClass::Success | MessageClass::Request | MessageClass::Indication => {
                self.grant_permission(number, now)
            }
        }
    }

    /// Handles the success response to a CREATE_PERMISSION: installs the new permissions and queues
    /// `PermissionCreated` for each, or extends the permissions that the request renews and queues
    /// no event.
    fn grant_permission(
        &mut self,
        transaction_id: TransactionId,
        now: Instant,
    ) -> Result<bool, NoMemory>
        ensures ok { IfOk result (λ handled. IsGrantedFor
            (pending_request transaction_id self.old.allocations) self.old transaction_id now
            handled self.new) }
        ensures err { OnErr result (IsUnderWay self.old self.new) }
    {
        let Some((index, requested)) = pending_request(self.allocations.as_slice(), transaction_id)
        else {
            return Ok(false);
        };
        match requested {
            PendingRequest::Lifetime(_)
            | PendingRequest::NewChannel(_, _, _)
            | PendingRequest::ChannelRenewal(_, _, _)
            | PendingRequest::NewConnection(_) => Ok(false),
            PendingRequest::NewPermission(transport, _) => {
                self.permit_all(index, transport, transaction_id, now)?;
                Ok(true)
            }
            PendingRequest::Renewal(_, _) => {
                granted::renew(self.allocations.as_mut_slice(), transaction_id, now);
                Ok(true)
            }
        }
    }

    /// Installs the permissions that the request with this transaction ID asks for, and queues
    /// `PermissionCreated` for each. `index` is the index of the first allocation that awaits its
    /// response.
    fn permit_all(
        &mut self,
        index: usize,
        transport: TransportType,
        transaction_id: TransactionId,
        now: Instant,
    ) -> Result<(), NoMemory>
        requires { position (awaits_reply transaction_id) self.old.allocations ≡ Some index }
        ensures ok { OnOk result (self.new ≡ granted transport
            (addresses_for transaction_id self.old.allocations) transaction_id now self.old) }
        ensures err { OnErr result (IsUnderWay self.old self.new) }
    {
        let names = addresses_for(self.alloc, self.allocations.as_slice(), transaction_id)?;
        report_created(&mut self.events, transport, names.as_slice())?;
        let allocations = self.allocations.as_mut_slice();
        permit_each(
            self.alloc,
            allocations,
            index,
            names.as_slice(),
            transaction_id,
            now,
        )
    }

    /// Handles the error response to a CREATE_PERMISSION: removes the permissions that the request
    /// asked for or was to renew. Queues `PermissionCreateFailed` for each that it asked for, or for
    /// the first that it was to renew.
    fn refuse_permission(&mut self, transaction_id: TransactionId) -> Result<bool, NoMemory>
        ensures ok { IfOk result (λ handled. IsRefusedFor
            (pending_request transaction_id self.old.allocations) self.old transaction_id handled
            self.new) }
        ensures err { OnErr result (IsUnderWay self.old self.new) }
    {
        let Some((_, requested)) = pending_request(self.allocations.as_slice(), transaction_id)
        else {
            return Ok(false);
        };
        match requested {
            PendingRequest::Lifetime(_)
            | PendingRequest::NewChannel(_, _, _)
            | PendingRequest::ChannelRenewal(_, _, _)
            | PendingRequest::NewConnection(_) => Ok(false),
            PendingRequest::NewPermission(transport, _) => {
                let names = addresses_for(self.alloc, self.allocations.as_slice(), transaction_id)?;
                report_failed(&mut self.events, transport, names.as_slice())?;
                granted::reject(self.allocations.as_mut_slice(), transaction_id);
                Ok(true)
            }
            PendingRequest::Renewal(transport, ip) => {
                self.events
                    .push_back(TurnEvent::PermissionCreateFailed(transport, ip))?;
                granted::reject(self.allocations.as_mut_slice(), transaction_id);
                Ok(true)
            }
        }
    }
}

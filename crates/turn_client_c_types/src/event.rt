//! Events, as C gets them.

ghost use Rattle.std.specs.Prelude.{◌≡◌};
ghost use Rattle.turn_client_c_types.specs.Reported.{family_number, reported_event};

use crate::address::{IPV4, IPV6, TCP, TurnAddress, number_of};
use stun_types_base::family::AddressFamily;
use turn_client_proto_api::event::TurnEvent;

/// An allocation was created.
const ALLOCATION_CREATED: u32 = 1;

/// No allocation was created.
const ALLOCATION_FAILED: u32 = 2;

/// A permission was created.
const PERMISSION_CREATED: u32 = 3;

/// A permission was rejected, or has ended.
const PERMISSION_FAILED: u32 = 4;

/// A channel was created.
const CHANNEL_CREATED: u32 = 5;

/// A channel was rejected, or has ended.
const CHANNEL_FAILED: u32 = 6;

/// A connection to a peer is bound.
const TCP_CONNECTED: u32 = 7;

/// A connection to a peer was not made, or not bound.
const TCP_FAILED: u32 = 8;

/// An event.
#[repr(C)]
#[derive(Clone, Copy)]
pub struct TurnClientEvent {
    /// What happened, by the numbers of `enum turn_event_kind`.
    pub kind: u32,
    /// The transport between the server and the peers, by its protocol number in IP; 0 if the event
    /// has none.
    pub transport: u32,
    /// The relayed address, or the peer's. For an allocation that failed it is a family only; for a
    /// permission the port is 0.
    pub address: TurnAddress,
}

impl TurnClientEvent {
    /// Writes the kind of the event, and the transport's number or 0.
    fn report_kind(&mut self, kind: u32, transport: u32)
        ensures { self.new ≡ record self.old { kind = kind; transport = transport } }
    {
        self.kind = kind;
        self.transport = transport;
    }

    /// Writes an event.
    pub fn report(&mut self, event: TurnEvent)
        ensures { self.new ≡ reported_event event }
    {
        match event {
            TurnEvent::AllocationCreated(by, at) => {
                self.report_kind(ALLOCATION_CREATED, number_of(by));
                self.address.report(&at);
            }
            TurnEvent::AllocationCreateFailed(family) => {
                self.report_kind(ALLOCATION_FAILED, 0);
                self.address.report_none(family_number(family));
            }
            TurnEvent::PermissionCreated(by, peer) => {
                self.report_kind(PERMISSION_CREATED, number_of(by));
                self.address.report_ip(peer);
            }
            TurnEvent::PermissionCreateFailed(by, peer) => {
                self.report_kind(PERMISSION_FAILED, number_of(by));
                self.address.report_ip(peer);
            }
            TurnEvent::ChannelCreated(by, peer) => {
                self.report_kind(CHANNEL_CREATED, number_of(by));
                self.address.report(&peer);
            }
            TurnEvent::ChannelCreateFailed(by, peer) => {
                self.report_kind(CHANNEL_FAILED, number_of(by));
                self.address.report(&peer);
            }
            TurnEvent::TcpConnected(peer) => {
                self.report_kind(TCP_CONNECTED, TCP);
                self.address.report(&peer);
            }
            TurnEvent::TcpConnectFailed(peer) => {
                self.report_kind(TCP_FAILED, TCP);
                self.address.report(&peer);
            }
        }
    }
}

/// Returns the number of a family.
fn family_number(family: AddressFamily) -> u8
    ensures { result ≡ family_number family }
{
    match family {
        AddressFamily::IPV4 => IPV4,
        AddressFamily::IPV6 => IPV6,
    }
}

//! Messages to send, payloads that arrived, and waits, as C gets them.

ghost use Rattle.std.specs.Prelude.{◌≡◌};
ghost use Rattle.turn_client_c_types.specs.Reported.{reported_close, reported_open, reported_payload, reported_report, reported_way, reported_wait};

use crate::address::{TurnAddress, number_of};
use std::net::SocketAddr;
use stun_types_base::instant::Instant;
use stun_types_base::transport::TransportType;
use turn_client_proto_api::answer::Socket5Tuple;

/// A message to send.
#[repr(C)]
#[derive(Clone, Copy)]
pub struct TurnTransmit {
    /// The number of its bytes.
    pub size: usize,
    /// The transport over which it is sent, by its protocol number in IP.
    pub transport: u32,
    /// The address from which it is sent.
    pub from: TurnAddress,
    /// The address to which it is sent.
    pub to: TurnAddress,
}

impl TurnTransmit {
    /// Writes the size of a message, its transport, and its addresses.
    #[inline]
    pub fn report(
        &mut self,
        size: usize,
        transport: TransportType,
        from: &SocketAddr,
        to: &SocketAddr,
    )
        ensures { self.new ≡ reported_way size transport from.now to.now }
    {
        self.size = size;
        self.transport = number_of(transport);
        self.from.report(from);
        self.to.report(to);
    }
}

/// Data of a peer, or a report about one.
#[repr(C)]
#[derive(Clone, Copy)]
pub struct TurnPayload {
    /// Where the data begins in the bytes that were passed to `turn_client_feed`.
    pub start: usize,
    /// The number of its bytes.
    pub size: usize,
    /// The transport between the server and the peer, by its protocol number in IP.
    pub transport: u32,
    /// The peer.
    pub peer: TurnAddress,
    /// Whether the data is not in the bytes that were passed, but is to be read by
    /// `turn_client_read`.
    pub is_joined: bool,
    /// The type of the ICMP report.
    pub icmp_type: u8,
    /// The code of the ICMP report.
    pub icmp_code: u8,
    /// The data of the ICMP report.
    pub icmp_data: u32,
}

impl TurnPayload {
    /// Writes data of a peer.
    pub fn report(
        &mut self,
        start: usize,
        size: usize,
        is_joined: bool,
        transport: TransportType,
        peer: &SocketAddr,
    )
        ensures { self.new ≡ reported_payload start size is_joined transport peer.now }
    {
        self.start = start;
        self.size = size;
        self.transport = number_of(transport);
        self.peer.report(peer);
        self.is_joined = is_joined;
        self.icmp_type = 0;
        self.icmp_code = 0;
        self.icmp_data = 0;
    }

    /// Writes an ICMP report on the way to a peer.
    pub fn report_report(
        &mut self,
        transport: TransportType,
        peer: &SocketAddr,
        icmp_type: u8,
        icmp_code: u8,
        icmp_data: u32,
    )
        ensures { self.new ≡ reported_report transport peer.now icmp_type icmp_code icmp_data }
    {
        self.report(0, 0, false, transport, peer);
        self.icmp_type = icmp_type;
        self.icmp_code = icmp_code;
        self.icmp_data = icmp_data;
    }
}

/// What the caller waits for, or opens, or closes.
#[repr(C)]
#[derive(Clone, Copy)]
pub struct TurnWait {
    /// The time until which there is nothing to do, in nanoseconds.
    pub until: u64,
    /// The ID of the connection to open.
    pub id: u32,
    /// Its transport, by its protocol number in IP.
    pub transport: u32,
    /// The own address of the connection to open or to close.
    pub from: TurnAddress,
    /// The server's address.
    pub to: TurnAddress,
    /// The peer of the connection to open.
    pub peer: TurnAddress,
}

impl TurnWait {
    /// Writes the time until which there is nothing to do.
    pub fn report_until(&mut self, time: Instant)
        ensures { self.new ≡ reported_wait time }
    {
        self.until = time.as_nanos();
        self.id = 0;
        self.transport = 0;
        self.from.report_none(0);
        self.to.report_none(0);
        self.peer.report_none(0);
    }

    /// Writes a connection to open.
    pub fn report_open(&mut self, id: u32, socket: Socket5Tuple, peer: SocketAddr)
        ensures { self.new ≡ reported_open id socket peer }
    {
        self.until = 0;
        self.id = id;
        self.transport = number_of(socket.transport);
        self.from.report(&socket.from);
        self.to.report(&socket.to);
        self.peer.report(&peer);
    }

    /// Writes a connection to close.
    pub fn report_close(&mut self, from: SocketAddr, to: SocketAddr)
        ensures { self.new ≡ reported_close from to }
    {
        self.until = 0;
        self.id = 0;
        self.transport = 0;
        self.from.report(&from);
        self.to.report(&to);
        self.peer.report_none(0);
    }
}

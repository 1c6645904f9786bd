//! The steps of the exchange.

use crate::requests::{HASHED, STRONGER, UNSIGNED};
use std::net::{IpAddr, Ipv4Addr, SocketAddr};

/// A step of the exchange.
#[derive(Clone, Copy)]
pub(crate) enum Step {
    /// Makes a server core with the realm `realm`, which supports HMAC-SHA1 and HMAC-SHA256.
    Desk,
    /// Adds `user` to the server.
    User,
    /// Makes the decision to allocate 203.0.113.5:50000 for ten minutes.
    Decision,
    /// Passes a request to the server.
    Request(Request),
}

/// A request to the server.
#[derive(Clone, Copy)]
pub(crate) struct Request {
    /// The name that its line begins with.
    pub(crate) name: &'static str,
    pub(crate) bytes: &'static [u8],
    pub(crate) sender: Sender,
    /// The byte that, repeated 32 times, is the seed of the random words for a nonce.
    pub(crate) seed: u8,
}

/// The sender of a request.
#[derive(Clone, Copy)]
pub(crate) enum Sender {
    /// The client that is challenged.
    Client,
    /// Somebody else.
    Stranger,
}

impl Sender {
    /// Returns the address that the sender's requests come from.
    pub(crate) fn address(self) -> SocketAddr {
        match self {
            Sender::Client => SocketAddr::new(IpAddr::V4(Ipv4Addr::new(192, 168, 0, 1)), 1000),
            Sender::Stranger => SocketAddr::new(IpAddr::V4(Ipv4Addr::new(192, 168, 0, 9)), 1),
        }
    }
}

/// All steps, in order.
pub(crate) const STEPS: [Step; 7] = [
    Step::Desk,
    Step::User,
    Step::Decision,
    Step::Request(Request {
        name: "unsigned",
        bytes: UNSIGNED,
        sender: Sender::Client,
        seed: 0,
    }),
    Step::Request(Request {
        name: "stronger",
        bytes: STRONGER,
        sender: Sender::Client,
        seed: 0,
    }),
    Step::Request(Request {
        name: "hashed",
        bytes: HASHED,
        sender: Sender::Client,
        seed: 0,
    }),
    Step::Request(Request {
        name: "stronger",
        bytes: STRONGER,
        sender: Sender::Stranger,
        seed: 1,
    }),
];

//! A queued message.

ghost use Rattle.std.specs.Prelude.{◌≡◌};

use std::marker::Model;
use std::net::SocketAddr;

/// A message in the client's send queue: a request, or the response to one of the server's
/// requests. Contracts see the record `Queued`.
#[derive(Debug, Drop)]
pub struct Queued {
    bytes: Vec<u8>,
    from: SocketAddr,
    is_request: bool,
}

impl Model for Queued {
    ghost use Rattle.turn_client_proto_messages.specs.Waiting.{Queued as QueuedMessage};

    ghost Value = { QueuedMessage };

    ghost view = { λ q. record {
      bytes = q.bytes.items;
      from = q.from;
      is_request = q.is_request;
    } };
}

impl Queued {
    /// Returns a message that is to be sent from the own address `from`.
    pub fn new(bytes: Vec<u8>, from: SocketAddr, is_request: bool) -> Queued
        ensures { result ≡ record {
          bytes = bytes.items;
          from = from;
          is_request = is_request;
        } }
    {
        Queued {
            bytes,
            from,
            is_request,
        }
    }

    /// Returns the bytes of the message.
    pub fn bytes(&self) -> &[u8]
        ensures { result.now ≡ self.now.bytes }
    {
        self.bytes.as_slice()
    }

    /// Returns the own address from which it is sent.
    pub fn from(&self) -> SocketAddr
        ensures { result ≡ self.now.from }
    {
        self.from
    }

    /// Returns whether it is a request.
    pub fn is_request(&self) -> bool
        ensures { result ≡ self.now.is_request }
    {
        self.is_request
    }

    /// Returns the bytes of the message, and consumes it.
    pub fn into_bytes(self) -> Vec<u8>
        ensures { result.items ≡ self.bytes }
    {
        self.bytes
    }
}

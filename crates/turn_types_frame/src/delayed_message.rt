//! Data to be sent in an indication (RFC 8656, sections 11.1 and 11.3).

ghost use Rattle.std.specs.Prelude.{◌≡◌, ◌+◌, ◌≤◌, length};
ghost use Rattle.turn_types_peer.specs.TurnAttributes.TurnRegistry.{data_method, most_payload};
ghost use Rattle.turn_types_peer.specs.TurnAttributes.TurnRegistry.{send_method};

use crate::build::DelayedTransmitBuild;
use crate::stun_types_base::memory::NoMemory;
use crate::stun_types_wire::attribute::RawAttribute;
use crate::stun_types_wire::class::{MessageClass, MessageType, Method};
use crate::stun_types_wire::header::MessageHeader;
use crate::stun_types_wire::transaction::TransactionId;
use crate::stun_types_write::attribute::{Attribute, AttributeWrite};
use crate::turn_types_attributes::registry::{DATA, DATA_ATTRIBUTE, SEND};
use std::alloc::Global;
use std::convert::AsSlice;
use std::fmt::Debug;
use std::marker::Model;
use std::net::SocketAddr;
use turn_types_peer::xor_peer_address::XorPeerAddress;

/// An indication with a peer's address and data that is not encoded yet. Contracts see the record
/// `Sent`.
#[derive(Debug, Drop)]
pub struct DelayedMessage<T: AsSlice<u8>> {
    method: Method,
    peer: SocketAddr,
    number: TransactionId,
    payload: T,
}

impl<T: AsSlice<u8>> Model for DelayedMessage<T> {
    ghost use Rattle.std.specs.Prelude.{◌≤◌, ◌<◌, ◌^◌, length};
    ghost use Rattle.turn_types_peer.specs.TurnAttributes.TurnRegistry.{most_payload};
    ghost use Rattle.turn_types_frame.specs.Indications.{IsMethod, Sent};

    ghost Value = { Sent };

    ghost view = { λ m. record {
      method = m.method.0;
      peer = m.peer;
      number = m.number;
      payload = T.items m.payload;
    } };

    ghost invariant = { λ m. IsMethod m.method.0 (length (T.items m.payload)) };
}

impl<T: AsSlice<u8> + Debug + Drop> DelayedMessage<T> {
    /// Creates a SEND indication, which requests that a server send at most 65,504 bytes to a peer.
    pub fn for_server(
        peer: SocketAddr,
        transaction_id: TransactionId,
        payload: T,
    ) -> DelayedMessage<T>
        requires { length (T.items payload) ≤ most_payload }
        ensures { result
            ≡ record {
              method = send_method;
              peer = peer;
              number = transaction_id;
              payload = T.items payload;
            } }
    {
        DelayedMessage {
            method: SEND,
            peer,
            number: transaction_id,
            payload,
        }
    }

    /// Creates a DATA indication, which passes at most 65,504 bytes from a peer to a client.
    pub fn for_client(
        peer: SocketAddr,
        transaction_id: TransactionId,
        payload: T,
    ) -> DelayedMessage<T>
        requires { length (T.items payload) ≤ most_payload }
        ensures { result
            ≡ record {
              method = data_method;
              peer = peer;
              number = transaction_id;
              payload = T.items payload;
            } }
    {
        DelayedMessage {
            method: DATA,
            peer,
            number: transaction_id,
            payload,
        }
    }
}

impl<T: AsSlice<u8> + Debug + Drop> DelayedTransmitBuild for DelayedMessage<T> {
    ghost use Rattle.turn_types_frame.specs.Indications.{indication_text};

    ghost text = { indication_text };

    #[tactic(auto, using(crate::proofs::Texts::whole_length))]
    fn len(&self) -> usize {
        let peer = XorPeerAddress::new(self.peer, self.number);
        let data = RawAttribute::new(DATA_ATTRIBUTE, self.payload.as_slice());
        MessageHeader::LENGTH + peer.padded_len() + data.padded_len()
    }

    #[tactic(auto, using(crate::proofs::Texts::whole_length, crate::proofs::Texts::put_together))]
    fn write_into(self, dest: &mut [u8]) -> usize {
        let peer = XorPeerAddress::new(self.peer, self.number);
        let data = RawAttribute::new(DATA_ATTRIBUTE, self.payload.as_slice());
        let len = dest.len();
        let mtype = MessageType::from_class_method(MessageClass::Indication, self.method);
        let header = MessageHeader::new(mtype, (len - MessageHeader::LENGTH) as u16, self.number);
        let (head, body) = dest.split_at_mut(MessageHeader::LENGTH);
        let (first, second) = body.split_at_mut(peer.padded_len());
        head.copy_from_slice(&header.to_bytes());
        peer.write_into_unchecked(first);
        data.write_into_unchecked(second);
        len
    }

    fn build(self, alloc: Global) -> Result<Vec<u8>, NoMemory> {
        let mut bytes = Vec::from_elem(alloc, 0u8, self.len())?;
        self.write_into(bytes.as_mut_slice());
        Ok(bytes)
    }
}

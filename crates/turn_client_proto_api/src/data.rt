//! The payload of a peer, as a range of the received bytes or in a vector of its own.

ghost use Rattle.std.specs.Prelude.{◌≡◌, IfOk, None};
ghost use Rattle.std.specs.Result.{IsOk};
ghost use Rattle.turn_client_proto_api.specs.Payloads.{held_bytes, held_index, part_of};

use std::alloc::Global;
use std::convert::AsSlice;
use std::fmt::Debug;
use std::marker::Model;
use std::net::SocketAddr;
use std::ops::Range;
use stun_types_base::memory::NoMemory;
use stun_types_base::transport::TransportType;

/// A range of an owner's bytes, or bytes of its own. The part of a range past the end of the bytes
/// is empty.
#[derive(Debug, Drop)]
pub enum DataRangeOrOwned<T: AsSlice<u8>> {
    /// A range of these bytes.
    Range {
        /// The bytes.
        bytes: T,
        /// The range in these bytes.
        range: Range<usize>,
    },
    /// Bytes of its own.
    Owned(Vec<u8>),
}

impl<T: AsSlice<u8> + Debug + Drop> DataRangeOrOwned<T> {
    /// Returns the bytes.
    pub fn as_slice(&self) -> &[u8]
        ensures { result.now ≡ held_bytes T.items self.now }
    {
        match self {
            DataRangeOrOwned::Range { bytes, range } => {
                part(bytes.as_slice(), range.start, range.end)
            }
            DataRangeOrOwned::Owned(bytes) => bytes.as_slice(),
        }
    }
}

/// Returns the bytes from one index up to another, as far as they exist.
pub(crate) fn part(bytes: &[u8], start: usize, end: usize) -> &[u8]
    ensures { result.now ≡ part_of bytes.now start end }
{
    let (head, _) = bytes.split_at(end.min(bytes.len()));
    let (_, wanted) = head.split_at(start.min(head.len()));
    wanted
}

/// The payload that a peer sent, with the peer's address. In contracts it is the record
/// `PeerPayload`.
#[derive(Debug, Drop)]
pub struct TurnPeerData<T: AsSlice<u8>> {
    pub(crate) held: DataRangeOrOwned<T>,
    /// The transport between the server and the peer.
    pub transport: TransportType,
    /// The peer's address.
    pub peer: SocketAddr,
}

impl<T: AsSlice<u8>> Model for TurnPeerData<T> {
    ghost use Rattle.turn_client_proto_api.specs.Payloads.{PeerPayload, held_bytes, held_index};

    ghost Value = { PeerPayload };

    ghost view = { λ d. record {
      payload = held_bytes T.items d.held;
      index = held_index d.held;
      transport = d.transport;
      peer = d.peer;
    } };
}

impl<T: AsSlice<u8> + Debug + Drop> TurnPeerData<T> {
    /// Creates the payload of a peer from these bytes.
    pub fn new(
        held: DataRangeOrOwned<T>,
        transport: TransportType,
        peer: SocketAddr,
    ) -> TurnPeerData<T>
        ensures { result ≡ record {
          payload = held_bytes T.items held;
          index = held_index held;
          transport = transport;
          peer = peer;
        } }
    {
        TurnPeerData {
            held,
            transport,
            peer,
        }
    }

    /// Returns the payload.
    pub fn data(&self) -> &[u8]
        ensures { result.now ≡ self.now.payload }
    {
        self.held.as_slice()
    }

    /// Returns the payload as a range of the received bytes, or as a vector of its own.
    pub fn into_data(self) -> DataRangeOrOwned<T>
        ensures bytes { held_bytes T.items result ≡ self.payload }
        ensures index { held_index result ≡ self.index }
    {
        self.held
    }

    /// Returns the payload, as `data` does.
    pub fn as_slice(&self) -> &[u8]
        ensures { result.now ≡ self.now.payload }
    {
        self.held.as_slice()
    }

    /// Returns the same payload in a vector of its own. A payload that is in one already needs no
    /// memory; another one is copied. Fails with `NoMemory` if an allocation fails.
    pub fn into_owned<R: AsSlice<u8> + Debug + Drop>(
        self,
        alloc: Global,
    ) -> Result<TurnPeerData<R>, NoMemory>
        ensures value { IfOk result (λ owned. owned ≡ record self { index = None }) }
        ensures stays { self.index ≡ None → IsOk result }
    {
        let TurnPeerData {
            held,
            transport,
            peer,
        } = self;
        let bytes = match held {
            DataRangeOrOwned::Range { bytes, range } => {
                Vec::from_slice(alloc, part(bytes.as_slice(), range.start, range.end))?
            }
            DataRangeOrOwned::Owned(bytes) => bytes,
        };
        Ok(TurnPeerData::new(DataRangeOrOwned::Owned(bytes), transport, peer))
    }
}

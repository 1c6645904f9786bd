//! Bytes that are to be sent or were received.

ghost use Rattle.std.specs.Prelude.{◌≡◌, IfOk, Ok, true};
ghost use Rattle.stun_types_base.specs.Data.{data_bytes, is_owned};

use crate::data::Data;
use crate::memory::NoMemory;
use crate::transport::TransportType;
use std::alloc::Global;
use std::net::SocketAddr;

/// Bytes that are to be sent or were received, with their transport and addresses. `T` owns or
/// borrows the bytes: a slice, a vector or a `Data`, for example.
#[derive(Debug, Drop)]
pub struct Transmit<T> {
    /// The bytes.
    pub bytes: T,
    /// The transport that carries them.
    pub transport: TransportType,
    /// The address that sends them.
    pub from: SocketAddr,
    /// The address that receives them.
    pub to: SocketAddr,
}

impl<T> Transmit<T> {
    /// Makes a `Transmit` of these bytes, over this transport, from `from` to `to`.
    pub fn new(bytes: T, transport: TransportType, from: SocketAddr, to: SocketAddr) -> Transmit<T>
        ensures { result ≡ record { bytes = bytes; transport = transport; from = from; to = to } }
    {
        Transmit {
            bytes,
            transport,
            from,
            to,
        }
    }

    /// Replaces the bytes with what `f` returns for them. The transport and the addresses stay.
    pub fn reinterpret_data<O, F: FnOnce(T) -> O>(self, f: F) -> Transmit<O>
        requires { F.pre f self.bytes }
        ensures bytes { F.post f self.bytes result.bytes }
        ensures transport { result.transport ≡ self.transport }
        ensures from { result.from ≡ self.from }
        ensures to { result.to ≡ self.to }
    {
        let Transmit {
            bytes,
            transport,
            from,
            to,
        } = self;
        Transmit::new(f(bytes), transport, from, to)
    }
}

impl<'a> Transmit<Data<'a>> {
    /// Returns the same transmission with owned bytes. Borrowed bytes are copied. Owned bytes stay
    /// in their box, which allocates nothing. Fails only with `NoMemory`, if an allocation fails.
    pub fn into_owned<'b>(self, alloc: Global) -> Result<Transmit<Data<'b>>, NoMemory>
        ensures bytes { IfOk result (λ owned. data_bytes owned.bytes
            ≡ data_bytes self.entry.bytes) }
        ensures owned { IfOk result (λ owned. is_owned owned.bytes ≡ true) }
        ensures stays { is_owned self.entry.bytes ≡ true → result ≡ Ok self.entry }
        ensures transport { IfOk result (λ owned. owned.transport ≡ self.entry.transport) }
        ensures from { IfOk result (λ owned. owned.from ≡ self.entry.from) }
        ensures to { IfOk result (λ owned. owned.to ≡ self.entry.to) }
    {
        let Transmit {
            bytes,
            transport,
            from,
            to,
        } = self;
        Ok(Transmit::new(bytes.into_owned(alloc)?, transport, from, to))
    }
}

//! Bytes to be sent that are not encoded yet.

ghost use Rattle.std.specs.Prelude.{◌≡◌, ◌==◌, ℕ, List, length, IfOk};

use crate::stun_types_base::memory::NoMemory;
use crate::stun_types_base::transmit::Transmit;
use crate::stun_types_base::transport::TransportType;
use std::alloc::Global;
use std::fmt::Debug;
use std::net::SocketAddr;

/// Bytes that can be encoded when they are sent, directly into the buffer where they are needed.
/// Contracts see the encoded bytes.
pub trait DelayedTransmitBuild: Debug {
    // The encoded bytes.
    ghost text: { Self → List ℕ };

    /// Returns the number of bytes.
    fn len(&self) -> usize
        ensures { result ≡ length (text self.now) };

    /// Returns whether there are no bytes.
    fn is_empty(&self) -> bool
        ensures { result ≡ (length (text self.now) == 0) }
    {
        self.len() == 0
    }

    /// Writes the bytes into a slice of exactly their length, and returns that length.
    fn write_into(self, dest: &mut [u8]) -> usize
        requires { length dest.old ≡ length (Self.text self) }
        ensures bytes { dest.new ≡ Self.text self }
        ensures count { result ≡ length (Self.text self) };

    /// Returns the bytes in a vector.
    ///
    /// # Errors
    ///
    /// - `NoMemory`: an allocation failed.
    fn build(self, alloc: Global) -> Result<Vec<u8>, NoMemory>
        ensures { IfOk result (λ bytes. bytes.items ≡ Self.text self) };
}

/// Bytes that can be encoded when they are sent, with their transport, sender and receiver.
#[derive(Debug, Drop)]
pub struct TransmitBuild<T> {
    /// The bytes.
    pub bytes: T,
    /// The transport that carries them.
    pub transport: TransportType,
    /// The address that sends them.
    pub from: SocketAddr,
    /// The address that receives them.
    pub to: SocketAddr,
}

impl<T: DelayedTransmitBuild> TransmitBuild<T> {
    /// Creates the delayed send of these bytes over a transport, from one address to another.
    pub fn new(
        bytes: T,
        transport: TransportType,
        from: SocketAddr,
        to: SocketAddr,
    ) -> TransmitBuild<T>
        ensures { result ≡ record { bytes = bytes; transport = transport; from = from; to = to } }
    {
        TransmitBuild {
            bytes,
            transport,
            from,
            to,
        }
    }

    /// Encodes the bytes into a vector, and keeps transport and addresses.
    ///
    /// # Errors
    ///
    /// - `NoMemory`: an allocation failed.
    pub fn build(self, alloc: Global) -> Result<Transmit<Vec<u8>>, NoMemory>
        ensures bytes { IfOk result (λ made. made.bytes.items ≡ T.text self.bytes) }
        ensures transport { IfOk result (λ made. made.transport ≡ self.transport) }
        ensures from { IfOk result (λ made. made.from ≡ self.from) }
        ensures to { IfOk result (λ made. made.to ≡ self.to) }
    {
        let TransmitBuild {
            bytes,
            transport,
            from,
            to,
        } = self;
        Ok(Transmit::new(bytes.build(alloc)?, transport, from, to))
    }

    /// Encodes the bytes into a slice of exactly their length, and keeps transport and addresses.
    /// The result holds the slice.
    pub fn write_into(self, dest: &mut [u8]) -> Transmit<&mut [u8]>
        requires { length dest.old ≡ length (T.text self.bytes) }
        ensures bytes { result.bytes.now ≡ T.text self.bytes }
        ensures transport { result.transport ≡ self.transport }
        ensures from { result.from ≡ self.from }
        ensures to { result.to ≡ self.to }
    {
        let TransmitBuild {
            bytes,
            transport,
            from,
            to,
        } = self;
        bytes.write_into(&mut *dest);
        Transmit::new(dest, transport, from, to)
    }
}

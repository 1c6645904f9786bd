//! Bytes that are borrowed, owned, and moved.

use crate::line::Line;
use std::boxed::BoxedSlice;
use std::net::SocketAddr;
use stun_types_base::data::{Data, DataOwned, DataSlice};
use stun_types_base::memory::NoMemory;
use stun_types_base::transmit::Transmit;
use stun_types_base::transport::TransportType;

/// `moved TRANSPORT FROM TO BYTES`: moves bytes from one type to another, and prints them and which
/// values are equal. In order: a borrowed slice and an owned copy; a borrowed value and an owned
/// one; a transmission.
pub(crate) fn moved(line: &mut Line<'_>) {
    let transport = line.value(TransportType::Udp);
    let (from, to, bytes) = (line.address(), line.address(), line.bytes());
    let bytes = bytes.as_slice();
    line.is_bad = line.is_bad
        || slices(line, bytes).is_err()
        || values(line, bytes).is_err()
        || transmits(line, bytes, transport, from, to).is_err();
}

/// Prints the bytes of a borrowed slice, as each call returns them, those of an owned one, whether
/// an owned copy equals it, and the bytes of the copy's box.
fn slices(line: &mut Line<'_>, bytes: &[u8]) -> Result<(), NoMemory> {
    let slice = DataSlice::from(bytes);
    let owned = DataOwned::from(BoxedSlice::from_slice(line.alloc, bytes)?);
    let copied = slice.to_owned(line.alloc)?;
    line.hex(slice.as_slice());
    line.hex(<&[u8]>::from(slice));
    line.hex(owned.as_slice());
    line.say(&(copied == owned));
    line.hex(BoxedSlice::from(copied).as_slice());
    Ok(())
}

/// Prints whether two borrowed values are equal, a borrowed and an owned one, a copy of the
/// borrowed one and the owned one; then the bytes of that copy, and whether it stays the same if it
/// is made owned once more.
fn values(line: &mut Line<'_>, bytes: &[u8]) -> Result<(), NoMemory> {
    let borrowed = Data::from(bytes);
    let owned = Data::from(BoxedSlice::from_slice(line.alloc, bytes)?);
    line.say(&(borrowed == Data::from(DataSlice::from(bytes))));
    line.say(&(borrowed == owned));
    let made = borrowed.into_owned(line.alloc)?;
    line.say(&(made == owned));
    line.hex(made.as_slice());
    line.say(&(made.into_owned(line.alloc)? == owned));
    Ok(())
}

/// Prints whether the bytes of a transmission are borrowed; and after it was made owned again, its
/// bytes, transport and addresses.
fn transmits(
    line: &mut Line<'_>,
    bytes: &[u8],
    transport: TransportType,
    from: SocketAddr,
    to: SocketAddr,
) -> Result<(), NoMemory> {
    let sent = Transmit::new(bytes, transport, from, to);
    let sent = sent.reinterpret_data(|bytes| Data::from(bytes));
    line.say(&(sent.bytes == Data::from(bytes)));
    let stored = sent.into_owned(line.alloc)?;
    line.say(&(stored.bytes == Data::from(bytes)));
    line.hex(stored.bytes.as_slice());
    line.say(&stored.transport);
    line.say(&stored.from);
    line.say(&stored.to);
    Ok(())
}

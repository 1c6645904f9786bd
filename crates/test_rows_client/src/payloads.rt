//! Payloads from peers: a range of borrowed bytes, or owned bytes.

use crate::line::Line;
use std::convert::AsSlice;
use std::fmt::Debug;
use std::net::{IpAddr, Ipv4Addr, SocketAddr};
use stun_types_base::transport::TransportType;
use turn_client_proto_api::data::{DataRangeOrOwned, TurnPeerData};

const BYTES: &[u8] = b"abcde";

/// `payload START END`: prints a payload that is this range of `abcde`.
pub(crate) fn payload(line: &mut Line<'_>) {
    let (bytes, range) = (BYTES, line.index()..line.index());
    reported(line, DataRangeOrOwned::Range { bytes, range });
}

/// `owned BYTES`: prints a payload that owns its bytes.
pub(crate) fn owned(line: &mut Line<'_>) {
    let bytes = line.bytes();
    reported(line, DataRangeOrOwned::Owned(bytes));
}

/// Prints the bytes, the payload that is made from them, its owned copy, and a copy of that.
fn reported(line: &mut Line<'_>, held: DataRangeOrOwned<&[u8]>) {
    line.hex(held.as_slice());
    let peer = SocketAddr::new(IpAddr::V4(Ipv4Addr::new(10, 0, 0, 2)), 2000);
    let payload = TurnPeerData::new(held, TransportType::Tcp, peer);
    show(line, &payload);
    match payload.into_owned::<Vec<u8>>(line.alloc) {
        Ok(owned) => decoded_again(line, owned),
        Err(_) => line.is_bad = true,
    }
}

/// Prints an owned copy and a copy of it.
fn decoded_again(line: &mut Line<'_>, owned: TurnPeerData<Vec<u8>>) {
    show(line, &owned);
    match owned.into_owned::<&[u8]>(line.alloc) {
        Ok(stored) => show(line, &stored),
        Err(_) => line.is_bad = true,
    }
}

/// Prints a payload's bytes by either call, its transport and its peer.
fn show<T: AsSlice<u8> + Debug + Drop>(line: &mut Line<'_>, payload: &TurnPeerData<T>) {
    line.hex(payload.data());
    line.hex(payload.as_slice());
    line.say(&payload.transport);
    line.say(&payload.peer);
}

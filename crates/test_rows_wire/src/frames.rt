//! Writes and reads channel frames and indications.

use crate::line::Line;
use std::net::{IpAddr, Ipv4Addr, SocketAddr};
use stun_types_base::transport::TransportType;
use turn_types_attributes::registry::{GREATEST_CHANNEL, LEAST_CHANNEL, MAX_PAYLOAD};
use turn_types_frame::build::{DelayedTransmitBuild, TransmitBuild};
use turn_types_frame::channel::ChannelData;
use turn_types_frame::delayed_channel::DelayedChannel;
use turn_types_frame::delayed_message::DelayedMessage;

/// `channel NUMBER ROOM DATA`: prints the frame for a channel's data, unpadded and padded. Then
/// prints the result of writing it into ROOM bytes of 09, and these bytes afterwards.
pub(crate) fn channel(line: &mut Line<'_>) {
    let (id, room, data) = (line.number(), line.value(0usize), line.bytes());
    if id < LEAST_CHANNEL || GREATEST_CHANNEL < id || data.len() > 65_535 {
        line.is_bad = true;
        return;
    }
    let bytes = data.as_slice();
    sent(
        line,
        DelayedChannel::new(id, bytes),
        DelayedChannel::new(id, bytes),
    );
    sent(
        line,
        DelayedChannel::padded(id, bytes),
        DelayedChannel::padded(id, bytes),
    );
    if let Ok(mut room) = Vec::from_elem(line.alloc, 9u8, room) {
        line.gave(ChannelData::new(id, bytes).write_into(room.as_mut_slice()));
        line.hex(room.as_slice());
    }
}

/// Prints a Send indication or a Data indication:
///
/// ```text
/// send PEER NUMBER DATA
/// told PEER NUMBER DATA
/// ```
pub(crate) fn indication(line: &mut Line<'_>, is_sent: bool) {
    let (peer, number, data) = (line.address(), line.transaction(), line.bytes());
    let data = data.as_slice();
    if data.len() > MAX_PAYLOAD {
        line.is_bad = true;
    } else if is_sent {
        let same = DelayedMessage::for_server(peer, number, data);
        sent(line, DelayedMessage::for_server(peer, number, data), same);
    } else {
        let same = DelayedMessage::for_client(peer, number, data);
        sent(line, DelayedMessage::for_client(peer, number, data), same);
    }
}

/// Prints the number of bytes to send and whether it is zero. Then prints the transport, the
/// addresses and the bytes twice: first built in a vector, then written into a slice.
fn sent<T: DelayedTransmitBuild + Drop>(line: &mut Line<'_>, one: T, same: T) {
    let from = SocketAddr::new(IpAddr::V4(Ipv4Addr::new(192, 168, 0, 1)), 1000);
    let to = SocketAddr::new(IpAddr::V4(Ipv4Addr::new(10, 0, 0, 2)), 2000);
    line.say(&one.len());
    line.say(&one.is_empty());
    if let Ok(built) = TransmitBuild::new(one, TransportType::Udp, from, to).build(line.alloc) {
        way(line, built.transport, built.from, built.to);
        line.hex(built.bytes.as_slice());
    }
    let send = TransmitBuild::new(same, TransportType::Tcp, from, to);
    if let Ok(mut room) = Vec::from_elem(line.alloc, 9u8, send.bytes.len()) {
        let written = send.write_into(room.as_mut_slice());
        way(line, written.transport, written.from, written.to);
        line.hex(written.bytes);
    }
}

/// Prints the transport and the source and destination addresses.
fn way(line: &mut Line<'_>, transport: TransportType, from: SocketAddr, to: SocketAddr) {
    line.say(&transport);
    line.say(&from);
    line.say(&to);
}

/// `frame BYTES`: prints the header of the channel frame at the start of the bytes, and the frame.
pub(crate) fn frame(line: &mut Line<'_>) {
    let bytes = line.bytes();
    match ChannelData::parse_header(bytes.as_slice()) {
        Ok((id, len)) => {
            line.hex(&id.to_be_bytes());
            line.say(&len);
        }
        Err(error) => line.say(&error),
    }
    match ChannelData::parse(bytes.as_slice()) {
        Ok(channel) => {
            line.hex(&channel.id().to_be_bytes());
            line.hex(channel.data());
        }
        Err(error) => line.say(&error),
    }
}

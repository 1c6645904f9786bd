//! What a client sends to the server for a peer: channel frames, Send indications, and plain data.

use crate::line::Line;
use std::net::{IpAddr, Ipv4Addr, SocketAddr};
use stun_types_base::transport::TransportType;
use stun_types_wire::transaction::TransactionId;
use turn_client_proto_api::send::DelayedMessageOrChannelSend;
use turn_types_attributes::registry::{GREATEST_CHANNEL, LEAST_CHANNEL, MAX_PAYLOAD};
use turn_types_frame::build::{DelayedTransmitBuild, TransmitBuild};
use turn_types_frame::delayed_channel::DelayedChannel;
use turn_types_frame::delayed_message::DelayedMessage;

/// Prints what one of these lines sends: `send frame CHANNEL BYTES`, `send padded CHANNEL BYTES`,
/// `send indication PEER NUMBER BYTES`, `send data BYTES` and `send owned BYTES`.
pub(crate) fn send(line: &mut Line<'_>) {
    match line.word() {
        "frame" => frame(line, false),
        "padded" => frame(line, true),
        "indication" => indication(line),
        "data" => data(line),
        "owned" => owned(line),
        _ => line.is_bad = true,
    }
}

/// Sends a channel frame, padded or not.
fn frame(line: &mut Line<'_>, is_padded: bool) {
    let (id, data) = (line.number(), line.bytes());
    if id < LEAST_CHANNEL || GREATEST_CHANNEL < id || data.len() > MAX_PAYLOAD {
        line.is_bad = true;
        return;
    }
    for is_built in [true, false] {
        let frame = if is_padded {
            DelayedChannel::padded(id, data.as_slice())
        } else {
            DelayedChannel::new(id, data.as_slice())
        };
        sent(line, DelayedMessageOrChannelSend::Channel(frame), is_built);
    }
}

/// Sends a Send indication.
fn indication(line: &mut Line<'_>) {
    let (peer, number, data) = (line.address(), line.value(0u128), line.bytes());
    if data.len() > MAX_PAYLOAD {
        line.is_bad = true;
        return;
    }
    for is_built in [true, false] {
        let number = TransactionId::from(number);
        let message = DelayedMessage::for_server(peer, number, data.as_slice());
        sent(
            line,
            DelayedMessageOrChannelSend::Message(message),
            is_built,
        );
    }
}

/// Sends borrowed bytes unchanged.
fn data(line: &mut Line<'_>) {
    let data = line.bytes();
    for is_built in [true, false] {
        sent(
            line,
            DelayedMessageOrChannelSend::Data(data.as_slice()),
            is_built,
        );
    }
}

/// Sends owned bytes, which are encoded already.
fn owned(line: &mut Line<'_>) {
    let data = line.bytes();
    for is_built in [true, false] {
        if let Ok(data) = Vec::from_slice(line.alloc, data.as_slice()) {
            sent(line, DelayedMessageOrChannelSend::OwnedData(data), is_built);
        }
    }
}

/// Builds what is sent in a vector, or writes it into a slice.
fn sent(line: &mut Line<'_>, send: DelayedMessageOrChannelSend<&[u8]>, is_built: bool) {
    if is_built {
        build(line, send);
    } else {
        write_over(line, send);
    }
}

/// Prints the number of bytes to send, whether it is zero, the transport, the addresses and the
/// bytes.
fn build(line: &mut Line<'_>, send: DelayedMessageOrChannelSend<&[u8]>) {
    let from = SocketAddr::new(IpAddr::V4(Ipv4Addr::new(192, 168, 0, 1)), 1000);
    let to = SocketAddr::new(IpAddr::V4(Ipv4Addr::new(10, 0, 0, 2)), 2000);
    line.say(&send.len());
    line.say(&send.is_empty());
    match TransmitBuild::new(send, TransportType::Tcp, from, to).build(line.alloc) {
        Ok(built) => {
            line.say(&built.transport);
            line.say(&built.from);
            line.say(&built.to);
            line.hex(built.bytes.as_slice());
        }
        Err(_) => line.is_bad = true,
    }
}

/// Writes over bytes of 09, and prints how many bytes were written and the bytes afterwards.
fn write_over(line: &mut Line<'_>, send: DelayedMessageOrChannelSend<&[u8]>) {
    match Vec::from_elem(line.alloc, 9u8, send.len()) {
        Ok(mut room) => {
            let size = send.write_into(room.as_mut_slice());
            line.say(&size);
            line.hex(room.as_slice());
        }
        Err(_) => line.is_bad = true,
    }
}

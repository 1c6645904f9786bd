//! Streams of frames in chunks.

use crate::line::Line;
use std::net::{IpAddr, Ipv4Addr, SocketAddr};
use stun_types_base::transmit::Transmit;
use stun_types_base::transport::TransportType;
use turn_types_frame::tcp::{IncomingTcp, StoredTcp, TurnTcpBuffer};

/// The maximum number of frames that one `polls` takes from a buffer.
const MOST_FRAMES: usize = 8;

/// Feeds a stream to a new buffer, as the words say, and prints the bytes that are left:
///
/// ```text
/// stream WORD..
/// take BYTES   feeds a chunk of the stream
/// poll         takes a frame
/// polls        takes frames until there is none
/// empty        prints whether no bytes are buffered
/// front        prints the frame at the head, which stays in the buffer
/// drop         removes the frame at the head
/// ```
pub(crate) fn stream(line: &mut Line<'_>) {
    let mut buffer = TurnTcpBuffer::new(line.alloc);
    for _ in 0..line.left() {
        if line.left() > 0 {
            feed(line, &mut buffer);
        }
    }
    let left = buffer.into_inner();
    line.say(&"left");
    line.hex(left.as_slice());
}

/// Does what the next word says.
fn feed(line: &mut Line<'_>, buffer: &mut TurnTcpBuffer) {
    match line.word() {
        "empty" => line.say(&buffer.is_empty()),
        "front" => match buffer.head() {
            Some(frame) => line.hex(frame),
            None => line.say(&"nothing"),
        },
        "drop" => buffer.drop_head(),
        "poll" => {
            poll(line, buffer);
        }
        "polls" => {
            for _ in 0..MOST_FRAMES {
                if !poll(line, buffer) {
                    return;
                }
            }
        }
        _ => {
            let from = SocketAddr::new(IpAddr::V4(Ipv4Addr::new(10, 0, 0, 2)), 3478);
            let to = SocketAddr::new(IpAddr::V4(Ipv4Addr::new(192, 168, 0, 1)), 1000);
            let bytes = line.bytes();
            let chunk = Transmit::new(bytes.as_slice(), TransportType::Tcp, from, to);
            let came = buffer.incoming_tcp(chunk);
            report(line, &came);
            drop(came);
        }
    }
}

/// Prints the result of feeding a chunk.
fn report(line: &mut Line<'_>, came: &Option<IncomingTcp<&[u8]>>) {
    let (word, frame) = match came {
        None => ("none", None),
        Some(IncomingTcp::CompleteMessage(chunk, range)) => {
            ("message", chunk.bytes.get(range.start..range.end))
        }
        Some(IncomingTcp::CompleteChannel(chunk, range)) => {
            ("channel", chunk.bytes.get(range.start..range.end))
        }
        Some(IncomingTcp::StoredMessage(frame, _)) => ("stored-message", Some(frame.as_slice())),
        Some(IncomingTcp::StoredChannel(frame, _)) => ("stored-channel", Some(frame.as_slice())),
        Some(IncomingTcp::NoMemory(_)) => ("no-memory", None),
    };
    line.say(&word);
    if let Some(frame) = frame {
        line.hex(frame);
    }
}

/// Takes a frame, prints it, and returns whether there was one.
fn poll(line: &mut Line<'_>, buffer: &mut TurnTcpBuffer) -> bool {
    match buffer.poll_recv() {
        Ok(Some(StoredTcp::Message(frame))) => {
            line.say(&"message");
            line.hex(frame.as_slice());
            true
        }
        Ok(Some(StoredTcp::Channel(frame))) => {
            line.say(&"channel");
            line.hex(frame.as_slice());
            true
        }
        _ => {
            line.say(&"nothing");
            false
        }
    }
}

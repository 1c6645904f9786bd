//! Channel frames and streams of them.

ghost use Rattle.std.specs.Prelude.{◌≡◌, ◌↔◌, ◌≢◌, IsTrue, None};
ghost use Rattle.bench_codec.specs.Allocated.{WritesOut};
ghost use Rattle.turn_types_frame.specs.ChannelFrames.{channel_refusal, frame_text};

use std::alloc::Global;
use std::net::{Ipv4Addr, SocketAddr, SocketAddrV4};
use stun_types_base::transmit::Transmit;
use stun_types_base::transport::TransportType;
use turn_types_attributes::registry::{GREATEST_CHANNEL, LEAST_CHANNEL};
use turn_types_frame::build::DelayedTransmitBuild;
use turn_types_frame::channel::ChannelData;
use turn_types_frame::delayed_channel::DelayedChannel;
use turn_types_frame::tcp::{IncomingTcp, TurnTcpBuffer};

/// The maximum number of data bytes in a frame.
const MOST_DATA: usize = 0xFFFF;

/// Returns whether bytes start with a channel frame.
#[unsafe(no_mangle)]
pub extern "C" fn stun_bench_parse_channel(bytes: &[u8]) -> bool
    ensures { IsTrue result ↔ (channel_refusal bytes.now ≡ None) }
{
    ChannelData::parse(bytes).is_ok()
}

/// Writes the frame with this channel number and data to the start of `out`.
///
/// Returns the length of the frame. Returns 0 and writes nothing if the number is not a channel
/// number, if the data has more than 65,535 bytes or if `out` is too short.
#[unsafe(no_mangle)]
pub extern "C" fn stun_bench_write_channel(id: u16, payload: &[u8], out: &mut [u8]) -> usize
    ensures { WritesOut (frame_text (record { id = id; payload = payload.now }))
        out.old out.new result }
{
    if id < LEAST_CHANNEL || GREATEST_CHANNEL < id || MOST_DATA < payload.len() {
        return 0;
    }
    let delayed = DelayedChannel::new(id, payload);
    let len = delayed.len();
    if out.len() < len {
        return 0;
    }
    let (head, _) = out.split_at_mut(len);
    delayed.write_into(head)
}

/// Feeds a stream to a new buffer in chunks of `size` bytes, and takes all available frames after
/// each chunk. Returns the number of frames, which `bench.c` compares with the number that the
/// stream holds.
#[unsafe(no_mangle)]
pub extern "C" fn stun_bench_feed(alloc: Global, bytes: &[u8], size: usize) -> usize {
    let mut buffer = TurnTcpBuffer::new(alloc);
    let frames = feed(&mut buffer, bytes, size);
    drop(buffer);
    frames
}

/// Feeds a stream to a buffer in chunks of `size` bytes. Returns the number of frames that it gave.
fn feed(buffer: &mut TurnTcpBuffer, bytes: &[u8], size: usize) -> usize {
    let mut frames = 0usize;
    for chunk in bytes.chunks(size.max(1)) {
        frames = frames
            .saturating_add(feed_chunk(buffer, chunk))
            .saturating_add(take_waiting(buffer, bytes.len()));
    }
    frames
}

/// Feeds a chunk to a buffer. Returns the number of frames that this call gave: one or none.
fn feed_chunk(buffer: &mut TurnTcpBuffer, chunk: &[u8]) -> usize {
    let server = SocketAddr::V4(SocketAddrV4::new(Ipv4Addr::new(10, 0, 0, 2), 3478));
    let transmit = Transmit::new(chunk, TransportType::Tcp, server, server);
    match buffer.incoming_tcp(transmit) {
        None | Some(IncomingTcp::NoMemory(_)) => 0,
        Some(_) => 1,
    }
}

/// Takes at most `most` frames that are ready in a buffer. Returns their number.
fn take_waiting(buffer: &mut TurnTcpBuffer, most: usize) -> usize {
    let mut frames = 0usize;
    for _ in 0..most {
        match buffer.poll_recv() {
            Ok(Some(_)) => frames = frames.saturating_add(1),
            Ok(None) | Err(_) => break,
        }
    }
    frames
}

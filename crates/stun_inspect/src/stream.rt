//! Channel frames, alone and among the messages of a stream (RFC 8656, sections 12.4 and 12.5).

ghost use Rattle.stun_inspect.specs.StreamParts.{IsFirstPart, IsShorter};

use crate::message::{push_message, push_named, push_refused};
use serde_json::{Value, put};
use std::alloc::Global;
use stun_describe::object::{frame_object, message_object, new_object, put_bytes};
use stun_types_base::memory::NoMemory;
use stun_types_integrity::credentials::MessageIntegrityCredentials;
use stun_types_wire::attribute::pad_attribute_len;
use stun_types_wire::names::Names;
use turn_types_attributes::registry::CHANNEL_HEADER_LENGTH;
use turn_types_frame::channel::ChannelData;
use turn_types_frame::head::{FrameHead, peek_frame};

/// The first part of a stream.
#[derive(Clone, Copy)]
pub(crate) enum StreamPart<'a> {
    /// A complete message, and the bytes after it.
    Message(&'a [u8], &'a [u8]),
    /// A complete channel frame with its padding, and the bytes after it.
    Frame(&'a [u8], &'a [u8]),
    /// The bytes may still become a message or a frame.
    Rest,
    /// Neither begins here.
    Invalid,
}

/// Returns the first part of a stream.
pub(crate) fn first_part(bytes: &[u8]) -> StreamPart<'_>
    ensures part { IsFirstPart bytes.entry.now result }
    ensures shorter { IsShorter bytes.entry.now result }
{
    match peek_frame(bytes) {
        FrameHead::Message(size) => {
            let (message, following) = bytes.split_at(size);
            StreamPart::Message(message, following)
        }
        FrameHead::Channel(len) => {
            let size = CHANNEL_HEADER_LENGTH + pad_attribute_len(usize::from(len));
            let (frame, following) = bytes.split_at(size);
            StreamPart::Frame(frame, following)
        }
        FrameHead::Incomplete => StreamPart::Rest,
        FrameHead::Invalid => StreamPart::Invalid,
    }
}

/// Appends the description of bytes as one channel frame: its channel, its data, and the bytes
/// after these.
pub(crate) fn push_frame(alloc: Global, text: &mut String, bytes: &[u8]) -> Result<(), NoMemory> {
    let size = bytes.len();
    writeln!(text, "frame {size} bytes")?;
    match ChannelData::parse(bytes) {
        Ok(frame) => {
            let channel = frame.id();
            writeln!(text, "channel 0x{channel:04x}")?;
            push_named(alloc, text, "data", frame.data())?;
            let following = bytes.get(frame.len()..).unwrap_or(&[]);
            push_named(alloc, text, "behind", following)
        }
        Err(error) => push_refused(text, error),
    }
}

/// Appends the description of the first bytes of a stream:
///
/// - each complete message, validated if there are credentials, and each complete channel frame
///   with its padding, in order;
/// - then the remaining bytes: as `rest` if they may still become a frame, as `broken` if they
///   can't.
pub(crate) fn push_stream(
    alloc: Global,
    text: &mut String,
    bytes: &[u8],
    credentials: Option<&MessageIntegrityCredentials>,
    names: &Names,
) -> Result<(), NoMemory> {
    let size = bytes.len();
    writeln!(text, "stream {size} bytes")?;
    let mut rest = bytes;
    'frames: loop {
        match first_part(rest) {
            StreamPart::Message(message, following) => {
                push_message(alloc, text, message, credentials, names)?;
                rest = following;
            }
            StreamPart::Frame(frame, following) => {
                push_frame(alloc, text, frame)?;
                rest = following;
            }
            StreamPart::Rest => {
                return push_named(alloc, text, "rest", rest);
            }
            StreamPart::Invalid => {
                return push_named(alloc, text, "broken", rest);
            }
        }
    }
}

/// Returns the first bytes of a stream: an array of its complete messages and channel frames, and
/// the remaining bytes, as `rest` or as `broken`.
pub(crate) fn stream_object(
    alloc: Global,
    bytes: &[u8],
    credentials: Option<&MessageIntegrityCredentials>,
    names: &Names,
) -> Result<Value, NoMemory> {
    let mut object = new_object(alloc, "stream", bytes)?;
    let mut frames = Vec::new(alloc);
    let mut rest = bytes;
    'frames: loop {
        match first_part(rest) {
            StreamPart::Message(message, following) => {
                frames.push(Value::Object(message_object(alloc, message, credentials, names)?))?;
                rest = following;
            }
            StreamPart::Frame(frame, following) => {
                frames.push(Value::Object(frame_object(alloc, frame)?))?;
                rest = following;
            }
            StreamPart::Rest => {
                put_bytes(alloc, &mut object, "rest", rest)?;
                break 'frames;
            }
            StreamPart::Invalid => {
                put_bytes(alloc, &mut object, "broken", rest)?;
                break 'frames;
            }
        }
    }
    put(&mut object, alloc, "frames", Value::Array(frames))?;
    Ok(Value::Object(object))
}

//! What a packet of a capture carries, in words or as JSON.

use crate::arguments::Form;
use crate::capture::Record;
use crate::message::{push_message, push_named};
use crate::packet::{Carried, Packet};
use crate::stream::push_frame;
use line_io::lower_hex::write_hex;
use serde_json::{Map, Value, put};
use std::alloc::Global;
use stun_describe::object::{Members, frame_object, message_object, put_text};
use stun_types_base::memory::NoMemory;
use stun_types_wire::names::Names;

/// The messages and channel frames of one packet.
#[derive(Drop)]
pub(crate) struct Body {
    alloc: Global,
    form: Form,
    /// The facts, one a line.
    text: String,
    /// The objects.
    frames: Vec<Value>,
    /// How many bytes of the stream lack before the packet.
    gap: Option<u32>,
    /// Bytes of the stream that are neither a message nor a frame, in hex.
    invalid: Option<String>,
}

impl Body {
    pub(crate) fn new(alloc: Global, form: Form) -> Body {
        Body {
            alloc,
            form,
            text: String::new(alloc),
            frames: Vec::new(alloc),
            gap: None,
            invalid: None,
        }
    }

    /// Returns whether there is nothing to say.
    pub(crate) fn is_empty(&self) -> bool {
        self.text.is_empty()
            && self.frames.is_empty()
            && self.gap.is_none()
            && self.invalid.is_none()
    }

    /// Adds a message.
    pub(crate) fn add_message(&mut self, bytes: &[u8], names: &Names) -> Result<(), NoMemory> {
        match self.form {
            Form::Text => push_message(self.alloc, &mut self.text, bytes, None, names),
            Form::Json => {
                let object = message_object(self.alloc, bytes, None, names)?;
                self.frames.push(Value::Object(object))?;
                Ok(())
            }
        }
    }

    /// Adds a channel frame.
    pub(crate) fn add_frame(&mut self, bytes: &[u8]) -> Result<(), NoMemory> {
        match self.form {
            Form::Text => push_frame(self.alloc, &mut self.text, bytes),
            Form::Json => {
                let object = frame_object(self.alloc, bytes)?;
                self.frames.push(Value::Object(object))?;
                Ok(())
            }
        }
    }

    /// Adds that bytes of a stream lack.
    pub(crate) fn add_gap(&mut self, count: u32) -> Result<(), NoMemory> {
        match self.form {
            Form::Text => writeln!(self.text, "gap {count} bytes")?,
            Form::Json => self.gap = Some(count),
        }
        Ok(())
    }

    /// Adds bytes of a stream that are neither a message nor a frame.
    pub(crate) fn add_invalid(&mut self, bytes: &[u8]) -> Result<(), NoMemory> {
        match self.form {
            Form::Text => push_named(self.alloc, &mut self.text, "broken", bytes),
            Form::Json => {
                self.invalid = Some(write_hex(self.alloc, bytes)?);
                Ok(())
            }
        }
    }
}

/// Appends what is said of a packet: its number, time and addresses, and then the body.
pub(crate) fn push_packet(text: &mut String, head: &Head<'_>, body: Body) -> Result<(), NoMemory> {
    match body.form {
        Form::Text => {
            push_head(text, head)?;
            text.push_str(body.text.as_str())?;
            Ok(())
        }
        Form::Json => {
            let alloc = body.alloc;
            let object = packet_object(head, body)?;
            push_object(alloc, text, object)
        }
    }
}

/// What stands before a packet's messages and frames.
#[derive(Clone, Copy)]
pub(crate) struct Head<'a> {
    /// Packets are counted from 1.
    pub(crate) number: usize,
    /// Whether times are in nanoseconds.
    pub(crate) is_nano: bool,
    pub(crate) record: Record<'a>,
    pub(crate) packet: Packet<'a>,
}

impl Head<'_> {
    /// Returns the name of the protocol.
    fn protocol(&self) -> &'static str {
        match self.packet.carried {
            Carried::Udp(_) => "udp",
            Carried::Tcp(_) => "tcp",
        }
    }
}

/// Appends a line with the number, the time, the protocol and both addresses.
fn push_head(text: &mut String, head: &Head<'_>) -> Result<(), NoMemory> {
    let (number, protocol) = (head.number, head.protocol());
    let (from, to) = (head.packet.from, head.packet.to);
    write!(text, "packet {number} ")?;
    push_time(text, head)?;
    writeln!(text, " {protocol} {from} {to}")?;
    Ok(())
}

/// Appends the time, in seconds since 1970.
fn push_time(text: &mut String, head: &Head<'_>) -> Result<(), NoMemory> {
    let (seconds, fraction) = (head.record.seconds, head.record.fraction);
    if head.is_nano {
        write!(text, "{seconds}.{fraction:09}")?;
    } else {
        write!(text, "{seconds}.{fraction:06}")?;
    }
    Ok(())
}

/// Returns what is said of a packet, as an object.
fn packet_object(head: &Head<'_>, body: Body) -> Result<Members, NoMemory> {
    let Body {
        alloc,
        frames,
        gap,
        invalid,
        ..
    } = body;
    let mut object = Map::new(alloc);
    put_head(alloc, &mut object, head)?;
    put(&mut object, alloc, "frames", Value::Array(frames))?;
    put_loss(alloc, &mut object, gap, invalid)?;
    Ok(object)
}

/// Adds how many bytes lack before a packet, and the bytes that are neither a message nor a frame.
fn put_loss(
    alloc: Global,
    object: &mut Members,
    gap: Option<u32>,
    invalid: Option<String>,
) -> Result<(), NoMemory> {
    if let Some(gap) = gap {
        put(object, alloc, "gap", Value::from(gap))?;
    }
    if let Some(invalid) = invalid {
        put(object, alloc, "broken", Value::String(invalid))?;
    }
    Ok(())
}

/// Adds the number, the time, the protocol and both addresses.
fn put_head(alloc: Global, object: &mut Members, head: &Head<'_>) -> Result<(), NoMemory> {
    put_text(alloc, object, "kind", "packet")?;
    put(object, alloc, "number", Value::from(head.number))?;
    put_text(alloc, object, "protocol", head.protocol())?;
    let (from, to) = (head.packet.from, head.packet.to);
    let mut text = String::new(alloc);
    write!(text, "{from}")?;
    put(object, alloc, "from", Value::String(text))?;
    let mut text = String::new(alloc);
    write!(text, "{to}")?;
    put(object, alloc, "to", Value::String(text))?;
    let mut text = String::new(alloc);
    push_time(&mut text, head)?;
    put(object, alloc, "time", Value::String(text))?;
    Ok(())
}

/// Appends an object, on a line.
pub(crate) fn push_object(
    alloc: Global,
    text: &mut String,
    object: Members,
) -> Result<(), NoMemory> {
    let line = Value::Object(object).to_string(alloc)?;
    writeln!(text, "{line}")?;
    Ok(())
}

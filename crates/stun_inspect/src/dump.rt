//! A capture, packet by packet.

ghost use Rattle.std.specs.Prelude.{◌+◌};
ghost use Rattle.line_io.specs.Input.{TakesAtMost};

use crate::arguments::Form;
use crate::body::{Body, Head, push_packet};
use crate::capture::{Capture, CaptureError};
use crate::flows::{Change, Direction, Flows};
use crate::packet::{Carried, Packet, read_packet};
use crate::report::print_last;
use crate::stream::{StreamPart, first_part};
use line_io::input::{InputError, MAX_INPUT, read_input};
use line_io::status::Status;
use line_io::stop::{Stop, flush};
use std::alloc::Global;
use std::io::{self, Read, Write};
use stun_describe::names::names;
use stun_types_base::memory::NoMemory;
use stun_types_wire::header::MessageHeader;
use stun_types_wire::names::Names;
use turn_types_frame::channel::ChannelData;

/// Reads a capture, and describes the messages and channel frames of each packet over UDP or TCP.
/// The last line says how many packets there are, and of how many something was said.
///
/// If it stops early, the last line is in its place:
///
/// - `bad capture: ` and the reason, if the input is no capture that is read.
/// - `no memory` if an allocation failed.
/// - `read fault` if the input can't be read or is too long.
pub(crate) fn inspect_capture<I: Read, O: Write>(
    alloc: Global,
    form: Form,
    input: &mut I,
    output: &mut O,
) -> Status
    // At most one byte more than the maximum length of an input is read.
    ensures taken { TakesAtMost (MAX_INPUT + 1) (I.remaining input.old) (I.remaining input.new) }
{
    match read_input(alloc, input) {
        Ok(bytes) => {
            let ended = describe(alloc, form, bytes.as_slice(), output);
            finish(form, output, ended)
        }
        Err(InputError::NoMemory) => print_last(form, output, Stop::NoMemory),
        Err(InputError::Fault) => print_last(form, output, Stop::Unread),
    }
}

/// Why a capture isn't read to its end.
enum End {
    /// What ends other inputs, too.
    Stop(Stop),
    /// What is wrong with the capture.
    Capture(CaptureError),
}

/// Describes each packet, and says how many there are.
fn describe<O: Write>(alloc: Global, form: Form, bytes: &[u8], output: &mut O) -> Result<(), End> {
    let mut capture = match Capture::open(bytes) {
        Ok(capture) => capture,
        Err(error) => return Err(End::Capture(error)),
    };
    let Ok(mut dump) = Dump::new(alloc, form) else {
        return Err(End::Stop(Stop::NoMemory));
    };
    for _ in 0..bytes.len() {
        match dump.next_text(&mut capture) {
            Ok(Some(text)) => print(text.as_str(), output)?,
            Ok(None) => break,
            Err(end) => return Err(end),
        }
    }
    match dump.last_text(capture.count) {
        Ok(text) => print(text.as_str(), output),
        Err(NoMemory) => Err(End::Stop(Stop::NoMemory)),
    }
}

/// Prints a text.
fn print<O: Write>(text: &str, output: &mut O) -> Result<(), End> {
    match output.write_all(text.as_bytes()) {
        Ok(()) => Ok(()),
        Err(_) => Err(End::Stop(Stop::Unwritten)),
    }
}

/// The state between two packets.
#[derive(Drop)]
struct Dump {
    alloc: Global,
    form: Form,
    names: Names,
    flows: Flows,
    /// Of how many packets something was said.
    described: usize,
}

impl Dump {
    fn new(alloc: Global, form: Form) -> Result<Dump, NoMemory> {
        Ok(Dump {
            alloc,
            form,
            names: names(alloc)?,
            flows: Flows::new(alloc),
            described: 0,
        })
    }

    /// Reads the next packet, and returns what is said of it, which may be nothing. `None` if there
    /// is none.
    fn next_text(&mut self, capture: &mut Capture<'_>) -> Result<Option<String>, End> {
        let record = match capture.next_record() {
            Some(Ok(record)) => record,
            Some(Err(error)) => return Err(End::Capture(error)),
            None => return Ok(None),
        };
        let Some(packet) = read_packet(capture.link, record.bytes) else {
            return Ok(Some(String::new(self.alloc)));
        };
        let head = Head {
            number: capture.count,
            is_nano: capture.is_nano,
            record,
            packet,
        };
        match self.text_of(&head) {
            Ok(text) => Ok(Some(text)),
            Err(NoMemory) => Err(End::Stop(Stop::NoMemory)),
        }
    }

    /// Returns what is said of a packet over UDP or TCP.
    fn text_of(&mut self, head: &Head<'_>) -> Result<String, NoMemory> {
        let mut body = Body::new(self.alloc, self.form);
        self.add_packet(&mut body, head.packet)?;
        let mut text = String::new(self.alloc);
        if !body.is_empty() {
            self.described = self.described.saturating_add(1);
            push_packet(&mut text, head, body)?;
        }
        Ok(text)
    }

    /// Adds what a packet carries.
    fn add_packet(&mut self, body: &mut Body, packet: Packet<'_>) -> Result<(), NoMemory> {
        let direction = (packet.from, packet.to);
        match packet.carried {
            Carried::Udp(bytes) => add_datagram(body, bytes, &self.names),
            Carried::Tcp(segment) => match self.flows.add(direction, segment)? {
                Change::Grown => self.add_stream(body, direction),
                Change::Nothing => Ok(()),
                Change::Gap(count) => body.add_gap(count),
            },
        }
    }

    /// Adds the messages and frames of a stream that are complete now, and takes their bytes.
    fn add_stream(&mut self, body: &mut Body, direction: Direction) -> Result<(), NoMemory> {
        let buffered = self.flows.buffered(direction);
        if !self.flows.has_started(direction) && !may_be_message(buffered) {
            self.flows.forget(direction);
            return Ok(());
        }
        let (count, is_over) = add_parts(body, buffered, &self.names)?;
        if is_over {
            self.flows.forget(direction);
        } else {
            self.flows.take(direction, count);
        }
        Ok(())
    }

    /// Returns the last line.
    fn last_text(&self, packets: usize) -> Result<String, NoMemory> {
        let mut text = String::new(self.alloc);
        let described = self.described;
        match self.form {
            Form::Text => writeln!(text, "capture {packets} packets {described} described")?,
            Form::Json => writeln!(
                text,
                "{{\"described\":{described},\"kind\":\"capture\",\"packets\":{packets}}}"
            )?,
        }
        Ok(text)
    }
}

/// Adds a datagram that is a message or a channel frame: it has a message's header, or a channel's
/// number and its data with at most three bytes of padding.
fn add_datagram(body: &mut Body, bytes: &[u8], names: &Names) -> Result<(), NoMemory> {
    if MessageHeader::from_bytes(bytes).is_ok() {
        return body.add_message(bytes, names);
    }
    match ChannelData::parse(bytes) {
        Ok(frame) if bytes.len().saturating_sub(frame.len()) < 4 => body.add_frame(bytes),
        _ => Ok(()),
    }
}

/// Adds the complete messages and frames at the beginning of a stream's bytes. Returns their length,
/// and whether something else begins behind them.
fn add_parts(body: &mut Body, bytes: &[u8], names: &Names) -> Result<(usize, bool), NoMemory> {
    let mut rest = bytes;
    for _ in 0..bytes.len() {
        match first_part(rest) {
            StreamPart::Message(message, following) => {
                body.add_message(message, names)?;
                rest = following;
            }
            StreamPart::Frame(frame, following) => {
                body.add_frame(frame)?;
                rest = following;
            }
            StreamPart::Rest => break,
            StreamPart::Invalid => {
                body.add_invalid(rest)?;
                return Ok((bytes.len(), true));
            }
        }
    }
    Ok((bytes.len().saturating_sub(rest.len()), false))
}

/// Returns whether bytes begin with a message, complete or not.
fn may_be_message(bytes: &[u8]) -> bool {
    match first_part(bytes) {
        StreamPart::Message(_, _) => true,
        StreamPart::Rest => bytes.first().is_some_and(|byte| *byte < 0x40),
        StreamPart::Frame(_, _) | StreamPart::Invalid => false,
    }
}

/// Returns the status at the end of a capture, after a last line if it ended early.
fn finish<O: Write>(form: Form, output: &mut O, ended: Result<(), End>) -> Status {
    match ended {
        Ok(()) => flush(output, Status::Done),
        Err(End::Stop(stop)) => print_last(form, output, stop),
        Err(End::Capture(error)) => match print_bad(form, output, error) {
            Ok(()) => flush(output, Status::BadTrace),
            Err(_) => Status::Fault,
        },
    }
}

/// Prints what is wrong with a capture.
fn print_bad<O: Write>(form: Form, output: &mut O, error: CaptureError) -> Result<(), io::Error> {
    match (form, error) {
        (Form::Text, CaptureError::NotPcap) => output.write_all(b"bad capture: not pcap\n"),
        (Form::Text, CaptureError::Pcapng) => output.write_all(b"bad capture: pcapng\n"),
        (Form::Text, CaptureError::Link(number)) => writeln!(output, "bad capture: link {number}"),
        (Form::Text, CaptureError::Packet(at)) => writeln!(output, "bad capture: packet {at}"),
        (Form::Json, CaptureError::NotPcap) => {
            output.write_all(b"{\"refused\":{\"name\":\"NotPcap\"}}\n")
        }
        (Form::Json, CaptureError::Pcapng) => {
            output.write_all(b"{\"refused\":{\"name\":\"Pcapng\"}}\n")
        }
        (Form::Json, CaptureError::Link(number)) => writeln!(
            output,
            "{{\"refused\":{{\"link\":{number},\"name\":\"BadLink\"}}}}"
        ),
        (Form::Json, CaptureError::Packet(at)) => writeln!(
            output,
            "{{\"refused\":{{\"name\":\"BadPacket\",\"packet\":{at}}}}}"
        ),
    }
}

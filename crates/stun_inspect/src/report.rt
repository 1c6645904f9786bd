//! The input, line by line.

ghost use Rattle.std.specs.Prelude.{◌≡◌, ◌≢◌, ◌+◌, Err, OnOk};
ghost use Rattle.std.specs.List.{AllByRecursion};
ghost use Rattle.line_io.specs.Cut.{lines_of};
ghost use Rattle.line_io.specs.Input.{TakesAll, TakesAtMost, TakesLines};
ghost use Rattle.stun_inspect.specs.InspectLines.{IsReadable};
ghost use Rattle.line_io.specs.Stop.{status_of};
ghost use Rattle.std.specs.Io.KnownBytes.{Appends};
ghost use Rattle.stun_inspect.specs.Printed.{Prints, PrintsText, last_text};

use crate::arguments::Form;
use crate::line::{Line, read_line};
use crate::message::{push_message, push_raw};
use crate::stop_object::print_stop_object;
use crate::stream::{push_frame, push_stream, stream_object};
use line_io::cut::{cut_line, is_skipped};
use line_io::input::{InputError, MAX_INPUT, read_input};
use line_io::status::Status;
use line_io::stop::{Stop, flush, print_stop, stop_at};
use serde_json::Value;
use std::alloc::Global;
use std::io::{Read, Write};
use stun_describe::names::names;
use stun_describe::object::{frame_object, message_object, raw_object};
use stun_types_base::memory::NoMemory;
use stun_types_integrity::credentials::{
    LongTermCredentials, MessageIntegrityCredentials, ShortTermCredentials,
};
use stun_types_wire::names::Names;

/// Reads a whole input, and describes the bytes of each line that has some.
///
/// If it stops early, it prints one more line:
///
/// - `bad trace: line N` at the first bad line; lines are counted from 1.
/// - `no memory` if an allocation failed.
/// - `read fault` if the input can't be read or is too long.
///
/// In JSON it is an object with the reason: `BadLine` and the line's number, `NoMemory` or
/// `ReadFault`. After a failed write nothing more is printed.
pub(crate) fn inspect<I: Read, O: Write>(
    alloc: Global,
    form: Form,
    input: &mut I,
    output: &mut O,
) -> Status
    // At most one byte more than the maximum length of an input is read.
    ensures taken { TakesAtMost (MAX_INPUT + 1) (I.remaining input.old) (I.remaining input.new) }
    // If the input was read, it is everything that the reader had.
    ensures whole { result ≢ Status.Fault → result ≢ Status.NoMemory
        → TakesAll MAX_INPUT (I.remaining input.old) (I.remaining input.new) }
    // If it ends well, each line can be read, or is blank or a comment.
    ensures done { result ≡ Status.Done → TakesLines IsReadable (I.remaining input.old)
        (I.remaining input.new) }
    ensures printed { Prints (last_text form) result (O.contents output.old)
        (O.contents output.new) }
{
    match inspect_input(alloc, form, input, output) {
        Ok(()) => flush(output, Status::Done),
        Err(stop) => print_last(form, output, stop),
    }
}

/// Prints why a program stopped, and returns its status, or `Fault` if printing fails.
pub(crate) fn print_last<O: Write>(form: Form, output: &mut O, stop: Stop) -> Status
    ensures status { result ≢ Status.Fault → result ≡ status_of stop }
    ensures printed { result ≢ Status.Fault → Appends (O.contents output.old)
        (O.contents output.new) (last_text form stop) }
{
    match form {
        Form::Text => print_stop(output, stop),
        Form::Json => print_stop_object(output, stop),
    }
}

/// Reads a whole input, and describes the bytes of its lines.
fn inspect_input<I: Read, O: Write>(
    alloc: Global,
    form: Form,
    input: &mut I,
    output: &mut O,
) -> Result<(), Stop>
    ensures taken { TakesAtMost (MAX_INPUT + 1) (I.remaining input.old) (I.remaining input.new) }
    ensures whole { result ≢ Err Stop.Unread → result ≢ Err Stop.NoMemory
        → TakesAll MAX_INPUT (I.remaining input.old) (I.remaining input.new) }
    ensures done { OnOk result (TakesLines IsReadable (I.remaining input.old)
        (I.remaining input.new)) }
    ensures printed { result ≢ Err Stop.Unwritten
        → PrintsText (O.contents output.old) (O.contents output.new) }
{
    match read_input(alloc, input) {
        Ok(text) => inspect_text(alloc, form, text.as_slice(), output),
        Err(InputError::NoMemory) => Err(Stop::NoMemory),
        Err(InputError::Fault) => Err(Stop::Unread),
    }
}

/// The state between two lines.
#[derive(Drop)]
struct Inspector {
    alloc: Global,
    form: Form,
    names: Names,
    /// The credentials of the last line that contained some.
    credentials: Option<MessageIntegrityCredentials>,
}

impl Inspector {
    /// Returns the state before the first line.
    fn new(alloc: Global, form: Form) -> Result<Inspector, NoMemory> {
        Ok(Inspector {
            alloc,
            form,
            names: names(alloc)?,
            credentials: None,
        })
    }

    /// Executes a line, and returns the text to print. It is empty for a line with credentials.
    fn in_words(&mut self, line: &Line<'_>) -> Result<String, NoMemory> {
        let mut text = String::new(self.alloc);
        self.push_line(&mut text, line)?;
        Ok(text)
    }

    /// Stores the credentials of a line that contains some, or appends the description of its
    /// bytes.
    fn push_line(&mut self, text: &mut String, line: &Line<'_>) -> Result<(), NoMemory> {
        match line {
            Line::User {
                name,
                realm,
                password,
            } => self.credentials = Some(credentials_of_user(self.alloc, name, realm, password)?),
            Line::Password(password) => {
                self.credentials = Some(credentials_of_password(self.alloc, password)?)
            }
            _ => match self.form {
                Form::Text => self.push_text(text, line)?,
                Form::Json => {
                    let object = self.object(line)?.to_string(self.alloc)?;
                    writeln!(text, "{object}")?;
                }
            },
        }
        Ok(())
    }

    /// Appends the description of a line's bytes, one fact a line.
    fn push_text(&self, text: &mut String, line: &Line<'_>) -> Result<(), NoMemory> {
        let (alloc, credentials, names) = (self.alloc, self.credentials.as_ref(), &self.names);
        match line {
            Line::Message(bytes) => push_message(alloc, text, bytes.as_slice(), credentials, names),
            Line::Raw(bytes) => push_raw(alloc, text, bytes.as_slice(), names),
            Line::Frame(bytes) => push_frame(alloc, text, bytes.as_slice()),
            Line::Stream(bytes) => push_stream(alloc, text, bytes.as_slice(), credentials, names),
            Line::User { .. } | Line::Password(_) => Ok(()),
        }
    }

    /// Returns the description of a line's bytes, as an object.
    fn object(&self, line: &Line<'_>) -> Result<Value, NoMemory> {
        let (alloc, credentials, names) = (self.alloc, self.credentials.as_ref(), &self.names);
        match line {
            Line::Message(bytes) => Ok(Value::Object(message_object(
                alloc,
                bytes.as_slice(),
                credentials,
                names,
            )?)),
            Line::Raw(bytes) => raw_object(alloc, bytes.as_slice(), names),
            Line::Frame(bytes) => Ok(Value::Object(frame_object(alloc, bytes.as_slice())?)),
            Line::Stream(bytes) => stream_object(alloc, bytes.as_slice(), credentials, names),
            Line::User { .. } | Line::Password(_) => Ok(Value::Null),
        }
    }
}

/// Returns the credentials of a user in a realm.
fn credentials_of_user(
    alloc: Global,
    name: &str,
    realm: &str,
    password: &str,
) -> Result<MessageIntegrityCredentials, NoMemory> {
    let name = String::from_str(alloc, name)?;
    let password = String::from_str(alloc, password)?;
    let user = LongTermCredentials::new(name, password);
    let key = user.to_key(alloc, String::from_str(alloc, realm)?)?;
    Ok(MessageIntegrityCredentials::from(key))
}

/// Returns the credentials of a password alone.
fn credentials_of_password(
    alloc: Global,
    password: &str,
) -> Result<MessageIntegrityCredentials, NoMemory> {
    let password = String::from_str(alloc, password)?;
    let credentials = ShortTermCredentials::new(password);
    Ok(MessageIntegrityCredentials::from(credentials))
}

/// Describes the bytes of the lines of a text.
fn inspect_text<O: Write>(
    alloc: Global,
    form: Form,
    text: &[u8],
    output: &mut O,
) -> Result<(), Stop>
    ensures read { OnOk result (AllByRecursion IsReadable (lines_of text.now)) }
    ensures printed { result ≢ Err Stop.Unwritten
        → PrintsText (O.contents output.old) (O.contents output.new) }
{
    let Ok(mut inspector) = Inspector::new(alloc, form) else {
        return Err(Stop::NoMemory);
    };
    let mut rest = text;
    let mut number = 0usize;
    'lines: loop {
        let (line, after) = cut_line(rest);
        number = number.saturating_add(1);
        if let Err(stop) = inspect_line(&mut inspector, number, line, output) {
            return Err(stop);
        }
        let Some(after) = after else {
            return Ok(());
        };
        rest = after;
    }
}

/// Describes the bytes of one line; a blank line or a comment does nothing.
fn inspect_line<O: Write>(
    inspector: &mut Inspector,
    number: usize,
    line: &[u8],
    output: &mut O,
) -> Result<(), Stop>
    ensures read { OnOk result (IsReadable line.now) }
    ensures printed { result ≢ Err Stop.Unwritten
        → PrintsText (O.contents output.old) (O.contents output.new) }
{
    if is_skipped(line) {
        return Ok(());
    }
    match read_line(inspector.alloc, line) {
        Ok(read) => match inspector.in_words(&read) {
            Ok(words) => print(words.as_str(), output),
            Err(NoMemory) => Err(Stop::NoMemory),
        },
        Err(error) => Err(stop_at(number, error)),
    }
}

/// Prints a text.
fn print<O: Write>(text: &str, output: &mut O) -> Result<(), Stop>
    ensures printed { result ≢ Err Stop.Unwritten
        → PrintsText (O.contents output.old) (O.contents output.new) }
{
    match output.write_all(text.as_bytes()) {
        Ok(()) => Ok(()),
        Err(_) => Err(Stop::Unwritten),
    }
}

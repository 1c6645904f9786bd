//! The arguments of the program.

ghost use Rattle.std.specs.Prelude.{◌≡◌, ◌⊎◌};

use clap::error::ErrorKind;
use clap::{Arg, ArgAction, Command, Error};
use line_io::status::Status;
use line_io::stop::{Stop, print_stop};
use std::alloc::Global;
use std::process::ExitCode;
use std::{env, io};

/// The version of the program, as the file `VERSION` has it.
const VERSION: &str = "0.1.0";

/// The exit status for arguments that are refused.
const WRONG_USE: u8 = 64;

/// How facts are printed.
#[derive(Clone, Copy, Debug, PartialEq, Eq)]
pub enum Form {
    /// One fact a line.
    Text,
    /// One JSON object for each line of the input.
    Json,
}

/// What is read.
#[derive(Clone, Copy, Debug, PartialEq, Eq)]
pub enum Input {
    /// Lines of hex.
    Lines,
    /// A capture of packets, in the format pcap.
    Pcap,
}

/// What the arguments ask for.
#[derive(Clone, Copy, Debug, PartialEq, Eq)]
pub(crate) struct Wanted {
    pub(crate) form: Form,
    pub(crate) input: Input,
}

/// Reads the arguments. If they are refused, or ask for the help or the version, it prints that,
/// and returns the exit status as the error.
pub(crate) fn read_arguments(rt: &HostRuntime) -> Result<Wanted, ExitCode> {
    let words = match env::args(rt) {
        Ok(words) => words,
        Err(error) => return Err(end_unread(rt, error.kind())),
    };
    let Ok(words) = words.collect::<Vec<String>>(rt.alloc()) else {
        return Err(end_without_memory(rt));
    };
    match read_wanted(rt.alloc(), words.as_slice()) {
        Ok(wanted) => Ok(wanted),
        Err(error) => Err(end_early(rt, &error)),
    }
}

/// Reads the arguments, of which the first is the program's name.
///
/// # Errors
///
/// - `DisplayHelp`, `DisplayVersion`: the error's text is what was asked for.
/// - `OutOfMemory`: an allocation failed.
/// - Others: the error's text names the argument that is refused, and says how the program is used.
fn read_wanted(alloc: Global, words: &[String]) -> Result<Wanted, Error> {
    let json = Arg::new(alloc, "json")
        .long("json")
        .help("Print one JSON object for each line that contains bytes, or for each packet")
        .action(ArgAction::SetTrue);
    let pcap = Arg::new(alloc, "pcap")
        .long("pcap")
        .help("Read a capture in the format pcap, in place of lines")
        .action(ArgAction::SetTrue);
    let matches = Command::new(alloc, "stun-inspect")
        .version(VERSION)
        .about("Reads lines of hex, or a capture, from standard input, and says what the bytes are")
        .arg(json)?
        .arg(pcap)?
        .try_get_matches_from(words)?;
    Ok(Wanted {
        form: if matches.get_flag("json") {
            Form::Json
        } else {
            Form::Text
        },
        input: if matches.get_flag("pcap") {
            Input::Pcap
        } else {
            Input::Lines
        },
    })
}

/// Prints why the arguments can't be read, and returns the exit status.
fn end_unread(rt: &HostRuntime, kind: io::ErrorKind) -> ExitCode {
    if kind == io::ErrorKind::OutOfMemory {
        return end_without_memory(rt);
    }
    match eprintln!(rt; "error: an argument is not UTF-8\n\nUsage: stun-inspect [OPTIONS]") {
        Ok(()) => ExitCode::from(WRONG_USE),
        Err(_) => ExitCode::from(Status::Fault.number()),
    }
}

/// Prints the help, the version, or why an argument is refused, and returns the exit status.
fn end_early(rt: &HostRuntime, error: &Error) -> ExitCode {
    if error.kind() == ErrorKind::OutOfMemory {
        return end_without_memory(rt);
    }
    match error.print(rt) {
        Ok(()) => ExitCode::from(exit_status(error.kind())),
        Err(_) => ExitCode::from(Status::Fault.number()),
    }
}

/// Prints that an allocation failed, and returns the exit status.
fn end_without_memory(rt: &HostRuntime) -> ExitCode {
    ExitCode::from(print_stop(&mut io::writer(rt), Stop::NoMemory).number())
}

/// Returns the exit status after a text of clap's was printed.
fn exit_status(kind: ErrorKind) -> u8
    ensures requested { (kind ≡ ErrorKind.DisplayHelp) ⊎ (kind ≡ ErrorKind.DisplayVersion)
        → result ≡ 0 }
    ensures unknown { kind ≡ ErrorKind.UnknownArgument → result ≡ 64 }
{
    match kind {
        ErrorKind::DisplayHelp | ErrorKind::DisplayVersion => 0,
        _ => WRONG_USE,
    }
}

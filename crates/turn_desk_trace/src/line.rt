//! The lines of a trace.

ghost use Rattle.std.specs.Prelude.{◌≡◌, Err, IfOk, map};
ghost use Rattle.turn_desk_trace.specs.declared.line.Line.{Line};
ghost use Rattle.turn_desk_trace.specs.TraceLines.{IsLine, IsLineOf};

use crate::event::read_event;
use crate::look::{Look, read_look};
use crate::named::Named;
use crate::setup::{Setup, read_setup};
use line_io::refusal::LineError;
use line_io::word::read_words;
use std::alloc::Global;
use turn_desk_event::event::Event;

/// A line of a trace.
#[derive(Debug, Drop)]
pub enum Line<'a> {
    /// A line that comes before the events.
    Setup(Setup<'a>),
    /// A line that looks at the client and changes nothing.
    Look(Look),
    /// A line at which something happens, whose result later lines can name.
    Event(Event),
}

/// Reads a line, without its line feed. `answers` are the results of the event lines so far.
///
/// # Errors
///
/// - `Bad`: the line is not in the language.
/// - `NoMemory`: an allocation failed.
pub fn read_line<'a>(
    alloc: Global,
    line: &'a [u8],
    answers: &[Named],
) -> Result<Line<'a>, LineError>
    ensures ok { IfOk result (IsLine answers.entry.now line.entry.now) }
    ensures bad { result ≡ Err LineError.Bad → (read : Line)
        → ¬ (IsLine answers.entry.now line.entry.now read) }
{
    let words = read_words(alloc, line)?;
    spell(alloc, words.as_slice(), answers)
}

/// Reads a line from its words.
fn spell<'a>(alloc: Global, words: &[&'a str], answers: &[Named]) -> Result<Line<'a>, LineError>
    ensures ok { IfOk result (IsLineOf answers.entry.now (map (λ x. x.now) words.entry.now)) }
    ensures bad { result ≡ Err LineError.Bad → (read : Line)
        → ¬ (IsLineOf answers.entry.now (map (λ x. x.now) words.entry.now) read) }
{
    if let Some(setup) = read_setup(words) {
        return Ok(Line::Setup(setup));
    }
    if let Some(look) = read_look(words) {
        return Ok(Line::Look(look));
    }
    match read_event(alloc, words, answers) {
        Ok(event) => Ok(Line::Event(event)),
        Err(error) => Err(error),
    }
}

//! The picture of a trace and its results.

ghost use Rattle.std.specs.Prelude.{ℕ, ◌≡◌, ◌≢◌, ◌++◌, IfOk, List, OnOk, codes, false, map, string_bytes, true};
ghost use Rattle.std.specs.List.{flat_map};
ghost use Rattle.std.specs.Option.{option_copied};
ghost use Rattle.line_io.specs.Cut.{lines_after, lines_of};
ghost use Rattle.line_io.specs.LineWords.{AreWords};
ghost use Rattle.trace_picture.specs.Transmitted.{label_text};
ghost use Rattle.trace_picture.specs.Lines.{Begins};
ghost use Rattle.trace_picture.specs.Pictures.{AreTransmitted, AreOver, IsPicture, IsListed, IsStep, Parted};

use crate::event::{Event, delivered_word};
use crate::head::head;
use crate::kind::{Kind, kind_of};
use crate::pen::Pen;
use crate::row::{Label, push_labels, push_row};
use crate::sent::Delivered;
use line_io::cut::{cut_line, is_skipped};
use line_io::refusal::LineError;
use line_io::stop::{Stop, stop_at};
use line_io::word::read_words;
use std::alloc::{AllocError, Global};

/// Returns the picture of a trace and the results of its event lines, which are separated by a line
/// `%`.
pub(crate) fn picture(alloc: Global, text: &[u8]) -> Result<String, Stop>
    ensures { IfOk result (λ svg. IsPicture text.now (string_bytes svg)) }
{
    let (delivered, answers) = find_answers(alloc, text)?;
    match Pen::new(alloc, delivered) {
        Ok(mut pen) => draw_picture(&mut pen, text, answers),
        Err(_) => Err(Stop::NoMemory),
    }
}

/// Returns the picture of a trace, drawn by a new pen. `answers` is the part of `text` after the
/// line `%`.
fn draw_picture(pen: &mut Pen, text: &[u8], answers: &[u8]) -> Result<String, Stop>
    requires parted { Parted (lines_of text.now) (lines_of answers.now) }
    ensures { IfOk result (λ svg. IsPicture text.now (string_bytes svg)) }
{
    let rows = draw_rows(pen, text, answers)?;
    let Ok(heads) = pen.heads() else {
        return Err(Stop::NoMemory);
    };
    match frame(pen.alloc(), pen.height(), heads.as_slice(), rows.as_str()) {
        Ok(svg) => Ok(svg),
        Err(_) => Err(Stop::NoMemory),
    }
}

/// Returns the results, which come after the line `%`, and which lines' bytes the trace before it
/// delivers.
fn find_answers(alloc: Global, text: &[u8]) -> Result<(Delivered, &[u8]), Stop>
    ensures { IfOk result (λ found. Parted (lines_of text.entry.now) (lines_of found.1.now)) }
{
    let mut delivered = Delivered::new(alloc);
    let mut rest = text;
    let mut number = 0usize;
    'lines: loop {
        let (line, after) = cut_line(rest);
        number = number.saturating_add(1);
        let Some(after) = after else {
            return Err(Stop::BadLine(number));
        };
        if is_parting(line) {
            return Ok((delivered, after));
        }
        if let Err(error) = note_line(alloc, &mut delivered, line) {
            return Err(stop_at(number, error));
        }
        rest = after;
    }
}

/// Returns whether a line separates the trace from its results.
fn is_parting(line: &[u8]) -> bool
    ensures yes { result ≡ true → line.now ≡ codes "%" }
    ensures no { result ≡ false → line.now ≢ codes "%" }
{
    match line {
        [b'%'] => true,
        _ => false,
    }
}

/// Notes which lines' bytes a line delivers to the client or to the server core.
fn note_line(alloc: Global, delivered: &mut Delivered, line: &[u8]) -> Result<(), LineError> {
    if is_skipped(line) {
        return Ok(());
    }
    delivered.begin_line()?;
    let words = read_words(alloc, line)?;
    if let Some(bytes) = delivered_word(words.as_slice()) {
        delivered.note(alloc, bytes)?;
    }
    Ok(())
}

/// Returns the rows of the event lines before the line `%`, one after another. Each event line has
/// to have a result, and there may be no other results.
fn draw_rows(pen: &mut Pen, text: &[u8], answers: &[u8]) -> Result<String, Stop>
    ensures { IfOk result (λ rows. AreTransmitted (lines_of text.now) (lines_of answers.now)
        (string_bytes rows)) }
{
    let mut svg = String::new(pen.alloc());
    let (mut rest, mut left) = (text, Some(answers));
    let mut number = 0usize;
    'lines: loop {
        let (line, after) = cut_line(rest);
        number = number.saturating_add(1);
        let Some(after) = after else {
            return Err(Stop::BadLine(number));
        };
        if is_parting(line) {
            return if is_over(left) {
                Ok(svg)
            } else {
                Err(Stop::BadLine(number))
            };
        }
        match draw_line(pen, &mut svg, line, left) {
            Ok(following) => left = following,
            Err(error) => return Err(stop_at(number, error)),
        }
        rest = after;
    }
}

/// Returns whether no results are left: there is no line left, or only the empty one after the last
/// line feed.
fn is_over(left: Option<&[u8]>) -> bool
    ensures { result ≡ true → AreOver (lines_after (option_copied left.entry)) }
{
    match left {
        Some(text) => text.is_empty(),
        None => true,
    }
}

/// Appends the row of a line, if it is an event line. Returns the results that are left.
fn draw_line<'a>(
    pen: &mut Pen,
    svg: &mut String,
    line: &[u8],
    left: Option<&'a [u8]>,
) -> Result<Option<&'a [u8]>, LineError>
    ensures { IfOk result (λ following. IsStep line.now (lines_after (option_copied left.entry))
        (lines_after (option_copied following)) (string_bytes svg.old) (string_bytes svg.new)) }
{
    if is_skipped(line) {
        return Ok(left);
    }
    let words = read_words(pen.alloc(), line)?;
    let Some(kind) = kind_of(words.as_slice()) else {
        return Err(LineError::Bad);
    };
    if let Kind::Setup = kind {
        pen.set_up(words.as_slice())?;
        return Ok(left);
    }
    let Some(left) = left else {
        return Err(LineError::Bad);
    };
    let (answer, following) = cut_line(left);
    draw_event(pen, svg, line, kind, words.as_slice(), answer)?;
    Ok(following)
}

/// Appends the row of an event line with this kind, these words and this result.
fn draw_event(
    pen: &mut Pen,
    svg: &mut String,
    line: &[u8],
    kind: Kind,
    words: &[&str],
    answer: &[u8],
) -> Result<(), LineError>
    requires words { AreWords line.now (map (λ x. x.now) words.now) }
    requires begins { Begins (map (λ x. x.now) words.now) kind }
    requires event { kind ≢ Kind.Setup }
    ensures { OnOk result (IsListed line.now answer.now (string_bytes svg.old)
        (string_bytes svg.new)) }
{
    let reported = read_words(pen.alloc(), answer)?;
    let (Ok(line), Ok(answer)) = (std::str::from_utf8(line), std::str::from_utf8(answer)) else {
        return Err(LineError::Bad);
    };
    let event = Event {
        kind,
        words,
        answer,
        reported: reported.as_slice(),
    };
    let row = pen.row(line, &event)?;
    push_row(svg, &row)?;
    Ok(())
}

/// Returns a picture with this height: its beginning, the heads of its lifelines, and these rows.
fn frame(alloc: Global, height: usize, heads: &[Label], rows: &str) -> Result<String, AllocError>
    ensures { IfOk result (λ svg. (head : List ℕ) × (string_bytes svg
        ≡ head ++ flat_map label_text heads.now ++ rows.now ++ codes "</svg>\n")) }
{
    let mut svg = head(alloc, height)?;
    push_labels(&mut svg, heads)?;
    svg.push_str(rows)?;
    svg.push_str("</svg>\n")?;
    Ok(svg)
}

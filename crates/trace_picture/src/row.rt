//! The row of one event line: its arrows and its labels.

ghost use Rattle.std.specs.Prelude.{◌≡◌, ◌++◌, OnOk, codes, string_bytes};
ghost use Rattle.std.specs.List.{flat_map};
ghost use Rattle.trace_picture.specs.Transmitted.{arrow_back, arrow_head, label_text, mark_text, index_head, index_text, row_text};

use crate::escape::push_escaped;
use std::alloc::{AllocError, Global};

/// What an arrow stands for.
#[derive(Clone, Copy)]
pub enum Arrow {
    /// A call of the client.
    Called,
    /// The client transmits into the network.
    Sent,
    /// The client transmits a message that was due, and it is never delivered.
    SentLost,
    /// The network delivers bytes to the client.
    Processed,
    /// The network delivers bytes to the server core.
    Reached,
    /// The server core replies into the network.
    Replied,
    /// The server core replies, and the reply is never delivered.
    ReplyLost,
}

/// An arrow and its height, in pixels from the top.
#[derive(Clone, Copy)]
pub struct Mark {
    /// What it stands for.
    pub arrow: Arrow,
    /// Its height.
    pub at: usize,
}

/// The column and the role of a label.
#[derive(Clone, Copy)]
pub enum Position {
    /// The number of an event line.
    Number,
    /// A time.
    Time,
    /// A call, beside the client.
    Beside,
    /// A result, beside the client.
    BesideMore,
    /// The name of an arrow between client and network.
    Near,
    /// The details below the arrow.
    NearMore,
    /// The name of an arrow between network and server core.
    Far,
    /// The details below the arrow.
    FarMore,
    /// The head of the client's lifeline.
    Client,
    /// The head of the server core's lifeline.
    Desk,
}

/// A text, its place, and the height of its baseline, in pixels from the top.
#[derive(Drop)]
pub struct Label {
    /// Its place.
    pub index: Position,
    /// The height of its baseline.
    pub at: usize,
    /// The text.
    pub text: String,
}

/// The row of one event line.
#[derive(Drop)]
pub struct Row {
    /// The line.
    pub line: String,
    /// Its result.
    pub answer: String,
    /// The arrows.
    pub marks: Vec<Mark>,
    /// The labels.
    pub labels: Vec<Label>,
}

/// Appends the row of one event line: a group with the line and the result as its title, the
/// arrows, and the labels.
#[tactic(auto, unfolding(crate::specs::Transmitted::row_text))]
pub(crate) fn push_row(svg: &mut String, row: &Row) -> Result<(), AllocError>
    ensures { OnOk result (string_bytes svg.new ≡ string_bytes svg.old ++ row_text row.now) }
{
    svg.push_str("<g><title>")?;
    push_escaped(svg, row.line.as_str())?;
    svg.push_str("\n")?;
    push_escaped(svg, row.answer.as_str())?;
    svg.push_str("</title>\n")?;
    push_marks(svg, row.marks.as_slice())?;
    push_labels(svg, row.labels.as_slice())?;
    svg.push_str("</g>\n")
}

/// Appends arrows.
fn push_marks(svg: &mut String, marks: &[Mark]) -> Result<(), AllocError>
    ensures { OnOk result (string_bytes svg.new
        ≡ string_bytes svg.old ++ flat_map mark_text marks.now) }
{
    for mark in marks {
        push_mark(svg, *mark)?;
    }
    Ok(())
}

/// Appends an arrow.
#[tactic(auto, unfolding(crate::specs::Transmitted::mark_text))]
fn push_mark(svg: &mut String, mark: Mark) -> Result<(), AllocError>
    ensures { OnOk result (string_bytes svg.new ≡ string_bytes svg.old ++ mark_text mark) }
{
    let (head, at, back) = (arrow_head(mark.arrow), mark.at, arrow_back(mark.arrow));
    write!(svg, "<path class=\"{head} {at}{back}\"/>\n")?;
    Ok(())
}

/// Returns the class of an arrow, and where it begins.
fn arrow_head(arrow: Arrow) -> &'static str
    ensures { result.now ≡ arrow_head arrow }
{
    match arrow {
        Arrow::Called => "c\" d=\"M 96",
        Arrow::Sent => "a\" d=\"M 320",
        Arrow::SentLost => "x\" d=\"M 320",
        Arrow::Processed => "a\" d=\"M 560",
        Arrow::Reached => "a\" d=\"M 596",
        Arrow::Replied => "a\" d=\"M 836",
        Arrow::ReplyLost => "x\" d=\"M 836",
    }
}

/// Returns where an arrow ends.
fn arrow_back(arrow: Arrow) -> &'static str
    ensures { result.now ≡ arrow_back arrow }
{
    match arrow {
        Arrow::Called => " H 318",
        Arrow::Sent => " H 558",
        Arrow::SentLost => " H 520",
        Arrow::Processed => " H 322",
        Arrow::Reached => " H 834",
        Arrow::Replied => " H 598",
        Arrow::ReplyLost => " H 636",
    }
}

/// Appends labels.
pub(crate) fn push_labels(svg: &mut String, labels: &[Label]) -> Result<(), AllocError>
    ensures { OnOk result (string_bytes svg.new
        ≡ string_bytes svg.old ++ flat_map label_text labels.now) }
{
    for label in labels {
        push_label(svg, label)?;
    }
    Ok(())
}

/// Appends a label.
#[tactic(auto, unfolding(crate::specs::Transmitted::label_text))]
fn push_label(svg: &mut String, label: &Label) -> Result<(), AllocError>
    ensures { OnOk result (string_bytes svg.new ≡ string_bytes svg.old ++ label_text label.now) }
{
    push_index(svg, label.index, label.at)?;
    push_escaped(svg, label.text.as_str())?;
    svg.push_str("</text>\n")
}

/// Appends the beginning of a label.
#[tactic(auto, unfolding(crate::specs::Transmitted::index_text))]
fn push_index(svg: &mut String, index: Position, at: usize) -> Result<(), AllocError>
    ensures { OnOk result (string_bytes svg.new ≡ string_bytes svg.old ++ index_text index at) }
{
    let head = index_head(index);
    write!(svg, "<text class=\"{head}\" y=\"{at}\">")?;
    Ok(())
}

/// Returns the class of a label, and its horizontal position.
fn index_head(index: Position) -> &'static str
    ensures { result.now ≡ index_head index }
{
    match index {
        Position::Number => "e d\" x=\"20",
        Position::Time => "e d\" x=\"88",
        Position::Beside => "e\" x=\"312",
        Position::BesideMore => "e d\" x=\"312",
        Position::Near => "m\" x=\"440",
        Position::NearMore => "m d\" x=\"440",
        Position::Far => "m\" x=\"716",
        Position::FarMore => "m d\" x=\"716",
        Position::Client => "m w\" x=\"320",
        Position::Desk => "e w\" x=\"872",
    }
}

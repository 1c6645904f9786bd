//! The kinds of a trace's lines, and the arrows that are drawn for them.

ghost use Rattle.std.specs.Prelude.{◌≡◌, IfOk, MatchOption, map};
ghost use Rattle.trace_picture.specs.Lines.{Begins, IsKind, arrows_of, carries};
ghost use Rattle.trace_picture.specs.declared.kind.Kind.{Kind};

use crate::row::{Arrow, Mark};
use std::alloc::{AllocError, Global};

/// The kind of a trace's line.
#[derive(Clone, Copy, PartialEq, Eq)]
pub enum Kind {
    /// A setup line, which comes before the first event.
    Setup,
    /// Bytes reach the server core.
    ToDesk,
    /// Bytes reach the client.
    ToClient,
    /// The client is polled for a message to transmit, which may be lost on its way.
    Drawing,
    /// The client is given data for a peer. The result goes to its server; no later line has to
    /// deliver it.
    Sending,
    /// The client is looked at, which changes nothing. The result has no number.
    Looking,
    /// Any other call of the client.
    Calling,
}

/// Returns the kind of a line with these words, or `None` if no line begins like this.
pub(crate) fn kind_of(words: &[&str]) -> Option<Kind>
    ensures { MatchOption result ((kind : Kind) → ¬ (Begins (map (λ x. x.now) words.now) kind))
        (Begins (map (λ x. x.now) words.now)) }
{
    match words {
        [first, ..] => kind_of_word(first),
        [] => None,
    }
}

/// Returns the kind of a line that begins with this word, or `None` if no line does.
fn kind_of_word(word: &str) -> Option<Kind>
    ensures { MatchOption result ((kind : Kind) → ¬ (IsKind word.now kind)) (IsKind word.now) }
{
    match word {
        "desk" | "user" | "rto" | "client" => Some(Kind::Setup),
        "todesk" => Some(Kind::ToDesk),
        "toclient" => Some(Kind::ToClient),
        "draw" => Some(Kind::Drawing),
        "send" => Some(Kind::Sending),
        "cause" | "mapped" | "alternate" => Some(Kind::Looking),
        "recv"
        | "poll"
        | "event"
        | "delete"
        | "permission"
        | "permit"
        | "have"
        | "permissions"
        | "bind"
        | "channels"
        | "connect"
        | "socket"
        | "closed"
        | "connections"
        | "error"
        | "relayed" => { Some(Kind::Calling) }
        _ => None,
    }
}

/// Returns whether a result with these words has bytes that enter the network.
pub(crate) fn carries(words: &[&str]) -> bool
    ensures { result ≡ carries (map (λ x. x.now) words.now) }
{
    match words {
        [first, ..] => *first == "transmit" || *first == "reply",
        [] => false,
    }
}

/// Returns the arrows of an event line: one at height `first`, and the server core's reply at
/// height `reply`. What `send` transmits is never drawn as lost.
pub(crate) fn marks_of(
    alloc: Global,
    kind: Kind,
    carries: bool,
    lost: bool,
    first: usize,
    reply: usize,
) -> Result<Vec<Mark>, AllocError>
    ensures { IfOk result (λ marks. map (λ m. m.arrow) marks.items ≡ arrows_of kind carries lost) }
{
    let arrow = match kind {
        Kind::Setup => return Ok(Vec::new(alloc)),
        Kind::ToDesk => Arrow::Reached,
        Kind::ToClient => Arrow::Processed,
        Kind::Drawing if carries && lost => Arrow::SentLost,
        Kind::Drawing | Kind::Sending if carries => Arrow::Sent,
        Kind::Drawing | Kind::Sending | Kind::Looking | Kind::Calling => Arrow::Called,
    };
    let mut marks = Vec::new(alloc);
    marks.push(Mark { arrow, at: first })?;
    if kind == Kind::ToDesk && carries {
        let arrow = if lost {
            Arrow::ReplyLost
        } else {
            Arrow::Replied
        };
        marks.push(Mark { arrow, at: reply })?;
    }
    Ok(marks)
}

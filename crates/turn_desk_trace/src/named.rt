//! The bytes of a result, which a later line names by `@k`.

ghost use Rattle.std.specs.Prelude.{◌≡◌, IfOk};
ghost use Rattle.std.specs.Option.{option_copied};
ghost use Rattle.turn_desk_trace.specs.Answer.{answered_bytes, named_by};

use std::alloc::{AllocError, Global};
use std::marker::Model;
use turn_desk_event::answer::Answer;

/// The bytes of an event line's result, which a later line names by `@k`. The bytes are empty for a
/// result that has none.
#[derive(Debug, Drop)]
pub struct Named {
    bytes: Vec<u8>,
}

impl Model for Named {
    ghost use Rattle.std.specs.Prelude.{List, ℕ};

    ghost Value = { List ℕ };

    ghost view = { λ named. named.bytes.items };
}

impl Named {
    /// Stores these bytes.
    pub fn new(bytes: Vec<u8>) -> Self
        ensures { result ≡ bytes.items }
    {
        Named { bytes }
    }

    /// Stores a copy of the bytes of a result.
    ///
    /// # Errors
    ///
    /// - `AllocError`: an allocation failed.
    pub fn of(alloc: Global, answer: &Answer) -> Result<Self, AllocError>
        ensures { IfOk result (λ named. named ≡ named_by answer.now) }
    {
        match answered_bytes(answer) {
            Some(bytes) => Ok(Named::new(Vec::from_slice(alloc, bytes)?)),
            None => Ok(Named::new(Vec::new(alloc))),
        }
    }

    /// Returns the bytes.
    pub fn as_slice(&self) -> &[u8]
        ensures { result.now ≡ self.now }
    {
        self.bytes.as_slice()
    }
}

/// Returns the bytes of a result: those of a reply, those that the client transmits, or a peer's
/// payload. Any other result has no bytes and gives `None`.
pub fn answered_bytes(answer: &Answer) -> Option<&[u8]>
    ensures { option_copied result ≡ answered_bytes answer.now }
{
    match answer {
        Answer::Reply(reply) => Some(reply.as_slice()),
        Answer::Transmit(transmit) => Some(transmit.bytes.as_slice()),
        Answer::Peer(data) => Some(data.data()),
        _ => None,
    }
}

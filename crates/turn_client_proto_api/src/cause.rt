//! Why an event of a client happened.

ghost use Rattle.std.specs.Prelude.{◌≡◌, [], IfOk};

use std::alloc::Global;
use std::marker::Model;
use stun_types_base::memory::NoMemory;

/// A text that a message had: a reason phrase or a domain. In contracts it is the bytes of the
/// text, which are UTF-8.
#[derive(Debug, Drop)]
pub struct MessageText {
    text: String,
}

impl Model for MessageText {
    ghost use Rattle.std.specs.Prelude.{ℕ, List};
    ghost use Rattle.std.specs.String.{string_bytes};

    ghost Value = { List ℕ };

    ghost view = { λ t. string_bytes t.text };
}

impl MessageText {
    /// Creates an empty text, which holds no memory.
    pub fn empty(alloc: Global) -> MessageText
        ensures { result ≡ [] }
    {
        MessageText {
            text: String::new(alloc),
        }
    }

    /// Creates a copy of a text. Fails with `NoMemory` if an allocation fails.
    pub fn copied(alloc: Global, text: &str) -> Result<MessageText, NoMemory>
        ensures { IfOk result (λ made. made ≡ text.now) }
    {
        Ok(MessageText {
            text: String::from_str(alloc, text)?,
        })
    }

    /// Returns the text.
    pub fn as_str(&self) -> &str
        ensures { result.now ≡ self.now }
    {
        self.text.as_str()
    }
}

/// Why an event of a client happened: why something failed or ended.
#[derive(Debug, Drop)]
#[non_exhaustive]
pub enum TurnCause {
    /// The server rejected the request, by an error response.
    Rejected {
        /// The code of the response's first ERROR-CODE, 300 to 699 (RFC 8489, section 14.8).
        code: u16,
        /// Its reason phrase, at most 763 bytes; empty if it has none. (An ERROR-CODE whose phrase
        /// is not UTF-8 is malformed: the cause is then `Unusable`.)
        reason: MessageText,
        /// Whether the response was validated under the client's credentials. If it wasn't, it may
        /// be anybody's.
        is_signed: bool,
    },
    /// No response came in time.
    Unanswered,
    /// The response has no valid integrity attribute under the client's credentials.
    Integrity,
    /// The server's challenge names no algorithm that the client supports, or lacks a feature that
    /// the client requires (RFC 8489, section 9.2.5).
    NoCommonAlgorithm,
    /// The server allocated addresses of other families only.
    OtherFamily,
    /// The cause is not known, because memory for it ran out.
    OutOfMemory,
    /// `delete` was called before: whatever failed or ended afterwards, by a response or without
    /// one, did so because of it.
    Deleted,
    /// Its time was over.
    Expired,
    /// `protocol_error` ended the client.
    SocketClosed,
    /// The response lacks what the client needs of it, or is malformed: its ERROR-CODE too, if the
    /// reason phrase is not UTF-8.
    Unusable,
}

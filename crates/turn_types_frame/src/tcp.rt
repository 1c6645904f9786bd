//! The receive buffer of a stream of frames (RFC 8656, section 12.5).

ghost use Rattle.std.specs.Prelude.{◌≡◌, ◌≢◌, ◌==◌, ◌++◌, [], false, true, length, take, drop};
ghost use Rattle.std.specs.Prelude.{IfOk, OnOk, OnErr, MatchOption, MatchResult};
ghost use Rattle.turn_types_frame.specs.StreamAnswers.{IsAnswer, IsGiven, IsNone, IsStored};
ghost use Rattle.turn_types_frame.specs.StreamAnswers.{after_incoming, after_look, looked};
ghost use Rattle.turn_types_frame.specs.StreamHeads.{head, given_of, size_of};
ghost use Rattle.turn_types_frame.specs.Streams.{alive, dead_stream, left_by};

use crate::head::{FrameHead, peek_frame};
use crate::stored::Stored;
use crate::stun_types_base::memory::NoMemory;
use crate::stun_types_base::transmit::Transmit;
use crate::stun_types_wire::attribute::pad_attribute_len;
use crate::turn_types_attributes::registry::CHANNEL_HEADER_LENGTH;
use std::alloc::Global;
use std::convert::AsSlice;
use std::fmt::Debug;
use std::marker::Model;
use std::ops::Range;

/// What a chunk of a stream completed.
#[derive(Debug, Drop)]
pub enum IncomingTcp<T> {
    /// A message at the start of the chunk, in this range of its bytes.
    CompleteMessage(Transmit<T>, Range<usize>),
    /// A channel frame at the start of the chunk, in this range of its bytes, without its padding.
    CompleteChannel(Transmit<T>, Range<usize>),
    /// A message whose first bytes were buffered. The chunk is returned too.
    StoredMessage(Vec<u8>, Transmit<T>),
    /// A channel frame whose first bytes were buffered, without its padding. The chunk is returned
    /// too.
    StoredChannel(Vec<u8>, Transmit<T>),
    /// An allocation failed. The buffer is unchanged, and the chunk is returned.
    NoMemory(Transmit<T>),
}

/// A frame taken out of the buffer.
#[derive(Debug, Drop)]
pub enum StoredTcp {
    /// A message.
    Message(Vec<u8>),
    /// A channel frame, without its padding.
    Channel(Vec<u8>),
}

/// Collects the chunks of a stream and returns its frames: messages and channel frames, one after
/// another (RFC 8656, section 12.5). Contracts see the record `Stream`: the buffered bytes, and
/// whether the stream is dead.
///
/// - A stream dies if the top two bits of a frame are 10 or 11, or a byte of a message's magic
///   cookie is wrong. A dead stream returns nothing more and buffers nothing.
/// - A call returns at most one frame. What follows that frame is examined by the next call that
///   looks for a frame.
/// - The cost of all calls together grows with the bytes received, however they are split, and with
///   the frames returned.
#[derive(Debug, Drop)]
pub struct TurnTcpBuffer {
    alloc: Global,
    stored: Stored,
    dead: bool,
}

impl Model for TurnTcpBuffer {
    ghost use Rattle.std.specs.Prelude.{◌≡◌, [], true};
    ghost use Rattle.turn_types_frame.specs.Streams.{Stream};

    ghost Value = { Stream };

    ghost view = { λ b. record { stored = b.stored; dead = b.dead } };

    ghost invariant = { λ b. b.dead ≡ true → b.stored ≡ [] };
}

impl TurnTcpBuffer {
    /// Creates the buffer of a new stream. It has allocated no memory yet.
    pub fn new(alloc: Global) -> TurnTcpBuffer
        ensures { result ≡ alive [] }
    {
        TurnTcpBuffer {
            alloc,
            stored: Stored::new(alloc),
            dead: false,
        }
    }

    /// Returns whether no bytes are buffered.
    pub fn is_empty(&self) -> bool
        ensures { result ≡ (length self.now.stored == 0) }
    {
        self.stored.len() == 0
    }

    /// Returns the buffered bytes, which no call has returned.
    pub fn into_inner(self) -> Vec<u8>
        ensures { result.items ≡ self.stored }
    {
        let TurnTcpBuffer {
            alloc: _,
            stored,
            dead: _,
        } = self;
        stored.into_vec()
    }

    /// Receives a chunk of the stream, and returns the frame at the head of the stream if it is
    /// complete.
    ///
    /// - If nothing was buffered, the frame is a range of the chunk, which is returned with that
    ///   range (`CompleteMessage`, `CompleteChannel`).
    /// - Otherwise the frame is returned in a vector (`StoredMessage`, `StoredChannel`).
    /// - `None`: no frame is complete, or the stream is dead. The chunk is dropped.
    /// - `NoMemory`: an allocation failed. The buffer is unchanged, and the chunk is returned.
    pub fn incoming_tcp<T: AsSlice<u8> + Debug + Drop>(
        &mut self,
        transmit: Transmit<T>,
    ) -> Option<IncomingTcp<T>>
        ensures answer { IsAnswer self.old (T.items transmit.bytes) transmit result }
        ensures state { self.new ≡ after_incoming self.old (T.items transmit.bytes) result }
    {
        if self.dead {
            return None;
        }
        if self.is_empty() {
            return self.begin(transmit);
        }
        self.go_on(transmit)
    }

    /// Removes the frame at the head of the buffer and returns it. Returns `None` if no frame is
    /// complete or the stream is dead.
    ///
    /// # Errors
    ///
    /// - `NoMemory`: an allocation failed. The frame stays buffered.
    pub fn poll_recv(&mut self) -> Result<Option<StoredTcp>, NoMemory>
        ensures answer { IfOk result (IsStored self.old) }
        ensures state { MatchResult result (λ _. self.new ≡ after_look self.old)
            (λ _. self.new ≡ self.old) }
        ensures memory { OnErr result (¬ IsNone (looked self.old)) }
    {
        if self.dead {
            return Ok(None);
        }
        self.take_head()
    }

    /// Returns the frame at the head of the buffer and leaves it there, a channel frame without its
    /// padding. Returns `None` if no frame is complete or the stream is dead. It allocates no
    /// memory.
    #[tactic(auto, using(crate::proofs::Heads::given_fits))]
    pub fn head(&self) -> Option<&[u8]>
        ensures { MatchOption result (IsNone (looked self.now)) (λ bytes.
            (¬ IsNone (looked self.now)) × IsGiven self.now bytes.now) }
    {
        if self.dead {
            return None;
        }
        let head = peek_frame(self.stored.as_slice());
        match head {
            FrameHead::Message(_) | FrameHead::Channel(_) => {
                let (bytes, _) = self.stored.as_slice().split_at(size_given(head));
                Some(bytes)
            }
            FrameHead::Incomplete | FrameHead::Invalid => None,
        }
    }

    /// Removes the frame that `head` returns, and the padding of a channel frame. It allocates no
    /// memory.
    ///
    /// If no frame is complete, nothing changes, unless no frame can begin at the head: then the
    /// stream is dead.
    #[tactic(auto, using(crate::proofs::Heads::taken_fits))]
    pub fn drop_head(&mut self)
        ensures { self.new ≡ after_look self.old }
    {
        if self.dead {
            return;
        }
        let head = peek_frame(self.stored.as_slice());
        if head == FrameHead::Invalid {
            self.die();
            return;
        }
        let size = size_taken(head);
        self.stored.advance(size);
    }

    /// Does `incoming_tcp` when nothing is buffered and the stream is alive.
    #[tactic(auto, using(crate::proofs::Heads::taken_fits))]
    fn begin<T: AsSlice<u8> + Debug + Drop>(
        &mut self,
        transmit: Transmit<T>,
    ) -> Option<IncomingTcp<T>>
        requires { self.old ≡ alive [] }
        ensures answer { IsAnswer self.old (T.items transmit.bytes) transmit result }
        ensures state { self.new ≡ after_incoming self.old (T.items transmit.bytes) result }
    {
        let bytes = transmit.bytes.as_slice();
        let head = peek_frame(bytes);
        if head == FrameHead::Invalid {
            self.die();
            return None;
        }
        let (_, rest) = bytes.split_at(size_taken(head));
        if self.keep(rest).is_err() {
            return Some(IncomingTcp::NoMemory(transmit));
        }
        let range = 0..size_given(head);
        match head {
            FrameHead::Message(_) => Some(IncomingTcp::CompleteMessage(transmit, range)),
            FrameHead::Channel(_) => Some(IncomingTcp::CompleteChannel(transmit, range)),
            _ => None,
        }
    }

    /// Does `incoming_tcp` when bytes are buffered.
    fn go_on<T: AsSlice<u8> + Debug + Drop>(
        &mut self,
        transmit: Transmit<T>,
    ) -> Option<IncomingTcp<T>>
        requires alive { self.old.dead ≡ false }
        requires stored { self.old.stored ≢ [] }
        ensures answer { IsAnswer self.old (T.items transmit.bytes) transmit result }
        ensures state { self.new ≡ after_incoming self.old (T.items transmit.bytes) result }
    {
        let before = self.stored.len();
        if self.stored.push(transmit.bytes.as_slice()).is_err() {
            return Some(IncomingTcp::NoMemory(transmit));
        }
        match self.take_head() {
            Ok(Some(StoredTcp::Message(bytes))) => {
                Some(IncomingTcp::StoredMessage(bytes, transmit))
            }
            Ok(Some(StoredTcp::Channel(bytes))) => {
                Some(IncomingTcp::StoredChannel(bytes, transmit))
            }
            Ok(None) => None,
            Err(NoMemory) => {
                self.stored.shorten(before);
                Some(IncomingTcp::NoMemory(transmit))
            }
        }
    }

    /// Does `poll_recv` when the stream is alive.
    fn take_head(&mut self) -> Result<Option<StoredTcp>, NoMemory>
        requires { self.old.dead ≡ false }
        ensures answer { IfOk result (IsStored self.old) }
        ensures state { MatchResult result (λ _. self.new ≡ after_look self.old)
            (λ _. self.new ≡ self.old) }
        ensures memory { OnErr result (¬ IsNone (looked self.old)) }
    {
        let head = peek_frame(self.stored.as_slice());
        match head {
            FrameHead::Message(_) => Ok(Some(StoredTcp::Message(self.take(head)?))),
            FrameHead::Channel(_) => Ok(Some(StoredTcp::Channel(self.take(head)?))),
            FrameHead::Incomplete => Ok(None),
            FrameHead::Invalid => {
                self.die();
                Ok(None)
            }
        }
    }

    /// Removes the frame at the head of the buffer and returns it without padding.
    #[tactic(auto, using(crate::proofs::Heads::taken_fits, crate::proofs::Heads::given_fits))]
    fn take(&mut self, head: FrameHead) -> Result<Vec<u8>, NoMemory>
        requires head { head ≡ looked self.old }
        requires alive { self.old.dead ≡ false }
        ensures given { IfOk result (λ bytes. bytes.items ≡ take (given_of head) self.old.stored) }
        ensures rest { OnOk result (self.new ≡ alive (drop (size_of head) self.old.stored)) }
        ensures err { OnErr result (self.new ≡ self.old) }
    {
        let (bytes, _) = self.stored.as_slice().split_at(size_given(head));
        let bytes = Vec::from_slice(self.alloc, bytes)?;
        self.stored.advance(size_taken(head));
        Ok(bytes)
    }

    /// Appends bytes to the buffer. If there are none, it allocates no memory.
    fn keep(&mut self, bytes: &[u8]) -> Result<(), NoMemory>
        requires { self.old.dead ≡ false }
        ensures ok { OnOk result (self.new ≡ alive (self.old.stored ++ bytes.now)) }
        ensures err { OnErr result ((self.new ≡ self.old) × (bytes.now ≢ [])) }
    {
        if bytes.is_empty() {
            return Ok(());
        }
        self.stored.push(bytes)
    }

    /// Marks the stream as dead and drops the buffered bytes.
    fn die(&mut self)
        ensures { self.new ≡ dead_stream }
    {
        self.stored.clear();
        self.dead = true;
    }
}

/// Returns the number of bytes of the frame at the head, with padding.
fn size_taken(head: FrameHead) -> usize
    ensures { result ≡ size_of head }
{
    match head {
        FrameHead::Message(size) => size,
        FrameHead::Channel(len) => CHANNEL_HEADER_LENGTH + pad_attribute_len(usize::from(len)),
        FrameHead::Incomplete | FrameHead::Invalid => 0,
    }
}

/// Returns the number of bytes of the frame at the head that are returned: without padding.
fn size_given(head: FrameHead) -> usize
    ensures { result ≡ given_of head }
{
    match head {
        FrameHead::Message(size) => size,
        FrameHead::Channel(len) => CHANNEL_HEADER_LENGTH + usize::from(len),
        FrameHead::Incomplete | FrameHead::Invalid => 0,
    }
}

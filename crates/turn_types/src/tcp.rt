//! Streams of messages and channel frames (RFC 8656, section 12.5).

pub use turn_types_frame::head::{FrameHead, peek_frame};
pub use turn_types_frame::tcp::{IncomingTcp, StoredTcp, TurnTcpBuffer};

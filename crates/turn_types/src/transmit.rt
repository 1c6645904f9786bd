//! Delayed sends: bytes that are encoded only when they are sent (RFC 8656, sections 11 and 12).

pub use turn_types_frame::build::{DelayedTransmitBuild, TransmitBuild};
pub use turn_types_frame::delayed_channel::DelayedChannel;
pub use turn_types_frame::delayed_message::DelayedMessage;

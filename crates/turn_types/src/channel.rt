//! Channel frames (RFC 8656, section 12.4).

pub use turn_types_frame::channel::ChannelData;

//! Channels (RFC 8656, sections 12.1 to 12.3).

pub mod binding;
pub mod expire;
pub mod free;
pub mod granted;
pub mod visible;
pub mod wanting;

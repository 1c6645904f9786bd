//! Permissions (RFC 8656, sections 9 and 10).

pub mod asking;
pub mod granted;
pub mod one;
pub mod permit;
pub mod reporting;
pub mod visible;
pub mod wanting;

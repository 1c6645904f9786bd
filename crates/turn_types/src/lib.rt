//! What TURN adds to STUN (RFC 8656, RFC 6062): attributes, methods, channel frames, streams of
//! frames, and delayed sends, which are encoded only when they are sent. Nothing here does I/O.
//!
//! - [`attribute`]: the attributes.
//! - [`message`]: the methods.
//! - [`channel`]: channel frames.
//! - [`tcp`]: the buffer of a stream.
//! - [`transmit`]: delayed sends.
//! - [`prelude`]: the trait that a caller needs in scope.
//! - [`laws`]: theorems on what the definitions used in contracts mean.
//!
//! Messages are those of `stun_types`.
#![tactic(auto)]

pub mod attribute;
pub mod channel;
pub mod laws;
pub mod message;
pub mod prelude;
pub mod registry;
pub mod same;
pub mod tcp;
pub mod transmit;

pub use stun_types_base::family::AddressFamily;
pub use stun_types_base::transport::TransportType;
pub use turn_types_attributes::credentials;
pub use turn_types_attributes::credentials::TurnCredentials;

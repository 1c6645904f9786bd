//! STUN messages (RFC 8489): parsing from bytes and writing into them. Nothing here does I/O.
//!
//! - [`message`]: messages and the fields of their headers.
//! - [`attribute`]: the attributes.
//! - [`data`]: bytes that are borrowed or owned.
//! - [`transmit`]: bytes with the addresses that send and receive them.
//! - [`prelude`]: the traits that a caller needs in scope.
//! - [`room`]: the bytes that a call will add, checked before the call.
//! - [`laws`]: theorems on what the definitions used in contracts mean.
//! - `Names`: names of methods and attribute types that a program registers.
#![tactic(auto)]

pub mod attribute;
pub mod data;
pub mod laws;
pub mod message;
pub mod prelude;
pub mod registry;
pub mod room;

pub use stun_types_base::family::AddressFamily;
pub use stun_types_base::list::ListOf;
pub use stun_types_base::memory::NoMemory;
pub use stun_types_base::transmit::Transmit;
pub use stun_types_base::transport::{ParseTransportTypeError, TransportType};
pub use stun_types_base::words::draw_words;
pub use stun_types_base::{family, transmit, transport};
pub use stun_types_wire::names::Names;

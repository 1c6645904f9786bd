//! Channel frames (RFC 8656, section 12.4), the buffer of a stream with its theorems, and frames
//! and indications that are encoded when they are sent.
#![tactic(auto)]

pub mod build;
pub mod channel;
pub mod delayed_channel;
pub mod delayed_message;
pub mod head;
pub mod laws;
mod stored;
pub mod tcp;

use stun_types_add::stun_types_write;
use turn_types_peer::{stun_types_base, stun_types_wire, turn_types_attributes};

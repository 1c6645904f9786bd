//! Theorems on what the definitions used in contracts mean. The functions do nothing; each contract
//! is a theorem.

pub use crate::same::same_visible_same_decoded;
pub use turn_types_frame::laws::{cuts_do_not_matter, streams_are_frames};

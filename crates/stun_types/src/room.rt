//! Checks before a call: how many bytes it will add to a writer, and whether it is permitted.

pub use stun_types_add::room::{end_of_add, may_sign};
pub use stun_types_integrity::algorithm::hmac_length;

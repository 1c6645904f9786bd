//! Bytes that are borrowed or owned.

pub use stun_types_base::data::{Data, DataOwned, DataSlice};

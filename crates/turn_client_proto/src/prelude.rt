//! The traits that a caller needs in scope.

pub use crate::api::TurnClientApi;
pub use turn_types_frame::build::DelayedTransmitBuild;

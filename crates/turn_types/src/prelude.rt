//! The trait that a caller needs in scope.

pub use turn_types_frame::build::DelayedTransmitBuild;

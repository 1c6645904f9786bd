//! The setting of an optional feature.

/// How one side treats an optional feature of the protocol.
#[derive(Clone, Copy, Debug, PartialEq, Eq)]
pub enum Feature {
    /// The feature is used if the other side supports it.
    Auto,
    /// The feature is required: the other side is refused if it does not support it.
    Required,
    /// The feature is not used.
    Disabled,
}

//! The contents of the success response to an ALLOCATE.

/// What the success response to an ALLOCATE says about an allocation with one IPv4 address (RFC
/// 8656, section 7.3).
#[repr(C)]
#[derive(Clone, Copy, Debug, Default)]
pub struct Allocation {
    /// The relayed address; its first octet is the most significant.
    pub relayed_ip: u32,
    /// The address from which the request came; its first octet is the most significant.
    pub mapped_ip: u32,
    /// The lifetime of the allocation in seconds.
    pub lifetime: u32,
    /// The port of the relayed address.
    pub relayed_port: u16,
    /// The port from which the request came.
    pub mapped_port: u16,
}

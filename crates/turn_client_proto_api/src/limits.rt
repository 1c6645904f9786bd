//! Limits on what a call takes.

/// The most addresses for which one call requests permissions. RFC 8656 sets no limit itself.
pub const MOST_PEER_IPS: usize = 32;

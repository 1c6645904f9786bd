//! The digests of STUN messages: HMAC, for message integrity, and CRC-32, for the fingerprint.
#![tactic(auto)]

pub mod crc;
pub mod hmac;

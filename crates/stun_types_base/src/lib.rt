//! Types that every layer needs and that know no protocol:
//!
//! - lists that contracts see as their elements ([`list`]);
//! - [`memory::NoMemory`], the error of a failed allocation;
//! - bytes that are borrowed or owned ([`data`]);
//! - address families, transports, and the order of socket addresses;
//! - [`transmit::Transmit`], bytes on their way between two addresses;
//! - [`instant::Instant`], points in time;
//! - the words of a random number generator ([`words`]).
#![tactic(auto)]

pub mod data;
pub mod family;
pub mod instant;
pub mod list;
pub mod memory;
pub mod socket_addrs;
pub mod transmit;
pub mod transport;
pub mod words;

//! What programs that read lines share:
//!
//! - reading the whole input ([`input`]), and cutting it into lines ([`cut`]) and words ([`word`]);
//! - bytes in hex ([`lower_hex`]), and why a line is refused ([`refusal`]);
//! - how such a program ends ([`stop`], [`status`]).
#![tactic(auto)]

pub mod cut;
pub mod input;
pub mod lower_hex;
pub mod refusal;
pub mod status;
pub mod stop;
pub mod word;

//! Definitions: what a run of a client and a server is, what each step of either promises, and what
//! the terms of a run mean for the bytes of STUN. The crate has no code.
#![tactic(auto)]

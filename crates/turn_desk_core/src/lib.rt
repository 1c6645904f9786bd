//! The server core. `Desk` authenticates a request, determines what it asks for, grants it or not,
//! and builds the reply.
#![tactic(auto)]

pub mod allocated;
pub mod decision;
pub mod desk;
pub mod failure;
pub mod forbidden_peers;
pub mod grant;
pub mod granted;
pub mod laws;
pub mod peers;
pub mod reply;
pub mod request;
pub mod requested;
pub mod verdict;

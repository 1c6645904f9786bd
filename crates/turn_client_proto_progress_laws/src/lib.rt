//! Theorems on what a client that holds an allocation requests and is granted, how it binds a TCP
//! connection, and how it renews what it holds; on challenges to its requests, and on the schedule
//! of any request.
#![tactic(auto)]

pub mod challenged_requests;
pub mod channels;
pub mod connections;
pub mod renewals;
pub mod requests;
pub mod schedules;
pub mod streams;

//! All theorems on simulations of a client, a server core and a network (`World`, of `turn_desk`),
//! each under its own name.
//!
//! - Over any network: [`Runs`], whose `run` has the theorem on what a client holds
//!   ([`runs_of_a_world_are_safe`]), and what follows from it; [`sending`], on what a client sends
//!   to a peer, and [`ended`], on how its connections end.
//! - Over an honest network, by a script: [`honest_runs_allocate`] and those after it.
//! - As a driver's loop calls the client, over a network that takes time:
//!   [`honest_loops_allocate`], and the modules of this crate.
//!
//! `docs/GUARANTEES.md` has the premises of each, and who can know them.
#![tactic(auto)]

pub use turn_client_proto_progress_laws::{challenged_requests, schedules};
pub use turn_desk_progress_laws::connections::{
    challenged_bindings_go_again, connections_are_bound, successes_bind,
};
pub use turn_desk_progress_laws::fresh::worlds_begin_fresh;
pub use turn_desk_progress_laws::hardened::hardened_runs_allocate;
pub use turn_desk_progress_laws::honest::{cuts_are_honest, honest_runs_allocate};
pub use turn_desk_progress_laws::loops::honest_loops_allocate;
pub use turn_desk_progress_laws::renewals::{renewals_are_cut, renewed_in_time};
pub use turn_desk_progress_laws::requests::requested_things_are_held;
pub use turn_desk_progress_laws::small;
pub use turn_desk_progress_laws::unforged::honest_runs_are_unforged;
pub use turn_desk_world_laws::laws::{
    accounts_count_alike, addresses_are_isolated, answers_give_what_was_delivered,
    answers_show_what_was_granted, new_clients_begin_new, parts_make_a_run,
    relayed_addresses_are_reported, runs_are_determined, runs_of_a_world_are_safe,
};
pub use turn_desk_world_laws::running::Runs;
pub use turn_desk_world_laws::{ended, sending};

pub mod beside;
pub mod challenged_connects;
pub mod challenged_loops;
pub mod challenged_refreshes;
pub mod connections;
pub mod excluded;
pub mod renewals;
pub mod requests;
pub mod unanswered;

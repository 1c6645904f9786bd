//! Theorems for the layers above, as functions that do nothing.

pub use stun_proto_agent::laws::{
    agent_laws, nothing_new, numbers_are_listed, numbers_come_and_go,
};
pub use stun_proto_client::laws::{client_laws, client_signs};
pub use stun_proto_server::laws::{
    accepted_is_not_refused, addresses_are_apart, addresses_are_isolated,
};

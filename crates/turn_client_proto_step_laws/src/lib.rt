//! What a client's contracts mean for a layer above. The functions do nothing; each contract is a
//! theorem.
//!
//! # What a call adds ([`added`])
//!
//! An allocation, a permission, a channel or a bound connection comes to a client only by the
//! success response to one of its own requests (`answers_alone_add`). That response validates under
//! the client's key, a request with its transaction ID was outstanding and no longer is, and that
//! request asked for this very item (RFC 8489, sections 6.3 and 9.2.5; RFC 8656, sections 7.3, 10.3
//! and 12.3; RFC 6062, section 4.3). The client's key belongs to its name and password, the realm
//! of its stored challenge, and the algorithm that it chose for that challenge. A client has one
//! key at a time, and a new client has none (`new_clients_keep_no_realm`). So nothing is added by:
//!
//! - a message that is not signed, or is signed wrongly (`unsigned_adds_nothing`),
//! - a message that answers no outstanding request (`unasked_adds_nothing`),
//! - a call that handles no message (`calls_add_nothing`).
//!
//! What the server's own requests make a client store is bounded ([`bounds`]).
//!
//! # Each call is a step ([`steps`])
//!
//! A client is there the record `Client`: the `core` of its state, its credentials, the random
//! stream of its seed, the count of transaction IDs generated from it, and the complete frames that
//! are buffered (over UDP none). Its invariant holds of a new client (`new_clients_are_sound`).
//! Each call preserves it and is a step (`ClientStep`), in which whatever the client newly holds,
//! reports or delivers came from the server. The theorems for the calls are:
//!
//! - `polls_are_steps`, `draws_are_steps` (`poll_transmit`), `events_are_steps`,
//!   `deletions_are_steps`, `permissions_are_steps`, `several_permissions_are_steps`,
//!   `bindings_are_steps`, `connects_are_steps`, `sockets_are_steps`, `closings_are_steps`,
//!   `sends_are_steps` and `ends_are_steps` (`protocol_error`),
//! - `failures_are_steps` for a call in which memory ran out,
//! - `messages_are_steps` and `payloads_are_steps` for what comes from the server, [`framed`] for
//!   complete frames over TCP, and [`sockets`] for what comes over the socket of a connection to a
//!   peer,
//! - `listed_addresses_are_held`, `listed_permissions_are_held`, `permissions_had_are_held`,
//!   `listed_channels_are_held` and `listed_connections_are_held`: what getters list is held in the
//!   sense of these steps.
//!
//! # Transaction IDs
//!
//! The first message has the transaction ID at index 0 of the stream of the client's seed
//! (`first_numbers_are_of_the_seed`). The fields `seed`, `counted` and `numbered` of each step say
//! that the stream stays the same, that every ID that the generator gave is counted, and that the
//! requests made in the step have the IDs at increasing indices of that stream, from where the last
//! step ended. Only if that ID is taken, because a response to it is still awaited, does a request
//! get another one (RFC 8489, section 5).
//!
//! # Streams ([`stream_laws`])
//!
//! It does not matter where a stream is cut into chunks (`cuts_do_not_matter`,
//! `cuts_of_sockets_do_not_matter`). Frames are handled in order
//! (`whole_frames_are_taken_in_order`). A client that has failed delivers nothing
//! (`failed_clients_give_nothing`).
//!
//! What becomes of a client that receives nothing is a theorem of
//! `turn_client_proto_handshake_laws`.
#![tactic(auto)]

pub mod added;
pub mod bounds;
pub mod causes;
pub mod definite;
pub mod framed;
pub mod reported;
pub mod sockets;
pub mod steps;
pub mod stream_laws;

//! Theorems that state in the words of RFC 8489 what the definitions used in contracts mean. The
//! functions do nothing, except `written_and_read`, which writes an attribute and reads it back.

pub use stun_types_attributes::socket_addr::{value_is_decoded, xor_is_undone};
pub use stun_types_message::check::unknown_types_are_listed;
pub use stun_types_message::integrity_laws::{
    calls_compose, covered_text_fixes_message, same_adds_same_bytes, signed_validates,
};
pub use stun_types_wire::grammar_laws::{
    fingerprint_refusals, header_refusals, message_is_text, text_is_read,
    visible_is_longest_prefix, written_is_read,
};
pub use stun_types_write::attribute::written_and_read;

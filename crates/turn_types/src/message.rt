//! The methods of TURN (RFC 8656, section 17; RFC 6062, section 6.1).

pub use turn_types_attributes::registry::{
    ALLOCATE, CHANNEL_BIND, CONNECT, CONNECTION_ATTEMPT, CONNECTION_BIND, CREATE_PERMISSION, DATA,
    REFRESH, SEND,
};

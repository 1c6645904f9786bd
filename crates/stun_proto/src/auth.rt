//! Authentication (RFC 8489, section 9): short-term and long-term credentials on the client's side,
//! and long-term credentials on the server's side.

pub use stun_proto_auth::feature::Feature;
pub use stun_proto_auth::nonce::{
    LONG_TERM_RFC8489_NONCE_COOKIE, NONCE_WORDS, NonceFeatures, ServerNonce,
};
pub use stun_proto_auth::supported::SupportedIntegrity;
pub use stun_proto_client::error::{LongTermClientAuthError, LongTermClientAuthErrorReason};
pub use stun_proto_client::long_term::LongTermClientAuth;
pub use stun_proto_client::short_term::ShortTermAuth;
pub use stun_proto_client::validation::LongTermClientValidation;
pub use stun_proto_server::long_term::{LongTermServerAuth, MIN_NONCE_EXPIRY};
pub use stun_proto_server::validation::LongTermServerValidation;
pub use stun_proto_verify::error::{LongTermServerAuthError, LongTermServerAuthErrorReason};
pub use stun_proto_verify::user::ValidatedUser;

//! Messages (RFC 8489, section 5).

pub use stun_types_add::ext::{MessageWriteExt, add_as};
pub use stun_types_integrity::credentials::{
    LongTermCredentials, LongTermKeyCredentials, MessageIntegrityCredentials, ShortTermCredentials,
    ShortTermKeyCredentials,
};
pub use stun_types_integrity::hmac::IntegrityHmac;
pub use stun_types_integrity::key::IntegrityKey;
pub use stun_types_message::iter::MessageAttributesIter;
pub use stun_types_message::parsed::Message;
pub use stun_types_wire::algorithm::IntegrityAlgorithm;
pub use stun_types_wire::class::{MessageClass, MessageType, Method};
pub use stun_types_wire::error::{StunParseError, StunWriteError, ValidateError};
pub use stun_types_wire::header::MessageHeader;
pub use stun_types_wire::registry::{BINDING, MAGIC_COOKIE};
pub use stun_types_wire::transaction::TransactionId;
pub use stun_types_write::slice::MessageWriteMutSlice;
pub use stun_types_write::vec::MessageWriteVec;
pub use stun_types_write::writer::MessageWrite;

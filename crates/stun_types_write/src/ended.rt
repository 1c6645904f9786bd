//! Which of the attributes that end a message have been added.

ghost use Rattle.std.specs.Prelude.{◌≡◌};
ghost use Rattle.stun_types_write.specs.Drafts.{ended_by, none_ended};

use stun_types_wire::attribute::AttributeType;
use stun_types_wire::registry::{
    FINGERPRINT, MESSAGE_INTEGRITY, MESSAGE_INTEGRITY_SHA256, MESSAGE_INTEGRITY_SHA512,
};

/// Which of the four attributes that end a message have been added (RFC 8489, sections 14.5 to
/// 14.7).
#[derive(Clone, Copy, Debug)]
pub struct Ended {
    /// Whether MESSAGE-INTEGRITY has been added.
    pub integrity: bool,
    /// Whether MESSAGE-INTEGRITY-SHA256 has been added.
    pub sha256: bool,
    /// Whether MESSAGE-INTEGRITY-SHA512 has been added.
    pub sha512: bool,
    /// Whether FINGERPRINT has been added.
    pub fingerprint: bool,
}

impl Ended {
    /// Returns the value for a message to which none of the four has been added.
    pub fn none() -> Ended
        ensures { result ≡ none_ended }
    {
        Ended {
            integrity: false,
            sha256: false,
            sha512: false,
            fingerprint: false,
        }
    }

    /// Returns these flags, and sets the flag of `atype` if it is one of the four.
    pub fn by(self, atype: AttributeType) -> Ended
        ensures { result ≡ ended_by self atype.0 }
    {
        Ended {
            integrity: self.integrity || atype.0 == MESSAGE_INTEGRITY.0,
            sha256: self.sha256 || atype.0 == MESSAGE_INTEGRITY_SHA256.0,
            sha512: self.sha512 || atype.0 == MESSAGE_INTEGRITY_SHA512.0,
            fingerprint: self.fingerprint || atype.0 == FINGERPRINT.0,
        }
    }
}

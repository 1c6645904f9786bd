//! How far the visible attributes of a message have come in their prescribed order.

ghost use Rattle.std.specs.Prelude.{◌≡◌};
ghost use Rattle.stun_types_attributes.specs.Wire.Shape.{rank};
ghost use Rattle.stun_types_message.specs.ShapeStages.{stage_rank, LeadsTo};

use crate::stun_types_wire::attribute::AttributeType;
use crate::stun_types_wire::registry::{
    FINGERPRINT, MESSAGE_INTEGRITY, MESSAGE_INTEGRITY_SHA256, MESSAGE_INTEGRITY_SHA512,
};

/// The kind of the last visible attribute so far. The visible attributes are ordinary ones, and
/// then each of the other four kinds at most once, in this order.
#[derive(Clone, Copy, Debug, PartialEq, Eq, PartialOrd, Ord)]
pub(crate) enum Stage {
    /// An ordinary attribute, or no attribute yet.
    Ordinary,
    /// MESSAGE-INTEGRITY.
    Integrity,
    /// MESSAGE-INTEGRITY-SHA256.
    Sha256,
    /// MESSAGE-INTEGRITY-SHA512.
    Sha512,
    /// FINGERPRINT.
    Fingerprint,
}

impl Stage {
    /// Returns the stage of an attribute type.
    fn of(atype: AttributeType) -> Stage
        ensures { stage_rank result ≡ rank atype.0 }
    {
        match atype {
            MESSAGE_INTEGRITY => Stage::Integrity,
            MESSAGE_INTEGRITY_SHA256 => Stage::Sha256,
            MESSAGE_INTEGRITY_SHA512 => Stage::Sha512,
            FINGERPRINT => Stage::Fingerprint,
            _ => Stage::Ordinary,
        }
    }

    /// Returns the stage after an attribute of this type, or `None` if it may not follow.
    pub(crate) fn after(self, atype: AttributeType) -> Option<Stage>
        ensures { LeadsTo self atype.0 result }
    {
        let next = Stage::of(atype);
        match (self, next) {
            (Stage::Ordinary, Stage::Ordinary) => Some(next),
            _ if self < next => Some(next),
            _ => None,
        }
    }
}

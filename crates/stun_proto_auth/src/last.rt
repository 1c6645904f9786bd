//! The last attributes of a message.

ghost use Rattle.std.specs.Prelude.{◌≡◌};
ghost use Rattle.stun_types_message.specs.Wire.Grammar.{visible};
ghost use Rattle.stun_proto_auth.specs.Claims.{last_of_kind, lasts, with_later};

use crate::stun_types_auth_attributes::nonce::Nonce;
use crate::stun_types_auth_attributes::realm::Realm;
use crate::stun_types_auth_attributes::username::Username;
use crate::stun_types_integrity::algorithm::algorithm_of;
use crate::stun_types_wire::algorithm::IntegrityAlgorithm;
use crate::stun_types_wire::attribute::{AttributeType, RawAttribute};
use crate::stun_types_wire::registry;
use crate::stun_types_write::attribute::AttributeStaticType;
use stun_types_message::parsed::Message;

/// Of each authentication attribute type the last attribute, and the algorithm of the last
/// integrity attribute.
#[derive(Debug, Drop)]
pub(crate) struct Lasts<'a> {
    pub(crate) integrity: Option<IntegrityAlgorithm>,
    pub(crate) username: Option<RawAttribute<'a>>,
    pub(crate) user_hash: Option<RawAttribute<'a>>,
    pub(crate) realm: Option<RawAttribute<'a>>,
    pub(crate) nonce: Option<RawAttribute<'a>>,
    pub(crate) algorithms: Option<RawAttribute<'a>>,
    pub(crate) algorithm: Option<RawAttribute<'a>>,
}

impl<'a> Lasts<'a> {
    /// Returns those that are visible in a message. It goes over the message once.
    #[tactic(auto, using(crate::proofs::Lasts::all_steps), unfolding(crate::proofs::Lasts::last))]
    pub(crate) fn of(message: &Message<'a>) -> Lasts<'a>
        ensures { result ≡ lasts (visible message.now) }
    {
        let mut found = Lasts {
            integrity: None,
            username: None,
            user_hash: None,
            realm: None,
            nonce: None,
            algorithms: None,
            algorithm: None,
        };
        for (_, attribute) in message.iter_attributes() {
            found.take(attribute);
        }
        found
    }

    /// Replaces the last one of the attribute's type by this attribute.
    fn take(&mut self, attribute: RawAttribute<'a>)
        ensures { self.new ≡ with_later attribute.entry self.old }
    {
        let atype = attribute.get_type();
        if let Some(algorithm) = algorithm_of(atype) {
            self.integrity = Some(algorithm);
            return;
        }
        match atype {
            Username::TYPE => self.username = Some(attribute),
            registry::USERHASH => self.user_hash = Some(attribute),
            Realm::TYPE => self.realm = Some(attribute),
            Nonce::TYPE => self.nonce = Some(attribute),
            registry::PASSWORD_ALGORITHMS => self.algorithms = Some(attribute),
            registry::PASSWORD_ALGORITHM => self.algorithm = Some(attribute),
            _ => {}
        }
    }
}

/// Returns the last attribute of a type that is visible in a message.
#[tactic(auto, using(crate::proofs::Lasts::steps), unfolding(crate::specs::Claims::last_of_kind))]
pub(crate) fn last_attribute<'a>(
    message: &Message<'a>,
    atype: AttributeType,
) -> Option<RawAttribute<'a>>
    ensures { result ≡ last_of_kind atype.0 (visible message.now) }
{
    let mut last = None;
    for (_, attribute) in message.iter_attributes() {
        if attribute.get_type() == atype {
            last = Some(attribute);
        }
    }
    last
}

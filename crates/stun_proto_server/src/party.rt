//! What is known of the party that a message goes to, and what is added to the message for it.

ghost use Rattle.std.specs.Prelude.{◌≡◌, IfOk, IfSome, IsSomeAnd, None, Some};
ghost use Rattle.std.specs.Option.{option_map};
ghost use Rattle.stun_proto_verify.specs.Base.Refusals.{RefusesFor};
ghost use Rattle.stun_proto_verify.specs.Wire.Attributes.{kind_at};
ghost use Rattle.stun_proto_verify.specs.Wire.Types.{class_of};
ghost use Rattle.stun_proto_verify.specs.Wire.declared.class.MessageClass.TheVariants.{Error};
ghost use Rattle.stun_proto_verify.specs.Write.Adding.{IsStarted};
ghost use Rattle.stun_proto_verify.specs.Write.Outcomes.{TakesNoMemory};
ghost use Rattle.stun_proto_verify.specs.Auth.Nonce.{features_in};
ghost use Rattle.stun_proto_verify.specs.Auth.Addition.{addition_refusal};
ghost use Rattle.stun_proto_verify.specs.Auth.AdditionStages.{IsMade};
ghost use Rattle.stun_proto_verify.specs.Auth.Sizes.{size_of};
ghost use Rattle.stun_proto_server.specs.ServerSigning.{addition, addition_for_user};
ghost use Rattle.stun_proto_server.specs.ServerSigning.{addition_unvalidated, signing_refusal_for};
ghost use Rattle.stun_proto_server.specs.ServerSigning.{size_for};
ghost use Rattle.stun_proto_server.specs.SigningUsers.{HasKeyIn, signer_of};

use crate::stun_proto_auth::nonce::NonceFeatures;
use crate::stun_proto_auth::part::Part;
use crate::stun_proto_auth::signing::sign;
use crate::stun_proto_auth::size::signature_bytes;
use crate::stun_proto_auth::supported::SupportedIntegrity;
use crate::stun_types_add::ext::MessageWriteExt;
use crate::stun_types_integrity::key::IntegrityKey;
use crate::stun_types_wire::algorithm::IntegrityAlgorithm;
use crate::stun_types_wire::class::MessageClass;
use crate::stun_types_wire::error::StunWriteError;
use crate::stun_types_write::writer::MessageWrite;
use std::marker::Model;

/// A user under whose key messages are signed: its name, its password, the algorithm of the
/// integrity attribute, and the key.
#[derive(Drop)]
pub(crate) struct SigningUser<'a> {
    pub(crate) name: &'a str,
    pub(crate) password: &'a str,
    pub(crate) algorithm: IntegrityAlgorithm,
    pub(crate) key: &'a IntegrityKey<'static>,
}

/// What the server knows of the party to which a message goes: the realm, the nonce stored for it,
/// the supported algorithms and, if its last message was validated, the user with the key in the
/// realm. Contracts see the record `Party`.
#[derive(Drop)]
pub(crate) struct Party<'a> {
    realm: &'a str,
    nonce: &'a str,
    supported: SupportedIntegrity,
    user: Option<SigningUser<'a>>,
}

impl<'a> Model for Party<'a> {
    ghost use Rattle.std.specs.Prelude.{IfSome};
    ghost use Rattle.std.specs.Option.{option_map};
    ghost use Rattle.stun_proto_server.specs.ServerSigning.{Party};
    ghost use Rattle.stun_proto_server.specs.SigningUsers.{HasKeyIn, signer_of};

    ghost Value = { Party };

    ghost view = { λ to. record {
      realm = to.realm.now;
      nonce = to.nonce.now;
      algorithms = to.supported;
      user = option_map signer_of to.user;
    } };

    ghost invariant = { λ to. IfSome to.user (HasKeyIn to.realm.now) };
}

impl<'a> Party<'a> {
    /// Collects what is known of a party.
    pub(crate) fn new(
        realm: &'a str,
        nonce: &'a str,
        supported: SupportedIntegrity,
        user: Option<SigningUser<'a>>,
    ) -> Party<'a>
        requires { IfSome user (HasKeyIn realm.now) }
        ensures { result ≡ record {
          realm = realm.now;
          nonce = nonce.now;
          algorithms = supported;
          user = option_map signer_of user.entry;
        } }
    {
        Party {
            realm,
            nonce,
            supported,
            user,
        }
    }

    /// Adds the authentication attributes for the party to a message.
    ///
    /// # Errors
    ///
    /// 1. `IntegrityFailed`: the party was not validated, and the message is not an error response.
    /// 2. The errors of `sign`.
    pub(crate) fn sign_for<W: MessageWrite + Drop>(&self, writer: W) -> Result<W, StunWriteError>
        requires { IsStarted (W.draft writer).bytes }
        ensures ok { IfOk result (λ signed. IsSomeAnd
            (addition self.now (class_of (kind_at (W.draft writer).bytes)))
            (λ made. IsMade made (W.draft writer) (W.draft signed))) }
        ensures cause { RefusesFor StunWriteError.NoMemory (signing_refusal_for
            (addition self.now (class_of (kind_at (W.draft writer).bytes)))
            (W.draft writer)) result }
        ensures lent { TakesNoMemory (W.draft writer) result }
    {
        let class = writer.class();
        match (&self.user, class) {
            (Some(user), class) => self.sign_for_user(writer, user, class),
            (None, MessageClass::Error) => self.sign_challenge(writer),
            (None, _) => Err(StunWriteError::IntegrityFailed),
        }
    }

    /// Adds the attributes for a party that was validated, according to the message's class. Fails
    /// as `sign` does.
    fn sign_for_user<W: MessageWrite + Drop>(
        &self,
        writer: W,
        user: &SigningUser<'_>,
        class: MessageClass,
    ) -> Result<W, StunWriteError>
        requires started { IsStarted (W.draft writer).bytes }
        requires key { HasKeyIn self.now.realm user.now }
        ensures ok { IfOk result (λ signed. IsMade
            (addition_for_user self.now (signer_of user.now) class)
            (W.draft writer) (W.draft signed)) }
        ensures cause { RefusesFor StunWriteError.NoMemory (addition_refusal
            (addition_for_user self.now (signer_of user.now) class) (W.draft writer)) result }
        ensures lent { TakesNoMemory (W.draft writer) result }
    {
        match class {
            MessageClass::Request => {
                let parts = [
                    Part::username(user.name),
                    Part::realm(self.realm),
                    Part::nonce(self.nonce),
                ];
                sign(writer, &parts, Some(user.key))
            }
            MessageClass::Indication => sign(writer, &[], None),
            MessageClass::Success | MessageClass::Error => sign(writer, &[], Some(user.key)),
        }
    }

    /// Adds the attributes of a challenge to an error response, for a party that was not validated.
    /// Fails as `sign` does.
    fn sign_challenge<W: MessageWrite + Drop>(&self, writer: W) -> Result<W, StunWriteError>
        requires { IsStarted (W.draft writer).bytes }
        ensures ok { IfOk result (λ signed. IsSomeAnd (addition_unvalidated self.now Error)
            (λ made. IsMade made (W.draft writer) (W.draft signed))) }
        ensures cause { RefusesFor StunWriteError.NoMemory (signing_refusal_for
            (addition_unvalidated self.now Error) (W.draft writer)) result }
        ensures lent { TakesNoMemory (W.draft writer) result }
    {
        let (realm, nonce) = (Part::realm(self.realm), Part::nonce(self.nonce));
        if self.lists_algorithms() {
            let list = Part::algorithms(self.supported.entries());
            sign(writer, &[realm, nonce, list], None)
        } else {
            sign(writer, &[realm, nonce], None)
        }
    }

    /// Returns whether the nonce announces that the server lists its password algorithms.
    fn lists_algorithms(&self) -> bool
        ensures { result ≡ (features_in self.now.nonce).password_algorithms }
    {
        NonceFeatures::decoded_by(self.nonce).password_algorithms
    }

    /// Returns how many bytes are added to a message of a class: 0 if it can't be signed, or if a
    /// value is over its limit.
    pub(crate) fn bytes_for(&self, class: MessageClass) -> usize
        ensures { result ≡ size_for (addition self.now class) }
    {
        match (&self.user, class) {
            (Some(user), class) => self.bytes_for_user(user, class),
            (None, MessageClass::Error) => self.bytes_of_challenge(),
            (None, _) => 0,
        }
    }

    /// Returns how many bytes are added to a message of a class for a party that was validated.
    fn bytes_for_user(&self, user: &SigningUser<'_>, class: MessageClass) -> usize
        ensures { result ≡ size_of (addition_for_user self.now (signer_of user.now) class) }
    {
        match class {
            MessageClass::Request => signature_bytes(
                &[
                    Part::username(user.name),
                    Part::realm(self.realm),
                    Part::nonce(self.nonce),
                ],
                Some(user.algorithm),
            ),
            MessageClass::Indication => 0,
            MessageClass::Success | MessageClass::Error => {
                signature_bytes(&[], Some(user.algorithm))
            }
        }
    }

    /// Returns how many bytes are added to an error response for a party that was not validated.
    fn bytes_of_challenge(&self) -> usize
        ensures { result ≡ size_for (addition_unvalidated self.now Error) }
    {
        let (realm, nonce) = (Part::realm(self.realm), Part::nonce(self.nonce));
        if self.lists_algorithms() {
            let list = Part::algorithms(self.supported.entries());
            signature_bytes(&[realm, nonce, list], None)
        } else {
            signature_bytes(&[realm, nonce], None)
        }
    }
}

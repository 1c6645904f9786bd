//! Short-term credentials (RFC 8489, section 9.1).

ghost use Rattle.std.specs.Prelude.{◌≡◌, Some, None, IfOk, IsSome, MatchResult};
ghost use Rattle.std.specs.Result.{IsOk};
ghost use Rattle.stun_proto_auth.specs.Base.Refusals.{RefusesFor};
ghost use Rattle.stun_proto_auth.specs.Write.Adding.{IsStarted};
ghost use Rattle.stun_proto_auth.specs.Write.Outcomes.{TakesNoMemory};
ghost use Rattle.stun_proto_auth.specs.Addition.{addition_refusal};
ghost use Rattle.stun_proto_auth.specs.AdditionStages.{IsMade};
ghost use Rattle.stun_proto_auth.specs.Sizes.{size_of};
ghost use Rattle.std.specs.Bool.{MatchBool};
ghost use Rattle.stun_proto_client.specs.Digests.{IsRight, IsWrong};
ghost use Rattle.std.specs.Option.{option_map};
ghost use Rattle.stun_proto_auth.specs.Wire.declared.error.ValidateError.TheVariants as invalid;
ghost use Rattle.stun_proto_client.specs.ShortTerm.{IsShortAnswer, IsShortRefused, short_addition};
ghost use Rattle.stun_proto_client.specs.ShortTerm.{short_key};

use crate::stun_types_base::memory::NoMemory;
use crate::stun_types_integrity::algorithm::hmac_length;
use crate::stun_types_integrity::credentials::{ShortTermCredentials, ShortTermKeyCredentials};
use crate::stun_types_integrity::key::IntegrityKey;
use crate::stun_types_message::parsed::Message;
use crate::stun_types_wire::algorithm::IntegrityAlgorithm;
use crate::stun_types_wire::error::{StunWriteError, ValidateError};
use crate::stun_types_write::writer::MessageWrite;
use crate::validation::is_right;
use std::marker::Model;
use stun_proto_auth::signing::sign;

/// Authentication with a password that both sides know and that is valid for one session. It stores
/// the initial HMAC states under its key. Contracts see the record `ShortTerm` of
/// `specs/ShortTerm.antt`.
#[derive(Debug, Drop)]
pub struct ShortTermAuth {
    account: Option<ShortTermKeyCredentials>,
}

impl Model for ShortTermAuth {
    ghost use Rattle.std.specs.Option.{option_map};
    ghost use Rattle.stun_proto_client.specs.ShortTerm.{ShortTerm};

    ghost Value = { ShortTerm };

    ghost view = { λ auth. record {
      account = option_map (λ a. record { secret = a.secret; algorithm = a.algorithm })
          auth.account;
    } };
}

impl ShortTermAuth {
    /// Creates an authenticator without credentials.
    pub fn new() -> ShortTermAuth
        ensures { result ≡ record { account = None } }
    {
        ShortTermAuth { account: None }
    }

    /// Sets the credentials and the algorithm to use them with, replacing any others.
    pub fn set_credentials(
        &mut self,
        credentials: ShortTermCredentials,
        algorithm: IntegrityAlgorithm,
    )
        ensures { self.new ≡ record {
          account = Some (record { secret = credentials; algorithm = algorithm });
        } }
    {
        self.account = Some(ShortTermKeyCredentials::new(credentials, algorithm));
    }

    /// Returns the credentials and their algorithm, if they are set.
    pub fn credentials(&self) -> Option<(&ShortTermCredentials, IntegrityAlgorithm)>
        ensures { option_map (λ pair. record { secret = pair.0.now; algorithm = pair.1 }) result
            ≡ self.now.account }
    {
        match &self.account {
            Some(account) => Some((account.credentials(), account.algorithm())),
            None => None,
        }
    }

    /// Returns the key under which messages are signed and validated, if credentials are set. It
    /// borrows the password.
    pub fn integrity_key(&self) -> Option<IntegrityKey<'_>>
        ensures { result ≡ option_map short_key self.now.account }
    {
        match &self.account {
            Some(account) => Some(account.key()),
            None => None,
        }
    }

    /// Returns how many bytes `sign_outgoing_message` adds: 0 without credentials.
    pub fn message_signature_bytes(&self) -> usize
        ensures { result ≡ size_of (short_addition self.now.account) }
    {
        match &self.account {
            Some(account) => 4 + hmac_length(account.algorithm()),
            None => 0,
        }
    }

    /// Signs a message and returns the writer. With credentials, it adds one integrity attribute of
    /// their algorithm, with the full digest. Without credentials, it adds nothing.
    ///
    /// # Errors
    ///
    /// A refusal drops the writer.
    ///
    /// 1. The errors of `add_message_integrity`.
    /// 2. `NoMemory`: an allocation failed. It never occurs with a writer that has a size limit.
    pub fn sign_outgoing_message<W: MessageWrite + Drop>(
        &self,
        writer: W,
    ) -> Result<W, StunWriteError>
        requires { IsStarted (W.draft writer).bytes }
        ensures ok { IfOk result (λ signed. IsMade (short_addition self.now.account)
            (W.draft writer) (W.draft signed)) }
        ensures cause { RefusesFor StunWriteError.NoMemory
            (addition_refusal (short_addition self.now.account) (W.draft writer)) result }
        ensures lent { TakesNoMemory (W.draft writer) result }
    {
        match self.integrity_key() {
            Some(key) => sign(writer, &[], Some(&key)),
            None => sign(writer, &[], None),
        }
    }

    /// Signs a message as `sign_outgoing_message` does. The caller has to know that nothing but a
    /// failed allocation can prevent it.
    ///
    /// # Errors
    ///
    /// - `NoMemory`: an allocation failed. The writer is dropped.
    pub fn sign_outgoing_message_unchecked<W: MessageWrite + Drop>(
        &self,
        writer: W,
    ) -> Result<W, NoMemory>
        requires started { IsStarted (W.draft writer).bytes }
        requires accepted { addition_refusal (short_addition self.now.account) (W.draft writer)
            ≡ None }
        ensures ok { IfOk result (λ signed. IsMade (short_addition self.now.account)
            (W.draft writer) (W.draft signed)) }
        ensures lent { IsSome (W.draft writer).limit → IsOk result }
    {
        match self.sign_outgoing_message(writer) {
            Ok(signed) => Ok(signed),
            Err(StunWriteError::NoMemory) => Err(NoMemory),
            // The precondition rules out every other error.
            Err(_) => unreachable!(),
        }
    }

    /// Validates a message, and returns the algorithm of the credentials. Without credentials the
    /// result is `None`.
    ///
    /// # Errors
    ///
    /// - `IntegrityFailed`: credentials are set, and the message's last visible integrity attribute
    ///   is missing, is of another algorithm, or does not validate under the key.
    pub fn validate_incoming_message(
        &self,
        message: &Message<'_>,
    ) -> Result<Option<IntegrityAlgorithm>, ValidateError>
        ensures { MatchResult result (IsShortAnswer self.now.account message.now)
            (λ error. (error ≡ invalid.IntegrityFailed)
            × IsShortRefused self.now.account message.now) }
    {
        let Some(key) = self.integrity_key() else {
            return Ok(None);
        };
        if is_visible_right(message, &key) {
            Ok(Some(key.algorithm()))
        } else {
            Err(ValidateError::IntegrityFailed)
        }
    }
}

/// Returns whether a message's last visible integrity attribute is of the key's algorithm and
/// validates under the key.
#[tactic(auto, using(crate::proofs::Validating::none_last))]
fn is_visible_right(message: &Message<'_>, key: &IntegrityKey<'_>) -> bool
    ensures { MatchBool result (IsRight message.now key.now) (IsWrong message.now key.now) }
{
    match message.last_integrity() {
        Some(last) => is_right(message, last, key),
        None => false,
    }
}

//! Signing of messages that are sent.

ghost use Rattle.std.specs.Prelude.{◌≡◌, [], ◌∷◌, None, IsSome, IfOk, min};
ghost use Rattle.std.specs.Result.{IsOk};
ghost use Rattle.stun_proto_auth.specs.Base.Refusals.{RefusesFor};
ghost use Rattle.stun_proto_auth.specs.Wire.RawBytes.{greatest_len};
ghost use Rattle.stun_proto_auth.specs.Wire.Attributes.{kind_at};
ghost use Rattle.stun_proto_auth.specs.Wire.Types.{class_of};
ghost use Rattle.stun_proto_auth.specs.Wire.declared.class.MessageClass.TheVariants.{Request};
ghost use Rattle.stun_proto_auth.specs.Write.Adding.{IsStarted};
ghost use Rattle.stun_proto_auth.specs.Write.Outcomes.{TakesNoMemory};
ghost use Rattle.stun_proto_auth.specs.AuthAttributes.Entries.{entry};
ghost use Rattle.stun_proto_auth.specs.SupportedAlgorithms.{number_by};
ghost use Rattle.stun_proto_auth.specs.Addition.{addition_refusal, algorithm_of, algorithms_of};
ghost use Rattle.stun_proto_auth.specs.Addition.{nonce_of, realm_of};
ghost use Rattle.stun_proto_auth.specs.AdditionStages.{IsMade};
ghost use Rattle.stun_proto_auth.specs.Sizes.{size_of};
ghost use Rattle.stun_proto_client.specs.Client.{standing_key};
ghost use Rattle.stun_proto_client.specs.ClientSigning.{addition_for, hides_name, name_part};
ghost use Rattle.stun_proto_client.specs.ClientSigning.{standing_addition};

use crate::long_term::LongTermClientAuth;
use crate::stored::StoredChallenge;
use crate::stun_types_add::ext::MessageWriteExt;
use crate::stun_types_auth_attributes::userhash::Userhash;
use crate::stun_types_base::memory::NoMemory;
use crate::stun_types_integrity::credentials::LongTermCredentials;
use crate::stun_types_integrity::key::IntegrityKey;
use crate::stun_types_wire::algorithm::IntegrityAlgorithm;
use crate::stun_types_wire::class::MessageClass;
use crate::stun_types_wire::error::StunWriteError;
use crate::stun_types_write::writer::MessageWrite;
use stun_proto_auth::feature::Feature;
use stun_proto_auth::nonce::NonceFeatures;
use stun_proto_auth::number::number_by;
use stun_proto_auth::part::Part;
use stun_proto_auth::signing::sign;
use stun_proto_auth::size::signature_bytes;

impl LongTermClientAuth {
    /// Signs a message and returns the writer (RFC 8489, sections 9.2.3 and 9.2.5). If credentials
    /// are set and a challenge is stored, it adds the following attributes, in this order:
    ///
    /// - To a request: USERNAME, or USERHASH if the nonce announces that the server accepts it and
    ///   it is not disabled; REALM; NONCE; if the algorithm was chosen from a list,
    ///   PASSWORD-ALGORITHMS as the server sent it and PASSWORD-ALGORITHM; the integrity attribute
    ///   of the chosen algorithm.
    /// - To a response: the integrity attribute only.
    /// - To an indication: nothing.
    ///
    /// Without credentials or without a challenge, nothing is added. One integrity attribute is
    /// added at most, with the full digest.
    ///
    /// # Errors
    ///
    /// The attributes are checked in order, and the first error is returned. A refusal drops the
    /// writer, and the client is unchanged.
    ///
    /// 1. For each attribute before the integrity attribute: `TooLarge` for a name over 513 bytes
    ///    or a realm or nonce over 763 bytes, then the errors of `add_attribute`.
    /// 2. For the integrity attribute: the errors of `add_message_integrity`.
    /// 3. `NoMemory`: an allocation failed. It never occurs with a writer that has a size limit.
    pub fn sign_outgoing_message<W: MessageWrite + Drop>(
        &self,
        writer: W,
    ) -> Result<W, StunWriteError>
        requires { IsStarted (W.draft writer).bytes }
        ensures ok { IfOk result (λ signed. IsMade
            (addition_for self.now (class_of (kind_at (W.draft writer).bytes)))
            (W.draft writer) (W.draft signed)) }
        ensures cause { RefusesFor StunWriteError.NoMemory (addition_refusal
            (addition_for self.now (class_of (kind_at (W.draft writer).bytes)))
            (W.draft writer)) result }
        ensures lent { TakesNoMemory (W.draft writer) result }
    {
        match (self.standing(), self.key()) {
            (Some((account, stored)), Some(key)) => {
                let hidden = hides_name(self.anonymous_username, stored.nonce());
                sign_standing(writer, hidden, account, stored, key)
            }
            _ => sign(writer, &[], None),
        }
    }

    /// Signs a message as `sign_outgoing_message` does. The caller has to know that nothing but a
    /// failed allocation can prevent it. The client is unchanged.
    ///
    /// # Errors
    ///
    /// - `NoMemory`: an allocation failed. The writer is dropped.
    pub fn sign_outgoing_message_unchecked<W: MessageWrite + Drop>(
        &self,
        writer: W,
    ) -> Result<W, NoMemory>
        requires started { IsStarted (W.draft writer).bytes }
        requires accepted { addition_refusal
            (addition_for self.now (class_of (kind_at (W.draft writer).bytes)))
            (W.draft writer) ≡ None }
        ensures ok { IfOk result (λ signed. IsMade
            (addition_for self.now (class_of (kind_at (W.draft writer).bytes)))
            (W.draft writer) (W.draft signed)) }
        ensures lent { IsSome (W.draft writer).limit → IsOk result }
    {
        match self.sign_outgoing_message(writer) {
            Ok(signed) => Ok(signed),
            Err(StunWriteError::NoMemory) => Err(NoMemory),
            // The precondition rules out every other error.
            Err(_) => unreachable!(),
        }
    }

    /// Returns how many bytes `sign_outgoing_message` adds to a request. It is 0 if nothing is
    /// added, and if a text to be added is over its limit.
    pub fn message_signature_bytes(&self) -> usize
        ensures { result ≡ min (size_of (addition_for self.now Request)) greatest_len }
    {
        match self.standing() {
            Some((account, stored)) => {
                let hidden = hides_name(self.anonymous_username, stored.nonce());
                request_bytes(hidden, account, stored)
            }
            None => signature_bytes(&[], None),
        }
    }
}

/// Signs a message under credentials and a challenge.
fn sign_standing<W: MessageWrite + Drop>(
    writer: W,
    hidden: bool,
    account: &LongTermCredentials,
    stored: &StoredChallenge,
    key: &IntegrityKey<'_>,
) -> Result<W, StunWriteError>
    requires started { IsStarted (W.draft writer).bytes }
    requires key { key.now
        ≡ standing_key (record { account = account.now; challenge = stored.now }) }
    ensures ok { IfOk result (λ signed. IsMade
        (standing_addition hidden (record { account = account.now; challenge = stored.now })
        (class_of (kind_at (W.draft writer).bytes))) (W.draft writer) (W.draft signed)) }
    ensures cause { RefusesFor StunWriteError.NoMemory (addition_refusal
        (standing_addition hidden (record { account = account.now; challenge = stored.now })
        (class_of (kind_at (W.draft writer).bytes))) (W.draft writer)) result }
    ensures lent { TakesNoMemory (W.draft writer) result }
{
    match writer.class() {
        MessageClass::Request => sign_request(writer, hidden, account, stored, key),
        MessageClass::Indication => sign(writer, &[], None),
        MessageClass::Success | MessageClass::Error => sign(writer, &[], Some(key)),
    }
}

/// Signs a request under credentials and a challenge.
fn sign_request<W: MessageWrite + Drop>(
    writer: W,
    hidden: bool,
    account: &LongTermCredentials,
    stored: &StoredChallenge,
    key: &IntegrityKey<'_>,
) -> Result<W, StunWriteError>
    requires started { IsStarted (W.draft writer).bytes }
    requires key { key.now
        ≡ standing_key (record { account = account.now; challenge = stored.now }) }
    ensures ok { IfOk result (λ signed. IsMade
        (standing_addition hidden (record { account = account.now; challenge = stored.now })
        Request)
        (W.draft writer) (W.draft signed)) }
    ensures cause { RefusesFor StunWriteError.NoMemory (addition_refusal
        (standing_addition hidden (record { account = account.now; challenge = stored.now })
        Request)
        (W.draft writer)) result }
    ensures lent { TakesNoMemory (W.draft writer) result }
{
    let hash = Userhash::compute(account.username(), stored.realm());
    let entry = entry_of(stored.choice());
    match stored.offered() {
        Some(offered) => {
            let parts = parts_with_list(hidden, account, stored, &hash, offered, &entry);
            sign(writer, &parts, Some(key))
        }
        None => sign(
            writer,
            &parts_alone(hidden, account, stored, &hash),
            Some(key),
        ),
    }
}

/// Returns how many bytes signing adds to a request under credentials and a challenge.
fn request_bytes(hidden: bool, account: &LongTermCredentials, stored: &StoredChallenge) -> usize
    ensures { result ≡ min (size_of
        (standing_addition hidden (record { account = account.now; challenge = stored.now })
        Request))
        greatest_len }
{
    let hash = Userhash::compute(account.username(), stored.realm());
    let entry = entry_of(stored.choice());
    let algorithm = Some(stored.choice());
    match stored.offered() {
        Some(offered) => {
            let parts = parts_with_list(hidden, account, stored, &hash, offered, &entry);
            signature_bytes(&parts, algorithm)
        }
        None => signature_bytes(&parts_alone(hidden, account, stored, &hash), algorithm),
    }
}

/// Returns what is added to a request before its integrity attribute if the algorithm was chosen
/// from a list.
fn parts_with_list<'a>(
    hidden: bool,
    account: &'a LongTermCredentials,
    stored: &'a StoredChallenge,
    hash: &'a [u8; 32],
    offered: &'a [u8],
    entry: &'a [u8; 4],
) -> [Part<'a>; 5]
    ensures { result ≡ name_part hidden account.now.username hash.now ∷ realm_of stored.now.realm
        ∷ nonce_of stored.now.nonce ∷ algorithms_of offered.now ∷ algorithm_of entry.now ∷ [] }
{
    [
        name_part(hidden, account.username(), hash),
        Part::realm(stored.realm()),
        Part::nonce(stored.nonce()),
        Part::algorithms(offered),
        Part::algorithm(entry),
    ]
}

/// Returns what is added to a request before its integrity attribute if there was no list.
fn parts_alone<'a>(
    hidden: bool,
    account: &'a LongTermCredentials,
    stored: &'a StoredChallenge,
    hash: &'a [u8; 32],
) -> [Part<'a>; 3]
    ensures { result ≡ name_part hidden account.now.username hash.now ∷ realm_of stored.now.realm
        ∷ nonce_of stored.now.nonce ∷ [] }
{
    [
        name_part(hidden, account.username(), hash),
        Part::realm(stored.realm()),
        Part::nonce(stored.nonce()),
    ]
}

/// Returns the attribute that identifies the user: USERHASH if the name is hidden, otherwise
/// USERNAME.
fn name_part<'a>(hidden: bool, name: &'a str, hash: &'a [u8; 32]) -> Part<'a>
    ensures { result ≡ name_part hidden name.now hash.now }
{
    if hidden {
        Part::userhash(hash)
    } else {
        Part::username(name)
    }
}

/// Returns the value of the PASSWORD-ALGORITHM for an algorithm (RFC 8489, section 14.12).
fn entry_of(choice: IntegrityAlgorithm) -> [u8; 4]
    ensures { result ≡ entry (number_by choice) }
{
    let [high, low] = number_by(choice).to_be_bytes();
    [high, low, 0, 0]
}

/// Returns whether the name is replaced by its hash: the nonce announces that the server accepts
/// it, and the client has not disabled it.
fn hides_name(requested: Feature, nonce: &str) -> bool
    ensures { result ≡ hides_name requested nonce.now }
{
    requested != Feature::Disabled && NonceFeatures::decoded_by(nonce).anonymous_username
}

//! The client's side of long-term credentials (RFC 8489, section 9.2): its state and its settings.

ghost use Rattle.std.specs.Prelude.{◌≡◌, ◌≢◌, [], ◌∷◌, Some, None, false};
ghost use Rattle.std.specs.List.{IsDistinct};
ghost use Rattle.std.specs.Option.{option_copied, option_map};
ghost use Rattle.stun_proto_auth.specs.Wire.declared.algorithm.IntegrityAlgorithm.TheVariants.{Sha1};
ghost use Rattle.stun_proto_auth.specs.SupportedAlgorithms.{is_same_algorithm, with_algorithm};
ghost use Rattle.stun_proto_auth.specs.declared.feature.Feature.TheVariants.{Auto};
ghost use Rattle.stun_proto_client.specs.Client.{Standing, plain_style, standing_key, standing_of};

use crate::stored::{StoredChallenge, key_of_both};
use crate::stun_types_auth_attributes::software::Software;
use crate::stun_types_integrity::credentials::LongTermCredentials;
use crate::stun_types_integrity::key::IntegrityKey;
use crate::stun_types_wire::algorithm::IntegrityAlgorithm;
use std::alloc::Global;
use std::marker::Model;
use stun_proto_auth::feature::Feature;
use stun_proto_auth::supported::SupportedIntegrity;

/// The client's side of long-term authentication: its credentials, the features that it supports,
/// and the last challenge that it accepted. Without credentials it behaves as if it had no
/// challenge. It stores the key derived from both. Contracts see the record `Client` of
/// `specs/Client.antt`.
#[derive(Debug, Drop)]
pub struct LongTermClientAuth {
    pub(crate) alloc: Global,
    pub(crate) account: Option<LongTermCredentials>,
    pub(crate) next_account: Option<LongTermCredentials>,
    pub(crate) supported: SupportedIntegrity,
    pub(crate) anonymous_username: Feature,
    pub(crate) hardened: bool,
    pub(crate) software: Option<Software>,
    pub(crate) fingerprint: bool,
    pub(crate) challenge: Option<StoredChallenge>,
    pub(crate) integrity: Option<IntegrityAlgorithm>,
    pub(crate) key: Option<IntegrityKey<'static>>,
}

impl Model for LongTermClientAuth {
    ghost use Rattle.std.specs.Prelude.{◌≡◌};
    ghost use Rattle.stun_proto_client.specs.Client.{Client, key_by};

    ghost Value = { Client };

    ghost view = { λ c. record {
      account = c.account;
      next_account = c.next_account;
      algorithms = c.supported;
      anonymous_username = c.anonymous_username;
      hardened = c.hardened;
      style = record { software = c.software; fingerprint = c.fingerprint };
      challenge = c.challenge;
      integrity = c.integrity;
    } };

    ghost invariant = { λ c. c.key ≡ key_by c.account c.challenge };
}

impl LongTermClientAuth {
    /// Creates a client without credentials and without a challenge. It supports only `Sha1`, and
    /// hides its name if the server supports that, is not hardened, and adds neither SOFTWARE nor
    /// FINGERPRINT. It stores the allocator, and has allocated nothing yet.
    pub fn new(alloc: Global) -> Self
        ensures { result ≡ record {
          account = None;
          next_account = None;
          algorithms = Sha1 ∷ [];
          anonymous_username = Auto;
          hardened = false;
          style = plain_style;
          challenge = None;
          integrity = None;
        } }
    {
        LongTermClientAuth {
            alloc,
            account: None,
            next_account: None,
            supported: SupportedIntegrity::only(IntegrityAlgorithm::Sha1),
            anonymous_username: Feature::Auto,
            hardened: false,
            software: None,
            fingerprint: false,
            challenge: None,
            integrity: None,
            key: None,
        }
    }

    /// Sets the credentials, replacing any others at once. A stored challenge stays valid. See
    /// `set_next_credentials` for a client whose requests still wait for their responses.
    pub fn set_credentials(&mut self, credentials: LongTermCredentials)
        ensures { self.new ≡ record self.old { account = Some credentials } }
    {
        self.account = Some(credentials);
        self.key = key_of_both(&self.account, &self.challenge);
    }

    /// Sets the credentials that replace the present ones as soon as a challenge is stored, and any
    /// set before for that. Until then the client signs and validates as before, so a response to a
    /// request that is outstanding still validates. It is for passwords that expire: the server
    /// challenges the first request that it no longer accepts, and the client answers under the new
    /// ones.
    pub fn set_next_credentials(&mut self, credentials: LongTermCredentials)
        ensures { self.new ≡ record self.old { next_account = Some credentials } }
    {
        self.next_account = Some(credentials);
    }

    /// Returns the credentials, if they are set.
    pub fn credentials(&self) -> Option<&LongTermCredentials>
        ensures { option_copied result ≡ self.now.account }
    {
        self.account.as_ref()
    }

    /// Returns the realm of the last challenge that was accepted. It is `None` if there was none,
    /// or if no credentials are set.
    pub fn realm(&self) -> Option<&str>
        ensures { option_copied result
            ≡ option_map (λ (s : Standing). s.challenge.realm) (standing_of self.now) }
    {
        match self.standing() {
            Some((_, stored)) => Some(stored.realm()),
            None => None,
        }
    }

    /// Returns the nonce of the last challenge that was accepted; `None` as for `realm`.
    pub fn nonce(&self) -> Option<&str>
        ensures { option_copied result
            ≡ option_map (λ (s : Standing). s.challenge.nonce) (standing_of self.now) }
    {
        match self.standing() {
            Some((_, stored)) => Some(stored.nonce()),
            None => None,
        }
    }

    /// Returns the supported integrity algorithms in the order in which they were added: at least
    /// one, and none twice.
    pub fn supported_integrity(&self) -> &[IntegrityAlgorithm]
        ensures value { result.now ≡ self.now.algorithms }
        ensures never_empty { result.now ≢ [] }
        ensures distinct { IsDistinct is_same_algorithm result.now }
    {
        self.supported.as_slice()
    }

    /// Adds a supported algorithm, as the last one. If it is supported already, nothing changes.
    /// The algorithm chosen for a stored challenge stays.
    pub fn add_supported_integrity(&mut self, algorithm: IntegrityAlgorithm)
        ensures { self.new ≡ record self.old {
          algorithms = with_algorithm self.old.algorithms algorithm;
        } }
    {
        self.supported = self.supported.with(algorithm);
    }

    /// Sets this algorithm as the only supported one. The algorithm chosen for a stored challenge
    /// stays.
    pub fn set_supported_integrity(&mut self, algorithm: IntegrityAlgorithm)
        ensures { self.new ≡ record self.old { algorithms = algorithm ∷ [] } }
    {
        self.supported = SupportedIntegrity::only(algorithm);
    }

    /// Returns the setting for replacing the user's name by its hash (RFC 8489, section 9.2.5).
    pub fn anonymous_username(&self) -> Feature
        ensures { result ≡ self.now.anonymous_username }
    {
        self.anonymous_username
    }

    /// Sets whether the user's name is replaced by its hash:
    ///
    /// - `Auto`: if the nonce announces that the server supports it.
    /// - `Required`: likewise, and a challenge whose nonce does not announce it is refused. A
    ///   challenge that is stored already stays valid.
    /// - `Disabled`: never.
    pub fn set_anonymous_username(&mut self, anonymous_username: Feature)
        ensures { self.new ≡ record self.old { anonymous_username = anonymous_username } }
    {
        self.anonymous_username = anonymous_username;
    }

    /// Returns whether the client is hardened (`set_hardened`).
    pub fn is_hardened(&self) -> bool
        ensures { result ≡ self.now.hardened }
    {
        self.hardened
    }

    /// Sets whether the client is hardened, that is, protects itself against bidding down (RFC 8489,
    /// sections 9.2.1 and 9.2.5). A hardened client refuses a challenge whose nonce announces
    /// password algorithms and that has no well-formed list of them: somebody on the way may have
    /// taken it out. In a list it passes over the algorithms that it doesn't know, and takes the
    /// strongest of the others that it supports. For any other client a list that is absent,
    /// malformed or has an unknown algorithm means that the server supports `Sha1`. A challenge that
    /// is stored already stays valid.
    pub fn set_hardened(&mut self, hardened: bool)
        ensures { self.new ≡ record self.old { hardened = hardened } }
    {
        self.hardened = hardened;
    }

    /// Returns the algorithm chosen for the stored challenge, as the last validation left it. It is
    /// `None` before any validation, and after one that failed with `Unauthorized`.
    pub fn integrity(&self) -> Option<IntegrityAlgorithm>
        ensures { result ≡ self.now.integrity }
    {
        self.integrity
    }

    /// Returns the key of the credentials in the challenge's realm, if both exist.
    pub(crate) fn key(&self) -> Option<&IntegrityKey<'static>>
        ensures { option_copied result ≡ option_map standing_key (standing_of self.now) }
    {
        self.key.as_ref()
    }

    /// Returns the credentials and the stored challenge, if both exist.
    pub(crate) fn standing(&self) -> Option<(&LongTermCredentials, &StoredChallenge)>
        ensures { option_map (λ pair. record { account = pair.0.now; challenge = pair.1.now })
            result
            ≡ standing_of self.now }
    {
        match (&self.account, &self.challenge) {
            (Some(account), Some(stored)) => Some((account, stored)),
            _ => None,
        }
    }
}

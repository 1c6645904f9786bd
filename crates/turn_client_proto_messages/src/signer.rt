//! The client's authenticator, with texts that are short enough to be written.

ghost use Rattle.std.specs.Prelude.{◌≡◌, ◌≢◌, ◌≤◌, [], IfOk, Some, None, true, length};
ghost use Rattle.std.specs.List.{IsDistinct};
ghost use Rattle.stun_proto_auth.specs.SupportedAlgorithms.{is_same_algorithm};
ghost use Rattle.stun_types_wire.specs.Grammar.{number_at, refusal};
ghost use Rattle.turn_client_proto_api.specs.StunProtoAgent.Sending.{is_request};
ghost use Rattle.stun_types_wire.specs.Registry.{longest_username};
ghost use Rattle.turn_client_proto_messages.specs.Answers.{answer_text};
ghost use Rattle.turn_client_proto_messages.specs.Requests.{request_text};
ghost use Rattle.turn_client_proto_messages.specs.Judging.{IsJudged, signer_of};

use crate::answer::{AttemptAnswer, write_answer};
use crate::laws::{proof_requests_are_lawful, proof_requests_are_read, proof_texts_stay_short};
use crate::request::{TurnRequest, write_request};
use std::alloc::Global;
use std::marker::Model;
use stun_proto_client::error::LongTermClientAuthError;
use stun_proto_client::long_term::LongTermClientAuth;
use stun_proto_client::validation::LongTermClientValidation;
use stun_types_auth_attributes::software::Software;
use stun_types_base::memory::NoMemory;
use stun_types_integrity::credentials::LongTermCredentials;
use stun_types_message::parsed::Message;
use stun_types_wire::algorithm::IntegrityAlgorithm;
use stun_types_wire::transaction::TransactionId;
use turn_client_proto_api::config::TurnConfig;

/// The client's side of long-term authentication. Its user name, and the realm, nonce and list of
/// algorithms of the challenge that it remembers, are no longer than their attributes may be, so
/// each request can be signed. Contracts see the record `Client` of `stun_proto`.
#[derive(Debug, Drop)]
pub struct Signer {
    auth: LongTermClientAuth,
}

impl Model for Signer {
    ghost use Rattle.stun_proto_client.specs.Client.{Client};
    ghost use Rattle.turn_client_proto_messages.specs.ShortTexts.{HasShortTexts};

    ghost Value = { Client };

    ghost view = { λ s. s.auth };

    ghost invariant = { λ s. HasShortTexts s.auth };
}

/// Sets the supported algorithms to these, in this order.
fn set_algorithms(auth: &mut LongTermClientAuth, algorithms: &[IntegrityAlgorithm])
    requires never_empty { algorithms.now ≢ [] }
    requires distinct { IsDistinct is_same_algorithm algorithms.now }
    ensures { auth.new ≡ record auth.old { algorithms = algorithms.now } }
{
    if let Some((first, others)) = algorithms.split_first() {
        auth.set_supported_integrity(*first);
        let mut left = others;
        while let Some((algorithm, rest)) = left.split_first() {
            auth.add_supported_integrity(*algorithm);
            left = rest;
        }
    }
}

impl Signer {
    /// Returns the authenticator of a new client with these settings. It has their credentials,
    /// algorithms and settings for anonymous user names and hardening, and remembers no challenge.
    pub fn new(alloc: Global, config: TurnConfig) -> Signer
        requires { length config.credentials.username ≤ longest_username }
        ensures { result ≡ signer_of config }
    {
        proof_texts_stay_short();
        let mut auth = LongTermClientAuth::new(alloc);
        set_algorithms(&mut auth, config.supported_integrity());
        auth.set_anonymous_username(config.anonymous_username());
        auth.set_hardened(config.is_hardened());
        auth.set_credentials(LongTermCredentials::from(config.into_credentials()));
        Signer { auth }
    }

    /// Returns whether the client is hardened (`TurnConfig::set_hardened`).
    pub fn is_hardened(&self) -> bool
        ensures { result ≡ self.now.hardened }
    {
        self.auth.is_hardened()
    }

    /// Sets the SOFTWARE that the client's requests carry from now on, or none (RFC 8489, section
    /// 14.14).
    pub fn set_software(&mut self, software: Option<Software>)
        ensures { self.new ≡ record self.old {
          style = record self.old.style { software = software };
        } }
    {
        if let Some(set) = &software {
            let _text = set.software();
        }
        self.auth.set_software(software);
    }

    /// Sets whether the client's requests end with FINGERPRINT from now on (RFC 8489, section 14.7).
    pub fn set_fingerprint(&mut self, fingerprint: bool)
        ensures { self.new ≡ record self.old {
          style = record self.old.style { fingerprint = fingerprint };
        } }
    {
        self.auth.set_fingerprint(fingerprint);
    }

    /// Sets the credentials that replace the present ones when the next challenge is stored. Until
    /// then requests are signed and responses validated under the present ones.
    pub fn set_next_credentials(&mut self, credentials: LongTermCredentials)
        requires { length credentials.username ≤ longest_username }
        ensures { self.new ≡ record self.old { next_account = Some credentials } }
    {
        self.auth.set_next_credentials(credentials);
    }

    /// Validates a received message, as `LongTermClientAuth::validate_incoming_message` does.
    pub fn validate_incoming_message(
        &mut self,
        message: &Message<'_>,
    ) -> Result<LongTermClientValidation, LongTermClientAuthError>
        ensures { IsJudged self.old message.now result self.new }
    {
        proof_texts_stay_short();
        self.auth.validate_incoming_message(message)
    }

    /// Returns the bytes of a request with this transaction ID, which are a message of class
    /// request. Fails with `NoMemory` if memory runs out.
    pub fn write_request(
        &self,
        alloc: Global,
        transaction_id: TransactionId,
        request: TurnRequest<'_>,
    ) -> Result<Vec<u8>, NoMemory>
        ensures bytes { IfOk result (λ bytes.
            bytes.items ≡ request_text self.now request.entry transaction_id) }
        ensures message { IfOk result (λ bytes. (refusal bytes.items ≡ None)
            × (is_request bytes.items ≡ true) × (number_at bytes.items ≡ transaction_id)) }
    {
        proof_requests_are_lawful(&request);
        proof_requests_are_read();
        write_request(alloc, &self.auth, transaction_id, request)
    }

    /// Returns the bytes of the response to the CONNECTION_ATTEMPT with this transaction ID. Fails
    /// with `NoMemory` if memory runs out.
    pub fn write_answer(
        &self,
        alloc: Global,
        transaction_id: TransactionId,
        answer: AttemptAnswer,
    ) -> Result<Vec<u8>, NoMemory>
        ensures { IfOk result (λ bytes. bytes.items ≡ answer_text self.now answer transaction_id) }
    {
        write_answer(alloc, &self.auth, transaction_id, answer)
    }
}

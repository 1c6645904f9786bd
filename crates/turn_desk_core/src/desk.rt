//! The server core: takes requests, returns replies.

ghost use Rattle.std.specs.Prelude.{◌≡◌, ◌≢◌, ◌↔◌, ◌≤◌, ◌++◌, ◌∷◌, IfOk, IfSome, OnErr, IsSome, None, Some, MatchOption, MatchResult, [], ℕ, List, false, true};
ghost use Rattle.std.specs.Borrow.{sem};
ghost use Rattle.std.specs.declared.net.socket_addr.SocketAddr.{SocketAddr};
ghost use Rattle.stun_types_base.specs.GeneratorWords.{stream_after};
ghost use Rattle.stun_types_wire.specs.Attributes.{Attr};
ghost use Rattle.stun_types_wire.specs.Grammar.{number_at};
ghost use Rattle.stun_types_wire.specs.declared.algorithm.IntegrityAlgorithm.{IntegrityAlgorithm};
ghost use Rattle.stun_types_write.specs.Adding.{IsStarted};
ghost use Rattle.stun_types_write.specs.Lent.{own_draft};
ghost use Rattle.stun_types_add.specs.Integrity.Signing.{signing_refusal};
ghost use Rattle.stun_types_write.specs.ValueReading.{utf8_refusal};
ghost use Rattle.stun_types_wire.specs.Registry.{greatest_code, least_code};
ghost use Rattle.stun_proto_verify.specs.Judgement.{is_response};
ghost use Rattle.stun_proto_server.specs.Server.{SameFor, makes_room, nonce_at, outcome_at, words_generated};
ghost use Rattle.turn_desk_core.specs.Replies.{IsReply};
ghost use Rattle.turn_desk_core.specs.declared.grant.Grant.{Grant as Granted};
ghost use Rattle.turn_desk_core.specs.AuthLending.{LendsAuth};
ghost use Rattle.turn_desk_core.specs.Requests.{IsServed};
ghost use Rattle.turn_desk_core.specs.Steps.{FitsChallenge, IsAnswer, IsAuthAfter, IsGranted, IsSignedFor, IsTurnedReply, challenge_attributes, key_at, refusal_attributes, unvalidated_party};
ghost use Rattle.turn_desk_core.specs.Verdicts.{grants_of, reply_attributes, reply_type, verdict_on};

use crate::decision::Decision;
use crate::failure::failure;
use crate::grant::Grant;
use crate::reply::{granted_to, reply_to};
use crate::request::is_served;
use crate::verdict::verdict_on;
use rand_core::Rng;
use std::alloc::Global;
use std::marker::Model;
use std::net::SocketAddr;
use stun_proto_server::long_term::LongTermServerAuth;
use stun_proto_verify::error::LongTermServerAuthError;
use stun_types_attributes::error_code::ErrorCode;
use stun_types_base::instant::Instant;
use stun_types_base::list::ListOf;
use stun_types_base::memory::NoMemory;
use stun_types_message::parsed::Message;
use stun_types_write::reading::proof_text_is_read;
use stun_types_write::vec::MessageWriteVec;
use stun_types_write::writer::MessageWrite;

/// Proof only: a text, if there is one, is UTF-8.
fn found_is_read(found: Option<&str>)
    ensures { IfSome found.entry (λ text. utf8_refusal text.now ≡ None) }
{
    match found {
        Some(text) => proof_text_is_read(text, text.len()),
        None => {}
    }
}

/// A small server core. Contracts see its authenticator and its grants.
#[derive(Debug, Drop)]
pub struct Desk {
    alloc: Global,
    auth: LongTermServerAuth,
    grants: ListOf<Grant>,
}

impl Model for Desk {
    ghost use Rattle.turn_desk_core.specs.State.{State, state_code};

    ghost Value = { State };

    ghost coded = { state_code };

    ghost view = { λ desk. record { auth = desk.auth; grants = desk.grants } };
}

impl Desk {
    /// Returns a server core with this authenticator and no grants. It stores the allocator, and
    /// has allocated nothing yet.
    pub fn new(alloc: Global, auth: LongTermServerAuth) -> Desk
        ensures auth { result.auth ≡ auth }
        ensures grants { result.grants ≡ [] }
    {
        Desk {
            alloc,
            auth,
            grants: ListOf::new(alloc),
        }
    }

    /// Returns the authenticator for modification.
    pub fn auth_mut(&mut self) -> &mut LongTermServerAuth
        ensures* writes_back { sem 𝓛 (LendsAuth self.entry result) }
        ensures value { result.now ≡ self.old.auth }
    {
        &mut self.auth
    }

    /// Returns all grants, in order.
    pub fn grants(&self) -> &[Grant]
        ensures { result.now ≡ self.now.grants }
    {
        self.grants.as_slice()
    }

    /// Handles bytes that came from an address at time `now`, and returns the reply, if there is
    /// one.
    ///
    /// `decision` is the application's decision on the request. `rng` supplies the random words for
    /// a new nonce, if one is due.
    ///
    /// The call returns `None`, and changes nothing, if the bytes are not a message, or are not a
    /// request with one of six methods: ALLOCATE, REFRESH, CREATE_PERMISSION, CHANNEL_BIND, CONNECT
    /// and CONNECTION_BIND.
    ///
    /// # Rejected requests
    ///
    /// The request is validated first (RFC 8489, section 9.2.4). If it is not valid, the reply is
    /// an unsigned error response with the request's transaction ID. Checked in this order:
    ///
    /// 1. 401 with a challenge: the request has no visible integrity attribute.
    /// 2. 400 with ERROR-CODE as the only attribute: it lacks something else that validation needs.
    /// 3. 438 with a challenge: its nonce is not the one that is valid for its address.
    /// 4. 400 with ERROR-CODE as the only attribute: its password algorithms are inconsistent.
    /// 5. 401 with a challenge: it names no user of the server, or its integrity value is wrong.
    ///
    /// A challenge consists of REALM and NONCE, and PASSWORD-ALGORITHMS if the nonce says that
    /// there is a list.
    ///
    /// # Validated requests
    ///
    /// A request that validates as a user's gets a reply that is signed under the key that
    /// validated it. The reply is an error response in these cases, checked in this order:
    ///
    /// 1. 400: an attribute that the method needs is missing or malformed.
    /// 2. The code of `Decision::Refuse`, if it is from 300 to 699; 500 if it is not.
    /// 3. 500: the decision does not fit the method.
    ///
    /// Otherwise the request is granted: the reply is a success response, and `grants` gets one
    /// more entry. Each method needs these attributes and this decision, and gets this success
    /// response:
    ///
    /// - ALLOCATE needs REQUESTED-TRANSPORT of UDP or TCP, and `Allocate` with one address, or two
    ///   of different families. The response has XOR-RELAYED-ADDRESS for each address, LIFETIME and
    ///   XOR-MAPPED-ADDRESS (RFC 8656, section 7.2).
    /// - REFRESH needs no attribute, and `Refresh`. The response has LIFETIME as decided (RFC 8656,
    ///   section 8.2).
    /// - CREATE_PERMISSION needs one or more XOR-PEER-ADDRESS, all well formed, and `Grant`. The
    ///   response has no attributes.
    /// - CHANNEL_BIND needs CHANNEL-NUMBER, with any value, and XOR-PEER-ADDRESS, and `Grant`. The
    ///   response has no attributes.
    /// - CONNECT needs XOR-PEER-ADDRESS, and `Connect`. The response has CONNECTION-ID (RFC 6062,
    ///   section 5.2).
    /// - CONNECTION_BIND needs CONNECTION-ID, and `Grant`. The response has no attributes.
    ///
    /// Attributes of a response are listed without its integrity attribute. Of the attributes that
    /// a method needs, only the first visible one of each type is read, except for the peers of a
    /// CREATE_PERMISSION.
    ///
    /// # Errors
    ///
    /// - `NoMemory`: an allocation failed; signing fails for no other reason. Nothing was granted.
    ///   The authenticator is unchanged, or as validation left it.
    pub fn handle<R: Rng>(
        &mut self,
        bytes: &[u8],
        from: SocketAddr,
        now: Instant,
        decision: &Decision,
        rng: &mut R,
    ) -> Result<Option<Vec<u8>>, NoMemory>
        // The result is `None` exactly if the bytes are not a request that is served.
        ensures none { IfOk result (λ answer.
            MatchOption answer (¬ IsServed bytes.now) (λ _. IsServed bytes.now)) }
        // Fixes the reply, the grants and the authenticator's new state.
        ensures answer { IfOk result (λ answer. MatchOption answer (self.new ≡ self.old)
            (λ reply. IsAnswer self.old from bytes.now now (R.stream rng.old) decision.now
            reply.items self.new)) }
        // A grant is added exactly if the reply grants it.
        ensures grants { IfOk result (λ answer. MatchOption answer
            (self.new.grants ≡ self.old.grants)
            (λ reply. (g : Granted) → (self.new.grants ≡ self.old.grants ++ g ∷ [])
            ↔ IsGranted self.old from bytes.now now (R.stream rng.old) decision.now
            reply.items g)) }
        // Only a request that is served can run out of memory.
        ensures memory { OnErr result (IsServed bytes.now × (self.new.grants ≡ self.old.grants)
            × IsAuthAfter self.old.auth from bytes.now now (R.stream rng.old) self.new.auth) }
        // Random words are generated only for a request that is served, and only if a nonce is due.
        ensures stream { MatchResult result
            (λ answer. MatchOption answer (R.stream rng.new ≡ R.stream rng.old)
            (λ _. R.stream rng.new
            ≡ stream_after (words_generated self.old.auth from now) (R.stream rng.old)))
            (λ _. R.stream rng.new
            ≡ stream_after (words_generated self.old.auth from now) (R.stream rng.old)) }
        // For other addresses the authenticator stays as it was, if it makes no room.
        ensures others { (other : SocketAddr) → other ≢ from
            → makes_room self.old.auth from ≡ false
            → SameFor other self.old.auth self.new.auth }
    {
        let Ok(request) = Message::from_bytes(bytes) else {
            return Ok(None);
        };
        if !is_served(&request) {
            return Ok(None);
        }
        match self
            .auth
            .validate_incoming_message(&request, from, now, rng)
        {
            Ok(_) => {
                let reply = self.answer(&request, from, decision)?;
                Ok(Some(reply))
            }
            Err(LongTermServerAuthError::NoMemory) => Err(NoMemory),
            Err(error) => {
                let reply = self.refuse_unauthenticated(&request, from, error)?;
                Ok(Some(reply))
            }
        }
    }

    /// Returns the reply to a request that failed validation: an error response with ERROR-CODE 400
    /// alone to a malformed request, otherwise a challenge. The authenticator stores a nonce for
    /// the address, and no user.
    ///
    /// # Errors
    ///
    /// - `NoMemory`: an allocation failed.
    fn refuse_unauthenticated(
        &self,
        request: &Message,
        from: SocketAddr,
        error: LongTermServerAuthError,
    ) -> Result<Vec<u8>, NoMemory>
        requires request { IsServed request.now }
        requires nonce { IsSome (nonce_at self.now.auth from) }
        requires unvalidated { outcome_at self.now.auth from ≡ None }
        ensures { IfOk result (λ reply. IsTurnedReply self.now.auth from request.now
            (refusal_attributes error) reply.items) }
    {
        match error {
            LongTermServerAuthError::BadRequest => {
                self.has_room(from);
                let reply = failure(self.alloc, request, ErrorCode::BAD_REQUEST)?;
                Ok(reply.finish())
            }
            LongTermServerAuthError::StaleNonce => {
                self.challenge(request, from, ErrorCode::STALE_NONCE)
            }
            _ => self.challenge(request, from, ErrorCode::UNAUTHORIZED),
        }
    }

    /// Returns the error response with this code to a request, with the challenge that the
    /// authenticator adds: REALM, NONCE, and PASSWORD-ALGORITHMS if the nonce says that there is a
    /// list (RFC 8489, section 9.2.4). The authenticator stores a nonce for the address, and no
    /// user.
    ///
    /// # Errors
    ///
    /// - `NoMemory`: an allocation failed.
    fn challenge(&self, request: &Message, from: SocketAddr, code: u16) -> Result<Vec<u8>, NoMemory>
        requires request { IsServed request.now }
        requires least { least_code ≤ code }
        requires most { code ≤ greatest_code }
        requires nonce { IsSome (nonce_at self.now.auth from) }
        requires unvalidated { outcome_at self.now.auth from ≡ None }
        ensures { IfOk result (λ reply. IsTurnedReply self.now.auth from request.now
            (challenge_attributes code) reply.items) }
    {
        self.has_room(from);
        let reply = failure(self.alloc, request, code)?;
        let challenge = self.auth.sign_outgoing_message_unchecked(reply, from)?;
        Ok(challenge.finish())
    }

    /// Proof only: the attributes of a challenge fit into the message and can be read back. The
    /// realm and the nonce are short UTF-8 texts, and the list of algorithms is short and not
    /// empty.
    fn has_room(&self, from: SocketAddr)
        ensures { (nonce : List ℕ) → nonce_at self.now.auth from ≡ Some nonce
            → FitsChallenge (unvalidated_party self.now.auth nonce) }
    {
        let realm = self.auth.realm();
        proof_text_is_read(realm, realm.len());
        let nonce = self.auth.nonce_for_client(from);
        found_is_read(nonce);
        let _ = self.auth.supported_integrity();
    }

    /// Returns the signed reply to a validated request, and stores what it grants.
    ///
    /// # Errors
    ///
    /// - `NoMemory`: an allocation failed. Nothing was granted.
    fn answer(
        &mut self,
        request: &Message,
        from: SocketAddr,
        decision: &Decision,
    ) -> Result<Vec<u8>, NoMemory>
        requires request { IsServed request.now }
        requires validated { IsSome (key_at self.old.auth from) }
        ensures reply { IfOk result (λ reply. IsSignedFor self.old.auth from
            (reply_type request.now (verdict_on request.now decision.now))
            (number_at request.now)
            (reply_attributes request.now from (verdict_on request.now decision.now))
            reply.items) }
        ensures granted { IfOk result (λ _. self.new ≡ record self.old {
          grants = self.old.grants
              ++ grants_of request.now from (verdict_on request.now decision.now);
        }) }
        ensures err { OnErr result (self.new ≡ self.old) }
    {
        let what = verdict_on(self.alloc, request, decision)?;
        let reply = reply_to(self.alloc, request, from, &what)?;
        let reply = self.sign(reply, from)?;
        if let Some(grant) = granted_to(self.alloc, request, from, what)? {
            self.grants.push(grant)?;
        }
        Ok(reply)
    }

    /// Signs a reply to an address under the key of the user who validated the last message from
    /// there.
    ///
    /// # Errors
    ///
    /// - `NoMemory`: an allocation failed.
    fn sign(&self, reply: MessageWriteVec, from: SocketAddr) -> Result<Vec<u8>, NoMemory>
        requires response { is_response (own_draft reply).bytes ≡ true }
        requires started { IsStarted (own_draft reply).bytes }
        requires signable { (algorithm : IntegrityAlgorithm)
            → signing_refusal (own_draft reply) algorithm algorithm ≡ None }
        requires validated { IsSome (key_at self.now.auth from) }
        ensures { IfOk result (λ signed. (kind number : ℕ) (attributes : List Attr)
            → IsReply kind number attributes (own_draft reply)
            → IsSignedFor self.now.auth from kind number attributes signed.items) }
    {
        let signed = self.auth.sign_outgoing_message_unchecked(reply, from)?;
        Ok(signed.finish())
    }
}

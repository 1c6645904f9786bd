//! Validation of received messages, and the state that it leaves.

ghost use Rattle.std.specs.Prelude.{◌≡◌, ◌≢◌, ℕ, List, None, IfOk, IfErr, MatchResult, false};
ghost use Rattle.std.specs.declared.net.socket_addr.SocketAddr.{SocketAddr};
ghost use Rattle.stun_proto_verify.specs.Wire.declared.algorithm.IntegrityAlgorithm.{IntegrityAlgorithm as Algorithm};
ghost use Rattle.stun_proto_verify.specs.Base.GeneratorWords.{stream_after};
ghost use Rattle.stun_proto_verify.specs.Auth.Claims.{claimed};
ghost use Rattle.stun_proto_verify.specs.Judgement.{is_response};
ghost use Rattle.stun_proto_server.specs.Server.{SameFor, makes_room, refreshed, with_outcome};
ghost use Rattle.stun_proto_server.specs.ServerValidation.{Accepts, AcceptsSome, IsAfterNoMemory};
ghost use Rattle.stun_proto_server.specs.ServerValidation.{IsValidated, Refuses, WantsMemory};
ghost use Rattle.stun_proto_server.specs.ServerValidation.{after_refusal, words_of_validation};
ghost use Rattle.stun_proto_server.specs.Users.{NamesOne};

use crate::long_term::LongTermServerAuth;
use crate::stun_proto_auth::claim::Claim;
use crate::stun_types_base::instant::Instant;
use crate::stun_types_message::parsed::Message;
use crate::stun_types_wire::algorithm::IntegrityAlgorithm;
use rand_core::Rng;
use std::net::SocketAddr;
use stun_proto_verify::error::LongTermServerAuthError;
use stun_proto_verify::judgement::{judge_claim, judge_user};
use stun_proto_verify::known::Known;
use stun_proto_verify::user::ValidatedUser;

/// The result for a message that a server accepts.
#[derive(Clone, Copy, Debug, PartialEq, Eq)]
pub enum LongTermServerValidation {
    /// The message is one of a user's, by its integrity attribute of this algorithm.
    Validated(IntegrityAlgorithm),
}

impl LongTermServerAuth {
    /// Validates a message from an address, and stores the user and the algorithm for that address.
    /// First, unless the message is a response, it generates a nonce for the address if no valid
    /// one is stored, as `refresh_nonce` does.
    ///
    /// - Of several visible attributes of one type the last one counts, and a malformed one counts
    ///   as absent.
    /// - USERNAME names the user. Without it, USERHASH does, by the hash of name and realm, unless
    ///   `anonymous_username` is `Disabled`; if several users have that hash, the first by name
    ///   counts. Either costs a search among the
    ///   users, and no digest. There is no search for a message that is rejected with errors 1 to
    ///   6.
    ///
    /// # Errors
    ///
    /// 1. `BadRequest`: the message is a response. Nothing changes, and no random word is
    ///    generated.
    /// 2. `NoMemory`: an allocation for a new nonce failed. The server is unchanged.
    /// 3. `Unauthorized`: the message has no visible integrity attribute.
    /// 4. `BadRequest`: it has neither a user's name nor the hash of one, no realm, or no nonce. A
    ///    hash counts as absent if `anonymous_username` is `Disabled`.
    /// 5. `StaleNonce`: its nonce is not the valid one for the address.
    /// 6. `BadRequest`: its password algorithms are inconsistent.
    /// 7. `Unauthorized`: it names no user of the server.
    /// 8. `IntegrityFailed`: its last integrity attribute is wrong under the key of that user in
    ///    the server's realm.
    /// 9. `NoMemory`: the message is accepted, but an allocation for the user's name failed. The
    ///    server is unchanged, or it has the new nonce and no outcome for the address.
    ///
    /// After errors 3 to 8 a new nonce stays, and no outcome is stored for the address.
    pub fn validate_incoming_message<R: Rng>(
        &mut self,
        message: &Message<'_>,
        from: SocketAddr,
        now: Instant,
        rng: &mut R,
    ) -> Result<LongTermServerValidation, LongTermServerAuthError>
        ensures valid { IfOk result (λ answer. IsValidated
            (refreshed self.old from now (R.stream rng.old)) from message.now answer self.new) }
        // The premise `NamesOne`: if a hash names the user, no two users have the same hash.
        ensures accepted { (algorithm : Algorithm) (name : List ℕ)
            → Accepts (refreshed self.old from now (R.stream rng.old)) from message.now
            algorithm name → NamesOne self.old (claimed message.now)
            → MatchResult result
            (λ answer. answer ≡ LongTermServerValidation.Validated algorithm)
            (λ error. error ≡ LongTermServerAuthError.NoMemory) }
        // A rejected message leaves no outcome for the address, unless it is a response.
        ensures refused { IfErr result (λ error. error ≢ LongTermServerAuthError.NoMemory
            → Refuses (refreshed self.old from now (R.stream rng.old)) from message.now error
            × (self.new ≡ after_refusal self.old from message.now now (R.stream rng.old))) }
        // Memory is needed only for a new nonce, or to store the user of an accepted message.
        ensures memory { IfErr result (λ error. error ≡ LongTermServerAuthError.NoMemory
            → WantsMemory self.old from message.now now (R.stream rng.old)
            × IsAfterNoMemory self.old from now (R.stream rng.old) self.new) }
        ensures stream { R.stream rng.new ≡ stream_after
            (words_of_validation self.old from message.now now) (R.stream rng.old) }
        ensures others { (other : SocketAddr) → other ≢ from → makes_room self.old from ≡ false
            → SameFor other self.old self.new }
    {
        if message.is_response() {
            return Err(LongTermServerAuthError::BadRequest);
        }
        self.refresh_nonce(from, now, rng)?;
        self.validate_request(message, from)
    }

    /// Validates a message that is not a response under the nonce stored for its address, and
    /// stores the outcome. Fails as `validate_incoming_message` does. On `NoMemory` nothing
    /// changes.
    fn validate_request(
        &mut self,
        message: &Message<'_>,
        from: SocketAddr,
    ) -> Result<LongTermServerValidation, LongTermServerAuthError>
        requires { is_response message.now ≡ false }
        ensures valid { IfOk result (λ answer.
            IsValidated self.old from message.now answer self.new) }
        ensures refused { IfErr result (λ error. error ≢ LongTermServerAuthError.NoMemory
            → Refuses self.old from message.now error) }
        ensures forgotten { IfErr result (λ error. error ≢ LongTermServerAuthError.NoMemory
            → self.new ≡ with_outcome self.old from None) }
        ensures memory { IfErr result (λ error. error ≡ LongTermServerAuthError.NoMemory
            → AcceptsSome self.old from message.now × (self.new ≡ self.old)) }
        ensures others { (other : SocketAddr) → other ≢ from → SameFor other self.old self.new }
    {
        match self.judge_sender(message, from) {
            Ok(user) => {
                let algorithm = user.algorithm();
                self.keep_outcome(from, Some(user));
                Ok(LongTermServerValidation::Validated(algorithm))
            }
            Err(LongTermServerAuthError::NoMemory) => Err(LongTermServerAuthError::NoMemory),
            Err(error) => {
                self.keep_outcome(from, None);
                Err(error)
            }
        }
    }

    /// Decides whether a message that is not a response is accepted, from what is stored for its
    /// address. It changes nothing.
    #[tactic(auto, using(crate::proofs::Named::answers))]
    fn judge_sender(
        &self,
        message: &Message<'_>,
        from: SocketAddr,
    ) -> Result<ValidatedUser, LongTermServerAuthError>
        requires { is_response message.now ≡ false }
        ensures valid { IfOk result (λ user.
            Accepts self.now from message.now user.algorithm user.name) }
        ensures refused { IfErr result (λ error. error ≢ LongTermServerAuthError.NoMemory
            → Refuses self.now from message.now error) }
        ensures memory { IfErr result (λ error. error ≡ LongTermServerAuthError.NoMemory
            → AcceptsSome self.now from message.now) }
    {
        let claim = Claim::of(message);
        let (realm, nonce) = (self.realm(), self.nonce_for_client(from));
        let known = Known::new(realm, self.supported(), nonce, None).with_anonymous_username(
            self.anonymous_username(),
        );
        let algorithm = judge_claim(&claim, &known)?;
        // The user is searched for only once nothing else stands against the message.
        let known_user = known.with_user(self.user_claimed(&claim));
        judge_user(self.alloc(), message, algorithm, &known_user)
    }
}

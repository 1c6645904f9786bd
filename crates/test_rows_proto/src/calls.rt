//! One call per function, as a step of a run.

ghost use Rattle.std.specs.Prelude.{◌≡◌, ◌≢◌, ◌≤◌, ◌*◌, IfSome, MatchResult, OnOk};
ghost use Rattle.std.specs.Duration.{as_nanos};
ghost use Rattle.std.specs.Option.{option_copied};
ghost use Rattle.stun_types_write.specs.Adding.{IsStarted};
ghost use Rattle.stun_types_wire.specs.declared.error.StunWriteError.TheVariants as write;
ghost use Rattle.stun_proto_server.specs.AuthCalls.{IsCalled};
ghost use Rattle.stun_proto_server.specs.AuthCalls as call;
ghost use Rattle.stun_proto_verify.specs.declared.error.LongTermServerAuthError.TheVariants as refusal;

use rand_core::Rng;
use std::net::SocketAddr;
use std::time::Duration;
use stun_proto_auth::feature::Feature;
use stun_proto_server::long_term::{LongTermServerAuth, MIN_NONCE_EXPIRY};
use stun_proto_server::validation::LongTermServerValidation;
use stun_proto_verify::error::LongTermServerAuthError;
use stun_proto_verify::user::ValidatedUser;
use stun_types_base::instant::Instant;
use stun_types_base::memory::NoMemory;
use stun_types_integrity::credentials::LongTermCredentials;
use stun_types_message::parsed::Message;
use stun_types_wire::algorithm::IntegrityAlgorithm;
use stun_types_wire::error::StunWriteError;
use stun_types_write::writer::MessageWrite;

/// Calls `validate_incoming_message`.
pub fn validate<R: Rng>(
    server: &mut LongTermServerAuth,
    message: &Message<'_>,
    from: SocketAddr,
    now: Instant,
    rng: &mut R,
) -> Result<LongTermServerValidation, LongTermServerAuthError>
    ensures { MatchResult result
        (λ how. IsCalled (call.Validate message.now from now (R.stream rng.old))
        (call.Valid how (R.stream rng.new)) server.old server.new)
        (λ error. error ≢ refusal.NoMemory
        → IsCalled (call.Validate message.now from now (R.stream rng.old))
        (call.Refused error (R.stream rng.new)) server.old server.new) }
{
    server.validate_incoming_message(message, from, now, rng)
}

/// Calls `sign_outgoing_message`.
pub fn sign<W: MessageWrite + Drop>(
    server: &LongTermServerAuth,
    writer: W,
    to: SocketAddr,
) -> Result<W, StunWriteError>
    requires { IsStarted (W.draft writer).bytes }
    ensures { MatchResult result
        (λ signed. IsCalled (call.Sign (W.draft writer) to) (call.Signed (W.draft signed))
        server.now server.now)
        (λ error. error ≢ write.NoMemory
        → IsCalled (call.Sign (W.draft writer) to) (call.NotSigned error)
        server.now server.now) }
{
    server.sign_outgoing_message(writer, to)
}

/// Calls `message_signature_bytes`.
pub fn size(server: &LongTermServerAuth, to: SocketAddr, is_request: bool) -> usize
    ensures { IsCalled (call.SizeRequested to is_request) (call.Size result) server.now server.now }
{
    server.message_signature_bytes(to, is_request)
}

/// Calls `nonce_for_client`.
pub fn nonce(server: &LongTermServerAuth, client: SocketAddr) -> Option<&str>
    ensures { IsCalled (call.NonceRequested client) (call.Nonce (option_copied result))
        server.now server.now }
{
    server.nonce_for_client(client)
}

/// Calls `validated_user`.
pub fn user(server: &LongTermServerAuth, client: SocketAddr) -> Option<&ValidatedUser>
    ensures { IsCalled (call.UserRequested client) (call.User (option_copied result))
        server.now server.now }
{
    server.validated_user(client)
}

/// Calls `refresh_nonce`.
pub fn refresh<R: Rng>(
    server: &mut LongTermServerAuth,
    from: SocketAddr,
    now: Instant,
    rng: &mut R,
) -> Result<(), NoMemory>
    ensures { OnOk result (IsCalled (call.Refresh from now (R.stream rng.old))
        (call.Refreshed (R.stream rng.new)) server.old server.new) }
{
    server.refresh_nonce(from, now, rng)
}

/// Calls `remove_client`.
pub fn remove_client(server: &mut LongTermServerAuth, client: SocketAddr)
    ensures { IsCalled (call.RemoveClient client) call.Done server.old server.new }
{
    server.remove_client(client);
}

/// Calls `realm`.
pub fn realm(server: &LongTermServerAuth) -> &str
    ensures { IsCalled call.RealmRequested (call.Realm result.now) server.now server.now }
{
    server.realm()
}

/// Calls `add_user`.
pub fn add_user(server: &mut LongTermServerAuth, user: LongTermCredentials) -> Result<(), NoMemory>
    ensures { OnOk result (IsCalled (call.AddUser user.username user.password) call.Done
        server.old server.new) }
{
    server.add_user(user)
}

/// Calls `remove_user`.
pub fn remove_user(server: &mut LongTermServerAuth, user: &str)
    ensures { IsCalled (call.RemoveUser user.now) call.Done server.old server.new }
{
    server.remove_user(user);
}

/// Calls `supported_integrity`.
pub fn algorithms(server: &LongTermServerAuth) -> &[IntegrityAlgorithm]
    ensures { IsCalled call.AlgorithmsRequested (call.Algorithms result.now) server.now server.now }
{
    server.supported_integrity()
}

/// Calls `add_supported_integrity`.
pub fn add_algorithm(server: &mut LongTermServerAuth, algorithm: IntegrityAlgorithm)
    ensures { IsCalled (call.AddAlgorithm algorithm) call.Done server.old server.new }
{
    server.add_supported_integrity(algorithm);
}

/// Calls `set_supported_integrity`.
pub fn set_algorithm(server: &mut LongTermServerAuth, algorithm: IntegrityAlgorithm)
    ensures { IsCalled (call.SetAlgorithm algorithm) call.Done server.old server.new }
{
    server.set_supported_integrity(algorithm);
}

/// Calls `anonymous_username`.
pub fn anonymity(server: &LongTermServerAuth) -> Feature
    ensures { IsCalled call.AnonymityRequested (call.Anonymity result) server.now server.now }
{
    server.anonymous_username()
}

/// Calls `set_anonymous_username`.
pub fn set_anonymity(server: &mut LongTermServerAuth, feature: Feature)
    ensures { IsCalled (call.SetAnonymity feature) call.Done server.old server.new }
{
    server.set_anonymous_username(feature);
}

/// Calls `set_nonce_expiry_duration`.
pub fn set_expiry(server: &mut LongTermServerAuth, duration: Duration)
    requires { MIN_NONCE_EXPIRY * 1_000_000_000 ≤ as_nanos duration }
    ensures { IsCalled (call.SetExpiry (as_nanos duration)) call.Done server.old server.new }
{
    server.set_nonce_expiry_duration(duration);
}

/// Calls `max_clients`.
pub fn limit(server: &LongTermServerAuth) -> Option<usize>
    ensures { IsCalled call.LimitRequested (call.Limit result) server.now server.now }
{
    server.max_clients()
}

/// Calls `set_max_clients`.
pub fn set_limit(server: &mut LongTermServerAuth, most: Option<usize>)
    requires { IfSome most (λ most. 1 ≤ most) }
    ensures { IsCalled (call.SetLimit most) call.Done server.old server.new }
{
    server.set_max_clients(most);
}

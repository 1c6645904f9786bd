//! The server's side of long-term credentials: its users, and a nonce for each client address.

ghost use Rattle.std.specs.Prelude.{◌≡◌, ◌≢◌, ◌*◌, ◌≤◌, nat_lt, length, [], ◌∷◌, false, None, Ok};
ghost use Rattle.std.specs.Prelude.{Some, IfOk, IfSome, OnOk, OnErr, MatchOption, IsTrue};
ghost use Rattle.std.specs.BTreeMap as tree;
ghost use Rattle.std.specs.Duration.{as_nanos};
ghost use Rattle.std.specs.FinMap as map;
ghost use Rattle.std.specs.List.{IsDistinct};
ghost use Rattle.std.specs.Option.{option_copied, option_map};
ghost use Rattle.std.specs.String.{string_bytes};
ghost use Rattle.std.specs.declared.net.socket_addr.SocketAddr.{SocketAddr};
ghost use Rattle.stun_proto_verify.specs.Base.Times.{time_after};
ghost use Rattle.stun_proto_verify.specs.Auth.SupportedAlgorithms.{is_same_algorithm};
ghost use Rattle.stun_proto_verify.specs.Auth.SupportedAlgorithms.{with_algorithm};
ghost use Rattle.stun_proto_verify.specs.Base.SocketAddrs.{socket_addr_cmp};
ghost use Rattle.stun_proto_verify.specs.Base.GeneratorWords.{stream_after};
ghost use Rattle.stun_proto_verify.specs.Wire.Registry.{longest_text};
ghost use Rattle.stun_proto_verify.specs.Wire.declared.algorithm.IntegrityAlgorithm.TheVariants.{Sha1};
ghost use Rattle.stun_proto_verify.specs.Auth.declared.feature.Feature.TheVariants.{Auto};
ghost use Rattle.stun_proto_server.specs.Server.{nonce_at, has_standing_nonce, outcome_at};
ghost use Rattle.stun_proto_server.specs.Server.{words_generated, with_new_nonce, with_outcome};
ghost use Rattle.stun_proto_server.specs.Server.{makes_room, refreshed, SameFor};
ghost use Rattle.stun_proto_server.specs.StoredKeys.{HasKeys, IsKeyed};
ghost use Rattle.stun_proto_server.specs.Users.{IsFound, IsFoundBy};
ghost use Rattle.stun_proto_verify.specs.AuthAttributes.Userhashes.{userhash_of};

use crate::room::put_within;
use crate::stun_proto_auth::claim::Claim;
use crate::stun_proto_auth::feature::Feature;
use crate::stun_proto_auth::nonce::{NONCE_WORDS, NonceFeatures, ServerNonce, write_nonce};
use crate::stun_proto_auth::supported::SupportedIntegrity;
use crate::stun_types_auth_attributes::userhash::Userhash;
use crate::stun_types_base::instant::Instant;
use crate::stun_types_base::memory::NoMemory;
use crate::stun_types_base::words::draw_words;
use crate::stun_types_integrity::credentials::LongTermCredentials;
use crate::stun_types_wire::algorithm::IntegrityAlgorithm;
use crate::users::{KeyedUser, Users};
use rand_core::Rng;
use std::alloc::Global;
use std::collections::BTreeMap;
use std::marker::Model;
use std::net::SocketAddr;
use std::time::Duration;
use stun_proto_verify::keys::UserKeys;
use stun_proto_verify::known::NamedUser;
use stun_proto_verify::user::ValidatedUser;

/// The shortest allowed lifetime of a nonce, in seconds.
pub const MIN_NONCE_EXPIRY: u64 = 30;

/// What a server stores for one client address.
#[derive(Debug, Drop)]
pub(crate) struct ClientRecord {
    pub(crate) nonce: ServerNonce,
    pub(crate) generated: Instant,
    pub(crate) outcome: Option<ValidatedUser>,
}

/// The server's side of long-term authentication: a realm, its users, and a record for each client
/// address, which calls for other addresses do not touch. With each user it stores the user's keys
/// in the realm, one for each algorithm, and the hash of the user's name. The realm is at most 763
/// bytes long, and so is a nonce (RFC 8489, sections 14.9 and 14.10). Contracts see the record
/// `Server` of `specs/Server.antt`.
#[derive(Debug, Drop)]
pub struct LongTermServerAuth {
    alloc: Global,
    realm: String,
    users: Users,
    clients: BTreeMap<SocketAddr, ClientRecord>,
    nonce_expiry: Duration,
    supported: SupportedIntegrity,
    anonymous_username: Feature,
    max_clients: Option<usize>,
}

impl Model for LongTermServerAuth {
    ghost use Rattle.stun_proto_server.specs.Server.{Server, server_code};

    ghost Value = { Server };

    ghost coded = { server_code };

    ghost use Rattle.stun_proto_server.specs.View.{server_of};

    ghost view = { server_of };

    ghost use Rattle.std.specs.Prelude.{◌≤◌, length};
    ghost use Rattle.std.specs.String.{string_bytes};
    ghost use Rattle.stun_proto_verify.specs.Wire.Registry.{longest_text};
    ghost use Rattle.stun_proto_server.specs.StoredKeys.{AllHaveKeys};
    ghost use Rattle.stun_proto_server.specs.StoredUsers.{IsSound};

    ghost invariant = { λ server. (length (string_bytes server.realm) ≤ longest_text)
        × AllHaveKeys (string_bytes server.realm) server.users.by_name
        × IsSound server.users };
}

impl LongTermServerAuth {
    /// Creates a server for a realm, without users. It supports only `Sha1`, accepts hashed names,
    /// its nonces are valid for an hour, and for how many addresses it stores something is not
    /// limited. The realm is at most 763 bytes long (RFC 8489, section
    /// 14.9). The server stores the allocator, and has allocated nothing of its own yet.
    pub fn new(alloc: Global, realm: String) -> Self
        requires { length (string_bytes realm) ≤ longest_text }
        ensures { result ≡ record {
          realm = string_bytes realm;
          users = map.empty;
          clients = map.empty;
          nonce_expiry = 3_600_000_000_000;
          algorithms = Sha1 ∷ [];
          anonymous_username = Auto;
          max_clients = None;
        } }
    {
        LongTermServerAuth {
            alloc,
            realm,
            users: Users::new(alloc),
            clients: BTreeMap::new(alloc),
            nonce_expiry: Duration::from_secs(3600),
            supported: SupportedIntegrity::only(IntegrityAlgorithm::Sha1),
            anonymous_username: Feature::Auto,
            max_clients: None,
        }
    }

    /// Returns the realm.
    pub fn realm(&self) -> &str
        ensures value { result.now ≡ self.now.realm }
        ensures short { length result.now ≤ longest_text }
    {
        self.realm.as_str()
    }

    /// Adds a user with its keys and the hash of its name, replacing any user of that name.
    ///
    /// # Errors
    ///
    /// - `NoMemory`: an allocation failed. Nothing changes.
    pub fn add_user(&mut self, user: LongTermCredentials) -> Result<(), NoMemory>
        ensures ok { OnOk result
            (self.new ≡ record self.old {
              users = map.insert self.old.users user.username user.password;
            }) }
        ensures err { OnErr result (self.new ≡ self.old) }
    {
        let name = String::from_str(self.alloc, user.username())?;
        let keyed = self.keyed(user)?;
        self.users.insert(self.alloc, name, keyed)?;
        Ok(())
    }

    /// Derives a user's keys and hash in the realm. Fails with `NoMemory` if an allocation fails.
    fn keyed(&self, user: LongTermCredentials) -> Result<KeyedUser, NoMemory>
        ensures { IfOk result (λ keyed. (keyed.credentials ≡ user)
            × IsKeyed self.now.realm user.username keyed) }
    {
        let keys = UserKeys::new(user.username(), self.realm(), user.password());
        let hash = Userhash::new(Userhash::compute(user.username(), self.realm()));
        Ok(KeyedUser {
            credentials: user,
            keys: Box::new(self.alloc, keys)?,
            hash,
        })
    }

    /// Removes the user of this name, if there is one. What is stored for addresses stays, but a
    /// message to an address that was validated as this user's is no longer signed.
    pub fn remove_user(&mut self, user: &str)
        ensures { self.new ≡ record self.old { users = map.remove self.old.users user.now } }
    {
        self.users.remove(user);
    }

    /// Returns the supported integrity algorithms in the order in which they were added: at least
    /// one, and none twice.
    pub fn supported_integrity(&self) -> &[IntegrityAlgorithm]
        ensures value { result.now ≡ self.now.algorithms }
        ensures never_empty { result.now ≢ [] }
        ensures distinct { IsDistinct is_same_algorithm result.now }
    {
        self.supported.as_slice()
    }

    /// Adds a supported integrity algorithm, as the last one. If it is supported already, nothing
    /// changes.
    pub fn add_supported_integrity(&mut self, algorithm: IntegrityAlgorithm)
        ensures { self.new
            ≡ record self.old { algorithms = with_algorithm self.old.algorithms algorithm } }
    {
        self.supported = self.supported.with(algorithm);
    }

    /// Sets this integrity algorithm as the only supported one.
    pub fn set_supported_integrity(&mut self, algorithm: IntegrityAlgorithm)
        ensures { self.new ≡ record self.old { algorithms = algorithm ∷ [] } }
    {
        self.supported = SupportedIntegrity::only(algorithm);
    }

    /// Returns whether clients may send a hash of the user's name in its place.
    pub fn anonymous_username(&self) -> Feature
        ensures { result ≡ self.now.anonymous_username }
    {
        self.anonymous_username
    }

    /// Sets whether clients may send a hash of the user's name in its place (RFC 8489, section
    /// 9.2.4). `Required` has the same effect as `Auto`. With `Disabled` later nonces do not
    /// announce the feature, and a message that names its user only by a hash is rejected with
    /// `BadRequest`, also under a nonce that announced the feature.
    pub fn set_anonymous_username(&mut self, feature: Feature)
        ensures { self.new ≡ record self.old { anonymous_username = feature } }
    {
        self.anonymous_username = feature;
    }

    /// Returns for how many addresses something is stored at most; `None` means any number.
    pub fn max_clients(&self) -> Option<usize>
        ensures { result ≡ self.now.max_clients }
    {
        self.max_clients
    }

    /// Limits for how many addresses something is stored; `None` means any number. The limit has to
    /// be at least 1. It is checked when a nonce is generated for an address for which nothing is
    /// stored: if the limit is reached, everything is removed that is stored for addresses whose
    /// last message was not validated and, if more than half of the limit are left, for all others
    /// too. An address for which this is removed gets a new nonce with its next message.
    pub fn set_max_clients(&mut self, most: Option<usize>)
        requires { IfSome most (λ most. 1 ≤ most) }
        ensures { self.new ≡ record self.old { max_clients = most } }
    {
        self.max_clients = most;
    }

    /// Sets how long a nonce is valid; it applies to nonces that are stored already too. The
    /// duration has to be at least `MIN_NONCE_EXPIRY` seconds.
    pub fn set_nonce_expiry_duration(&mut self, duration: Duration)
        requires { MIN_NONCE_EXPIRY * 1_000_000_000 ≤ as_nanos duration }
        ensures { self.new ≡ record self.old { nonce_expiry = as_nanos duration } }
    {
        self.nonce_expiry = duration;
    }

    /// Returns the nonce that is stored for a client, valid or expired, or `None` if there is none.
    pub fn nonce_for_client(&self, client: SocketAddr) -> Option<&str>
        ensures value { option_copied result ≡ nonce_at self.now client }
        ensures short { IfSome result (λ nonce. length nonce.now ≤ longest_text) }
    {
        match stored_for(&self.clients, client) {
            Some(stored) => Some(stored.nonce.as_str()),
            None => None,
        }
    }

    /// Removes what is stored for a client. If nothing is, nothing changes.
    pub fn remove_client(&mut self, client: SocketAddr)
        ensures removed { self.new
            ≡ record self.old { clients = map.remove self.old.clients client } }
        ensures others { (other : SocketAddr) → other ≢ client → SameFor other self.old self.new }
    {
        self.clients.remove(&client);
    }

    /// Generates a nonce for a client if none is stored for it, or if the stored one has expired. A
    /// nonce expires when `now` reaches the time of its generation plus the configured duration.
    /// Otherwise nothing changes, and no random word is generated. Room is made first, as
    /// `set_max_clients` says, if nothing is stored for the client and the limit is reached.
    ///
    /// # Errors
    ///
    /// - `NoMemory`: an allocation failed. Only the generation of a nonce can fail. It takes
    ///   sixteen random words from `rng` before anything is allocated, so they are used up; the
    ///   server is unchanged.
    pub fn refresh_nonce<R: Rng>(
        &mut self,
        from: SocketAddr,
        now: Instant,
        rng: &mut R,
    ) -> Result<(), NoMemory>
        ensures stream { R.stream rng.new ≡ stream_after (words_generated self.old from now)
            (R.stream rng.old) }
        ensures ok { OnOk result (self.new ≡ refreshed self.old from now (R.stream rng.old)) }
        ensures err { OnErr result (self.new ≡ self.old) }
        ensures standing { IsTrue (has_standing_nonce self.old from now) → result ≡ Ok tt }
        ensures others { (other : SocketAddr) → other ≢ from → makes_room self.old from ≡ false
            → SameFor other self.old self.new }
    {
        if self.has_standing_nonce(from, now) {
            return Ok(());
        }
        self.draw_nonce(from, now, rng)
    }

    /// Returns whether the nonce that is stored for a client is valid at `now`.
    fn has_standing_nonce(&self, client: SocketAddr, now: Instant) -> bool
        ensures { result ≡ has_standing_nonce self.now client now }
    {
        match stored_for(&self.clients, client) {
            Some(stored) => occurs(stored.generated, self.nonce_expiry, now),
            None => false,
        }
    }

    /// Generates a nonce for a client, replacing any stored one.
    fn draw_nonce<R: Rng>(
        &mut self,
        from: SocketAddr,
        now: Instant,
        rng: &mut R,
    ) -> Result<(), NoMemory>
        ensures stream { R.stream rng.new ≡ stream_after NONCE_WORDS (R.stream rng.old) }
        ensures ok { OnOk result (self.new ≡ with_new_nonce self.old from now (R.stream rng.old)) }
        ensures err { OnErr result (self.new ≡ self.old) }
        ensures others { (other : SocketAddr) → other ≢ from → makes_room self.old from ≡ false
            → SameFor other self.old self.new }
    {
        let words: [u32; NONCE_WORDS] = draw_words(rng);
        let features = NonceFeatures::offered(self.supported, self.anonymous_username);
        let nonce = write_nonce(self.alloc, features, &words)?;
        let stored = ClientRecord {
            nonce,
            generated: now,
            outcome: None,
        };
        put_within(&mut self.clients, self.max_clients, from, stored)?;
        Ok(())
    }

    /// Returns the user for whom the last message from a client was validated. It is `None` if the
    /// message was rejected, or if a new nonce was generated for the client since. Responses do not
    /// count, since they are rejected without effect; neither do messages that failed with
    /// `NoMemory`.
    pub fn validated_user(&self, client: SocketAddr) -> Option<&ValidatedUser>
        ensures { option_copied result ≡ outcome_at self.now client }
    {
        match stored_for(&self.clients, client) {
            Some(stored) => stored.outcome.as_ref(),
            None => None,
        }
    }

    /// Stores the outcome of a message from a client for which a nonce is stored: the user if the
    /// message was validated, otherwise `None`.
    pub(crate) fn keep_outcome(&mut self, from: SocketAddr, outcome: Option<ValidatedUser>)
        ensures stored { self.new ≡ with_outcome self.old from outcome }
        ensures others { (other : SocketAddr) → other ≢ from → SameFor other self.old self.new }
    {
        put_outcome(&mut self.clients, from, outcome);
    }

    /// Finds the user that a claim names: the one with the claimed name or, if no name is claimed,
    /// the first one whose name has the claimed hash.
    #[tactic(auto, using(crate::proofs::Naming::none_claimed))]
    pub(crate) fn user_claimed<'a>(&'a self, claim: &'a Claim<'_>) -> Option<NamedUser<'a>>
        ensures { IsFound self.now claim.now result }
    {
        match (claim.username(), claim.user_hash()) {
            (Some(name), _) => self.user_named(name),
            (None, Some(hash)) => self.user_hashed(hash),
            (None, None) => None,
        }
    }

    /// Finds the user with this name.
    #[tactic(auto, using(crate::proofs::Naming::by_name, crate::proofs::Naming::none_by_name))]
    fn user_named<'a>(&'a self, name: &'a str) -> Option<NamedUser<'a>>
        ensures { IsFoundBy self.now (λ other. other ≡ name.now) result }
    {
        match self.user(name) {
            Some(user) => Some(self.named(name, user)),
            None => None,
        }
    }

    /// Finds the first user whose name has this hash in the realm.
    fn user_hashed(&self, hash: &[u8]) -> Option<NamedUser<'_>>
        ensures { IsFoundBy self.now
            (λ other. Some hash.now ≡ Some (userhash_of other self.now.realm)) result }
    {
        match self.users.with_hash(hash) {
            Some((name, user)) => Some(self.named(name, user)),
            None => None,
        }
    }

    /// Returns a user together with its stored keys in the realm.
    fn named<'a>(&'a self, name: &'a str, user: &'a KeyedUser) -> NamedUser<'a>
        requires { HasKeys self.now.realm name.now user.now }
        ensures { result ≡ record { name = name.now; password = user.now.credentials.password } }
    {
        NamedUser::with_keys(name, user.credentials.password(), self.realm(), &user.keys)
    }

    /// Returns the supported algorithms.
    pub(crate) fn supported(&self) -> SupportedIntegrity
        ensures { result ≡ self.now.algorithms }
    {
        self.supported
    }

    /// Finds the stored record of the user with this name.
    pub(crate) fn user(&self, name: &str) -> Option<&KeyedUser>
        ensures password { option_map (λ user. user.now.credentials.password) result
            ≡ map.get self.now.users name.now }
        ensures keys { IfSome result (λ user. HasKeys self.now.realm name.now user.now) }
    {
        self.users.get(name)
    }

    /// Returns the stored allocator.
    pub(crate) fn alloc(&self) -> Global {
        self.alloc
    }
}

/// Returns what is stored for a client, if anything.
fn stored_for(
    clients: &BTreeMap<SocketAddr, ClientRecord>,
    client: SocketAddr,
) -> Option<&ClientRecord>
    ensures { option_copied result ≡ tree.get socket_addr_cmp clients.now client }
{
    clients.get(&client)
}

/// Stores an outcome for a client. If nothing is stored for the client, nothing changes.
fn put_outcome(
    clients: &mut BTreeMap<SocketAddr, ClientRecord>,
    client: SocketAddr,
    outcome: Option<ValidatedUser>,
)
    ensures { MatchOption (tree.get socket_addr_cmp clients.old client)
        (tree.IsUnchanged clients.old clients.new)
        (λ stored. tree.Updates socket_addr_cmp clients.old clients.new client
        (Some (record stored { outcome = outcome }))) }
{
    let Some(stored) = clients.get_mut(&client) else {
        return;
    };
    stored.outcome = outcome;
}

/// Returns whether a nonce is valid at `now`: `now` is before its generation plus its lifetime.
fn occurs(generated: Instant, expiry: Duration, now: Instant) -> bool
    ensures { result ≡ nat_lt now (time_after generated (as_nanos expiry)) }
{
    now < generated.saturating_add(expiry)
}

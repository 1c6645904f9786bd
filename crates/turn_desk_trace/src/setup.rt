//! Setup lines: the lines before the events.

ghost use Rattle.std.specs.Prelude.{◌≡◌, ◌≢◌, ℕ, Bool, MatchOption, Option, Some, map};
ghost use Rattle.std.specs.declared.time.Duration.{Duration};
ghost use Rattle.stun_proto_auth.specs.declared.feature.Feature.{Feature};
ghost use Rattle.stun_types_base.specs.declared.transport.TransportType.{TransportType};
ghost use Rattle.turn_desk_trace.specs.declared.setup.Client.{Client};
ghost use Rattle.turn_desk_trace.specs.declared.setup.Families.{Families};
ghost use Rattle.turn_desk_trace.specs.declared.setup.Setup.{Setup};
ghost use Rattle.turn_desk_trace.specs.Setup.{anonymity_word, AreAfterHardened, AreAfterShort, AreAllOptions, AreDeskOptions, AreOptions, AreTransports, families_word, IsAddressLimit, IsAlone, IsClient, IsClientAt, IsClientOf, IsClientWith, IsDesk, IsMillis, IsRto, IsRtoOf, IsRtoWith, IsSetup, IsUser};

use crate::address::{read_address, read_transport};
use crate::algorithms::read_algorithms;
use crate::number::{SEED_LENGTH, read_seed, read_u32, read_u64};
use std::net::SocketAddr;
use std::time::Duration;
use stun_proto_auth::feature::Feature as Anonymity;
use stun_proto_auth::supported::SupportedIntegrity;
use stun_types_base::transport::TransportType;
use stun_types_wire::registry;

/// The maximum length of a realm, in bytes (RFC 8489, section 14.9).
pub const MAX_REALM: usize = registry::MAX_TEXT_LENGTH;

/// The maximum length of a user's name, in bytes (RFC 8489, section 14.3).
pub const MAX_USERNAME: usize = registry::MAX_USERNAME_LENGTH;

/// The address families that a client requests, in order.
#[derive(Clone, Copy, Debug, PartialEq, Eq)]
pub enum Families {
    /// `4`
    V4,
    /// `6`
    V6,
    /// `4,6`
    V4AndV6,
    /// `6,4`
    V6AndV4,
}

/// The settings of a client, except its transports.
#[derive(Clone, Copy, Debug)]
pub struct Client<'a> {
    /// The client's address.
    pub local: SocketAddr,
    /// The server's address.
    pub remote: SocketAddr,
    /// The address families that it requests.
    pub families: Families,
    /// The algorithms that it supports, in order.
    pub algorithms: SupportedIntegrity,
    /// Whether it hides the user's name.
    pub anonymity: Anonymity,
    /// The user's name, at most [`MAX_USERNAME`] bytes.
    pub name: &'a str,
    /// The user's password.
    pub password: &'a str,
    /// The seed of the ChaCha20 generator that supplies its random words.
    pub seed: [u8; SEED_LENGTH],
    /// Whether it is hardened.
    pub hardened: bool,
    /// Whether a REFRESH may shorten its allocations (`TurnConfig::set_short_lifetimes`).
    pub short_lifetimes: bool,
    /// Its limit on connections of peers (`TurnConfig::set_max_connection_attempts`).
    pub attempts: Option<u32>,
    /// Whether indications announce connections of peers (`TurnConfig::set_attempt_indications`).
    pub indications: bool,
}

/// A line that comes before the events.
#[derive(Debug, Drop)]
pub enum Setup<'a> {
    /// `desk REALM ALGS ANON`, then `clients LIMIT` or nothing: adds a server core, without users.
    Desk {
        /// Its realm, at most [`MAX_REALM`] bytes.
        realm: &'a str,
        /// The algorithms that it supports, in order.
        algorithms: SupportedIntegrity,
        /// Whether it offers to accept hashed user names.
        anonymity: Anonymity,
        /// For how many addresses it stores something, at least 1
        /// (`LongTermServerAuth::set_max_clients`).
        clients: Option<u32>,
    },
    /// `user NAME PASSWORD`: adds a user to the server core.
    User {
        /// The user's name, at most [`MAX_USERNAME`] bytes.
        name: &'a str,
        /// The user's password.
        password: &'a str,
    },
    /// `rto INITIAL MAX N FINAL`: sets the retransmission timeouts of the client's requests.
    Rto {
        /// The timeout after the first transmission, in whole milliseconds.
        initial: Duration,
        /// The maximum of all timeouts but the last, in whole milliseconds.
        max: Duration,
        /// The number of transmissions of a request.
        retransmits: u32,
        /// The timeout after the last transmission, in whole milliseconds.
        last: Duration,
    },
    /// `client BY LOCAL REMOTE OVER FAMILIES ALGS ANON NAME PASSWORD SEED`, then `hardened` or
    /// nothing, then `short` or nothing, then `attempts LIMIT` or nothing: adds a client.
    Client {
        /// The transport between the client and the server.
        by: TransportType,
        /// The requested transport between the server and the peers. It is UDP if `by` is UDP.
        over: TransportType,
        /// Its other settings.
        settings: Client<'a>,
    },
}

/// Reads a setup line. Returns `None` for any other words.
pub fn read_setup<'a>(words: &[&'a str]) -> Option<Setup<'a>>
    ensures { MatchOption result ((setup : Setup)
        → ¬ (IsSetup (map (λ x. x.now) words.entry.now) setup))
        (IsSetup (map (λ x. x.now) words.entry.now)) }
{
    match words {
        ["desk", rest @ ..] => read_desk(rest),
        ["user", rest @ ..] => read_user(rest),
        ["rto", rest @ ..] => read_rto(rest),
        ["client", rest @ ..] => read_client(rest),
        _ => None,
    }
}

/// Reads the words after `desk`.
fn read_desk<'a>(words: &[&'a str]) -> Option<Setup<'a>>
    ensures { MatchOption result ((setup : Setup)
        → ¬ (IsDesk (map (λ x. x.now) words.entry.now) setup))
        (IsDesk (map (λ x. x.now) words.entry.now)) }
{
    let [realm, algorithms, anonymity, more @ ..] = words else {
        return None;
    };
    if realm.len() > MAX_REALM {
        return None;
    }
    Some(Setup::Desk {
        realm,
        algorithms: read_algorithms(algorithms)?,
        anonymity: read_anonymity(anonymity)?,
        clients: read_desk_options(more)?,
    })
}

/// Reads the words after a server core's anonymity setting: none, or `clients` and a limit on
/// addresses, which it returns. Returns `None` for any other words.
fn read_desk_options(words: &[&str]) -> Option<Option<u32>>
    ensures { MatchOption result ((clients : Option ℕ)
        → ¬ (AreDeskOptions (map (λ x. x.now) words.entry.now) clients))
        (AreDeskOptions (map (λ x. x.now) words.entry.now)) }
{
    match words {
        [] => Some(None),
        ["clients", limit] => Some(Some(read_address_limit(limit)?)),
        _ => None,
    }
}

/// Reads a limit on addresses, which is at least 1.
fn read_address_limit(word: &str) -> Option<u32>
    ensures { MatchOption result ((limit : Option ℕ) → ¬ (IsAddressLimit word.now limit))
        (λ limit. IsAddressLimit word.now (Some limit)) }
{
    match read_u32(word) {
        Some(limit) if limit >= 1 => Some(limit),
        _ => None,
    }
}

/// Reads the words after `user`.
fn read_user<'a>(words: &[&'a str]) -> Option<Setup<'a>>
    ensures { MatchOption result ((setup : Setup)
        → ¬ (IsUser (map (λ x. x.now) words.entry.now) setup))
        (IsUser (map (λ x. x.now) words.entry.now)) }
{
    let [name, password] = words else {
        return None;
    };
    if name.len() > MAX_USERNAME {
        return None;
    }
    Some(Setup::User { name, password })
}

/// Reads the words after `rto`.
fn read_rto<'a>(words: &[&'a str]) -> Option<Setup<'a>>
    ensures { MatchOption result ((setup : Setup)
        → ¬ (IsRto (map (λ x. x.now) words.entry.now) setup))
        (IsRto (map (λ x. x.now) words.entry.now)) }
{
    match words {
        [initial, max, rest @ ..] => read_rto_with(initial, max, rest),
        _ => None,
    }
}

/// Reads the words after the first two timeouts of an `rto` line.
fn read_rto_with<'a>(initial: &str, max: &str, words: &[&str]) -> Option<Setup<'a>>
    ensures { MatchOption result ((setup : Setup)
        → ¬ (IsRtoWith initial.now max.now (map (λ x. x.now) words.now) setup))
        (IsRtoWith initial.now max.now (map (λ x. x.now) words.now)) }
{
    match words {
        [retransmits, last] => read_waits(initial, max, retransmits, last),
        _ => None,
    }
}

/// Reads the setting of an `rto` line, one word for each of its four fields.
fn read_waits<'a>(initial: &str, max: &str, retransmits: &str, last: &str) -> Option<Setup<'a>>
    ensures { MatchOption result ((setup : Setup)
        → ¬ (IsRtoOf initial.now max.now retransmits.now last.now setup))
        (IsRtoOf initial.now max.now retransmits.now last.now) }
{
    Some(Setup::Rto {
        initial: read_millis(initial)?,
        max: read_millis(max)?,
        retransmits: read_u32(retransmits)?,
        last: read_millis(last)?,
    })
}

/// Reads a duration in milliseconds.
fn read_millis(word: &str) -> Option<Duration>
    ensures { MatchOption result ((duration : Duration) → ¬ (IsMillis word.now duration))
        (IsMillis word.now) }
{
    match read_u64(word) {
        Some(millis) => Some(Duration::from_millis(millis)),
        None => None,
    }
}

/// Reads the words after `client`.
fn read_client<'a>(words: &[&'a str]) -> Option<Setup<'a>>
    ensures { MatchOption result ((setup : Setup)
        → ¬ (IsClient (map (λ x. x.now) words.entry.now) setup))
        (IsClient (map (λ x. x.now) words.entry.now)) }
{
    let [by, local, remote, over, rest @ ..] = words else {
        return None;
    };
    let (by, over) = read_transports(by, over)?;
    match read_client_at(local, remote, rest) {
        Some(settings) => Some(Setup::Client { by, over, settings }),
        None => None,
    }
}

/// Reads two names of transports: the one between client and server, and the one between server and
/// peers. Returns `None` if a name is unknown, or the first is UDP and the second is not.
fn read_transports(by: &str, over: &str) -> Option<(TransportType, TransportType)>
    ensures { MatchOption result ((b o : TransportType) → ¬ (AreTransports by.now over.now b o))
        (λ read. AreTransports by.now over.now read.0 read.1) }
{
    match (read_transport(by), read_transport(over)) {
        (Some(TransportType::Udp), Some(TransportType::Tcp)) => None,
        (Some(by), Some(over)) => Some((by, over)),
        _ => None,
    }
}

/// Reads the settings of a client between two addresses; `words` are those after the transport of
/// its allocation.
fn read_client_at<'a>(local: &str, remote: &str, words: &[&'a str]) -> Option<Client<'a>>
    ensures { MatchOption result ((client : Client)
        → ¬ (IsClientAt local.now remote.now (map (λ x. x.now) words.entry.now) client))
        (IsClientAt local.now remote.now (map (λ x. x.now) words.entry.now)) }
{
    match words {
        [families, algorithms, anonymity, rest @ ..] => {
            read_client_with(local, remote, families, algorithms, anonymity, rest)
        }
        _ => None,
    }
}

/// Reads the settings of a client of which the first five words are given; `words` are those after
/// them.
fn read_client_with<'a>(
    local: &str,
    remote: &str,
    families: &str,
    algorithms: &str,
    anonymity: &str,
    words: &[&'a str],
) -> Option<Client<'a>>
    ensures { MatchOption result ((client : Client)
        → ¬ (IsClientWith local.now remote.now families.now algorithms.now anonymity.now
        (map (λ x. x.now) words.entry.now) client))
        (IsClientWith local.now remote.now families.now algorithms.now anonymity.now
        (map (λ x. x.now) words.entry.now)) }
{
    match words {
        [name, password, seed, more @ ..] => client_of(
            local, remote, families, algorithms, anonymity, name, password, seed, more,
        ),
        _ => None,
    }
}

/// Reads the settings of a client, one word for each. `more` are the words after the seed.
fn client_of<'a>(
    local: &str,
    remote: &str,
    families: &str,
    algorithms: &str,
    anonymity: &str,
    name: &'a str,
    password: &'a str,
    seed: &str,
    more: &[&'a str],
) -> Option<Client<'a>>
    ensures { MatchOption result ((client : Client)
        → ¬ (IsClientOf local.now remote.now families.now algorithms.now anonymity.now
        name.entry.now password.entry.now seed.now (map (λ x. x.now) more.entry.now) client))
        (IsClientOf local.now remote.now families.now algorithms.now anonymity.now
        name.entry.now password.entry.now seed.now (map (λ x. x.now) more.entry.now)) }
{
    if name.len() > MAX_USERNAME {
        return None;
    }
    let (indications, hardened, short_lifetimes, attempts) = read_all_options(more)?;
    Some(Client {
        local: read_address(local)?,
        remote: read_address(remote)?,
        families: read_families(families)?,
        algorithms: read_algorithms(algorithms)?,
        anonymity: read_anonymity(anonymity)?,
        name,
        password,
        seed: read_seed(seed)?,
        hardened,
        short_lifetimes,
        attempts,
        indications,
    })
}

/// Reads the words after a client's seed: `indications` or nothing, then those of `read_options`.
/// Returns whether indications announce connections of peers, whether the client is hardened,
/// whether a REFRESH may shorten its allocations, and its limit on connections of peers; `None` for
/// any other words.
fn read_all_options(words: &[&str]) -> Option<(bool, bool, bool, Option<u32>)>
    ensures { MatchOption result ((i h s : Bool) (a : Option ℕ)
        → ¬ (AreAllOptions (map (λ x. x.now) words.entry.now) i h s a))
        (λ read. AreAllOptions (map (λ x. x.now) words.entry.now) read.0 read.1 read.2 read.3) }
{
    match words {
        [] => Some((false, false, false, None)),
        ["indications", rest @ ..] => {
            let (hardened, short, attempts) = read_options(rest)?;
            Some((true, hardened, short, attempts))
        }
        ["hardened", rest @ ..] => {
            let (short, attempts) = read_after_hardened(rest)?;
            Some((false, true, short, attempts))
        }
        ["short", rest @ ..] => Some((false, false, true, read_after_short(rest)?)),
        ["attempts", rest @ ..] => Some((false, false, false, read_alone(rest)?)),
        _ => None,
    }
}

/// Reads the words after `indications`: `hardened` or nothing, then `short` or nothing, then
/// `attempts` and a limit or nothing. Returns whether the client is hardened, whether a REFRESH may
/// shorten its allocations, and its limit on connections of peers; `None` for any other words.
fn read_options(words: &[&str]) -> Option<(bool, bool, Option<u32>)>
    ensures { MatchOption result ((h s : Bool) (a : Option ℕ)
        → ¬ (AreOptions (map (λ x. x.now) words.entry.now) h s a))
        (λ read. AreOptions (map (λ x. x.now) words.entry.now) read.0 read.1 read.2) }
{
    match words {
        [] => Some((false, false, None)),
        ["hardened", rest @ ..] => {
            let (short, attempts) = read_after_hardened(rest)?;
            Some((true, short, attempts))
        }
        ["short", rest @ ..] => Some((false, true, read_after_short(rest)?)),
        ["attempts", rest @ ..] => Some((false, false, read_alone(rest)?)),
        _ => None,
    }
}

/// Reads the words after `hardened`: `short` or nothing, then `attempts` and a limit or nothing.
/// Returns whether a REFRESH may shorten the client's allocations, and its limit on connections of
/// peers; `None` for any other words.
fn read_after_hardened(words: &[&str]) -> Option<(bool, Option<u32>)>
    ensures { MatchOption result ((s : Bool) (a : Option ℕ)
        → ¬ (AreAfterHardened (map (λ x. x.now) words.entry.now) s a))
        (λ read. AreAfterHardened (map (λ x. x.now) words.entry.now) read.0 read.1) }
{
    match words {
        [] => Some((false, None)),
        ["short", rest @ ..] => Some((true, read_after_short(rest)?)),
        ["attempts", rest @ ..] => Some((false, read_alone(rest)?)),
        _ => None,
    }
}

/// Reads the words after `short`: `attempts` and a limit on connections of peers, which it
/// returns, or nothing. Returns `None` for any other words.
fn read_after_short(words: &[&str]) -> Option<Option<u32>>
    ensures { MatchOption result ((a : Option ℕ)
        → ¬ (AreAfterShort (map (λ x. x.now) words.entry.now) a))
        (AreAfterShort (map (λ x. x.now) words.entry.now)) }
{
    match words {
        [] => Some(None),
        ["attempts", rest @ ..] => read_alone(rest),
        _ => None,
    }
}

/// Reads the limit on connections of peers, the only word. Returns `None` for any other words.
fn read_alone(words: &[&str]) -> Option<Option<u32>>
    ensures { MatchOption result ((a : Option ℕ)
        → ¬ (IsAlone (map (λ x. x.now) words.entry.now) a))
        (IsAlone (map (λ x. x.now) words.entry.now)) }
{
    match words {
        [limit] => Some(Some(read_u32(limit)?)),
        _ => None,
    }
}

/// Reads address families: one, or both in either order. Returns `None` for any other word.
pub fn read_families(word: &str) -> Option<Families>
    ensures { MatchOption result ((f : Families) → word.now ≢ families_word f)
        (λ f. word.now ≡ families_word f) }
{
    match word {
        "4" => Some(Families::V4),
        "6" => Some(Families::V6),
        "4,6" => Some(Families::V4AndV6),
        "6,4" => Some(Families::V6AndV4),
        _ => None,
    }
}

/// Reads the name of an anonymity setting. Returns `None` for any other word.
pub fn read_anonymity(word: &str) -> Option<Anonymity>
    ensures { MatchOption result ((a : Feature) → word.now ≢ anonymity_word a)
        (λ a. word.now ≡ anonymity_word a) }
{
    match word {
        "auto" => Some(Anonymity::Auto),
        "required" => Some(Anonymity::Required),
        "disabled" => Some(Anonymity::Disabled),
        _ => None,
    }
}

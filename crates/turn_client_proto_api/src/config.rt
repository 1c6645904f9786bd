//! The settings of a TURN client.

ghost use Rattle.std.specs.Prelude.{◌≡◌, ◌≢◌, [], ◌∷◌, Some, None, IfOk, OnErr, OnOk, nat_eq};
ghost use Rattle.std.specs.FinMap as finite;
ghost use Rattle.std.specs.Duration.{as_nanos};
ghost use Rattle.std.specs.List.{IsDistinct};
ghost use Rattle.std.specs.Option.{option_eq};
ghost use Rattle.stun_proto_auth.specs.SupportedAlgorithms.{is_same_algorithm, with_algorithm};
ghost use Rattle.turn_client_proto_api.specs.Config.{default_config};
ghost use Rattle.turn_client_proto_api.specs.Families.{is_same_family, with_family};
ghost use Rattle.turn_client_proto_api.specs.SameConfigs.{same_account};

use crate::error::ZeroLifetime;
use crate::families::RequestedFamilies;
use crate::options::{AllocateOptions, RelayedPort};
use crate::waits::{SetWaits, is_same};
use std::alloc::Global;
use std::marker::Model;
use std::net::SocketAddr;
use std::time::Duration;
use stun_proto_agent::agent::StunAgent;
use stun_proto_agent::builder::StunAgentBuilder;
use stun_proto_auth::feature::Feature;
use stun_proto_auth::supported::SupportedIntegrity;
use stun_types_base::family::AddressFamily;
use stun_types_base::memory::NoMemory;
use stun_types_base::transport::TransportType;
use stun_types_wire::algorithm::IntegrityAlgorithm;
use turn_types_attributes::credentials::TurnCredentials;

/// The settings of a TURN client:
///
/// - the credentials of its user;
/// - the allocation that it requests (RFC 8656, section 7.1);
/// - what it supports and requests when it signs (RFC 8489, section 9.2);
/// - against which messages it is hardened, and how many connections of peers may wait;
/// - whether a REFRESH may shorten an allocation (RFC 8656, section 8);
/// - how long it waits for responses, and between two messages that it sends.
///
/// The lists of families and of algorithms are never empty and have no duplicates. In contracts it
/// is the record `Config` of `specs/Config.antt`.
#[derive(Debug, Drop)]
pub struct TurnConfig {
    credentials: TurnCredentials,
    allocation_transport: TransportType,
    families: RequestedFamilies,
    supported: SupportedIntegrity,
    anonymous_username: Feature,
    hardened: bool,
    max_connection_attempts: Option<usize>,
    short_lifetimes: bool,
    attempt_indications: bool,
    options: AllocateOptions,
    pace: Duration,
    waits: Option<SetWaits>,
}

/// The least time between two sent messages, in milliseconds, unless it is set otherwise.
const PACE: u64 = 50;

impl Model for TurnConfig {
    ghost use Rattle.std.specs.Duration.{as_nanos};
    ghost use Rattle.turn_client_proto_api.specs.Config.{Config};
    ghost use Rattle.turn_client_proto_api.specs.SetWaitsView.{waits_of};

    ghost Value = { Config };

    ghost view = { λ c. record {
      credentials = c.credentials;
      transport = c.allocation_transport;
      families = c.families;
      algorithms = c.supported;
      anonymous_username = c.anonymous_username;
      hardened = c.hardened;
      max_connection_attempts = c.max_connection_attempts;
      short_lifetimes = c.short_lifetimes;
      attempt_indications = c.attempt_indications;
      options = c.options;
      pace = as_nanos c.pace;
      waits = waits_of c.waits;
    } };
}

impl TurnConfig {
    /// Creates the settings of a client with these credentials, which it takes. They request an
    /// allocation over UDP of one IPv4 address, with `Sha1` as the only algorithm. The name is
    /// hidden if the server supports it. The client is not hardened, any number of connections that
    /// peers open may wait, indications announce none, and no REFRESH shortens an allocation. It asks
    /// for a lifetime of half an hour and for any port, and leaves 50 ms between two messages. The
    /// waits are those of a new agent.
    pub fn new(credentials: TurnCredentials) -> TurnConfig
        ensures { result ≡ default_config credentials }
    {
        TurnConfig {
            credentials,
            allocation_transport: TransportType::Udp,
            families: RequestedFamilies::only(AddressFamily::IPV4),
            supported: SupportedIntegrity::only(IntegrityAlgorithm::Sha1),
            anonymous_username: Feature::Auto,
            hardened: false,
            max_connection_attempts: None,
            short_lifetimes: false,
            attempt_indications: false,
            options: AllocateOptions::new(),
            pace: Duration::from_millis(PACE),
            waits: None,
        }
    }

    /// Copies the settings. Fails with `NoMemory` if an allocation fails; these settings stay as
    /// they are.
    pub fn clone(&self, alloc: Global) -> Result<TurnConfig, NoMemory>
        ensures { IfOk result (λ copy. copy ≡ self.now) }
    {
        let credentials = TurnCredentials::new(
            alloc,
            self.credentials.username(),
            self.credentials.password(),
        )?;
        Ok(TurnConfig {
            credentials,
            allocation_transport: self.allocation_transport,
            families: self.families,
            supported: self.supported,
            anonymous_username: self.anonymous_username,
            hardened: self.hardened,
            max_connection_attempts: self.max_connection_attempts,
            short_lifetimes: self.short_lifetimes,
            attempt_indications: self.attempt_indications,
            options: self.options,
            pace: self.pace,
            waits: self.waits,
        })
    }

    /// Returns the transport between the server and the peers, which REQUESTED-TRANSPORT names (RFC
    /// 8656, section 18.8; RFC 6062, section 4.1).
    pub fn allocation_transport(&self) -> TransportType
        ensures { result ≡ self.now.transport }
    {
        self.allocation_transport
    }

    /// Sets the transport between the server and the peers.
    pub fn set_allocation_transport(&mut self, transport: TransportType)
        ensures { self.new ≡ record self.old { transport = transport } }
    {
        self.allocation_transport = transport;
    }

    /// Returns the families of the requested addresses, in the order in which they were added: at
    /// least one, and no duplicates.
    pub fn address_families(&self) -> &[AddressFamily]
        ensures value { result.now ≡ self.now.families }
        ensures never_empty { result.now ≢ [] }
        ensures distinct { IsDistinct is_same_family result.now }
    {
        self.families.as_slice()
    }

    /// Requests an address of another family too, the last in order. A family that is requested
    /// already changes nothing (RFC 8656, sections 18.6 and 18.11).
    pub fn add_address_family(&mut self, family: AddressFamily)
        ensures { self.new ≡ record self.old { families = with_family self.old.families family } }
    {
        self.families = self.families.with(family);
    }

    /// Requests an address of this family only.
    pub fn set_address_family(&mut self, family: AddressFamily)
        ensures { self.new ≡ record self.old { families = family ∷ [] } }
    {
        self.families = RequestedFamilies::only(family);
    }

    /// Returns a copy of the requested families.
    pub fn requested_families(&self) -> RequestedFamilies
        ensures { result ≡ self.now.families }
    {
        self.families
    }

    /// Returns the credentials, and drops the other settings.
    pub fn into_credentials(self) -> TurnCredentials
        ensures { result ≡ self.credentials }
    {
        self.credentials
    }

    /// Returns the user's name and password.
    pub fn credentials(&self) -> &TurnCredentials
        ensures { result.now ≡ self.now.credentials }
    {
        &self.credentials
    }

    /// Returns the supported integrity algorithms, in the order in which they were added: at least
    /// one, and no duplicates.
    pub fn supported_integrity(&self) -> &[IntegrityAlgorithm]
        ensures value { result.now ≡ self.now.algorithms }
        ensures never_empty { result.now ≢ [] }
        ensures distinct { IsDistinct is_same_algorithm result.now }
    {
        self.supported.as_slice()
    }

    /// Supports another algorithm, the last in order. One that is supported already changes
    /// nothing.
    pub fn add_supported_integrity(&mut self, algorithm: IntegrityAlgorithm)
        ensures { self.new ≡ record self.old {
          algorithms = with_algorithm self.old.algorithms algorithm;
        } }
    {
        self.supported = self.supported.with(algorithm);
    }

    /// Supports this algorithm only.
    pub fn set_supported_integrity(&mut self, algorithm: IntegrityAlgorithm)
        ensures { self.new ≡ record self.old { algorithms = algorithm ∷ [] } }
    {
        self.supported = SupportedIntegrity::only(algorithm);
    }

    /// Returns whether the name is replaced by a hash, USERHASH (RFC 8489, section 9.2.5).
    pub fn anonymous_username(&self) -> Feature
        ensures { result ≡ self.now.anonymous_username }
    {
        self.anonymous_username
    }

    /// Sets whether the name is replaced by a hash: if the server supports it; always, so that the
    /// challenge of a server that does not support it is refused; or never.
    pub fn set_anonymous_username(&mut self, anonymous_username: Feature)
        ensures { self.new ≡ record self.old { anonymous_username = anonymous_username } }
    {
        self.anonymous_username = anonymous_username;
    }

    /// Returns whether the client is hardened (`set_hardened`).
    pub fn is_hardened(&self) -> bool
        ensures { result ≡ self.now.hardened }
    {
        self.hardened
    }

    /// Sets whether the client is hardened against forged messages. A hardened client
    ///
    /// - ignores a response whose transaction ID is not outstanding, before anything else of it is
    ///   read: so whoever cannot see the client's requests cannot change its realm, nonce or key;
    /// - refuses a challenge whose nonce announces password algorithms and that has no well-formed
    ///   list of them, and takes the strongest algorithm of a list, passing over those that it
    ///   doesn't know (RFC 8489, section 9.2.5): so `Sha1` is not taken because a list is missing.
    ///   Who sees a request can still forge a whole challenge, whose nonce announces no list;
    /// - while it allocates, treats a response that does not validate as if it had never come; of
    ///   the responses to its first request, which no key protects, only errors with a code from
    ///   300 to 499 other than 400 end it. The request goes on by its schedule.
    ///
    /// A client that is not hardened stores any challenge from the server's address, takes `Sha1`
    /// where an announced list is missing or has an unknown algorithm, and ends on a response that
    /// does not validate while it allocates.
    pub fn set_hardened(&mut self, hardened: bool)
        ensures { self.new ≡ record self.old { hardened = hardened } }
    {
        self.hardened = hardened;
    }

    /// Returns the limit on connections that peers open (`set_max_connection_attempts`), or `None`
    /// if there is none.
    pub fn max_connection_attempts(&self) -> Option<usize>
        ensures { result ≡ self.now.max_connection_attempts }
    {
        self.max_connection_attempts
    }

    /// Limits what the server's CONNECTION_ATTEMPT requests (RFC 6062, section 4.4) make the client
    /// store. `None` is no limit. With `Some(limit)`
    ///
    /// - while an allocation has that many connections that wait for their socket, requested by the
    ///   client or opened by peers, a further one that a peer opens is rejected with error 447;
    /// - while that many messages wait to be sent, a CONNECTION_ATTEMPT that would be rejected is
    ///   ignored, as if it had not come.
    ///
    /// With `Some(0)` no connection of a peer is accepted, and no CONNECTION_ATTEMPT is answered.
    pub fn set_max_connection_attempts(&mut self, max_connection_attempts: Option<usize>)
        ensures { self.new ≡ record self.old {
          max_connection_attempts = max_connection_attempts;
        } }
    {
        self.max_connection_attempts = max_connection_attempts;
    }

    /// Returns whether a REFRESH may shorten an allocation (`set_short_lifetimes`).
    pub fn short_lifetimes(&self) -> bool
        ensures { result ≡ self.now.short_lifetimes }
    {
        self.short_lifetimes
    }

    /// Sets whether a LIFETIME under 600 seconds in the success response to a REFRESH is believed
    /// (RFC 8656, section 8.3). Off in new settings.
    ///
    /// - On: the allocation expires that many seconds after the response, 0 included: then it ends
    ///   at once. The next REFRESH is sent when half of the lifetime is left if that is 120 seconds
    ///   or less, else a minute before the expiry.
    /// - Off: such a response changes nothing. The allocation keeps its earlier expiry, which may
    ///   be later than the server's, and the request counts as unanswered.
    ///
    /// A LIFETIME of 600 or more is believed either way, and so is that of the ALLOCATE response,
    /// whatever it is. How long before its expiry an allocation is refreshed follows from the
    /// latest of its believed lifetimes that is under 600, or if none is, from the first.
    pub fn set_short_lifetimes(&mut self, is_believed: bool)
        ensures { self.new ≡ record self.old { short_lifetimes = is_believed } }
    {
        self.short_lifetimes = is_believed;
    }

    /// Returns whether connections of peers may be announced by indications
    /// (`set_attempt_indications`).
    pub fn attempt_indications(&self) -> bool
        ensures { result ≡ self.now.attempt_indications }
    {
        self.attempt_indications
    }

    /// Sets whether a CONNECTION_ATTEMPT indication announces a connection that a peer opened (RFC
    /// 6062, sections 4.4 and 5.4), as servers send it that follow that RFC. Off in new settings:
    /// then only a signed CONNECTION_ATTEMPT request does.
    ///
    /// An indication has no signature, so anybody who can write into the control connection can
    /// make one, with any connection ID and peer. A connection counts as bound only once the
    /// server's signed response to CONNECTION_BIND has accepted its ID; that the server really
    /// announced it, and that its peer is the one that was named, isn't known.
    ///
    /// An indication is ignored
    ///
    /// - if the allocation isn't over TCP, or no allocation has the peer's address family;
    /// - if it has no CONNECTION-ID or no XOR-PEER-ADDRESS;
    /// - if the allocation has a connection to the peer, or one that waits for its socket;
    /// - if as many connections wait for their socket in the allocation as
    ///   `set_max_connection_attempts` allows; without a limit, 64.
    pub fn set_attempt_indications(&mut self, are_accepted: bool)
        ensures { self.new ≡ record self.old { attempt_indications = are_accepted } }
    {
        self.attempt_indications = are_accepted;
    }

    /// Returns what an ALLOCATE asks for besides transport and families.
    pub fn allocate_options(&self) -> AllocateOptions
        ensures { result ≡ self.now.options }
    {
        self.options
    }

    /// Sets the lifetime, in seconds, that each ALLOCATE and each REFRESH that renews an allocation
    /// requests (RFC 8656, sections 7.1, 8.1 and 18.2): 1800 in new settings. The server decides: it
    /// may grant more or less. When an allocation is renewed follows from what was granted.
    ///
    /// # Errors
    ///
    /// - `ZeroLifetime`: `seconds` is 0. Nothing changes.
    pub fn set_requested_lifetime(&mut self, seconds: u32) -> Result<(), ZeroLifetime>
        ensures set { OnOk result ((seconds ≢ 0) × (self.new ≡ record self.old {
          options = record self.old.options { lifetime = seconds };
        })) }
        ensures refused { OnErr result ((seconds ≡ 0) × (self.new ≡ self.old)) }
    {
        if seconds == 0 {
            return Err(ZeroLifetime);
        }
        self.options.lifetime = seconds;
        Ok(())
    }

    /// Sets the port that is requested for the relayed address (RFC 8656, sections 7.1, 18.7 and
    /// 18.10): any in new settings. A server that can't give it rejects the ALLOCATE with 508, one
    /// that doesn't know the attribute with 420.
    pub fn set_relayed_port(&mut self, port: RelayedPort)
        ensures { self.new ≡ record self.old {
          options = record self.old.options { port = port };
        } }
    {
        self.options.port = port;
    }

    /// Returns the least time between two messages that the client sends (`set_pace`).
    pub fn pace(&self) -> Duration
        ensures { as_nanos result ≡ self.now.pace }
    {
        self.pace
    }

    /// Sets the least time between two messages that the client sends: 50 ms in new settings. 0 lets
    /// it send at once whatever is to be sent. Retransmissions and replies to the server don't wait
    /// for it. An ICE agent that paces all its checks (RFC 8445, section 14.2) sets 0 and draws a
    /// message when it is its turn.
    pub fn set_pace(&mut self, pace: Duration)
        ensures { self.new ≡ record self.old { pace = as_nanos pace } }
    {
        self.pace = pace;
    }

    /// Sets how long each request waits for its response (RFC 8489, section 6.2.1).
    ///
    /// - `initial`: the wait after the first transmission. Each further wait is twice as long.
    /// - `max`: the longest of these waits.
    /// - `retransmits`: how often a request is sent in all. 0 counts as 1.
    /// - `final_retransmit_timeout`: the wait after the last transmission. It may be longer than
    ///   `max`.
    ///
    /// Over TCP a request is sent once, and ends at the same time.
    pub fn set_request_retransmits(
        &mut self,
        initial: Duration,
        max: Duration,
        retransmits: u32,
        final_retransmit_timeout: Duration,
    )
        ensures { self.new ≡ record self.old {
          waits = record {
            initial = as_nanos initial;
            most = Some (as_nanos max);
            retransmits = retransmits;
            final = as_nanos final_retransmit_timeout;
          };
        } }
    {
        self.waits = Some(SetWaits {
            initial,
            max,
            retransmits,
            last: final_retransmit_timeout,
        });
    }

    /// Returns a builder of an agent with this transport and own address, whose requests wait as
    /// the settings say. It stores the allocator, and holds no memory yet.
    pub fn stun_agent_builder(
        &self,
        alloc: Global,
        transport: TransportType,
        local: SocketAddr,
    ) -> StunAgentBuilder
        ensures { result ≡ record {
          transport = transport;
          here = local;
          remote = None;
          waits = self.now.waits;
          outstanding = finite.empty;
          validated = finite.empty;
        } }
    {
        let builder = StunAgent::builder(alloc, transport, local);
        match self.waits {
            Some(waits) => builder.request_retransmits(
                waits.initial,
                waits.max,
                waits.retransmits,
                waits.last,
            ),
            None => builder,
        }
    }
}

/// Returns whether name and password are equal.
fn is_same_account(one: &TurnCredentials, other: &TurnCredentials) -> bool
    ensures { result ≡ same_account one.now other.now }
{
    one.username() == other.username() && one.password() == other.password()
}

/// Returns whether two limits are equal.
fn is_same_limit(one: Option<usize>, other: Option<usize>) -> bool
    ensures { result ≡ option_eq nat_eq one other }
{
    match (one, other) {
        (Some(one), Some(other)) => one == other,
        (None, None) => true,
        _ => false,
    }
}

/// Settings are equal if each of their fields is.
impl PartialEq for TurnConfig {
    ghost use Rattle.std.specs.Cmp.{partial_equiv_from_equiv};
    ghost use Rattle.turn_client_proto_api.specs.SameConfigs.{same_config, same_config_equiv};

    ghost eq = { same_config };

    ghost laws = { partial_equiv_from_equiv same_config_equiv };

    fn eq(&self, other: &Self) -> bool {
        is_same_account(&self.credentials, &other.credentials)
            && self.allocation_transport == other.allocation_transport
            && self.families == other.families
            && self.supported == other.supported
            && self.anonymous_username == other.anonymous_username
            && self.hardened == other.hardened
            && is_same_limit(self.max_connection_attempts, other.max_connection_attempts)
            && self.short_lifetimes == other.short_lifetimes
            && self.attempt_indications == other.attempt_indications
            && self.options == other.options
            && self.pace.as_nanos() == other.pace.as_nanos()
            && is_same(self.waits, other.waits)
    }
}

impl Eq for TurnConfig {
    ghost use Rattle.turn_client_proto_api.specs.SameConfigs.{same_config_equiv};

    ghost laws = { same_config_equiv };
}

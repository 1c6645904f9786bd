//! The settings of a client, as C passes them.

ghost use Rattle.std.specs.Prelude.{◌≡◌, ◌<◌, IfOk, IfSome};
ghost use Rattle.stun_types_base.specs.declared.transport.TransportType.TheVariants.{Udp};
ghost use Rattle.turn_client_c_types.specs.Settings.{algorithms_of, anonymous_of, attempts_of, config_of, families_of, has_bit, has_size, is_zero_seed, options_of, pace_of, port_of, short_lifetimes_of, transport_set, transports_of, waits_of};

use crate::address::{TurnAddress, transport_of};
use std::alloc::Global;
use std::time::Duration;
use stun_proto_auth::feature::Feature;
use stun_types_base::family::AddressFamily;
use stun_types_base::memory::NoMemory;
use stun_types_base::transport::TransportType;
use stun_types_wire::algorithm::IntegrityAlgorithm;
use turn_client_proto_api::config::TurnConfig;
use turn_client_proto_api::error::ZeroLifetime;
use turn_client_proto_api::options::RelayedPort;
use turn_types_attributes::credentials::TurnCredentials;

/// The bit of IPv6 in `families`.
const FAMILY_IPV6: u32 = 2;

/// The bits of both families.
const BOTH_FAMILIES: u32 = 3;

/// The bit of HMAC-SHA1 in `integrity`.
const INTEGRITY_SHA1: u32 = 1;

/// The bit of HMAC-SHA256 in `integrity`.
const INTEGRITY_SHA256: u32 = 2;

/// The bit of HMAC-SHA512 in `integrity`.
const INTEGRITY_SHA512: u32 = 4;

/// The bits of all algorithms.
const ALL_INTEGRITY: u32 = 7;

/// The name is always hidden.
const ANONYMOUS_REQUIRED: u32 = 1;

/// The name is never hidden.
const ANONYMOUS_DISABLED: u32 = 2;

/// The client is not hardened.
const COMPATIBLE: u32 = 1;

/// A REFRESH doesn't shorten allocations.
const IGNORES_SHORT_LIFETIMES: u32 = 1;

/// An even port is requested.
const PORT_EVEN: u32 = 1;

/// An even port is requested, and the next one reserved.
const PORT_EVEN_AND_NEXT: u32 = 2;

/// The reserved port is requested.
const PORT_RESERVED: u32 = 3;

/// The client leaves no time between two messages.
const NO_PACE: u32 = u32::MAX;

/// The limit on connections of peers of a hardened client that states none.
const DEFAULT_ATTEMPTS: usize = 64;

/// Indications announce connections of peers.
const ACCEPTS_INDICATIONS: u32 = 1;

/// The size of the settings, in bytes.
const SETTINGS_SIZE: usize = size_of::<TurnSettings>();

/// A seed of zeros.
const ZERO_SEED: [u8; 32] = [0; 32];

/// The settings of a client. A number that is zero leaves its default.
#[repr(C)]
#[derive(Clone, Copy)]
pub struct TurnSettings {
    /// The size of this struct in bytes, as the program was compiled. Fields are added at the end,
    /// so the size says which there are.
    pub size: usize,
    /// The client's own address.
    pub local: TurnAddress,
    /// The server's address.
    pub server: TurnAddress,
    /// The transport to the server, by its protocol number in IP; 0 is UDP.
    pub transport: u32,
    /// The transport between the server and the peers; 0 is UDP. TCP only if the one to the server
    /// is TCP.
    pub peers: u32,
    /// The families of the requested relayed addresses, as bits: 1 is IPv4, 2 is IPv6.
    pub families: u32,
    /// The supported integrity algorithms, as bits: 1 is HMAC-SHA1, 2 is HMAC-SHA256, 4 is
    /// HMAC-SHA512; 0 is 1 and 2.
    pub integrity: u32,
    /// Whether the name is hidden: 0 if the server supports it, 1 always, 2 never.
    pub anonymous: u32,
    /// How often a request is sent in all. 0 leaves this and the three waits at their defaults.
    pub sends: u32,
    /// The wait after the first transmission, in milliseconds. Each further wait is twice as long.
    pub first_wait: u32,
    /// The longest wait between two transmissions, in milliseconds.
    pub most_wait: u32,
    /// The wait after the last transmission, in milliseconds.
    pub last_wait: u32,
    /// 0: the client is hardened (`TurnConfig::set_hardened`). 1: it is not.
    pub compatible: u32,
    /// The limit on connections of peers (`TurnConfig::set_max_connection_attempts`). 0 is 64, or
    /// none if the client is not hardened.
    pub max_connection_attempts: usize,
    /// 0: a REFRESH may shorten an allocation (`TurnConfig::set_short_lifetimes`), unless the
    /// client is not hardened. 1: it may not.
    pub ignore_short_lifetimes: u32,
    /// The lifetime that an ALLOCATE and each REFRESH request, in seconds
    /// (`TurnConfig::set_requested_lifetime`). 0 is 1800.
    pub lifetime: u32,
    /// The least time between two messages that the client sends, in milliseconds
    /// (`TurnConfig::set_pace`). 0 is 50, and the greatest number is none.
    pub pace: u32,
    /// The requested port of the relayed address (`TurnConfig::set_relayed_port`): 0 is any, 1 an
    /// even one, 2 an even one and the next one reserved, 3 the one that `reservation` names.
    pub port: u32,
    /// The token of a reserved port (RFC 8656, section 18.10).
    pub reservation: u64,
    /// 1: CONNECTION_ATTEMPT indications announce connections of peers
    /// (`TurnConfig::set_attempt_indications`). 0: they don't.
    pub attempt_indications: u32,
}

/// The seed of the generator of a client's transaction IDs.
#[repr(C)]
#[derive(Clone, Copy)]
pub struct TurnSeed {
    /// The bytes.
    pub bytes: [u8; 32],
}

impl TurnSeed {
    /// Returns whether all bytes are zero, which no source of random bytes gives.
    pub fn is_zero(&self) -> bool
        ensures { result ≡ is_zero_seed self.now.bytes }
    {
        self.bytes == ZERO_SEED
    }
}

/// Returns the transport with this protocol number in IP, where 0 is UDP, or `None` if it is
/// neither UDP nor TCP.
fn transport_set(number: u32) -> Option<TransportType>
    ensures { result ≡ transport_set number }
{
    if number == 0 {
        Some(TransportType::Udp)
    } else {
        transport_of(number)
    }
}

/// Returns whether a number has this bit, which is a power of two.
fn has_bit(number: u32, bit: u32) -> bool
    requires { 0 < bit }
    ensures { result ≡ has_bit number bit }
{
    number / bit % 2 == 1
}

impl TurnSettings {
    /// Returns whether the program states the size that this struct has here.
    pub fn has_size(&self) -> bool
        ensures { result ≡ has_size self.now }
    {
        self.size == SETTINGS_SIZE
    }

    /// Returns the transport to the server and the one between the server and the peers. `None` if
    /// a number of the settings is not one of its choices, or if the first is UDP and the second
    /// TCP.
    #[tactic(auto, unfolding(crate::specs::Settings::transports_of))]
    pub fn transports(&self) -> Option<(TransportType, TransportType)>
        ensures value { result ≡ transports_of self.now }
        ensures over_udp { IfSome result (λ both. both.0 ≡ Udp → both.1 ≡ Udp) }
    {
        if self.families > BOTH_FAMILIES
            || self.integrity > ALL_INTEGRITY
            || self.anonymous > ANONYMOUS_DISABLED
            || self.compatible > COMPATIBLE
            || self.ignore_short_lifetimes > IGNORES_SHORT_LIFETIMES
            || self.port > PORT_RESERVED
            || self.attempt_indications > ACCEPTS_INDICATIONS
        {
            return None;
        }
        match (transport_set(self.transport)?, transport_set(self.peers)?) {
            (TransportType::Udp, TransportType::Udp) => Some((
                TransportType::Udp,
                TransportType::Udp,
            )),
            (TransportType::Udp, TransportType::Tcp) => None,
            (TransportType::Tcp, peers) => Some((TransportType::Tcp, peers)),
        }
    }

    /// Returns the settings of a client of this user, whose allocation is over this transport.
    pub fn config(
        &self,
        alloc: Global,
        username: &str,
        password: &str,
        peers: TransportType,
    ) -> Result<TurnConfig, NoMemory>
        ensures { IfOk result (λ config. config
            ≡ config_of self.now peers
            (record { username = username.now; password = password.now })) }
    {
        let mut config = TurnConfig::new(TurnCredentials::new(alloc, username, password)?);
        config.set_allocation_transport(peers);
        self.set_families(&mut config);
        self.set_integrity(&mut config);
        self.set_anonymous(&mut config);
        config.set_hardened(self.compatible != COMPATIBLE);
        config.set_max_connection_attempts(self.attempts());
        config.set_short_lifetimes(self.short_lifetimes());
        config.set_attempt_indications(self.attempt_indications == ACCEPTS_INDICATIONS);
        self.set_options(&mut config);
        self.set_pace(&mut config);
        self.set_waits(&mut config);
        Ok(config)
    }

    /// Returns the limit on connections of peers.
    fn attempts(&self) -> Option<usize>
        ensures { result ≡ attempts_of self.now }
    {
        if self.max_connection_attempts != 0 {
            Some(self.max_connection_attempts)
        } else if self.compatible == COMPATIBLE {
            None
        } else {
            Some(DEFAULT_ATTEMPTS)
        }
    }

    /// Returns whether a REFRESH may shorten an allocation.
    fn short_lifetimes(&self) -> bool
        ensures { result ≡ short_lifetimes_of self.now }
    {
        self.ignore_short_lifetimes != IGNORES_SHORT_LIFETIMES && self.compatible != COMPATIBLE
    }

    /// Returns the requested port of the relayed address.
    fn relayed_port(&self) -> RelayedPort
        ensures { result ≡ port_of self.now }
    {
        match self.port {
            PORT_EVEN => RelayedPort::Even,
            PORT_EVEN_AND_NEXT => RelayedPort::EvenAndNextReserved,
            PORT_RESERVED => RelayedPort::Reserved(self.reservation),
            _ => RelayedPort::Any,
        }
    }

    /// Sets the requested lifetime, unless it is 0, and the requested port.
    fn set_options(&self, config: &mut TurnConfig)
        ensures { config.new ≡ record config.old {
          options = options_of self.now config.old.options;
        } }
    {
        match config.set_requested_lifetime(self.lifetime) {
            Ok(()) | Err(ZeroLifetime) => {}
        }
        config.set_relayed_port(self.relayed_port());
    }

    /// Sets the least time between two messages, unless it is 0.
    fn set_pace(&self, config: &mut TurnConfig)
        ensures { config.new ≡ record config.old { pace = pace_of self.now config.old.pace } }
    {
        if self.pace == NO_PACE {
            config.set_pace(Duration::from_millis(0));
        } else if self.pace != 0 {
            config.set_pace(Duration::from_millis(u64::from(self.pace)));
        }
    }

    /// Sets the families.
    fn set_families(&self, config: &mut TurnConfig)
        ensures { config.new ≡ record config.old {
          families = families_of self.now.families config.old.families;
        } }
    {
        if self.families == FAMILY_IPV6 {
            config.set_address_family(AddressFamily::IPV6);
        } else if self.families == BOTH_FAMILIES {
            config.add_address_family(AddressFamily::IPV6);
        }
    }

    /// Sets the algorithms: the weakest whose bit is set, then the stronger ones whose bits are
    /// set. If no bit is set, HMAC-SHA1 and HMAC-SHA256.
    #[tactic(auto, unfolding(crate::specs::Settings::algorithms_of))]
    fn set_integrity(&self, config: &mut TurnConfig)
        ensures { config.new ≡ record config.old {
          algorithms = algorithms_of self.now.integrity config.old.algorithms;
        } }
    {
        if self.integrity == 0 {
            config.set_supported_integrity(IntegrityAlgorithm::Sha1);
            config.add_supported_integrity(IntegrityAlgorithm::Sha256);
            return;
        }
        let by_sha256 = has_bit(self.integrity, INTEGRITY_SHA256);
        let by_sha512 = has_bit(self.integrity, INTEGRITY_SHA512);
        if has_bit(self.integrity, INTEGRITY_SHA1) {
            config.set_supported_integrity(IntegrityAlgorithm::Sha1);
        } else if by_sha256 {
            config.set_supported_integrity(IntegrityAlgorithm::Sha256);
        } else if by_sha512 {
            config.set_supported_integrity(IntegrityAlgorithm::Sha512);
        }
        if by_sha256 {
            config.add_supported_integrity(IntegrityAlgorithm::Sha256);
        }
        if by_sha512 {
            config.add_supported_integrity(IntegrityAlgorithm::Sha512);
        }
    }

    /// Sets whether the name is hidden.
    fn set_anonymous(&self, config: &mut TurnConfig)
        ensures { config.new ≡ record config.old {
          anonymous_username = anonymous_of self.now.anonymous config.old.anonymous_username;
        } }
    {
        if self.anonymous == ANONYMOUS_REQUIRED {
            config.set_anonymous_username(Feature::Required);
        } else if self.anonymous == ANONYMOUS_DISABLED {
            config.set_anonymous_username(Feature::Disabled);
        }
    }

    /// Sets the waits, unless `sends` is 0.
    fn set_waits(&self, config: &mut TurnConfig)
        ensures { config.new ≡ record config.old { waits = waits_of self.now config.old.waits } }
    {
        if self.sends != 0 {
            config.set_request_retransmits(
                Duration::from_millis(u64::from(self.first_wait)),
                Duration::from_millis(u64::from(self.most_wait)),
                self.sends,
                Duration::from_millis(u64::from(self.last_wait)),
            );
        }
    }
}

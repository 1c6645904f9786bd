//! What the setup lines of a trace create: a server core and a client.

ghost use Rattle.std.specs.Prelude.{◌≡◌, ◌≢◌, ◌≤◌, [], IfOk, IfSome, OnErr, OnOk, length};
ghost use Rattle.std.specs.List.{IsDistinct};
ghost use Rattle.stun_proto_auth.specs.SupportedAlgorithms.{is_same_algorithm};
ghost use Rattle.turn_client_proto.specs.Clients.{stored_of};
ghost use Rattle.turn_desk_world.specs.Settings.{config_of, desk_of, IsNewBy, waiting, with_user};
ghost use Rattle.turn_desk_trace.specs.Setup.{CanAsk, families_in_order};

use std::alloc::Global;
use std::time::Duration;
use stun_proto_auth::feature::Feature;
use stun_proto_auth::supported::SupportedIntegrity;
use stun_proto_server::long_term::LongTermServerAuth;
use stun_types_base::family::AddressFamily;
use stun_types_base::memory::NoMemory;
use stun_types_base::transport::TransportType;
use stun_types_integrity::credentials::LongTermCredentials;
use stun_types_wire::algorithm::IntegrityAlgorithm;
use turn_client_proto::client::TurnClient;
use turn_client_proto::tcp::TurnClientTcp;
use turn_client_proto::udp::TurnClientUdp;
use turn_client_proto_api::config::TurnConfig;
use turn_desk_core::desk::Desk;
use turn_desk_trace::setup::{Client, Families, MAX_REALM, MAX_USERNAME};
use turn_types_attributes::credentials::TurnCredentials;

/// The retransmission timeouts of a client's requests.
#[derive(Clone, Copy, Debug)]
pub struct Rto {
    /// The timeout after the first transmission.
    pub initial: Duration,
    /// The maximum of all timeouts but the last.
    pub max: Duration,
    /// The number of transmissions of a request.
    pub retransmits: u32,
    /// The timeout after the last transmission.
    pub last: Duration,
}

/// Returns a server core for a realm, without users and grants. It supports these algorithms, in
/// this order, and stores something for at most so many addresses; `None` means any number.
pub(crate) fn new_desk(
    alloc: Global,
    realm: &str,
    algorithms: SupportedIntegrity,
    anonymity: Feature,
    clients: Option<u32>,
) -> Result<Desk, NoMemory>
    requires realm { length realm.now ≤ MAX_REALM }
    requires clients { IfSome clients (λ n. 1 ≤ n) }
    ensures { IfOk result (λ desk. desk ≡ desk_of realm.now algorithms anonymity clients) }
{
    let realm = String::from_str(alloc, realm)?;
    let mut auth = LongTermServerAuth::new(alloc, realm);
    support(&mut auth, algorithms.as_slice());
    auth.set_anonymous_username(anonymity);
    auth.set_max_clients(limit_of(clients));
    Ok(Desk::new(alloc, auth))
}

/// Sets the algorithms that a server supports, in this order.
fn support(auth: &mut LongTermServerAuth, algorithms: &[IntegrityAlgorithm])
    requires never_empty { algorithms.now ≢ [] }
    requires distinct { IsDistinct is_same_algorithm algorithms.now }
    ensures { auth.new ≡ record auth.old { algorithms = algorithms.now } }
{
    if let Some((first, others)) = algorithms.split_first() {
        auth.set_supported_integrity(*first);
        let mut left = others;
        while let Some((algorithm, rest)) = left.split_first() {
            auth.add_supported_integrity(*algorithm);
            left = rest;
        }
    }
}

/// Adds a user to a server core.
///
/// # Errors
///
/// - `NoMemory`: an allocation failed. Nothing changed.
pub(crate) fn add_user(
    alloc: Global,
    desk: &mut Desk,
    name: &str,
    password: &str,
) -> Result<(), NoMemory>
    ensures ok { OnOk result (desk.new ≡ with_user desk.old name.now password.now) }
    ensures err { OnErr result (desk.new ≡ desk.old) }
{
    let name = String::from_str(alloc, name)?;
    let password = String::from_str(alloc, password)?;
    let user = LongTermCredentials::new(name, password);
    desk.auth_mut().add_user(user)
}

/// Returns a client with these transports and settings. Its requests have these retransmission
/// timeouts, or the default ones. A client over UDP requests an allocation over UDP.
pub(crate) fn new_client(
    alloc: Global,
    by: TransportType,
    over: TransportType,
    settings: &Client<'_>,
    rto: Option<Rto>,
) -> Result<TurnClient, NoMemory>
    requires name { length settings.now.name.now ≤ MAX_USERNAME }
    requires over { CanAsk by over }
    ensures { IfOk result (λ client. IsNewBy by settings.now.local settings.now.remote
        (config_of over settings.now rto) settings.now.seed (stored_of client)) }
{
    let config = config_of(alloc, settings, over, rto)?;
    let (local, remote, seed) = (settings.local, settings.remote, settings.seed);
    match by {
        TransportType::Udp => match TurnClientUdp::allocate(alloc, local, remote, config, seed) {
            Ok(client) => Ok(TurnClient::Udp(client)),
            Err(error) => Err(error),
        },
        TransportType::Tcp => match TurnClientTcp::allocate(alloc, local, remote, config, seed) {
            Ok(client) => Ok(TurnClient::Tcp(client)),
            Err(error) => Err(error),
        },
    }
}

/// Returns the settings of a client, with these retransmission timeouts, or the default ones.
fn config_of(
    alloc: Global,
    settings: &Client<'_>,
    over: TransportType,
    rto: Option<Rto>,
) -> Result<TurnConfig, NoMemory>
    ensures { IfOk result (λ config. config ≡ config_of over settings.now rto) }
{
    let credentials = TurnCredentials::new(alloc, settings.name, settings.password)?;
    let mut config = TurnConfig::new(credentials);
    config.set_allocation_transport(over);
    ask_for(&mut config, settings.families);
    offer(&mut config, settings.algorithms.as_slice());
    config.set_anonymous_username(settings.anonymity);
    config.set_hardened(settings.hardened);
    config.set_max_connection_attempts(limit_of(settings.attempts));
    config.set_short_lifetimes(settings.short_lifetimes);
    config.set_attempt_indications(settings.indications);
    wait(&mut config, rto);
    Ok(config)
}

/// Returns the same limit as a count.
fn limit_of(limit: Option<u32>) -> Option<usize>
    ensures { result ≡ limit }
{
    match limit {
        Some(limit) => Some(limit as usize),
        None => None,
    }
}

/// Sets the retransmission timeouts of a client's requests, if there are any to set.
fn wait(config: &mut TurnConfig, rto: Option<Rto>)
    ensures { config.new ≡ waiting rto config.old }
{
    if let Some(rto) = rto {
        config.set_request_retransmits(rto.initial, rto.max, rto.retransmits, rto.last);
    }
}

/// Sets the address families that a client requests, in this order.
fn ask_for(config: &mut TurnConfig, families: Families)
    ensures { config.new ≡ record config.old { families = families_in_order families } }
{
    match families {
        Families::V4 => config.set_address_family(AddressFamily::IPV4),
        Families::V6 => config.set_address_family(AddressFamily::IPV6),
        Families::V4AndV6 => {
            config.set_address_family(AddressFamily::IPV4);
            config.add_address_family(AddressFamily::IPV6);
        }
        Families::V6AndV4 => {
            config.set_address_family(AddressFamily::IPV6);
            config.add_address_family(AddressFamily::IPV4);
        }
    }
}

/// Sets the algorithms that a client supports, in this order.
fn offer(config: &mut TurnConfig, algorithms: &[IntegrityAlgorithm])
    requires never_empty { algorithms.now ≢ [] }
    requires distinct { IsDistinct is_same_algorithm algorithms.now }
    ensures { config.new ≡ record config.old { algorithms = algorithms.now } }
{
    if let Some((first, others)) = algorithms.split_first() {
        config.set_supported_integrity(*first);
        let mut left = others;
        while let Some((algorithm, rest)) = left.split_first() {
            config.add_supported_integrity(*algorithm);
            left = rest;
        }
    }
}

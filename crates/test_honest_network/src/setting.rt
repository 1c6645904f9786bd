//! The settings of a client and a server core.

ghost use Rattle.std.specs.Prelude.{◌≡◌, ◌≤◌, length, IfOk, OnOk};
ghost use Rattle.std.specs.FinMap as map;
ghost use Rattle.stun_types_wire.specs.Registry.{longest_text};
ghost use Rattle.test_honest_network.specs.Settings.{algorithms_of, config_of, server_of};

use std::alloc::Global;
use std::net::SocketAddr;
use stun_proto_auth::feature::Feature;
use stun_proto_server::long_term::LongTermServerAuth;
use stun_types_base::family::AddressFamily;
use stun_types_base::memory::NoMemory;
use stun_types_base::transport::TransportType;
use stun_types_integrity::credentials::LongTermCredentials;
use stun_types_wire::algorithm::IntegrityAlgorithm;
use turn_client_proto_api::config::TurnConfig;
use turn_types_attributes::credentials::TurnCredentials;

/// The algorithms that a client or a server core supports.
#[derive(Clone, Copy, Debug)]
pub(crate) enum Supported {
    /// SHA-1 alone.
    OnlySha1,
    /// SHA-256 alone.
    OnlySha256,
    /// SHA-512 alone.
    OnlySha512,
    /// SHA-1 and SHA-256.
    Both,
    /// All three.
    All,
}

/// The settings of a client and of a server core that knows the client's user.
#[derive(Clone, Copy)]
pub(crate) struct Setting<'a> {
    /// The user's name.
    pub(crate) name: &'a str,
    /// The user's password.
    pub(crate) password: &'a str,
    /// The server core's realm.
    pub(crate) realm: &'a str,
    /// The client's own address.
    pub(crate) here: SocketAddr,
    /// The server core's address.
    pub(crate) server: SocketAddr,
    /// The transport between them.
    pub(crate) transport: TransportType,
    /// The address family that the client requests.
    pub(crate) family: AddressFamily,
    /// The algorithms that the client supports.
    pub(crate) own: Supported,
    /// The algorithms that the server core supports.
    pub(crate) others: Supported,
    /// Whether the client hides its name.
    pub(crate) hides: Feature,
    /// Whether the server core accepts a hidden name.
    pub(crate) takes: Feature,
}

/// Returns the client's configuration.
pub(crate) fn config_of(alloc: Global, setting: &Setting<'_>) -> Result<TurnConfig, NoMemory>
    ensures { IfOk result (λ config. config ≡ config_of setting.now) }
{
    let credentials = TurnCredentials::new(alloc, setting.name, setting.password)?;
    let mut config = TurnConfig::new(credentials);
    config.set_address_family(setting.family);
    config.set_anonymous_username(setting.hides);
    offer(&mut config, setting.own);
    Ok(config)
}

/// Makes a client support exactly these algorithms.
fn offer(config: &mut TurnConfig, own: Supported)
    ensures { config.new ≡ record config.old { algorithms = algorithms_of own } }
{
    match own {
        Supported::OnlySha1 => config.set_supported_integrity(IntegrityAlgorithm::Sha1),
        Supported::OnlySha256 => config.set_supported_integrity(IntegrityAlgorithm::Sha256),
        Supported::OnlySha512 => config.set_supported_integrity(IntegrityAlgorithm::Sha512),
        Supported::Both => {
            config.set_supported_integrity(IntegrityAlgorithm::Sha1);
            config.add_supported_integrity(IntegrityAlgorithm::Sha256);
        }
        Supported::All => {
            config.set_supported_integrity(IntegrityAlgorithm::Sha1);
            config.add_supported_integrity(IntegrityAlgorithm::Sha256);
            config.add_supported_integrity(IntegrityAlgorithm::Sha512);
        }
    }
}

/// Returns the server core's authenticator, which knows the client's user and no other.
pub(crate) fn server_of(
    alloc: Global,
    setting: &Setting<'_>,
) -> Result<LongTermServerAuth, NoMemory>
    requires { length setting.now.realm.now ≤ longest_text }
    ensures { IfOk result (λ server. server ≡ server_of setting.now) }
{
    let realm = String::from_str(alloc, setting.realm)?;
    let mut server = LongTermServerAuth::new(alloc, realm);
    server.set_anonymous_username(setting.takes);
    take(&mut server, setting.others);
    match know(alloc, &mut server, setting.name, setting.password) {
        Ok(()) => Ok(server),
        Err(error) => {
            drop(server);
            Err(error)
        }
    }
}

/// Makes a server core support exactly these algorithms.
fn take(server: &mut LongTermServerAuth, others: Supported)
    ensures { server.new ≡ record server.old { algorithms = algorithms_of others } }
{
    match others {
        Supported::OnlySha1 => server.set_supported_integrity(IntegrityAlgorithm::Sha1),
        Supported::OnlySha256 => server.set_supported_integrity(IntegrityAlgorithm::Sha256),
        Supported::OnlySha512 => server.set_supported_integrity(IntegrityAlgorithm::Sha512),
        Supported::Both => {
            server.set_supported_integrity(IntegrityAlgorithm::Sha1);
            server.add_supported_integrity(IntegrityAlgorithm::Sha256);
        }
        Supported::All => {
            server.set_supported_integrity(IntegrityAlgorithm::Sha1);
            server.add_supported_integrity(IntegrityAlgorithm::Sha256);
            server.add_supported_integrity(IntegrityAlgorithm::Sha512);
        }
    }
}

/// Adds a user to a server core.
fn know(
    alloc: Global,
    server: &mut LongTermServerAuth,
    name: &str,
    password: &str,
) -> Result<(), NoMemory>
    ensures { OnOk result (server.new ≡ record server.old {
      users = map.insert server.old.users name.now password.now;
    }) }
{
    let name = String::from_str(alloc, name)?;
    let password = String::from_str(alloc, password)?;
    server.add_user(LongTermCredentials::new(name, password))
}

//! The calls that open and close a client.

ghost use Rattle.std.specs.Prelude.{◌≡◌, ◌≢◌, ◌≤◌, [], IfOk, IfSome, None, length};
ghost use Rattle.stun_types_wire.specs.Registry.{longest_username};
ghost use Rattle.stun_types_base.specs.declared.transport.TransportType.TheVariants.{Udp};
ghost use Rattle.turn_client_c_calls.specs.Codes.{ok};
ghost use Rattle.turn_client_c_calls.specs.Opened.{HoldsOpened, IsStarted, WhyNot};
ghost use Rattle.turn_client_c_types.specs.Settings.{config_of};

use crate::handle::{TurnHandle, may_go_to_another_thread};
use crate::lengths::is_bad_length;
use crate::status;
use crate::whole::HandleState;
use std::alloc::Global;
use std::net::SocketAddr;
use stun_types_base::memory::NoMemory;
use stun_types_base::transport::TransportType;
use stun_types_wire::registry::MAX_USERNAME_LENGTH;
use turn_client_c_types::address::TurnAddress;
use turn_client_c_types::settings::{TurnSeed, TurnSettings};
use turn_client_proto::client::TurnClient;
use turn_client_proto::tcp::TurnClientTcp;
use turn_client_proto::udp::TurnClientUdp;
use turn_client_proto_api::config::TurnConfig;

/// Creates a client over a transport, between two addresses. Over UDP its allocation has to be over
/// UDP.
fn make(
    alloc: Global,
    transport: TransportType,
    local: SocketAddr,
    server: SocketAddr,
    config: TurnConfig,
    seed: [u8; 32],
) -> Result<TurnClient, NoMemory>
    requires name { length config.credentials.username ≤ longest_username }
    requires transport { transport ≡ Udp → config.transport ≡ Udp }
    ensures { IfOk result (IsStarted transport local server config seed) }
{
    match transport {
        TransportType::Udp => {
            let client = TurnClientUdp::allocate(alloc, local, server, config, seed)?;
            Ok(TurnClient::Udp(client))
        }
        TransportType::Tcp => {
            let client = TurnClientTcp::allocate(alloc, local, server, config, seed)?;
            Ok(TurnClient::Tcp(client))
        }
    }
}

/// Creates a client of this user in a box. `None` if an allocation fails.
fn begin(
    alloc: Global,
    settings: &TurnSettings,
    transport: TransportType,
    peers: TransportType,
    local: SocketAddr,
    server: SocketAddr,
    username: &str,
    password: &str,
    seed: [u8; 32],
) -> Option<Box<HandleState>>
    requires name { length username.now ≤ longest_username }
    requires over_udp { transport ≡ Udp → peers ≡ Udp }
    ensures { IfSome result (λ whole. whole.value.joined.items ≡ []
        × IsStarted transport local server (config_of settings.now peers (record {
          username = username.now;
          password = password.now;
        })) seed whole.value.client) }
{
    let config = settings.config(alloc, username, password, peers).ok()?;
    let client = make(alloc, transport, local, server, config, seed).ok()?;
    let joined = Vec::new(alloc);
    Box::new(alloc, HandleState { client, joined }).ok()
}

/// Opens a client of this user. Nothing is sent yet.
pub fn turn_client_open(
    alloc: Global,
    client: &mut TurnHandle,
    settings: &TurnSettings,
    username: &[u8],
    password: &[u8],
    seed: &TurnSeed,
) -> i32
    ensures opened { result ≡ ok → HoldsOpened settings.now username.now password.now
        seed.now.bytes client.new.boxed_client.value }
    ensures stays { result ≢ ok → client.new.boxed_client.value ≡ client.old.boxed_client.value }
    ensures why { WhyNot client.old.boxed_client.value settings.now username.now password.now
        seed.now.bytes result }
{
    if client.is_open {
        return status::ALREADY_OPEN;
    }
    if !settings.has_size() {
        return status::BAD_SETTING;
    }
    let (Some(local), Some(server)) = (settings.local.to_socket(), settings.server.to_socket())
    else {
        return status::BAD_FAMILY;
    };
    let Some((transport, peers)) = settings.transports() else {
        return status::BAD_SETTING;
    };
    if is_bad_length(username.len()) {
        return status::BAD_LENGTH;
    }
    if is_bad_length(password.len()) {
        return status::BAD_LENGTH;
    }
    let (Ok(username), Ok(password)) = (str::from_utf8(username), str::from_utf8(password)) else {
        return status::BAD_TEXT;
    };
    if username.len() > MAX_USERNAME_LENGTH {
        return status::LONG_NAME;
    }
    if seed.is_zero() {
        return status::ZERO_SEED;
    }
    match begin(
        alloc, settings, transport, peers, local, server, username, password, seed.bytes,
    ) {
        Some(whole) => {
            client.put(whole);
            status::OK
        }
        None => status::NO_MEMORY,
    }
}

/// Closes a client: frees it, and sends nothing to the server.
pub fn turn_client_close(alloc: Global, client: &mut TurnHandle)
    ensures { client.new.boxed_client.value ≡ None }
{
    may_go_to_another_thread(client);
    let _whole = client.take(alloc);
}

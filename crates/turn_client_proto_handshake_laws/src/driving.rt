//! A driver of a client that receives nothing.

ghost use Rattle.std.specs.Prelude.{◌≡◌, ◌≢◌, ◌⊎◌, ◌≤◌, ◌^◌, ℕ, length, IfNone, IfSome};
ghost use Rattle.turn_client_proto_api.specs.StunProtoTransaction.Schedule.{end_at};
ghost use Rattle.turn_client_proto_api.specs.StunTypesWire.Registry.{longest_username};
ghost use Rattle.turn_client_proto_core.specs.Beginning.{IsNew};
ghost use Rattle.turn_client_proto_core.specs.declared.protocol.Protocol.{Protocol};
ghost use Rattle.turn_client_proto_handshake_laws.specs.Driving.{HasStopped, IsDrivenBy, IsStep};
ghost use Rattle.turn_client_proto_handshake_laws.specs.declared.driving.Stage.TheVariants.{Astray, Drawing, Over, Polling};

use crate::unanswered::unanswered_clients_end;
use std::alloc::Global;
use std::net::SocketAddr;
use stun_types_base::instant::Instant;
use stun_types_base::memory::NoMemory;
use stun_types_base::transport::TransportType;
use turn_client_proto_api::answer::TurnPollRet;
use turn_client_proto_api::config::TurnConfig;
use turn_client_proto_core::protocol::Protocol;
use turn_client_proto_messages::laws::proof_requests_are_lawful;
use turn_client_proto_messages::request::TurnRequest;
use turn_client_proto_timers::drawing::poll_transmit;
use turn_client_proto_timers::polling::poll;

/// The latest time at which a client may be called, in nanoseconds.
const CLIENT_END: u64 = 1 << 62;

/// What the driver of a client does next.
#[derive(Debug, Drop, PartialEq, Eq)]
pub enum Stage {
    /// It calls `poll_transmit` at this time.
    Drawing(Instant),
    /// `poll_transmit` returned nothing: it calls `poll`.
    Polling(Instant),
    /// The client was closed at this time: only its events are left to take.
    Over(Instant),
    /// Memory ran out at this time: only its events are left to take.
    Failed(Instant),
    /// The client requests that a socket be opened or closed, and the driver has none.
    Astray,
}

/// Creates a client and drives it from time `made`, by at most `calls` calls.
///
/// If the client is closed, this happens at the end of the schedule of its settings, by
/// [`unanswered_clients_end`]. It never requests a socket.
pub fn drive_new(
    alloc: Global,
    transport: TransportType,
    local: SocketAddr,
    remote: SocketAddr,
    config: TurnConfig,
    seed: [u8; 32],
    made: Instant,
    calls: u32,
) -> (Protocol, Stage)
    requires { length config.credentials.username ≤ longest_username }
    ensures driven { (old : Protocol) × (many : ℕ)
        × IsNew transport local remote config seed old
        × IsDrivenBy many (Drawing made) old result.1 result.0
        × ((many ≡ calls) ⊎ HasStopped result.1) }
    ensures closed { (now : ℕ) → result.1 ≡ Over now → now ≡ end_at made config.waits }
    ensures found { result.1 ≢ Astray }
{
    unanswered_clients_end();
    let allocates = config.allocation_transport();
    let families = config.requested_families();
    let options = config.allocate_options();
    proof_requests_are_lawful(&TurnRequest::FirstAllocate(allocates, families, options));
    let mut client = Protocol::new(alloc, transport, local, remote, config, seed);
    let stage = drive(&mut client, made, calls);
    (client, stage)
}

/// Drives a client from time `made`, by `calls` calls, or until there is nothing more to do.
pub fn drive(client: &mut Protocol, made: Instant, calls: u32) -> Stage
    ensures { (many : ℕ) × (many ≤ calls)
        × IsDrivenBy many (Drawing made) client.old result client.new
        × ((many ≡ calls) ⊎ HasStopped result) }
{
    let mut stage = Stage::Drawing(made);
    for _ in 0..calls {
        let Some(next) = go_on(client, &stage) else {
            return stage;
        };
        stage = next;
    }
    stage
}

/// Makes the next call at this stage. Returns `None`, and changes nothing, if there is nothing more
/// to do.
fn go_on(client: &mut Protocol, stage: &Stage) -> Option<Stage>
    ensures some { IfSome result (λ next. IsStep stage.now client.old next client.new) }
    ensures none { IfNone result (HasStopped stage.now × (client.new ≡ client.old)) }
{
    match *stage {
        Stage::Drawing(now) if now.as_nanos() <= CLIENT_END => Some(draw(client, now)),
        Stage::Polling(now) if now.as_nanos() <= CLIENT_END => Some(ask(client, now)),
        _ => None,
    }
}

/// Calls `poll_transmit` at a time, and returns the next stage.
fn draw(client: &mut Protocol, now: Instant) -> Stage
    requires { now ≤ 2 ^ 62 }
    ensures { IsStep (Drawing now) client.old result client.new }
{
    match poll_transmit(client, &None, now) {
        Ok(Some(_)) => Stage::Drawing(now),
        Ok(None) => Stage::Polling(now),
        Err(NoMemory) => Stage::Failed(now),
    }
}

/// Calls `poll` at a time, and returns the next stage.
fn ask(client: &mut Protocol, now: Instant) -> Stage
    requires { now ≤ 2 ^ 62 }
    ensures { IsStep (Polling now) client.old result client.new }
{
    match poll(client, &mut None, now) {
        TurnPollRet::WaitUntil(time) => Stage::Drawing(time),
        TurnPollRet::AllocateTcpSocket { .. } | TurnPollRet::TcpClose { .. } => Stage::Astray,
        TurnPollRet::Closed => Stage::Over(now),
        TurnPollRet::NoMemory => Stage::Failed(now),
    }
}

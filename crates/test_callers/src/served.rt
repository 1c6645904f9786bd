//! The server's side: validated requests and the responses to them, and a server core that
//! challenges.

ghost use Rattle.std.specs.Prelude.{◌≡◌, ◌∷◌, [], ℕ, List, IfOk, MatchOption, OnOk};
ghost use Rattle.std.specs.declared.net.socket_addr.SocketAddr.{SocketAddr as Address};
ghost use Rattle.stun_types.specs.Attributes.{kind_at};
ghost use Rattle.stun_types.specs.IntegrityAlgorithms.{IntegrityAlgorithm};
ghost use Rattle.stun_types.specs.MessageClasses.{Request};
ghost use Rattle.stun_types.specs.Types.{class_of};
ghost use Rattle.stun_proto.specs.Server.{refreshed};
ghost use Rattle.stun_proto.specs.ServerValidation.{Accepts};
ghost use Rattle.turn_desk.specs.Decisions.{Allocate};
ghost use Rattle.turn_desk.specs.Requests.{IsServed};

use crate::user::server;
use rand_core::Rng;
use std::alloc::Global;
use std::net::{IpAddr, Ipv4Addr, SocketAddr};
use stun_proto::Instant;
use stun_proto::auth::LongTermServerAuth;
use stun_types::message::{Message, MessageWriteVec};
use stun_types::prelude::MessageWrite;
use stun_types::{ListOf, NoMemory};
use turn_desk::{Decision, Desk};

/// Builds a success response to a request of a user of the server, signed with the key that
/// validates the request. Fails if the request doesn't validate.
pub(crate) fn serve<R: Rng>(
    alloc: Global,
    server: &mut LongTermServerAuth,
    request: &Message,
    from: SocketAddr,
    now: Instant,
    words: &mut R,
) -> anyhow::Result<Vec<u8>>
    requires { class_of (kind_at request.now) ≡ Request }
    ensures { OnOk result ((algorithm : IntegrityAlgorithm) × (name : List ℕ)
        × Accepts (refreshed server.old from now (R.stream words.old)) from request.now
        algorithm name) }
{
    server.validate_incoming_message(request, from, now, words)?;
    let reply = Message::builder_success(request, MessageWriteVec::new(alloc))?;
    let reply = server.sign_outgoing_message(reply, from)?;
    Ok(reply.finish())
}

/// Returns the reply of a new server core to bytes from an address. The server knows one user and
/// allocates 203.0.113.5:50000 for ten minutes. Returns `None` if the bytes are no request that a
/// server core serves.
pub(crate) fn allocate<R: Rng>(
    alloc: Global,
    bytes: &[u8],
    from: SocketAddr,
    words: &mut R,
) -> Result<Option<Vec<u8>>, NoMemory>
    ensures { IfOk result (λ reply.
        MatchOption reply (¬ IsServed bytes.now) (λ _. IsServed bytes.now)) }
{
    match server(alloc) {
        Ok(server) => {
            let mut desk = Desk::new(alloc, server);
            let answer = relay(alloc, &mut desk, bytes, from, words);
            drop(desk);
            answer
        }
        Err(error) => Err(error),
    }
}

/// Returns the reply of a server core, which allocates 203.0.113.5:50000 for ten minutes, to bytes
/// from an address. Returns `None` if the bytes are no request that a server core serves.
fn relay<R: Rng>(
    alloc: Global,
    desk: &mut Desk,
    bytes: &[u8],
    from: SocketAddr,
    words: &mut R,
) -> Result<Option<Vec<u8>>, NoMemory>
    ensures { IfOk result (λ reply.
        MatchOption reply (¬ IsServed bytes.now) (λ _. IsServed bytes.now)) }
{
    match decision(alloc) {
        Ok(decision) => {
            let answer = desk.handle(bytes, from, Instant::ZERO, &decision, words);
            drop(decision);
            answer
        }
        Err(error) => Err(error),
    }
}

/// Returns the decision to allocate 203.0.113.5:50000 for ten minutes.
pub(crate) fn decision(alloc: Global) -> Result<Decision, NoMemory>
    ensures { IfOk result (λ decision. (relayed : Address)
        × (decision ≡ Allocate (relayed ∷ []) 600)) }
{
    let mut addresses = ListOf::new(alloc);
    let relayed = SocketAddr::new(IpAddr::V4(Ipv4Addr::new(203, 0, 113, 5)), 50_000);
    match addresses.push(relayed) {
        Ok(()) => Ok(Decision::Allocate {
            addresses,
            lifetime: 600,
        }),
        Err(error) => {
            drop(addresses);
            Err(error)
        }
    }
}

//! Events for the server core.

ghost use Rattle.std.specs.Prelude.{IfOk};
ghost use Rattle.turn_desk_world.specs.Desks.{IsDeskAnswered, words_of};

use crate::typed::{proof_are_bytes, proof_numbers_have_four_bytes};
use rand_chacha::ChaCha20Rng;
use rand_core::SeedableRng;
use std::net::SocketAddr;
use stun_types_base::instant::Instant;
use stun_types_base::memory::NoMemory;
use turn_desk_core::decision::Decision;
use turn_desk_core::desk::Desk;
use turn_desk_event::answer::Answer;

/// Passes bytes to the server core, which takes its random words from the generator with this seed.
pub(crate) fn ask(
    desk: &mut Desk,
    bytes: &[u8],
    from: SocketAddr,
    now: Instant,
    decision: &Decision,
    seed: [u8; 32],
) -> Result<Answer, NoMemory>
    ensures { IfOk result (λ answer. IsDeskAnswered answer desk.old bytes.now from now
        decision.now seed desk.new) }
{
    proof_are_bytes(bytes);
    proof_numbers_have_four_bytes(decision);
    let mut words = ChaCha20Rng::from_seed(seed);
    match desk.handle(bytes, from, now, decision, &mut words) {
        Ok(Some(reply)) => {
            proof_are_bytes(reply.as_slice());
            Ok(Answer::Reply(reply))
        }
        Ok(None) => Ok(Answer::Nothing),
        Err(error) => Err(error),
    }
}

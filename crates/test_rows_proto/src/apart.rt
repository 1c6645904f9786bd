//! A sequence of calls for two addresses.

ghost use Rattle.std.specs.Prelude.{◌≡◌, ◌≢◌, [], ◌∷◌, None, OnOk};
ghost use Rattle.stun_proto_server.specs.AuthCalls as call;
ghost use Rattle.stun_proto_server.specs.AuthRuns.{IsAuthRun};
ghost use Rattle.stun_proto_server.specs.Server.{nonce_at, refreshed};

use crate::calls::{refresh, remove_client};
use rand_core::Rng;
use std::net::SocketAddr;
use stun_proto_server::laws::addresses_are_isolated;
use stun_proto_server::long_term::LongTermServerAuth;
use stun_types_base::instant::Instant;
use stun_types_base::memory::NoMemory;

/// Refreshes the nonce of `one` and that of `other`, and then removes `other`. The calls are a run,
/// and by the theorem the nonce of `one` is what it would be if `other` had never called, if the
/// server has no limit on addresses.
pub fn draw_apart<R: Rng>(
    server: &mut LongTermServerAuth,
    one: SocketAddr,
    other: SocketAddr,
    now: Instant,
    rng: &mut R,
    again: &mut R,
) -> Result<(), NoMemory>
    ensures run { OnOk result (IsAuthRun server.old
        ((call.Refresh one now (R.stream rng.old), call.Refreshed (R.stream rng.new))
        ∷ (call.Refresh other now (R.stream again.old), call.Refreshed (R.stream again.new))
        ∷ (call.RemoveClient other, call.Done) ∷ []) server.new) }
    ensures nonce { OnOk result (one ≢ other → server.old.max_clients ≡ None
        → nonce_at server.new one
        ≡ nonce_at (refreshed server.old one now (R.stream rng.old)) one) }
{
    refresh(server, one, now, rng)?;
    refresh(server, other, now, again)?;
    remove_client(server, other);
    addresses_are_isolated();
    Ok(())
}

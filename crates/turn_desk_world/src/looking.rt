//! Looks at the client.

ghost use Rattle.std.specs.Prelude.{◌≡◌, IfOk, string_bytes};
ghost use Rattle.turn_client_proto.specs.Clients.{noted_of};
ghost use Rattle.turn_desk_world.specs.Replay.{seen_text};

use std::alloc::{AllocError, Global};
use turn_client_proto::api::TurnClientApi;
use turn_client_proto::client::TurnClient;
use turn_desk_event::print::{alternate_line, cause_line, mapped_line};
use turn_desk_trace::look::Look;

/// Returns the line that prints what a getter of the client says. Fails only if an allocation
/// fails.
pub(crate) fn look_at(alloc: Global, client: &TurnClient, look: Look) -> Result<String, AllocError>
    ensures { IfOk result (λ text. string_bytes text ≡ seen_text look (noted_of client.now)) }
{
    match look {
        Look::Cause => cause_line(alloc, client.cause()),
        Look::Mapped => mapped_line(alloc, client.mapped_address()),
        Look::Alternate => {
            alternate_line(alloc, client.alternate_server(), client.alternate_domain())
        }
    }
}

//! Responses: one that rejects a request, and one that names other servers.

ghost use Rattle.std.specs.Prelude.{◌≡◌, ◌∷◌, [], IfOk, OnOk};
ghost use Rattle.stun_types.specs.Adding.{IsStarted};
ghost use Rattle.stun_types.specs.Attributes.{kind_at};
ghost use Rattle.stun_types.specs.Grammar.{number_at};
ghost use Rattle.stun_types.specs.MessageClasses.{Request};
ghost use Rattle.stun_types.specs.Objections.{error_attribute, error_type};
ghost use Rattle.stun_types.specs.Text.{message_text};
ghost use Rattle.stun_types.specs.Types.{class_of};
ghost use Rattle.test_callers.specs.Redirected.{GrowsBy};

use std::alloc::Global;
use std::net::SocketAddr;
use stun_types::attribute::{AlternateServer, ErrorCode};
use stun_types::message::{Message, MessageWriteVec, StunWriteError, add_as};
use stun_types::prelude::MessageWrite;

/// Builds an error response to a request, with an ERROR-CODE of this code and the code's default
/// reason.
pub(crate) fn reject(alloc: Global, request: &Message, code: u16) -> Result<Vec<u8>, StunWriteError>
    requires { class_of (kind_at request.now) ≡ Request }
    ensures { IfOk result (λ reply. reply.items ≡ message_text
        (error_type request.now) (number_at request.now) (error_attribute code ∷ [])) }
{
    let error = ErrorCode::builder(code).build(alloc)?;
    let mut reply = Message::builder_error(request, MessageWriteVec::new(alloc))?;
    add_as(&mut reply, &error, &error)?;
    Ok(reply.finish())
}

/// Adds an ALTERNATE-SERVER for each address to a message that is being built. Fails as adding an
/// attribute does; the attributes before the failing one stay added.
#[tactic(auto, using(crate::proofs::Growing::grows_by_none, crate::proofs::Growing::grows_by_one))]
pub(crate) fn redirect<W: MessageWrite>(
    writer: &mut W,
    servers: &[SocketAddr],
) -> Result<(), StunWriteError>
    requires { IsStarted (W.draft writer.old).bytes }
    ensures started { IsStarted (W.draft writer.new).bytes }
    ensures added { OnOk result (GrowsBy servers.now
        (W.draft writer.old).bytes (W.draft writer.new).bytes) }
{
    for server in servers {
        let alternate = AlternateServer::new(*server);
        add_as(writer, &alternate, &alternate)?;
    }
    Ok(())
}

//! Deletion of the allocations (RFC 8656, section 8.1).

ghost use Rattle.std.specs.Prelude.{◌≡◌, OnOk, OnErr, map};
ghost use Rattle.turn_client_proto_allocation.specs.Refreshing.{deleted};
ghost use Rattle.turn_client_proto_core.specs.Asking.{requested};
ghost use Rattle.turn_client_proto_core.specs.Deleting.{IsDeleteAnswered};
ghost use Rattle.turn_client_proto_core.specs.Numbering.{IsUnused};
ghost use Rattle.turn_client_proto_messages.specs.declared.request.TurnRequest.TheVariants.{Refresh};

use stun_types_base::instant::Instant;
use stun_types_base::memory::NoMemory;
use stun_types_wire::transaction::TransactionId;
use turn_client_proto_allocation::refresh::PendingRefresh;
use turn_client_proto_api::error::DeleteError;
use turn_client_proto_core::protocol::Protocol;
use turn_client_proto_messages::request::TurnRequest;

/// Queues a REFRESH with lifetime 0, which asks the server to delete the allocations (RFC 8656,
/// section 8.1). Marks each allocation as expired and removes its permissions and channels.
///
/// # Errors
///
/// - `NoAllocation`: the server has allocated nothing, or the client has ended. Nothing changed.
/// - `NoMemory`: a memory allocation failed. Nothing changed except that random words were
///   generated.
pub fn delete(protocol: &mut Protocol, now: Instant) -> Result<(), DeleteError>
    ensures { IsDeleteAnswered protocol.old now result protocol.new }
{
    if !protocol.is_authenticated() {
        return Err(DeleteError::NoAllocation);
    }
    let Ok(number) = protocol.generate_id() else {
        return Err(DeleteError::NoMemory);
    };
    match delete_by(protocol, number, now) {
        Ok(()) => Ok(()),
        Err(NoMemory) => Err(DeleteError::NoMemory),
    }
}

/// Requests the deletion by a REFRESH with this transaction ID. After an error nothing has changed.
fn delete_by(
    protocol: &mut Protocol,
    transaction_id: TransactionId,
    now: Instant,
) -> Result<(), NoMemory>
    requires unused { IsUnused protocol.old.agent transaction_id }
    ensures ok { OnOk result (protocol.new ≡ record
        (requested protocol.old (Refresh 0) transaction_id now) {
          allocations = map (deleted transaction_id now) protocol.old.allocations;
        }) }
    ensures err { OnErr result (protocol.new ≡ protocol.old) }
{
    let refresh = PendingRefresh {
        number: transaction_id,
        lifetime: 0,
    };
    protocol.allocations.await_refresh(&refresh)?;
    match protocol.ask(transaction_id, TurnRequest::Refresh(0), now) {
        Ok(()) => {
            protocol.allocations.end(now);
            Ok(())
        }
        Err(e) => {
            protocol.allocations.forget_refresh();
            Err(e)
        }
    }
}

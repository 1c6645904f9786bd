//! The calls by which time passes, and events are taken.

ghost use Rattle.turn_client_c_calls.specs.Calls.{OnClient};
ghost use Rattle.turn_client_c_calls.specs.Waits.{IsEventReported, IsExpiredReported, IsPollReported};

use crate::getters::TurnRelayed;
use crate::handle::TurnHandle;
use crate::status;
use std::alloc::Global;
use stun_types_base::instant::Instant;
use turn_client_c_types::address::number_of;
use turn_client_c_types::event::TurnClientEvent;
use turn_client_c_types::reported::TurnWait;
use turn_client_proto::api::TurnClientApi;
use turn_client_proto_api::answer::TurnPollRet;

/// Does what is due at `now`. Writes until when there is nothing to do, or which connection to the
/// server is to be opened or closed.
#[tactic(auto, using(crate::proofs::Reporting::poll_reported))]
pub fn turn_client_poll(
    alloc: Global,
    client: &mut TurnHandle,
    now: u64,
    wait: &mut TurnWait,
) -> i32
    ensures { OnClient client.old.boxed_client.value client.new.boxed_client.value result
        (IsPollReported now result wait.old wait.new) }
{
    let Some(mut whole) = client.take(alloc) else {
        return status::NO_CLIENT;
    };
    let answer = whole.client.poll(Instant::from_nanos(now));
    client.put(whole);
    match answer {
        TurnPollRet::WaitUntil(time) => {
            wait.report_until(time);
            status::OK
        }
        TurnPollRet::AllocateTcpSocket {
            id,
            socket,
            peer_addr,
        } => {
            wait.report_open(id, socket, peer_addr);
            status::OPEN_SOCKET
        }
        TurnPollRet::TcpClose {
            local_addr,
            remote_addr,
        } => {
            wait.report_close(local_addr, remote_addr);
            status::CLOSE_SOCKET
        }
        TurnPollRet::Closed => status::CLOSED,
        TurnPollRet::NoMemory => status::NO_MEMORY,
    }
}

/// Writes the oldest queued event.
#[tactic(auto, using(crate::proofs::Reporting::event_reported))]
pub fn turn_client_event(alloc: Global, client: &mut TurnHandle, event: &mut TurnClientEvent) -> i32
    ensures { OnClient client.old.boxed_client.value client.new.boxed_client.value result
        (IsEventReported result event.old event.new) }
{
    let Some(mut whole) = client.take(alloc) else {
        return status::NO_CLIENT;
    };
    let answer = whole.client.poll_event();
    client.put(whole);
    match answer {
        Some(happened) => {
            event.report(happened);
            status::OK
        }
        None => status::NOTHING,
    }
}

/// Writes the oldest allocation that was removed because its time was over and that was not written
/// yet (RFC 8656, section 6).
#[tactic(auto, using(crate::proofs::Reporting::expired_reported))]
pub fn turn_client_expired(alloc: Global, client: &mut TurnHandle, expired: &mut TurnRelayed) -> i32
    ensures { OnClient client.old.boxed_client.value client.new.boxed_client.value result
        (IsExpiredReported result expired.old expired.new) }
{
    let Some(mut whole) = client.take(alloc) else {
        return status::NO_CLIENT;
    };
    let answer = whole.client.poll_expired();
    client.put(whole);
    match answer {
        Some(gone) => {
            expired.transport = number_of(gone.transport);
            expired.address.report(&gone.relayed);
            status::OK
        }
        None => status::NOTHING,
    }
}

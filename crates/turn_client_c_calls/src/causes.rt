//! The calls that report why events happened, and which addresses the server named.

ghost use Rattle.std.specs.Prelude.{◌≡◌, length};
ghost use Rattle.std.specs.Option.{option_copied};
ghost use Rattle.turn_client_c_calls.specs.Calls.{Unless};
ghost use Rattle.turn_client_c_calls.specs.Causes.{Reads, cause_noted, cause_status, domain_status, domain_written, mapped_reported, mapped_status, reason_status, reason_written, reservation_reported, reservation_status, text_status, text_written};
ghost use Rattle.turn_client_c_calls.specs.Codes.{bad_length};
ghost use Rattle.turn_client_c_calls.specs.Lengths.{is_bad_length};

use crate::handle::TurnHandle;
use crate::lengths::is_bad_length;
use crate::status;
use crate::traffic::write_head;
use std::alloc::Global;
use turn_client_c_types::address::TurnAddress;
use turn_client_c_types::cause::{TurnClientCause, reason_of};
use turn_client_proto::api::TurnClientApi;

/// Copies a text to the start of a buffer, and returns the status of that.
fn report_text(text: Option<&str>, out: &mut [u8]) -> i32
    ensures status { result ≡ text_status (length out.old) (option_copied text.entry) }
    ensures bytes { out.new ≡ text_written (option_copied text.entry) out.old }
{
    match text {
        Some(text) => {
            if write_head(out, text.as_bytes()) {
                status::OK
            } else {
                status::SMALL_BUFFER
            }
        }
        None => status::NOTHING,
    }
}

/// Writes why the event that `turn_client_event` wrote last happened, and the server that a
/// response 300 named (RFC 8489, section 10).
pub fn turn_client_cause(alloc: Global, client: &mut TurnHandle, cause: &mut TurnClientCause) -> i32
    ensures { Reads cause_status cause_noted client.old.boxed_client.value
        client.new.boxed_client.value result cause.old cause.new }
{
    let Some(whole) = client.take(alloc) else {
        return status::NO_CLIENT;
    };
    cause.report(
        whole.client.cause(),
        whole.client.alternate_server(),
        whole.client.alternate_domain(),
    );
    client.put(whole);
    status::OK
}

/// Copies the reason phrase of the error response by which the server rejected the request (RFC
/// 8489, section 14.8) to the start of a buffer.
pub fn turn_client_reason(alloc: Global, client: &mut TurnHandle, out: &mut [u8]) -> i32
    ensures { Unless (is_bad_length (length out.old)) bad_length client.old.boxed_client.value
        client.new.boxed_client.value result
        (Reads (reason_status (length out.old)) reason_written client.old.boxed_client.value
        client.new.boxed_client.value result out.old out.new) }
{
    if is_bad_length(out.len()) {
        return status::BAD_LENGTH;
    }
    let Some(whole) = client.take(alloc) else {
        return status::NO_CLIENT;
    };
    let status = report_text(reason_of(whole.client.cause()), out);
    client.put(whole);
    status
}

/// Copies the name of the domain of the server that a response 300 named (RFC 8489, section 14.16)
/// to the start of a buffer.
pub fn turn_client_domain(alloc: Global, client: &mut TurnHandle, out: &mut [u8]) -> i32
    ensures { Unless (is_bad_length (length out.old)) bad_length client.old.boxed_client.value
        client.new.boxed_client.value result
        (Reads (domain_status (length out.old)) domain_written client.old.boxed_client.value
        client.new.boxed_client.value result out.old out.new) }
{
    if is_bad_length(out.len()) {
        return status::BAD_LENGTH;
    }
    let Some(whole) = client.take(alloc) else {
        return status::NO_CLIENT;
    };
    let status = report_text(whole.client.alternate_domain(), out);
    client.put(whole);
    status
}

/// Writes the client's own address, as the server saw it (RFC 8656, section 7.3).
pub fn turn_client_mapped(alloc: Global, client: &mut TurnHandle, mapped: &mut TurnAddress) -> i32
    ensures { Reads mapped_status mapped_reported client.old.boxed_client.value
        client.new.boxed_client.value result mapped.old mapped.new }
{
    let Some(whole) = client.take(alloc) else {
        return status::NO_CLIENT;
    };
    let status = match whole.client.mapped_address() {
        Some(address) => {
            mapped.report(&address);
            status::OK
        }
        None => status::NOTHING,
    };
    client.put(whole);
    status
}

/// Writes the token of the port that the server reserved (RFC 8656, section 18.10).
pub fn turn_client_reservation(alloc: Global, client: &mut TurnHandle, token: &mut u64) -> i32
    ensures { Reads reservation_status reservation_reported client.old.boxed_client.value
        client.new.boxed_client.value result token.old token.new }
{
    let Some(whole) = client.take(alloc) else {
        return status::NO_CLIENT;
    };
    let status = match whole.client.reservation_token() {
        Some(reserved) => {
            *token = reserved;
            status::OK
        }
        None => status::NOTHING,
    };
    client.put(whole);
    status
}

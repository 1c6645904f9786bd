//! The calls that change how a client introduces itself in its requests.

ghost use Rattle.std.specs.Prelude.{◌≡◌, ◌≢◌, ◌≤◌, IfOk, length};
ghost use Rattle.stun_types_wire.specs.Registry.{longest_software};
ghost use Rattle.turn_client_c_calls.specs.Calls.{OnClient, OnCore};
ghost use Rattle.turn_client_c_calls.specs.Codes.{ok};
ghost use Rattle.turn_client_c_calls.specs.Speaking.{WhyNoSoftware, WhyNotSet, software_of};
ghost use Rattle.turn_client_proto.specs.Core.Speaking.{with_fingerprint, with_next_credentials, with_software};

use crate::handle::TurnHandle;
use crate::lengths::is_bad_length;
use crate::status;
use std::alloc::Global;
use stun_types_auth_attributes::software::Software;
use stun_types_base::memory::NoMemory;
use stun_types_wire::error::StunWriteError;
use stun_types_wire::registry::MAX_USERNAME_LENGTH;
use turn_client_proto::api::TurnClientApi;
use turn_types_attributes::credentials::TurnCredentials;

/// Sets other credentials, which replace the present ones with the next challenge that the client
/// accepts (RFC 8489, section 9.2.5).
pub fn turn_client_credentials(
    alloc: Global,
    client: &mut TurnHandle,
    username: &[u8],
    password: &[u8],
) -> i32
    ensures set { result ≡ ok → OnClient client.old.boxed_client.value
        client.new.boxed_client.value result (OnCore (λ old new. new ≡ with_next_credentials
        (record { username = username.now; password = password.now }) old)) }
    ensures stays { result ≢ ok → client.new.boxed_client.value ≡ client.old.boxed_client.value }
    ensures why { WhyNotSet client.old.boxed_client.value username.now password.now result }
{
    if is_bad_length(username.len()) || is_bad_length(password.len()) {
        return status::BAD_LENGTH;
    }
    let (Ok(username), Ok(password)) = (str::from_utf8(username), str::from_utf8(password)) else {
        return status::BAD_TEXT;
    };
    if username.len() > MAX_USERNAME_LENGTH {
        return status::LONG_NAME;
    }
    let Ok(credentials) = TurnCredentials::new(alloc, username, password) else {
        return status::NO_MEMORY;
    };
    let Some(mut whole) = client.take(alloc) else {
        return status::NO_CLIENT;
    };
    whole.client.set_credentials(credentials);
    client.put(whole);
    status::OK
}

/// Returns the SOFTWARE with this text; none, if the text is empty. Fails with `NoMemory` if an
/// allocation fails.
fn software_by(alloc: Global, text: &str) -> Result<Option<Software>, NoMemory>
    requires { length text.now ≤ longest_software }
    ensures { IfOk result (λ software. software ≡ software_of text.now) }
{
    if text.is_empty() {
        return Ok(None);
    }
    match Software::new(alloc, text) {
        Ok(software) => Ok(Some(software)),
        Err(StunWriteError::NoMemory) => Err(NoMemory),
        // Not reached: the text is short enough.
        Err(_) => unreachable!(),
    }
}

/// Sets the SOFTWARE that requests carry from now on (RFC 8489, section 14.14), or none, if the
/// text is empty.
pub fn turn_client_software(alloc: Global, client: &mut TurnHandle, text: &[u8]) -> i32
    ensures set { result ≡ ok → OnClient client.old.boxed_client.value
        client.new.boxed_client.value result
        (OnCore (λ old new. new ≡ with_software (software_of text.now) old)) }
    ensures stays { result ≢ ok → client.new.boxed_client.value ≡ client.old.boxed_client.value }
    ensures why { WhyNoSoftware client.old.boxed_client.value text.now result }
{
    if is_bad_length(text.len()) {
        return status::BAD_LENGTH;
    }
    let Ok(text) = str::from_utf8(text) else {
        return status::BAD_TEXT;
    };
    if text.len() > Software::MAX_LEN {
        return status::TOO_LARGE;
    }
    let Ok(software) = software_by(alloc, text) else {
        return status::NO_MEMORY;
    };
    let Some(mut whole) = client.take(alloc) else {
        return status::NO_CLIENT;
    };
    whole.client.set_software(software);
    client.put(whole);
    status::OK
}

/// Sets whether requests end with FINGERPRINT from now on (RFC 8489, section 14.7).
pub fn turn_client_fingerprint(alloc: Global, client: &mut TurnHandle, fingerprint: bool) -> i32
    ensures { OnClient client.old.boxed_client.value client.new.boxed_client.value result
        (λ old new. (result ≡ ok)
        × OnCore (λ old new. new ≡ with_fingerprint fingerprint old) old new) }
{
    let Some(mut whole) = client.take(alloc) else {
        return status::NO_CLIENT;
    };
    whole.client.set_fingerprint(fingerprint);
    client.put(whole);
    status::OK
}

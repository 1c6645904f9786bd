//! Lines for a server's authenticator.

ghost use Rattle.std.specs.Prelude.{◌≤◌, IfSome};

use crate::client::account;
use crate::line::Line;
use crate::party::Party;
use crate::signing::{push_made, started};
use crate::text::read_message;
use line_io::refusal::LineError;
use rand_chacha::ChaCha20Rng;
use rand_core::SeedableRng;
use std::alloc::Global;
use std::net::SocketAddr;
use std::time::Duration;
use stun_proto_server::long_term::{LongTermServerAuth, MIN_NONCE_EXPIRY};
use stun_types_wire::class::MessageClass;
use stun_types_wire::error::StunWriteError;
use stun_types_wire::registry::MAX_TEXT_LENGTH;
use stun_types_write::writer::MessageWrite;

/// Returns a server with a realm.
pub(crate) fn new_server(alloc: Global, realm: &str) -> Result<LongTermServerAuth, LineError> {
    if realm.len() > MAX_TEXT_LENGTH {
        return Err(LineError::Bad);
    }
    let realm = String::from_str(alloc, realm)?;
    Ok(LongTermServerAuth::new(alloc, realm))
}

impl Party for LongTermServerAuth {
    fn answer(
        &mut self,
        alloc: Global,
        line: &Line<'_>,
        bytes: &[u8],
        text: &mut String,
    ) -> Result<(), LineError> {
        match line.what {
            "tell" => report(self, text),
            "kept" => push_stored(self, line.address, text),
            "refresh" => refresh(self, line, text),
            "hear" => process(self, line, bytes, text),
            "sign" => sign(alloc, self, line, text),
            _ => {
                set_up(alloc, self, line)?;
                Ok(text.push_str("ok")?)
            }
        }
    }
}

/// Changes a server's settings as a line says.
fn set_up(
    alloc: Global,
    server: &mut LongTermServerAuth,
    line: &Line<'_>,
) -> Result<(), LineError> {
    match line.what {
        "user" => server.add_user(account(alloc, line)?)?,
        "remove-user" => server.remove_user(line.name),
        "forget" => server.remove_client(line.address),
        "set" => server.set_supported_integrity(line.algorithm),
        "add" => server.add_supported_integrity(line.algorithm),
        "names" => server.set_anonymous_username(line.anonymity),
        "limit" => server.set_max_clients(limit(line.length)),
        "expiry" => {
            if line.following.as_nanos() < Duration::from_secs(MIN_NONCE_EXPIRY).as_nanos() {
                return Err(LineError::Bad);
            }
            server.set_nonce_expiry_duration(line.following);
        }
        _ => return Err(LineError::Bad),
    }
    Ok(())
}

/// Returns the limit on addresses that a length stands for: none for 0.
fn limit(length: u16) -> Option<usize>
    ensures { IfSome result (λ most. 1 ≤ most) }
{
    match length {
        0 => None,
        most => Some(usize::from(most)),
    }
}

/// Appends a server's settings.
fn report(server: &LongTermServerAuth, text: &mut String) -> Result<(), LineError> {
    let (algorithms, anonymity) = (server.supported_integrity(), server.anonymous_username());
    Ok(write!(text, "{} {algorithms:?} {anonymity:?}", server.realm())?)
}

/// Generates a nonce for an address from a seed if none is valid at this time. Then appends what
/// the server stores for the address.
fn refresh(
    server: &mut LongTermServerAuth,
    line: &Line<'_>,
    text: &mut String,
) -> Result<(), LineError> {
    let mut words = ChaCha20Rng::from_seed([line.seed; 32]);
    server.refresh_nonce(line.address, line.now, &mut words)?;
    push_stored(server, line.address, text)
}

/// Appends a server's result of validating a message from an address at this time, with random
/// words from a seed. Then appends what the server stores for the address.
fn process(
    server: &mut LongTermServerAuth,
    line: &Line<'_>,
    bytes: &[u8],
    text: &mut String,
) -> Result<(), LineError> {
    let message = read_message(bytes)?;
    let mut words = ChaCha20Rng::from_seed([line.seed; 32]);
    match server.validate_incoming_message(&message, line.address, line.now, &mut words) {
        Ok(answer) => write!(text, "{answer:?} ")?,
        Err(error) => write!(text, "{error:?} ")?,
    }
    push_stored(server, line.address, text)
}

/// Appends what a server stores for an address.
fn push_stored(
    server: &LongTermServerAuth,
    address: SocketAddr,
    text: &mut String,
) -> Result<(), LineError> {
    write!(text, "{:?} ", server.nonce_for_client(address))?;
    match server.validated_user(address) {
        Some(user) => write!(text, "{} {:?}", user.name(), user.algorithm())?,
        None => text.push_str("-")?,
    }
    Ok(())
}

/// Appends how many bytes a server says that its signature adds to a message of this class to an
/// address, and the signed message.
fn sign(
    alloc: Global,
    server: &LongTermServerAuth,
    line: &Line<'_>,
    text: &mut String,
) -> Result<(), LineError> {
    let is_request = line.class == MessageClass::Request;
    let size = server.message_signature_bytes(line.address, is_request);
    write!(text, "{size} ")?;
    push_made(signed(alloc, server, line), text)
}

/// Returns a message of this class to an address as a server signs it, by either call.
fn signed(
    alloc: Global,
    server: &LongTermServerAuth,
    line: &Line<'_>,
) -> Result<[Vec<u8>; 2], StunWriteError> {
    let writer = started(alloc, line.class)?;
    let same = started(alloc, line.class)?;
    let signed = server.sign_outgoing_message(writer, line.address)?;
    let again = server.sign_outgoing_message_unchecked(same, line.address)?;
    Ok([signed.finish(), again.finish()])
}

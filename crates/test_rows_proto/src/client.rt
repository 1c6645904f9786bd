//! Lines for a client's authenticators.

use crate::line::Line;
use crate::party::Party;
use crate::signing::{push_made, started};
use crate::text::read_message;
use line_io::refusal::LineError;
use std::alloc::Global;
use stun_proto_client::long_term::LongTermClientAuth;
use stun_proto_client::short_term::ShortTermAuth;
use stun_types_integrity::credentials::{LongTermCredentials, ShortTermCredentials};
use stun_types_wire::class::MessageClass;
use stun_types_wire::error::StunWriteError;
use stun_types_write::writer::MessageWrite;

/// Returns the credentials that a line names.
pub(crate) fn account(alloc: Global, line: &Line<'_>) -> Result<LongTermCredentials, LineError> {
    let name = String::from_str(alloc, line.name)?;
    let password = String::from_str(alloc, line.password)?;
    Ok(LongTermCredentials::new(name, password))
}

impl Party for LongTermClientAuth {
    fn answer(
        &mut self,
        alloc: Global,
        line: &Line<'_>,
        bytes: &[u8],
        text: &mut String,
    ) -> Result<(), LineError> {
        match line.what {
            "tell" => return report(self, text),
            "sign" => return push_made(signed(alloc, self, line.class), text),
            "hear" => return process(self, bytes, text),
            "credentials" => self.set_credentials(account(alloc, line)?),
            "set" => self.set_supported_integrity(line.algorithm),
            "add" => self.add_supported_integrity(line.algorithm),
            "names" => self.set_anonymous_username(line.anonymity),
            "harden" => self.set_hardened(true),
            "soften" => self.set_hardened(false),
            _ => return Err(LineError::Bad),
        }
        Ok(text.push_str("ok")?)
    }
}

/// Appends a client's settings, the challenge that it stores, how many bytes its signature adds,
/// and `hardened` if the client is.
fn report(client: &LongTermClientAuth, text: &mut String) -> Result<(), LineError> {
    let account = match client.credentials() {
        Some(account) => Some((account.username(), account.password())),
        None => None,
    };
    let (algorithms, anonymity) = (client.supported_integrity(), client.anonymous_username());
    let (realm, nonce, integrity) = (client.realm(), client.nonce(), client.integrity());
    let size = client.message_signature_bytes();
    let settings = (account, algorithms, anonymity);
    write!(
        text,
        "{settings:?} {realm:?} {nonce:?} {integrity:?} {size}"
    )?;
    if client.is_hardened() {
        text.push_str(" hardened")?;
    }
    Ok(())
}

/// Appends a client's result of validating a message.
fn process(
    client: &mut LongTermClientAuth,
    bytes: &[u8],
    text: &mut String,
) -> Result<(), LineError> {
    let message = read_message(bytes)?;
    match client.validate_incoming_message(&message) {
        Ok(answer) => Ok(write!(text, "{answer:?}")?),
        Err(error) => Ok(write!(text, "{error:?}")?),
    }
}

/// Returns a message of this class as a client signs it, by either call.
fn signed(
    alloc: Global,
    client: &LongTermClientAuth,
    class: MessageClass,
) -> Result<[Vec<u8>; 2], StunWriteError> {
    let writer = started(alloc, class)?;
    let same = started(alloc, class)?;
    let signed = client.sign_outgoing_message(writer)?;
    let again = client.sign_outgoing_message_unchecked(same)?;
    Ok([signed.finish(), again.finish()])
}

impl Party for ShortTermAuth {
    fn answer(
        &mut self,
        alloc: Global,
        line: &Line<'_>,
        bytes: &[u8],
        text: &mut String,
    ) -> Result<(), LineError> {
        match line.what {
            "tell" => short_report(self, text),
            "sign" => push_made(short_signed(alloc, self, line.class), text),
            "hear" => {
                let message = read_message(bytes)?;
                Ok(write!(text, "{:?}", self.validate_incoming_message(&message))?)
            }
            "credentials" => {
                let password = String::from_str(alloc, line.password)?;
                self.set_credentials(ShortTermCredentials::new(password), line.algorithm);
                Ok(text.push_str("ok")?)
            }
            _ => Err(LineError::Bad),
        }
    }
}

/// Appends a short-term client's credentials, its key's algorithm, and how many bytes its signature
/// adds.
fn short_report(client: &ShortTermAuth, text: &mut String) -> Result<(), LineError> {
    let account = match client.credentials() {
        Some((secret, algorithm)) => Some((secret.password(), algorithm)),
        None => None,
    };
    let key = match client.integrity_key() {
        Some(key) => Some(key.algorithm()),
        None => None,
    };
    let size = client.message_signature_bytes();
    Ok(write!(text, "{account:?} {key:?} {size}")?)
}

/// Returns a message of this class as a short-term client signs it, by either call.
fn short_signed(
    alloc: Global,
    client: &ShortTermAuth,
    class: MessageClass,
) -> Result<[Vec<u8>; 2], StunWriteError> {
    let writer = started(alloc, class)?;
    let same = started(alloc, class)?;
    let signed = client.sign_outgoing_message(writer)?;
    let again = client.sign_outgoing_message_unchecked(same)?;
    Ok([signed.finish(), again.finish()])
}

//! Signing of messages that are sent.

ghost use Rattle.std.specs.Prelude.{◌≡◌, None, IsSome, IsSomeAnd, IfOk, false};
ghost use Rattle.std.specs.Result.{IsOk};
ghost use Rattle.stun_proto_verify.specs.Base.Refusals.{RefusesFor};
ghost use Rattle.stun_proto_verify.specs.Wire.Attributes.{kind_at};
ghost use Rattle.stun_proto_verify.specs.Wire.Types.{class_of};
ghost use Rattle.stun_proto_verify.specs.Write.Adding.{IsStarted};
ghost use Rattle.stun_proto_verify.specs.Auth.AdditionStages.{IsMade};
ghost use Rattle.stun_proto_verify.specs.Wire.declared.class.MessageClass.TheVariants.{Success};
ghost use Rattle.stun_proto_server.specs.ServerSigning.{addition_for};
ghost use Rattle.stun_proto_server.specs.ServerSigning.{class_requested as class_of_size, party_at};
ghost use Rattle.stun_proto_server.specs.ServerSigning.{signing_refusal_for, size_for};
ghost use Rattle.stun_proto_verify.specs.Write.Outcomes.{TakesNoMemory};

use crate::long_term::LongTermServerAuth;
use crate::party::{Party, SigningUser};
use crate::stun_types_base::memory::NoMemory;
use crate::stun_types_wire::class::MessageClass;
use crate::stun_types_wire::error::StunWriteError;
use crate::stun_types_write::writer::MessageWrite;
use std::net::SocketAddr;

impl LongTermServerAuth {
    /// Signs a message to an address with what is stored for that address, and returns the writer
    /// (RFC 8489, section 9.2). It adds the following attributes, in this order.
    ///
    /// If the last message from the address was validated for a user:
    ///
    /// - To a response: the integrity attribute, under the key of the user's present password in
    ///   the server's realm, with the algorithm of that validation.
    /// - To a request: USERNAME, REALM, NONCE, and that integrity attribute.
    /// - To an indication: nothing.
    ///
    /// If it was not validated:
    ///
    /// - To an error response: REALM; NONCE, with the stored nonce, valid or expired; and, if that
    ///   nonce announces password algorithms, PASSWORD-ALGORITHMS with the algorithms supported at
    ///   present, in their order.
    ///
    /// One integrity attribute is added at most, with the full digest.
    ///
    /// # Errors
    ///
    /// The first error is returned. A refusal drops the writer, and the server is unchanged.
    ///
    /// 1. `IntegrityFailed`: no nonce is stored for the address; or the last message from it was
    ///    not validated, and the message to be signed is not an error response; or the user for
    ///    whom it was validated no longer exists.
    /// 2. For each attribute before the integrity attribute, in order: `TooLarge` for a name over
    ///    513 bytes or a realm or nonce over 763 bytes, then the errors of `add_attribute`.
    /// 3. For the integrity attribute: the errors of `add_message_integrity`.
    /// 4. `NoMemory`: an allocation failed. It never occurs with a writer that has a size limit.
    pub fn sign_outgoing_message<W: MessageWrite + Drop>(
        &self,
        writer: W,
        to: SocketAddr,
    ) -> Result<W, StunWriteError>
        requires { IsStarted (W.draft writer).bytes }
        ensures ok { IfOk result (λ signed. IsSomeAnd
            (addition_for self.now to (class_of (kind_at (W.draft writer).bytes)))
            (λ made. IsMade made (W.draft writer) (W.draft signed))) }
        ensures cause { RefusesFor StunWriteError.NoMemory (signing_refusal_for
            (addition_for self.now to (class_of (kind_at (W.draft writer).bytes)))
            (W.draft writer)) result }
        ensures lent { TakesNoMemory (W.draft writer) result }
    {
        match self.party(to) {
            Some(party) => party.sign_for(writer),
            None => Err(StunWriteError::IntegrityFailed),
        }
    }

    /// Signs a message as `sign_outgoing_message` does. The caller has to know that nothing but a
    /// failed allocation can prevent it. The server is unchanged.
    ///
    /// # Errors
    ///
    /// - `NoMemory`: an allocation failed. The writer is dropped.
    pub fn sign_outgoing_message_unchecked<W: MessageWrite + Drop>(
        &self,
        writer: W,
        to: SocketAddr,
    ) -> Result<W, NoMemory>
        requires started { IsStarted (W.draft writer).bytes }
        requires accepted { signing_refusal_for
            (addition_for self.now to (class_of (kind_at (W.draft writer).bytes)))
            (W.draft writer) ≡ None }
        ensures ok { IfOk result (λ signed. IsSomeAnd
            (addition_for self.now to (class_of (kind_at (W.draft writer).bytes)))
            (λ made. IsMade made (W.draft writer) (W.draft signed))) }
        ensures lent { IsSome (W.draft writer).limit → IsOk result }
    {
        match self.sign_outgoing_message(writer, to) {
            Ok(signed) => Ok(signed),
            Err(StunWriteError::NoMemory) => Err(NoMemory),
            // The precondition rules out every other error.
            Err(_) => unreachable!(),
        }
    }

    /// Returns how many bytes `sign_outgoing_message` adds to a message to an address: to a
    /// request, or to a response if `is_request` is `false`. If the last message from the address
    /// was not validated, the response is an error response. The result is 0 if the message can't
    /// be signed, and if a text to be added is over its limit.
    pub fn message_signature_bytes(&self, to: SocketAddr, is_request: bool) -> usize
        ensures bytes { result ≡ size_for (addition_for self.now to
            (class_of_size is_request)) }
        // If a success response can be signed, the result holds for it as well as for an error
        // response.
        ensures success { is_request ≡ false → IsSome (addition_for self.now to Success) → result
            ≡ size_for (addition_for self.now to Success) }
    {
        self.bytes_for(to, class_requested(is_request))
    }

    /// Returns how many bytes `sign_outgoing_message` adds to a message of a class to an address.
    fn bytes_for(&self, to: SocketAddr, class: MessageClass) -> usize
        ensures { result ≡ size_for (addition_for self.now to class) }
    {
        match self.party(to) {
            Some(party) => party.bytes_for(class),
            None => 0,
        }
    }

    /// Collects what is known of the party at an address. It is `None` if no nonce is stored for
    /// the address, or if the user for whom it was validated no longer exists.
    fn party(&self, to: SocketAddr) -> Option<Party<'_>>
        ensures { result ≡ party_at self.now to }
    {
        let nonce = self.nonce_for_client(to)?;
        match self.validated_user(to) {
            Some(user) => {
                let keyed = self.user(user.name())?;
                let signer = SigningUser {
                    name: user.name(),
                    password: keyed.credentials.password(),
                    algorithm: user.algorithm(),
                    key: keyed.keys.key(user.algorithm()),
                };
                Some(Party::new(self.realm(), nonce, self.supported(), Some(signer)))
            }
            None => Some(Party::new(self.realm(), nonce, self.supported(), None)),
        }
    }
}

/// Returns the message class for which the size is computed: a request or an error response.
fn class_requested(is_request: bool) -> MessageClass
    ensures { result ≡ class_of_size is_request }
{
    if is_request {
        MessageClass::Request
    } else {
        MessageClass::Error
    }
}

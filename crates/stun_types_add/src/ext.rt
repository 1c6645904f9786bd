//! The header fields of a message being written, and the calls that add attributes, for any writer.

ghost use Rattle.std.specs.Prelude.{◌≡◌, ◌↔◌, IsTrue, OnErr, OnOk, None};
ghost use Rattle.stun_types_integrity.specs.Base.Refusals.{RefusesFor};
ghost use Rattle.stun_types_integrity.specs.Wire.Attributes.{attr_size, kind_at};
ghost use Rattle.stun_types_integrity.specs.Wire.Shape.{rank};
ghost use Rattle.stun_types_integrity.specs.Wire.Fingerprints.{fingerprint_of};
ghost use Rattle.stun_types_integrity.specs.Wire.Types.{class_of, method_of, is_response_class};
ghost use Rattle.stun_types_integrity.specs.Wire.Grammar.{header_at, header_refusal, number_at};
ghost use Rattle.stun_types_integrity.specs.Write.Adding.{attr_of, add_refusal};
ghost use Rattle.stun_types_integrity.specs.Write.Adding.{fingerprint_add_refusal, IsStarted};
ghost use Rattle.stun_types_integrity.specs.Write.Outcomes.{TakesNoMemory, IsAdded};
ghost use Rattle.stun_types_integrity.specs.Keys.{key_of};
ghost use Rattle.stun_types_integrity.specs.Signing.{signature, signing_refusal};

use crate::fingerprint::mark;
use crate::room::end_of_add;
use crate::signing::sign;
use crate::stun_types_wire::algorithm::IntegrityAlgorithm;
use crate::stun_types_wire::class::{MessageClass, MessageType, Method};
use crate::stun_types_wire::error::StunWriteError;
use crate::stun_types_wire::header::MessageHeader;
use crate::stun_types_wire::transaction::TransactionId;
use crate::stun_types_write::attribute::{Attribute, AttributeWrite};
use crate::stun_types_write::writer::MessageWrite;
use stun_types_integrity::credentials::MessageIntegrityCredentials;
use stun_types_integrity::key::IntegrityKey;

/// Reads the header of a message that was started in a writer, and adds attributes to it. Every
/// writer implements it.
pub trait MessageWriteExt: MessageWrite {
    /// The type of the message.
    fn get_type(&self) -> MessageType
        requires { IsStarted (Self.draft self.now).bytes }
        ensures { result ≡ kind_at (Self.draft self.now).bytes };

    /// The class of the message.
    fn class(&self) -> MessageClass
        requires { IsStarted (Self.draft self.now).bytes }
        ensures { result ≡ class_of (kind_at (Self.draft self.now).bytes) };

    /// Returns whether the message has this class.
    fn has_class(&self, class: MessageClass) -> bool
        requires { IsStarted (Self.draft self.now).bytes }
        ensures { IsTrue result ↔ (class_of (kind_at (Self.draft self.now).bytes) ≡ class) };

    /// Returns whether the message is a response.
    fn is_response(&self) -> bool
        requires { IsStarted (Self.draft self.now).bytes }
        ensures { result ≡ is_response_class (class_of (kind_at (Self.draft self.now).bytes)) };

    /// The method of the message.
    fn method(&self) -> Method
        requires { IsStarted (Self.draft self.now).bytes }
        ensures { result.0 ≡ method_of (kind_at (Self.draft self.now).bytes) };

    /// Returns whether the message has this method.
    fn has_method(&self, method: Method) -> bool
        requires { IsStarted (Self.draft self.now).bytes }
        ensures { IsTrue result ↔ (method_of (kind_at (Self.draft self.now).bytes) ≡ method.0) };

    /// The transaction ID of the message.
    fn transaction_id(&self) -> TransactionId
        requires { IsStarted (Self.draft self.now).bytes }
        ensures { result ≡ number_at (Self.draft self.now).bytes };

    /// Adds an attribute other than the three integrity attributes and FINGERPRINT. A type may be
    /// added several times.
    ///
    /// # Errors
    ///
    /// A failed call changes nothing.
    ///
    /// 1. `FingerprintExists`: a FINGERPRINT was added.
    /// 2. `MessageIntegrityExists`: an integrity attribute was added.
    /// 3. `TooLarge`: the length field would exceed 65,535.
    /// 4. `TooSmall`: the message would exceed the writer's maximum size.
    /// 5. `NoMemory`: an allocation failed. A writer with a maximum size never returns it.
    fn add_attribute(&mut self, attribute: &dyn AttributeWrite) -> Result<(), StunWriteError>
        requires started { IsStarted (Self.draft self.old).bytes }
        requires ordinary { rank (kind attribute.now) ≡ 0 }
        ensures ok { OnOk result (IsAdded (attr_of (kind attribute.now) (value attribute.now))
            (Self.draft self.old) (Self.draft self.new)) }
        ensures err { OnErr result (Self.draft self.new ≡ Self.draft self.old) }
        ensures cause { RefusesFor StunWriteError.NoMemory (add_refusal (Self.draft self.old)
            (attr_size (attr_of (kind attribute.now) (value attribute.now)))) result }
        ensures lent { TakesNoMemory (Self.draft self.old) result };

    /// Adds the integrity attribute of an algorithm: the HMAC under `key` of everything written so
    /// far (RFC 8489, sections 14.5 and 14.6).
    ///
    /// # Errors
    ///
    /// A failed call changes nothing.
    ///
    /// 1. `FingerprintExists`: a FINGERPRINT was added.
    /// 2. `AttributeExists`: the integrity attribute of this algorithm was added.
    /// 3. `MessageIntegrityExists`: the integrity attribute of a stronger algorithm was added.
    /// 4. `IntegrityFailed`: the key was made for another algorithm.
    /// 5. `TooLarge`, `TooSmall`, `NoMemory`: as for `add_attribute`.
    fn add_message_integrity_with_key(
        &mut self,
        key: &IntegrityKey<'_>,
        algorithm: IntegrityAlgorithm,
    ) -> Result<(), StunWriteError>
        requires started { IsStarted (Self.draft self.old).bytes }
        ensures ok { OnOk result (IsAdded
            (signature algorithm key.now.bytes (Self.draft self.old).bytes)
            (Self.draft self.old) (Self.draft self.new)) }
        ensures err { OnErr result (Self.draft self.new ≡ Self.draft self.old) }
        ensures cause { RefusesFor StunWriteError.NoMemory
            (signing_refusal (Self.draft self.old) key.now.algorithm algorithm) result }
        ensures lent { TakesNoMemory (Self.draft self.old) result };

    /// Does what `add_message_integrity_with_key` does, with the key that the credentials make for
    /// the algorithm. It never fails with `IntegrityFailed`.
    fn add_message_integrity(
        &mut self,
        credentials: &MessageIntegrityCredentials,
        algorithm: IntegrityAlgorithm,
    ) -> Result<(), StunWriteError>
        requires started { IsStarted (Self.draft self.old).bytes }
        ensures ok { OnOk result (IsAdded
            (signature algorithm (key_of credentials.now algorithm).bytes
            (Self.draft self.old).bytes)
            (Self.draft self.old) (Self.draft self.new)) }
        ensures err { OnErr result (Self.draft self.new ≡ Self.draft self.old) }
        ensures cause { RefusesFor StunWriteError.NoMemory
            (signing_refusal (Self.draft self.old) algorithm algorithm) result }
        ensures lent { TakesNoMemory (Self.draft self.old) result };

    /// Adds the FINGERPRINT of everything written so far: its CRC-32 XOR 0x5354554E, the ASCII text
    /// `STUN` (RFC 8489, section 14.7). Nothing can be added after it.
    ///
    /// # Errors
    ///
    /// A failed call changes nothing.
    ///
    /// 1. `FingerprintExists`: a FINGERPRINT was added before.
    /// 2. `TooLarge`, `TooSmall`, `NoMemory`: as for `add_attribute`.
    fn add_fingerprint(&mut self) -> Result<(), StunWriteError>
        requires started { IsStarted (Self.draft self.old).bytes }
        ensures ok { OnOk result (IsAdded (fingerprint_of (Self.draft self.old).bytes)
            (Self.draft self.old) (Self.draft self.new)) }
        ensures err { OnErr result (Self.draft self.new ≡ Self.draft self.old) }
        ensures cause { RefusesFor StunWriteError.NoMemory
            (fingerprint_add_refusal (Self.draft self.old)) result }
        ensures lent { TakesNoMemory (Self.draft self.old) result };
}

impl<W: MessageWrite> MessageWriteExt for W {
    fn get_type(&self) -> MessageType {
        header_of(self.data()).get_type()
    }

    fn class(&self) -> MessageClass {
        self.get_type().class()
    }

    fn has_class(&self, class: MessageClass) -> bool {
        self.class() == class
    }

    fn is_response(&self) -> bool {
        self.class().is_response()
    }

    fn method(&self) -> Method {
        self.get_type().method()
    }

    fn has_method(&self, method: Method) -> bool {
        self.method() == method
    }

    fn transaction_id(&self) -> TransactionId {
        header_of(self.data()).transaction_id()
    }

    // Inlined into each caller, which knows the attribute's type. A call of its own would go
    // through the table of the `dyn` three times.
    #[inline(always)]
    #[tactic(auto, using(crate::proofs::Adds::long), unfolding(crate::proofs::Adds::refusals))]
    fn add_attribute(&mut self, attribute: &dyn AttributeWrite) -> Result<(), StunWriteError> {
        let ended = self.ended();
        if ended.fingerprint {
            return Err(StunWriteError::FingerprintExists);
        }
        if ended.integrity || ended.sha256 || ended.sha512 {
            return Err(StunWriteError::MessageIntegrityExists);
        }
        let end = end_of_add(&*self, attribute.padded_len())?;
        self.push_attribute_unchecked(attribute)?;
        self.set_length((end - MessageHeader::LENGTH) as u16);
        Ok(())
    }

    fn add_message_integrity_with_key(
        &mut self,
        key: &IntegrityKey<'_>,
        algorithm: IntegrityAlgorithm,
    ) -> Result<(), StunWriteError> {
        sign(self, key, algorithm)
    }

    #[tactic(auto, using(stun_types_integrity::proofs::Keys::key_for))]
    fn add_message_integrity(
        &mut self,
        credentials: &MessageIntegrityCredentials,
        algorithm: IntegrityAlgorithm,
    ) -> Result<(), StunWriteError> {
        let key = credentials.make_key(algorithm);
        sign(self, &key, algorithm)
    }

    fn add_fingerprint(&mut self) -> Result<(), StunWriteError> {
        mark(self)
    }
}

/// Calls `add_attribute` with an attribute whose type is known. `attribute` and `same` are one
/// value, as a `dyn` and as itself, so contracts describe what is added by its own type.
pub fn add_as<W: MessageWrite, A: AttributeWrite>(
    writer: &mut W,
    attribute: &dyn AttributeWrite,
    same: &A,
) -> Result<(), StunWriteError>
    requires started { IsStarted (W.draft writer.old).bytes }
    requires ordinary { rank (A.kind same.now) ≡ 0 }
    requires kind { (⟦<dyn AttributeWrite as Attribute>⟧ attribute.now.0).kind attribute.now.1
        ≡ A.kind same.now }
    requires value { (⟦<dyn AttributeWrite as Attribute>⟧ attribute.now.0).value attribute.now.1
        ≡ A.value same.now }
    ensures ok { OnOk result (IsAdded (attr_of (A.kind same.now) (A.value same.now))
        (W.draft writer.old) (W.draft writer.new)) }
    ensures err { OnErr result (W.draft writer.new ≡ W.draft writer.old) }
    ensures cause { RefusesFor StunWriteError.NoMemory (add_refusal (W.draft writer.old)
        (attr_size (attr_of (A.kind same.now) (A.value same.now)))) result }
    ensures lent { TakesNoMemory (W.draft writer.old) result }
{
    writer.add_attribute(attribute)
}

/// Returns the header of a message that was started.
fn header_of(bytes: &[u8]) -> MessageHeader
    requires { header_refusal bytes.now ≡ None }
    ensures { result ≡ header_at bytes.now }
{
    MessageHeader::from_bytes(bytes).unwrap()
}

//! Writes the header of a new message into any writer.

ghost use Rattle.std.specs.Prelude.{◌≡◌, ◌<◌, ◌^◌, IfOk, IsOk, IsSome};
ghost use Rattle.stun_types_attributes.specs.Wire.Attributes.{kind_at};
ghost use Rattle.stun_types_attributes.specs.Wire.Types.{class_of, method_of, type_of};
ghost use Rattle.stun_types_attributes.specs.Wire.Grammar.{number_at};
ghost use Rattle.stun_types_add.specs.Write.Outcomes.{CanBegin, IsStartedAs};
ghost use Rattle.stun_types_attributes.specs.Wire.Generated.{generated_id, number_words};
ghost use Rattle.stun_types_attributes.specs.Base.GeneratorWords.{stream_after};
ghost use Rattle.stun_types_attributes.specs.Wire.declared.class.MessageClass.TheVariants.{Request};
ghost use Rattle.stun_types_attributes.specs.Wire.declared.class.MessageClass.TheVariants.{Indication};
ghost use Rattle.stun_types_attributes.specs.Wire.declared.class.MessageClass.TheVariants.{Success};
ghost use Rattle.stun_types_attributes.specs.Wire.declared.class.MessageClass.TheVariants.{Error};

use crate::parsed::Message;
use crate::stun_types_base::memory::NoMemory;
use crate::stun_types_wire::class::{MessageClass, MessageType, Method};
use crate::stun_types_wire::header::MessageHeader;
use crate::stun_types_wire::transaction::TransactionId;
use crate::stun_types_write::writer::MessageWrite;
use rand_core::Rng;

impl<'a> Message<'a> {
    /// Starts a message with this type and transaction ID in an empty writer that has room for a
    /// header, and returns the writer.
    ///
    /// # Errors
    ///
    /// - `NoMemory`: an allocation failed. The writer is dropped. A writer with a maximum size
    ///   allocates nothing and never fails.
    // Inlined into each caller, so that the writer is moved no more often than needed.
    #[inline(always)]
    pub fn builder<W: MessageWrite + Drop>(
        mtype: MessageType,
        transaction_id: TransactionId,
        writer: W,
    ) -> Result<W, NoMemory>
        requires empty { CanBegin (W.draft writer) }
        ensures started { IfOk result (λ started. IsStartedAs mtype transaction_id
            (W.draft writer) (W.draft started)) }
        ensures lent { IsSome (W.draft writer).limit → IsOk result }
    {
        let mut writer = writer;
        let header = MessageHeader::new(mtype, 0, transaction_id);
        writer.push_data(&header.to_bytes())?;
        Ok(writer)
    }

    /// Starts a request with a 12-bit method and a generated transaction ID, and otherwise does
    /// what `builder` does.
    ///
    /// The ID is three words of the generator, the first in the highest bits. They are generated
    /// even if the call fails.
    pub fn builder_request<W: MessageWrite + Drop, R: Rng>(
        method: Method,
        rng: &mut R,
        writer: W,
    ) -> Result<W, NoMemory>
        requires short { method.0 < 2 ^ 12 }
        requires empty { CanBegin (W.draft writer) }
        ensures started { IfOk result (λ started. IsStartedAs (type_of Request method.0)
            (generated_id (R.stream rng.old))
            (W.draft writer) (W.draft started)) }
        ensures lent { IsSome (W.draft writer).limit → IsOk result }
        ensures stream { R.stream rng.new ≡ stream_after number_words (R.stream rng.old) }
    {
        begin_generated(MessageClass::Request, method, rng, writer)
    }

    /// Starts an indication of a method, and otherwise does what `builder_request` does.
    pub fn builder_indication<W: MessageWrite + Drop, R: Rng>(
        method: Method,
        rng: &mut R,
        writer: W,
    ) -> Result<W, NoMemory>
        requires short { method.0 < 2 ^ 12 }
        requires empty { CanBegin (W.draft writer) }
        ensures started { IfOk result (λ started. IsStartedAs (type_of Indication method.0)
            (generated_id (R.stream rng.old))
            (W.draft writer) (W.draft started)) }
        ensures lent { IsSome (W.draft writer).limit → IsOk result }
        ensures stream { R.stream rng.new ≡ stream_after number_words (R.stream rng.old) }
    {
        begin_generated(MessageClass::Indication, method, rng, writer)
    }

    /// Starts the success response to a request, with the request's method and transaction ID.
    /// Otherwise it does what `builder` does.
    pub fn builder_success<W: MessageWrite + Drop>(
        request: &Message,
        writer: W,
    ) -> Result<W, NoMemory>
        requires request { class_of (kind_at request.now) ≡ Request }
        requires empty { CanBegin (W.draft writer) }
        ensures started { IfOk result (λ started. IsStartedAs
            (type_of Success (method_of (kind_at request.now))) (number_at request.now)
            (W.draft writer) (W.draft started)) }
        ensures lent { IsSome (W.draft writer).limit → IsOk result }
    {
        begin_response(MessageClass::Success, request, writer)
    }

    /// Starts the error response to a request, with the request's method and transaction ID.
    /// Otherwise it does what `builder` does.
    pub fn builder_error<W: MessageWrite + Drop>(
        request: &Message,
        writer: W,
    ) -> Result<W, NoMemory>
        requires request { class_of (kind_at request.now) ≡ Request }
        requires empty { CanBegin (W.draft writer) }
        ensures started { IfOk result (λ started. IsStartedAs
            (type_of Error (method_of (kind_at request.now))) (number_at request.now)
            (W.draft writer) (W.draft started)) }
        ensures lent { IsSome (W.draft writer).limit → IsOk result }
    {
        begin_response(MessageClass::Error, request, writer)
    }
}

/// Starts a message of a class and a method. Its transaction ID is generated before any allocation.
fn begin_generated<W: MessageWrite + Drop, R: Rng>(
    class: MessageClass,
    method: Method,
    rng: &mut R,
    writer: W,
) -> Result<W, NoMemory>
    requires short { method.0 < 2 ^ 12 }
    requires empty { CanBegin (W.draft writer) }
    ensures started { IfOk result (λ started. IsStartedAs (type_of class method.0)
        (generated_id (R.stream rng.old))
        (W.draft writer) (W.draft started)) }
    ensures lent { IsSome (W.draft writer).limit → IsOk result }
    ensures stream { R.stream rng.new ≡ stream_after number_words (R.stream rng.old) }
{
    let transaction_id = TransactionId::generate(rng);
    let mtype = MessageType::from_class_method(class, method);
    Message::builder(mtype, transaction_id, writer)
}

/// Starts a message of a class, with the method and the transaction ID of a request.
fn begin_response<W: MessageWrite + Drop>(
    class: MessageClass,
    request: &Message,
    writer: W,
) -> Result<W, NoMemory>
    requires empty { CanBegin (W.draft writer) }
    ensures started { IfOk result (λ started. IsStartedAs
        (type_of class (method_of (kind_at request.now))) (number_at request.now)
        (W.draft writer) (W.draft started)) }
    ensures lent { IsSome (W.draft writer).limit → IsOk result }
{
    let mtype = MessageType::from_class_method(class, request.method());
    Message::builder(mtype, request.transaction_id(), writer)
}

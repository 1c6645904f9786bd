//! Error responses to malformed requests (RFC 8489, section 6.3.1).

ghost use Rattle.std.specs.Prelude.{◌≡◌, ◌≢◌, ◌∷◌, ◌+◌, ◌<◌, ◌^◌, [], length, map, IfOk, IfErr};
ghost use Rattle.std.specs.Prelude.{MatchResult, None, Some};
ghost use Rattle.stun_types_attributes.specs.Wire.Attributes.{attr_size, kind_at};
ghost use Rattle.stun_types_attributes.specs.Wire.Types.{class_of};
ghost use Rattle.stun_types_attributes.specs.Wire.Grammar.{number_at};
ghost use Rattle.stun_types_attributes.specs.Wire.declared.class.MessageClass.TheVariants.{Request};
ghost use Rattle.stun_types_attributes.specs.Base.Refusals.{RefusesFor};
ghost use Rattle.stun_types_add.specs.Write.Adding.{size_refusal};
ghost use Rattle.stun_types_add.specs.Write.Outcomes.{CanBegin};
ghost use Rattle.stun_types_add.specs.Calls.{IsComposed};
ghost use Rattle.stun_types_attributes.specs.ErrorCodes.{error_refusal, reason_for};
ghost use Rattle.stun_types_message.specs.Objections.{bad_request_attributes, bad_request_refusal};
ghost use Rattle.stun_types_message.specs.Objections.{error_attribute, error_type, unknown_refusal};
ghost use Rattle.stun_types_message.specs.Objections.{unknown_response_attributes};

use crate::parsed::Message;
use crate::stun_types_wire::attribute::{AttributeType, pad_attribute_len};
use crate::stun_types_wire::error::StunWriteError;
use crate::stun_types_write::writer::MessageWrite;
use std::alloc::Global;
use stun_types_add::ext::add_as;
use stun_types_add::room::end_of_add;
use stun_types_attributes::error_code::ErrorCode;
use stun_types_attributes::unknown_attributes::UnknownAttributes;

/// The length in bytes of a message header and an attribute header.
const MIN_ERROR_LENGTH: usize = 24;

/// The length in bytes of a response whose only attribute is ERROR-CODE 420 (Unknown Attribute).
const UNKNOWN_LENGTH: usize = 48;

/// `UNKNOWN_LENGTH` and the length of the header of UNKNOWN-ATTRIBUTES.
const MIN_TYPES_LENGTH: usize = 52;

impl<'a> Message<'a> {
    /// Writes the error response to a request whose only attribute is ERROR-CODE 400 (Bad Request),
    /// and returns the writer. The writer has to be empty and have room for a header.
    ///
    /// # Errors
    ///
    /// Any failure drops the writer.
    ///
    /// 1. `TooSmall`: the writer's maximum size is below the response's 40 bytes.
    /// 2. `NoMemory`: an allocation failed.
    #[tactic(auto, unfolding(stun_types_attributes::specs::ErrorCodes::error_refusal))]
    pub fn bad_request<W: MessageWrite + Drop>(
        alloc: Global,
        request: &Message,
        writer: W,
    ) -> Result<W, StunWriteError>
        requires request { class_of (kind_at request.now) ≡ Request }
        requires empty { CanBegin (W.draft writer) }
        ensures ok { IfOk result (λ reply. IsComposed (error_type request.now)
            (number_at request.now)
            bad_request_attributes
            (W.draft writer) (W.draft reply)) }
        ensures cause { RefusesFor StunWriteError.NoMemory
            (bad_request_refusal (W.draft writer).limit) result }
    {
        write_error(alloc, ErrorCode::BAD_REQUEST, request, writer)
    }

    /// Writes the error response to a request with ERROR-CODE 420 (Unknown Attribute) and
    /// UNKNOWN-ATTRIBUTES, and returns the writer. The types are listed as given, in order and with
    /// duplicates. The writer has to be empty and have room for a header.
    ///
    /// # Errors
    ///
    /// Any failure drops the writer.
    ///
    /// 1. `TooLarge`: there are more than 32,767 types.
    /// 2. `TooSmall`: the writer's maximum size is below 48 bytes, the size of the header and
    ///    ERROR-CODE.
    /// 3. `TooLarge`: the length field would exceed 65,535.
    /// 4. `TooSmall`: UNKNOWN-ATTRIBUTES would exceed the writer's maximum size.
    /// 5. `NoMemory`: an allocation failed.
    #[tactic(auto, using(crate::proofs::Refusing::room), unfolding(crate::proofs::Refusing::added))]
    pub fn unknown_attributes<W: MessageWrite + Drop>(
        alloc: Global,
        request: &Message,
        types: &[AttributeType],
        writer: W,
    ) -> Result<W, StunWriteError>
        requires request { class_of (kind_at request.now) ≡ Request }
        requires empty { CanBegin (W.draft writer) }
        ensures ok { IfOk result (λ reply. IsComposed (error_type request.now)
            (number_at request.now)
            (unknown_response_attributes (map (λ t. t.0) types.now))
            (W.draft writer) (W.draft reply)) }
        ensures cause { RefusesFor StunWriteError.NoMemory
            (unknown_refusal (W.draft writer).limit (length types.now)) result }
    {
        room_for_types(&writer, types.len())?;
        let unknown = UnknownAttributes::new(alloc, types)?;
        let mut reply = write_error(alloc, ErrorCode::UNKNOWN_ATTRIBUTE, request, writer)?;
        add_as(&mut reply, &unknown, &unknown)?;
        Ok(reply)
    }
}

/// Fails as `unknown_attributes` with `count` types would, except for `NoMemory`.
#[tactic(auto, using(crate::proofs::Refusing::too_many, crate::proofs::Refusing::types_answer))]
pub(crate) fn room_for_types<W: MessageWrite>(
    writer: &W,
    count: usize,
) -> Result<(), StunWriteError>
    requires small { count < 2 ^ 62 }
    requires empty { (W.draft writer.now).bytes ≡ [] }
    ensures answer { MatchResult result
        (λ _. unknown_refusal (W.draft writer.now).limit count ≡ None)
        (λ error. unknown_refusal (W.draft writer.now).limit count ≡ Some error) }
    ensures named { IfErr result (λ error. error ≢ StunWriteError.NoMemory) }
{
    let len = 2 * count;
    if len > UnknownAttributes::MAX_LEN {
        return Err(StunWriteError::TooLarge {
            expected: UnknownAttributes::MAX_LEN,
            actual: len,
        });
    }
    end_of_add(writer, UNKNOWN_LENGTH)?;
    end_of_add(writer, MIN_TYPES_LENGTH + pad_attribute_len(len))?;
    Ok(())
}

/// Writes the error response to a request whose only attribute is ERROR-CODE, with a code and its
/// default reason.
#[tactic(auto, using(crate::proofs::Refusing::room), unfolding(crate::proofs::Refusing::added))]
fn write_error<W: MessageWrite + Drop>(
    alloc: Global,
    code: u16,
    request: &Message,
    writer: W,
) -> Result<W, StunWriteError>
    requires lawful { error_refusal code (reason_for code) ≡ None }
    requires request { class_of (kind_at request.now) ≡ Request }
    requires empty { CanBegin (W.draft writer) }
    ensures ok { IfOk result (λ reply. IsComposed (error_type request.now) (number_at request.now)
        (error_attribute code ∷ [])
        (W.draft writer) (W.draft reply)) }
    ensures cause { RefusesFor StunWriteError.NoMemory
        (size_refusal (W.draft writer).limit (20 + attr_size (error_attribute code))) result }
{
    let reason = ErrorCode::default_reason_for_code(code);
    end_of_add(
        &writer,
        MIN_ERROR_LENGTH + pad_attribute_len(4 + reason.len()),
    )?;
    let error = ErrorCode::builder(code).build(alloc)?;
    let mut reply = Message::builder_error(request, writer)?;
    add_as(&mut reply, &error, &error)?;
    Ok(reply)
}

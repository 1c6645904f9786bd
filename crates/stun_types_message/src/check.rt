//! Checks the attributes of a request (RFC 8489, section 6.3.1).

ghost use Rattle.std.specs.Prelude.{◌≡◌, ◌==◌, ◌+◌, ◌<◌, ◌≤◌, ◌^◌, ◌++◌, ◌∷◌, false, ℕ, List, []};
ghost use Rattle.std.specs.Prelude.{map, not, is_some, find, length, IfOk};
ghost use Rattle.std.specs.List.{list_any};
ghost use Rattle.std.specs.Option.{option_map};
ghost use Rattle.stun_types_attributes.specs.Base.Refusals.{RefusesFor};
ghost use Rattle.stun_types_attributes.specs.Wire.Attributes.{Attr, kind_at};
ghost use Rattle.stun_types_attributes.specs.Wire.Shape.{kinds_of};
ghost use Rattle.stun_types_attributes.specs.Wire.Types.{class_of};
ghost use Rattle.stun_types_attributes.specs.Wire.Grammar.{number_at, visible};
ghost use Rattle.stun_types_attributes.specs.Wire.declared.class.MessageClass.TheVariants.{Request};
ghost use Rattle.stun_types_add.specs.Write.Outcomes.{CanBegin};
ghost use Rattle.stun_types_message.specs.Objections.{IsObjected, IsUnknownList, error_type};
ghost use Rattle.stun_types_message.specs.Objections.{is_unknown, objection, objection_refusal};
ghost use Rattle.stun_types_message.specs.Objections.{unknown_kinds, with_unknown};
ghost use Rattle.stun_types_message.specs.MarkedTypes.{IsListing};
ghost use Rattle.stun_types_attributes.specs.Wire.Registry.{first_optional_kind};

use crate::attribute_head::AttributeHead;
use crate::parsed::Message;
use crate::refuse::room_for_types;
use crate::stun_types_wire::attribute::AttributeType;
use crate::stun_types_wire::error::StunWriteError;
use crate::stun_types_wire::registry;
use crate::stun_types_write::among::has_type;
use crate::stun_types_write::writer::MessageWrite;
use std::alloc::Global;

impl<'a> Message<'a> {
    /// Checks the visible attributes of a request, and writes an error response if they are at
    /// fault. The writer has to be empty and have room for a header.
    ///
    /// 1. If comprehension-required types (those below 0x8000) are visible and not in `supported`,
    ///    writes the response of `unknown_attributes`. It lists each of these types once, in the
    ///    order in which they first appear.
    /// 2. Otherwise, if a type in `required` is not visible, writes the response of `bad_request`.
    /// 3. Otherwise drops the writer and returns `None`.
    ///
    /// # Errors
    ///
    /// Any failure drops the writer.
    ///
    /// 1. The errors of `unknown_attributes` or `bad_request`, except `NoMemory`.
    /// 2. `NoMemory`: an allocation failed, which includes that for the list of unknown types.
    pub fn check_attribute_types<W: MessageWrite + Drop>(
        alloc: Global,
        msg: &Message,
        supported: &[AttributeType],
        required: &[AttributeType],
        writer: W,
    ) -> Result<Option<W>, StunWriteError>
        requires request { class_of (kind_at msg.now) ≡ Request }
        requires empty { CanBegin (W.draft writer) }
        // `None` if nothing is wrong, and otherwise the response that reports the fault.
        ensures ok { IfOk result (λ answered. IsObjected
            (objection (visible msg.now) (map (λ t. t.0) supported.now) (map (λ t. t.0)
            required.now))
            (error_type msg.now) (number_at msg.now) (W.draft writer)
            (option_map (λ w. W.draft w) answered)) }
        ensures cause { RefusesFor StunWriteError.NoMemory
            (objection_refusal (W.draft writer).limit (visible msg.now)
            (map (λ t. t.0) supported.now) (map (λ t. t.0) required.now)) result }
    {
        if shows_unknown(msg, supported) {
            let unknown = unknown_types(alloc, msg, supported);
            room_for_types(&writer, unknown.count)?;
            if unknown.lacks_memory {
                return Err(StunWriteError::NoMemory);
            }
            let reply = Message::unknown_attributes(alloc, msg, unknown.types.as_slice(), writer)?;
            return Ok(Some(reply));
        }
        if lacks_type(msg, required) {
            let reply = Message::bad_request(alloc, msg, writer)?;
            return Ok(Some(reply));
        }
        Ok(None)
    }
}

/// Theorem: the list of unknown types consists of exactly the visible types that are
/// comprehension-required and not supported, without duplicates, in the order in which they first
/// appear.
pub fn unknown_types_are_listed()
    ensures { (all : List Attr) (supported : List ℕ)
        → IsUnknownList (kinds_of all) supported (unknown_kinds all supported) }
{}

/// The number of comprehension-required types: those below the first optional type.
const REQUIRED_TYPES: usize = registry::FIRST_OPTIONAL_TYPE as usize;

/// The unknown types of a message, each once. After a failed allocation they are still counted.
#[derive(Drop)]
struct Unknown {
    count: usize,
    types: Vec<AttributeType>,
    lacks_memory: bool,
}

/// Returns whether a message has a visible type that is comprehension-required and not supported.
#[tactic(auto, using(crate::proofs::Below::map_numbered))]
fn shows_unknown(msg: &Message, supported: &[AttributeType]) -> bool
    ensures { result ≡ list_any (λ a. is_unknown (map (λ t. t.0) supported.now) a.kind)
        (visible msg.now) }
{
    for (_, attribute) in msg.iter_attributes() {
        if is_unknown_type(attribute.get_type(), supported) {
            return true;
        }
    }
    false
}

/// Returns the visible types of a message that are comprehension-required and not supported, each
/// once, in the order in which they first appear. It scans the message once.
fn unknown_types(alloc: Global, msg: &Message, supported: &[AttributeType]) -> Unknown
    ensures count { result.count
        ≡ length (unknown_kinds (visible msg.now) (map (λ t. t.0) supported.now)) }
    ensures few { result.count < 2 ^ 62 }
    ensures types { result.lacks_memory ≡ false → map (λ t. t.0) result.types.items
        ≡ unknown_kinds (visible msg.now) (map (λ t. t.0) supported.now) }
{
    let mut listed = [false; REQUIRED_TYPES];
    let mut unknown = Unknown {
        count: 0,
        types: Vec::new(alloc),
        lacks_memory: false,
    };
    let mut left = msg.visible_text();
    while !left.is_empty() {
        let attribute_head = AttributeHead::at(left);
        list_unknown(&mut listed, &mut unknown, attribute_head.atype, supported);
        let (_, following) = left.split_at(attribute_head.size);
        left = following;
    }
    unknown
}

/// Lists a type if it is comprehension-required, not supported and not yet listed.
fn list_unknown(
    listed: &mut [bool],
    unknown: &mut Unknown,
    atype: AttributeType,
    supported: &[AttributeType],
)
    requires all { length listed.old ≡ first_optional_kind }
    requires few { unknown.old.count < 2 ^ 63 }
    ensures all { length listed.new ≡ first_optional_kind }
    ensures listed { (seen : List ℕ) → IsListing seen listed.old unknown.old
        → IsListing (with_unknown (map (λ t. t.0) supported.now) seen atype.0)
        listed.new unknown.new }
    ensures more { unknown.new.count ≤ unknown.old.count + 1 }
{
    if !is_unknown_type(atype, supported) {
        return;
    }
    let index = usize::from(atype.0);
    if !listed[index] {
        listed[index] = true;
        unknown.add(atype);
    }
}

impl Unknown {
    /// Appends a type. If an allocation fails, it is only counted and `lacks_memory` is set.
    fn add(&mut self, atype: AttributeType)
        requires { self.old.count < 2 ^ 63 }
        ensures count { self.new.count ≡ self.old.count + 1 }
        ensures types { self.new.lacks_memory ≡ false
            → (self.old.lacks_memory ≡ false)
            × (self.new.types.items ≡ self.old.types.items ++ atype ∷ []) }
    {
        self.count += 1;
        if self.types.push(atype).is_err() {
            self.lacks_memory = true;
        }
    }
}

/// Returns whether a type is comprehension-required and not supported.
#[tactic(auto, using(crate::proofs::Below::any_numbers))]
fn is_unknown_type(atype: AttributeType, supported: &[AttributeType]) -> bool
    ensures { result ≡ is_unknown (map (λ t. t.0) supported.now) atype.0 }
{
    atype.comprehension_required() && !has_type(supported, atype)
}

/// Returns whether a required type is not visible.
fn lacks_type(msg: &Message, required: &[AttributeType]) -> bool
    ensures { result ≡ list_any (λ t. not (is_some
        (find (λ a. a.kind == t.0) (visible msg.now)))) required.now }
{
    required.iter().any(|t| !msg.has_attribute(*t))
}

//! Parsed messages over borrowed bytes.

ghost use Rattle.std.specs.Prelude.{◌≡◌, ◌==◌, ◌+◌, ◌<◌, ◌≤◌, ◌^◌, ◌↔◌, IsTrue, None, Some};
ghost use Rattle.std.specs.Prelude.{MatchResult, drop, find, is_some, length, sum_by, take, IfOk};
ghost use Rattle.std.specs.Prelude.{IfSome};
ghost use Rattle.stun_types_attributes.specs.Wire.Attributes.{attr_size, kind_at, numbered};
ghost use Rattle.stun_types_attributes.specs.Wire.Types.{class_of, method_of, is_response_class};
ghost use Rattle.stun_types_attributes.specs.Wire.Grammar.{IsMessage, body_refusal, refusal};
ghost use Rattle.stun_types_attributes.specs.Wire.Grammar.{visible, number_at};
ghost use Rattle.stun_types_message.specs.MessageValidation.{OccursAt, first_of_kind};
ghost use Rattle.stun_types_message.specs.Shows.{IsVisibleText};
ghost use Rattle.stun_types_attributes.specs.Wire.Registry.{greatest_size, header_size};

use crate::attribute_head::AttributeHead;
use crate::fingerprint;
use crate::iter::MessageAttributesIter;
use crate::stage::Stage;
use crate::stun_types_wire::attribute::{AttributeType, RawAttribute};
use crate::stun_types_wire::class::{MessageClass, MessageType, Method};
use crate::stun_types_wire::error::StunParseError;
use crate::stun_types_wire::header::MessageHeader;
use crate::stun_types_wire::transaction::TransactionId;
use std::convert::TryFrom;
use std::marker::Model;

/// A valid message in borrowed bytes. Contracts see the bytes; `from_bytes` would accept them.
///
/// The field `visible` is the part of the bytes that holds the visible attributes. Look-ups scan it
/// and need not find again where the visible attributes end.
#[derive(Debug, Drop)]
pub struct Message<'a> {
    header: MessageHeader,
    bytes: &'a [u8],
    visible: &'a [u8],
}

impl<'a> Model for Message<'a> {
    ghost use Rattle.std.specs.Prelude.{List, ℕ};

    ghost Value = { List ℕ };

    ghost use Rattle.stun_types_message.specs.Parsed.{IsParsed};
    ghost use Rattle.stun_types_message.specs.Shows.{IsVisibleText};

    ghost view = { λ m. m.bytes.now };

    ghost invariant = { λ m. IsParsed m.bytes.now m.header × IsVisibleText m.bytes.now m.visible.now };
}

impl<'a> Message<'a> {
    /// Parses the bytes of a message.
    ///
    /// A message has ordinary attributes, and then MESSAGE-INTEGRITY, MESSAGE-INTEGRITY-SHA256,
    /// MESSAGE-INTEGRITY-SHA512 and FINGERPRINT in this order, each at most once. These attributes
    /// are visible. The first attribute that breaks this order and everything after it are neither
    /// visible nor checked.
    ///
    /// # Errors
    ///
    /// 1. The errors of `MessageHeader::from_bytes`.
    /// 2. `Truncated`: there are fewer bytes than the header and its length field require.
    /// 3. `TooLarge`: there are more bytes.
    /// 4. Then, for each attribute in turn:
    /// - `Truncated`: one to three bytes are left, or the attribute is incomplete.
    /// - `FingerprintMismatch`: a visible FINGERPRINT does not have four bytes, or does not match
    ///   the message before it (RFC 8489, section 14.7).
    #[tactic(auto, unfolding(crate::proofs::Validating::refusals))]
    pub fn from_bytes(bytes: &'a [u8]) -> Result<Message<'a>, StunParseError>
        ensures { MatchResult result (λ m. (m ≡ bytes.now) × (refusal bytes.now ≡ None))
            (λ error. refusal bytes.now ≡ Some error) }
    {
        let header = MessageHeader::from_bytes(bytes)?;
        let end = MessageHeader::LENGTH + header.data_length() as usize;
        if bytes.len() < end {
            return Err(StunParseError::Truncated {
                expected: end,
                actual: bytes.len(),
            });
        }
        if end < bytes.len() {
            return Err(StunParseError::TooLarge {
                expected: end,
                actual: bytes.len(),
            });
        }
        let end = scan(bytes)?;
        let visible = after_header(bytes, end);
        Ok(Message {
            header,
            bytes,
            visible,
        })
    }

    /// The bytes of the message.
    pub fn as_ref(&self) -> &'a [u8]
        ensures bytes { result.now ≡ self.now }
        ensures message { refusal result.now ≡ None }
    {
        self.bytes
    }

    /// The bytes of the visible attributes.
    pub(crate) fn visible_text(&self) -> &'a [u8]
        ensures { IsVisibleText self.now result.now }
    {
        self.visible
    }

    /// Returns the value that the header's length field would have if the message ended at `end`.
    #[tactic(auto, using(crate::proofs::Validating::decoded_length))]
    pub(crate) fn length_up_to(&self, end: usize) -> u16
        requires after_header { header_size ≤ end }
        requires within { end ≤ length self.now }
        ensures { result + header_size ≡ end }
    {
        let following = self.bytes.len() - end;
        self.header.data_length() - following as u16
    }

    /// The type.
    pub fn get_type(&self) -> MessageType
        ensures { result ≡ kind_at self.now }
    {
        self.header.get_type()
    }

    /// The class.
    pub fn class(&self) -> MessageClass
        ensures { result ≡ class_of (kind_at self.now) }
    {
        self.get_type().class()
    }

    /// Returns whether the message has this class.
    pub fn has_class(&self, class: MessageClass) -> bool
        ensures { IsTrue result ↔ (class_of (kind_at self.now) ≡ class) }
    {
        self.class() == class
    }

    /// Returns whether the message is a response.
    pub fn is_response(&self) -> bool
        ensures { result ≡ is_response_class (class_of (kind_at self.now)) }
    {
        self.class().is_response()
    }

    /// The 12-bit method.
    pub fn method(&self) -> Method
        ensures value { result.0 ≡ method_of (kind_at self.now) }
        ensures short { result.0 < 2 ^ 12 }
    {
        self.get_type().method()
    }

    /// Returns whether the message has this method.
    pub fn has_method(&self, method: Method) -> bool
        ensures { IsTrue result ↔ (method_of (kind_at self.now) ≡ method.0) }
    {
        self.method() == method
    }

    /// The transaction ID.
    pub fn transaction_id(&self) -> TransactionId
        ensures { result ≡ number_at self.now }
    {
        self.header.transaction_id()
    }

    /// Iterates over the visible attributes, each with the offset of its header.
    pub fn iter_attributes(&self) -> MessageAttributesIter<'a>
        ensures { result ≡ numbered header_size (visible self.now) }
    {
        MessageAttributesIter::new(self.bytes)
    }

    /// Returns the first visible attribute of a type, or `None`.
    pub fn raw_attribute(&self, atype: AttributeType) -> Option<RawAttribute<'a>>
        ensures { result ≡ find (λ a. a.kind == atype.0) (visible self.now) }
    {
        match self.first_of_type(atype) {
            Some((_, attribute)) => Some(attribute),
            None => None,
        }
    }

    /// Returns the first visible attribute of a type with the offset of its header. It is inlined
    /// into each caller, so that its result is not written and read again.
    #[inline(always)]
    pub(crate) fn first_of_type(&self, atype: AttributeType) -> Option<(usize, RawAttribute<'a>)>
        ensures message { IsMessage self.now }
        ensures found { result ≡ first_of_kind atype.0 self.now }
        ensures occurs { IfSome result (λ entry. OccursAt self.now entry.0 entry.1.value) }
    {
        let mut offset = MessageHeader::LENGTH;
        let mut left = self.visible;
        while !left.is_empty() {
            let attribute_head = AttributeHead::at(left);
            let (attribute, following) = left.split_at(attribute_head.size);
            if attribute_head.atype == atype {
                let (_, after_header) = attribute.split_at(4);
                let (value, _) = after_header.split_at(attribute_head.length);
                return Some((offset, RawAttribute::new(attribute_head.atype, value)));
            }
            offset += attribute_head.size;
            left = following;
        }
        None
    }

    /// Returns whether an attribute of a type is visible.
    pub fn has_attribute(&self, atype: AttributeType) -> bool
        ensures { result ≡ is_some (find (λ a. a.kind == atype.0) (visible self.now)) }
    {
        self.raw_attribute(atype).is_some()
    }
}

/// Does what `Message::from_bytes` does.
impl<'a> TryFrom<&'a [u8]> for Message<'a> {
    ghost use Rattle.std.specs.Prelude.{◌≡◌, MatchResult, Some, None};
    ghost use Rattle.stun_types_attributes.specs.Wire.Grammar.{refusal};

    type Error = StunParseError;

    ghost try_from_gives = { λ bytes result. MatchResult result
        (λ m. (m ≡ bytes.now) × (refusal bytes.now ≡ None))
        (λ error. refusal bytes.now ≡ Some error) };

    fn try_from(value: &'a [u8]) -> Result<Message<'a>, StunParseError> {
        Message::from_bytes(value)
    }
}

/// Checks the attributes after the header, and returns the offset at which the visible ones end.
#[tactic(auto, using(crate::proofs::Scanning::scanned))]
fn scan(bytes: &[u8]) -> Result<usize, StunParseError>
    requires header { header_size ≤ length bytes.now }
    requires short { length bytes.now ≤ greatest_size }
    ensures answer { MatchResult result (λ _. body_refusal bytes.now ≡ None)
        (λ error. body_refusal bytes.now ≡ Some error) }
    ensures end { IfOk result (λ end. (end ≡ header_size + sum_by attr_size (visible bytes.now))
        × (end ≤ length bytes.now)) }
{
    let (_, mut rest) = bytes.split_at(MessageHeader::LENGTH);
    let mut stage = Stage::Ordinary;
    while !rest.is_empty() {
        let Some(attribute_head) = AttributeHead::of(rest) else {
            return Err(StunParseError::Truncated {
                expected: 4,
                actual: rest.len(),
            });
        };
        let Some(next) = stage.after(attribute_head.atype) else {
            return Ok(bytes.len() - rest.len());
        };
        if rest.len() < attribute_head.size {
            return Err(StunParseError::Truncated {
                expected: attribute_head.size,
                actual: rest.len(),
            });
        }
        if fingerprint::is_wrong(bytes, rest, attribute_head) {
            return Err(StunParseError::FingerprintMismatch);
        }
        let (_, after) = rest.split_at(attribute_head.size);
        rest = after;
        stage = next;
    }
    Ok(bytes.len())
}

/// Returns the bytes between the header of a message and an offset.
fn after_header(bytes: &[u8], end: usize) -> &[u8]
    requires following { header_size ≤ end }
    requires within { end ≤ length bytes.now }
    ensures { result.now ≡ drop header_size (take end bytes.now) }
{
    let (attribute_head, _) = bytes.split_at(end);
    let (_, following) = attribute_head.split_at(MessageHeader::LENGTH);
    following
}

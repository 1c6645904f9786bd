//! Iterates over the visible attributes of a message.

ghost use Rattle.std.specs.Prelude.{◌≡◌};
ghost use Rattle.stun_types_attributes.specs.Wire.Attributes.{numbered};
ghost use Rattle.stun_types_attributes.specs.Wire.Grammar.{visible};
ghost use Rattle.stun_types_attributes.specs.Wire.Registry.{header_size};

use crate::attribute_head::AttributeHead;
use crate::stage::Stage;
use crate::stun_types_wire::attribute::RawAttribute;
use crate::stun_types_wire::header::MessageHeader;
use std::marker::Model;

/// An iterator over the visible attributes of a message, each with the offset of its header. After
/// the end it keeps returning `None`.
#[derive(Debug, Drop)]
pub struct MessageAttributesIter<'a> {
    bytes: &'a [u8],
    offset: usize,
    stage: Stage,
}

impl<'a> Model for MessageAttributesIter<'a> {
    ghost use Rattle.std.specs.Prelude.{List, ℕ, drop};
    ghost use Rattle.stun_types_attributes.specs.Wire.Attributes.{Attr, numbered};
    ghost use Rattle.stun_types_attributes.specs.Wire.Shape.{visible_after};

    ghost Value = { List (ℕ × Attr) };

    ghost use Rattle.stun_types_message.specs.ShapeStages.{stage_rank};

    ghost view = { λ it. numbered it.offset (visible_after (stage_rank it.stage)
        (drop it.offset it.bytes.now)) };
}

impl<'a> MessageAttributesIter<'a> {
    /// Creates the iterator over the visible attributes after the header of a message.
    #[tactic(auto, unfolding(crate::proofs::Below::visible))]
    pub fn new(bytes: &'a [u8]) -> MessageAttributesIter<'a>
        ensures { result ≡ numbered header_size (visible bytes.now) }
    {
        MessageAttributesIter {
            bytes,
            offset: MessageHeader::LENGTH,
            stage: Stage::Ordinary,
        }
    }
}

impl<'a> Iterator for MessageAttributesIter<'a> {
    ghost use Rattle.std.specs.Iterator.{YieldsFirst, item_count};

    type Item = (usize, RawAttribute<'a>);

    ghost next_gives = { YieldsFirst (λ left. left) };

    ghost remaining = { item_count (λ left. left) };

    fn next(&mut self) -> Option<(usize, RawAttribute<'a>)> {
        if self.offset >= self.bytes.len() {
            return None;
        }
        let (_, rest) = self.bytes.split_at(self.offset);
        let Some(attribute_head) = AttributeHead::of(rest) else {
            return None;
        };
        let Some(stage) = self.stage.after(attribute_head.atype) else {
            return None;
        };
        if rest.len() < attribute_head.size {
            return None;
        }
        let offset = self.offset;
        self.offset += attribute_head.size;
        self.stage = stage;
        let (_, after_header) = rest.split_at(4);
        let (value, _) = after_header.split_at(attribute_head.length);
        Some((offset, RawAttribute::new(attribute_head.atype, value)))
    }
}

//! A writer into a borrowed slice.

ghost use Rattle.std.specs.Prelude.{◌≡◌, Some, length};
ghost use Rattle.stun_types_write.specs.Drafts.{empty};
ghost use Rattle.stun_types_write.specs.Lent.{lent_draft};

use crate::attribute::AttributeWrite;
use crate::ended::Ended;
use crate::stun_types_base::memory::NoMemory;
use crate::text::write_length;
use crate::writer::MessageWrite;
use std::marker::Model;

/// A writer into a borrowed slice, from its first byte on. Its maximum size is the length of the
/// slice. It allocates nothing. `finish` returns the written bytes and the bytes after them.
/// Contracts see the record `Lent`.
#[derive(Debug, Drop)]
pub struct MessageWriteMutSlice<'a> {
    lent: &'a mut [u8],
    len: usize,
    ended: Ended,
}

impl<'a> Model for MessageWriteMutSlice<'a> {
    ghost use Rattle.stun_types_write.specs.Lent.{Lent};

    ghost Value = { Lent };

    ghost view = { λ writer. record {
      lent = writer.lent.now;
      len = writer.len;
      ended = writer.ended;
    } };
}

impl<'a> MessageWriteMutSlice<'a> {
    /// Makes an empty writer into a slice.
    pub fn new(lent: &'a mut [u8]) -> MessageWriteMutSlice<'a>
        ensures { lent_draft result ≡ empty lent.old (Some (length lent.old)) }
    {
        MessageWriteMutSlice {
            lent,
            len: 0,
            ended: Ended::none(),
        }
    }

    /// Returns the written bytes.
    pub fn as_slice(&self) -> &[u8]
        ensures { result.now ≡ (lent_draft self.now).bytes }
    {
        let end = self.end();
        &self.lent[..end]
    }

    /// Returns the whole slice: the written bytes, and after them the bytes that were never
    /// written, with the values that they had before.
    pub fn lent(&self) -> &[u8]
        ensures { result.now ≡ self.now.lent }
    {
        self.lent
    }

    /// Returns the whole borrowed slice.
    pub fn into_lent(self) -> &'a mut [u8]
        ensures { result.now ≡ self.entry.lent }
    {
        let MessageWriteMutSlice {
            lent,
            len: _,
            ended: _,
        } = self;
        lent
    }

    /// Returns the index after the last written byte.
    fn end(&self) -> usize
        ensures { result ≡ length (lent_draft self.now).bytes }
    {
        self.len.min(self.lent.len())
    }
}

impl<'a> MessageWrite for MessageWriteMutSlice<'a> {
    ghost use Rattle.std.specs.Prelude.{◌≡◌};
    ghost use Rattle.stun_types_write.specs.Lent.{lent_draft, with_lent};
    ghost use Rattle.stun_types_write.specs.Alls.{lent_changed};

    type Output = (&'a mut [u8], &'a mut [u8]);

    ghost draft = { lent_draft };

    ghost changed = { with_lent };

    ghost is_changed = { lent_changed };

    ghost finishes = { λ writer lent. (lent.0.now ≡ (lent_draft writer).bytes)
        × (lent.1.now ≡ (lent_draft writer).following) };

    fn max_size(&self) -> Option<usize> {
        Some(self.lent.len())
    }

    fn data(&self) -> &[u8] {
        self.as_slice()
    }

    fn len(&self) -> usize {
        self.end()
    }

    fn ended(&self) -> Ended {
        self.ended
    }

    fn mut_all(&mut self) -> &mut [u8] {
        self.lent
    }

    #[tactic(auto, using(crate::proofs::Lent::take_decoded, crate::proofs::Lent::drop_decoded))]
    fn set_length(&mut self, n: u16) {
        let lent = &mut *self.lent;
        write_length(lent, n);
    }

    fn push_data(&mut self, bytes: &[u8]) -> Result<(), NoMemory> {
        let start = self.end();
        let end = start + bytes.len();
        let lent = &mut *self.lent;
        lent[start..end].copy_from_slice(bytes);
        self.len = end;
        Ok(())
    }

    fn push_attribute_unchecked(&mut self, attribute: &dyn AttributeWrite) -> Result<(), NoMemory> {
        let start = self.end();
        let end = start + attribute.padded_len();
        let ended = self.ended.by(attribute.get_type());
        let lent = &mut *self.lent;
        attribute.write_into_unchecked(&mut lent[start..end]);
        self.len = end;
        self.ended = ended;
        Ok(())
    }

    fn finish(self) -> (&'a mut [u8], &'a mut [u8]) {
        let end = self.end();
        let MessageWriteMutSlice {
            lent,
            len: _,
            ended: _,
        } = self;
        lent.split_at_mut(end)
    }
}

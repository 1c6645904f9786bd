//! A writer into a vector.

ghost use Rattle.std.specs.Prelude.{◌≡◌, [], None, IfOk};
ghost use Rattle.stun_types_write.specs.Drafts.{empty};
ghost use Rattle.stun_types_write.specs.Lent.{own_draft};

use crate::attribute::AttributeWrite;
use crate::ended::Ended;
use crate::stun_types_base::memory::NoMemory;
use crate::text::write_length;
use crate::writer::MessageWrite;
use std::alloc::Global;
use std::marker::Model;

/// A writer into a vector. It has no maximum size but that of a message. `finish` returns the
/// vector. Contracts see the record `Own`.
#[derive(Debug, Drop)]
pub struct MessageWriteVec {
    bytes: Vec<u8>,
    ended: Ended,
}

impl Model for MessageWriteVec {
    ghost use Rattle.stun_types_write.specs.Lent.{Own};

    ghost Value = { Own };

    ghost view = { λ writer. record { bytes = writer.bytes.items; ended = writer.ended } };
}

impl MessageWriteVec {
    /// Makes an empty writer. It allocates nothing until something is written.
    pub fn new(alloc: Global) -> MessageWriteVec
        ensures { own_draft result ≡ empty [] None }
    {
        MessageWriteVec {
            bytes: Vec::new(alloc),
            ended: Ended::none(),
        }
    }

    /// Makes an empty writer with room for `capacity` bytes. Fails only with `NoMemory`, if an
    /// allocation fails.
    pub fn with_capacity(alloc: Global, capacity: usize) -> Result<MessageWriteVec, NoMemory>
        ensures { IfOk result (λ writer. own_draft writer ≡ empty [] None) }
    {
        Ok(MessageWriteVec {
            bytes: Vec::with_capacity(alloc, capacity)?,
            ended: Ended::none(),
        })
    }

    /// Returns the written bytes.
    pub fn as_slice(&self) -> &[u8]
        ensures { result.now ≡ self.now.bytes }
    {
        self.bytes.as_slice()
    }
}

impl MessageWrite for MessageWriteVec {
    ghost use Rattle.std.specs.Prelude.{◌≡◌};
    ghost use Rattle.stun_types_write.specs.Lent.{own_changed, own_draft};
    ghost use Rattle.stun_types_write.specs.Alls.{own_law};

    type Output = Vec<u8>;

    ghost draft = { own_draft };

    ghost changed = { own_changed };

    ghost is_changed = { own_law };

    ghost finishes = { λ writer bytes. bytes.items ≡ writer.bytes };

    fn max_size(&self) -> Option<usize> {
        let _ = &self.bytes;
        None
    }

    fn data(&self) -> &[u8] {
        self.bytes.as_slice()
    }

    fn len(&self) -> usize {
        self.bytes.len()
    }

    fn ended(&self) -> Ended {
        self.ended
    }

    fn mut_all(&mut self) -> &mut [u8] {
        self.bytes.as_mut_slice()
    }

    fn set_length(&mut self, n: u16) {
        write_length(self.bytes.as_mut_slice(), n);
    }

    fn push_data(&mut self, bytes: &[u8]) -> Result<(), NoMemory> {
        self.bytes.extend_from_slice(bytes)?;
        Ok(())
    }

    fn push_attribute_unchecked(&mut self, attribute: &dyn AttributeWrite) -> Result<(), NoMemory> {
        let start = self.bytes.len();
        let end = start + attribute.padded_len();
        self.bytes.resize(end, 0)?;
        attribute.write_into_unchecked(&mut self.bytes[start..]);
        self.ended = self.ended.by(attribute.get_type());
        Ok(())
    }

    fn finish(self) -> Vec<u8> {
        let MessageWriteVec { bytes, ended: _ } = self;
        bytes
    }
}

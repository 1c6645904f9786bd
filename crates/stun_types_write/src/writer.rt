//! The interface of a writer, the buffer to which a message is written.

ghost use Rattle.std.specs.Prelude.{◌≡◌, ◌≤◌, IsOk, IsSome, ◌++◌, length, List, ℕ, OnOk, OnErr};
ghost use Rattle.std.specs.Prelude.{find, map};
ghost use Rattle.std.specs.Borrow.{Array, Lends, sem, u8 as byte};
ghost use Rattle.std.specs.Option.{option_map};
ghost use Rattle.stun_types_wire.specs.Attributes.{attr_size};
ghost use Rattle.stun_types_wire.specs.Covered.{with_length};
ghost use Rattle.stun_types_write.specs.Adding.{attr_of, has_kind, is_among};
ghost use Rattle.stun_types_wire.specs.Registry.{greatest_size, header_size};
ghost use Rattle.stun_types_write.specs.Lent.{with_all};
ghost use Rattle.stun_types_write.specs.Drafts.{Draft, HasRoom, kinds_written, pushed};
ghost use Rattle.stun_types_write.specs.Drafts.{pushed_attribute, with_bytes};

use crate::attribute::AttributeWrite;
use crate::ended::Ended;
use crate::scan::{first_written, is_written};
use crate::stun_types_base::memory::NoMemory;
use stun_types_wire::attribute::AttributeType;

/// A buffer to which a message is written. Contracts know a writer by its draft:
///
/// - the written bytes;
/// - the bytes of the borrowed slice after them;
/// - which of the attributes that end a message have been added;
/// - the maximum size, if there is one.
pub trait MessageWrite {
    /// What `finish` returns.
    type Output;

    // The state of the writer, as contracts see it.
    ghost draft: { Self → Draft };

    // The same writer with all its bytes replaced, the written ones and those after them.
    ghost changed: { Self → List ℕ → Self };

    // As many bytes are written as before, and the writer differs in its bytes only.
    ghost is_changed: { (w : Self) (all : List ℕ)
        → length all ≡ length ((draft w).bytes ++ (draft w).following)
        → draft (changed w all) ≡ with_all (draft w) all };

    // What `finish` returns for this writer.
    ghost finishes: { Self → Self.Output → Type 0 };

    /// Returns the maximum size in bytes, if there is one.
    fn max_size(&self) -> Option<usize>
        ensures { result ≡ (draft self.now).limit };

    /// Returns the written bytes.
    fn data(&self) -> &[u8]
        ensures { result.now ≡ (draft self.now).bytes };

    /// Returns the number of written bytes.
    fn len(&self) -> usize
        ensures { result ≡ length (draft self.now).bytes };

    /// Returns which of the attributes that end a message have been added.
    fn ended(&self) -> Ended
        ensures { result ≡ (draft self.now).ended };

    /// Returns the written bytes and the bytes of the borrowed slice after them, to be changed in
    /// place. The number of written bytes stays, and nothing else of the writer changes.
    fn mut_all(&mut self) -> &mut [u8]
        ensures* writes_back { sem 𝓛
            (Lends Self.row (Array byte 0) self.entry result (changed self.old)) }
        ensures value { result.now ≡ (draft self.old).bytes ++ (draft self.old).following };

    /// Sets the length field in the header of the written message.
    fn set_length(&mut self, n: u16)
        requires { header_size ≤ length (draft self.old).bytes }
        ensures { draft self.new
            ≡ with_bytes (draft self.old) (with_length (draft self.old).bytes n) };

    /// Adds bytes at the end. The bytes of the slice after them are unchanged. Fails only with
    /// `NoMemory`, if an allocation fails; nothing changes then. A writer with a maximum size never
    /// fails.
    fn push_data(&mut self, bytes: &[u8]) -> Result<(), NoMemory>
        requires room { HasRoom (draft self.old) (length bytes.now) }
        ensures lent { IsSome (draft self.old).limit → IsOk result }
        ensures ok { OnOk result (draft self.new ≡ pushed bytes.now (draft self.old)) }
        ensures err { OnErr result (draft self.new ≡ draft self.old) };

    /// Adds an attribute at the end. The length field in the header and the bytes of the slice
    /// after the attribute are unchanged. Fails only with `NoMemory`, if an allocation fails;
    /// nothing changes then. A writer with a maximum size never fails.
    fn push_attribute_unchecked(&mut self, attribute: &dyn AttributeWrite) -> Result<(), NoMemory>
        requires size { length (draft self.old).bytes ≤ greatest_size }
        requires room { HasRoom (draft self.old)
            (attr_size (attr_of (kind attribute.now) (value attribute.now))) }
        ensures lent { IsSome (draft self.old).limit → IsOk result }
        ensures ok { OnOk result (draft self.new
            ≡ pushed_attribute (attr_of (kind attribute.now) (value attribute.now))
            (draft self.old)) }
        ensures err { OnErr result (draft self.new ≡ draft self.old) };

    /// Returns whether an attribute of this type follows the header. It searches the written bytes.
    fn has_attribute(&self, atype: AttributeType) -> bool
        ensures { result ≡ has_kind atype.0 (kinds_written (draft self.now).bytes) }
    {
        is_written(self.data(), atype)
    }

    /// Returns the type of the first attribute after the header whose type is one of `atypes`.
    fn has_any_attribute(&self, atypes: &[AttributeType]) -> Option<AttributeType>
        ensures { option_map (λ t. t.0) result
            ≡ find (is_among (map (λ t. t.0) atypes.now)) (kinds_written (draft self.now).bytes) }
    {
        first_written(self.data(), atypes)
    }

    /// Returns what was written, in the form of this writer's `Output`.
    fn finish(self) -> Self::Output
        ensures { finishes self result };
}

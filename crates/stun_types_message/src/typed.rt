//! Reads the visible attributes of a message as values of their own types.

ghost use Rattle.std.specs.Prelude.{◌≡◌, ◌==◌, IfErr, IfOk, IsTrue, find};
ghost use Rattle.stun_types_attributes.specs.Base.Refusals.{RefusesFor};
ghost use Rattle.stun_types_attributes.specs.Wire.Grammar.{visible};
ghost use Rattle.stun_types_message.specs.TypedReading.{IsReadOf, nth_of_kind, read_of_refusal};

use crate::parsed::Message;
use crate::stun_types_wire::attribute::{AttributeType, RawAttribute};
use crate::stun_types_wire::error::StunParseError;
use crate::stun_types_write::attribute::{AttributeFromRaw, AttributeStaticType};
use std::alloc::Global;

impl<'a> Message<'a> {
    /// Returns the first visible attribute of type `A`. It allocates memory only if `A::from_raw`
    /// does.
    ///
    /// # Errors
    ///
    /// 1. `MissingAttribute` of that type: no such attribute is visible.
    /// 2. The errors of `A::from_raw`.
    pub fn attribute<A: AttributeFromRaw<'a> + AttributeStaticType>(
        &self,
        alloc: Global,
    ) -> Result<A, StunParseError>
        ensures ok { IfOk result (IsReadOf A.kind A.value A.read_refusal A.read_value
            (find (λ a. a.kind == A.TYPE.0) (visible self.now))) }
        ensures cause { RefusesFor StunParseError.NoMemory (read_of_refusal A.TYPE A.read_refusal
            (find (λ a. a.kind == A.TYPE.0) (visible self.now))) result }
        ensures memory { IfErr result (λ error. error ≡ StunParseError.NoMemory
            → IsTrue A.reading_takes_memory) }
    {
        match self.raw_attribute(A::TYPE) {
            None => Err(StunParseError::MissingAttribute(A::TYPE)),
            Some(raw) => A::from_raw(alloc, raw),
        }
    }

    /// Returns the visible attribute of type `A` that follows `n` others of that type;
    /// `nth_attribute(0)` is `attribute`. Fails as `attribute` does.
    pub fn nth_attribute<A: AttributeFromRaw<'a> + AttributeStaticType>(
        &self,
        alloc: Global,
        n: usize,
    ) -> Result<A, StunParseError>
        ensures ok { IfOk result (IsReadOf A.kind A.value A.read_refusal A.read_value
            (nth_of_kind A.TYPE.0 n (visible self.now))) }
        ensures cause { RefusesFor StunParseError.NoMemory (read_of_refusal A.TYPE A.read_refusal
            (nth_of_kind A.TYPE.0 n (visible self.now))) result }
        ensures memory { IfErr result (λ error. error ≡ StunParseError.NoMemory
            → IsTrue A.reading_takes_memory) }
    {
        match self.nth_of_type(A::TYPE, n) {
            None => Err(StunParseError::MissingAttribute(A::TYPE)),
            Some(raw) => A::from_raw(alloc, raw),
        }
    }

    /// Returns the visible attribute of a type that follows `n` others of that type, or `None`.
    fn nth_of_type(&self, atype: AttributeType, n: usize) -> Option<RawAttribute<'a>>
        ensures { result ≡ nth_of_kind atype.0 n (visible self.now) }
    {
        let mut before = n;
        for (_, attribute) in self.iter_attributes() {
            if attribute.get_type() == atype {
                if before == 0 {
                    return Some(attribute);
                }
                before -= 1;
            }
        }
        None
    }
}

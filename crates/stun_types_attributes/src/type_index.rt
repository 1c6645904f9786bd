//! A set of attribute types in which a type is looked up without iterating over the others.

ghost use Rattle.std.specs.Prelude.{◌≡◌, ◌==◌, ◌||◌, ℕ, false, IfOk};
ghost use Rattle.stun_types_attributes.specs.TypeMarks.{is_marked};

use crate::stun_types_base::memory::NoMemory;
use std::alloc::Global;
use std::marker::Model;
use stun_types_wire::attribute::AttributeType;

/// The number of types that one word marks.
const WORD_TYPES: usize = 64;

/// The number of words that mark every type: a type has sixteen bits.
const WORDS: usize = 65_536 / WORD_TYPES;

/// A set of attribute types, one bit for each possible type. Contracts see the words.
#[derive(Drop)]
pub struct TypeIndex {
    words: Vec<u64>,
}

impl Model for TypeIndex {
    ghost use Rattle.std.specs.Prelude.{◌≡◌, ℕ, List, length};
    ghost use Rattle.stun_types_attributes.specs.declared.type_index.TheConstants.{WORDS};

    ghost Value = { List ℕ };

    ghost view = { λ index. index.words.items };

    ghost invariant = { λ index. length index.words.items ≡ WORDS };
}

impl TypeIndex {
    /// Makes an empty set. Fails only with `NoMemory`, if an allocation fails.
    pub fn new(alloc: Global) -> Result<TypeIndex, NoMemory>
        ensures { IfOk result (λ index. (kind : ℕ) → is_marked index kind ≡ false) }
    {
        Ok(TypeIndex {
            words: vec![in alloc; 0; WORDS]?,
        })
    }

    /// Returns whether a type is in the set.
    pub fn has(&self, atype: AttributeType) -> bool
        ensures { result ≡ is_marked self.now atype.0 }
    {
        let bit_index = usize::from(atype.value());
        self.words[bit_index / WORD_TYPES] & (1 << (bit_index % WORD_TYPES)) != 0
    }

    /// Adds a type to the set.
    pub fn mark(&mut self, atype: AttributeType)
        ensures { (kind : ℕ) → is_marked self.new kind
            ≡ (atype.0 == kind || is_marked self.old kind) }
    {
        let bit_index = usize::from(atype.value());
        self.words[bit_index / WORD_TYPES] |= 1 << (bit_index % WORD_TYPES);
    }
}

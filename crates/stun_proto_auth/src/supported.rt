//! The integrity algorithms that a side supports.

ghost use Rattle.std.specs.Prelude.{◌≡◌, ◌≢◌, [], ◌∷◌};
ghost use Rattle.std.specs.List.{IsDistinct, list_any};
ghost use Rattle.stun_proto_auth.specs.SupportedAlgorithms.{is_same_algorithm, list_of};
ghost use Rattle.stun_proto_auth.specs.SupportedAlgorithms.{with_algorithm};

use crate::number::number_by;
use crate::stun_types_wire::algorithm::IntegrityAlgorithm;
use std::fmt;
use std::marker::Model;

/// The integrity algorithms that a side supports, in order: at least one, and none twice. Contracts
/// see the list of them.
#[derive(Clone, Copy)]
pub struct SupportedIntegrity {
    // The supported algorithms in order, then `Sha1` in each unused position.
    algorithms: [IntegrityAlgorithm; 3],
    // The PASSWORD-ALGORITHMS entries of all three positions.
    entries: [u8; 12],
    // The number of supported algorithms.
    count: u8,
}

impl Model for SupportedIntegrity {
    ghost use Rattle.std.specs.Prelude.{List, take};
    ghost use Rattle.stun_types_message.specs.Wire.declared.algorithm.IntegrityAlgorithm.{IntegrityAlgorithm};

    ghost Value = { List IntegrityAlgorithm };

    ghost use Rattle.stun_proto_auth.specs.StoredAlgorithms.{AreStored, stored_as, stored_as-take};

    ghost view = { λ s. take s.count s.algorithms };

    ghost invariant = { λ s. AreStored s.algorithms s.entries s.count };

    ghost inverse = { λ algorithms. stored_as algorithms };

    ghost inverse_ok = { λ s stored. stored_as-take s stored };
}

impl SupportedIntegrity {
    /// Creates a list of this algorithm only.
    #[tactic(auto, using(crate::proofs::Keeping::one_stored))]
    pub fn only(algorithm: IntegrityAlgorithm) -> Self
        ensures { result ≡ algorithm ∷ [] }
    {
        let algorithms = [
            algorithm,
            IntegrityAlgorithm::Sha1,
            IntegrityAlgorithm::Sha1,
        ];
        SupportedIntegrity {
            algorithms,
            entries: entries_of(&algorithms),
            count: 1,
        }
    }

    /// Appends an algorithm to the list. If the list has it already, nothing changes.
    #[tactic(auto, using(crate::proofs::Keeping::adding))]
    pub fn with(self, algorithm: IntegrityAlgorithm) -> Self
        ensures { result ≡ with_algorithm self algorithm }
    {
        if self.supports(algorithm) {
            return self;
        }
        let mut algorithms = self.algorithms;
        algorithms[usize::from(self.count)] = algorithm;
        SupportedIntegrity {
            algorithms,
            entries: entries_of(&algorithms),
            count: self.count + 1,
        }
    }

    /// Returns the algorithms in order.
    pub fn as_slice(&self) -> &[IntegrityAlgorithm]
        ensures value { result.now ≡ self.now }
        ensures never_empty { result.now ≢ [] }
        ensures distinct { IsDistinct is_same_algorithm result.now }
    {
        &self.algorithms[..usize::from(self.count)]
    }

    /// Returns whether an algorithm is in the list.
    pub fn supports(&self, algorithm: IntegrityAlgorithm) -> bool
        ensures { result ≡ list_any (is_same_algorithm algorithm) self.now }
    {
        self.as_slice().contains(&algorithm)
    }

    /// Returns the PASSWORD-ALGORITHMS value that lists the algorithms in order (RFC 8489, section
    /// 14.11). Each entry has the algorithm's number in two bytes, and a parameter length of 0 in
    /// two bytes.
    #[tactic(auto, using(crate::proofs::Keeping::head_decoded))]
    pub fn entries(&self) -> &[u8]
        ensures { result.now ≡ list_of self.now }
    {
        &self.entries[..4 * usize::from(self.count)]
    }
}

/// Returns the PASSWORD-ALGORITHMS value that lists three algorithms.
#[tactic(auto, using(crate::proofs::Keeping::three_decoded))]
fn entries_of(algorithms: &[IntegrityAlgorithm; 3]) -> [u8; 12]
    ensures { result ≡ list_of algorithms.now }
{
    let [first, second, third] = *algorithms;
    let [a, b] = number_by(first).to_be_bytes();
    let [c, d] = number_by(second).to_be_bytes();
    let [e, f] = number_by(third).to_be_bytes();
    [a, b, 0, 0, c, d, 0, 0, e, f, 0, 0]
}

/// Two lists are equal if they have the same algorithms in the same order.
impl PartialEq for SupportedIntegrity {
    ghost use Rattle.std.specs.Cmp.{nat_eq_equiv, on_equiv, partial_equiv_from_equiv};
    ghost use Rattle.std.specs.Cmp.Lexicographic.{lists_equiv, pointwise};
    ghost use Rattle.stun_types_message.specs.Wire.Strength.{strength};
    ghost use Rattle.stun_proto_auth.specs.SupportedAlgorithms.{is_same_algorithm};

    ghost eq = { λ a b. pointwise is_same_algorithm a b };

    ghost laws = { partial_equiv_from_equiv (lists_equiv (on_equiv strength nat_eq_equiv)) };

    fn eq(&self, other: &Self) -> bool {
        self.as_slice() == other.as_slice()
    }
}

impl Eq for SupportedIntegrity {
    ghost use Rattle.std.specs.Cmp.{nat_eq_equiv, on_equiv};
    ghost use Rattle.std.specs.Cmp.Lexicographic.{lists_equiv};
    ghost use Rattle.stun_types_message.specs.Wire.Strength.{strength};

    ghost laws = { lists_equiv (on_equiv strength nat_eq_equiv) };
}

impl fmt::Debug for SupportedIntegrity {
    /// Prints the list.
    fn fmt<W: fmt::Write>(&self, f: &mut fmt::Formatter<W>) -> fmt::Result {
        self.as_slice().fmt(f)
    }
}

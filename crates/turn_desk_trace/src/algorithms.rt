//! The integrity algorithms of a trace: names separated by commas.

ghost use Rattle.std.specs.Prelude.{◌≡◌, ◌≢◌, ◌∷◌, [], ◌==◌, ◌<◌, List, IfSome, MatchOption, length};
ghost use Rattle.std.specs.List.{slice_split};
ghost use Rattle.stun_types_wire.specs.declared.algorithm.IntegrityAlgorithm.{IntegrityAlgorithm};
ghost use Rattle.turn_desk_trace.specs.Algorithms.{AreAlgorithms, IsAnother, algorithm_word, listed};

use stun_proto_auth::supported::SupportedIntegrity;
use stun_types_wire::algorithm::IntegrityAlgorithm;

/// Reads the name of an algorithm. Returns `None` for any other word.
pub fn read_algorithm(word: &str) -> Option<IntegrityAlgorithm>
    ensures { MatchOption result ((a : IntegrityAlgorithm) → word.now ≢ algorithm_word a)
        (λ a. word.now ≡ algorithm_word a) }
{
    match word {
        "sha1" => Some(IntegrityAlgorithm::Sha1),
        "sha256" => Some(IntegrityAlgorithm::Sha256),
        "sha512" => Some(IntegrityAlgorithm::Sha512),
        _ => None,
    }
}

/// Reads one or more names of algorithms, separated by commas. Returns `None` if a name is unknown
/// or appears twice.
pub fn read_algorithms(word: &str) -> Option<SupportedIntegrity>
    ensures { MatchOption result ((algorithms : List IntegrityAlgorithm)
        → ¬ (AreAlgorithms (slice_split (λ b. b == 44) word.now) algorithms))
        (AreAlgorithms (slice_split (λ b. b == 44) word.now)) }
{
    let mut algorithms = None;
    let mut left = word;
    while let Some((name, rest)) = cut(left) {
        algorithms = Some(with_named(algorithms, name)?);
        left = rest;
    }
    with_named(algorithms, left)
}

/// Splits a word at its first comma. Returns `None` if there is no comma.
fn cut(word: &str) -> Option<(&str, &str)>
    ensures chunks { MatchOption result
        (slice_split (λ b. b == 44) word.now ≡ word.now ∷ [])
        (λ parts. slice_split (λ b. b == 44) word.now
        ≡ parts.0.now ∷ slice_split (λ b. b == 44) parts.1.now) }
    ensures shorter { IfSome result (λ parts. length parts.1.now < length word.now) }
{
    word.split_once(',')
}

/// Appends the algorithm with this name to the algorithms before it. Returns `None` if the name is
/// unknown, or its algorithm is among those.
fn with_named(before: Option<SupportedIntegrity>, name: &str) -> Option<SupportedIntegrity>
    ensures { MatchOption result ((algorithms : List IntegrityAlgorithm)
        → ¬ (IsAnother (listed before) name.now algorithms)) (IsAnother (listed before) name.now) }
{
    let algorithm = read_algorithm(name)?;
    match before {
        None => Some(SupportedIntegrity::only(algorithm)),
        Some(before) if before.supports(algorithm) => None,
        Some(before) => Some(before.with(algorithm)),
    }
}

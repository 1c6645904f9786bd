//! The decisions of a trace: the application's decision on a request.

ghost use Rattle.std.specs.Prelude.{◌≡◌, Err, IfOk, MatchOption, map};
ghost use Rattle.turn_desk_core.specs.declared.decision.Decision.{Decision};
ghost use Rattle.turn_desk_trace.specs.Decision.{IsAllocate, IsDecision, IsNumbered};

use crate::address::read_addresses;
use crate::number::{read_code, read_u32};
use line_io::refusal::LineError;
use std::alloc::Global;
use turn_desk_core::decision::Decision;

/// Reads a decision from the last words of a line.
///
/// # Errors
///
/// - `Bad`: the words are not a decision.
/// - `NoMemory`: an allocation failed.
pub fn read_decision(alloc: Global, words: &[&str]) -> Result<Decision, LineError>
    ensures ok { IfOk result (IsDecision (map (λ x. x.now) words.now)) }
    ensures bad { result ≡ Err LineError.Bad → (decision : Decision)
        → ¬ (IsDecision (map (λ x. x.now) words.now) decision) }
{
    match words {
        ["allocate", addresses, lifetime] => read_allocate(alloc, addresses, lifetime),
        [name, number] => match read_numbered(name, number) {
            Some(decision) => Ok(decision),
            None => Err(LineError::Bad),
        },
        ["grant"] => Ok(Decision::Grant),
        _ => Err(LineError::Bad),
    }
}

/// Reads `allocate ADDR LIFETIME`, where ADDR is one address, or two separated by a comma.
fn read_allocate(alloc: Global, addresses: &str, lifetime: &str) -> Result<Decision, LineError>
    ensures ok { IfOk result (IsAllocate addresses.now lifetime.now) }
    ensures bad { result ≡ Err LineError.Bad → (decision : Decision)
        → ¬ (IsAllocate addresses.now lifetime.now decision) }
{
    let Some(lifetime) = read_u32(lifetime) else {
        return Err(LineError::Bad);
    };
    match read_addresses(alloc, addresses) {
        Ok(addresses) => Ok(Decision::Allocate {
            addresses,
            lifetime,
        }),
        Err(error) => Err(error),
    }
}

/// Reads a decision that consists of a name and a number.
fn read_numbered(name: &str, number: &str) -> Option<Decision>
    ensures { MatchOption result ((decision : Decision)
        → ¬ (IsNumbered name.now number.now decision)) (IsNumbered name.now number.now) }
{
    match name {
        "refuse" => match read_code(number) {
            Some(code) => Some(Decision::Refuse(code)),
            None => None,
        },
        "refresh" => match read_u32(number) {
            Some(lifetime) => Some(Decision::Refresh { lifetime }),
            None => None,
        },
        "connect" => match read_u32(number) {
            Some(number) => Some(Decision::Connect { number }),
            None => None,
        },
        _ => None,
    }
}

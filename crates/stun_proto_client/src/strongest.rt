//! The choice of an algorithm that both sides support.

ghost use Rattle.std.specs.Prelude.{◌≡◌, MatchOption};
ghost use Rattle.std.specs.Option.{option_copied};
ghost use Rattle.stun_proto_client.specs.Choice.{HasNoneCommon, IsStrongest, is_common, takes};

use crate::stun_types_wire::algorithm::IntegrityAlgorithm;
use stun_proto_auth::algorithms::offers;
use stun_proto_auth::list::lists;
use stun_proto_auth::supported::SupportedIntegrity;

/// Returns the strongest algorithm that the client supports and the server accepts, or `None` if
/// they have none in common. The server accepts the algorithms that its PASSWORD-ALGORITHMS lists,
/// which a hardened client reads entry by entry; without a list, only `Sha1`.
#[tactic(auto, using(crate::proofs::Choosing::choices))]
pub(crate) fn strongest(
    own: SupportedIntegrity,
    hardened: bool,
    offered: Option<&[u8]>,
) -> Option<IntegrityAlgorithm>
    ensures { MatchOption result (HasNoneCommon own hardened (option_copied offered.entry))
        (IsStrongest own hardened (option_copied offered.entry)) }
{
    if is_common(own, hardened, offered, IntegrityAlgorithm::Sha512) {
        Some(IntegrityAlgorithm::Sha512)
    } else if is_common(own, hardened, offered, IntegrityAlgorithm::Sha256) {
        Some(IntegrityAlgorithm::Sha256)
    } else if is_common(own, hardened, offered, IntegrityAlgorithm::Sha1) {
        Some(IntegrityAlgorithm::Sha1)
    } else {
        None
    }
}

/// Returns whether the client supports an algorithm and the server accepts it.
fn is_common(
    own: SupportedIntegrity,
    hardened: bool,
    offered: Option<&[u8]>,
    algorithm: IntegrityAlgorithm,
) -> bool
    ensures { result ≡ is_common own hardened (option_copied offered.entry) algorithm }
{
    own.supports(algorithm) && takes(hardened, offered, algorithm)
}

/// Returns whether the server accepts an algorithm: its list has it, or there is no list and the
/// algorithm is `Sha1`.
fn takes(hardened: bool, offered: Option<&[u8]>, algorithm: IntegrityAlgorithm) -> bool
    ensures { result ≡ takes hardened (option_copied offered.entry) algorithm }
{
    match offered {
        Some(value) if hardened => lists(value, algorithm),
        Some(value) => offers(value, algorithm),
        None => algorithm == IntegrityAlgorithm::Sha1,
    }
}

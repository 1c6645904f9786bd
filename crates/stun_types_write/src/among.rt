//! Lists of requested attribute types.

ghost use Rattle.std.specs.Prelude.{◌≡◌, ◌==◌};
ghost use Rattle.std.specs.List.{list_any};

use stun_types_wire::attribute::AttributeType;

/// Returns whether `atype` is one of `atypes`.
pub fn has_type(atypes: &[AttributeType], atype: AttributeType) -> bool
    ensures { result ≡ list_any (λ t. t.0 == atype.0) atypes.now }
{
    atypes.iter().any(|t| t.0 == atype.0)
}

//! The order of socket addresses, by which maps keyed by address are sorted.

ghost use Rattle.std.specs.Cmp.{IsTotalOrder};
ghost use Rattle.std.specs.FinMap.{IsAntisymmetric};
ghost use Rattle.stun_types_base.specs.SocketAddrs.{socket_addr_cmp};

/// The order of `SocketAddr` is total, and two addresses compare as equal only if they are equal.
pub fn socket_addr_order()
    ensures total { IsTotalOrder socket_addr_cmp }
    ensures only_equal_tie { IsAntisymmetric socket_addr_cmp }
{}

//! A client decodes from a message what a run says of it. The functions do nothing; each contract
//! is a theorem.

ghost use Rattle.std.specs.Prelude.{◌≡◌, ℕ, List, IsSome};
ghost use Rattle.std.specs.List.{AllByRecursion};
ghost use Rattle.turn_client_proto_timers.specs.StunTypesWire.Grammar.{number_at};
ghost use Rattle.turn_client_proto_recv.specs.TurnTypesAttributes.TurnRegistry.{connection_id_kind, lifetime_kind, xor_relayed_address_kind};
ghost use Rattle.turn_client_proto_timers.specs.TurnTypesPeer.TurnShows.{address_in, addresses_visible, each_visible, number_visible};
ghost use Rattle.turn_client_proto_timers.specs.Messages.Reported.{connection_reported, lifetime_reported, relayed_reported};

/// A client decodes the same values from a message as a run does (RFC 8656, sections 18.2 and 18.5;
/// RFC 6062, section 6.2.1).
///
/// - `relayed`: the client decodes the XOR-RELAYED-ADDRESS attributes up to the first malformed
///   one, and a run decodes those that are well formed. If none is malformed, the two lists are
///   equal.
/// - `lifetime` and `connection`: both decode the same LIFETIME and the same CONNECTION-ID.
pub fn messages_are_reported_alike()
    ensures relayed { (bytes : List ℕ)
        → AllByRecursion (λ a. IsSome (address_in (number_at bytes) a))
        (each_visible xor_relayed_address_kind bytes)
        → relayed_reported bytes ≡ addresses_visible xor_relayed_address_kind bytes }
    ensures lifetime { (bytes : List ℕ)
        → lifetime_reported bytes ≡ number_visible 4 lifetime_kind bytes }
    ensures connection { (bytes : List ℕ)
        → connection_reported bytes ≡ number_visible 4 connection_id_kind bytes }
{}

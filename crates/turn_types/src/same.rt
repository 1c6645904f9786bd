//! What a reader decodes from two messages with the same visible attributes. The function does
//! nothing; its contract is a theorem.

ghost use Rattle.std.specs.Prelude.{◌≡◌, ◌≢◌, ℕ, List};
ghost use Rattle.turn_types_attributes.specs.StunTypesWire.Registry.{fingerprint_kind};
ghost use Rattle.stun_types_message.specs.Same.{ShowSame};
ghost use Rattle.turn_types_peer.specs.TurnShows.{DecodeSame, each_visible, first_visible};

/// If two messages have the same visible attributes, except for a FINGERPRINT, they have the same
/// attributes of each type other than FINGERPRINT. So the same relayed addresses, peers, channel,
/// connection, lifetime and transport are decoded from both.
pub fn same_visible_same_decoded()
    ensures each { (one other : List ℕ) (kind : ℕ) → ShowSame one other → kind ≢ fingerprint_kind
        → each_visible kind one ≡ each_visible kind other }
    ensures first { (one other : List ℕ) (kind : ℕ) → ShowSame one other → kind ≢ fingerprint_kind
        → first_visible kind one ≡ first_visible kind other }
    ensures decoded { (one other : List ℕ) → ShowSame one other → DecodeSame one other }
{}

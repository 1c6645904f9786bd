//! The meaning of STUN and TURN bytes in the terms of a run (RFC 8489, RFC 8656).

ghost use Rattle.turn_runs.specs.Words.{WireLaws};
ghost use Rattle.turn_runs.specs.StunWire.{stun_wire};

/// If two messages validate under one key, by one algorithm, over one text, they show the same
/// attributes, except for a FINGERPRINT. And messages that show the same in this sense say the same
/// about allocations, permissions, channels and connections.
pub fn stun_wire_is_lawful()
    ensures { WireLaws stun_wire }
{}

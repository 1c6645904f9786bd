//! What a client notes of a message stands on a response: why something failed, the client's own
//! address as the server saw it, and another server. The functions do nothing; each contract is a
//! theorem.

ghost use Rattle.std.specs.Prelude.{◌≡◌, ℕ, List, Bool, true, false, length, nat_lt};
ghost use Rattle.turn_client_proto_timers.specs.Api.declared.cause.TurnCause.TheVariants.{Rejected};
ghost use Rattle.turn_client_proto_timers.specs.StunProtoAgent.Handling.{is_awaited};
ghost use Rattle.turn_client_proto_timers.specs.StunTypesWire.Headers.{AreBytes};
ghost use Rattle.turn_client_proto_timers.specs.Core.Receiving.{IsProcessed};
ghost use Rattle.turn_client_proto_timers.specs.Core.declared.protocol.Protocol.{Protocol};
ghost use Rattle.turn_client_proto_recv.specs.Notes.{before_of, cause_of, is_allocated, is_redirected, is_unsigned};
ghost use Rattle.turn_client_proto_step_laws.specs.Adding.{IsSignedFor};
ghost use Rattle.turn_client_proto_step_laws.specs.Causes.{IsErrorTo, IsSignedErrorTo};
ghost use Rattle.turn_client_proto_step_laws.specs.RunClient.{Client};
ghost use Rattle.turn_client_proto_step_laws.specs.Sound.{IsSound};

/// A rejection that counts as signed is the response to an outstanding request, and validates under
/// the client's key (RFC 8489, sections 6.3 and 9.2.5).
///
/// Premises: the client's invariant holds, the bytes came to the client and queued an event, and
/// the cause that it notes of them is a signed rejection with this code. Conclusion: the bytes are
/// an error response with this very code. They validate under the client's key; a request with
/// their transaction ID was outstanding, and no longer is.
pub fn signed_causes_are_of_responses()
    ensures { (c : Client) (bytes : List ℕ) (now : ℕ) (handled : Bool) (new : Protocol) (code : ℕ)
        (reason : List ℕ)
        → IsSound c
        → AreBytes bytes
        → IsProcessed c.core bytes now handled new
        → nat_lt (length c.core.events) (length new.events) ≡ true
        → cause_of (before_of c.core bytes) bytes new ≡ Rejected code reason true
        → IsSignedErrorTo c bytes new code }
{}

/// The client's own address changes only by the response that allocated: it validates under the
/// client's key, and its transaction was outstanding (RFC 8656, section 7.3).
pub fn mapped_addresses_are_signed()
    ensures { (c : Client) (bytes : List ℕ) (now : ℕ) (handled : Bool) (new : Protocol)
        → IsSound c
        → AreBytes bytes
        → IsProcessed c.core bytes now handled new
        → is_allocated (before_of c.core bytes) new ≡ true
        → (is_awaited c.core.agent bytes ≡ true) × IsSignedFor c bytes }
{}

/// A redirect is the response to an outstanding request, of any client (`awaited`). Once an ALLOCATE
/// was sent with credentials it validates under the client's key as well (`signed`). Before, no key
/// is known, and it may be anybody's (RFC 8489, section 10).
pub fn redirects_are_of_responses()
    ensures awaited { (old : Protocol) (bytes : List ℕ) (new : Protocol)
        → is_redirected (before_of old bytes) bytes new ≡ true
        → (is_awaited old.agent bytes ≡ true) × (is_awaited new.agent bytes ≡ false) }
    ensures signed { (c : Client) (bytes : List ℕ) (now : ℕ) (handled : Bool) (new : Protocol)
        → IsSound c
        → AreBytes bytes
        → IsProcessed c.core bytes now handled new
        → is_redirected (before_of c.core bytes) bytes new ≡ true
        → is_unsigned c.core.phase ≡ false
        → IsSignedFor c bytes }
{}

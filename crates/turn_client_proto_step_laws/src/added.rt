//! What a received message adds to a client's state: allocations, permissions, channels and bound
//! connections (RFC 8656, sections 7.3, 10.3 and 12.3; RFC 6062, section 4.3). A response adds what
//! its own request asked for, and nothing else adds anything. The functions here do nothing; each
//! contract is a theorem.

ghost use Rattle.std.specs.Prelude.{◌≡◌, ℕ, List, [], Bool, false, None};
ghost use Rattle.std.specs.declared.net.socket_addr.SocketAddr.{SocketAddr};
ghost use Rattle.turn_client_proto_timers.specs.StunProtoAgent.Handling.{is_awaited};
ghost use Rattle.turn_client_proto_timers.specs.StunTypesWire.Grammar.{refusal};
ghost use Rattle.turn_client_proto_timers.specs.StunTypesWire.Headers.{AreBytes};
ghost use Rattle.turn_client_proto_timers.specs.StunTypesWire.declared.algorithm.IntegrityAlgorithm.{IntegrityAlgorithm};
ghost use Rattle.turn_client_proto_timers.specs.Core.Receiving.{IsProcessed};
ghost use Rattle.turn_client_proto_timers.specs.Core.declared.protocol.Protocol.{Protocol};
ghost use Rattle.turn_client_proto_recv.specs.Processing.{IsProcessedAt};
ghost use Rattle.turn_client_proto_timers.specs.TurnRuns.Steps.{Call, ClientStep};
ghost use Rattle.turn_client_proto_timers.specs.TurnRuns.StunWire.{AreValid};
ghost use Rattle.turn_client_proto_step_laws.specs.Adding.{AddsAnswered, AddsNothing, IsSignedFor, ShowNoIntegrity};
ghost use Rattle.turn_client_proto_step_laws.specs.ClientWords.{client_words};
ghost use Rattle.turn_client_proto_step_laws.specs.RunClient.{Client};
ghost use Rattle.turn_client_proto_step_laws.specs.Sound.{IsSound};

/// Whatever a message adds, it adds as the success response to one of the client's own requests
/// (RFC 8656, sections 7.3, 10.3 and 12.3; RFC 6062, section 4.3).
///
/// Premises: the client's invariant holds, and the bytes, which parse as a message, came to the
/// client. Conclusion: each item that the client has afterwards it had before, or all of this
/// holds:
///
/// - The message validates under the client's key, which belongs to its name and password, the
///   realm of its stored challenge, and the algorithm that it chose for that challenge (RFC 8489,
///   sections 9.2.2 and 9.2.5).
/// - A request with the message's transaction ID was outstanding, and no longer is.
/// - That request asked for this very item: an allocation over this transport, a permission for
///   this address, a channel with this number to this peer, or that the connection with this
///   connection ID be bound.
///
/// `processed` is about messages of the control connection, `processed_at` about those that came
/// over the socket of a connection to a peer.
pub fn answers_alone_add()
    ensures processed { (c : Client) (bytes : List ℕ) (now : ℕ) (handled : Bool) (new : Protocol)
        → IsSound c
        → AreBytes bytes
        → refusal bytes ≡ None
        → IsProcessed c.core bytes now handled new
        → AddsAnswered c bytes new }
    ensures processed_at { (c : Client) (here : SocketAddr) (bytes : List ℕ) (now : ℕ) (new :
        Protocol)
        → IsSound c
        → AreBytes bytes
        → refusal bytes ≡ None
        → IsProcessedAt here c.core bytes now new
        → AddsAnswered c bytes new }
{}

/// A message that does not validate under the client's one key adds nothing: all that the client
/// has afterwards, it had before (RFC 8489, section 9.2.5).
///
/// - The key belongs to the client's name and password, the realm of its stored challenge, and only
///   the algorithm that it chose for that challenge. So a message that is right under a key of
///   another realm, or by another algorithm, adds nothing either.
/// - A client that stores no challenge, or has ended, has no key.
/// - A message without a visible MESSAGE-INTEGRITY, MESSAGE-INTEGRITY-SHA256 or
///   MESSAGE-INTEGRITY-SHA512 validates under no key at all (`unsigned`).
pub fn unsigned_adds_nothing()
    ensures processed { (c : Client) (bytes : List ℕ) (now : ℕ) (handled : Bool) (new : Protocol)
        → IsSound c
        → AreBytes bytes
        → refusal bytes ≡ None
        → (IsSignedFor c bytes → ⊥)
        → IsProcessed c.core bytes now handled new
        → AddsNothing c.core new }
    ensures processed_at { (c : Client) (here : SocketAddr) (bytes : List ℕ) (now : ℕ) (new :
        Protocol)
        → IsSound c
        → AreBytes bytes
        → refusal bytes ≡ None
        → (IsSignedFor c bytes → ⊥)
        → IsProcessedAt here c.core bytes now new
        → AddsNothing c.core new }
    ensures unsigned { (bytes key text : List ℕ) (algorithm : IntegrityAlgorithm)
        → ShowNoIntegrity bytes
        → AreValid bytes key algorithm text
        → ⊥ }
{}

/// A message with a transaction ID for which no request is outstanding adds nothing: all that the
/// client has afterwards, it had before, whatever the message contains and whoever signed it (RFC
/// 8489, section 6.3). This holds of any client and any bytes.
pub fn unasked_adds_nothing()
    ensures processed { (old new : Protocol) (bytes : List ℕ) (now : ℕ) (handled : Bool)
        → is_awaited old.agent bytes ≡ false
        → IsProcessed old bytes now handled new
        → AddsNothing old new }
    ensures processed_at { (old new : Protocol) (here : SocketAddr) (bytes : List ℕ) (now : ℕ)
        → is_awaited old.agent bytes ≡ false
        → IsProcessedAt here old bytes now new
        → AddsNothing old new }
{}

/// A call that handles no message adds nothing: neither a call that requests something, nor the
/// passing of time, nor the transmission of bytes. All that the client has after this step, it had
/// before.
pub fn calls_add_nothing()
    ensures { (call : Call Client)
        → ClientStep client_words call
        → call.handled ≡ []
        → AddsNothing call.before.core call.after.core }
{}

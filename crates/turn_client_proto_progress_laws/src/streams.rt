//! What comes over TCP to a client that has allocated: a message in chunks, and buffered bytes (RFC
//! 8489, section 6.2.2; RFC 6062, section 4.5; RFC 8656, section 12.5). The functions do nothing;
//! each contract is a theorem.

ghost use Rattle.std.specs.Prelude.{◌≡◌, ◌≢◌, ◌⊎◌, ◌++◌, ℕ, false, List, [], Option, None};
ghost use Rattle.std.specs.declared.net.ip_addr.IpAddr.{IpAddr};
ghost use Rattle.std.specs.declared.net.socket_addr.SocketAddr.{SocketAddr};
ghost use Rattle.turn_client_proto_messages.specs.StunTypesWire.Attributes.{kind_at};
ghost use Rattle.turn_client_proto_messages.specs.StunTypesWire.Grammar.{refusal};
ghost use Rattle.turn_client_proto_messages.specs.StunTypesWire.Types.{class_of};
ghost use Rattle.turn_client_proto_messages.specs.StunTypesBase.declared.transmit.Transmit.{Transmit};
ghost use Rattle.turn_client_proto_messages.specs.TurnTypesFrame.Streams.{alive};
ghost use Rattle.turn_client_proto_messages.specs.Api.Payloads.{PeerPayload};
ghost use Rattle.turn_client_proto_messages.specs.Api.declared.answer.TurnRecvRet.{TurnRecvRet};
ghost use Rattle.turn_client_proto_messages.specs.Api.declared.answer.TurnRecvRet.TheVariants.{Handled};
ghost use Rattle.turn_client_proto_step_laws.specs.Recv.Control.{Open};
ghost use Rattle.turn_client_proto_messages.specs.TurnRuns.Indications.{is_indication};
ghost use Rattle.turn_client_proto_step_laws.specs.Recv.ClientState.{ClientState};
ghost use Rattle.turn_client_proto_step_laws.specs.Recv.Receipts.{IsReceived, IsWaitingGiven};
ghost use Rattle.turn_client_proto_handshake_laws.specs.Coming.{HasCome, IsFromServer, IsProcessedAs, IsLost, IsPartOf};
ghost use Rattle.turn_client_proto_handshake_laws.specs.Stages.{IsOf};
ghost use Rattle.turn_client_proto_handshake_laws.specs.Sent.{Beginning};
ghost use Rattle.turn_client_proto_progress_laws.specs.Asking.{HasRequested, Wanted};
ghost use Rattle.turn_client_proto_progress_laws.specs.Holding.{HoldsChannel, HoldsPermission};
ghost use Rattle.turn_client_proto_progress_laws.specs.Speaking.{Speaks};

use std::convert::AsSlice;

/// How a message from the server reaches the client:
///
/// - `chunk`: a chunk that does not complete the message is buffered, and nothing else changes.
/// - `whole`: the chunk that completes it, wherever it was cut, makes the client handle it, if it
///   is no indication. Afterwards nothing of the stream is buffered.
///
/// In both cases memory may run out instead: then the client has failed.
pub fn chunks_are_taken<T: AsSlice<u8>>()
    ensures chunk { (b : Beginning) (old new : ClientState) (came : Transmit T) (now : ℕ)
        (answer : TurnRecvRet T) (before message : List ℕ)
        → IsOf b old.core
        → HasCome before old
        → IsFromServer b came
        → T.items came.bytes ≢ []
        → IsPartOf (before ++ T.items came.bytes) message
        → IsReceived T.items old came now answer new
        → ((answer ≡ Handled) × (new.core ≡ old.core)
        × HasCome (before ++ T.items came.bytes) new)
        ⊎ IsLost old came answer new }
    ensures whole { (b : Beginning) (old new : ClientState) (came : Transmit T) (now : ℕ)
        (answer : TurnRecvRet T) (before : List ℕ)
        → IsOf b old.core
        → HasCome before old
        → IsFromServer b came
        → T.items came.bytes ≢ []
        → refusal (before ++ T.items came.bytes) ≡ None
        → is_indication (class_of (kind_at (before ++ T.items came.bytes))) ≡ false
        → IsReceived T.items old came now answer new
        → IsProcessedAs old (before ++ T.items came.bytes) came now (Open (alive [])) answer new
        ⊎ IsLost old came answer new }
{}

/// While nothing or a part of a message is buffered, `poll_recv` returns nothing but bytes of the
/// peers of connections. The client stays established, keeps its pending request, and holds what it
/// held; the part stays buffered.
pub fn waiting_bytes_are_given()
    ensures speaks { (b : Beginning) (realm : List ℕ) (address : SocketAddr) (old new : ClientState)
        (now : ℕ) (given : Option PeerPayload) (before message : List ℕ)
        → Speaks b realm address old.core
        → HasCome before old
        → (before ≡ []) ⊎ IsPartOf before message
        → IsWaitingGiven old now given new
        → Speaks b realm address new.core × HasCome before new }
    ensures requested { (b : Beginning) (realm : List ℕ) (address : SocketAddr) (wanted : Wanted)
        (request : List ℕ) (now at : ℕ) (old new : ClientState) (given : Option PeerPayload)
        (before message : List ℕ)
        → HasRequested b realm address wanted request now old.core
        → HasCome before old
        → (before ≡ []) ⊎ IsPartOf before message
        → IsWaitingGiven old at given new
        → HasRequested b realm address wanted request now new.core × HasCome before new }
    ensures permission { (b : Beginning) (ip : IpAddr) (old new : ClientState) (now : ℕ)
        (given : Option PeerPayload) (before message : List ℕ)
        → HoldsPermission b ip old.core
        → HasCome before old
        → (before ≡ []) ⊎ IsPartOf before message
        → IsWaitingGiven old now given new
        → HoldsPermission b ip new.core × HasCome before new }
    ensures channel { (b : Beginning) (channel : ℕ) (peer : SocketAddr) (old new : ClientState) (now : ℕ)
        (given : Option PeerPayload) (before message : List ℕ)
        → HoldsChannel b channel peer old.core
        → HasCome before old
        → (before ≡ []) ⊎ IsPartOf before message
        → IsWaitingGiven old now given new
        → HoldsChannel b channel peer new.core × HasCome before new }
{}

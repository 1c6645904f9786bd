//! What the contracts on streams mean for a layer above. The functions do nothing; each contract is
//! a theorem.

ghost use Rattle.std.specs.Prelude.{◌≡◌, ◌≢◌, ℕ, List, [], None, Some, Option};
ghost use Rattle.std.specs.List.{concat};
ghost use Rattle.std.specs.declared.net.socket_addr.SocketAddr.{SocketAddr};
ghost use Rattle.turn_client_proto_timers.specs.StunTypesBase.declared.transmit.Transmit.{Transmit};
ghost use Rattle.turn_client_proto_timers.specs.Allocation.declared.connection.Connection.{Connection};
ghost use Rattle.turn_client_proto_timers.specs.Api.Payloads.{PeerPayload};
ghost use Rattle.turn_client_proto_step_laws.specs.Cuts.{AreDrained, IsDrainedOut, chunks_of};
ghost use Rattle.turn_client_proto_timers.specs.Api.declared.answer.TurnRecvRet.{TurnRecvRet};
ghost use Rattle.turn_client_proto_timers.specs.Api.declared.answer.TurnRecvRet.TheVariants.{NoMemory};
ghost use Rattle.turn_client_proto_recv.specs.Control.{Datagrams, Open};
ghost use Rattle.turn_client_proto_recv.specs.ClientState.{ClientState, Protocol};
ghost use Rattle.turn_client_proto_step_laws.specs.Order.{AreFirstGiven, AreFirstTaken};
ghost use Rattle.turn_client_proto_recv.specs.Chunks.{IsFrameHandled};
ghost use Rattle.turn_client_proto_recv.specs.Pulls.{IsPulled};
ghost use Rattle.turn_client_proto_recv.specs.Receipts.{IsOfStream, IsReceived, IsWaitingGiven};
ghost use Rattle.turn_client_proto_step_laws.specs.SocketCuts.{AreDrainedOver, IsSocketDrained, bytes_given};
ghost use Rattle.turn_client_proto_recv.specs.SocketChunks.{IsRawGiven, raw_waiting};
ghost use Rattle.turn_client_proto_recv.specs.Waiting.{frames_waiting, whole_frames};
ghost use Rattle.turn_client_proto_timers.specs.Core.Ending.{HasFailed};
ghost use Rattle.turn_client_proto_recv.specs.TurnTypesFrame.StreamAnswers.{joined};
ghost use Rattle.turn_client_proto_recv.specs.TurnTypesFrame.Streams.{Stream};

use std::convert::AsSlice;

/// It does not matter where the client's stream is cut into chunks (RFC 8656, section 12.5).
///
/// Premises: no complete frame and no bytes of a connection's peer are buffered. Chunks arrive at
/// one time, memory does not run out, and the client is drained after each (`recv`, then
/// `poll_recv` until it returns `None`). Conclusion: two ways to cut the same bytes deliver the
/// same peer data, and leave the client in the same state with the same buffered bytes.
///
/// ICMP reports are not counted as peer data: `recv` returns one if the first frame is one, and
/// `poll_recv` skips them.
pub fn cuts_do_not_matter<T: AsSlice<u8>>()
    ensures { (now : ℕ) (old one other : ClientState) (chunks cuts : List (Transmit T))
        (given again : List PeerPayload)
        → IsDrainedOut old
        → concat (chunks_of T.items chunks) ≡ concat (chunks_of T.items cuts)
        → AreDrained T.items now old chunks given one
        → AreDrained T.items now old cuts again other
        → (given ≡ again) × (one ≡ other) }
{}

/// It does not matter either where the bytes are cut that come over the socket of a connection to a
/// peer: the messages until it is bound, and the peer's bytes after them (RFC 6062, sections 4.3
/// and 4.5).
///
/// Premises: no complete frame and no bytes of a peer are buffered. Chunks arrive at one time over
/// a socket other than the client's own, memory does not run out, and the client is drained after
/// each. Conclusion: two ways to cut the same bytes deliver the same peer bytes in total, though in
/// chunks of their own, and leave the client in the same state with the same buffered bytes.
pub fn cuts_of_sockets_do_not_matter<T: AsSlice<u8>>()
    ensures { (here : SocketAddr) (now : ℕ) (old one other : ClientState) (chunks cuts : List
        (Transmit T))
        (given again : List PeerPayload)
        → IsSocketDrained here old
        → concat (chunks_of T.items chunks) ≡ concat (chunks_of T.items cuts)
        → AreDrainedOver T.items here now old chunks given one
        → AreDrainedOver T.items here now old cuts again other
        → (bytes_given given ≡ bytes_given again) × (one ≡ other) }
{}

/// What a client handles of its stream are the complete frames, in order, once each, and no bytes
/// that only look like a frame (RFC 8656, section 12.5).
///
/// - `came`: a chunk of the open stream is received. Of the complete frames in the buffered bytes
///   and the chunk, the first ones are handled, and the others stay buffered.
/// - `waited`: `poll_recv` is called. The first buffered frames are handled until one carries data
///   of a peer, which is returned; or all are handled, and nothing is returned. Over UDP no frames
///   are buffered.
/// - `first`: if bytes of a connection's peer are buffered, they are returned first, and no frame
///   is handled.
///
/// Nothing is said of a call in which memory runs out: then the client has failed.
pub fn whole_frames_are_taken_in_order<T: AsSlice<u8>>()
    ensures came { (now : ℕ) (stream : Stream) (old new : ClientState) (came : Transmit T)
        (answer : TurnRecvRet T)
        → old.control ≡ Open stream
        → IsOfStream old.core came
        → T.items came.bytes ≢ []
        → answer ≢ NoMemory came
        → IsReceived T.items old came now answer new
        → AreFirstTaken now (whole_frames (joined stream (T.items came.bytes))) old.core
        (frames_waiting new.control) new.core }
    ensures waited { (now : ℕ) (old new : ClientState) (given : Option PeerPayload)
        → (old.control ≢ Datagrams → raw_waiting old.core ≡ None)
        → IsWaitingGiven old now given new
        → AreFirstGiven now (frames_waiting old.control) old.core given
        (frames_waiting new.control) new.core }
    ensures first { (now : ℕ) (old new : ClientState) (given : Option PeerPayload) (c : Connection)
        → old.control ≢ Datagrams
        → raw_waiting old.core ≡ Some c
        → IsWaitingGiven old now given new
        → IsRawGiven c old.core given new.core × (new.control ≡ old.control) }
{}

/// A client that has failed delivers none of the bytes buffered from its stream and does not
/// change, because it holds nothing that a frame could name (`frames`). Nor does it buffer bytes of
/// a connection's peer (`bytes`).
pub fn failed_clients_give_nothing()
    ensures frames { (now : ℕ) (before old : Protocol) (stream left : Stream)
        (given : Option PeerPayload) (new : Protocol)
        → HasFailed before old
        → IsPulled (IsFrameHandled now) stream old given left new
        → (given ≡ None) × (new ≡ old) }
    ensures bytes { (before old : Protocol)
        → HasFailed before old
        → raw_waiting old ≡ None }
{}

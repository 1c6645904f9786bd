//! A TURN client that holds one allocation and nothing else, and renews it by a REFRESH that the
//! server may challenge because its nonce has expired (RFC 8489, section 9.2.5; RFC 8656, sections
//! 8.1 to 8.3), by the contracts of its own calls alone, whatever answers them. The functions do
//! nothing; each contract is a theorem.
//!
//! 1. The client transmitted a REFRESH, and awaits the response ([`challenged_refreshes_wait`]).
//! 2. A challenge comes, and the client queues another REFRESH
//!    ([`refreshing_clients_are_challenged`]), for which 1 and 2 hold again.
//! 3. The success response comes, and the client holds the allocation for the lifetime in it
//!    ([`challenged_refreshes_renew`]).
//!
//! [`responses_reach_clients`] says how a datagram, and chunks of the stream, become such a
//! response. [`keeping_clients_are_polled`] says what `poll` returns while no REFRESH is
//! outstanding, and [`challenged_refreshes_are_reported`] what is reported and listed while one is.

ghost use Rattle.std.specs.Prelude.{◌≡◌, ◌≢◌, ◌⊎◌, ◌≤◌, ◌<◌, ◌+◌, ◌++◌, ℕ, Bool, true, false, List};
ghost use Rattle.std.specs.Prelude.{[], ◌∷◌, Option, Some, None, find, length, option_to_list};
ghost use Rattle.std.specs.List.{list_any};
ghost use Rattle.std.specs.declared.net.socket_addr.SocketAddr.{SocketAddr};
ghost use Rattle.turn_client_proto_messages.specs.StunTypesWire.declared.algorithm.IntegrityAlgorithm.{IntegrityAlgorithm};
ghost use Rattle.turn_client_proto_messages.specs.StunTypesWire.Attributes.{kind_at};
ghost use Rattle.turn_client_proto_messages.specs.StunTypesWire.Grammar.{refusal};
ghost use Rattle.turn_client_proto_messages.specs.StunTypesWire.Types.{class_of};
ghost use Rattle.turn_client_proto_messages.specs.StunTypesBase.declared.transmit.Transmit.{Transmit};
ghost use Rattle.turn_client_proto_messages.specs.StunTypesBase.Times.{time_after};
ghost use Rattle.turn_client_proto_messages.specs.StunProtoClient.Challenges.{ChallengeFields};
ghost use Rattle.turn_client_proto_messages.specs.Waiting.{Queued, is_answer};
ghost use Rattle.turn_client_proto_messages.specs.Allocation.Listed.{relayed_listed};
ghost use Rattle.turn_client_proto_messages.specs.Allocation.Refreshing.{least_lifetime};
ghost use Rattle.turn_client_proto_messages.specs.Api.declared.answer.TurnPollRet.{TurnPollRet};
ghost use Rattle.turn_client_proto_messages.specs.Api.declared.answer.TurnRecvRet.{TurnRecvRet};
ghost use Rattle.turn_client_proto_messages.specs.Api.declared.answer.TurnRecvRet.TheVariants.{Handled};
ghost use Rattle.turn_client_proto_messages.specs.Api.declared.event.TurnEvent.{TurnEvent};
ghost use Rattle.turn_client_proto_messages.specs.Api.Sent.{Sent};
ghost use Rattle.turn_client_proto_messages.specs.TurnRuns.Indications.{is_indication};
ghost use Rattle.turn_client_proto_messages.specs.TurnTypesFrame.Streams.{alive};
ghost use Rattle.turn_client_proto_step_laws.specs.Recv.ClientState.{ClientState};
ghost use Rattle.turn_client_proto_step_laws.specs.Recv.Control.{Datagrams, Open};
ghost use Rattle.turn_client_proto_step_laws.specs.Recv.Receipts.{IsReceived};
ghost use Rattle.turn_client_proto_step_laws.specs.Recv.SocketChunks.{raw_waiting};
ghost use Rattle.turn_client_proto_step_laws.specs.Timers.Drawing.{IsTransmitted};
ghost use Rattle.turn_client_proto_messages.specs.Api.Options.{cadence};
ghost use Rattle.turn_client_proto_step_laws.specs.Timers.Polling.{IsPolled};
ghost use Rattle.turn_client_proto_handshake_laws.specs.Core.Receiving.{IsProcessed};
ghost use Rattle.turn_client_proto_handshake_laws.specs.Core.declared.protocol.Protocol.{Protocol};
ghost use Rattle.turn_client_proto_handshake_laws.specs.Choosing.{Choice, IsAnsweredBy, IsChoice};
ghost use Rattle.turn_client_proto_handshake_laws.specs.Coming.{HasCome, IsFromServer};
ghost use Rattle.turn_client_proto_handshake_laws.specs.Coming.{IsLost, IsPartOf, IsProcessedAs};
ghost use Rattle.turn_client_proto_handshake_laws.specs.Driving.{IsEventTaken, client_end};
ghost use Rattle.turn_client_proto_handshake_laws.specs.Requested.{IsDue, IsQuiet};
ghost use Rattle.turn_client_proto_handshake_laws.specs.Requested as asks;
ghost use Rattle.turn_client_proto_handshake_laws.specs.Sent.{Beginning, HasRoom};
ghost use Rattle.turn_client_proto_handshake_laws.specs.Stages.{IsOf};
ghost use Rattle.turn_client_proto_progress_laws.specs.Keeping.{IsKeeping, IsRefreshing, IsTerm};
ghost use Rattle.turn_client_proto_progress_laws.specs.Keeping.{Term, end_of, next_term};
ghost use Rattle.turn_client_proto_progress_laws.specs.Refreshed.{IsRenewal, refresh_requested};
ghost use Rattle.turn_client_proto_progress_laws.specs.Refreshed.{refresh_sent};
ghost use Rattle.turn_desk_laws.specs.RefreshStages.{IsRefreshChallenge, IsRefreshedAgain};
ghost use Rattle.turn_desk_laws.specs.RefreshStages.{IsRefreshingOn, WaitsOn, most_challenges};

use std::convert::AsSlice;
use turn_client_proto_handshake_laws::stages::signed_allocates_answer;
use turn_client_proto_messages::laws::proof_requests_are_read;

/// A client that awaits the response to its REFRESH, whether or not earlier ones were challenged:
///
/// - `begins`: one that transmitted its first REFRESH is such a client.
/// - `again`: `poll_transmit` transmits the request again if that is due by its schedule (RFC 8489,
///   section 6.2.1). What is queued stays queued.
/// - `rests`: if that isn't due, it returns nothing for 50 ms after the last message, if no reply
///   to the server is queued.
/// - `sends`: if that isn't due, it transmits the first queued message from then on.
/// - `still`: if that isn't due and nothing is queued, it returns nothing.
/// - `polled`: before the end of the schedule and of the allocation, `poll` changes nothing.
pub fn challenged_refreshes_wait()
    ensures begins { (b : Beginning) (c : Choice) (address : SocketAddr) (t : Term)
        (number made many last : ℕ) (events : List TurnEvent) (p : Protocol)
        → IsRefreshing b c address t number made many last events p
        → IsRefreshingOn b c address t [] number made many last [] events p }
    ensures again { (b : Beginning) (c : Choice) (address : SocketAddr) (t : Term)
        (earlier : List ℕ) (number made many last : ℕ) (queue : List Queued)
        (events : List TurnEvent) (old new : Protocol) (now : ℕ) (sent : Option Sent)
        → IsRefreshingOn b c address t earlier number made many last queue events old
        → IsDue b (refresh_requested b c number made) many now
        → IsTransmitted old now sent new
        → (sent ≡ Some (refresh_sent b c number made))
        × IsRefreshingOn b c address t earlier number made (many + 1) now queue events new }
    ensures rests { (b : Beginning) (c : Choice) (address : SocketAddr) (t : Term)
        (earlier : List ℕ) (number made many last : ℕ) (queue : List Queued)
        (events : List TurnEvent) (old new : Protocol) (now : ℕ) (sent : Option Sent)
        → IsRefreshingOn b c address t earlier number made many last queue events old
        → IsQuiet b (refresh_requested b c number made) many now
        → find is_answer queue ≡ None
        → now < time_after last cadence
        → IsTransmitted old now sent new
        → (sent ≡ None) × (new ≡ old) }
    ensures sends { (b : Beginning) (c : Choice) (address : SocketAddr) (t : Term)
        (earlier : List ℕ) (number made many last : ℕ) (one : Queued) (queue : List Queued)
        (events : List TurnEvent) (old new : Protocol) (now : ℕ) (sent : Option Sent)
        → IsRefreshingOn b c address t earlier number made many last (one ∷ queue) events old
        → IsQuiet b (refresh_requested b c number made) many now
        → time_after last cadence ≤ now
        → IsTransmitted old now sent new
        → (sent ≡ Some (record {
          bytes = one.bytes;
          transport = b.transport;
          from = one.from;
          to = b.server;
        })) × IsRefreshingOn b c address t earlier number made many now queue events new }
    ensures still { (b : Beginning) (c : Choice) (address : SocketAddr) (t : Term)
        (earlier : List ℕ) (number made many last : ℕ)
        (events : List TurnEvent) (old new : Protocol) (now : ℕ) (sent : Option Sent)
        → IsRefreshingOn b c address t earlier number made many last [] events old
        → IsQuiet b (refresh_requested b c number made) many now
        → IsTransmitted old now sent new
        → (sent ≡ None) × (new ≡ old) }
    ensures polled { (b : Beginning) (c : Choice) (address : SocketAddr) (t : Term)
        (earlier : List ℕ) (number made many last : ℕ) (queue : List Queued)
        (events : List TurnEvent) (old new : Protocol) (now : ℕ) (ret : TurnPollRet)
        → IsRefreshingOn b c address t earlier number made many last queue events old
        → list_any is_answer queue ≡ false
        → IsTerm t
        → now < asks.end_of b (refresh_requested b c number made)
        → now < end_of t
        → IsPolled old now ret new
        → new ≡ old }
{}

/// A client that awaits the response to its REFRESH receives a challenge that it can answer
/// instead, because the server's nonce has expired (RFC 8489, section 9.2.5): it queues another
/// REFRESH, with another transaction ID, under the new challenge, which is then the only
/// outstanding request. It does so for nine challenges in a row, with no granted request between
/// them.
pub fn refreshing_clients_are_challenged()
    ensures { (b : Beginning) (c : Choice) (address : SocketAddr) (t : Term)
        (earlier : List ℕ) (number made many last : ℕ) (queue : List Queued)
        (events : List TurnEvent) (old new : Protocol) (reported : ChallengeFields)
        (some : IntegrityAlgorithm) (bytes : List ℕ) (now : ℕ) (handled : Bool)
        → HasRoom b.config
        → IsChoice b c
        → IsRefreshingOn b c address t earlier number made many last queue events old
        → length earlier < most_challenges
        → IsRefreshChallenge reported number bytes
        → IsAnsweredBy b.config reported some
        → IsProcessed old bytes now handled new
        → (handled ≡ true)
        × IsRefreshedAgain b c reported address t earlier number now last queue events new }
{
    proof_requests_are_read();
    signed_allocates_answer();
}

/// A client that awaits the response to its REFRESH, whether or not earlier ones were challenged,
/// receives the success response, valid under the key of its credentials, with a lifetime of ten
/// minutes or more: it holds the allocation for that lifetime from now on (RFC 8656, section 8.3).
pub fn challenged_refreshes_renew()
    ensures { (b : Beginning) (c : Choice) (address : SocketAddr) (t : Term)
        (earlier : List ℕ) (number made many last : ℕ) (queue : List Queued)
        (events : List TurnEvent) (old new : Protocol) (lifetime : ℕ) (bytes : List ℕ)
        (now : ℕ) (handled : Bool)
        → IsRefreshingOn b c address t earlier number made many last queue events old
        → IsRenewal b c number lifetime bytes
        → least_lifetime ≤ lifetime
        → IsProcessed old bytes now handled new
        → (handled ≡ true)
        × IsKeeping b c address (next_term t lifetime now) last queue events new }
{}

/// A client that awaits the response to its REFRESH reports its events in order, lists that
/// allocation alone, and buffers no bytes of a connection's peer.
pub fn challenged_refreshes_are_reported()
    ensures taken { (b : Beginning) (c : Choice) (address : SocketAddr) (t : Term)
        (earlier : List ℕ) (number made many last : ℕ) (queue : List Queued)
        (events : List TurnEvent) (old new : Protocol) (event : Option TurnEvent)
        → IsRefreshingOn b c address t earlier number made many last queue events old
        → IsEventTaken old event new
        → (left : List TurnEvent) × (events ≡ option_to_list event ++ left)
        × IsRefreshingOn b c address t earlier number made many last queue left new }
    ensures shows { (b : Beginning) (c : Choice) (address : SocketAddr) (t : Term)
        (earlier : List ℕ) (number made many last : ℕ) (queue : List Queued)
        (events : List TurnEvent) (p : Protocol)
        → IsRefreshingOn b c address t earlier number made many last queue events p
        → (relayed_listed p.allocations ≡ (b.config.transport, address) ∷ [])
        × (raw_waiting p ≡ None) }
{}

/// `poll` on a client that keeps an allocation, at any time before its end, returns `WaitUntil` a
/// time, at the latest that of its next transmission, or now if that has passed. It changes
/// nothing. Premise: no reply to the server is queued.
pub fn keeping_clients_are_polled()
    ensures { (b : Beginning) (c : Choice) (address : SocketAddr) (t : Term) (last : ℕ)
        (queue : List Queued) (events : List TurnEvent) (old new : Protocol) (now : ℕ)
        (ret : TurnPollRet)
        → IsKeeping b c address t last queue events old
        → list_any is_answer queue ≡ false
        → IsTerm t
        → now ≤ client_end
        → now < end_of t
        → IsPolled old now ret new
        → WaitsOn t last queue now old ret new }
{}

/// How a message from the server that is no indication reaches a client, at any stage (RFC 8656,
/// section 12.5):
///
/// - `datagram`: over UDP, a datagram that is one is handled.
/// - `chunk`: over TCP, a chunk that does not complete it is buffered, and nothing else changes.
/// - `whole`: over TCP, the chunk that completes it, wherever it was cut, makes the client handle
///   it. Afterwards nothing of the stream is buffered.
///
/// In each case memory may run out instead: then the client has failed.
pub fn responses_reach_clients<T: AsSlice<u8>>()
    ensures datagram { (b : Beginning) (old new : ClientState) (came : Transmit T) (now : ℕ)
        (answer : TurnRecvRet T)
        → IsOf b old.core
        → old.control ≡ Datagrams
        → IsFromServer b came
        → refusal (T.items came.bytes) ≡ None
        → is_indication (class_of (kind_at (T.items came.bytes))) ≡ false
        → IsReceived T.items old came now answer new
        → IsProcessedAs old (T.items came.bytes) came now Datagrams answer new
        ⊎ IsLost old came answer new }
    ensures chunk { (b : Beginning) (old new : ClientState) (came : Transmit T) (now : ℕ)
        (answer : TurnRecvRet T) (before message : List ℕ)
        → IsOf b old.core
        → HasCome before old
        → IsFromServer b came
        → T.items came.bytes ≢ []
        → IsPartOf (before ++ T.items came.bytes) message
        → IsReceived T.items old came now answer new
        → ((answer ≡ Handled) × (new.core ≡ old.core)
        × HasCome (before ++ T.items came.bytes) new)
        ⊎ IsLost old came answer new }
    ensures whole { (b : Beginning) (old new : ClientState) (came : Transmit T) (now : ℕ)
        (answer : TurnRecvRet T) (before : List ℕ)
        → IsOf b old.core
        → HasCome before old
        → IsFromServer b came
        → T.items came.bytes ≢ []
        → refusal (before ++ T.items came.bytes) ≡ None
        → is_indication (class_of (kind_at (before ++ T.items came.bytes))) ≡ false
        → IsReceived T.items old came now answer new
        → IsProcessedAs old (before ++ T.items came.bytes) came now (Open (alive [])) answer new
        ⊎ IsLost old came answer new }
{}

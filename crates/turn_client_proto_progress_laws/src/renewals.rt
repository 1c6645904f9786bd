//! A TURN client that holds one allocation and nothing else, and renews it (RFC 8656, section 8),
//! by the contracts of its own calls alone, whatever answers them. The functions do nothing; each
//! contract is a theorem.
//!
//! 1. A client is in this stage once the success response to its signed ALLOCATE has come
//!    ([`holding_clients_keep`]).
//! 2. Queued messages are transmitted, and nothing else until a minute before the lifetime's end.
//!    Then a REFRESH is ([`keeping_clients_refresh`]), which [`refreshes_are_signed`] describes.
//!    [`keeping_clients_wait`] says what `poll` returns meanwhile.
//! 3. The client awaits the response to its REFRESH ([`refreshing_clients_wait`]).
//! 4. After the success response it holds the allocation for the lifetime in that response
//!    ([`refreshing_clients_renew`]).
//!
//! [`keepers_are_reported`] says what is reported and listed in both stages. `IsTransmitted` is the
//! contract of `poll_transmit`, `IsPolled` that of `poll`, and `IsProcessed` that of the core for a
//! message from the server. [`successes_reach_clients`] says how a datagram, and chunks of the
//! stream, become such a message. If memory runs out in one of these calls, the client has failed,
//! and nothing is said of it.

ghost use Rattle.std.specs.Prelude.{◌≡◌, ◌≢◌, ◌⊎◌, ◌≤◌, ◌<◌, ◌+◌, ◌++◌, ◌^◌, ℕ, Bool, true, false};
ghost use Rattle.std.specs.Prelude.{List, [], ◌∷◌, Option, Some, None, find, option_to_list};
ghost use Rattle.std.specs.List.{list_any};
ghost use Rattle.std.specs.declared.net.socket_addr.SocketAddr.{SocketAddr};
ghost use Rattle.turn_client_proto_messages.specs.Api.Options.{cadence};
ghost use Rattle.turn_client_proto_messages.specs.StunTypesBase.declared.transmit.Transmit.{Transmit};
ghost use Rattle.turn_client_proto_messages.specs.StunProtoClient.Client.{standing_of};
ghost use Rattle.turn_client_proto_messages.specs.StunTypesBase.Times.{time_after};
ghost use Rattle.turn_client_proto_messages.specs.TurnTypesFrame.Streams.{alive};
ghost use Rattle.turn_client_proto_step_laws.specs.Recv.Control.{Datagrams, Open};
ghost use Rattle.turn_client_proto_handshake_laws.specs.Core.Receiving.{IsProcessed};
ghost use Rattle.turn_client_proto_messages.specs.Waiting.{Queued, is_answer};
ghost use Rattle.turn_client_proto_handshake_laws.specs.Core.declared.protocol.Protocol.{Protocol};
ghost use Rattle.turn_client_proto_step_laws.specs.Recv.ClientState.{ClientState};
ghost use Rattle.turn_client_proto_messages.specs.Allocation.Listed.{relayed_listed};
ghost use Rattle.turn_client_proto_messages.specs.Allocation.Refreshing.{least_lifetime};
ghost use Rattle.turn_client_proto_messages.specs.Api.declared.answer.TurnPollRet.{TurnPollRet};
ghost use Rattle.turn_client_proto_messages.specs.Api.declared.answer.TurnRecvRet.{TurnRecvRet};
ghost use Rattle.turn_client_proto_messages.specs.Api.declared.answer.TurnRecvRet.TheVariants.{Handled};
ghost use Rattle.turn_client_proto_messages.specs.Api.declared.event.TurnEvent.{TurnEvent};
ghost use Rattle.turn_client_proto_handshake_laws.specs.Requested.{Requested, IsDue, IsQuiet};
ghost use Rattle.turn_client_proto_handshake_laws.specs.Requested as asks;
ghost use Rattle.turn_client_proto_handshake_laws.specs.Choosing.{Choice, HasTextName, IsChoice};
ghost use Rattle.turn_client_proto_handshake_laws.specs.Choosing.{standing_by};
ghost use Rattle.turn_client_proto_handshake_laws.specs.Coming.{HasCome, IsFromServer, IsProcessedAs, IsLost};
ghost use Rattle.turn_client_proto_handshake_laws.specs.Coming.{IsPartOf};
ghost use Rattle.turn_client_proto_step_laws.specs.Timers.Drawing.{IsTransmitted};
ghost use Rattle.turn_client_proto_messages.specs.Api.Sent.{Sent};
ghost use Rattle.turn_client_proto_handshake_laws.specs.Driving.{IsEventTaken, client_end};
ghost use Rattle.turn_client_proto_step_laws.specs.Timers.Polling.{IsPolled};
ghost use Rattle.turn_client_proto_step_laws.specs.Recv.Receipts.{IsReceived};
ghost use Rattle.turn_client_proto_handshake_laws.specs.Sent.{Beginning, HasRoom};
ghost use Rattle.turn_client_proto_step_laws.specs.Recv.SocketChunks.{raw_waiting};
ghost use Rattle.turn_client_proto_handshake_laws.specs.Stages.{Holds, IsOf};
ghost use Rattle.turn_client_proto_progress_laws.specs.Keeping.{AwaitsResponse, IsKeeping};
ghost use Rattle.turn_client_proto_progress_laws.specs.Keeping.{IsRefreshing, IsTerm, Term};
ghost use Rattle.turn_client_proto_progress_laws.specs.Keeping.{WaitsToSend, due_of, end_of, first_term};
ghost use Rattle.turn_client_proto_progress_laws.specs.Keeping.{next_of, next_term};
ghost use Rattle.turn_client_proto_progress_laws.specs.Reaching.{IsSuccess};
ghost use Rattle.turn_client_proto_progress_laws.specs.Refreshed.{IsRenewal, IsSignedRefresh};
ghost use Rattle.turn_client_proto_progress_laws.specs.Refreshed.{refresh_requested, refresh_sent, signed_by};

use std::convert::AsSlice;
use turn_client_proto_handshake_laws::stages::signed_allocates_answer;
use turn_client_proto_messages::laws::{
    proof_requests_are_read, proof_texts_stay_short, signed_requests_claim, texts_stay_read,
};

/// A client that holds the allocation that it was just granted is in the stage in which it keeps
/// and renews it (RFC 8656, section 7.3).
pub fn holding_clients_keep()
    ensures { (b : Beginning) (c : Choice) (address : SocketAddr) (lifetime now last : ℕ)
        (queue : List Queued) (events : List TurnEvent) (p : Protocol)
        → Holds b c address lifetime now last queue events p
        → IsKeeping b c address (first_term lifetime now) last queue events p }
{}

/// What `poll_transmit` returns for a client that keeps an allocation (RFC 8656, section 8.1):
///
/// - `rests`: nothing for 50 ms after the last message, if no reply to the server is queued.
/// - `releases`: from then on the first queued message.
/// - `still`: if none is queued, nothing until a minute before the lifetime's end.
/// - `refreshes`: from then on, up to the lifetime's end, a REFRESH, which is afterwards the only
///   outstanding request. The 50 ms must have passed.
pub fn keeping_clients_refresh()
    ensures rests { (b : Beginning) (c : Choice) (address : SocketAddr) (t : Term) (last : ℕ)
        (queue : List Queued) (events : List TurnEvent) (old new : Protocol) (now : ℕ)
        (sent : Option Sent)
        → IsKeeping b c address t last queue events old
        → find is_answer queue ≡ None
        → now < time_after last cadence
        → IsTransmitted old now sent new
        → (sent ≡ None) × (new ≡ old) }
    ensures releases { (b : Beginning) (c : Choice) (address : SocketAddr) (t : Term) (last : ℕ)
        (one : Queued) (queue : List Queued) (events : List TurnEvent) (old new : Protocol)
        (now : ℕ) (sent : Option Sent)
        → IsKeeping b c address t last (one ∷ queue) events old
        → time_after last cadence ≤ now
        → IsTransmitted old now sent new
        → (sent ≡ Some (record {
          bytes = one.bytes;
          transport = b.transport;
          from = one.from;
          to = b.server;
        })) × IsKeeping b c address t now queue events new }
    ensures still { (b : Beginning) (c : Choice) (address : SocketAddr) (t : Term) (last : ℕ)
        (events : List TurnEvent) (old new : Protocol) (now : ℕ) (sent : Option Sent)
        → IsKeeping b c address t last [] events old
        → IsTerm t
        → now < due_of t
        → IsTransmitted old now sent new
        → (sent ≡ None) × (new ≡ old) }
    ensures refreshes { (b : Beginning) (c : Choice) (address : SocketAddr) (t : Term) (last : ℕ)
        (events : List TurnEvent) (old new : Protocol) (now : ℕ) (sent : Option Sent)
        → HasRoom b.config
        → IsChoice b c
        → IsKeeping b c address t last [] events old
        → IsTerm t
        → time_after last cadence ≤ now
        → due_of t ≤ now
        → now ≤ end_of t
        → IsTransmitted old now sent new
        → (number : ℕ) × (number < 2 ^ 96) × (sent ≡ Some (refresh_sent b c number now))
        × IsRefreshing b c address t number now 1 now events new }
{
    proof_requests_are_read();
    signed_allocates_answer();
}

/// The REFRESH is a message and a request with its transaction ID and method, and asks for a
/// lifetime. It validates under the key of the credentials in the realm of the challenge, and
/// claims what the challenge asks for (RFC 8489, section 9.2.3; RFC 8656, section 8.1). Premise:
/// the name of the user is text, which that of a client's settings always is (`names_are_texts`).
pub fn refreshes_are_signed()
    ensures request { (b : Beginning) (c : Choice) (number : ℕ)
        → HasRoom b.config
        → HasTextName b.config
        → IsChoice b c
        → number < 2 ^ 96
        → IsSignedRefresh b c number }
    ensures occurs { (b : Beginning) (c : Choice)
        → standing_of (signed_by b c) ≡ Some (standing_by b c) }
{
    proof_requests_are_read();
    signed_requests_claim();
    signed_allocates_answer();
}

/// `poll` on a client that keeps an allocation returns `WaitUntil` a time, at the latest that of
/// its next transmission, and changes nothing. The time is later than now if no event is queued and
/// nothing is to be transmitted yet. Premises: no reply to the server is queued, and the client is
/// polled no later than its next transmission and a minute before the lifetime's end.
pub fn keeping_clients_wait()
    ensures { (b : Beginning) (c : Choice) (address : SocketAddr) (t : Term) (last : ℕ)
        (queue : List Queued) (events : List TurnEvent) (old new : Protocol) (now : ℕ)
        (ret : TurnPollRet)
        → IsKeeping b c address t last queue events old
        → list_any is_answer queue ≡ false
        → IsTerm t
        → now ≤ client_end
        → now ≤ due_of t
        → now ≤ next_of t last queue
        → IsPolled old now ret new
        → WaitsToSend t last queue events now old ret new }
{}

/// A client that awaits the response to its REFRESH:
///
/// - `again`: `poll_transmit` sends the request again if that is due by its schedule (RFC 8489,
///   section 6.2.1).
/// - `still`: if it is not due, `poll_transmit` returns nothing and changes nothing.
/// - `polled`: before the end of the schedule and of the allocation, `poll` returns `WaitUntil` a
///   time, at the latest the next slot, and later than now if no transmission is due and no event
///   is queued. It changes nothing.
/// - `cases`: at any time a transmission is due or it isn't.
pub fn refreshing_clients_wait()
    ensures again { (b : Beginning) (c : Choice) (address : SocketAddr) (t : Term)
        (number made many last : ℕ) (events : List TurnEvent) (old new : Protocol) (now : ℕ)
        (sent : Option Sent)
        → IsRefreshing b c address t number made many last events old
        → IsDue b (refresh_requested b c number made) many now
        → IsTransmitted old now sent new
        → (sent ≡ Some (refresh_sent b c number made))
        × IsRefreshing b c address t number made (many + 1) now events new }
    ensures still { (b : Beginning) (c : Choice) (address : SocketAddr) (t : Term)
        (number made many last : ℕ) (events : List TurnEvent) (old new : Protocol) (now : ℕ)
        (sent : Option Sent)
        → IsRefreshing b c address t number made many last events old
        → IsQuiet b (refresh_requested b c number made) many now
        → IsTransmitted old now sent new
        → (sent ≡ None) × (new ≡ old) }
    ensures polled { (b : Beginning) (c : Choice) (address : SocketAddr) (t : Term)
        (number made many last : ℕ) (events : List TurnEvent) (old new : Protocol) (now : ℕ)
        (ret : TurnPollRet)
        → IsRefreshing b c address t number made many last events old
        → IsTerm t
        → now ≤ client_end
        → now < asks.end_of b (refresh_requested b c number made)
        → now < end_of t
        → IsPolled old now ret new
        → AwaitsResponse b (refresh_requested b c number made) many events now old ret new }
    ensures cases { (b : Beginning) (a : Requested) (many now : ℕ)
        → IsDue b a many now ⊎ IsQuiet b a many now }
{}

/// A client that awaits the response to its REFRESH receives the success response, valid under the
/// key of its credentials, with a lifetime of ten minutes or more: it holds the allocation for that
/// lifetime from now on (RFC 8656, section 8.3).
pub fn refreshing_clients_renew()
    ensures { (b : Beginning) (c : Choice) (address : SocketAddr) (t : Term)
        (number made many last : ℕ) (events : List TurnEvent) (old new : Protocol)
        (lifetime : ℕ) (bytes : List ℕ) (now : ℕ) (handled : Bool)
        → IsRefreshing b c address t number made many last events old
        → IsRenewal b c number lifetime bytes
        → least_lifetime ≤ lifetime
        → IsProcessed old bytes now handled new
        → (handled ≡ true)
        × IsKeeping b c address (next_term t lifetime now) last [] events new }
{}

/// In both stages the client reports its events in order, lists that allocation alone, and buffers
/// no bytes of a connection's peer.
pub fn keepers_are_reported()
    ensures keeping { (b : Beginning) (c : Choice) (address : SocketAddr) (t : Term) (last : ℕ)
        (queue : List Queued) (events : List TurnEvent) (old new : Protocol)
        (event : Option TurnEvent)
        → IsKeeping b c address t last queue events old
        → IsEventTaken old event new
        → (left : List TurnEvent) × (events ≡ option_to_list event ++ left)
        × IsKeeping b c address t last queue left new }
    ensures refreshing { (b : Beginning) (c : Choice) (address : SocketAddr) (t : Term)
        (number made many last : ℕ) (events : List TurnEvent) (old new : Protocol)
        (event : Option TurnEvent)
        → IsRefreshing b c address t number made many last events old
        → IsEventTaken old event new
        → (left : List TurnEvent) × (events ≡ option_to_list event ++ left)
        × IsRefreshing b c address t number made many last left new }
    ensures keeping_shows { (b : Beginning) (c : Choice) (address : SocketAddr) (t : Term)
        (last : ℕ) (queue : List Queued) (events : List TurnEvent) (p : Protocol)
        → IsKeeping b c address t last queue events p
        → (relayed_listed p.allocations ≡ (b.config.transport, address) ∷ [])
        × (raw_waiting p ≡ None) }
    ensures refreshing_shows { (b : Beginning) (c : Choice) (address : SocketAddr) (t : Term)
        (number made many last : ℕ) (events : List TurnEvent) (p : Protocol)
        → IsRefreshing b c address t number made many last events p
        → (relayed_listed p.allocations ≡ (b.config.transport, address) ∷ [])
        × (raw_waiting p ≡ None) }
{}

/// How a success response from the server reaches a client, at any stage (RFC 8656, section 12.5):
///
/// - `datagram`: over UDP, a datagram that is one is handled.
/// - `chunk`: over TCP, a chunk that does not complete it is buffered, and nothing else changes.
/// - `whole`: over TCP, the chunk that completes it, wherever it was cut, makes the client handle
///   it. Afterwards nothing of the stream is buffered.
///
/// In each case memory may run out instead: then the client has failed.
pub fn successes_reach_clients<T: AsSlice<u8>>()
    ensures datagram { (b : Beginning) (old new : ClientState) (came : Transmit T) (now : ℕ)
        (answer : TurnRecvRet T)
        → IsOf b old.core
        → old.control ≡ Datagrams
        → IsFromServer b came
        → IsSuccess (T.items came.bytes)
        → IsReceived T.items old came now answer new
        → IsProcessedAs old (T.items came.bytes) came now Datagrams answer new
        ⊎ IsLost old came answer new }
    ensures chunk { (b : Beginning) (old new : ClientState) (came : Transmit T) (now : ℕ)
        (answer : TurnRecvRet T) (before message : List ℕ)
        → IsOf b old.core
        → HasCome before old
        → IsFromServer b came
        → T.items came.bytes ≢ []
        → IsPartOf (before ++ T.items came.bytes) message
        → IsReceived T.items old came now answer new
        → ((answer ≡ Handled) × (new.core ≡ old.core)
        × HasCome (before ++ T.items came.bytes) new)
        ⊎ IsLost old came answer new }
    ensures whole { (b : Beginning) (old new : ClientState) (came : Transmit T) (now : ℕ)
        (answer : TurnRecvRet T) (before : List ℕ)
        → IsOf b old.core
        → HasCome before old
        → IsFromServer b came
        → T.items came.bytes ≢ []
        → IsSuccess (before ++ T.items came.bytes)
        → IsReceived T.items old came now answer new
        → IsProcessedAs old (before ++ T.items came.bytes) came now (Open (alive [])) answer new
        ⊎ IsLost old came answer new }
{}

//! The stages of a TURN client in a handshake, by the contracts of its own calls alone, whatever
//! answers them (RFC 8489, sections 9.2.3 and 9.2.5; RFC 8656, sections 7.1, 7.3 and 7.4). The
//! functions do nothing; each contract is a theorem.
//!
//! 1. A new client requests an allocation without credentials ([`new_clients_ask`]), and awaits the
//!    response ([`asking_clients_wait`]).
//! 2. It answers a challenge by a signed request, or it ends ([`challenges_are_answered`]).
//!    [`signed_allocates_answer`] says what that request is.
//! 3. The request is transmitted ([`chosen_clients_sign`]), and its response awaited
//!    ([`signed_clients_wait`]).
//! 4. After a success response with one address the client holds the allocation
//!    ([`granted_clients_hold`]).
//! 5. A client that has ended does nothing more ([`ended_clients_rest`]).
//!
//! [`stages_are_reported`] says what is reported at each stage. `IsTransmitted` is the contract of
//! `poll_transmit`, `IsPolled` that of `poll`, and `IsProcessed` that of the core for a message
//! from the server. [`messages_reach_clients`] says how a datagram, or chunks of the stream, become
//! such a message. If memory runs out in one of these calls, the client has failed, and nothing is
//! said of it.

ghost use Rattle.std.specs.Prelude.{◌≡◌, ◌≢◌, ◌⊎◌, ◌≤◌, ◌<◌, ◌+◌, ◌++◌, ℕ, Bool, true, false};
ghost use Rattle.std.specs.Prelude.{List, [], ◌∷◌, Option, Some, None, option_to_list};
ghost use Rattle.std.specs.declared.net.socket_addr.SocketAddr.{SocketAddr};
ghost use Rattle.turn_client_proto_api.specs.Options.{cadence};
ghost use Rattle.turn_client_proto_api.specs.StunTypesWire.Grammar.{number_at, refusal};
ghost use Rattle.turn_client_proto_api.specs.StunTypesWire.declared.algorithm.IntegrityAlgorithm.{IntegrityAlgorithm};
ghost use Rattle.stun_types_base.specs.declared.transmit.Transmit.{Transmit};
ghost use Rattle.turn_client_proto_messages.specs.StunProtoClient.Challenges.{ChallengeFields};
ghost use Rattle.turn_client_proto_messages.specs.StunProtoClient.Client.{standing_of};
ghost use Rattle.stun_types_base.specs.Times.{time_after};
ghost use Rattle.turn_client_proto_api.specs.TurnTypesFrame.Streams.{alive};
ghost use Rattle.turn_client_proto_api.specs.declared.answer.TurnPollRet.{TurnPollRet};
ghost use Rattle.turn_client_proto_api.specs.declared.answer.TurnPollRet.TheVariants.{Closed, NoMemory};
ghost use Rattle.turn_client_proto_api.specs.declared.answer.TurnPollRet.TheVariants.{WaitUntil};
ghost use Rattle.turn_client_proto_api.specs.declared.event.TurnEvent.{TurnEvent};
ghost use Rattle.turn_client_proto_core.specs.Ending.{HasFailed};
ghost use Rattle.turn_client_proto_core.specs.Receiving.{IsProcessed};
ghost use Rattle.turn_client_proto_messages.specs.Waiting.{Queued};
ghost use Rattle.turn_client_proto_core.specs.declared.protocol.Protocol.{Protocol};
ghost use Rattle.turn_client_proto_timers.specs.Drawing.{IsTransmitted};
ghost use Rattle.turn_client_proto_api.specs.Sent.{Sent};
ghost use Rattle.turn_client_proto_timers.specs.Polling.{IsPolled};
ghost use Rattle.turn_client_proto_messages.specs.Judging.{signer_of};
ghost use Rattle.turn_client_proto_messages.specs.ReadTexts.{HasReadTexts};
ghost use Rattle.turn_client_proto_messages.specs.ShortTexts.{HasShortTexts};
ghost use Rattle.turn_client_proto_api.specs.Payloads.{PeerPayload};
ghost use Rattle.turn_client_proto_api.specs.declared.answer.TurnRecvRet.{TurnRecvRet};
ghost use Rattle.turn_client_proto_api.specs.declared.answer.TurnRecvRet.TheVariants.{Handled};
ghost use Rattle.turn_client_proto_recv.specs.Control.{Datagrams, Open};
ghost use Rattle.turn_client_proto_recv.specs.ClientState.{ClientState};
ghost use Rattle.turn_client_proto_recv.specs.Receipts.{IsReceived, IsWaitingGiven};
ghost use Rattle.turn_client_proto_recv.specs.SocketChunks.{raw_waiting};
ghost use Rattle.turn_client_proto_handshake_laws.specs.Requested.{Requested, IsDue, IsPatient, IsQuiet, end_of, sent_of};
ghost use Rattle.turn_client_proto_handshake_laws.specs.Choosing.{Choice, HasTextName, IsAnsweredBy, IsBarring};
ghost use Rattle.turn_client_proto_handshake_laws.specs.Choosing.{IsChallenge, IsChoice, IsSignedAllocate};
ghost use Rattle.turn_client_proto_handshake_laws.specs.Choosing.{signed_requested, signed_sent, signer_by, standing_by};
ghost use Rattle.turn_client_proto_handshake_laws.specs.Coming.{HasCome, IsFromServer, IsProcessedAs, IsLost};
ghost use Rattle.turn_client_proto_handshake_laws.specs.Coming.{IsPartOf, IsUnserved};
ghost use Rattle.turn_client_proto_handshake_laws.specs.Stages.{AsksForOne, HasChosen, HasEnded, HasSigned};
ghost use Rattle.turn_client_proto_handshake_laws.specs.Stages.{Holds, IsAsking, IsGrant, IsSigning};
ghost use Rattle.turn_client_proto_handshake_laws.specs.Stages.{answer_at_end, created, failures, first_requested};
ghost use Rattle.turn_client_proto_handshake_laws.specs.Driving.{IsEventTaken};
ghost use Rattle.turn_client_proto_handshake_laws.specs.Sent.{Beginning, Begins, HasRoom, IsUsual};
ghost use Rattle.turn_client_proto_handshake_laws.specs.Sent.{first_number, first_request};

use std::convert::AsSlice;
use turn_client_proto_messages::laws::{
    proof_requests_are_read, proof_texts_stay_short, signed_requests_claim, texts_stay_read,
};

/// A new client on which nothing was called yet (RFC 8489, section 9.2.3; RFC 8656, section 7.1):
///
/// - `transmitted`: `poll_transmit` transmits its first request, an ALLOCATE without credentials.
///   Then the client awaits the response: only that request is outstanding, transmitted once, and
///   no message or event is queued.
/// - `polled`: `poll` before that returns `WaitUntil` the current time, so that `poll_transmit` is
///   called, and changes nothing.
/// - `number`: the request contains its transaction ID.
/// - `short`: the texts of the client's authenticator are short.
pub fn new_clients_ask()
    ensures transmitted { (b : Beginning) (old new : Protocol) (sent : Option Sent)
        → HasRoom b.config
        → IsUsual b.config
        → Begins b old
        → IsTransmitted old b.made sent new
        → (sent ≡ Some (sent_of b (first_requested b))) × IsAsking b 1 b.made new }
    ensures polled { (b : Beginning) (old new : Protocol) (now : ℕ) (ret : TurnPollRet)
        → Begins b old
        → IsPolled old now ret new
        → (ret ≡ WaitUntil now) × (new ≡ old) }
    ensures number { (b : Beginning)
        → HasRoom b.config
        → number_at (first_request b) ≡ first_number b }
    ensures short { (b : Beginning) → HasRoom b.config → HasShortTexts (signer_of b.config) }
{
    proof_requests_are_read();
    proof_texts_stay_short();
}

/// A client that awaits the response to its first request:
///
/// - `again`: `poll_transmit` sends the request again if that is due by its schedule (RFC 8489,
///   section 6.2.1).
/// - `still`: if it is not due, `poll_transmit` returns nothing and changes nothing.
/// - `polled`: before the end of the schedule, `poll` returns `WaitUntil` a time, at the latest the
///   next slot, and later than now if no transmission is due. It changes nothing.
/// - `ends`: from the end on, `poll` returns `Closed`. The client has ended, and queues for each
///   family the event that no address was allocated. Otherwise memory ran out for these events, and
///   the client has failed.
/// - `cases`: at any time a transmission is due or it isn't.
pub fn asking_clients_wait()
    ensures again { (b : Beginning) (many last : ℕ) (old new : Protocol) (now : ℕ)
        (sent : Option Sent)
        → IsAsking b many last old
        → IsDue b (first_requested b) many now
        → IsTransmitted old now sent new
        → (sent ≡ Some (sent_of b (first_requested b))) × IsAsking b (many + 1) now new }
    ensures still { (b : Beginning) (many last : ℕ) (old new : Protocol) (now : ℕ)
        (sent : Option Sent)
        → IsAsking b many last old
        → IsQuiet b (first_requested b) many now
        → IsTransmitted old now sent new
        → (sent ≡ None) × (new ≡ old) }
    ensures polled { (b : Beginning) (many last : ℕ) (old new : Protocol) (now : ℕ)
        (ret : TurnPollRet)
        → IsAsking b many last old
        → now < end_of b (first_requested b)
        → IsPolled old now ret new
        → IsPatient b (first_requested b) many None now old ret new }
    ensures ends { (b : Beginning) (many last : ℕ) (old new : Protocol) (now : ℕ)
        (ret : TurnPollRet)
        → IsAsking b many last old
        → end_of b (first_requested b) ≤ now
        → IsPolled old now ret new
        → ((ret ≡ Closed) × HasEnded b (failures b) new)
        ⊎ ((ret ≡ NoMemory) × HasFailed old new) }
    ensures cases { (b : Beginning) (a : Requested) (many now : ℕ)
        → IsDue b a many now ⊎ IsQuiet b a many now }
{}

/// A client that awaits the response to its first request receives a challenge with that request's
/// transaction ID (RFC 8489, section 9.2.5):
///
/// - `answered`: if the challenge offers an algorithm that the settings allow, and the username can
///   be hidden if that is required, the client answers by the strongest such algorithm. It stores
///   the challenge with that choice. A signed ALLOCATE with a new transaction ID is outstanding in
///   place of the first one, and is queued.
/// - `barred`: otherwise the client has ended, and queues for each family the event that no address
///   was allocated.
/// - `either`: one of the two cases holds.
/// - `apart`: not both hold.
/// - `one`: the algorithm is determined.
pub fn challenges_are_answered()
    ensures answered { (b : Beginning) (many last : ℕ) (old new : Protocol) (reported :
        ChallengeFields)
        (bytes : List ℕ) (now : ℕ) (handled : Bool) (algorithm : IntegrityAlgorithm)
        → HasRoom b.config
        → IsAsking b many last old
        → IsChallenge b reported bytes
        → IsAnsweredBy b.config reported algorithm
        → IsProcessed old bytes now handled new
        → (handled ≡ true) × (number : ℕ) × HasChosen b
        (record { reported = reported; algorithm = algorithm; number = number; made = now }) 1 last
        new }
    ensures barred { (b : Beginning) (many last : ℕ) (old new : Protocol) (reported :
        ChallengeFields)
        (bytes : List ℕ) (now : ℕ) (handled : Bool)
        → IsAsking b many last old
        → IsChallenge b reported bytes
        → IsBarring b.config reported
        → IsProcessed old bytes now handled new
        → (handled ≡ true) × HasEnded b (failures b) new }
    ensures either { (b : Beginning) (many last : ℕ) (old new : Protocol) (reported :
        ChallengeFields)
        (bytes : List ℕ) (now : ℕ) (handled : Bool)
        → IsAsking b many last old
        → IsChallenge b reported bytes
        → IsProcessed old bytes now handled new
        → ((algorithm : IntegrityAlgorithm) × IsAnsweredBy b.config reported algorithm)
        ⊎ IsBarring b.config reported }
    ensures apart { (b : Beginning) (reported : ChallengeFields) (algorithm : IntegrityAlgorithm)
        → IsAnsweredBy b.config reported algorithm
        → IsBarring b.config reported
        → ⊥ }
    ensures one { (b : Beginning) (reported : ChallengeFields) (algorithm other :
        IntegrityAlgorithm)
        → IsAnsweredBy b.config reported algorithm
        → IsAnsweredBy b.config reported other
        → algorithm ≡ other }
{
    proof_requests_are_read();
    proof_texts_stay_short();
}

/// The signed ALLOCATE that answers a challenge (RFC 8489, sections 9.2.3 and 9.2.5):
///
/// - `request`: it is a message and a request with its transaction ID that asks for an allocation.
///   It validates under the key of the credentials in the realm of the challenge, and claims what
///   the challenge asks for. Premise: the name of the user is text, which that of a client's
///   settings always is (`names_are_texts`).
/// - `occurs`: the authenticator that signs it has credentials and a challenge in use.
/// - `short`: the authenticator's texts are short.
/// - `read`: the authenticator's texts can be decoded.
pub fn signed_allocates_answer()
    ensures request { (b : Beginning) (c : Choice)
        → HasRoom b.config
        → HasTextName b.config
        → IsChoice b c
        → IsSignedAllocate b c }
    ensures occurs { (b : Beginning) (c : Choice)
        → standing_of (signer_by b c) ≡ Some (standing_by b c) }
    ensures short { (b : Beginning) (c : Choice)
        → HasRoom b.config
        → IsChoice b c
        → HasShortTexts (signer_by b c) }
    ensures read { (b : Beginning) (c : Choice)
        → HasTextName b.config
        → IsChoice b c
        → HasReadTexts (signer_by b c) }
{
    proof_requests_are_read();
    signed_requests_claim();
    texts_stay_read();
    proof_texts_stay_short();
}

/// A client that answered a challenge, and whose signed request is queued:
///
/// - `rests`: less than 50 ms after the last transmitted message, `poll_transmit` returns nothing
///   and changes nothing, unless `again` applies.
/// - `signs`: from 50 ms on, unless `again` applies, it transmits the signed request, from the
///   client's own address to the server, and the queue is empty.
/// - `again`: the request's schedule begins when the challenge arrives. If the settings have waits
///   so short that a retransmission is due before that, the request is transmitted at once, and it
///   stays queued.
/// - `polled`: before the end of the schedule, `poll` returns `WaitUntil` a time, at the latest
///   that from which the request may be transmitted, and later than now if nothing may be
///   transmitted now. It changes nothing.
/// - `late`: from 50 ms on `poll_transmit` transmits the signed request, whatever the waits are.
pub fn chosen_clients_sign()
    ensures again { (b : Beginning) (c : Choice) (many last : ℕ) (old new : Protocol) (now : ℕ)
        (sent : Option Sent)
        → HasChosen b c many last old
        → IsDue b (signed_requested b c) many now
        → IsTransmitted old now sent new
        → (sent ≡ Some (signed_sent b c)) × HasChosen b c (many + 1) now new }
    ensures rests { (b : Beginning) (c : Choice) (many last : ℕ) (old new : Protocol) (now : ℕ)
        (sent : Option Sent)
        → HasChosen b c many last old
        → IsQuiet b (signed_requested b c) many now
        → now < time_after last cadence
        → IsTransmitted old now sent new
        → (sent ≡ None) × (new ≡ old) }
    ensures signs { (b : Beginning) (c : Choice) (many last : ℕ) (old new : Protocol) (now : ℕ)
        (sent : Option Sent)
        → HasChosen b c many last old
        → IsQuiet b (signed_requested b c) many now
        → time_after last cadence ≤ now
        → IsTransmitted old now sent new
        → (sent ≡ Some (signed_sent b c)) × HasSigned b c many now new }
    ensures polled { (b : Beginning) (c : Choice) (many last : ℕ) (old new : Protocol) (now : ℕ)
        (ret : TurnPollRet)
        → HasChosen b c many last old
        → now < end_of b (signed_requested b c)
        → IsPolled old now ret new
        → IsPatient b (signed_requested b c) many (Some (time_after last cadence)) now old ret new }
    ensures late { (b : Beginning) (c : Choice) (many last : ℕ) (old new : Protocol) (now : ℕ)
        (sent : Option Sent)
        → HasChosen b c many last old
        → time_after last cadence ≤ now
        → IsTransmitted old now sent new
        → (sent ≡ Some (signed_sent b c)) × (used : ℕ) × (queue : List Queued)
        × IsSigning b c used now queue new }
{}

/// A client whose signed request was transmitted, and that has nothing queued, awaits the response
/// in the way in which [`asking_clients_wait`] describes it for the first request.
pub fn signed_clients_wait()
    ensures again { (b : Beginning) (c : Choice) (many last : ℕ) (old new : Protocol) (now : ℕ)
        (sent : Option Sent)
        → HasSigned b c many last old
        → IsDue b (signed_requested b c) many now
        → IsTransmitted old now sent new
        → (sent ≡ Some (signed_sent b c)) × HasSigned b c (many + 1) now new }
    ensures still { (b : Beginning) (c : Choice) (many last : ℕ) (old new : Protocol) (now : ℕ)
        (sent : Option Sent)
        → HasSigned b c many last old
        → IsQuiet b (signed_requested b c) many now
        → IsTransmitted old now sent new
        → (sent ≡ None) × (new ≡ old) }
    ensures polled { (b : Beginning) (c : Choice) (many last : ℕ) (old new : Protocol) (now : ℕ)
        (ret : TurnPollRet)
        → HasSigned b c many last old
        → now < end_of b (signed_requested b c)
        → IsPolled old now ret new
        → IsPatient b (signed_requested b c) many None now old ret new }
    ensures ends { (b : Beginning) (c : Choice) (many last : ℕ) (old new : Protocol) (now : ℕ)
        (ret : TurnPollRet)
        → HasSigned b c many last old
        → end_of b (signed_requested b c) ≤ now
        → IsPolled old now ret new
        → ((ret ≡ Closed) × HasEnded b (failures b) new)
        ⊎ ((ret ≡ NoMemory) × HasFailed old new) }
{}

/// A client that awaits the response to its signed request receives the success response, valid
/// under the key of its credentials, with one relayed address, of the one family that it requested
/// (RFC 8656, section 7.3):
///
/// - `holds`: it holds that allocation alone, for the lifetime in the response, and queues the
///   event for it alone. This holds whether the request is still queued or was transmitted.
/// - `polled`: until its event is taken, `poll` returns `WaitUntil` the current time and changes
///   nothing.
pub fn granted_clients_hold()
    ensures holds { (b : Beginning) (c : Choice) (many last : ℕ) (queue : List Queued)
        (old new : Protocol) (address : SocketAddr) (lifetime : ℕ) (bytes : List ℕ) (now : ℕ)
        (handled : Bool)
        → IsSigning b c many last queue old
        → AsksForOne b address
        → IsGrant b c address lifetime bytes
        → IsProcessed old bytes now handled new
        → (handled ≡ true) × Holds b c address lifetime now last queue (created b address) new }
    ensures polled { (b : Beginning) (c : Choice) (address : SocketAddr) (lifetime made last : ℕ)
        (queue : List Queued) (event : TurnEvent) (others : List TurnEvent) (old new : Protocol)
        (now : ℕ) (ret : TurnPollRet)
        → Holds b c address lifetime made last queue (event ∷ others) old
        → IsPolled old now ret new
        → (ret ≡ WaitUntil now) × (new ≡ old) }
{}

/// A client that has ended, because no response came or it could not answer a challenge:
///
/// - `transmitted`: `poll_transmit` returns nothing.
/// - `polled`: `poll` returns `WaitUntil` the current time while an event is queued, and then
///   `Closed`.
/// - `processed`: no message is for the client.
/// - `reported`: its events are taken in order.
///
/// Only taking events changes it.
pub fn ended_clients_rest()
    ensures transmitted { (b : Beginning) (events : List TurnEvent) (old new : Protocol) (now : ℕ)
        (sent : Option Sent)
        → HasEnded b events old
        → IsTransmitted old now sent new
        → (sent ≡ None) × (new ≡ old) }
    ensures polled { (b : Beginning) (events : List TurnEvent) (old new : Protocol) (now : ℕ)
        (ret : TurnPollRet)
        → HasEnded b events old
        → IsPolled old now ret new
        → (ret ≡ answer_at_end events now) × (new ≡ old) }
    ensures processed { (b : Beginning) (events : List TurnEvent) (old new : Protocol) (bytes : List
        ℕ)
        (now : ℕ) (handled : Bool)
        → HasEnded b events old
        → IsProcessed old bytes now handled new
        → (handled ≡ false) × (new ≡ old) }
    ensures reported { (b : Beginning) (events : List TurnEvent) (old new : Protocol)
        (event : Option TurnEvent)
        → HasEnded b events old
        → IsEventTaken old event new
        → (left : List TurnEvent) × (events ≡ option_to_list event ++ left)
        × HasEnded b left new }
{}

/// What `poll_event` returns at each stage: nothing until the client holds an allocation, and then
/// the queued events in order. Nothing else changes.
pub fn stages_are_reported()
    ensures fresh { (b : Beginning) (old new : Protocol) (event : Option TurnEvent)
        → Begins b old
        → IsEventTaken old event new
        → (event ≡ None) × (new ≡ old) }
    ensures asking { (b : Beginning) (many last : ℕ) (old new : Protocol) (event : Option TurnEvent)
        → IsAsking b many last old
        → IsEventTaken old event new
        → (event ≡ None) × (new ≡ old) }
    ensures signing { (b : Beginning) (c : Choice) (many last : ℕ) (queue : List Queued)
        (old new : Protocol) (event : Option TurnEvent)
        → IsSigning b c many last queue old
        → IsEventTaken old event new
        → (event ≡ None) × (new ≡ old) }
    ensures held { (b : Beginning) (c : Choice) (address : SocketAddr) (lifetime now last : ℕ)
        (queue : List Queued) (events : List TurnEvent) (old new : Protocol)
        (event : Option TurnEvent)
        → Holds b c address lifetime now last queue events old
        → IsEventTaken old event new
        → (left : List TurnEvent) × (events ≡ option_to_list event ++ left)
        × Holds b c address lifetime now last queue left new }
{}

/// At each stage before the client holds an allocation, the server has allocated nothing to it.
/// Such a client buffers no bytes of a connection's peer, nor does one that holds the allocation
/// that it was just granted.
pub fn stages_are_unserved()
    ensures fresh { (b : Beginning) (p : Protocol) → Begins b p → IsUnserved b p }
    ensures asking { (b : Beginning) (many last : ℕ) (p : Protocol)
        → IsAsking b many last p
        → IsUnserved b p }
    ensures signing { (b : Beginning) (c : Choice) (many last : ℕ) (queue : List Queued)
        (p : Protocol)
        → IsSigning b c many last queue p
        → IsUnserved b p }
    ensures ended { (b : Beginning) (events : List TurnEvent) (p : Protocol)
        → HasEnded b events p
        → IsUnserved b p }
    ensures none_waits { (b : Beginning) (p : Protocol) → IsUnserved b p → raw_waiting p ≡ None }
    ensures held { (b : Beginning) (c : Choice) (address : SocketAddr) (lifetime now last : ℕ)
        (queue : List Queued) (events : List TurnEvent) (p : Protocol)
        → Holds b c address lifetime now last queue events p
        → raw_waiting p ≡ None }
{}

/// How a message from the server reaches a client without an allocation (RFC 8656, section 12.5):
///
/// - `datagram`: over UDP, a datagram that is a message is handled.
/// - `chunk`: over TCP, a chunk that does not complete a message is buffered, and nothing else
///   changes.
/// - `whole`: over TCP, the chunk that completes a message, wherever it was cut, makes the client
///   handle the message. Afterwards nothing of the stream is buffered.
/// - `waiting`: over TCP, if no bytes of a connection's peer are buffered, and nothing or a part of
///   a message is, `poll_recv` returns nothing and changes nothing.
/// - `none_waits`: over UDP, `poll_recv` returns nothing and changes nothing.
///
/// In the first three cases memory may run out instead: then the client has failed.
pub fn messages_reach_clients<T: AsSlice<u8>>()
    ensures datagram { (b : Beginning) (old new : ClientState) (came : Transmit T) (now : ℕ)
        (answer : TurnRecvRet T)
        → IsUnserved b old.core
        → old.control ≡ Datagrams
        → IsFromServer b came
        → refusal (T.items came.bytes) ≡ None
        → IsReceived T.items old came now answer new
        → IsProcessedAs old (T.items came.bytes) came now Datagrams answer new
        ⊎ IsLost old came answer new }
    ensures chunk { (b : Beginning) (old new : ClientState) (came : Transmit T) (now : ℕ)
        (answer : TurnRecvRet T) (before message : List ℕ)
        → IsUnserved b old.core
        → HasCome before old
        → IsFromServer b came
        → T.items came.bytes ≢ []
        → IsPartOf (before ++ T.items came.bytes) message
        → IsReceived T.items old came now answer new
        → ((answer ≡ Handled) × (new.core ≡ old.core)
        × HasCome (before ++ T.items came.bytes) new)
        ⊎ IsLost old came answer new }
    ensures whole { (b : Beginning) (old new : ClientState) (came : Transmit T) (now : ℕ)
        (answer : TurnRecvRet T) (before : List ℕ)
        → IsUnserved b old.core
        → HasCome before old
        → IsFromServer b came
        → T.items came.bytes ≢ []
        → refusal (before ++ T.items came.bytes) ≡ None
        → IsReceived T.items old came now answer new
        → IsProcessedAs old (before ++ T.items came.bytes) came now (Open (alive [])) answer new
        ⊎ IsLost old came answer new }
    ensures waiting { (old new : ClientState) (now : ℕ) (given : Option PeerPayload)
        (before message : List ℕ)
        → raw_waiting old.core ≡ None
        → HasCome before old
        → IsPartOf before message
        → IsWaitingGiven old now given new
        → (given ≡ None) × (new ≡ old) }
    ensures none_waits { (old new : ClientState) (now : ℕ) (given : Option PeerPayload)
        → old.control ≡ Datagrams
        → IsWaitingGiven old now given new
        → (given ≡ None) × (new ≡ old) }
{}

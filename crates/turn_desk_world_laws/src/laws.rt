//! What the contract of a run means for a layer above. The functions do nothing; each contract is a
//! theorem. `specs/Reported.antt` says which steps of a client and a server the events of a
//! simulation are. `specs/Safety.antt` has the theorem.

ghost use Rattle.std.specs.List.{AllByRecursion};
ghost use Rattle.std.specs.Prelude.{◌≡◌, ◌≢◌, ◌≤◌, ◌++◌, Bool, List, ℕ, [], ◌∷◌, None, Some, length, true, Vec};
ghost use Rattle.std.specs.declared.alloc.Global.{Global};
ghost use Rattle.std.specs.declared.net.ip_addr.IpAddr.{IpAddr};
ghost use Rattle.std.specs.Net.Socket.{socket_ip};
ghost use Rattle.std.specs.declared.net.socket_addr.SocketAddr.{SocketAddr};
ghost use Rattle.turn_desk_core.specs.StunProtoServer.Users.{HashesDiffer};
ghost use Rattle.turn_desk_step_laws.specs.TurnRuns.Members.{IsIn};
ghost use Rattle.turn_desk_event.specs.TurnClientProtoApi.Payloads.{PeerPayload};
ghost use Rattle.turn_desk_core.specs.StunTypesWire.Registry.{longest_username};
ghost use Rattle.turn_desk_event.specs.TurnTypesFrame.Streams.{alive};
ghost use Rattle.turn_desk_world.specs.TurnClientProtoCore.Beginning.{IsNew};
ghost use Rattle.turn_desk_event.specs.TurnClientProtoApi.Config.{Config};
ghost use Rattle.turn_client_proto_step_laws.specs.Recv.Control.{Datagrams, Open};
ghost use Rattle.turn_desk_step_laws.specs.TurnRuns.Messages.{Allocation, Channel, Connection, Permission, Reported};
ghost use Rattle.turn_desk_step_laws.specs.TurnRuns.Runs.{Step};
ghost use Rattle.turn_desk_core.specs.DeskCalls.{AreAlike as AreAlikeDesks};
ghost use Rattle.turn_desk_step_laws.specs.DeskRun.{AreReported, DeskCall};
ghost use Rattle.turn_desk_event.specs.declared.answer.Answer.{Answer};
ghost use Rattle.turn_desk_event.specs.declared.answer.Answer.TheVariants as answer;
ghost use Rattle.turn_desk_event.specs.declared.event.ClientCall.TheVariants as call;
ghost use Rattle.turn_desk_event.specs.declared.event.Event.{Event};
ghost use Rattle.turn_desk_event.specs.declared.event.Event.TheVariants.{Call, ToClient};
ghost use Rattle.turn_desk_world_laws.specs.AddressRuns.{AreAnsweredAlike, IsIsolated, MakeNoRoom, come_from};
ghost use Rattle.turn_desk_world.specs.Model.{World};
ghost use Rattle.turn_desk_world.specs.Runs.{IsRun};
ghost use Rattle.turn_desk_core.specs.StunTypesWire.Headers.{AreBytes};
ghost use Rattle.stun_types_base.specs.declared.transmit.Transmit.{Transmit};
ghost use Rattle.stun_types_base.specs.declared.transport.TransportType.{TransportType};
ghost use Rattle.turn_client_proto_step_laws.specs.Recv.ClientState.{ClientState, over_udp};
ghost use Rattle.turn_client_proto_step_laws.specs.Recv.Receipts.{IsReceived};
ghost use Rattle.turn_desk_event.specs.TurnClientProtoApi.declared.answer.TurnRecvRet.{TurnRecvRet};
ghost use Rattle.turn_desk_event.specs.TurnClientProtoApi.declared.answer.TurnRecvRet.TheVariants as recv;
ghost use Rattle.turn_client_proto_step_laws.specs.RunClient.{Client};
ghost use Rattle.turn_client_proto_step_laws.specs.RunSteps.{IsGiving};
ghost use Rattle.turn_client_proto_step_laws.specs.Sound.{IsSound, IsWhole};
ghost use Rattle.turn_desk_world_laws.specs.Copies.{AreAlike, IsCopy};
ghost use Rattle.turn_desk_world.specs.Determined.{AreSame, HaveSameEvents};
ghost use Rattle.turn_desk_world_laws.specs.Safety.{BeginsNew, IsAccount, IsCarried, IsDataBrought, IsDataStored, IsLastAnswered, IsSafeRun, WasGranted, last_taken};
ghost use Rattle.turn_desk_world_laws.specs.Reported.{IsReadBack, given_by};

use std::convert::AsSlice;
use turn_desk_core::laws as desk_laws;

/// A run can be joined from two parts, and parted into two.
///
/// - `joined`: If some events are a run from one state to another, and further events a run from
///   there, all of them together are a run, with the same results.
/// - `parted`: If the events of two lists together are a run, there is a state between, to which
///   the first list is a run and from which the second list is one.
pub fn parts_make_a_run()
    ensures joined { (old between new : World) (first second : List (Event × Answer))
        → IsRun old first between → IsRun between second new
        → IsRun old (first ++ second) new }
    ensures parted { (old new : World) (first second : List (Event × Answer))
        → IsRun old (first ++ second) new
        → (between : World) × IsRun old first between × IsRun between second new }
{}

/// `relayed`: Relayed addresses without flow information and scope are decoded unchanged from a
/// response with any transaction ID: XOR-RELAYED-ADDRESS loses only these two (RFC 8656, section
/// 18.5). So the theorem on runs applies wherever such addresses are decided.
///
/// `peers`: A peer without flow information and scope is decoded unchanged from a request with any
/// transaction ID: XOR-PEER-ADDRESS loses only these two (RFC 8656, section 18.3). So the theorem
/// applies wherever a channel is requested to a peer that a request can carry.
pub fn relayed_addresses_are_reported()
    ensures relayed { (number : ℕ) (relayed : List SocketAddr)
        → AllByRecursion IsWhole relayed
        → AreReported number relayed }
    ensures peers { (number : ℕ) (peer : SocketAddr)
        → IsWhole peer
        → IsReadBack number peer }
{}

/// A simulation begins new (`BeginsNew`) if its client is as `TurnClientUdp::allocate` or
/// `TurnClientTcp::allocate` makes it, its user name fits into a request (RFC 8489, section 14.3),
/// and it is configured for at most two address families. So the theorem on runs applies wherever a
/// client is made.
pub fn new_clients_begin_new()
    ensures udp { (transport : TransportType) (here server : SocketAddr) (config : Config)
        (seed : List ℕ) (k : ClientState) (w : World)
        → w.client ≡ Some k
        → IsNew transport here server config seed k.core
        → length config.credentials.username ≤ longest_username
        → length config.families ≤ 2
        → k.control ≡ Datagrams
        → BeginsNew transport here server config seed k.core w }
    ensures tcp { (transport : TransportType) (here server : SocketAddr) (config : Config)
        (seed : List ℕ) (k : ClientState) (w : World)
        → w.client ≡ Some k
        → IsNew transport here server config seed k.core
        → length config.credentials.username ≤ longest_username
        → length config.families ≤ 2
        → k.control ≡ Open (alive [])
        → BeginsNew transport here server config seed k.core w }
{}

/// Every run of a simulation is safe, whatever its events are. This is clause `safe` of
/// [`turn_desk_world::world::World::run`], which says what the premises are.
///
/// # Events as steps
///
/// The results are steps of a run of a client and a server core. Each event is one step, with these
/// exceptions:
///
/// - Over TCP, a chunk of the stream from the server is one step in which the frames that it
///   completes arrive, and one more for each frame that is handled.
/// - A chunk on the socket of a connection that is still to be bound is one step for each message
///   that is handled, and two more in which the buffered bytes are taken out and put back (RFC
///   6062, section 4.3).
/// - A call of `poll_recv` that doesn't return bytes of a bound connection is one step for each
///   buffered frame that is handled, so none over UDP.
///
/// # Conclusions
///
/// If the client is new, the events are fair, nothing that arrives is forged under a key that
/// counts, and no transaction ID is generated twice:
///
/// - Each step is safe. So the server core granted all that the client holds, in response to that
///   very request, whatever the network loses, repeats, reorders or invents.
/// - Nothing is returned as created twice for the same request.
/// - The server core had granted each relayed address, permission, channel and bound connection
///   that the client lists: a channel with that number to that peer, in response to a CHANNEL_BIND
///   that the client transmitted; a connection with that connection ID to that peer, in response to
///   a CONNECTION_BIND.
///
/// This holds of every description of the run as steps (account), and each counts as many generated
/// transaction IDs as the client's generator gave. "Fair" means: the relayed addresses that the
/// driver decides, and the peers to which it requests channels and connections, have no flow
/// information and no scope.
///
/// A connection ends with its socket (RFC 6062, section 4.6). After the socket between a local
/// address and the server was closed, a client over TCP has no bound connection with that local
/// address, lists none, and delivers no bytes of one, except those that were bound since. This
/// needs only that the client is new and the events are fair: it has no premise on who signed what.
pub fn runs_of_a_world_are_safe()
    ensures { (old new : World) (pairs : List (Event × Answer))
        → IsRun old pairs new
        → IsSafeRun old pairs new }
{}

/// What the theorem says of what a client lists, in terms of the results.
///
/// Premise: the last event of a run is one of the calls below, with this result, and the run is one
/// of which the theorem's promise holds (`IsLastAnswered`). Conclusion: unless something was forged
/// or a transaction ID was generated twice, the server core granted each item in the result during
/// that run, in response to a request of the client's:
///
/// - `addresses`: an allocation over that transport with that relayed address
/// - `permissions`, `had`: a permission for that address
/// - `channels`: a channel with that number to that peer
/// - `connections`: a connection with that connection ID to that peer, if it is listed as bound
///
/// Each result of a longer run is the last of a shorter one ([`parts_make_a_run`]), so the theorem
/// applies to each.
pub fn answers_show_what_was_granted()
    ensures addresses { (first last : Client) (run : List (Step Client DeskCall)) (now : ℕ)
        (list : Vec (TransportType × SocketAddr) Global)
        → IsLastAnswered (Call call.RelayedAddresses now) (answer.Relayed list) first run last
        → (transport : TransportType) (address : SocketAddr)
        → IsIn (transport, address) list.items
        → WasGranted first run last (Allocation transport address) }
    ensures permissions { (first last : Client) (run : List (Step Client DeskCall)) (now : ℕ)
        (transport : TransportType) (relayed : SocketAddr) (list : Vec IpAddr Global)
        → IsLastAnswered (Call (call.Permissions transport relayed) now) (answer.Permissions list)
        first run last
        → (ip : IpAddr) → IsIn ip list.items
        → WasGranted first run last (Permission transport ip) }
    ensures had { (first last : Client) (run : List (Step Client DeskCall)) (now : ℕ)
        (transport : TransportType) (ip : IpAddr)
        → IsLastAnswered (Call (call.HavePermission transport ip) now) (answer.Have true)
        first run last
        → WasGranted first run last (Permission transport ip) }
    ensures channels { (first last : Client) (run : List (Step Client DeskCall)) (now : ℕ)
        (list : Vec (ℕ × SocketAddr) Global)
        → IsLastAnswered (Call call.Channels now) (answer.Channels list) first run last
        → (number : ℕ) (peer : SocketAddr) → IsIn (number, peer) list.items
        → WasGranted first run last (Channel number peer) }
    ensures connections { (first last : Client) (run : List (Step Client DeskCall)) (now : ℕ)
        (list : Vec (SocketAddr × SocketAddr × ℕ × Bool) Global)
        → IsLastAnswered (Call call.Connections now) (answer.Connections list) first run last
        → (here peer : SocketAddr) (number : ℕ) → IsIn (here, peer, number, true) list.items
        → WasGranted first run last (Connection here peer number) }
{}

/// What the theorem says of what a client delivers, in terms of the results.
///
/// Premise: by the last event of a run bytes came to the client, or it was polled for buffered
/// data, and the result is data or a report from a peer; and the run is one of which the theorem's
/// promise holds. "Granted" means: unless something was forged or a transaction ID was generated
/// twice, the server core granted it during that run, in response to a request of the client's.
///
/// - `came`, `waited`: A frame that was handled in the last step carries exactly this data; or the
///   data are bytes that came on the socket of a connection to the peer (RFC 6062, section 4.5),
///   and that very connection was granted.
/// - `reports`: A frame that was handled in the last step carries exactly this report, as the last
///   ICMP of a DATA indication without DATA, which names the peer. The peer's permission was
///   granted.
/// - `datagrams`: Over UDP the only frame that was handled is the datagram that came. (Over TCP it
///   is a complete frame of the stream.)
///
/// A frame carries data in one of two ways: as the value of the last DATA of an indication that
/// names the peer, whose permission was granted; or as the data of a channel frame, whose channel
/// to the peer was granted.
///
/// Bytes that come to a local address are reported as from the peer of the connection that has this
/// address, unchanged, after those that were buffered. No key protects these bytes, and the theorem
/// says nothing about who sent them.
pub fn answers_give_what_was_delivered()
    ensures came { (first last : Client) (run : List (Step Client DeskCall)) (now : ℕ)
        (bytes : Vec ℕ Global) (from to : SocketAddr) (given : PeerPayload)
        → IsLastAnswered (ToClient bytes from to now) (answer.Peer given) first run last
        → IsDataBrought first run last to bytes.items given }
    ensures waited { (first last : Client) (run : List (Step Client DeskCall)) (now : ℕ)
        (given : PeerPayload)
        → IsLastAnswered (Call call.PollRecv now) (answer.Peer given) first run last
        → IsDataStored first run last given }
    ensures reports { (first last : Client) (run : List (Step Client DeskCall)) (now : ℕ)
        (bytes : Vec ℕ Global) (from to : SocketAddr) (transport : TransportType)
        (peer : SocketAddr) (kind code details : ℕ)
        → IsLastAnswered (ToClient bytes from to now)
        (answer.Icmp transport peer kind code details) first run last
        → IsCarried first run last
        (λ frame. Reported transport peer
        (record { icmp_type = kind; code = code; details = details }))
        (λ frame. Permission transport (socket_ip peer)) }
    ensures datagrams { (first last : Client) (run : List (Step Client DeskCall)) (now : ℕ)
        (bytes : Vec ℕ Global) (from to : SocketAddr) (ret : Answer)
        (is : IsLastAnswered (ToClient bytes from to now) ret first run last) (k : ClientState)
        → is.new.client ≡ Some k → k.control ≡ Datagrams
        → last_taken run ≡ bytes.items ∷ [] }
{}

/// All accounts of a run count equally many generated transaction IDs: the count is not the
/// account's choice.
pub fn accounts_count_alike()
    ensures { (first : Client) (old new : World) (pairs : List (Event × Answer))
        (run other : List (Step Client DeskCall)) (last left : Client)
        → IsAccount first old pairs new run last
        → IsAccount first old pairs new other left
        → last.transmitted ≡ left.transmitted }
{}

/// The events of a run determine it. If two runs have the same events and begin in the same state,
/// their results are the same and they leave the same state. Premise: no two of the server core's
/// users have the same USERHASH, because a request with such a hash may name either user (RFC 8489,
/// section 14.4). A run that ran out of memory is no run.
pub fn runs_are_determined()
    ensures { (old new left : World) (pairs others : List (Event × Answer))
        → HashesDiffer old.desk.auth
        → HaveSameEvents pairs others
        → IsRun old pairs new
        → IsRun old others left
        → AreSame pairs others × (new ≡ left) }
{}

/// What `recv` returns for a datagram at a time, and the client's state afterwards, are determined,
/// unless an allocation failed.
///
/// - `same`: Of two calls with the same datagram, the results and the states afterwards are equal.
/// - `copied`: If the two datagrams differ only in where their bytes are in memory, the states
///   afterwards are equal; and both are handled, or each is given back, or both give the same data
///   or report from a peer.
pub fn receiving_is_definite<T: AsSlice<u8>>()
    ensures same { (old one other : ClientState) (came : Transmit T) (now : ℕ)
        (answer again : TurnRecvRet T)
        → answer ≢ recv.NoMemory came
        → again ≢ recv.NoMemory came
        → IsReceived T.items old came now answer one
        → IsReceived T.items old came now again other
        → (answer ≡ again) × (one ≡ other) }
    ensures copied { (old one other : ClientState) (came copy : Transmit T) (now : ℕ)
        (answer again : TurnRecvRet T)
        → IsCopy T.items came copy
        → answer ≢ recv.NoMemory came
        → again ≢ recv.NoMemory copy
        → IsReceived T.items old came now answer one
        → IsReceived T.items old copy now again other
        → AreAlike came copy answer again × (one ≡ other) }
{}

/// `recv` of a client over UDP is a step of a run and preserves the client's invariant, whatever
/// datagram came. What it returns from a peer is delivered in that step. (A datagram changes
/// nothing if it is neither a message nor a channel frame, or did not come from the server.)
pub fn receipts_are_steps<T: AsSlice<u8>>()
    ensures { (c : Client) (came : Transmit T) (now : ℕ) (answer : TurnRecvRet T) (new : ClientState)
        → IsSound c
        → AreBytes (T.items came.bytes)
        → IsReceived T.items (over_udp c.core) came now answer new
        → IsGiving c (T.items came.bytes) (given_by (T.items came.bytes) answer) new.core }
{}

/// Non-interference: what the server core answers and grants to an address depends only on what
/// reaches it from that address. An address can't distinguish two server cores if they have the
/// same realm, users and settings, store the same for the address, and granted it the same, in the
/// same order. If the number of addresses is limited (`set_max_clients`), `alone` and `fixed` hold
/// of runs in which nothing from another address makes room; without a limit, of all.
///
/// - `alone`: Delete from a run all events but those by which bytes from the address reach the
///   server core. They have the same results in any simulation whose server core the address can't
///   distinguish from that of the run, whatever its client is, if it has one. Nor can the address
///   distinguish the server cores afterwards.
/// - `fixed`: If the same bytes reach two such server cores from the address, it gets the same
///   results, and can't distinguish the server cores afterwards. Premise: no two users have the
///   same USERHASH (RFC 8489, section 14.4).
/// - `unlimited`: If the server core at the start of a run has no limit on addresses, nothing makes
///   room in the run.
pub fn addresses_are_isolated()
    ensures alone { (address : SocketAddr) (old other new : World)
        (pairs : List (Event × Answer))
        → AreAlikeDesks address old.desk other.desk
        → (run : IsRun old pairs new)
        → MakeNoRoom address old pairs new run
        → IsIsolated address other pairs new }
    ensures fixed { (address : SocketAddr) (old other new left : World)
        (pairs others : List (Event × Answer))
        → AreAlikeDesks address old.desk other.desk
        → HashesDiffer old.desk.auth
        → HaveSameEvents (come_from address pairs) (come_from address others)
        → (run : IsRun old pairs new)
        → MakeNoRoom address old pairs new run
        → (again : IsRun other others left)
        → MakeNoRoom address other others left again
        → AreAnsweredAlike address pairs others new left }
    ensures unlimited { (address : SocketAddr) (old new : World)
        (pairs : List (Event × Answer))
        → old.desk.auth.max_clients ≡ None
        → (run : IsRun old pairs new)
        → MakeNoRoom address old pairs new run }
{
    desk_laws::addresses_are_isolated();
}

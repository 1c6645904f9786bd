//! A small client and a small server core. They show that there are runs as the theory
//! (`turn_runs`) describes them, and that what it promises excludes something.
//!
//! The client makes one request after the other, and the server core grants each
//! (`specs/Handshakes.antt`). Both meet the contracts of the theory. The premise that nothing is
//! forged holds, also if a challenge is forged and a response of an earlier run is replayed. Two
//! wider premises are false of these runs (`specs/AnyRealm.antt`, `specs/AnyNumber.antt`).
//!
//! An account of a run is a description of it as steps. The following runs have no account for
//! which the promise holds:
//!
//! - three in which the client holds, reports or lists an address that no server core granted
//!   (`specs/Ungranted.antt`)
//! - those in which it lists a channel or a connection that no server core granted
//!   (`specs/Ungranted.antt`)
//! - those in which it accepts what its own key doesn't validate (`specs/OtherKeys.antt`)
//!
//! There is no code but the theorems.

ghost use Rattle.std.specs.Prelude.{ℕ, suc, ◌≢◌, ◌≤◌, ◌↔◌, List, map};
ghost use Rattle.turn_runs.specs.StunTypesWire.declared.algorithm.IntegrityAlgorithm.TheVariants.{Sha1, Sha256};
ghost use Rattle.turn_runs.specs.Headline.{AnswersOnce, IsSafe, ShowsTraced};
ghost use Rattle.turn_runs.specs.Names.{SocketAddr};
ghost use Rattle.turn_runs.specs.Runs.{AtEach, IsUnforged, NoForgery};
ghost use Rattle.turn_runs.specs.Steps.{ClientStep};
ghost use Rattle.turn_runs_laws.specs.Handshakes.{Addresses};
ghost use Rattle.turn_runs_laws.specs.AnyNumber.{NoForgeryForAnyNumber};
ghost use Rattle.turn_runs_laws.specs.AnyRealm.{NoForgeryInAnyRealm};
ghost use Rattle.turn_runs_laws.specs.OtherKeys.{answer_by_sha256, answer_under, gains_under, keeps_unnamed, takes_answer, takes_under, takes_unsent};
ghost use Rattle.turn_runs_laws.specs.Rounds.{HoldsOneOfEach, fresh, idle, replayed, rounds};
ghost use Rattle.turn_runs_laws.specs.SmallWords.{IsRight, abroad, digest_under, home, key_small, small, small_client};
ghost use Rattle.turn_runs_laws.specs.Ungranted.{AreSafe, IsBound, IsJoined, forget, holds_ungranted, shows_channel, shows_connection, shows_ungranted, reports_twice};

/// Premise: up to sixteen requests, each granted and answered, over a network that replays messages
/// (`rounds`). Conclusions:
///
/// - `unforged`: It is a run of a new client in which each step meets its contract, nothing is
///   forged, and no transaction ID is generated twice.
/// - `held`: After five requests the client holds one thing of each kind.
/// - `safe`, `once`, `visible`: Each step is safe, nothing is returned as created twice for the
///   same request, and all that a getter returns was granted before.
///
/// The client has sixteen different transaction IDs. After these the first comes again.
pub fn handshakes_are_unforged()
    ensures unforged { (a : Addresses) (n : ℕ) → n ≤ 16
        → IsUnforged (small a) fresh (rounds a n) (idle n) }
    ensures held { (a : Addresses) → HoldsOneOfEach a (idle 5) }
    ensures safe { (a : Addresses) (n : ℕ) → n ≤ 16
        → AtEach (IsSafe (small a) fresh (idle n) (rounds a n)) (rounds a n) }
    ensures once { (a : Addresses) (n : ℕ) → n ≤ 16
        → AnswersOnce (small a) (rounds a n) }
    ensures visible { (a : Addresses) (n : ℕ) → n ≤ 16
        → AtEach (ShowsTraced (small a)) (rounds a n) }
{}

/// - `met`: Nothing is forged in such a run, whatever count of transaction IDs is taken as the
///   client's own. Keys of the realms that a challenge or the server core names validate only what
///   was signed under them, though one challenge is forged and names a realm that is not the server
///   core's.
/// - `wider`: A premise on keys in every realm is false of each such run with at least one answered
///   request. A digest is one of sixteen, so there is a key, of a realm that nobody ever named,
///   under which the response validates too, and nobody signed it under that key.
pub fn only_named_realms_count()
    ensures met { (a : Addresses) (n count : ℕ) → NoForgery (small a) fresh count (rounds a n) }
    ensures wider { (a : Addresses) (n count : ℕ)
        → 1 ≤ n → NoForgeryInAnyRealm (small a) fresh count (rounds a n) → ⊥ }
{}

/// Such a run has an account for which the promise holds, with any count of requests. After more
/// than sixteen requests a transaction ID was generated twice, and the promise says nothing.
pub fn handshakes_meet_an_account()
    ensures { (a : Addresses) (n : ℕ) → AreSafe a fresh (map forget (rounds a n)) }
{}

/// A response that the server signed in an earlier run of the same account may be replayed to the
/// client, also while the same request is outstanding again. It has a transaction ID of the earlier
/// run.
///
/// - `met`: So nothing is forged as the premise means it, whatever count of transaction IDs is
///   taken as the client's own.
/// - `unforged`: With at most fifteen requests before it, each step meets its contract and no
///   transaction ID is generated twice. So all that `turn_runs` promises holds of the run.
/// - `wider`: A premise on messages with any transaction ID is false of each such run: the response
///   validates under the server core's key, and no step of this run signed it.
pub fn only_own_numbers_count()
    ensures met { (a : Addresses) (n count : ℕ) → NoForgery (small a) fresh count (replayed a n) }
    ensures unforged { (a : Addresses) (n : ℕ) → n ≤ 15
        → IsUnforged (small a) fresh (replayed a n) (idle (suc n)) }
    ensures wider { (a : Addresses) (n count : ℕ)
        → NoForgeryForAnyNumber (small a) fresh count (replayed a n) → ⊥ }
{}

/// These runs have no account for which the promise holds, whatever counts of generated transaction
/// IDs it gives the client's states. That each step meets its contract is not used: the promise
/// alone excludes these runs.
///
/// - `held`: The client holds an address though no server core did anything.
/// - `reported`: The client reports an address twice that was granted once.
/// - `visible`: A getter returns an address that was not granted.
/// - `channels`: A getter returns a channel after at most sixteen requests. The run has such an
///   account if and only if the server core had by then granted that channel number to that peer.
///   So a channel with another number, to another peer, or returned too early has none.
/// - `connections`: A getter returns a connection, from any local address, after at most sixteen
///   requests. The run has such an account only if the server core had granted it by then: its
///   connection ID in response to a CONNECT to that very peer, and the connection in response to a
///   CONNECTION_BIND of that ID.
/// - `joined`: After at least five requests, the run in which the getter returns the connection
///   that the client holds does have such an account.
pub fn nothing_ungranted_meets_an_account()
    ensures held { (a : Addresses) → AreSafe a (idle 0) (holds_ungranted a) → ⊥ }
    ensures reported { (a : Addresses) → AreSafe a (idle 0) (reports_twice a) → ⊥ }
    ensures visible { (a : Addresses) → AreSafe a (idle 0) (shows_ungranted a) → ⊥ }
    ensures channels { (a : Addresses) (n number : ℕ) (peer : SocketAddr) → n ≤ 16
        → AreSafe a fresh (shows_channel a n number peer) ↔ IsBound a n number peer }
    ensures connections { (a : Addresses) (n : ℕ) (local : SocketAddr) (number : ℕ)
        (peer : SocketAddr) → n ≤ 16 → AreSafe a fresh (shows_connection a n local number peer)
        → IsJoined a n number peer }
    ensures joined { (a : Addresses) (n : ℕ) → 5 ≤ n
        → AreSafe a fresh (shows_connection a n a.local 7 a.peer) }
{}

/// Three more runs have no account for which the promise holds:
///
/// - `unnamed`: The client uses a realm that it didn't remember at first and that nobody named.
/// - `unsent`: The client handles a response to its request that never arrived and that the server
///   core never sent, though it gains nothing by it.
/// - `gained`: The client gains an address by a response that validates under another key than its
///   own. `right`: the response does validate under that key. The premise is that the digests under
///   the two keys differ.
///
/// `steps`: a call that does the last doesn't meet the contract of a client's step either.
/// `others`: examples of such another key are the key of a realm that the client doesn't remember,
/// and the key of the realm that it remembers for another algorithm than the one by which the
/// response validates.
pub fn no_other_key_meets_an_account()
    ensures unnamed { (a : Addresses) → AreSafe a fresh keeps_unnamed → ⊥ }
    ensures unsent { (a : Addresses) → AreSafe a (idle 0) takes_unsent → ⊥ }
    ensures right { (key : List ℕ) → IsRight (answer_under key) key Sha1 (answer_under key) }
    ensures others { (digest_under abroad ≢ digest_under home)
        × (digest_under (key_small home Sha256) ≢ digest_under home) }
    ensures gained { (a : Addresses) (key : List ℕ) → digest_under key ≢ digest_under home
        → AreSafe a (idle 0) (gains_under a key) → ⊥ }
    ensures steps { (a : Addresses) (key : List ℕ) → digest_under key ≢ digest_under home
        → ClientStep (small_client a) (takes_under a key) → ⊥ }
{}

/// A call by which the client gains an address by a response that validates under its own key for
/// SHA-256 (`right`) doesn't meet the contract of a client's step (`steps`), because the client
/// chose SHA-1.
pub fn only_the_chosen_algorithm_is_taken()
    ensures right { IsRight answer_by_sha256 (key_small home Sha256) Sha256 answer_by_sha256 }
    ensures steps { (a : Addresses)
        → ClientStep (small_client a) (takes_answer a answer_by_sha256) → ⊥ }
{}

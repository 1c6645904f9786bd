//! Runs of a TURN client and a server core over a hostile network (RFC 8656, RFC 6062). If each
//! step of either side meets its contract, the server core granted all that the client holds, in
//! response to the client's own request for it.
//!
//! - `turn_runs/specs/Words.antt` has the terms that the other crates give a meaning: what bytes
//!   show, what a client stores, what a server core did.
//! - `turn_runs/specs/Steps.antt` has the contract of a step, for the client and for the server
//!   core.
//! - `turn_runs/specs/Headline.antt` has what then holds of a run.

ghost use Rattle.std.specs.Prelude.{◌≡◌, ℕ, List};
ghost use Rattle.turn_runs.specs.Words.{Words, WireLaws};
ghost use Rattle.turn_runs.specs.Runs.{Step, AtEach, IsCounted, IsLawful, IsNew, IsUnforged, Leads};
ghost use Rattle.turn_runs.specs.Headline.{IsPromised, IsSafe, AnswersOnce, ShowsTraced};

/// The meaning of the terms `Words` for bytes, for a client and for a server core, and what has to
/// hold of bytes (`WireLaws`). It has no code. The theorems hold for every implementation.
pub trait Layers {
    ghost Client: { Type 0 };

    ghost Desk: { Type 0 };

    ghost words: { Words Client Desk };

    ghost laws: { WireLaws words.wire };
}

/// Premise of all three clauses, `IsUnforged`: the client is new, each step of the run meets its
/// contract, nothing is forged under one of the client's keys, and no transaction ID is generated
/// twice. The network may lose, repeat, reorder and invent messages. Conclusions:
///
/// - `steps`: Each step is safe (`IsSafe`, see below).
/// - `once`: Nothing is returned as created twice for the same request.
/// - `visible`: All that a getter returns as held was granted before.
///
/// A step is safe if:
///
/// - The server core signed each response that the client handles, if it has one of the client's
///   own transaction IDs and validates under a key that counts.
/// - Each realm that the client remembers is one in which its key counts.
/// - The client signed each request that the server core validates under a key that counts, if it
///   has one of the client's own transaction IDs.
/// - The client itself signed the text of no response that it handles.
/// - The server core granted all that the client holds, in response to that very request.
/// - Each payload names the peer of something that was granted in this way.
///
/// A key of the client's counts in a realm that the client remembered when the run began, that a
/// challenge names which arrives (forged or not), or that is the server core's. It doesn't count in
/// a realm that nobody named.
///
/// The premise on forgery is about two kinds of messages that arrive at the client: those with one
/// of the client's own transaction IDs, and each CONNECTION_ATTEMPT, which has an ID of the
/// server's. So a response that the server signed for an earlier run of the same account may be
/// replayed to the client, unless the transaction ID that it answers is one of both runs.
pub fn runs_are_safe<L: Layers>()
    ensures steps { (first : L.Client) (run : List (Step L.Client L.Desk)) (last : L.Client)
        → IsUnforged L.words first run last
        → AtEach (IsSafe L.words first last run) run }
    ensures once { (first : L.Client) (run : List (Step L.Client L.Desk)) (last : L.Client)
        → IsUnforged L.words first run last
        → AnswersOnce L.words run }
    ensures visible { (first : L.Client) (run : List (Step L.Client L.Desk)) (last : L.Client)
        → IsUnforged L.words first run last
        → AtEach (ShowsTraced L.words) run }
{}

/// Premise: the run leads the client from `first` to `last`, and each step meets its contract.
///
/// - `counted`: The client's count of generated transaction IDs grew by exactly the count that its
///   generator gave. So no description of a run as steps can make the premises of `IsPromised` fail
///   by a count of its own choice.
/// - `promised`: If the client is new at `first`, all that `IsPromised` states holds of the run.
pub fn accounts_are_promised<L: Layers>()
    ensures counted { (first : L.Client) (run : List (Step L.Client L.Desk)) (last : L.Client)
        → Leads first run last
        → AtEach (λ s _. IsLawful L.words s) run
        → IsCounted L.words first run last }
    ensures promised { (first : L.Client) (run : List (Step L.Client L.Desk)) (last : L.Client)
        → IsNew L.words first
        → Leads first run last
        → AtEach (λ s _. IsLawful L.words s) run
        → IsPromised L.words first run last }
{}

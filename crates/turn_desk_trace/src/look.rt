//! Look lines: what a trace looks at of the client, which changes nothing.

ghost use Rattle.std.specs.Prelude.{MatchOption, map};
ghost use Rattle.turn_desk_trace.specs.Look.{IsLook, IsLookWord};
ghost use Rattle.turn_desk_trace.specs.declared.look.Look.{Look};

/// What a look line looks at.
#[derive(Clone, Copy, Debug, PartialEq, Eq)]
pub enum Look {
    /// Why the event that the client reported last happened: `cause`.
    Cause,
    /// The client's address as the server saw it: `mapped_address`.
    Mapped,
    /// The server that the client was redirected to: `alternate_server` and `alternate_domain`.
    Alternate,
}

/// Reads a look line, which is one word. Returns `None` for any other words.
pub fn read_look(words: &[&str]) -> Option<Look>
    ensures { MatchOption result ((look : Look) → ¬ (IsLook (map (λ x. x.now) words.now) look))
        (IsLook (map (λ x. x.now) words.now)) }
{
    match words {
        [word] => read_look_word(word),
        _ => None,
    }
}

/// Reads the word of a look line.
fn read_look_word(word: &str) -> Option<Look>
    ensures { MatchOption result ((look : Look) → ¬ (IsLookWord word.now look))
        (IsLookWord word.now) }
{
    match word {
        "cause" => Some(Look::Cause),
        "mapped" => Some(Look::Mapped),
        "alternate" => Some(Look::Alternate),
        _ => None,
    }
}

//! The lines of the input.

ghost use Rattle.std.specs.Prelude.{◌≡◌, Err, IfOk, List, codes, map, ℕ};
ghost use Rattle.stun_inspect.specs.declared.line.Line.{Line};
ghost use Rattle.stun_inspect.specs.InspectLines.{IsLine, IsLineOf, IsNamed, SpellBytes};

use line_io::lower_hex::read_hex;
use line_io::refusal::LineError;
use line_io::word::read_words;
use std::alloc::Global;

/// A line that is not blank and not a comment.
#[derive(Drop)]
pub enum Line<'a> {
    /// `user NAME REALM PASSWORD`: validate the following lines under the key of a user in a realm.
    User {
        /// The user's name.
        name: &'a str,
        /// The realm.
        realm: &'a str,
        /// The user's password.
        password: &'a str,
    },
    /// `password PASSWORD`: validate the following lines under the key of a password alone.
    Password(&'a str),
    /// `message HEX`: describe these bytes as a message.
    Message(Vec<u8>),
    /// `raw HEX`: describe these bytes as one attribute.
    Raw(Vec<u8>),
    /// `frame HEX`: describe these bytes as one channel frame.
    Frame(Vec<u8>),
    /// `stream HEX`: describe these bytes as the first bytes of a stream.
    Stream(Vec<u8>),
}

/// Reads a line, without its line feed.
pub(crate) fn read_line<'a>(alloc: Global, line: &'a [u8]) -> Result<Line<'a>, LineError>
    ensures ok { IfOk result (IsLine line.entry.now) }
    ensures bad { result ≡ Err LineError.Bad → (read : Line) → ¬ (IsLine line.entry.now read) }
{
    let words = read_words(alloc, line)?;
    spell(alloc, words.as_slice())
}

/// Reads a line from its words.
fn spell<'a>(alloc: Global, words: &[&'a str]) -> Result<Line<'a>, LineError>
    ensures ok { IfOk result (IsLineOf (map (λ x. x.now) words.entry.now)) }
    ensures bad { result ≡ Err LineError.Bad → (read : Line)
        → ¬ (IsLineOf (map (λ x. x.now) words.entry.now) read) }
{
    match words {
        ["user", rest @ ..] => read_user(rest),
        ["password", rest @ ..] => read_password(rest),
        ["message", rest @ ..] => match read_bytes(alloc, rest) {
            Ok(bytes) => Ok(Line::Message(bytes)),
            Err(error) => Err(error),
        },
        ["raw", rest @ ..] => match read_bytes(alloc, rest) {
            Ok(bytes) => Ok(Line::Raw(bytes)),
            Err(error) => Err(error),
        },
        ["frame", rest @ ..] => match read_bytes(alloc, rest) {
            Ok(bytes) => Ok(Line::Frame(bytes)),
            Err(error) => Err(error),
        },
        ["stream", rest @ ..] => match read_bytes(alloc, rest) {
            Ok(bytes) => Ok(Line::Stream(bytes)),
            Err(error) => Err(error),
        },
        _ => Err(LineError::Bad),
    }
}

/// Reads the credentials of a user from the words after `user`.
fn read_user<'a>(words: &[&'a str]) -> Result<Line<'a>, LineError>
    ensures ok { IfOk result (IsNamed (codes "user") (map (λ x. x.now) words.entry.now)) }
    ensures bad { result ≡ Err LineError.Bad → (read : Line)
        → ¬ (IsNamed (codes "user") (map (λ x. x.now) words.entry.now) read) }
{
    let [name, realm, password] = words else {
        return Err(LineError::Bad);
    };
    Ok(Line::User {
        name,
        realm,
        password,
    })
}

/// Reads a password from the words after `password`.
fn read_password<'a>(words: &[&'a str]) -> Result<Line<'a>, LineError>
    ensures ok { IfOk result (IsNamed (codes "password") (map (λ x. x.now) words.entry.now)) }
    ensures bad { result ≡ Err LineError.Bad → (read : Line)
        → ¬ (IsNamed (codes "password") (map (λ x. x.now) words.entry.now) read) }
{
    let [password] = words else {
        return Err(LineError::Bad);
    };
    Ok(Line::Password(password))
}

/// Reads bytes from a list of one word.
fn read_bytes(alloc: Global, words: &[&str]) -> Result<Vec<u8>, LineError>
    ensures ok { IfOk result (λ bytes. SpellBytes (map (λ x. x.now) words.now) bytes.items) }
    ensures bad { result ≡ Err LineError.Bad → (bytes : List ℕ)
        → ¬ (SpellBytes (map (λ x. x.now) words.now) bytes) }
{
    let [word] = words else {
        return Err(LineError::Bad);
    };
    read_hex(alloc, word)
}

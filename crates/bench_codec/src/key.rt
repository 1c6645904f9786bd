//! Decodes a password.

ghost use Rattle.std.specs.Prelude.{◌≡◌, MatchOption};
ghost use Rattle.std.specs.Str.{IsUtf8};

/// Returns a password's bytes as text, or `None` if they are not UTF-8. The caller derives its key
/// from the text (RFC 8489, section 9.1.1), so no key is moved.
pub(crate) fn text_of_password(password: &[u8]) -> Option<&str>
    ensures { MatchOption result (¬ IsUtf8 password.now) (λ text. text.now ≡ password.now) }
{
    match str::from_utf8(password) {
        Ok(text) => Some(text),
        Err(_) => None,
    }
}

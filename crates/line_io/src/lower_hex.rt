//! Bytes in hex.

ghost use Rattle.std.specs.Prelude.{◌≡◌, Err, IfOk, None, Some, string_bytes};
ghost use Rattle.std.specs.List.{list_any};
ghost use Rattle.std.specs.Char.{is_ascii_uppercase};
ghost use Rattle.line_io.specs.LowerHex.{hex_bytes, hex_text, is_dash, word_bytes};

use crate::refusal::LineError;
use std::alloc::{AllocError, Global};

/// Returns whether a word is `-`, which stands for no bytes.
pub fn is_no_bytes(word: &str) -> bool
    ensures { result ≡ is_dash word.now }
{
    let bytes = word.as_bytes();
    bytes.len() == 1 && bytes[0] == b'-'
}

/// Decodes a word: `-` as no bytes, and lower case hex as its bytes.
///
/// # Errors
///
/// - `Bad`: the word is neither.
/// - `NoMemory`: an allocation failed.
#[tactic(auto, unfolding(crate::specs::LowerHex::word_bytes))]
pub fn read_hex(alloc: Global, word: &str) -> Result<Vec<u8>, LineError>
    ensures ok { IfOk result (λ bytes. word_bytes word.now ≡ Some bytes.items) }
    ensures bad { result ≡ Err LineError.Bad → word_bytes word.now ≡ None }
{
    if is_no_bytes(word) {
        return Ok(Vec::new(alloc));
    }
    decode_lower(alloc, word)
}

/// Decodes lower case hex. Fails with `Bad` if the text is none, and with `NoMemory` if an
/// allocation fails.
#[tactic(auto, unfolding(crate::specs::LowerHex::hex_bytes))]
pub fn decode_lower(alloc: Global, text: &str) -> Result<Vec<u8>, LineError>
    ensures ok { IfOk result (λ bytes. hex_bytes text.now ≡ Some bytes.items) }
    ensures bad { result ≡ Err LineError.Bad → hex_bytes text.now ≡ None }
{
    if has_uppercase(text) {
        return Err(LineError::Bad);
    }
    match hex::decode(alloc, text) {
        Ok(bytes) => Ok(bytes),
        Err(hex::FromHexError::OutOfMemory) => Err(LineError::NoMemory),
        Err(_) => Err(LineError::Bad),
    }
}

/// Returns whether a text has an upper case letter.
fn has_uppercase(text: &str) -> bool
    ensures { result ≡ list_any is_ascii_uppercase text.now }
{
    text.as_bytes().iter().any(|byte| byte.is_ascii_uppercase())
}

/// Encodes bytes in lower case hex, or as `-` if there are none. Fails only if an allocation fails.
pub fn write_hex(alloc: Global, bytes: &[u8]) -> Result<String, AllocError>
    ensures { IfOk result (λ text. string_bytes text ≡ hex_text bytes.now) }
{
    if bytes.is_empty() {
        String::from_str(alloc, "-")
    } else {
        hex::encode(alloc, bytes)
    }
}

//! Texts in SVG.

ghost use Rattle.std.specs.Prelude.{◌≡◌, ◌++◌, OnOk, chars, string_bytes};
ghost use Rattle.std.specs.List.{flat_map};
ghost use Rattle.trace_picture.specs.Escapes.{escaped, is_allowed, listed_char};

use std::alloc::AllocError;

/// Appends a text, escaped for the place between two tags: no character of it can end the text or
/// begin a tag, and a character that XML doesn't allow becomes U+FFFD (XML 1.0, sections 2.2 and
/// 2.4).
pub(crate) fn push_escaped(svg: &mut String, text: &str) -> Result<(), AllocError>
    ensures { OnOk result (string_bytes svg.new ≡ string_bytes svg.old ++ escaped text.now) }
{
    for c in text.chars() {
        push_char(svg, c)?;
    }
    Ok(())
}

/// Appends a character, escaped for the place between two tags.
fn push_char(svg: &mut String, c: char) -> Result<(), AllocError>
    ensures { OnOk result (string_bytes svg.new ≡ string_bytes svg.old ++ listed_char c) }
{
    match c {
        '&' => svg.push_str("&amp;"),
        '<' => svg.push_str("&lt;"),
        '>' => svg.push_str("&gt;"),
        '"' => svg.push_str("&quot;"),
        _ if is_allowed(c) => svg.push(c),
        _ => svg.push('\u{FFFD}'),
    }
}

/// Returns whether XML allows a character in a text. Tab, line feed and carriage return count as
/// not allowed, because they would be read as spaces.
fn is_allowed(c: char) -> bool
    ensures { result ≡ is_allowed c }
{
    ' ' <= c && c != '\u{FFFE}' && c != '\u{FFFF}'
}

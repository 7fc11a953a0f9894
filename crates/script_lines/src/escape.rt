ghost use Rattle.std.specs.Prelude.{◌≡◌, ◌<◌, ◌++◌, ◌∷◌, ◌==◌, length, not, OnOk, IfOk, IsOkUnless, IfSome, MatchOption, Some};
ghost use Rattle.std.specs.List.{list_any};
ghost use Rattle.std.specs.Str.{IsUtf8};
ghost use Rattle.std.specs.Option.{option_map};
ghost use Rattle.base_values.specs.declared.error.EditError.TheVariants.{NoMemory};
ghost use Rattle.script_lines.specs.Escapes.{needs_escape, escape_byte, escaped, unescaped, onto, IsUndone, IsOnlyWay};

use base_values::{EditError, Text};
use std::alloc::{AllocError, Global};

fn push_escaped_byte(out: &mut Vec<u8>, byte: u8) -> Result<(), AllocError>
    ensures { OnOk result (out.new.items ≡ out.old.items ++ escape_byte byte) }
{
    if byte == b'\n' {
        out.extend_from_slice(b"\\n")
    } else if byte == b'\\' {
        out.extend_from_slice(b"\\\\")
    } else {
        out.push(byte)?;
        Ok(())
    }
}

fn push_escaped_bytes(out: &mut Vec<u8>, text: &[u8]) -> Result<(), AllocError>
    ensures { OnOk result (out.new.items ≡ out.old.items ++ escaped text.now) }
{
    for byte in text {
        push_escaped_byte(out, *byte)?;
    }
    Ok(())
}

/// Whether a byte of the text is not written as itself.
fn needs_escape(text: &[u8]) -> bool
    ensures { result ≡ list_any needs_escape text.now }
{
    text.iter().any(|byte| *byte == b'\n' || *byte == b'\\')
}

/// Writes a text at the end as answers print it: `\n` for a line feed, `\\` for a backslash. Where
/// memory ends, a front of it may have been written.
#[tactic(auto, using(crate::proofs::Plain::plain_escaped))]
pub fn push_escaped(out: &mut Vec<u8>, text: &[u8]) -> Result<(), AllocError>
    ensures { OnOk result (out.new.items ≡ out.old.items ++ escaped text.now) }
{
    if needs_escape(text) {
        return push_escaped_bytes(out, text);
    }
    // Most texts are written as they are: they are copied at once.
    out.extend_from_slice(text)
}

/// The first byte that an escaped text stands for, and the rest of the text.
fn first_byte(bytes: &[u8]) -> Option<(u8, &[u8])>
    requires { 0 < length bytes.now }
    ensures value { MatchOption result (unescaped bytes.now ≡ None)
        (λ first. unescaped bytes.now ≡ onto first.0 (unescaped first.1.now)) }
    ensures shorter { IfSome result (λ first. length first.1.now < length bytes.now) }
{
    let (byte, rest) = (bytes[0], &bytes[1..]);
    if byte != b'\\' {
        return Some((byte, rest));
    }
    if rest.is_empty() {
        return None;
    }
    match rest[0] {
        b'n' => Some((b'\n', &rest[1..])),
        b'\\' => Some((b'\\', &rest[1..])),
        _ => None,
    }
}

fn unescape_bytes(alloc: Global, bytes: &[u8]) -> Result<Option<Vec<u8>>, AllocError>
    ensures value { IfOk result (λ found. option_map (λ text. text.items) found ≡ unescaped bytes.now) }
    ensures text { IsUtf8 bytes.now → IfOk result (λ found. IfSome found (λ text. IsUtf8 text.items)) }
{
    let mut text = Vec::new(alloc);
    let mut rest = bytes;
    'bytes: while !rest.is_empty() {
        let Some((byte, others)) = first_byte(rest) else {
            return Ok(None);
        };
        text.push(byte)?;
        rest = others;
    }
    Ok(Some(text))
}

/// The bytes as a text.
fn text_from(bytes: Vec<u8>) -> Option<Text>
    requires { IsUtf8 bytes.items }
    ensures { result ≡ Some bytes.items }
{
    match String::from_utf8(bytes) {
        Ok(string) => Some(Text::new(string)),
        Err(_) => None,
    }
}

/// Whether no backslash stands in a text.
fn is_plain(text: &[u8]) -> bool
    ensures { result ≡ not (list_any (λ b. b == 92) text.now) }
{
    !text.contains(&b'\\')
}

/// The text that an escaped text stands for. None where a backslash stands before anything but
/// `n` and a backslash.
pub(crate) fn unescape(alloc: Global, text: &str) -> Result<Option<Text>, EditError>
    ensures value { IfOk result (λ found. found ≡ unescaped text.now) }
    ensures err { IsOkUnless result NoMemory }
{
    // Most texts stand for themselves: they are copied at once.
    if is_plain(text.as_bytes()) {
        return Ok(Some(Text::new(text.to_string(alloc)?)));
    }
    match unescape_bytes(alloc, text.as_bytes())? {
        Some(bytes) => Ok(text_from(bytes)),
        None => Ok(None),
    }
}

/// The laws of escaping: an escaped text stands for that text, and on one line nothing else does.
pub fn escapes_read_back()
    ensures undone { IsUndone }
    ensures only { IsOnlyWay }
{}

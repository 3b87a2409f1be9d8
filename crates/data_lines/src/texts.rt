//! Texts as JSON values.

ghost use Rattle.std.specs.Prelude.{◌≡◌, ◌<◌, ◌≤◌, ◌++◌, ◌∷◌, [], false, true, OnOk, length};
ghost use Rattle.std.specs.Prelude.{take, IsAscii};
ghost use Rattle.data_lines.specs.Texts as spec;
ghost use Rattle.data_lines.specs.Vocabulary.{digit_glyph, flat_map};

use std::alloc::AllocError;
use std::str::from_utf8;

// The hexadecimal digit of a number.
fn hex_digit(number: u8) -> u8
    requires { number < 16 }
    ensures { result ≡ digit_glyph false number }
{
    if number < 10 {
        b'0' + number
    } else {
        b'a' + (number - 10)
    }
}

// Puts a byte in two hexadecimal digits.
fn put_hex(out: &mut Vec<u8>, byte: u8) -> Result<(), AllocError>
    ensures { OnOk result (out.new.items ≡ out.old.items ++ spec.hex_digits byte) }
{
    out.push(hex_digit(byte / 16))?;
    out.push(hex_digit(byte % 16))?;
    Ok(())
}

// Puts a byte of a text, escaped if JSON wants it.
fn put_escape(out: &mut Vec<u8>, byte: u8) -> Result<(), AllocError>
    ensures { OnOk result (out.new.items ≡ out.old.items ++ spec.json_escape byte) }
{
    match byte {
        b'"' => out.extend_from_slice(b"\\\""),
        b'\\' => out.extend_from_slice(b"\\\\"),
        b'\n' => out.extend_from_slice(b"\\n"),
        b'\t' => out.extend_from_slice(b"\\t"),
        0..=31 | 127 => {
            out.extend_from_slice(b"\\u00")?;
            put_hex(out, byte)
        }
        _ => {
            out.push(byte)?;
            Ok(())
        }
    }
}

// Whether a byte is ASCII and stays as it is. One test for all, since several branches would often
// be mispredicted.
fn is_plain(byte: u8) -> bool
    ensures plain { result ≡ true → spec.json_escape byte ≡ byte ∷ [] }
    ensures ascii { result ≡ true → byte < 128 }
{
    (byte >= b' ') & (byte < 127) & (byte != b'"') & (byte != b'\\')
}

// How many plain bytes a text begins with.
fn plain_len(text: &[u8]) -> usize
    ensures within { result ≤ length text.now }
    ensures plain { flat_map spec.json_escape (take result text.now) ≡ take result text.now }
    ensures ascii { IsAscii (take result text.now) }
{
    let mut count = 0;
    while count < text.len() && is_plain(text[count]) {
        count += 1;
    }
    count
}

// Puts the bytes of a text, escaped one by one.
fn put_escapes(out: &mut Vec<u8>, text: &[u8]) -> Result<(), AllocError>
    ensures { OnOk result (out.new.items ≡ out.old.items ++ flat_map spec.json_escape text.now) }
{
    for byte in text {
        put_escape(out, *byte)?;
    }
    Ok(())
}

// Puts plain bytes and a line feed between quotation marks.
fn put_line(out: &mut Vec<u8>, plain: &[u8]) -> Result<(), AllocError>
    requires { flat_map spec.json_escape plain.now ≡ plain.now }
    ensures { OnOk result
        (out.new.items ≡ out.old.items ++ spec.json_string (plain.now ++ 10 ∷ [])) }
{
    out.push(b'"')?;
    out.extend_from_slice(plain)?;
    out.extend_from_slice(b"\\n\"")
}

// Puts plain bytes and others between quotation marks.
fn put_string(out: &mut Vec<u8>, plain: &[u8], rest: &[u8]) -> Result<(), AllocError>
    requires { flat_map spec.json_escape plain.now ≡ plain.now }
    ensures { OnOk result
        (out.new.items ≡ out.old.items ++ spec.json_string (plain.now ++ rest.now)) }
{
    out.push(b'"')?;
    out.extend_from_slice(plain)?;
    put_escapes(out, rest)?;
    out.extend_from_slice(b"\"")
}

// Puts an object that has a text in hexadecimal digits.
fn put_in_hex(out: &mut Vec<u8>, text: &[u8]) -> Result<(), AllocError>
    ensures { OnOk result (out.new.items ≡ out.old.items ++ spec.in_hex text.now) }
{
    out.extend_from_slice(b"{\"hex\":\"")?;
    for byte in text {
        put_hex(out, *byte)?;
    }
    out.extend_from_slice(b"\"}")
}

/// Puts a text: a string if it is UTF-8, and else an object. Most texts are plain bytes and a
/// line feed.
pub fn put_text(out: &mut Vec<u8>, text: &[u8]) -> Result<(), AllocError>
    ensures { OnOk result (out.new.items ≡ out.old.items ++ spec.text_value text.now) }
{
    let (plain, rest) = text.split_at(plain_len(text));
    if rest == b"\n".as_slice() {
        return put_line(out, plain);
    }
    match from_utf8(rest) {
        Ok(_) => put_string(out, plain, rest),
        Err(_) => put_in_hex(out, text),
    }
}

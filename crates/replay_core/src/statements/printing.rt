//! The texts of `trace` and `printf` (Dynamic Tracing Guide, "Output Formatting").

ghost use Rattle.std.specs.Prelude.{◌≡◌, ◌++◌, ◌∷◌, [], IfOk, unsigned_abs};
ghost use Rattle.d_types.specs.Printing as spec;
ghost use Rattle.replay_core.specs.Vocabulary.{signed_decimal};

use crate::evaluation::{bytes_in, word_in};
use d_types::{Conversion, Letter, Piece};
use d_values::{DType, IntType, Text, Value, convert};
use itoa::Buffer;
use std::alloc::{AllocError, Global};

// Three parts in a row.
fn concatenation(alloc: Global, a: &[u8], b: &[u8], c: &[u8]) -> Result<Text, AllocError>
    ensures { IfOk result (λ t. t ≡ a.now ++ b.now ++ c.now) }
{
    let mut bytes = Vec::from_slice(alloc, a)?;
    bytes.extend_from_slice(b)?;
    bytes.extend_from_slice(c)?;
    Ok(Text::from(bytes))
}

// A line of these bytes.
fn line(alloc: Global, bytes: &[u8]) -> Result<Text, AllocError>
    ensures { IfOk result (λ t. t ≡ bytes.now ++ 10 ∷ []) }
{
    let mut line = Vec::from_slice(alloc, bytes)?;
    line.push(b'\n')?;
    Ok(Text::from(line))
}

// Whether words of the type have a sign.
fn is_signed(t: DType) -> bool
    ensures { result ≡ spec.is_signed t }
{
    match t {
        DType::Int(t) => t.signed,
        DType::Text => false,
    }
}

// The line of a word in decimal, with its sign.
fn decimal_line(alloc: Global, t: DType, word: u64) -> Result<Text, AllocError>
    ensures { IfOk result (λ x. x ≡ signed_decimal (spec.number_in t word) ++ 10 ∷ []) }
{
    let mut buffer = Buffer::new();
    if is_signed(t) {
        line(alloc, buffer.format(word.cast_signed()).as_bytes())
    } else {
        line(alloc, buffer.format(word).as_bytes())
    }
}

/// The line that `trace` makes of a value.
///
/// ```text
/// // `-1` and a line feed
/// trace_line(alloc, DType::Int(IntType::INT8), &Value::Int(u64::MAX))?;
/// ```
pub fn trace_line(alloc: Global, t: DType, value: &Value) -> Result<Text, AllocError>
    ensures { IfOk result (λ x. x ≡ spec.trace_line t value.now) }
{
    match value {
        Value::Int(word) => decimal_line(alloc, t, *word),
        Value::Text(text) => line(alloc, text.as_bytes()),
    }
}

// `-` before a number below 0.
fn sign(t: DType, word: u64) -> &'static [u8]
    ensures { result.now ≡ spec.sign_of (spec.number_in t word) }
{
    if is_signed(t) && word.cast_signed() < 0 {
        b"-"
    } else {
        &[]
    }
}

// How far a number is from 0.
fn size(t: DType, word: u64) -> u64
    ensures { result ≡ unsigned_abs (spec.number_in t word) }
{
    if is_signed(t) {
        word.cast_signed().unsigned_abs()
    } else {
        word
    }
}

// The word modulo 2 to the width of its type.
fn low(t: DType, word: u64) -> u64
    ensures { result ≡ spec.low_in t word }
{
    match t {
        DType::Int(t) => convert(
            word,
            t,
            IntType {
                width: t.width,
                signed: false,
            },
        ),
        DType::Text => word,
    }
}

// A sign and what follows it, in the conversion's width.
fn text_in_width(
    alloc: Global,
    c: Conversion,
    zeros: bool,
    sign: &[u8],
    body: &[u8],
) -> Result<Text, AllocError>
    ensures { IfOk result (λ t. t ≡ spec.text_in_width c zeros sign.now body.now) }
{
    let room = usize::from(c.width).saturating_sub(sign.len() + body.len());
    let byte = if zeros && !c.left { b'0' } else { b' ' };
    let filling = vec![in alloc; byte; room]?;
    if c.left {
        concatenation(alloc, sign, body, &filling)
    } else if zeros {
        concatenation(alloc, sign, &filling, body)
    } else {
        concatenation(alloc, &filling, sign, body)
    }
}

// What `printf` writes of an argument.
fn conversion_text(
    alloc: Global,
    c: Conversion,
    t: DType,
    value: &Value,
) -> Result<Text, AllocError>
    ensures { IfOk result (λ x. x ≡ spec.conversion_text c.letter c t value.now) }
{
    match c.letter {
        Letter::Text => text_in_width(alloc, c, false, &[], bytes_in(value)),
        Letter::Signed => {
            let word = word_in(value);
            let mut buffer = Buffer::new();
            let body = buffer.format(size(t, word));
            text_in_width(alloc, c, c.zeros, sign(t, word), body.as_bytes())
        }
        Letter::Unsigned => {
            let mut buffer = Buffer::new();
            let body = buffer.format(low(t, word_in(value)));
            text_in_width(alloc, c, c.zeros, &[], body.as_bytes())
        }
        Letter::Hexadecimal => {
            let number = low(t, word_in(value));
            let body = format!(in alloc; "{number:x}")?;
            text_in_width(alloc, c, c.zeros, &[], body.as_bytes())
        }
        Letter::Octal => {
            let number = low(t, word_in(value));
            let body = format!(in alloc; "{number:o}")?;
            text_in_width(alloc, c, c.zeros, &[], body.as_bytes())
        }
    }
}

/// The text that `printf` makes of the pieces of its format and its arguments.
pub fn printf_text(
    alloc: Global,
    format: &[Piece],
    values: &[(DType, Value)],
) -> Result<Text, AllocError>
    ensures { IfOk result (λ x. x ≡ spec.printf_text format.now values.now) }
{
    let mut bytes = Vec::new(alloc);
    let mut rest = values;
    for piece in format {
        match piece {
            Piece::Byte(b) => bytes.push(*b)?,
            Piece::Argument(c) => {
                if let Some(((t, value), behind)) = rest.split_first() {
                    let text = conversion_text(alloc, *c, *t, value)?;
                    bytes.extend_from_slice(text.as_bytes())?;
                    rest = behind;
                }
            }
        }
    }
    Ok(Text::from(bytes))
}

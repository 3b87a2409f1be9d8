//! The fields of a plain row: each value and what comes after it, or None if csv has to read the
//! row.

ghost use Rattle.std.specs.Prelude.{◌≡◌, ◌<◌, ◌≤◌, ◌+◌, ◌*◌, ◌∷◌, [], ℕ, List, IfSome, Some};
ghost use Rattle.std.specs.Prelude.{take, length};
ghost use Rattle.std.specs.Str.Parse.{AllDigits, digits_value};
ghost use Rattle.firing_reader.specs.Column.{Whole, number_from, signed_of, value_of};
ghost use Rattle.firings.specs.Texts.{text_of};
ghost use Rattle.firing_reader.specs.{Plain.Passes};
ghost use Rattle.firing_reader.specs.Steps.Plain.{BeginsAs, Closes};

use super::front::{after_comma, after_minus, begins_at_end, front, rest_after, word_front};
use crate::columns::negative;
use core::dec2flt::read_digits;
use firings::{MAX_TEXT, Text};

// A number of this many digits fits in 64 bits. Csv reads one of more.
const SHORT: usize = 19;

// The digits at the front: the number that they write, and how many there are.
#[inline(always)]
fn digits(bytes: &[u8]) -> Option<(u64, usize)>
    ensures count { IfSome result (λ p. p.1 ≤ length bytes.now) }
    ensures digits { IfSome result (λ p. AllDigits 10 (take p.1 bytes.now)) }
    ensures value { IfSome result (λ p. p.0 ≡ digits_value 10 (take p.1 bytes.now)) }
{
    let (count, number) = read_digits(bytes, 0, 0);
    if count > SHORT {
        return None;
    }
    Some((number, count))
}

// One digit that a comma ends.
#[inline(always)]
fn one_digit(bytes: &[u8]) -> Option<(u8, &[u8])>
    ensures { IfSome result (λ p. (p.0 < 10) × (bytes.now ≡ (48 + p.0) ∷ 44 ∷ p.1.now)) }
{
    match bytes {
        [digit, b',', rest @ ..] if digit.is_ascii_digit() => Some((*digit - b'0', rest)),
        _ => None,
    }
}

/// A number from least to most that a comma ends.
#[inline(always)]
pub(crate) fn whole(bytes: &[u8], least: u64, most: u64) -> Option<(u64, &[u8])>
    ensures value { IfSome result
        (λ p. BeginsAs (number_from least most) bytes.now p.0 (44 ∷ p.1.now)) }
    ensures bound { IfSome result (λ p. p.0 ≤ most) }
{
    let (number, count) = digits(bytes)?;
    if count == 0 || number < least || most < number {
        return None;
    }
    let rest = after_comma(rest_after(bytes, count))?;
    Some((number, rest))
}

/// A number of at most 31 bits, from least, that a comma ends.
#[inline(always)]
pub(crate) fn int(bytes: &[u8], least: u64) -> Option<(i32, &[u8])>
    ensures { IfSome result
        (λ p. BeginsAs (value_of (Whole least 0x7FFF_FFFF)) bytes.now p.0 (44 ∷ p.1.now)) }
{
    if least == 0
        && let Some((digit, rest)) = one_digit(bytes)
    {
        return Some((i32::from(digit), rest));
    }
    let (number, rest) = whole(bytes, least, 0x7fff_ffff)?;
    Some((number as i32, rest))
}

/// A text that a comma ends. Of a short one in ASCII no byte needs a further look.
pub(crate) fn text(bytes: &[u8]) -> Option<(Text, &[u8])>
    ensures { IfSome result (λ p. BeginsAs text_of bytes.now p.0 (44 ∷ p.1.now)) }
{
    let count = word_front(bytes);
    if count <= MAX_TEXT
        && let Some(rest) = after_comma(rest_after(bytes, count))
    {
        return Some((Text::of(&bytes[..count]), rest));
    }
    let count = front(bytes);
    let rest = after_comma(rest_after(bytes, count))?;
    let text = Text::from_bytes(&bytes[..count])?;
    Some((text, rest))
}

// An argument whose minus comes before these bytes.
#[inline(always)]
fn below_zero(bytes: &[u8]) -> Option<(i64, &[u8])>
    ensures { IfSome result
        (λ p. BeginsAs (λ field. signed_of (45 ∷ field)) bytes.now p.0 p.1.now) }
{
    let (number, count) = digits(bytes)?;
    if count == 0 || number > 1 << 63 {
        return None;
    }
    Some((negative(number), rest_after(bytes, count)))
}

// An argument, whatever ends it.
#[inline(always)]
fn argument(bytes: &[u8]) -> Option<(i64, &[u8])>
    ensures { IfSome result (λ p. BeginsAs signed_of bytes.now p.0 p.1.now) }
{
    if let Some(rest) = after_minus(bytes) {
        return below_zero(rest);
    }
    let (number, count) = digits(bytes)?;
    if number > i64::MAX as u64 {
        return None;
    }
    Some((number as i64, rest_after(bytes, count)))
}

/// An argument that a comma ends. Most are 0.
#[inline(always)]
pub(crate) fn next_argument(bytes: &[u8]) -> Option<(i64, &[u8])>
    ensures { IfSome result (λ p. (field : List ℕ)
        × Passes bytes.now (field ∷ []) p.1.now × (signed_of field ≡ Some p.0)) }
{
    if let Some((digit, rest)) = one_digit(bytes) {
        return Some((i64::from(digit), rest));
    }
    let (value, rest) = argument(bytes)?;
    let after = after_comma(rest)?;
    Some((value, after))
}

/// An argument that ends a row. The row's end is the first byte of what comes after it.
pub(crate) fn last_argument(bytes: &[u8]) -> Option<(i64, &[u8])>
    ensures { IfSome result (λ p. (field : List ℕ)
        × Closes bytes.now (field ∷ []) p.1.now × (signed_of field ≡ Some p.0)) }
{
    let (value, rest) = argument(bytes)?;
    if !begins_at_end(rest) {
        return None;
    }
    Some((value, rest))
}

//! Numbers as strace shows them: each function reads those at the front, and gives what comes after
//! them.

use crate::limits::{MAX_DECIMAL, MAX_HEXADECIMAL};
use core::dec2flt::read_digits;

// The digits of a fraction of a second that there can be.
const NANOSECOND_DIGITS: usize = 9;

// How many nanoseconds the last digit of a fraction stands for, by the number of its digits.
const SCALES: [u64; 10] = [
    1_000_000_000,
    100_000_000,
    10_000_000,
    1_000_000,
    100_000,
    10_000,
    1_000,
    100,
    10,
    1,
];

/// The number that decimal digits write, of which there are 1 to `most`.
#[inline(always)]
pub(crate) fn decimal(shown: &[u8], most: usize) -> Option<(u64, &[u8])> {
    let (count, number) = read_digits(shown, 0, 0);
    if count == 0 || count > most {
        return None;
    }
    Some((number, &shown[count..]))
}

// The value of a hexadecimal digit, whose letters are in lower case.
#[inline(always)]
fn digit_value(byte: u8) -> Option<u64> {
    match byte {
        b'0'..=b'9' => Some(u64::from(byte - b'0')),
        b'a'..=b'f' => Some(u64::from(byte - b'a') + 10),
        _ => None,
    }
}

// The number of hexadecimal digits.
#[inline(always)]
fn hexadecimal(shown: &[u8]) -> Option<(u64, &[u8])> {
    let mut number: u64 = 0;
    let mut count: usize = 0;
    for byte in shown {
        let Some(digit) = digit_value(*byte) else {
            break;
        };
        number = number << 4 | digit;
        count = count.saturating_add(1);
    }
    if count == 0 || count > MAX_HEXADECIMAL {
        return None;
    }
    Some((number, shown.get(count..)?))
}

// The size of a number: hexadecimal, or decimal without a zero in front.
#[inline(always)]
fn size(shown: &[u8]) -> Option<(u64, &[u8])> {
    match shown {
        [b'0', b'x', digits @ ..] => hexadecimal(digits),
        [b'0', b'0'..=b'9', ..] => None,
        _ => decimal(shown, MAX_DECIMAL),
    }
}

/// An integer, as a signed one of 64 bits.
pub(crate) fn integer(shown: &[u8]) -> Option<(i64, &[u8])> {
    let [b'-', below_zero @ ..] = shown else {
        let (size, rest) = size(shown)?;
        return Some((size.cast_signed(), rest));
    };
    let (size, rest) = size(below_zero)?;
    if size > 1 << 63 {
        return None;
    }
    Some((size.wrapping_neg().cast_signed(), rest))
}

/// Nanoseconds that are shown as seconds, of at most `most` digits, and a fraction.
pub(crate) fn nanoseconds(shown: &[u8], most: usize) -> Option<(u64, &[u8])> {
    let (seconds, rest) = decimal(shown, most)?;
    let fraction = rest.strip_prefix(b".")?;
    let (part, rest) = decimal(fraction, NANOSECOND_DIGITS)?;
    let scale = SCALES.get(fraction.len().checked_sub(rest.len())?)?;
    let part = part.checked_mul(*scale)?;
    let time = seconds.checked_mul(1_000_000_000)?.checked_add(part)?;
    Some((time, rest))
}

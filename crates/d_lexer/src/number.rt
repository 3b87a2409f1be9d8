//! Numbers: `0x` and hexadecimal digits, `0` and octal digits, or decimal digits, then a suffix.

ghost use Rattle.std.specs.Prelude.{◌≡◌, ◌≤◌, ◌<◌, [], ◌∷◌, true};
ghost use Rattle.std.specs.Char.{is_ascii_digit};
ghost use Rattle.d_lexer.specs.Steps.Numbers as spec;

use crate::token::Suffix;

fn digit_of(base: u32, d: u8) -> Option<u64>
    requires small { 2 ≤ base }
    requires great { base ≤ 16 }
    ensures { result ≡ spec.digit_of base d }
{
    let value = char::from(d).to_digit(base)?;
    Some(u64::from(value))
}

#[tactic(auto, unfolding(crate::specs::Steps::Numbers::suffix_by_letters))]
fn suffix_of(bytes: &[u8]) -> Option<Suffix>
    ensures { result ≡ spec.suffix_by_letters bytes.now }
{
    match bytes {
        [] => Some(Suffix::Absent),
        [b'u' | b'U'] => Some(Suffix::Unsigned),
        [b'l' | b'L'] | [b'l' | b'L', b'l' | b'L'] => Some(Suffix::Long),
        [b'u' | b'U', b'l' | b'L'] => Some(Suffix::UnsignedLong),
        [b'u' | b'U', b'l' | b'L', b'l' | b'L'] => Some(Suffix::UnsignedLong),
        _ => None,
    }
}

fn one_more(base: u32, n: u64, k: u64) -> Option<u64>
    ensures { result ≡ spec.one_digit_more base n k }
{
    let shifted = n.checked_mul(u64::from(base))?;
    shifted.checked_add(k)
}

#[tactic(auto, unfolding(crate::specs::Steps::Numbers::number_from))]
fn number_from(base: u32, first: u64, bytes: &[u8]) -> Option<(u64, Suffix)>
    requires small { 2 ≤ base }
    requires great { base ≤ 16 }
    ensures { result ≡ spec.number_from base first bytes.now }
{
    let mut n = first;
    let mut rest = bytes;
    while let [d, after @ ..] = rest {
        match digit_of(base, *d) {
            None => {
                let suffix = suffix_of(rest)?;
                return Some((n, suffix));
            }
            Some(k) => n = one_more(base, n, k)?,
        }
        rest = after;
    }
    Some((n, Suffix::Absent))
}

fn hex_from(bytes: &[u8]) -> Option<(u64, Suffix)>
    ensures { result ≡ spec.hex_from bytes.now }
{
    let [d, ..] = bytes else {
        return None;
    };
    let _ = digit_of(16, *d)?;
    number_from(16, 0, bytes)
}

fn zero_from(bytes: &[u8]) -> Option<(u64, Suffix)>
    ensures { result ≡ spec.zero_from bytes.now }
{
    match bytes {
        [] => Some((0, Suffix::Absent)),
        [b'x' | b'X', rest @ ..] => hex_from(rest),
        _ => number_from(8, 0, bytes),
    }
}

/// The value and the suffix that a run of letters and digits spells, given by its first digit and
/// the rest; none if the run isn't a number, or is one over 2^64-1.
#[tactic(auto, unfolding(crate::specs::Steps::Numbers::number_spelled))]
pub(crate) fn number_of(b: u8, rest: &[u8]) -> Option<(u64, Suffix)>
    requires { is_ascii_digit b ≡ true }
    ensures { result ≡ spec.number_spelled (b ∷ rest.now) }
{
    if b == b'0' {
        zero_from(rest)
    } else {
        number_from(10, u64::from(b - b'0'), rest)
    }
}

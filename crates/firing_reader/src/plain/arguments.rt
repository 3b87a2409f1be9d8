//! The arguments of a plain row.

ghost use Rattle.std.specs.Prelude.{◌≡◌, ◌≤◌, ◌+◌, ◌∷◌, ◌++◌, [], ℕ, ℤ, List, true, Some, IfSome};
ghost use Rattle.std.specs.Prelude.{MatchOption, length, take};
ghost use Rattle.firing_reader.specs.Steps.{Arguments.EndsAlike, Plain.Closes};
ghost use Rattle.firing_reader.specs.Steps.{Plain.ReadsArguments, Stored.Gains};
ghost use Rattle.firings.specs.{Arguments.ten, Units.part};
ghost use Rattle.firing_reader.specs.{Column.signed_of, Plain.BeginsAtEnd, Plain.Passes};

use super::field::{last_argument, next_argument};
use super::front::{begins_at_end, rest_after};
use keyed_hash::is_same;

// Ten arguments that are 0.
const ZEROS: &[u8] = b"0,0,0,0,0,0,0,0,0,0";

// Ten arguments that are empty.
const EMPTY: &[u8] = b",,,,,,,,,";

// Whether bytes begin with these.
#[inline(always)]
fn begins_with(bytes: &[u8], front: &[u8]) -> bool
    ensures long { result ≡ true → length front.now ≤ length bytes.now }
    ensures same { result ≡ true → take (length front.now) bytes.now ≡ front.now }
{
    bytes.len() >= front.len() && is_same(&bytes[..front.len()], front)
}

// What follows these bytes, if a row ends after them.
#[inline(always)]
fn after_last<'a>(bytes: &'a [u8], last: &[u8]) -> Option<&'a [u8]>
    ensures { IfSome result
        (λ rest. (bytes.now ≡ last.now ++ rest.now) × BeginsAtEnd rest.now) }
{
    if !begins_with(bytes, last) {
        return None;
    }
    let rest = rest_after(bytes, last.len());
    if !begins_at_end(rest) {
        return None;
    }
    Some(rest)
}

// The bytes after `count` arguments that are all `0`, or all empty.
#[inline(always)]
fn after_alike(bytes: &[u8], count: usize) -> Option<&[u8]>
    requires most { count ≤ 10 }
    requires least { 1 ≤ count }
    ensures { IfSome result (λ rest. EndsAlike bytes.now count rest.now) }
{
    match bytes {
        [b'0', ..] => after_last(bytes, &ZEROS[20 - 2 * count..]),
        [b',', ..] => after_last(bytes, &EMPTY[10 - count..]),
        _ => None,
    }
}

// Keeps an argument that a comma ends, and returns what comes after the comma.
#[inline(always)]
fn keep_next<'a>(all: &mut Vec<i64>, bytes: &'a [u8]) -> Option<&'a [u8]>
    ensures { MatchOption result (all.new.items ≡ all.old.items)
        (λ after. (field : List ℕ) × (value : ℤ) × Passes bytes.now (field ∷ []) after.now
        × (signed_of field ≡ Some value) × (all.new.items ≡ all.old.items ++ value ∷ [])) }
{
    let (value, after) = next_argument(bytes)?;
    all.push(value).ok()?;
    Some(after)
}

// Keeps an argument that ends its row, and returns the bytes from the row's end on.
#[inline(always)]
fn keep_last<'a>(all: &mut Vec<i64>, bytes: &'a [u8]) -> Option<&'a [u8]>
    ensures { MatchOption result (all.new.items ≡ all.old.items)
        (λ end. (field : List ℕ) × (value : ℤ) × Closes bytes.now (field ∷ []) end.now
        × (signed_of field ≡ Some value) × (all.new.items ≡ all.old.items ++ value ∷ [])) }
{
    let (value, end) = last_argument(bytes)?;
    all.push(value).ok()?;
    Some(end)
}

/// Keeps the ten arguments, without those at the end that are all `0`, or all empty. It returns
/// where they begin, how many they are, and what comes from the end of the row on.
#[inline(always)]
pub(crate) fn read_arguments<'a>(
    all: &mut Vec<i64>,
    bytes: &'a [u8],
) -> Option<(u32, u32, &'a [u8])>
    ensures { Gains all.old.items all.new.items result (λ p. (p.0 + p.1 ≤ length all.new.items)
        × ReadsArguments bytes.now p.2.now (ten (part all.new.items p.0 p.1))) }
{
    let first = u32::try_from(all.len()).ok()?;
    let mut rest = bytes;
    for n in 0..9u32 {
        if let Some(end) = after_alike(rest, 10 - n as usize) {
            return Some((first, n, end));
        }
        rest = keep_next(all, rest)?;
    }
    let end = keep_last(all, rest)?;
    Some((first, 10, end))
}

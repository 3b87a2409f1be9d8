//! Where the fields of a unit end.

ghost use Rattle.std.specs.Prelude.{◌≤◌, length};

use std::simd::prelude::*;

const COMMA: u8 = b',';

/// How many bytes there are up to and with the last of this many commas; 0 if there are fewer.
#[inline(always)]
pub(crate) fn end_of(bytes: &[u8], commas: u32) -> usize
    ensures { result ≤ length bytes.now }
{
    if bytes.len() >= 64 {
        let mut marks = u8x64::from_slice(&bytes[..64])
            .simd_eq(u8x64::splat(COMMA))
            .to_bitmask();
        for _ in 1..commas {
            marks &= marks.wrapping_sub(1);
        }
        let end = marks.trailing_zeros() as usize + 1;
        if end <= 64 {
            return end;
        }
    }
    end_after(bytes, commas).min(bytes.len())
}

// How many bytes there are up to the last of these commas, looked for byte by byte.
#[cold]
#[inline(never)]
fn end_after(bytes: &[u8], commas: u32) -> usize {
    let mut left = commas;
    for at in 0..bytes.len() {
        if bytes[at] == COMMA {
            left = left.saturating_sub(1);
            if left == 0 {
                return at + 1;
            }
        }
    }
    0
}

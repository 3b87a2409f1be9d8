//! Bytes up to a mark and after it, and which of them can be seen.

use memchr::memchr;

/// The bytes before the first such byte, and those after it, if there is one.
#[inline]
pub(crate) fn cut(bytes: &[u8], mark: u8) -> Option<(&[u8], &[u8])> {
    let at = memchr(mark, bytes)?;
    Some((&bytes[..at], &bytes[at + 1..]))
}

/// What comes after the spaces at the front.
#[inline(always)]
pub(crate) fn after_spaces(bytes: &[u8]) -> &[u8] {
    match bytes {
        [b' ', rest @ ..] => after_more_spaces(rest),
        _ => bytes,
    }
}

// What comes after further spaces at the front.
fn after_more_spaces(bytes: &[u8]) -> &[u8] {
    let count = bytes.iter().position(|byte| *byte != b' ');
    &bytes[count.unwrap_or(bytes.len())..]
}

/// Whether there is nothing but spaces and what can be seen.
pub(crate) fn is_visible(bytes: &[u8]) -> bool {
    bytes.iter().all(|byte| matches!(*byte, b' '..=b'~'))
}

//! Kinds of bytes, and how many of a kind there are at the front.

ghost use Rattle.std.specs.Prelude.{◌≡◌, ◌+◌, ◌≤◌, length, MatchOption};
ghost use Rattle.d_lexer.specs.Bytes as spec;
ghost use Rattle.d_lexer.specs.Steps.Scan as scan;

pub(crate) fn is_blank(b: u8) -> bool
    ensures { result ≡ spec.is_blank_byte b }
{
    b == b' ' || (9 <= b && b <= 13)
}

pub(crate) fn is_space(b: u8) -> bool
    ensures { result ≡ spec.is_space b }
{
    b == b' ' || b == b'\t'
}

pub(crate) fn is_word_start(b: u8) -> bool
    ensures { result ≡ spec.is_word_start b }
{
    b.is_ascii_alphabetic() || b == b'_'
}

pub(crate) fn is_word_byte(b: u8) -> bool
    ensures { result ≡ spec.is_word_byte b }
{
    b.is_ascii_alphanumeric() || b == b'_'
}

pub(crate) fn is_run_byte(b: u8) -> bool
    ensures { result ≡ spec.is_run_byte b }
{
    is_word_byte(b) || b == b'.' || b == b'-' || b == b'+' || b == b':' || b == b'*' || b == b'?'
}

/// How many bytes at the front continue a word.
pub(crate) fn word_len(bytes: &[u8]) -> usize
    ensures is { result ≡ scan.run_len spec.is_word_byte bytes.now }
    ensures within { result ≤ length bytes.now }
{
    bytes.iter().take_while(|b| is_word_byte(**b)).count()
}

/// How many bytes at the front continue a description run.
pub(crate) fn run_len(bytes: &[u8]) -> usize
    ensures is { result ≡ scan.run_len spec.is_run_byte bytes.now }
    ensures within { result ≤ length bytes.now }
{
    bytes.iter().take_while(|b| is_run_byte(**b)).count()
}

/// How many bytes the line has, without its line feed.
pub(crate) fn line_len(bytes: &[u8]) -> usize
    ensures is { result ≡ scan.run_len spec.is_inside bytes.now }
    ensures within { result ≤ length bytes.now }
{
    bytes.iter().take_while(|b| **b != b'\n').count()
}

/// How many bytes a comment has after its `/*`; none if it has no end.
#[tactic(auto, unfolding(crate::specs::Steps::Scan::comment_from), using(crate::proofs::Steps::longer_one))]
pub(crate) fn comment_len(bytes: &[u8]) -> Option<usize>
    ensures is { result ≡ scan.comment_from bytes.now }
    ensures small { MatchOption result (0 ≤ 0) (λ n. n ≤ length bytes.now + 1) }
{
    let mut rest = bytes;
    let mut n: usize = 0;
    while let [b, after @ ..] = rest {
        if *b == b'*' && next_is(b'/', after) {
            return Some(n + 2);
        }
        n += 1;
        rest = after;
    }
    None
}

pub(crate) fn next_is(c: u8, bytes: &[u8]) -> bool
    ensures { result ≡ spec.next_is c bytes.now }
{
    match bytes {
        [b, ..] => *b == c,
        [] => false,
    }
}

/// The byte that a backslash and this one mean.
pub(crate) fn escape_of(e: u8) -> Option<u8>
    ensures { result ≡ spec.escape_of e }
{
    match e {
        b'a' => Some(7),
        b'b' => Some(8),
        b'f' => Some(12),
        b'n' => Some(b'\n'),
        b'r' => Some(b'\r'),
        b't' => Some(b'\t'),
        b'v' => Some(11),
        b'\\' => Some(b'\\'),
        b'"' => Some(b'"'),
        b'\'' => Some(b'\''),
        b'?' => Some(b'?'),
        _ => None,
    }
}

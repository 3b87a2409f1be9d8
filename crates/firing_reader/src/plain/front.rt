//! What bytes begin with, and what comes after it.

ghost use Rattle.std.specs.Prelude.{◌≡◌, ◌≤◌, ◌∷◌, ◌++◌, true, false, ℕ, List, All, IfSome, length};
ghost use Rattle.std.specs.Prelude.{take};
ghost use Rattle.firing_reader.specs.Plain.{BeginsAtEnd, IsEnd};
ghost use Rattle.firing_reader.specs.Steps.Plain.{AreFirst, IsWordByte, JoinsField};

/// What comes after a comma.
pub(crate) fn after_comma(bytes: &[u8]) -> Option<&[u8]>
    ensures { IfSome result (λ rest. bytes.now ≡ 44 ∷ rest.now) }
{
    match bytes {
        [b',', rest @ ..] => Some(rest),
        _ => None,
    }
}

/// What comes after a minus.
pub(crate) fn after_minus(bytes: &[u8]) -> Option<&[u8]>
    ensures { IfSome result (λ rest. bytes.now ≡ 45 ∷ rest.now) }
{
    match bytes {
        [b'-', rest @ ..] => Some(rest),
        _ => None,
    }
}

/// Whether a byte ends a row: a line feed or a carriage return.
pub(crate) fn is_end(b: u8) -> bool
    ensures { result ≡ true → IsEnd b }
{
    b == b'\n' || b == b'\r'
}

/// Whether bytes begin at the end of a row.
#[inline(always)]
pub(crate) fn begins_at_end(bytes: &[u8]) -> bool
    ensures { result ≡ true → BeginsAtEnd bytes.now }
{
    match bytes {
        [end, ..] => is_end(*end),
        [] => false,
    }
}

/// The row after the end of the one before, and after the empty lines between them.
#[inline(always)]
pub(crate) fn after_ends(bytes: &[u8]) -> Option<&[u8]>
    ensures { IfSome result
        (λ line. (ends : List ℕ) × (bytes.now ≡ ends ++ line.now) × All IsEnd ends) }
{
    match bytes {
        [end, line @ ..] if is_end(*end) && starts_with_digit(line) => Some(line),
        [end, ..] if is_end(*end) => Some(after_empty_lines(bytes)),
        _ => None,
    }
}

// What comes after all ends of rows at the front, as after the two bytes that end a line.
#[inline(never)]
fn after_empty_lines(bytes: &[u8]) -> &[u8]
    ensures { (ends : List ℕ) × (bytes.now ≡ ends ++ result.now) × All IsEnd ends }
{
    let count = ends_at(bytes);
    rest_after(bytes, count)
}

/// How many bytes at the front end rows.
pub(crate) fn ends_at(bytes: &[u8]) -> usize
    ensures { AreFirst IsEnd bytes.now result }
{
    for at in 0..bytes.len() {
        if !is_end(bytes[at]) {
            return at;
        }
    }
    bytes.len()
}

/// What comes after the first `count` bytes.
pub(crate) fn rest_after(bytes: &[u8], count: usize) -> &[u8]
    requires { count ≤ length bytes.now }
    ensures { bytes.now ≡ take count bytes.now ++ result.now }
{
    &bytes[count..]
}

// Whether a byte ends a field, or calls for csv.
fn is_mark(b: u8) -> bool
    ensures { result ≡ false → JoinsField b }
{
    b == b',' || b == b'\n' || b == b'"' || b == b'\r'
}

/// How many bytes come before the first mark.
pub(crate) fn front(bytes: &[u8]) -> usize
    ensures { AreFirst JoinsField bytes.now result }
{
    for at in 0..bytes.len() {
        if is_mark(bytes[at]) {
            return at;
        }
    }
    bytes.len()
}

// Whether a byte is in ASCII, from the minus on.
fn is_word_byte(b: u8) -> bool
    ensures { result ≡ true → IsWordByte b }
{
    b'-' <= b && b < 128
}

/// How many bytes at the front are in ASCII, from the minus on.
pub(crate) fn word_front(bytes: &[u8]) -> usize
    ensures { AreFirst IsWordByte bytes.now result }
{
    for at in 0..bytes.len() {
        if !is_word_byte(bytes[at]) {
            return at;
        }
    }
    bytes.len()
}

/// Whether the first byte is a digit.
pub(crate) fn starts_with_digit(bytes: &[u8]) -> bool
    ensures { result ≡ true →
        (first : ℕ) × (rest : List ℕ) × (bytes.now ≡ first ∷ rest) × JoinsField first }
{
    match bytes {
        [first, ..] => first.is_ascii_digit(),
        [] => false,
    }
}

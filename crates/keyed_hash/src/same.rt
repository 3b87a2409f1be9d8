//! Whether bytes are the same, eight at a time.

ghost use Rattle.std.specs.Prelude.{◌≡◌, ◌≤◌, ◌<◌, ◌+◌, ◌↔◌, IsTrue, length, take, drop};
ghost use Rattle.std.specs.Int.{from_le_bytes, w32, w64};

/// The eight bytes from an index on, as one number.
///
/// ```text
/// word_at(b"abbbbbbbb", 1); // 0x6262_6262_6262_6262
/// ```
#[inline(always)]
pub fn word_at(bytes: &[u8], at: usize) -> u64
    requires { at + 8 ≤ length bytes.now }
    ensures { result ≡ from_le_bytes w64 (take 8 (drop at bytes.now)) }
{
    let word = &bytes[at..at + 8];
    u64::from_le_bytes([
        word[0], word[1], word[2], word[3], word[4], word[5], word[6], word[7],
    ])
}

// The four bytes from an index on, as one number.
#[inline(always)]
fn half_at(bytes: &[u8], at: usize) -> u32
    requires { at + 4 ≤ length bytes.now }
    ensures { result ≡ from_le_bytes w32 (take 4 (drop at bytes.now)) }
{
    let half = &bytes[at..at + 4];
    u32::from_le_bytes([half[0], half[1], half[2], half[3]])
}

/// Whether these are the same bytes.
///
/// ```text
/// is_same(b"read", b"read"); // true
/// ```
#[inline(always)]
pub fn is_same(left: &[u8], right: &[u8]) -> bool
    ensures { IsTrue result ↔ (left.now ≡ right.now) }
{
    let count = left.len();
    if count != right.len() {
        return false;
    }
    if count >= 8 {
        return is_same_long(left, right);
    }
    if count >= 4 {
        return is_same_middle(left, right);
    }
    left == right
}

// Whether four to seven bytes are the same, by halves of a word, which may overlap.
#[inline(always)]
fn is_same_middle(left: &[u8], right: &[u8]) -> bool
    requires as_many { length left.now ≡ length right.now }
    requires middle { (4 ≤ length left.now) × (length left.now < 8) }
    ensures { IsTrue result ↔ (left.now ≡ right.now) }
{
    let last = left.len() - 4;
    half_at(left, 0) == half_at(right, 0) && half_at(left, last) == half_at(right, last)
}

// Whether eight bytes or more are the same, by words. The last word may overlap the one before.
#[inline(always)]
fn is_same_long(left: &[u8], right: &[u8]) -> bool
    requires as_many { length left.now ≡ length right.now }
    requires long { 8 ≤ length left.now }
    ensures { IsTrue result ↔ (left.now ≡ right.now) }
{
    let last = left.len() - 8;
    for word in 0..left.len() / 8 {
        if word_at(left, 8 * word) != word_at(right, 8 * word) {
            return false;
        }
    }
    word_at(left, last) == word_at(right, last)
}

//! Texts that a field of CSV holds as they are.

ghost use Rattle.std.specs.Prelude.{◌≡◌, ◌↔◌, EachIndex, IfSome, IsTrue, slice_index, true};
ghost use Rattle.recording_rows.specs.Words.{is_plain_byte as is_plain, is_word};

use firings::MAX_TEXT;

/// A text of a trace without quotes, commas and what can't be seen.
#[derive(Clone, Copy)]
pub(crate) struct Word<'a> {
    /// Its bytes.
    pub(crate) bytes: &'a [u8],
    pub ghost word: { IsTrue (is_word bytes.now) },
}

/// Whether a field may have the byte without quotes around it.
pub(crate) fn is_plain_byte(byte: u8) -> bool
    ensures { result ≡ is_plain byte }
{
    32 <= byte && byte <= 126 && byte != b'"' && byte != b','
}

// Whether a field may have all these bytes without quotes around it.
fn are_plain(bytes: &[u8]) -> bool
    ensures { IsTrue result ↔ EachIndex bytes.now (λ k. is_plain (slice_index bytes.now k) ≡ true) }
{
    bytes.iter().all(|byte| is_plain_byte(*byte))
}

impl<'a> Word<'a> {
    /// The word of these bytes, if they are such a text.
    pub(crate) fn of(bytes: &'a [u8]) -> Option<Word<'a>>
        ensures { IfSome result (λ w. w.bytes.now ≡ bytes.now) }
    {
        if bytes.len() > MAX_TEXT || !are_plain(bytes) {
            return None;
        }
        Some(Word { bytes })
    }
}

//! A text of a firing.

ghost use Rattle.std.specs.Prelude.{◌≡◌, ◌≤◌, ◌+◌, List, ℕ, Some, is_some, length, nat_eq};
ghost use Rattle.std.specs.Prelude.{take, drop};
ghost use Rattle.std.specs.{Cmp.partial_equiv_from_equiv};
ghost use Rattle.std.specs.Cmp.Lexicographic.{nat_list_eq_equiv, pointwise};
ghost use Rattle.firings.specs.Texts.{text_of};

use crate::limits::MAX_TEXT;
use std::fmt;
use std::marker::Model;

/// A text of a firing, seen as its bytes: UTF-8, at most 255 and none of them zero. It borrows
/// them.
#[derive(Drop)]
pub struct Text<'a> {
    bytes: &'a [u8],
}

impl<'a> Model for Text<'a> {
    ghost Value = { List ℕ };

    ghost view = { λ t. t.bytes.now };

    ghost invariant = { λ t. text_of t.bytes.now ≡ Some t.bytes.now };
}

impl<'a> Text<'a> {
    /// The text of these bytes, if they are one.
    ///
    /// ```text
    /// Text::from_bytes(b"sort"); // Some
    /// Text::from_bytes(b"so\0rt"); // None: it has a zero byte
    /// ```
    pub fn from_bytes(bytes: &'a [u8]) -> Option<Text<'a>>
        ensures { result ≡ text_of bytes.now }
    {
        if !is_text(bytes) {
            return None;
        }
        Some(Text { bytes })
    }

    /// The text of these bytes, which are one.
    ///
    /// ```text
    /// let name = Text::of(b"sort");
    /// ```
    pub fn of(bytes: &'a [u8]) -> Text<'a>
        requires { text_of bytes.now ≡ Some bytes.now }
        ensures { result ≡ bytes.now }
    {
        Text { bytes }
    }

    /// The text of `count` bytes from an index on.
    #[inline(always)]
    pub(crate) fn within(bytes: &'a [u8], begin: usize, count: u8) -> Text<'a>
        requires inside { begin + count ≤ length bytes.now }
        requires text { text_of (take count (drop begin bytes.now))
            ≡ Some (take count (drop begin bytes.now)) }
        ensures { result ≡ take count (drop begin bytes.now) }
    {
        Text::of(&bytes[begin..begin + count as usize])
    }

    /// How many bytes it has.
    ///
    /// ```text
    /// Text::of(b"sort").count(); // 4
    /// ```
    pub fn count(&self) -> u8
        ensures value { result ≡ length self.now }
        ensures text { text_of self.now ≡ Some self.now }
    {
        self.as_bytes().len() as u8
    }

    /// Its bytes.
    ///
    /// ```text
    /// // of a firing whose execname is cat
    /// firing.execname.as_bytes(); // b"cat"
    /// ```
    pub fn as_bytes(&self) -> &[u8]
        ensures value { result.now ≡ self.now }
        ensures text { text_of self.now ≡ Some self.now }
    {
        self.bytes
    }
}

// Whether bytes are a text: UTF-8, at most 255 bytes and none of them zero.
fn is_text(bytes: &[u8]) -> bool
    ensures { result ≡ is_some (text_of bytes.now) }
{
    if bytes.len() > MAX_TEXT || bytes.contains(&0) {
        return false;
    }
    std::str::from_utf8(bytes).is_ok()
}

impl<'a> PartialEq for Text<'a> {
    ghost eq = { λ a b. pointwise nat_eq a b };

    ghost laws = { partial_equiv_from_equiv nat_list_eq_equiv };

    fn eq(&self, other: &Text<'a>) -> bool {
        self.as_bytes() == other.as_bytes()
    }
}

impl<'a> Eq for Text<'a> {
    ghost laws = { nat_list_eq_equiv };
}

impl<'a> fmt::Debug for Text<'a> {
    fn fmt<W: fmt::Write>(&self, f: &mut fmt::Formatter<W>) -> fmt::Result {
        match std::str::from_utf8(self.as_bytes()) {
            Ok(text) => write!(f, "{text:?}"),
            Err(_) => write!(f, "{:?}", self.as_bytes()),
        }
    }
}

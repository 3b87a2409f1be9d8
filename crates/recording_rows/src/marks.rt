//! The marks between the arguments of a call that strace shows by names.

// Where a byte is.
#[derive(Clone, Copy, PartialEq, Eq)]
enum Place {
    Plain,
    /// After a slash, which may begin a comment.
    Slash,
    /// In a text, and after a backslash in it.
    Text,
    Escape,
    /// In a comment, and after a star in it.
    Comment,
    Star,
}

/// The place in an argument list: how many brackets are open, and whether it is in a text.
#[derive(Drop)]
pub(crate) struct Marks {
    place: Place,
    open: u32,
}

impl Marks {
    /// The start of an argument list.
    pub(crate) fn new() -> Marks {
        Marks {
            place: Place::Plain,
            open: 0,
        }
    }

    /// Whether the next byte ends an argument. None if it isn't known here.
    pub(crate) fn ends(&mut self, byte: u8) -> Option<bool> {
        let was = self.place;
        self.place = match (was, byte) {
            (Place::Text, b'\\') => Place::Escape,
            (Place::Text, b'"') | (Place::Star, b'/') => Place::Plain,
            (Place::Text, _) | (Place::Escape, _) => Place::Text,
            (Place::Slash, b'*') => Place::Comment,
            (Place::Comment | Place::Star, b'*') => Place::Star,
            (Place::Comment | Place::Star, _) => Place::Comment,
            (_, b'"') => Place::Text,
            (_, b'/') => Place::Slash,
            _ => Place::Plain,
        };
        if was == Place::Plain || was == Place::Slash {
            return self.bracket(byte);
        }
        Some(false)
    }

    // Whether the next byte, outside of texts and comments, ends an argument. None if it isn't
    // known here.
    fn bracket(&mut self, byte: u8) -> Option<bool> {
        match byte {
            b'(' | b'[' | b'{' => self.open = self.open.checked_add(1)?,
            b',' | b')' if self.open == 0 => return Some(true),
            b')' | b']' | b'}' => self.open = self.open.checked_sub(1)?,
            b'<' => return None,
            _ => {}
        }
        Some(false)
    }
}

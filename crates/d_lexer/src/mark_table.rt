//! Marks, the longest first. A table for each length is looked up by the first byte.

ghost use Rattle.std.specs.Prelude.{◌≡◌, []};
ghost use Rattle.d_lexer.specs.{Steps.Marks.entry_of, Vocabulary.Body};
ghost use Rattle.d_lexer.specs.Steps.Scan.{mark_at, one_at, three_at, two_at};
ghost use Rattle.d_lexer.specs.Steps.Marks as spec;

use crate::place::Place;
use crate::token::Mark;

fn single(a: u8) -> Option<Mark>
    ensures { result ≡ entry_of spec.singles a }
{
    match a {
        b'+' => Some(Mark::Plus),
        b'-' => Some(Mark::Minus),
        b'*' => Some(Mark::Star),
        b'/' => Some(Mark::Slash),
        b'%' => Some(Mark::Percent),
        b'&' => Some(Mark::And),
        b'|' => Some(Mark::Or),
        b'^' => Some(Mark::Xor),
        b'~' => Some(Mark::Tilde),
        b'<' => Some(Mark::Less),
        b'>' => Some(Mark::Greater),
        b'!' => Some(Mark::Not),
        b'?' => Some(Mark::Question),
        b':' => Some(Mark::Colon),
        b'=' => Some(Mark::Assign),
        b'(' => Some(Mark::OpenParenthesis),
        b')' => Some(Mark::CloseParenthesis),
        b'[' => Some(Mark::OpenBracket),
        b']' => Some(Mark::CloseBracket),
        b'{' => Some(Mark::OpenBrace),
        b'}' => Some(Mark::CloseBrace),
        b',' => Some(Mark::Comma),
        b';' => Some(Mark::Semicolon),
        _ => None,
    }
}

fn of_head(a: u8) -> Option<Mark>
    ensures { result ≡ entry_of spec.of_head a }
{
    match a {
        b',' => Some(Mark::Comma),
        b'/' => Some(Mark::Slash),
        b'{' => Some(Mark::OpenBrace),
        b'}' => Some(Mark::CloseBrace),
        b';' => Some(Mark::Semicolon),
        _ => None,
    }
}

fn double(a: u8) -> Option<Mark>
    ensures { result ≡ entry_of spec.doubles a }
{
    match a {
        b'+' => Some(Mark::Increment),
        b'-' => Some(Mark::Decrement),
        b'<' => Some(Mark::ShiftLeft),
        b'>' => Some(Mark::ShiftRight),
        b'&' => Some(Mark::AndAnd),
        b'|' => Some(Mark::OrOr),
        b'^' => Some(Mark::XorXor),
        _ => None,
    }
}

fn setting(a: u8) -> Option<Mark>
    ensures { result ≡ entry_of spec.settings a }
{
    match a {
        b'<' => Some(Mark::LessEqual),
        b'>' => Some(Mark::GreaterEqual),
        b'=' => Some(Mark::Equal),
        b'!' => Some(Mark::NotEqual),
        b'+' => Some(Mark::AddAssign),
        b'-' => Some(Mark::SubtractAssign),
        b'*' => Some(Mark::MultiplyAssign),
        b'/' => Some(Mark::DivideAssign),
        b'%' => Some(Mark::RemainderAssign),
        b'&' => Some(Mark::AndAssign),
        b'|' => Some(Mark::OrAssign),
        b'^' => Some(Mark::XorAssign),
        _ => None,
    }
}

fn mark_one(place: Place, a: u8) -> Option<Mark>
    ensures { result ≡ spec.mark_one place a }
{
    match place {
        Place::Head => of_head(a),
        Place::Predicate if a == b'/' => Some(Mark::ClosingSlash),
        Place::Declaration | Place::Predicate | Place::Body => single(a),
    }
}

fn two(a: u8, b: u8) -> Option<Mark>
    ensures { result ≡ spec.mark_two Body a b }
{
    if b == b'=' {
        setting(a)
    } else if a == b {
        double(a)
    } else if b == b'>' && a == b'-' {
        Some(Mark::Arrow)
    } else {
        None
    }
}

fn three(a: u8, b: u8, c: u8) -> Option<Mark>
    ensures { result ≡ spec.mark_three Body a b c }
{
    if c != b'=' || a != b {
        None
    } else if a == b'<' {
        Some(Mark::ShiftLeftAssign)
    } else if a == b'>' {
        Some(Mark::ShiftRightAssign)
    } else {
        None
    }
}

fn mark_two(place: Place, a: u8, b: u8) -> Option<Mark>
    ensures { result ≡ spec.mark_two place a b }
{
    match place {
        Place::Head => None,
        Place::Declaration | Place::Predicate | Place::Body => two(a, b),
    }
}

fn mark_three(place: Place, a: u8, b: u8, c: u8) -> Option<Mark>
    ensures { result ≡ spec.mark_three place a b c }
{
    match place {
        Place::Head => None,
        Place::Declaration | Place::Predicate | Place::Body => three(a, b, c),
    }
}

#[tactic(auto, unfolding(crate::specs::Steps::Marks::mark_by))]
fn one_at(place: Place, a: u8) -> Option<(Mark, usize)>
    ensures { result ≡ one_at place a }
{
    match mark_one(place, a) {
        Some(mark) => Some((mark, 0)),
        None => None,
    }
}

#[tactic(auto, unfolding(crate::specs::Steps::Marks::mark_by))]
fn two_at(place: Place, a: u8, b: u8) -> Option<(Mark, usize)>
    ensures { result ≡ two_at place a b }
{
    match mark_two(place, a, b) {
        Some(mark) => Some((mark, 1)),
        None => one_at(place, a),
    }
}

#[tactic(auto, unfolding(crate::specs::Steps::Marks::mark_by))]
fn three_at(place: Place, a: u8, b: u8, c: u8) -> Option<(Mark, usize)>
    ensures { result ≡ three_at place a b c }
{
    match mark_three(place, a, b, c) {
        Some(mark) => Some((mark, 2)),
        None => two_at(place, a, b),
    }
}

/// The longest mark at the front, and its number of bytes after the first.
#[tactic(auto, unfolding(crate::specs::Steps::Scan::mark_at))]
pub(crate) fn mark_at(place: Place, a: u8, rest: &[u8]) -> Option<(Mark, usize)>
    ensures { result ≡ mark_at place a rest.now }
{
    match rest {
        [] => one_at(place, a),
        [b] => two_at(place, a, *b),
        [b, c, ..] => three_at(place, a, *b, *c),
    }
}

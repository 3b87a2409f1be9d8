//! What is at the front of the bytes.

ghost use Rattle.std.specs.Prelude.{◌≡◌, ◌≤◌, ◌<◌, length, [], IfOk, true, false};
ghost use Rattle.d_lexer.specs.{Vocabulary.is_ascii_digit};
ghost use Rattle.d_lexer.specs.Steps.Scan.{FitsFront, Gives, comment_from, comment_front, front_at};
ghost use Rattle.d_lexer.specs.Steps.Scan.{head_at, inside_at, mark_at, mark_front, option_front};
ghost use Rattle.d_lexer.specs.Steps.Scan.{run_number, tail, text_from, text_front, token_at};
ghost use Rattle.d_lexer.specs.Places as spec;

use crate::byte_kinds::{
    comment_len, is_blank, is_run_byte, is_word_start, line_len, next_is, word_len,
};
use crate::fault::{Flaw, MAX_BYTES, Stop};
use crate::mark_table::mark_at;
use crate::number::number_of;
use crate::option_line::is_option;
use crate::place::Place;
use crate::position::Position;
use crate::text_constant::text;
use crate::token::{Front, TokenKind};
use crate::words::{aggregation_front, run_front, word_front};
use std::alloc::Global;

fn number_front(b: u8, rest: &[u8]) -> Result<Front, Stop>
    requires { is_ascii_digit b ≡ true }
    ensures { Gives result (run_number b rest.now) }
{
    let n = word_len(rest);
    match number_of(b, &rest[..n]) {
        Some((value, suffix)) => Ok(Front::Token(TokenKind::Number { value, suffix }, n)),
        None => Err(Stop::Flawed(Flaw::Constant)),
    }
}

fn text_front(alloc: Global, rest: &[u8]) -> Result<Front, Stop>
    ensures { Gives result (text_front (text_from false rest.now)) }
{
    let (value, n) = text(alloc, rest)?;
    Ok(Front::Token(TokenKind::TextConstant(value), n))
}

fn mark_front(place: Place, b: u8, rest: &[u8]) -> Result<Front, Stop>
    ensures { Gives result (mark_front (mark_at place b rest.now)) }
{
    match mark_at(place, b, rest) {
        Some((mark, n)) => Ok(Front::Token(TokenKind::Mark(mark), n)),
        None => Err(Stop::Flawed(Flaw::BadByte)),
    }
}

#[tactic(auto, unfolding(crate::specs::Steps::Scan::inside_at))]
fn inside_at(alloc: Global, place: Place, b: u8, rest: &[u8]) -> Result<Front, Stop>
    ensures { Gives result (inside_at place b rest.now) }
{
    if is_word_start(b) {
        word_front(alloc, b, rest)
    } else if b.is_ascii_digit() {
        number_front(b, rest)
    } else if b == b'@' {
        aggregation_front(alloc, rest)
    } else if b == b'"' {
        text_front(alloc, rest)
    } else {
        mark_front(place, b, rest)
    }
}

#[tactic(auto, unfolding(crate::specs::Steps::Scan::head_at))]
fn head_at(alloc: Global, b: u8, rest: &[u8]) -> Result<Front, Stop>
    ensures { Gives result (head_at b rest.now) }
{
    if is_run_byte(b) {
        run_front(alloc, b, rest)
    } else {
        mark_front(Place::Head, b, rest)
    }
}

#[tactic(auto, unfolding(crate::specs::Steps::Scan::token_at))]
fn token_at(alloc: Global, place: Place, b: u8, rest: &[u8]) -> Result<Front, Stop>
    ensures { Gives result (token_at place b rest.now) }
{
    match place {
        Place::Head => head_at(alloc, b, rest),
        Place::Declaration | Place::Predicate | Place::Body => inside_at(alloc, place, b, rest),
    }
}

fn comment_front(rest: &[u8]) -> Result<Front, Stop>
    requires { length rest.now ≤ MAX_BYTES }
    ensures { Gives result (comment_front (comment_from rest.now)) }
{
    match comment_len(rest) {
        Some(n) => Ok(Front::Gap(n + 1)),
        None => Err(Stop::Flawed(Flaw::Unclosed)),
    }
}

fn option_front(rest: &[u8]) -> Result<Front, Stop>
    ensures { Gives result (option_front rest.now) }
{
    let n = line_len(rest);
    if is_option(&rest[..n]) {
        Ok(Front::Gap(n))
    } else {
        Err(Stop::Flawed(Flaw::OptionLine))
    }
}

fn tail(bytes: &[u8]) -> &[u8]
    ensures { result.now ≡ tail bytes.now }
{
    match bytes {
        [_, rest @ ..] => rest,
        [] => bytes,
    }
}

fn is_first(pos: Position, b: u8, rest: &[u8]) -> bool
    ensures { result ≡ spec.is_first pos b rest.now }
{
    pos.at == 0 && b == b'#' && next_is(b'!', rest)
}

fn is_hash(place: Place, pos: Position, b: u8) -> bool
    ensures { result ≡ spec.is_hash place pos b }
{
    matches!(place, Place::Head) && pos.fresh && b == b'#'
}

#[tactic(auto, unfolding(crate::specs::Steps::Scan::front_at))]
fn front_at(alloc: Global, place: Place, pos: Position, b: u8, rest: &[u8]) -> Result<Front, Stop>
    requires { length rest.now ≤ MAX_BYTES }
    ensures { Gives result (front_at place pos b rest.now) }
{
    if is_blank(b) {
        Ok(Front::Gap(0))
    } else if b == b'/' && next_is(b'*', rest) {
        comment_front(tail(rest))
    } else if is_first(pos, b, rest) {
        Ok(Front::Gap(line_len(rest)))
    } else if is_hash(place, pos, b) {
        option_front(rest)
    } else {
        token_at(alloc, place, b, rest)
    }
}

/// What is at the front, which is no longer than the bytes.
pub(crate) fn look(
    alloc: Global,
    place: Place,
    pos: Position,
    b: u8,
    rest: &[u8],
) -> Result<Front, Stop>
    requires { length rest.now ≤ MAX_BYTES }
    ensures is { Gives result (front_at place pos b rest.now) }
    ensures fits { IfOk result (λ f. FitsFront f (length rest.now)) }
{
    front_at(alloc, place, pos, b, rest)
}

//! Words: which are reserved, and which types they spell.

ghost use Rattle.std.specs.Prelude.{◌≡◌, ◌≤◌, ◌∷◌, length};
ghost use Rattle.d_parser.specs.{Vocabulary.bytes_eq};
ghost use Rattle.d_parser.specs.Words as spec;
ghost use Rattle.d_parser.specs.Steps.Words as steps;

use crate::tree::{DeclaredType, IntegerType};
use d_lexer::{Token, TokenKind};

/// What a word stands for.
#[derive(Clone, Copy)]
pub enum WordKind {
    /// Not reserved.
    Plain,
    /// `self`
    Thread,
    /// `this`
    Clause,
    /// `string`
    Text,
    Char,
    Short,
    Int,
    Long,
    Signed,
    Unsigned,
    /// `int8_t` to `uint64_t`
    Fixed(IntegerType),
}

fn is(word: &[u8], spelled: &str) -> bool
    ensures { result ≡ bytes_eq word.now spelled.now }
{
    word == spelled.as_bytes()
}

fn unsigned_kind(word: &[u8]) -> WordKind
    ensures { result ≡ steps.kind_among steps.unsigned_words word.now }
{
    if is(word, "uint8_t") {
        WordKind::Fixed(IntegerType::Uint8)
    } else if is(word, "uint16_t") {
        WordKind::Fixed(IntegerType::Uint16)
    } else if is(word, "uint32_t") {
        WordKind::Fixed(IntegerType::Uint32)
    } else if is(word, "uint64_t") {
        WordKind::Fixed(IntegerType::Uint64)
    } else {
        WordKind::Plain
    }
}

fn fixed_kind(word: &[u8]) -> WordKind
    ensures { result ≡ steps.kind_among steps.fixed_words word.now }
{
    if is(word, "int8_t") {
        WordKind::Fixed(IntegerType::Int8)
    } else if is(word, "int16_t") {
        WordKind::Fixed(IntegerType::Int16)
    } else if is(word, "int32_t") {
        WordKind::Fixed(IntegerType::Int32)
    } else if is(word, "int64_t") {
        WordKind::Fixed(IntegerType::Int64)
    } else {
        unsigned_kind(word)
    }
}

fn integer_kind(word: &[u8]) -> WordKind
    ensures { result ≡ steps.kind_among steps.integer_words word.now }
{
    if is(word, "char") {
        WordKind::Char
    } else if is(word, "short") {
        WordKind::Short
    } else if is(word, "int") {
        WordKind::Int
    } else if is(word, "long") {
        WordKind::Long
    } else if is(word, "signed") {
        WordKind::Signed
    } else if is(word, "unsigned") {
        WordKind::Unsigned
    } else {
        fixed_kind(word)
    }
}

/// What a word stands for.
pub(crate) fn word_kind(word: &[u8]) -> WordKind
    ensures { result ≡ spec.word_kind word.now }
{
    if is(word, "self") {
        WordKind::Thread
    } else if is(word, "this") {
        WordKind::Clause
    } else if is(word, "string") {
        WordKind::Text
    } else {
        integer_kind(word)
    }
}

/// What a token's word stands for.
pub(crate) fn kind_of(token: &Token) -> WordKind
    ensures { result ≡ spec.word_kind_of token.now.kind }
{
    match &token.kind {
        TokenKind::Word(word) => word_kind(word.as_slice()),
        _ => WordKind::Plain,
    }
}

impl WordKind {
    pub(crate) fn begins_type(self) -> bool
        ensures { result ≡ steps.begins_type self }
    {
        !matches!(self, WordKind::Plain | WordKind::Thread | WordKind::Clause)
    }
}

fn is_word(token: &Token) -> bool
    ensures { result ≡ steps.is_word token.now.kind }
{
    matches!(token.kind, TokenKind::Word(_))
}

// The tokens after the words at the front.
#[tactic(auto, unfolding(crate::specs::Steps::Words::after_run))]
fn after_run(tokens: &[Token]) -> &[Token]
    ensures is { result.now ≡ steps.after_run tokens.now }
    ensures shorter { length result.now ≤ length tokens.now }
{
    let mut rest = tokens;
    while let [token, after @ ..] = rest {
        if !is_word(token) {
            return rest;
        }
        rest = after;
    }
    rest
}

/// The words at the front, and what comes after them.
#[tactic(auto, using(crate::proofs::Runs::run_taken, crate::proofs::Runs::run_dropped))]
pub(crate) fn split_run(tokens: &[Token]) -> (&[Token], &[Token])
    ensures words { result.0.now ≡ steps.run tokens.now }
    ensures later { result.1.now ≡ steps.after_run tokens.now }
{
    let rest = after_run(tokens);
    tokens.split_at(tokens.len() - rest.len())
}

fn widths_of(first: WordKind, others: &[WordKind]) -> Option<(IntegerType, IntegerType)>
    ensures { result ≡ spec.widths_of (first ∷ others.now) }
{
    match (first, others) {
        (WordKind::Char, []) => Some((IntegerType::Int8, IntegerType::Uint8)),
        (WordKind::Short, [] | [WordKind::Int]) => Some((IntegerType::Int16, IntegerType::Uint16)),
        (WordKind::Int, []) => Some((IntegerType::Int32, IntegerType::Uint32)),
        (
            WordKind::Long,
            [] | [WordKind::Int] | [WordKind::Long] | [WordKind::Long, WordKind::Int],
        ) => { Some((IntegerType::Int64, IntegerType::Uint64)) }
        _ => None,
    }
}

fn widths_with(first: WordKind, others: &[Token]) -> Option<(IntegerType, IntegerType)>
    ensures { result ≡ steps.widths_with first others.now }
{
    match others {
        [] => widths_of(first, &[]),
        [a] => widths_of(first, &[kind_of(a)]),
        [a, b] => widths_of(first, &[kind_of(a), kind_of(b)]),
        _ => None,
    }
}

fn signed_from(others: &[Token]) -> Option<DeclaredType>
    ensures { result ≡ steps.signed_from others.now }
{
    match others {
        [] => Some(DeclaredType::Integer(IntegerType::Int32)),
        [next, rest @ ..] => {
            let (signed, _) = widths_with(kind_of(next), rest)?;
            Some(DeclaredType::Integer(signed))
        }
    }
}

fn unsigned_from(others: &[Token]) -> Option<DeclaredType>
    ensures { result ≡ steps.unsigned_from others.now }
{
    match others {
        [] => Some(DeclaredType::Integer(IntegerType::Uint32)),
        [next, rest @ ..] => {
            let (_, unsigned) = widths_with(kind_of(next), rest)?;
            Some(DeclaredType::Integer(unsigned))
        }
    }
}

fn type_from(first: WordKind, others: &[Token]) -> Option<DeclaredType>
    ensures { result ≡ steps.type_from first others.now }
{
    match first {
        WordKind::Signed => signed_from(others),
        WordKind::Unsigned => unsigned_from(others),
        WordKind::Fixed(fixed) if others.is_empty() => Some(DeclaredType::Integer(fixed)),
        WordKind::Text if others.is_empty() => Some(DeclaredType::Text),
        _ => {
            let (signed, _) = widths_with(first, others)?;
            Some(DeclaredType::Integer(signed))
        }
    }
}

/// The type that words spell.
pub(crate) fn type_of(words: &[Token]) -> Option<DeclaredType>
    ensures { result ≡ spec.type_of_words words.now }
{
    match words {
        [first, others @ ..] => type_from(kind_of(first), others),
        [] => None,
    }
}

/// How many words at the front spell a type together, up to the first that can't follow.
pub(crate) fn type_length(words: &[Token]) -> usize
    ensures { result ≤ length words.now }
{
    for count in 0..words.len() {
        if type_of(&words[..count + 1]).is_none() {
            return count;
        }
    }
    words.len()
}

/// The integer type that words spell.
pub(crate) fn integer_type(words: &[Token]) -> Option<IntegerType>
    ensures { result ≡ steps.integer_type words.now }
{
    match type_of(words) {
        Some(DeclaredType::Integer(integer)) => Some(integer),
        _ => None,
    }
}

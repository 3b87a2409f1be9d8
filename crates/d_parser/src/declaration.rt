//! Declarations.

ghost use Rattle.d_parser.specs.{Tree.declaration_of, Reading.Gives};
ghost use Rattle.d_parser.specs.Steps.ReadingScripts as spec;

use crate::fault::ParseFault;
use crate::marks::{is_at, tail};
use crate::names::{after_mark, syntax_at, tokens_after};
use crate::tree::{Declaration, DeclaredType};
use crate::words::{split_run, type_length, type_of};
use d_lexer::{ByteString, Mark, Token, TokenKind};
use std::alloc::Global;

// The type that the words at the front spell.
#[tactic(auto, unfolding(crate::specs::Steps::ReadingScripts::declared_type))]
fn declared_type(tokens: &[Token]) -> Result<(DeclaredType, &[Token]), ParseFault>
    ensures { Gives (λ x. (x.0, x.1.now)) result (spec.declared_type tokens.now) }
{
    let (words, rest) = split_run(tokens);
    match type_of(words) {
        Some(declared) => Ok((declared, rest)),
        None => Err(syntax_at(tokens_after(type_length(words), tokens))),
    }
}

// The types after commas, and the closing bracket.
#[cycle(types)]
#[tactic(auto, using(crate::proofs::Steps::types_step, crate::proofs::Steps::types_none))]
fn types_tail(
    turns: usize,
    all: Vec<DeclaredType>,
    tokens: &[Token],
) -> Result<(Vec<DeclaredType>, &[Token]), ParseFault>
    ensures { Gives (λ x. (x.0.items, x.1.now)) result
        (spec.types_tail turns all.items tokens.now) }
{
    if turns == 0 {
        return Err(syntax_at(tokens));
    }
    types_tail_on(turns - 1, all, tokens)
}

#[cycle(types)]
#[tactic(auto, unfolding(crate::specs::Steps::ReadingScripts::types_tail_on))]
fn types_tail_on(
    turns: usize,
    all: Vec<DeclaredType>,
    tokens: &[Token],
) -> Result<(Vec<DeclaredType>, &[Token]), ParseFault>
    ensures { Gives (λ x. (x.0.items, x.1.now)) result
        (spec.types_tail_on (spec.types_tail turns) all.items tokens.now) }
{
    if !is_at(Mark::Comma, tokens) {
        return after_mark(Mark::CloseBracket, tokens).map(|rest| (all, rest));
    }
    let mut all = all;
    let (next, rest) = declared_type(tail(tokens))?;
    all.push(next)?;
    types_tail(turns, all, rest)
}

// Types in brackets, or nothing.
#[tactic(auto, unfolding(crate::specs::Steps::ReadingScripts::key_types))]
fn key_types(
    alloc: Global,
    fuel: usize,
    tokens: &[Token],
) -> Result<(Vec<DeclaredType>, &[Token]), ParseFault>
    ensures { Gives (λ x. (x.0.items, x.1.now)) result (spec.key_types fuel tokens.now) }
{
    if !is_at(Mark::OpenBracket, tokens) {
        return Ok((Vec::new(alloc), tokens));
    }
    let (first, rest) = declared_type(tail(tokens))?;
    let mut all = Vec::new(alloc);
    all.push(first)?;
    types_tail(fuel, all, rest)
}

fn word_of(alloc: Global, token: &Token) -> Result<ByteString, ParseFault>
    ensures ok { Gives (λ x. x) result (spec.some_word token.now.kind) }
{
    let bytes = match &token.kind {
        TokenKind::Word(word) => word.as_slice(),
        _ => b"",
    };
    let word = ByteString::from_slice(alloc, bytes)?;
    Ok(word)
}

// The tokens from the first that can't follow, if these words aren't a type and a name.
fn rest_without_name<'a>(words: &[Token], tokens: &'a [Token]) -> &'a [Token] {
    let count = type_length(words);
    if count == 0 || count == words.len() {
        tokens_after(count, tokens)
    } else {
        tokens_after(count + 1, tokens)
    }
}

// A type and a word.
#[tactic(auto, unfolding(crate::specs::Steps::ReadingScripts::typed_name))]
fn typed_name(
    alloc: Global,
    tokens: &[Token],
) -> Result<(DeclaredType, ByteString, &[Token]), ParseFault>
    ensures { Gives (λ x. ((x.0, x.1), x.2.now)) result (spec.typed_name tokens.now) }
{
    let (words, rest) = split_run(tokens);
    let [types @ .., name] = words else {
        return Err(syntax_at(tokens));
    };
    match type_of(types) {
        Some(declared) => {
            let name = word_of(alloc, name)?;
            Ok((declared, name, rest))
        }
        None => Err(syntax_at(rest_without_name(words, tokens))),
    }
}

/// What `self` declares.
#[tactic(auto, unfolding(crate::specs::Steps::ReadingScripts::of_thread))]
pub(crate) fn of_thread<'a>(
    alloc: Global,
    fuel: usize,
    line: usize,
    tokens: &'a [Token],
) -> Result<(Declaration, &'a [Token]), ParseFault>
    ensures { Gives (λ x. (declaration_of x.0, x.1.now)) result
        (spec.of_thread fuel line tokens.now) }
{
    let (declared, name, rest) = typed_name(alloc, tokens)?;
    let keys = key_types(alloc, fuel, rest);
    let (name, (keys, rest)) = keys.map(|read| (name, read))?;
    after_mark(Mark::Semicolon, rest).map(|rest| {
        let declaration = Declaration::Thread {
            line,
            declared,
            name,
            keys,
        };
        (declaration, rest)
    })
}

/// What `this` declares.
#[tactic(auto, unfolding(crate::specs::Steps::ReadingScripts::of_clause))]
pub(crate) fn of_clause(
    alloc: Global,
    line: usize,
    tokens: &[Token],
) -> Result<(Declaration, &[Token]), ParseFault>
    ensures { Gives (λ x. (declaration_of x.0, x.1.now)) result (spec.of_clause line tokens.now) }
{
    let (declared, name, rest) = typed_name(alloc, tokens)?;
    after_mark(Mark::Semicolon, rest).map(|rest| {
        let declaration = Declaration::Clause {
            line,
            declared,
            name,
        };
        (declaration, rest)
    })
}

//! Clauses: descriptions, predicate and statements.

ghost use Rattle.std.specs.Prelude.{◌≡◌, ◌++◌, ◌∷◌, [], IfOk, Some};
ghost use Rattle.d_parser.specs.Tree.{clause_of, predicate_of, stmts_of};
ghost use Rattle.d_parser.specs.Reading.{Gives};
ghost use Rattle.d_parser.specs.Steps.ReadingScripts as spec;

use crate::description::description_of;
use crate::expression::expr;
use crate::fault::{AT_END, ParseFault};
use crate::marks::{ASSIGNMENT, is_at, tail};
use crate::names::{after_mark, syntax_at};
use crate::statement::statements;
use crate::tree::{Clause, Description, Expr, Stmt};
use d_lexer::{Mark, Token, TokenKind};
use std::alloc::{AllocError, Global};

#[tactic(auto, unfolding(crate::specs::Steps::ReadingScripts::description))]
fn description(alloc: Global, tokens: &[Token]) -> Result<(Description, &[Token]), ParseFault>
    ensures { Gives (λ x. (x.0, x.1.now)) result (spec.description tokens.now) }
{
    let [token, rest @ ..] = tokens else {
        return Err(ParseFault::Syntax { line: AT_END });
    };
    match &token.kind {
        TokenKind::DescriptionRun(run) => {
            let description = description_of(alloc, run.as_slice(), token.line)?;
            Ok((description, rest))
        }
        _ => Err(ParseFault::Syntax { line: token.line }),
    }
}

// Adds a description at the end.
fn put(all: &mut Vec<Description>, next: Description) -> Result<(), AllocError>
    ensures ok { IfOk result (λ _. all.new.items ≡ all.old.items ++ next ∷ []) }
{
    all.push(next)?;
    Ok(())
}

// The descriptions after commas.
#[cycle(descriptions)]
#[tactic(auto, using(crate::proofs::Steps::descriptions))]
fn descriptions_tail<'a>(
    alloc: Global,
    turns: usize,
    all: Vec<Description>,
    tokens: &'a [Token],
) -> Result<(Vec<Description>, &'a [Token]), ParseFault>
    ensures { Gives (λ x. (x.0.items, x.1.now)) result
        (spec.descriptions_tail turns all.items tokens.now) }
{
    if turns == 0 {
        return Err(syntax_at(tokens));
    }
    descriptions_tail_on(alloc, turns - 1, all, tokens)
}

#[cycle(descriptions)]
#[tactic(auto, unfolding(crate::specs::Steps::ReadingScripts::descriptions_tail_on))]
fn descriptions_tail_on<'a>(
    alloc: Global,
    turns: usize,
    all: Vec<Description>,
    tokens: &'a [Token],
) -> Result<(Vec<Description>, &'a [Token]), ParseFault>
    ensures { Gives (λ x. (x.0.items, x.1.now)) result
        (spec.descriptions_tail_on (spec.descriptions_tail turns) all.items tokens.now) }
{
    if !is_at(Mark::Comma, tokens) {
        return Ok((all, tokens));
    }
    let mut all = all;
    let (next, rest) = description(alloc, tail(tokens))?;
    put(&mut all, next)?;
    descriptions_tail(alloc, turns, all, rest)
}

#[tactic(auto, unfolding(crate::specs::Steps::ReadingScripts::descriptions_reader))]
fn descriptions(
    alloc: Global,
    fuel: usize,
    tokens: &[Token],
) -> Result<(Vec<Description>, &[Token]), ParseFault>
    ensures { Gives (λ x. (x.0.items, x.1.now)) result (spec.descriptions_reader fuel tokens.now) }
{
    let (first, rest) = description(alloc, tokens)?;
    let mut all = Vec::new(alloc);
    put(&mut all, first)?;
    descriptions_tail(alloc, fuel, all, rest)
}

#[tactic(auto, unfolding(crate::specs::Steps::ReadingScripts::predicate_reader))]
fn predicate(
    alloc: Global,
    fuel: usize,
    tokens: &[Token],
) -> Result<(Option<Expr>, &[Token]), ParseFault>
    ensures { Gives (λ x. (predicate_of x.0, x.1.now)) result
        (spec.predicate_reader fuel tokens.now) }
{
    if !is_at(Mark::Slash, tokens) {
        return Ok((None, tokens));
    }
    let (test, rest) = expr(alloc, fuel, ASSIGNMENT, tail(tokens))?;
    after_mark(Mark::ClosingSlash, rest).map(|rest| (Some(test), rest))
}

/// A clause at the front.
#[tactic(auto, unfolding(crate::specs::Steps::ReadingScripts::clause_reader))]
pub(crate) fn clause(
    alloc: Global,
    fuel: usize,
    tokens: &[Token],
) -> Result<(Clause, &[Token]), ParseFault>
    ensures { Gives (λ x. (clause_of x.0, x.1.now)) result (spec.clause_reader fuel tokens.now) }
{
    let (descriptions, rest) = descriptions(alloc, fuel, tokens)?;
    let predicate = predicate(alloc, fuel, rest);
    let (descriptions, (predicate, rest)) = predicate.map(|read| (descriptions, read))?;
    let block = block(alloc, fuel, rest);
    block.map(|(statements, rest)| {
        let clause = Clause {
            descriptions,
            predicate,
            statements,
        };
        (clause, rest)
    })
}

// The statements in braces.
fn block(alloc: Global, fuel: usize, tokens: &[Token]) -> Result<(Vec<Stmt>, &[Token]), ParseFault>
    ensures { Gives (λ x. (stmts_of x.0.items, x.1.now)) result (spec.block fuel tokens.now) }
{
    let rest = after_mark(Mark::OpenBrace, tokens)?;
    statements(alloc, fuel, rest)
}

//! Statements.

ghost use Rattle.d_parser.specs.{Tree.stmt_of, Tree.stmts_of, Reading.Gives};
ghost use Rattle.d_parser.specs.Steps.ReadingScripts as spec;

use crate::expression::{arguments, expr, keys};
use crate::fault::{AT_END, ParseFault};
use crate::marks::{ASSIGNMENT, is_at, tail};
use crate::names::{after_mark, syntax_at};
use crate::tree::Stmt;
use d_lexer::{ByteString, Mark, Token, TokenKind};
use std::alloc::Global;

// A word, reserved or not.
#[tactic(auto, unfolding(crate::specs::Steps::ReadingScripts::any_word))]
fn any_word(alloc: Global, tokens: &[Token]) -> Result<(ByteString, &[Token]), ParseFault>
    ensures { Gives (λ x. (x.0, x.1.now)) result (spec.any_word tokens.now) }
{
    let [token, rest @ ..] = tokens else {
        return Err(ParseFault::Syntax { line: AT_END });
    };
    match &token.kind {
        TokenKind::Word(word) => {
            let name = ByteString::from_slice(alloc, word.as_slice())?;
            Ok((name, rest))
        }
        _ => Err(ParseFault::Syntax { line: token.line }),
    }
}

// The word between `=` and an opening parenthesis.
#[tactic(auto, unfolding(crate::specs::Steps::ReadingScripts::aggregating_word))]
fn aggregating_word(alloc: Global, tokens: &[Token]) -> Result<(ByteString, &[Token]), ParseFault>
    ensures { Gives (λ x. (x.0, x.1.now)) result (spec.aggregating_word tokens.now) }
{
    let rest = after_mark(Mark::Assign, tokens)?;
    let (function, rest) = any_word(alloc, rest)?;
    after_mark(Mark::OpenParenthesis, rest).map(|rest| (function, rest))
}

// An aggregation statement, after its name.
#[tactic(auto, unfolding(crate::specs::Steps::ReadingScripts::aggregation))]
fn aggregation<'a>(
    alloc: Global,
    fuel: usize,
    line: usize,
    name: &ByteString,
    tokens: &'a [Token],
) -> Result<(Stmt, &'a [Token]), ParseFault>
    ensures { Gives (λ x. (stmt_of x.0, x.1.now)) result
        (spec.aggregation fuel line name.now tokens.now) }
{
    let (keys, rest) = keys(alloc, fuel, tokens)?;
    let function = aggregating_word(alloc, rest);
    let (keys, (function, rest)) = function.map(|read| (keys, read))?;
    let arguments = arguments(alloc, fuel, rest);
    let (keys, function, (arguments, rest)) = arguments.map(|read| (keys, function, read))?;
    let name = ByteString::from_slice(alloc, name.as_slice());
    let statement = name.map(|name| Stmt::Aggregation {
        line,
        name,
        keys,
        function,
        arguments,
    })?;
    Ok((statement, rest))
}

fn expression<'a>(
    alloc: Global,
    fuel: usize,
    tokens: &'a [Token],
) -> Result<(Stmt, &'a [Token]), ParseFault>
    ensures { Gives (λ x. (stmt_of x.0, x.1.now)) result (spec.expression fuel tokens.now) }
{
    let (expression, rest) = expr(alloc, fuel, ASSIGNMENT, tokens)?;
    Ok((Stmt::Expression(expression), rest))
}

#[tactic(auto, unfolding(crate::specs::Steps::ReadingScripts::stmt))]
fn statement<'a>(
    alloc: Global,
    fuel: usize,
    tokens: &'a [Token],
) -> Result<(Stmt, &'a [Token]), ParseFault>
    ensures { Gives (λ x. (stmt_of x.0, x.1.now)) result (spec.stmt fuel tokens.now) }
{
    let [token, rest @ ..] = tokens else {
        return Err(ParseFault::Syntax { line: AT_END });
    };
    match &token.kind {
        TokenKind::AggregationName(name) => aggregation(alloc, fuel, token.line, name, rest),
        _ => expression(alloc, fuel, tokens),
    }
}

// Adds the statement at the front, if there is one, to these.
#[tactic(auto, unfolding(crate::specs::Steps::ReadingScripts::optional_stmt), using(crate::proofs::Rows::stmts_push))]
fn optional_statement<'a>(
    alloc: Global,
    fuel: usize,
    all: Vec<Stmt>,
    tokens: &'a [Token],
) -> Result<(Vec<Stmt>, &'a [Token]), ParseFault>
    ensures { Gives (λ x. (stmts_of x.0.items, x.1.now)) result
        (spec.optional_stmt fuel (stmts_of all.items) tokens.now) }
{
    if is_at(Mark::Semicolon, tokens) || is_at(Mark::CloseBrace, tokens) {
        return Ok((all, tokens));
    }
    let next = statement(alloc, fuel, tokens);
    let (mut all, (next, rest)) = next.map(|next| (all, next))?;
    all.push(next)?;
    Ok((all, rest))
}

// The statements after semicolons, and the closing brace.
#[tactic(auto, using(crate::proofs::Steps::stmts))]
fn statements_tail<'a>(
    alloc: Global,
    fuel: usize,
    all: Vec<Stmt>,
    tokens: &'a [Token],
) -> Result<(Vec<Stmt>, &'a [Token]), ParseFault>
    ensures { Gives (λ x. (stmts_of x.0.items, x.1.now)) result
        (spec.stmts_tail fuel fuel (stmts_of all.items) tokens.now) }
{
    let mut all = all;
    let mut rest = tokens;
    for _ in 0..fuel {
        if is_at(Mark::CloseBrace, rest) {
            return Ok((all, tail(rest)));
        }
        let first = after_mark(Mark::Semicolon, rest)?;
        let (longer, later) = optional_statement(alloc, fuel, all, first)?;
        all = longer;
        rest = later;
    }
    Err(syntax_at(rest))
}

/// The statements of a clause, after its opening brace.
#[tactic(auto, unfolding(crate::specs::Steps::ReadingScripts::stmts))]
pub(crate) fn statements<'a>(
    alloc: Global,
    fuel: usize,
    tokens: &'a [Token],
) -> Result<(Vec<Stmt>, &'a [Token]), ParseFault>
    ensures { Gives (λ x. (stmts_of x.0.items, x.1.now)) result (spec.stmts fuel tokens.now) }
{
    let (all, rest) = optional_statement(alloc, fuel, Vec::new(alloc), tokens)?;
    statements_tail(alloc, fuel, all, rest)
}

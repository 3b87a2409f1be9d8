//! Expressions, by precedence climbing. `fuel` bounds how deep the calls go; a list never needs
//! more than its length. Functions that aren't inlined keep what one level takes of the stack
//! small: the deepest tree fits in 2 MiB.

ghost use Rattle.std.specs.Prelude.{◌≡◌};
ghost use Rattle.d_parser.specs.{Reading.Gives, Words.word_kind};
ghost use Rattle.d_parser.specs.Tree.{tree_of, trees_of};
ghost use Rattle.d_parser.specs.Steps.Tree.{target_of};
ghost use Rattle.d_parser.specs.Steps.Reading as steps;

use crate::build;
use crate::fault::{AT_END, ParseFault};
use crate::marks::{
    ASSIGNMENT, CONDITION, Follow, OR, Prefix, UNARY, follow_at, is_at, prefix_of, tail,
};
use crate::names::{Word, after_mark, cast_type, is_typed, syntax_at, variable};
use crate::operators::Step;
use crate::tree::{Constant, Expr, Target, Variable};
use crate::words::{WordKind, word_kind};
use d_lexer::{ByteString, Mark, Token, TokenKind};
use std::alloc::Global;

// Expressions separated by commas, and the mark that closes them.
#[cycle(expression)]
#[tactic(auto, unfolding(crate::specs::Steps::Reading::closed_list))]
fn closed_list<'a>(
    alloc: Global,
    fuel: usize,
    close: Mark,
    tokens: &'a [Token],
) -> Result<(Vec<Expr>, &'a [Token]), ParseFault>
    ensures { Gives (λ x. (trees_of x.0.items, x.1.now)) result
        (steps.closed_list (steps.readers fuel) close tokens.now) }
{
    let (first, rest) = expr(alloc, fuel, ASSIGNMENT, tokens)?;
    let mut all = Vec::new(alloc);
    all.push(first)?;
    let (all, rest) = exprs_tail(alloc, fuel, all, rest)?;
    after_mark(close, rest).map(|rest| (all, rest))
}

#[cycle(expression)]
#[tactic(auto, unfolding(crate::specs::Steps::Reading::keys))]
pub(crate) fn keys<'a>(
    alloc: Global,
    fuel: usize,
    tokens: &'a [Token],
) -> Result<(Vec<Expr>, &'a [Token]), ParseFault>
    ensures { Gives (λ x. (trees_of x.0.items, x.1.now)) result
        (steps.keys (steps.readers fuel) tokens.now) }
{
    match follow_at(tokens) {
        Follow::Bracket => closed_list(alloc, fuel, Mark::CloseBracket, tail(tokens)),
        _ => Ok((Vec::new(alloc), tokens)),
    }
}

/// The arguments of a call, after its opening parenthesis.
#[cycle(expression)]
#[tactic(auto, unfolding(crate::specs::Steps::Reading::arguments))]
pub(crate) fn arguments<'a>(
    alloc: Global,
    fuel: usize,
    tokens: &'a [Token],
) -> Result<(Vec<Expr>, &'a [Token]), ParseFault>
    ensures { Gives (λ x. (trees_of x.0.items, x.1.now)) result
        (steps.arguments (steps.readers fuel) tokens.now) }
{
    if is_at(Mark::CloseParenthesis, tokens) {
        return Ok((Vec::new(alloc), tail(tokens)));
    }
    closed_list(alloc, fuel, Mark::CloseParenthesis, tokens)
}

#[cycle(expression)]
#[tactic(auto, unfolding(crate::specs::Steps::Reading::with_keys))]
fn with_keys<'a>(
    alloc: Global,
    fuel: usize,
    variable: Variable,
    tokens: &'a [Token],
) -> Result<(Target, &'a [Token]), ParseFault>
    ensures { Gives (λ x. (target_of x.0, x.1.now)) result
        (steps.with_keys (steps.readers fuel) variable tokens.now) }
{
    if variable.is_clause_local() {
        return Ok((build::target(variable, Vec::new(alloc)), tokens));
    }
    let (keys, rest) = keys(alloc, fuel, tokens)?;
    Ok((build::target(variable, keys), rest))
}

// A target, by its first word.
#[cycle(expression)]
#[tactic(auto, unfolding(crate::specs::Steps::Reading::target))]
fn target<'a>(
    alloc: Global,
    fuel: usize,
    word: Word<'_>,
    tokens: &'a [Token],
) -> Result<(Target, &'a [Token]), ParseFault>
    ensures { Gives (λ x. (target_of x.0, x.1.now)) result
        (steps.target (steps.readers fuel)
        (word_kind word.entry.name.now) word.entry.name.now word.entry.line
        tokens.now) }
{
    let (variable, rest) = variable(alloc, word, tokens)?;
    with_keys(alloc, fuel, variable, rest)
}

// What follows a target: `++`, `--`, an assignment, or nothing.
#[cycle(expression)]
#[inline(never)]
#[tactic(auto, unfolding(crate::specs::Steps::Reading::target_tail))]
fn target_tail<'a>(
    alloc: Global,
    fuel: usize,
    level: u8,
    target: Target,
    tokens: &'a [Token],
) -> Result<(Expr, &'a [Token]), ParseFault>
    ensures { Gives (λ x. (tree_of x.0, x.1.now)) result
        (steps.target_tail (steps.readers fuel) level (target_of target) tokens.now) }
{
    match follow_at(tokens) {
        Follow::Step(step) => Ok((build::after(target, step), tail(tokens))),
        Follow::Assign(operator) => {
            if level > ASSIGNMENT {
                return Ok((build::read(target), tokens));
            }
            let value = expr(alloc, fuel, ASSIGNMENT, tail(tokens));
            let (target, (value, rest)) = value.map(|value| (target, value))?;
            let whole = build::assign(alloc, operator, target, value)?;
            Ok((whole, rest))
        }
        _ => Ok((build::read(target), tokens)),
    }
}

// A call, or what a target begins.
#[cycle(expression)]
#[inline(never)]
#[tactic(auto, unfolding(crate::specs::Steps::Reading::post_at_name))]
fn post_at_name<'a>(
    alloc: Global,
    fuel: usize,
    level: u8,
    word: Word<'_>,
    tokens: &'a [Token],
) -> Result<(Expr, &'a [Token]), ParseFault>
    ensures { Gives (λ x. (tree_of x.0, x.1.now)) result
        (steps.post_at_name
        (steps.readers fuel) level word.entry.name.now word.entry.line tokens.now) }
{
    if begins_call(word.name, tokens) {
        let (all, rest) = arguments(alloc, fuel, tail(tokens))?;
        let function = ByteString::from_slice(alloc, word.name.as_slice())?;
        return Ok((build::call(word.line, function, all), rest));
    }
    let (target, rest) = target(alloc, fuel, word, tokens)?;
    target_tail(alloc, fuel, level, target, rest)
}

fn begins_call(name: &ByteString, tokens: &[Token]) -> bool
    ensures { result ≡ steps.begins_call name.now tokens.now }
{
    match (word_kind(name.as_slice()), follow_at(tokens)) {
        (WordKind::Plain, Follow::Parenthesis) => true,
        _ => false,
    }
}

#[cycle(expression)]
#[inline(never)]
#[tactic(auto, unfolding(crate::specs::Steps::Reading::unary_at_cast))]
fn cast<'a>(
    alloc: Global,
    fuel: usize,
    line: usize,
    tokens: &'a [Token],
) -> Result<(Expr, &'a [Token]), ParseFault>
    ensures { Gives (λ x. (tree_of x.0, x.1.now)) result
        (steps.unary_at_cast (steps.readers fuel) line tokens.now) }
{
    let (to, rest) = cast_type(tokens)?;
    let (operand, rest) = expr(alloc, fuel, UNARY, rest)?;
    let whole = build::cast(alloc, line, to, operand)?;
    Ok((whole, rest))
}

// A cast or an expression, after the opening parenthesis.
#[cycle(expression)]
#[inline(never)]
#[tactic(auto, unfolding(crate::specs::Steps::Reading::unary_in_parentheses))]
fn unary_in_parentheses<'a>(
    alloc: Global,
    fuel: usize,
    line: usize,
    tokens: &'a [Token],
) -> Result<(Expr, &'a [Token]), ParseFault>
    ensures { Gives (λ x. (tree_of x.0, x.1.now)) result
        (steps.unary_in_parentheses (steps.readers fuel) line tokens.now) }
{
    if is_typed(tokens) {
        return cast(alloc, fuel, line, tokens);
    }
    let (inner, rest) = expr(alloc, fuel, ASSIGNMENT, tokens)?;
    followed(Mark::CloseParenthesis, inner, rest)
}

// An expression that a mark has to follow, and the tokens after the mark.
fn followed(mark: Mark, inner: Expr, tokens: &[Token]) -> Result<(Expr, &[Token]), ParseFault>
    ensures { Gives (λ x. (tree_of x.0, x.1.now)) result
        (steps.followed mark (tree_of inner) tokens.now) }
{
    after_mark(mark, tokens).map(|rest| (inner, rest))
}

// The target after `++` or `--`.
#[cycle(expression)]
#[tactic(auto, unfolding(crate::specs::Steps::Reading::unary_at_step))]
fn unary_at_step<'a>(
    alloc: Global,
    fuel: usize,
    line: usize,
    step: Step,
    tokens: &'a [Token],
) -> Result<(Expr, &'a [Token]), ParseFault>
    ensures { Gives (λ x. (tree_of x.0, x.1.now)) result
        (steps.unary_at_step (steps.readers fuel) line step tokens.now) }
{
    let [token, rest @ ..] = tokens else {
        return Err(ParseFault::Syntax { line: AT_END });
    };
    match &token.kind {
        TokenKind::Word(name) => {
            let word = Word::new(name, token.line);
            let (target, rest) = target(alloc, fuel, word, rest)?;
            Ok((build::before(line, step, target), rest))
        }
        _ => Err(ParseFault::Syntax { line: token.line }),
    }
}

// A unary expression, after the mark that begins it.
#[cycle(expression)]
#[inline(never)]
#[tactic(auto, unfolding(crate::specs::Steps::Reading::unary_at_mark))]
fn unary_at_mark<'a>(
    alloc: Global,
    fuel: usize,
    mark: Mark,
    line: usize,
    tokens: &'a [Token],
) -> Result<(Expr, &'a [Token]), ParseFault>
    ensures { Gives (λ x. (tree_of x.0, x.1.now)) result
        (steps.unary_at_mark (steps.readers fuel) mark line tokens.now) }
{
    if mark == Mark::OpenParenthesis {
        return unary_in_parentheses(alloc, fuel, line, tokens);
    }
    match prefix_of(mark) {
        Prefix::Unary(operator) => {
            let (operand, rest) = expr(alloc, fuel, UNARY, tokens)?;
            let whole = build::unary(alloc, line, operator, operand)?;
            Ok((whole, rest))
        }
        Prefix::Step(step) => unary_at_step(alloc, fuel, line, step, tokens),
        Prefix::Other => Err(ParseFault::Syntax { line }),
    }
}

// A unary expression or, if the level allows it, an assignment.
#[cycle(expression)]
#[tactic(auto, unfolding(crate::specs::Steps::Reading::unary))]
fn unary<'a>(
    alloc: Global,
    fuel: usize,
    level: u8,
    tokens: &'a [Token],
) -> Result<(Expr, &'a [Token]), ParseFault>
    ensures { Gives (λ x. (tree_of x.0, x.1.now)) result
        (steps.unary (steps.readers fuel) level tokens.now) }
{
    let [token, rest @ ..] = tokens else {
        return Err(ParseFault::Syntax { line: AT_END });
    };
    match &token.kind {
        TokenKind::Number { value, suffix } => Ok((
            build::number(token.line, *value, *suffix),
            rest,
        )),
        TokenKind::TextConstant(bytes) => {
            let bytes = ByteString::from_slice(alloc, bytes.as_slice())?;
            Ok((build::text(token.line, bytes), rest))
        }
        TokenKind::Word(name) => {
            post_at_name(alloc, fuel, level, Word::new(name, token.line), rest)
        }
        TokenKind::Mark(mark) => unary_at_mark(alloc, fuel, *mark, token.line, rest),
        _ => Err(ParseFault::Syntax { line: token.line }),
    }
}

// The left operand, joined by the operators of this level or above to what follows it.
#[cycle(expression)]
#[tactic(auto, using(crate::proofs::Steps::binary_tail))]
fn binary_tail<'a>(
    alloc: Global,
    fuel: usize,
    level: u8,
    left: Expr,
    tokens: &'a [Token],
) -> Result<(Expr, &'a [Token]), ParseFault>
    ensures { Gives (λ x. (tree_of x.0, x.1.now)) result
        ((steps.readers fuel).binary_tail level (tree_of left) tokens.now) }
{
    if fuel == 0 {
        drop(left);
        return Err(syntax_at(tokens));
    }
    binary_tail_on(alloc, fuel - 1, level, left, tokens)
}

#[cycle(expression)]
#[inline(never)]
#[tactic(auto, unfolding(crate::specs::Steps::Reading::binary_tail_on))]
fn binary_tail_on<'a>(
    alloc: Global,
    fuel: usize,
    level: u8,
    left: Expr,
    tokens: &'a [Token],
) -> Result<(Expr, &'a [Token]), ParseFault>
    ensures { Gives (λ x. (tree_of x.0, x.1.now)) result
        (steps.binary_tail_on (steps.readers fuel) level (tree_of left) tokens.now) }
{
    match follow_at(tokens) {
        Follow::Infix(operator) => {
            if operator.level() < level {
                return Ok((left, tokens));
            }
            let right = expr(alloc, fuel, operator.level() + 1, tail(tokens));
            let (left, (right, rest)) = right.map(|right| (left, right))?;
            let joined = build::binary(alloc, operator, left, right)?;
            binary_tail(alloc, fuel, level, joined, rest)
        }
        _ => Ok((left, tokens)),
    }
}

// A condition goes on with a question mark.
#[cycle(expression)]
#[inline(never)]
#[tactic(auto, unfolding(crate::specs::Steps::Reading::cond_tail))]
fn cond_tail<'a>(
    alloc: Global,
    fuel: usize,
    level: u8,
    test: Expr,
    tokens: &'a [Token],
) -> Result<(Expr, &'a [Token]), ParseFault>
    ensures { Gives (λ x. (tree_of x.0, x.1.now)) result
        (steps.cond_tail (steps.readers fuel) level (tree_of test) tokens.now) }
{
    if level > CONDITION {
        return Ok((test, tokens));
    }
    match follow_at(tokens) {
        Follow::Question => {
            let others = alternatives(alloc, fuel, tail(tokens));
            let (test, ((first, second), rest)) = others.map(|others| (test, others))?;
            let whole = build::choice(alloc, test, first, second)?;
            Ok((whole, rest))
        }
        _ => Ok((test, tokens)),
    }
}

// The two expressions after the question mark.
#[cycle(expression)]
#[inline(never)]
#[tactic(auto, unfolding(crate::specs::Steps::Reading::alternatives))]
fn alternatives<'a>(
    alloc: Global,
    fuel: usize,
    tokens: &'a [Token],
) -> Result<((Expr, Expr), &'a [Token]), ParseFault>
    ensures { Gives (λ x. ((tree_of x.0.0, tree_of x.0.1), x.1.now)) result
        (steps.alternatives (steps.readers fuel) tokens.now) }
{
    let (first, rest) = expr(alloc, fuel, ASSIGNMENT, tokens)?;
    let (first, rest) = followed(Mark::Colon, first, rest)?;
    let second = expr(alloc, fuel, CONDITION, rest);
    second.map(|(second, rest)| ((first, second), rest))
}

/// An expression of the level.
#[cycle(expression)]
#[tactic(auto, using(crate::proofs::Steps::expr_step, crate::proofs::Steps::expr_none))]
pub(crate) fn expr<'a>(
    alloc: Global,
    fuel: usize,
    level: u8,
    tokens: &'a [Token],
) -> Result<(Expr, &'a [Token]), ParseFault>
    ensures { Gives (λ x. (tree_of x.0, x.1.now)) result
        ((steps.readers fuel).expr level tokens.now) }
{
    if fuel == 0 {
        return Err(syntax_at(tokens));
    }
    expr_on(alloc, fuel - 1, level, tokens)
}

#[cycle(expression)]
#[tactic(auto, unfolding(crate::specs::Steps::Reading::expr_on, crate::specs::Steps::Reading::binary))]
fn expr_on<'a>(
    alloc: Global,
    fuel: usize,
    level: u8,
    tokens: &'a [Token],
) -> Result<(Expr, &'a [Token]), ParseFault>
    ensures { Gives (λ x. (tree_of x.0, x.1.now)) result
        (steps.expr_on (steps.readers fuel) level tokens.now) }
{
    let (first, rest) = unary(alloc, fuel, level, tokens)?;
    let (joined, rest) = binary_tail(alloc, fuel, level.max(OR), first, rest)?;
    cond_tail(alloc, fuel, level, joined, rest)
}

// The expressions after a comma.
#[cycle(expression)]
#[tactic(auto, using(crate::proofs::Steps::exprs_tail_step, crate::proofs::Steps::exprs_tail_none))]
fn exprs_tail<'a>(
    alloc: Global,
    fuel: usize,
    all: Vec<Expr>,
    tokens: &'a [Token],
) -> Result<(Vec<Expr>, &'a [Token]), ParseFault>
    ensures { Gives (λ x. (trees_of x.0.items, x.1.now)) result
        ((steps.readers fuel).exprs_tail (trees_of all.items) tokens.now) }
{
    if fuel == 0 {
        return Err(syntax_at(tokens));
    }
    exprs_tail_on(alloc, fuel - 1, all, tokens)
}

#[cycle(expression)]
#[tactic(auto, unfolding(crate::specs::Steps::Reading::exprs_tail_on), using(crate::proofs::Rows::trees_push))]
fn exprs_tail_on<'a>(
    alloc: Global,
    fuel: usize,
    all: Vec<Expr>,
    tokens: &'a [Token],
) -> Result<(Vec<Expr>, &'a [Token]), ParseFault>
    ensures { Gives (λ x. (trees_of x.0.items, x.1.now)) result
        (steps.exprs_tail_on (steps.readers fuel) (trees_of all.items) tokens.now) }
{
    if !is_at(Mark::Comma, tokens) {
        return Ok((all, tokens));
    }
    let mut all = all;
    let (next, rest) = expr(alloc, fuel, ASSIGNMENT, tail(tokens))?;
    all.push(next)?;
    exprs_tail(alloc, fuel, all, rest)
}

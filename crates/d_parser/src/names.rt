//! Marks, words and variables at the front of a list.

ghost use Rattle.std.specs.Prelude.{◌≡◌};
ghost use Rattle.d_parser.specs.{Reading.Gives, Vocabulary.ParseFault, Words.word_kind};
ghost use Rattle.d_parser.specs.Steps.Lines.{line_at};
ghost use Rattle.d_parser.specs.Steps.Reading as steps;

use crate::fault::{AT_END, ParseFault};
use crate::marks::{is_at, tail};
use crate::tree::{IntegerType, Variable};
use crate::words::{WordKind, integer_type, kind_of, split_run, type_length, word_kind};
use d_lexer::{ByteString, Mark, Token, TokenKind};
use std::alloc::Global;

/// A syntax fault at the first of these tokens, or at the end if there are none.
pub(crate) fn syntax_at(tokens: &[Token]) -> ParseFault
    ensures { result ≡ ParseFault.Syntax (line_at tokens.now) }
{
    let line = match tokens {
        [token, ..] => token.line,
        [] => AT_END,
    };
    ParseFault::Syntax { line }
}

/// All tokens but the first `count`.
pub(crate) fn tokens_after(count: usize, tokens: &[Token]) -> &[Token] {
    let (_, rest) = tokens.split_at(count.min(tokens.len()));
    rest
}

/// The line at which all tokens end; 1 if there are none.
pub(crate) fn last_line(tokens: &[Token]) -> usize {
    match tokens {
        [.., token] => token.line,
        [] => 1,
    }
}

/// The tokens after a mark that has to be at the front.
pub(crate) fn after_mark(mark: Mark, tokens: &[Token]) -> Result<&[Token], ParseFault>
    ensures { Gives (λ rest. rest.now) result (steps.after_mark mark tokens.now) }
{
    if is_at(mark, tokens) {
        Ok(tail(tokens))
    } else {
        Err(syntax_at(tokens))
    }
}

// A word that isn't reserved.
#[tactic(auto, unfolding(crate::specs::Steps::Reading::plain_word))]
fn plain_word(alloc: Global, tokens: &[Token]) -> Result<(ByteString, &[Token]), ParseFault>
    ensures { Gives (λ x. (x.0, x.1.now)) result (steps.plain_word tokens.now) }
{
    let [token, rest @ ..] = tokens else {
        return Err(ParseFault::Syntax { line: AT_END });
    };
    match &token.kind {
        TokenKind::Word(name) => match word_kind(name.as_slice()) {
            WordKind::Plain => {
                let name = ByteString::from_slice(alloc, name.as_slice())?;
                Ok((name, rest))
            }
            _ => Err(ParseFault::Syntax { line: token.line }),
        },
        _ => Err(ParseFault::Syntax { line: token.line }),
    }
}

// The word after an arrow.
#[tactic(auto, unfolding(crate::specs::Steps::Reading::member))]
fn member(alloc: Global, tokens: &[Token]) -> Result<(ByteString, &[Token]), ParseFault>
    ensures { Gives (λ x. (x.0, x.1.now)) result (steps.member tokens.now) }
{
    let rest = after_mark(Mark::Arrow, tokens)?;
    plain_word(alloc, rest)
}

/// A word of the script, and its line.
#[derive(Clone, Copy)]
pub(crate) struct Word<'a> {
    pub(crate) name: &'a ByteString,
    pub(crate) line: usize,
}

impl<'a> Word<'a> {
    pub(crate) fn new(name: &'a ByteString, line: usize) -> Word<'a>
        ensures name { result.name.now ≡ name.now }
        ensures line { result.line ≡ line }
    {
        Word { name, line }
    }
}

/// The variable that a word begins.
#[tactic(auto, unfolding(crate::specs::Steps::Reading::variable))]
pub(crate) fn variable<'a>(
    alloc: Global,
    word: Word<'_>,
    tokens: &'a [Token],
) -> Result<(Variable, &'a [Token]), ParseFault>
    ensures { Gives (λ x. (x.0, x.1.now)) result
        (steps.variable
        (word_kind word.entry.name.now) word.entry.name.now word.entry.line tokens.now) }
{
    let line = word.line;
    match word_kind(word.name.as_slice()) {
        WordKind::Plain => {
            let name = ByteString::from_slice(alloc, word.name.as_slice())?;
            Ok((Variable::Plain { line, name }, tokens))
        }
        WordKind::Thread => {
            let (name, rest) = member(alloc, tokens)?;
            Ok((Variable::Thread { line, name }, rest))
        }
        WordKind::Clause => {
            let (name, rest) = member(alloc, tokens)?;
            Ok((Variable::Clause { line, name }, rest))
        }
        _ => Err(ParseFault::Syntax { line }),
    }
}

/// Whether a word of a type is at the front.
pub(crate) fn is_typed(tokens: &[Token]) -> bool
    ensures { result ≡ steps.is_typed tokens.now }
{
    match tokens {
        [token, ..] => match &token.kind {
            TokenKind::Word(word) => word_kind(word.as_slice()).begins_type(),
            _ => false,
        },
        [] => false,
    }
}

// If these words aren't an integer type: the tokens from the first that can't follow.
fn rest_without_cast<'a>(words: &[Token], tokens: &'a [Token]) -> &'a [Token] {
    match words {
        [first, ..] if matches!(kind_of(first), WordKind::Text) => tokens,
        _ => tokens_after(type_length(words), tokens),
    }
}

/// The type in a cast, after its opening parenthesis.
#[tactic(auto, unfolding(crate::specs::Steps::Reading::cast_type))]
pub(crate) fn cast_type(tokens: &[Token]) -> Result<(IntegerType, &[Token]), ParseFault>
    ensures { Gives (λ x. (x.0, x.1.now)) result (steps.cast_type tokens.now) }
{
    let (words, rest) = split_run(tokens);
    let Some(to) = integer_type(words) else {
        return Err(syntax_at(rest_without_cast(words, tokens)));
    };
    let rest = after_mark(Mark::CloseParenthesis, rest)?;
    Ok((to, rest))
}

impl Variable {
    pub(crate) fn is_clause_local(&self) -> bool
        ensures { result ≡ steps.is_clause_local self.now }
    {
        matches!(self, Variable::Clause { .. })
    }
}

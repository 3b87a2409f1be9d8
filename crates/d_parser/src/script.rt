//! Scripts: declarations and clauses up to the end.

ghost use Rattle.std.specs.Prelude.{◌≤◌, length, map, []};
ghost use Rattle.d_parser.specs.{Reading.Gives, Words.word_kind};
ghost use Rattle.d_parser.specs.Tree.{item_of, declaration_of, script_of};
ghost use Rattle.d_parser.specs.Steps.ReadingScripts as spec;

use crate::clause::clause;
use crate::declaration::{of_clause, of_thread};
use crate::fault::{AT_END, ParseFault};
use crate::names::{last_line, syntax_at};
use crate::tree::{Declaration, Item, Script};
use crate::words::{WordKind, word_kind};
use d_lexer::{ByteString, MAX_BYTES, Token, TokenKind};
use std::alloc::Global;

// What `self` or `this` declares.
fn declaration<'a>(
    alloc: Global,
    fuel: usize,
    word: &ByteString,
    line: usize,
    tokens: &'a [Token],
) -> Result<(Declaration, &'a [Token]), ParseFault>
    ensures { Gives (λ x. (declaration_of x.0, x.1.now)) result
        (spec.declaration_by (word_kind word.now) fuel line tokens.now) }
{
    match word_kind(word.as_slice()) {
        WordKind::Thread => of_thread(alloc, fuel, line, tokens),
        WordKind::Clause => of_clause(alloc, line, tokens),
        _ => Err(ParseFault::Syntax { line }),
    }
}

#[tactic(auto, unfolding(crate::specs::Steps::ReadingScripts::item_reader))]
fn item<'a>(
    alloc: Global,
    fuel: usize,
    tokens: &'a [Token],
) -> Result<(Item, &'a [Token]), ParseFault>
    ensures { Gives (λ x. (item_of x.0, x.1.now)) result (spec.item_reader fuel tokens.now) }
{
    let [token, rest @ ..] = tokens else {
        return Err(ParseFault::Syntax { line: AT_END });
    };
    match &token.kind {
        TokenKind::Word(word) => {
            let (declaration, rest) = declaration(alloc, fuel, word, token.line, rest)?;
            Ok((Item::Declaration(declaration), rest))
        }
        _ => {
            let (clause, rest) = clause(alloc, fuel, tokens)?;
            Ok((Item::Clause(clause), rest))
        }
    }
}

#[tactic(auto, using(crate::proofs::Steps::items_fail, crate::proofs::Steps::items_end))]
fn items(alloc: Global, fuel: usize, tokens: &[Token]) -> Result<Vec<Item>, ParseFault>
    ensures { Gives (λ x. map item_of x.items) result (spec.items_reader fuel fuel [] tokens.now) }
{
    let mut all = Vec::new(alloc);
    let mut rest = tokens;
    for _ in 0..fuel {
        if rest.is_empty() {
            return Ok(all);
        }
        let (next, later) = item(alloc, fuel, rest)?;
        all.push(next)?;
        rest = later;
    }
    Err(syntax_at(rest))
}

/// The script that all tokens spell.
#[tactic(auto, unfolding(crate::specs::Steps::ReadingScripts::script_reader))]
pub(crate) fn script(alloc: Global, tokens: &[Token]) -> Result<Script, ParseFault>
    requires { length tokens.now ≤ MAX_BYTES }
    ensures { Gives script_of result (spec.script_reader tokens.now) }
{
    match items(alloc, tokens.len() + 1, tokens) {
        Ok(items) => Ok(Script { items }),
        Err(fault) => Err(fault.ending_on(last_line(tokens))),
    }
}

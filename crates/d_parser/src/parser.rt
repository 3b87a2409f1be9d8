//! From tokens to the tree.

ghost use Rattle.std.specs.Prelude.{◌≡◌, ◌≤◌, ◌<◌, length, IfOk, Some, List, Err};
ghost use Rattle.d_parser.specs.{Reading.Gives, Numbers.AreSmall, Sizes.IsWithin, Script.IsScript};
ghost use Rattle.d_parser.specs.{Vocabulary.ParseFault};
ghost use Rattle.d_parser.specs.Tree.{script_of, ItemTree};
ghost use Rattle.d_parser.specs.Limits.{IsDeep, OnlyLimits, clauses};
ghost use Rattle.d_lexer.specs.Small as token;

use crate::fault::ParseFault;
use crate::limits::{MAX_CLAUSES, clauses, is_deep};
use crate::script::script;
use crate::tree::Script;
use d_lexer::{MAX_BYTES, Token};
use std::alloc::Global;

/// The tree of a script's tokens, as `d_lexer::lex` gives them.
///
/// `TooDeep` is decided first, then `TooManyClauses`; `Syntax` comes exactly if the tokens have
/// no tree.
///
/// ```text
/// let tokens = lex(alloc, b"hit { trace(1 + 2 * 3); }")?;
/// let script = parse(alloc, &tokens)?; // one clause, with one statement
/// parse(alloc, &lex(alloc, b"hit {\n 1 + }")?); // Err(ParseFault::Syntax { line: 2 })
/// ```
#[tactic(auto, using(crate::proofs::Answering::whole_script))]
pub fn parse(alloc: Global, tokens: &[Token]) -> Result<Script, ParseFault>
    requires few { length tokens.now ≤ MAX_BYTES }
    requires small { token.HaveSmallNumbers tokens.now }
    // Brackets and rows of tokens are checked first.
    ensures deep { IsDeep tokens.now → result ≡ Err ParseFault.TooDeep }
    // Then clauses are counted.
    ensures many { ¬ IsDeep tokens.now → MAX_CLAUSES < clauses tokens.now
        → result ≡ Err ParseFault.TooManyClauses }
    // A limit is reported only if it is passed.
    ensures passed { OnlyLimits tokens.now result }
    // What is returned is a tree of the tokens.
    ensures found { IfOk result (λ s. IsScript (script_of s) tokens.now) }
    // Its descriptions, its statements, and its declarations with all places of variables are each
    // at most as many as a script may have bytes.
    ensures few { IfOk result (λ s. IsWithin MAX_BYTES (script_of s)) }
    // Its numbers are below 2^64, as those of the tokens are.
    ensures small { IfOk result (λ s. AreSmall (script_of s)) }
    // If there is a tree it is returned, and no other, unless memory runs out.
    ensures only { ¬ IsDeep tokens.now → clauses tokens.now ≤ MAX_CLAUSES
        → (s : List ItemTree) → IsScript s tokens.now → Gives script_of result (Some s) }
{
    if is_deep(tokens) {
        return Err(ParseFault::TooDeep);
    }
    if MAX_CLAUSES < clauses(tokens) {
        return Err(ParseFault::TooManyClauses);
    }
    script(alloc, tokens)
}

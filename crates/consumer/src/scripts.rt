//! From the bytes of a script to its tree, and to its types.

ghost use Rattle.std.specs.Prelude.{◌≡◌, ◌⊎◌, IfOk, MatchResult};
ghost use Rattle.d_parser.specs.{Numbers.AreSmall, Sizes.IsWithin, Tree.script_of};
ghost use Rattle.consumer.specs.{Scripts.HasTree, Scripts.IsUnread, Steps.Judging.IsJudged};

use crate::refusal::Refusal;
use d_lexer::{MAX_BYTES, lex};
use d_parser::{Script, parse};
use d_types::{TypedScript, check};
use std::alloc::Global;

/// The tree of a script, or why it has none: the lexer's fault before the parser's.
///
/// ```text
/// let script = read_script(alloc, b"hit { trace(1); }")?; // one clause, with one statement
/// // Err(Refusal::Parse(ParseFault::Syntax { line: 2 }))
/// read_script(alloc, b"hit {\n 1 + }");
/// ```
pub fn read_script(alloc: Global, script: &[u8]) -> Result<Script, Refusal>
    ensures read { MatchResult result (λ s. HasTree script.now (script_of s))
        (λ e. (e ≡ Refusal.Memory) ⊎ IsUnread script.now e) }
    ensures few { IfOk result (λ s. IsWithin MAX_BYTES (script_of s)) }
    ensures small { IfOk result (λ s. AreSmall (script_of s)) }
{
    let tokens = lex(alloc, script)?;
    let tree = parse(alloc, &tokens)?;
    Ok(tree)
}

/// The typed script, or why a script is refused.
pub(crate) fn judge(alloc: Global, script: &[u8]) -> Result<TypedScript, Refusal>
    ensures { IsJudged script.now result }
{
    let tree = read_script(alloc, script)?;
    let typed = check(alloc, tree)?;
    Ok(typed)
}

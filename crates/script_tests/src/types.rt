//! What each fault says. Which fault a script has, the cases of the program show.

ghost use Rattle.std.specs.Prelude.{◌≤◌, length};
ghost use Rattle.d_lexer.specs.{Small.HaveSmallNumbers};
ghost use Rattle.d_parser.specs.{Numbers.AreSmall, Sizes.IsWithin, Tree.script_of};

use d_lexer::{MAX_BYTES, Token, lex};
use d_parser::{Script, parse};
use d_types::check;
use std::alloc::{AllocError, Global};
use std::process::Abort;
use std::test::Fail;

// "typed" for a tree that is well typed, else what its fault says.
fn answer_to_tree(alloc: Global, tree: Script) -> Result<String, AllocError>
    requires few { IsWithin MAX_BYTES (script_of tree) }
    requires small { AreSmall (script_of tree) }
{
    match check(alloc, tree) {
        Ok(_) => format!(in alloc; "typed"),
        Err(fault) => format!(in alloc; "{fault}"),
    }
}

// "typed" for tokens that spell a well-typed tree, else what their fault says.
fn answer_to_tokens(alloc: Global, tokens: &[Token]) -> Result<String, AllocError>
    requires few { length tokens.now ≤ MAX_BYTES }
    requires small { HaveSmallNumbers tokens.now }
{
    match parse(alloc, tokens) {
        Ok(tree) => answer_to_tree(alloc, tree),
        Err(fault) => format!(in alloc; "{fault:?}"),
    }
}

// "typed" for a well-typed script, else what its fault says.
fn answer_to(alloc: Global, script: &[u8]) -> Result<String, AllocError> {
    match lex(alloc, script) {
        Ok(tokens) => answer_to_tokens(alloc, &tokens),
        Err(fault) => format!(in alloc; "{fault:?}"),
    }
}

// Whether this is reported of a script.
fn is_answer(alloc: Global, script: &str, wanted: &str) -> Result<bool, AllocError> {
    let answer = answer_to(alloc, script.as_bytes())?;
    Ok(answer.as_str() == wanted)
}

// A script of each fault.
const FAULTS: &str = "\
hit { x = 1; } => line 1: use self-> or this-> for a variable

hit { trace(x); } => line 1: not declared

hit { trace(1 + execname); } => line 1: of the wrong type

hit { trace(pid[1]); } => line 1: other keys

hit { @ = count(); @ = sum(1); } => line 1: the aggregation has another function

hit { @ = lquantize(1, 0, 0); } => line 1: bounds of lquantize

hit { printf(); } => line 1: the format and its arguments

hit { pid = 1; } => line 1: can't be assigned

hit { self->a[1,2,3,4,5,6] = arg0; } => line 1: the expression is too deep";

// Each row is a script, an arrow and what is reported of it; an empty line parts rows.
fn check_rows(rt: &impl Abort, alloc: Global, table: &str) -> Result<(), AllocError> {
    for row in table.split("\n\n") {
        let (script, expected) = row.split_once(" => ").unwrap_or((row, ""));
        let is_answer = is_answer(alloc, script, expected)?;
        assert!(rt; is_answer, "of {script}");
    }
    Ok(())
}

#[test]
fn texts_of_faults(rt: HostRuntime) -> Result<(), Fail> {
    check_rows(&rt, rt.alloc(), FAULTS)?;
    Ok(())
}

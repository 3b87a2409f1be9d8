//! What scripts are compiled to: listings worked out by hand, in a table for each kind of
//! construct.

use d_lexer::lex;
use d_parser::parse;
use d_types::{TypedScript, check};
use dif_codegen::compile;
use std::alloc::{AllocError, Global};
use std::process::Abort;
use std::test::Fail;

// The typed script of a text, if it is one.
fn typed(alloc: Global, script: &str) -> Option<TypedScript> {
    let tokens = lex(alloc, script.as_bytes()).ok()?;
    let tree = parse(alloc, &tokens).ok()?;
    check(alloc, tree).ok()
}

// What the program of a script shows, nothing if the script is refused.
fn listing(alloc: Global, script: &str) -> Result<String, AllocError> {
    let Some(script) = typed(alloc, script) else {
        return Ok(String::new(alloc));
    };
    let program = compile(alloc, &script)?;
    format!(in alloc; "{program}")
}

// Whether the program of a script shows this text.
fn is_listed(alloc: Global, script: &str, wanted: &str) -> Result<bool, AllocError> {
    let shown = listing(alloc, script)?;
    Ok(shown.as_str() == wanted)
}

// Asserts that the program of each script shows its text.
fn check_rows(rt: &impl Abort, alloc: Global, rows: &[(&str, &str)]) -> Result<(), AllocError> {
    for (script, wanted) in rows {
        let is_listed = is_listed(alloc, script, wanted)?;
        assert!(rt; is_listed, "{script}");
    }
    Ok(())
}

const CONSTANTS_AND_BUILT_INS: [(&str, &str); 2] = [
    (
        "hit { trace(timestamp); }",
        "clause\n  trace\n    ldgs 0, r1\n    ret r1\n",
    ),
    (
        "hit { @[execname] = sum(arg1); }",
        "clause\n  aggregate 0\n    ldgs 4, r1\n    ret r1\n    setx 0, r1\n    \
        ldga 0, r1, r1\n    ret r1\n    number 1\n",
    ),
];

#[test]
fn constants_and_built_ins(rt: HostRuntime) -> Result<(), Fail> {
    check_rows(&rt, rt.alloc(), &CONSTANTS_AND_BUILT_INS)?;
    Ok(())
}

const NARROW_TYPES: [(&str, &str); 2] = [
    (
        "hit { trace(1 + 2); }",
        "clause\n  trace\n    setx 0, r1\n    setx 1, r2\n    add r1, r2, r1\n    \
        setx 2, r7\n    sll r1, r7, r1\n    sra r1, r7, r1\n    ret r1\n    number 1\n    \
        number 2\n    number 32\n",
    ),
    (
        "hit { exit((unsigned char)arg0); }",
        "clause\n  exit\n    setx 0, r1\n    ldga 0, r1, r1\n    setx 1, r7\n    \
        sll r1, r7, r1\n    srl r1, r7, r1\n    ret r1\n    number 0\n    number 56\n",
    ),
];

#[test]
fn narrow_types(rt: HostRuntime) -> Result<(), Fail> {
    check_rows(&rt, rt.alloc(), &NARROW_TYPES)?;
    Ok(())
}

const BRANCHES: [(&str, &str); 3] = [
    (
        "hit { trace(arg0 < 5); }",
        "clause\n  trace\n    setx 0, r1\n    ldga 0, r1, r1\n    setx 1, r2\n    \
        cmp r1, r2\n    bl 7\n    setx 2, r1\n    ba 8\n    setx 3, r1\n    ret r1\n    \
        number 0\n    number 5\n    number 0\n    number 1\n",
    ),
    (
        "hit { trace(execname == \"sh\"); }",
        "clause\n  trace\n    ldgs 4, r1\n    sets 0, r2\n    scmp r1, r2\n    be 6\n    \
        setx 0, r1\n    ba 7\n    setx 1, r1\n    ret r1\n    number 0\n    number 1\n",
    ),
    (
        "hit /arg0 && arg1/ { }",
        "clause\n  predicate\n    setx 0, r1\n    ldga 0, r1, r1\n    tst r1\n    \
        be 12\n    setx 1, r1\n    ldga 0, r1, r1\n    tst r1\n    bne 10\n    setx 2, r1\n    \
        ba 11\n    setx 3, r1\n    ba 13\n    setx 4, r1\n    ret r1\n    number 0\n    \
        number 1\n    number 0\n    number 1\n    number 0\n",
    ),
];

#[test]
fn branches(rt: HostRuntime) -> Result<(), Fail> {
    check_rows(&rt, rt.alloc(), &BRANCHES)?;
    Ok(())
}

const VARIABLES: [(&str, &str); 3] = [
    (
        "hit { self->ts[tid] = timestamp; }",
        "clause\n  evaluate\n    ldgs 3, r1\n    ldgs 0, r2\n    pushtv r1\n    \
        sttaa n0, r2\n    flushts\n    mov r2, r1\n    ret r1\n",
    ),
    (
        "hit { self->n++; }",
        "clause\n  evaluate\n    ldts n0, r1\n    setx 0, r7\n    add r1, r7, r1\n    \
        stts n0, r1\n    setx 1, r7\n    sub r1, r7, r1\n    ret r1\n    number 1\n    \
        number 1\n",
    ),
    (
        "hit { this->a /= 2; }",
        "clause\n  evaluate\n    ldls n0, r1\n    setx 0, r2\n    sdiv r1, r2, r1\n    \
        stls n0, r1\n    ret r1\n    number 2\n",
    ),
];

#[test]
fn variables(rt: HostRuntime) -> Result<(), Fail> {
    check_rows(&rt, rt.alloc(), &VARIABLES)?;
    Ok(())
}

const FUNCTIONS: [(&str, &str); 1] = [(
    "hit { printf(\"%d\", strlen(strjoin(execname, \"x\"))); }",
    "clause\n  printf\n    ldgs 4, r1\n    sets 0, r2\n    pushtr r1\n    \
        pushtr r2\n    call strjoin, r1\n    flushts\n    pushtr r1\n    call strlen, r1\n    \
        flushts\n    ret r1\n",
)];

#[test]
fn functions(rt: HostRuntime) -> Result<(), Fail> {
    check_rows(&rt, rt.alloc(), &FUNCTIONS)?;
    Ok(())
}

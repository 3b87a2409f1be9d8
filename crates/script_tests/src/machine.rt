//! Runs of small objects, with the values worked out by hand.
use d_values::{ClauseLocals, Key, Kind, Text, ThreadTable, Value, ValueRef, Var};
use dif_machine::{MachineFault, run};
use dif_validate::{Condition, Difo, Function, Instr, Operator, Reg, ValidDifo, validate};
use firings::{Args, Firing, Text as Recorded};
use std::alloc::{AllocError, Global};
use std::process::Abort;
use std::test::Fail;

const R0: Reg = Reg::R0;

const R1: Reg = Reg::R1;

const R2: Reg = Reg::R2;

const R3: Reg = Reg::R3;

const COUNT: Var = Var {
    slot: 0,
    kind: Kind::Number,
};

const NAME: Var = Var {
    slot: 0,
    kind: Kind::Text,
};

const MINUS_8: u64 = u64::MAX - 7;

const LEAST: u64 = 1 << 63;

// What a run returns: an integer, a text's bytes, or a fault; none if the object isn't valid.
#[derive(Drop, Debug, PartialEq, Eq)]
enum Shown {
    Invalid,
    Number(u64),
    Bytes(Vec<u8>),
    Fault(MachineFault),
}

fn firing() -> Option<Firing<'static>> {
    let execname = Recorded::from_bytes(b"cat")?;
    let provider = Recorded::from_bytes(b"syscall")?;
    let probemod = Recorded::from_bytes(b"linux")?;
    let probefunc = Recorded::from_bytes(b"read")?;
    let name = Recorded::from_bytes(b"entry")?;
    Some(Firing {
        number: 1,
        cpu: 2,
        thread: -5,
        pid: 4,
        execname,
        time: 1,
        provider,
        probemod,
        probefunc,
        name,
        args: Args::of(&[-1, 20, 30, 0, 0, 0, 0, 0, 0, 90]),
    })
}

// Adds a text.
fn add_text(alloc: Global, texts: &mut Vec<Text>, bytes: &[u8]) -> Result<(), AllocError> {
    let text = Text::from_slice(alloc, bytes)?;
    texts.push(text)?;
    Ok(())
}

// The texts of each object.
fn two_texts(alloc: Global) -> Result<Vec<Text>, AllocError> {
    let mut texts = Vec::new(alloc);
    add_text(alloc, &mut texts, b"cat")?;
    add_text(alloc, &mut texts, &[b'x'; 300])?;
    Ok(texts)
}

fn object(alloc: Global, code: &[Instr], numbers: &[u64]) -> Result<Difo, AllocError> {
    let code = Vec::from_slice(alloc, code)?;
    let texts = two_texts(alloc)?;
    let numbers = Vec::from_slice(alloc, numbers)?;
    Ok(Difo {
        code,
        texts,
        numbers,
    })
}

// The valid object of this code, if it is valid.
fn valid_object(
    alloc: Global,
    code: &[Instr],
    numbers: &[u64],
) -> Result<Option<ValidDifo>, AllocError> {
    let object = object(alloc, code, numbers)?;
    Ok(validate(alloc, object).ok())
}

fn ending(ended: Result<Value, MachineFault>) -> Shown {
    match ended {
        Ok(Value::Int(word)) => Shown::Number(word),
        Ok(Value::Text(text)) => Shown::Bytes(text.into_bytes()),
        Err(fault) => Shown::Fault(fault),
    }
}

// Runs the object over these variables.
fn run_object(
    alloc: Global,
    valid: &ValidDifo,
    locals: &mut ClauseLocals,
    own: &mut ThreadTable,
) -> Shown {
    match firing() {
        Some(firing) => ending(run(alloc, valid, &firing, locals, own)),
        None => Shown::Invalid,
    }
}

// Runs the code over these variables.
fn run_over(
    alloc: Global,
    code: &[Instr],
    numbers: &[u64],
    locals: &mut ClauseLocals,
    own: &mut ThreadTable,
) -> Result<Shown, AllocError> {
    let valid = valid_object(alloc, code, numbers)?;
    match &valid {
        Some(valid) => Ok(run_object(alloc, valid, locals, own)),
        None => Ok(Shown::Invalid),
    }
}

// Runs the code over variables that aren't set.
fn run_alone(alloc: Global, code: &[Instr], numbers: &[u64]) -> Result<Shown, AllocError> {
    let mut locals = ClauseLocals::new(alloc);
    let mut own = ThreadTable::new(alloc);
    run_over(alloc, code, numbers, &mut locals, &mut own)
}

// Whether the code returns this integer.
fn returns(alloc: Global, code: &[Instr], numbers: &[u64], word: u64) -> Result<bool, AllocError> {
    let shown = run_alone(alloc, code, numbers)?;
    Ok(shown == Shown::Number(word))
}

// Whether what is shown is this text.
fn is_text(shown: &Shown, wanted: &[u8]) -> bool {
    match shown {
        Shown::Bytes(bytes) => bytes.as_slice() == wanted,
        _ => false,
    }
}

// Whether the code returns this text.
fn returns_text(
    alloc: Global,
    code: &[Instr],
    numbers: &[u64],
    wanted: &[u8],
) -> Result<bool, AllocError> {
    let shown = run_alone(alloc, code, numbers)?;
    Ok(is_text(&shown, wanted))
}

// Whether an operator makes this of two integers.
fn is_result(
    alloc: Global,
    op: Operator,
    (a, b): (u64, u64),
    wanted: &Shown,
) -> Result<bool, AllocError> {
    let code = [
        Instr::Setx(0, R1),
        Instr::Setx(1, R2),
        Instr::Alu(op, R1, R2, R3),
        Instr::Ret(R3),
    ];
    let shown = run_alone(alloc, &code, &[a, b])?;
    Ok(shown == *wanted)
}

// Whether a branch is taken after a comparison of two integers.
fn is_taken(alloc: Global, condition: Condition, a: u64, b: u64) -> Result<bool, AllocError> {
    let code = [
        Instr::Setx(0, R1),
        Instr::Setx(1, R2),
        Instr::Cmp(R1, R2),
        Instr::Branch(condition, 5),
        Instr::Ret(R0),
        Instr::Setx(2, R3),
        Instr::Ret(R3),
    ];
    returns(alloc, &code, &[a, b, 1], 1)
}

#[test]
fn operators(rt: HostRuntime) -> Result<(), Fail> {
    let rows: [(Operator, u64, u64, u64); 20] = [
        (Operator::Or, 12, 10, 14),
        (Operator::Xor, 12, 10, 6),
        (Operator::And, 12, 10, 8),
        (Operator::Sll, 1, 3, 8),
        (Operator::Sll, 1, 65, 2),
        (Operator::Srl, MINUS_8, 1, 9223372036854775804),
        (Operator::Srl, 16, 66, 4),
        (Operator::Sra, MINUS_8, 1, u64::MAX - 3),
        (Operator::Sra, MINUS_8, 65, u64::MAX - 3),
        (Operator::Sra, 16, 2, 4),
        (Operator::Sub, 1, 2, u64::MAX),
        (Operator::Add, u64::MAX, 2, 1),
        (Operator::Mul, u64::MAX, u64::MAX, 1),
        (Operator::Sdiv, MINUS_8, 3, u64::MAX - 1),
        (Operator::Sdiv, LEAST, u64::MAX, LEAST),
        (Operator::Udiv, MINUS_8, 2, 9223372036854775804),
        (Operator::Srem, MINUS_8, 3, u64::MAX - 1),
        (Operator::Srem, LEAST, u64::MAX, 0),
        (Operator::Urem, MINUS_8, 3, 2),
        (Operator::Urem, 7, 3, 1),
    ];
    for i in 0..rows.len() {
        let (op, a, b, word) = rows[i];
        let is_word = is_result(rt.alloc(), op, (a, b), &Shown::Number(word))?;
        assert!(&rt; is_word);
    }
    Ok(())
}

#[test]
fn divisions_by_zero_end_the_run(rt: HostRuntime) -> Result<(), Fail> {
    let zero = Shown::Fault(MachineFault::DivideByZero);
    for op in [
        Operator::Sdiv,
        Operator::Udiv,
        Operator::Srem,
        Operator::Urem,
    ] {
        let is_zero = is_result(rt.alloc(), op, (1, 0), &zero)?;
        assert!(&rt; is_zero);
    }
    Ok(())
}

// Whether a branch is taken after comparisons of -8 with 1, of 1 with 1, and of 1 with -8.
fn are_taken(alloc: Global, condition: Condition) -> Result<[bool; 3], AllocError> {
    let less = is_taken(alloc, condition, MINUS_8, 1)?;
    let same = is_taken(alloc, condition, 1, 1)?;
    let more = is_taken(alloc, condition, 1, MINUS_8)?;
    Ok([less, same, more])
}

#[test]
fn branches(rt: HostRuntime) -> Result<(), Fail> {
    let rows: [(Condition, [bool; 3]); 10] = [
        (Condition::Equal, [false, true, false]),
        (Condition::NotEqual, [true, false, true]),
        (Condition::Greater, [false, false, true]),
        (Condition::GreaterEqual, [false, true, true]),
        (Condition::Less, [true, false, false]),
        (Condition::LessEqual, [true, true, false]),
        (Condition::Above, [true, false, false]),
        (Condition::AboveEqual, [true, true, false]),
        (Condition::Below, [false, false, true]),
        (Condition::BelowEqual, [false, true, true]),
    ];
    for i in 0..rows.len() {
        let (condition, wanted) = rows[i];
        let taken = are_taken(rt.alloc(), condition)?;
        assert!(&rt; taken == wanted);
    }
    Ok(())
}

#[test]
fn integers_of_the_firing(rt: HostRuntime) -> Result<(), Fail> {
    let rows: [(u8, u64); 4] = [(0, 1), (1, 2), (2, 4), (3, u64::MAX - 4)];
    for i in 0..rows.len() {
        let (v, word) = rows[i];
        let code = [Instr::Ldgs(v, R1), Instr::Ret(R1)];
        let is_word = returns(rt.alloc(), &code, &[], word)?;
        assert!(&rt; is_word);
    }
    Ok(())
}

#[test]
fn texts_of_the_firing(rt: HostRuntime) -> Result<(), Fail> {
    let alloc = rt.alloc();
    let rows: [(u8, &[u8]); 5] = [
        (4, b"cat"),
        (5, b"syscall"),
        (6, b"linux"),
        (7, b"read"),
        (8, b"entry"),
    ];
    for i in 0..rows.len() {
        let (v, bytes) = rows[i];
        let code = [Instr::Ldgs(v, R1), Instr::Mov(R1, R2), Instr::Ret(R2)];
        let is_text = returns_text(alloc, &code, &[], bytes)?;
        assert!(&rt; is_text);
    }
    Ok(())
}

#[test]
fn arguments_of_the_firing(rt: HostRuntime) -> Result<(), Fail> {
    let rows: [(u64, u64); 5] = [(0, u64::MAX), (1, 20), (9, 90), (10, 0), (u64::MAX, 0)];
    for i in 0..rows.len() {
        let (n, word) = rows[i];
        let code = [Instr::Setx(0, R1), Instr::Ldga(0, R1, R2), Instr::Ret(R2)];
        let is_word = returns(rt.alloc(), &code, &[n], word)?;
        assert!(&rt; is_word);
    }
    Ok(())
}

// Code over the integers 1 and 2^64 - 1, and what it returns.
const SINGLE_INSTRUCTIONS: [(&'static [Instr], u64); 16] = [
    (&[Instr::Ba(2), Instr::Mov(R1, R2), Instr::Ret(R0)], 0),
    (&[Instr::Ret(R0)], 0),
    (&[Instr::Setx(0, R0), Instr::Ret(R0)], 0),
    (&[Instr::Sets(0, R0), Instr::Ret(R0)], 0),
    (&[Instr::Not(R0, R1), Instr::Ret(R1)], u64::MAX),
    (
        &[
            Instr::Setx(0, R1),
            Instr::Mov(R1, R2),
            Instr::Mov(R0, R1),
            Instr::Ret(R2),
        ],
        1,
    ),
    (&[Instr::Nop, Instr::Setx(0, R1), Instr::Ret(R1)], 1),
    (
        &[
            Instr::Setx(1, R1),
            Instr::Tst(R1),
            Instr::Branch(Condition::Less, 4),
            Instr::Ret(R0),
            Instr::Ret(R1),
        ],
        u64::MAX,
    ),
    (
        &[
            Instr::Sets(0, R1),
            Instr::Sets(1, R2),
            Instr::Scmp(R1, R2),
            Instr::Branch(Condition::Below, 5),
            Instr::Ret(R0),
            Instr::Setx(0, R1),
            Instr::Ret(R1),
        ],
        1,
    ),
    (
        &[
            Instr::Sets(0, R1),
            Instr::Sets(1, R2),
            Instr::Scmp(R1, R2),
            Instr::Branch(Condition::Less, 5),
            Instr::Ret(R0),
            Instr::Setx(0, R1),
            Instr::Ret(R1),
        ],
        1,
    ),
    (
        &[
            Instr::Sets(0, R1),
            Instr::Ldgs(4, R2),
            Instr::Scmp(R1, R2),
            Instr::Branch(Condition::Equal, 5),
            Instr::Ret(R0),
            Instr::Setx(0, R1),
            Instr::Ret(R1),
        ],
        1,
    ),
    (
        &[
            Instr::Setx(0, R1),
            Instr::Pushtv(R1),
            Instr::Sttaa(COUNT, R1),
            Instr::Ldtaa(COUNT, R2),
            Instr::Ret(R2),
        ],
        1,
    ),
    (
        &[
            Instr::Setx(0, R1),
            Instr::Pushtv(R1),
            Instr::Sttaa(COUNT, R1),
            Instr::Flushts,
            Instr::Pushtv(R0),
            Instr::Ldtaa(COUNT, R2),
            Instr::Ret(R2),
        ],
        0,
    ),
    (
        &[
            Instr::Setx(0, R1),
            Instr::Pushtv(R1),
            Instr::Sttaa(COUNT, R1),
            Instr::Pushtv(R1),
            Instr::Ldtaa(COUNT, R2),
            Instr::Ret(R2),
        ],
        0,
    ),
    (
        &[
            Instr::Setx(0, R1),
            Instr::Pushtv(R1),
            Instr::Sttaa(COUNT, R1),
            Instr::Ldts(COUNT, R2),
            Instr::Ret(R2),
        ],
        0,
    ),
    (
        &[
            Instr::Sets(1, R1),
            Instr::Pushtr(R1),
            Instr::Call(Function::Strlen, R1),
            Instr::Ret(R1),
        ],
        300,
    ),
];

#[test]
fn single_instructions(rt: HostRuntime) -> Result<(), Fail> {
    for i in 0..SINGLE_INSTRUCTIONS.len() {
        let (code, word) = SINGLE_INSTRUCTIONS[i];
        let is_word = returns(rt.alloc(), code, &[1, u64::MAX], word)?;
        assert!(&rt; is_word);
    }
    Ok(())
}

#[test]
fn joined_texts_are_cut(rt: HostRuntime) -> Result<(), Fail> {
    let alloc = rt.alloc();
    let code = [
        Instr::Sets(0, R1),
        Instr::Sets(1, R2),
        Instr::Pushtr(R1),
        Instr::Pushtr(R2),
        Instr::Call(Function::Strjoin, R3),
        Instr::Flushts,
        Instr::Pushtr(R3),
        Instr::Call(Function::Strlen, R3),
        Instr::Ret(R3),
    ];
    let is_cut = returns(alloc, &code, &[], 255)?;
    assert!(&rt; is_cut);
    Ok(())
}

// Whether a run writes to a variable of a clause and to one of a thread, and then divides by zero.
fn divides_after_writes(
    alloc: Global,
    locals: &mut ClauseLocals,
    own: &mut ThreadTable,
) -> Result<bool, AllocError> {
    let code = [
        Instr::Setx(0, R1),
        Instr::Stts(COUNT, R1),
        Instr::Stls(COUNT, R1),
        Instr::Alu(Operator::Sdiv, R1, R0, R2),
        Instr::Ret(R2),
    ];
    let shown = run_over(alloc, &code, &[1], locals, own)?;
    Ok(shown == Shown::Fault(MachineFault::DivideByZero))
}

#[test]
fn variables_keep_what_was_written_before_a_division_by_zero(rt: HostRuntime) -> Result<(), Fail> {
    let mut locals = ClauseLocals::new(rt.alloc());
    let mut own = ThreadTable::new(rt.alloc());
    let is_ended = divides_after_writes(rt.alloc(), &mut locals, &mut own)?;
    assert!(&rt; is_ended);
    assert!(&rt; matches!(own.get(COUNT, &Key::new(rt.alloc())), ValueRef::Int(1)));
    assert!(&rt; matches!(locals.get(COUNT), ValueRef::Int(1)));
    Ok(())
}

#[test]
fn a_variable_is_its_slot_and_its_kind(rt: HostRuntime) -> Result<(), Fail> {
    let alloc = rt.alloc();
    let code = [
        Instr::Sets(0, R1),
        Instr::Stts(NAME, R1),
        Instr::Setx(0, R1),
        Instr::Stts(COUNT, R1),
        Instr::Ldts(NAME, R1),
        Instr::Stls(NAME, R1),
        Instr::Ldls(NAME, R2),
        Instr::Ret(R2),
    ];
    let is_text = returns_text(alloc, &code, &[7], b"cat")?;
    assert!(&rt; is_text);
    Ok(())
}

//! Which objects are valid, by tables, and how instructions print. Each object has the text `a` and
//! the integer 1.
use d_values::{Kind, Text, Var};
use dif_validate::Instr::{
    Alu, Ba, Branch, Call, Cmp, Flushts, Ldga, Ldgs, Ldls, Ldtaa, Ldts, Mov, Nop, Not, Pushtr,
    Pushtv, Ret, Scmp, Sets, Setx, Stls, Sttaa, Stts, Tst,
};
use dif_validate::Reg::{R0, R1, R2, R3};
use dif_validate::{Condition, DifFault, Difo, Function, Instr, Operator, Reg, validate};
use std::alloc::{AllocError, Global};
use std::process::Abort;
use std::test::Fail;

const NUMBER: Var = Var {
    slot: 0,
    kind: Kind::Number,
};

const TEXT: Var = Var {
    slot: 3,
    kind: Kind::Text,
};

const TEXT_IN_R1: Instr = Sets(0, R1);

const RETURN: Instr = Ret(R0);

const IF_EQUAL_3: Instr = Branch(Condition::Equal, 3);

const IF_EQUAL_4: Instr = Branch(Condition::Equal, 4);

const IF_EQUAL_5: Instr = Branch(Condition::Equal, 5);

const STRLEN: Instr = Call(Function::Strlen, R2);

const STRJOIN: Instr = Call(Function::Strjoin, R2);

const PUSH: Instr = Pushtv(R0);

const PUSH_TEXT: Instr = Pushtr(R1);

// What the validator returns: the kind, or the fault.
fn verdict(alloc: Global, difo: Difo) -> Result<Kind, DifFault> {
    match validate(alloc, difo) {
        Ok(valid) => Ok(valid.kind()),
        Err(fault) => Err(fault),
    }
}

// The texts of each object.
fn one_text(alloc: Global) -> Result<Vec<Text>, AllocError> {
    let text = Text::from_slice(alloc, b"a")?;
    let mut texts = Vec::new(alloc);
    texts.push(text)?;
    Ok(texts)
}

// What the validator returns for this code.
fn judgement(alloc: Global, code: &[Instr]) -> Result<Result<Kind, DifFault>, AllocError> {
    let code = Vec::from_slice(alloc, code)?;
    let texts = one_text(alloc)?;
    let numbers = Vec::from_slice(alloc, &[1])?;
    let difo = Difo {
        code,
        texts,
        numbers,
    };
    Ok(verdict(alloc, difo))
}

// Objects that are judged alike: the judgement, and the code of each.
type Table<'a> = (Result<Kind, DifFault>, &'a [&'a [Instr]]);

// The first code that is judged otherwise.
fn first_other_verdict(
    alloc: Global,
    expected: Result<Kind, DifFault>,
    codes: &[&[Instr]],
) -> Result<Option<usize>, AllocError> {
    for row in 0..codes.len() {
        let judged = judgement(alloc, codes[row])?;
        if judged != expected {
            return Ok(Some(row));
        }
    }
    Ok(None)
}

// The first object that is judged otherwise, by the number of its table and its number there.
fn first_wrong(alloc: Global, tables: &[Table<'_>]) -> Result<Option<(usize, usize)>, AllocError> {
    for table in 0..tables.len() {
        let (expected, codes) = tables[table];
        let other = first_other_verdict(alloc, expected, codes)?;
        if let Some(row) = other {
            return Ok(Some((table, row)));
        }
    }
    Ok(None)
}

// The first instruction that isn't refused so, if one instruction is before it and `ret r0`
// after it.
fn first_accepted(
    alloc: Global,
    before: Instr,
    instrs: &[Instr],
    fault: DifFault,
) -> Result<Option<usize>, AllocError> {
    for i in 0..instrs.len() {
        let judged = judgement(alloc, &[before, instrs[i], RETURN])?;
        if judged != Err(fault) {
            return Ok(Some(i));
        }
    }
    Ok(None)
}

// Instructions of the other kind of register, if r1 has a text.
const AFTER_A_TEXT: [Instr; 15] = [
    Alu(Operator::Add, R1, R0, R2),
    Alu(Operator::Add, R0, R1, R2),
    Not(R1, R2),
    Cmp(R1, R0),
    Cmp(R0, R1),
    Tst(R1),
    Scmp(R0, R1),
    Scmp(R1, R0),
    Ldga(0, R1, R2),
    Stts(NUMBER, R1),
    Stls(NUMBER, R1),
    Stts(TEXT, R0),
    Stls(TEXT, R0),
    Pushtv(R1),
    Pushtr(R0),
];

const OF_AN_UNSET_REGISTER: [Instr; 15] = [
    Alu(Operator::Sub, R1, R0, R2),
    Alu(Operator::Sub, R0, R1, R2),
    Not(R1, R2),
    Mov(R1, R2),
    Cmp(R1, R0),
    Cmp(R0, R1),
    Tst(R1),
    Scmp(R1, R2),
    Ldga(0, R1, R2),
    Stts(NUMBER, R1),
    Stls(TEXT, R1),
    Pushtr(R1),
    Pushtv(R1),
    Branch(Condition::Equal, 2),
    Ret(R1),
];

const OF_TUPLES: [Instr; 4] = [Ldtaa(NUMBER, R1), Sttaa(NUMBER, R0), STRLEN, STRJOIN];

#[test]
fn faults_of_single_instructions(rt: HostRuntime) -> Result<(), Fail> {
    let alloc = rt.alloc();
    let kind = DifFault::RegisterKind { pc: 1 };
    let accepted = first_accepted(alloc, TEXT_IN_R1, &AFTER_A_TEXT, kind)?;
    assert!(&rt; accepted == None);
    let unset = DifFault::Unset { pc: 1 };
    let accepted = first_accepted(alloc, Nop, &OF_AN_UNSET_REGISTER, unset)?;
    assert!(&rt; accepted == None);
    let tuple = DifFault::TupleShape { pc: 1 };
    let accepted = first_accepted(alloc, Nop, &OF_TUPLES, tuple)?;
    assert!(&rt; accepted == None);
    Ok(())
}

// What the validator returns for an object of this instruction and no tables.
fn judgement_without_tables(
    alloc: Global,
    load: Instr,
) -> Result<Result<Kind, DifFault>, AllocError> {
    let code = Vec::from_slice(alloc, &[load, RETURN])?;
    let difo = Difo {
        code,
        texts: Vec::new(alloc),
        numbers: Vec::new(alloc),
    };
    Ok(verdict(alloc, difo))
}

#[test]
fn tables_of_no_entries(rt: HostRuntime) -> Result<(), Fail> {
    for load in [Setx(0, R1), Sets(0, R1)] {
        let judged = judgement_without_tables(rt.alloc(), load)?;
        assert!(&rt; judged == Err(DifFault::TableIndex { pc: 0 }));
    }
    Ok(())
}

const OBJECTS_WITH_A_FAULT: [Table<'static>; 17] = [
    (Err(DifFault::Empty), &[&[]]),
    (
        Err(DifFault::NoReturn),
        &[&[Nop], &[RETURN, Nop], &[Ba(0), Mov(R1, R2)]],
    ),
    (Err(DifFault::Backward { pc: 0 }), &[&[Ba(0), RETURN]]),
    (
        Err(DifFault::Backward { pc: 1 }),
        &[
            &[Nop, Ba(1), RETURN],
            &[Nop, Ba(0), RETURN],
            &[Tst(R0), Branch(Condition::Equal, 1), RETURN],
        ],
    ),
    (
        Err(DifFault::OutOfCode { pc: 0 }),
        &[
            &[Ba(2), RETURN],
            &[Ba(5), RETURN],
            &[Ba(usize::MAX), RETURN],
        ],
    ),
    (
        Err(DifFault::OutOfCode { pc: 1 }),
        &[&[Tst(R0), IF_EQUAL_3, RETURN]],
    ),
    (
        Err(DifFault::RegisterKind { pc: 1 }),
        &[&[PUSH, Sttaa(TEXT, R0), RETURN]],
    ),
    (
        Err(DifFault::RegisterKind { pc: 4 }),
        &[
            &[TEXT_IN_R1, Tst(R0), IF_EQUAL_4, RETURN, Ret(R1)],
            &[TEXT_IN_R1, Tst(R0), IF_EQUAL_4, Ret(R1), RETURN],
        ],
    ),
    (
        Err(DifFault::Unset { pc: 0 }),
        &[
            &[Mov(R1, R2), RETURN],
            &[Branch(Condition::Equal, 1), RETURN],
        ],
    ),
    (
        Err(DifFault::Unset { pc: 1 }),
        &[&[PUSH, Sttaa(NUMBER, R1), RETURN]],
    ),
    (
        Err(DifFault::TupleShape { pc: 2 }),
        &[
            &[PUSH, Flushts, Ldtaa(NUMBER, R1), RETURN],
            &[TEXT_IN_R1, PUSH, STRLEN, RETURN],
            &[TEXT_IN_R1, PUSH_TEXT, STRJOIN, RETURN],
        ],
    ),
    (
        Err(DifFault::TupleShape { pc: 3 }),
        &[
            &[TEXT_IN_R1, PUSH_TEXT, PUSH_TEXT, STRLEN, RETURN],
            &[TEXT_IN_R1, PUSH_TEXT, PUSH, STRJOIN, RETURN],
            &[TEXT_IN_R1, PUSH, PUSH_TEXT, STRJOIN, RETURN],
        ],
    ),
    (
        Err(DifFault::TupleShape { pc: 4 }),
        &[&[TEXT_IN_R1, PUSH_TEXT, PUSH_TEXT, PUSH_TEXT, STRJOIN, RETURN]],
    ),
    (
        Err(DifFault::TupleShape { pc: 8 }),
        &[&[PUSH, PUSH, PUSH, PUSH, PUSH, PUSH, PUSH, PUSH, PUSH, RETURN]],
    ),
    (
        Err(DifFault::TupleShape { pc: 9 }),
        &[&[
            TEXT_IN_R1, PUSH_TEXT, PUSH_TEXT, PUSH_TEXT, PUSH_TEXT, PUSH_TEXT, PUSH_TEXT,
            PUSH_TEXT, PUSH_TEXT, PUSH_TEXT, RETURN,
        ]],
    ),
    (
        Err(DifFault::TableIndex { pc: 0 }),
        &[
            &[Setx(1, R1), RETURN],
            &[Sets(1, R1), RETURN],
            &[Setx(usize::MAX, R1), RETURN],
        ],
    ),
    (
        Err(DifFault::Variable { pc: 0 }),
        &[
            &[Ldgs(9, R1), RETURN],
            &[Ldgs(255, R1), RETURN],
            &[Ldga(1, R0, R1), RETURN],
            &[Ldga(255, R0, R1), RETURN],
        ],
    ),
];

#[test]
fn faults_of_objects(rt: HostRuntime) -> Result<(), Fail> {
    let wrong = first_wrong(rt.alloc(), &OBJECTS_WITH_A_FAULT)?;
    assert!(&rt; wrong == None);
    Ok(())
}

const WAYS_THAT_MEET: [Table<'static>; 4] = [
    (
        Err(DifFault::Unset { pc: 6 }),
        &[&[
            Ldgs(1, R1),
            Tst(R1),
            IF_EQUAL_5,
            Setx(0, R2),
            Ba(6),
            Sets(0, R2),
            Ret(R2),
        ]],
    ),
    (
        Err(DifFault::Unset { pc: 3 }),
        &[&[Tst(R0), IF_EQUAL_3, Setx(0, R2), Ret(R2)]],
    ),
    (
        Err(DifFault::TupleShape { pc: 3 }),
        &[&[Tst(R0), IF_EQUAL_3, PUSH, RETURN]],
    ),
    (
        Err(DifFault::TupleShape { pc: 6 }),
        &[&[
            TEXT_IN_R1,
            Tst(R0),
            IF_EQUAL_5,
            PUSH,
            Ba(6),
            PUSH_TEXT,
            RETURN,
        ]],
    ),
];

#[test]
fn where_ways_meet_only_what_they_agree_on_is_kept(rt: HostRuntime) -> Result<(), Fail> {
    let wrong = first_wrong(rt.alloc(), &WAYS_THAT_MEET)?;
    assert!(&rt; wrong == None);
    Ok(())
}

const FAULTS_AT_TWO_PLACES: [Table<'static>; 9] = [
    (
        Err(DifFault::Backward { pc: 1 }),
        &[&[Nop, Ba(0), Setx(1, R1), RETURN]],
    ),
    (
        Err(DifFault::OutOfCode { pc: 0 }),
        &[&[Ba(9), Ba(0), RETURN]],
    ),
    (
        Err(DifFault::RegisterKind { pc: 0 }),
        &[
            &[Pushtr(R0), Mov(R1, R2), RETURN],
            &[Pushtr(R0), Ba(0), RETURN],
        ],
    ),
    (
        Err(DifFault::Unset { pc: 0 }),
        &[&[Mov(R1, R2), Pushtr(R0), RETURN]],
    ),
    (
        Err(DifFault::TupleShape { pc: 0 }),
        &[
            &[STRLEN, Ba(0), RETURN],
            &[STRLEN, Mov(R1, R2), RETURN],
            &[STRLEN, Pushtr(R0), RETURN],
        ],
    ),
    (
        Err(DifFault::TableIndex { pc: 1 }),
        &[&[Ba(2), Setx(1, R1), Mov(R2, R1), RETURN]],
    ),
    (
        Err(DifFault::Variable { pc: 0 }),
        &[
            &[Ldgs(9, R1), Setx(1, R2), RETURN],
            &[Ldgs(9, R1), STRLEN, RETURN],
        ],
    ),
    (
        Err(DifFault::Unset { pc: 2 }),
        &[&[Ba(2), Mov(R1, R2), Mov(R3, R1), RETURN]],
    ),
    (Err(DifFault::NoReturn), &[&[Setx(1, R1), Nop]]),
];

const SEVERAL_FAULTS: [Table<'static>; 13] = [
    (
        Err(DifFault::TableIndex { pc: 0 }),
        &[&[Setx(3, R1), Ba(0), RETURN]],
    ),
    (
        Err(DifFault::Variable { pc: 0 }),
        &[&[Ldgs(9, R1), Ba(9), RETURN]],
    ),
    (
        Err(DifFault::Unset { pc: 0 }),
        &[
            &[Mov(R1, R2), Ba(0), RETURN],
            &[Ldga(1, R1, R2), RETURN],
            &[Sttaa(NUMBER, R1), RETURN],
        ],
    ),
    (
        Err(DifFault::Unset { pc: 1 }),
        &[&[Nop, Alu(Operator::Add, R1, R0, R2), Setx(7, R2), RETURN]],
    ),
    (
        Err(DifFault::Backward { pc: 0 }),
        &[&[Branch(Condition::Equal, 0), RETURN]],
    ),
    (
        Err(DifFault::OutOfCode { pc: 0 }),
        &[&[Branch(Condition::Equal, 2), RETURN]],
    ),
    (
        Err(DifFault::RegisterKind { pc: 1 }),
        &[
            &[TEXT_IN_R1, Alu(Operator::Add, R1, R2, R3), RETURN],
            &[TEXT_IN_R1, Ldga(1, R1, R2), RETURN],
        ],
    ),
    (
        Err(DifFault::RegisterKind { pc: 8 }),
        &[&[
            PUSH,
            PUSH,
            PUSH,
            PUSH,
            PUSH,
            PUSH,
            PUSH,
            PUSH,
            Pushtr(R0),
            RETURN,
        ]],
    ),
    (
        Err(DifFault::Unset { pc: 8 }),
        &[&[
            PUSH,
            PUSH,
            PUSH,
            PUSH,
            PUSH,
            PUSH,
            PUSH,
            PUSH,
            Pushtv(R1),
            RETURN,
        ]],
    ),
    (
        Err(DifFault::TupleShape { pc: 3 }),
        &[
            &[Tst(R0), IF_EQUAL_3, PUSH, Setx(5, R1), RETURN],
            &[Tst(R0), IF_EQUAL_3, PUSH, Ldgs(9, R1), RETURN],
        ],
    ),
    (
        Err(DifFault::Backward { pc: 3 }),
        &[&[Tst(R0), IF_EQUAL_3, PUSH, Ba(0), RETURN]],
    ),
    (
        Err(DifFault::OutOfCode { pc: 3 }),
        &[&[Tst(R0), IF_EQUAL_3, PUSH, IF_EQUAL_5, RETURN]],
    ),
    (Err(DifFault::NoReturn), &[&[Ba(0), Setx(3, R1)]]),
];

#[test]
fn the_least_place_is_reported_and_there_the_lowest_number(rt: HostRuntime) -> Result<(), Fail> {
    let wrong = first_wrong(rt.alloc(), &FAULTS_AT_TWO_PLACES)?;
    assert!(&rt; wrong == None);
    let wrong = first_wrong(rt.alloc(), &SEVERAL_FAULTS)?;
    assert!(&rt; wrong == None);
    Ok(())
}

const UNREACHED_FAULTS: [Table<'static>; 4] = [
    (
        Err(DifFault::TableIndex { pc: 1 }),
        &[&[Ba(2), Setx(1, R1), RETURN], &[Ba(2), Sets(1, R1), RETURN]],
    ),
    (
        Err(DifFault::Variable { pc: 1 }),
        &[
            &[Ba(2), Ldgs(9, R1), RETURN],
            &[Ba(2), Ldga(1, R0, R1), RETURN],
        ],
    ),
    (
        Err(DifFault::Backward { pc: 1 }),
        &[&[Ba(2), Ba(1), RETURN]],
    ),
    (
        Err(DifFault::OutOfCode { pc: 1 }),
        &[&[RETURN, Ba(3), RETURN]],
    ),
];

#[test]
fn faults_in_code_that_no_way_reaches(rt: HostRuntime) -> Result<(), Fail> {
    let wrong = first_wrong(rt.alloc(), &UNREACHED_FAULTS)?;
    assert!(&rt; wrong == None);
    Ok(())
}

const VALID: [Table<'static>; 2] = [
    (
        Ok(Kind::Number),
        &[
            &[RETURN],
            &[Ba(1), RETURN],
            &[Ba(2), Mov(R1, R2), RETURN],
            &[Ba(2), Pushtr(R0), RETURN],
            &[Ba(2), STRLEN, RETURN],
            &[Ba(2), Ret(R1), RETURN],
            &[Ba(3), TEXT_IN_R1, Ret(R1), RETURN],
            &[RETURN, TEXT_IN_R1, Ret(R1)],
            &[RETURN, Ret(R1)],
            &[RETURN, Branch(Condition::Equal, 2), RETURN],
            &[
                PUSH, PUSH, PUSH, PUSH, PUSH, PUSH, PUSH, PUSH, Flushts, PUSH, RETURN,
            ],
            &[TEXT_IN_R1, PUSH_TEXT, STRLEN, Ret(R2)],
            &[Sets(0, R0), Not(R0, R1), Ret(R1)],
        ],
    ),
    (
        Ok(Kind::Text),
        &[
            &[TEXT_IN_R1, Ret(R1)],
            &[
                PUSH,
                PUSH,
                PUSH,
                PUSH,
                PUSH,
                PUSH,
                PUSH,
                PUSH,
                Ldtaa(TEXT, R1),
                Sttaa(TEXT, R1),
                Ret(R1),
            ],
            &[TEXT_IN_R1, PUSH_TEXT, PUSH_TEXT, STRJOIN, Ret(R2)],
            &[Setx(0, R1), Ldgs(8, R2), Ldga(0, R1, R1), Ret(R2)],
            &[Ldgs(3, R1), Tst(R1), Ldgs(4, R1), Scmp(R1, R1), Ret(R1)],
            &[Tst(R0), IF_EQUAL_4, TEXT_IN_R1, Ba(5), TEXT_IN_R1, Ret(R1)],
        ],
    ),
];

#[test]
fn valid_objects_return_their_kinds(rt: HostRuntime) -> Result<(), Fail> {
    let wrong = first_wrong(rt.alloc(), &VALID)?;
    assert!(&rt; wrong == None);
    Ok(())
}

// Whether an instruction prints as this text.
fn prints(alloc: Global, instr: Instr, text: &str) -> Result<bool, AllocError> {
    let shown = format!(in alloc; "{instr}")?;
    Ok(shown.as_str() == text)
}

// Instructions, and how they print.
const PRINTED: [(Instr, &str); 25] = [
    (Alu(Operator::Add, R1, R2, R3), "add r1, r2, r3"),
    (Alu(Operator::Srem, R1, R0, R2), "srem r1, r0, r2"),
    (Not(R1, R2), "not r1, r2"),
    (Mov(R1, R2), "mov r1, r2"),
    (Cmp(R1, R0), "cmp r1, r0"),
    (Tst(R1), "tst r1"),
    (Scmp(R1, R2), "scmp r1, r2"),
    (Ba(5), "ba 5"),
    (Branch(Condition::BelowEqual, 12), "bleu 12"),
    (Setx(0, R1), "setx 0, r1"),
    (Sets(3, R2), "sets 3, r2"),
    (Ldgs(4, R1), "ldgs 4, r1"),
    (Ldga(0, R1, R2), "ldga 0, r1, r2"),
    (Ldts(NUMBER, R1), "ldts n0, r1"),
    (Stts(TEXT, R1), "stts t3, r1"),
    (Ldls(TEXT, R1), "ldls t3, r1"),
    (Stls(NUMBER, R1), "stls n0, r1"),
    (Pushtr(R1), "pushtr r1"),
    (Pushtv(R0), "pushtv r0"),
    (Flushts, "flushts"),
    (Ldtaa(NUMBER, R1), "ldtaa n0, r1"),
    (Sttaa(TEXT, R2), "sttaa t3, r2"),
    (Call(Function::Strjoin, R1), "call strjoin, r1"),
    (Ret(R0), "ret r0"),
    (Nop, "nop"),
];

#[test]
fn instructions_print_as_one_reads_them(rt: HostRuntime) -> Result<(), Fail> {
    for i in 0..PRINTED.len() {
        let (instr, text) = PRINTED[i];
        let prints = prints(rt.alloc(), instr, text)?;
        assert!(&rt; prints);
    }
    Ok(())
}

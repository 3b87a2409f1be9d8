//! Instructions as one reads them: `add r1, r2, r3`.

ghost use Rattle.std.specs.Fmt.{decimal, WritesOnOk};
ghost use Rattle.std.specs.Prelude.{◌≡◌, Some};
ghost use Rattle.dif_validate.specs.Texts as spec;

use crate::instruction::{Condition, Function, Instr, Operator};
use crate::register::Reg;
use d_values::{Kind, Var};
use std::fmt;

// A variable: `n` or `t` for its kind, and its slot.
#[derive(Clone, Copy)]
struct Shown(Var);

impl fmt::Display for Shown {
    ghost output = { λ x. Some (spec.variable_name x.0) };

    fn fmt<W: fmt::Write>(&self, f: &mut fmt::Formatter<W>) -> fmt::Result {
        let slot = self.0.slot;
        match self.0.kind {
            Kind::Number => write!(f, "n{slot}"),
            Kind::Text => write!(f, "t{slot}"),
        }
    }
}

impl fmt::Display for Reg {
    ghost output = { λ r. Some (spec.register_name r) };

    fn fmt<W: fmt::Write>(&self, f: &mut fmt::Formatter<W>) -> fmt::Result {
        write!(f, "r{}", self.number())
    }
}

impl Operator {
    fn name(self) -> &'static str
        ensures { result.now ≡ spec.operator_name self }
    {
        match self {
            Operator::Or => "or",
            Operator::Xor => "xor",
            Operator::And => "and",
            Operator::Sll => "sll",
            Operator::Srl => "srl",
            Operator::Sra => "sra",
            Operator::Sub => "sub",
            Operator::Add => "add",
            Operator::Mul => "mul",
            Operator::Sdiv => "sdiv",
            Operator::Udiv => "udiv",
            Operator::Srem => "srem",
            Operator::Urem => "urem",
        }
    }
}

impl fmt::Display for Operator {
    ghost output = { λ op. Some (spec.operator_name op) };

    fn fmt<W: fmt::Write>(&self, f: &mut fmt::Formatter<W>) -> fmt::Result {
        f.write_str(self.name())
    }
}

impl Condition {
    fn name(self) -> &'static str
        ensures { result.now ≡ spec.branch_name self }
    {
        match self {
            Condition::Equal => "be",
            Condition::NotEqual => "bne",
            Condition::Greater => "bg",
            Condition::GreaterEqual => "bge",
            Condition::Less => "bl",
            Condition::LessEqual => "ble",
            Condition::Above => "bgu",
            Condition::AboveEqual => "bgeu",
            Condition::Below => "blu",
            Condition::BelowEqual => "bleu",
        }
    }
}

impl fmt::Display for Condition {
    ghost output = { λ condition. Some (spec.branch_name condition) };

    fn fmt<W: fmt::Write>(&self, f: &mut fmt::Formatter<W>) -> fmt::Result {
        f.write_str(self.name())
    }
}

impl fmt::Display for Function {
    ghost output = { λ function. Some (spec.function_name function) };

    fn fmt<W: fmt::Write>(&self, f: &mut fmt::Formatter<W>) -> fmt::Result {
        f.write_str(match self {
            Function::Strlen => "strlen",
            Function::Strjoin => "strjoin",
        })
    }
}

// Writes an instruction by its name and a register.
fn one<W: fmt::Write>(f: &mut fmt::Formatter<W>, name: &str, a: Reg) -> fmt::Result
    ensures { WritesOnOk W.write_str_gives f.old result
        (spec.one name.now (spec.register_name a)) f.new }
{
    write!(f, "{name} {a}")
}

// Writes an instruction by its name and two registers.
fn two<W: fmt::Write>(f: &mut fmt::Formatter<W>, name: &str, a: Reg, b: Reg) -> fmt::Result
    ensures { WritesOnOk W.write_str_gives f.old result
        (spec.two name.now (spec.register_name a) (spec.register_name b)) f.new }
{
    write!(f, "{name} {a}, {b}")
}

// Writes an instruction by its name, an index and a register.
fn indexed<W: fmt::Write>(f: &mut fmt::Formatter<W>, name: &str, i: usize, a: Reg) -> fmt::Result
    ensures { WritesOnOk W.write_str_gives f.old result
        (spec.two name.now (decimal i) (spec.register_name a)) f.new }
{
    write!(f, "{name} {i}, {a}")
}

// Writes an instruction by its name, a variable and a register.
fn variable<W: fmt::Write>(f: &mut fmt::Formatter<W>, name: &str, x: Var, a: Reg) -> fmt::Result
    ensures { WritesOnOk W.write_str_gives f.old result
        (spec.two name.now (spec.variable_name x) (spec.register_name a)) f.new }
{
    let x = Shown(x);
    write!(f, "{name} {x}, {a}")
}

// Writes an instruction by its name and three registers.
fn three<W: fmt::Write>(
    f: &mut fmt::Formatter<W>,
    name: &str,
    a: Reg,
    b: Reg,
    d: Reg,
) -> fmt::Result
    ensures { WritesOnOk W.write_str_gives f.old result
        (spec.three name.now (spec.register_name a) (spec.register_name b) (spec.register_name d))
        f.new }
{
    write!(f, "{name} {a}, {b}, {d}")
}

// Writes a branch by its name and its target.
fn branch<W: fmt::Write>(f: &mut fmt::Formatter<W>, name: &str, to: usize) -> fmt::Result
    ensures { WritesOnOk W.write_str_gives f.old result (spec.one name.now (decimal to)) f.new }
{
    write!(f, "{name} {to}")
}

impl fmt::Display for Instr {
    ghost output = { λ i. Some (spec.instr_text i) };

    fn fmt<W: fmt::Write>(&self, f: &mut fmt::Formatter<W>) -> fmt::Result {
        match *self {
            Instr::Alu(op, a, b, d) => three(f, op.name(), a, b, d),
            Instr::Not(a, d) => two(f, "not", a, d),
            Instr::Mov(a, d) => two(f, "mov", a, d),
            Instr::Cmp(a, b) => two(f, "cmp", a, b),
            Instr::Tst(a) => one(f, "tst", a),
            Instr::Scmp(a, b) => two(f, "scmp", a, b),
            Instr::Ba(to) => branch(f, "ba", to),
            Instr::Branch(condition, to) => branch(f, condition.name(), to),
            Instr::Setx(i, d) => indexed(f, "setx", i, d),
            Instr::Sets(i, d) => indexed(f, "sets", i, d),
            Instr::Ldgs(v, d) => indexed(f, "ldgs", usize::from(v), d),
            Instr::Ldga(v, a, d) => write!(f, "ldga {v}, {a}, {d}"),
            Instr::Ldts(x, d) => variable(f, "ldts", x, d),
            Instr::Stts(x, a) => variable(f, "stts", x, a),
            Instr::Ldls(x, d) => variable(f, "ldls", x, d),
            Instr::Stls(x, a) => variable(f, "stls", x, a),
            Instr::Pushtr(a) => one(f, "pushtr", a),
            Instr::Pushtv(a) => one(f, "pushtv", a),
            Instr::Flushts => f.write_str("flushts"),
            Instr::Ldtaa(x, d) => variable(f, "ldtaa", x, d),
            Instr::Sttaa(x, a) => variable(f, "sttaa", x, a),
            Instr::Call(function, d) => write!(f, "call {function}, {d}"),
            Instr::Ret(a) => one(f, "ret", a),
            Instr::Nop => f.write_str("nop"),
        }
    }
}

// An instruction is shown as it is written.
impl fmt::Debug for Instr {
    fn fmt<W: fmt::Write>(&self, f: &mut fmt::Formatter<W>) -> fmt::Result {
        fmt::Display::fmt(self, f)
    }
}

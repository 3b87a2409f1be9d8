//! Instructions, each with its meaning as an equation: `a`, `b` and `d` are registers, `pc` is the
//! index of the next instruction, and `tuple` is a list of at most 8 integers and texts.

use crate::register::Reg;
use d_values::Var;

/// What an instruction makes of two integers, modulo 2^64.
#[derive(Clone, Copy, Debug, PartialEq, Eq)]
pub enum Operator {
    /// `or`:   `a | b`
    Or,
    /// `xor`:  `a ^ b`
    Xor,
    /// `and`:  `a & b`
    And,
    /// `sll`:  `a << b % 64`
    Sll,
    /// `srl`:  `a >> b % 64`, filled with zeros
    Srl,
    /// `sra`:  `a >> b % 64`, filled with copies of the sign
    Sra,
    /// `sub`:  `a - b`
    Sub,
    /// `add`:  `a + b`
    Add,
    /// `mul`:  `a * b`
    Mul,
    /// `sdiv`: `a / b` of signed integers, cut toward zero
    Sdiv,
    /// `udiv`: `a / b` of unsigned integers
    Udiv,
    /// `srem`: `a % b` of signed integers: what `sdiv` leaves
    Srem,
    /// `urem`: `a % b` of unsigned integers
    Urem,
}

/// What a branch asks of the two values that were compared.
#[derive(Clone, Copy, Debug, PartialEq, Eq)]
pub enum Condition {
    /// `be`:   `a == b`
    Equal,
    /// `bne`:  `a != b`
    NotEqual,
    /// `bg`:   `a > b`, signed
    Greater,
    /// `bge`:  `a >= b`, signed
    GreaterEqual,
    /// `bl`:   `a < b`, signed
    Less,
    /// `ble`:  `a <= b`, signed
    LessEqual,
    /// `bgu`:  `a > b`, unsigned
    Above,
    /// `bgeu`: `a >= b`, unsigned
    AboveEqual,
    /// `blu`:  `a < b`, unsigned
    Below,
    /// `bleu`: `a <= b`, unsigned
    BelowEqual,
}

/// A function of the tuple.
#[derive(Clone, Copy, Debug, PartialEq, Eq)]
pub enum Function {
    /// `strlen`:  how many bytes the tuple's one text has
    Strlen,
    /// `strjoin`: the tuple's two texts joined, cut to 255 bytes
    Strjoin,
}

/// The number of `probename`, the last of the built-in variables that `ldgs` reads.
pub const MAX_BUILT_IN: u8 = 8;

/// One instruction.
#[derive(Clone, Copy, PartialEq, Eq)]
pub enum Instr {
    /// `OP a, b, d`:    `d = a OP b`; a division by 0 ends the run
    Alu(Operator, Reg, Reg, Reg),
    /// `not a, d`:      `d = !a`
    Not(Reg, Reg),
    /// `mov a, d`:      `d = a`
    Mov(Reg, Reg),
    /// `cmp a, b`:      `compared = (a, b)`, two integers
    Cmp(Reg, Reg),
    /// `tst a`:         `compared = (a, 0)`
    Tst(Reg),
    /// `scmp a, b`:     `compared = (a, b)`, two texts, by their bytes
    Scmp(Reg, Reg),
    /// `ba to`:         `pc = to`
    Ba(usize),
    /// `bCOND to`:      `if compared is COND { pc = to }`
    Branch(Condition, usize),
    /// `setx i, d`:     `d = numbers[i]`
    Setx(usize, Reg),
    /// `sets i, d`:     `d = texts[i]`
    Sets(usize, Reg),
    /// `ldgs v, d`:     `d = built_ins[v]`: timestamp, cpu, pid, tid, execname, probeprov,
    /// probemod, probefunc, probename
    Ldgs(u8, Reg),
    /// `ldga v, a, d`:  `d = arguments[a]`, 0 if `a` is over 9; `v` is 0
    Ldga(u8, Reg, Reg),
    /// `ldts x, d`:     `d = self->x`
    Ldts(Var, Reg),
    /// `stts x, a`:     `self->x = a`
    Stts(Var, Reg),
    /// `ldls x, d`:     `d = this->x`
    Ldls(Var, Reg),
    /// `stls x, a`:     `this->x = a`
    Stls(Var, Reg),
    /// `pushtr a`:      `tuple = tuple + [a]`, a text
    Pushtr(Reg),
    /// `pushtv a`:      `tuple = tuple + [a]`, an integer, read as signed
    Pushtv(Reg),
    /// `flushts`:       `tuple = []`
    Flushts,
    /// `ldtaa x, d`:    `d = self->x[tuple]`
    Ldtaa(Var, Reg),
    /// `sttaa x, a`:    `self->x[tuple] = a`
    Sttaa(Var, Reg),
    /// `call f, d`:     `d = f(tuple)`
    Call(Function, Reg),
    /// `ret a`:         the run ends with `a`
    Ret(Reg),
    /// `nop`:           nothing
    Nop,
}

//! Typed trees: conversions are nodes of their own, variables are slots, and each word is what it
//! names.

use aggregations::AggFn;
use d_lexer::ByteString;
use d_parser::{Description, LogicOperator, Step, UnaryOperator};
use d_values::{ArithmeticOperator, ComparisonOperator, DType, IntType, Kind, ShiftOperator, Text};

/// A built-in variable (Dynamic Tracing Guide, "Built-in Variables").
#[derive(Clone, Copy, Debug, PartialEq, Eq)]
pub enum BuiltIn {
    /// `arg0` to `arg9`, by number.
    Argument(u8),
    /// `timestamp`: the time of the firing.
    Timestamp,
    /// `cpu`
    Cpu,
    /// `pid`: the process.
    Pid,
    /// `tid`: the thread.
    Tid,
    /// `execname`: the name of the process's program.
    Execname,
    /// `probeprov`: the probe's provider.
    Probeprov,
    /// `probemod`: the probe's module.
    Probemod,
    /// `probefunc`: the probe's function.
    Probefunc,
    /// `probename`: the probe's name.
    Probename,
}

/// Where a variable is kept: `self->` for the thread, `this->` for the clauses of a firing.
#[derive(Clone, Copy, Debug, PartialEq, Eq)]
pub enum Space {
    /// `self->`
    Thread,
    /// `this->`
    Clause,
}

/// A variable: its index among the script's variables, and the type of its values.
#[derive(Clone, Copy, Debug, PartialEq, Eq)]
pub struct Variable {
    /// Which variables it is one of.
    pub space: Space,
    /// Its index among the script's variables.
    pub slot: u16,
    /// The type of its values.
    pub holds: DType,
}

/// An operator on two integers, with the type that it works in and gives.
#[derive(Clone, Copy, Debug, PartialEq, Eq)]
pub enum Operation {
    /// `* / % + - & ^ |`
    Arithmetic(ArithmeticOperator, IntType),
    /// `<<` and `>>`, in the left operand's type.
    Shift(ShiftOperator, IntType),
}

/// Which value `++` and `--` give: before a variable its new one, after it the old one.
#[derive(Clone, Copy, Debug, PartialEq, Eq)]
pub enum Answer {
    /// `++x`, `--x`
    New,
    /// `x++`, `x--`
    Old,
}

/// A typed expression. A variable without keys is a scalar.
#[derive(Drop)]
pub enum TypedExpr {
    /// An integer constant: its type, and its value, which fits it.
    Constant(IntType, u64),
    /// A text constant of at most 255 bytes.
    Text(Text),
    /// A value of the firing's.
    BuiltIn(BuiltIn),
    /// The value of a variable.
    Read(Variable, Vec<TypedExpr>),
    /// An operator before an operand of the type.
    Unary(UnaryOperator, IntType, Box<TypedExpr>),
    /// Both operands have the operation's type; a shift's count has its own.
    Operate(Operation, Box<TypedExpr>, Box<TypedExpr>),
    /// Two integers of the type.
    Compare(ComparisonOperator, IntType, Box<TypedExpr>, Box<TypedExpr>),
    /// Two texts.
    CompareText(ComparisonOperator, Box<TypedExpr>, Box<TypedExpr>),
    /// Two integers, of which `&&` and `||` may leave the second.
    Logic(LogicOperator, Box<TypedExpr>, Box<TypedExpr>),
    /// `test ? first : second`, both of the type.
    Choice(DType, Box<TypedExpr>, Box<TypedExpr>, Box<TypedExpr>),
    /// An integer of the first type as one of the second.
    Convert(IntType, IntType, Box<TypedExpr>),
    /// `x = value`, the value of the variable's type.
    Assign(Variable, Vec<TypedExpr>, Box<TypedExpr>),
    /// `x op= value`: x is converted to the operation's type, and the result back to that of x.
    Update(Operation, Variable, Vec<TypedExpr>, Box<TypedExpr>),
    /// `++` or `--` on a variable.
    Step(Step, Answer, Variable, Vec<TypedExpr>),
    /// `strlen(text)`
    Strlen(Box<TypedExpr>),
    /// `strjoin(first, second)`
    Strjoin(Box<TypedExpr>, Box<TypedExpr>),
}

/// How printf writes an argument (Dynamic Tracing Guide, "Output Formatting").
#[derive(Clone, Copy, Debug, PartialEq, Eq)]
pub enum Letter {
    /// `d` or `i`: with its sign.
    Signed,
    /// `u`
    Unsigned,
    /// `x`
    Hexadecimal,
    /// `o`
    Octal,
    /// `s`
    Text,
}

/// A conversion of a format. The width is 0 if there is none.
#[derive(Clone, Copy, Debug, PartialEq, Eq)]
pub struct Conversion {
    /// `-`: put left.
    pub left: bool,
    /// `0`: filled with zeros.
    pub zeros: bool,
    /// The least number of bytes.
    pub width: u8,
    /// What it makes of its argument.
    pub letter: Letter,
}

/// A piece of a format.
#[derive(Clone, Copy, Debug, PartialEq, Eq)]
pub enum Piece {
    /// A byte that is written as it is.
    Byte(u8),
    /// Where the next argument goes.
    Argument(Conversion),
}

/// A typed statement.
#[derive(Drop)]
pub enum TypedStmt {
    /// An expression, for its assignments.
    Evaluate(TypedExpr),
    /// `trace(value)`
    Trace(TypedExpr),
    /// `printf(format, arguments)`: an argument for each conversion, of its kind.
    Print(Vec<Piece>, Vec<TypedExpr>),
    /// `exit(status)`
    Exit(TypedExpr),
    /// `@name[keys] = function(argument)`: the aggregation's index, its keys, and what its function
    /// takes, if any.
    Aggregate(usize, Vec<TypedExpr>, Option<TypedExpr>),
}

/// A typed clause.
#[derive(Drop)]
pub struct TypedClause {
    /// The probes that it is for.
    pub descriptions: Vec<Description>,
    /// What has to be other than zero, if anything.
    pub predicate: Option<TypedExpr>,
    /// What is done, in order.
    pub statements: Vec<TypedStmt>,
}

/// An aggregation of a script: its name (`_` if it has none), the kinds of its keys, and its
/// function.
#[derive(Drop)]
pub struct TypedAggregation {
    /// The word after its `@`.
    pub name: ByteString,
    /// The kind of each key, from left to right.
    pub keys: Vec<Kind>,
    /// What it makes of its arguments.
    pub function: AggFn,
}

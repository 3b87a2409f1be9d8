//! The tree of a script. A `line` is that of the construct's first token.

ghost use Rattle.std.specs.Prelude.{◌≡◌};

use crate::operators::{AssignOperator, BinaryOperator, Step, UnaryOperator};
use d_lexer::{ByteString, Suffix};
use std::alloc::AllocError;

/// A script: its declarations and clauses in the order of the text.
#[derive(Drop)]
pub struct Script {
    /// In the order of the text.
    pub items: Vec<Item>,
}

/// A part of a script.
#[derive(Drop)]
pub enum Item {
    /// The declaration of a variable.
    Declaration(Declaration),
    /// What is done when a probe fires.
    Clause(Clause),
}

/// `self type word [types];` or `this type word;`. A scalar has no keys.
#[derive(Drop)]
pub enum Declaration {
    /// A thread-local variable, or an array of such with the types of its keys.
    Thread {
        line: usize,
        declared: DeclaredType,
        name: ByteString,
        keys: Vec<DeclaredType>,
    },
    /// A clause-local variable.
    Clause {
        line: usize,
        declared: DeclaredType,
        name: ByteString,
    },
}

/// A type that a declaration names.
#[derive(Clone, Copy, Debug, PartialEq, Eq)]
pub enum DeclaredType {
    /// A type of integers.
    Integer(IntegerType),
    /// `string`
    Text,
}

/// An integer type by its width and sign; `long` is `Int64`.
#[derive(Clone, Copy, Debug, PartialEq, Eq)]
pub enum IntegerType {
    /// `int8_t`, `char`
    Int8,
    /// `int16_t`, `short`
    Int16,
    /// `int32_t`, `int`
    Int32,
    /// `int64_t`, `long`, `long long`
    Int64,
    /// `uint8_t`, `unsigned char`
    Uint8,
    /// `uint16_t`, `unsigned short`
    Uint16,
    /// `uint32_t`, `unsigned int`
    Uint32,
    /// `uint64_t`, `unsigned long`, `unsigned long long`
    Uint64,
}

/// Probe descriptions, perhaps a predicate, and what is done.
#[derive(Drop)]
pub struct Clause {
    /// The probes that it is for: one description at least.
    pub descriptions: Vec<Description>,
    /// What has to be other than zero, if anything.
    pub predicate: Option<Expr>,
    /// What is done, in order.
    pub statements: Vec<Stmt>,
}

/// The four patterns of a probe description; a field that isn't given is empty.
#[derive(Drop)]
pub struct Description {
    /// Who makes the probe known.
    pub provider: ByteString,
    /// Where it is, such as a kernel module.
    pub module: ByteString,
    /// In which function.
    pub function: ByteString,
    /// What it is called, such as `entry`.
    pub name: ByteString,
}

impl Clone for Description {
    ghost is_clone = { λ d e. e ≡ d };

    fn clone(&self) -> Result<Description, AllocError> {
        let provider = self.provider.clone()?;
        let module = self.module.clone()?;
        let function = self.function.clone()?;
        let name = self.name.clone()?;
        Ok(Description {
            provider,
            module,
            function,
            name,
        })
    }
}

/// A statement.
#[derive(Drop)]
pub enum Stmt {
    /// An expression, or an action such as `trace(value)`.
    Expression(Expr),
    /// `@name[keys] = function(arguments)`
    Aggregation {
        line: usize,
        name: ByteString,
        keys: Vec<Expr>,
        function: ByteString,
        arguments: Vec<Expr>,
    },
}

/// An expression, without its parentheses.
#[derive(Drop)]
#[cycle(expression)]
pub enum Expr {
    /// An integer or a text.
    Constant {
        line: usize,
        constant: Constant,
    },
    /// The value of a variable or built-in.
    Read(Target),
    /// `function(arguments)`
    Call {
        line: usize,
        function: ByteString,
        arguments: Vec<Expr>,
    },
    /// An operator before its operand.
    Unary {
        line: usize,
        operator: UnaryOperator,
        operand: Box<Expr>,
    },
    /// `(type)operand`
    Cast {
        line: usize,
        to: IntegerType,
        operand: Box<Expr>,
    },
    /// `++x`, `--x`
    Before {
        line: usize,
        step: Step,
        target: Target,
    },
    /// `x++`, `x--`
    After {
        target: Target,
        step: Step,
    },
    /// An operator between its operands.
    Binary {
        operator: BinaryOperator,
        left: Box<Expr>,
        right: Box<Expr>,
    },
    /// `test ? first : second`
    Choice {
        test: Box<Expr>,
        first: Box<Expr>,
        second: Box<Expr>,
    },
    /// `target = value`, or another assignment operator.
    Assign {
        operator: AssignOperator,
        target: Target,
        value: Box<Expr>,
    },
}

/// A constant in an expression.
#[derive(Drop)]
pub enum Constant {
    /// An integer: its value, and the letters after its digits.
    Number { value: u64, suffix: Suffix },
    /// The bytes of a text, with the escapes decoded.
    Text(ByteString),
}

/// What can be assigned: a variable, perhaps with keys.
#[derive(Drop)]
#[cycle(expression)]
pub struct Target {
    /// Whose value, or with keys which array.
    pub variable: Variable,
    /// None without brackets.
    pub keys: Vec<Expr>,
}

/// A variable by its name.
#[derive(Drop)]
pub enum Variable {
    /// `word`
    Plain { line: usize, name: ByteString },
    /// `self->word`
    Thread { line: usize, name: ByteString },
    /// `this->word`
    Clause { line: usize, name: ByteString },
}

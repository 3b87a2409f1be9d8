//! What marks do before and after an operand.

ghost use Rattle.std.specs.Prelude.{◌≡◌, ◌<◌};
ghost use Rattle.d_parser.specs.Marks as spec;
ghost use Rattle.d_parser.specs.Steps.Marks as steps;

use crate::operators::{
    AssignOperator, BinaryOperator, LogicOperator as Logic, Step, UnaryOperator,
};
use d_lexer::{Mark, Token, TokenKind};
use d_values::{
    ArithmeticOperator as Arithmetic, ComparisonOperator as Comparison, ShiftOperator as Shift,
};

/// The level of an assignment, which each expression has at least. From level to level they bind
/// tighter; operators have those from `OR` up to just before `UNARY`, and smaller parts the one
/// after it.
pub const ASSIGNMENT: u8 = 1;

/// The level of a condition.
pub const CONDITION: u8 = 2;

/// The level of `||`, which binds loosest of the operators.
pub const OR: u8 = 3;

/// The level of `^^`.
pub const XOR: u8 = 4;

/// The level of `&&`.
pub const AND: u8 = 5;

/// The level of `|`.
pub const BIT_OR: u8 = 6;

/// The level of `^`.
pub const BIT_XOR: u8 = 7;

/// The level of `&`.
pub const BIT_AND: u8 = 8;

/// The level of `==` and `!=`.
pub const EQUALITY: u8 = 9;

/// The level of `<`, `<=`, `>` and `>=`.
pub const RELATIONAL: u8 = 10;

/// The level of `<<` and `>>`.
pub const SHIFT: u8 = 11;

/// The level of `+` and `-` between operands.
pub const ADDITIVE: u8 = 12;

/// The level of `*`, `/` and `%`.
pub const MULTIPLICATIVE: u8 = 13;

/// The level of a unary operator with its operand.
pub const UNARY: u8 = 14;

/// What a mark before an operand does.
#[derive(Clone, Copy)]
pub enum Prefix {
    Unary(UnaryOperator),
    Step(Step),
    Other,
}

/// What a mark after an operand does.
#[derive(Clone, Copy)]
pub enum Follow {
    Infix(BinaryOperator),
    Assign(AssignOperator),
    Step(Step),
    Question,
    Bracket,
    Parenthesis,
    Other,
}

pub(crate) fn prefix_of(mark: Mark) -> Prefix
    ensures { result ≡ steps.prefix_of mark }
{
    match mark {
        Mark::Not => Prefix::Unary(UnaryOperator::Not),
        Mark::Tilde => Prefix::Unary(UnaryOperator::Complement),
        Mark::Minus => Prefix::Unary(UnaryOperator::Negate),
        Mark::Plus => Prefix::Unary(UnaryOperator::Keep),
        Mark::Increment => Prefix::Step(Step::Increment),
        Mark::Decrement => Prefix::Step(Step::Decrement),
        _ => Prefix::Other,
    }
}

fn follow_of(mark: Mark) -> Follow
    ensures { result ≡ steps.follow_of mark }
{
    match mark {
        Mark::Star => Follow::Infix(BinaryOperator::Arithmetic(Arithmetic::Multiply)),
        Mark::Slash => Follow::Infix(BinaryOperator::Arithmetic(Arithmetic::Divide)),
        Mark::Percent => Follow::Infix(BinaryOperator::Arithmetic(Arithmetic::Remainder)),
        Mark::Plus => Follow::Infix(BinaryOperator::Arithmetic(Arithmetic::Add)),
        Mark::Minus => Follow::Infix(BinaryOperator::Arithmetic(Arithmetic::Subtract)),
        Mark::ShiftLeft => Follow::Infix(BinaryOperator::Shift(Shift::Left)),
        Mark::ShiftRight => Follow::Infix(BinaryOperator::Shift(Shift::Right)),
        Mark::Less => Follow::Infix(BinaryOperator::Compare(Comparison::Less)),
        Mark::LessEqual => Follow::Infix(BinaryOperator::Compare(Comparison::LessEqual)),
        Mark::Greater => Follow::Infix(BinaryOperator::Compare(Comparison::Greater)),
        Mark::GreaterEqual => Follow::Infix(BinaryOperator::Compare(Comparison::GreaterEqual)),
        Mark::Equal => Follow::Infix(BinaryOperator::Compare(Comparison::Equal)),
        Mark::NotEqual => Follow::Infix(BinaryOperator::Compare(Comparison::NotEqual)),
        Mark::And => Follow::Infix(BinaryOperator::Arithmetic(Arithmetic::BitAnd)),
        Mark::Xor => Follow::Infix(BinaryOperator::Arithmetic(Arithmetic::BitXor)),
        Mark::Or => Follow::Infix(BinaryOperator::Arithmetic(Arithmetic::BitOr)),
        Mark::AndAnd => Follow::Infix(BinaryOperator::Logic(Logic::And)),
        Mark::XorXor => Follow::Infix(BinaryOperator::Logic(Logic::Xor)),
        Mark::OrOr => Follow::Infix(BinaryOperator::Logic(Logic::Or)),
        Mark::Assign => Follow::Assign(AssignOperator::Set),
        Mark::AddAssign => Follow::Assign(AssignOperator::Arithmetic(Arithmetic::Add)),
        Mark::SubtractAssign => Follow::Assign(AssignOperator::Arithmetic(Arithmetic::Subtract)),
        Mark::MultiplyAssign => Follow::Assign(AssignOperator::Arithmetic(Arithmetic::Multiply)),
        Mark::DivideAssign => Follow::Assign(AssignOperator::Arithmetic(Arithmetic::Divide)),
        Mark::RemainderAssign => Follow::Assign(AssignOperator::Arithmetic(Arithmetic::Remainder)),
        Mark::AndAssign => Follow::Assign(AssignOperator::Arithmetic(Arithmetic::BitAnd)),
        Mark::OrAssign => Follow::Assign(AssignOperator::Arithmetic(Arithmetic::BitOr)),
        Mark::XorAssign => Follow::Assign(AssignOperator::Arithmetic(Arithmetic::BitXor)),
        Mark::ShiftLeftAssign => Follow::Assign(AssignOperator::Shift(Shift::Left)),
        Mark::ShiftRightAssign => Follow::Assign(AssignOperator::Shift(Shift::Right)),
        Mark::Increment => Follow::Step(Step::Increment),
        Mark::Decrement => Follow::Step(Step::Decrement),
        Mark::Question => Follow::Question,
        Mark::OpenBracket => Follow::Bracket,
        Mark::OpenParenthesis => Follow::Parenthesis,
        _ => Follow::Other,
    }
}

/// What the first token does to an operand before it.
pub(crate) fn follow_at(tokens: &[Token]) -> Follow
    ensures { result ≡ steps.follow_at tokens.now }
{
    match tokens {
        [token, ..] => match &token.kind {
            TokenKind::Mark(mark) => follow_of(*mark),
            _ => Follow::Other,
        },
        [] => Follow::Other,
    }
}

impl BinaryOperator {
    /// How tightly it binds: from `||` up to `*`.
    pub(crate) fn level(self) -> u8
        ensures value { result ≡ steps.level_of self }
        ensures small { result < UNARY }
    {
        match self {
            BinaryOperator::Logic(Logic::Or) => OR,
            BinaryOperator::Logic(Logic::Xor) => XOR,
            BinaryOperator::Logic(Logic::And) => AND,
            BinaryOperator::Arithmetic(Arithmetic::BitOr) => BIT_OR,
            BinaryOperator::Arithmetic(Arithmetic::BitXor) => BIT_XOR,
            BinaryOperator::Arithmetic(Arithmetic::BitAnd) => BIT_AND,
            BinaryOperator::Compare(Comparison::Equal | Comparison::NotEqual) => { EQUALITY }
            BinaryOperator::Compare(
                Comparison::Less
                | Comparison::LessEqual
                | Comparison::Greater
                | Comparison::GreaterEqual,
            ) => RELATIONAL,
            BinaryOperator::Shift(Shift::Left | Shift::Right) => SHIFT,
            BinaryOperator::Arithmetic(Arithmetic::Add | Arithmetic::Subtract) => { ADDITIVE }
            BinaryOperator::Arithmetic(
                Arithmetic::Multiply | Arithmetic::Divide | Arithmetic::Remainder,
            ) => MULTIPLICATIVE,
        }
    }
}

/// Whether the first token is the mark.
pub(crate) fn is_at(mark: Mark, tokens: &[Token]) -> bool
    ensures { result ≡ steps.is_at mark tokens.now }
{
    match tokens {
        [token, ..] => match &token.kind {
            TokenKind::Mark(found) => *found == mark,
            _ => false,
        },
        [] => false,
    }
}

/// After the first token.
pub(crate) fn tail(tokens: &[Token]) -> &[Token]
    ensures { result.now ≡ steps.tail tokens.now }
{
    match tokens {
        [_, rest @ ..] => rest,
        [] => tokens,
    }
}

//! What a script is made of.

use crate::byte_string::ByteString;

/// A mark: one to three bytes that are neither word, number, name nor text.
#[derive(Clone, Copy, Debug, PartialEq, Eq)]
pub enum Mark {
    /// `<<=`
    ShiftLeftAssign,
    /// `>>=`
    ShiftRightAssign,
    /// `->`
    Arrow,
    /// `++`
    Increment,
    /// `--`
    Decrement,
    /// `<<`
    ShiftLeft,
    /// `>>`
    ShiftRight,
    /// `<=`
    LessEqual,
    /// `>=`
    GreaterEqual,
    /// `==`
    Equal,
    /// `!=`
    NotEqual,
    /// `&&`
    AndAnd,
    /// `||`
    OrOr,
    /// `^^`
    XorXor,
    /// `+=`
    AddAssign,
    /// `-=`
    SubtractAssign,
    /// `*=`
    MultiplyAssign,
    /// `/=`
    DivideAssign,
    /// `%=`
    RemainderAssign,
    /// `&=`
    AndAssign,
    /// `|=`
    OrAssign,
    /// `^=`
    XorAssign,
    /// `+`
    Plus,
    /// `-`
    Minus,
    /// `*`
    Star,
    /// `/`
    Slash,
    /// `%`
    Percent,
    /// `&`
    And,
    /// `|`
    Or,
    /// `^`
    Xor,
    /// `~`
    Tilde,
    /// `<`
    Less,
    /// `>`
    Greater,
    /// `!`
    Not,
    /// `?`
    Question,
    /// `:`
    Colon,
    /// `=`
    Assign,
    /// `(`
    OpenParenthesis,
    /// `)`
    CloseParenthesis,
    /// `[`
    OpenBracket,
    /// `]`
    CloseBracket,
    /// `{`
    OpenBrace,
    /// `}`
    CloseBrace,
    /// `,`
    Comma,
    /// `;`
    Semicolon,
    /// The `/` that closes a predicate: the next token is `{`.
    ClosingSlash,
}

/// The letters after a number's digits.
#[derive(Clone, Copy, Debug, PartialEq, Eq)]
pub enum Suffix {
    /// No letters.
    Absent,
    /// `u`
    Unsigned,
    /// `l` or `ll`
    Long,
    /// `ul` or `ull`
    UnsignedLong,
}

/// What a token is, with what the tree needs of its bytes.
#[derive(Debug, Drop)]
pub enum TokenKind {
    /// A probe description, or several of its fields, as in `syscall::read*:entry`.
    DescriptionRun(ByteString),
    /// A word, reserved or not.
    Word(ByteString),
    /// The word after an `@`; `_` for an `@` alone.
    AggregationName(ByteString),
    /// An integer constant: its value, and the letters after its digits.
    Number { value: u64, suffix: Suffix },
    /// The bytes between the quotes, with the escapes decoded.
    TextConstant(ByteString),
    /// An operator, a bracket or a separator.
    Mark(Mark),
}

/// A token: its bytes are those from `start` up to `stop`, counted from 0, and it begins on `line`,
/// counted from 1.
#[derive(Debug, Drop)]
pub struct Token {
    /// What it is.
    pub kind: TokenKind,
    /// The offset of its first byte.
    pub start: usize,
    /// The offset of the byte after it.
    pub stop: usize,
    /// The line on which it begins.
    pub line: usize,
}

/// Bytes that separate tokens, or a token; and its number of bytes after the first.
#[derive(Drop)]
pub enum Front {
    Gap(usize),
    Token(TokenKind, usize),
}

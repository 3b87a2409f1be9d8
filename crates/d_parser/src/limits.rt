//! The limits that are checked before anything is read.

ghost use Rattle.std.specs.Prelude.{◌≡◌, ◌≤◌, ◌+◌, [], ◌∷◌};
ghost use Rattle.d_parser.specs.Vocabulary.{Mark};
ghost use Rattle.d_parser.specs.Steps.Depth as depth;
ghost use Rattle.d_parser.specs.Limits as limits;

use d_lexer::{Mark, Token, TokenKind};

/// The most brackets and parentheses that may be open at once.
pub const MAX_OPEN: usize = 64;

/// The most tokens that a script may have without a semicolon or a brace between them.
pub const MAX_IN_A_ROW: usize = 1024;

/// The most clauses that a script may have.
pub const MAX_CLAUSES: usize = 256;

fn open_after(kind: &TokenKind, brackets: usize) -> usize
    requires { brackets ≤ MAX_OPEN }
    ensures is { result ≡ depth.open_after kind.now brackets }
    ensures small { result ≤ MAX_OPEN + 1 }
{
    match kind {
        TokenKind::Mark(Mark::OpenParenthesis | Mark::OpenBracket) => brackets + 1,
        TokenKind::Mark(Mark::CloseParenthesis | Mark::CloseBracket) => brackets.saturating_sub(1),
        _ => brackets,
    }
}

fn row_with(kind: &TokenKind, row: usize) -> usize
    requires { row ≤ MAX_IN_A_ROW }
    ensures is { result ≡ depth.row_with kind.now row }
    ensures small { result ≤ MAX_IN_A_ROW + 1 }
{
    match kind {
        TokenKind::Mark(Mark::Semicolon | Mark::OpenBrace | Mark::CloseBrace) => 0,
        _ => row + 1,
    }
}

/// Whether too many brackets are open at some token, or too many tokens are in a row.
#[tactic(auto, unfolding(crate::specs::Steps::Depth::is_deep))]
pub(crate) fn is_deep(tokens: &[Token]) -> bool
    ensures { result ≡ depth.is_deep 0 0 tokens.now }
{
    let mut rest = tokens;
    let mut brackets: usize = 0;
    let mut row: usize = 0;
    while let [token, after @ ..] = rest {
        brackets = open_after(&token.kind, brackets);
        row = row_with(&token.kind, row);
        if MAX_OPEN < brackets || MAX_IN_A_ROW < row {
            return true;
        }
        rest = after;
    }
    false
}

fn opens_clause(token: &Token) -> bool
    ensures { result ≡ limits.is_among (Mark.OpenBrace ∷ []) token.now.kind }
{
    matches!(token.kind, TokenKind::Mark(Mark::OpenBrace))
}

/// How many clauses are opened.
pub(crate) fn clauses(tokens: &[Token]) -> usize
    ensures { result ≡ limits.clauses tokens.now }
{
    tokens.iter().filter(|token| opens_clause(token)).count()
}

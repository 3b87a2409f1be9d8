//! The closing slash of a predicate.

ghost use Rattle.std.specs.Prelude.{◌≡◌};
ghost use Rattle.d_lexer.specs.Lexing as spec;
ghost use Rattle.d_lexer.specs.Steps.Lexing as steps;

use crate::token::{Mark, Token, TokenKind};

fn is_brace(token: &Token) -> bool
    ensures { result ≡ steps.is_brace token.now.kind }
{
    matches!(token.kind, TokenKind::Mark(Mark::OpenBrace))
}

fn is_closing(token: &Token) -> bool
    ensures { result ≡ steps.is_closing token.now.kind }
{
    matches!(token.kind, TokenKind::Mark(Mark::ClosingSlash))
}

// Makes a closing slash a division, unless an opening brace comes next.
fn settle_one(token: &mut Token, brace: bool)
    ensures { token.new ≡ steps.settle_token token.old brace }
{
    if !brace && is_closing(token) {
        token.kind = TokenKind::Mark(Mark::Slash);
    }
}

/// Makes each closing slash a division that isn't before an opening brace.
pub(crate) fn settle(tokens: &mut [Token])
    ensures { tokens.new ≡ spec.settle tokens.old }
{
    let mut brace = false;
    for i in (0..tokens.len()).rev() {
        let token = &mut tokens[i];
        let next = is_brace(token);
        settle_one(token, brace);
        brace = next;
    }
}

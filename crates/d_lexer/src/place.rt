//! The four places of a script.

ghost use Rattle.std.specs.Prelude.{◌≡◌};
ghost use Rattle.d_lexer.specs.{Vocabulary.TokenKind};
ghost use Rattle.d_lexer.specs.Places as spec;

use crate::token::{Mark, TokenKind};

/// Where in a script a token is: it decides which tokens there are.
#[derive(Clone, Copy)]
pub enum Place {
    /// Between clauses, where probe descriptions are.
    Head,
    /// After a `self` or `this` of the head, up to the semicolon.
    Declaration,
    /// Between a head's two slashes.
    Predicate,
    /// Between braces.
    Body,
}

impl Place {
    /// The place that follows a token.
    pub(crate) fn after(self, kind: &TokenKind) -> Place
        ensures { result ≡ spec.place_after self kind.now }
    {
        match (self, kind) {
            (_, TokenKind::Mark(mark)) => self.after_mark(*mark),
            (Place::Head, TokenKind::Word(_)) => Place::Declaration,
            (Place::Declaration | Place::Predicate | Place::Body, TokenKind::Word(_)) => self,
            (_, TokenKind::DescriptionRun(_))
            | (_, TokenKind::AggregationName(_))
            | (_, TokenKind::Number { .. })
            | (_, TokenKind::TextConstant(_)) => self,
        }
    }

    fn after_mark(self, mark: Mark) -> Place
        ensures { result ≡ spec.place_after self (TokenKind.Mark mark) }
    {
        match (self, mark) {
            (_, Mark::OpenBrace) => Place::Body,
            (_, Mark::CloseBrace) => Place::Head,
            (Place::Head, Mark::Slash) => Place::Predicate,
            (Place::Declaration, Mark::Semicolon) => Place::Head,
            _ => self,
        }
    }
}

//! Laws of what tokens spell.

ghost use Rattle.std.specs.Prelude.{◌≡◌, List};
ghost use Rattle.d_parser.specs.{Vocabulary.Token, Numbers.AreSmall, Tree.ItemTree};
ghost use Rattle.d_parser.specs.{Script.IsScript};
ghost use Rattle.d_lexer.specs.Small as token;

/// Tokens spell one script at most.
pub fn one_script()
    ensures { (ts : List Token) (a b : List ItemTree) → IsScript a ts → IsScript b ts → a ≡ b }
{}

/// If the numbers of tokens are below 2^64, those of their script are.
pub fn numbers_are_small()
    ensures { (ts : List Token) (items : List ItemTree) → token.HaveSmallNumbers ts
        → IsScript items ts
        → AreSmall items }
{}

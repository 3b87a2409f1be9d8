//! What holds of every script's tokens and first fault.

ghost use Rattle.std.specs.Prelude.{◌≡◌, ℕ, List};
ghost use Rattle.d_lexer.specs.Vocabulary.{AllByRecursion, LexFault, Token};
ghost use Rattle.d_lexer.specs.{Small.HaveSmallNumbers};
ghost use Rattle.d_lexer.specs.Lexing.{AreTokens, HasOne, IsFirstFault};
ghost use Rattle.d_lexer.specs.Spans.{AreInOrder, IsInPlace, HasItsLine};

/// A script has one list of tokens at most.
pub fn one_list()
    ensures { (bytes : List ℕ) (ts us : List Token)
        → AreTokens bytes ts → AreTokens bytes us → ts ≡ us }
{}

/// A script has one first fault at most.
pub fn one_fault()
    ensures { (bytes : List ℕ) (f g : LexFault)
        → IsFirstFault bytes f → IsFirstFault bytes g → f ≡ g }
{}

/// A script with tokens has no fault.
pub fn not_both()
    ensures { (bytes : List ℕ) (ts : List Token) (f : LexFault)
        → AreTokens bytes ts → IsFirstFault bytes f → ⊥ }
{}

/// Each script has tokens or a first fault.
pub fn has_one()
    ensures { (bytes : List ℕ) → HasOne bytes }
{}

/// Each token has the bytes from its start to its stop, and its line is one more than the line
/// feeds before it.
pub fn tokens_are_in_place()
    ensures { (bytes : List ℕ) (ts : List Token)
        → AreTokens bytes ts → AllByRecursion (IsInPlace bytes) ts }
{}

/// No token is empty or begins before the one in front of it stops.
pub fn tokens_in_order()
    ensures { (bytes : List ℕ) (ts : List Token) → AreTokens bytes ts → AreInOrder 0 ts }
{}

/// The first fault has the line on which what is refused begins.
pub fn fault_has_its_line()
    ensures { (bytes : List ℕ) (fault : LexFault)
        → IsFirstFault bytes fault → HasItsLine bytes fault }
{}

/// Numbers are below 2^64.
pub fn numbers_are_small()
    ensures { (bytes : List ℕ) (ts : List Token) → AreTokens bytes ts → HaveSmallNumbers ts }
{}

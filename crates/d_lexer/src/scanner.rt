//! From the bytes to the tokens.

ghost use Rattle.std.specs.Prelude.{◌≡◌, ◌↔◌, List, ◌+◌, ◌≤◌, ◌<◌, ◌⊎◌, [], ◌∷◌, ◌++◌, length};
ghost use Rattle.std.specs.Prelude.{IfOk, IfErr, IsErrAnd, IsErrOf, MatchResult};
ghost use Rattle.d_lexer.specs.{Small.HaveSmallNumbers, Steps.Scan.scan};
ghost use Rattle.d_lexer.specs.Vocabulary.{Head, LexFault, Place, Token};
ghost use Rattle.d_lexer.specs.Steps.Lexing.{Answers, Lexed, StepGives};
ghost use Rattle.d_lexer.specs.Places.{after_byte, first_position};
ghost use Rattle.d_lexer.specs.Lexing as spec;

use crate::closing_slash::settle;
use crate::fault::{LexFault, MAX_BYTES, Stop};
use crate::front::look;
use crate::place::Place;
use crate::position::Position;
use crate::token::{Front, Token};
use std::alloc::Global;

// Puts one token more.
fn put(tokens: &mut Vec<Token>, token: Token) -> Result<(), LexFault>
    ensures ok { IfOk result (λ _. tokens.new.items ≡ tokens.old.items ++ token ∷ []) }
    ensures err { IfErr result (λ e. e ≡ LexFault.Memory) }
{
    tokens.push(token).map_err(|_| LexFault::Memory)
}

// Where the scanner is: in which part of the script, and at which position.
#[derive(Clone, Copy)]
struct Cursor {
    place: Place,
    pos: Position,
}

// Reads what is at the front: the place that follows, and how many bytes after the first were read.
fn step(
    alloc: Global,
    cursor: Cursor,
    b: u8,
    rest: &[u8],
    tokens: &mut Vec<Token>,
) -> Result<(Place, usize), LexFault>
    requires at { cursor.pos.at + length rest.now < MAX_BYTES }
    ensures is { StepGives tokens.old.items tokens.new.items result
        (scan 0 cursor.place cursor.pos (b ∷ rest.now))
        (λ n q. scan n q (after_byte cursor.pos b) rest.now) }
    ensures fits { IfOk result (λ r. r.1 ≤ length rest.now) }
{
    let Cursor { place, pos } = cursor;
    match look(alloc, place, pos, b, rest) {
        Ok(Front::Gap(n)) => Ok((place, n)),
        Ok(Front::Token(kind, n)) => {
            let next = place.after(&kind);
            put(
                tokens,
                Token {
                    kind,
                    start: pos.at,
                    stop: pos.at + n + 1,
                    line: pos.line,
                },
            )?;
            Ok((next, n))
        }
        Err(Stop::Memory) => Err(LexFault::Memory),
        Err(Stop::Flawed(flaw)) => Err(flaw.on_line(pos.line)),
    }
}

// Passes this byte and n more.
#[tactic(auto, using(crate::proofs::Lexing::scan_from))]
fn jump(pos: Position, b: u8, rest: &[u8], n: usize) -> (Position, &[u8])
    requires at { pos.at + length rest.now < MAX_BYTES }
    requires line { pos.line ≤ pos.at + 1 }
    requires n { n ≤ length rest.now }
    ensures is { (q : Place) → scan 0 q result.0 result.1.now
        ≡ scan n q (after_byte pos b) rest.now }
    ensures at { result.0.at + length result.1.now ≡ pos.at + 1 + length rest.now }
    ensures less { length result.1.now ≤ length rest.now }
    ensures line { result.0.line ≤ result.0.at + 1 }
{
    (pos.pass(b).pass_all(&rest[..n]), &rest[n..])
}

// The tokens, with every slash of a predicate taken for the closing one.
fn scan_tokens(alloc: Global, bytes: &[u8]) -> Result<Vec<Token>, LexFault>
    requires { length bytes.now ≤ MAX_BYTES }
    ensures { Answers (λ ts. ts.items) result (scan 0 Head first_position bytes.now) }
{
    let mut tokens: Vec<Token> = Vec::new(alloc);
    let mut rest = bytes;
    let mut pos = Position::start();
    let mut place = Place::Head;
    while let [b, after @ ..] = rest {
        let (next, n) = step(alloc, Cursor { place, pos }, *b, after, &mut tokens)?;
        let (there, left) = jump(pos, *b, after, n);
        pos = there;
        rest = left;
        place = next;
    }
    Ok(tokens)
}

// The tokens, once it is known which slash closes a predicate.
fn final_tokens(alloc: Global, bytes: &[u8]) -> Result<Vec<Token>, LexFault>
    requires { length bytes.now ≤ MAX_BYTES }
    ensures { Lexed (λ ts. ts.items) result (scan 0 Head first_position bytes.now) }
{
    let mut tokens = scan_tokens(alloc, bytes)?;
    settle(&mut tokens);
    Ok(tokens)
}

/// The tokens of a script, or why it has none: it is over 65,536 bytes long, its first fault, or
/// out of memory (`docs/GRAMMAR.md`).
///
/// ```text
/// let tokens = lex(alloc, b"hit { trace(1) }")?; // a run, `{`, a word, `(`, a number, `)`, `}`
/// lex(alloc, b"hit {\n 08 }"); // Err(LexFault::Constant { line: 2 })
/// ```
pub fn lex(alloc: Global, bytes: &[u8]) -> Result<Vec<Token>, LexFault>
    // Length is checked first: over 65,536 bytes are too long, whatever they hold.
    ensures too_long { IsErrOf result LexFault.TooLong ↔ (MAX_BYTES < length bytes.now) }

    // Whatever is returned is right: the script's tokens, or its first fault.
    ensures ok { IfOk result (λ ts. spec.IsLexed bytes.now ts.items) }
    ensures err { IfErr result (λ e. (e ≡ LexFault.Memory) ⊎ spec.IsRefused bytes.now e) }

    // And it is returned, unless memory is refused.
    ensures lexed { (ts : List Token) → spec.IsLexed bytes.now ts
        → MatchResult result (λ v. v.items ≡ ts) (λ e. e ≡ LexFault.Memory) }
    ensures refused { (fault : LexFault) → spec.IsRefused bytes.now fault
        → IsErrAnd result (λ e. (e ≡ fault) ⊎ (e ≡ LexFault.Memory)) }
    ensures few { IfOk result (λ ts. length ts.items ≤ MAX_BYTES) }
    ensures small { IfOk result (λ ts. HaveSmallNumbers ts.items) }
{
    if bytes.len() > MAX_BYTES {
        return Err(LexFault::TooLong);
    }
    final_tokens(alloc, bytes)
}

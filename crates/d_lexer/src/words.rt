//! Words, aggregation names and description runs.

ghost use Rattle.std.specs.Prelude.{◌≡◌, ◌∷◌, ◌++◌, IfErr, IfOk};
ghost use Rattle.d_lexer.specs.Bytes as spec;
ghost use Rattle.d_lexer.specs.Steps.Scan as scan;

use crate::byte_kinds::{is_word_start, run_len, word_len};
use crate::byte_string::ByteString;
use crate::fault::Stop;
use crate::token::{Front, TokenKind};
use std::alloc::Global;

// Adds the bytes of a run, its first byte and the others.
fn add_run(bytes: &mut Vec<u8>, b: u8, run: &[u8]) -> Result<(), Stop>
    ensures ok { IfOk result (λ _. bytes.new.items ≡ bytes.old.items ++ b ∷ run.now) }
    ensures err { IfErr result (λ e. e ≡ Stop.Memory) }
{
    bytes.push(b)?;
    bytes.extend_from_slice(run)?;
    Ok(())
}

// The bytes of a run, from its first byte and the others.
fn copy_run(alloc: Global, b: u8, run: &[u8]) -> Result<ByteString, Stop>
    ensures ok { IfOk result (λ s. s ≡ b ∷ run.now) }
    ensures err { IfErr result (λ e. e ≡ Stop.Memory) }
{
    let mut bytes = Vec::with_capacity(alloc, run.len() + 1)?;
    add_run(&mut bytes, b, run)?;
    Ok(ByteString::from_vec(bytes))
}

/// A word that begins with this byte.
pub(crate) fn word_front(alloc: Global, b: u8, rest: &[u8]) -> Result<Front, Stop>
    ensures { scan.Gives result (scan.word_front b rest.now) }
{
    let n = word_len(rest);
    let word = copy_run(alloc, b, &rest[..n])?;
    Ok(Front::Token(TokenKind::Word(word), n))
}

// An `@` alone.
fn bare_name(alloc: Global) -> Result<Front, Stop>
    ensures { scan.Gives result scan.bare_name }
{
    let name = copy_run(alloc, b'_', &[])?;
    Ok(Front::Token(TokenKind::AggregationName(name), 0))
}

// An `@` and the word after it.
fn whole_name(alloc: Global, b: u8, rest: &[u8]) -> Result<Front, Stop>
    ensures { scan.Gives result (scan.whole_name b rest.now) }
{
    let n = word_len(rest);
    let name = copy_run(alloc, b, &rest[..n])?;
    Ok(Front::Token(TokenKind::AggregationName(name), n + 1))
}

/// An aggregation name, after its `@`.
pub(crate) fn aggregation_front(alloc: Global, rest: &[u8]) -> Result<Front, Stop>
    ensures { scan.Gives result (scan.aggregation_front rest.now) }
{
    match rest {
        [] => bare_name(alloc),
        [b, after @ ..] => {
            if is_word_start(*b) {
                whole_name(alloc, *b, after)
            } else {
                bare_name(alloc)
            }
        }
    }
}

// Whether the word is `self` or `this`, which begin a declaration.
fn is_declaring(run: &[u8]) -> bool
    ensures { result ≡ spec.is_declaring run.now }
{
    run == b"self".as_slice() || run == b"this".as_slice()
}

/// A description run that begins with this byte; `self` and `this` are words.
pub(crate) fn run_front(alloc: Global, b: u8, rest: &[u8]) -> Result<Front, Stop>
    ensures { scan.Gives result (scan.run_front b rest.now) }
{
    let n = run_len(rest);
    let run = copy_run(alloc, b, &rest[..n])?;
    if is_declaring(run.as_slice()) {
        Ok(Front::Token(TokenKind::Word(run), n))
    } else {
        Ok(Front::Token(TokenKind::DescriptionRun(run), n))
    }
}

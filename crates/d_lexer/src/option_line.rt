//! Option lines: `#pragma D option quiet`, and no others.

ghost use Rattle.std.specs.Prelude.{◌≡◌, ◌++◌, codes};
ghost use Rattle.d_lexer.specs.Steps.OptionLine as spec;
ghost use Rattle.d_lexer.specs.Steps.OptionLine.{FindsBytes};

use crate::byte_kinds::is_space;

// What is left after a word.
fn after_word<'a>(word: &[u8], bytes: &'a [u8]) -> Option<&'a [u8]>
    ensures { FindsBytes (λ r. r.now) result (spec.after_option_word word.now bytes.now) }
{
    bytes.strip_prefix(word)
}

#[tactic(auto, unfolding(crate::specs::Steps::OptionLine::skip_spaces))]
fn skip_spaces(bytes: &[u8]) -> &[u8]
    ensures { result.now ≡ spec.skip_spaces bytes.now }
{
    let mut rest = bytes;
    while let [b, after @ ..] = rest {
        if !is_space(*b) {
            return rest;
        }
        rest = after;
    }
    rest
}

#[tactic(auto, unfolding(crate::specs::Steps::OptionLine::after_spaces))]
// What is left after one space at least.
fn spaces(bytes: &[u8]) -> Option<&[u8]>
    ensures { FindsBytes (λ r. r.now) result (spec.after_spaces bytes.now) }
{
    match bytes {
        [b, after @ ..] => {
            if is_space(*b) {
                Some(skip_spaces(after))
            } else {
                None
            }
        }
        [] => None,
    }
}

// Whether a line may end with these bytes.
fn is_trail(bytes: &[u8]) -> bool
    ensures { result ≡ spec.is_trail bytes.now }
{
    bytes.iter().all(|b| is_space(*b) || *b == b'\r')
}

// What is left after spaces and a word.
fn next_word<'a>(word: &[u8], bytes: &'a [u8]) -> Option<&'a [u8]>
    ensures { FindsBytes (λ r. r.now) result (spec.next_word word.now bytes.now) }
{
    let rest = spaces(bytes)?;
    after_word(word, rest)
}

// What is left after spaces and `D option quiet`.
fn after_option(bytes: &[u8]) -> Option<&[u8]>
    ensures { FindsBytes (λ r. r.now) result
        (spec.after_option_words spec.option_words bytes.now) }
{
    let rest = next_word(b"D", bytes)?;
    let rest = next_word(b"option", rest)?;
    next_word(b"quiet", rest)
}

#[tactic(auto, unfolding(crate::specs::Steps::OptionLine::after_option_word))]
fn after_words(bytes: &[u8]) -> Option<&[u8]>
    ensures { FindsBytes (λ r. r.now) result
        (spec.found_then (spec.after_option_word (codes "#pragma") (codes "#" ++ bytes.now))
        (spec.after_option_words spec.option_words)) }
{
    let rest = after_word(b"pragma", bytes)?;
    after_option(rest)
}

/// Whether a line is `#pragma D option quiet`, by the bytes after its `#`.
#[tactic(auto, unfolding(crate::specs::Steps::OptionLine::is_option))]
pub(crate) fn is_option(bytes: &[u8]) -> bool
    ensures { result ≡ spec.is_option (codes "#" ++ bytes.now) }
{
    match after_words(bytes) {
        Some(rest) => is_trail(rest),
        None => false,
    }
}

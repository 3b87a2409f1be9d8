//! Text constants, with their escapes decoded.

ghost use Rattle.std.specs.Prelude.{◌≡◌, false, []};
ghost use Rattle.d_lexer.specs.Steps.Outcomes as outcomes;
ghost use Rattle.d_lexer.specs.Steps.Scan as scan;

use crate::byte_kinds::escape_of;
use crate::byte_string::ByteString;
use crate::fault::{Flaw, Stop};
use std::alloc::Global;

/// What a text constant holds, and how many bytes it has after its first quote.
pub(crate) fn text(alloc: Global, bytes: &[u8]) -> Result<(ByteString, usize), Stop>
    ensures { scan.Gives result (scan.text_from false bytes.now) }
{
    let mut value = Vec::new(alloc);
    let n = put_text(&mut value, bytes)?;
    Ok((ByteString::from_vec(value), n))
}

// Puts what a text constant holds, and returns how many bytes it has after its first quote.
#[tactic(auto, unfolding(crate::specs::Steps::Scan::text_from), using(crate::proofs::Steps::later))]
fn put_text(value: &mut Vec<u8>, bytes: &[u8]) -> Result<usize, Stop>
    requires { value.old.items ≡ [] }
    ensures { outcomes.Gives scan.flaw_of (λ n. (value.new.items, n)) result
        (scan.text_from false bytes.now) }
{
    let mut rest = bytes;
    let mut n: usize = 0;
    while let [b, after @ ..] = rest {
        if *b == b'"' {
            return Ok(n + 1);
        }
        if *b == b'\n' {
            return Err(Stop::Flawed(Flaw::Unclosed));
        }
        if *b == 0 {
            return Err(Stop::Flawed(Flaw::BadByte));
        }
        if *b == b'\\' {
            let [e, left @ ..] = after else {
                return Err(Stop::Flawed(Flaw::Unclosed));
            };
            let Some(x) = escape_of(*e) else {
                return Err(Stop::Flawed(Flaw::Escape));
            };
            value.push(x)?;
            n += 2;
            rest = left;
        } else {
            value.push(*b)?;
            n += 1;
            rest = after;
        }
    }
    Err(Stop::Flawed(Flaw::Unclosed))
}

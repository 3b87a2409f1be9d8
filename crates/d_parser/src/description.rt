//! Probe descriptions, field by field.

ghost use Rattle.std.specs.Prelude.{◌≡◌, ◌<◌, MatchOption, Some, None};
ghost use Rattle.d_parser.specs.Reading.{Gives};
ghost use Rattle.d_parser.specs.Script as spec;
ghost use Rattle.d_parser.specs.Steps.Script as steps;

use crate::fault::{AT_END, ParseFault};
use crate::tree::Description;
use d_lexer::ByteString;
use std::alloc::Global;

#[tactic(auto, unfolding(crate::specs::Steps::Script::after_colon))]
fn after_colon(bytes: &[u8]) -> Option<&[u8]>
    ensures is { MatchOption result (steps.after_colon bytes.now ≡ None)
        (λ r. steps.after_colon bytes.now ≡ Some r.now) }
{
    let mut rest = bytes;
    while let [b, after @ ..] = rest {
        if *b == b':' {
            return Some(after);
        }
        rest = after;
    }
    None
}

// The bytes before the first colon, and those after it if there is one.
#[tactic(auto, using(crate::proofs::Cuts::fields))]
fn cut(bytes: &[u8]) -> (&[u8], Option<&[u8]>)
    ensures field { result.0.now ≡ steps.before_colon bytes.now }
    ensures later { MatchOption result.1 (steps.after_colon bytes.now ≡ None)
        (λ r. steps.after_colon bytes.now ≡ Some r.now) }
{
    match after_colon(bytes) {
        Some(rest) => (&bytes[..bytes.len() - rest.len() - 1], Some(rest)),
        None => (bytes, None),
    }
}

fn new_description(
    alloc: Global,
    provider: &[u8],
    middle: &[u8],
    function: &[u8],
    name: &[u8],
) -> Result<Description, ParseFault>
    ensures { Gives (λ d. d) result
        (Some (steps.description_with provider.now middle.now function.now name.now)) }
{
    let provider = ByteString::from_slice(alloc, provider)?;
    let module = ByteString::from_slice(alloc, middle)?;
    let function = ByteString::from_slice(alloc, function)?;
    let name = ByteString::from_slice(alloc, name)?;
    Ok(Description {
        provider,
        module,
        function,
        name,
    })
}

fn is_number(run: &[u8]) -> bool
    ensures { result ≡ spec.list_all spec.is_ascii_digit run.now }
{
    run.iter().all(|b| 48 <= *b && *b <= 57)
}

fn after_three_fields(
    alloc: Global,
    a: &[u8],
    b: &[u8],
    c: &[u8],
    bytes: &[u8],
) -> Result<Description, ParseFault>
    ensures { Gives (λ d. d) result (steps.description_from (steps.with_first a.now
        (steps.with_first b.now (steps.with_first c.now (steps.fields 1 (Some bytes.now)))))) }
{
    let (d, rest) = cut(bytes);
    match rest {
        Some(_) => Err(ParseFault::Syntax { line: AT_END }),
        None => new_description(alloc, a, b, c, d),
    }
}

fn after_two_fields(
    alloc: Global,
    a: &[u8],
    b: &[u8],
    bytes: &[u8],
) -> Result<Description, ParseFault>
    ensures { Gives (λ d. d) result (steps.description_from
        (steps.with_first a.now (steps.with_first b.now (steps.fields 2 (Some bytes.now))))) }
{
    let (c, rest) = cut(bytes);
    match rest {
        Some(rest) => after_three_fields(alloc, a, b, c, rest),
        None => new_description(alloc, b"", a, b, c),
    }
}

fn after_one_field(alloc: Global, a: &[u8], bytes: &[u8]) -> Result<Description, ParseFault>
    ensures { Gives (λ d. d) result
        (steps.description_from (steps.with_first a.now (steps.fields 3 (Some bytes.now)))) }
{
    let (b, rest) = cut(bytes);
    match rest {
        Some(rest) => after_two_fields(alloc, a, b, rest),
        None => new_description(alloc, b"", b"", a, b),
    }
}

fn fields(alloc: Global, run: &[u8]) -> Result<Description, ParseFault>
    ensures { Gives (λ d. d) result (steps.description_from (steps.fields 4 (Some run.now))) }
{
    let (a, rest) = cut(run);
    match rest {
        Some(rest) => after_one_field(alloc, a, rest),
        None => new_description(alloc, b"", b"", b"", a),
    }
}

/// The four patterns of a description run.
pub(crate) fn description_of(
    alloc: Global,
    run: &[u8],
    line: usize,
) -> Result<Description, ParseFault>
    ensures { Gives (λ d. d) result (steps.description_of run.now) }
{
    if is_number(run) {
        return Err(ParseFault::Syntax { line });
    }
    match fields(alloc, run) {
        Ok(description) => Ok(description),
        Err(fault) => Err(fault.ending_on(line)),
    }
}

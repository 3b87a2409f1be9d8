//! A bundle: a script, a line `---`, and a trace.

ghost use Rattle.std.specs.Prelude.{◌↔◌, IsTrue, MatchOption};
ghost use Rattle.consumer.specs.Bundle.{Divides, IsDivider};
ghost use Rattle.consumer.specs.Steps.Beginnings.{IsDividedAt, IsUndivided};

use d_values::split_at_first;

/// The two parts of a bundle.
#[derive(Clone, Copy, Debug)]
pub struct Division<'a> {
    /// The lines before the dividing one, with their line feeds.
    pub script: &'a [u8],
    /// What comes after the dividing line.
    pub trace: &'a [u8],
}

/// Divides a bundle at its first line that is `---`, with or without a carriage return. Without
/// such a line all of it is the script, and the trace is empty.
///
/// ```text
/// let parts = divide(b"BEGIN { }\n---\nnumber,cpu\n");
/// parts.script; // `BEGIN { }` and a line feed
/// parts.trace; // `number,cpu` and a line feed
/// ```
pub fn divide(bundle: &[u8]) -> Division<'_>
    ensures { Divides bundle.now result.script.now result.trace.now }
{
    let (passed, trace) = first_lines(bundle);
    match trace {
        Some(trace) => Division {
            script: &bundle[..passed],
            trace,
        },
        None => {
            let (script, last) = bundle.split_at(passed);
            if is_divider(last) {
                Division { script, trace: &[] }
            } else {
                Division {
                    script: bundle,
                    trace: &[],
                }
            }
        }
    }
}

/// How many bytes the whole lines before the first dividing one have, and what comes after that
/// one; or how many all whole lines have, if none divides.
pub(crate) fn first_lines(bundle: &[u8]) -> (usize, Option<&[u8]>)
    ensures { MatchOption result.1 (IsUndivided bundle.now result.0)
        (λ trace. IsDividedAt bundle.now result.0 trace.now) }
{
    let mut passed = 0;
    let mut rest = bundle;
    while let Some((line, after)) = split_at_first(rest, b'\n') {
        if is_divider(line) {
            return (passed, Some(after));
        }
        passed += line.len() + 1;
        rest = after;
    }
    (passed, None)
}

fn is_divider(line: &[u8]) -> bool
    ensures { IsTrue result ↔ IsDivider line.now }
{
    line == b"---".as_slice() || line == b"---\r".as_slice()
}

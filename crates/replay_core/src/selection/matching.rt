//! Which probes a description matches.

ghost use Rattle.std.specs.Prelude.{◌≡◌, ◌≢◌, ◌≤◌, ◌↔◌, ◌∷◌, ◌++◌, ◌&&◌, ◌==◌, ℕ, List, All};
ghost use Rattle.std.specs.Prelude.{IsTrue, MatchOption, length, take};
ghost use Rattle.std.specs.List.{list_all, zip};
ghost use Rattle.replay_core.specs.Patterns.{Matches, field_matches, is_same_or_question};
ghost use Rattle.replay_core.specs.Steps.Patterns.{is_plain};
ghost use Rattle.replay_core.specs.Patterns.{selects};

use d_parser::Description;
use d_values::split_at_first;
use firings::Probe;

/// Whether each field of the description matches the probe's.
pub(crate) fn is_selected(description: &Description, probe: &Probe) -> bool
    ensures { result ≡ selects description.now probe.now }
{
    is_field_match(description.provider.as_slice(), probe.provider.as_bytes())
        && is_field_match(description.module.as_slice(), probe.probemod.as_bytes())
        && is_field_match(description.function.as_slice(), probe.probefunc.as_bytes())
        && is_field_match(description.name.as_slice(), probe.name.as_bytes())
}

// An empty field matches everything.
fn is_field_match(pattern: &[u8], text: &[u8]) -> bool
    ensures { result ≡ field_matches pattern.now text.now }
{
    pattern.is_empty() || is_match(pattern, text)
}

/// Whether the pattern matches itself alone.
pub(crate) fn is_literal(pattern: &[u8]) -> bool
    ensures { result ≡ list_all is_plain pattern.now }
{
    pattern.iter().all(|p| *p != b'*' && *p != b'?')
}

// What comes before the first star has one place. After it a run between two stars takes the
// first place where it fits: wherever the rest of the pattern matches after a later place, it also
// matches after the first.
fn is_match(pattern: &[u8], text: &[u8]) -> bool
    ensures { IsTrue result ↔ Matches pattern.now text.now }
{
    match split_at_first(pattern, b'*') {
        None => pattern.len() == text.len() && begins(pattern, text),
        Some((run, behind)) => begins(run, text) && is_match_anywhere(behind, &text[run.len()..]),
    }
}

// Whether the pattern matches some ending of the text.
fn is_match_anywhere(pattern: &[u8], text: &[u8]) -> bool
    ensures { IsTrue result ↔ Matches (42 ∷ pattern.now) text.now }
{
    let mut pattern = pattern;
    let mut text = text;
    while let Some((run, behind)) = split_at_first(pattern, b'*') {
        let Some(rest) = behind_first(run, text) else {
            return false;
        };
        pattern = behind;
        text = rest;
    }
    pattern.len() <= text.len() && begins(pattern, &text[text.len() - pattern.len()..])
}

// What comes after the first place where the run fits.
fn behind_first<'a>(run: &[u8], text: &'a [u8]) -> Option<&'a [u8]>
    requires { All (λ p. p ≢ 42) run.now }
    ensures { MatchOption result ((after : List ℕ) → ¬ Matches (42 ∷ (run.now ++ after)) text.now)
        (λ rest. (after : List ℕ) → Matches (42 ∷ (run.now ++ 42 ∷ after)) text.now
        ↔ Matches (42 ∷ after) rest.now) }
{
    let mut rest = text;
    while !begins(run, rest) {
        let [_, behind @ ..] = rest else {
            return None;
        };
        rest = behind;
    }
    Some(&rest[run.len()..])
}

// A run without stars matches byte by byte.
fn begins(run: &[u8], text: &[u8]) -> bool
    requires { All (λ p. p ≢ 42) run.now }
    ensures { IsTrue result
        ↔ ((length run.now ≤ length text.now) × Matches run.now (take (length run.now) text.now)) }
{
    run.len() <= text.len() && are_same(run, text)
}

// Whether the first bytes are the same, as far as both go.
fn are_same(run: &[u8], text: &[u8]) -> bool
    ensures { result ≡ list_all is_same_or_question (zip run.now text.now) }
{
    run.iter().zip(text).all(|(p, b)| p == b || *p == b'?')
}

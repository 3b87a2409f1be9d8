//! What words name.

ghost use Rattle.std.specs.Prelude.{◌≡◌, drop};
ghost use Rattle.std.specs.{Map.lookup, Option.option_or};
ghost use Rattle.d_types.specs.{Vocabulary.bytes_eq};
ghost use Rattle.d_types.specs.Words as spec;

use crate::typed::BuiltIn;
use aggregations::AggFn;

/// A function or an action (Dynamic Tracing Guide, "Actions and Subroutines").
#[derive(Clone, Copy)]
pub enum Callee {
    Strlen,
    Strjoin,
    Trace,
    Printf,
    Exit,
}

/// An aggregating function: known by its name, or `lquantize`, whose bounds are arguments.
#[derive(Clone, Copy)]
pub enum Aggregating {
    Named(AggFn),
    Lquantize,
}

fn is(word: &[u8], name: &str) -> bool
    ensures { result ≡ bytes_eq word.now name.now }
{
    word == name.as_bytes()
}

fn argument(word: &[u8]) -> Option<BuiltIn>
    ensures { result ≡ spec.argument word.now }
{
    match word {
        [b'a', b'r', b'g', digit] if digit.is_ascii_digit() => {
            Some(BuiltIn::Argument(*digit - b'0'))
        }
        _ => None,
    }
}

// A part of the probe's name, or an argument.
fn of_probe(word: &[u8]) -> Option<BuiltIn>
    ensures { result
        ≡ option_or (lookup (bytes_eq word.now) (drop 5 spec.built_ins)) (spec.argument word.now) }
{
    if is(word, "probeprov") {
        Some(BuiltIn::Probeprov)
    } else if is(word, "probemod") {
        Some(BuiltIn::Probemod)
    } else if is(word, "probefunc") {
        Some(BuiltIn::Probefunc)
    } else if is(word, "probename") {
        Some(BuiltIn::Probename)
    } else {
        argument(word)
    }
}

/// The built-in variable that a word names.
pub(crate) fn built_in(word: &[u8]) -> Option<BuiltIn>
    ensures { result ≡ spec.built_in word.now }
{
    if is(word, "timestamp") {
        Some(BuiltIn::Timestamp)
    } else if is(word, "cpu") {
        Some(BuiltIn::Cpu)
    } else if is(word, "pid") {
        Some(BuiltIn::Pid)
    } else if is(word, "tid") {
        Some(BuiltIn::Tid)
    } else if is(word, "execname") {
        Some(BuiltIn::Execname)
    } else {
        of_probe(word)
    }
}

/// The function or action that a word names.
pub(crate) fn callee_named(word: &[u8]) -> Option<Callee>
    ensures { result ≡ spec.callee_named word.now }
{
    if is(word, "strlen") {
        Some(Callee::Strlen)
    } else if is(word, "strjoin") {
        Some(Callee::Strjoin)
    } else if is(word, "trace") {
        Some(Callee::Trace)
    } else if is(word, "printf") {
        Some(Callee::Printf)
    } else if is(word, "exit") {
        Some(Callee::Exit)
    } else {
        None
    }
}

/// The aggregating function that a word names.
pub(crate) fn aggregating_named(word: &[u8]) -> Option<Aggregating>
    ensures { result ≡ spec.aggregating_named word.now }
{
    if is(word, "count") {
        Some(Aggregating::Named(AggFn::Count))
    } else if is(word, "sum") {
        Some(Aggregating::Named(AggFn::Sum))
    } else if is(word, "min") {
        Some(Aggregating::Named(AggFn::Min))
    } else if is(word, "max") {
        Some(Aggregating::Named(AggFn::Max))
    } else if is(word, "avg") {
        Some(Aggregating::Named(AggFn::Avg))
    } else if is(word, "quantize") {
        Some(Aggregating::Named(AggFn::Quantize))
    } else if is(word, "lquantize") {
        Some(Aggregating::Lquantize)
    } else {
        None
    }
}

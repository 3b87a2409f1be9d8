//! How many registers an expression needs.

ghost use Rattle.std.specs.Prelude.{◌≡◌, ◌+◌, ◌&&◌, max, nat_le};
ghost use Rattle.d_types.specs.Typed.{typed_of, typeds_of};
ghost use Rattle.d_types.specs.Needs as spec;

use crate::typed::TypedExpr;
use d_parser::LogicOperator;

// Whether there are registers enough for keys, each of whose values is kept until all are there.
#[cycle(needs)]
fn keys_fit(keys: &[TypedExpr], registers: usize) -> bool
    ensures { result ≡ nat_le (spec.need_of_keys 0 (typeds_of keys.now)) registers }
{
    for (waiting, key) in keys.iter().enumerate() {
        if registers < waiting || !fits(key, registers - waiting) {
            return false;
        }
    }
    true
}

#[cycle(needs)]
fn read_fits(keys: &[TypedExpr], registers: usize) -> bool
    ensures { result ≡ nat_le (max (spec.need_of_keys 0 (typeds_of keys.now)) 1) registers }
{
    keys_fit(keys, registers) && 1 <= registers
}

#[cycle(needs)]
#[tactic(auto, using(crate::proofs::Rows::count_is))]
fn step_fits(keys: &[TypedExpr], registers: usize) -> bool
    ensures { result ≡ nat_le (max (spec.need_of_keys 0 (typeds_of keys.now))
        (spec.count (typeds_of keys.now) + 1)) registers }
{
    keys_fit(keys, registers) && keys.len() < registers
}

// Whether there are enough registers for the keys, and, as `value` says, for what comes after.
#[cycle(needs)]
fn both_fit(keys: &[TypedExpr], value: bool, registers: usize) -> bool
    ensures { result ≡ nat_le (spec.need_of_keys 0 (typeds_of keys.now)) registers && value }
{
    keys_fit(keys, registers) && value
}

// Whether there are registers enough for a value while others are kept.
#[cycle(needs)]
fn value_fits(value: &TypedExpr, waiting: usize, registers: usize) -> bool
    ensures { result ≡ nat_le (waiting + spec.need (typed_of value.now)) registers }
{
    waiting <= registers && fits(value, registers - waiting)
}

/// Whether an expression needs no more than these registers.
#[cycle(needs)]
pub(crate) fn fits(e: &TypedExpr, registers: usize) -> bool
    ensures { result ≡ nat_le (spec.need (typed_of e.now)) registers }
{
    match e {
        TypedExpr::Constant(_, _) | TypedExpr::Text(_) | TypedExpr::BuiltIn(_) => 1 <= registers,
        TypedExpr::Read(_, keys) => read_fits(keys, registers),
        TypedExpr::Unary(_, _, a) | TypedExpr::Convert(_, _, a) | TypedExpr::Strlen(a) => {
            fits(a, registers)
        }
        TypedExpr::Operate(_, a, b)
        | TypedExpr::Compare(_, _, a, b)
        | TypedExpr::CompareText(_, a, b)
        | TypedExpr::Strjoin(a, b)
        | TypedExpr::Logic(LogicOperator::Xor, a, b) => {
            fits(a, registers) && value_fits(b, 1, registers)
        }
        TypedExpr::Logic(LogicOperator::And | LogicOperator::Or, a, b) => {
            fits(a, registers) && fits(b, registers)
        }
        TypedExpr::Choice(_, c, a, b) => {
            fits(c, registers) && fits(a, registers) && fits(b, registers)
        }
        TypedExpr::Assign(_, keys, a) => {
            both_fit(keys, value_fits(a, keys.len(), registers), registers)
        }
        TypedExpr::Update(_, _, keys, a) => {
            both_fit(keys, value_fits(a, keys.len() + 1, registers), registers)
        }
        TypedExpr::Step(_, _, _, keys) => step_fits(keys, registers),
    }
}

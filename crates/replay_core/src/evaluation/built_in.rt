//! The values of built-in variables and of texts that a script has.

ghost use Rattle.std.specs.Prelude.{◌≡◌};
ghost use Rattle.std.specs.Int.{cast_unsigned, w64};
ghost use Rattle.d_types.specs.Expressions as spec;
ghost use Rattle.replay_core.specs.Evaluation.{Returns};
ghost use Rattle.replay_core.specs.Vocabulary.{Variables};

use crate::evaluation::fault::EvalFault;
use d_types::BuiltIn;
use d_values::{Text, Value};
use firings::Firing;
use std::alloc::Global;

/// The value of a built-in variable.
pub(crate) fn built_in(
    alloc: Global,
    built_in: BuiltIn,
    firing: &Firing,
) -> Result<Value, EvalFault>
    ensures { (vars : Variables)
        → Returns (spec.Has (spec.built_in_value firing.now built_in) vars) result vars }
{
    match built_in {
        BuiltIn::Argument(n) => Ok(signed(firing.args.nth(n as usize))),
        BuiltIn::Timestamp => Ok(Value::Int(firing.time)),
        BuiltIn::Cpu => Ok(signed(i64::from(firing.cpu))),
        BuiltIn::Pid => Ok(signed(i64::from(firing.pid))),
        BuiltIn::Tid => Ok(signed(i64::from(firing.thread))),
        BuiltIn::Execname => copied_text(alloc, firing.execname.as_bytes()),
        BuiltIn::Probeprov => copied_text(alloc, firing.provider.as_bytes()),
        BuiltIn::Probemod => copied_text(alloc, firing.probemod.as_bytes()),
        BuiltIn::Probefunc => copied_text(alloc, firing.probefunc.as_bytes()),
        BuiltIn::Probename => copied_text(alloc, firing.name.as_bytes()),
    }
}

// A signed integer.
fn signed(number: i64) -> Value
    ensures { result ≡ Value.Int (cast_unsigned w64 number) }
{
    Value::Int(number.cast_unsigned())
}

/// A text, copied.
pub(crate) fn copied_text(alloc: Global, bytes: &[u8]) -> Result<Value, EvalFault>
    ensures { (vars : Variables) → Returns (spec.Has (Value.Text bytes.now) vars) result vars }
{
    let text = Text::from_slice(alloc, bytes)?;
    Ok(Value::Text(text))
}

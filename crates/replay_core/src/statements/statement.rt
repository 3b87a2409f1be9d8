//! One statement.

ghost use Rattle.std.specs.Prelude.{List, map};
ghost use Rattle.d_types.specs.Typed as typed;
ghost use Rattle.replay_core.specs.{Bounds.index_in, Evaluation.Meets};
ghost use Rattle.replay_core.specs.Effects.{CanNote, HasMore, HasTaken};
ghost use Rattle.replay_core.specs.Steps.Effects.{IsPerformed, KeepsTable};
ghost use Rattle.replay_core.specs.Vocabulary.{ActionOf, argument_by, effect_by};

use crate::evaluation::EvalFault;
use crate::lanes::piece::Piece;
use crate::lanes::state::State;
use crate::statements::expression::Expression;
use crate::statements::printing::{printf_text, trace_line};
use d_types::Piece as Part;

/// What an aggregating function is given; 0 if it takes nothing.
pub(crate) fn evaluate_argument<X: Expression>(
    argument: &Option<X>,
    state: &mut State<'_, '_, X::Store>,
) -> Result<i64, EvalFault>
    ensures { Meets X.Store.seen (λ f. argument_by (X.by f) argument.now) result state.old
        state.new }
{
    match argument {
        None => Ok(0),
        Some(e) => {
            let word = e.evaluate_word(state)?;
            Ok(word.cast_signed())
        }
    }
}

/// An expression, for its assignments.
pub(crate) fn plain<X: Expression>(
    e: &X,
    state: &mut State<'_, '_, X::Store>,
    piece: &Piece,
) -> Result<bool, EvalFault>
    ensures { IsPerformed X.Store.seen (λ f. effect_by (X.by f) (typed.Evaluate e.now)) result
        state.old state.new piece.now piece.now }
{
    let _word = e.evaluate_word(state)?;
    Ok(false)
}

/// `trace(value)`
pub(crate) fn trace<X: Expression>(
    e: &X,
    state: &mut State<'_, '_, X::Store>,
    piece: &mut Piece,
) -> Result<bool, EvalFault>
    requires { HasTaken state.old piece.old }
    ensures kept { KeepsTable piece.old piece.new }
    ensures effect { IsPerformed X.Store.seen
        (λ f. effect_by (X.by f) (typed.Trace (X.returned e.now) e.now)) result
        state.old state.new piece.old piece.new }
{
    let value = e.evaluate(state)?;
    let text = trace_line(state.alloc, e.returns(), &value)?;
    piece.note_text(state.firing.number, text)?;
    Ok(false)
}

/// `printf(format, arguments)`
pub(crate) fn print<X: Expression>(
    format: &[Part],
    arguments: &[X],
    state: &mut State<'_, '_, X::Store>,
    piece: &mut Piece,
) -> Result<bool, EvalFault>
    requires { HasTaken state.old piece.old }
    ensures kept { KeepsTable piece.old piece.new }
    ensures effect { IsPerformed X.Store.seen
        (λ f. effect_by (X.by f)
        (typed.Print format.now (map X.returned arguments.now) arguments.now))
        result state.old state.new piece.old piece.new }
{
    let arguments = X::evaluate_arguments(arguments, state)?;
    let text = printf_text(state.alloc, format, &arguments.values)?;
    piece.note_text(state.firing.number, text)?;
    Ok(false)
}

/// `exit(status)`: the first counts.
pub(crate) fn exit<X: Expression>(
    e: &X,
    state: &mut State<'_, '_, X::Store>,
    piece: &mut Piece,
) -> Result<bool, EvalFault>
    ensures kept { KeepsTable piece.old piece.new }
    ensures effect { IsPerformed X.Store.seen (λ f. effect_by (X.by f) (typed.Exit e.now)) result
        state.old state.new piece.old piece.new }
{
    let word = e.evaluate_word(state)?;
    let exit = (state.firing.number, (word % 256) as u8);
    piece.exit = piece.exit.or(Some(exit));
    Ok(true)
}

/// A statement over expressions in the form in which an engine runs it.
pub(crate) trait Statement<X: Expression> {
    /// The statement with its expressions.
    ghost form: { Self → ActionOf X (List X) };

    /// Runs it: notes what it does beside its assignments, and returns whether it exits. At a
    /// division by 0 it fails, and only the assignments made so far have effect.
    fn perform(
        &self,
        state: &mut State<'_, '_, X::Store>,
        piece: &mut Piece,
    ) -> Result<bool, EvalFault>
        requires { CanNote (index_in (form self.now)) 1 state.old piece.old }
        ensures more { HasMore 1 piece.old piece.new }
        ensures effect { IsPerformed X.Store.seen (λ f. effect_by (X.by f) (form self.now)) result
            state.old state.new piece.old piece.new };
}

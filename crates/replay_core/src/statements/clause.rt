//! A run of a clause.

ghost use Rattle.std.specs.Prelude.{IfOk, length, map};
ghost use Rattle.d_types.specs.Clauses as spec;
ghost use Rattle.replay_core.specs.{Bounds.indices_among, Evaluation.Stays};
ghost use Rattle.replay_core.specs.Effects.{CanNote, HasMore, IsNotedRun};
ghost use Rattle.replay_core.specs.Steps.EffectRuns.{ran_by, run_result, statements_by};

use crate::evaluation::EvalFault;
use crate::lanes::piece::Piece;
use crate::lanes::state::State;
use crate::statements::expression::Expression;
use crate::statements::statement::Statement;
use std::alloc::AllocError;

// The statements, in order, up to the first that faults: its line then takes the place of the texts
// of all.
fn run_statements<X: Expression, S: Statement<X>>(
    statements: &[S],
    index: u64,
    state: &mut State<'_, '_, X::Store>,
    piece: &mut Piece,
) -> Result<bool, AllocError>
    requires { CanNote (indices_among (map S.form statements.now)) (length statements.now)
        state.old piece.old }
    ensures more { HasMore (length statements.now) piece.old piece.new }
    ensures state { Stays X.Store.seen state.old state.new }
    ensures run { IfOk result (IsNotedRun X.Store.seen
        (λ f vars. run_result (spec.fault_line f.number index)
        (statements_by (X.by f) (map S.form statements.now) vars))
        state.old state.new piece.old piece.new) }
{
    let before = piece.events.len();
    let mut exits = false;
    for statement in statements {
        match statement.perform(state, piece) {
            Ok(exited) => exits |= exited,
            Err(EvalFault::DivideByZero) => {
                piece.note_fault(state.firing.number, index, before)?;
                return Ok(exits);
            }
            Err(EvalFault::Memory) => return Err(AllocError),
        }
    }
    Ok(exits)
}

/// Runs a clause for a firing that its description matches: the predicate, and the statements if
/// that isn't 0 (Dynamic Tracing Guide, "Predicates"). Returns whether it exits. The index is that
/// among the script's clauses, from 1.
pub(crate) fn run_clause<X: Expression, S: Statement<X>>(
    predicate: &Option<X>,
    statements: &[S],
    index: u64,
    state: &mut State<'_, '_, X::Store>,
    piece: &mut Piece,
) -> Result<bool, AllocError>
    requires { CanNote (indices_among (map S.form statements.now)) (length statements.now)
        state.old piece.old }
    ensures more { HasMore (length statements.now) piece.old piece.new }
    ensures state { Stays X.Store.seen state.old state.new }
    ensures run { IfOk result (IsNotedRun X.Store.seen
        (λ f. ran_by (X.by f) (spec.fault_line f.number index) predicate.now
        (map S.form statements.now)) state.old state.new piece.old piece.new) }
{
    if let Some(predicate) = predicate {
        match predicate.evaluate_word(state) {
            Ok(0) => return Ok(false),
            Ok(_) => {}
            Err(EvalFault::DivideByZero) => {
                let texts = piece.events.len();
                piece.note_fault(state.firing.number, index, texts)?;
                return Ok(false);
            }
            Err(EvalFault::Memory) => return Err(AllocError),
        }
    }
    run_statements(statements, index, state, piece)
}

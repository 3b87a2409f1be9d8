//! Trees, walked.

ghost use Rattle.std.specs.Prelude.{◌+◌};
ghost use Rattle.d_types.specs.Typed as typed;
ghost use Rattle.replay_core.specs.{Effects.HasMore, Effects.HasRoom, Threads.tables_seen};
ghost use Rattle.replay_core.specs.{Steps.Effects.IsPerformed, Vocabulary.effect_by};
ghost use Rattle.replay_core.specs.Forms.{by_expressions, expression_type, statement_form};

use crate::evaluation::{EvalFault, evaluate, evaluate_key};
use crate::lanes::piece::Piece;
use crate::lanes::state::State;
use crate::lanes::tables::Tables;
use crate::statements::expression::{Arguments, Expression};
use crate::statements::statement::{Statement, evaluate_argument, exit, plain, print, trace};
use d_types::{TypedExpr, TypedStmt};
use d_values::{DType, Value};

// `@name[keys] = function(argument)`
fn aggregate(
    index: usize,
    keys: &[TypedExpr],
    argument: &Option<TypedExpr>,
    state: &mut State<'_, '_, Tables>,
    piece: &mut Piece,
) -> Result<bool, EvalFault>
    requires { HasRoom (index + 1) 1 piece.old }
    ensures more { HasMore 1 piece.old piece.new }
    ensures effect { IsPerformed tables_seen
        (λ f. effect_by (by_expressions f) (typed.Aggregate index keys.now argument.now))
        result state.old state.new piece.old piece.new }
{
    let key = evaluate_key(keys, state)?;
    let number = evaluate_argument(argument, state)?;
    piece.table.add(index, &key, number)?;
    Ok(false)
}

impl Expression for TypedExpr {
    type Store = Tables;

    ghost by = { by_expressions };

    ghost returned = { expression_type };

    fn returns(&self) -> DType {
        self.type_of()
    }

    fn evaluate(&self, state: &mut State<'_, '_, Tables>) -> Result<Value, EvalFault> {
        evaluate(self, state)
    }

    fn evaluate_arguments(
        arguments: &[TypedExpr],
        state: &mut State<'_, '_, Tables>,
    ) -> Result<Arguments, EvalFault> {
        let mut values = Vec::new(state.alloc);
        for argument in arguments {
            let value = evaluate(argument, state)?;
            values.push((argument.type_of(), value))?;
        }
        Ok(Arguments { values })
    }
}

impl Statement<TypedExpr> for TypedStmt {
    ghost form = { statement_form };

    fn perform(
        &self,
        state: &mut State<'_, '_, Tables>,
        piece: &mut Piece,
    ) -> Result<bool, EvalFault> {
        match self {
            TypedStmt::Evaluate(e) => plain(e, state, piece),
            TypedStmt::Trace(e) => trace(e, state, piece),
            TypedStmt::Print(format, arguments) => { print(format, arguments, state, piece) }
            TypedStmt::Exit(e) => exit(e, state, piece),
            TypedStmt::Aggregate(index, keys, argument) => aggregate(
                *index, keys, argument, state, piece,
            ),
        }
    }
}

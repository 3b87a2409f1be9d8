//! Expressions as engines evaluate them.

ghost use Rattle.std.specs.Prelude.{◌≡◌, List, map};

use crate::evaluation::{EvalFault, word_in};
use crate::lanes::state::State;
use crate::lanes::store::Store;
use d_values::{DType, Value};
use std::marker::Model;

/// Arguments of `printf`, each with its type.
#[derive(Drop)]
pub(crate) struct Arguments {
    pub(crate) values: Vec<(DType, Value)>,
}

impl Model for Arguments {
    ghost use Rattle.replay_core.specs.Vocabulary.{DType, List, Value as Printed};

    ghost Value = { List (DType × Printed) };

    ghost view = { λ a. a.values.items };
}

/// An expression in the form in which an engine evaluates it. Each call leaves the variables as the
/// evaluation does, even at a division by 0.
pub(crate) trait Expression: Sized {
    type Store: Store;

    ghost use Rattle.replay_core.specs.{Evaluation.Meets};
    ghost use Rattle.replay_core.specs.Vocabulary.{DType, Evaluation, Firing as Recorded};
    ghost use Rattle.replay_core.specs.Vocabulary.{number_outcome};

    /// What evaluation means.
    ghost by: { Recorded → Evaluation Self (List Self) };

    /// The type of the value.
    ghost returned: { Self → DType };

    /// The type of its value.
    fn returns(&self) -> DType
        ensures { result ≡ returned self.now };

    /// Its value.
    fn evaluate(&self, state: &mut State<'_, '_, Self::Store>) -> Result<Value, EvalFault>
        ensures { Meets Self.Store.seen (λ f. (by f).value self.now) result state.old state.new };

    /// The word of its value: 0 for a text.
    fn evaluate_word(&self, state: &mut State<'_, '_, Self::Store>) -> Result<u64, EvalFault>
        ensures { Meets Self.Store.seen (λ f vars. number_outcome ((by f).value self.now vars))
            result state.old state.new }
    {
        let value = self.evaluate(state)?;
        Ok(word_in(&value))
    }

    /// The values of several, from left to right.
    fn evaluate_arguments(
        arguments: &[Self],
        state: &mut State<'_, '_, Self::Store>,
    ) -> Result<Arguments, EvalFault>
        ensures { Meets Self.Store.seen
            (λ f. (by f).values (map returned arguments.now) arguments.now) result state.old
            state.new };
}

//! Clauses as engines run them.

ghost use Rattle.std.specs.Prelude.{◌≡◌, ℕ, IfOk, length, map};
ghost use Rattle.replay_core.specs.Vocabulary.{AreTyped, ClauseMeant, HasTypedBuiltIns};
ghost use Rattle.replay_core.specs.Vocabulary.{IsSameClause, Slots, action_code, meant_of, run_of};
ghost use Rattle.replay_core.specs.Vocabulary.{statement_count};
ghost use Rattle.replay_core.specs.Effects.{CanNote, HasMore, IsNotedRun};
ghost use Rattle.replay_core.specs.Bounds.{indices_among, indices_in};
ghost use Rattle.replay_core.specs.Evaluation.{Stays, variables_in};

use crate::lanes::piece::Piece;
use crate::lanes::state::State;
use crate::lanes::store::Store;
use crate::lanes::tables::Tables;
use crate::lanes::word_store::Words;
use crate::statements::run_clause;
use d_parser::Description;
use d_types::TypedClause;
use dif_codegen::CompiledClause;
use std::alloc::AllocError;

/// A clause in the form in which an engine runs it.
pub trait Clause {
    /// Where it finds variables.
    type Store: Store;

    /// What it means if variables have the types of these slots.
    ghost means: { Self → Slots → ClauseMeant → Type 0 };

    /// How many contributions a run makes at most.
    ghost most: { Self → ℕ };

    /// The indices of the aggregations that it names are below this.
    ghost indices: { Self → ℕ };

    /// How many descriptions it has.
    ghost probes: { Self → ℕ };

    /// The probes that it is for.
    fn descriptions(&self) -> &[Description]
        ensures meaning { (slots : Slots) (c : ClauseMeant) → means self.now slots c
            → result.now ≡ c.descriptions }
        ensures probes { length result.now ≡ probes self.now };

    /// Runs it for a firing: notes in the piece what its statements do, and returns whether it
    /// exits. At a division by 0 the run ends, and a line that names the firing and the clause's
    /// index, from 1, takes the place of its texts.
    fn run(
        &self,
        index: u64,
        state: &mut State<'_, '_, Self::Store>,
        piece: &mut Piece,
    ) -> Result<bool, AllocError>
        requires { CanNote (indices self.now) (most self.now) state.old piece.old }
        ensures more { HasMore (most self.now) piece.old piece.new }
        ensures state { Stays Self.Store.seen state.old state.new }
        ensures run { IfOk result (λ exits.
            (slots : Slots) (c : ClauseMeant) → means self.now slots c
            → HasTypedBuiltIns state.old.firing.now
            → AreTyped slots (variables_in Self.Store.seen state.old)
            → IsNotedRun Self.Store.seen (λ f. run_of f index c) state.old state.new piece.old
            piece.new exits) };
}

// The tree of a clause, walked.
impl Clause for TypedClause {
    type Store = Tables;

    ghost means = { λ c slots meant. meant ≡ meant_of c };

    ghost most = { λ c. statement_count (meant_of c) };

    ghost indices = { λ c. indices_in (meant_of c) };

    ghost probes = { λ c. length c.descriptions.items };

    fn descriptions(&self) -> &[Description] {
        &self.descriptions
    }

    fn run(
        &self,
        index: u64,
        state: &mut State<'_, '_, Tables>,
        piece: &mut Piece,
    ) -> Result<bool, AllocError> {
        run_clause(&self.predicate, &self.statements, index, state, piece)
    }
}

// The objects of a compiled clause, run by the machine.
impl Clause for CompiledClause {
    type Store = Words;

    ghost means = { λ c slots meant. IsSameClause slots c meant };

    ghost most = { λ c. length c.actions.items };

    ghost indices = { λ c. indices_among (map action_code c.actions.items) };

    ghost probes = { λ c. length c.descriptions.items };

    fn descriptions(&self) -> &[Description] {
        &self.descriptions
    }

    fn run(
        &self,
        index: u64,
        state: &mut State<'_, '_, Words>,
        piece: &mut Piece,
    ) -> Result<bool, AllocError> {
        run_clause(&self.predicate, &self.actions, index, state, piece)
    }
}

//! Compiled scripts.

use aggregations::AggFn;
use d_parser::Description;
use d_types::Piece;
use d_values::DType;
use dif_machine::{Machine, MachineFault, Memory, run_on};
use dif_validate::ValidDifo;
use firings::Firing;
use numbered::Word;

/// The object of an expression.
#[derive(Drop)]
pub struct TypedObject {
    /// Its code.
    pub object: ValidDifo,
    /// The type of the value that it returns.
    pub returns: DType,
}

impl TypedObject {
    ghost use Rattle.dif_codegen.specs.{Correct.Gives, Meaning.value_of};
    ghost use Rattle.dif_machine.specs.{Machine.word_result};
    ghost use Rattle.dif_machine.specs.Memories.{IsReady, RunsOver};

    /// Runs it for a firing, on a machine that may have served other runs. The variables keep the
    /// writes so far, even after a fault or if memory was refused.
    ///
    /// ```text
    /// // of `timestamp`, if the firing's time is 1000
    /// object.run_on(&firing, &mut machine, &mut memory)?; // Word::Int(1000)
    /// ```
    #[inline(always)]
    pub fn run_on<M: Memory>(
        &self,
        firing: &Firing,
        machine: &mut Machine,
        memory: &mut M,
    ) -> Result<Word, MachineFault>
        requires { IsReady M.is_over firing.now memory.old machine.old }
        ensures meant { Gives (value_of firing.now self.now.object
            (M.holds memory.old machine.old.texts)) (word_result machine.new.texts result)
            (M.holds memory.new machine.new.texts) }
        ensures run { RunsOver M.holds M.is_over M.beside self.now.object firing.now
            memory.old machine.old result memory.new machine.new }
    {
        // That it is valid.
        let _ = self.object.difo();
        run_on(&self.object, firing, machine, memory)
    }
}

/// A compiled statement.
#[derive(Drop)]
pub enum Action {
    /// An expression, for its assignments.
    Plain(TypedObject),
    /// `trace(value)`
    Trace(TypedObject),
    /// `printf(format, arguments)`
    Printf(Vec<Piece>, Vec<TypedObject>),
    /// `exit(status)`
    Exit(TypedObject),
    /// `@name[keys] = function(argument)`: the aggregation's index, its keys, and what its function
    /// takes, if any.
    Aggregate(usize, Vec<TypedObject>, Option<TypedObject>),
}

/// A compiled clause.
#[derive(Drop)]
pub struct CompiledClause {
    /// The probes that it is for.
    pub descriptions: Vec<Description>,
    /// What has to be other than zero, if anything.
    pub predicate: Option<TypedObject>,
    /// What is done, in order.
    pub actions: Vec<Action>,
}

/// A compiled script.
#[derive(Drop)]
pub struct Program {
    pub(crate) clauses: Vec<CompiledClause>,
    pub(crate) functions: Vec<AggFn>,
}

impl Program {
    ghost use Rattle.std.specs.Prelude.{◌≡◌};

    /// Its clauses, in the order of the script's.
    ///
    /// ```text
    /// program.clauses().len(); // 2, for a script of two clauses
    /// ```
    pub fn clauses(&self) -> &[CompiledClause]
        ensures { result.now ≡ self.now.clauses.items }
    {
        &self.clauses
    }

    /// The functions of the script's aggregations, in order of first appearance.
    ///
    /// ```text
    /// program.aggs(); // [AggFn::Count], for `@calls = count()`
    /// ```
    pub fn aggs(&self) -> &[AggFn]
        ensures { result.now ≡ self.now.functions.items }
    {
        &self.functions
    }
}

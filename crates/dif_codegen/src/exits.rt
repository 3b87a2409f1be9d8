//! Which programs exit.

ghost use Rattle.std.specs.List.{list_any};
ghost use Rattle.std.specs.Prelude.{◌≡◌};
ghost use Rattle.d_types.specs.Typed.{has_exit, is_exit};
ghost use Rattle.dif_codegen.specs.{Programs.action_code, Vocabulary.ScriptMeant};
ghost use Rattle.dif_codegen.specs.Meaning.{IsProgramOf, code_exits};

use crate::program::{Action, CompiledClause, Program};

impl Action {
    // Whether it is an exit.
    fn is_exit(&self) -> bool
        ensures { result ≡ is_exit (action_code self.now) }
    {
        match self {
            Action::Exit(_) => true,
            Action::Plain(_)
            | Action::Trace(_)
            | Action::Printf(_, _)
            | Action::Aggregate(_, _, _) => false,
        }
    }
}

impl CompiledClause {
    // Whether it has an exit.
    fn exits(&self) -> bool
        ensures { result ≡ list_any (λ a. is_exit (action_code a)) self.now.actions.items }
    {
        self.actions.iter().any(|a| a.is_exit())
    }
}

impl Program {
    /// Whether it has an exit, which it has exactly if its script has one.
    ///
    /// ```text
    /// program.exits() // true, of `hit / arg0 == 7 / { exit(1); }`
    /// ```
    pub fn exits(&self) -> bool
        ensures actions { result ≡ code_exits self.now.clauses.items }
        ensures script { (m : ScriptMeant)
            → IsProgramOf m self.now.clauses.items self.now.functions.items
            → result ≡ has_exit m }
    {
        any_exits(self.clauses())
    }
}

// Whether one of them has an exit.
fn any_exits(clauses: &[CompiledClause]) -> bool
    ensures { result
        ≡ list_any (λ c. list_any (λ a. is_exit (action_code a)) c.actions.items) clauses.now }
{
    clauses.iter().any(|c| c.exits())
}

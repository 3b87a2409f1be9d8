//! Which scripts exit.

ghost use Rattle.std.specs.List.{list_any};
ghost use Rattle.std.specs.Prelude.{◌≡◌};
ghost use Rattle.d_types.specs.{TypedScripts.typed_script_of};
ghost use Rattle.d_types.specs.Typed.{action_of, has_exit, is_exit};

use crate::typed::{TypedClause, TypedStmt};
use crate::typed_script::TypedScript;

impl TypedStmt {
    // Whether a statement is an `exit`.
    fn is_exit(&self) -> bool
        ensures { result ≡ is_exit (action_of self.now) }
    {
        match self {
            TypedStmt::Exit(_) => true,
            TypedStmt::Evaluate(_)
            | TypedStmt::Trace(_)
            | TypedStmt::Print(_, _)
            | TypedStmt::Aggregate(_, _, _) => false,
        }
    }
}

impl TypedClause {
    // Whether it has an `exit`.
    fn exits(&self) -> bool
        ensures { result ≡ list_any (λ s. is_exit (action_of s)) self.now.statements.items }
    {
        self.statements.iter().any(|s| s.is_exit())
    }
}

impl TypedScript {
    /// Whether it has an `exit`.
    ///
    /// ```text
    /// script.exits() // true, of `hit / arg0 == 7 / { exit(1); }`
    /// ```
    pub fn exits(&self) -> bool
        ensures { result ≡ has_exit (typed_script_of self.now) }
    {
        any_exits(self.clauses())
    }
}

// Whether one of them has an `exit`.
fn any_exits(clauses: &[TypedClause]) -> bool
    ensures { result
        ≡ list_any (λ c. list_any (λ s. is_exit (action_of s)) c.statements.items) clauses.now }
{
    clauses.iter().any(|c| c.exits())
}

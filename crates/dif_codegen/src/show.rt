//! Programs as one reads them: what each statement does, with the code of its objects.

use crate::program::{Action, CompiledClause, Program, TypedObject};
use std::fmt::{self, Display};

impl fmt::Display for TypedObject {
    fn fmt<W: fmt::Write>(&self, f: &mut fmt::Formatter<W>) -> fmt::Result {
        let difo = self.object.difo();
        for instruction in &difo.code {
            write!(f, "    {instruction}\n")?;
        }
        for number in &difo.numbers {
            write!(f, "    number {number}\n")?;
        }
        Ok(())
    }
}

// Objects, one after the other.
fn write_all<W: fmt::Write>(f: &mut fmt::Formatter<W>, all: &[TypedObject]) -> fmt::Result {
    for object in all {
        Display::fmt(object, f)?;
    }
    Ok(())
}

// An object after its head.
fn write_headed<W: fmt::Write>(
    f: &mut fmt::Formatter<W>,
    head: &str,
    object: &TypedObject,
) -> fmt::Result {
    f.write_str(head)?;
    Display::fmt(object, f)
}

// Keys, and after them what the function takes, if anything.
fn write_aggregate<W: fmt::Write>(
    f: &mut fmt::Formatter<W>,
    index: usize,
    keys: &[TypedObject],
    argument: &Option<TypedObject>,
) -> fmt::Result {
    write!(f, "  aggregate {index}\n")?;
    write_all(f, keys)?;
    match argument {
        Some(argument) => Display::fmt(argument, f),
        None => Ok(()),
    }
}

impl fmt::Display for Action {
    fn fmt<W: fmt::Write>(&self, f: &mut fmt::Formatter<W>) -> fmt::Result {
        match self {
            Action::Plain(object) => write_headed(f, "  evaluate\n", object),
            Action::Trace(object) => write_headed(f, "  trace\n", object),
            Action::Printf(_, arguments) => {
                f.write_str("  printf\n")?;
                write_all(f, arguments)
            }
            Action::Exit(object) => write_headed(f, "  exit\n", object),
            Action::Aggregate(index, keys, argument) => write_aggregate(f, *index, keys, argument),
        }
    }
}

impl fmt::Display for CompiledClause {
    fn fmt<W: fmt::Write>(&self, f: &mut fmt::Formatter<W>) -> fmt::Result {
        f.write_str("clause\n")?;
        if let Some(object) = &self.predicate {
            write_headed(f, "  predicate\n", object)?;
        }
        for action in &self.actions {
            Display::fmt(action, f)?;
        }
        Ok(())
    }
}

impl fmt::Display for Program {
    fn fmt<W: fmt::Write>(&self, f: &mut fmt::Formatter<W>) -> fmt::Result {
        for clause in &self.clauses {
            Display::fmt(clause, f)?;
        }
        Ok(())
    }
}

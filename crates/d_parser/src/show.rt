//! Trees as text, for tests and for people: each operation has parentheses of its own, and each
//! part of the script a line of its own.

use crate::tree::{
    Clause, Constant, Declaration, Description, Expr, Item, Script, Stmt, Target, Variable,
};
use d_lexer::{ByteString, Suffix};
use std::fmt;

// A byte string as text, each byte as the character of its number.
#[derive(Clone, Copy)]
struct Shown<'a>(&'a ByteString);

impl fmt::Display for Shown<'_> {
    fn fmt<W: fmt::Write>(&self, f: &mut fmt::Formatter<W>) -> fmt::Result {
        for byte in self.0.as_slice() {
            f.write_char(char::from(*byte))?;
        }
        Ok(())
    }
}

// Shows several with commas between.
fn show_list<T: fmt::Display, W: fmt::Write>(
    all: &Vec<T>,
    f: &mut fmt::Formatter<W>,
) -> fmt::Result {
    let mut separator = "";
    for one in all {
        write!(f, "{separator}{one}")?;
        separator = ", ";
    }
    Ok(())
}

// Shows several in brackets, or nothing if there are none.
fn show_keys<T: fmt::Display, W: fmt::Write>(
    keys: &Vec<T>,
    f: &mut fmt::Formatter<W>,
) -> fmt::Result {
    if keys.is_empty() {
        return Ok(());
    }
    f.write_str("[")?;
    show_list(keys, f)?;
    f.write_str("]")
}

impl fmt::Display for Constant {
    fn fmt<W: fmt::Write>(&self, f: &mut fmt::Formatter<W>) -> fmt::Result {
        match self {
            Constant::Number { value, suffix } => {
                let letters = match suffix {
                    Suffix::Absent => "",
                    Suffix::Unsigned => "u",
                    Suffix::Long => "l",
                    Suffix::UnsignedLong => "ul",
                };
                write!(f, "{value}{letters}")
            }
            Constant::Text(text) => write!(f, "\"{}\"", text.as_slice().escape_ascii()),
        }
    }
}

impl fmt::Display for Variable {
    fn fmt<W: fmt::Write>(&self, f: &mut fmt::Formatter<W>) -> fmt::Result {
        match self {
            Variable::Plain { name, .. } => write!(f, "{}", Shown(name)),
            Variable::Thread { name, .. } => write!(f, "self->{}", Shown(name)),
            Variable::Clause { name, .. } => write!(f, "this->{}", Shown(name)),
        }
    }
}

impl fmt::Display for Target {
    #[cycle(show)]
    fn fmt<W: fmt::Write>(&self, f: &mut fmt::Formatter<W>) -> fmt::Result {
        let variable = &self.variable;
        write!(f, "{variable}")?;
        show_keys(&self.keys, f)
    }
}

impl fmt::Display for Expr {
    #[cycle(show)]
    fn fmt<W: fmt::Write>(&self, f: &mut fmt::Formatter<W>) -> fmt::Result {
        match self {
            Expr::Constant { constant, .. } => write!(f, "{constant}"),
            Expr::Read(target) => write!(f, "{target}"),
            Expr::Call {
                function,
                arguments,
                ..
            } => {
                write!(f, "{}(", Shown(function))?;
                show_list(arguments, f)?;
                f.write_str(")")
            }
            Expr::Unary {
                operator,
                operand,
                ..
            } => write!(f, "({operator}{operand})"),
            Expr::Cast { to, operand, .. } => write!(f, "(({to}){operand})"),
            Expr::Before { step, target, .. } => write!(f, "({step}{target})"),
            Expr::After { target, step } => write!(f, "({target}{step})"),
            Expr::Binary {
                operator,
                left,
                right,
            } => write!(f, "({left} {operator} {right})"),
            Expr::Choice {
                test,
                first,
                second,
            } => write!(f, "({test} ? {first} : {second})"),
            Expr::Assign {
                operator,
                target,
                value,
            } => write!(f, "({target} {operator} {value})"),
        }
    }
}

impl fmt::Display for Stmt {
    fn fmt<W: fmt::Write>(&self, f: &mut fmt::Formatter<W>) -> fmt::Result {
        match self {
            Stmt::Expression(expression) => write!(f, "{expression}"),
            Stmt::Aggregation {
                name,
                keys,
                function,
                arguments,
                ..
            } => {
                write!(f, "@{}", Shown(name))?;
                show_keys(keys, f)?;
                write!(f, " = {}(", Shown(function))?;
                show_list(arguments, f)?;
                f.write_str(")")
            }
        }
    }
}

impl fmt::Display for Description {
    fn fmt<W: fmt::Write>(&self, f: &mut fmt::Formatter<W>) -> fmt::Result {
        let provider = Shown(&self.provider);
        let middle = Shown(&self.module);
        let function = Shown(&self.function);
        let name = Shown(&self.name);
        write!(f, "{provider}:{middle}:{function}:{name}")
    }
}

impl fmt::Display for Clause {
    fn fmt<W: fmt::Write>(&self, f: &mut fmt::Formatter<W>) -> fmt::Result {
        show_list(&self.descriptions, f)?;
        if let Some(predicate) = &self.predicate {
            write!(f, " / {predicate} /")?;
        }
        f.write_str(" {")?;
        for statement in &self.statements {
            write!(f, " {statement};")?;
        }
        f.write_str(" }")
    }
}

impl fmt::Display for Declaration {
    fn fmt<W: fmt::Write>(&self, f: &mut fmt::Formatter<W>) -> fmt::Result {
        match self {
            Declaration::Thread {
                declared,
                name,
                keys,
                ..
            } => {
                write!(f, "self {declared} {}", Shown(name))?;
                show_keys(keys, f)?;
                f.write_str(";")
            }
            Declaration::Clause { declared, name, .. } => {
                write!(f, "this {declared} {};", Shown(name))
            }
        }
    }
}

impl fmt::Display for Item {
    fn fmt<W: fmt::Write>(&self, f: &mut fmt::Formatter<W>) -> fmt::Result {
        match self {
            Item::Declaration(declaration) => write!(f, "{declaration}"),
            Item::Clause(clause) => write!(f, "{clause}"),
        }
    }
}

impl fmt::Display for Script {
    fn fmt<W: fmt::Write>(&self, f: &mut fmt::Formatter<W>) -> fmt::Result {
        for item in &self.items {
            writeln!(f, "{item}")?;
        }
        Ok(())
    }
}

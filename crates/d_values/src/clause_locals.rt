//! Clause-local variables.

ghost use Rattle.std.specs.Prelude.{◌≡◌, [], unwrap_or, OnOk, OnErr};
ghost use Rattle.d_values.specs.{Outcomes.AllOrNothing, Variables.same_var};
ghost use Rattle.d_values.specs.Vocabulary.{get, Updates};
ghost use Rattle.d_values.specs.Stores.{blank, kind_of, value_to_keep, lent_value, local_entry};
ghost use Rattle.d_values.specs.Stores.{local_of, with_local};

use crate::value::{Value, ValueRef};
use crate::variable::Var;
use indexmap::IndexMap;
use std::alloc::{AllocError, Global};
use std::marker::Model;

/// The clause-local variables of a firing (Guide, "Clause-Local Variables"). A variable that was
/// never set reads as zero or the empty text.
#[derive(Drop)]
pub struct ClauseLocals {
    map: IndexMap<Var, Value>,
}

impl Model for ClauseLocals {
    ghost use Rattle.d_values.specs.Stores.{Locals, AreLocals};

    ghost Value = { Locals };

    ghost view = { λ l. l.map.entries };

    ghost invariant = { λ l. AreLocals l.map.entries };
}

impl ClauseLocals {
    /// Variables of which none is set.
    ///
    /// ```text
    /// let locals = ClauseLocals::new(alloc);
    /// locals.get(Var { slot: 0, kind: Kind::Number }); // ValueRef::Int(0)
    /// ```
    pub fn new(alloc: Global) -> ClauseLocals
        ensures { result ≡ [] }
    {
        ClauseLocals {
            map: IndexMap::new(alloc),
        }
    }

    /// Unsets all. Takes no memory.
    ///
    /// ```text
    /// locals.set(var, Value::Int(5))?;
    /// locals.reset();
    /// locals.get(var); // ValueRef::Int(0)
    /// ```
    pub fn reset(&mut self)
        ensures { self.new ≡ [] }
    {
        if !self.map.is_empty() {
            self.map.clear();
        }
    }

    /// What the variable holds. Takes no memory.
    ///
    /// ```text
    /// locals.set(var, Value::Int(5))?;
    /// locals.get(var); // ValueRef::Int(5)
    /// ```
    pub fn get(&self, var: Var) -> ValueRef<'_>
        ensures value { lent_value result ≡ local_of self.now var }
        ensures kind { kind_of (lent_value result) ≡ var.kind }
    {
        find(&self.map, var)
    }

    /// Sets the variable, to a value of its kind.
    ///
    /// ```text
    /// let mut locals = ClauseLocals::new(alloc);
    /// let var = Var { slot: 0, kind: Kind::Number };
    /// locals.set(var, Value::Int(5))?;
    /// locals.get(var); // ValueRef::Int(5)
    /// locals.reset();
    /// locals.get(var); // ValueRef::Int(0)
    /// ```
    pub fn set(&mut self, var: Var, value: Value) -> Result<(), AllocError>
        requires { kind_of value ≡ var.kind }
        ensures ok { OnOk result (local_of self.new ≡ with_local (local_of self.old) var value) }

        // Zero and the empty text unset it.
        ensures kept { OnOk result
            (local_entry self.new ≡ with_local (local_entry self.old) var (value_to_keep value)) }
        ensures err { OnErr result (self.new ≡ self.old) }
    {
        put(&mut self.map, var, value)
    }
}

// What a variable has.
fn find(map: &IndexMap<Var, Value>, var: Var) -> ValueRef<'_>
    ensures { lent_value result ≡ unwrap_or (get same_var map.now var) (blank var.kind) }
{
    match map.get(&var) {
        Some(value) => value.as_ref(),
        None => ValueRef::blank(var.kind),
    }
}

// Sets a variable's value.
fn put(map: &mut IndexMap<Var, Value>, var: Var, value: Value) -> Result<(), AllocError>
    ensures { AllOrNothing result map.old.entries map.new.entries
        (Updates same_var map.old map.new var (value_to_keep value)) }
{
    if value.is_blank() {
        map.swap_remove(&var);
        return Ok(());
    }
    map.insert(var, value)?;
    Ok(())
}

//! Thread-local variables.

ghost use Rattle.std.specs.Prelude.{◌≡◌, [], None, unwrap_or, OnOk, OnErr};
ghost use Rattle.d_values.specs.{Outcomes.AllOrNothing, Vocabulary.get, Variables.same_var};
ghost use Rattle.d_values.specs.Stores.{blank, kind_of, value_to_keep, lent_value, own_entry};
ghost use Rattle.d_values.specs.Stores.{own_of, with_own, AreOwn};
ghost use Rattle.d_values.specs.Tables.{pairs_of};
ghost use Rattle.d_values.specs.Steps.Tables.{value_at, Sets};

use crate::held::Held;
use crate::key::Key;
use crate::value::{Value, ValueRef};
use crate::variable::Var;
use indexmap::IndexMap;
use keyed_hash::HashKey;
use std::alloc::{AllocError, Global};
use std::marker::Model;

// Most threads have few variables: up to this number, they take no more room than they need.
const MAX_EXACT: usize = 4;

/// The thread-local variables of a thread (Guide, "Thread-Local Variables"), scalars under the
/// empty key. What was never set reads as zero or the empty text.
#[derive(Drop)]
pub struct ThreadTable {
    variables: IndexMap<Var, Held, HashKey>,
}

impl Model for ThreadTable {
    ghost use Rattle.d_values.specs.{Stores.Own, Stores.AreOwn, Tables.pairs_of};

    ghost Value = { Own };

    ghost view = { λ t. pairs_of t.variables.entries };

    ghost invariant = { λ t. AreOwn (pairs_of t.variables.entries) };
}

impl ThreadTable {
    /// Variables of which none is set. Their maps hash by a fixed key.
    ///
    /// ```text
    /// let table = ThreadTable::new(alloc);
    /// let var = Var { slot: 0, kind: Kind::Text };
    /// table.get(var, &key); // ValueRef::Text(b"")
    /// ```
    pub fn new(alloc: Global) -> ThreadTable
        ensures { result ≡ [] }
    {
        ThreadTable::with_hash_key(alloc, HashKey::of_seed(&[]))
    }

    /// Variables of which none is set, in maps that hash by this key.
    ///
    /// ```text
    /// let table = ThreadTable::with_hash_key(alloc, HashKey::random(&rt));
    /// ```
    pub fn with_hash_key(alloc: Global, hash_key: HashKey) -> ThreadTable
        ensures { result ≡ [] }
    {
        ThreadTable {
            variables: IndexMap::with_hasher(alloc, hash_key),
        }
    }

    /// What the variable holds under the key. Takes no memory.
    ///
    /// ```text
    /// table.set(var, &key, Value::Int(5))?;
    /// table.get(var, &key); // ValueRef::Int(5)
    /// ```
    pub fn get(&self, var: Var, key: &Key) -> ValueRef<'_>
        ensures value { lent_value result ≡ own_of self.now var key.now }
        ensures kind { kind_of (lent_value result) ≡ var.kind }
    {
        find(&self.variables, var, key)
    }

    /// Sets the variable under the key, to a value of its kind.
    ///
    /// ```text
    /// let mut table = ThreadTable::new(alloc);
    /// let var = Var { slot: 0, kind: Kind::Number };
    /// table.set(var, &key, Value::Int(5))?;
    /// table.get(var, &key); // ValueRef::Int(5)
    /// ```
    pub fn set(&mut self, var: Var, key: &Key, value: Value) -> Result<(), AllocError>
        requires { kind_of value ≡ var.kind }
        ensures ok { OnOk result
            (own_of self.new ≡ with_own (own_of self.old) var key.now value) }

        // Zero and the empty text unset it.
        ensures kept { OnOk result
            (own_entry self.new ≡ with_own (own_entry self.old) var key.now (value_to_keep value)) }
        ensures err { OnErr result (self.new ≡ self.old) }
    {
        put(&mut self.variables, var, key, value)
    }

    /// Borrows the underlying map, from each variable that was ever set to what it holds. Takes no
    /// memory.
    ///
    /// ```text
    /// // after `self->start = timestamp;`
    /// table.map().len(); // 1
    /// ```
    pub fn map(&self) -> &IndexMap<Var, Held, HashKey>
        ensures pairs { pairs_of result.now.entries ≡ self.now }
        ensures set { AreOwn self.now }
    {
        &self.variables
    }
}

// What a variable has at a key.
fn find<'a>(variables: &'a IndexMap<Var, Held, HashKey>, var: Var, key: &Key) -> ValueRef<'a>
    ensures { lent_value result
        ≡ unwrap_or (value_at variables.now.entries var key.now) (blank var.kind) }
{
    match variables.get(&var) {
        Some(held) => held.get(key, var.kind),
        None => ValueRef::blank(var.kind),
    }
}

// Sets what a variable has at a key.
fn put(
    variables: &mut IndexMap<Var, Held, HashKey>,
    var: Var,
    key: &Key,
    value: Value,
) -> Result<(), AllocError>
    ensures { AllOrNothing result
        (pairs_of variables.old.entries) (pairs_of variables.new.entries)
        (Sets variables.old.entries variables.new.entries var key.now (value_to_keep value)) }
{
    if let Some((index, _, _)) = variables.get_full(&var) {
        if let Some(held) = variables.get_index_mut(index) {
            return held.set(key, value);
        }
    }
    start(variables, var, key, value)
}

// Sets what a variable has at a key that has had nothing at any.
fn start(
    variables: &mut IndexMap<Var, Held, HashKey>,
    var: Var,
    key: &Key,
    value: Value,
) -> Result<(), AllocError>
    requires { get same_var variables.old var ≡ None }
    ensures { AllOrNothing result variables.old.entries variables.new.entries
        (Sets variables.old.entries variables.new.entries var key.now (value_to_keep value)) }
{
    if value.is_blank() {
        return Ok(());
    }
    let mut held = Held::new(*variables.allocator(), *variables.hasher());
    held.set(key, value)?;
    held.shrink_to_fit();
    variables.insert(var, held)?;
    if variables.len() <= MAX_EXACT {
        variables.shrink_to_fit();
    }
    Ok(())
}

//! From scripts to typed scripts.

ghost use Rattle.std.specs.Prelude.{[], map};
ghost use Rattle.d_types.specs.Steps.Faults.{Gives};
ghost use Rattle.d_types.specs.TypedScripts.{typed_script_of, IsCheckOf};
ghost use Rattle.d_types.specs.Steps.Variables.{rows_of_entries};
ghost use Rattle.d_types.specs.Vocabulary.{AreSmall, IsWithin, item_of, script_of};
ghost use Rattle.d_types.specs.Typed.{meant_of, aggs_of};
ghost use Rattle.d_types.specs.Steps.Scripts as spec;

use crate::clause::clause;
use crate::declaration::declaration;
use crate::fault::TypeFault;
use crate::typed::{TypedAggregation, TypedClause};
use crate::typed_script::TypedScript;
use crate::variables::{Entry, types_in};
use d_lexer::MAX_BYTES;
use d_parser::{Item, Script};
use std::alloc::Global;

fn item(
    alloc: Global,
    table: &mut Vec<Entry>,
    aggs: &mut Vec<TypedAggregation>,
    done: &mut Vec<TypedClause>,
    item: &Item,
) -> Result<(), TypeFault>
    ensures { Gives
        (λ x. (
          map meant_of done.new.items,
          (rows_of_entries table.new.items, aggs_of aggs.new.items),
        ))
        result (spec.item (map meant_of done.old.items) (rows_of_entries table.old.items)
        (aggs_of aggs.old.items) (item_of item.now)) }
{
    match item {
        Item::Declaration(declared) => declaration(alloc, table, declared),
        Item::Clause(probing) => {
            let typed = clause(alloc, table, aggs, probing)?;
            done.push(typed)?;
            Ok(())
        }
    }
}

fn items(
    alloc: Global,
    table: &mut Vec<Entry>,
    aggs: &mut Vec<TypedAggregation>,
    list: &[Item],
) -> Result<Vec<TypedClause>, TypeFault>
    ensures { Gives
        (λ all. (
          map meant_of all.items,
          (rows_of_entries table.new.items, aggs_of aggs.new.items),
        )) result
        (spec.items [] (rows_of_entries table.old.items) (aggs_of aggs.old.items)
        (map item_of list.now)) }
{
    let mut done = Vec::new(alloc);
    for next in list {
        item(alloc, table, aggs, &mut done, next)?;
    }
    Ok(done)
}

fn typed_script(alloc: Global, script: Script) -> Result<TypedScript, TypeFault>
    requires few { IsWithin MAX_BYTES (script_of script) }
    requires small { AreSmall (script_of script) }
    ensures { Gives typed_script_of result (spec.script (script_of script)) }
{
    let mut table = Vec::new(alloc);
    let mut aggs = Vec::new(alloc);
    match items(alloc, &mut table, &mut aggs, &script.items) {
        Ok(clauses) => {
            let slots = types_in(alloc, &table)?;
            Ok(TypedScript::from_parts(clauses, aggs, slots))
        }
        Err(fault) => Err(fault),
    }
}

/// The typed script of a script that is well typed, with every register need at most `MAX_NEED`,
/// else its first fault: parts come first, from the left to the right, then the construct itself,
/// with the cause of lowest number. Every script that `parse` gives is small enough and has such
/// numbers, and the typed script keeps that it does.
///
/// ```text
/// let script = parse(alloc, &lex(alloc, b"hit { self->x = 1; }")?)?;
/// check(alloc, script)?; // a clause with one statement, and one variable: an int
/// let script = parse(alloc, &lex(alloc, b"hit { pid = 1; }")?)?;
/// check(alloc, script); // Err(TypeFault::ReadOnly { line: 1 })
/// ```
pub fn check(alloc: Global, script: Script) -> Result<TypedScript, TypeFault>
    requires few { IsWithin MAX_BYTES (script_of script) }
    requires small { AreSmall (script_of script) }
    ensures { IsCheckOf (script_of script) result }
{
    typed_script(alloc, script)
}

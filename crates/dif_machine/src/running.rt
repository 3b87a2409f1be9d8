//! Whole runs.

ghost use Rattle.dif_machine.specs.Vocabulary.{IsValid, object_of, variables};
ghost use Rattle.dif_machine.specs.Memories.{IsReady, RunsOver};
ghost use Rattle.dif_machine.specs.{Runs.RunEnds, Steps.Instructions.Stops};

use crate::built_in::argument;
use crate::fault::MachineFault;
use crate::machine::Machine;
use crate::memory::{Memory, Variable};
use crate::onward::Onward;
use crate::stepping::execute;
use crate::tables::Tables;
use d_values::{ClauseLocals, ThreadTable, Value};
use dif_validate::{Difo, Load, Reg, ValidDifo};
use firings::Firing;
use keyed_hash::HashKey;
use numbered::Word;
use std::alloc::{AllocError, Global};
use std::mem::replace;

// Runs a valid object to the register that it returns. What is left of its code is a slice: to find
// an instruction by an index takes longer than most instructions.
#[inline(never)]
fn run_to_return<M: Memory>(
    difo: &Difo,
    firing: &Firing,
    machine: &mut Machine,
    memory: &mut M,
) -> Result<Reg, MachineFault>
    requires valid { IsValid (object_of difo.now) }
    requires ready { IsReady M.is_over firing.now memory.old machine.old }
    ensures { Stops M.holds M.is_over M.beside (object_of difo.now) firing.now
        memory.old machine.old result memory.new machine.new }
{
    machine.restart();
    let code = difo.code.as_slice();
    let mut left = code;
    loop {
        let instr = &left[0];
        match execute(difo, firing, instr, machine, memory) {
            Ok(Onward::Next) => left = &left[1..],
            Ok(Onward::Goes(index)) => left = &code[index..],
            Ok(Onward::Ends(register)) => return Ok(register),
            Err(fault) => return Err(fault),
        }
    }
}

// Runs a valid object to its end.
#[inline(always)]
fn run_to_end<M: Memory>(
    difo: &Difo,
    firing: &Firing,
    machine: &mut Machine,
    memory: &mut M,
) -> Result<Word, MachineFault>
    requires valid { IsValid (object_of difo.now) }
    requires ready { IsReady M.is_over firing.now memory.old machine.old }
    ensures { RunsOver M.holds M.is_over M.beside (object_of difo.now) firing.now
        memory.old machine.old result memory.new machine.new }
{
    match run_to_return(difo, firing, machine, memory) {
        Ok(register) => Ok(machine.end(register)),
        Err(fault) => {
            machine.forget();
            Err(fault)
        }
    }
}

/// Runs an object from its first instruction to its end, over words. The variables keep the writes
/// so far, even after a fault.
///
/// ```text
/// // setx 0, r1; stls n0, r1; ret r1, if the number is 5
/// let word = run_on(&valid, &firing, &mut machine, &mut memory)?; // Word::Int(5)
/// ```
#[inline(always)]
pub fn run_on<M: Memory>(
    valid: &ValidDifo,
    firing: &Firing,
    machine: &mut Machine,
    memory: &mut M,
) -> Result<Word, MachineFault>
    requires { IsReady M.is_over firing.now memory.old machine.old }
    ensures { RunsOver M.holds M.is_over M.beside valid.now firing.now
        memory.old machine.old result memory.new machine.new }
{
    match valid.load() {
        Load::BuiltIn(v) => Ok(machine.built_in(firing, v)?),
        Load::Argument(n) => Ok(Word::Int(argument(firing, n))),
        Load::Local(x) => Ok(machine.load(memory, Variable::Local(x))?),
        Load::Scalar(x) => Ok(machine.load(memory, Variable::Scalar(x))?),
        Load::Element(x, v) => {
            let key = machine.built_in(firing, v)?;
            Ok(machine.load_at(memory, x, key)?)
        }
        Load::Nothing => run_to_end(valid.difo(), firing, machine, memory),
    }
}

/// Runs an object from its first instruction to its end, and returns what it returns. The variables
/// keep the writes so far, even after a fault.
///
/// ```text
/// // setx 0, r1; stls n0, r1; ret r1, if the number is 5
/// let value = run(alloc, &valid, &firing, &mut locals, &mut own)?; // Int(5)
/// locals.get(x) // Int(5), if x is the integer of slot 0
/// ```
pub fn run(
    alloc: Global,
    valid: &ValidDifo,
    firing: &Firing,
    locals: &mut ClauseLocals,
    own: &mut ThreadTable,
) -> Result<Value, MachineFault>
    ensures { RunEnds valid.now firing.now (variables locals.old own.old)
        result (variables locals.new own.new) }
{
    let mut tables = Tables {
        alloc,
        locals: replace(locals, ClauseLocals::new(alloc)),
        own: replace(own, ThreadTable::new(alloc)),
    };
    let result = run_on_tables(alloc, valid, firing, &mut tables);
    let Tables {
        locals: l,
        own: o,
        ..
    } = tables;
    *locals = l;
    *own = o;
    result
}

// Runs an object over tables of values, and returns what it returns.
#[tactic(auto, using(crate::proofs::Arriving::refused_first))]
fn run_on_tables(
    alloc: Global,
    valid: &ValidDifo,
    firing: &Firing,
    tables: &mut Tables,
) -> Result<Value, MachineFault>
    ensures { RunEnds valid.now firing.now (variables tables.old.locals tables.old.own)
        result (variables tables.new.locals tables.new.own) }
{
    let mut machine = Machine::new(alloc, HashKey::of_seed(&[]))?;
    let word = run_on(valid, firing, &mut machine, tables)?;
    Ok(machine.value(word)?)
}

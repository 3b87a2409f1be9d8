//! Variables and texts as words.

ghost use Rattle.std.specs.Prelude.{◌≡◌, IfOk};
ghost use Rattle.numbered.specs.Texts.{Keeps};
ghost use Rattle.dif_codegen.specs.Meaning as spec;
ghost use Rattle.dif_machine.specs.Machine.{IsWithin, Knows, word_result};
ghost use Rattle.replay_core.specs.{Evaluation.Returns, Steps.Evaluation.evaluation_of};
ghost use Rattle.replay_core.specs.WordStore.{words_seen};

use crate::evaluation::EvalFault;
use crate::lanes::store::Store;
use dif_codegen::TypedObject;
use dif_machine::{LaneMemory, Machine, MachineFault};
use firings::Firing;
use keyed_hash::HashKey;
use numbered::Word;
use std::alloc::{AllocError, Global};
use std::marker::Model;

/// The machine that runs objects and numbers texts, and the tables in which it finds variables.
#[derive(Drop)]
pub struct Words {
    machine: Machine,
    memory: LaneMemory,
    // The thread whose variables the machine finds.
    thread: i32,
}

impl Model for Words {
    ghost use Rattle.replay_core.specs.WordStore.{AreSound, WordsSeen};

    ghost Value = { WordsSeen };

    ghost view = { λ w. record {
      texts = w.machine.texts;
      known = w.machine.known;
      locals = w.memory.locals.items;
      table = w.memory.table;
      thread = w.memory.thread;
      at = w.thread;
    } };

    ghost invariant = { λ w. AreSound (record {
      texts = w.machine.texts;
      known = w.machine.known;
      locals = w.memory.locals.items;
      table = w.memory.table;
      thread = w.memory.thread;
      at = w.thread;
    }) };
}

impl Store for Words {
    ghost use Rattle.dif_machine.specs.Machine.{Knows};

    ghost seen = { words_seen };

    ghost knows = { λ w firing. Knows firing w.known };

    fn new(alloc: Global, hash_key: HashKey) -> Result<Words, AllocError> {
        let machine = Machine::new(alloc, hash_key)?;
        let memory = LaneMemory::new(alloc, hash_key);
        Ok(Words {
            machine,
            memory,
            thread: 0,
        })
    }

    #[inline(always)]
    fn enter(&mut self, firing: &Firing) -> Result<(), AllocError> {
        self.machine.turn();
        self.memory.enter(firing.thread);
        self.thread = firing.thread;
        Ok(())
    }
}

impl Words {
    /// A run of an object.
    #[inline(always)]
    pub(crate) fn run(&mut self, object: &TypedObject, firing: &Firing) -> Result<Word, EvalFault>
        requires { ∥ Knows firing.now self.old.known ∥₁ }
        ensures known { ∥ Knows firing.now self.new.known ∥₁ }
        ensures meets { Returns
            (spec.value_of firing.now object.now.object (words_seen self.old).present)
            (word_result self.new.texts result) (words_seen self.new).present }
        ensures within { IfOk result (IsWithin self.new.texts) }
        ensures kept { Keeps self.old.texts self.new.texts }
        ensures at { self.new.at ≡ self.old.at }
        ensures others { (words_seen self.new).others ≡ (words_seen self.old).others }
    {
        let run = object.run_on(firing, &mut self.machine, &mut self.memory);
        evaluated(run)
    }

    /// The machine, which has the texts of words.
    #[inline(always)]
    pub(crate) fn machine(&self) -> &Machine
        ensures { result.now.texts ≡ self.now.texts }
    {
        &self.machine
    }
}

// What a run returned, as evaluations return it.
#[inline(always)]
fn evaluated(run: Result<Word, MachineFault>) -> Result<Word, EvalFault>
    ensures { result ≡ evaluation_of run }
{
    match run {
        Ok(word) => Ok(word),
        Err(MachineFault::DivideByZero) => Err(EvalFault::DivideByZero),
        Err(MachineFault::Memory) => Err(EvalFault::Memory),
    }
}

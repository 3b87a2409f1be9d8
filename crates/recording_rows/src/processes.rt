//! Which process a thread belongs to, and which program it runs.

use crate::call::Change;
use crate::fault::Halt;
use crate::ids::Id;
use crate::row::Owner;
use crate::words::Word;
use std::alloc::{AllocError, Global};
use std::collections::BTreeMap;

// The program of a process that hasn't begun one.
fn unknown() -> Word<'static> {
    Word { bytes: b"unknown" }
}

/// The process of each thread and the program of each process, by their numbers.
#[derive(Drop)]
pub(crate) struct Processes<'a> {
    processes: BTreeMap<u64, Id>,
    programs: BTreeMap<u64, Word<'a>>,
    // The owner that was asked for last, unless something has changed since.
    last: Option<Owner<'a>>,
    // Whether a thread came that no call began. The conversion stops at a second one.
    has_stranger: bool,
}

impl<'a> Processes<'a> {
    /// None yet.
    pub(crate) fn new(alloc: Global) -> Processes<'a> {
        Processes {
            processes: BTreeMap::new(alloc),
            programs: BTreeMap::new(alloc),
            last: None,
            has_stranger: false,
        }
    }

    /// Whose rows a thread's are.
    pub(crate) fn owner(&mut self, thread: Id) -> Result<Owner<'a>, Halt> {
        match self.last {
            Some(owner) if owner.thread.number == thread.number => Ok(owner),
            _ => self.other_owner(thread),
        }
    }

    // Whose rows a thread's are, if it isn't the last one's thread.
    fn other_owner(&mut self, thread: Id) -> Result<Owner<'a>, Halt> {
        let process = match self.processes.get(&thread.number) {
            Some(process) => *process,
            None => self.stranger(thread)?,
        };
        let program = self.program(process);
        let owner = Owner {
            thread,
            process,
            program,
        };
        self.last = Some(owner);
        Ok(owner)
    }

    // Takes a thread that no call began as a process of its own, if it is the first such one.
    fn stranger(&mut self, thread: Id) -> Result<Id, Halt> {
        if self.has_stranger {
            return Err(Halt::Unknown);
        }
        self.has_stranger = true;
        self.processes.insert(thread.number, thread)?;
        Ok(thread)
    }

    // The process of a thread, which is its own if no call began it.
    fn process(&self, thread: Id) -> Id {
        match self.processes.get(&thread.number) {
            Some(process) => *process,
            None => thread,
        }
    }

    fn program(&self, process: Id) -> Word<'a> {
        match self.programs.get(&process.number) {
            Some(program) => *program,
            None => unknown(),
        }
    }

    /// Takes what a call's entry shows: a first program, a new process or thread.
    pub(crate) fn enter(&mut self, thread: Id, change: Change<'a>) -> Result<(), AllocError> {
        if matches!(change, Change::None) {
            return Ok(());
        }
        self.last = None;
        match change {
            Change::None => {}
            Change::Program(program) => {
                let process = self.process(thread);
                if !self.programs.contains_key(&process.number) {
                    self.programs.insert(process.number, program)?;
                }
            }
            Change::Thread(born) => {
                let process = self.process(thread);
                self.processes.insert(born.number, process)?;
            }
            Change::Process(born) => {
                let program = self.program(self.process(thread));
                self.processes.insert(born.number, born)?;
                self.programs.insert(born.number, program)?;
            }
        }
        Ok(())
    }

    /// Takes what a call's return shows, a program, and gives whose the rows are then.
    pub(crate) fn return_from(
        &mut self,
        owner: Owner<'a>,
        change: Change<'a>,
    ) -> Result<Owner<'a>, AllocError> {
        let Change::Program(program) = change else {
            return Ok(owner);
        };
        self.last = None;
        self.programs.insert(owner.process.number, program)?;
        Ok(Owner { program, ..owner })
    }
}

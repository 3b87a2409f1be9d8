//! Files that scripts are read from.

ghost use Rattle.std.specs.Prelude.{◌≡◌, ◌⊎◌, ℕ, List, Option, Some, None, IfErr, IfOk, IfSome};
ghost use Rattle.std.specs.Prelude.{IsFalse};
ghost use Rattle.consumer.specs.{Steps.Files.IsScriptIn};
ghost use Rattle.consumer.specs.Vocabulary.{Memory, Read, Refused};

use crate::consuming::ConsumeFault;
use d_lexer::MAX_BYTES;
use std::alloc::Global;
use std::fs::File;
use std::rt::Files;
use streams::{Failed, Feed, ReadFault, Reading, Watched, read_block};

/// Files by their names.
pub trait ScriptFiles {
    type File: Feed + Drop;

    // The bytes of the file of this name, if they are known.
    ghost bytes: { Self → List ℕ → Option (List ℕ) };

    /// Opens a file, to be read from its first byte.
    ///
    /// ```text
    /// files.open("script.d")?; // a file of which no byte was read
    /// ```
    fn open(&self, name: &str) -> Result<Self::File, Failed>
        ensures unread { IfOk result (λ file. IsFalse (Self.File.seen file).has_failed) }
        ensures bytes { IfOk result (λ file. IfSome (bytes self.now name.now) (λ all.
            (Self.File.seen file).remaining ≡ Some all)) };
}

/// The system's files. Contracts don't know what they hold.
#[derive(Drop)]
pub struct SystemFiles<'a, R> {
    pub rt: &'a R,
}

impl<'a, R: Files> ScriptFiles for SystemFiles<'a, R> {
    type File = Watched<R::File>;

    ghost bytes = { λ _ _. None };

    fn open(&self, name: &str) -> Result<Watched<R::File>, Failed> {
        match File::open(self.rt, name) {
            Ok(file) => Ok(Watched::new(file)),
            Err(_) => Err(Failed),
        }
    }
}

/// Reads the script in a file, or a beginning of it that is too long for a script, and closes the
/// file: in a process that was started without a standard input, an open file would take its place.
pub(crate) fn script_in<C: ScriptFiles>(
    alloc: Global,
    files: &C,
    name: &str,
) -> Result<Vec<u8>, ConsumeFault>
    ensures bytes { IfOk result (λ script. IfSome (C.bytes files.now name.now) (λ all.
        IsScriptIn all script.items)) }
    ensures fault { IfErr result (λ e. (e ≡ Read) ⊎ (e ≡ Refused Memory)) }
{
    match files.open(name) {
        Ok(mut file) => Ok(script_bytes(alloc, &mut file)?),
        Err(_) => Err(ConsumeFault::Read),
    }
}

// Reads a file to its end, or until a script of its bytes is too long.
fn script_bytes<F: Feed>(alloc: Global, file: &mut F) -> Result<Vec<u8>, ReadFault>
    requires { IsFalse (F.seen file.old).has_failed }
    ensures { IfOk result (λ script. IfSome (F.seen file.old).remaining (λ all.
        IsScriptIn all script.items)) }
{
    let mut reading = Reading::new(alloc)?;
    let mut script = Vec::new(alloc);
    let read = read_block(file, &mut reading, &mut script, MAX_BYTES + 1);
    drop(reading);
    read.map(|_| script)
}

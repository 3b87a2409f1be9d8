//! What a lane's firings made.

ghost use Rattle.std.specs.Prelude.{◌≡◌, ◌++◌, ◌∷◌, [], All, Contains, IfOk, OnOk, take};
ghost use Rattle.replay_core.specs.Vocabulary.{Effect, fault_line, functions_of};

use aggregations::{AggFn, AggTable};
use d_values::Text;
use itoa::Buffer;
use keyed_hash::HashKey;
use numbered::Word;
use std::alloc::{AllocError, Global};

/// What a lane's firings made.
#[derive(Drop)]
pub struct Piece {
    // The texts, each with its firing's number.
    pub(crate) events: Vec<(u64, Text)>,
    // The aggregations.
    pub(crate) table: AggTable,
    // The numbers of the firings.
    pub(crate) taken: Vec<u64>,
    // The number of the first that exited, and its status.
    pub(crate) exit: Option<(u64, u8)>,
    // The words of the key that was made last, whose memory is used again.
    pub(crate) key: Vec<Word>,
    ghost noted: { All (λ event. ∥ Contains taken.items event.0 ∥₁) events.items },
}

impl Piece {
    ghost use Rattle.replay_core.specs.{Seen.piece_seen, Steps.Seen.IsEmptyPiece};
    ghost use Rattle.replay_core.specs.Steps.Effects.{KeepsTable, NotesEffect};

    /// A piece of no firing, with aggregations of these functions.
    pub(crate) fn new(
        alloc: Global,
        hash_key: HashKey,
        functions: Vec<AggFn>,
    ) -> Result<Piece, AllocError>
        ensures functions { IfOk result (λ p. functions_of p.table ≡ functions.items) }
        ensures empty { IfOk result IsEmptyPiece }
    {
        let table = AggTable::with_hash_key(alloc, hash_key, functions)?;
        Ok(Piece {
            events: Vec::new(alloc),
            table,
            taken: Vec::new(alloc),
            exit: None,
            key: Vec::new(alloc),
        })
    }

    /// The texts, each with its firing's number.
    pub fn events(&self) -> &[(u64, Text)]
        ensures { result.now ≡ (piece_seen self.now).events }
    {
        &self.events
    }

    /// The aggregations.
    pub fn table(&self) -> &AggTable
        ensures { result.now ≡ (piece_seen self.now).table }
    {
        &self.table
    }

    /// The numbers of the firings, in the order in which they ran.
    pub fn taken(&self) -> &[u64]
        ensures { result.now ≡ (piece_seen self.now).taken }
    {
        &self.taken
    }

    /// The number of the first that exited, and its status.
    pub fn exit(&self) -> Option<(u64, u8)>
        ensures { result ≡ (piece_seen self.now).exit }
    {
        self.exit
    }

    /// Notes a text at the firing of this number, which was taken.
    pub(crate) fn note_text(&mut self, number: u64, text: Text) -> Result<(), AllocError>
        requires { Contains self.old.taken.items number }
        ensures kept { KeepsTable self.old self.new }
        ensures notes { OnOk result
            (NotesEffect number (Effect.Says text) (piece_seen self.old) (piece_seen self.new)) }
    {
        self.events.push((number, text))?;
        Ok(())
    }

    /// Notes a fault of the clause at this index, from 1, at the firing of this number, which was
    /// taken: its line takes the place of the texts after the first `before`. Contributions and an
    /// exit stay.
    pub(crate) fn note_fault(
        &mut self,
        number: u64,
        index: u64,
        before: usize,
    ) -> Result<(), AllocError>
        requires { Contains self.old.taken.items number }
        ensures kept { KeepsTable self.old self.new }
        ensures exit { self.new.exit ≡ self.old.exit }
        ensures texts { OnOk result (self.new.events.items
            ≡ take before self.old.events.items ++ (number, fault_line number index) ∷ []) }
    {
        self.events.truncate(before);
        let line = fault_line(*self.taken.allocator(), number, index)?;
        self.events.push((number, line))?;
        Ok(())
    }
}

// The line of a division by 0, at the firing of this number in the clause at this index of the
// script, from 1.
fn fault_line(alloc: Global, number: u64, index: u64) -> Result<Text, AllocError>
    ensures { IfOk result (λ t. t ≡ fault_line number index) }
{
    let mut buffer = Buffer::new();
    let mut line = Vec::from_slice(alloc, b"error: firing ")?;
    line.extend_from_slice(buffer.format(number).as_bytes())?;
    line.extend_from_slice(b" clause ")?;
    line.extend_from_slice(buffer.format(index).as_bytes())?;
    line.extend_from_slice(b": divide-by-zero\n")?;
    Ok(Text::from(line))
}

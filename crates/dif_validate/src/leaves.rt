//! What is known after an instruction.

ghost use Rattle.std.specs.Prelude.{◌≡◌};
ghost use Rattle.dif_validate.specs.Leaves as spec;

use crate::instruction::Instr;
use crate::register::Reg;
use crate::row::Change;
use crate::shape::{Shape, Tuple};
use d_values::Kind;

impl Shape {
    // What is known, with a register of this kind.
    fn with(mut self, r: Reg, kind: Option<Kind>) -> Shape
        ensures { result ≡ spec.with_register self r kind }
    {
        if r != Reg::R0 {
            self.registers[r.number()] = kind;
        }
        self
    }

    // What is known, with two values compared.
    fn with_comparison(mut self) -> Shape
        ensures { result ≡ spec.shape_compared self }
    {
        self.compared = true;
        self
    }

    // What is known, with this tuple.
    fn with_tuple(mut self, tuple: Option<Tuple>) -> Shape
        ensures { result ≡ spec.shape_with_tuple self tuple }
    {
        self.tuple = tuple;
        self
    }

    // What is known, with one more kind at the end of the tuple.
    fn with_one_more(mut self, kind: Kind) -> Shape
        ensures { result ≡ spec.shape_with_tuple self (spec.tuple_with self.tuple kind) }
    {
        let tuple = tuple_with(self.tuple.take(), kind);
        self.with_tuple(tuple)
    }

    /// What is known after an instruction.
    pub(crate) fn after(self, i: Instr) -> Shape
        ensures { result ≡ spec.leaves i self }
    {
        match i.row().change {
            Change::Puts(kind, d) => self.with(d, Some(kind)),
            Change::Copies(a, d) => {
                let kind = self.kind(a);
                self.with(d, kind)
            }
            Change::ComparesTwo => self.with_comparison(),
            Change::Pushes(kind) => self.with_one_more(kind),
            Change::Empties => self.with_tuple(Some(Tuple::new())),
            Change::StoresVariable | Change::NoChange => self,
        }
    }
}

// A tuple with one more kind at its end.
fn tuple_with(tuple: Option<Tuple>, kind: Kind) -> Option<Tuple>
    ensures { result ≡ spec.tuple_with tuple kind }
{
    let mut tuple = tuple?;
    if tuple.has_room() {
        tuple.push(kind);
        Some(tuple)
    } else {
        None
    }
}

//! Instruction by instruction: what it reads, what it names, which tuple it takes, what it changes
//! and where it leads. All else asks this table.

ghost use Rattle.std.specs.Prelude.{◌≡◌};
ghost use Rattle.dif_validate.specs.Rows as spec;

use crate::instruction::{Function, Instr};
use crate::register::Reg;
use d_values::Kind;

/// The registers that an instruction reads.
#[derive(Clone, Copy)]
pub enum Asks {
    /// None.
    Nothing,
    /// One, of whatever kind.
    Any(Reg),
    /// One of the kind.
    One(Kind, Reg),
    /// Two of the kind.
    Two(Kind, Reg, Reg),
}

/// What an instruction names by a number.
#[derive(Clone, Copy)]
pub enum Named {
    /// Nothing.
    NoName,
    /// An index in the table of numbers.
    NumberAt(usize),
    /// An index in the table of texts.
    TextAt(usize),
    /// A built-in variable.
    VariableAt(u8),
    /// A built-in array.
    ArrayAt(u8),
}

/// Which tuple an instruction takes.
#[derive(Clone, Copy)]
pub enum TupleNeed {
    /// Any.
    AnyTuple,
    /// One with room for another part.
    WithRoom,
    /// One that isn't empty.
    Filled,
    /// The tuple of a function.
    TupleOf(Function),
}

/// The one thing that an instruction changes.
#[derive(Clone, Copy)]
pub enum Change {
    /// A register, which gets a value of this kind.
    Puts(Kind, Reg),
    /// A register, the second one, which gets the first one's value.
    Copies(Reg, Reg),
    /// The comparison.
    ComparesTwo,
    /// The tuple, which gets one part more.
    Pushes(Kind),
    /// The tuple, which is emptied.
    Empties,
    /// A variable.
    StoresVariable,
    /// Nothing.
    NoChange,
}

/// Where an instruction leads.
#[derive(Clone, Copy)]
pub enum Flow {
    /// To the next instruction.
    Next,
    /// To an index.
    Jump(usize),
    /// To an index or to the next instruction, as the comparison says.
    Either(usize),
    /// Nowhere: the run ends with what the register holds.
    End(Reg),
}

/// An instruction's row of the table.
#[derive(Clone, Copy)]
pub struct InstructionRow {
    /// The registers that it reads.
    pub asks: Asks,
    /// What it names by a number.
    pub named: Named,
    /// The tuple that it takes.
    pub tuple: TupleNeed,
    /// What it changes.
    pub change: Change,
    /// Where it leads.
    pub flow: Flow,
}

// The row of an instruction that names nothing, takes any tuple and goes on to the next one.
fn plain(asks: Asks, change: Change) -> InstructionRow
    ensures { result ≡ spec.plain_row asks change }
{
    InstructionRow {
        asks,
        named: Named::NoName,
        tuple: TupleNeed::AnyTuple,
        change,
        flow: Flow::Next,
    }
}

// The row of an instruction that takes any tuple and goes on to the next one.
fn naming(named: Named, asks: Asks, change: Change) -> InstructionRow
    ensures { result ≡ spec.naming_row named asks change }
{
    InstructionRow {
        named,
        ..plain(asks, change)
    }
}

// The row of an instruction that names nothing and goes on to the next one.
fn taking(tuple: TupleNeed, asks: Asks, change: Change) -> InstructionRow
    ensures { result ≡ spec.tuple_row tuple asks change }
{
    InstructionRow {
        tuple,
        ..plain(asks, change)
    }
}

// The row of an instruction that names nothing, takes any tuple and changes nothing.
fn leading(asks: Asks, flow: Flow) -> InstructionRow
    ensures { result ≡ spec.leading_row asks flow }
{
    InstructionRow {
        flow,
        ..plain(asks, Change::NoChange)
    }
}

impl Instr {
    /// Its row.
    pub(crate) fn row(self) -> InstructionRow
        ensures { result ≡ spec.row_of self }
    {
        use Asks::{Any, Nothing, One, Two};
        use Change::{ComparesTwo, Copies, Empties, NoChange, Pushes, Puts, StoresVariable};
        use Kind::{Number, Text};
        match self {
            Instr::Alu(_, a, b, d) => plain(Two(Number, a, b), Puts(Number, d)),
            Instr::Not(a, d) => plain(One(Number, a), Puts(Number, d)),
            Instr::Mov(a, d) => plain(Any(a), Copies(a, d)),
            Instr::Cmp(a, b) => plain(Two(Number, a, b), ComparesTwo),
            Instr::Tst(a) => plain(One(Number, a), ComparesTwo),
            Instr::Scmp(a, b) => plain(Two(Text, a, b), ComparesTwo),
            Instr::Ba(to) => leading(Nothing, Flow::Jump(to)),
            Instr::Branch(_, to) => leading(Nothing, Flow::Either(to)),
            Instr::Setx(i, d) => naming(Named::NumberAt(i), Nothing, Puts(Number, d)),
            Instr::Sets(i, d) => naming(Named::TextAt(i), Nothing, Puts(Text, d)),
            Instr::Ldgs(v, d) => naming(Named::VariableAt(v), Nothing, Puts(built_in_kind(v), d)),
            Instr::Ldga(v, a, d) => naming(Named::ArrayAt(v), One(Number, a), Puts(Number, d)),
            Instr::Ldts(x, d) => plain(Nothing, Puts(x.kind, d)),
            Instr::Stts(x, a) => plain(One(x.kind, a), StoresVariable),
            Instr::Ldls(x, d) => plain(Nothing, Puts(x.kind, d)),
            Instr::Stls(x, a) => plain(One(x.kind, a), StoresVariable),
            Instr::Pushtr(a) => taking(TupleNeed::WithRoom, One(Text, a), Pushes(Text)),
            Instr::Pushtv(a) => taking(TupleNeed::WithRoom, One(Number, a), Pushes(Number)),
            Instr::Flushts => plain(Nothing, Empties),
            Instr::Ldtaa(x, d) => taking(TupleNeed::Filled, Nothing, Puts(x.kind, d)),
            Instr::Sttaa(x, a) => taking(TupleNeed::Filled, One(x.kind, a), StoresVariable),
            Instr::Call(f, d) => taking(TupleNeed::TupleOf(f), Nothing, Puts(f.kind(), d)),
            Instr::Ret(a) => leading(Any(a), Flow::End(a)),
            Instr::Nop => plain(Nothing, NoChange),
        }
    }
}

impl Function {
    // The kind of its value.
    fn kind(self) -> Kind
        ensures { result ≡ spec.kind_of_function self }
    {
        match self {
            Function::Strlen => Kind::Number,
            Function::Strjoin => Kind::Text,
        }
    }
}

// The kind of a built-in variable.
fn built_in_kind(v: u8) -> Kind
    ensures { result ≡ spec.kind_of_built_in v }
{
    if v < 4 { Kind::Number } else { Kind::Text }
}

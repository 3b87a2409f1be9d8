//! The one pass over the code.

ghost use Rattle.std.specs.Prelude.{◌≡◌, ◌<◌, ◌+◌, ℕ, Some, None, true, IfOk, length, nat_eq};
ghost use Rattle.std.specs.Prelude.{slice_index_or, if◌then◌else◌};
ghost use Rattle.dif_validate.specs.Flow.{shape_at_start, falls, further, join, jump_target};
ghost use Rattle.dif_validate.specs.{Objects.object_of, Returns.kind_at_return};
ghost use Rattle.dif_validate.specs.Steps.Pass.{Advances, Knows};
ghost use Rattle.dif_validate.specs.Validity.{is_closed};
ghost use Rattle.dif_validate.specs.Steps.Validity.{Finds};

use crate::fault::DifFault;
use crate::instruction::Instr;
use crate::object::Difo;
use crate::row::Flow;
use crate::shape::Shape;
use d_values::Kind;
use std::alloc::{AllocError, Global};

// What is known at each index before the first instruction.
fn start(alloc: Global, size: usize) -> Result<Vec<Option<Shape>>, AllocError>
    ensures long { IfOk result (λ ways. length ways.items ≡ size) }
    ensures known { IfOk result (λ ways. (pc : ℕ) → pc < size
        → slice_index_or ways.items pc None ≡ shape_at_start pc) }
{
    let mut ways = Vec::new(alloc);
    for pc in 0..size {
        if pc == 0 {
            ways.push(Some(Shape::start()))?;
        } else {
            ways.push(None)?;
        }
    }
    Ok(ways)
}

// Makes a shape known at an index.
fn meet_at(ways: &mut Vec<Option<Shape>>, to: usize, shape: Shape)
    requires { to < length ways.old.items }
    ensures long { length ways.new.items ≡ length ways.old.items }
    ensures met { (k : ℕ) → slice_index_or ways.new.items k None
        ≡ join (slice_index_or ways.old.items k None) (if nat_eq to k then Some shape else None) }
{
    let met = match ways[to].take() {
        Some(known) => known.meet(shape),
        None => shape,
    };
    ways[to] = Some(met);
}

// What a reached instruction makes known where it leads.
fn send(ways: &mut Vec<Option<Shape>>, i: Instr, pc: usize, shape: Shape)
    requires next { falls i ≡ true → pc + 1 < length ways.old.items }
    requires inside { (to : ℕ) → jump_target i ≡ Some to → to < length ways.old.items }
    ensures long { length ways.new.items ≡ length ways.old.items }
    ensures sent { (k : ℕ) → slice_index_or ways.new.items k None
        ≡ further (slice_index_or ways.old.items k None) (Some i) pc (Some shape) k }
{
    let after = shape.after(i);
    if i.falls() {
        meet_at(ways, pc + 1, after.copy());
    }
    if let Some(to) = i.target() {
        meet_at(ways, to, after);
    }
}

impl Instr {
    // The kind that it returns.
    fn kind_at_return(self, shape: &Shape) -> Option<Kind>
        ensures { result ≡ kind_at_return (Some self) (Some shape.now) }
    {
        match self.row().flow {
            Flow::End(a) => shape.kind(a),
            Flow::Next | Flow::Jump(_) | Flow::Either(_) => None,
        }
    }
}

// One instruction: what is returned so far, or its fault.
fn advance(
    difo: &Difo,
    pc: usize,
    kind: Option<Kind>,
    ways: &mut Vec<Option<Shape>>,
) -> Result<Option<Kind>, DifFault>
    requires closed { is_closed difo.now.code.items ≡ true }
    requires within { pc < length difo.now.code.items }
    requires known { Knows (object_of difo.now) pc ways.old.items kind }
    ensures { Advances (object_of difo.now) pc ways.new.items result }
{
    let instr = difo.code[pc];
    let way = ways[pc].take();
    if let Some(fault) = instr.fault(difo, pc, kind, &way) {
        return Err(fault);
    }
    let Some(shape) = way else { return Ok(kind) };
    let returned = instr.kind_at_return(&shape);
    send(ways, instr, pc, shape);
    Ok(kind.or(returned))
}

/// The kind that a valid object returns, or the first fault.
pub(crate) fn pass_over(alloc: Global, difo: &Difo) -> Result<Kind, DifFault>
    requires { is_closed difo.now.code.items ≡ true }
    ensures { Finds (object_of difo.now) result }
{
    let mut ways = start(alloc, difo.code.len())?;
    let mut kind = None;
    for pc in 0..difo.code.len() {
        kind = advance(difo, pc, kind, &mut ways)?;
    }
    match kind {
        Some(kind) => Ok(kind),
        None => unreachable!(),
    }
}

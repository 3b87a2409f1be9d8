//! Typed scripts.

ghost use Rattle.std.specs.Prelude.{◌≡◌, IfOk, map};
ghost use Rattle.d_types.specs.Scripts.{IsMeant};
ghost use Rattle.d_types.specs.Typed.{script_meant};

use crate::typed::{TypedAggregation, TypedClause};
use aggregations::AggFn;
use d_values::DType;
use std::alloc::{AllocError, Global};

/// A script that is well typed, with every register need at most 6, with at most 65,536
/// descriptions, as many statements, and as many declarations and places of variables together, and
/// with numbers below 2^64.
#[derive(Drop)]
pub struct TypedScript {
    clauses: Vec<TypedClause>,
    aggregations: Vec<TypedAggregation>,
    slots: Vec<Option<DType>>,
    ghost typed: { ∥ IsMeant (script_meant clauses.items aggregations.items slots.items) ∥₁ },
}

impl TypedScript {
    pub(crate) fn from_parts(
        clauses: Vec<TypedClause>,
        aggregations: Vec<TypedAggregation>,
        slots: Vec<Option<DType>>,
    ) -> TypedScript
        requires { ∥ IsMeant (script_meant clauses.items aggregations.items slots.items) ∥₁ }
        ensures clauses { result.clauses.items ≡ clauses.items }
        ensures aggregations { result.aggregations.items ≡ aggregations.items }
        ensures slots { result.slots.items ≡ slots.items }
    {
        TypedScript {
            clauses,
            aggregations,
            slots,
        }
    }

    /// Its clauses, in the order of the text.
    ///
    /// ```text
    /// script.clauses().len(); // 2, for a script of two clauses
    /// ```
    pub fn clauses(&self) -> &[TypedClause]
        ensures { result.now ≡ self.now.clauses.items }
    {
        &self.clauses
    }

    /// Its aggregations, in order of first appearance.
    ///
    /// ```text
    /// script.aggs().len(); // 1, for a script that has `@calls` alone
    /// ```
    pub fn aggs(&self) -> &[TypedAggregation]
        ensures { result.now ≡ self.now.aggregations.items }
    {
        &self.aggregations
    }

    /// The function of each aggregation, in order.
    ///
    /// ```text
    /// script.functions(alloc)?; // [AggFn::Count], for `@calls = count()`
    /// ```
    pub fn functions(&self, alloc: Global) -> Result<Vec<AggFn>, AllocError>
        ensures { IfOk result (λ v. v.items ≡ map (λ a. a.function) self.now.aggregations.items) }
    {
        self.aggregations.iter().map(|a| a.function).collect(alloc)
    }
}

//! Tables, merged into the first of them.

ghost use Rattle.std.specs.Prelude.{◌<◌, ◌∷◌, [], length, IfOk};
ghost use Rattle.replay_core.specs.Tables.{CanMerge, Refine};

use aggregations::AggTable;
use std::alloc::AllocError;

/// All tables as one. Each entry is moved once.
pub(crate) fn merge_all(tables: Vec<AggTable>) -> Result<AggTable, AllocError>
    requires some { 0 < length tables.items }
    requires can { CanMerge tables.items }
    ensures { IfOk result (λ table. Refine (table ∷ []) tables.items) }
{
    let mut others = tables.into_iter();
    let Some(mut all) = others.next() else {
        unreachable!()
    };
    for table in others {
        all.merge(table)?;
    }
    Ok(all)
}

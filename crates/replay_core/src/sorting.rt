//! Items by number.

ghost use Rattle.std.specs.Prelude.{◌≡◌, IfOk};
ghost use Rattle.replay_core.specs.Uniting.{InOrder, IsSorted, with_number};

use std::alloc::AllocError;

/// Sorts items by number. Those of one number stay in their order.
pub(crate) fn by_number<T: Drop>(mut items: Vec<(u64, T)>) -> Result<Vec<(u64, T)>, AllocError>
    ensures { IfOk result (λ v. IsSorted items.items v.items) }
{
    items.sort_by_key(|item: &(u64, T)| item.0)?;
    Ok(items)
}

/// The items of a number, among items that are sorted by number.
pub(crate) fn with_number<T>(sorted: &[(u64, T)], number: u64) -> &[(u64, T)]
    ensures { InOrder sorted.now → result.now ≡ with_number number sorted.now }
{
    let less = sorted.partition_point(|item| item.0 < number);
    let (_, rest) = sorted.split_at(less);
    let count = rest.partition_point(|item| item.0 <= number);
    let (those, _) = rest.split_at(count);
    those
}

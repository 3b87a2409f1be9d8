//! Indices of clauses in lists that rise.

ghost use Rattle.std.specs.Prelude.{◌≡◌, ◌≤◌, IfOk, length, take, drop};
ghost use Rattle.replay_core.specs.Steps.Indices.{front_below, merge, rest_from};

use std::alloc::{AllocError, Global};

/// Two lists that rise as one that rises.
pub(crate) fn merge(
    alloc: Global,
    indices: Vec<usize>,
    more: Vec<usize>,
) -> Result<Vec<usize>, AllocError>
    ensures { IfOk result (λ v. v.items ≡ merge indices.items more.items) }
{
    if more.is_empty() {
        return Ok(indices);
    }
    let mut all = Vec::new(alloc);
    let mut rest = more.as_slice();
    for index in indices {
        let (front, behind) = rest.split_at(count_below(rest, index));
        all.extend_from_slice(front)?;
        all.push(index)?;
        rest = behind;
    }
    all.extend_from_slice(rest)?;
    Ok(all)
}

// How many at the front are below the index.
fn count_below(indices: &[usize], index: usize) -> usize
    ensures within { result ≤ length indices.now }
    ensures front { take result indices.now ≡ front_below index indices.now }
    ensures behind { drop result indices.now ≡ rest_from index indices.now }
{
    let mut count = 0;
    while count < indices.len() && indices[count] < index {
        count += 1;
    }
    count
}

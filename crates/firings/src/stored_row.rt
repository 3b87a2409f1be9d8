//! A firing as it is stored.

ghost use Rattle.std.specs.Prelude.{◌≡◌, ◌<◌, Some, length, slice_get};

/// A firing: its owner and its probe by their indices, and where its own arguments, without zeros
/// at the end, begin among those of all, and how many they are.
#[derive(Clone, Copy)]
pub struct Row {
    pub number: u64,
    pub time: u64,
    pub owner: u32,
    pub probe: u32,
    pub first: u32,
    pub count: u32,
}

/// The row at an index.
#[inline(always)]
pub(crate) fn row_at(rows: &[Row], at: usize) -> Row
    requires { at < length rows.now }
    ensures { slice_get rows.now at ≡ Some result }
{
    rows[at]
}

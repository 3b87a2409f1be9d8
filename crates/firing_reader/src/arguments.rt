//! Arguments as they are stored: without the zeros at the end.

ghost use Rattle.std.specs.Prelude.{◌≡◌, ◌<◌, ◌≤◌, ◌+◌, ◌^◌, ◌++◌, ℕ, pos, get_or, length, take};
ghost use Rattle.firing_reader.specs.{Steps.Stored.Gains};
ghost use Rattle.firings.specs.{Arguments.ten, Units.part};

/// Keeps the arguments up to the last that isn't 0. It returns where they begin, and how many they
/// are.
pub(crate) fn keep_arguments(all: &mut Vec<i64>, args: &[i64]) -> Option<(u32, u32)>
    requires { length args.now ≤ 10 }
    ensures { Gains all.old.items all.new.items result (λ p. (p.0 + p.1 ≤ length all.new.items)
        × (ten (part all.new.items p.0 p.1) ≡ ten args.now)) }
{
    let first = u32::try_from(all.len()).ok()?;
    let count = leading_count(args);
    all.extend_from_slice(&args[..count]).ok()?;
    Some((first, count as u32))
}

/// Adds the arguments of other firings to all, and returns the index of the first of them.
pub(crate) fn add_arguments(all: &mut Vec<i64>, others: &[i64]) -> Option<u32>
    ensures { Gains all.old.items all.new.items result (λ index. (index ≡ length all.old.items)
        × (all.new.items ≡ all.old.items ++ others.now) × (length all.new.items < 2 ^ 32)) }
{
    let index = u32::try_from(all.len()).ok()?;
    all.extend_from_slice(others).ok()?;
    u32::try_from(all.len()).ok()?;
    Some(index)
}

// How many arguments come before the zeros at the end.
fn leading_count(args: &[i64]) -> usize
    ensures few { result ≤ length args.now }
    ensures zeros { (i : ℕ) → get_or (take result args.now) i (pos 0) ≡ get_or args.now i (pos 0) }
{
    match args {
        [] => 0,
        [before @ .., 0] => leading_count(before),
        _ => args.len(),
    }
}

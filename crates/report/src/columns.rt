//! Columns of a fixed width.

ghost use Rattle.std.specs.Prelude.{◌≡◌, ◌≤◌, ◌++◌, OnOk, replicate};
ghost use Rattle.std.specs.Str.{byte};

use std::alloc::AllocError;

/// The most spaces that are put at once.
pub const MAX_SPACES: usize = 50;

const BLANKS: [u8; MAX_SPACES] = [b' '; MAX_SPACES];

/// Puts this many spaces.
pub fn put_spaces(out: &mut Vec<u8>, count: usize) -> Result<(), AllocError>
    requires { count ≤ MAX_SPACES }
    ensures { OnOk result (out.new.items ≡ out.old.items ++ replicate count (byte " ")) }
{
    out.extend_from_slice(&BLANKS[..count])
}

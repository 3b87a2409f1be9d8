//! One firing.

ghost use Rattle.std.specs.Prelude.{◌≡◌, ◌≤◌, get_or, length, pos};
ghost use Rattle.firings.specs.{Arguments.ten};

use crate::text::Text;
use std::marker::Model;

/// One firing of a probe, as a row of a trace records it. Its texts and arguments are borrowed.
#[derive(Debug, Drop)]
pub struct Firing<'a> {
    /// Its place among all firings of the trace.
    pub number: u64,
    /// The processor.
    pub cpu: i32,
    /// The thread, `tid` in a script.
    pub thread: i32,
    /// The process.
    pub pid: i32,
    /// The name of the process.
    pub execname: Text<'a>,
    /// When it fired, `timestamp` in a script.
    pub time: u64,
    /// The probe's provider, `probeprov` in a script.
    pub provider: Text<'a>,
    /// The probe's module.
    pub probemod: Text<'a>,
    /// The probe's function.
    pub probefunc: Text<'a>,
    /// The probe's name, `probename` in a script.
    pub name: Text<'a>,
    /// `arg0` to `arg9`.
    pub args: Args<'a>,
}

/// The ten arguments of a firing. Those of a row are lent as they are stored, without the zeros at
/// the end: none is looked at until it is asked for. Contracts see all ten.
#[derive(Debug, Drop)]
pub struct Args<'a> {
    stored: &'a [i64],
}

impl<'a> Model for Args<'a> {
    ghost use Rattle.std.specs.Prelude.{◌≤◌, List, ℤ, length};
    ghost use Rattle.firings.specs.{Arguments.ten};

    ghost Value = { List ℤ };

    ghost view = { λ a. ten a.stored.now };

    ghost invariant = { λ a. length a.stored.now ≤ 10 };
}

impl<'a> Args<'a> {
    /// The first ten of these numbers, and zeros after them.
    ///
    /// ```text
    /// Args::of(&[7, 8]).nth(1); // 8
    /// Args::of(&[7, 8]).nth(2); // 0
    /// ```
    pub fn of(numbers: &'a [i64]) -> Args<'a>
        ensures { result ≡ ten numbers.now }
    {
        Args {
            stored: &numbers[..numbers.len().min(10)],
        }
    }

    /// All of these.
    ///
    /// ```text
    /// Args::of_all(&[7, 8, 0, 0, 0, 0, 0, 0, 0, 0]).nth(1); // 8
    /// ```
    pub fn of_all(numbers: &'a [i64; 10]) -> Args<'a>
        ensures { result ≡ numbers.now }
    {
        Args::of(numbers.as_slice())
    }

    /// The argument of this number, from 0; it is 0 past the last.
    ///
    /// ```text
    /// // of a row whose arguments are 7, 8 and zeros
    /// trace.firings().get(0).args.nth(1); // 8
    /// ```
    pub fn nth(&self, number: usize) -> i64
        ensures { result ≡ get_or self.now number (pos 0) }
    {
        match self.stored.get(number) {
            Some(argument) => *argument,
            None => 0,
        }
    }

    /// The arguments, but for zeros at the end.
    ///
    /// ```text
    /// Args::of(&[7, 8]).stored(); // [7, 8]
    /// ```
    pub fn stored(&self) -> &'a [i64]
        ensures few { length result.now ≤ 10 }
        ensures ten { ten result.now ≡ self.now }
    {
        self.stored
    }
}

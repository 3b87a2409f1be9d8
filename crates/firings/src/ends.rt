//! BEGIN and END.

ghost use Rattle.std.specs.Prelude.{◌≡◌, ◌-◌, Some, length, slice_get};
ghost use Rattle.std.specs.Option.{option_map_or};
ghost use Rattle.firings.specs.Texts.{text_of};
ghost use Rattle.firings.specs.Ends.{own_firing, begin_of, end_of};
ghost use Rattle.firings.specs.Firings.{time_of};

use crate::firing::{Args, Firing};
use crate::firings::Firings;
use crate::text::Text;
use crate::trace::Trace;

impl Trace {
    /// BEGIN, which comes before the rows: number 0, thread 0, and the time of the first row.
    ///
    /// ```text
    /// trace.begin().number; // 0
    /// ```
    pub fn begin(&self) -> Firing
        ensures { result ≡ begin_of self.now }
    {
        own(0, first_time(self.firings()), b"BEGIN")
    }

    /// END, which comes after the rows: the number after the last, thread 0, and the time of the
    /// last row.
    ///
    /// ```text
    /// // of rows with the numbers 1 and 40
    /// trace.end().number; // 41
    /// ```
    pub fn end(&self) -> Firing
        ensures { result ≡ end_of self.now }
    {
        let firings = self.firings();
        own(firings.last_number() + 1, last_time(firings), b"END")
    }
}

fn first_time(firings: &Firings) -> u64
    ensures { result ≡ option_map_or time_of (slice_get firings.now 0) 0 }
{
    if firings.len() == 0 {
        return 0;
    }
    firings.get(0).time
}

fn last_time(firings: &Firings) -> u64
    ensures { result
        ≡ option_map_or time_of (slice_get firings.now (length firings.now - 1)) 0 }
{
    if firings.len() == 0 {
        return 0;
    }
    firings.get(firings.len() - 1).time
}

// A firing of dreplay's own.
fn own(number: u64, time: u64, name: &[u8]) -> Firing
    requires { text_of name.now ≡ Some name.now }
    ensures { result ≡ own_firing number time name.now }
{
    Firing {
        number,
        cpu: 0,
        thread: 0,
        pid: 0,
        execname: Text::of(b"dtrace"),
        time,
        provider: Text::of(b"dtrace"),
        probemod: Text::of(b""),
        probefunc: Text::of(b""),
        name: Text::of(name),
        args: Args::of(&[]),
    }
}

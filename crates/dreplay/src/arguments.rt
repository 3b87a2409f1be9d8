//! The arguments after the program's name.

ghost use Rattle.std.specs.Prelude.{map};
ghost use Rattle.consumer.specs.Arguments.{AreRead};

use crate::help::HELP;
use consumer::{Request, UsageFault};
use std::alloc::Global;

/// Reads the arguments after the program's name. Without any, a bundle is run by 4 workers, in 16
/// groups and with compiled code. A request for help is an error too.
///
/// ```text
/// read_words(alloc, &["-s", "s.d", "-w", "2"])?; // the script's file `s.d`, and two workers
/// read_words(alloc, &["-w", "17"]); // Err(UsageFault::Usage(..))
/// ```
pub fn read_words<'a>(alloc: Global, arguments: &'a [&'a str]) -> Result<Request, UsageFault>
    ensures { AreRead (map (λ w. w.now) arguments.now) result }
{
    consumer::read_words(alloc, HELP, arguments)
}

//! What help says.

use consumer::Help;

/// The texts that `--help` shows.
pub const HELP: Help = Help {
    usage: "dreplay [OPTIONS]",
    about: "Replays a D script over a recorded trace of probe firings, \
and writes what the script shows",
    more: "\
Without -s, standard input is a bundle: a script, a line '---' and a trace.
The script is in D, the language of DTrace. The trace is CSV, a header and a row for each firing,
with the columns number, cpu, thread, pid, execname, time, provider, module, function, name, and
arg0 to arg9.

Examples:
  { cat s.d; echo ---; cat t.csv; } | dreplay
      runs the script s.d over the trace t.csv, as a bundle
  dreplay -s s.d < t.csv
      does the same, with the script apart from the trace

Exit status:
  0  the answer was written, or this help; a script that exits has its own status
  1  out of memory, or reading or writing failed
  2  the options are not understood
  3  the script is refused
  4  the trace is refused

dreplay-explain says what a refusal means, and what to do about it.",
};

/// What is said of a run without arguments whose standard input is a terminal.
pub const AT_A_TERMINAL: &str =
    "dreplay: it reads a bundle that is typed here, until Ctrl-D; --help says what that is";

//! What help says.

use consumer::Help;

/// The texts that `--help` shows.
pub const HELP: Help = Help {
    usage: "dreplay-data [OPTIONS]",
    about: "Replays a D script over a recorded trace of probe firings, \
and writes what the run made as JSON Lines",
    more: "\
Without -s, standard input is a bundle: a script, a line '---' and a trace.
The lines hold each text, each entry of an aggregation whole, and how the run ended. dreplay-show
makes tables, pictures and pages of them, and adds several answers up.

Examples:
  { cat s.d; echo ---; cat t.csv; } | dreplay-data
      runs the script s.d over the trace t.csv, as a bundle
  dreplay-data -s s.d < t.csv
      does the same, with the script apart from the trace

Exit status and refusals are those of dreplay.",
};

/// What is said of a run without arguments whose standard input is a terminal.
pub const AT_A_TERMINAL: &str =
    "dreplay-data: it reads a bundle that is typed here, until Ctrl-D; --help says what that is";

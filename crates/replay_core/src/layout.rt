//! What writes the whole of a run.

ghost use Rattle.std.specs.Prelude.{◌≡◌, List, IfOk};

use crate::collector::whole::Whole;
use d_types::TypedScript;
use std::alloc::{AllocError, Global};
use std::thread::Threads;

/// Writes what a run made, for people or for programs.
pub trait Layout {
    ghost use Rattle.d_types.specs.{Typed.functions_in, TypedScripts.typed_script_of};
    ghost use Rattle.std.specs.Thread.{IsSync};
    ghost use Rattle.replay_core.specs.Vocabulary.{Firing, functions_of};
    ghost use Rattle.replay_core.specs.{Groups.Grouping, Layouts.LayoutMeant};
    ghost use Rattle.replay_core.specs.Pieces.{IsWholeOf, RunsEachOnce};
    ghost use Rattle.replay_core.specs.{Meaning.blank_threads, Meaning.history, Seen.whole_seen};

    /// The bytes that show a run.
    ghost shows: { LayoutMeant };

    /// The bytes that show the whole of a run of the script. The caller owes that the aggregations
    /// are the script's. Threads may share the work.
    fn render<R: Threads + Sync>(
        &self,
        rt: &R,
        alloc: Global,
        script: &TypedScript,
        whole: &Whole,
    ) -> Result<Vec<u8>, AllocError>
        requires sync { IsSync R.row }
        requires functions { functions_of whole.now.table
            ≡ functions_in (typed_script_of script.now) }
        ensures { let m = typed_script_of script.now in
            (firings : List Firing) (grouping : Grouping)
            → IsWholeOf m firings grouping (whole_seen whole.now)
            → RunsEachOnce firings (whole_seen whole.now)
            → IfOk result (λ bytes. shows m (history m firings blank_threads) bytes.items) };
}

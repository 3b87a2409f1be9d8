//! Laws of what runs mean: each holds of the definitions, and its function computes nothing.

ghost use Rattle.std.specs.Prelude.{◌≡◌, ◌↔◌, ◌∷◌, ◌++◌, ℕ, IsTrue, List, None, Some, false, map};
ghost use Rattle.replay_core.specs.Vocabulary.{AreOf, Description, Firing, Groups};
ghost use Rattle.replay_core.specs.Vocabulary.{IsStrictlyIncreasing, IsTrace, ScriptMeant};
ghost use Rattle.replay_core.specs.Vocabulary.{begin_of, grouping, has_exit, number_of};
ghost use Rattle.replay_core.specs.Vocabulary.{run_threads, with_ends};
ghost use Rattle.firings.specs.declared.unit.Probe.{Probe};
ghost use Rattle.replay_core.specs.declared.workers.round.Round.{Round};
ghost use Rattle.replay_core.specs.declared.workers.span.Span.TheVariants as span;
ghost use Rattle.replay_core.specs.AtBoard.{Gives, IsRound};
ghost use Rattle.replay_core.specs.Exit.{IsLeastExit, exit_status, exits_of, first_exit_number};
ghost use Rattle.replay_core.specs.Exit.{firings_over, history_over};
ghost use Rattle.replay_core.specs.Groups.{AreGrouped, Grouping};
ghost use Rattle.replay_core.specs.Meaning.{Threads, exit_of, history, blank_threads};
ghost use Rattle.replay_core.specs.Patterns.{Selects, selects};
ghost use Rattle.replay_core.specs.Running.{threads_over};
ghost use Rattle.replay_core.specs.Uniting.{GroupsMakeUp, IsSorted, group_history};
ghost use Rattle.replay_core.specs.Uniting.{results_in_group};

/// A description selects the probes that its patterns match.
pub fn selected_is_matched()
    ensures { (d : Description) (p : Probe) → IsTrue (selects d p) ↔ Selects d p }
{}

/// A run over firings and then others is that over the first, and after it that over the others,
/// which finds the variables as the first left them.
pub fn history_of_parts()
    ensures { (m : ScriptMeant) (fs gs : List Firing) (threads : Threads)
        → history m (fs ++ gs) threads
        ≡ history m fs threads ++ history m gs (threads_over m fs threads) }
{}

/// If numbers rise, the first firing that exits is the one with the least number.
pub fn first_exit_is_least()
    ensures { (m : ScriptMeant) (fs : List Firing) (threads : Threads) (exit : ℕ × ℕ)
        → IsStrictlyIncreasing (map number_of fs)
        → (exit_of (history m fs threads) ≡ Some exit)
        ↔ IsLeastExit (exits_of (history m fs threads)) exit }
{}

/// A firing's thread belongs to one group: what a group's firings make alone is what the run makes
/// of them.
pub fn group_runs_as_in_the_run()
    ensures { (m : ScriptMeant) (grouping : Grouping) (fs : List Firing) (g : ℕ)
        → group_history m grouping fs g ≡ results_in_group grouping g (history m fs blank_threads) }
{}

/// What the groups of a grouping make is what the run makes.
pub fn groups_unite()
    ensures { (m : ScriptMeant) (grouping : Grouping) (fs : List Firing) → AreGrouped grouping fs
        → IsStrictlyIncreasing (map number_of fs) → GroupsMakeUp m grouping fs }
{}

/// Items are sorted in one way only.
pub fn sorted_in_one_way()
    ensures { (items xs ys : List (ℕ × List ℕ)) → IsSorted items xs → IsSorted items ys → xs ≡ ys }
{}

/// Without an exit a run is over the whole trace: BEGIN, all rows, and END. If no statement of the
/// script exits, the status is 0, too.
pub fn without_exit()
    ensures script { (m : ScriptMeant) (trace : List Firing) → has_exit m ≡ false
        → (firings_over m trace ≡ with_ends trace trace)
        × (exit_status (history_over m trace) ≡ 0) }
    ensures rows { (m : ScriptMeant) (trace : List Firing) → IsTrace trace
        → exit_of (history m (begin_of trace ∷ trace) blank_threads) ≡ None
        → firings_over m trace ≡ with_ends trace trace }
{}

/// At the close of a round in which workers watch for exits, the least number is that of the run's
/// first firing that exits, and 2^64 - 1 if none does, whatever each worker was shown.
pub fn least_is_the_first_exit()
    ensures { (m : ScriptMeant) (groups : Groups) (trace : List Firing) (round : Round)
        → IsTrace trace → AreOf groups (run_threads trace)
        → IsRound (Gives span.UntilExit (λ n. n ≡ m) groups trace) (grouping groups).count round
        → round.least ≡ first_exit_number m trace }
{}

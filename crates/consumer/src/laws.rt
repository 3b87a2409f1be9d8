//! Laws of what bundles, scripts and answers mean: each holds of the definitions, and its function
//! computes nothing.

ghost use Rattle.std.specs.Prelude.{◌≡◌, ◌∷◌, ◌⊎◌, [], ℕ, List, Option, Result, Ok, Err};
ghost use Rattle.std.specs.Prelude.{IsSome, Some};
ghost use Rattle.clap.specs.Words.{fault_of, matches_of};
ghost use Rattle.firings.specs.Ends.{with_ends};
ghost use Rattle.replay_core.specs.{Groups.AreGrouped, Layouts.IsDeterministic};
ghost use Rattle.consumer.specs.{Bundle.Divides, Refusals.plain_refusal};
ghost use Rattle.consumer.specs.Vocabulary.{DisplayHelp, ErrorKind, Firing, Grouping, Plan};
ghost use Rattle.consumer.specs.Vocabulary.{Group, GroupFault, Memory, Refusal, Replayed, Request};
ghost use Rattle.consumer.specs.Answer.{IsAnswer, IsSameAnswer, Output, without_line};
ghost use Rattle.consumer.specs.Program.{Ends, IsBroken, IsRequest, StreamsSeen, WriteAlike};
ghost use Rattle.consumer.specs.Plans.{IsDefault, IsGroupedBy, IsMisgrouped};
ghost use Rattle.consumer.specs.Replaying.{IsOfPlan, IsReplay, output_of, ran_in};
ghost use Rattle.consumer.specs.Arguments.{Asks, AsksHelp, IsPlanBy, Mistakes, AskForRun, SetPlan};
ghost use Rattle.consumer.specs.Arguments.{file_in, program};

use replay_core::Layout;
use std::env::Args;
use std::io;

/// A bundle is divided in one way.
pub fn one_division()
    ensures { (bundle script trace script' trace' : List ℕ) → Divides bundle script trace
        → Divides bundle script' trace' → (script ≡ script') × (trace ≡ trace') }
{}

/// Each bundle can be divided.
pub fn has_division()
    ensures { (bundle : List ℕ) → (script trace : List ℕ) × Divides bundle script trace }
{}

/// If a layout shows each run by one text, a script and a trace have one answer at most: bytes
/// and a status, or a refusal. The line of a refusal belongs to the answer if there is a tree.
pub fn one_answer<L: Layout>()
    ensures { IsDeterministic L.shows
        → (script trace : List ℕ) (a b : Result Output Refusal)
        → IsAnswer L.shows script trace a → IsAnswer L.shows script trace b → IsSameAnswer a b }
{}

/// If a layout shows each run, each script and trace have an answer.
pub fn has_answer<L: Layout>()
    ensures { IsDeterministic L.shows
        → (script trace : List ℕ)
        → (a : Result Output Refusal) × IsAnswer L.shows script trace a }
{}

/// What is replayed is the answer, and so is the first refusal, if the plan and memory have no
/// part in it.
pub fn replay_answers<L: Layout>()
    ensures shown { (script trace : List ℕ) (plan : Plan) (r : Replayed)
        → IsReplay L.shows script trace plan (Ok r)
        → IsAnswer L.shows script trace (Ok (output_of r)) }
    ensures refused { (script trace : List ℕ) (plan : Plan) (e : Refusal)
        → IsReplay L.shows script trace plan (Err e)
        → IsAnswer L.shows script trace (Err e) ⊎ IsOfPlan e }
{}

/// Memory that ran out is reported as that alone, and never as a fault of the script or the trace.
pub fn refusals_are_plain<L: Layout>()
    ensures { (script trace : List ℕ) (plan : Plan) (e : Refusal)
        → IsReplay L.shows script trace plan (Err e) → plain_refusal e ≡ e }
{}

/// Under each plan every firing of a run has a group, BEGIN and END too.
pub fn plans_have_groups()
    ensures { (plan : Plan) (trace : List Firing) (grouping : Grouping)
        → IsGroupedBy plan.groups trace grouping → AreGrouped grouping (with_ends trace trace) }
{}

/// Two replays of a script and a trace give the same, under whatever plans: the same bytes and
/// status, or the same refusal, unless the plan or memory has a part in one.
pub fn replays_agree<L: Layout>()
    ensures shown { IsDeterministic L.shows
        → (script trace : List ℕ) (p q : Plan) (a b : Replayed)
        → IsReplay L.shows script trace p (Ok a) → IsReplay L.shows script trace q (Ok b)
        → (a.bytes.items ≡ b.bytes.items) × (a.status ≡ b.status) }
    ensures refused { IsDeterministic L.shows
        → (script trace : List ℕ) (p q : Plan) (e f : Refusal)
        → IsReplay L.shows script trace p (Err e) → IsReplay L.shows script trace q (Err f)
        → (without_line e ≡ without_line f) ⊎ IsOfPlan e ⊎ IsOfPlan f }
    ensures apart { IsDeterministic L.shows
        → (script trace : List ℕ) (p q : Plan) (a : Replayed) (e : Refusal)
        → IsReplay L.shows script trace p (Ok a) → IsReplay L.shows script trace q (Err e)
        → IsOfPlan e }
{}

/// Two replays under one plan run each group's firings alike. If one answers, memory alone makes
/// the other refuse; and lists that group no threads are refused for one reason.
pub fn one_plan_runs_alike<L: Layout>()
    ensures ran { (script trace : List ℕ) (plan : Plan) (a b : Replayed)
        → IsReplay L.shows script trace plan (Ok a) → IsReplay L.shows script trace plan (Ok b)
        → ran_in a ≡ ran_in b }
    ensures refused { IsDeterministic L.shows
        → (script trace : List ℕ) (plan : Plan) (a : Replayed) (e : Refusal)
        → IsReplay L.shows script trace plan (Ok a) → IsReplay L.shows script trace plan (Err e)
        → e ≡ Memory }
    ensures reason { (script trace : List ℕ) (plan : Plan) (e f : GroupFault)
        → IsReplay L.shows script trace plan (Err (Group e))
        → IsReplay L.shows script trace plan (Err (Group f)) → e ≡ f }
{}

/// Two runs of a program whose arguments ask for a run, over the same known input and files, end
/// with the same status and write the same bytes, unless memory ran out or a stream failed in one.
pub fn programs_agree<L: Layout>(given: &io::Result<Args>)
    ensures { IsDeterministic L.shows
        → (holds : List ℕ → Option (List ℕ)) (input : List ℕ) (request : Request)
        (old new old' new' : StreamsSeen) (status status' : ℕ) → IsRequest given.now request
        → ((name : List ℕ) → IsSome (holds name)) → old.input.remaining ≡ Some input
        → old'.input.remaining ≡ Some input → Ends L.shows given.now holds old new status
        → Ends L.shows given.now holds old' new' status'
        → IsBroken old new status ⊎ IsBroken old' new' status'
        ⊎ ((status ≡ status') × WriteAlike old.output new.output old'.output new'.output) }
{
    let _ = given;
}

/// A plan groups a trace's threads in one way at most, and has no fault then.
pub fn one_grouping()
    ensures way { (plan : Plan) (trace : List Firing) (g h : Grouping)
        → IsGroupedBy plan.groups trace g → IsGroupedBy plan.groups trace h → g ≡ h }
    ensures faultless { (plan : Plan) (trace : List Firing) (g : Grouping) (e : GroupFault)
        → IsGroupedBy plan.groups trace g → IsMisgrouped plan.groups trace e → ⊥ }
{}

/// Without arguments a program runs a bundle, and with `-s FILE` the script of that file.
pub fn runs_accepted()
    ensures { (arguments : List (List ℕ)) (file : Option (List ℕ)) → AskForRun arguments file
        → (fault_of program arguments ≡ []) × (file_in (matches_of program arguments) ≡ file) }
{}

/// Without arguments, and with `-s FILE`, the plan has 4 workers, 16 groups and compiled code.
pub fn plans_by_default()
    ensures { (arguments : List (List ℕ)) (file : Option (List ℕ)) (request : Request)
        → AskForRun arguments file
        → Asks arguments request → IsDefault request.plan }
{}

/// `-w W`, `-g G` and `-e E`, each alone, set the workers, the groups and the engine to this value,
/// and leave the others as they are by default.
pub fn plans_by_arguments()
    ensures { (arguments : List (List ℕ)) (workers groups engine : List ℕ) (request : Request)
        → SetPlan arguments workers groups engine → Asks arguments request
        → IsPlanBy workers groups engine request.plan }
{}

/// `-h` and `--help` ask for help.
pub fn help_is_found()
    ensures { (arguments : List (List ℕ)) → AsksHelp arguments
        → fault_of program arguments ≡ DisplayHelp ∷ [] }
{}

/// `-s` without a file is a mistake, and so is an argument that isn't an option.
pub fn mistakes_are_found()
    ensures { (arguments : List (List ℕ)) (kind : ErrorKind) → Mistakes arguments kind
        → fault_of program arguments ≡ kind ∷ [] }
{}

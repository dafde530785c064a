ghost use Rattle.std.specs.Prelude.{◌≡◌, ℕ, List, Some, Option};
ghost use Rattle.vw_io.specs.Outside.{Files, Rose, Outside};
ghost use Rattle.script_files.specs.Closed.{Closed};
ghost use Rattle.commands.specs.Verdicts.{Verdict};
ghost use Rattle.requests.specs.declared.orders.Request.{Request};
ghost use Rattle.voxdag_top.specs.Numbers.{Status, status_number};
ghost use Rattle.voxdag_top.specs.Statuses.{StatusMeans, StatusSays};
ghost use Rattle.voxdag_top.specs.Promises.{Promises};
ghost use Rattle.voxdag_top.specs.Verdicts.{JudgesWords, MayCome, ReadsNoJournal};
ghost use Rattle.requests.specs.Words.{request_of};

use vox_read::files_have_a_reading;

/// A law: what words of the grammar ask of told files has a verdict, where no journal is read.
pub fn words_have_a_verdict()
    ensures { (a : Request) (files : Files) → ReadsNoJournal a
        → (v : Verdict) × JudgesWords (Some a) files v }
{
    files_have_a_reading();
}

/// A law: no words of the grammar can be without a verdict, also where a journal is read.
pub fn no_words_lack_a_verdict()
    ensures { (a : Request) (files : Files)
        → ((v : Verdict) → JudgesWords (Some a) files v → ⊥) → ⊥ }
{
    files_have_a_reading();
}

/// A law: it has one verdict alone.
pub fn verdicts_are_one()
    ensures { (a : Option Request) (files : Files) (v w : Verdict) → JudgesWords a files v
        → JudgesWords a files w → v ≡ w }
{}

/// A law: what a number says is what the status of this number means, and nothing else.
pub fn statuses_are_told()
    ensures { (n : ℕ) (a : Option Request) (left : Option Closed) (old new : Outside)
        → StatusSays n a left old new → (s : Status) → n ≡ status_number s
        → StatusMeans s a left old new }
{}

/// A law: over a shelf whose count of faults doesn't rise, it is the status of the verdict that
/// comes, or 7 or 8 in its place, or 13.
#[tactic(auto, using(crate::proofs::ComingLaws::calm_comes))]
pub fn calm_shelves_give_the_verdict()
    ensures { (words : List (List ℕ)) (left : Option Closed) (old new : Outside) (n : ℕ)
        → Promises words left old new n → (files : Files) (v : Verdict)
        → old.shelf.files ≡ Some files → (Rose old.shelf.faults new.shelf.faults → ⊥)
        → JudgesWords (request_of words) files v → MayCome (request_of words) v n }
{}

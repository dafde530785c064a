ghost use Rattle.conformance.specs.Statements.{AnswersGoOn, RunsBegin, RunsGoOnByLines, RunsGoOnByScripts, RunsAgree, RunsHoldLast, NoneIsPushed, AcceptedChangesAreSteps, PushedVersionsAreSteps, OtherLinesAreSteps, ForgettingsAreSteps, RestingAnswersAreSteps, HeldVersionsAreReadable, MarkedVersionsAreForgotten, UndosGoToPast, RedosGoToFuture, HeldTargetsAreReadable, PassesGoOn, PassesAgree, OwnRecordsAreAll, OwnMarksAreAll, AllRecordsAreOwn, AllMarksAreOwn, RecordsAreShownOnce, NoOthersAreShown, NoneIsShownAtZero, NeverFullWhereTooFew};

/// An answer that fits a history fits every one that goes on from it.
pub fn answers_go_on()
    ensures { AnswersGoOn }
{}

/// A run of scripts one after another goes on line by line and script by script, and what it ends
/// with is one legal history that agrees with the scripts and transcripts.
pub fn runs_go_on()
    ensures begin { RunsBegin }
    ensures line { RunsGoOnByLines }
    ensures script { RunsGoOnByScripts }
    ensures end { RunsAgree }
    ensures last { RunsHoldLast }
    ensures all { NoneIsPushed }
{}

/// Each kind of answer is a step of the run: an accepted change, a forgetting, and whatever is
/// answered without a change.
pub fn each_answer_is_a_step()
    ensures done { AcceptedChangesAreSteps }
    ensures pushed { PushedVersionsAreSteps }
    ensures others { OtherLinesAreSteps }
    ensures forgot { ForgettingsAreSteps }
    ensures rests { RestingAnswersAreSteps }
    ensures readable { HeldVersionsAreReadable }
    ensures forgotten { MarkedVersionsAreForgotten }
    ensures undo { UndosGoToPast }
    ensures redo { RedosGoToFuture }
    ensures full_log { HeldTargetsAreReadable }
{}

/// Sessions beside each other: each one's lines go on to fit what it has seen; at the end they
/// agree with the whole history; and what all show is what each one shows.
pub fn sessions_agree_beside_others()
    ensures line { PassesGoOn }
    ensures agrees { PassesAgree }
    ensures records { OwnRecordsAreAll }
    ensures marks { OwnMarksAreAll }
    ensures own_records { AllRecordsAreOwn }
    ensures own_marks { AllMarksAreOwn }
{}

/// The history that transcripts show has just their accepted changes as its records, each once.
pub fn shown_records_are_accepted_once()
    ensures record_at { RecordsAreShownOnce }
    ensures past { NoOthersAreShown }
    ensures zero { NoneIsShownAtZero }
{}

/// Changes are refused only where enough contents were possible.
pub fn full_only_where_possible()
    ensures { NeverFullWhereTooFew }
{}

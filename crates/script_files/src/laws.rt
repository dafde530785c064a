ghost use Rattle.script_files.specs.RunsAudited.{RunsAreAnsweredYes};

/// A law: an audit of what a run left, with the run's buckets, is never answered no.
pub fn runs_are_answered_yes()
    ensures { RunsAreAnsweredYes }
{}

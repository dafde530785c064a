ghost use Rattle.conformance.specs.sessions.Statements.{SessionsAreARun, SeenWorldsStay};
ghost use Rattle.conformance.specs.sessions.Statements.{SessionsBegin, MarksAreEarlier};
ghost use Rattle.conformance.specs.sessions.Statements.{SessionsGoOn, SessionsEnd};
ghost use Rattle.conformance.specs.sessions.Statements.{AcceptedActsTakeLines, MetBucketsTakeLines};
ghost use Rattle.conformance.specs.sessions.Statements.{StaleTriesTakeLines, RefusedActsTakeLines};
ghost use Rattle.conformance.specs.sessions.Statements.{ForgottenVersionsTakeLines, RestingLinesTakeLines};
ghost use Rattle.conformance.specs.sessions.Statements.{FoundVersionsAreReadable};
ghost use Rattle.conformance.specs.sessions.Statements.{SeenMarksForget, FoundTargetsAreReadable};

/// What sessions tell and what their closed world tells is together what a run of their scripts
/// gives.
pub fn sessions_are_a_run()
    ensures run { SessionsAreARun }
    ensures worlds { SeenWorldsStay }
{}

/// A session's run goes on line by line.
pub fn sessions_go_on()
    ensures begin { SessionsBegin }
    ensures earlier { MarksAreEarlier }
    ensures line { SessionsGoOn }
    ensures end { SessionsEnd }
{}

/// What each call of a session makes of the line that it answers.
pub fn calls_take_lines()
    ensures accepted { AcceptedActsTakeLines }
    ensures full { MetBucketsTakeLines }
    ensures stale { StaleTriesTakeLines }
    ensures refused { RefusedActsTakeLines }
    ensures forgot { ForgottenVersionsTakeLines }
    ensures rests { RestingLinesTakeLines }
    ensures readable { FoundVersionsAreReadable }
    ensures forgotten { SeenMarksForget }
    ensures ways { FoundTargetsAreReadable }
{}

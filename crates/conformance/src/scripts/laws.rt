ghost use Rattle.conformance.specs.scripts.Statements.{RebuiltEditsTakeLines, UndosTakeLines};
ghost use Rattle.conformance.specs.scripts.Statements.{LateEditsTakeLines};
ghost use Rattle.conformance.specs.scripts.Statements.{PushedVersionsTakeLines, OtherLinesTakeLines};
ghost use Rattle.conformance.specs.scripts.Statements.{ForgettingsTakeLines, FullBucketsTakeLines};
ghost use Rattle.conformance.specs.scripts.Statements.{RestingAnswersTakeLines, MomentsAreInHistory};
ghost use Rattle.conformance.specs.scripts.Statements.{PlainTargetsAreWanted, PlainFailuresMeetFull};

/// What each arm of a responder has to show to go on with a line, by what it did.
pub fn arms_take_lines()
    ensures rebuilt { RebuiltEditsTakeLines }
    ensures undone { UndosTakeLines }
    ensures pushed { PushedVersionsTakeLines }
    ensures others { OtherLinesTakeLines }
    ensures forgot { ForgettingsTakeLines }
    ensures full { FullBucketsTakeLines }
    ensures late { LateEditsTakeLines }
    ensures rests { RestingAnswersTakeLines }
    ensures before { MomentsAreInHistory }
{}

/// What a store made and met for an edit without a tint, which is made at once, is what it wants.
pub fn plain_edits_want_their_parts()
    ensures wanted { PlainTargetsAreWanted }
    ensures full { PlainFailuresMeetFull }
{}

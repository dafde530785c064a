ghost use Rattle.retain.specs.Statements.{AllHeldLeavesMarks, AllMarksAreOne, AllMarksLieWithin, AllMarksKeepLast, OneMoreRecord, OneMoreByHand};

/// A law: where all versions are held, the marks are those made by hand.
pub fn all_held_leaves_marks_by_hand()
    ensures { AllHeldLeavesMarks }
{}

/// A law: records and marks by hand leave one list of all marks at most.
pub fn all_marks_are_one_list()
    ensures { AllMarksAreOne }
{}

/// A law: each mark was made behind its version and within the history, where those by hand were.
pub fn all_marks_lie_within()
    ensures { AllMarksLieWithin }
{}

/// A law: a history with these marks holds its last versions alone, where each mark by hand was
/// made before its version fell out.
pub fn all_marks_keep_the_last()
    ensures { AllMarksKeepLast }
{}

/// A law: one more record brings the mark of the version that it pushes out, unless one by hand
/// names that.
pub fn one_more_record_pushes_one_out()
    ensures { OneMoreRecord }
{}

/// A law: one more mark by hand is one more mark, where its version hasn't fallen out.
pub fn one_more_by_hand_is_one_more()
    ensures { OneMoreByHand }
{}

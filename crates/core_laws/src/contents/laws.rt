ghost use Rattle.core_laws.specs.contents.Statements.{AlignedByMultiples, AlignedHavePlaces};
ghost use Rattle.core_laws.specs.contents.Statements.{AlignedLieInWorld, MarksAddOne};
ghost use Rattle.core_laws.specs.contents.Statements.{MarksAreInOrder, MarksComeByVersion};
ghost use Rattle.core_laws.specs.contents.Statements.{MarksDateTheNewest};

/// A block is aligned just where its corner lies at multiples of its side in the world.
pub fn aligned_blocks_have_places()
    ensures aligned { AlignedByMultiples }
    ensures place { AlignedHavePlaces }
    ensures in_world { AlignedLieInWorld }
{}

/// A mark that comes leaves the marks by rising version, and every record's target as it was.
pub fn marks_leave_logs_legal()
    ensures rising { MarksAreInOrder }
    ensures follow { MarksDateTheNewest }
    ensures unmarked { MarksAddOne }
{}

/// A version that gets a mark in a look-up by version gets it in its place in the list of marks.
pub fn marks_come_to_their_places()
    ensures { MarksComeByVersion }
{}

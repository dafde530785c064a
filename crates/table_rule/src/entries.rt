ghost use Rattle.table_rule.specs.StepStatements.{EntriesAreAdded, EntriesAreFreed};
ghost use Rattle.table_rule.specs.StepStatements.{SharesAreLowered, SharesAreRaised};

/// Entries are added with their first share, and freed with their last.
pub fn entries_come_and_go()
    ensures add { EntriesAreAdded }
    ensures free { EntriesAreFreed }
{}

/// Shares of live entries come and go.
pub fn shares_come_and_go()
    ensures raise { SharesAreRaised }
    ensures lower { SharesAreLowered }
{}

ghost use Rattle.table_rule.specs.LogStatements.{LogTurnsAreGivenBack, LogTurnsAreTaken};
ghost use Rattle.table_rule.specs.LogStatements.{LogWordsAreLoaded, MarkWordsAreStored};
ghost use Rattle.table_rule.specs.LogStatements.{MarksAreSeen, MarksAreSought, NextRecordsAreSeen};
ghost use Rattle.table_rule.specs.LogStatements.{NextWordsAreStored, RecordsAreAppended};
ghost use Rattle.table_rule.specs.LogStatements.{VersionsAreForgotten};

/// The log's turn is taken where it is free, and given back.
pub fn log_turns_come_and_go()
    ensures take { LogTurnsAreTaken }
    ensures give_back { LogTurnsAreGivenBack }
{}

/// Words of the log are loaded under its turn, and with them records and marks are seen.
pub fn log_words_are_loaded()
    ensures word { LogWordsAreLoaded }
    ensures next { NextRecordsAreSeen }
    ensures sought { MarksAreSought }
    ensures mark { MarksAreSeen }
{}

/// Words are stored behind the log's length, and behind versions without a mark.
pub fn log_words_are_stored()
    ensures next { NextWordsAreStored }
    ensures mark { MarkWordsAreStored }
{}

/// A record is appended, and a version is forgotten.
pub fn logs_grow()
    ensures append { RecordsAreAppended }
    ensures forget { VersionsAreForgotten }
{}

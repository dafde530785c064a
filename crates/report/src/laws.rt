ghost use Rattle.report.specs.Statements.{SoundRootsTellWorlds, LiveEntriesAreNumbers};
ghost use Rattle.report.specs.Statements.{LevelsHaveOneNumber, HistoriesHaveOneReport};

/// What a store's roots tell of its versions is what the report says of them, and the live entries
/// of each level are the level's number. There is one number, and one report.
pub fn stores_tell_reports()
    ensures roots { SoundRootsTellWorlds }
    ensures numbers { LiveEntriesAreNumbers }
    ensures one_number { LevelsHaveOneNumber }
    ensures one_report { HistoriesHaveOneReport }
{}

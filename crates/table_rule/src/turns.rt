ghost use Rattle.table_rule.specs.StepStatements.{BooksAreLoaded, FullBucketsAreMet, HeldWordsAreRead};
ghost use Rattle.table_rule.specs.StepStatements.{KeyWordsAreStored, TurnsAreGivenBack};
ghost use Rattle.table_rule.specs.StepStatements.{TurnsAreTaken, UsedAreCounted, UsedAreRaised};
ghost use Rattle.table_rule.specs.StepStatements.{WordsAreLoaded};

/// A bucket's turn is taken where it is free, and given back.
pub fn turns_come_and_go()
    ensures take { TurnsAreTaken }
    ensures give_back { TurnsAreGivenBack }
{}

/// Words of a bucket are loaded under its turn.
pub fn words_are_loaded()
    ensures word { WordsAreLoaded }
    ensures book { BooksAreLoaded }
    ensures used { UsedAreCounted }
    ensures full { FullBucketsAreMet }
{}

/// Key words of free entries are stored under their bucket's turn, and the number of used slots.
pub fn words_are_stored()
    ensures key { KeyWordsAreStored }
    ensures used { UsedAreRaised }
{}

/// What is held is read with no turn.
pub fn held_words_are_read()
    ensures { HeldWordsAreRead }
{}

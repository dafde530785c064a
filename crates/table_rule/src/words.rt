ghost use Rattle.table_rule.specs.WordStatements.{BooksAdd, BooksFree, BooksLower, BooksRaise};
ghost use Rattle.table_rule.specs.WordStatements.{BooksKeepTags, FreeKeysChange};
ghost use Rattle.table_rule.specs.WordStatements.{FreeKeysKeepTags, LengthsPutRoots};
ghost use Rattle.table_rule.specs.WordStatements.{MarksTakeRoots, OthersKeepTags};
ghost use Rattle.table_rule.specs.WordStatements.{RowsAreWritten, SeatsTrade};

/// A word that is written, with what its seat trades, is an event of the state that is read.
pub fn words_step()
    ensures raise { BooksRaise }
    ensures add { BooksAdd }
    ensures lower { BooksLower }
    ensures free { BooksFree }
    ensures key { FreeKeysChange }
    ensures append { LengthsPutRoots }
    ensures forget { MarksTakeRoots }
{}

/// A word that is stored leaves books tagged.
pub fn books_stay_tagged()
    ensures others { OthersKeepTags }
    ensures key { FreeKeysKeepTags }
    ensures book { BooksKeepTags }
{}

/// A seat's trees that change are what the seat trades.
pub fn seats_trade()
    ensures { SeatsTrade }
{}

/// A word that is written in the row is one word of the table that changes.
pub fn rows_are_written()
    ensures { RowsAreWritten }
{}

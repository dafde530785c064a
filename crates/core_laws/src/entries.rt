ghost use Rattle.core_laws.specs.EntryStatements.{BooksAreSmall, ChildrenAreBelow, ChildrenLive};
ghost use Rattle.core_laws.specs.EntryStatements.{HeldNamesLive, KeysAreSoughtInOneBucket};
ghost use Rattle.core_laws.specs.EntryStatements.{NamesBelowLive, RootsLive};

/// Whatever is named in a sound store is live.
pub fn named_entries_live()
    ensures child { ChildrenLive }
    ensures level { ChildrenAreBelow }
    ensures root { RootsLive }
    ensures held { HeldNamesLive }
    ensures under { NamesBelowLive }
{}

/// A key is sought in its bucket alone, and books are small.
pub fn keys_are_sought_in_one_bucket()
    ensures missing { KeysAreSoughtInOneBucket }
    ensures small { BooksAreSmall }
{}

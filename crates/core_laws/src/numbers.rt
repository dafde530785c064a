ghost use Rattle.core_laws.specs.NumberStatements.{LiveEntriesAreBlocks, LiveEntriesAreContents};
ghost use Rattle.core_laws.specs.NumberStatements.{ShapesShowContents, SoundRootsShow};

/// The law of live numbers: where nobody holds a share, the live entries of a level are as many as
/// the different blocks with a set cell that the versions with a root have.
pub fn live_entries_are_different_blocks()
    ensures number { LiveEntriesAreBlocks }
    ensures roots { SoundRootsShow }
{}

/// The law of live numbers in the plain terms of cells: the live entries of a level are as many as
/// the different contents with a set cell that the aligned blocks of the versions have which are
/// kept.
pub fn live_entries_are_different_contents()
    ensures shown { ShapesShowContents }
    ensures number { LiveEntriesAreContents }
{}

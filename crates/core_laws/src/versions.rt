ghost use Rattle.core_laws.specs.VersionStatements.{NoCellNoRoot, NoRootNoCell, OneRootOneWorld};
ghost use Rattle.core_laws.specs.VersionStatements.{OneWorldOneRoot, TargetsAreHeld};
ghost use Rattle.core_laws.specs.VersionStatements.{TargetsMayBeAppended, UntouchedStatesAreSound};

/// A state in which nothing was done yet is sound.
pub fn untouched_states_are_sound()
    ensures { UntouchedStatesAreSound }
{}

/// Two versions that are kept have one root just where they have the same cells, and none just
/// where they have none.
pub fn roots_tell_cells()
    ensures same_cells { OneRootOneWorld }
    ensures same_root { OneWorldOneRoot }
    ensures no_cell { NoRootNoCell }
    ensures no_root { NoCellNoRoot }
{}

/// The version that an undo or a redo goes to is kept, and its root may be appended.
pub fn targets_may_be_appended()
    ensures kept { TargetsAreHeld }
    ensures append { TargetsMayBeAppended }
{}

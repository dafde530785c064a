ghost use Rattle.core_laws.specs.StepStatements.{EntriesLeaveByTheirLastShare, LiveTreesStay};
ghost use Rattle.core_laws.specs.StepStatements.{ReseatingKeepsSoundness, SharesAreSpared};
ghost use Rattle.core_laws.specs.StepStatements.{StepsAreStoreSteps, StepsKeepCells};
ghost use Rattle.core_laws.specs.StepStatements.{StepsKeepSoundness, StoreStepsKeepEntriesSound};
ghost use Rattle.core_laws.specs.StepStatements.{StoreStepsKeepKeys};

/// The law of steps for a store: its entries stay sound, what stays live keeps its tree, what
/// stands at or below a share is spared by the steps of others, and an entry leaves by its last
/// share alone.
pub fn store_steps_keep_soundness()
    ensures sound { StoreStepsKeepEntriesSound }
    ensures keys { StoreStepsKeepKeys }
    ensures tree { LiveTreesStay }
    ensures spared { SharesAreSpared }
    ensures leaves { EntriesLeaveByTheirLastShare }
{}

/// The law of steps: a sound state stays sound, each step is one of the store, and versions keep
/// their cells.
pub fn steps_keep_soundness()
    ensures sound { StepsKeepSoundness }
    ensures store { StepsAreStoreSteps }
    ensures reseats { ReseatingKeepsSoundness }
    ensures cells { StepsKeepCells }
{}

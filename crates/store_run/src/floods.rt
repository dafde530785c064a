//! The region of a box of a version that is connected with a cell.
ghost use Rattle.std.specs.Prelude.{◌≡◌, ◌<◌, ◌≤◌, IfOk, option_copied};
ghost use Rattle.vw_cell.specs.Places.{FitsAt, IsInBox};
ghost use Rattle.flood.specs.Regions.{FilesRegion};
ghost use Rattle.core_laws.specs.contents.Versions.{HoldsVersion};
ghost use Rattle.one_store.specs.Known.{stored_root};
ghost use Rattle.store_run.specs.Kept.{log_of, world_of, AreStoredVersions, HoldsTree};
ghost use Rattle.store_run.specs.Steps.{LeavesAll, StaysSeen, side_of};
ghost use Rattle.store_run.specs.Worlds.{AreStoredAtRest};

use crate::stored_versions::Versions;
use flood::{RegionFile, region_file};
use node_words::{Share, Steps};
use std::alloc::Global;
use std::sync::ledger::{Blank, Ledger};
use vw_cell::{Boxed, Cell, Memory};

/// The file of the region of a box of a version that is connected with a cell of the box.
#[tactic(auto, using(crate::proofs::Rebuilding::asked_all, crate::proofs::Rebuilding::asked_same, crate::proofs::Rebuilding::shared_tree, crate::proofs::Rebuilding::shared_few, crate::proofs::Seeing::region_still))]
pub(crate) fn region_over<L: Ledger>(
    versions: &mut Versions,
    alloc: Global,
    version: u32,
    part: Boxed,
    from: Cell,
    blank: Blank,
) -> Result<RegionFile, Memory>
    requires rest { AreStoredAtRest versions.old }
    requires kept { HoldsVersion (log_of versions.old) version }
    requires inside { FitsAt part.at part.size (side_of versions.old) }
    requires small { (part.size.x ≤ 256) × (part.size.y ≤ 256) × (part.size.z ≤ 256) }
    requires from { IsInBox part from }
    requires name { blank.name ≡ L.name }
    requires parts { blank.parts ≡ L.parts }
    requires some { 0 < L.parts }
    ensures rest { AreStoredAtRest versions.new }
    ensures leaves { LeavesAll versions.old versions.new }
    ensures file { IfOk result (λ r. FilesRegion part from r.cells r.file.items
        (world_of versions.old version)) }
{
    let mut steps: Steps<L> = Steps::start(blank);
    let root = versions.share(version);
    let region = region_of_root(versions, alloc, version, root.as_ref(), part, from);
    versions.give_back(root, &mut steps);
    region
}

// The same, where the version's root is held.
#[tactic(auto, using(crate::proofs::Rebuilding::share_level, crate::proofs::Holding::holds_root, crate::proofs::Sparing::are_spared, crate::proofs::Rebuilding::seen_tree, crate::proofs::Rebuilding::stays_seen, crate::proofs::Flooding::region_of_world, crate::proofs::Flooding::box_in_store))]
fn region_of_root(
    versions: &mut Versions,
    alloc: Global,
    version: u32,
    root: Option<&Share>,
    part: Boxed,
    from: Cell,
) -> Result<RegionFile, Memory>
    requires are { AreStoredVersions versions.old }
    requires kept { HoldsVersion (log_of versions.old) version }
    requires holds { HoldsTree versions.old.store (option_copied root) }
    requires is { option_copied root ≡ stored_root versions.old.store.roots version }
    requires inside { FitsAt part.at part.size (side_of versions.old) }
    requires small { (part.size.x ≤ 256) × (part.size.y ≤ 256) × (part.size.z ≤ 256) }
    requires from { IsInBox part from }
    ensures are { AreStoredVersions versions.new }
    ensures stays { StaysSeen versions.old versions.new }
    ensures holds { HoldsTree versions.new.store (option_copied root.entry) }
    ensures file { IfOk result (λ r. FilesRegion part from r.cells r.file.items
        (world_of versions.old version)) }
{
    let side = versions.side;
    region_file(alloc, &mut versions.store, root, side, part, from)
}

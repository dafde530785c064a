//! What can be seen of a box of a version, and the tints of cells that are listed.
ghost use Rattle.std.specs.Prelude.{◌≡◌, ◌/◌, ◌^◌, ◌<◌, ◌≤◌, All, IfOk, map, option_copied, true};
ghost use Rattle.vw_cell.specs.Places.{FitsAt};
ghost use Rattle.core_laws.specs.contents.Versions.{HoldsVersion};
ghost use Rattle.vox_read.specs.Contents.{IsInsideModel};
ghost use Rattle.extract.specs.Surface.{surface_of_box};
ghost use Rattle.one_store.specs.Known.{stored_root};
ghost use Rattle.store_run.specs.Kept.{log_of, tints_of, world_of, AreStoredVersions, HoldsTree};
ghost use Rattle.store_run.specs.Steps.{LeavesAll, StaysSeen, side_of};
ghost use Rattle.store_run.specs.TintFiles.{its_tint};
ghost use Rattle.store_run.specs.Worlds.{AreStoredAtRest};

use crate::stored_versions::Versions;
use colour::tints_of;
use extract::surface_in;
use node_words::{Share, Steps};
use std::alloc::Global;
use std::sync::ledger::{Blank, Ledger};
use vox_read::Voxel;
use vw_cell::{Boxed, Memory};

/// The set cells of a box of a version that have a bare side, as voxels.
#[tactic(auto, using(crate::proofs::Rebuilding::asked_all, crate::proofs::Rebuilding::asked_same, crate::proofs::Rebuilding::shared_tree, crate::proofs::Rebuilding::shared_few, crate::proofs::SeenCells::surface_still))]
pub(crate) fn surface_over<L: Ledger>(
    versions: &mut Versions,
    alloc: Global,
    version: u32,
    part: Boxed,
    blank: Blank,
) -> Result<Vec<Voxel>, Memory>
    requires rest { AreStoredAtRest versions.old }
    requires kept { HoldsVersion (log_of versions.old) version }
    requires inside { FitsAt part.at part.size (side_of versions.old) }
    requires small { (part.size.x ≤ 256) × (part.size.y ≤ 256) × (part.size.z ≤ 256) }
    requires name { blank.name ≡ L.name }
    requires parts { blank.parts ≡ L.parts }
    requires some { 0 < L.parts }
    ensures rest { AreStoredAtRest versions.new }
    ensures leaves { LeavesAll versions.old versions.new }
    ensures voxels { IfOk result (λ voxels. voxels.items
        ≡ surface_of_box (side_of versions.old) (world_of versions.old version) part) }
{
    let mut steps: Steps<L> = Steps::start(blank);
    let root = versions.share(version);
    let voxels = surface_of_root(versions, alloc, version, root.as_ref(), part);
    versions.give_back(root, &mut steps);
    voxels
}

// The same, where the version's root is held.
#[tactic(auto, using(crate::proofs::Rebuilding::share_level, crate::proofs::Holding::holds_root, crate::proofs::Sparing::are_spared, crate::proofs::Rebuilding::seen_tree, crate::proofs::Rebuilding::stays_seen, crate::proofs::Flooding::box_in_store))]
fn surface_of_root(
    versions: &mut Versions,
    alloc: Global,
    version: u32,
    root: Option<&Share>,
    part: Boxed,
) -> Result<Vec<Voxel>, Memory>
    requires are { AreStoredVersions versions.old }
    requires kept { HoldsVersion (log_of versions.old) version }
    requires holds { HoldsTree versions.old.store (option_copied root) }
    requires is { option_copied root ≡ stored_root versions.old.store.roots version }
    requires inside { FitsAt part.at part.size (side_of versions.old) }
    requires small { (part.size.x ≤ 256) × (part.size.y ≤ 256) × (part.size.z ≤ 256) }
    ensures are { AreStoredVersions versions.new }
    ensures stays { StaysSeen versions.old versions.new }
    ensures holds { HoldsTree versions.new.store (option_copied root.entry) }
    ensures voxels { IfOk result (λ voxels. voxels.items
        ≡ surface_of_box (side_of versions.old) (world_of versions.old version) part) }
{
    let side = versions.side;
    let mut voxels = Vec::new(alloc);
    if let Err(lacks) = surface_in(&mut versions.store, root, side, part, &mut voxels) {
        return Err(lacks);
    }
    Ok(voxels)
}

/// The tints of some cells of a box of a version, each told as a voxel from the box's corner.
#[tactic(auto, using(crate::proofs::Rebuilding::asked_all, crate::proofs::Rebuilding::asked_same, crate::proofs::Rebuilding::shared_tree, crate::proofs::Rebuilding::shared_few, crate::proofs::SeenCells::tints_still))]
pub(crate) fn tints_over<L: Ledger>(
    versions: &mut Versions,
    alloc: Global,
    version: u32,
    part: Boxed,
    voxels: &[Voxel],
    blank: Blank,
) -> Result<Vec<u8>, Memory>
    requires rest { AreStoredAtRest versions.old }
    requires tinted { versions.old.models.tint ≡ true }
    requires kept { HoldsVersion (log_of versions.old) version }
    requires inside { FitsAt part.at part.size (2 ^ versions.old.side / 4) }
    requires small { (part.size.x ≤ 256) × (part.size.y ≤ 256) × (part.size.z ≤ 256) }
    requires voxels { All (IsInsideModel part.size) voxels.now }
    requires name { blank.name ≡ L.name }
    requires parts { blank.parts ≡ L.parts }
    requires some { 0 < L.parts }
    ensures rest { AreStoredAtRest versions.new }
    ensures leaves { LeavesAll versions.old versions.new }
    ensures tints { IfOk result (λ tints. tints.items
        ≡ map (its_tint (tints_of versions.old version) part.at) voxels.now) }
{
    let mut steps: Steps<L> = Steps::start(blank);
    let root = versions.share(version);
    let tints = tints_of_root(versions, alloc, version, root.as_ref(), part, voxels);
    versions.give_back(root, &mut steps);
    tints
}

// The same, where the version's root is held.
#[tactic(auto, using(crate::proofs::Rebuilding::share_level, crate::proofs::Holding::holds_root, crate::proofs::Sparing::are_spared, crate::proofs::Rebuilding::seen_tree, crate::proofs::Rebuilding::stays_seen, crate::proofs::Rebuilding::large_tints, crate::proofs::SeenCells::root_tints))]
fn tints_of_root(
    versions: &mut Versions,
    alloc: Global,
    version: u32,
    root: Option<&Share>,
    part: Boxed,
    voxels: &[Voxel],
) -> Result<Vec<u8>, Memory>
    requires are { AreStoredVersions versions.old }
    requires tinted { versions.old.models.tint ≡ true }
    requires kept { HoldsVersion (log_of versions.old) version }
    requires holds { HoldsTree versions.old.store (option_copied root) }
    requires is { option_copied root ≡ stored_root versions.old.store.roots version }
    requires inside { FitsAt part.at part.size (2 ^ versions.old.side / 4) }
    requires small { (part.size.x ≤ 256) × (part.size.y ≤ 256) × (part.size.z ≤ 256) }
    requires voxels { All (IsInsideModel part.size) voxels.now }
    ensures are { AreStoredVersions versions.new }
    ensures stays { StaysSeen versions.old versions.new }
    ensures holds { HoldsTree versions.new.store (option_copied root.entry) }
    ensures tints { IfOk result (λ tints. tints.items
        ≡ map (its_tint (tints_of versions.old version) part.at) voxels.now) }
{
    let side = versions.side;
    tints_of(alloc, &mut versions.store, root, side, part, voxels)
}

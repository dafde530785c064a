//! The VOX file of a box of a version whose cells have tints.
ghost use Rattle.std.specs.Prelude.{◌≡◌, ◌-◌, ◌/◌, ◌^◌, ◌<◌, ◌≤◌, IfOk, option_copied, true};
ghost use Rattle.vw_cell.specs.Places.{FitsAt};
ghost use Rattle.node_words.specs.descent.Roots.{HoldsRoot, ForWorld};
ghost use Rattle.core_laws.specs.contents.Versions.{HoldsVersion};
ghost use Rattle.one_store.specs.Known.{stored_root};
ghost use Rattle.store_run.specs.Kept.{log_of, world_of, tints_of, AreStoredVersions, HoldsTree};
ghost use Rattle.store_run.specs.Steps.{LeavesAll, StaysSeen};
ghost use Rattle.store_run.specs.TintFiles.{file_of_tints, file_of_kept_tints};
ghost use Rattle.store_run.specs.Worlds.{AreStoredAtRest};

use crate::stored_versions::Versions;
use act_rebuilds::tints_in;
use node_words::{Blocks, Share, Steps};
use std::alloc::Global;
use std::sync::ledger::{Blank, Ledger};
use vox_write::write_model;
use vw_cell::{Boxed, Memory, Side};

/// The VOX file of a box of a version, in which each set cell has its tint as its colour.
#[tactic(auto, using(crate::proofs::Rebuilding::asked_all, crate::proofs::Rebuilding::asked_same, crate::proofs::Rebuilding::shared_tree, crate::proofs::Rebuilding::shared_few, crate::proofs::TintFiles::tints_still))]
pub(crate) fn tint_file_over<L: Ledger>(
    versions: &mut Versions,
    alloc: Global,
    version: u32,
    part: Boxed,
    blank: Blank,
) -> Result<Vec<u8>, Memory>
    requires rest { AreStoredAtRest versions.old }
    requires tinted { versions.old.models.tint ≡ true }
    requires kept { HoldsVersion (log_of versions.old) version }
    requires inside { FitsAt part.at part.size (2 ^ versions.old.side / 4) }
    requires small { (part.size.x ≤ 256) × (part.size.y ≤ 256) × (part.size.z ≤ 256) }
    requires name { blank.name ≡ L.name }
    requires parts { blank.parts ≡ L.parts }
    requires some { 0 < L.parts }
    ensures rest { AreStoredAtRest versions.new }
    ensures leaves { LeavesAll versions.old versions.new }
    ensures file { IfOk result (λ file. file.items
        ≡ file_of_tints part (world_of versions.old version) (tints_of versions.old version)) }
{
    let mut steps: Steps<L> = Steps::start(blank);
    let root = versions.share(version);
    let file = tint_file_of_root(versions, alloc, version, root.as_ref(), part);
    versions.give_back(root, &mut steps);
    file
}

// The same, where the version's root is held.
#[tactic(auto, using(crate::proofs::Rebuilding::share_level, crate::proofs::Holding::holds_root, crate::proofs::Sparing::are_spared, crate::proofs::Rebuilding::seen_tree, crate::proofs::Rebuilding::stays_seen, crate::proofs::Rebuilding::large_tints, crate::proofs::TintFiles::root_tinted))]
fn tint_file_of_root(
    versions: &mut Versions,
    alloc: Global,
    version: u32,
    root: Option<&Share>,
    part: Boxed,
) -> Result<Vec<u8>, Memory>
    requires are { AreStoredVersions versions.old }
    requires tinted { versions.old.models.tint ≡ true }
    requires kept { HoldsVersion (log_of versions.old) version }
    requires holds { HoldsTree versions.old.store (option_copied root) }
    requires is { option_copied root ≡ stored_root versions.old.store.roots version }
    requires inside { FitsAt part.at part.size (2 ^ versions.old.side / 4) }
    requires small { (part.size.x ≤ 256) × (part.size.y ≤ 256) × (part.size.z ≤ 256) }
    ensures are { AreStoredVersions versions.new }
    ensures stays { StaysSeen versions.old versions.new }
    ensures holds { HoldsTree versions.new.store (option_copied root.entry) }
    ensures file { IfOk result (λ file. file.items
        ≡ file_of_tints part (world_of versions.old version) (tints_of versions.old version)) }
{
    let side = versions.side;
    tint_file(alloc, &mut versions.store, root, side, part)
}

// The file of a box of the world whose tints the cells of a root keep.
#[tactic(auto, using(crate::proofs::TintFiles::is_tint_size, crate::proofs::TintFiles::told_tints))]
fn tint_file<B: Blocks>(
    alloc: Global,
    store: &mut B,
    root: Option<&Share>,
    side: Side,
    b: Boxed,
) -> Result<Vec<u8>, Memory>
    requires root { HoldsRoot (B.seen store.old).held side (option_copied root) }
    requires large { 4 ≤ side }
    requires inside { FitsAt b.at b.size (2 ^ (side - 2)) }
    requires small { (b.size.x ≤ 256) × (b.size.y ≤ 256) × (b.size.z ≤ 256) }
    ensures file { IfOk result
        (λ file. ForWorld (B.seen store.old).held side (option_copied root.entry)
        (λ cells. file.items ≡ file_of_kept_tints side b cells)) }
    ensures seen { B.seen store.new ≡ B.seen store.old }
    ensures rests { B.rests store.old store.new }
{
    let mut voxels = Vec::new(alloc);
    tints_in(store, root, side, b, &mut voxels)?;
    let mut file = Vec::new(alloc);
    write_model(b.size, voxels.as_slice(), &mut file)?;
    Ok(file)
}

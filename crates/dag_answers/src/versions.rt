//! Two versions of a file beside each other, and what is saved and seen of one.
ghost use Rattle.std.specs.Prelude.{◌≡◌, ◌-◌, ◌^◌, ◌≤◌, IfOk, IfSome, MatchOption};
ghost use Rattle.vw_cell.specs.Places.{FitsAt, IsInBox};
ghost use Rattle.dag_file.specs.Trees.{HasVersion};
ghost use Rattle.dag_answers.specs.OfVersions.{HasBoth, TellsChanges, TellsSame, TellsFile, TellsSurface, TellsRegion};

use crate::asking::let_go;
use dag_file::DagView;
use extract::{box_file, surface_in};
use flood::{RegionFile, region_file};
use measure::changes;
use std::alloc::Global;
use vox_read::Voxel;
use vw_cell::{Boxed, Cell, Memory};

/// The least box of all cells that differ between two versions, where the file has both.
pub fn version_changes(view: &mut DagView<'_>, a: u32, b: u32) -> Option<Option<Boxed>>
    ensures same { view.new ≡ view.old }
    ensures tells { MatchOption result (HasBoth view.old.bytes view.old.side a b → ⊥)
        (TellsChanges view.old.bytes view.old.side a b) }
{
    let side = view.side();
    let before = view.root(a)?;
    let after = match view.root(b) {
        Some(after) => after,
        None => {
            let_go(view, before);
            return None;
        }
    };
    let least = changes(view, before.as_ref(), after.as_ref(), side);
    let_go(view, before);
    let_go(view, after);
    Some(least)
}

/// Whether two versions have the same cells, where the file has both.
#[tactic(auto, using(crate::proofs::VersionLaws::told_same, crate::proofs::VersionLaws::told_other))]
pub fn version_same(view: &mut DagView<'_>, a: u32, b: u32) -> Option<bool>
    ensures same { view.new ≡ view.old }
    ensures tells { MatchOption result (HasBoth view.old.bytes view.old.side a b → ⊥)
        (TellsSame view.old.bytes view.old.side a b) }
{
    match version_changes(view, a, b)? {
        None => Some(true),
        Some(_) => Some(false),
    }
}

/// The VOX file of a box of a version, where the file has that.
pub fn version_file(
    alloc: Global,
    view: &mut DagView<'_>,
    version: u32,
    part: Boxed,
) -> Option<Result<Vec<u8>, Memory>>
    requires inside { FitsAt part.at part.size (2 ^ view.old.side) }
    requires small { (part.size.x ≤ 256) × (part.size.y ≤ 256) × (part.size.z ≤ 256) }
    ensures same { view.new ≡ view.old }
    ensures has { MatchOption result
        (HasVersion view.old.bytes (view.old.side - 1) version → ⊥)
        (λ _. HasVersion view.old.bytes (view.old.side - 1) version) }
    ensures tells { IfSome result (λ made. IfOk made
        (λ file. TellsFile view.old.bytes view.old.side version part file.items)) }
{
    let side = view.side();
    let root = view.root(version)?;
    let file = box_file(alloc, view, root.as_ref(), side, part);
    let_go(view, root);
    Some(file)
}

/// The set cells of a box of a version that can be seen, as the surface of a world, where the file
/// has that.
pub fn version_surface(
    alloc: Global,
    view: &mut DagView<'_>,
    version: u32,
    part: Boxed,
) -> Option<Result<Vec<Voxel>, Memory>>
    requires inside { FitsAt part.at part.size (2 ^ view.old.side) }
    requires small { (part.size.x ≤ 256) × (part.size.y ≤ 256) × (part.size.z ≤ 256) }
    ensures same { view.new ≡ view.old }
    ensures has { MatchOption result
        (HasVersion view.old.bytes (view.old.side - 1) version → ⊥)
        (λ _. HasVersion view.old.bytes (view.old.side - 1) version) }
    ensures tells { IfSome result (λ made. IfOk made
        (λ voxels. TellsSurface view.old.bytes view.old.side version part voxels.items)) }
{
    let side = view.side();
    let root = view.root(version)?;
    let mut voxels = Vec::new(alloc);
    let done = surface_in(view, root.as_ref(), side, part, &mut voxels);
    let_go(view, root);
    match done {
        Ok(()) => Some(Ok(voxels)),
        Err(memory) => Some(Err(memory)),
    }
}

/// The region of a box of a version that is connected with a cell of it, where the file has that.
pub fn version_region(
    alloc: Global,
    view: &mut DagView<'_>,
    version: u32,
    part: Boxed,
    from: Cell,
) -> Option<Result<RegionFile, Memory>>
    requires inside { FitsAt part.at part.size (2 ^ view.old.side) }
    requires small { (part.size.x ≤ 256) × (part.size.y ≤ 256) × (part.size.z ≤ 256) }
    requires from { IsInBox part from }
    ensures same { view.new ≡ view.old }
    ensures has { MatchOption result
        (HasVersion view.old.bytes (view.old.side - 1) version → ⊥)
        (λ _. HasVersion view.old.bytes (view.old.side - 1) version) }
    ensures tells { IfSome result (λ made. IfOk made
        (λ r. TellsRegion view.old.bytes view.old.side version part from r.cells r.file.items)) }
{
    let side = view.side();
    let root = view.root(version)?;
    let region = region_file(alloc, view, root.as_ref(), side, part, from);
    let_go(view, root);
    Some(region)
}

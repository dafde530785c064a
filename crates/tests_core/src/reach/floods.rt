ghost use Rattle.std.specs.Prelude.{◌≡◌, ◌≤◌, ◌<◌, ◌^◌, option_copied};
ghost use Rattle.vw_cell.specs.Places.{FitsAt, IsInBox};
ghost use Rattle.one_store.specs.Known.{known_state};
ghost use Rattle.node_words.specs.descent.Roots.{HoldsRoot};

use edit_stamp::{Stencil, rebuild_stamp};
use flood::{flood, region_file};
use node_words::{NodeStore, Plan, Share, Steps};
use one_store::OneStore;
use std::alloc::Global;
use std::marker::Brand;
use std::sync::ledger::{Blank, Ledger};
use vox_read::Voxel;
use vw_cell::{Boxed, Cell, Side};

/// The cells of a region, their number by its file, and that file.
#[derive(Drop)]
pub struct Region {
    pub voxels: Vec<Voxel>,
    pub cells: u32,
    pub file: Vec<u8>,
}

/// The region of a cell of a model that is stamped into a world of 32 cells. `None` where the cell
/// isn't in the model, or memory is short.
pub fn region_in(alloc: Global, stencil: &Stencil, at: Cell, from: Cell) -> Option<Region> {
    let side = Side::new(32)?;
    let b = Boxed::new(at, stencil.size(), side)?;
    if !b.has(from) {
        return None;
    }
    let plan = Plan::even(side, 64, 256)?;
    match OneStore::begin(alloc, &plan) {
        Ok(store) => {
            let mut store = store;
            stamped::<Brand>(alloc, &mut store, stencil, side, b, from, Blank::new(1))
        }
        Err(_) => None,
    }
}

fn stamped<L: Ledger>(
    alloc: Global,
    store: &mut OneStore,
    stencil: &Stencil,
    side: Side,
    b: Boxed,
    from: Cell,
    blank: Blank,
) -> Option<Region>
    requires name { blank.name ≡ L.name }
    requires parts { blank.parts ≡ L.parts }
    requires some { 0 < L.parts }
    requires side { side ≡ store.old.words.plan.side }
    requires size { b.size ≡ stencil.now.size }
    requires inside { FitsAt b.at b.size (2 ^ side) }
    requires small { (b.size.x ≤ 256) × (b.size.y ≤ 256) × (b.size.z ≤ 256) }
    requires from { IsInBox b from }
{
    let mut steps: Steps<L> = Steps::start(blank);
    if store.held() > 0 {
        return None;
    }
    let root = match rebuild_stamp(store, None, side, stencil, b.at, &mut steps) {
        Ok(root) => root,
        Err(_) => return None,
    };
    let found = found_in(alloc, store, root.as_ref(), side, b, from);
    if let Some(share) = root {
        let _name = share.spend();
    }
    found
}

fn found_in(
    alloc: Global,
    store: &mut OneStore,
    root: Option<&Share>,
    side: Side,
    b: Boxed,
    from: Cell,
) -> Option<Region>
    requires root { HoldsRoot (known_state store.old).held side (option_copied root) }
    requires inside { FitsAt b.at b.size (2 ^ side) }
    requires small { (b.size.x ≤ 256) × (b.size.y ≤ 256) × (b.size.z ≤ 256) }
    requires from { IsInBox b from }
{
    let mut voxels = Vec::new(alloc);
    if flood(store, root, side, b, from, &mut voxels).is_err() {
        return None;
    }
    match region_file(alloc, store, root, side, b, from) {
        Ok(made) => Some(Region {
            voxels,
            cells: made.cells,
            file: made.file,
        }),
        Err(_) => None,
    }
}

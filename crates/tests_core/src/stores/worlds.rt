ghost use Rattle.std.specs.Prelude.{◌≡◌, ◌<◌, ◌≤◌, ◌^◌};
ghost use Rattle.node_words.specs.descent.Roots.{HoldsRoot};
ghost use Rattle.one_store.specs.Known.{known_state};
ghost use Rattle.vw_cell.specs.Places.{FitsAt};

use dag_file::write_dag;
use edit_ops::rebuild_box;
use node_words::{NodeStore, Plan, Share, Steps};
use one_store::OneStore;
use std::alloc::Global;
use std::marker::Brand;
use std::sync::ledger::{Blank, Ledger};
use vw_cell::{Boxed, Cell, Side};

/// The file of a world of 8 cells whose version 0 is empty and all cells of whose version 1 are
/// set, behind some bytes.
pub fn full_world_file(alloc: Global, front: &[u8]) -> Option<Vec<u8>> {
    let side = Side::new(8)?;
    let at = Cell { x: 0, y: 0, z: 0 };
    let size = Cell { x: 8, y: 8, z: 8 };
    let b = Boxed::new(at, size, side)?;
    let plan = Plan::even(side, 4096, 256)?;
    match OneStore::begin(alloc, &plan) {
        Ok(store) => {
            let mut store = store;
            filled::<Brand>(alloc, &mut store, side, b, front, Blank::new(1))
        }
        Err(_) => None,
    }
}

// That of the empty world and the world with the cells of a box.
fn filled<L: Ledger>(
    alloc: Global,
    store: &mut OneStore,
    side: Side,
    b: Boxed,
    front: &[u8],
    blank: Blank,
) -> Option<Vec<u8>>
    requires name { blank.name ≡ L.name }
    requires parts { blank.parts ≡ L.parts }
    requires some { 0 < L.parts }
    requires side { side ≡ store.old.words.plan.side }
    requires low { 2 ≤ side }
    requires inside { FitsAt b.at b.size (2 ^ side) }
{
    let mut steps: Steps<L> = Steps::start(blank);
    if store.held() > 0 {
        return None;
    }
    let Ok(file) = Vec::from_slice(alloc, front) else {
        return None;
    };
    let mut file = file;
    match rebuild_box(store, None, side, b, true, &mut steps) {
        Ok(root) => {
            if two_versions(alloc, store, side, root, &mut file) {
                Some(file)
            } else {
                None
            }
        }
        Err(_) => None,
    }
}

fn two_versions(
    alloc: Global,
    store: &mut OneStore,
    side: Side,
    root: Option<Share>,
    file: &mut Vec<u8>,
) -> bool
    requires low { 2 ≤ side }
    requires root { HoldsRoot (known_state store.old).held side root }
{
    let roots = [(0, None), (1, root)];
    let _live = store.held();
    let written = write_dag(alloc, store, side, &roots, file);
    let [(_, none), (_, root)] = roots;
    let_go(none);
    let_go(root);
    written.is_ok()
}

fn let_go(root: Option<Share>) {
    if let Some(share) = root {
        let _name = share.spend();
    }
}

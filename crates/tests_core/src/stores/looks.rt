ghost use Rattle.std.specs.Prelude.{◌≡◌, ◌≤◌, ◌^◌, option_copied};
ghost use Rattle.node_words.specs.descent.Roots.{HoldsRoot};
ghost use Rattle.dag_file.specs.Trees.{opened_state};
ghost use Rattle.vw_cell.specs.Places.{FitsAt};

use dag_file::{DagFault, DagView};
use measure::count;
use node_words::Share;
use std::alloc::Global;
use vw_cell::{Boxed, Side};

/// The place of a file's first fault, where it has one.
pub fn fault_in(alloc: Global, bytes: &[u8]) -> Option<u64> {
    match DagView::read(alloc, bytes) {
        Ok(_view) => None,
        Err(DagFault::Bad(place)) => Some(place),
        Err(DagFault::Memory) => Some(u64::MAX),
    }
}

/// How many versions a file has, where it is one.
pub fn versions_of(alloc: Global, bytes: &[u8]) -> Option<u32> {
    match DagView::read(alloc, bytes) {
        Ok(view) => Some(view.versions()),
        Err(_) => None,
    }
}

/// What a file tells of a version: that it hasn't it, or how many cells of the world it sets.
#[derive(Clone, Copy, Debug, PartialEq, Eq)]
pub enum Counted {
    NoFile,
    NoVersion,
    Cells(u64),
}

/// The set cells of a version of a file, over its whole world.
pub fn look_at(alloc: Global, bytes: &[u8], version: u32) -> Counted {
    match DagView::read(alloc, bytes) {
        Ok(view) => version_count(view, version),
        Err(_) => Counted::NoFile,
    }
}

fn version_count(view: DagView<'_>, version: u32) -> Counted {
    let mut view = view;
    let side = view.side();
    match view.root(version) {
        None => Counted::NoVersion,
        Some(root) => {
            let cells = whole_count(&mut view, root.as_ref(), side);
            if let Some(share) = root {
                view.drop_root(share);
            }
            Counted::Cells(cells)
        }
    }
}

fn whole_count(view: &mut DagView<'_>, root: Option<&Share>, side: Side) -> u64
    requires root { HoldsRoot (opened_state view.old).held side (option_copied root) }
{
    let n = side.cells() as u16;
    let at = vw_cell::Cell { x: 0, y: 0, z: 0 };
    let size = vw_cell::Cell { x: n, y: n, z: n };
    match Boxed::new(at, size, side) {
        Some(b) => count(view, root, side, b),
        None => 0,
    }
}

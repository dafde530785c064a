//! The file of a box of a world that is one leaf.
ghost use Rattle.std.specs.Prelude.{◌≡◌, ◌≢◌, ◌≤◌, ◌<◌, ◌-◌, ◌^◌, IfOk};
ghost use Rattle.node_words.specs.Held.{HoldsName};
ghost use Rattle.vw_cell.specs.Places.{FitsAt};
ghost use Rattle.node_words.specs.shapes.Weights.{number_of_trees};

use extract::box_file;
use node_words::{Full, NodeStore, Plan, Share, Steps};
use one_store::OneStore;
use std::alloc::Global;
use std::marker::Brand;
use std::sync::ledger::{Blank, Ledger};
use std::test::Fail;
use vw_cell::{Boxed, Cell, Memory, Side};

/// The file of a size of one cell whose one voxel is set.
const ONE: &[u8] = b"VOX \x96\0\0\0MAIN\0\0\0\0\x2c\0\0\0\
    SIZE\x0c\0\0\0\0\0\0\0\x01\0\0\0\x01\0\0\0\x01\0\0\0\
    XYZI\x08\0\0\0\0\0\0\0\x01\0\0\0\0\0\0\x01";

/// The file of a size of 4 2 1 with two voxels, in the order of their places.
const TWO: &[u8] = b"VOX \x96\0\0\0MAIN\0\0\0\0\x30\0\0\0\
    SIZE\x0c\0\0\0\0\0\0\0\x04\0\0\0\x02\0\0\0\x01\0\0\0\
    XYZI\x0c\0\0\0\0\0\0\0\x02\0\0\0\x03\0\0\x01\0\x01\0\x01";

// The file of a box of the world of side 4 with these cells; the share is given back.
fn leaf_file<N: NodeStore, L: Ledger>(
    alloc: Global,
    store: &mut N,
    bits: u64,
    side: Side,
    b: Boxed,
    steps: &mut Steps<L>,
) -> Result<Result<Vec<u8>, Memory>, Full>
    requires bits { bits ≢ 0 }
    requires room { number_of_trees (N.seen store.old).held ≤ 4000 }
    requires side { side ≤ 2 }
    requires inside { FitsAt b.at b.size (2 ^ side) }
    requires small { (b.size.x ≤ 256) × (b.size.y ≤ 256) × (b.size.z ≤ 256) }
{
    let share = store.leaf(bits, steps)?;
    let file = file_under(alloc, store, &share, side, b);
    store.back(share, steps);
    Ok(file)
}

fn file_under<N: NodeStore>(
    alloc: Global,
    store: &mut N,
    share: &Share,
    side: Side,
    b: Boxed,
) -> Result<Vec<u8>, Memory>
    requires held { HoldsName (N.seen store.old).held share.now }
    requires level { share.now.level ≡ side - 2 }
    requires inside { FitsAt b.at b.size (2 ^ side) }
    requires small { (b.size.x ≤ 256) × (b.size.y ≤ 256) × (b.size.z ≤ 256) }
    ensures { N.seen store.new ≡ N.seen store.old }
{
    box_file(alloc, store, Some(share), side, b)
}

// The same in this store, of which nothing is held.
fn file_in<L: Ledger>(
    alloc: Global,
    store: &mut OneStore,
    bits: u64,
    side: Side,
    b: Boxed,
    blank: Blank,
) -> Result<Vec<u8>, Fail>
    requires bits { bits ≢ 0 }
    requires side { side ≤ 2 }
    requires inside { FitsAt b.at b.size (2 ^ side) }
    requires small { (b.size.x ≤ 256) × (b.size.y ≤ 256) × (b.size.z ≤ 256) }
    requires name { blank.name ≡ L.name }
    requires parts { blank.parts ≡ L.parts }
    requires some { 0 < L.parts }
{
    if store.held() > 0 {
        return Err("a store of which nothing is held".into());
    }
    let mut steps: Steps<L> = Steps::start(blank);
    match leaf_file(alloc, store, bits, side, b, &mut steps) {
        Ok(Ok(file)) => Ok(file),
        Ok(Err(_)) => Err("out of memory".into()),
        Err(_) => Err("a full bucket".into()),
    }
}

// The side of a world that is one leaf.
fn leaf_side() -> Result<Side, Fail>
    ensures { IfOk result (λ side. side ≤ 2) }
{
    let side = Side::new(4).ok_or("a side")?;
    if side.root_level() > 0 {
        return Err("a leaf".into());
    }
    Ok(side)
}

// The same in a store of its own.
fn file_of(alloc: Global, bits: u64, at: Cell, size: Cell) -> Result<Vec<u8>, Fail>
    requires bits { bits ≢ 0 }
    requires small { (size.x ≤ 256) × (size.y ≤ 256) × (size.z ≤ 256) }
{
    let side = leaf_side()?;
    let b = Boxed::new(at, size, side).ok_or("a box")?;
    let mut store = OneStore::begin(alloc, &Plan::usual(side))?;
    file_in::<Brand>(alloc, &mut store, bits, side, b, Blank::new(1))
}

// Whether this is the file.
fn has_file(alloc: Global, bits: u64, at: Cell, size: Cell, want: &[u8]) -> Result<bool, Fail>
    requires bits { bits ≢ 0 }
    requires small { (size.x ≤ 256) × (size.y ≤ 256) × (size.z ≤ 256) }
{
    let file = file_of(alloc, bits, at, size)?;
    Ok(file.as_slice() == want)
}

const UNIT: Cell = Cell { x: 1, y: 1, z: 1 };

// Of the cells (3, 3, 3), and of (3, 2, 1) and (0, 3, 1) in a box that begins at (0, 2, 1).
#[test]
fn boxes_have_their_files(rt: HostRuntime) -> Result<(), Fail> {
    let corner = Cell { x: 3, y: 3, z: 3 };
    assert!(rt; has_file(rt.alloc(), 1 << 63, corner, UNIT, ONE)?);
    let at = Cell { x: 0, y: 2, z: 1 };
    let size = Cell { x: 4, y: 2, z: 1 };
    assert!(rt; has_file(rt.alloc(), (1 << 27) | (1 << 28), at, size, TWO)?);
    Ok(())
}

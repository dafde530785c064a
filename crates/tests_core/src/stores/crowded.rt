//! A second edit of a root that is held as a share meets a full bucket.
ghost use Rattle.std.specs.Prelude.{◌≡◌, ◌<◌, ◌≤◌, ◌^◌, Some};
ghost use Rattle.vw_cell.specs.Places.{FitsAt};
ghost use Rattle.node_words.specs.shapes.Weights.{number_of_trees};
ghost use Rattle.node_words.specs.descent.Roots.{HoldsRoot};
ghost use Rattle.one_store.specs.Known.{known_state};

use edit_ops::rebuild_box;
use node_words::{Full, NodeStore, Plan, Share, Steps};
use one_store::OneStore;
use std::alloc::Global;
use std::marker::Brand;
use std::sync::ledger::{Blank, Ledger};
use std::test::Fail;
use vw_cell::{Boxed, Cell, Side};

/// What the second edit is told, how many shares are held then, and how many nodes of each level
/// are live.
#[derive(Clone, Copy, Debug, PartialEq, Eq)]
struct Told {
    full: Option<Full>,
    shares: u32,
    live: [u32; 2],
}

/// Two cells of one leaf's bits, whose nodes above differ, where a bucket has one node.
const TOLD: Told = Told {
    full: Some(Full {
        level: 1,
        bucket: 0,
    }),
    shares: 1,
    live: [1, 1],
};

fn let_go(root: Option<Share>) {
    if let Some(share) = root {
        let _name = share.spend();
    }
}

// How many nodes of the first two levels are live.
fn lives(store: &OneStore, side: Side) -> [u32; 2]
    requires { side ≡ store.now.words.plan.side }
{
    let over = if side.root_level() > 0 {
        store.live(1)
    } else {
        0
    };
    [store.live(0), over]
}

// The second box is filled over a root that is held.
fn told_over<L: Ledger>(
    store: &mut OneStore,
    side: Side,
    root: Share,
    second: Boxed,
    steps: &mut Steps<L>,
) -> Told
    requires side { side ≡ store.old.words.plan.side }
    requires inside { FitsAt second.at second.size (2 ^ side) }
    requires root { HoldsRoot (known_state store.old).held side (Some root) }
    requires room { number_of_trees (known_state store.old).held ≤ 3910 }
{
    let full = match rebuild_box(store, Some(&root), side, second, true, steps) {
        Ok(more) => {
            let_go(more);
            None
        }
        Err(full) => Some(full),
    };
    let shares = store.held();
    let live = lives(store, side);
    let _name = root.spend();
    Told { full, shares, live }
}

// The same behind the first box in an empty world.
fn told_behind<L: Ledger>(
    store: &mut OneStore,
    side: Side,
    first: Boxed,
    second: Boxed,
    blank: Blank,
) -> Option<Told>
    requires name { blank.name ≡ L.name }
    requires parts { blank.parts ≡ L.parts }
    requires some { 0 < L.parts }
    requires side { side ≡ store.old.words.plan.side }
    requires first { FitsAt first.at first.size (2 ^ side) }
    requires second { FitsAt second.at second.size (2 ^ side) }
{
    let mut steps: Steps<L> = Steps::start(blank);
    if store.held() > 0 {
        return None;
    }
    match rebuild_box(store, None, side, first, true, &mut steps) {
        Ok(Some(root)) => {
            if store.held() > 1 {
                let _name = root.spend();
                return None;
            }
            Some(told_over(store, side, root, second, &mut steps))
        }
        Ok(None) => None,
        Err(_) => None,
    }
}

fn told_in(alloc: Global, plan: &Plan, first: Boxed, second: Boxed) -> Option<Told>
    requires first { FitsAt first.at first.size (2 ^ plan.now.side) }
    requires second { FitsAt second.at second.size (2 ^ plan.now.side) }
{
    let side = plan.side();
    match OneStore::begin(alloc, plan) {
        Ok(store) => {
            let mut store = store;
            told_behind::<Brand>(&mut store, side, first, second, Blank::new(1))
        }
        Err(_) => None,
    }
}

// Two cells of a world of side 8, in a store with one bucket of one node a level.
fn told_of(alloc: Global, first: Cell, second: Cell) -> Option<Told> {
    let side = Side::new(8)?;
    let one = Cell { x: 1, y: 1, z: 1 };
    let first = Boxed::new(first, one, side)?;
    let second = Boxed::new(second, one, side)?;
    let plan = Plan::even(side, 1, 1)?;
    told_in(alloc, &plan, first, second)
}

#[test]
fn a_root_stays_held_where_a_second_edit_is_refused(rt: HostRuntime) -> Result<(), Fail> {
    let first = Cell { x: 0, y: 0, z: 0 };
    let second = Cell { x: 4, y: 0, z: 0 };
    assert_eq!(rt; told_of(rt.alloc(), first, second), Some(TOLD));
    Ok(())
}

//! A ball of which a box takes a part.
ghost use Rattle.std.specs.Prelude.{◌≡◌, ◌<◌, ◌^◌};
ghost use Rattle.vw_cell.specs.Places.{FitsAt, IsInWorld};

use edit_ops::rebuild_ball_in;
use measure::count;
use node_words::{NodeStore, Plan, Share, Steps};
use one_store::OneStore;
use std::alloc::Global;
use std::marker::Brand;
use std::sync::ledger::{Blank, Ledger};
use vw_cell::{Ball, Boxed, Cell, Side};

fn let_go(root: Option<Share>) {
    if let Some(share) = root {
        let _name = share.spend();
    }
}

// How many cells of the whole box are set once the ball was filled as far as the other box goes.
fn counted<L: Ledger>(
    store: &mut OneStore,
    side: Side,
    ball: Ball,
    within: Boxed,
    whole: Boxed,
    blank: Blank,
) -> Option<u64>
    requires name { blank.name ≡ L.name }
    requires parts { blank.parts ≡ L.parts }
    requires some { 0 < L.parts }
    requires side { side ≡ store.old.words.plan.side }
    requires centre { IsInWorld (2 ^ side) ball.centre }
    requires within { FitsAt within.at within.size (2 ^ side) }
    requires whole { FitsAt whole.at whole.size (2 ^ side) }
{
    let mut steps: Steps<L> = Steps::start(blank);
    if store.held() > 0 {
        return None;
    }
    match rebuild_ball_in(store, None, side, ball, within, true, &mut steps) {
        Ok(root) => {
            let cells = count(store, root.as_ref(), side, whole);
            let_go(root);
            Some(cells)
        }
        Err(_) => None,
    }
}

// The same in a new store.
fn counted_in(alloc: Global, plan: &Plan, ball: Ball, within: Boxed, whole: Boxed) -> Option<u64>
    requires centre { IsInWorld (2 ^ plan.now.side) ball.centre }
    requires within { FitsAt within.at within.size (2 ^ plan.now.side) }
    requires whole { FitsAt whole.at whole.size (2 ^ plan.now.side) }
{
    let side = plan.side();
    match OneStore::begin(alloc, plan) {
        Ok(store) => {
            let mut store = store;
            counted::<Brand>(&mut store, side, ball, within, whole, Blank::new(1))
        }
        Err(_) => None,
    }
}

// The same in a world of side 8, for the ball of radius 1 around (3, 3, 3).
fn counted_of(alloc: Global, at: [u16; 3], size: [u16; 3]) -> Option<u64> {
    let side = Side::new(8)?;
    let plan = Plan::even(side, 16, 16)?;
    let ball = Ball::new(Cell { x: 3, y: 3, z: 3 }, 1, side)?;
    let origin = Cell { x: 0, y: 0, z: 0 };
    let whole = Boxed::new(origin, Cell { x: 8, y: 8, z: 8 }, side)?;
    let [x, y, z] = at;
    let corner = Cell { x, y, z };
    let [x, y, z] = size;
    let within = Boxed::new(corner, Cell { x, y, z }, side)?;
    counted_in(alloc, &plan, ball, within, whole)
}

/// Boxes, and how many of the ball's seven cells each has.
const ROWS: &[([u16; 3], [u16; 3], u64)] = &[
    ([0, 0, 0], [8, 8, 8], 7),
    ([3, 0, 0], [5, 8, 8], 6),
    ([0, 0, 0], [3, 8, 8], 1),
    ([3, 3, 0], [1, 1, 8], 3),
    ([3, 3, 3], [1, 1, 1], 1),
    ([4, 4, 3], [4, 4, 1], 0),
];

#[test]
fn a_ball_is_clipped_by_a_box(rt: HostRuntime) {
    for &(at, size, cells) in ROWS {
        assert_eq!(rt;
            counted_of(rt.alloc(), at, size),
            Some(cells),
            "at {at:?} of {size:?}"
        );
    }
}

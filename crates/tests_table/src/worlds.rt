//! A world over a pass: an edit and a question run as over any store.
ghost use Rattle.std.specs.Prelude.{◌≡◌, ◌≤◌, ◌<◌, ◌^◌, None, All};
ghost use Rattle.vw_cell.specs.Places.{FitsAt};
ghost use Rattle.node_words.specs.shapes.Weights.{number_of_trees};
ghost use Rattle.node_words.specs.Held.{SameHeld};
ghost use Rattle.node_table.specs.Closing.{IsSpare};

use crate::calls::{begun_small, end, only_one};
use edit_ops::rebuild_box;
use edit_walk::back_if;
use measure::count;
use node_table::{NodeTable, Pass};
use node_words::{NodeStore, Steps};
use session::Hand;
use std::alloc::Global;
use std::marker::Brand;
use std::sync::Wait;
use std::sync::ledger::{Blank, Ledger};
use vw_cell::{Boxed, Cell, Side};

// Fills a box of an empty world, tells how many cells of another one are set, and gives all back.
fn counted<N: NodeStore, L: Ledger>(
    store: &mut N,
    side: Side,
    filled: Boxed,
    asked: Boxed,
    blank: Blank,
) -> Option<u64>
    requires name { blank.name ≡ L.name }
    requires parts { blank.parts ≡ L.parts }
    requires some { 0 < L.parts }
    requires side { side ≡ (N.seen store.old).plan.side }
    requires filled { FitsAt filled.at filled.size (2 ^ side) }
    requires asked { FitsAt asked.at asked.size (2 ^ side) }
    requires room { number_of_trees (N.seen store.old).held ≤ 3000 }
    ensures held { SameHeld (N.seen store.old).held (N.seen store.new).held }
    ensures rests { N.rests store.old store.new }
{
    let mut steps: Steps<L> = Steps::start(blank);
    match rebuild_box(store, None, side, filled, true, &mut steps) {
        Ok(root) => {
            let number = count(store, root.as_ref(), side, asked);
            back_if(store, root, &mut steps);
            Some(number)
        }
        Err(_full) => None,
    }
}

// The same over a pass, which is given up then.
fn counted_over<R: Wait, L: Ledger>(
    rt: &R,
    table: &NodeTable,
    mut pass: Pass,
    filled: Boxed,
    asked: Boxed,
    blank: Blank,
) -> Option<u64>
    requires name { blank.name ≡ L.name }
    requires parts { blank.parts ≡ L.parts }
    requires some { 0 < L.parts }
    requires spare { IsSpare table.now pass }
    requires filled { FitsAt filled.at filled.size (2 ^ table.now.plan.side) }
    requires asked { FitsAt asked.at asked.size (2 ^ table.now.plan.side) }
{
    let side = table.plan().side();
    let mut hand = Hand::new(rt, table, &mut pass);
    let number = counted::<Hand<R>, L>(&mut hand, side, filled, asked, blank);
    end(pass);
    number
}

// The number of set cells in the part of x below 4, where a box of 60 cells is filled.
fn part_of_a_box<R: Wait, L: Ledger>(
    rt: &R,
    table: &NodeTable,
    passes: Vec<Pass>,
    blank: Blank,
) -> Option<u64>
    requires name { blank.name ≡ L.name }
    requires parts { blank.parts ≡ L.parts }
    requires some { 0 < L.parts }
    requires passes { All (IsSpare table.now) passes.items }
{
    let side = table.plan().side();
    let Some(pass) = only_one(table, passes) else {
        return None;
    };
    let filled = Boxed::new(Cell { x: 1, y: 0, z: 2 }, Cell { x: 5, y: 3, z: 4 }, side);
    let asked = Boxed::new(Cell { x: 0, y: 0, z: 0 }, Cell { x: 4, y: 8, z: 8 }, side);
    match (filled, asked) {
        (Some(filled), Some(asked)) => {
            counted_over::<R, L>(rt, table, pass, filled, asked, blank)
        }
        _ => {
            pass.end();
            None
        }
    }
}

// The same over a new table, with one bucket of 16 slots on each level.
fn part_over_a_pass<R: Wait>(rt: &R, alloc: Global) -> Option<u64> {
    match begun_small(alloc, 16, 1) {
        Some((table, passes)) => part_of_a_box::<R, Brand>(rt, &table, passes, Blank::new(1)),
        None => None,
    }
}

#[test]
fn edits_and_questions_run_over_a_pass(rt: HostRuntime) {
    assert!(rt; part_over_a_pass(&rt, rt.alloc()) == Some(36));
}

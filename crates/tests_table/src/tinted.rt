//! A world with tints over a pass: edits are made and a tint is told as over any store.
ghost use Rattle.std.specs.Prelude.{◌≡◌, ◌≤◌, ◌<◌, ◌/◌, ◌^◌, true, All, IsTrue, IfSome, option_copied};
ghost use Rattle.vw_cell.specs.Places.{IsInWorld};
ghost use Rattle.vox_read.specs.Contents.{AreModels};
ghost use Rattle.node_words.specs.descent.Roots.{HoldsRoot};
ghost use Rattle.node_words.specs.shapes.Weights.{number_of_trees};
ghost use Rattle.node_words.specs.Held.{SameHeld};
ghost use Rattle.history_model.specs.Logs.{TintFits};
ghost use Rattle.node_table.specs.Closing.{IsSpare};

use crate::calls::{begun, end, ended, only_one};
use act_rebuilds::{DrawnModels, draw_models, rebuild_act};
use colour::tint_at;
use edit_walk::back_if;
use history_model::{Act, TintAct};
use node_table::{NodeTable, Pass};
use node_words::{NodeStore, Plan, Share, Steps};
use session::Hand;
use std::alloc::Global;
use std::marker::Brand;
use std::sync::Wait;
use std::sync::ledger::{Blank, Ledger};
use vox_read::{Models, read_models};
use vw_cell::{Boxed, Cell, Side};

const ORIGIN: Cell = Cell { x: 0, y: 0, z: 0 };

const NEXT: Cell = Cell { x: 1, y: 0, z: 0 };

const CORNER: Boxed = Boxed {
    at: ORIGIN,
    size: Cell { x: 1, y: 1, z: 1 },
};

/// A model of 3 by 2 by 2 places: 5 at 0 0 0, 2 and then 255 at 1 0 0, 8 and then 0 at 2 1 1, and
/// 129 at 0 1 0.
const FILE: &[u8] =
    b"VOX \x96\0\0\0MAIN\0\0\0\0\x40\0\0\0SIZE\x0c\0\0\0\0\0\0\0\x03\0\0\0\x02\0\0\0\
\x02\0\0\0XYZI\x1c\0\0\0\0\0\0\0\x06\0\0\0\0\0\0\x05\x01\0\0\x02\x01\0\0\xff\x02\x01\x01\x08\x02\
\x01\x01\0\0\x01\0\x81";

/// Two acts, and a cell whose tint is asked then.
#[derive(Clone, Copy)]
struct Row {
    first: TintAct,
    second: TintAct,
    at: Cell,
}

/// Acts on an empty world of side 8, and the tint.
const ROWS: &[(Row, u8)] = &[
    (
        Row {
            first: TintAct::Fill(CORNER, 5),
            second: TintAct::Fill(CORNER, 2),
            at: ORIGIN,
        },
        2,
    ),
    (
        Row {
            first: TintAct::Fill(CORNER, 5),
            second: TintAct::Stamp(0, ORIGIN),
            at: NEXT,
        },
        255,
    ),
    (
        Row {
            first: TintAct::Fill(CORNER, 9),
            second: TintAct::Stamp(0, NEXT),
            at: ORIGIN,
        },
        9,
    ),
    (
        Row {
            first: TintAct::Stamp(0, ORIGIN),
            second: TintAct::Fill(CORNER, 2),
            at: ORIGIN,
        },
        2,
    ),
];

// Makes an act over a root, tells the tint of a cell then, and gives the new root back.
fn tint_after<N: NodeStore, L: Ledger>(
    store: &mut N,
    old: Option<&Share>,
    side: Side,
    models: &DrawnModels,
    act: TintAct,
    at: Cell,
    steps: &mut Steps<L>,
) -> Option<u8>
    requires side { side ≡ (N.seen store.old).plan.side }
    requires large { 4 ≤ side }
    requires tint { models.now.tint ≡ true }
    requires act { TintFits (2 ^ side / 4) models.now.models act }
    requires at { IsInWorld (2 ^ side / 4) at }
    requires old { HoldsRoot (N.seen store.old).held side (option_copied old) }
    requires room { number_of_trees (N.seen store.old).held ≤ 3001 }
    ensures held { SameHeld (N.seen store.old).held (N.seen store.new).held }
    ensures rests { N.rests store.old store.new }
{
    match rebuild_act(store, old, side, models, Act::Tint(act), steps) {
        Ok(root) => {
            let tint = tint_at(store, root.as_ref(), side, at);
            back_if(store, root, steps);
            Some(tint)
        }
        Err(_full) => None,
    }
}

// Makes two acts of an empty world, tells the tint of a cell then, and gives all back.
fn tint_after_both<N: NodeStore, L: Ledger>(
    store: &mut N,
    side: Side,
    models: &DrawnModels,
    row: Row,
    blank: Blank,
) -> Option<u8>
    requires name { blank.name ≡ L.name }
    requires parts { blank.parts ≡ L.parts }
    requires some { 0 < L.parts }
    requires side { side ≡ (N.seen store.old).plan.side }
    requires large { 4 ≤ side }
    requires tint { models.now.tint ≡ true }
    requires first { TintFits (2 ^ side / 4) models.now.models row.first }
    requires second { TintFits (2 ^ side / 4) models.now.models row.second }
    requires at { IsInWorld (2 ^ side / 4) row.at }
    requires room { number_of_trees (N.seen store.old).held ≤ 3000 }
    ensures held { SameHeld (N.seen store.old).held (N.seen store.new).held }
    ensures rests { N.rests store.old store.new }
{
    let mut steps: Steps<L> = Steps::start(blank);
    match rebuild_act(store, None, side, models, Act::Tint(row.first), &mut steps) {
        Ok(root) => {
            let tint = tint_after(
                store,
                root.as_ref(),
                side,
                models,
                row.second,
                row.at,
                &mut steps,
            );
            back_if(store, root, &mut steps);
            tint
        }
        Err(_full) => None,
    }
}

// The same over a pass, which is given up then.
fn over_a_pass<R: Wait, L: Ledger>(
    rt: &R,
    table: &NodeTable,
    mut pass: Pass,
    models: &DrawnModels,
    row: Row,
    blank: Blank,
) -> Option<u8>
    requires name { blank.name ≡ L.name }
    requires parts { blank.parts ≡ L.parts }
    requires some { 0 < L.parts }
    requires spare { IsSpare table.now pass }
    requires large { 4 ≤ table.now.plan.side }
    requires tint { models.now.tint ≡ true }
    requires first { TintFits (2 ^ table.now.plan.side / 4) models.now.models row.first }
    requires second { TintFits (2 ^ table.now.plan.side / 4) models.now.models row.second }
    requires at { IsInWorld (2 ^ table.now.plan.side / 4) row.at }
{
    let side = table.plan().side();
    let mut hand = Hand::new(rt, table, &mut pass);
    let tint = tint_after_both::<Hand<R>, L>(&mut hand, side, models, row, blank);
    end(pass);
    tint
}

// Whether the act lies in a world of a quarter of the side, has a tint, and its model is there.
fn fits(act: TintAct, side: Side, models: &Models) -> bool
    ensures { IsTrue result → TintFits (2 ^ side / 4) models.now act }
{
    let edit = Act::Tint(act);
    edit.fits(side, models)
}

// Whether the store has a world of tints, and the cell lies in it.
fn has_cell(side: Side, at: Cell) -> bool
    ensures large { IsTrue result → 4 ≤ side }
    ensures at { IsTrue result → IsInWorld (2 ^ side / 4) at }
{
    let n = side.cells() / 4;
    side.exponent() >= 4 && u32::from(at.x) < n && u32::from(at.y) < n && u32::from(at.z) < n
}

// The same with what has to be known first.
fn told<R: Wait, L: Ledger>(
    rt: &R,
    table: &NodeTable,
    passes: Vec<Pass>,
    models: &Models,
    drawn: &DrawnModels,
    row: Row,
    blank: Blank,
) -> Option<u8>
    requires name { blank.name ≡ L.name }
    requires parts { blank.parts ≡ L.parts }
    requires some { 0 < L.parts }
    requires passes { All (IsSpare table.now) passes.items }
    requires tint { drawn.now.tint ≡ true }
    requires drawn { drawn.now.models ≡ models.now }
{
    let side = table.plan().side();
    let fit = has_cell(side, row.at)
        && fits(row.first, side, models)
        && fits(row.second, side, models);
    if !fit {
        let _ended = ended(table, passes);
        return None;
    }
    match only_one(table, passes) {
        Some(pass) => over_a_pass::<R, L>(rt, table, pass, drawn, row, blank),
        None => None,
    }
}

fn small_models(alloc: Global) -> Option<Models>
    ensures { IfSome result AreModels }
{
    match read_models(alloc, FILE) {
        Ok(models) => Some(models),
        Err(_) => None,
    }
}

fn begun_tinted(alloc: Global) -> Option<(NodeTable, Vec<Pass>)>
    ensures { IfSome result (λ r. All (IsSpare r.0) r.1.items) }
{
    let Some(side) = Side::new(32) else {
        return None;
    };
    match Plan::even(side, 4, 16) {
        Some(plan) => begun(alloc, &plan, 1),
        None => None,
    }
}

// The tint of the cell after both acts, over a new table.
fn tint_told<R: Wait>(
    rt: &R,
    alloc: Global,
    models: &Models,
    drawn: &DrawnModels,
    row: Row,
) -> Option<u8>
    requires tint { drawn.now.tint ≡ true }
    requires drawn { drawn.now.models ≡ models.now }
{
    match begun_tinted(alloc) {
        Some((table, passes)) => {
            told::<R, Brand>(rt, &table, passes, models, drawn, row, Blank::new(1))
        }
        None => None,
    }
}

// The same with the models drawn.
fn tint_of_drawn<R: Wait>(rt: &R, alloc: Global, models: &Models, row: Row) -> Option<u8>
    requires { AreModels models.now }
{
    match draw_models(alloc, models, true) {
        Ok(drawn) => tint_told(rt, alloc, models, &drawn, row),
        Err(_) => None,
    }
}

// The tint of the cell after both acts on an empty world of side 8.
fn tint_of<R: Wait>(rt: &R, alloc: Global, row: Row) -> Option<u8> {
    match small_models(alloc) {
        Some(models) => tint_of_drawn(rt, alloc, &models, row),
        None => None,
    }
}

#[test]
fn tinted_acts_run_over_a_pass(rt: HostRuntime) {
    for &(row, tint) in ROWS {
        assert!(rt; tint_of(&rt, rt.alloc(), row) == Some(tint));
    }
}

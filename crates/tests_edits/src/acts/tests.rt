ghost use Rattle.std.specs.Prelude.{◌≡◌, ◌<◌, ◌≤◌, IfOk, IsTrue, true, false};
ghost use Rattle.vox_read.specs.Contents.{AreModels, IsModel};
ghost use Rattle.history_model.specs.Logs.{suits_tints};
ghost use Rattle.history_model.specs.Worlds.{is_edit};

use history_model::Act;
use node_words::{NodeStore, Plan, Share, Steps};
use one_store::OneStore;
use std::alloc::Global;
use std::marker::Brand;
use std::sync::ledger::{Blank, Ledger};
use std::test::Fail;
use store_run::{draw_models, rebuild_act};
use vox_read::{Model, Models, Voxel};
use vw_cell::{Ball, Boxed, Cell, Side};

// Whether it is an edit without a tint.
fn is_plain_edit(act: &Act) -> bool
    ensures { IsTrue result → (is_edit act.now ≡ true) × (suits_tints false act.now ≡ true) }
{
    match act {
        Act::Fill(_) => true,
        Act::Erase(_) => true,
        Act::Ball(_) => true,
        Act::Carve(_) => true,
        Act::Copy(_, _) => true,
        Act::Stamp(_, _) => true,
        Act::Tint(_) => false,
        Act::Undo => false,
        Act::Redo => false,
    }
}

// How many leaves the store has, of which nothing was held, once the act was done to the empty
// world.
fn leaves_in<L: Ledger>(
    alloc: Global,
    store: &mut OneStore,
    side: Side,
    models: &Models,
    act: Act,
    blank: Blank,
) -> Result<u32, Fail>
    requires side { side ≡ store.old.words.plan.side }
    requires models { AreModels models.now }
    requires name { blank.name ≡ L.name }
    requires parts { blank.parts ≡ L.parts }
    requires some { 0 < L.parts }
{
    if store.held() > 0 || !is_plain_edit(&act) || !act.fits(side, models) {
        return Err(Fail::from("an edit that fits"));
    }
    let drawn = draw_models(alloc, models, false)?;
    let mut steps: Steps<L> = Steps::start(blank);
    match rebuild_act(store, None, side, &drawn, act, &mut steps) {
        Ok(root) => {
            let_go(root);
            Ok(store.live(0))
        }
        Err(_) => Err(Fail::from("room")),
    }
}

fn let_go(root: Option<Share>) {
    if let Some(share) = root {
        let _name = share.spend();
    }
}

// How many leaves the world of side 8 has once the act was done to the empty one.
fn leaves_after(alloc: Global, models: &Models, act: Act) -> Result<u32, Fail>
    requires { AreModels models.now }
{
    let side = Side::new(8).ok_or("a side")?;
    let mut store = OneStore::begin(alloc, &Plan::usual(side))?;
    leaves_in::<Brand>(alloc, &mut store, side, models, act, Blank::new(1))
}

// Two models: one cell, and a row of two.
fn two_models(alloc: Global) -> Result<Models, Fail>
    ensures { IfOk result AreModels }
{
    let mut list = Vec::with_capacity(alloc, 2)?;
    list.push(one_cell(alloc)?)?;
    list.push(two_cells(alloc)?)?;
    Ok(Models { list })
}

fn one_cell(alloc: Global) -> Result<Model, Fail>
    ensures { IfOk result IsModel }
{
    let mut voxels = Vec::with_capacity(alloc, 1)?;
    voxels.push(voxel(0))?;
    Ok(Model {
        size: Cell { x: 1, y: 1, z: 1 },
        voxels,
    })
}

fn two_cells(alloc: Global) -> Result<Model, Fail>
    ensures { IfOk result IsModel }
{
    let mut voxels = Vec::with_capacity(alloc, 2)?;
    voxels.push(voxel(0))?;
    voxels.push(voxel(1))?;
    Ok(Model {
        size: Cell { x: 2, y: 1, z: 1 },
        voxels,
    })
}

fn voxel(x: u8) -> Voxel
    ensures { result ≡ record { x = x; y = 0; z = 0; colour = 1 } }
{
    Voxel {
        x,
        y: 0,
        z: 0,
        colour: 1,
    }
}

const ROW: Boxed = Boxed {
    at: Cell { x: 3, y: 0, z: 0 },
    size: Cell { x: 2, y: 1, z: 1 },
};

const BALL: Ball = Ball {
    centre: Cell { x: 1, y: 1, z: 1 },
    radius: 1,
};

/// A row over two leaves, a ball in one, nothing to clear or to copy, and the row as a model.
const ACTS: &[(Act, u32)] = &[
    (Act::Fill(ROW), 2),
    (Act::Erase(ROW), 0),
    (Act::Ball(BALL), 1),
    (Act::Carve(BALL), 0),
    (Act::Copy(ROW, Cell { x: 0, y: 0, z: 0 }), 0),
    (Act::Stamp(1, Cell { x: 3, y: 0, z: 0 }), 2),
];

#[test]
fn each_act_makes_its_nodes(rt: HostRuntime) -> Result<(), Fail> {
    let models = two_models(rt.alloc())?;
    for &(act, want) in ACTS {
        assert_eq!(rt; leaves_after(rt.alloc(), &models, act)?, want);
    }
    Ok(())
}

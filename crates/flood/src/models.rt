ghost use Rattle.std.specs.Prelude.{◌≡◌, ◌⊎◌, ◌≤◌, ◌<◌, ◌*◌, ◌^◌, IfOk, IfErr, IfSome, IsTrue, is_some, Bool, false, option_copied};
ghost use Rattle.vw_cell.specs.Places.{FitsAt, IsInBox};
ghost use Rattle.vw_cell.specs.Sides.{is_side};
ghost use Rattle.vox_read.specs.Contents.{AreModels, IsModel, IsSize, is_cell};
ghost use Rattle.one_store.specs.notes.StoreNotes.{no_notes};
ghost use Rattle.one_store.specs.Known.{known_state};
ghost use Rattle.node_words.specs.descent.Roots.{HoldsRoot, ForWorld};
ghost use Rattle.edit_stamp.specs.Stamps.{stamped};
ghost use Rattle.flood.specs.Regions.{FilesRegion};
ghost use Rattle.flood.specs.Models.{whole_box, has_place, FloodsModel, IsLeastHolding, flood_plan, stamped_alone, RefusesFlood, RefusesStamp};

use crate::files::{RegionFile, region_file};
use edit_stamp::{Stencil, rebuild_stamp};
use node_words::{Full, Plan, Steps};
use one_store::OneStore;
use std::alloc::{AllocError, Global};
use std::marker::Brand;
use std::sync::ledger::{Blank, Ledger};
use vox_read::{Model, Models};
use vw_cell::{Boxed, Cell, Memory, Side};

/// Why the region of a place of a model isn't told.
#[derive(Clone, Copy, Debug, PartialEq, Eq)]
pub enum FloodRefused {
    /// A bucket of the store has no room for one more node.
    StoreFull(Full),
    /// Want of memory.
    Memory,
}

impl From<Memory> for FloodRefused {
    ghost use Rattle.std.specs.Prelude.{◌≡◌};
    ghost use Rattle.flood.specs.declared.models.FloodRefused.TheVariants as refusals;

    ghost from_gives = { λ _ refused. refused ≡ refusals.Memory };

    fn from(_: Memory) -> Self {
        FloodRefused::Memory
    }
}

impl From<AllocError> for FloodRefused {
    ghost use Rattle.std.specs.Prelude.{◌≡◌};
    ghost use Rattle.flood.specs.declared.models.FloodRefused.TheVariants as refusals;

    ghost from_gives = { λ _ refused. refused ≡ refusals.Memory };

    fn from(_: AllocError) -> Self {
        FloodRefused::Memory
    }
}

/// The region of a place among the places of a model that are no cells. The model is stamped at the
/// origin of the least world that holds it, in a store of 4,096 buckets of 256 slots a level.
/// `None` where the list has no such model, or the model no such place.
#[tactic(auto, using(crate::proofs::ModelLaws::floods, crate::proofs::ModelLaws::flood_refused))]
pub fn model_region(
    alloc: Global,
    models: &Models,
    number: u32,
    from: Cell,
) -> Result<Option<RegionFile>, FloodRefused>
    requires models { AreModels models.now }
    ensures place { IfOk result (λ r. is_some r ≡ has_place models.now number from) }
    ensures region { IfOk result (λ r. IfSome r
        (λ f. FloodsModel models.now number from f.cells f.file.items)) }
    ensures refused { IfErr result (RefusesFlood models.now number from) }
{
    let Some(model) = models.list.get(number as usize) else {
        return Ok(None);
    };
    let side = least_side(model.size);
    let b = Boxed {
        at: Cell { x: 0, y: 0, z: 0 },
        size: model.size,
    };
    if !b.has(from) {
        return Ok(None);
    }
    match in_world(alloc, model, side, b, from) {
        Ok(region) => Ok(Some(region)),
        Err(refused) => Err(refused),
    }
}

// The least side of a world that holds a model of this size.
fn least_side(size: Cell) -> Side
    requires { IsSize size }
    ensures { IsLeastHolding size result }
{
    let most = size.x.max(size.y).max(size.z);
    match Side::new(least_cells(most)) {
        Some(side) => side,
        None => unreachable!(),
    }
}

// The least power of two from 4 on that is no less.
fn least_cells(most: u16) -> u32
    requires { (1 ≤ most) × (most ≤ 256) }
    ensures side { IsTrue (is_side result) }
    ensures holds { most ≤ result }
    ensures tight { (result ≡ 4) ⊎ (result < 2 * most) }
    ensures least { 4 ≤ result }
    ensures small { result ≤ 256 }
{
    match most {
        0..=4 => 4,
        5..=8 => 8,
        9..=16 => 16,
        17..=32 => 32,
        33..=64 => 64,
        65..=128 => 128,
        _ => 256,
    }
}

// The region in a world of this side with the model at its origin.
fn in_world(
    alloc: Global,
    model: &Model,
    side: Side,
    b: Boxed,
    from: Cell,
) -> Result<RegionFile, FloodRefused>
    requires model { IsModel model.now }
    requires low { 2 ≤ side }
    requires b { b ≡ whole_box model.now.size }
    requires inside { FitsAt b.at b.size (2 ^ side) }
    requires from { IsInBox b from }
    ensures region { IfOk result
        (λ r. FilesRegion b from r.cells r.file.items (is_cell model.now.voxels)) }
    ensures refused { IfErr result (RefusesStamp (flood_plan side) (stamped_alone model.now)) }
{
    let Some(plan) = Plan::even(side, 4096, 256) else {
        unreachable!()
    };
    let stencil = Stencil::new(alloc, model)?;
    let mut store = OneStore::begin(alloc, &plan)?;
    in_store::<Brand>(alloc, &mut store, &stencil, side, b, from, Blank::new(1))
}

// The region in a new store's world with the model at the box's corner.
fn in_store<L: Ledger>(
    alloc: Global,
    store: &mut OneStore,
    stencil: &Stencil,
    side: Side,
    b: Boxed,
    from: Cell,
    blank: Blank,
) -> Result<RegionFile, FloodRefused>
    requires name { blank.name ≡ L.name }
    requires parts { blank.parts ≡ L.parts }
    requires some { 0 < L.parts }
    requires low { 2 ≤ side }
    requires plan { store.old.words.plan ≡ flood_plan side }
    requires told { store.old.told ≡ no_notes }
    requires size { b.size ≡ stencil.now.size }
    requires inside { FitsAt b.at b.size (2 ^ side) }
    requires small { (b.size.x ≤ 256) × (b.size.y ≤ 256) × (b.size.z ≤ 256) }
    requires from { IsInBox b from }
    ensures region { IfOk result (λ r. FilesRegion b from r.cells r.file.items
        (stamped stencil.now b.at (λ _. false))) }
    ensures refused { IfErr result
        (RefusesStamp (flood_plan side) (stamped stencil.now b.at (λ _. false))) }
{
    let mut steps: Steps<L> = Steps::start(blank);
    let root = match rebuild_stamp(store, None, side, stencil, b.at, &mut steps) {
        Ok(root) => root,
        Err(full) => {
            store.full_buckets_had_enough();
            return Err(FloodRefused::StoreFull(full));
        }
    };
    let region = region_file(alloc, store, root.as_ref(), side, b, from);
    if let Some(share) = root {
        let _name = share.spend();
    }
    match region {
        Ok(region) => Ok(region),
        Err(_) => Err(FloodRefused::Memory),
    }
}

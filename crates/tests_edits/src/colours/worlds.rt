ghost use Rattle.std.specs.Prelude.{◌≡◌, ◌<◌, ◌≤◌, ◌-◌, ◌^◌, All, IsTrue, IfOk, OnErr, option_copied};
ghost use Rattle.testkit.specs.worlds.Roots.{HoldsOnly, HoldsTwo};
ghost use Rattle.vw_cell.specs.Places.{FitsAt, IsInWorld};
ghost use Rattle.vox_read.specs.Contents.{IsInsideModel};
ghost use Rattle.history_model.specs.Tints.{IsTint};
ghost use Rattle.colour.specs.Inks.{FitsInk};

use crate::colours::asking::{Asked, Told, answer, list_tints, some_tints};
use colour::{TintStencil, rebuild_tint};
use edit_walk::back_if;
use history_model::TintAct;
use node_words::{NodeStore, Plan, Share, Steps};
use one_store::OneStore;
use std::alloc::Global;
use std::marker::Brand;
use std::sync::ledger::{Blank, Ledger};
use std::test::Fail;
use testkit::Refusal;
use vox_read::Voxel;
use vw_cell::{Ball, Boxed, Side};

/// A world of tints in a store for one thread. Its root stands in place 0, so no share is held
/// between calls.
#[derive(Drop)]
pub struct TintWorld {
    store: OneStore,
    side: Side,
    plane: Side,
    ghost plan: { side ≡ store.words.plan.side },
    ghost large: { 4 ≤ side },
    ghost quarter: { plane ≡ side - 2 },
}

impl TintWorld {
    /// A world of this side without a set cell, in a store of this many buckets and slots.
    pub fn empty(alloc: Global, side: u32, buckets: u16, cap: u16) -> Result<TintWorld, Fail> {
        let plane = Side::new(side).ok_or("a side")?;
        let whole = Side::new(side.saturating_mul(4)).ok_or("a side of a store")?;
        let plan = Plan::even(whole, buckets, cap).ok_or("a plan")?;
        let side = plan.side();
        if plane.exponent() + 2 != side.exponent() {
            return Err(Fail::from("a quarter of the side"));
        }
        Ok(TintWorld {
            store: OneStore::begin(alloc, &plan)?,
            side,
            plane,
        })
    }

    /// How many shares are held.
    pub fn held(&self) -> u32 {
        self.store.held()
    }

    /// How many nodes of each of the first four levels are live.
    pub fn lives(&self) -> [u32; 4] {
        lives(&self.store, self.side)
    }

    /// Does the act to the world, or leaves it as it is. Told is how many nodes of each of the
    /// first four levels are live while the world before stands too.
    pub fn edit(
        &mut self,
        act: &TintAct,
        stencil: Option<&TintStencil>,
    ) -> Result<[u32; 4], Refusal> {
        edit::<Brand>(
            &mut self.store,
            self.side,
            self.plane,
            act,
            stencil,
            Blank::new(1),
        )
    }

    /// The answer to the question, where it fits the world.
    pub fn ask(&mut self, asked: &Asked) -> Option<Told> {
        ask(&mut self.store, self.side, self.plane, asked)
    }

    /// Appends the voxels of the box, where it fits the world and there is memory.
    pub fn voxels(&mut self, b: Boxed, into: &mut Vec<Voxel>) -> bool {
        voxels(&mut self.store, self.side, self.plane, b, into)
    }

    /// The tints of some cells of the box, where it fits the world and there is memory.
    pub fn tints(&mut self, alloc: Global, b: Boxed, cells: &[Voxel]) -> Option<Vec<u8>>
        requires { All (IsInsideModel b.size) cells.now }
    {
        tints(alloc, &mut self.store, self.side, self.plane, b, cells)
    }
}

// Whether the act lies in a world of this side, its tint is one, and there is a stencil just for a
// stamp.
fn fits(act: &TintAct, plane: Side, stencil: Option<&TintStencil>) -> bool
    ensures { IsTrue result → FitsInk (2 ^ plane) act.now (option_copied stencil.entry) }
{
    match (*act, stencil) {
        (TintAct::Fill(b, c), None) => fits_box(b, c, plane),
        (TintAct::Erase(b), None) => Boxed::new(b.at, b.size, plane).is_some(),
        (TintAct::Ball(ball, c), None) => fits_ball(ball, c, plane),
        (TintAct::Carve(ball), None) => Ball::new(ball.centre, ball.radius, plane).is_some(),
        (TintAct::Copy(b, to), None) => {
            Boxed::new(b.at, b.size, plane).is_some() && Boxed::new(to, b.size, plane).is_some()
        }
        (TintAct::Stamp(_, at), Some(drawn)) => Boxed::new(at, drawn.size(), plane).is_some(),
        _ => false,
    }
}

fn fits_box(b: Boxed, c: u8, plane: Side) -> bool
    ensures { IsTrue result → FitsAt b.at b.size (2 ^ plane) × IsTint c }
{
    if c == 0 {
        return false;
    }
    Boxed::new(b.at, b.size, plane).is_some()
}

fn fits_ball(ball: Ball, c: u8, plane: Side) -> bool
    ensures { IsTrue result
        → IsInWorld (2 ^ plane) ball.centre × (ball.radius ≤ 4095) × IsTint c }
{
    if c == 0 {
        return false;
    }
    Ball::new(ball.centre, ball.radius, plane).is_some()
}

// The root that an act makes, beside the old one.
fn version<N: NodeStore, L: Ledger>(
    store: &mut N,
    old: Option<&Share>,
    side: Side,
    act: &TintAct,
    stencil: Option<&TintStencil>,
    steps: &mut Steps<L>,
) -> Result<Option<Share>, Refusal>
    requires side { side ≡ (N.seen store.old).plan.side }
    requires large { 4 ≤ side }
    requires fits { FitsInk (2 ^ (side - 2)) act.now (option_copied stencil) }
    requires only { HoldsOnly (N.seen store.old).held (side - 2) (option_copied old) }
    ensures ok { IfOk result
        (λ r. HoldsTwo (N.seen store.new).held (side - 2) (option_copied old.entry) r) }
    ensures refused { OnErr result
        (HoldsOnly (N.seen store.new).held (side - 2) (option_copied old.entry)) }
    ensures plan { (N.seen store.new).plan ≡ (N.seen store.old).plan }
    ensures rests { N.rests store.old store.new }
{
    match rebuild_tint(store, old, side, act, stencil, steps) {
        Ok(share) => Ok(share),
        Err(full) => Err(Refusal::Full(full)),
    }
}

fn edit<L: Ledger>(
    store: &mut OneStore,
    side: Side,
    plane: Side,
    act: &TintAct,
    stencil: Option<&TintStencil>,
    blank: Blank,
) -> Result<[u32; 4], Refusal>
    requires name { blank.name ≡ L.name }
    requires parts { blank.parts ≡ L.parts }
    requires some { 0 < L.parts }
    requires side { side ≡ store.old.words.plan.side }
    requires large { 4 ≤ side }
    requires plane { plane ≡ side - 2 }
    ensures { store.new.words.plan ≡ store.old.words.plan }
{
    let mut steps: Steps<L> = Steps::start(blank);
    if store.held() > 0 {
        return Err(Refusal::Unfit);
    }
    if !fits(act, plane, stencil) {
        return Err(Refusal::Unfit);
    }
    let old = store.take_root(0);
    match version(store, old.as_ref(), side, act, stencil, &mut steps) {
        Ok(new) => {
            let lives = lives(store, side);
            back_if(store, old, &mut steps);
            store.keep_root(0, new);
            Ok(lives)
        }
        Err(refusal) => {
            store.keep_root(0, old);
            Err(refusal)
        }
    }
}

// How many nodes of each of the first four levels are live.
fn lives(store: &OneStore, side: Side) -> [u32; 4]
    requires { side ≡ store.now.words.plan.side }
{
    let mut lives = [0; 4];
    for level in 0..4u8 {
        if level <= side.root_level() {
            lives[usize::from(level)] = store.live(level);
        }
    }
    lives
}

fn ask(store: &mut OneStore, side: Side, plane: Side, asked: &Asked) -> Option<Told>
    requires side { side ≡ store.old.words.plan.side }
    requires large { 4 ≤ side }
    requires plane { plane ≡ side - 2 }
    ensures { store.new.words.plan ≡ store.old.words.plan }
{
    if store.held() > 0 {
        return None;
    }
    let root = store.take_root(0);
    let told = answer(store, root.as_ref(), side, plane, asked);
    store.keep_root(0, root);
    told
}

fn voxels(store: &mut OneStore, side: Side, plane: Side, b: Boxed, into: &mut Vec<Voxel>) -> bool
    requires side { side ≡ store.old.words.plan.side }
    requires large { 4 ≤ side }
    requires plane { plane ≡ side - 2 }
    ensures { store.new.words.plan ≡ store.old.words.plan }
{
    if store.held() > 0 {
        return false;
    }
    let root = store.take_root(0);
    let listed = list_tints(store, root.as_ref(), side, plane, b, into);
    store.keep_root(0, root);
    listed
}

fn tints(
    alloc: Global,
    store: &mut OneStore,
    side: Side,
    plane: Side,
    b: Boxed,
    cells: &[Voxel],
) -> Option<Vec<u8>>
    requires side { side ≡ store.old.words.plan.side }
    requires large { 4 ≤ side }
    requires plane { plane ≡ side - 2 }
    requires cells { All (IsInsideModel b.size) cells.now }
    ensures { store.new.words.plan ≡ store.old.words.plan }
{
    if store.held() > 0 {
        return None;
    }
    let root = store.take_root(0);
    let told = some_tints(alloc, store, root.as_ref(), side, plane, b, cells);
    store.keep_root(0, root);
    told
}

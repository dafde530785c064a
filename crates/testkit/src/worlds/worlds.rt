ghost use Rattle.std.specs.Prelude.{◌≡◌, ◌<◌, ◌≤◌};

use crate::worlds::asking::{Found, answer, list_cells, list_surface};
use crate::worlds::edits::{Refusal, version};
use edit_stamp::Stencil;
use edit_walk::back_if;
use history_model::{Act, Question};
use measure::changes;
use node_words::{NodeStore, Plan, Steps};
use one_store::OneStore;
use std::alloc::{AllocError, Global};
use std::marker::Brand;
use std::sync::ledger::{Blank, Ledger};
use vox_read::Voxel;
use vw_cell::{Boxed, Cell, Side};

/// A world in a store for one thread. Its root stands in place 0, so no share is held between
/// calls.
#[derive(Drop)]
pub struct StoredWorld {
    store: OneStore,
    side: Side,
    ghost plan: { side ≡ store.words.plan.side },
}

impl StoredWorld {
    /// A world without a set cell.
    pub fn empty(alloc: Global, plan: &Plan) -> Result<StoredWorld, AllocError> {
        let side = plan.side();
        Ok(StoredWorld {
            store: OneStore::begin(alloc, plan)?,
            side,
        })
    }

    /// The side of the world.
    pub fn side(&self) -> Side {
        self.side
    }

    /// How many shares are held.
    pub fn held(&self) -> u32 {
        self.store.held()
    }

    /// How many nodes of this level are live.
    pub fn live(&self, level: u8) -> u32 {
        if level <= self.side.root_level() {
            self.store.live(level)
        } else {
            0
        }
    }

    /// Does the act to the world, or leaves it as it is. A stamp is one of the stencil, whatever
    /// its number.
    pub fn edit(&mut self, act: &Act, stencil: &Stencil) -> Result<(), Refusal> {
        match self.changed_by(act, stencil) {
            Ok(_) => Ok(()),
            Err(refusal) => Err(refusal),
        }
    }

    /// The same, and the least box of all cells that the act changed.
    pub fn changed_by(&mut self, act: &Act, stencil: &Stencil) -> Result<Option<Boxed>, Refusal> {
        edit::<Brand>(
            &mut self.store,
            self.side,
            act,
            stencil,
            true,
            Blank::new(1),
        )
    }

    /// Clears the cells of the stencil, whose least corner is at this place, or leaves the world as
    /// it is.
    pub fn unstamp(&mut self, stencil: &Stencil, at: Cell) -> Result<(), Refusal> {
        let act = Act::Stamp(0, at);
        match edit::<Brand>(
            &mut self.store,
            self.side,
            &act,
            stencil,
            false,
            Blank::new(1),
        ) {
            Ok(_) => Ok(()),
            Err(refusal) => Err(refusal),
        }
    }

    /// The answer to the question, where it fits the world.
    pub fn ask(&mut self, question: &Question) -> Option<Found> {
        ask(&mut self.store, self.side, question)
    }

    /// Appends the set cells of the box, where it fits the world and there is memory.
    pub fn cells(&mut self, b: Boxed, into: &mut Vec<Voxel>) -> bool {
        cells(&mut self.store, self.side, b, into)
    }

    /// Appends the cells of the box that can be seen, where it fits the world and there is memory.
    pub fn surface(&mut self, b: Boxed, into: &mut Vec<Voxel>) -> bool {
        surface(&mut self.store, self.side, b, into)
    }
}

fn edit<L: Ledger>(
    store: &mut OneStore,
    side: Side,
    act: &Act,
    stencil: &Stencil,
    set: bool,
    blank: Blank,
) -> Result<Option<Boxed>, Refusal>
    requires name { blank.name ≡ L.name }
    requires parts { blank.parts ≡ L.parts }
    requires some { 0 < L.parts }
    requires side { side ≡ store.old.words.plan.side }
    ensures { store.new.words.plan ≡ store.old.words.plan }
{
    let mut steps: Steps<L> = Steps::start(blank);
    if store.held() > 0 {
        return Err(Refusal::Unfit);
    }
    let old = store.take_root(0);
    match version(store, old.as_ref(), side, stencil, set, act, &mut steps) {
        Ok(new) => {
            let changed = changes(store, old.as_ref(), new.as_ref(), side);
            back_if(store, old, &mut steps);
            store.keep_root(0, new);
            Ok(changed)
        }
        Err(refusal) => {
            store.keep_root(0, old);
            Err(refusal)
        }
    }
}

fn ask(store: &mut OneStore, side: Side, question: &Question) -> Option<Found>
    requires { side ≡ store.old.words.plan.side }
    ensures { store.new.words.plan ≡ store.old.words.plan }
{
    if store.held() > 0 {
        return None;
    }
    let root = store.take_root(0);
    let found = answer(store, root.as_ref(), side, question);
    store.keep_root(0, root);
    found
}

fn cells(store: &mut OneStore, side: Side, b: Boxed, into: &mut Vec<Voxel>) -> bool
    requires { side ≡ store.old.words.plan.side }
    ensures { store.new.words.plan ≡ store.old.words.plan }
{
    if store.held() > 0 {
        return false;
    }
    let root = store.take_root(0);
    let listed = list_cells(store, root.as_ref(), side, b, into);
    store.keep_root(0, root);
    listed
}

fn surface(store: &mut OneStore, side: Side, b: Boxed, into: &mut Vec<Voxel>) -> bool
    requires { side ≡ store.old.words.plan.side }
    ensures { store.new.words.plan ≡ store.old.words.plan }
{
    if store.held() > 0 {
        return false;
    }
    let root = store.take_root(0);
    let listed = list_surface(store, root.as_ref(), side, b, into);
    store.keep_root(0, root);
    listed
}

ghost use Rattle.std.specs.Prelude.{◌≡◌, ◌+◌, ◌<◌, ◌≤◌, ◌^◌};
ghost use Rattle.vw_cell.specs.Places.{FitsAt};

use edit_ops::rebuild_box;
use node_words::{Blocks, Full, Name, NodeRefused, NodeStore, Plan, Share, Steps};
use one_store::OneStore;
use std::alloc::Global;
use std::marker::Brand;
use std::sync::ledger::{Blank, Ledger};
use vw_cell::{Boxed, Cell, Side};

/// A store for one thread that counts its turns as it goes, since a ledger of steps leaves no
/// number behind.
#[derive(Drop)]
pub struct TurnStore {
    store: OneStore,
    turns: u32,
}

impl TurnStore {
    // How many nodes of the level are live. What the store tells of it none needs here.
    fn live_at(&self, level: u8) -> u32
        requires { level + 2 ≤ self.now.store.words.plan.side }
    {
        self.store.live(level)
    }

    // How many nodes of the levels up to this one are live.
    fn live(&self, top: u8) -> u32
        requires { top + 2 ≤ self.now.store.words.plan.side }
    {
        let mut live: u32 = 0;
        for level in 0..=top {
            live = live.saturating_add(self.live_at(level));
        }
        live
    }
}

impl Blocks for TurnStore {
    ghost use Rattle.one_store.specs.Known.{known_state};
    ghost use Rattle.one_store.specs.Steps.{SparesRoots, spares_itself, spares_on};

    ghost seen = { λ s. known_state s.store };

    ghost rests = { λ a b. SparesRoots a.store b.store };

    fn bits_at(&mut self, n: Name) -> u64 {
        self.store.bits_at(n)
    }

    fn child_at(&mut self, n: Name, octant: u8) -> Option<Name> {
        self.store.child_at(n, octant)
    }

    fn children_at(&mut self, n: Name) -> [Option<Name>; 8] {
        self.store.children_at(n)
    }

    fn leaves_at(&mut self, n: Name) -> [u64; 8] {
        self.store.leaves_at(n)
    }

    ghost rests_itself = { λ a. spares_itself a.store };

    ghost rests_on = { λ a b c f g. spares_on a.store b.store c.store f g };
}

impl NodeStore for TurnStore {
    fn held(&self) -> u32 {
        self.store.held()
    }

    fn leaf<L: Ledger>(&mut self, bits: u64, steps: &mut Steps<L>) -> Result<Share, Full> {
        self.turns = self.turns.saturating_add(1);
        self.store.leaf(bits, steps)
    }

    // One turn, and one for each child where the node was there before.
    fn node<L: Ledger>(
        &mut self,
        level: u8,
        children: [Option<Share>; 8],
        steps: &mut Steps<L>,
    ) -> Result<Share, NodeRefused> {
        let number = number_of(&children);
        let before = self.live_at(level);
        match self.store.node(level, children, steps) {
            Ok(share) => {
                let was_there = self.live_at(level) == before;
                let turns = if was_there { 1 + number } else { 1 };
                self.turns = self.turns.saturating_add(turns);
                Ok(share)
            }
            Err(refused) => Err(refused),
        }
    }

    fn more<L: Ledger>(&mut self, share: &Share, steps: &mut Steps<L>) -> Share {
        self.turns = self.turns.saturating_add(1);
        self.store.more(share, steps)
    }

    fn keep_at<L: Ledger>(&mut self, n: Name, steps: &mut Steps<L>) -> Share {
        self.turns = self.turns.saturating_add(1);
        self.store.keep_at(n, steps)
    }

    // One turn, and at most eight for each node that goes with the share.
    fn back<L: Ledger>(&mut self, share: Share, steps: &mut Steps<L>) {
        let _held = self.store.held();
        let level = share.name().level;
        let before = self.live(level);
        self.store.back(share, steps);
        let gone = before.saturating_sub(self.live(level));
        self.turns = self
            .turns
            .saturating_add(gone.saturating_mul(8).saturating_add(1));
    }
}

fn number_of(children: &[Option<Share>; 8]) -> u32
    ensures { result ≤ 8 }
{
    let mut number: u32 = 0;
    for k in 0..8usize {
        number = number.saturating_add(u32::from(children[k].is_some()));
    }
    number.min(8)
}

fn spend(root: Option<Share>) {
    match root {
        Some(share) => {
            let _name = share.spend();
        }
        None => {}
    }
}

// Whether the box could be filled, in an empty world.
fn fills<L: Ledger>(store: &mut TurnStore, side: Side, b: Boxed, blank: Blank) -> bool
    requires name { blank.name ≡ L.name }
    requires parts { blank.parts ≡ L.parts }
    requires some { 0 < L.parts }
    requires side { side ≡ store.old.store.words.plan.side }
    requires inside { FitsAt b.at b.size (2 ^ side) }
{
    if store.held() > 0 {
        return false;
    }
    let mut steps: Steps<L> = Steps::start(blank);
    match rebuild_box(store, None, side, b, true, &mut steps) {
        Ok(root) => {
            spend(root);
            true
        }
        Err(_) => false,
    }
}

// The turns of filling the box in an empty world of this plan.
fn turns_over(alloc: Global, plan: &Plan, b: Boxed) -> Option<u32>
    requires { FitsAt b.at b.size (2 ^ plan.now.side) }
{
    let side = plan.side();
    match OneStore::begin(alloc, plan) {
        Ok(store) => {
            let mut store = TurnStore { store, turns: 0 };
            if fills::<Brand>(&mut store, side, b, Blank::new(1)) {
                Some(store.turns)
            } else {
                None
            }
        }
        Err(_) => None,
    }
}

fn cell(place: [u16; 3]) -> Cell {
    let [x, y, z] = place;
    Cell { x, y, z }
}

// The turns of filling the box in an empty world of side 4,096.
fn turns_of(alloc: Global, at: [u16; 3], size: [u16; 3]) -> Option<u32> {
    let side = Side::new(4096)?;
    let plan = Plan::even(side, 4, 64)?;
    match Boxed::new(cell(at), cell(size), side) {
        Some(b) => turns_over(alloc, &plan, b),
        None => None,
    }
}

// How many blocks of so many cells a side meet a stretch, and how many lie in it.
fn stretch_blocks(at: u16, size: u16, side: u32) -> (u64, u64) {
    let from = u32::from(at);
    let end = from.saturating_add(u32::from(size));
    let side = side.max(1);
    let met = end.div_ceil(side).saturating_sub(from / side);
    let inside = (end / side).saturating_sub(from.div_ceil(side));
    (u64::from(met), u64::from(inside))
}

// How many blocks of so many cells a side meet the box without lying in it.
fn partly(at: [u16; 3], size: [u16; 3], side: u32) -> u64 {
    let (x, in_x) = stretch_blocks(at[0], size[0], side);
    let (y, in_y) = stretch_blocks(at[1], size[1], side);
    let (z, in_z) = stretch_blocks(at[2], size[2], side);
    let met = x.saturating_mul(y).saturating_mul(z);
    met.saturating_sub(in_x.saturating_mul(in_y).saturating_mul(in_z))
}

// 25 turns for each of the eleven levels, and 25 for each such block of them.
fn allowed(at: [u16; 3], size: [u16; 3]) -> u64 {
    let mut blocks: u64 = 11;
    let mut side: u32 = 4;
    for _ in 0..11u32 {
        blocks = blocks.saturating_add(partly(at, size, side));
        side = side.saturating_mul(2);
    }
    blocks.saturating_mul(25)
}

// The lesser of the two bounds.
fn most_turns(at: [u16; 3], size: [u16; 3]) -> u64 {
    allowed(at, size).min(ALIKE)
}

/// At most so many turns where nearly all blocks are like one that was made before.
const ALIKE: u64 = 4999;

/// Boxes of a world of side 4,096, and how many turns each may take: 25 a level for the whole
/// world, and twice that for one cell.
const LARGE: &[([u16; 3], [u16; 3], u64)] = &[
    ([0, 0, 0], [4096, 4096, 4096], 275),
    ([1, 1, 1], [4095, 4095, 4095], ALIKE),
    ([0, 0, 0], [4095, 4095, 4095], ALIKE),
    ([1, 1, 1], [4094, 4094, 4094], ALIKE),
    ([1, 3, 5], [4094, 4001, 4000], ALIKE),
    ([5, 0, 77], [1, 4095, 3001], ALIKE),
    ([1, 2, 3], [1, 1, 1], 550),
];

#[test]
fn large_fills_take_few_turns(rt: HostRuntime) {
    for &(at, size, most) in LARGE {
        assert_eq!(rt; most_turns(at, size), most, "at {at:?} of {size:?}");
        let turns = turns_of(rt.alloc(), at, size);
        let few = match turns {
            Some(turns) => u64::from(turns) <= most,
            None => false,
        };
        assert!(rt; few, "{turns:?} turns at {at:?} of {size:?}");
    }
}

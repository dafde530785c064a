//! Reading below a share, by code that knows the traits of a store alone.
ghost use Rattle.std.specs.Prelude.{◌≡◌, ◌≢◌, ◌<◌, ◌≤◌, IfOk, OnOk};
ghost use Rattle.node_words.specs.shapes.Tree.{bits_in};
ghost use Rattle.node_words.specs.shapes.Weights.{number_of_trees};
ghost use Rattle.node_words.specs.Held.{HoldsName, ForHeld, SameHeld};
ghost use Rattle.one_store.specs.Known.{known_state};

use node_words::{Full, NodeStore, Plan, Share, Steps, Under, has_cell};
use one_store::OneStore;
use std::marker::Brand;
use std::sync::ledger::{Blank, Ledger};
use std::test::Fail;
use vw_cell::{Block, Cell, Side};

// The bits of a leaf that was made, read under its share; all shares are given back.
fn made_and_read<N: NodeStore, L: Ledger>(
    store: &mut N,
    bits: u64,
    steps: &mut Steps<L>,
) -> Result<u64, Full>
    requires bits { bits ≢ 0 }
    requires room { number_of_trees (N.seen store.old).held ≤ 4000 }
    ensures held { OnOk result (SameHeld (N.seen store.old).held (N.seen store.new).held) }
    ensures bits { IfOk result (λ read. read ≡ bits) }
{
    let share = store.leaf(bits, steps)?;
    let read = read_under(store, &share);
    store.back(share, steps);
    Ok(read)
}

fn read_under<N: NodeStore>(store: &mut N, share: &Share) -> u64
    requires held { HoldsName (N.seen store.old).held share.now }
    requires level { share.now.level ≡ 0 }
    ensures bits { ForHeld (N.seen store.old).held share.now (λ t. result ≡ bits_in t) }
    ensures seen { N.seen store.new ≡ N.seen store.old }
{
    let mut under = Under::of(store, share);
    under.bits()
}

// Whether the cell at (x, 0, 0) of a leaf with the cell (2, 0, 0) alone is set, asked on the way
// down.
fn made_and_asked<N: NodeStore, L: Ledger>(
    store: &mut N,
    x: u16,
    steps: &mut Steps<L>,
) -> Result<bool, Full>
    requires cell { x < 4 }
    requires room { number_of_trees (N.seen store.old).held ≤ 4000 }
    ensures held { OnOk result (SameHeld (N.seen store.old).held (N.seen store.new).held) }
{
    let share = store.leaf(4, steps)?;
    let at = Cell { x: 0, y: 0, z: 0 };
    let asked = Cell { x, y: 0, z: 0 };
    let set = has_cell(store, &share, Block { level: 0, at }, asked);
    store.back(share, steps);
    Ok(set)
}

fn ask_cell<L: Ledger>(store: &mut OneStore, x: u16, blank: Blank) -> Result<bool, Full>
    requires name { blank.name ≡ L.name }
    requires parts { blank.parts ≡ L.parts }
    requires some { 0 < L.parts }
    requires cell { x < 4 }
    requires room { number_of_trees (known_state store.old).held ≤ 4000 }
    ensures held { OnOk result
        (SameHeld (known_state store.old).held (known_state store.new).held) }
{
    let mut steps: Steps<L> = Steps::start(blank);
    made_and_asked(store, x, &mut steps)
}

#[test]
fn cells_are_found_on_the_way_down(rt: HostRuntime) -> Result<(), Fail> {
    let side = Side::new(16).ok_or("a side")?;
    let plan = Plan::even(side, 1, 2).ok_or("a plan")?;
    let mut store = OneStore::begin(rt.alloc(), &plan)?;
    for (x, want) in [(2u16, true), (1, false)] {
        if store.held() == 0 {
            let set = ask_cell::<Brand>(&mut store, x, Blank::new(1));
            assert!(rt; set == Ok(want), "at {x}");
        }
    }
    assert_eq!(rt; store.held(), 0);
    Ok(())
}

fn read_back<L: Ledger>(store: &mut OneStore, bits: u64, blank: Blank) -> Result<u64, Full>
    requires name { blank.name ≡ L.name }
    requires parts { blank.parts ≡ L.parts }
    requires some { 0 < L.parts }
    requires bits { bits ≢ 0 }
    requires room { number_of_trees (known_state store.old).held ≤ 4000 }
    ensures held { OnOk result
        (SameHeld (known_state store.old).held (known_state store.new).held) }
    ensures bits { IfOk result (λ read. read ≡ bits) }
{
    let mut steps: Steps<L> = Steps::start(blank);
    made_and_read(store, bits, &mut steps)
}

#[test]
fn leaves_are_read_back(rt: HostRuntime) -> Result<(), Fail> {
    let side = Side::new(16).ok_or("a side")?;
    let plan = Plan::even(side, 1, 2).ok_or("a plan")?;
    let mut store = OneStore::begin(rt.alloc(), &plan)?;
    for bits in [5u64, 1 << 63, 5] {
        if bits != 0 && store.held() == 0 {
            let read = read_back::<Brand>(&mut store, bits, Blank::new(1));
            assert!(rt; read == Ok(bits), "at {bits}");
        }
    }
    assert_eq!(rt; store.live(0), 0);
    Ok(())
}

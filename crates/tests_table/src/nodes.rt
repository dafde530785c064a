//! What a node over a leaf tells of its octants, and four threads that make and give back nodes over
//! the same few leaves.
ghost use Rattle.std.specs.Prelude.{◌≡◌, ◌≢◌, ◌≤◌, ◌<◌, ◌+◌, ℕ, Some, None, All};
ghost use Rattle.node_words.specs.shapes.Tree.{Tree, root_of};
ghost use Rattle.node_words.specs.shapes.Weights.{number_of_trees};
ghost use Rattle.node_words.specs.declared.shapes.names.Name.{Name};
ghost use Rattle.node_words.specs.Gathering.{MayHold};
ghost use Rattle.node_words.specs.Held.{ForHeld, Gains, HoldsName, SameHeld, name_in};
ghost use Rattle.node_table.specs.Closing.{IsSpare};
ghost use Rattle.node_table.specs.TableStates.{BelongsTo};

use crate::calls::{begun_small, ended, only_one};
use crate::closes::closes_blank;
use node_table::{NodeTable, Pass};
use node_words::{Name, NodeRefused, Share, Steps, end_all, take_at};
use std::alloc::Global;
use std::marker::Brand;
use std::sync::Wait;
use std::sync::ledger::{Blank, Ledger};
use std::thread;
use std::thread::Threads;

// Gives back the first of a row without others.
fn back_first<R: Wait, L: Ledger>(
    rt: &R,
    table: &NodeTable,
    pass: &mut Pass,
    children: [Option<Share>; 8],
    steps: &mut Steps<L>,
)
    requires of { BelongsTo table.now pass.old }
    requires idle { pass.old.view.turn ≡ None }
    requires held { (n : Name) → name_in children 0 ≡ Some n → HoldsName pass.old.view.held n }
    requires others { (k : ℕ) → 0 < k → k < 8 → name_in children k ≡ None }
    requires room { number_of_trees pass.old.view.held ≤ 4000 }
    ensures of { BelongsTo table.now pass.new }
    ensures idle { pass.new.view.turn ≡ None }
    ensures log { pass.new.view.log ≡ pass.old.view.log }
    ensures gone { (t : Tree) (n : Name) → name_in children 0 ≡ Some n → root_of t ≡ Some n
        → MayHold pass.old.view.held t → Gains pass.new.view.held t pass.old.view.held }
{
    let mut rest = children;
    let first = take_at(&mut rest, 0);
    end_all(rest);
    match first {
        Some(share) => release::back(rt, table, pass, share, steps),
        None => {}
    }
}

/// What a node tells of its octants: of all at once, and of the first two one by one; and the bits
/// of the leaf in the first one, asked of it alone.
#[derive(Clone, Copy, Debug, PartialEq, Eq)]
struct Octants {
    names: [Option<Name>; 8],
    bits: [u64; 8],
    first: Option<Name>,
    second: Option<Name>,
    leaf: u64,
}

// The bits of the leaf in the first octant, 0 where that is clear.
fn first_bits(table: &NodeTable, pass: &mut Pass, n: Name) -> u64
    requires of { BelongsTo table.now pass.old }
    requires held { HoldsName pass.old.view.held n }
    requires level { n.level ≡ 1 }
    ensures { pass.new ≡ pass.old }
{
    pass.tell();
    match table.child_at(pass, n, 0) {
        Some(leaf) => table.bits_at(pass, leaf),
        None => 0,
    }
}

fn octants_told(table: &NodeTable, pass: &mut Pass, n: Name) -> Octants
    requires of { BelongsTo table.now pass.old }
    requires held { HoldsName pass.old.view.held n }
    requires level { n.level ≡ 1 }
    ensures { pass.new ≡ pass.old }
{
    let names = table.children_at(pass, n);
    let bits = table.leaves_at(pass, n);
    let first = table.child_at(pass, n, 0);
    let second = table.child_at(pass, n, 1);
    let leaf = first_bits(table, pass, n);
    Octants {
        names,
        bits,
        first,
        second,
        leaf,
    }
}

// What the node tells before it goes back.
fn told_and_back<R: Wait, L: Ledger>(
    rt: &R,
    table: &NodeTable,
    pass: &mut Pass,
    node: Share,
    steps: &mut Steps<L>,
) -> Octants
    requires of { BelongsTo table.now pass.old }
    requires idle { pass.old.view.turn ≡ None }
    requires held { HoldsName pass.old.view.held node }
    requires level { node.level ≡ 1 }
    requires room { number_of_trees pass.old.view.held ≤ 4000 }
    ensures of { BelongsTo table.now pass.new }
    ensures idle { pass.new.view.turn ≡ None }
    ensures log { pass.new.view.log ≡ pass.old.view.log }
    ensures held { ForHeld pass.old.view.held node
        (λ t. Gains pass.new.view.held t pass.old.view.held) }
{
    let told = octants_told(table, pass, node.name());
    release::back(rt, table, pass, node, steps);
    told
}

// The leaf moves into a node over it, which goes back. Says what the node told, where it had room.
fn over_and_back<R: Wait, L: Ledger>(
    rt: &R,
    table: &NodeTable,
    pass: &mut Pass,
    leaf: Share,
    steps: &mut Steps<L>,
) -> Option<Octants>
    requires of { BelongsTo table.now pass.old }
    requires idle { pass.old.view.turn ≡ None }
    requires side { 3 ≤ table.now.plan.side }
    requires held { HoldsName pass.old.view.held leaf }
    requires leaf { leaf.level ≡ 0 }
    requires room { number_of_trees pass.old.view.held ≤ 3500 }
    ensures of { BelongsTo table.now pass.new }
    ensures idle { pass.new.view.turn ≡ None }
    ensures log { pass.new.view.log ≡ pass.old.view.log }
    ensures given { ForHeld pass.old.view.held leaf
        (λ t. Gains pass.new.view.held t pass.old.view.held) }
{
    let children = [Some(leaf), None, None, None, None, None, None, None];
    match intern::node(rt, table, pass, 1, children, steps) {
        Ok(node) => {
            let told = told_and_back(rt, table, pass, node, steps);
            Some(told)
        }
        Err(refused) => {
            let NodeRefused { full: _, children } = refused;
            back_first(rt, table, pass, children, steps);
            None
        }
    }
}

// A node over a leaf of these bits comes and goes.
fn comes_over<R: Wait, L: Ledger>(
    rt: &R,
    table: &NodeTable,
    pass: &mut Pass,
    bits: u64,
    steps: &mut Steps<L>,
) -> Option<Octants>
    requires of { BelongsTo table.now pass.old }
    requires idle { pass.old.view.turn ≡ None }
    requires side { 3 ≤ table.now.plan.side }
    requires bits { bits ≢ 0 }
    requires room { number_of_trees pass.old.view.held ≤ 3499 }
    ensures of { BelongsTo table.now pass.new }
    ensures idle { pass.new.view.turn ≡ None }
    ensures log { pass.new.view.log ≡ pass.old.view.log }
    ensures held { SameHeld pass.old.view.held pass.new.view.held }
{
    match intern::leaf(rt, table, pass, bits, steps) {
        Ok(share) => over_and_back(rt, table, pass, share, steps),
        Err(_) => None,
    }
}

fn told_once<R: Wait, L: Ledger>(
    rt: &R,
    table: &NodeTable,
    pass: &mut Pass,
    blank: Blank,
) -> Option<Octants>
    requires name { blank.name ≡ L.name }
    requires parts { blank.parts ≡ L.parts }
    requires some { 0 < L.parts }
    requires side { 3 ≤ table.now.plan.side }
    requires spare { IsSpare table.now pass.old }
    ensures { IsSpare table.now pass.new }
{
    let mut steps: Steps<L> = Steps::start(blank);
    comes_over(rt, table, pass, 5, &mut steps)
}

// What a node over the leaf 5, in octant 0, tells in a table of one pass.
fn told_of<R: Wait>(rt: &R, table: NodeTable, passes: Vec<Pass>) -> Option<Octants>
    requires { All (IsSpare table) passes.items }
{
    if table.plan().side().cells() < 8 {
        let _number = ended(&table, passes);
        return None;
    }
    match only_one(&table, passes) {
        Some(mut pass) => {
            let told = told_once::<R, Brand>(rt, &table, &mut pass, Blank::new(1));
            pass.end();
            told
        }
        None => None,
    }
}

fn new_told<R: Wait>(rt: &R, alloc: Global) -> Option<Octants> {
    match begun_small(alloc, 2, 1) {
        Some((table, passes)) => told_of(rt, table, passes),
        None => None,
    }
}

const LEAF: Name = Name {
    level: 0,
    bucket: 0,
    slot: 0,
};

const TOLD: Octants = Octants {
    names: [Some(LEAF), None, None, None, None, None, None, None],
    bits: [5, 0, 0, 0, 0, 0, 0, 0],
    first: Some(LEAF),
    second: None,
    leaf: 5,
};

#[test]
fn a_node_tells_its_octants(rt: HostRuntime) {
    assert_eq!(rt; new_told(&rt, rt.alloc()), Some(TOLD));
}

// Makes 2,000 nodes, of four that take turns, and gives each back.
fn make_often<R: Wait, L: Ledger>(rt: &R, table: &NodeTable, pass: &mut Pass, blank: Blank)
    requires name { blank.name ≡ L.name }
    requires parts { blank.parts ≡ L.parts }
    requires some { 0 < L.parts }
    requires side { 3 ≤ table.now.plan.side }
    requires of { BelongsTo table.now pass.old }
    requires idle { pass.old.view.turn ≡ None }
    requires room { number_of_trees pass.old.view.held ≤ 3000 }
    ensures of { BelongsTo table.now pass.new }
    ensures idle { pass.new.view.turn ≡ None }
    ensures log { pass.new.view.log ≡ pass.old.view.log }
    ensures held { SameHeld pass.old.view.held pass.new.view.held }
{
    let mut steps: Steps<L> = Steps::start(blank);
    for k in 0..2_000u32 {
        let bits = u64::from(k % 4) + 1;
        let _told = comes_over(rt, table, pass, bits, &mut steps);
    }
}

fn make_spare<R: Wait>(rt: &R, table: &NodeTable, pass: &mut Pass)
    requires spare { IsSpare table.now pass.old }
    requires side { 3 ≤ table.now.plan.side }
    ensures { IsSpare table.now pass.new }
{
    make_often::<R, Brand>(rt, table, pass, Blank::new(1));
}

fn make_all<R: Threads + Wait + Sync>(rt: &R, table: &NodeTable, passes: &mut [Pass])
    requires spare { All (IsSpare table.now) passes.old }
    requires side { 3 ≤ table.now.plan.side }
    ensures { All (IsSpare table.now) passes.new }
{
    thread::for_each_mut(
        rt,
        passes,
        4,
        &|_, pass: &mut Pass|
            requires { IsSpare table.now pass.now × (3 ≤ table.now.plan.side) }
            ensures { IsSpare table.entry.now pass.exit.now }
        { make_spare(rt, table, pass) },
    );
}

// All passes make and give back, each in a thread of its own.
fn all_make<R: Threads + Wait + Sync>(rt: &R, table: &NodeTable, mut passes: Vec<Pass>) -> Vec<Pass>
    requires spare { All (IsSpare table.now) passes.items }
    requires side { 3 ≤ table.now.plan.side }
    ensures { All (IsSpare table.now) result.items }
{
    make_all(rt, table, passes.as_mut_slice());
    passes
}

// The same over a table of side 8 or more, which is then closed.
fn leaves_nothing<R: Threads + Wait + Sync>(
    rt: &R,
    alloc: Global,
    table: NodeTable,
    passes: Vec<Pass>,
) -> bool
    requires { All (IsSpare table) passes.items }
{
    if table.plan().side().cells() < 8 {
        let _number = ended(&table, passes);
        return false;
    }
    let passes = all_make(rt, &table, passes);
    closes_blank(alloc, table, passes)
}

// The same of a new table, with one bucket of four slots on each level.
fn four_leave_nothing<R: Threads + Wait + Sync>(rt: &R, alloc: Global) -> bool {
    match begun_small(alloc, 4, 4) {
        Some((table, passes)) => leaves_nothing(rt, alloc, table, passes),
        None => false,
    }
}

// Four threads at once.
#[test]
fn four_threads_make_nodes_and_leave_nothing(rt: HostRuntime) {
    let is_blank = four_leave_nothing(&rt, rt.alloc());
    assert!(rt; is_blank, "wanted is a closed table of version 0 alone");
}

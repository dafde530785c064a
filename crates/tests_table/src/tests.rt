//! Leaves of two passes: on one thread what each is told, in two threads that nothing is left.
ghost use Rattle.std.specs.Prelude.{◌≡◌, ◌≢◌, ◌≤◌, ◌<◌, None, All};
ghost use Rattle.node_words.specs.shapes.Weights.{number_of_trees};
ghost use Rattle.node_words.specs.Held.{SameHeld};
ghost use Rattle.node_table.specs.TableStates.{BelongsTo};
ghost use Rattle.node_table.specs.Closing.{IsSpare};

use crate::calls::{begun_small, only_two};
use crate::closes::{closes_blank, closes_with};
use node_table::{NodeTable, Pass};
use node_words::{Full, Name, Steps};
use std::alloc::Global;
use std::marker::Brand;
use std::sync::Wait;
use std::sync::ledger::{Blank, Ledger};
use std::thread;
use std::thread::Threads;

/// What session 0 is told for the leaf 1, session 1 for the leaves 1 and 2 beside it, and session 0
/// for the leaf 4 while those are held.
#[derive(Clone, Copy, Debug, PartialEq, Eq)]
struct Told {
    first: Option<Name>,
    shared: Option<Name>,
    next: Option<Name>,
    over: Option<Full>,
}

/// Of one bucket with two slots.
const TOLD: Told = Told {
    first: Some(LEAF),
    shared: Some(LEAF),
    next: Some(OTHER_LEAF),
    over: Some(FULL),
};

const LEAF: Name = Name {
    level: 0,
    bucket: 0,
    slot: 0,
};

const OTHER_LEAF: Name = Name {
    level: 0,
    bucket: 0,
    slot: 1,
};

const FULL: Full = Full {
    level: 0,
    bucket: 0,
};

// The leaf is taken, where it has room, and goes back.
fn comes_back<R: Wait, L: Ledger>(
    rt: &R,
    table: &NodeTable,
    pass: &mut Pass,
    bits: u64,
    steps: &mut Steps<L>,
) -> Option<Full>
    requires of { BelongsTo table.now pass.old }
    requires idle { pass.old.view.turn ≡ None }
    requires bits { bits ≢ 0 }
    requires room { number_of_trees pass.old.view.held ≤ 3999 }
    ensures of { BelongsTo table.now pass.new }
    ensures idle { pass.new.view.turn ≡ None }
    ensures log { pass.new.view.log ≡ pass.old.view.log }
    ensures held { SameHeld pass.old.view.held pass.new.view.held }
{
    match intern::leaf(rt, table, pass, bits, steps) {
        Ok(share) => {
            release::back(rt, table, pass, share, steps);
            None
        }
        Err(full) => Some(full),
    }
}

// The second session's other leaf, and what the first is told for one more.
fn next_told<R: Wait, L: Ledger>(
    rt: &R,
    table: &NodeTable,
    a: &mut Pass,
    b: &mut Pass,
    steps: &mut Steps<L>,
) -> (Option<Name>, Option<Full>)
    requires first { BelongsTo table.now a.old }
    requires second { BelongsTo table.now b.old }
    requires first_idle { a.old.view.turn ≡ None }
    requires second_idle { b.old.view.turn ≡ None }
    requires first_room { number_of_trees a.old.view.held ≤ 3500 }
    requires second_room { number_of_trees b.old.view.held ≤ 3500 }
    ensures first { BelongsTo table.now a.new }
    ensures second { BelongsTo table.now b.new }
    ensures first_idle { a.new.view.turn ≡ None }
    ensures second_idle { b.new.view.turn ≡ None }
    ensures first_log { a.new.view.log ≡ a.old.view.log }
    ensures second_log { b.new.view.log ≡ b.old.view.log }
    ensures first_held { SameHeld a.old.view.held a.new.view.held }
    ensures second_held { SameHeld b.old.view.held b.new.view.held }
{
    match intern::leaf(rt, table, b, 2, steps) {
        Ok(share) => {
            let name = share.name();
            let over = comes_back(rt, table, a, 4, steps);
            release::back(rt, table, b, share, steps);
            (Some(name), over)
        }
        Err(_) => (None, None),
    }
}

// The same behind the second session's share of the first one's leaf.
fn shared_told<R: Wait, L: Ledger>(
    rt: &R,
    table: &NodeTable,
    a: &mut Pass,
    b: &mut Pass,
    first: Option<Name>,
    steps: &mut Steps<L>,
) -> Told
    requires first { BelongsTo table.now a.old }
    requires second { BelongsTo table.now b.old }
    requires first_idle { a.old.view.turn ≡ None }
    requires second_idle { b.old.view.turn ≡ None }
    requires first_room { number_of_trees a.old.view.held ≤ 3400 }
    requires second_room { number_of_trees b.old.view.held ≤ 3400 }
    ensures first { BelongsTo table.now a.new }
    ensures second { BelongsTo table.now b.new }
    ensures first_idle { a.new.view.turn ≡ None }
    ensures second_idle { b.new.view.turn ≡ None }
    ensures first_log { a.new.view.log ≡ a.old.view.log }
    ensures second_log { b.new.view.log ≡ b.old.view.log }
    ensures first_held { SameHeld a.old.view.held a.new.view.held }
    ensures second_held { SameHeld b.old.view.held b.new.view.held }
{
    match intern::leaf(rt, table, b, 1, steps) {
        Ok(share) => {
            let shared = Some(share.name());
            let (next, over) = next_told(rt, table, a, b, steps);
            release::back(rt, table, b, share, steps);
            Told {
                first,
                shared,
                next,
                over,
            }
        }
        Err(_) => Told {
            first,
            shared: None,
            next: None,
            over: None,
        },
    }
}

// What both are told, each share of which goes back.
fn all_told<R: Wait, L: Ledger>(
    rt: &R,
    table: &NodeTable,
    a: &mut Pass,
    b: &mut Pass,
    blank: Blank,
) -> Option<Told>
    requires name { blank.name ≡ L.name }
    requires parts { blank.parts ≡ L.parts }
    requires some { 0 < L.parts }
    requires first { IsSpare table.now a.old }
    requires second { IsSpare table.now b.old }
    ensures first { IsSpare table.now a.new }
    ensures second { IsSpare table.now b.new }
{
    let mut steps: Steps<L> = Steps::start(blank);
    match intern::leaf(rt, table, a, 1, &mut steps) {
        Ok(share) => {
            let first = Some(share.name());
            let told = shared_told(rt, table, a, b, first, &mut steps);
            release::back(rt, table, a, share, &mut steps);
            Some(told)
        }
        Err(_) => None,
    }
}

// The same of the two passes of a table, which is closed with them. Told too is whether nothing was
// left.
fn told_and_left<R: Wait>(
    rt: &R,
    alloc: Global,
    table: NodeTable,
    passes: Vec<Pass>,
) -> (Option<Told>, bool)
    requires { All (IsSpare table) passes.items }
{
    match only_two(&table, passes) {
        Some((mut a, mut b)) => {
            let numbers = a.number() == 0 && b.number() == 1 && a.held() == 0;
            let told = all_told::<R, Brand>(rt, &table, &mut a, &mut b, Blank::new(1));
            let blank = closes_with(alloc, table, a, b);
            (told, numbers && blank)
        }
        None => (None, false),
    }
}

// The same of a new table of a world of side 8, with one bucket of two slots on each level.
fn new_told<R: Wait>(rt: &R, alloc: Global) -> (Option<Told>, bool) {
    match begun_small(alloc, 2, 2) {
        Some((table, passes)) => told_and_left(rt, alloc, table, passes),
        None => (None, false),
    }
}

#[test]
fn two_passes_share_leaves(rt: HostRuntime) {
    assert_eq!(rt; new_told(&rt, rt.alloc()), (Some(TOLD), true));
}

// Takes the leaf 1 and gives it back, 10,000 times.
fn return_often<R: Wait, L: Ledger>(rt: &R, table: &NodeTable, pass: &mut Pass, blank: Blank)
    requires name { blank.name ≡ L.name }
    requires parts { blank.parts ≡ L.parts }
    requires some { 0 < L.parts }
    requires of { BelongsTo table.now pass.old }
    requires idle { pass.old.view.turn ≡ None }
    requires room { number_of_trees pass.old.view.held ≤ 3000 }
    ensures of { BelongsTo table.now pass.new }
    ensures idle { pass.new.view.turn ≡ None }
    ensures log { pass.new.view.log ≡ pass.old.view.log }
    ensures held { SameHeld pass.old.view.held pass.new.view.held }
{
    let mut steps: Steps<L> = Steps::start(blank);
    for _ in 0..10_000u32 {
        let _full = comes_back(rt, table, pass, 1, &mut steps);
    }
}

fn return_spare<R: Wait>(rt: &R, table: &NodeTable, pass: &mut Pass)
    requires { IsSpare table.now pass.old }
    ensures { IsSpare table.now pass.new }
{
    return_often::<R, Brand>(rt, table, pass, Blank::new(1));
}

fn return_all<R: Threads + Wait + Sync>(rt: &R, table: &NodeTable, passes: &mut [Pass])
    requires { All (IsSpare table.now) passes.old }
    ensures { All (IsSpare table.now) passes.new }
{
    thread::for_each_mut(
        rt,
        passes,
        2,
        &|_, pass: &mut Pass|
            requires { IsSpare table.now pass.now }
            ensures { IsSpare table.entry.now pass.exit.now }
        { return_spare(rt, table, pass) },
    );
}

// Whether a table has nothing left behind two passes in threads of their own.
fn two_close_blank<R: Threads + Wait + Sync>(rt: &R, alloc: Global) -> bool {
    match begun_small(alloc, 2, 2) {
        Some((table, passes)) => {
            let mut passes = passes;
            return_all(rt, &table, passes.as_mut_slice());
            closes_blank(alloc, table, passes)
        }
        None => false,
    }
}

#[test]
fn two_threads_that_share_a_leaf_leave_nothing(rt: HostRuntime) {
    assert!(rt;
        two_close_blank(&rt, rt.alloc()),
        "closed with live nodes, a record or a root"
    );
}

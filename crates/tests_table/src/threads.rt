//! Four threads take and give back the same few leaves.
ghost use Rattle.std.specs.Prelude.{◌≡◌, ◌≤◌, ◌<◌, None, All};
ghost use Rattle.node_words.specs.shapes.Weights.{number_of_trees};
ghost use Rattle.node_words.specs.Held.{SameHeld};
ghost use Rattle.node_table.specs.TableStates.{BelongsTo};
ghost use Rattle.node_table.specs.Closing.{IsSpare};

use crate::calls::{begun_small, comes_and_goes, end, ended};
use node_table::{NodeTable, Pass};
use node_words::Steps;
use std::alloc::Global;
use std::marker::Brand;
use std::sync::Wait;
use std::sync::ledger::{Blank, Ledger};
use std::thread;
use std::thread::Threads;

// Takes 10,000 leaves, of four that take turns, and gives each back.
fn take_often<R: Wait, L: Ledger>(rt: &R, table: &NodeTable, pass: &mut Pass, blank: Blank)
    requires name { blank.name ≡ L.name }
    requires parts { blank.parts ≡ L.parts }
    requires some { 0 < L.parts }
    requires of { BelongsTo table.now pass.old }
    requires idle { pass.old.view.turn ≡ None }
    requires room { number_of_trees pass.old.view.held ≤ 3000 }
    ensures of { BelongsTo table.now pass.new }
    ensures idle { pass.new.view.turn ≡ None }
    ensures log { pass.new.view.log ≡ pass.old.view.log }
    ensures held { SameHeld pass.old.view.held pass.new.view.held }
{
    let mut steps: Steps<L> = Steps::start(blank);
    for k in 0..10_000u32 {
        let bits = u64::from(k % 4) + 1;
        let _said = comes_and_goes(rt, table, pass, bits, (0, true), &mut steps);
    }
}

fn take_spare<R: Wait>(rt: &R, table: &NodeTable, pass: &mut Pass)
    requires { IsSpare table.now pass.old }
    ensures { IsSpare table.now pass.new }
{
    take_often::<R, Brand>(rt, table, pass, Blank::new(1));
}

fn take_all<R: Threads + Wait + Sync>(rt: &R, table: &NodeTable, passes: &mut [Pass])
    requires { All (IsSpare table.now) passes.old }
    ensures { All (IsSpare table.now) passes.new }
{
    thread::for_each_mut(
        rt,
        passes,
        4,
        &|_, pass: &mut Pass|
            requires { IsSpare table.now pass.now }
            ensures { IsSpare table.entry.now pass.exit.now }
        { take_spare(rt, table, pass) },
    );
}

/// All passes take and give back, each in a thread of its own where there are four at most.
pub fn all_take<R: Threads + Wait + Sync>(
    rt: &R,
    table: &NodeTable,
    mut passes: Vec<Pass>,
) -> Vec<Pass>
    requires { All (IsSpare table.now) passes.items }
    ensures { All (IsSpare table.now) result.items }
{
    take_all(rt, table, passes.as_mut_slice());
    passes
}

// Whether each of the four leaves is added in slot 0, and freed by its one share.
fn is_empty<R: Wait, L: Ledger>(rt: &R, table: &NodeTable, pass: &mut Pass, blank: Blank) -> bool
    requires name { blank.name ≡ L.name }
    requires parts { blank.parts ≡ L.parts }
    requires some { 0 < L.parts }
    requires of { BelongsTo table.now pass.old }
    requires idle { pass.old.view.turn ≡ None }
    requires room { number_of_trees pass.old.view.held ≤ 3000 }
    ensures of { BelongsTo table.now pass.new }
    ensures idle { pass.new.view.turn ≡ None }
    ensures log { pass.new.view.log ≡ pass.old.view.log }
    ensures held { SameHeld pass.old.view.held pass.new.view.held }
{
    let mut steps: Steps<L> = Steps::start(blank);
    let mut empty = true;
    for bits in 1..5u64 {
        if !comes_and_goes(rt, table, pass, bits, (0, true), &mut steps) {
            empty = false;
        }
    }
    empty
}

// Whether nothing was left by four passes.
fn left_nothing<R: Wait, L: Ledger>(
    rt: &R,
    table: &NodeTable,
    mut passes: Vec<Pass>,
    blank: Blank,
) -> bool
    requires name { blank.name ≡ L.name }
    requires parts { blank.parts ≡ L.parts }
    requires some { 0 < L.parts }
    requires passes { All (IsSpare table.now) passes.items }
{
    let Some(mut pass) = passes.pop() else {
        passes.destroy_empty();
        return false;
    };
    let empty = is_empty::<R, L>(rt, table, &mut pass, blank);
    end(pass);
    ended(table, passes) == 3 && empty
}

// Whether four threads over one bucket of four slots left nothing.
fn four_left_nothing<R: Threads + Wait + Sync>(rt: &R, alloc: Global) -> bool {
    match begun_small(alloc, 4, 4) {
        Some((table, passes)) => {
            let passes = all_take(rt, &table, passes);
            left_nothing::<R, Brand>(rt, &table, passes, Blank::new(1))
        }
        None => false,
    }
}

// Four threads at once.
#[test]
fn four_threads_leave_nothing(rt: HostRuntime) {
    let is_empty = four_left_nothing(&rt, rt.alloc());
    assert!(rt;
        is_empty,
        "wanted are four leaves, each in slot 0 and freed by its one share"
    );
}

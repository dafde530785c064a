//! Shares of a leaf come and go one by one.
ghost use Rattle.std.specs.Prelude.{◌≡◌, ◌≤◌, ◌<◌, None, All};
ghost use Rattle.node_words.specs.shapes.Weights.{number_of_trees};
ghost use Rattle.node_words.specs.Held.{HoldsName, SameHeld};
ghost use Rattle.node_table.specs.TableStates.{BelongsTo};
ghost use Rattle.node_table.specs.Closing.{IsSpare};

use crate::calls::{begun_small, end, give, only_one};
use node_table::{NodeTable, Pass};
use node_words::{Name, Share, Steps};
use std::alloc::Global;
use std::marker::Brand;
use std::sync::Wait;
use std::sync::ledger::{Blank, Ledger};

// Takes one more share and gives it back.
fn more_and_back<R: Wait, L: Ledger>(
    rt: &R,
    table: &NodeTable,
    pass: &mut Pass,
    share: &Share,
    steps: &mut Steps<L>,
) -> bool
    requires of { BelongsTo table.now pass.old }
    requires idle { pass.old.view.turn ≡ None }
    requires held { HoldsName pass.old.view.held share.now }
    requires room { number_of_trees pass.old.view.held ≤ 3500 }
    ensures of { BelongsTo table.now pass.new }
    ensures idle { pass.new.view.turn ≡ None }
    ensures log { pass.new.view.log ≡ pass.old.view.log }
    ensures held { SameHeld pass.old.view.held pass.new.view.held }
{
    let more = release::more(rt, table, pass, share, steps);
    let same = more.name() == share.name();
    release::back(rt, table, pass, more, steps);
    same
}

// Takes one more share by the name and gives it back.
fn kept_and_back<R: Wait, L: Ledger>(
    rt: &R,
    table: &NodeTable,
    pass: &mut Pass,
    n: Name,
    steps: &mut Steps<L>,
) -> bool
    requires of { BelongsTo table.now pass.old }
    requires idle { pass.old.view.turn ≡ None }
    requires held { HoldsName pass.old.view.held n }
    requires room { number_of_trees pass.old.view.held ≤ 3500 }
    ensures of { BelongsTo table.now pass.new }
    ensures idle { pass.new.view.turn ≡ None }
    ensures log { pass.new.view.log ≡ pass.old.view.log }
    ensures held { SameHeld pass.old.view.held pass.new.view.held }
{
    let kept = release::keep_at(rt, table, pass, n, steps);
    let same = kept.name() == n;
    release::back(rt, table, pass, kept, steps);
    same
}

// Whether a leaf is freed by its one share, after others came and went.
fn is_counted<R: Wait, L: Ledger>(rt: &R, table: &NodeTable, pass: &mut Pass, blank: Blank) -> bool
    requires name { blank.name ≡ L.name }
    requires parts { blank.parts ≡ L.parts }
    requires some { 0 < L.parts }
    requires of { BelongsTo table.now pass.old }
    requires idle { pass.old.view.turn ≡ None }
    requires room { number_of_trees pass.old.view.held ≤ 3000 }
    ensures of { BelongsTo table.now pass.new }
    ensures idle { pass.new.view.turn ≡ None }
    ensures log { pass.new.view.log ≡ pass.old.view.log }
    ensures held { SameHeld pass.old.view.held pass.new.view.held }
{
    let mut steps: Steps<L> = Steps::start(blank);
    match intern::leaf(rt, table, pass, 1, &mut steps) {
        Ok(share) => {
            let more = more_and_back(rt, table, pass, &share, &mut steps);
            let kept = kept_and_back(rt, table, pass, share.name(), &mut steps);
            let freed = give(rt, table, pass, share, &mut steps);
            more && kept && freed
        }
        Err(_) => false,
    }
}

// The same of the one pass that there is.
fn one_counts<R: Wait, L: Ledger>(
    rt: &R,
    table: &NodeTable,
    passes: Vec<Pass>,
    blank: Blank,
) -> bool
    requires name { blank.name ≡ L.name }
    requires parts { blank.parts ≡ L.parts }
    requires some { 0 < L.parts }
    requires passes { All (IsSpare table.now) passes.items }
{
    match only_one(table, passes) {
        Some(mut pass) => {
            let counted = is_counted::<R, L>(rt, table, &mut pass, blank);
            end(pass);
            counted
        }
        None => false,
    }
}

// The same of a new table, with one bucket of two slots.
fn are_counted<R: Wait>(rt: &R, alloc: Global) -> bool {
    match begun_small(alloc, 2, 1) {
        Some((table, passes)) => one_counts::<R, Brand>(rt, &table, passes, Blank::new(1)),
        None => false,
    }
}

#[test]
fn shares_are_counted(rt: HostRuntime) {
    let counted = are_counted(&rt, rt.alloc());
    assert!(rt;
        counted,
        "wanted is one name, twice more, and freed by its last share"
    );
}

//! The log's turn as a value: a session that has it, and one that tries to commit meanwhile.
ghost use Rattle.std.specs.Prelude.{◌≡◌, ◌<◌, true, All, IfSome};
ghost use Rattle.node_table.specs.Closing.{IsSpare};
ghost use Rattle.tests_versions.specs.Holding.{HoldsLeaf, PinsBlank};
ghost use Rattle.tests_versions.specs.Uniform.{first_act};

use crate::calls::fallen_back;
use crate::edits::{Came, let_go, pin_blank};
use crate::endings::with_one;
use crate::uniform::{
    act_behind, all_back, begun, closed, ended, name_of, root_back, uniform_root,
};
use history_model::Act;
use node_table::{NodeTable, Pass};
use node_words::{Name, Plan, Share, Steps};
use std::alloc::Global;
use std::marker::Brand;
use std::sync::Wait;
use std::sync::ledger::{Blank, Ledger};
use std::test::Fail;
use version_log::{Pinned, SureRefused, TryRefused, sure, try_commit};
use vw_cell::{Boxed, Cell, Side};

// The first leaf that a table has.
const LEAF: Name = Name {
    level: 0,
    bucket: 0,
    slot: 0,
};

/// What a session is told that fills the first cell over an empty log: its leaf; its try while the
/// other session has the log's turn, and the root that comes back; the other session's record; its
/// second try, and the root that comes back.
#[derive(Clone, Copy, Debug, PartialEq, Eq)]
struct Told {
    leaf: Option<Name>,
    beside: Came,
    kept: Option<Name>,
    record: u32,
    behind: Came,
    back: Option<Name>,
}

const TOLD: Told = Told {
    leaf: Some(LEAF),
    beside: Came::Busy,
    kept: Some(LEAF),
    record: 1,
    behind: Came::Late(1),
    back: Some(LEAF),
};

// The act behind which a world of no set cell has this root.
fn act_first(root: Option<Name>) -> Act
    ensures { result ≡ first_act root }
{
    let first = Boxed {
        at: Cell { x: 0, y: 0, z: 0 },
        size: Cell { x: 1, y: 1, z: 1 },
    };
    match root {
        None => act_behind(None),
        Some(_) => Act::Fill(first),
    }
}

// A share of the leaf of the first cell, none where it has no room.
fn first_root<R: Wait, L: Ledger>(
    rt: &R,
    table: &NodeTable,
    pass: &mut Pass,
    steps: &mut Steps<L>,
) -> Option<Share>
    requires spare { IsSpare table.now pass.old }
    requires side { table.now.plan.side ≡ 2 }
    ensures { HoldsLeaf table.now pass.new 1 result }
{
    match intern::leaf(rt, table, pass, 1, steps) {
        Ok(share) => Some(share),
        Err(_) => None,
    }
}

// Gives back what the pass holds.
fn first_back<R: Wait, L: Ledger>(
    rt: &R,
    table: &NodeTable,
    pass: &mut Pass,
    root: Option<Share>,
    steps: &mut Steps<L>,
)
    requires { HoldsLeaf table.now pass.old 1 root }
    ensures { IsSpare table.now pass.new }
{
    root_back(rt, table, pass, root, steps);
}

// Pins the head where no cell of it is set, beside what the pass holds.
fn pin_first<R: Wait, L: Ledger>(
    rt: &R,
    table: &NodeTable,
    pass: &mut Pass,
    root: &Option<Share>,
    steps: &mut Steps<L>,
) -> Option<Pinned>
    requires { HoldsLeaf table.now pass.old 1 root.now }
    ensures holds { HoldsLeaf table.now pass.new 1 root.now }
    ensures pinned { IfSome result (PinsBlank pass.new.view) }
{
    let _name = name_of(root);
    pin_blank(rt, table, pass, steps)
}

// Tries to commit the fill over what was pinned. Told too are whether the other session had the
// turn, and the root that comes back.
fn try_first<R: Wait, L: Ledger>(
    rt: &R,
    table: &NodeTable,
    pass: &mut Pass,
    base: &Pinned,
    root: Option<Share>,
    steps: &mut Steps<L>,
) -> (Came, bool, Option<Share>)
    requires holds { HoldsLeaf table.now pass.old 1 root }
    requires base { PinsBlank pass.old.view base.now }
    ensures holds { HoldsLeaf table.now pass.new 1 result.2 }
    ensures base { result.1 ≡ true → PinsBlank pass.new.view base.now }
{
    let act = act_first(name_of(&root));
    match try_commit(table, pass, base, 1, &act, root, 0) {
        Ok(committed) => {
            let kept = fallen_back(rt, table, pass, committed, steps);
            (Came::Done(kept.n), false, None)
        }
        Err(TryRefused::LogFull { root }) => (Came::NoRoom, false, root),
        Err(TryRefused::Stale { now, root }) => (Came::Late(now), false, root),
        Err(TryRefused::Busy { root }) => (Came::Busy, true, root),
    }
}

// The same once more where the other session had the turn.
fn try_behind<R: Wait, L: Ledger>(
    rt: &R,
    table: &NodeTable,
    pass: &mut Pass,
    base: &Pinned,
    busy: bool,
    root: Option<Share>,
    steps: &mut Steps<L>,
) -> (Came, Option<Share>)
    requires holds { HoldsLeaf table.now pass.old 1 root }
    requires base { busy ≡ true → PinsBlank pass.old.view base.now }
    ensures { HoldsLeaf table.now pass.new 1 result.1 }
{
    if !busy {
        return (Came::Busy, root);
    }
    let (came, _busy, root) = try_first(rt, table, pass, base, root, steps);
    (came, root)
}

// The first session takes the log's turn, and appends a record by it. Between these two the second
// one tries. Told is the record's number, or 0, and what the try tells.
fn try_beside<R: Wait, L: Ledger>(
    rt: &R,
    table: &NodeTable,
    a: &mut Pass,
    b: &mut Pass,
    base: &Pinned,
    root: Option<Share>,
    steps: &mut Steps<L>,
) -> (u32, Came, bool, Option<Share>)
    requires first { IsSpare table.now a.old }
    requires second { HoldsLeaf table.now b.old 1 root }
    requires base { PinsBlank b.old.view base.now }
    requires side { table.now.plan.side ≡ 2 }
    ensures first { IsSpare table.now a.new }
    ensures second { HoldsLeaf table.now b.new 1 result.3 }
    ensures base { result.2 ≡ true → PinsBlank b.new.view base.now }
{
    let own = uniform_root(rt, table, a, true, steps);
    let act = act_behind(name_of(&own));
    let turn = sure(rt, table, a);
    let (came, busy, root) = try_first(rt, table, b, base, root, steps);
    let n = match turn.finish(1, &act, own, 0) {
        Ok(committed) => fallen_back(rt, table, a, committed, steps).n,
        Err(SureRefused::LogFull { root }) => {
            all_back(rt, table, a, root, steps);
            0
        }
    };
    (n, came, busy, root)
}

// What the second session is told, each share of which goes back.
fn all_told<R: Wait, L: Ledger>(
    rt: &R,
    table: &NodeTable,
    a: &mut Pass,
    b: &mut Pass,
    blank: Blank,
) -> Option<Told>
    requires name { blank.name ≡ L.name }
    requires parts { blank.parts ≡ L.parts }
    requires some { 0 < L.parts }
    requires first { IsSpare table.now a.old }
    requires second { IsSpare table.now b.old }
    requires side { table.now.plan.side ≡ 2 }
    ensures first { IsSpare table.now a.new }
    ensures second { IsSpare table.now b.new }
{
    let mut steps: Steps<L> = Steps::start(blank);
    let root = first_root(rt, table, b, &mut steps);
    let leaf = name_of(&root);
    let Some(base) = pin_first(rt, table, b, &root, &mut steps) else {
        first_back(rt, table, b, root, &mut steps);
        return None;
    };
    let (record, beside, busy, root) = try_beside(rt, table, a, b, &base, root, &mut steps);
    let kept = name_of(&root);
    let (behind, root) = try_behind(rt, table, b, &base, busy, root, &mut steps);
    let back = name_of(&root);
    let_go(base);
    first_back(rt, table, b, root, &mut steps);
    Some(Told {
        leaf,
        beside,
        kept,
        record,
        behind,
        back,
    })
}

// The same of two passes, which come back.
fn both_told<R: Wait>(rt: &R, table: &NodeTable, mut passes: Vec<Pass>) -> (Option<Told>, Vec<Pass>)
    requires passes { All (IsSpare table.now) passes.items }
    requires side { table.now.plan.side ≡ 2 }
    ensures { All (IsSpare table.now) result.1.items }
{
    let Some(mut b) = passes.pop() else {
        return (None, passes);
    };
    let Some(mut a) = passes.pop() else {
        return (None, with_one(table, passes, b));
    };
    let told = all_told::<R, Brand>(rt, table, &mut a, &mut b, Blank::new(1));
    let passes = with_one(table, passes, a);
    (told, with_one(table, passes, b))
}

// The same, and how many records and live leaves a table of side 4 leaves.
fn told_and_left<R: Wait>(
    rt: &R,
    alloc: Global,
    table: NodeTable,
    passes: Vec<Pass>,
) -> (Option<Told>, usize, u32)
    requires { All (IsSpare table) passes.items }
{
    if table.plan().side().root_level() != 0 {
        let _number = ended(&table, passes);
        return (None, 0, 0);
    }
    let (told, passes) = both_told(rt, &table, passes);
    match closed(alloc, table, passes) {
        Some(left) => (told, left.history.records.len(), left.live[0]),
        None => (told, 0, 0),
    }
}

#[test]
fn a_try_beside_the_logs_turn_is_busy(rt: HostRuntime) -> Result<(), Fail> {
    let side = Side::new(4).ok_or("a side")?;
    let plan = Plan::even(side, 1, 2).ok_or("a plan")?;
    let (table, passes) = begun(rt.alloc(), &plan, 2)?;
    let told = told_and_left(&rt, rt.alloc(), table, passes);
    assert_eq!(rt; told, (Some(TOLD), 1, 1));
    Ok(())
}

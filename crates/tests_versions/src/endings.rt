//! What a closed table leaves of two sessions: each record, each mark and each root.
ghost use Rattle.std.specs.Prelude.{◌≡◌, ◌≤◌, ◌<◌, All};
ghost use Rattle.node_table.specs.Closing.{IsSpare};

use crate::calls::{edit_uniform, forget_at, go};
use crate::uniform::{begun, closed, ended};
use history_model::{Act, Mark, Record};
use node_table::{Closed, NodeTable, Pass, Root};
use node_words::{Name, Plan, Steps};
use std::alloc::{AllocFailed, Global};
use std::marker::Brand;
use std::sync::Wait;
use std::sync::ledger::{Blank, Ledger};
use std::test::Fail;
use vw_cell::{Boxed, Cell, Side};

const EVERY: Boxed = Boxed {
    at: Cell { x: 0, y: 0, z: 0 },
    size: Cell { x: 4, y: 4, z: 4 },
};

// The versions 1 to 5 are full, empty, full, empty and full.
const RECORDS: &[Record] = &[
    Record {
        session: 0,
        line: 1,
        act: Act::Fill(EVERY),
    },
    Record {
        session: 1,
        line: 2,
        act: Act::Erase(EVERY),
    },
    Record {
        session: 0,
        line: 3,
        act: Act::Undo,
    },
    Record {
        session: 1,
        line: 5,
        act: Act::Redo,
    },
    Record {
        session: 0,
        line: 7,
        act: Act::Fill(EVERY),
    },
];

// The later mark is that of the earlier version.
const MARKS: &[Mark] = &[
    Mark {
        version: 0,
        at: 4,
        session: 0,
        line: 6,
    },
    Mark {
        version: 1,
        at: 3,
        session: 1,
        line: 4,
    },
];

// The leaf that is the root of the full world.
const FULL: Name = Name {
    level: 0,
    bucket: 0,
    slot: 0,
};

const ROOTS: &[Root] = &[
    Root {
        version: 2,
        name: None,
    },
    Root {
        version: 3,
        name: Some(FULL),
    },
    Root {
        version: 4,
        name: None,
    },
    Root {
        version: 5,
        name: Some(FULL),
    },
];

// Two sessions write in turn: edits, an undo and a redo of each other's, and two versions that are
// forgotten.
fn write<R: Wait, L: Ledger>(rt: &R, table: &NodeTable, a: &mut Pass, b: &mut Pass, blank: Blank)
    requires name { blank.name ≡ L.name }
    requires parts { blank.parts ≡ L.parts }
    requires some { 0 < L.parts }
    requires first { IsSpare table.now a.old }
    requires second { IsSpare table.now b.old }
    requires side { table.now.plan.side ≡ 2 }
    ensures first { IsSpare table.now a.new }
    ensures second { IsSpare table.now b.new }
{
    let mut steps: Steps<L> = Steps::start(blank);
    let _first = edit_uniform(rt, table, a, 1, true, &mut steps);
    let _second = edit_uniform(rt, table, b, 2, false, &mut steps);
    let _undone = go(rt, table, a, 3, &Act::Undo, &mut steps);
    let _one = forget_at(rt, table, b, 1, 4, &mut steps);
    let _redone = go(rt, table, b, 5, &Act::Redo, &mut steps);
    let _blank = forget_at(rt, table, a, 0, 6, &mut steps);
    let _last = edit_uniform(rt, table, a, 7, true, &mut steps);
}

/// The passes with one more, which is ended where there is no room.
pub fn with_one(table: &NodeTable, mut passes: Vec<Pass>, pass: Pass) -> Vec<Pass>
    requires passes { All (IsSpare table.now) passes.items }
    requires pass { IsSpare table.now pass }
    ensures { All (IsSpare table.now) result.items }
{
    match passes.push(pass) {
        Ok(()) => passes,
        Err(AllocFailed { value }) => {
            value.end();
            passes
        }
    }
}

// Two passes behind what they wrote.
fn written<R: Wait>(rt: &R, table: &NodeTable, mut passes: Vec<Pass>) -> Vec<Pass>
    requires passes { All (IsSpare table.now) passes.items }
    requires side { table.now.plan.side ≡ 2 }
    ensures { All (IsSpare table.now) result.items }
{
    let Some(mut b) = passes.pop() else {
        return passes;
    };
    let Some(mut a) = passes.pop() else {
        return with_one(table, passes, b);
    };
    write::<R, Brand>(rt, table, &mut a, &mut b, Blank::new(1));
    let passes = with_one(table, passes, a);
    with_one(table, passes, b)
}

fn are_records(records: &[Record]) -> bool {
    for (k, record) in records.iter().enumerate() {
        if k >= RECORDS.len() || *record != RECORDS[k] {
            return false;
        }
    }
    records.len() == RECORDS.len()
}

fn are_marks(marks: &[Mark]) -> bool {
    for (k, mark) in marks.iter().enumerate() {
        if k >= MARKS.len() || *mark != MARKS[k] {
            return false;
        }
    }
    marks.len() == MARKS.len()
}

fn are_roots(roots: &[Root]) -> bool {
    for (k, root) in roots.iter().enumerate() {
        if k >= ROOTS.len() || *root != ROOTS[k] {
            return false;
        }
    }
    roots.len() == ROOTS.len()
}

// These are left, and one leaf is live.
fn is_left(left: &Closed) -> Result<(), Fail> {
    let records = left.history.records.as_slice();
    let marks = left.history.marks.as_slice();
    let roots = left.roots.as_slice();
    let live = left.live;
    if are_records(records)
        && are_marks(marks)
        && are_roots(roots)
        && live == [1, 0, 0, 0, 0, 0, 0, 0, 0, 0, 0]
    {
        return Ok(());
    }
    Err(Fail::new(format_args!("{records:?}, {marks:?}, {roots:?}, live {live:?}")))
}

// That is what a table of side 4 leaves.
fn leaves_all<R: Wait>(
    rt: &R,
    alloc: Global,
    table: NodeTable,
    passes: Vec<Pass>,
) -> Result<(), Fail>
    requires { All (IsSpare table) passes.items }
{
    if table.plan().side().root_level() != 0 {
        let _number = ended(&table, passes);
        return Err(Fail::new(format_args!("another side")));
    }
    let passes = written(rt, &table, passes);
    match closed(alloc, table, passes) {
        Some(left) => is_left(&left),
        None => Err(Fail::new(format_args!("no closed table"))),
    }
}

#[test]
fn a_closed_table_leaves_one_history(rt: HostRuntime) -> Result<(), Fail> {
    let side = Side::new(4).ok_or("a side")?;
    let plan = Plan::even(side, 1, 2).ok_or("a plan")?;
    let (table, passes) = begun(rt.alloc(), &plan, 2)?;
    leaves_all(&rt, rt.alloc(), table, passes)
}

//! Four threads append records and forget each other's versions.
ghost use Rattle.std.specs.Prelude.{◌≡◌, ◌≤◌, ◌<◌, All};
ghost use Rattle.node_table.specs.Closing.{IsSpare};

use crate::calls::{edit_uniform, forget_at};
use crate::uniform::{begun, closed, ended};
use history_model::{Act, Mark, Record};
use node_table::{Closed, NodeTable, Pass, Root};
use node_words::{Plan, Steps};
use std::alloc::Global;
use std::marker::Brand;
use std::sync::Wait;
use std::sync::ledger::{Blank, Ledger};
use std::test::Fail;
use std::thread;
use std::thread::Threads;
use vw_cell::Side;

const LINES: u32 = 2_500;

// Appends 2,500 records, two of three of them of a full world, and behind each forgets some earlier
// version, whoever made it.
fn write_often<R: Wait, L: Ledger>(rt: &R, table: &NodeTable, pass: &mut Pass, blank: Blank)
    requires name { blank.name ≡ L.name }
    requires parts { blank.parts ≡ L.parts }
    requires some { 0 < L.parts }
    requires spare { IsSpare table.now pass.old }
    requires side { table.now.plan.side ≡ 2 }
    ensures { IsSpare table.now pass.new }
{
    let mut steps: Steps<L> = Steps::start(blank);
    for line in 0..LINES {
        let n = edit_uniform(rt, table, pass, line, line % 3 > 0, &mut steps);
        let v = (u64::from(line) * 7_919 % (u64::from(n) + 1)) as u32;
        let _came = forget_at(rt, table, pass, v, line, &mut steps);
    }
}

fn write_spare<R: Wait>(rt: &R, table: &NodeTable, pass: &mut Pass)
    requires spare { IsSpare table.now pass.old }
    requires side { table.now.plan.side ≡ 2 }
    ensures { IsSpare table.now pass.new }
{
    write_often::<R, Brand>(rt, table, pass, Blank::new(1));
}

fn write_all<R: Threads + Wait + Sync>(rt: &R, table: &NodeTable, passes: &mut [Pass])
    requires spare { All (IsSpare table.now) passes.old }
    requires side { table.now.plan.side ≡ 2 }
    ensures { All (IsSpare table.now) passes.new }
{
    thread::for_each_mut(
        rt,
        passes,
        4,
        &|_, pass: &mut Pass|
            requires { IsSpare table.now pass.now × (table.now.plan.side ≡ 2) }
            ensures { IsSpare table.entry.now pass.exit.now }
        { write_spare(rt, table, pass) },
    );
}

// All passes write, each in a thread of its own.
fn all_write<R: Threads + Wait + Sync>(
    rt: &R,
    table: &NodeTable,
    mut passes: Vec<Pass>,
) -> Vec<Pass>
    requires spare { All (IsSpare table.now) passes.items }
    requires side { table.now.plan.side ≡ 2 }
    ensures { All (IsSpare table.now) result.items }
{
    write_all(rt, table, passes.as_mut_slice());
    passes
}

// Whether each of four sessions has 2,500 records, in the order of its lines.
fn are_in_order(records: &[Record]) -> bool {
    let mut next = [0u32; 4];
    for record in records {
        let session = usize::from(record.session);
        if session >= 4 || next[session] != record.line {
            return false;
        }
        next[session] = record.line.saturating_add(1);
    }
    next[0] == LINES && next[1] == LINES && next[2] == LINES && next[3] == LINES
}

// Whether some mark is of another session than the version.
fn is_of_another(records: &[Record], mark: &Mark) -> bool {
    if mark.version == 0 {
        return false;
    }
    let at = (mark.version - 1) as usize;
    at < records.len() && records[at].session != mark.session
}

fn have_others(records: &[Record], marks: &[Mark]) -> bool {
    for mark in marks {
        if is_of_another(records, mark) {
            return true;
        }
    }
    false
}

// Whether the root is that of the version's act: a name of level 0 behind a fill, none else.
fn is_root_of(records: &[Record], root: &Root) -> bool {
    if root.version == 0 {
        return root.name.is_none();
    }
    let at = (root.version - 1) as usize;
    if at >= records.len() {
        return false;
    }
    match records[at].act {
        Act::Fill(_) => root.name.is_some(),
        _ => root.name.is_none(),
    }
}

// How many of these roots are names, where each is that of its version's act.
fn number_of_names(records: &[Record], roots: &[Root]) -> Option<u32> {
    let mut number: u32 = 0;
    for root in roots {
        if !is_root_of(records, root) {
            return None;
        }
        if root.name.is_some() {
            number = number.saturating_add(1);
        }
    }
    Some(number)
}

// The history has 10,000 records, each pass's in its order, and marks; each version has a mark or a
// root; and one leaf is live where some version is full, and nothing else.
fn is_whole(closed: &Closed) -> Result<(), Fail> {
    let records = closed.history.records.as_slice();
    let marks = closed.history.marks.as_slice();
    let roots = closed.roots.as_slice();
    let Some(names) = number_of_names(records, roots) else {
        return Err(Fail::new(format_args!("a root is another than that of its version's act")));
    };
    let live = if names > 0 { 1 } else { 0 };
    let in_order = are_in_order(records);
    let others = have_others(records, marks);
    let (made, marked, rooted) = (records.len(), marks.len(), roots.len());
    if made == 10_000
        && in_order
        && others
        && marked.saturating_add(rooted) == 10_001
        && closed.live == [live, 0, 0, 0, 0, 0, 0, 0, 0, 0, 0]
    {
        return Ok(());
    }
    let lives = closed.live;
    Err(Fail::new(format_args!(
        "{made} records, in order: {in_order}; {marked} marks, of others too: {others}; \
         {rooted} roots, {names} full; live {lives:?}"
    )))
}

// That is so of a table of side 4 behind four threads that wrote.
fn writes_whole<R: Threads + Wait + Sync>(
    rt: &R,
    alloc: Global,
    table: NodeTable,
    passes: Vec<Pass>,
) -> Result<(), Fail>
    requires { All (IsSpare table) passes.items }
{
    if table.plan().side().root_level() != 0 {
        let _number = ended(&table, passes);
        return Err(Fail::new(format_args!("another side")));
    }
    let passes = all_write(rt, &table, passes);
    match closed(alloc, table, passes) {
        Some(closed) => is_whole(&closed),
        None => Err(Fail::new(format_args!("no closed table"))),
    }
}

#[test]
fn four_threads_write_one_history(rt: HostRuntime) -> Result<(), Fail> {
    let side = Side::new(4).ok_or("a side")?;
    let plan = Plan::even(side, 1, 4).ok_or("a plan")?;
    let (table, passes) = begun(rt.alloc(), &plan, 4)?;
    writes_whole(&rt, rt.alloc(), table, passes)
}

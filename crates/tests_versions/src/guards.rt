//! The log's turn as a value, call by call: what it tells of a version, and the undos and redos
//! that it appends, in a world of side 4.
ghost use Rattle.std.specs.Prelude.{◌≡◌, ◌<◌, false, All};
ghost use Rattle.history_model.specs.Worlds.{is_edit};
ghost use Rattle.node_table.specs.Closing.{IsSpare};

use crate::calls::{Kept, Went, edit_uniform, fallen_back, forget_at};
use crate::uniform::{begun, ended, root_back};
use history_model::{Act, Mark};
use node_table::{NodeTable, Pass, log_length};
use node_words::{Name, Plan, Steps};
use std::marker::Brand;
use std::sync::Wait;
use std::sync::ledger::{Blank, Ledger};
use std::test::Fail;
use version_log::{SureRefused, sure};
use vw_cell::Side;

// What the turn shows of a version.
#[derive(Clone, Copy, Debug, PartialEq, Eq)]
enum Shown {
    Missing,
    Marked(Mark),
    Kept(Option<Name>),
}

// How long the log is, and what is shown of version v.
fn look_by_turn<R: Wait>(rt: &R, table: &NodeTable, pass: &mut Pass, v: u32) -> (u32, Shown)
    requires { IsSpare table.now pass.old }
    ensures { IsSpare table.now pass.new }
{
    let mut turn = sure(rt, table, pass);
    let at = turn.len();
    if v > at {
        turn.leave();
        return (at, Shown::Missing);
    }
    if let Some(mark) = turn.mark(v) {
        turn.leave();
        return (at, Shown::Marked(mark));
    }
    let root = turn.root(v);
    turn.leave();
    (at, Shown::Kept(root))
}

// What the pass tells that the turn lends: its session, how many shares it holds, and how long the
// log is.
#[derive(Clone, Copy, Debug, PartialEq, Eq)]
struct Lent {
    session: u16,
    held: u32,
    len: u32,
}

fn lent_by_turn<R: Wait>(rt: &R, table: &NodeTable, pass: &mut Pass) -> Lent
    requires { IsSpare table.now pass.old }
    ensures { IsSpare table.now pass.new }
{
    let mut turn = sure(rt, table, pass);
    let lent = turn.pass();
    let session = lent.number();
    let held = lent.held();
    let len = log_length(table, lent);
    turn.leave();
    Lent { session, held, len }
}

// An undo or a redo by the turn: the record and the version that it goes to.
fn go_by_turn<R: Wait, L: Ledger>(
    rt: &R,
    table: &NodeTable,
    pass: &mut Pass,
    line: u32,
    act: &Act,
    steps: &mut Steps<L>,
) -> Went
    requires spare { IsSpare table.now pass.old }
    requires act { is_edit act.now ≡ false }
    ensures { IsSpare table.now pass.new }
{
    let mut turn = sure(rt, table, pass);
    let to = turn.target(act);
    let Some(to) = to else {
        turn.leave();
        return Went::Nowhere;
    };
    if let Some(found) = turn.mark(to) {
        turn.leave();
        return Went::Marked(found);
    }
    let root = turn.keep(rt, to, steps);
    match turn.finish(line, act, root, 0) {
        Ok(committed) => {
            let Kept { n, fallen: _ } = fallen_back(rt, table, pass, committed, steps);
            Went::To(n, to)
        }
        Err(SureRefused::LogFull { root }) => {
            root_back(rt, table, pass, root, steps);
            Went::NoRoom
        }
    }
}

// The leaf that is the root of the full world.
const FULL: Name = Name {
    level: 0,
    bucket: 0,
    slot: 0,
};

// The mark on version 0, by line 3, when there were two records.
const MARK: Mark = Mark {
    version: 0,
    at: 2,
    session: 0,
    line: 3,
};

// What is told of a log whose first record sets all cells, and whose second one none: of versions
// 0 to 3, then of version 0 when it is forgotten, and of the versions behind an undo and a redo.
const LOOKS: [(u32, Shown); 7] = [
    (2, Shown::Kept(None)),
    (2, Shown::Kept(Some(FULL))),
    (2, Shown::Kept(None)),
    (2, Shown::Missing),
    (2, Shown::Marked(MARK)),
    (3, Shown::Kept(Some(FULL))),
    (4, Shown::Kept(None)),
];

// An undo, one that would go to version 0, a redo, and one that goes nowhere.
const WENT: [Went; 4] = [
    Went::To(3, 1),
    Went::Marked(MARK),
    Went::To(4, 2),
    Went::Nowhere,
];

// What is told of the pass that is lent behind two records.
const LENT: Lent = Lent {
    session: 0,
    held: 0,
    len: 2,
};

// What the turn tells, look by look and act by act, and what the pass tells that it lends.
#[derive(Clone, Copy, Debug, PartialEq, Eq)]
struct Told {
    lent: Lent,
    looks: [(u32, Shown); 7],
    went: [Went; 4],
}

fn told_by_turn<R: Wait, L: Ledger>(rt: &R, table: &NodeTable, a: &mut Pass, blank: Blank) -> Told
    requires name { blank.name ≡ L.name }
    requires parts { blank.parts ≡ L.parts }
    requires some { 0 < L.parts }
    requires spare { IsSpare table.now a.old }
    requires side { table.now.plan.side ≡ 2 }
    ensures { IsSpare table.now a.new }
{
    let mut steps: Steps<L> = Steps::start(blank);
    let _full = edit_uniform(rt, table, a, 1, true, &mut steps);
    let _blank = edit_uniform(rt, table, a, 2, false, &mut steps);
    let lent = lent_by_turn(rt, table, a);
    let zero = look_by_turn(rt, table, a, 0);
    let one = look_by_turn(rt, table, a, 1);
    let two = look_by_turn(rt, table, a, 2);
    let three = look_by_turn(rt, table, a, 3);
    let _forgot = forget_at(rt, table, a, 0, 3, &mut steps);
    let marked = look_by_turn(rt, table, a, 0);
    let undone = go_by_turn(rt, table, a, 4, &Act::Undo, &mut steps);
    let behind = look_by_turn(rt, table, a, 3);
    let refused = go_by_turn(rt, table, a, 5, &Act::Undo, &mut steps);
    let redone = go_by_turn(rt, table, a, 6, &Act::Redo, &mut steps);
    let last = look_by_turn(rt, table, a, 4);
    let nowhere = go_by_turn(rt, table, a, 7, &Act::Redo, &mut steps);
    Told {
        lent,
        looks: [zero, one, two, three, marked, behind, last],
        went: [undone, refused, redone, nowhere],
    }
}

// The same by the last pass of a table of side 4, of which all are ended.
fn told_last<R: Wait>(rt: &R, table: &NodeTable, mut passes: Vec<Pass>) -> Option<Told>
    requires { All (IsSpare table.now) passes.items }
{
    if table.plan().side().root_level() != 0 {
        let _number = ended(table, passes);
        return None;
    }
    let Some(mut a) = passes.pop() else {
        passes.destroy_empty();
        return None;
    };
    let told = told_by_turn::<R, Brand>(rt, table, &mut a, Blank::new(1));
    a.end();
    let _number = ended(table, passes);
    Some(told)
}

#[test]
fn a_turn_tells_of_versions_and_goes_back_and_on(rt: HostRuntime) -> Result<(), Fail> {
    let side = Side::new(4).ok_or("a side")?;
    let plan = Plan::even(side, 1, 2).ok_or("a plan")?;
    let (table, passes) = begun(rt.alloc(), &plan, 1)?;
    let told = told_last(&rt, &table, passes).ok_or("a pass")?;
    assert_eq!(rt; told.lent, LENT);
    for k in 0..7 {
        assert_eq!(rt; told.looks[k], LOOKS[k], "look {k}");
    }
    for k in 0..4 {
        assert_eq!(rt; told.went[k], WENT[k], "act {k}");
    }
    Ok(())
}

//! Two sessions of one world of side 4 meet at its log.
ghost use Rattle.std.specs.Prelude.{◌≡◌, ◌≤◌, ◌<◌, All};
ghost use Rattle.node_table.specs.Closing.{IsSpare};

use crate::calls::{
    WasPinned, Went, edit_uniform, finish_uniform, forget_at, go, go_keeping, pin_at,
};
use crate::edits::{Came, commit_uniform, let_go, pin_beside, try_uniform};
use crate::uniform::{all_back, begun, ended, uniform_root};
use history_model::{Act, Mark};
use node_table::{NodeTable, Pass};
use node_words::{Name, Plan, Steps};
use std::marker::Brand;
use std::sync::Wait;
use std::sync::ledger::{Blank, Ledger};
use std::test::Fail;
use version_log::{ForgetRefused, PinRefused, SameAt, SameRefused, head, same};
use vw_cell::Side;

// The leaf that is the root of the full world.
const FULL: Name = Name {
    level: 0,
    bucket: 0,
    slot: 0,
};

// The second session's mark on version 1, by its line 4, when there were three records.
const MARK: Mark = Mark {
    version: 1,
    at: 3,
    session: 1,
    line: 4,
};

// The marks of the versions that fall out of the last two, each by the line of the record that
// pushes it out.
const FALLEN: &[Mark] = &[
    Mark {
        version: 0,
        at: 2,
        session: 0,
        line: 2,
    },
    Mark {
        version: 1,
        at: 3,
        session: 0,
        line: 3,
    },
    Mark {
        version: 2,
        at: 4,
        session: 0,
        line: 5,
    },
];

/// What a call tells.
#[derive(Clone, Copy, Debug, PartialEq, Eq)]
enum Said {
    /// The record's number, or 0 where there is no room.
    Edit(u32),
    Pin(Result<WasPinned, PinRefused>),
    /// The head isn't pinned, or has a root.
    Unpinned,
    Came(Came),
    /// Where an undo or a redo goes, and the root of the version that fell out.
    Went(Went, Option<Name>),
    Forgot(Result<u32, ForgetRefused>),
    Same(Result<SameAt, SameRefused>),
    Length(u32),
}

/// A call that tells another thing than is wanted. The calls of a row are counted from 1.
#[derive(Clone, Copy, Debug, PartialEq, Eq)]
struct Wrong {
    call: usize,
    said: Said,
    wanted: Said,
}

// The first wrong one of calls from this number on, each with what it says and what is wanted.
fn first_wrong(from: usize, calls: &[(Said, Said)]) -> Option<Wrong> {
    for k in 0..calls.len() {
        let (said, wanted) = calls[k];
        if said != wanted {
            return Some(Wrong {
                call: from.saturating_add(k),
                said,
                wanted,
            });
        }
    }
    None
}

// The earlier wrong one, where there is one.
fn earlier(first: Option<Wrong>, then: Option<Wrong>) -> Option<Wrong> {
    match first {
        Some(wrong) => Some(wrong),
        None => then,
    }
}

fn pinned(version: u32, moment: u32, root: Option<Name>) -> Said {
    Said::Pin(Ok(WasPinned {
        version,
        moment,
        root,
    }))
}

// The second session pins what the first has appended.
fn wrong_of_seen<R: Wait, L: Ledger>(
    rt: &R,
    table: &NodeTable,
    a: &mut Pass,
    b: &mut Pass,
    steps: &mut Steps<L>,
) -> Option<Wrong>
    requires first { IsSpare table.now a.old }
    requires second { IsSpare table.now b.old }
    requires side { table.now.plan.side ≡ 2 }
    ensures first { IsSpare table.now a.new }
    ensures second { IsSpare table.now b.new }
{
    let before = pin_at(rt, table, b, None, steps);
    let n = edit_uniform(rt, table, a, 1, true, steps);
    let after = pin_at(rt, table, b, None, steps);
    let blank = pin_at(rt, table, b, Some(0), steps);
    let missing = pin_at(rt, table, b, Some(2), steps);
    first_wrong(
        1,
        &[
            (Said::Pin(before), pinned(0, 0, None)),
            (Said::Edit(n), Said::Edit(1)),
            (Said::Pin(after), pinned(1, 1, Some(FULL))),
            (Said::Pin(blank), pinned(0, 1, None)),
            (
                Said::Pin(missing),
                Said::Pin(Err(PinRefused::NoVersion { at: 1 })),
            ),
        ],
    )
}

// The head wasn't pinned by the row's first call.
fn unpinned() -> Option<Wrong> {
    Some(Wrong {
        call: 1,
        said: Said::Unpinned,
        wanted: pinned(0, 0, None),
    })
}

// An edit over a head that is no longer the last is too late, and its root is appended then.
fn wrong_of_late<R: Wait, L: Ledger>(
    rt: &R,
    table: &NodeTable,
    a: &mut Pass,
    b: &mut Pass,
    steps: &mut Steps<L>,
) -> Option<Wrong>
    requires first { IsSpare table.now a.old }
    requires second { IsSpare table.now b.old }
    requires side { table.now.plan.side ≡ 2 }
    ensures first { IsSpare table.now a.new }
    ensures second { IsSpare table.now b.new }
{
    let root = uniform_root(rt, table, b, true, steps);
    let Some(base) = pin_beside(rt, table, b, &root, steps) else {
        all_back(rt, table, b, root, steps);
        return unpinned();
    };
    let n = edit_uniform(rt, table, a, 1, true, steps);
    let (came, root) = commit_uniform(rt, table, b, &base, 7, root, 0, steps);
    let_go(base);
    let again = finish_uniform(rt, table, b, 8, root, steps);
    let seen = pin_at(rt, table, a, None, steps);
    first_wrong(
        2,
        &[
            (Said::Edit(n), Said::Edit(1)),
            (Said::Came(came), Said::Came(Came::Late(1))),
            (Said::Edit(again), Said::Edit(2)),
            (Said::Pin(seen), pinned(2, 2, Some(FULL))),
        ],
    )
}

// Appends records until there is no room, and says how many there are.
fn fill_up<R: Wait, L: Ledger>(
    rt: &R,
    table: &NodeTable,
    pass: &mut Pass,
    steps: &mut Steps<L>,
) -> u32
    requires spare { IsSpare table.now pass.old }
    requires side { table.now.plan.side ≡ 2 }
    ensures { IsSpare table.now pass.new }
{
    let mut last: u32 = 0;
    for line in 0..65_536u32 {
        let n = edit_uniform(rt, table, pass, line, false, steps);
        if n == 0 {
            return last;
        }
        last = n;
    }
    0
}

// A full log is told as full, and not as grown.
fn wrong_of_full<R: Wait, L: Ledger>(
    rt: &R,
    table: &NodeTable,
    a: &mut Pass,
    b: &mut Pass,
    steps: &mut Steps<L>,
) -> Option<Wrong>
    requires first { IsSpare table.now a.old }
    requires second { IsSpare table.now b.old }
    requires side { table.now.plan.side ≡ 2 }
    ensures first { IsSpare table.now a.new }
    ensures second { IsSpare table.now b.new }
{
    let root = uniform_root(rt, table, b, true, steps);
    let Some(base) = pin_beside(rt, table, b, &root, steps) else {
        all_back(rt, table, b, root, steps);
        return unpinned();
    };
    let last = fill_up(rt, table, a, steps);
    let (came, root) = commit_uniform(rt, table, b, &base, 7, root, 0, steps);
    let_go(base);
    let over = finish_uniform(rt, table, b, 8, root, steps);
    let undone = go(rt, table, a, 9, &Act::Undo, steps);
    first_wrong(
        2,
        &[
            (Said::Edit(last), Said::Edit(65_535)),
            (Said::Came(came), Said::Came(Came::NoRoom)),
            (Said::Edit(over), Said::Edit(0)),
            (Said::Went(undone, None), Said::Went(Went::NoRoom, None)),
        ],
    )
}

// What comes of comparing two versions.
#[derive(Clone, Copy)]
enum Told {
    Equal(bool),
    Missing(u32),
    Marked,
}

// Versions 0 to 3, of which 1 is forgotten, and those behind them.
const COMPARED: &[(u32, u32, Told)] = &[
    (0, 2, Told::Equal(true)),
    (2, 0, Told::Equal(true)),
    (0, 3, Told::Equal(false)),
    (3, 0, Told::Equal(false)),
    (3, 3, Told::Equal(true)),
    (1, 3, Told::Marked),
    (3, 1, Told::Marked),
    (1, 1, Told::Marked),
    (9, 1, Told::Missing(9)),
    (1, 9, Told::Marked),
    (3, 9, Told::Missing(9)),
    (9, 8, Told::Missing(9)),
];

fn answer(told: Told) -> Result<SameAt, SameRefused> {
    match told {
        Told::Equal(equal) => Ok(SameAt { at: 3, equal }),
        Told::Missing(version) => Err(SameRefused::NoVersion { at: 3, version }),
        Told::Marked => Err(SameRefused::Forgotten { at: 3, mark: MARK }),
    }
}

// They are compared as they should be, from call 10 on.
fn wrong_of_compared<R: Wait>(rt: &R, table: &NodeTable, pass: &mut Pass) -> Option<Wrong>
    requires { IsSpare table.now pass.old }
    ensures { IsSpare table.now pass.new }
{
    for k in 0..COMPARED.len() {
        let (v, w, told) = COMPARED[k];
        let came = same(rt, table, pass, v, w);
        let wanted = answer(told);
        if came != wanted {
            return Some(Wrong {
                call: 10usize.saturating_add(k),
                said: Said::Same(came),
                wanted: Said::Same(wanted),
            });
        }
    }
    None
}

// Version 1 of three is forgotten once, and neither the last nor one that is missing.
fn wrong_of_forgotten<R: Wait, L: Ledger>(
    rt: &R,
    table: &NodeTable,
    b: &mut Pass,
    steps: &mut Steps<L>,
) -> Option<Wrong>
    requires { IsSpare table.now b.old }
    ensures { IsSpare table.now b.new }
{
    let came = forget_at(rt, table, b, 1, 4, steps);
    let again = forget_at(rt, table, b, 1, 5, steps);
    let last = forget_at(rt, table, b, 3, 6, steps);
    let none = forget_at(rt, table, b, 4, 7, steps);
    let pinned = pin_at(rt, table, b, Some(1), steps);
    let mark = MARK;
    first_wrong(
        5,
        &[
            (Said::Forgot(came), Said::Forgot(Ok(3))),
            (
                Said::Forgot(again),
                Said::Forgot(Err(ForgetRefused::Forgotten { at: 3, mark })),
            ),
            (
                Said::Forgot(last),
                Said::Forgot(Err(ForgetRefused::IsHead { at: 3 })),
            ),
            (
                Said::Forgot(none),
                Said::Forgot(Err(ForgetRefused::NoVersion { at: 3 })),
            ),
            (
                Said::Pin(pinned),
                Said::Pin(Err(PinRefused::Forgotten { at: 3, mark })),
            ),
        ],
    )
}

// Undos and redos of these versions go where they should.
fn wrong_of_gone<R: Wait, L: Ledger>(
    rt: &R,
    table: &NodeTable,
    a: &mut Pass,
    steps: &mut Steps<L>,
) -> Option<Wrong>
    requires { IsSpare table.now a.old }
    ensures { IsSpare table.now a.new }
{
    let undone = go(rt, table, a, 8, &Act::Undo, steps);
    let marked = go(rt, table, a, 9, &Act::Undo, steps);
    let redone = go(rt, table, a, 10, &Act::Redo, steps);
    let nowhere = go(rt, table, a, 11, &Act::Redo, steps);
    let seen = pin_at(rt, table, a, None, steps);
    let length = head(rt, table, a);
    first_wrong(
        22,
        &[
            (Said::Went(undone, None), Said::Went(Went::To(4, 2), None)),
            (
                Said::Went(marked, None),
                Said::Went(Went::Marked(MARK), None),
            ),
            (Said::Went(redone, None), Said::Went(Went::To(5, 3), None)),
            (Said::Went(nowhere, None), Said::Went(Went::Nowhere, None)),
            (Said::Pin(seen), pinned(5, 5, Some(FULL))),
            (Said::Length(length), Said::Length(5)),
        ],
    )
}

// What comes of an edit over the head, where the last versions alone are kept, or all of them.
fn edit_keeping<R: Wait, L: Ledger>(
    rt: &R,
    table: &NodeTable,
    pass: &mut Pass,
    line: u32,
    full: bool,
    keep: u32,
    steps: &mut Steps<L>,
) -> Said
    requires spare { IsSpare table.now pass.old }
    requires side { table.now.plan.side ≡ 2 }
    ensures { IsSpare table.now pass.new }
{
    let root = uniform_root(rt, table, pass, full, steps);
    let Some(base) = pin_beside(rt, table, pass, &root, steps) else {
        all_back(rt, table, pass, root, steps);
        return Said::Unpinned;
    };
    let (came, root) = commit_uniform(rt, table, pass, &base, line, root, keep, steps);
    let_go(base);
    all_back(rt, table, pass, root, steps);
    Said::Came(came)
}

// The same by a try.
fn try_keeping<R: Wait, L: Ledger>(
    rt: &R,
    table: &NodeTable,
    pass: &mut Pass,
    line: u32,
    full: bool,
    keep: u32,
    steps: &mut Steps<L>,
) -> Said
    requires spare { IsSpare table.now pass.old }
    requires side { table.now.plan.side ≡ 2 }
    ensures { IsSpare table.now pass.new }
{
    let root = uniform_root(rt, table, pass, full, steps);
    let Some(base) = pin_beside(rt, table, pass, &root, steps) else {
        all_back(rt, table, pass, root, steps);
        return Said::Unpinned;
    };
    let (came, root) = try_uniform(rt, table, pass, &base, line, root, keep, steps);
    let_go(base);
    all_back(rt, table, pass, root, steps);
    Said::Came(came)
}

// Versions of both sessions are compared, forgotten, undone and redone.
fn wrong_of_told<R: Wait, L: Ledger>(
    rt: &R,
    table: &NodeTable,
    a: &mut Pass,
    b: &mut Pass,
    steps: &mut Steps<L>,
) -> Option<Wrong>
    requires first { IsSpare table.now a.old }
    requires second { IsSpare table.now b.old }
    requires side { table.now.plan.side ≡ 2 }
    ensures first { IsSpare table.now a.new }
    ensures second { IsSpare table.now b.new }
{
    let nowhere = go(rt, table, a, 0, &Act::Undo, steps);
    let first = edit_keeping(rt, table, b, 7, true, 0, steps);
    let second = edit_uniform(rt, table, a, 2, false, steps);
    let third = edit_keeping(rt, table, b, 7, true, 0, steps);
    let forgotten = wrong_of_forgotten(rt, table, b, steps);
    let compared = wrong_of_compared(rt, table, a);
    let gone = wrong_of_gone(rt, table, a, steps);
    let made = first_wrong(
        1,
        &[
            (Said::Went(nowhere, None), Said::Went(Went::Nowhere, None)),
            (first, Said::Came(Came::Done(1))),
            (Said::Edit(second), Said::Edit(2)),
            (third, Said::Came(Came::Done(3))),
        ],
    );
    earlier(made, earlier(forgotten, earlier(compared, gone)))
}

// Two edits, an undo and a redo are appended where the last two versions alone are kept: the second
// undo goes to one that fell out, and the root of the full one is handed over.
fn wrong_of_appended<R: Wait, L: Ledger>(
    rt: &R,
    table: &NodeTable,
    a: &mut Pass,
    steps: &mut Steps<L>,
) -> Option<Wrong>
    requires spare { IsSpare table.now a.old }
    requires side { table.now.plan.side ≡ 2 }
    ensures { IsSpare table.now a.new }
{
    let first = try_keeping(rt, table, a, 1, false, 2, steps);
    let second = edit_keeping(rt, table, a, 2, true, 2, steps);
    let (undone, blank) = go_keeping(rt, table, a, 3, &Act::Undo, 2, steps);
    let (marked, none) = go_keeping(rt, table, a, 4, &Act::Undo, 2, steps);
    let (redone, full) = go_keeping(rt, table, a, 5, &Act::Redo, 2, steps);
    first_wrong(
        1,
        &[
            (first, Said::Came(Came::Done(1))),
            (second, Said::Came(Came::Done(2))),
            (Said::Went(undone, blank), Said::Went(Went::To(3, 1), None)),
            (
                Said::Went(marked, none),
                Said::Went(Went::Marked(FALLEN[0]), None),
            ),
            (
                Said::Went(redone, full),
                Said::Went(Went::To(4, 2), Some(FULL)),
            ),
        ],
    )
}

// Each version that fell out has its mark, and the head is kept, from call 6 on.
fn wrong_of_fallen<R: Wait, L: Ledger>(
    rt: &R,
    table: &NodeTable,
    b: &mut Pass,
    steps: &mut Steps<L>,
) -> Option<Wrong>
    requires { IsSpare table.now b.old }
    ensures { IsSpare table.now b.new }
{
    let seen = pin_at(rt, table, b, None, steps);
    for k in 0..FALLEN.len() {
        let mark = FALLEN[k];
        let found = pin_at(rt, table, b, Some(mark.version), steps);
        let wanted = Err(PinRefused::Forgotten { at: 4, mark });
        if found != wanted {
            return Some(Wrong {
                call: 7usize.saturating_add(k),
                said: Said::Pin(found),
                wanted: Said::Pin(wanted),
            });
        }
    }
    first_wrong(6, &[(Said::Pin(seen), pinned(4, 4, Some(FULL)))])
}

// The last two versions alone are kept.
fn wrong_of_kept<R: Wait, L: Ledger>(
    rt: &R,
    table: &NodeTable,
    a: &mut Pass,
    b: &mut Pass,
    steps: &mut Steps<L>,
) -> Option<Wrong>
    requires first { IsSpare table.now a.old }
    requires second { IsSpare table.now b.old }
    requires side { table.now.plan.side ≡ 2 }
    ensures first { IsSpare table.now a.new }
    ensures second { IsSpare table.now b.new }
{
    let appended = wrong_of_appended(rt, table, a, steps);
    let fallen = wrong_of_fallen(rt, table, b, steps);
    earlier(appended, fallen)
}

// What two sessions do.
#[derive(Clone, Copy, Debug)]
enum Row {
    Seen,
    Late,
    Full,
    Told,
    Kept,
}

fn do_row<R: Wait, L: Ledger>(
    rt: &R,
    table: &NodeTable,
    a: &mut Pass,
    b: &mut Pass,
    row: Row,
    blank: Blank,
) -> Option<Wrong>
    requires name { blank.name ≡ L.name }
    requires parts { blank.parts ≡ L.parts }
    requires some { 0 < L.parts }
    requires first { IsSpare table.now a.old }
    requires second { IsSpare table.now b.old }
    requires side { table.now.plan.side ≡ 2 }
    ensures first { IsSpare table.now a.new }
    ensures second { IsSpare table.now b.new }
{
    let mut steps: Steps<L> = Steps::start(blank);
    match row {
        Row::Seen => wrong_of_seen(rt, table, a, b, &mut steps),
        Row::Late => wrong_of_late(rt, table, a, b, &mut steps),
        Row::Full => wrong_of_full(rt, table, a, b, &mut steps),
        Row::Told => wrong_of_told(rt, table, a, b, &mut steps),
        Row::Kept => wrong_of_kept(rt, table, a, b, &mut steps),
    }
}

/// How many passes more than two there were, and the first wrong call.
type Done = (u32, Option<Wrong>);

// The same by two passes of a table of side 4, which are ended.
fn two_do<R: Wait>(rt: &R, table: &NodeTable, mut passes: Vec<Pass>, row: Row) -> Option<Done>
    requires passes { All (IsSpare table.now) passes.items }
    requires side { table.now.plan.side ≡ 2 }
{
    let Some(mut b) = passes.pop() else {
        passes.destroy_empty();
        return None;
    };
    let Some(mut a) = passes.pop() else {
        b.end();
        passes.destroy_empty();
        return None;
    };
    let wrong = do_row::<R, Brand>(rt, table, &mut a, &mut b, row, Blank::new(1));
    a.end();
    b.end();
    Some((ended(table, passes), wrong))
}

fn all_do<R: Wait>(rt: &R, table: &NodeTable, passes: Vec<Pass>, row: Row) -> Option<Done>
    requires { All (IsSpare table.now) passes.items }
{
    if table.plan().side().root_level() != 0 {
        let _number = ended(table, passes);
        return None;
    }
    two_do(rt, table, passes, row)
}

#[test]
fn sessions_meet_at_the_log(rt: HostRuntime) -> Result<(), Fail> {
    let side = Side::new(4).ok_or("a side")?;
    let plan = Plan::even(side, 1, 2).ok_or("a plan")?;
    for row in [Row::Seen, Row::Late, Row::Full, Row::Told, Row::Kept] {
        let (table, passes) = begun(rt.alloc(), &plan, 2)?;
        let done = all_do(&rt, &table, passes, row);
        assert_eq!(rt; done, Some((0, None)), "{row:?}");
    }
    Ok(())
}

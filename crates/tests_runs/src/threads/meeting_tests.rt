//! Scripts that meet at a gate, so that each runs into what the other does.

use std::alloc::Global;
use std::sync::Wait;
use std::test::Fail;
use std::thread::Threads;
use testkit::GatePoint::{After, Before, Between};
use testkit::{Meeting, Rule};
use tests_program::{ask, ask_gated, has, is_end, shelf_with};
use vw_io::Shelf;

// How two scripts meet, the scripts, and their transcripts.
type Row = (
    &'static [Rule],
    &'static str,
    &'static str,
    &'static str,
    &'static str,
);

const SMALL_WORLD: &str = "run --side 8 one.vox s t";

const LARGE_WORLD: &str = "run --side 128 --buckets 64 --cap 256 one.vox s t";

// The first script begins once the second has pinned, and that one commits once the first has its
// answer. Whoever serves one session at a time never comes past it.
const PINNED_FIRST: &[Rule] = &[
    ((0, 1, Before), (1, 1, Between)),
    ((1, 1, Between), (0, 1, After)),
];

const ROWS: &[Row] = &[
    // one attempt comes too late
    (
        PINNED_FIRST,
        "fill 1 0 0 1 1 1\n",
        "try fill 0 0 0 1 1 1\n",
        "1 @1 ok\n",
        "1 @1 stale 0\n",
    ),
    // an edit that comes too late is made again
    (
        PINNED_FIRST,
        "fill 1 0 0 1 1 1\n",
        "fill 0 0 0 1 1 1\ncount 0 0 0 8 8 8\n",
        "1 @1 ok\n",
        "1 @2 ok\n2 @2 count 2\n",
    ),
];

// A large edit that comes too late is made again: beside what it takes over stands what the other
// session set.
const LARGE: &[Row] = &[
    // one of the 8 cells is the last of the 65
    (
        PINNED_FIRST,
        "fill 64 0 0 2 2 2\n",
        "fill 0 0 0 65 1 1\ncount 0 0 0 128 128 128\n",
        "1 @1 ok\n",
        "1 @2 ok\n2 @2 count 72\n",
    ),
    // the world has 18,361 cells of the ball, and the 8 are none of these
    (
        PINNED_FIRST,
        "fill 40 40 40 2 2 2\n",
        "ball 0 0 0 32\ncount 0 0 0 128 128 128\n",
        "1 @1 ok\n",
        "1 @2 ok\n2 @2 count 18369\n",
    ),
    // 33 of the 132 cells are copied
    (
        PINNED_FIRST,
        "fill 0 0 0 33 2 2\n",
        "copy 0 0 0 33 1 1 to 0 64 0\ncount 0 0 0 128 128 128\n",
        "1 @1 ok\n",
        "1 @2 ok\n2 @2 count 165\n",
    ),
];

// A version is forgotten beside an undo that goes back to it: before there is another one, ..
const FORGOTTEN_FIRST: &[Rule] = &[((0, 1, Before), (1, 1, After))];

// .. before the undo, ..
const FORGOTTEN_BETWEEN: &[Rule] = &[
    ((1, 1, Before), (0, 1, After)),
    ((0, 2, Before), (1, 1, After)),
];

// .. or behind it.
const FORGOTTEN_LAST: &[Rule] = &[((1, 1, Before), (0, 2, After))];

const UNDO: &str = "fill 0 0 0 1 1 1\nundo\n";

const FORGET: &str = "forget 0\n";

const FORGOTTEN: &[Row] = &[
    (
        FORGOTTEN_FIRST,
        UNDO,
        FORGET,
        "1 @1 ok\n2 @2 ok\n",
        "1 @0 is head\n",
    ),
    (
        FORGOTTEN_BETWEEN,
        UNDO,
        FORGET,
        "1 @1 ok\n2 @1 forgotten 0\n",
        "1 @1 forgot 0\n",
    ),
    (
        FORGOTTEN_LAST,
        UNDO,
        FORGET,
        "1 @1 ok\n2 @2 ok\n",
        "1 @2 forgot 0\n",
    ),
];

fn meet<R: Threads + Wait + Sync>(
    rt: &R,
    alloc: Global,
    line: &str,
    row: &Row,
) -> Result<(), Fail> {
    let &(rules, first, second, told_first, told_second) = row;
    let mut shelf = shelf_with(alloc, first.as_bytes())?;
    shelf.write("t", second.as_bytes())?;
    let meeting = Meeting::new(rules);
    let (ended, _) = ask_gated(rt, &meeting, alloc, line, &mut shelf)?;
    if meeting.is_given_up() {
        return Err(Fail::new(format_args!("a script waits in vain: {first}, {second}")));
    }
    is_end(line, ended, b"", 0, "")?;
    has(&shelf, "s.out", told_first)?;
    has(&shelf, "t.out", told_second)
}

#[test]
fn an_edit_that_meets_another_comes_too_late(rt: HostRuntime) -> Result<(), Fail> {
    for row in ROWS {
        meet(&rt, rt.alloc(), SMALL_WORLD, row)?;
    }
    Ok(())
}

#[test]
fn a_large_edit_that_meets_another_is_made_again(rt: HostRuntime) -> Result<(), Fail> {
    for row in LARGE {
        meet(&rt, rt.alloc(), LARGE_WORLD, row)?;
    }
    Ok(())
}

#[test]
fn a_version_is_forgotten_beside_an_undo(rt: HostRuntime) -> Result<(), Fail> {
    for row in FORGOTTEN {
        meet(&rt, rt.alloc(), SMALL_WORLD, row)?;
    }
    Ok(())
}

// With no gate in their way the scripts come to one of these outcomes.
fn come_to_one<R: Threads + Wait + Sync>(rt: &R, alloc: Global) -> Result<(), Fail> {
    let mut shelf = shelf_with(alloc, UNDO.as_bytes())?;
    shelf.write("t", FORGET.as_bytes())?;
    let (ended, _) = ask(rt, alloc, SMALL_WORLD, &mut shelf)?;
    is_end(SMALL_WORLD, ended, b"", 0, "")?;
    let first = shelf.file("s.out").unwrap_or_default();
    let second = shelf.file("t.out").unwrap_or_default();
    for row in FORGOTTEN {
        if first == row.3.as_bytes() && second == row.4.as_bytes() {
            return Ok(());
        }
    }
    let first = first.escape_ascii();
    let second = second.escape_ascii();
    Err(Fail::new(format_args!("none of three outcomes: {first}; {second}")))
}

#[test]
fn a_forgotten_version_has_one_of_three_outcomes(rt: HostRuntime) -> Result<(), Fail> {
    come_to_one(&rt, rt.alloc())
}

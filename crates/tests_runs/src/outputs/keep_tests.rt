//! Runs that hold their last versions alone.

use std::alloc::Global;
use std::sync::Wait;
use std::test::Fail;
use std::thread::Threads;
use testkit::{GatePoint, Rule};
use tests_program::{ANSWERS, GOOD, ONE, ends, ends_by, has, holds, lacks, shelf_with};
use vw_io::Shelf;

// How many last versions are held, the script, its transcript, the line, and the lines of the
// journal behind that of the side.
type Row = (u32, &'static str, &'static str, &'static str, &'static str);

const ROWS: &[Row] = &[
    (
        2,
        "fill 0 0 0 1 1 1\nfill 1 0 0 1 1 1\nundo\nundo\nredo\nat 0 count 0 0 0 8 8 8\n\
         count 0 0 0 8 8 8\n",
        "1 @1 ok\n2 @2 ok\n3 @3 ok\n4 @3 forgotten 0\n5 @4 ok\n6 @4 forgotten 0\n7 @4 count 2\n",
        "scripts 1 records 4 marks 3 nodes 4\n",
        "1 0 1 fill 0 0 0 1 1 1\n2 0 2 fill 1 0 0 1 1 1\n3 0 3 undo\n4 0 5 redo\n\
         mark 0 2 0 2\nmark 1 3 0 3\nmark 2 4 0 5\n",
    ),
    (
        1,
        "fill 0 0 0 1 1 1\nundo\n",
        "1 @1 ok\n2 @1 forgotten 0\n",
        "scripts 1 records 1 marks 1 nodes 2\n",
        "1 0 1 fill 0 0 0 1 1 1\nmark 0 1 0 1\n",
    ),
    // a version that is forgotten by hand keeps that mark as it falls out
    (
        2,
        "fill 0 0 0 1 1 1\nfill 1 0 0 1 1 1\nforget 1\nfill 2 0 0 1 1 1\nforget 1\n\
         at 2 count 0 0 0 8 8 8\nforget 2\nforget 3\n",
        "1 @1 ok\n2 @2 ok\n3 @2 forgot 1\n4 @3 ok\n5 @3 forgotten 1\n6 @3 count 2\n\
         7 @3 forgot 2\n8 @3 is head\n",
        "scripts 1 records 3 marks 3 nodes 2\n",
        "1 0 1 fill 0 0 0 1 1 1\n2 0 2 fill 1 0 0 1 1 1\n3 0 4 fill 2 0 0 1 1 1\n\
         mark 0 2 0 2\nmark 1 2 0 3\nmark 2 3 0 7\n",
    ),
    // an attempt pushes a version out as any change does
    (
        1,
        "try fill 0 0 0 1 1 1\nsame 0 1\nsame 1 1\n",
        "1 @1 ok\n2 @1 forgotten 0\n3 @1 same\n",
        "scripts 1 records 1 marks 1 nodes 2\n",
        "1 0 1 fill 0 0 0 1 1 1\nmark 0 1 0 1\n",
    ),
    // nothing falls out
    (
        65_535,
        GOOD,
        ANSWERS,
        "scripts 1 records 2 marks 0 nodes 4\n",
        "1 0 1 fill 0 0 0 2 1 1\n2 0 2 erase 1 0 0 1 1 1\n",
    ),
];

fn is_kept<R: Threads + Wait + Sync>(rt: &R, alloc: Global, row: &Row) -> Result<(), Fail> {
    let &(keep, script, transcript, printed, journal) = row;
    let mut shelf = shelf_with(alloc, script.as_bytes())?;
    let line = format!(in alloc; "run --side 8 --keep {keep} --journal j one.vox s")?;
    ends(rt, alloc, line.as_str(), &mut shelf, 0, printed)?;
    has(&shelf, "s.out", transcript)?;
    let want = format!(in alloc; "voxdag journal 1\nside 8\n{journal}end\n")?;
    has(&shelf, "j", want.as_str())
}

#[test]
fn versions_fall_out(rt: HostRuntime) -> Result<(), Fail> {
    for row in ROWS {
        is_kept(&rt, rt.alloc(), row)?;
    }
    Ok(())
}

// The report of the first row has the versions that are held alone.
const REPORT: &str =
    "voxdag report 1\nside 8\nrecords 4\nmarks 3\nversion 3 root 3\nversion 4 root 4\n\
     level 0 nodes 2\nlevel 1 nodes 2\n";

#[test]
fn reports_tell_the_last_versions(rt: HostRuntime) -> Result<(), Fail> {
    let script = ROWS[0].1;
    let mut shelf = shelf_with(rt.alloc(), script.as_bytes())?;
    let line = "run one.vox --keep=2 s --report p --side 8";
    ends(&rt, rt.alloc(), line, &mut shelf, 0, ROWS[0].3)?;
    has(&shelf, "p", REPORT)
}

// What was saved is written though its version fell out since.
const SAVES: &str = "fill 0 0 0 1 1 1\nsave v 0 0 0 1 1 1\nfill 1 0 0 1 1 1\nerase 0 0 0 1 1 1\n\
     at 1 save w 0 0 0 1 1 1\n";

const SAVED: &str = "1 @1 ok\n2 @1 saved 1\n3 @2 ok\n4 @3 ok\n5 @3 forgotten 1\n";

#[test]
fn a_save_outlives_its_version(rt: HostRuntime) -> Result<(), Fail> {
    let mut shelf = shelf_with(rt.alloc(), SAVES.as_bytes())?;
    let line = "run --side 8 --keep 1 one.vox s";
    let printed = "scripts 1 records 3 marks 3 nodes 2\n";
    ends(&rt, rt.alloc(), line, &mut shelf, 0, printed)?;
    has(&shelf, "s.out", SAVED)?;
    holds(&shelf, "v", &ONE)?;
    lacks(&shelf, "w")
}

// The script of two changes has its last answer, on line 3, before the second script begins.
const IN_TURN: &[Rule] = &[((1, 1, GatePoint::Before), (0, 3, GatePoint::After))];

const STAMP: &str = "stamp 0 7 7 7\nat 1 count 0 0 0 8 8 8\n";

const STAMPED: &str = "1 @3 ok\n2 @3 forgotten 1\n";

// Each version is forgotten by the session whose record pushes it out.
const BOTH_JOURNAL: &str =
    "voxdag journal 1\nside 8\n1 0 1 fill 0 0 0 2 1 1\n2 0 2 erase 1 0 0 1 1 1\n\
     3 1 1 stamp 0 7 7 7\nmark 0 2 0 2\nmark 1 3 1 1\nend\n";

#[test]
fn sessions_push_versions_out(rt: HostRuntime) -> Result<(), Fail> {
    let mut shelf = shelf_with(rt.alloc(), GOOD.as_bytes())?;
    shelf.write("t", STAMP.as_bytes())?;
    let line = "run --side 8 --keep 2 --journal j one.vox s t";
    let printed = "scripts 2 records 3 marks 2 nodes 4\n";
    ends_by(&rt, IN_TURN, rt.alloc(), line, &mut shelf, 0, printed)?;
    has(&shelf, "s.out", ANSWERS)?;
    has(&shelf, "t.out", STAMPED)?;
    has(&shelf, "j", BOTH_JOURNAL)
}

//! Versions of a world: undone, redone, forgotten, asked again, and told by the report.

use std::alloc::Global;
use std::sync::Wait;
use std::test::Fail;
use std::thread::Threads;
use tests_program::{ask, ends, has, is_end, shelf_with};

// The options of a run, its script, its transcript, and the line that it puts.
type Row = (&'static str, &'static str, &'static str, &'static str);

const EDITS: &[Row] = &[
    (
        "--side 8",
        "fill 0 0 0 1 1 1\nfill 2 0 0 1 1 1\ncopy 0 0 0 4 1 1 to 1 0 0\ncount 0 0 0 8 8 8\n\
         bounds\nget 2 0 0\nget 3 0 0\n",
        "1 @1 ok\n2 @2 ok\n3 @3 ok\n4 @3 count 3\n5 @3 bounds 0 0 0 4 1 1\n6 @3 clear\n\
         7 @3 set\n",
        "scripts 1 records 3 marks 0 nodes 6\n",
    ),
    (
        "--side 16",
        "ball 4 4 4 0\ncount 0 0 0 16 16 16\nball 4 4 4 1\ncount 0 0 0 16 16 16\n\
         ball 4 4 4 2\ncount 0 0 0 16 16 16\n",
        "1 @1 ok\n2 @1 count 1\n3 @2 ok\n4 @2 count 7\n5 @3 ok\n6 @3 count 33\n",
        "scripts 1 records 3 marks 0 nodes 19\n",
    ),
    (
        "--side 8",
        "ball 0 0 0 2\ncount 0 0 0 8 8 8\ncarve 0 0 0 2\nbounds\n",
        "1 @1 ok\n2 @1 count 11\n3 @2 ok\n4 @2 bounds none\n",
        "scripts 1 records 2 marks 0 nodes 2\n",
    ),
    (
        "--side 8",
        "fill 1 0 0 1 1 1\nray 0 0 0 1 1 1\n",
        "1 @1 ok\n2 @1 miss\n",
        "scripts 1 records 1 marks 0 nodes 2\n",
    ),
    (
        "--side 8",
        "fill 1 1 0 1 1 1\nray 0 1 0 1 -1 0\n",
        "1 @1 ok\n2 @1 hit 1 1 0\n",
        "scripts 1 records 1 marks 0 nodes 2\n",
    ),
    (
        "--side 8",
        "fill 0 0 0 1 1 1\nfill 1 0 0 1 1 1\nforget 1\nundo\nforget 2\nforget 9\n\
         at 1 get 0 0 0\nsame 0 2\nhead\n",
        "1 @1 ok\n2 @2 ok\n3 @2 forgot 1\n4 @2 forgotten 1\n5 @2 is head\n6 @2 no version 9\n\
         7 @2 forgotten 1\n8 @2 different\n9 @2 head\n",
        "scripts 1 records 2 marks 1 nodes 2\n",
    ),
];

fn is_answered<R: Threads + Wait + Sync>(rt: &R, alloc: Global, row: &Row) -> Result<(), Fail> {
    let &(options, script, transcript, printed) = row;
    let mut shelf = shelf_with(alloc, script.as_bytes())?;
    let line = format!(in alloc; "run {options} one.vox s")?;
    ends(rt, alloc, line.as_str(), &mut shelf, 0, printed)?;
    has(&shelf, "s.out", transcript)
}

#[test]
fn commands_have_their_answers(rt: HostRuntime) -> Result<(), Fail> {
    for row in EDITS {
        is_answered(&rt, rt.alloc(), row)?;
    }
    Ok(())
}

const UNDONE: &str =
    "undo\nfill 0 0 0 1 1 1\nundo\nfill 1 0 0 1 1 1\nredo\nundo\ncount 0 0 0 4 1 1\n";

const UNDONE_ANSWERS: &str =
    "1 @0 nothing to undo\n2 @1 ok\n3 @2 ok\n4 @3 ok\n5 @3 nothing to redo\n6 @4 ok\n\
     7 @4 count 0\n";

const UNDONE_JOURNAL: &str =
    "voxdag journal 1\nside 8\n1 0 2 fill 0 0 0 1 1 1\n2 0 3 undo\n3 0 4 fill 1 0 0 1 1 1\n\
     4 0 6 undo\nend\n";

#[test]
fn undos_stand_in_the_journal(rt: HostRuntime) -> Result<(), Fail> {
    let mut shelf = shelf_with(rt.alloc(), UNDONE.as_bytes())?;
    let line = "run --side 8 --journal j one.vox s";
    let printed = "scripts 1 records 4 marks 0 nodes 4\n";
    ends(&rt, rt.alloc(), line, &mut shelf, 0, printed)?;
    has(&shelf, "s.out", UNDONE_ANSWERS)?;
    has(&shelf, "j", UNDONE_JOURNAL)
}

// The options of a run, its script, its transcript, and what its report says behind the first line.
const REPORTS: &[Row] = &[
    (
        "--side 8",
        "fill 0 0 0 1 1 1\nerase 0 0 0 1 1 1\nforget 0\nforget 1\n",
        "1 @1 ok\n2 @2 ok\n3 @2 forgot 0\n4 @2 forgot 1\n",
        "side 8\nrecords 2\nmarks 2\nversion 2 empty\nlevel 0 nodes 0\nlevel 1 nodes 0\n",
    ),
    (
        "--side 8",
        "fill 0 0 0 8 8 8\ncount 0 0 0 8 8 8\nfaces 0 0 0 8 8 8\n",
        "1 @1 ok\n2 @1 count 512\n3 @1 faces 384\n",
        "side 8\nrecords 1\nmarks 0\nversion 0 empty\nversion 1 root 1\nlevel 0 nodes 1\n\
         level 1 nodes 1\n",
    ),
    (
        "--side 8",
        "fill 0 0 0 1 1 1\nfill 4 0 0 1 1 1\nforget 1\n",
        "1 @1 ok\n2 @2 ok\n3 @2 forgot 1\n",
        "side 8\nrecords 2\nmarks 1\nversion 0 empty\nversion 2 root 2\nlevel 0 nodes 1\n\
         level 1 nodes 1\n",
    ),
    (
        "--side 4 --buckets 1 --cap 1",
        "fill 0 0 0 1 1 1\nfill 1 0 0 1 1 1\nat 1 count 0 0 0 4 4 4\n",
        "1 @1 ok\n2 @1 full 0 0\n3 @1 count 1\n",
        "side 4\nrecords 1\nmarks 0\nversion 0 empty\nversion 1 root 1\nlevel 0 nodes 1\n",
    ),
    // a leaf is found again, and the second root has no room
    (
        "--side 8 --buckets 1 --cap 1",
        "fill 0 0 0 1 1 1\nfill 4 0 0 1 1 1\n",
        "1 @1 ok\n2 @1 full 1 0\n",
        "side 8\nrecords 1\nmarks 0\nversion 0 empty\nversion 1 root 1\nlevel 0 nodes 1\n\
         level 1 nodes 1\n",
    ),
    // a third leaf has none
    (
        "--side 8 --buckets 1 --cap 2",
        "fill 0 0 0 1 1 1\nfill 4 0 0 2 1 1\nfill 0 4 0 3 1 1\n",
        "1 @1 ok\n2 @2 ok\n3 @2 full 0 0\n",
        "side 8\nrecords 2\nmarks 0\nversion 0 empty\nversion 1 root 1\nversion 2 root 2\n\
         level 0 nodes 2\nlevel 1 nodes 2\n",
    ),
    // a world of 68,719,476,736 cells: no list of them is made in a test's time
    (
        "--side 4096",
        "fill 0 0 0 4096 4096 4096\nerase 0 0 0 1 1 1\nundo\nsame 1 3\nsame 1 2\n",
        "1 @1 ok\n2 @2 ok\n3 @3 ok\n4 @3 same\n5 @3 different\n",
        "side 4096\nrecords 3\nmarks 0\nversion 0 empty\nversion 1 root 1\nversion 2 root 2\n\
         version 3 root 1\nlevel 0 nodes 2\nlevel 1 nodes 2\nlevel 2 nodes 2\nlevel 3 nodes 2\n\
         level 4 nodes 2\nlevel 5 nodes 2\nlevel 6 nodes 2\nlevel 7 nodes 2\nlevel 8 nodes 2\n\
         level 9 nodes 2\nlevel 10 nodes 2\n",
    ),
];

fn is_reported<R: Threads + Wait + Sync>(rt: &R, alloc: Global, row: &Row) -> Result<(), Fail> {
    let &(options, script, transcript, report) = row;
    let mut shelf = shelf_with(alloc, script.as_bytes())?;
    let line = format!(in alloc; "run {options} --report p one.vox s")?;
    let (ended, _) = ask(rt, alloc, line.as_str(), &mut shelf)?;
    is_end(line.as_str(), ended, b"", 0, "")?;
    has(&shelf, "s.out", transcript)?;
    let want = format!(in alloc; "voxdag report 1\n{report}")?;
    has(&shelf, "p", want.as_str())
}

#[test]
fn reports_tell_the_versions_that_are_kept(rt: HostRuntime) -> Result<(), Fail> {
    for row in REPORTS {
        is_reported(&rt, rt.alloc(), row)?;
    }
    Ok(())
}

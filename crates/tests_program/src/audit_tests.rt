//! Audits of what runs left, and of such texts with a piece changed.

use crate::calls::{ends, has, shelf_with};
use std::alloc::Global;
use std::test::Fail;
use vw_io::{MemoryShelf, Shelf};

const SCRIPT: &str =
    "undo\nfill 0 0 0 1 1 1\nundo\nfill 1 0 0 1 1 1\nredo\nundo\ncount 0 0 0 4 1 1\n";

const JOURNAL: &str = "voxdag journal 1\nside 8\n1 0 2 fill 0 0 0 1 1 1\n2 0 3 undo\n\
                       3 0 4 fill 1 0 0 1 1 1\n4 0 6 undo\nend\n";

const ANSWERS: &str = "1 @0 nothing to undo\n2 @1 ok\n3 @2 ok\n4 @3 ok\n5 @3 nothing to redo\n\
                       6 @4 ok\n7 @4 count 0\n";

// A shelf with these texts of a script, a journal and a transcript.
fn shelf(
    alloc: Global,
    script: &str,
    journal: &str,
    transcript: &str,
) -> Result<MemoryShelf, Fail> {
    let mut shelf = shelf_with(alloc, script.as_bytes())?;
    shelf.write("j", journal.as_bytes())?;
    shelf.write("s.out", transcript.as_bytes())?;
    Ok(shelf)
}

// The line of a run, what it prints, its script and transcript, and the line of its audit.
const RUNS: &[(&str, &str, &str, &str, &str)] = &[
    (
        "run --side 8 --journal j one.vox s",
        "scripts 1 records 4 marks 0 nodes 4\n",
        SCRIPT,
        ANSWERS,
        "audit one.vox j s",
    ),
    (
        "run --side 4 --buckets 1 --cap 1 --journal j one.vox s",
        "scripts 1 records 1 marks 0 nodes 1\n",
        "fill 0 0 0 1 1 1\nfill 1 0 0 1 1 1\nat 1 count 0 0 0 4 4 4\n",
        "1 @1 ok\n2 @1 full 0 0\n3 @1 count 1\n",
        "audit --buckets 1 one.vox j s",
    ),
    (
        "run --side 8 --keep 2 --journal j one.vox s",
        "scripts 1 records 4 marks 3 nodes 4\n",
        FALLING,
        FALLEN,
        "audit --keep 2 one.vox j s",
    ),
    // of cells with tints: tint 5, tint 2, tint 5 again, and tint 2 again, of which two are held
    (
        "run --colours --side 8 --keep 2 --journal j one.vox s",
        "scripts 1 records 4 marks 3 nodes 7\n",
        "fill 0 0 0 1 1 1 5\nfill 0 0 0 1 1 1 2\nundo\nundo\nredo\nat 0 colour 0 0 0\n\
         colour 0 0 0\nat 3 colour 0 0 0\n",
        "1 @1 ok\n2 @2 ok\n3 @3 ok\n4 @3 forgotten 0\n5 @4 ok\n6 @4 forgotten 0\n\
         7 @4 colour 2\n8 @4 colour 5\n",
        "audit --keep 2 one.vox j s",
    ),
];

// Of a run that holds its last two versions alone.
const FALLING: &str =
    "fill 0 0 0 1 1 1\nfill 1 0 0 1 1 1\nundo\nundo\nredo\nat 0 count 0 0 0 8 8 8\n\
     count 0 0 0 8 8 8\n";

const FALLEN: &str =
    "1 @1 ok\n2 @2 ok\n3 @3 ok\n4 @3 forgotten 0\n5 @4 ok\n6 @4 forgotten 0\n7 @4 count 2\n";

const FALLEN_JOURNAL: &str =
    "voxdag journal 1\nside 8\n1 0 1 fill 0 0 0 1 1 1\n2 0 2 fill 1 0 0 1 1 1\n3 0 3 undo\n\
     4 0 5 redo\nmark 0 2 0 2\nmark 1 3 0 3\nmark 2 4 0 5\nend\n";

#[test]
fn a_run_is_audited_yes(rt: HostRuntime) -> Result<(), Fail> {
    for &(run, printed, script, transcript, audit) in RUNS {
        let mut shelf = shelf_with(rt.alloc(), script.as_bytes())?;
        ends(&rt, rt.alloc(), run, &mut shelf, 0, printed)?;
        has(&shelf, "s.out", transcript)?;
        ends(&rt, rt.alloc(), audit, &mut shelf, 0, "yes\n")?;
        has(&shelf, "s.out", transcript)?;
    }
    Ok(())
}

// What an audit of that run answers, by the options that it is given.
const HELD: &[(&str, &str)] = &[
    ("audit --keep 2 one.vox j s", "yes\n"),
    ("audit --keep 2 --buckets 4 one.vox j s", "yes\n"),
    ("audit --buckets 4 --keep 000002 one.vox j s", "yes\n"),
    ("audit one.vox j s", "no\n"),
    ("audit --keep 1 one.vox j s", "no\n"),
    ("audit --keep 3 one.vox j s", "no\n"),
    ("audit --keep 65535 one.vox j s", "no\n"),
];

#[test]
fn an_audit_is_of_as_many_last_versions(rt: HostRuntime) -> Result<(), Fail> {
    let mut shelf = shelf(rt.alloc(), FALLING, FALLEN_JOURNAL, FALLEN)?;
    for &(line, printed) in HELD {
        ends(&rt, rt.alloc(), line, &mut shelf, 0, printed)?;
    }
    Ok(())
}

// A journal, a transcript, the status of their audit, and what it prints.
const CHANGED: &[(&str, &str, u8, &str)] = &[
    (JOURNAL, ANSWERS, 0, "yes\n"),
    (
        JOURNAL,
        "1 @0 nothing to undo\n2 @1 ok\n3 @2 ok\n4 @3 ok\n5 @3 nothing to redo\n6 @4 ok\n7 @4 count 1\n",
        0,
        "no\n",
    ),
    (
        "voxdag journal 1\nside 8\n1 0 2 fill 0 0 0 1 1 1\n2 0 3 undo\n3 0 4 fill 1 0 0 1 1 1\nend\n",
        ANSWERS,
        0,
        "no\n",
    ),
    (
        "voxdag journal 1\nside 8\n1 0 1 undo\nend\n",
        ANSWERS,
        0,
        "no\n",
    ),
    (
        JOURNAL,
        "1 @0 nothing to undo\n2 @1 fine\n",
        15,
        "voxdag: transcript 0 2\n",
    ),
    (JOURNAL, "1 @0 head", 15, "voxdag: transcript 0 1\n"),
    (
        "voxdag journal 1\nside 8\n1 0 2 fill 0 0 0 1 1 0\nend\n",
        "fine\n",
        12,
        "voxdag: journal 3\n",
    ),
    (
        "voxdag journal 1\nside 8\n1 0 1 undo\n",
        ANSWERS,
        12,
        "voxdag: journal 4\n",
    ),
    ("voxdag journal 2\n", "fine\n", 12, "voxdag: journal 2\n"),
    (
        "voxdag journal 2\nside 8\nend\n",
        "fine\n",
        15,
        "voxdag: transcript 0 1\n",
    ),
];

#[test]
fn a_changed_text_is_seen(rt: HostRuntime) -> Result<(), Fail> {
    for &(journal, transcript, status, printed) in CHANGED {
        let mut shelf = shelf(rt.alloc(), SCRIPT, journal, transcript)?;
        let line = "audit one.vox j s";
        ends(&rt, rt.alloc(), line, &mut shelf, status, printed)?;
        has(&shelf, "j", journal)?;
        has(&shelf, "s.out", transcript)?;
    }
    Ok(())
}

// Of two scripts, the second of which sets a cell and counts behind the first.
const FIRST: &str = "fill 0 0 0 2 1 1\nerase 1 0 0 1 1 1\ncount 0 0 0 8 8 8\n";

const FIRST_OUT: &str = "1 @1 ok\n2 @2 ok\n3 @2 count 1\n";

const SECOND: &str = "stamp 0 7 7 7\ncount 0 0 0 8 8 8\n";

const SECOND_OUT: &str = "1 @3 ok\n2 @3 count 2\n";

const BOTH_JOURNAL: &str =
    "voxdag journal 1\nside 8\n1 0 1 fill 0 0 0 2 1 1\n2 0 2 erase 1 0 0 1 1 1\n\
     3 1 1 stamp 0 7 7 7\nend\n";

// A line over the two scripts `s` and `t`, over `hed` and `fine`, of which the first is a script
// with a fault and the second has a transcript with one, and how it ends.
const SEVERAL: &[(&str, u8, &str)] = &[
    ("audit one.vox j s t", 0, "yes\n"),
    ("audit --buckets 4 one.vox j s t", 0, "yes\n"),
    // the records of a session are those of its script
    ("audit one.vox j t s", 0, "no\n"),
    ("audit one.vox j s s", 0, "no\n"),
    // a record is no script's, or a script's line is no record
    ("audit one.vox j s", 0, "no\n"),
    ("audit one.vox j s t t", 0, "no\n"),
    // a script that changes nothing is one of them
    ("audit one.vox j s t none", 0, "yes\n"),
    ("audit one.vox j s none t", 0, "no\n"),
    ("audit one.vox j s hed", 5, "voxdag: script 1 3 1\n"),
    ("audit one.vox j s t hed", 5, "voxdag: script 2 3 1\n"),
    ("audit one.vox j hed hed", 5, "voxdag: script 0 3 1\n"),
    ("audit one.vox j s fine", 15, "voxdag: transcript 1 2\n"),
    ("audit one.vox j s t fine", 15, "voxdag: transcript 2 2\n"),
    // all scripts are read before a transcript is
    ("audit one.vox j fine hed", 5, "voxdag: script 1 3 1\n"),
    ("audit one.vox j s t no", 2, "voxdag: missing no\n"),
    ("audit one.vox j lost no", 2, "voxdag: missing no\n"),
    ("audit one.vox j s lost", 2, "voxdag: missing lost.out\n"),
];

fn shelf_of_several(alloc: Global) -> Result<MemoryShelf, Fail> {
    let mut shelf = shelf(alloc, FIRST, BOTH_JOURNAL, FIRST_OUT)?;
    shelf.write("t", SECOND.as_bytes())?;
    shelf.write("t.out", SECOND_OUT.as_bytes())?;
    shelf.write("none", b"# nothing\n")?;
    shelf.write("none.out", b"")?;
    shelf.write("hed", b"head\n\nhed\n")?;
    shelf.write("hed.out", b"")?;
    shelf.write("fine", b"head\nhead\n")?;
    shelf.write("fine.out", b"1 @3 head\n2 @3 fine\n")?;
    shelf.write("lost", b"head\n")?;
    Ok(shelf)
}

#[test]
fn several_scripts_are_audited(rt: HostRuntime) -> Result<(), Fail> {
    let mut shelf = shelf_of_several(rt.alloc())?;
    for &(line, status, printed) in SEVERAL {
        ends(&rt, rt.alloc(), line, &mut shelf, status, printed)?;
    }
    Ok(())
}

// A line over a script with a fault and a transcript with one, and how it ends.
const REFUSED: &[(&str, u8, &str)] = &[
    ("audit one.vox j s", 5, "voxdag: script 0 2 1\n"),
    ("audit s j s", 4, "voxdag: vox 1 0\n"),
    ("audit one.vox s s", 12, "voxdag: journal 1\n"),
    ("audit one.vox no s", 2, "voxdag: missing no\n"),
    ("audit one.vox j s no", 2, "voxdag: missing no\n"),
    (
        "audit one.vox j one.vox",
        2,
        "voxdag: missing one.vox.out\n",
    ),
    ("audit one.vox j", 1, "voxdag: usage\n"),
    ("audit --buckets 0 one.vox j s", 1, "voxdag: usage\n"),
    ("audit --buckets 4097 one.vox j s", 1, "voxdag: usage\n"),
    ("audit --buckets=16 one.vox j s", 1, "voxdag: usage\n"),
    ("audit --keep 0 one.vox j s", 1, "voxdag: usage\n"),
    ("audit --keep 65536 one.vox j s", 1, "voxdag: usage\n"),
    ("audit --keep=2 one.vox j s", 1, "voxdag: usage\n"),
    ("audit one.vox --keep 2 j s", 1, "voxdag: usage\n"),
    ("audit one.vox j s --buckets 1", 1, "voxdag: usage\n"),
    (
        "audit --buckets 1 --buckets 1 one.vox j s",
        1,
        "voxdag: usage\n",
    ),
    ("audit --keep 1 --keep 2 one.vox j s", 1, "voxdag: usage\n"),
];

#[test]
fn the_first_fault_decides(rt: HostRuntime) -> Result<(), Fail> {
    let mut shelf = shelf(rt.alloc(), "head\nhed\n", JOURNAL, "fine\n")?;
    for &(line, status, printed) in REFUSED {
        ends(&rt, rt.alloc(), line, &mut shelf, status, printed)?;
    }
    Ok(())
}

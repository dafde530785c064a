//! Runs over worlds whose cells have tints.

use std::alloc::Global;
use std::sync::Wait;
use std::test::Fail;
use std::thread::Threads;
use testkit::{GatePoint, Rule};
use tests_program::{ANSWERS, GOOD, ends, ends_by, has, holds, lacks, shelf_with};
use vw_io::{MemoryShelf, Shelf};

// A cell gets tint 5, and then tint 2: the second fill goes over the first.
const TWICE: &str = "fill 0 0 0 1 1 1 5\ncolour 0 0 0\ncolour 1 0 0\ncount 0 0 0 8 8 8\n\
     fill 0 0 0 1 1 1 2\ncolour 0 0 0\nsave c.vox 0 0 0 1 1 1\n";

const TWICE_ANSWERS: &str =
    "1 @1 ok\n2 @1 colour 5\n3 @1 colour 0\n4 @1 count 1\n5 @2 ok\n6 @2 colour 2\n7 @2 saved 1\n";

const TWICE_JOURNAL: &str =
    "voxdag journal 2\nside 8\n1 0 1 fill 0 0 0 1 1 1 5\n2 0 5 fill 0 0 0 1 1 1 2\nend\n";

// The store has four times the side. Tint 5 has cells in the planes of all cells and of bits 0 and
// 2, of which the last two share a block of side 16, and tint 2 in those of all cells and of bit 1.
const TWICE_REPORT: &str =
    "voxdag report 1\nside 32\nrecords 2\nmarks 0\nversion 0 empty\nversion 1 root 1\n\
     version 2 root 2\nlevel 0 nodes 1\nlevel 1 nodes 1\nlevel 2 nodes 3\nlevel 3 nodes 2\n";

const TWICE_LINE: &str = "scripts 1 records 2 marks 0 nodes 7\n";

// A model of one cell of colour 2, whose last byte is that colour.
const OF_TWO: [u8; 64] =
    *b"VOX \x96\0\0\0MAIN\0\0\0\0\x2c\0\0\0SIZE\x0c\0\0\0\0\0\0\0\x01\0\0\0\x01\0\0\0\x01\0\0\0\
     XYZI\x08\0\0\0\0\0\0\0\x01\0\0\0\0\0\0\x02";

// Two models: one cell of colour 1, and a row of three places, of colours 7, none and 9.
const MODELS: &[u8] = b"VOX \x96\0\0\0MAIN\0\0\0\0\x5c\0\0\0\
    SIZE\x0c\0\0\0\0\0\0\0\x01\0\0\0\x01\0\0\0\x01\0\0\0\
    XYZI\x08\0\0\0\0\0\0\0\x01\0\0\0\0\0\0\x01\
    SIZE\x0c\0\0\0\0\0\0\0\x03\0\0\0\x01\0\0\0\x01\0\0\0\
    XYZI\x0c\0\0\0\0\0\0\0\x02\0\0\0\0\0\0\x07\x02\0\0\x09";

// A shelf with these models and the script `s`.
fn shelf_of(alloc: Global, script: &str) -> Result<MemoryShelf, Fail> {
    let mut shelf = shelf_with(alloc, script.as_bytes())?;
    shelf.write("two.vox", MODELS)?;
    Ok(shelf)
}

// Two boxes get tints 3 and 4, and the row is stamped over the last cell of the first box and both
// cells of the second, of which the first keeps its tint.
const STAMPED: &str = "fill 0 0 0 2 1 1 3\nfill 2 0 0 2 1 1 4\nstamp 1 1 0 0\ncolour 0 0 0\n\
     colour 1 0 0\ncolour 2 0 0\ncolour 3 0 0\nget 2 0 0\nget 4 0 0\nat 2 colour 1 0 0\n\
     at 2 colour 3 0 0\ncount 0 0 0 8 8 8\n";

const STAMPED_ANSWERS: &str = "1 @1 ok\n2 @2 ok\n3 @3 ok\n4 @3 colour 3\n5 @3 colour 7\n\
     6 @3 colour 4\n7 @3 colour 9\n8 @3 set\n9 @3 clear\n10 @3 colour 3\n11 @3 colour 4\n\
     12 @3 count 4\n";

const STAMPED_JOURNAL: &str =
    "voxdag journal 2\nside 8\n1 0 1 fill 0 0 0 2 1 1 3\n2 0 2 fill 2 0 0 2 1 1 4\n\
     3 0 3 stamp 1 1 0 0\nend\n";

// The planes of all cells and of bits 0 to 3 have these x set: 01, 01, 01 in version 1; 0123, 01,
// 01, 23 in version 2; 0123, 013, 01, 12, 3 in version 3. So there are six leaves, each in a block
// of side 8; of side 16 two blocks of all cells and three of the bits; and three roots.
const STAMPED_LINE: &str = "scripts 1 records 3 marks 0 nodes 20\n";

// A shelf after a run of this script with tints at side 8, which puts this line.
fn coloured<R: Threads + Wait + Sync>(
    rt: &R,
    alloc: Global,
    script: &str,
    printed: &str,
) -> Result<MemoryShelf, Fail> {
    let mut shelf = shelf_of(alloc, script)?;
    let line = "run --colours --side 8 --journal j --report p two.vox s";
    ends(rt, alloc, line, &mut shelf, 0, printed)?;
    Ok(shelf)
}

#[test]
fn cells_have_their_last_tint(rt: HostRuntime) -> Result<(), Fail> {
    let shelf = coloured(&rt, rt.alloc(), TWICE, TWICE_LINE)?;
    has(&shelf, "s.out", TWICE_ANSWERS)?;
    has(&shelf, "j", TWICE_JOURNAL)?;
    has(&shelf, "p", TWICE_REPORT)?;
    holds(&shelf, "c.vox", &OF_TWO)
}

// No level of this run can need 256 contents, so that no bucket of so many slots is full.
#[test]
fn roomy_buckets_refuse_no_tint(rt: HostRuntime) -> Result<(), Fail> {
    let mut shelf = shelf_with(rt.alloc(), TWICE.as_bytes())?;
    let line = "run --colours --side 8 --cap 256 one.vox s";
    ends(&rt, rt.alloc(), line, &mut shelf, 0, TWICE_LINE)?;
    has(&shelf, "s.out", TWICE_ANSWERS)
}

// Tint 5 needs two blocks of side 16, of all cells and of bits 0 and 2, and tint 2 that of all
// cells and one of bit 1. A bucket of two slots has no room for the third of these, so the cell
// keeps tint 5. Behind the version with tint 5 there is room for the two blocks of another cell.
const CROWDED: &str = "fill 0 0 0 1 1 1 5\nfill 0 0 0 1 1 1 2\ncolour 0 0 0\nundo\nforget 1\n\
     fill 4 0 0 1 1 1 2\ncolour 4 0 0\n";

const CROWDED_ANSWERS: &str =
    "1 @1 ok\n2 @1 full 2 0\n3 @1 colour 5\n4 @2 ok\n5 @2 forgot 1\n6 @3 ok\n7 @3 colour 2\n";

const CROWDED_JOURNAL: &str =
    "voxdag journal 2\nside 8\n1 0 1 fill 0 0 0 1 1 1 5\n2 0 4 undo\n3 0 6 fill 4 0 0 1 1 1 2\n\
     mark 1 2 0 5\nend\n";

#[test]
fn a_crowded_bucket_refuses_a_tint(rt: HostRuntime) -> Result<(), Fail> {
    let mut shelf = shelf_with(rt.alloc(), CROWDED.as_bytes())?;
    let line = "run --colours --buckets 1 --cap 2 --side 8 --journal j one.vox s";
    let printed = "scripts 1 records 3 marks 1 nodes 5\n";
    ends(&rt, rt.alloc(), line, &mut shelf, 0, printed)?;
    has(&shelf, "s.out", CROWDED_ANSWERS)?;
    has(&shelf, "j", CROWDED_JOURNAL)
}

// Scripts, the lines that they put, and their transcripts.
const ROWS: &[(&str, &str, &str)] = &[
    // a fill without a tint gives tint 1
    (GOOD, "scripts 1 records 2 marks 0 nodes 8\n", ANSWERS),
    // a stamp gives the colours of its model
    (
        "fill 2 0 0 1 1 1 6\nstamp 0 2 0 0\ncolour 2 0 0\n",
        "scripts 1 records 2 marks 0 nodes 6\n",
        "1 @1 ok\n2 @2 ok\n3 @2 colour 1\n",
    ),
    // and leaves the tints of cells that it doesn't set
    (STAMPED, STAMPED_LINE, STAMPED_ANSWERS),
    // the last tint there is, in the last cell that there is
    (
        "fill 7 7 7 1 1 1 255\ncolour 7 7 7\nat 0 colour 7 7 7\nget 7 7 7\nbounds\n\
         ray 0 7 7 1 0 0\n",
        "scripts 1 records 1 marks 0 nodes 5\n",
        "1 @1 ok\n2 @1 colour 255\n3 @1 colour 0\n4 @1 set\n5 @1 bounds 7 7 7 1 1 1\n\
         6 @1 hit 7 7 7\n",
    ),
    // versions are the same where their tints are
    (
        "fill 0 0 0 1 1 1 5\nfill 0 0 0 1 1 1 2\nsame 1 2\nundo\nsame 1 3\ncolour 0 0 0\nredo\n\
         same 2 4\ncolour 0 0 0\n",
        "scripts 1 records 4 marks 0 nodes 7\n",
        "1 @1 ok\n2 @2 ok\n3 @2 different\n4 @3 ok\n5 @3 same\n6 @3 colour 5\n7 @4 ok\n\
         8 @4 same\n9 @4 colour 2\n",
    ),
    // a copy takes tints along, and cells that are cleared have none
    (
        "ball 4 4 4 1 7\ncopy 4 4 4 1 1 1 to 0 0 0\ncolour 0 0 0\ncarve 4 4 4 0\ncolour 4 4 4\n\
         at 2 colour 4 4 4\ntry erase 0 0 0 1 1 1\ncolour 0 0 0\ncount 0 0 0 8 8 8\n\
         faces 0 0 0 8 8 8\n",
        "scripts 1 records 4 marks 0 nodes 22\n",
        "1 @1 ok\n2 @2 ok\n3 @2 colour 7\n4 @3 ok\n5 @3 colour 0\n6 @3 colour 7\n7 @4 ok\n\
         8 @4 colour 0\n9 @4 count 6\n10 @4 faces 36\n",
    ),
];

#[test]
fn tints_are_told(rt: HostRuntime) -> Result<(), Fail> {
    for &(script, printed, transcript) in ROWS {
        let shelf = coloured(&rt, rt.alloc(), script, printed)?;
        has(&shelf, "s.out", transcript)?;
    }
    Ok(())
}

// A stamp of the file of one cell gives its colour 1 to a cell that had another.
#[test]
fn a_cell_of_another_file_has_its_tint(rt: HostRuntime) -> Result<(), Fail> {
    let script = b"fill 2 0 0 1 1 1 6\nstamp 0 2 0 0\ncolour 2 0 0\n";
    let mut shelf = shelf_with(rt.alloc(), script)?;
    let line = "run --colours --side 8 one.vox s";
    let printed = "scripts 1 records 2 marks 0 nodes 6\n";
    ends(&rt, rt.alloc(), line, &mut shelf, 0, printed)?;
    has(&shelf, "s.out", "1 @1 ok\n2 @2 ok\n3 @2 colour 1\n")
}

// Words of a script that fit no world with tints, and the line that says so.
const REFUSED: &[(&str, &str)] = &[
    ("fill 0 0 0 1 1 1 0\n", "voxdag: script 0 1 3\n"),
    ("fill 0 0 0 1 1 1 256\n", "voxdag: script 0 1 3\n"),
    ("ball 0 0 0 1 0\n", "voxdag: script 0 1 3\n"),
    ("ball 0 0 0 1 256\n", "voxdag: script 0 1 3\n"),
    ("try fill 0 0 0 1 1 1 0\n", "voxdag: script 0 1 3\n"),
    ("erase 0 0 0 1 1 1 5\n", "voxdag: script 0 1 5\n"),
    ("carve 0 0 0 1 5\n", "voxdag: script 0 1 5\n"),
    ("fill 0 0 0 1 1 1 5 5\n", "voxdag: script 0 1 5\n"),
    ("colour 8 0 0\n", "voxdag: script 0 1 3\n"),
    ("at 0 colour 8 0 0\n", "voxdag: script 0 1 3\n"),
    ("colour 0 0\n", "voxdag: script 0 1 4\n"),
    ("colour 0 0 0 0\n", "voxdag: script 0 1 5\n"),
    ("fill 8 0 0 1 1 1 5\n", "voxdag: script 0 1 3\n"),
];

#[test]
fn tints_have_their_range(rt: HostRuntime) -> Result<(), Fail> {
    for &(script, printed) in REFUSED {
        let mut shelf = shelf_with(rt.alloc(), script.as_bytes())?;
        let line = "run --colours --side 8 one.vox s";
        ends(&rt, rt.alloc(), line, &mut shelf, 5, printed)?;
        lacks(&shelf, "s.out")?;
    }
    Ok(())
}

// Without the flag no cell has a tint.
#[test]
fn plain_runs_take_no_tint(rt: HostRuntime) -> Result<(), Fail> {
    for &(script, printed) in &[
        ("fill 0 0 0 1 1 1 5\n", "voxdag: script 0 1 5\n"),
        ("ball 0 0 0 1 5\n", "voxdag: script 0 1 5\n"),
        ("colour 0 0 0\n", "voxdag: script 0 1 1\n"),
        ("at 0 colour 0 0 0\n", "voxdag: script 0 1 1\n"),
    ] {
        let mut shelf = shelf_with(rt.alloc(), script.as_bytes())?;
        let line = "run --side 8 one.vox s";
        ends(&rt, rt.alloc(), line, &mut shelf, 5, printed)?;
    }
    Ok(())
}

// The line of an audit of what a run of one script left.
const AUDIT: &str = "audit two.vox j s";

#[test]
fn coloured_runs_are_audited_yes(rt: HostRuntime) -> Result<(), Fail> {
    for &(script, printed, _) in ROWS {
        let mut shelf = coloured(&rt, rt.alloc(), script, printed)?;
        ends(&rt, rt.alloc(), AUDIT, &mut shelf, 0, "yes\n")?;
    }
    Ok(())
}

// A script, a journal, a transcript, the status of their audit, and what it puts.
type Left = (&'static str, &'static str, &'static str, u8, &'static str);

const LEFT: &[Left] = &[
    (TWICE, TWICE_JOURNAL, TWICE_ANSWERS, 0, "yes\n"),
    // a record has another tint than its line gave
    (
        TWICE,
        "voxdag journal 2\nside 8\n1 0 1 fill 0 0 0 1 1 1 6\n2 0 5 fill 0 0 0 1 1 1 2\nend\n",
        TWICE_ANSWERS,
        0,
        "no\n",
    ),
    // a cell is told another tint than it had
    (
        TWICE,
        TWICE_JOURNAL,
        "1 @1 ok\n2 @1 colour 4\n3 @1 colour 0\n4 @1 count 1\n5 @2 ok\n6 @2 colour 2\n\
         7 @2 saved 1\n",
        0,
        "no\n",
    ),
    (STAMPED, STAMPED_JOURNAL, STAMPED_ANSWERS, 0, "yes\n"),
    // a cell that the model set is told the tint that it had before
    (
        STAMPED,
        STAMPED_JOURNAL,
        "1 @1 ok\n2 @2 ok\n3 @3 ok\n4 @3 colour 3\n5 @3 colour 3\n6 @3 colour 4\n\
         7 @3 colour 9\n8 @3 set\n9 @3 clear\n10 @3 colour 3\n11 @3 colour 4\n12 @3 count 4\n",
        0,
        "no\n",
    ),
    // a cell that the model left is told a tint of the model
    (
        STAMPED,
        STAMPED_JOURNAL,
        "1 @1 ok\n2 @2 ok\n3 @3 ok\n4 @3 colour 3\n5 @3 colour 7\n6 @3 colour 7\n\
         7 @3 colour 9\n8 @3 set\n9 @3 clear\n10 @3 colour 3\n11 @3 colour 4\n12 @3 count 4\n",
        0,
        "no\n",
    ),
    // a cell that the model left is told to be clear
    (
        STAMPED,
        STAMPED_JOURNAL,
        "1 @1 ok\n2 @2 ok\n3 @3 ok\n4 @3 colour 3\n5 @3 colour 7\n6 @3 colour 4\n\
         7 @3 colour 9\n8 @3 clear\n9 @3 clear\n10 @3 colour 3\n11 @3 colour 4\n\
         12 @3 count 4\n",
        0,
        "no\n",
    ),
    // versions of the same cells have other tints
    (
        "fill 0 0 0 1 1 1 5\nfill 0 0 0 1 1 1 2\nsame 1 2\n",
        "voxdag journal 2\nside 8\n1 0 1 fill 0 0 0 1 1 1 5\n2 0 2 fill 0 0 0 1 1 1 2\nend\n",
        "1 @1 ok\n2 @2 ok\n3 @2 same\n",
        0,
        "no\n",
    ),
    // a fill without a tint gave tint 1
    (
        "fill 0 0 0 1 1 1\n",
        "voxdag journal 2\nside 8\n1 0 1 fill 0 0 0 1 1 1 1\nend\n",
        "1 @1 ok\n",
        0,
        "yes\n",
    ),
    // a history without tints has no script that gives any
    (
        TWICE,
        "voxdag journal 1\nside 8\n1 0 1 fill 0 0 0 1 1 1\n2 0 5 fill 0 0 0 1 1 1\nend\n",
        TWICE_ANSWERS,
        5,
        "voxdag: script 0 1 5\n",
    ),
    // the store is larger than the world
    (
        "fill 8 0 0 1 1 1 5\n",
        "voxdag journal 2\nside 8\nend\n",
        "",
        5,
        "voxdag: script 0 1 3\n",
    ),
    (
        TWICE,
        "voxdag journal 2\nside 8\n1 0 1 fill 8 0 0 1 1 1 5\nend\n",
        "",
        12,
        "voxdag: journal 3\n",
    ),
];

fn is_audited<R: Threads + Wait + Sync>(rt: &R, alloc: Global, left: &Left) -> Result<(), Fail> {
    let &(script, journal, transcript, status, printed) = left;
    let mut shelf = shelf_of(alloc, script)?;
    shelf.write("j", journal.as_bytes())?;
    shelf.write("s.out", transcript.as_bytes())?;
    ends(rt, alloc, AUDIT, &mut shelf, status, printed)
}

#[test]
fn audits_judge_tints(rt: HostRuntime) -> Result<(), Fail> {
    for left in LEFT {
        is_audited(&rt, rt.alloc(), left)?;
    }
    Ok(())
}

// The file of the versions that the first run left. Behind the header: a leaf with its first cell;
// a block of side 8 that begins with it; the blocks of side 16 of bit 1, of all cells, and of bits
// 0 and 2; the stores of tint 2 and of tint 5; and the three versions with their roots.
const TWICE_DAG: [u8; 256] = *b"VDAG\x01\0\0\0\x20\0\0\0\x03\0\0\0\
    \x01\0\0\0\x01\0\0\0\x03\0\0\0\x02\0\0\0\
    \x01\0\0\0\0\0\0\0\
    \x01\0\0\0\0\0\0\0\0\0\0\0\0\0\0\0\0\0\0\0\0\0\0\0\0\0\0\0\0\0\0\0\
    \0\0\0\0\x01\0\0\0\0\0\0\0\0\0\0\0\0\0\0\0\0\0\0\0\0\0\0\0\0\0\0\0\
    \x01\0\0\0\0\0\0\0\0\0\0\0\0\0\0\0\0\0\0\0\0\0\0\0\0\0\0\0\0\0\0\0\
    \x01\0\0\0\0\0\0\0\x01\0\0\0\0\0\0\0\0\0\0\0\0\0\0\0\0\0\0\0\0\0\0\0\
    \x02\0\0\0\x01\0\0\0\0\0\0\0\0\0\0\0\0\0\0\0\0\0\0\0\0\0\0\0\0\0\0\0\
    \x02\0\0\0\x03\0\0\0\0\0\0\0\0\0\0\0\0\0\0\0\0\0\0\0\0\0\0\0\0\0\0\0\
    \0\0\0\0\0\0\0\0\x01\0\0\0\x02\0\0\0\x02\0\0\0\x01\0\0\0";

// A question of that file, its status, and what it puts: the cells are those of the store.
const LOOKS: &[(&str, u8, &str)] = &[
    ("look d 0 bounds", 0, "bounds none\n"),
    ("look d 1 count 0 0 0 8 8 8", 0, "count 1\n"),
    ("look d 1 count 0 0 0 32 32 32", 0, "count 3\n"),
    ("look d 1 bounds", 0, "bounds 0 0 0 17 9 1\n"),
    ("look d 1 get 16 8 0", 0, "set\n"),
    ("look d 1 get 24 0 0", 0, "clear\n"),
    ("look d 2 bounds", 0, "bounds 0 0 0 25 1 1\n"),
    ("look d 2 ray 1 0 0 1 0 0", 0, "hit 24 0 0\n"),
    ("look d 2 get 32 0 0", 10, "voxdag: no place\n"),
];

#[test]
fn versions_of_a_coloured_journal_are_written(rt: HostRuntime) -> Result<(), Fail> {
    let mut shelf = coloured(&rt, rt.alloc(), TWICE, TWICE_LINE)?;
    ends(&rt, rt.alloc(), "dag one.vox j d", &mut shelf, 0, "")?;
    holds(&shelf, "d", &TWICE_DAG)?;
    for &(line, status, printed) in LOOKS {
        ends(&rt, rt.alloc(), line, &mut shelf, status, printed)?;
    }
    Ok(())
}

// The second script begins when the first has ended.
const IN_TURN: &[Rule] = &[((1, 1, GatePoint::Before), (0, 2, GatePoint::After))];

const BOTH_JOURNAL: &str =
    "voxdag journal 2\nside 8\n1 0 1 fill 0 0 0 1 1 1 5\n2 1 1 fill 0 0 0 1 1 1 2\nend\n";

// A session tells the tints that others gave, and what it saved has them.
#[test]
fn sessions_see_the_tints_of_others(rt: HostRuntime) -> Result<(), Fail> {
    let first = "fill 0 0 0 1 1 1 5\ncolour 0 0 0\n";
    let second = "fill 0 0 0 1 1 1 2\nat 1 colour 0 0 0\ncolour 0 0 0\nsave c.vox 0 0 0 1 1 1\n";
    let mut shelf = shelf_with(rt.alloc(), first.as_bytes())?;
    shelf.write("t", second.as_bytes())?;
    let line = "run --colours --side 8 --journal j one.vox s t";
    let printed = "scripts 2 records 2 marks 0 nodes 7\n";
    ends_by(&rt, IN_TURN, rt.alloc(), line, &mut shelf, 0, printed)?;
    has(&shelf, "s.out", "1 @1 ok\n2 @1 colour 5\n")?;
    let seen = "1 @2 ok\n2 @2 colour 5\n3 @2 colour 2\n4 @2 saved 1\n";
    has(&shelf, "t.out", seen)?;
    has(&shelf, "j", BOTH_JOURNAL)?;
    holds(&shelf, "c.vox", &OF_TWO)
}

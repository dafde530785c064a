use std::alloc::Global;
use std::sync::Wait;
use std::test::Fail;
use std::thread::Threads;
use testkit::{GatePoint, Rule};
use tests_program::{
    ANSWERS, GOOD, JOURNAL, ONE, TWO, ends, ends_by, has, holds, holds_last, is_end, is_refused,
    lacks, one_fault, repeated, shelf_with, voxdag, words_of,
};
use vw_io::{FaultyShelf, FaultySink, MemoryShelf, Shelf};

// Of a script with these changes in the lines 4 and 5.
const LATER_JOURNAL: &str =
    "voxdag journal 1\nside 8\n1 0 4 fill 0 0 0 2 1 1\n2 0 5 erase 1 0 0 1 1 1\nend\n";

const STAMP: &str = "stamp 0 7 7 7\ncount 0 0 0 8 8 8\n";

const STAMPED: &str = "1 @1 ok\n2 @1 count 1\n";

const STAMP_JOURNAL: &str = "voxdag journal 1\nside 8\n1 0 1 stamp 0 7 7 7\nend\n";

const EMPTY_JOURNAL: &str = "voxdag journal 1\nside 8\nend\n";

const USAGE: &str = "voxdag: usage\n";

const NONE: &str = "scripts 1 records 0 marks 0 nodes 0\n";

// One cell in a world of side 8.
const SINGLE: &str = "scripts 1 records 1 marks 0 nodes 2\n";

// A script that is run alone has this line, transcript and journal, and its inputs stay.
fn is_run<R: Threads + Wait + Sync>(
    rt: &R,
    alloc: Global,
    script: &str,
    printed: &str,
    transcript: &str,
    journal: &str,
) -> Result<(), Fail> {
    let mut shelf = shelf_with(alloc, script.as_bytes())?;
    let line = "run --side 8 --journal j one.vox s";
    ends(rt, alloc, line, &mut shelf, 0, printed)?;
    has(&shelf, "s.out", transcript)?;
    has(&shelf, "j", journal)?;
    has(&shelf, "s", script)?;
    holds(&shelf, "one.vox", &ONE)
}

#[test]
fn scripts_have_their_outputs(rt: HostRuntime) -> Result<(), Fail> {
    for &(script, printed, transcript, journal) in &[
        (GOOD, TWO, ANSWERS, JOURNAL),
        (STAMP, SINGLE, STAMPED, STAMP_JOURNAL),
        (
            "# one\n\n \t \n\tfill  0 0 0\t2 1 1 \r\n  erase 1 0 0 1 1 1\r\n\r\ncount 0 0 0 8 8 8",
            TWO,
            "4 @1 ok\n5 @2 ok\n7 @2 count 1\n",
            LATER_JOURNAL,
        ),
        ("count 0 0 0 8 8 8\r", NONE, "1 @0 count 0\n", EMPTY_JOURNAL),
        ("\n\r", NONE, "", EMPTY_JOURNAL),
        ("", NONE, "", EMPTY_JOURNAL),
    ] {
        is_run(&rt, rt.alloc(), script, printed, transcript, journal)?;
    }
    Ok(())
}

// The file of a model of size 2 1 1 with two voxels at x = 1, of these colours.
fn two_voxels(alloc: Global, first: u8, last: u8) -> Result<Vec<u8>, Fail> {
    let mut file = Vec::from_slice(
        alloc,
        b"VOX \x96\0\0\0MAIN\0\0\0\0\x30\0\0\0SIZE\x0c\0\0\0\0\0\0\0\x02\0\0\0\x01\0\0\0\x01\0\0\0\
XYZI\x0c\0\0\0\0\0\0\0\x02\0\0\0",
    )?;
    file.extend_from_slice(&[1, 0, 0, first, 1, 0, 0, last])?;
    Ok(file)
}

const STAMPS: &str = "stamp 0 6 7 7\ncount 0 0 0 8 8 8\ncount 7 7 7 1 1 1\nfill 0 0 0 2 1 1\n\
     stamp 0 0 0 0\ncount 0 0 0 2 1 1\n";

// A stamp of such a model sets so many cells.
fn sets<R: Threads + Wait + Sync>(
    rt: &R,
    alloc: Global,
    first: u8,
    last: u8,
    cells: u32,
    printed: &str,
) -> Result<(), Fail> {
    let mut shelf = shelf_with(alloc, STAMPS.as_bytes())?;
    shelf.write("two.vox", two_voxels(alloc, first, last)?.as_slice())?;
    ends(rt, alloc, "run --side 8 two.vox s", &mut shelf, 0, printed)?;
    let want = format!(in alloc;
        "1 @1 ok\n2 @1 count {cells}\n3 @1 count {cells}\n4 @2 ok\n5 @3 ok\n6 @3 count 2\n"
    )?;
    has(&shelf, "s.out", want.as_str())
}

#[test]
fn stamps_set_the_cells_of_a_model(rt: HostRuntime) -> Result<(), Fail> {
    for &(first, last, cells, printed) in &[
        (5, 6, 1, "scripts 1 records 3 marks 0 nodes 4\n"),
        (5, 0, 0, "scripts 1 records 3 marks 0 nodes 2\n"),
        (0, 5, 1, "scripts 1 records 3 marks 0 nodes 4\n"),
    ] {
        sets(&rt, rt.alloc(), first, last, cells, printed)?;
    }
    Ok(())
}

fn writes_nothing<R: Threads + Wait + Sync>(
    rt: &R,
    alloc: Global,
    script: &str,
    printed: &str,
) -> Result<(), Fail> {
    let mut shelf = shelf_with(alloc, script.as_bytes())?;
    let line = "run --side 8 --journal j --report p one.vox s";
    ends(rt, alloc, line, &mut shelf, 5, printed)?;
    lacks(&shelf, "s.out")?;
    lacks(&shelf, "j")?;
    lacks(&shelf, "p")
}

#[test]
fn refused_scripts_write_nothing(rt: HostRuntime) -> Result<(), Fail> {
    for &(script, printed) in &[
        ("fill 0 0 0 0 1 1\n", "voxdag: script 0 1 3\n"),
        ("fill 0 0 0 1 1 1\npaint\n", "voxdag: script 0 2 1\n"),
        ("paint 0 0 0 1 1 1\n", "voxdag: script 0 1 1\n"),
        ("stamp 1 8 0 0\n", "voxdag: script 0 1 6\n"),
        ("stamp 0 8 0 0\n", "voxdag: script 0 1 3\n"),
        ("head\nsave a.vox 0 0 0 1 1\n", "voxdag: script 0 2 4\n"),
        ("try undo\n", "voxdag: script 0 1 1\n"),
        ("fill 255 255 255 1 1 1\n", "voxdag: script 0 1 3\n"),
    ] {
        writes_nothing(&rt, rt.alloc(), script, printed)?;
    }
    Ok(())
}

#[test]
fn inputs_must_be_there(rt: HostRuntime) -> Result<(), Fail> {
    for &(line, printed) in &[
        ("run one.vox s t", "voxdag: missing t\n"),
        ("run no.vox no", "voxdag: missing no.vox\n"),
        ("run one.vox no", "voxdag: missing no\n"),
    ] {
        is_refused(&rt, rt.alloc(), line, 2, printed)?;
    }
    Ok(())
}

// The script of two changes has its last answer, on line 3, before the second script begins.
const IN_TURN: &[Rule] = &[((1, 1, GatePoint::Before), (0, 3, GatePoint::After))];

// The transcript of the stamp behind the two changes, as session 1, and the journal of both.
const SECOND: &str = "1 @3 ok\n2 @3 count 2\n";

const BOTH_JOURNAL: &str =
    "voxdag journal 1\nside 8\n1 0 1 fill 0 0 0 2 1 1\n2 0 2 erase 1 0 0 1 1 1\n\
     3 1 1 stamp 0 7 7 7\nend\n";

// What comes of a second script behind the two changes: the status, the line, both transcripts and
// the journal.
type Both = (
    u8,
    &'static str,
    Option<&'static str>,
    Option<&'static str>,
    Option<&'static str>,
);

const BOTH: &str = "scripts 2 records 3 marks 0 nodes 6\n";

const BOTH_RUN: Both = (0, BOTH, Some(ANSWERS), Some(SECOND), Some(BOTH_JOURNAL));

const NONE_RUNS: Both = (5, "voxdag: script 1 2 1\n", None, None, None);

fn is_second<R: Threads + Wait + Sync>(
    rt: &R,
    alloc: Global,
    script: &str,
    both: &Both,
) -> Result<(), Fail> {
    let &(status, printed, first, second, journal) = both;
    let mut shelf = shelf_with(alloc, GOOD.as_bytes())?;
    shelf.write("t", script.as_bytes())?;
    let line = "run --side 8 --journal j one.vox s t";
    ends_by(rt, IN_TURN, alloc, line, &mut shelf, status, printed)?;
    stands(&shelf, "s.out", first)?;
    stands(&shelf, "t.out", second)?;
    stands(&shelf, "j", journal)
}

// The file of this name has this text, or there is none.
fn stands(shelf: &MemoryShelf, name: &str, want: Option<&str>) -> Result<(), Fail> {
    match want {
        Some(text) => has(shelf, name, text),
        None => lacks(shelf, name),
    }
}

#[test]
fn scripts_in_turn_have_their_outputs(rt: HostRuntime) -> Result<(), Fail> {
    is_second(&rt, rt.alloc(), STAMP, &BOTH_RUN)?;
    is_second(&rt, rt.alloc(), "\npaint\n", &NONE_RUNS)
}

// These of three scripts, of which two have a fault, are refused so.
fn is_first<R: Threads + Wait + Sync>(
    rt: &R,
    alloc: Global,
    scripts: &str,
    printed: &str,
) -> Result<(), Fail> {
    let mut shelf = shelf_with(alloc, b"fill 0 0 0 0 1 1\n")?;
    shelf.write("t", b"head\npaint\n")?;
    shelf.write("u", GOOD.as_bytes())?;
    shelf.write("u.out", b"kept")?;
    let line = format!(in alloc; "run --side 8 one.vox {scripts}")?;
    ends(rt, alloc, line.as_str(), &mut shelf, 5, printed)?;
    has(&shelf, "u.out", "kept")
}

#[test]
fn the_first_script_with_a_fault_decides(rt: HostRuntime) -> Result<(), Fail> {
    for &(scripts, printed) in &[
        ("s t u", "voxdag: script 0 1 3\n"),
        ("t s u", "voxdag: script 0 2 1\n"),
        ("u s t", "voxdag: script 1 1 3\n"),
        ("u u t", "voxdag: script 2 2 1\n"),
    ] {
        is_first(&rt, rt.alloc(), scripts, printed)?;
    }
    Ok(())
}

// Of three files, the second is no VOX file, and of two scripts, `bad` has a fault. A line over
// them has more than one fault, and ends by that of the earliest step: the words, the files, the
// VOX file, the scripts in order, the names.
const FAULTS: &[(&str, u8, &str)] = &[
    ("run --side 5 no.vox no", 1, USAGE),
    ("run --side 8 broken no", 2, "voxdag: missing no\n"),
    (
        "run --side 8 --journal s no.vox s",
        2,
        "voxdag: missing no.vox\n",
    ),
    ("run --side 8 broken s", 4, "voxdag: vox 4 8\n"),
    ("run --side 8 broken bad", 4, "voxdag: vox 4 8\n"),
    ("run --side 8 broken s s", 4, "voxdag: vox 4 8\n"),
    ("run --side 8 --journal s broken s", 4, "voxdag: vox 4 8\n"),
    (
        "run --side 8 --journal bad one.vox bad",
        5,
        "voxdag: script 0 2 3\n",
    ),
    (
        "run --side 8 --report j --journal j one.vox s bad",
        5,
        "voxdag: script 1 2 3\n",
    ),
    ("run --side 8 one.vox bad bad", 5, "voxdag: script 0 2 3\n"),
    ("run --side 8 one.vox s s", 1, USAGE),
];

fn shelf_of_faults(alloc: Global) -> Result<MemoryShelf, Fail> {
    let mut shelf = shelf_with(alloc, GOOD.as_bytes())?;
    shelf.write("broken", ONE.get(..30).unwrap_or_default())?;
    shelf.write("bad", b"head\nfill 0 0 0 9 1 1\n")?;
    Ok(shelf)
}

#[test]
fn the_first_fault_decides(rt: HostRuntime) -> Result<(), Fail> {
    let mut shelf = shelf_of_faults(rt.alloc())?;
    for &(line, status, printed) in FAULTS {
        ends(&rt, rt.alloc(), line, &mut shelf, status, printed)?;
        lacks(&shelf, "s.out")?;
        lacks(&shelf, "bad.out")?;
        lacks(&shelf, "j")?;
    }
    Ok(())
}

fn leaves_all<R: Threads + Wait + Sync>(rt: &R, alloc: Global, line: &str) -> Result<(), Fail> {
    let mut shelf = shelf_with(alloc, GOOD.as_bytes())?;
    shelf.write("s.out", &ONE)?;
    ends(rt, alloc, line, &mut shelf, 1, USAGE)?;
    holds(&shelf, "one.vox", &ONE)?;
    holds(&shelf, "s.out", &ONE)?;
    has(&shelf, "s", GOOD)
}

#[test]
fn outputs_take_no_other_name(rt: HostRuntime) -> Result<(), Fail> {
    for &line in &[
        "run --side 8 --journal s one.vox s",
        "run --side 8 --journal one.vox one.vox s",
        "run --side 8 --journal s.out one.vox s",
        "run --side 8 --report s one.vox s",
        "run --side 8 --report one.vox one.vox s",
        "run --side 8 --report s.out one.vox s",
        "run --side 8 --journal j --report j one.vox s",
        "run --side 8 s.out s",
    ] {
        leaves_all(&rt, rt.alloc(), line)?;
    }
    Ok(())
}

// A script of so many fills of one cell and of these lines ends its transcript so.
fn is_full_log<R: Threads + Wait + Sync>(
    rt: &R,
    alloc: Global,
    fills: u32,
    lines: &str,
    last: &str,
) -> Result<(), Fail> {
    let mut script = repeated(alloc, "fill 0 0 0 1 1 1\n", fills)?;
    script.extend_from_slice(lines.as_bytes())?;
    let mut shelf = shelf_with(alloc, script.as_slice())?;
    let line = "run --side 8 one.vox s";
    let printed = "scripts 1 records 65535 marks 0 nodes 2\n";
    ends(rt, alloc, line, &mut shelf, 0, printed)?;
    holds_last(&shelf, "s.out", last.as_bytes())
}

#[test]
fn runs_have_65535_records(rt: HostRuntime) -> Result<(), Fail> {
    let last = "\n65535 @65535 ok\n65536 @65535 log full\n";
    is_full_log(&rt, rt.alloc(), 65_536, "", last)
}

// The last record is an undo, so that there is something to undo and to redo.
#[test]
fn a_full_log_takes_no_undo(rt: HostRuntime) -> Result<(), Fail> {
    let lines = "undo\nundo\nredo\ntry fill 0 0 0 1 1 1\nerase 0 0 0 1 1 1\nhead\n";
    let last = "\n65535 @65535 ok\n65536 @65535 log full\n65537 @65535 log full\n\
                65538 @65535 log full\n65539 @65535 log full\n65540 @65535 head\n";
    is_full_log(&rt, rt.alloc(), 65_534, lines, last)
}

// A script of so many empty lines ends so, and has a transcript where it is run.
fn is_run_or_refused<R: Threads + Wait + Sync>(
    rt: &R,
    alloc: Global,
    lines: u32,
    status: u8,
    printed: &str,
) -> Result<(), Fail> {
    let script = repeated(alloc, "\n", lines)?;
    let mut shelf = shelf_with(alloc, script.as_slice())?;
    let line = "run --side 8 one.vox s";
    ends(rt, alloc, line, &mut shelf, status, printed)?;
    if status == 0 {
        return has(&shelf, "s.out", "");
    }
    lacks(&shelf, "s.out")
}

#[test]
fn long_scripts_are_refused(rt: HostRuntime) -> Result<(), Fail> {
    for &(lines, status, printed) in &[
        (100_000, 0, NONE),
        (100_001, 5, "voxdag: script 0 100001 7\n"),
        (8_388_608, 5, "voxdag: script 0 100001 7\n"),
        (8_388_609, 9, "voxdag: too long s\n"),
    ] {
        is_run_or_refused(&rt, rt.alloc(), lines, status, printed)?;
    }
    Ok(())
}

// The report of both scripts.
const BOTH_REPORT: &str =
    "voxdag report 1\nside 8\nrecords 3\nmarks 0\nversion 0 empty\nversion 1 root 1\n\
     version 2 root 2\nversion 3 root 3\nlevel 0 nodes 3\nlevel 1 nodes 3\n";

// The call that fails behind its fifth byte, the status, the line, and what the outputs then have.
type Failing = (u32, u8, &'static str, &'static [Option<&'static str>]);

const OUTPUTS: &[&str] = &["s.out", "t.out", "j", "p"];

const FAILING: &[Failing] = &[
    (1, 3, "voxdag: read fault one.vox\n", &[None; 4]),
    (2, 3, "voxdag: read fault s\n", &[None; 4]),
    (3, 3, "voxdag: read fault t\n", &[None; 4]),
    (
        4,
        6,
        "voxdag: write fault s.out\n",
        &[Some("1 @1 "), None, None, None],
    ),
    (
        5,
        6,
        "voxdag: write fault t.out\n",
        &[Some(ANSWERS), Some("1 @3 "), None, None],
    ),
    (
        6,
        6,
        "voxdag: write fault j\n",
        &[Some(ANSWERS), Some(SECOND), Some("voxda"), None],
    ),
    (
        7,
        6,
        "voxdag: write fault p\n",
        &[
            Some(ANSWERS),
            Some(SECOND),
            Some(BOTH_JOURNAL),
            Some("voxda"),
        ],
    ),
    (
        8,
        0,
        BOTH,
        &[
            Some(ANSWERS),
            Some(SECOND),
            Some(BOTH_JOURNAL),
            Some(BOTH_REPORT),
        ],
    ),
];

fn fails<R: Threads + Wait + Sync>(rt: &R, alloc: Global, failing: &Failing) -> Result<(), Fail> {
    let &(call, status, printed, left) = failing;
    let mut inner = shelf_with(alloc, GOOD.as_bytes())?;
    inner.write("t", STAMP.as_bytes())?;
    let mut shelf = FaultyShelf::new(inner, one_fault(alloc, call, 5)?);
    let line = "run --side 8 --journal j --report p one.vox s t";
    ends_by(rt, IN_TURN, alloc, line, &mut shelf, status, printed)?;
    are_left(shelf.files(), left)
}

fn are_left(files: &MemoryShelf, left: &[Option<&str>]) -> Result<(), Fail> {
    for (&name, &want) in OUTPUTS.iter().zip(left) {
        stands(files, name, want)?;
    }
    Ok(())
}

#[test]
fn each_call_can_fail(rt: HostRuntime) -> Result<(), Fail> {
    for failing in FAILING {
        fails(&rt, rt.alloc(), failing)?;
    }
    Ok(())
}

// A run whose line fails behind three bytes has written all.
fn are_whole<R: Threads + Wait + Sync>(rt: &R, alloc: Global) -> Result<(), Fail> {
    let mut shelf = shelf_with(alloc, GOOD.as_bytes())?;
    let mut out = FaultySink::new(alloc, one_fault(alloc, 1, 3)?);
    let line = "run --side 8 --journal j one.vox s";
    let words = words_of(alloc, line)?;
    let ended = voxdag(rt, alloc, words.as_slice(), &mut shelf, &mut out);
    is_end(line, ended, out.bytes(), 7, "scr")?;
    has(&shelf, "s.out", ANSWERS)?;
    has(&shelf, "j", JOURNAL)
}

#[test]
fn outputs_are_whole_where_no_line_is_put(rt: HostRuntime) -> Result<(), Fail> {
    are_whole(&rt, rt.alloc())
}

//! The load of a number, run by the program.

use crate::calls::{ends, holds_last, is_wanted, lacks, one_fault};
use std::alloc::Global;
use std::sync::Wait;
use std::test::Fail;
use std::thread::Threads;
use vw_io::{FaultyShelf, MemoryShelf};

// What `demo 7` prints: a program in Python, written from the load's rules alone, prints it too.
const SEVEN: &str = "demo 7\nrecords 800\nregion 0 count 232434\nregion 1 count 246422\n\
                     region 2 count 239762\nregion 3 count 235497\n";

// The transcripts, and how they end, whichever script is faster.
const TRANSCRIPTS: &[(&str, &str)] = &[
    ("demo.0.out", " count 232434\n"),
    ("demo.1.out", " count 246422\n"),
    ("demo.2.out", " count 239762\n"),
    ("demo.3.out", " count 235497\n"),
];

fn has_transcripts(shelf: &MemoryShelf) -> Result<(), Fail> {
    for &(name, last) in TRANSCRIPTS {
        holds_last(shelf, name, last.as_bytes())?;
        has_lines(shelf, name, 201)?;
    }
    lacks(shelf, "demo.4.out")
}

// Two lines and the last one stand round 800 records.
fn has_journal(shelf: &MemoryShelf) -> Result<(), Fail> {
    has_lines(shelf, "demo.journal", 803)?;
    holds_last(shelf, "demo.journal", b"\nend\n")?;
    let journal = shelf.file("demo.journal").unwrap_or_default();
    let begin = b"voxdag journal 1\nside 256\n1 ";
    is_wanted("demo.journal", journal.get(..28).unwrap_or_default(), begin)
}

fn has_lines(shelf: &MemoryShelf, name: &str, want: u32) -> Result<(), Fail> {
    let lines = number_of_lines(shelf.file(name).unwrap_or_default());
    if lines == want {
        return Ok(());
    }
    Err(Fail::new(format_args!("{name}: wanted are {want} lines, found are {lines}")))
}

fn number_of_lines(text: &[u8]) -> u32 {
    let mut lines: u32 = 0;
    for &byte in text {
        lines = lines.saturating_add(u32::from(byte == b'\n'));
    }
    lines
}

#[test]
fn a_load_is_run(rt: HostRuntime) -> Result<(), Fail> {
    let mut shelf = MemoryShelf::new(rt.alloc());
    for &line in &["demo 7", "demo 000007"] {
        ends(&rt, rt.alloc(), line, &mut shelf, 0, SEVEN)?;
    }
    has_transcripts(&shelf)?;
    has_journal(&shelf)
}

const NO_LOADS: &[&str] = &[
    "demo",
    "demo ",
    "demo x",
    "demo -7",
    "demo +7",
    "demo 7.0",
    "demo 1234567",
    "demo 7 8",
    "demo -- 7",
    "demo --side 8 7",
    "demo --help",
    "Demo 7",
];

#[test]
fn a_load_is_told_by_one_number(rt: HostRuntime) -> Result<(), Fail> {
    let mut shelf = MemoryShelf::new(rt.alloc());
    for &line in NO_LOADS {
        ends(&rt, rt.alloc(), line, &mut shelf, 1, "voxdag: usage\n")?;
        lacks(&shelf, "demo.0.out")?;
    }
    Ok(())
}

// The call that fails, the line, and the file that then has two bytes.
const FAILING: &[(u32, &str, &str)] = &[
    (1, "voxdag: write fault demo.0.out\n", "demo.0.out"),
    (3, "voxdag: write fault demo.2.out\n", "demo.2.out"),
    (5, "voxdag: write fault demo.journal\n", "demo.journal"),
];

fn is_cut<R: Threads + Wait + Sync>(
    rt: &R,
    alloc: Global,
    call: u32,
    printed: &str,
    last: &str,
) -> Result<(), Fail> {
    let inner = MemoryShelf::new(alloc);
    let mut shelf = FaultyShelf::new(inner, one_fault(alloc, call, 2)?);
    ends(rt, alloc, "demo 0", &mut shelf, 6, printed)?;
    let length = shelf.files().file(last).unwrap_or_default().len();
    if length == 2 {
        return Ok(());
    }
    Err(Fail::new(format_args!("{last}: wanted are 2 bytes, found are {length}")))
}

#[test]
fn each_output_of_a_load_can_fail(rt: HostRuntime) -> Result<(), Fail> {
    for &(call, printed, last) in FAILING {
        is_cut(&rt, rt.alloc(), call, printed, last)?;
    }
    Ok(())
}

//! Scripts that run beside each other as they may.

use gate_run::NoGate;
use std::alloc::{AllocError, Global};
use std::sync::Wait;
use std::test::Fail;
use std::thread::Threads;
use tests_program::{
    Gated, ask, ends, holds_last, is_end, repeated, shelf_with, voxdag_gated, words_of,
};
use transcript::{Answer, LineAnswer, read_transcript};
use vw_io::{MemoryShelf, MemorySink, Shelf};

// The first line is accepted, and the second counts one cell, no earlier.
fn reads_its_own(told: &[LineAnswer]) -> bool {
    match told {
        [edit, count] => {
            let told = edit.answer == Answer::Done && count.answer == Answer::Count(1);
            told && edit.line == 1 && count.line == 2 && edit.at <= count.at
        }
        _ => false,
    }
}

// Ten lines are accepted in their order, as the ten records but this one.
fn are_the_others(told: &[LineAnswer], but: u32) -> bool {
    let mut line: u32 = 0;
    let mut record: u32 = 0;
    for a in told {
        line = line.saturating_add(1);
        record = record.saturating_add(1);
        if record == but {
            record = record.saturating_add(1);
        }
        if a.line != line || a.at != record || a.answer != Answer::Done {
            return false;
        }
    }
    line == 10
}

// The record of the first line.
fn first_record(told: &[LineAnswer]) -> u32 {
    match told {
        [edit, ..] => edit.at,
        _ => 0,
    }
}

// Both transcripts are so; else the first.
fn are_told(alloc: Global, shelf: &MemoryShelf) -> Result<(), Fail> {
    let text = shelf.file("s.out").unwrap_or_default();
    let told = read_transcript(alloc, text)?;
    let others = read_transcript(alloc, shelf.file("t.out").unwrap_or_default())?;
    let but = first_record(told.as_slice());
    if reads_its_own(told.as_slice()) && are_the_others(others.as_slice(), but) {
        return Ok(());
    }
    let text = text.escape_ascii();
    let others = shelf.file("t.out").unwrap_or_default().escape_ascii();
    Err(Fail::new(format_args!("{text}; {others}")))
}

#[test]
fn a_session_reads_what_it_wrote(rt: HostRuntime) -> Result<(), Fail> {
    let mut shelf = shelf_with(rt.alloc(), b"fill 0 0 0 1 1 1\ncount 0 0 0 1 1 1\n")?;
    let others = repeated(rt.alloc(), "fill 2 0 0 1 1 1\n", 10)?;
    shelf.write("t", others.as_slice())?;
    let line = "run --side 8 one.vox s t";
    let (ended, _) = ask(&rt, rt.alloc(), line, &mut shelf)?;
    is_end(line, ended, b"", 0, "")?;
    are_told(rt.alloc(), &shelf)
}

// A hundred cells of a row, one after another.
fn row_of_cells(alloc: Global) -> Result<Vec<u8>, AllocError> {
    let mut script = Vec::new(alloc);
    for i in 0..100u32 {
        let line = format!(in alloc; "fill {i} 0 0 1 1 1\n")?;
        script.extend_from_slice(line.as_bytes())?;
    }
    Ok(script)
}

// The journal has the hundred lines of the session in their order.
fn stand_in_order(alloc: Global, journal: &[u8], session: u16) -> Result<(), Fail> {
    let mut next: u32 = 0;
    for line in journal.split(|byte| *byte == b'\n') {
        let number = next.saturating_add(1);
        let want = format!(in alloc; " {session} {number} fill {next} 0 0 1 1 1")?;
        if line.ends_with(want.as_bytes()) {
            next = number;
        }
    }
    if next == 100 {
        return Ok(());
    }
    Err(Fail::new(format_args!("session {session}: {next} records in order")))
}

// How the report of two such scripts ends, whichever is faster.
const LEVELS: &[u8] = b"\nlevel 0 nodes 4\nlevel 1 nodes 8\nlevel 2 nodes 16\nlevel 3 nodes 32\n\
     level 4 nodes 64\nlevel 5 nodes 100\nlevel 6 nodes 100\n";

#[test]
fn records_stand_in_the_order_of_their_script(rt: HostRuntime) -> Result<(), Fail> {
    let script = row_of_cells(rt.alloc())?;
    let mut shelf = shelf_with(rt.alloc(), script.as_slice())?;
    shelf.write("t", script.as_slice())?;
    let printed = "scripts 2 records 200 marks 0 nodes 324\n";
    let line = "run --journal j --report p one.vox s t";
    ends(&rt, rt.alloc(), line, &mut shelf, 0, printed)?;
    let journal = shelf.file("j").unwrap_or_default();
    for session in 0..2u16 {
        stand_in_order(rt.alloc(), journal, session)?;
    }
    holds_last(&shelf, "p", LEVELS)
}

// Two halves of a bridge, which meet in the middle: of each half 384 and 416 cells less 132 lie
// away from it. In the middle stand 16 cells of each that is built.
const WEST: &str =
    "fill 4 28 0 4 8 12\nfill 4 28 12 28 8 2\nerase 5 29 0 2 6 11\ncount 0 0 0 30 64 64\n\
     try fill 31 31 14 2 2 1\ncount 31 28 12 2 8 2\n";

const EAST: &str =
    "fill 56 28 0 4 8 12\nfill 32 28 12 28 8 2\nerase 57 29 0 2 6 11\ncount 34 0 0 30 64 64\n\
     try fill 31 31 14 2 2 1\ncount 31 28 12 2 8 2\n";

fn is_half(told: &[LineAnswer]) -> bool {
    match told {
        [_, _, _, own, attempt, middle] => {
            let tried = attempt.answer == Answer::Done || is_stale(attempt.answer);
            let one = middle.answer == Answer::Count(16);
            own.answer == Answer::Count(668) && tried && (one || middle.answer == Answer::Count(32))
        }
        _ => false,
    }
}

fn is_stale(answer: Answer) -> bool {
    match answer {
        Answer::Stale(_) => true,
        _ => false,
    }
}

#[test]
fn two_halves_of_a_bridge_meet(rt: HostRuntime) -> Result<(), Fail> {
    let mut shelf = shelf_with(rt.alloc(), WEST.as_bytes())?;
    shelf.write("t", EAST.as_bytes())?;
    let line = "run --side 64 one.vox s t";
    let (ended, _) = ask(&rt, rt.alloc(), line, &mut shelf)?;
    is_end(line, ended, b"", 0, "")?;
    has_half(rt.alloc(), &shelf, "s.out")?;
    has_half(rt.alloc(), &shelf, "t.out")
}

fn has_half(alloc: Global, shelf: &MemoryShelf, name: &str) -> Result<(), Fail> {
    let text = shelf.file(name).unwrap_or_default();
    let told = read_transcript(alloc, text)?;
    if is_half(told.as_slice()) {
        return Ok(());
    }
    let text = text.escape_ascii();
    Err(Fail::new(format_args!("{name} is no half of a bridge: {text}")))
}

// Nodes go while others find them again: of 2,000 versions two nodes are left.
#[test]
fn nodes_are_freed_beside_edits(rt: HostRuntime) -> Result<(), Fail> {
    let script = repeated(rt.alloc(), "fill 0 0 0 1 1 1\nerase 0 0 0 1 1 1\n", 500)?;
    let mut shelf = shelf_with(rt.alloc(), script.as_slice())?;
    shelf.write("t", script.as_slice())?;
    let printed = "scripts 2 records 2000 marks 0 nodes 2\n";
    ends(
        &rt,
        rt.alloc(),
        "run --side 8 one.vox s t",
        &mut shelf,
        0,
        printed,
    )
}

// Whether the closed world has one cell, so one record and a node on each of two levels. `None`
// where no world was left.
fn leaves_one_cell(gated: &Gated) -> Option<bool> {
    let Some(ended) = &gated.ended else {
        return None;
    };
    let closed = ended.closed();
    Some(closed.history.records.len() == 1 && closed.live == [1, 1, 0, 0, 0, 0, 0, 0, 0, 0, 0])
}

fn leaves_its_world<R: Threads + Wait + Sync>(
    rt: &R,
    alloc: Global,
    line: &str,
) -> Result<Option<bool>, Fail> {
    let mut shelf = shelf_with(alloc, b"fill 0 0 0 1 1 1\n")?;
    let words = words_of(alloc, line)?;
    let mut out = MemorySink::new(alloc);
    let gated = voxdag_gated(rt, alloc, words.as_slice(), &mut shelf, &mut out, &NoGate);
    Ok(leaves_one_cell(&gated))
}

#[test]
fn a_run_leaves_its_closed_world(rt: HostRuntime) -> Result<(), Fail> {
    for &(line, want) in &[
        ("run --side 8 one.vox s", Some(true)),
        ("run --side 5 one.vox s", None),
        ("count one.vox", None),
    ] {
        let left = leaves_its_world(&rt, rt.alloc(), line)?;
        assert!(rt;
            left == want,
            "{line}: wanted is {want:?}, found is {left:?}"
        );
    }
    Ok(())
}

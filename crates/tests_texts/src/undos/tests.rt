ghost use Rattle.std.specs.Prelude.{◌≤◌, length, IfOk};

use crate::undos::logs::PackedLog;
use history_model::{Act, Record};
use std::alloc::{AllocError, Global};
use std::test::Fail;
use undo::{redo_target, undo_target};
use vw_cell::{Boxed, Cell};

// The act of a letter: e an edit, u an undo, r a redo.
fn act_of(letter: u8) -> Act {
    let one = Cell { x: 1, y: 1, z: 1 };
    let at = Cell { x: 0, y: 0, z: 0 };
    match letter {
        b'u' => Act::Undo,
        b'r' => Act::Redo,
        _ => Act::Fill(Boxed { at, size: one }),
    }
}

// Appends so many records of this letter.
fn append(into: &mut Vec<Record>, letter: u8, number: u32) -> Result<(), AllocError> {
    for line in 0..number {
        into.push(Record {
            session: 63,
            line,
            act: act_of(letter),
        })?;
    }
    Ok(())
}

fn history_of(alloc: Global, letters: &str) -> Result<Vec<Record>, AllocError> {
    let mut records = Vec::new(alloc);
    for letter in letters.bytes() {
        append(&mut records, letter, 1)?;
    }
    Ok(records)
}

#[test]
fn undos_and_redos_go_to_the_tops(rt: HostRuntime) -> Result<(), Fail> {
    for (letters, undo, redo) in [
        ("", None, None),
        ("e", Some(0), None),
        ("eu", None, Some(1)),
        ("eur", Some(0), None),
        ("eue", Some(0), None),
        ("eueu", None, Some(3)),
        ("ee", Some(1), None),
        ("eeu", Some(0), Some(2)),
        ("eeuu", None, Some(1)),
        ("eeuur", Some(0), Some(2)),
        ("eeuurr", Some(1), None),
        ("eeue", Some(1), None),
        ("eeueu", Some(0), Some(4)),
        ("eeueuu", None, Some(1)),
        ("eeueuur", Some(0), Some(4)),
        ("eeuureur", Some(1), None),
    ] {
        let records = history_of(rt.alloc(), letters)?;
        assert!(rt; records.len() <= 8);
        let mut log = PackedLog::new(rt.alloc(), &records).map_err(|_| "out of memory")?;
        assert!(rt; undo_target(&mut log) == undo, "undo of {letters}");
        assert!(rt; redo_target(&mut log) == redo, "redo of {letters}");
    }
    Ok(())
}

// The version that is gone to, and how many records are read for it.
#[derive(Clone, Copy, Debug)]
struct Target {
    version: Option<u32>,
    reads: u32,
}

// Whether it is this target, and no more records were read for it.
fn is_target(found: Target, want: Target) -> bool {
    found.version == want.version && found.reads <= want.reads
}

// The targets behind so many records are these, and at most so many records are read for each.
fn are_targets(log: &mut PackedLog, records: u32, undo: Target, redo: Target) -> Result<(), Fail> {
    log.show(records);
    let _before = log.take_reads();
    let version = undo_target(log);
    let reads = log.take_reads();
    let undone = Target { version, reads };
    let version = redo_target(log);
    let reads = log.take_reads();
    let redone = Target { version, reads };
    if is_target(undone, undo) && is_target(redone, redo) {
        return Ok(());
    }
    Err(Fail::new(format_args!(
        "behind {records} records: {undone:?} and {redone:?}, wanted are {undo:?} and {redo:?}"
    )))
}

fn above_0(version: u32) -> Option<u32> {
    version.checked_sub(1)
}

// The targets behind so many records are those where of so many edits all but `standing` are
// undone.
fn are_undone(log: &mut PackedLog, edits: u32, standing: u32, records: u32) -> Result<(), Fail> {
    let undone = edits.saturating_sub(standing);
    let undo = Target {
        version: above_0(standing),
        reads: 2,
    };
    let redo = Target {
        version: if undone == 0 {
            None
        } else {
            standing.checked_add(1)
        },
        reads: undone.saturating_add(1),
    };
    are_targets(log, records, undo, redo)
}

fn undos_are_read(log: &mut PackedLog) -> Result<(), Fail> {
    for k in 0..1001u32 {
        are_undone(log, 1000, 1000 - k, 1000 + k)?;
    }
    Ok(())
}

fn redos_are_read(log: &mut PackedLog) -> Result<(), Fail> {
    for k in 0..1001u32 {
        are_undone(log, 1000, k, 2000 + k)?;
    }
    Ok(())
}

#[test]
fn a_run_of_undos_and_redos_reads_its_chain(rt: HostRuntime) -> Result<(), Fail> {
    let mut records = Vec::new(rt.alloc());
    append(&mut records, b'e', 1000)?;
    append(&mut records, b'u', 1000)?;
    append(&mut records, b'r', 1000)?;
    assert!(rt; records.len() == 3000);
    let mut log = PackedLog::new(rt.alloc(), &records).map_err(|_| "out of memory")?;
    undos_are_read(&mut log)?;
    redos_are_read(&mut log)
}

// A thousand times an undo of the one edit and its redo.
fn undone_and_redone(alloc: Global) -> Result<Vec<Record>, AllocError> {
    let mut records = Vec::new(alloc);
    append(&mut records, b'e', 1)?;
    for _ in 0..1000u32 {
        append(&mut records, b'u', 1)?;
        append(&mut records, b'r', 1)?;
    }
    Ok(records)
}

fn pairs_are_read(log: &mut PackedLog) -> Result<(), Fail> {
    for k in 0..1000u32 {
        are_undone(log, 1, 1, 2 * k + 1)?;
        are_undone(log, 1, 0, 2 * k + 2)?;
    }
    Ok(())
}

#[test]
fn the_length_of_the_history_is_not_read(rt: HostRuntime) -> Result<(), Fail> {
    let records = undone_and_redone(rt.alloc())?;
    assert!(rt; records.len() == 2001);
    let mut log = PackedLog::new(rt.alloc(), &records).map_err(|_| "out of memory")?;
    pairs_are_read(&mut log)
}

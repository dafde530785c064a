//! What tests ask the program, and a file to ask it about.

use gate_run::{Gate, NoGate};
use std::alloc::{AllocError, Global};
use std::sync::Wait;
use std::test::Fail;
use std::thread::Threads;
use testkit::{Meeting, Rule};
use voxdag_top::voxdag_gated;
use vw_io::{MemoryShelf, MemorySink, Shelf};

/// A model of one cell, 64 bytes.
pub const ONE: [u8; 64] =
    *b"VOX \x96\0\0\0MAIN\0\0\0\0\x2c\0\0\0SIZE\x0c\0\0\0\0\0\0\0\x01\0\0\0\x01\0\0\0\x01\0\0\0\
     XYZI\x08\0\0\0\0\0\0\0\x01\0\0\0\0\0\0\x01";

/// A script of two changes and a question, its transcript, its journal and its report at side 8,
/// and the run's line.
pub const GOOD: &str = "fill 0 0 0 2 1 1\nerase 1 0 0 1 1 1\ncount 0 0 0 8 8 8\n";

pub const ANSWERS: &str = "1 @1 ok\n2 @2 ok\n3 @2 count 1\n";

pub const JOURNAL: &str =
    "voxdag journal 1\nside 8\n1 0 1 fill 0 0 0 2 1 1\n2 0 2 erase 1 0 0 1 1 1\nend\n";

pub const REPORT: &str =
    "voxdag report 1\nside 8\nrecords 2\nmarks 0\nversion 0 empty\nversion 1 root 1\n\
     version 2 root 2\nlevel 0 nodes 2\nlevel 1 nodes 2\n";

pub const TWO: &str = "scripts 1 records 2 marks 0 nodes 4\n";

/// A shelf with the file of one cell and the script `s`.
pub fn shelf_with(alloc: Global, script: &[u8]) -> Result<MemoryShelf, Fail> {
    let mut shelf = MemoryShelf::new(alloc);
    shelf.write("one.vox", &ONE)?;
    shelf.write("s", script)?;
    Ok(shelf)
}

// The file of this name has these bytes, or where they are left out, there is no such file; else
// what stands there instead.
fn left(shelf: &MemoryShelf, name: &str, want: Option<&[u8]>) -> Result<(), Fail> {
    match (shelf.file(name), want) {
        (Some(found), Some(want)) => is_wanted(name, found, want),
        (None, None) => Ok(()),
        (Some(_), None) => Err(Fail::new(format_args!("{name}: wanted is no such file"))),
        (None, Some(_)) => Err(Fail::new(format_args!("{name}: there is no such file"))),
    }
}

/// The file of this name has these bytes.
pub fn holds(shelf: &MemoryShelf, name: &str, want: &[u8]) -> Result<(), Fail> {
    left(shelf, name, Some(want))
}

/// The file of this name has this text.
pub fn has(shelf: &MemoryShelf, name: &str, want: &str) -> Result<(), Fail> {
    left(shelf, name, Some(want.as_bytes()))
}

/// There is no file of this name.
pub fn lacks(shelf: &MemoryShelf, name: &str) -> Result<(), Fail> {
    left(shelf, name, None)
}

/// The file of this name ends so.
pub fn holds_last(shelf: &MemoryShelf, name: &str, last: &[u8]) -> Result<(), Fail> {
    match shelf.file(name) {
        Some(found) => {
            let from = found.len().saturating_sub(last.len());
            is_wanted(name, found.get(from..).unwrap_or_default(), last)
        }
        None => Err(Fail::new(format_args!("{name}: there is no such file"))),
    }
}

/// Found is what is wanted; else both from where they differ.
pub fn is_wanted(name: &str, found: &[u8], want: &[u8]) -> Result<(), Fail> {
    if found == want {
        return Ok(());
    }
    let at = length_of_same(found, want);
    let there = found.get(at..).unwrap_or_default().escape_ascii();
    let wanted = want.get(at..).unwrap_or_default().escape_ascii();
    Err(Fail::new(format_args!("{name}, byte {at}: wanted is {wanted}, found is {there}")))
}

// How many bytes are the same before the first that differs.
fn length_of_same(found: &[u8], want: &[u8]) -> usize {
    let mut length: usize = 0;
    for (there, wanted) in found.iter().zip(want) {
        if there != wanted {
            return length;
        }
        length = length.saturating_add(1);
    }
    length
}

/// This text so many times.
pub fn repeated(alloc: Global, text: &str, times: u32) -> Result<Vec<u8>, Fail> {
    let mut all = Vec::new(alloc);
    for _ in 0..times {
        all.extend_from_slice(text.as_bytes())?;
    }
    Ok(all)
}

/// The words of a line, parted by single blanks.
pub fn words_of(alloc: Global, line: &str) -> Result<Vec<String>, AllocError> {
    let mut words = Vec::new(alloc);
    for word in line.split(' ') {
        words.push(String::from_str(alloc, word)?)?;
    }
    Ok(words)
}

/// The status that a line of words ends in, and what the program put.
pub fn ask<S: Shelf, R: Threads + Wait + Sync>(
    rt: &R,
    alloc: Global,
    line: &str,
    shelf: &mut S,
) -> Result<(u8, MemorySink), AllocError> {
    ask_gated(rt, &NoGate, alloc, line, shelf)
}

/// The same, where the scripts pass this gate.
pub fn ask_gated<S: Shelf, R: Threads + Wait + Sync, G: Gate + Sync>(
    rt: &R,
    gate: &G,
    alloc: Global,
    line: &str,
    shelf: &mut S,
) -> Result<(u8, MemorySink), AllocError> {
    let words = words_of(alloc, line)?;
    let mut out = MemorySink::new(alloc);
    let status = voxdag_gated(rt, alloc, words.as_slice(), shelf, &mut out, gate).status;
    Ok((status, out))
}

/// A line of words ends in this status, and the program puts this; else what came instead.
pub fn ends<S: Shelf, R: Threads + Wait + Sync>(
    rt: &R,
    alloc: Global,
    line: &str,
    shelf: &mut S,
    status: u8,
    printed: &str,
) -> Result<(), Fail> {
    let (ended, out) = ask(rt, alloc, line, shelf)?;
    is_end(line, ended, out.bytes(), status, printed)
}

/// The same, where the scripts meet so. No line waits in vain.
pub fn ends_by<S: Shelf, R: Threads + Wait + Sync>(
    rt: &R,
    rules: &[Rule],
    alloc: Global,
    line: &str,
    shelf: &mut S,
    status: u8,
    printed: &str,
) -> Result<(), Fail> {
    let meeting = Meeting::new(rules);
    let (ended, out) = ask_gated(rt, &meeting, alloc, line, shelf)?;
    if meeting.is_given_up() {
        return Err(Fail::new(format_args!("{line}: a script waits in vain")));
    }
    is_end(line, ended, out.bytes(), status, printed)
}

/// A line of words that ended in one status ended in the other, and what it put is wanted.
pub fn is_end(line: &str, ended: u8, put: &[u8], status: u8, printed: &str) -> Result<(), Fail> {
    if ended == status && put == printed.as_bytes() {
        return Ok(());
    }
    let wanted = printed.as_bytes().escape_ascii();
    let put = put.escape_ascii();
    Err(Fail::new(format_args!(
        "{line}: wanted is status {status}, {wanted}; it ended in {ended}, {put}"
    )))
}

/// A line of words is refused so over the script of two changes, and leaves no transcript.
pub fn is_refused<R: Threads + Wait + Sync>(
    rt: &R,
    alloc: Global,
    line: &str,
    status: u8,
    printed: &str,
) -> Result<(), Fail> {
    let mut shelf = shelf_with(alloc, GOOD.as_bytes())?;
    ends(rt, alloc, line, &mut shelf, status, printed)?;
    lacks(&shelf, "s.out")
}

/// One call that fails, of this number, and how many bytes go through at it.
pub fn one_fault(alloc: Global, call: u32, passes: u32) -> Result<Vec<(u32, u32)>, AllocError> {
    Vec::from_slice(alloc, &[(call, passes)])
}

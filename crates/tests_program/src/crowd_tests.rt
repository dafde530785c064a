//! As many scripts at once as a run may have, and their audit.

use crate::calls::{ask, ends, is_end, is_wanted, shelf_with};
use std::alloc::{AllocError, Global};
use std::sync::Wait;
use std::test::Fail;
use std::thread::Threads;
use vw_io::{MemoryShelf, Shelf};

// A shelf with the scripts `s0` to `s64`, each of which sets the cell of its number in a row.
fn shelf_of_65(alloc: Global) -> Result<MemoryShelf, Fail> {
    let mut shelf = shelf_with(alloc, b"")?;
    for i in 0..65u32 {
        let name = format!(in alloc; "s{i}")?;
        let script = format!(in alloc; "fill {i} 0 0 1 1 1\n")?;
        shelf.write(name.as_str(), script.as_bytes())?;
    }
    Ok(shelf)
}

// The words, and behind them the names of so many scripts.
fn line_of(alloc: Global, words: &str, scripts: u32) -> Result<String, AllocError> {
    let mut line = String::from_str(alloc, words)?;
    for i in 0..scripts {
        write!(line, " s{i}")?;
    }
    Ok(line)
}

// How often a line of the journal ends so.
fn lines_that_end(journal: &[u8], end: &[u8]) -> u32 {
    let mut found: u32 = 0;
    for line in journal.split(|byte| *byte == b'\n') {
        if line.ends_with(end) {
            found = found.saturating_add(1);
        }
    }
    found
}

// The journal has the one line of each session once.
fn has_each_once(alloc: Global, journal: &[u8]) -> Result<(), Fail> {
    for i in 0..64u32 {
        let end = format!(in alloc; " {i} 1 fill {i} 0 0 1 1 1")?;
        let found = lines_that_end(journal, end.as_bytes());
        if found != 1 {
            return Err(Fail::new(format_args!("{found} records of session {i}")));
        }
    }
    Ok(())
}

// How the line and the report begin, whichever script is faster.
const LINE: &[u8] = b"scripts 64 records 64 marks 0 nodes ";

const REPORT: &[u8] = b"voxdag report 1\nside 64\nrecords 64\nmarks 0\nversion 0 empty\n";

const RUN: &str = "run --side 64 --buckets 16 --journal j --report p one.vox";

const AUDIT: &str = "audit --buckets 16 one.vox j";

fn are_run<R: Threads + Wait + Sync>(
    rt: &R,
    alloc: Global,
    shelf: &mut MemoryShelf,
) -> Result<(), Fail> {
    let line = line_of(alloc, RUN, 64)?;
    let (ended, out) = ask(rt, alloc, line.as_str(), shelf)?;
    is_end("64 scripts", ended, b"", 0, "")?;
    is_wanted("the line", first_of(out.bytes(), LINE), LINE)?;
    let report = shelf.file("p").unwrap_or_default();
    is_wanted("p", first_of(report, REPORT), REPORT)?;
    has_each_once(alloc, shelf.file("j").unwrap_or_default())
}

// As many bytes of the text as the other has.
fn first_of<'t>(text: &'t [u8], other: &[u8]) -> &'t [u8] {
    text.get(..other.len()).unwrap_or(text)
}

fn is_audited<R: Threads + Wait + Sync>(
    rt: &R,
    alloc: Global,
    shelf: &mut MemoryShelf,
    scripts: u32,
    status: u8,
    printed: &str,
) -> Result<(), Fail> {
    let line = line_of(alloc, AUDIT, scripts)?;
    ends(rt, alloc, line.as_str(), shelf, status, printed)
}

#[test]
fn sixty_four_scripts_run_at_once(rt: HostRuntime) -> Result<(), Fail> {
    let mut shelf = shelf_of_65(rt.alloc())?;
    are_run(&rt, rt.alloc(), &mut shelf)?;
    is_audited(&rt, rt.alloc(), &mut shelf, 64, 0, "yes\n")?;
    is_audited(&rt, rt.alloc(), &mut shelf, 63, 0, "no\n")?;
    is_audited(&rt, rt.alloc(), &mut shelf, 65, 1, "voxdag: usage\n")
}

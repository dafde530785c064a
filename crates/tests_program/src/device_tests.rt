//! Files and lines that fail, in commands besides `run`, `count` and `demo`, and files that are too
//! long.

use crate::calls::{ONE, ends, holds, is_end, lacks, one_fault, voxdag, words_of};
use std::alloc::Global;
use std::sync::Wait;
use std::test::Fail;
use std::thread::Threads;
use vw_io::{FaultyShelf, FaultySink, MemoryShelf, Shelf};

/// The file of versions of a world of 8 cells: version 0 is empty, and version 1 is full.
const FULL: [u8; 80] = *b"VDAG\x01\0\0\0\x08\0\0\0\x02\0\0\0\x01\0\0\0\x01\0\0\0\
    \xff\xff\xff\xff\xff\xff\xff\xff\
    \x01\0\0\0\x01\0\0\0\x01\0\0\0\x01\0\0\0\x01\0\0\0\x01\0\0\0\x01\0\0\0\x01\0\0\0\
    \0\0\0\0\0\0\0\0\x01\0\0\0\x01\0\0\0";

/// A model of one cell without one.
const NO_CELL: [u8; 60] =
    *b"VOX \x96\0\0\0MAIN\0\0\0\0\x28\0\0\0SIZE\x0c\0\0\0\0\0\0\0\x01\0\0\0\x01\0\0\0\x01\0\0\0\
     XYZI\x04\0\0\0\0\0\0\0\0\0\0\0";

const STAMP: &[u8] = b"stamp 0 0 0 0\n";

const JOURNAL: &[u8] = b"voxdag journal 1\nside 8\n1 0 1 fill 0 0 0 8 8 8\nend\n";

// A model, a journal, two scripts with their transcripts, and a file of versions.
fn shelf(alloc: Global) -> Result<MemoryShelf, Fail> {
    let mut shelf = MemoryShelf::new(alloc);
    shelf.write("m", &ONE)?;
    shelf.write("j", JOURNAL)?;
    shelf.write("s", b"fill 0 0 0 8 8 8\n")?;
    shelf.write("s.out", b"1 @1 ok\n")?;
    shelf.write("t", b"head\n")?;
    shelf.write("t.out", b"1 @1 head\n")?;
    shelf.write("d", &FULL)?;
    Ok(shelf)
}

// The outputs of the lines below, and of those that stand there what they hold.
const OUTPUTS: &[&str] = &["o", "p"];

type Left = &'static [(&'static str, &'static [u8])];

// No other output stands there.
fn are_left(shelf: &MemoryShelf, left: Left) -> Result<(), Fail> {
    for &(name, want) in left {
        holds(shelf, name, want)?;
    }
    for &name in OUTPUTS {
        if !is_listed(name, left) {
            lacks(shelf, name)?;
        }
    }
    Ok(())
}

fn is_listed(name: &str, left: Left) -> bool {
    for &(other, _) in left {
        if other == name {
            return true;
        }
    }
    false
}

// The line, its call of the shelf that fails behind four bytes, the status, what is put, and the
// outputs that then stand there.
type Failing = (&'static str, u32, u8, &'static str, Left);

const FILES: &[Failing] = &[
    ("flood m 0 0 0 0 o", 1, 3, "voxdag: read fault m\n", &[]),
    (
        "flood m 0 0 0 0 o",
        2,
        6,
        "voxdag: write fault o\n",
        &[("o", b"VOX ")],
    ),
    ("flood m 0 0 0 0 o", 3, 0, "0\n", &[("o", &NO_CELL)]),
    ("scene m o p", 1, 3, "voxdag: read fault m\n", &[]),
    (
        "scene m o p",
        2,
        6,
        "voxdag: write fault o\n",
        &[("o", b"VOX ")],
    ),
    (
        "scene m o p",
        3,
        6,
        "voxdag: write fault p\n",
        &[("o", &ONE), ("p", b"stam")],
    ),
    (
        "scene m o p",
        4,
        0,
        "side 4 placements 1\n",
        &[("o", &ONE), ("p", STAMP)],
    ),
    ("dag m j o", 1, 3, "voxdag: read fault m\n", &[]),
    ("dag m j o", 2, 3, "voxdag: read fault j\n", &[]),
    (
        "dag m j o",
        3,
        6,
        "voxdag: write fault o\n",
        &[("o", b"VDAG")],
    ),
    ("dag m j o", 4, 0, "", &[("o", &FULL)]),
    ("look d 1 bounds", 1, 3, "voxdag: read fault d\n", &[]),
    ("look d 1 bounds", 2, 0, "bounds 0 0 0 8 8 8\n", &[]),
    ("audit m j s t", 1, 3, "voxdag: read fault m\n", &[]),
    ("audit m j s t", 2, 3, "voxdag: read fault j\n", &[]),
    ("audit m j s t", 3, 3, "voxdag: read fault s\n", &[]),
    ("audit m j s t", 4, 3, "voxdag: read fault t\n", &[]),
    ("audit m j s t", 5, 3, "voxdag: read fault s.out\n", &[]),
    ("audit m j s t", 6, 3, "voxdag: read fault t.out\n", &[]),
    ("audit m j s t", 7, 0, "yes\n", &[]),
];

fn fails<R: Threads + Wait + Sync>(rt: &R, alloc: Global, failing: &Failing) -> Result<(), Fail> {
    let &(line, call, status, printed, left) = failing;
    let mut shelf = FaultyShelf::new(shelf(alloc)?, one_fault(alloc, call, 4)?);
    ends(rt, alloc, line, &mut shelf, status, printed)?;
    are_left(shelf.files(), left)
}

#[test]
fn each_file_of_a_command_can_fail(rt: HostRuntime) -> Result<(), Fail> {
    for failing in FILES {
        fails(&rt, rt.alloc(), failing)?;
    }
    Ok(())
}

// The line, how many bytes of what it puts go through, these bytes, and the outputs, which are
// whole. A file of versions puts no byte, and is told of standard output's fault all the same.
type Put = (&'static str, u32, &'static str, Left);

const PUTS: &[Put] = &[
    ("flood m 0 0 0 0 o", 1, "0", &[("o", &NO_CELL)]),
    ("flood m 1 0 0 0 o", 7, "voxdag:", &[]),
    ("scene m o p", 4, "side", &[("o", &ONE), ("p", STAMP)]),
    ("dag m j o", 0, "", &[("o", &FULL)]),
    ("dag m s o", 0, "", &[]),
    ("look d 1 bounds", 6, "bounds", &[]),
    ("audit m j s t", 2, "ye", &[]),
];

fn puts<R: Threads + Wait + Sync>(rt: &R, alloc: Global, row: &Put) -> Result<(), Fail> {
    let &(line, passes, put, left) = row;
    let mut shelf = shelf(alloc)?;
    let mut out = FaultySink::new(alloc, one_fault(alloc, 1, passes)?);
    let words = words_of(alloc, line)?;
    let ended = voxdag(rt, alloc, words.as_slice(), &mut shelf, &mut out);
    is_end(line, ended, out.bytes(), 7, put)?;
    are_left(&shelf, left)
}

#[test]
fn each_line_of_a_command_can_fail(rt: HostRuntime) -> Result<(), Fail> {
    for row in PUTS {
        puts(&rt, rt.alloc(), row)?;
    }
    Ok(())
}

// A line, the file that is made of so many bytes, and how it ends. At the limit the file is read.
const LONG: &[(&str, &str, usize, u8, &str)] = &[
    ("dag m j o", "j", 8_388_609, 9, "voxdag: too long j\n"),
    ("dag m j o", "j", 8_388_608, 12, "voxdag: journal 1\n"),
    ("audit m j s", "j", 8_388_609, 9, "voxdag: too long j\n"),
    ("audit m j s", "s", 8_388_609, 9, "voxdag: too long s\n"),
    (
        "audit m j s",
        "s.out",
        8_388_609,
        9,
        "voxdag: too long s.out\n",
    ),
    (
        "audit m j s",
        "s.out",
        8_388_608,
        15,
        "voxdag: transcript 0 1\n",
    ),
];

fn is_long<R: Threads + Wait + Sync>(
    rt: &R,
    alloc: Global,
    row: &(&str, &str, usize, u8, &str),
) -> Result<(), Fail> {
    let &(line, name, length, status, printed) = row;
    let mut shelf = shelf(alloc)?;
    let mut text = Vec::from_slice(alloc, b"\n")?;
    text.resize(length, b'\n')?;
    shelf.write(name, text.as_slice())?;
    ends(rt, alloc, line, &mut shelf, status, printed)?;
    lacks(&shelf, "o")
}

#[test]
fn long_files_are_refused(rt: HostRuntime) -> Result<(), Fail> {
    for row in LONG {
        is_long(&rt, rt.alloc(), row)?;
    }
    Ok(())
}

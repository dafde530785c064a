//! Questions of files of many versions, asked by the program, and the same ones asked in a run.

use crate::calls::{ONE, ends, has};
use std::alloc::Global;
use std::test::Fail;
use vw_io::{MemoryShelf, Shelf};

/// A file of a world of 8 cells: version 0 is empty, and all cells of version 1 are set.
pub const FULL: [u8; 80] = *b"VDAG\x01\0\0\0\x08\0\0\0\x02\0\0\0\x01\0\0\0\x01\0\0\0\
    \xff\xff\xff\xff\xff\xff\xff\xff\
    \x01\0\0\0\x01\0\0\0\x01\0\0\0\x01\0\0\0\x01\0\0\0\x01\0\0\0\x01\0\0\0\x01\0\0\0\
    \0\0\0\0\0\0\0\0\x01\0\0\0\x01\0\0\0";

/// A file of a world of 16 cells, made by hand. Version 0 has the cells (4, 4, 4), (0, 8, 0) and
/// (5, 12, 4), version 2 has eight cells, and version 5 has nine.
pub const SIXTEEN: [u8; 260] = *b"VDAG\x01\0\0\0\x10\0\0\0\x03\0\0\0\x02\0\0\0\x03\0\0\0\x03\0\0\0\
    \x01\0\0\0\0\0\0\0\x02\0\0\0\0\0\0\0\
    \0\0\0\0\0\0\0\0\0\0\0\0\0\0\0\0\0\0\0\0\0\0\0\0\0\0\0\0\x01\0\0\0\
    \x01\0\0\0\0\0\0\0\0\0\0\0\0\0\0\0\0\0\0\0\0\0\0\0\0\0\0\0\x02\0\0\0\
    \x02\0\0\0\x02\0\0\0\x02\0\0\0\x02\0\0\0\x02\0\0\0\x02\0\0\0\x02\0\0\0\x02\0\0\0\
    \0\0\0\0\0\0\0\0\0\0\0\0\0\0\0\0\0\0\0\0\0\0\0\0\x03\0\0\0\x01\0\0\0\
    \x01\0\0\0\0\0\0\0\x02\0\0\0\0\0\0\0\0\0\0\0\0\0\0\0\0\0\0\0\0\0\0\0\
    \x03\0\0\0\0\0\0\0\0\0\0\0\0\0\0\0\0\0\0\0\0\0\0\0\0\0\0\0\0\0\0\0\
    \0\0\0\0\x02\0\0\0\x02\0\0\0\x03\0\0\0\x05\0\0\0\x01\0\0\0";

// The bytes with one of them changed.
fn changed(alloc: Global, bytes: &[u8], at: usize, byte: u8) -> Result<Vec<u8>, Fail> {
    let mut changed = Vec::from_slice(alloc, bytes)?;
    if at < changed.len() {
        changed[at] = byte;
    }
    Ok(changed)
}

fn shelf(alloc: Global) -> Result<MemoryShelf, Fail> {
    let mut shelf = MemoryShelf::new(alloc);
    shelf.write("one.vox", &ONE)?;
    shelf.write("full", &FULL)?;
    shelf.write("sixteen", &SIXTEEN)?;
    shelf.write("nothing", b"")?;
    let mut empty_leaf = Vec::from_slice(alloc, &FULL[..24])?;
    empty_leaf.extend_from_slice(&[0; 8])?;
    empty_leaf.extend_from_slice(&FULL[32..])?;
    shelf.write("empty-leaf", &empty_leaf)?;
    let mut longer = Vec::from_slice(alloc, &FULL)?;
    longer.push(0)?;
    shelf.write("longer", &longer)?;
    shelf.write("unnamed", &changed(alloc, &FULL, 76, 0)?)?;
    shelf.write("cut", &FULL[..79])?;
    Ok(shelf)
}

// The words behind `look`, and what is put.
const LOOKS: &[(&str, &str)] = &[
    ("look full 1 count 0 0 0 8 8 8", "count 512\n"),
    ("look full 000001 count 000000001 0 0 7 8 8", "count 448\n"),
    ("look full 0 count 0 0 0 8 8 8", "count 0\n"),
    ("look full 0 bounds", "bounds none\n"),
    ("look full 1 bounds", "bounds 0 0 0 8 8 8\n"),
    ("look full 1 get 7 7 7", "set\n"),
    ("look full 0 get 7 7 7", "clear\n"),
    ("look full 1 faces 0 0 0 8 8 8", "faces 384\n"),
    ("look full 1 ray 7 0 7 0 -1 0", "hit 7 0 7\n"),
    ("look full 0 ray 7 0 7 0 1 -0", "miss\n"),
    ("look sixteen 2 count 0 0 0 16 16 16", "count 8\n"),
    ("look sixteen 2 bounds", "bounds 1 0 0 5 5 5\n"),
    ("look sixteen 5 bounds", "bounds 1 8 8 12 5 5\n"),
    ("look sixteen 5 get 12 12 12", "set\n"),
];

#[test]
fn versions_of_a_file_are_asked(rt: HostRuntime) -> Result<(), Fail> {
    let mut shelf = shelf(rt.alloc())?;
    for &(line, printed) in LOOKS {
        ends(&rt, rt.alloc(), line, &mut shelf, 0, printed)?;
    }
    Ok(())
}

// What is asked of version 0 of the file of 16 cells, and the answer.
const SAME: &[(&str, &str)] = &[
    ("look sixteen 0 get 5 12 4", "set\n"),
    ("look sixteen 0 get 4 12 4", "clear\n"),
    ("look sixteen 0 count 0 8 0 8 8 8", "count 2\n"),
    ("look sixteen 0 bounds", "bounds 0 4 0 6 9 5\n"),
    ("look sixteen 0 faces 0 0 0 16 16 16", "faces 18\n"),
    ("look sixteen 0 ray 15 4 4 -1 0 0", "hit 4 4 4\n"),
    ("look sixteen 0 ray 0 0 0 1 0 0", "miss\n"),
];

// A run that makes the same cells, with the same questions.
const SCRIPT: &[u8] = b"fill 4 4 4 1 1 1\nfill 0 8 0 1 1 1\nfill 5 12 4 1 1 1\n\
    get 5 12 4\nget 4 12 4\ncount 0 8 0 8 8 8\nbounds\nfaces 0 0 0 16 16 16\n\
    ray 15 4 4 -1 0 0\nray 0 0 0 1 0 0\n";

const ANSWERS: &str = "1 @1 ok\n2 @2 ok\n3 @3 ok\n\
    4 @3 set\n5 @3 clear\n6 @3 count 2\n7 @3 bounds 0 4 0 6 9 5\n8 @3 faces 18\n\
    9 @3 hit 4 4 4\n10 @3 miss\n";

#[test]
fn a_run_with_the_same_cells_answers_the_same(rt: HostRuntime) -> Result<(), Fail> {
    let mut shelf = shelf(rt.alloc())?;
    for &(line, printed) in SAME {
        ends(&rt, rt.alloc(), line, &mut shelf, 0, printed)?;
    }
    shelf.write("s", SCRIPT)?;
    let printed = "scripts 1 records 3 marks 0 nodes 8\n";
    let line = "run --side 16 one.vox s";
    ends(&rt, rt.alloc(), line, &mut shelf, 0, printed)?;
    has(&shelf, "s.out", ANSWERS)
}

const REFUSED: &[(&str, u8, &str)] = &[
    ("look full 2 bounds", 10, "voxdag: no place\n"),
    ("look full 1 get 8 0 0", 10, "voxdag: no place\n"),
    ("look full 1 get 999999999 0 0", 10, "voxdag: no place\n"),
    ("look full 1 count 0 0 0 9 1 1", 10, "voxdag: no place\n"),
    ("look full 1 faces 0 0 0 1 0 1", 10, "voxdag: no place\n"),
    ("look full 1 ray 0 0 0 0 0 0", 10, "voxdag: no place\n"),
    ("look full 1 ray 0 0 0 1025 0 0", 10, "voxdag: no place\n"),
    ("look empty-leaf 1 bounds", 14, "voxdag: dag 24\n"),
    ("look longer 1 bounds", 14, "voxdag: dag 80\n"),
    ("look longer 2 bounds", 14, "voxdag: dag 80\n"),
    ("look unnamed 1 bounds", 14, "voxdag: dag 32\n"),
    ("look cut 1 bounds", 14, "voxdag: dag 76\n"),
    ("look nothing 1 bounds", 14, "voxdag: dag 0\n"),
    ("look no 1 bounds", 2, "voxdag: missing no\n"),
    ("look full 1", 1, "voxdag: usage\n"),
    ("look full 1 bound", 1, "voxdag: usage\n"),
    ("look full 1 save 0 0 0 1 1 1", 1, "voxdag: usage\n"),
    ("look full 1 bounds 1", 1, "voxdag: usage\n"),
    ("look full 1234567 bounds", 1, "voxdag: usage\n"),
    ("look full -1 bounds", 1, "voxdag: usage\n"),
    ("look full 1 get 0 0", 1, "voxdag: usage\n"),
    ("look full 1 get 0 0 1234567890", 1, "voxdag: usage\n"),
    ("look full 1 get 0 -1 0", 1, "voxdag: usage\n"),
    ("look full 1 count 0 0 0 8 8", 1, "voxdag: usage\n"),
    ("look full 1 ray 0 0 0 1 0 --1", 1, "voxdag: usage\n"),
    ("look full 1 ray -1 0 0 1 0 0", 1, "voxdag: usage\n"),
    ("look full 1 ray 0 0 0 1 0 -", 1, "voxdag: usage\n"),
    ("look -full 1 bounds", 1, "voxdag: usage\n"),
    ("look --side 8 full 1 bounds", 1, "voxdag: usage\n"),
];

#[test]
fn a_look_that_is_refused(rt: HostRuntime) -> Result<(), Fail> {
    let mut shelf = shelf(rt.alloc())?;
    for &(line, status, printed) in REFUSED {
        ends(&rt, rt.alloc(), line, &mut shelf, status, printed)?;
    }
    Ok(())
}

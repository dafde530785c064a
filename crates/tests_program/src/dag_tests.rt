//! Files of the versions of journals, made by the program.

use crate::calls::{ONE, ends, holds, lacks};
use std::alloc::Global;
use std::test::Fail;
use vw_io::{MemoryShelf, Shelf};

/// The file of a world of 8 cells: version 0 is empty, and all cells of version 1 are set.
const FULL: [u8; 80] = *b"VDAG\x01\0\0\0\x08\0\0\0\x02\0\0\0\x01\0\0\0\x01\0\0\0\
    \xff\xff\xff\xff\xff\xff\xff\xff\
    \x01\0\0\0\x01\0\0\0\x01\0\0\0\x01\0\0\0\x01\0\0\0\x01\0\0\0\x01\0\0\0\x01\0\0\0\
    \0\0\0\0\0\0\0\0\x01\0\0\0\x01\0\0\0";

/// The same of version 0, which is empty, and of version 2, of which two of eight blocks are full.
const CORNERS: [u8; 80] = *b"VDAG\x01\0\0\0\x08\0\0\0\x02\0\0\0\x01\0\0\0\x01\0\0\0\
    \xff\xff\xff\xff\xff\xff\xff\xff\
    \x01\0\0\0\0\0\0\0\0\0\0\0\0\0\0\0\0\0\0\0\0\0\0\0\0\0\0\0\x01\0\0\0\
    \0\0\0\0\0\0\0\0\x02\0\0\0\x01\0\0\0";

/// The file of version 0 alone.
const EMPTY: [u8; 32] = *b"VDAG\x01\0\0\0\x08\0\0\0\x01\0\0\0\0\0\0\0\0\0\0\0\
    \0\0\0\0\0\0\0\0";

fn shelf(alloc: Global, journal: &str) -> Result<MemoryShelf, Fail> {
    let mut shelf = MemoryShelf::new(alloc);
    shelf.write("one.vox", &ONE)?;
    shelf.write("j", journal.as_bytes())?;
    Ok(shelf)
}

// A journal, and the file of its versions.
const MADE: &[(&str, &[u8])] = &[
    (
        "voxdag journal 1\nside 8\n1 0 1 fill 0 0 0 8 8 8\nend\n",
        &FULL,
    ),
    (
        "voxdag journal 1\nside 8\n1 0 1 fill 0 0 0 4 4 4\n2 0 2 fill 4 4 4 4 4 4\nmark 1 2 0 3\nend\n",
        &CORNERS,
    ),
    ("voxdag journal 1\nside 8\nend\n", &EMPTY),
];

#[test]
fn versions_of_a_journal_are_written(rt: HostRuntime) -> Result<(), Fail> {
    for &(journal, made) in MADE {
        let mut shelf = shelf(rt.alloc(), journal)?;
        ends(&rt, rt.alloc(), "dag one.vox j d", &mut shelf, 0, "")?;
        holds(&shelf, "d", made)?;
    }
    Ok(())
}

// A journal that is refused, and the line that says why.
const REFUSED: &[(&str, &str)] = &[
    ("voxdag journal 2\n", "voxdag: journal 2\n"),
    ("voxdag journal 2\nside 2048\nend\n", "voxdag: journal 2\n"),
    (
        "voxdag journal 1\nside 8\n1 0 1 undo\nend\n",
        "voxdag: journal 3\n",
    ),
    (
        "voxdag journal 1\nside 8\n1 0 1 stamp 1 0 0 0\nend\n",
        "voxdag: journal 3\n",
    ),
    (
        "voxdag journal 1\nside 8\n1 0 1 fill 0 0 0 1 1 1\n2 0 2 undo\nmark 0 1 0 3\nend\n",
        "voxdag: journal 4\n",
    ),
    (
        "voxdag journal 1\nside 8\n1 0 1 undo\n2 0 2 undone\nend\n",
        "voxdag: journal 4\n",
    ),
];

#[test]
fn illegal_records_are_told(rt: HostRuntime) -> Result<(), Fail> {
    for &(journal, printed) in REFUSED {
        let mut shelf = shelf(rt.alloc(), journal)?;
        ends(&rt, rt.alloc(), "dag one.vox j d", &mut shelf, 12, printed)?;
        lacks(&shelf, "d")?;
    }
    Ok(())
}

// A line, its status, and what it prints.
const LINES: &[(&str, u8, &str)] = &[
    ("dag one.vox j", 1, "voxdag: usage\n"),
    ("dag one.vox j j", 1, "voxdag: usage\n"),
    ("dag one.vox j one.vox", 1, "voxdag: usage\n"),
    ("dag one.vox j d e", 1, "voxdag: usage\n"),
    ("dag one.vox no d", 2, "voxdag: missing no\n"),
    ("dag j j d", 4, "voxdag: vox 1 0\n"),
    ("dag one.vox one.vox d", 12, "voxdag: journal 1\n"),
    // an undo goes to a version that is forgotten behind it
    ("dag one.vox j d", 0, ""),
    ("look d 2 count 0 0 0 8 8 8", 0, "count 0\n"),
    ("look d 1 count 0 0 0 8 8 8", 0, "count 1\n"),
    ("look d 0 bounds", 10, "voxdag: no place\n"),
];

#[test]
fn words_of_dag(rt: HostRuntime) -> Result<(), Fail> {
    let journal =
        "voxdag journal 1\nside 8\n1 0 1 fill 0 0 0 1 1 1\n2 0 2 undo\nmark 0 2 0 3\nend\n";
    let mut shelf = shelf(rt.alloc(), journal)?;
    for &(line, status, printed) in LINES {
        ends(&rt, rt.alloc(), line, &mut shelf, status, printed)?;
    }
    Ok(())
}

// A journal by chance, the length of its file, and one number of all its bytes, as the slow writer
// in oracle/dag.py has them.
const BY_CHANCE: &[(&str, usize, u64)] = &[
    (
        "voxdag journal 1\n\
        side 32\n1 0 76 copy 14 21 7 4 5 6 to 28 13 12\n2 2 56 undo\n\
        3 1 58 stamp 0 23 17 3\n4 2 48 erase 16 23 2 3 6 6\n5 1 15 fill 22 21 25 5 4 3\n\
        6 2 19 undo\n7 0 25 redo\nmark 1 7 1 51\nmark 6 7 1 2\nend\n",
        408,
        317732924783266337,
    ),
    (
        "voxdag journal 1\n\
        side 8\n1 1 24 carve 4 6 6 1\n2 0 54 ball 2 1 0 3\n3 0 62 undo\n4 2 14 redo\n\
        5 2 78 copy 1 0 3 3 6 5 to 5 2 2\n6 0 8 ball 5 1 1 1\n7 2 13 stamp 0 7 6 4\n\
        8 1 11 fill 2 0 4 5 5 3\nmark 4 8 1 3\nmark 6 8 1 68\nend\n",
        288,
        4597495183964472774,
    ),
    (
        "voxdag journal 1\n\
        side 4\n1 0 37 stamp 0 1 3 3\n2 1 52 stamp 0 1 2 2\n3 0 42 erase 2 2 0 1 1 1\n\
        4 0 2 undo\n5 1 35 undo\n6 1 14 redo\n7 2 65 stamp 0 2 2 2\n\
        8 0 20 copy 2 0 1 1 4 3 to 0 0 0\nmark 0 8 2 78\nmark 2 8 1 76\nmark 6 7 0 55\n\
        end\n",
        100,
        16930651447495350059,
    ),
];

#[test]
fn files_are_those_of_a_slow_writer(rt: HostRuntime) -> Result<(), Fail> {
    for &(journal, length, number) in BY_CHANCE {
        let mut shelf = shelf(rt.alloc(), journal)?;
        ends(&rt, rt.alloc(), "dag one.vox j d", &mut shelf, 0, "")?;
        is_of(&shelf, length, number)?;
    }
    Ok(())
}

// The file that was written has this length and number.
fn is_of(shelf: &MemoryShelf, length: usize, number: u64) -> Result<(), Fail> {
    let file = shelf.file("d").unwrap_or_default();
    let found = file.len();
    let summed = number_of(file);
    if found == length && summed == number {
        return Ok(());
    }
    Err(Fail::new(format_args!(
        "d: wanted are {length} bytes, {number}; found are {found}, {summed}"
    )))
}

// For each byte in turn 31 times what was before, plus the byte.
fn number_of(file: &[u8]) -> u64 {
    let mut number: u64 = 0;
    for byte in file {
        number = number.wrapping_mul(31).wrapping_add(u64::from(*byte));
    }
    number
}
